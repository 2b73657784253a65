// A graph for the eye: its words line by line, and as Graphviz dot text.
// Machines by shape, flags dashed, starts and results marked; where a kind has several inputs or outputs that differ, each is marked at its end of
// the wire. A token that stands on a wire is written behind the wire's number. A node that has a name shows it in a second line.
// Tokens and constants are words of the run: `signed` writes them with a sign.
// Nothing is asked of the words: what is not there reads as 0, and so does a count past 8,192.
#![tactic(auto)]

ghost use Rattle.std.specs.Prelude.{◌≡◌, ◌<◌, ◌^◌, ◌≤◌};

use std::io::Write;
use std::{fmt, io};
use text::Word;
use told::{Code, NodeKind};

const MOST: u32 = 8192;

pub fn word_at(words: &[u32], i: usize) -> u32 {
    words.get(i).copied().unwrap_or(0)
}

// `count` words from `from` on, with spaces between.
#[derive(Clone, Copy, Debug)]
pub struct Line<'a> {
    words: &'a [u32],
    from: usize,
    count: u32,
}

impl<'a> fmt::Display for Line<'a> {
    fn fmt<W: fmt::Write>(&self, f: &mut fmt::Formatter<W>) -> fmt::Result {
        for i in 0..self.count {
            let gap = if i == 0 { "" } else { " " };
            let word = word_at(self.words, self.from.saturating_add(i as usize));
            write!(f, "{gap}{word}")?;
        }
        Ok(())
    }
}

// The words of a graph.
#[derive(Clone, Copy, Debug)]
pub struct Graph<'a>(pub &'a [u32]);

// A start: an input and its number, or a constant and its word.
#[derive(Clone, Copy, Debug)]
pub struct Start {
    pub kind: u32,
    pub word: u32,
}

// A node, as the words of its row say: among them the wires that it takes, and the first that it gives.
#[derive(Clone, Copy, Debug)]
pub struct Node {
    pub number: u32,
    pub kind: u32,
    pub code: u32,
    pub sort: u32,
    pub takes: [u32; 3],
    pub gives: u32,
}

impl<'a> Graph<'a> {
    // A count of the header, or 0 where it is past every limit.
    fn count(self, i: usize) -> u32
        ensures { result ≤ 8192 }
    {
        let count = word_at(self.0, i);
        if count <= MOST { count } else { 0 }
    }

    pub fn nodes(self) -> u32
        ensures { result ≤ 8192 }
    {
        self.count(0)
    }

    pub fn wires(self) -> u32
        ensures { result ≤ 8192 }
    {
        self.count(1)
    }

    pub fn starts(self) -> u32
        ensures { result ≤ 8192 }
    {
        self.count(2)
    }

    pub fn results(self) -> u32
        ensures { result ≤ 8192 }
    {
        self.count(3)
    }

    fn start_place(self, k: u32) -> usize
        ensures { result < 2 ^ 34 }
    {
        4 + 2 * k as usize
    }

    pub fn start(self, k: u32) -> Start {
        let place = self.start_place(k);
        Start {
            kind: word_at(self.0, place),
            word: word_at(self.0, place + 1),
        }
    }

    fn results_place(self) -> usize
        ensures { result < 2 ^ 34 }
    {
        self.start_place(self.starts())
    }

    // The wire of result k.
    pub fn result(self, k: u32) -> u32 {
        word_at(self.0, self.results_place() + k as usize)
    }

    fn row_place(self, i: u32) -> usize
        ensures { result < 2 ^ 36 }
    {
        self.results_place() + self.results() as usize + 7 * i as usize
    }

    pub fn node(self, i: u32) -> Node
        ensures { result.number ≡ i }
    {
        let place = self.row_place(i);
        Node {
            number: i,
            kind: word_at(self.0, place),
            code: word_at(self.0, place + 1),
            sort: word_at(self.0, place + 2),
            takes: [
                word_at(self.0, place + 3),
                word_at(self.0, place + 4),
                word_at(self.0, place + 5),
            ],
            gives: word_at(self.0, place + 6),
        }
    }

    // Whether a wire is a start, which no node gives.
    fn is_start(self, wire: u32) -> bool {
        wire < word_at(self.0, 2)
    }

    // The node that gives a wire, or what stands behind the last where none does.
    fn source_of(self, wire: u32) -> Node {
        let last = self.nodes();
        for i in 0..last {
            let node = self.node(i);
            if node.gives_wire(wire) {
                return node;
            }
        }
        self.node(last)
    }

    // The words of a part of the graph.

    fn line(self, from: usize, count: u32) -> Line<'a> {
        Line {
            words: self.0,
            from,
            count,
        }
    }

    pub fn header(self) -> Line<'a> {
        self.line(0, 4)
    }

    pub fn start_words(self, k: u32) -> Line<'a> {
        self.line(self.start_place(k), 2)
    }

    pub fn row(self, i: u32) -> Line<'a> {
        self.line(self.row_place(i), 7)
    }
}

impl Node {
    // The wires that it takes, in order.
    pub fn inputs(&self) -> &[u32] {
        self.takes
            .get(..graph::inputs_of(self.kind) as usize)
            .unwrap_or(&[])
    }

    // How many wires it gives.
    pub fn outputs(&self) -> u32 {
        graph::outputs_of(self.kind)
    }

    fn gives_wire(&self, wire: u32) -> bool {
        match wire.checked_sub(self.gives) {
            Some(k) => k < self.outputs(),
            None => false,
        }
    }

    // The sort of a wire that it gives: its first output or its second.
    fn sort_of(&self, wire: u32) -> u32 {
        let place = if wire == self.gives { 0 } else { 1 };
        graph::output_sort(self.kind, self.code, self.sort, place)
    }
}

// The words of a graph: a line for the header, for starts, for results and for each node.
pub fn write_graph<W: Write>(to: &mut W, graph: Graph<'_>) -> io::Result<()> {
    let header = graph.header();
    let starts = graph.line(4, 2 * graph.starts());
    let results = graph.line(graph.results_place(), graph.results());
    write!(to, "{header}\n{starts}\n{results}\n")?;
    for i in 0..graph.nodes() {
        let row = graph.row(i);
        writeln!(to, "{row}")?;
    }
    Ok(())
}

// The words of a state.
#[derive(Clone, Copy, Debug)]
pub struct State<'a>(pub &'a [u32]);

impl<'a> State<'a> {
    // The word on a wire, whether a token stands there or not.
    pub fn word(self, wire: u32) -> u32 {
        word_at(self.0, 2 * wire as usize + 1)
    }

    // The word of the token on a wire, if one stands there.
    pub fn token(self, wire: u32) -> Option<u32> {
        if word_at(self.0, 2 * wire as usize) == 0 {
            return None;
        }
        Some(self.word(wire))
    }
}

// Names of nodes and of wires, three words each: what it is, its row, and of a copy the value's row. Where there are no words there are no names.
#[derive(Clone, Copy, Debug)]
pub struct Names<'a> {
    pub nodes: &'a [u32],
    pub wires: &'a [u32],
}

#[derive(Clone, Copy, Debug)]
pub struct Name {
    pub what: u32,
    pub row: u32,
    pub copied: u32,
}

fn name_at(names: &[u32], k: u32) -> Option<Name> {
    match names.get(3 * k as usize..)? {
        [what, row, copied, ..] => Some(Name {
            what: *what,
            row: *row,
            copied: *copied,
        }),
        _ => None,
    }
}

impl<'a> Names<'a> {
    pub fn node(self, i: u32) -> Option<Name> {
        name_at(self.nodes, i)
    }

    pub fn wire(self, w: u32) -> Option<Name> {
        name_at(self.wires, w)
    }
}

// What is shown of a graph, with what stands on its wires and in its records.
#[derive(Clone, Copy, Debug)]
pub struct View<'a> {
    pub graph: Graph<'a>,
    pub state: State<'a>,
    pub names: Names<'a>,
    pub signed: bool,
}

impl<'a> View<'a> {
    pub fn word(self, word: u32) -> Word {
        Word {
            word,
            signed: self.signed,
        }
    }
}

// Names in few words.

// A row of the table, or for the copy of a value the value's row and its loop's.
#[derive(Clone, Copy, Debug)]
struct Rows {
    copy: bool,
    name: Name,
}

impl fmt::Display for Rows {
    fn fmt<W: fmt::Write>(&self, f: &mut fmt::Formatter<W>) -> fmt::Result {
        let row = self.name.row;
        let copied = self.name.copied;
        if self.copy {
            return write!(f, "{copied} in FOR {row}");
        }
        write!(f, "{row}")
    }
}

// What a wire before forks has.
#[derive(Clone, Copy, Debug)]
struct Carried(Name);

impl fmt::Display for Carried {
    fn fmt<W: fmt::Write>(&self, f: &mut fmt::Formatter<W>) -> fmt::Result {
        let name = self.0;
        let what = match name.what {
            0 | 1 => "row ",
            2 => "raw index, FOR ",
            3 => "raw condition, FOR ",
            4 => "index, FOR ",
            5 => "gated condition, FOR ",
            6 => "guard, FOR ",
            7 => "true leg, copy of row ",
            8 => "false leg, copy of row ",
            9 => "copy of row ",
            10 => "carry, ARG ",
            11 => "ARG ",
            12 => "exit word, ARG ",
            _ => "",
        };
        let rows = Rows {
            copy: matches!(name.what, 7..=9),
            name,
        };
        write!(f, "{what}{rows}")
    }
}

// What a node is for: its row, or of a FORK (from 16 on) or DRAIN (from 32 on) what its wire has.
#[derive(Clone, Copy, Debug)]
struct Role(Name);

impl fmt::Display for Role {
    fn fmt<W: fmt::Write>(&self, f: &mut fmt::Formatter<W>) -> fmt::Result {
        let name = self.0;
        if name.what < 16 {
            let what = match name.what {
                0 => "row ",
                1 | 2 => "FOR ",
                3 => "guard, FOR ",
                4 | 5 => "copy of row ",
                6 | 7 => "ARG ",
                _ => "",
            };
            let rows = Rows {
                copy: matches!(name.what, 4..=5),
                name,
            };
            return write!(f, "{what}{rows}");
        }
        let what = if name.what < 32 {
            name.what - 16
        } else {
            name.what - 32
        };
        let carried = Carried(Name { what, ..name });
        write!(f, "of {carried}")
    }
}

// A drawing.

fn shape(kind: u32) -> &'static str {
    match kind {
        0 => "house",
        1 => "invhouse",
        2 => "box",
        3 => "box3d",
        4 => "diamond",
        5 => "triangle",
        6 => "invtriangle",
        7 => "circle",
        8 => "trapezium",
        _ => "",
    }
}

// A node's number, its kind, and what its code says; in a second line its name, if it has one.
fn write_node<W: Write>(to: &mut W, node: Node, names: Names<'_>) -> io::Result<()> {
    let number = node.number;
    let kind = NodeKind(node.kind);
    let code = Code {
        kind: node.kind,
        code: node.code,
    };
    write!(to, "n{number} [label=\"{number} {kind}{code}")?;
    if let Some(name) = names.node(number) {
        let role = Role(name);
        write!(to, "\\n{role}")?;
    }
    let shape = shape(node.kind);
    writeln!(to, "\" shape={shape}];")
}

// What input k of a kind is called; FORK and DRAIN have one input, which needs no name.
fn input_mark(kind: u32, k: usize) -> &'static str {
    match (kind, k) {
        (0, 0) => "start",
        (0, 1) => "step",
        (0, _) => "bound",
        (1, 0) | (4, 1) => "value",
        (1, 1) => "cond",
        (2, 0) | (3, 0) => "d",
        (2, 1) | (3, 1) => "a",
        (2, _) => "b",
        (4, 0) | (8, 0) => "flag",
        (7, 0) | (8, 1) => "x",
        (7, 1) | (8, _) => "y",
        _ => "",
    }
}

// What an output of a kind is called, its first or its second; a FORK's two are alike.
fn output_mark(kind: u32, first: bool) -> &'static str {
    match (kind, first) {
        (0, true) => "index",
        (1, true) => "value",
        (0, false) | (1, false) => "cond",
        (4, true) => "T",
        (4, false) => "F",
        _ => "",
    }
}

// What stands at one end of a wire, if it has a mark.
fn write_end<W: Write>(to: &mut W, end: &str, mark: &str) -> io::Result<()> {
    if mark.is_empty() {
        return Ok(());
    }
    write!(to, " {end}label=\"{mark}\"")
}

// Where a wire comes from, a start or a node, and its reader.
fn write_arrow<W: Write>(
    to: &mut W,
    source: Option<Node>,
    wire: u32,
    reader: &str,
) -> io::Result<()> {
    match source {
        None => write!(to, "s{wire}")?,
        Some(node) => {
            let number = node.number;
            write!(to, "n{number}")?;
        }
    }
    write!(to, " -> {reader}")
}

// A wire as an edge to what `reader` and `number` name, up to what its reader calls it: its number, the token on it, its sort, its source's mark and its name.
fn write_edge<W: Write>(
    to: &mut W,
    view: View<'_>,
    wire: u32,
    reader: &str,
    number: u32,
) -> io::Result<()> {
    let source = if view.graph.is_start(wire) {
        None
    } else {
        Some(view.graph.source_of(wire))
    };
    write_arrow(to, source, wire, reader)?;
    write!(to, "{number} [label=\"{wire}")?;
    if let Some(word) = view.state.token(wire) {
        let word = view.word(word);
        write!(to, ": {word}")?;
    }
    match source {
        Some(node) if node.sort_of(wire) != 0 => to.write_all(b"\" style=dashed")?,
        _ => to.write_all(b"\" style=solid")?,
    }
    if let Some(node) = source {
        write_end(to, "tail", output_mark(node.kind, wire == node.gives))?;
    }
    if let Some(name) = view.names.wire(wire) {
        let carried = Carried(name);
        write!(to, " tooltip=\"{carried}\"")?;
    }
    Ok(())
}

// Node i and the wires to it: its inputs in order.
pub fn write_part<W: Write>(to: &mut W, view: View<'_>, i: u32) -> io::Result<()> {
    let node = view.graph.node(i);
    write_node(to, node, view.names)?;
    for (k, wire) in node.inputs().iter().enumerate() {
        write_edge(to, view, *wire, "n", i)?;
        write_end(to, "head", input_mark(node.kind, k))?;
        to.write_all(b"];\n")?;
    }
    Ok(())
}

// What stands above the nodes.
pub fn write_top<W: Write>(to: &mut W, view: View<'_>) -> io::Result<()> {
    to.write_all(b"digraph graph_of_tokens {\n")?;
    to.write_all(
        b"label=\"solid: words, dashed: flags; a wire has its number, then the token on it; T and F: the true and the false leg\";\n",
    )?;
    for k in 0..view.graph.starts() {
        let start = view.graph.start(k);
        let kind = match start.kind {
            0 => "input ",
            1 => "constant ",
            _ => "",
        };
        let word = view.word(start.word);
        writeln!(to, "s{k} [shape=plaintext label=\"{kind}{word}\"];")?;
    }
    Ok(())
}

// What stands below them.
pub fn write_bottom<W: Write>(to: &mut W, view: View<'_>) -> io::Result<()> {
    for k in 0..view.graph.results() {
        writeln!(to, "r{k} [shape=plaintext label=\"result {k}\"];")?;
        write_edge(to, view, view.graph.result(k), "r", k)?;
        to.write_all(b"];\n")?;
    }
    to.write_all(b"}\n")
}

// The whole drawing. A state of no words has no tokens.
pub fn write_drawing<W: Write>(to: &mut W, view: View<'_>) -> io::Result<()> {
    write_top(to, view)?;
    for i in 0..view.graph.nodes() {
        write_part(to, view, i)?;
    }
    write_bottom(to, view)
}

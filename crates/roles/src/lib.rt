// Where the nodes and wires of a lowered table come from: the row of the table, and the role there, put beside their numbers.
// Where there are no names, nothing is put.
#![tactic(auto)]

use drawn::{Name, Names, View};
use std::fmt;
use told::{Code, NodeKind};

// A node that is a FORK or a DRAIN of a wire has what the wire carries added to 16 or 32.
const OF_WIRE: u32 = 16;

// The row of a name; of a copy the row that is copied, and the loop that it is copied into.
#[derive(Clone, Copy, Debug)]
struct Rows {
    copy: bool,
    name: Name,
}

impl fmt::Display for Rows {
    fn fmt<W: fmt::Write>(&self, f: &mut fmt::Formatter<W>) -> fmt::Result {
        let row = self.name.row;
        let copied = self.name.copied;
        if self.copy {
            return write!(f, " {copied} in the loop of the FOR at row {row}");
        }
        write!(f, " {row}")
    }
}

// What a wire carries.
#[derive(Clone, Copy, Debug)]
struct Carried(Name);

impl fmt::Display for Carried {
    fn fmt<W: fmt::Write>(&self, f: &mut fmt::Formatter<W>) -> fmt::Result {
        let name = self.0;
        let what = match name.what {
            0 | 1 => "row",
            2 => "STREAM's index of the FOR at row",
            3 => "raw condition of the FOR at row",
            4 => "index of the FOR at row",
            5 => "gated condition of the FOR at row",
            6 => "guard of the FOR at row",
            7 => "true leg of the copy of row",
            8 => "false leg of the copy of row",
            9 => "copy of row",
            10 => "CARRY's word of the ARG at row",
            11 => "word of the ARG at row",
            12 => "exit word of the ARG at row",
            _ => "",
        };
        let rows = Rows {
            copy: matches!(name.what, 7..=9),
            name,
        };
        write!(f, "{what}{rows}")
    }
}

// The role of a node that a row has by itself.
#[derive(Clone, Copy, Debug)]
struct Own(Name);

impl fmt::Display for Own {
    fn fmt<W: fmt::Write>(&self, f: &mut fmt::Formatter<W>) -> fmt::Result {
        let name = self.0;
        let what = match name.what {
            0 => " of row",
            1 | 2 => " of the FOR at row",
            3 => ", the guard of the FOR at row",
            4 | 5 => " of the copy of row",
            6 | 7 => " of the ARG at row",
            _ => "",
        };
        let rows = Rows {
            copy: matches!(name.what, 4..=5),
            name,
        };
        write!(f, "{what}{rows}")
    }
}

// What a node is for, behind the name of its kind, as ` of the FOR at row 3`.
#[derive(Clone, Copy, Debug)]
struct Role(Name);

impl fmt::Display for Role {
    fn fmt<W: fmt::Write>(&self, f: &mut fmt::Formatter<W>) -> fmt::Result {
        let name = self.0;
        if name.what < OF_WIRE {
            let own = Own(name);
            return write!(f, "{own}");
        }
        let what = name.what % OF_WIRE;
        let carried = Carried(Name { what, ..name });
        if what < 2 {
            return write!(f, " of {carried}");
        }
        write!(f, " of the {carried}")
    }
}

// A node, as `node 0, STREAM += < of the FOR at row 3`.
#[derive(Clone, Copy, Debug)]
pub struct Node<'a> {
    node: drawn::Node,
    names: Names<'a>,
}

impl<'a> Node<'a> {
    pub fn new(view: View<'a>, node: drawn::Node) -> Self {
        Node {
            node,
            names: view.names,
        }
    }
}

impl<'a> fmt::Display for Node<'a> {
    fn fmt<W: fmt::Write>(&self, f: &mut fmt::Formatter<W>) -> fmt::Result {
        let number = self.node.number;
        let kind = NodeKind(self.node.kind);
        let code = Code {
            kind: self.node.kind,
            code: self.node.code,
        };
        write!(f, "node {number}, {kind}{code}")?;
        match self.names.node(number) {
            Some(name) => {
                let role = Role(name);
                write!(f, "{role}")
            }
            None => Ok(()),
        }
    }
}

// What a wire carries, in brackets.
#[derive(Clone, Copy, Debug)]
struct WireRole(Option<Name>);

impl fmt::Display for WireRole {
    fn fmt<W: fmt::Write>(&self, f: &mut fmt::Formatter<W>) -> fmt::Result {
        match self.0 {
            Some(name) => {
                let carried = Carried(name);
                write!(f, " ({carried})")
            }
            None => Ok(()),
        }
    }
}

// A wire behind a space, as ` 14 (row 1)`.
#[derive(Clone, Copy, Debug)]
pub struct Wire<'a> {
    wire: u32,
    names: Names<'a>,
}

impl<'a> Wire<'a> {
    pub fn new(view: View<'a>, wire: u32) -> Self {
        Wire {
            wire,
            names: view.names,
        }
    }
}

impl<'a> fmt::Display for Wire<'a> {
    fn fmt<W: fmt::Write>(&self, f: &mut fmt::Formatter<W>) -> fmt::Result {
        let wire = self.wire;
        let role = WireRole(self.names.wire(wire));
        write!(f, " {wire}{role}")
    }
}

// A wire and the word on it, as ` 14=0 (row 1)`.
#[derive(Clone, Copy, Debug)]
pub struct Token<'a> {
    wire: u32,
    word: text::Word,
    names: Names<'a>,
}

impl<'a> Token<'a> {
    pub fn new(view: View<'a>, wire: u32, word: u32) -> Self {
        Token {
            wire,
            word: view.word(word),
            names: view.names,
        }
    }
}

impl<'a> fmt::Display for Token<'a> {
    fn fmt<W: fmt::Write>(&self, f: &mut fmt::Formatter<W>) -> fmt::Result {
        let wire = self.wire;
        let word = self.word;
        let role = WireRole(self.names.wire(wire));
        write!(f, " {wire}={word}{role}")
    }
}

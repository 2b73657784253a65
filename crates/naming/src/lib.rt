// The rows beside a graph: each node and each wire of a lowered table named by what it is for and by the rows behind it.
#![tactic(auto)]

ghost use Rattle.std.specs.Prelude.{◌≡◌, cond, [], ◌∷◌, ℕ, ◌+◌, ◌-◌, ◌*◌, ◌<◌, ◌≤◌, leb, length, get_or};
ghost use Rattle.std.proofs.lemmas.List.Edits.{sets};
ghost use Rattle.graph.specs.Below.{joined};
ghost use Rattle.refusal.specs.Numbers.{refused_number, refused_row};
ghost use Rattle.table.specs.Kinds.{kind_number};
ghost use Rattle.table.specs.Rows.{kind_at, size};
ghost use Rattle.table.specs.Bodies.{operand};
ghost use Rattle.lowered.specs.Sources as sources;
ghost use Rattle.lowered.specs.Sources.{carried};
ghost use Rattle.lowered.specs.Lower.{plain_nodes, plain_wires};
ghost use Rattle.naming.specs.Names.{node_names, wire_names};
ghost use Rattle.naming.specs.Carried.{Body, Marked, Marks, UsesRight};
ghost use Rattle.naming.specs.Parts.{copy_names, row_names, start_names, output_names, output_names_by, first_what, two_outputs, times_over, forks_of, legs_of, fork_names_by, leg_names_by};
ghost use Rattle.naming.specs.Answers.{NameAnswer};
ghost use Rattle.naming.specs.Told.{named_nodes, named_wires};

use carrying::{Notes, Passed};
use forking::Uses;
use refusal::Refused;
use table::Kind;

// What a node is.
const OP_NODE: u32 = 0;

const STREAM: u32 = 1;

const GATE: u32 = 2;

const GUARD: u32 = 3;

const COPY_SPLIT: u32 = 4;

const COPY_INVARIANT: u32 = 5;

const CARRY: u32 = 6;

const ARG_SPLIT: u32 = 7;

// What a wire is that no node gives.
const START: u32 = 0;

// Added to what a wire is, for the nodes that copy or swallow it.
const FORKED: u32 = 16;

const DRAINED: u32 = 32;

// Whether body b is loop l, or lies in it: outward from b. A `while`, since each step reads the body around the last.
fn lies_in(notes: &Notes, l: u32, b: u32) -> bool
    requires { (l < notes.now.passed.rows) × (kind_at notes.now.passed.words.now l ≡ 4) × Body notes.now.passed.words.now b }
    ensures { result ≡ sources.inside notes.now.passed.words.now l b }
{
    let mut x = b;
    while x != notes.passed.rows {
        if x == l {
            return true;
        }
        x = carrying::noted_at(&notes.bodies, x);
    }
    false
}

// Marks the values that row r names.
fn mark_operands(table: &[u32], r: u32, count: u32, marks: &mut [u32; 512])
    requires { (r < size table.now) × (r < 512) × (count ≤ 3) × ((j : ℕ) → j < count → operand table.now r j < 512) }
    ensures { Marked table.now r count marks.old marks.new }
{
    for j in 0..count {
        let v = table::operand_at(table, r, j);
        marks[v as usize] = 1;
    }
}

// Marks what row r names, where it reads in loop l.
fn mark_row(notes: &Notes, l: u32, r: u32, marks: &mut [u32; 512])
    requires { (l < notes.now.passed.rows) × (kind_at notes.now.passed.words.now l ≡ 4) × (r < notes.now.passed.rows) × Marks notes.now.passed.words.now l r marks.old }
    ensures { Marks notes.now.passed.words.now l (r + 1) marks.new }
{
    let b = notes.reads_of(r);
    if lies_in(notes, l, b) {
        let count = table::operand_count(notes.passed.kind(r).number());
        mark_operands(notes.passed.words, r, count, marks);
    }
}

// The values that are named in loop l.
pub fn mark_loop(notes: &Notes, l: u32) -> [u32; 512]
    requires { (l < notes.now.passed.rows) × (kind_at notes.now.passed.words.now l ≡ 4) }
    ensures { Marks notes.now.passed.words.now l notes.now.passed.rows result }
{
    let mut marks = [0u32; 512];
    for r in 0..notes.passed.rows {
        mark_row(notes, l, r, &mut marks);
    }
    marks
}

// Whether value v is carried into loop l: named in it, at home outside.
pub fn is_carried(notes: &Notes, marks: &[u32; 512], l: u32, v: u32) -> bool
    requires { (l < notes.now.passed.rows) × (kind_at notes.now.passed.words.now l ≡ 4) × (v < notes.now.passed.rows) × Marks notes.now.passed.words.now l notes.now.passed.rows marks.now }
    ensures { result ≡ carried notes.now.passed.words.now l v }
{
    let h = notes.home_of(v);
    if lies_in(notes, l, h) {
        return false;
    }
    carrying::noted_at(marks, v) == 1
}

// The SPLIT and the INVARIANT of the copy of v for loop l, where there is one. Answers the place behind.
fn name_copy(
    notes: &Notes,
    marks: &[u32; 512],
    l: u32,
    v: u32,
    nodes: &mut [u32],
    at: usize,
) -> usize
    requires { (l < notes.now.passed.rows) × (kind_at notes.now.passed.words.now l ≡ 4) × (v < notes.now.passed.rows) × Marks notes.now.passed.words.now l notes.now.passed.rows marks.now × (at + length (copy_names notes.now.passed.words.now l v) ≤ length nodes.old) }
    ensures { (result ≡ at + length (copy_names notes.now.passed.words.now l v)) × (nodes.new ≡ sets nodes.old at (copy_names notes.now.passed.words.now l v)) }
{
    if is_carried(notes, marks, l, v) {
        forking::three(nodes, at, COPY_SPLIT, l, v);
        forking::three(nodes, at + 3, COPY_INVARIANT, l, v);
        return at + 6;
    }
    at
}

// The copies of all values for loop l, by rising row.
fn name_copies(notes: &Notes, l: u32, nodes: &mut [u32], at: usize) -> usize
    requires { (l < notes.now.passed.rows) × (kind_at notes.now.passed.words.now l ≡ 4) × (at + length (joined (copy_names notes.now.passed.words.now l) notes.now.passed.rows) ≤ length nodes.old) }
    ensures { (result ≡ at + length (joined (copy_names notes.now.passed.words.now l) notes.now.passed.rows)) × (nodes.new ≡ sets nodes.old at (joined (copy_names notes.now.passed.words.now l) notes.now.passed.rows)) }
{
    let marks = mark_loop(notes, l);
    let mut p = at;
    for v in 0..notes.passed.rows {
        p = name_copy(notes, &marks, l, v, nodes, p);
    }
    p
}

// FOR: the STREAM, the GATE, the guard, then the copies.
fn name_loop(notes: &Notes, l: u32, nodes: &mut [u32], at: usize) -> usize
    requires { (l < notes.now.passed.rows) × (kind_at notes.now.passed.words.now l ≡ 4) × (at + length (row_names notes.now.passed.words.now l) ≤ length nodes.old) }
    ensures { (result ≡ at + length (row_names notes.now.passed.words.now l)) × (nodes.new ≡ sets nodes.old at (row_names notes.now.passed.words.now l)) }
{
    forking::three(nodes, at, STREAM, l, 0);
    forking::three(nodes, at + 3, GATE, l, 0);
    forking::three(nodes, at + 6, GUARD, l, 0);
    name_copies(notes, l, nodes, at + 9)
}

// The nodes of row r. Answers the place behind.
fn name_row(notes: &Notes, r: u32, nodes: &mut [u32], at: usize) -> usize
    requires { (r < notes.now.passed.rows) × (at + length (row_names notes.now.passed.words.now r) ≤ length nodes.old) }
    ensures { (result ≡ at + length (row_names notes.now.passed.words.now r)) × (nodes.new ≡ sets nodes.old at (row_names notes.now.passed.words.now r)) }
{
    match notes.passed.kind(r) {
        Kind::Op | Kind::Pick => {
            forking::three(nodes, at, OP_NODE, r, 0);
            at + 3
        }
        Kind::For => name_loop(notes, r, nodes, at),
        Kind::Arg => {
            forking::three(nodes, at, CARRY, r, 0);
            forking::three(nodes, at + 3, ARG_SPLIT, r, 0);
            at + 6
        }
        _ => at,
    }
}

// The nodes before forks, row by row.
fn name_rows(notes: &Notes, nodes: &mut [u32])
    requires { length (joined (row_names notes.now.passed.words.now) notes.now.passed.rows) ≤ length nodes.old }
    ensures { nodes.new ≡ sets nodes.old 0 (joined (row_names notes.now.passed.words.now) notes.now.passed.rows) }
{
    let mut p = 0;
    for r in 0..notes.passed.rows {
        p = name_row(notes, r, nodes, p);
    }
}

// The wire of a start of row r, where it is one. Answers the place behind.
fn name_start(kind: Kind, r: u32, wires: &mut [u32], at: usize) -> usize
    requires { at + length (cond (leb (kind_number kind) 1) (0 ∷ r ∷ 0 ∷ []) []) ≤ length wires.old }
    ensures { (result ≡ at + length (cond (leb (kind_number kind) 1) (0 ∷ r ∷ 0 ∷ []) [])) × (wires.new ≡ sets wires.old at (cond (leb (kind_number kind) 1) (0 ∷ r ∷ 0 ∷ []) [])) }
{
    match kind {
        Kind::Input | Kind::Const => {
            forking::three(wires, at, START, r, 0);
            at + 3
        }
        _ => at,
    }
}

fn name_starts(passed: &Passed, wires: &mut [u32]) -> usize
    requires { length (joined (start_names passed.now.words.now) passed.now.rows) ≤ length wires.old }
    ensures { (result ≡ length (joined (start_names passed.now.words.now) passed.now.rows)) × (wires.new ≡ sets wires.old 0 (joined (start_names passed.now.words.now) passed.now.rows)) }
{
    let mut p = 0;
    for r in 0..passed.rows {
        p = name_start(passed.kind(r), r, wires, p);
    }
    p
}

// What the first output of a node is.
fn first_what(role: u32) -> u32
    ensures { (result ≡ first_what role) × (result ≤ 11) }
{
    match role {
        OP_NODE => 1,
        STREAM => 2,
        GATE => 4,
        GUARD => 6,
        COPY_SPLIT => 7,
        COPY_INVARIANT => 9,
        CARRY => 10,
        _ => 11,
    }
}

// Whether a node has a second output.
fn two_outputs(role: u32) -> bool
    ensures { result ≡ two_outputs role }
{
    match role {
        STREAM => true,
        GATE => true,
        COPY_SPLIT => true,
        ARG_SPLIT => true,
        _ => false,
    }
}

// The outputs of a node, from its name. Answers the place behind.
fn name_outputs(role: u32, row: u32, value: u32, wires: &mut [u32], at: usize) -> usize
    requires { at + length (output_names role row value) ≤ length wires.old }
    ensures { (result ≡ at + length (output_names role row value)) × (wires.new ≡ sets wires.old at (output_names role row value)) }
{
    let what = first_what(role);
    forking::three(wires, at, what, row, value);
    if two_outputs(role) {
        forking::three(wires, at + 3, what + 1, row, value);
        return at + 6;
    }
    at + 3
}

// The outputs of all nodes before forks, from their names.
fn name_wires(nodes: &[u32], plain: usize, wires: &mut [u32], at: usize)
    requires { (3 * plain ≤ length nodes.now) × (plain ≤ 4096) × (at + length (joined (output_names_by nodes.now) plain) ≤ length wires.old) }
    ensures { wires.new ≡ sets wires.old at (joined (output_names_by nodes.now) plain) }
{
    let mut p = at;
    for i in 0..plain {
        p = name_outputs(nodes[3 * i], nodes[3 * i + 1], nodes[3 * i + 2], wires, p);
    }
}

// The same name so many times.
fn repeat(words: &mut [u32], at: usize, count: u32, a: u32, b: u32, c: u32)
    requires { (count ≤ 100000) × (at + 3 * count ≤ length words.old) }
    ensures { words.new ≡ sets words.old at (times_over count a b c) }
{
    let mut p = at;
    for i in 0..count {
        forking::three(words, p, a, b, c);
        p += 3;
    }
}

// The FORKs or the DRAIN of a wire with so many uses. Answers the place behind.
fn name_forks_of(uses: u32, a: u32, b: u32, c: u32, nodes: &mut [u32], at: usize) -> usize
    requires { (uses ≤ 40000) × (a ≤ 12) × (at + length (forks_of uses a b c) ≤ length nodes.old) }
    ensures { (result ≡ at + length (forks_of uses a b c)) × (nodes.new ≡ sets nodes.old at (forks_of uses a b c)) }
{
    if uses == 0 {
        forking::three(nodes, at, DRAINED + a, b, c);
        return at + 3;
    }
    repeat(nodes, at, uses - 1, FORKED + a, b, c);
    at + 3 * (uses as usize - 1)
}

// The FORKs and DRAINs of all wires, from the wires' names.
fn name_forks(wires: &[u32], sources: usize, uses: &Uses, nodes: &mut [u32], at: usize)
    requires { (3 * sources ≤ length wires.now) × (sources ≤ 8192) × ((w : ℕ) → w < sources → get_or wires.now (3 * w) 0 ≤ 12) × (at + length (joined (fork_names_by wires.now uses.now.count) sources) ≤ length nodes.old) }
    ensures { nodes.new ≡ sets nodes.old at (joined (fork_names_by wires.now uses.now.count) sources) }
{
    let mut p = at;
    for w in 0..sources {
        p = name_forks_of(
            uses.count[w],
            wires[3 * w],
            wires[3 * w + 1],
            wires[3 * w + 2],
            nodes,
            p,
        );
    }
}

// The legs of wire w, which have its name. Answers the place behind.
fn name_legs_of(uses: u32, w: usize, wires: &mut [u32], at: usize) -> usize
    requires { (uses ≤ 40000) × (w < 8192) × (3 * w + 3 ≤ length wires.old) × (at + 6 * (uses - 1) ≤ length wires.old) }
    ensures { (result ≡ at + 6 * (uses - 1)) × (wires.new ≡ sets wires.old at (legs_of uses (get_or wires.old (3 * w) 0) (get_or wires.old (3 * w + 1) 0) (get_or wires.old (3 * w + 2) 0))) }
{
    if uses == 0 {
        return at;
    }
    let a = wires[3 * w];
    let b = wires[3 * w + 1];
    let c = wires[3 * w + 2];
    repeat(wires, at, 2 * (uses - 1), a, b, c);
    at + 6 * (uses as usize - 1)
}

// The legs of all wires, behind the wires before forks.
fn name_legs(sources: usize, uses: &Uses, wires: &mut [u32])
    requires { (sources ≤ 8192) × (3 * sources + length (joined (leg_names_by wires.old uses.now.count) sources) ≤ length wires.old) }
    ensures { wires.new ≡ sets wires.old (3 * sources) (joined (leg_names_by wires.old uses.now.count) sources) }
{
    let mut p = 3 * sources;
    for w in 0..sources {
        p = name_legs_of(uses.count[w], w, wires, p);
    }
}

// All names in their order: the nodes before forks give their outputs' names, and these the names of forks and legs.
fn write_names(
    notes: &Notes,
    uses: &Uses,
    plain: usize,
    sources: usize,
    nodes: &mut [u32],
    wires: &mut [u32],
)
    requires { UsesRight notes.now.passed.words.now uses.now.count × (plain ≡ plain_nodes notes.now.passed.words.now) × (sources ≡ plain_wires notes.now.passed.words.now) × (plain ≤ 4096) × (sources ≤ 8192) × (length (node_names notes.now.passed.words.now) ≤ length nodes.old) × (length (wire_names notes.now.passed.words.now) ≤ length wires.old) }
    ensures { (nodes.new ≡ sets nodes.old 0 (node_names notes.now.passed.words.now)) × (wires.new ≡ sets wires.old 0 (wire_names notes.now.passed.words.now)) }
{
    name_rows(notes, nodes);
    let behind = name_starts(&notes.passed, wires);
    name_wires(nodes, plain, wires, behind);
    name_forks(wires, sources, uses, nodes, 3 * plain);
    name_legs(sources, uses, wires);
}

// How many nodes and wires were named.
#[derive(Clone, Copy, Debug, PartialEq, Eq)]
pub struct Named {
    pub nodes: u32,
    pub wires: u32,
}

// Names the nodes and wires of a table's graph in the lent words, three words each: what it is, the row, and the row of the value carried in.
pub fn name_graph(table: &[u32], nodes: &mut [u32], wires: &mut [u32]) -> Result<Named, Refused>
    ensures answer { NameAnswer table.now nodes.old wires.old (refused_number result) (refused_row result) (named_nodes result) (named_wires result) nodes.new wires.new }
{
    let passed = Passed::check(table)?;
    let mut rows = [0; 28672];
    let mut outs = [0; 512];
    let mut uses = Uses::none();
    let sizes = measuring::measure(&passed, &mut rows, &mut outs, &mut uses)?;
    if nodes.len() < 3 * (sizes.nodes as usize) {
        return Err(passed.crowded());
    }
    if wires.len() < 3 * (sizes.wires as usize) {
        return Err(passed.crowded());
    }
    let notes = Notes::new(passed);
    write_names(
        &notes,
        &uses,
        sizes.plain as usize,
        sizes.sources as usize,
        nodes,
        wires,
    );
    Ok(Named {
        nodes: sizes.nodes,
        wires: sizes.wires,
    })
}

// The nodes of a table that has passed refusals 1 to 9, before forks: counted first, then laid down in rows of seven words.
#![tactic(auto)]

ghost use Rattle.std.specs.Prelude.{◌≡◌, [], ◌∷◌, ◌+◌, ◌*◌, ◌<◌, ◌≤◌, length, get_or, set, replicate};
ghost use Rattle.std.proofs.lemmas.List.Edits.{sets};
ghost use Rattle.table.specs.Rows.{word, size};
ghost use Rattle.table.specs.Scan.{home};
ghost use Rattle.lowered.specs.Lower.{plain_nodes, plain_wires, start_total, result_total};
ghost use Rattle.written.specs.Plain.{Laid, Outs};
ghost use Rattle.carrying.specs.Kept.{Counted, Bases as BasesOf, Low, OnTheWay};
ghost use Rattle.step.specs.Named.{number_of};
ghost use Rattle.laying.specs.Entering.{Room, copy_rows, Entering, Entered, Resolved, Takes, Carries};
ghost use Rattle.laying.specs.Using.{Counting, UseAt, UseResolved, UsesResolved, Values};
ghost use Rattle.laying.specs.Rows.{Operands, op_row, pick_row, loop_rows, arg_rows, Known, RowLaid, RowsLaid, OutsLaid};

use carrying::{Bases, Notes, Passed};
use table::Kind;

// How many nodes the rows have room for.
const ROOM: u32 = 4096;

// The operator of the first condition.
const CONDITIONS: u32 = 3;

// One word of the rows.
fn put(rows: &mut [u32; 28672], i: u32, w: u32)
    requires { i < 28672 }
    ensures { rows.new ≡ set rows.old i w }
{
    rows[i as usize] = w;
}

// A node before forks: its inputs are the numbers of their sources, and `first` is its first output.
#[derive(Clone, Copy)]
struct Node {
    kind: step::Kind,
    code: u32,
    sort: u32,
    inputs: [u32; 3],
    first: u32,
}

// The row of node i: seven words.
fn put_row(rows: &mut [u32; 28672], i: u32, node: Node)
    requires { i < 4096 }
    ensures { rows.new ≡ sets rows.old (7 * i) (number_of node.kind ∷ node.code ∷ node.sort ∷ get_or node.inputs 0 0 ∷ get_or node.inputs 1 0 ∷ get_or node.inputs 2 0 ∷ node.first ∷ []) }
{
    put(rows, 7 * i, node.kind.number());
    put(rows, 7 * i + 1, node.code);
    put(rows, 7 * i + 2, node.sort);
    put(rows, 7 * i + 3, node.inputs[0]);
    put(rows, 7 * i + 4, node.inputs[1]);
    put(rows, 7 * i + 5, node.inputs[2]);
    put(rows, 7 * i + 6, node.first);
}

// The copy of a value for a loop whose nodes start at i and wires at w: its SPLIT on the guard, its INVARIANT on the gated condition.
fn lay_copy(rows: &mut [u32; 28672], i: u32, w: u32, place: u32, sort: u32, outer: u32)
    requires { (i + (5 + 2 * place) ≤ 4096) × (w ≤ 100000000) }
    ensures { rows.new ≡ copy_rows rows.old i w place sort outer }
{
    let leg = w + 5 + 3 * place;
    put_row(
        rows,
        i + 3 + 2 * place,
        Node {
            kind: step::Kind::Split,
            code: 0,
            sort,
            inputs: [w + 4, outer, graph::ABSENT],
            first: leg,
        },
    );
    put_row(
        rows,
        i + 4 + 2 * place,
        Node {
            kind: step::Kind::Invariant,
            code: 0,
            sort,
            inputs: [w + 3, leg, graph::ABSENT],
            first: w + 7 + 3 * place,
        },
    );
}

// The copies made so far for each loop: how many, and one more than the value of its last one.
#[derive(Clone, Copy)]
struct Copies {
    counts: [u32; 512],
    lasts: [u32; 512],
}

impl Copies {
    fn none() -> Self
        ensures { (result.counts ≡ replicate 512 0) × (result.lasts ≡ replicate 512 0) }
    {
        Copies {
            counts: [0; 512],
            lasts: [0; 512],
        }
    }
}

// The wire of value v in loop b, where it comes to the body around on wire `outer`. The copy made for b is laid down where it is not there yet.
fn enter(
    notes: &Notes,
    bases: &Bases,
    copies: &mut Copies,
    rows: &mut [u32; 28672],
    v: u32,
    b: u32,
    outer: u32,
) -> u32
    requires { Takes notes.now.passed.words.now v b × Room notes.now.passed.words.now bases.now.nodes bases.now.wires × Entering notes.now.passed.words.now v copies.old.counts copies.old.lasts }
    ensures { Entered notes.now.passed.words.now v b bases.now.nodes bases.now.wires outer copies.old.lasts rows.old copies.new.counts copies.new.lasts rows.new result }
{
    let w = carrying::noted_at(&bases.wires, b);
    let place = copies.counts[b as usize];
    if copies.lasts[b as usize] == v + 1 {
        return w + 4 + 3 * place;
    }
    lay_copy(
        rows,
        carrying::noted_at(&bases.nodes, b),
        w,
        place,
        table::sort_at(notes.passed.words, v),
        outer,
    );
    copies.counts[b as usize] = place + 1;
    copies.lasts[b as usize] = v + 1;
    w + 7 + 3 * place
}

// The wire on which value v comes to body b: at home its own; else that of loop b's copy, whose source is found in the body around.
fn resolve(
    notes: &Notes,
    bases: &Bases,
    copies: &mut Copies,
    rows: &mut [u32; 28672],
    v: u32,
    h: u32,
    own: u32,
    b: u32,
) -> u32
    requires { (v < notes.now.passed.rows) × (h ≡ home notes.now.passed.words.now v) × OnTheWay notes.now.passed.words.now v b × Carries notes.now.passed.words.now v b × Room notes.now.passed.words.now bases.now.nodes bases.now.wires × Entering notes.now.passed.words.now v copies.old.counts copies.old.lasts }
    ensures { Resolved notes.now.passed.words.now v b bases.now.nodes bases.now.wires own copies.old.lasts rows.old copies.new.counts copies.new.lasts rows.new result }
{
    if b == h {
        return own;
    }
    let around = carrying::noted_at(&notes.bodies, b);
    let outer = resolve(notes, bases, copies, rows, v, h, own, around);
    enter(notes, bases, copies, rows, v, b, outer)
}

// The wire of the operand at place p, which names value v.
fn resolve_use(
    notes: &Notes,
    bases: &Bases,
    copies: &mut Copies,
    rows: &mut [u32; 28672],
    at: &mut [u32; 1536],
    v: u32,
    p: u32,
)
    requires { UseAt notes.now.passed.words.now v p × Room notes.now.passed.words.now bases.now.nodes bases.now.wires × Entering notes.now.passed.words.now v copies.old.counts copies.old.lasts }
    ensures { UseResolved notes.now.passed.words.now v p bases.now.nodes bases.now.wires copies.old.lasts rows.old at.old copies.new.counts copies.new.lasts rows.new at.new }
{
    let h = notes.home_of(v);
    let own = notes.home_wire(&bases.wires, v);
    let b = notes.reads_of(p / 3);
    at[p as usize] = resolve(notes, bases, copies, rows, v, h, own, b);
}

// The wires of all operands that name value v, and with them the copies of v.
fn resolve_uses(
    notes: &Notes,
    bases: &Bases,
    copies: &mut Copies,
    rows: &mut [u32; 28672],
    at: &mut [u32; 1536],
    v: u32,
)
    requires { Room notes.now.passed.words.now bases.now.nodes bases.now.wires × (v < notes.now.passed.rows) × Counting notes.now.passed.words.now v copies.old.counts copies.old.lasts }
    ensures { UsesResolved notes.now.passed.words.now v bases.now.nodes bases.now.wires rows.old at.old copies.new.counts copies.new.lasts rows.new at.new }
{
    // A chain of links has no iterator of its own: each step reads the link of the operand just resolved.
    let mut c = carrying::noted_at(&notes.heads, v);
    while c != 0 {
        let p = c - 1;
        resolve_use(notes, bases, copies, rows, at, v, p);
        c = notes.links[p as usize];
    }
}

// All values in rising order: how many each loop carries, the copies of each, and the wire of every operand.
fn resolve_values(
    notes: &Notes,
    bases: &Bases,
    copies: &mut Copies,
    rows: &mut [u32; 28672],
    at: &mut [u32; 1536],
)
    requires { Room notes.now.passed.words.now bases.now.nodes bases.now.wires × Counting notes.now.passed.words.now 0 copies.old.counts copies.old.lasts }
    ensures { Values notes.now.passed.words.now notes.now.passed.rows bases.now.nodes bases.now.wires copies.new.counts copies.new.lasts rows.new at.new }
{
    for v in 0..notes.passed.rows {
        resolve_uses(notes, bases, copies, rows, at, v);
    }
}

// The wire at place p.
fn wire_of(at: &[u32; 1536], p: u32) -> u32
    requires { p < 1536 }
    ensures { result ≡ get_or at.now p 0 }
{
    at[p as usize]
}

// OP: one node.
fn lay_op(table: &[u32], bases: &Bases, at: &[u32; 1536], rows: &mut [u32; 28672], r: u32)
    requires { (r < size table.now) × (r < 512) × (get_or bases.now.nodes r 0 < 4096) }
    ensures { rows.new ≡ op_row rows.old (get_or bases.now.nodes r 0) (get_or bases.now.wires r 0) (word table.now r 1) (get_or at.now (3 * r) 0) (get_or at.now (3 * r + 1) 0) }
{
    let i = carrying::noted_at(&bases.nodes, r);
    let w = carrying::noted_at(&bases.wires, r);
    let code = table::word_at(table, r, 1);
    put_row(
        rows,
        i,
        Node {
            kind: step::Kind::Op,
            code,
            sort: 0,
            inputs: [wire_of(at, 3 * r), wire_of(at, 3 * r + 1), graph::ABSENT],
            first: w,
        },
    );
}

// PICK: one node.
fn lay_pick(bases: &Bases, at: &[u32; 1536], rows: &mut [u32; 28672], r: u32)
    requires { (r < 512) × (get_or bases.now.nodes r 0 < 4096) }
    ensures { rows.new ≡ pick_row rows.old (get_or bases.now.nodes r 0) (get_or bases.now.wires r 0) (get_or at.now (3 * r) 0) (get_or at.now (3 * r + 1) 0) (get_or at.now (3 * r + 2) 0) }
{
    let i = carrying::noted_at(&bases.nodes, r);
    let w = carrying::noted_at(&bases.wires, r);
    let a = wire_of(at, 3 * r);
    let b = wire_of(at, 3 * r + 1);
    let c = wire_of(at, 3 * r + 2);
    put_row(
        rows,
        i,
        Node {
            kind: step::Kind::Pick,
            code: 0,
            sort: 0,
            inputs: [a, b, c],
            first: w,
        },
    );
}

// FOR: its STREAM, its GATE and its guard.
fn lay_loop(table: &[u32], bases: &Bases, at: &[u32; 1536], rows: &mut [u32; 28672], r: u32)
    requires { (r < size table.now) × (r < 512) × (get_or bases.now.nodes r 0 + 2 < 4096) × Low bases.now.wires × (word table.now r 4 ≤ 5) × (word table.now r 5 ≤ 4) }
    ensures { rows.new ≡ loop_rows rows.old (get_or bases.now.nodes r 0) (get_or bases.now.wires r 0) (word table.now r 4) (word table.now r 5) (get_or at.now (3 * r) 0) (get_or at.now (3 * r + 1) 0) (get_or at.now (3 * r + 2) 0) }
{
    let i = carrying::noted_at(&bases.nodes, r);
    let w = carrying::noted_at(&bases.wires, r);
    let update = table::word_at(table, r, 4);
    let condition = table::word_at(table, r, 5);
    let a = wire_of(at, 3 * r);
    let b = wire_of(at, 3 * r + 1);
    let c = wire_of(at, 3 * r + 2);
    put_row(
        rows,
        i,
        Node {
            kind: step::Kind::Stream,
            code: 5 * update + condition,
            sort: 0,
            inputs: [a, b, c],
            first: w,
        },
    );
    put_row(
        rows,
        i + 1,
        Node {
            kind: step::Kind::Gate,
            code: 0,
            sort: 0,
            inputs: [w, w + 1, graph::ABSENT],
            first: w + 2,
        },
    );
    put_row(
        rows,
        i + 2,
        Node {
            kind: step::Kind::Op,
            code: CONDITIONS + condition,
            sort: 0,
            inputs: [a, c, graph::ABSENT],
            first: w + 4,
        },
    );
}

// ARG: its CARRY, and the SPLIT of the CARRY's word, both on the raw condition.
fn lay_arg(notes: &Notes, bases: &Bases, at: &[u32; 1536], rows: &mut [u32; 28672], r: u32)
    requires { (r < 512) × (get_or bases.now.nodes r 0 + 1 < 4096) × Low bases.now.wires × (get_or notes.now.bodies r 0 < 512) × (get_or notes.now.pairs r 0 < 512) }
    ensures { rows.new ≡ arg_rows rows.old (get_or bases.now.nodes r 0) (get_or bases.now.wires r 0) (get_or bases.now.wires (get_or notes.now.bodies r 0) 0 + 1) (get_or at.now (3 * r) 0) (get_or at.now (3 * get_or notes.now.pairs r 0) 0) }
{
    let i = carrying::noted_at(&bases.nodes, r);
    let w = carrying::noted_at(&bases.wires, r);
    let raw = carrying::noted_at(&bases.wires, carrying::noted_at(&notes.bodies, r)) + 1;
    let next = carrying::noted_at(&notes.pairs, r);
    put_row(
        rows,
        i,
        Node {
            kind: step::Kind::Carry,
            code: 0,
            sort: 0,
            inputs: [raw, wire_of(at, 3 * r), wire_of(at, 3 * next)],
            first: w,
        },
    );
    put_row(
        rows,
        i + 1,
        Node {
            kind: step::Kind::Split,
            code: 0,
            sort: 0,
            inputs: [raw, w, graph::ABSENT],
            first: w + 1,
        },
    );
}

// The nodes of row r, but for the copies of a loop.
fn lay_row(notes: &Notes, bases: &Bases, at: &[u32; 1536], rows: &mut [u32; 28672], r: u32)
    requires { Known notes.now.passed.words.now notes.now.bodies notes.now.pairs bases.now.nodes bases.now.wires at.now × (r < size notes.now.passed.words.now) }
    ensures { RowLaid notes.now.passed.words.now r rows.old rows.new }
{
    match notes.passed.kind(r) {
        Kind::Op => lay_op(notes.passed.words, bases, at, rows, r),
        Kind::Pick => lay_pick(bases, at, rows, r),
        Kind::For => lay_loop(notes.passed.words, bases, at, rows, r),
        Kind::Arg => lay_arg(notes, bases, at, rows, r),
        _ => {}
    }
}

// The nodes of all rows.
fn lay_rows(notes: &Notes, bases: &Bases, at: &[u32; 1536], rows: &mut [u32; 28672])
    requires { Known notes.now.passed.words.now notes.now.bodies notes.now.pairs bases.now.nodes bases.now.wires at.now }
    ensures { RowsLaid notes.now.passed.words.now notes.now.passed.rows rows.old rows.new }
{
    for r in 0..notes.passed.rows {
        lay_row(notes, bases, at, rows, r);
    }
}

// The result of row r, where it is an OUT row: the k-th. How many there are then.
fn lay_out(passed: &Passed, at: &[u32; 1536], outs: &mut [u32; 512], r: u32, k: u32) -> u32
    requires { Operands passed.now.words.now at.now × (r < passed.now.rows) × OutsLaid passed.now.words.now r k outs.old }
    ensures { OutsLaid passed.now.words.now (r + 1) result outs.new }
{
    match passed.kind(r) {
        Kind::Out => {
            outs[k as usize] = wire_of(at, 3 * r);
            k + 1
        }
        _ => k,
    }
}

// The wire of each result.
fn lay_outs(passed: &Passed, at: &[u32; 1536], outs: &mut [u32; 512])
    requires { Operands passed.now.words.now at.now }
    ensures { Outs passed.now.words.now outs.new }
{
    let mut k = 0;
    for r in 0..passed.rows {
        k = lay_out(passed, at, outs, r, k);
    }
}

// How many values each loop carries: a walk over the values with all bases 0, which leaves nothing right in the rows.
fn count_copies(notes: &Notes, rows: &mut [u32; 28672]) -> [u32; 512]
    ensures { Counted notes.now.passed.words.now result }
{
    let mut copies = Copies::none();
    let mut at = [0; 1536];
    resolve_values(notes, &Bases::zero(), &mut copies, rows, &mut at);
    copies.counts
}

// The nodes and results of a table whose nodes fit: the copies, the rows, the results.
fn lay_all(notes: &Notes, bases: &Bases, rows: &mut [u32; 28672], outs: &mut [u32; 512])
    requires { BasesOf notes.now.passed.words.now bases.now.nodes bases.now.wires × Low bases.now.wires × (plain_nodes notes.now.passed.words.now ≤ 4096) }
    ensures { Laid notes.now.passed.words.now rows.new × Outs notes.now.passed.words.now outs.new }
{
    let mut copies = Copies::none();
    let mut at = [0; 1536];
    resolve_values(notes, bases, &mut copies, rows, &mut at);
    lay_rows(notes, bases, &at, rows);
    lay_outs(&notes.passed, &at, outs);
}

// How many nodes and wires a table has before forks, and how many starts and results.
#[derive(Clone, Copy)]
pub struct Counts {
    pub nodes: u32,
    pub wires: u32,
    pub starts: u32,
    pub results: u32,
}

// Counts what the table lays down, and lays it down where the nodes fit.
pub fn lay(passed: &Passed, rows: &mut [u32; 28672], outs: &mut [u32; 512]) -> Counts
    ensures { (result.nodes ≡ plain_nodes passed.now.words.now) × (result.wires ≡ plain_wires passed.now.words.now) × (result.starts ≡ start_total passed.now.words.now) × (result.results ≡ result_total passed.now.words.now) × ((plain_nodes passed.now.words.now ≤ 4096) → Laid passed.now.words.now rows.new × Outs passed.now.words.now outs.new) }
{
    let starts = passed.count_starts();
    let results = passed.count_results();
    let notes = Notes::new(*passed);
    let counts = count_copies(&notes, rows);
    let bases = passed.note_bases(starts, &counts);
    if bases.plain.nodes <= ROOM {
        lay_all(&notes, &bases, rows, outs);
    }
    Counts {
        nodes: bases.plain.nodes,
        wires: bases.plain.wires,
        starts,
        results,
    }
}

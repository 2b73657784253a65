// How large a table's graph is, whatever its size: from the rows, with no table of its nodes or wires.
#![tactic(auto)]

ghost use Rattle.std.specs.Prelude.{◌≡◌, not, ◌+◌, ◌*◌, ◌<◌, ◌≤◌, length};
ghost use Rattle.word.specs.Words.{flag};
ghost use Rattle.graph.specs.Below.{total};
ghost use Rattle.table.specs.Rows.{kind_at, size};
ghost use Rattle.lowered.specs.Lower.{carried_into};
ghost use Rattle.carrying.specs.Kept.{Counted};
ghost use Rattle.counting.specs.Idle.{named_any, row_uses, row_idle};
ghost use Rattle.counting.specs.Answers.{counts, count_answer};

use carrying::{Notes, Passed};
use table::Kind;

fn one_if(b: bool) -> u32
    ensures { (result ≡ flag b) × (result ≤ 1) }
{
    if b { 1 } else { 0 }
}

// How many values are carried into loop l.
fn count_carried(notes: &Notes, l: u32) -> u32
    requires { (l < notes.now.passed.rows) × (kind_at notes.now.passed.words.now l ≡ 4) }
    ensures { (result ≡ length (carried_into notes.now.passed.words.now l)) × (result ≤ 512) }
{
    let marks = naming::mark_loop(notes, l);
    let mut count = 0;
    for v in 0..notes.passed.rows {
        count += one_if(naming::is_carried(notes, &marks, l, v));
    }
    count
}

// How many values are carried into row r's loop, where it is a FOR.
fn carried_of(notes: &Notes, r: u32) -> u32
    requires { r < notes.now.passed.rows }
    ensures { (kind_at notes.now.passed.words.now r ≡ 4) → result ≡ length (carried_into notes.now.passed.words.now r) }
{
    match notes.passed.kind(r) {
        Kind::For => count_carried(notes, r),
        _ => 0,
    }
}

// How many values are carried into each loop.
fn note_carried(notes: &Notes) -> [u32; 512]
    ensures { Counted notes.now.passed.words.now result }
{
    let mut counts = [0; 512];
    for r in 0..notes.passed.rows {
        counts[r as usize] = carried_of(notes, r);
    }
    counts
}

// 1 where no row names value v, else 0.
fn unnamed(notes: &Notes, v: u32) -> u32
    requires { v < notes.now.passed.rows }
    ensures { (result ≡ flag (not (named_any notes.now.passed.words.now v))) × (result ≤ 1) }
{
    one_if(carrying::noted_at(&notes.heads, v) == 0)
}

// The uses of row r: the inputs of its nodes, and its result.
fn uses_of(passed: &Passed, counts: &[u32; 512], r: u32) -> u32
    requires { Counted passed.now.words.now counts.now × (r < passed.now.rows) }
    ensures { (result ≡ row_uses passed.now.words.now r) × (result ≤ 3000) }
{
    match passed.kind(r) {
        Kind::Op => 2,
        Kind::Pick => 3,
        Kind::For => 7 + 4 * carrying::noted_at(counts, r),
        Kind::Arg => 5,
        Kind::Out => 1,
        _ => 0,
    }
}

// The wires of row r that have no use: a value that no row names, the false leg of each copy, and of a loop that carries nothing the guard's flag
// and the gated condition.
fn idle_of(notes: &Notes, counts: &[u32; 512], r: u32) -> u32
    requires { Counted notes.now.passed.words.now counts.now × (r < notes.now.passed.rows) }
    ensures { (result ≡ row_idle notes.now.passed.words.now r) × (result ≤ 3000) }
{
    let own = unnamed(notes, r);
    match notes.passed.kind(r) {
        Kind::For => {
            let count = carrying::noted_at(counts, r);
            own + count + 2 * one_if(count == 0)
        }
        Kind::Arg => own + unnamed(notes, carrying::noted_at(&notes.pairs, r)),
        Kind::Next | Kind::End | Kind::Out => 0,
        _ => own,
    }
}

#[derive(Clone, Copy)]
struct Sums {
    uses: u32,
    idle: u32,
}

fn sum_rows(notes: &Notes, counts: &[u32; 512]) -> Sums
    requires { Counted notes.now.passed.words.now counts.now }
    ensures { (result.uses ≡ total (row_uses notes.now.passed.words.now) notes.now.passed.rows) × (result.idle ≡ total (row_idle notes.now.passed.words.now) notes.now.passed.rows) × (result.uses ≤ 1536000) × (result.idle ≤ 1536000) }
{
    let mut uses = 0;
    let mut idle = 0;
    for r in 0..notes.passed.rows {
        uses += uses_of(&notes.passed, counts, r);
        idle += idle_of(notes, counts, r);
    }
    Sums { uses, idle }
}

// How many nodes, wires, starts and results a table's graph has.
#[derive(Clone, Copy, Debug, PartialEq, Eq)]
pub struct Counts {
    pub nodes: u32,
    pub wires: u32,
    pub starts: u32,
    pub results: u32,
}

const NOTHING: Counts = Counts {
    nodes: 0,
    wires: 0,
    starts: 0,
    results: 0,
};

// Counts the graph of a table that passes refusals 1 to 9, in its limits or not; of another table, nothing.
pub fn count_table(table: &[u32]) -> Counts
    ensures answer { counts result.nodes result.wires result.starts result.results ≡ count_answer table.now }
{
    let Ok(passed) = Passed::check(table) else {
        return NOTHING;
    };
    let notes = Notes::new(passed);
    let starts = notes.passed.count_starts();
    let results = notes.passed.count_results();
    let carried = note_carried(&notes);
    let plain = notes.passed.note_bases(starts, &carried).plain;
    let sums = sum_rows(&notes, &carried);
    Counts {
        nodes: plain.nodes + sums.uses + 2 * sums.idle - plain.wires,
        wires: 2 * sums.uses + 2 * sums.idle - plain.wires,
        starts,
        results,
    }
}

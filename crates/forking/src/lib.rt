// Forks and drains from rows of nodes whose inputs are the numbers of their sources: uses tallied, forks numbered, words written one after another.
#![tactic(auto)]

ghost use Rattle.std.specs.Prelude.{◌≡◌, [], ◌∷◌, ℕ, ◌+◌, ◌-◌, ◌*◌, ◌<◌, ◌≤◌, eqb, length, get_or, replicate};
ghost use Rattle.std.proofs.lemmas.List.Edits.{sets};
ghost use Rattle.word.specs.Words.{flag};
ghost use Rattle.table.specs.Kinds.{kind_number};
ghost use Rattle.graph.specs.Below.{joined, total};
ghost use Rattle.lowered.specs.Lower.{start_words};
ghost use Rattle.laid.specs.Counts.{leg_at};
ghost use Rattle.forking.specs.Tallied.{Place, Below, one_more, tallied};
ghost use Rattle.forking.specs.Forked.{added_wires, added_nodes, nodes_by, Freed, fork_words, fork_words_by};
ghost use Rattle.forking.specs.Sorted.{sorted_row, sorted_rows, FirstFits};
ghost use Rattle.forking.specs.Written.{row_inputs, row_outs, Sourced, stand_of, row_words_by, row_words, out_words, start_by, Scratch, uses_of};

use carrying::Passed;
use step::Kind;

// Scratch: `rows` has the nodes before forks, seven words each, with the numbers of their inputs' sources; `outs` has those of the results.
// A table of 8,192 words has a place for each wire: how often it is used, the first number that is free for its forks, its sort.

// One use more of a wire. An input that is not there is no use.
fn tally(seen: &mut [u32; 8192], x: u32)
    requires { Place x × Below 40000 seen.old }
    ensures { seen.new ≡ one_more seen.old x }
{
    if x != graph::ABSENT {
        let w = x as usize;
        seen[w] += 1;
    }
}

fn tally_row(rows: &[u32; 28672], i: usize, seen: &mut [u32; 8192])
    requires { (i < 4096) × Sourced rows.now i × Below 30000 seen.old }
    ensures { seen.new ≡ tallied seen.old (row_inputs rows.now i) }
{
    let p = 7 * i;
    tally(seen, rows[p + 3]);
    tally(seen, rows[p + 4]);
    tally(seen, rows[p + 5]);
}

pub fn tally_rows(rows: &[u32; 28672], nodes: usize, seen: &mut [u32; 8192])
    requires { (nodes ≤ 4096) × ((i : ℕ) → i < nodes → Sourced rows.now i) × Below 10000 seen.old }
    ensures { seen.new ≡ tallied seen.old (joined (row_inputs rows.now) nodes) }
{
    for i in 0..nodes {
        tally_row(rows, i, seen);
    }
}

fn tally_outs(outs: &[u32; 512], results: usize, seen: &mut [u32; 8192])
    requires { (results ≤ 512) × ((i : ℕ) → i < results → Place (get_or outs.now i 0)) × Below 30000 seen.old }
    ensures { seen.new ≡ tallied seen.old (joined (row_outs outs.now) results) }
{
    for i in 0..results {
        tally(seen, outs[i]);
    }
}

// What the forks or the drain of a wire with so many uses add.
fn added_wires(uses: u32) -> u32
    requires { uses ≤ 40000 }
    ensures { result ≡ added_wires uses }
{
    match uses {
        0 => 0,
        _ => 2 * (uses - 1),
    }
}

fn added_nodes(uses: u32) -> u32
    requires { uses ≤ 40000 }
    ensures { result ≡ added_nodes uses }
{
    match uses {
        0 => 1,
        _ => uses - 1,
    }
}

// How often each wire is used, and the first number that is free for its forks. It is lent and filled in place, since it has 64 KiB.
#[derive(Clone, Copy)]
pub struct Uses {
    pub count: [u32; 8192],
    pub free: [u32; 8192],
    pub ghost few: { Below 40000 count },
    pub ghost low: { Below 700000000 free },
}

// How many nodes and wires the forks and drains of all wires add.
#[derive(Clone, Copy)]
pub struct Added {
    pub nodes: u32,
    pub wires: u32,
}

impl Uses {
    pub fn none() -> Self
        ensures { (result.count ≡ replicate 8192 0) × (result.free ≡ replicate 8192 0) }
    {
        Uses {
            count: [0; 8192],
            free: [0; 8192],
        }
    }
}

fn note_free(count: &[u32; 8192], wires: u32, free: &mut [u32; 8192]) -> Added
    requires { (wires ≤ 8192) × Below 40000 count.now × Below 700000000 free.old }
    ensures { Freed count.now wires free.new result.nodes result.wires }
{
    let mut nodes = 0;
    let mut added = 0;
    for w in 0..wires {
        let uses = count[w as usize];
        free[w as usize] = wires + added;
        added += added_wires(uses);
        nodes += added_nodes(uses);
    }
    Added {
        nodes,
        wires: added,
    }
}

// The leg of the next use of a wire, when so many of its uses came before.
fn leg(x: u32, free: u32, uses: u32, seen: u32) -> u32
    requires { (free ≤ 700000000) × (uses ≤ 40000) × (seen ≤ 40000) }
    ensures { result ≡ leg_at x free uses seen }
{
    if uses <= 1 {
        return x;
    }
    if seen + 1 < uses {
        return free + 2 * seen;
    }
    free + 2 * (uses - 2) + 1
}

fn stand(x: u32, uses: &Uses, seen: &mut [u32; 8192]) -> u32
    requires { Place x × Below 40000 seen.old }
    ensures { (result ≡ stand_of uses.now.free uses.now.count seen.old x) × (seen.new ≡ one_more seen.old x) }
{
    if x == graph::ABSENT {
        return graph::ABSENT;
    }
    let w = x as usize;
    let wire = leg(x, uses.free[w], uses.count[w], seen[w]);
    tally(seen, x);
    wire
}

// Words written one after another.
pub fn three(graph: &mut [u32], at: usize, a: u32, b: u32, c: u32)
    requires { at + 3 ≤ length graph.old }
    ensures { graph.new ≡ sets graph.old at (a ∷ b ∷ c ∷ []) }
{
    graph[at] = a;
    graph[at + 1] = b;
    graph[at + 2] = c;
}

pub fn four(graph: &mut [u32], at: usize, a: u32, b: u32, c: u32, d: u32)
    requires { at + 4 ≤ length graph.old }
    ensures { graph.new ≡ sets graph.old at (a ∷ b ∷ c ∷ d ∷ []) }
{
    graph[at] = a;
    graph[at + 1] = b;
    graph[at + 2] = c;
    graph[at + 3] = d;
}

pub fn write_results(
    outs: &[u32; 512],
    results: usize,
    uses: &Uses,
    seen: &mut [u32; 8192],
    graph: &mut [u32],
    at: usize,
)
    requires { (results ≤ 512) × ((i : ℕ) → i < results → Place (get_or outs.now i 0)) × Below 30000 seen.old × (at + results ≤ length graph.old) }
    ensures { graph.new ≡ sets graph.old at (joined (out_words uses.now.free uses.now.count outs.now seen.old) results) }
{
    for i in 0..results {
        graph[at + i] = stand(outs[i], uses, seen);
    }
}

fn write_row(
    rows: &[u32; 28672],
    i: usize,
    uses: &Uses,
    seen: &mut [u32; 8192],
    graph: &mut [u32],
    at: usize,
)
    requires { (i < 4096) × Sourced rows.now i × Below 30000 seen.old × (at + 7 ≤ length graph.old) }
    ensures { (seen.new ≡ tallied seen.old (row_inputs rows.now i)) × (graph.new ≡ sets graph.old at (row_words_by uses.now.free uses.now.count rows.now seen.old i)) }
{
    let p = 7 * i;
    let in0 = stand(rows[p + 3], uses, seen);
    let in1 = stand(rows[p + 4], uses, seen);
    let in2 = stand(rows[p + 5], uses, seen);
    three(graph, at, rows[p], rows[p + 1], rows[p + 2]);
    four(graph, at + 3, in0, in1, in2, rows[p + 6]);
}

pub fn write_rows(
    rows: &[u32; 28672],
    nodes: usize,
    uses: &Uses,
    seen: &mut [u32; 8192],
    graph: &mut [u32],
    at: usize,
)
    requires { (nodes ≤ 4096) × ((i : ℕ) → i < nodes → Sourced rows.now i) × Below 10000 seen.old × (at + 7 * nodes ≤ length graph.old) }
    ensures { graph.new ≡ sets graph.old at (joined (row_words uses.now.free uses.now.count rows.now seen.old) nodes) }
{
    for i in 0..nodes {
        write_row(rows, i, uses, seen, graph, at + 7 * i);
    }
}

// The forks of a wire that is used, each with its second leg to the rest.
fn write_chain(sort: u32, wire: u32, uses: u32, free: u32, graph: &mut [u32], at: usize)
    requires { (1 ≤ uses) × (uses ≤ 40000) × (free ≤ 700000000) × (at + 7 * (uses - 1) ≤ length graph.old) }
    ensures { graph.new ≡ sets graph.old at (fork_words sort wire uses free) }
{
    let mut x = wire;
    let mut p = at;
    for k in 0..uses - 1 {
        let f = free + 2 * k;
        three(graph, p, Kind::Fork.number(), 0, sort);
        four(graph, p + 3, x, graph::ABSENT, graph::ABSENT, f);
        x = f + 1;
        p += 7;
    }
}

fn write_forks_of(sort: u32, wire: u32, uses: u32, free: u32, graph: &mut [u32], at: usize)
    requires { (uses ≤ 40000) × (free ≤ 700000000) × (at + 7 * added_nodes uses ≤ length graph.old) }
    ensures { graph.new ≡ sets graph.old at (fork_words sort wire uses free) }
{
    if uses == 0 {
        three(graph, at, Kind::Drain.number(), 0, sort);
        four(
            graph,
            at + 3,
            wire,
            graph::ABSENT,
            graph::ABSENT,
            graph::ABSENT,
        );
        return;
    }
    write_chain(sort, wire, uses, free, graph, at);
}

pub fn write_forks(sorts: &[u32; 8192], uses: &Uses, wires: u32, graph: &mut [u32], at: usize)
    requires { (wires ≤ 8192) × (at + 7 * total (nodes_by uses.now.count) wires ≤ length graph.old) }
    ensures { graph.new ≡ sets graph.old at (joined (fork_words_by sorts.now uses.now.count uses.now.free) wires) }
{
    let mut p = at;
    for w in 0..wires {
        let i = w as usize;
        write_forks_of(sorts[i], w, uses.count[i], uses.free[i], graph, p);
        p += 7 * added_nodes(uses.count[i]) as usize;
    }
}

// A start: 0 and its number among the inputs, or 1 and its constant. Answers how many inputs there are so far.
fn write_start(kind: table::Kind, word: u32, inputs: u32, graph: &mut [u32], at: usize) -> u32
    requires { (inputs < 512) × (at + 2 ≤ length graph.old) }
    ensures { (result ≡ inputs + flag (eqb (kind_number kind) 0)) × (graph.new ≡ sets graph.old at (start_by (kind_number kind) word inputs)) }
{
    match kind {
        table::Kind::Input => {
            graph[at] = 0;
            graph[at + 1] = inputs;
            inputs + 1
        }
        _ => {
            graph[at] = 1;
            graph[at + 1] = word;
            inputs
        }
    }
}

pub fn write_starts(passed: &Passed, starts: u32, graph: &mut [u32], at: usize)
    requires { (starts ≤ passed.now.rows) × (at + 2 * starts ≤ length graph.old) }
    ensures { graph.new ≡ sets graph.old at (joined (start_words passed.now.words.now) starts) }
{
    let mut inputs = 0;
    for r in 0..starts {
        let word = table::word_at(passed.words, r, 1);
        inputs = write_start(passed.kind(r), word, inputs, graph, at + 2 * r as usize);
    }
}

// The sort of each wire.
fn note_sort(rows: &[u32; 28672], i: usize, sorts: &mut [u32; 8192])
    requires { (i < 4096) × FirstFits rows.now i }
    ensures { sorts.new ≡ sorted_row rows.now i sorts.old }
{
    let p = 7 * i;
    let kind = rows[p];
    let code = rows[p + 1];
    let sort = rows[p + 2];
    let first = rows[p + 6] as usize;
    sorts[first] = graph::output_sort(kind, code, sort, 0);
    if graph::outputs_of(kind) < 2 {
        return;
    }
    sorts[first + 1] = graph::output_sort(kind, code, sort, 1);
}

pub fn note_sorts(rows: &[u32; 28672], nodes: usize, sorts: &mut [u32; 8192])
    requires { (nodes ≤ 4096) × ((i : ℕ) → i < nodes → FirstFits rows.now i) }
    ensures { sorts.new ≡ sorted_rows rows.now nodes sorts.old }
{
    for i in 0..nodes {
        note_sort(rows, i, sorts);
    }
}

// How often each wire is used, by inputs and then by results, and the free numbers that follow. What was counted before is cleared.
pub fn count_uses(
    rows: &[u32; 28672],
    nodes: usize,
    outs: &[u32; 512],
    results: usize,
    wires: u32,
    uses: &mut Uses,
) -> Added
    requires { Scratch rows.now nodes outs.now results wires }
    ensures { (uses.new.count ≡ uses_of rows.now nodes outs.now results (replicate 8192 0)) × Freed uses.new.count wires uses.new.free result.nodes result.wires }
{
    uses.count = [0; 8192];
    tally_rows(rows, nodes, &mut uses.count);
    tally_outs(outs, results, &mut uses.count);
    note_free(&uses.count, wires, &mut uses.free)
}

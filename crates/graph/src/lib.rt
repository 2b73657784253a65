// The check of a token graph, refusals 11 to 15, and the readers of its words.
#![tactic(auto)]

ghost use Rattle.std.specs.Prelude.{◌≡◌, true, ◌&&◌, ℕ, ◌+◌, ◌*◌, ◌<◌, ◌≤◌, eqb, ltb, length, get_or, set, [], ◌∷◌, IfSome};
ghost use Rattle.std.proofs.lemmas.List.Edits.{sets};
ghost use Rattle.word.specs.Words.{pick, flag};
ghost use Rattle.refusal.specs.Numbers.{answer_number};
ghost use Rattle.step.specs.Kinds.{kind_of, row, columns_of, inputs, outputs, codes, own_sorts, operator_sort, place_sort, Input, Output};
ghost use Rattle.graph.specs.Below.{every, joined};
ghost use Rattle.graph.specs.Said.{named, place_at, said, inputs_read, below_of, listed_of, marked, sorted_of};
ghost use Rattle.graph.specs.Counted.{once_more, counted};
ghost use Rattle.graph.specs.Graph.{absent, node_count, wire_count, start_count, result_count, result_at, row_place, column, node_at, input_place, output_place, output_count, first_at, node_reads, results, input_sort_of, output_sort_of, output_sorts, sort_at};
ghost use Rattle.graph.specs.Refusal.{has_shape, Shaped, start_right, row_right, node_right, rows_right, node_below, result_below, wires_below, read_once, node_sorted, result_sorted, sorts_agree, graph_refusal};

use Place::{Flag, Given, Own};
use refusal::Refusal;
use step::Kind;

// Stands for an absent input or output.
pub const ABSENT: u32 = 4294967295;

const MOST_NODES: u32 = 4096;

const MOST_WIRES: u32 = 8192;

const MOST_STARTS: u32 = 512;

const MOST_RESULTS: u32 = 512;

// A word as a length or a place: `usize` has no `From<u32>`.
pub fn wide(x: u32) -> usize
    ensures { (result ≡ x) × (result < 4294967296) }
{
    x as usize
}

// What stands on a place: a word of the row's own sort, a flag, or what the row's operator gives.
#[derive(Clone, Copy)]
enum Place {
    Own,
    Flag,
    Given,
}

// A row of the table of kinds: how many inputs, outputs, codes and sorts, then what stands on the first two inputs and on the outputs.
#[derive(Clone, Copy)]
struct Columns {
    inputs: u32,
    outputs: u32,
    codes: u32,
    sorts: u32,
    takes: [Place; 2],
    gives: [Place; 2],
}

fn row(
    inputs: u32,
    outputs: u32,
    codes: u32,
    sorts: u32,
    takes: [Place; 2],
    gives: [Place; 2],
) -> Columns
    ensures { said result ≡ row inputs outputs codes sorts (place_at takes 0) (place_at takes 1) (place_at gives 0) (place_at gives 1) }
{
    Columns {
        inputs,
        outputs,
        codes,
        sorts,
        takes,
        gives,
    }
}

// The table of kinds. What follows is read from it. A number over 8 is no kind and has none of each.
fn columns_of(kind: u32) -> Columns
    ensures { said result ≡ columns_of (kind_of kind) }
{
    match Kind::try_from(kind) {
        Ok(Kind::Stream) => row(3, 2, 30, 1, [Own, Own], [Own, Flag]),
        Ok(Kind::Gate) => row(2, 2, 1, 2, [Own, Flag], [Own, Flag]),
        Ok(Kind::Carry) => row(3, 1, 1, 2, [Flag, Own], [Own, Own]),
        Ok(Kind::Invariant) => row(2, 1, 1, 2, [Flag, Own], [Own, Own]),
        Ok(Kind::Split) => row(2, 2, 1, 2, [Flag, Own], [Own, Own]),
        Ok(Kind::Fork) => row(1, 2, 1, 2, [Own, Own], [Own, Own]),
        Ok(Kind::Drain) => row(1, 0, 1, 2, [Own, Own], [Own, Own]),
        Ok(Kind::Op) => row(2, 1, 8, 1, [Own, Own], [Given, Given]),
        Ok(Kind::Pick) => row(3, 1, 1, 1, [Flag, Own], [Own, Own]),
        Err(_) => row(0, 0, 0, 0, [Own, Own], [Own, Own]),
    }
}

pub fn inputs_of(kind: u32) -> u32
    ensures { result ≡ column inputs (kind_of kind) }
{
    columns_of(kind).inputs
}

pub fn outputs_of(kind: u32) -> u32
    ensures { result ≡ column outputs (kind_of kind) }
{
    columns_of(kind).outputs
}

pub fn codes_of(kind: u32) -> u32
    ensures { result ≡ column codes (kind_of kind) }
{
    columns_of(kind).codes
}

pub fn sorts_of(kind: u32) -> u32
    ensures { result ≡ column own_sorts (kind_of kind) }
{
    columns_of(kind).sorts
}

// 11: the counts before any row.
fn has_shape(graph: &[u32]) -> bool
    ensures { result ≡ has_shape graph.now }
{
    if graph.len() < 4 {
        return false;
    }
    if MOST_NODES < graph[0] {
        return false;
    }
    if MOST_WIRES < graph[1] {
        return false;
    }
    if MOST_STARTS < graph[2] {
        return false;
    }
    if MOST_RESULTS < graph[3] {
        return false;
    }
    let starts = wide(graph[2]);
    let results = wide(graph[3]);
    let nodes = wide(graph[0]);
    graph.len() == 4 + 2 * starts + results + 7 * nodes
}

// Where node i's row stands.
pub fn row_place(graph: &[u32], i: usize) -> usize
    requires { Shaped graph.now × (i ≤ 4096) }
    ensures { result ≡ row_place graph.now i }
{
    let starts = wide(graph[2]);
    let results = wide(graph[3]);
    4 + 2 * starts + results + 7 * i
}

// The wire of result k.
pub fn result_at(graph: &[u32], k: usize) -> u32
    requires { Shaped graph.now × (k < result_count graph.now) }
    ensures { result ≡ result_at graph.now k }
{
    let starts = wide(graph[2]);
    graph[4 + 2 * starts + k]
}

// 12: starts, rows, and the number of wires. A start's kind stays a number, since any may stand there.
fn start_right(kind: u32, word: u32, inputs: u32) -> bool
    ensures { result ≡ pick (eqb kind 0) (eqb word inputs) (eqb kind 1) }
{
    match kind {
        0 => word == inputs,
        1 => true,
        _ => false,
    }
}

// The inputs numbered so far, after one more start.
pub fn inputs_after(kind: u32, inputs: u32) -> u32
    requires { inputs < 512 }
    ensures { result ≡ inputs + flag (eqb kind 0) }
{
    match kind {
        0 => inputs + 1,
        _ => inputs,
    }
}

fn starts_right(graph: &[u32]) -> bool
    requires { Shaped graph.now }
    ensures { result ≡ every (start_count graph.now) (start_right graph.now) }
{
    let starts = wide(graph[2]);
    let mut inputs: u32 = 0;
    for k in 0..starts {
        if !start_right(graph[4 + 2 * k], graph[5 + 2 * k], inputs) {
            return false;
        }
        inputs = inputs_after(graph[4 + 2 * k], inputs);
    }
    true
}

// The word of an input that is not there is looked at too, so it comes beside its flag.
fn spare(present: bool, wire: u32) -> bool
    ensures { result ≡ pick present true (eqb wire absent) }
{
    present || wire == ABSENT
}

fn first_output(kind: u32, next: u32) -> u32
    ensures { result ≡ pick (eqb (column outputs (kind_of kind)) 0) absent next }
{
    let outputs = outputs_of(kind);
    match outputs {
        0 => ABSENT,
        _ => next,
    }
}

fn node_right(graph: &[u32], i: usize, next: u32) -> bool
    requires { Shaped graph.now × (i < node_count graph.now) }
    ensures { result ≡ row_right (node_at graph.now i) next }
{
    let at = row_place(graph, i);
    let kind = graph[at];
    if codes_of(kind) <= graph[at + 1] {
        return false;
    }
    if sorts_of(kind) <= graph[at + 2] {
        return false;
    }
    let inputs = inputs_of(kind);
    if !spare(0 < inputs, graph[at + 3]) {
        return false;
    }
    if !spare(1 < inputs, graph[at + 4]) {
        return false;
    }
    if !spare(2 < inputs, graph[at + 5]) {
        return false;
    }
    graph[at + 6] == first_output(kind, next)
}

fn nodes_right(graph: &[u32]) -> bool
    requires { Shaped graph.now }
    ensures { result ≡ (every (node_count graph.now) (node_right graph.now) && eqb (wire_count graph.now) (first_at graph.now (node_count graph.now))) }
{
    let nodes = wide(graph[0]);
    let mut next = graph[2];
    for i in 0..nodes {
        if !node_right(graph, i, next) {
            return false;
        }
        next += outputs_of(graph[row_place(graph, i)]);
    }
    graph[1] == next
}

fn rows_right(graph: &[u32]) -> bool
    requires { Shaped graph.now }
    ensures { result ≡ rows_right graph.now }
{
    starts_right(graph) && nodes_right(graph)
}

// The wire on each input that the kind of the row at this place has.
fn inputs_at(graph: &[u32], at: usize) -> [Option<u32>; 3]
    requires { at + 6 < length graph.now }
    ensures { result ≡ inputs_read graph.now at }
{
    let inputs = inputs_of(graph[at]);
    [
        (0 < inputs).then_some(graph[at + 3]),
        (1 < inputs).then_some(graph[at + 4]),
        (2 < inputs).then_some(graph[at + 5]),
    ]
}

// 13: every input and result below W.
fn below(wire: Option<u32>, wires: u32) -> bool
    ensures { result ≡ below_of wire wires }
{
    match wire {
        Some(wire) => wire < wires,
        None => true,
    }
}

fn node_below(graph: &[u32], i: usize) -> bool
    requires { Shaped graph.now × (i < node_count graph.now) }
    ensures { result ≡ node_below graph.now i }
{
    let at = row_place(graph, i);
    let [first, second, third] = inputs_at(graph, at);
    let wires = graph[1];
    if !below(first, wires) {
        return false;
    }
    if !below(second, wires) {
        return false;
    }
    below(third, wires)
}

fn nodes_below(graph: &[u32]) -> bool
    requires { Shaped graph.now }
    ensures { result ≡ every (node_count graph.now) (node_below graph.now) }
{
    let nodes = wide(graph[0]);
    for i in 0..nodes {
        if !node_below(graph, i) {
            return false;
        }
    }
    true
}

fn results_below(graph: &[u32]) -> bool
    requires { Shaped graph.now }
    ensures { result ≡ every (result_count graph.now) (result_below graph.now) }
{
    let results = wide(graph[3]);
    for k in 0..results {
        if graph[1] <= result_at(graph, k) {
            return false;
        }
    }
    true
}

fn wires_below(graph: &[u32]) -> bool
    requires { Shaped graph.now }
    ensures { result ≡ wires_below graph.now }
{
    nodes_below(graph) && results_below(graph)
}

// 14: how often each wire is read, counted up to two.
fn once_more(times: u8) -> u8
    ensures { result ≡ once_more times }
{
    match times {
        0 => 1,
        _ => 2,
    }
}

fn count(seen: &mut [u8; 8192], wire: Option<u32>)
    requires { IfSome wire (λ w. w < 8192) }
    ensures { seen.new ≡ counted seen.old (listed_of wire) }
{
    if let Some(wire) = wire {
        let w = wide(wire);
        seen[w] = once_more(seen[w]);
    }
}

fn count_node(graph: &[u32], i: usize, seen: &mut [u8; 8192])
    requires { Shaped graph.now × (i < node_count graph.now) × (node_below graph.now i ≡ true) }
    ensures { seen.new ≡ counted seen.old (node_reads (node_at graph.now i)) }
{
    let at = row_place(graph, i);
    let [first, second, third] = inputs_at(graph, at);
    count(seen, first);
    count(seen, second);
    count(seen, third);
}

fn count_nodes(graph: &[u32], seen: &mut [u8; 8192])
    requires { Shaped graph.now × (wires_below graph.now ≡ true) }
    ensures { seen.new ≡ counted seen.old (joined (λ i. node_reads (node_at graph.now i)) (node_count graph.now)) }
{
    let nodes = wide(graph[0]);
    for i in 0..nodes {
        count_node(graph, i, seen);
    }
}

pub fn count_results(graph: &[u32], seen: &mut [u8; 8192])
    requires { Shaped graph.now × (wires_below graph.now ≡ true) }
    ensures { seen.new ≡ counted seen.old (results graph.now (result_count graph.now)) }
{
    let results = wide(graph[3]);
    for k in 0..results {
        count(seen, Some(result_at(graph, k)));
    }
}

fn read_once(graph: &[u32]) -> bool
    requires { Shaped graph.now × (wires_below graph.now ≡ true) }
    ensures { result ≡ read_once graph.now }
{
    let mut seen = [0u8; 8192];
    count_nodes(graph, &mut seen);
    count_results(graph, &mut seen);
    let wires = wide(graph[1]);
    for w in 0..wires {
        if seen[w] != 1 {
            return false;
        }
    }
    true
}

// 15: the sort of each wire, then each input and result against it.
fn operator_sort(code: u32) -> u32
    ensures { result ≡ operator_sort code }
{
    match code {
        0..=2 => 0,
        _ => 1,
    }
}

fn place_sort(place: Place, code: u32, sort: u32) -> u32
    ensures { result ≡ place_sort (named place) code sort }
{
    match place {
        Own => sort,
        Flag => 1,
        Given => operator_sort(code),
    }
}

// The sort of an input. A third input has the row's sort. No input has its operator's sort, so the code is left out.
pub fn input_sort(kind: u32, sort: u32, place: usize) -> u32
    ensures { (k : Input) → input_place k ≡ place → result ≡ input_sort_of (kind_of kind) sort k }
{
    match place {
        0..=1 => place_sort(columns_of(kind).takes[place], 0, sort),
        _ => sort,
    }
}

pub fn output_sort(kind: u32, code: u32, sort: u32, place: usize) -> u32
    requires { place < 2 }
    ensures { (k : Output) → output_place k ≡ place → result ≡ output_sort_of (kind_of kind) code sort k }
{
    place_sort(columns_of(kind).gives[place], code, sort)
}

// Words and flags are sorts 0 and 1, so a byte holds a sort.
fn mark(sorts: &mut [u8; 8192], wire: Option<u32>, sort: u32)
    requires { IfSome wire (λ w. w < 8192) × (sort < 2) }
    ensures { sorts.new ≡ marked sorts.old wire sort }
{
    if let Some(wire) = wire {
        let w = wide(wire);
        sorts[w] = sort as u8;
    }
}

fn mark_node(graph: &[u32], i: usize, next: u32, sorts: &mut [u8; 8192])
    requires { Shaped graph.now × (i < node_count graph.now) × (next + output_count (node_at graph.now i) ≤ 8192) × (node_right graph.now i ≡ true) }
    ensures { sorts.new ≡ sets sorts.old next (output_sorts (node_at graph.now i)) }
{
    let at = row_place(graph, i);
    let kind = graph[at];
    let code = graph[at + 1];
    let sort = graph[at + 2];
    let outputs = outputs_of(kind);
    mark(
        sorts,
        (0 < outputs).then_some(next),
        output_sort(kind, code, sort, 0),
    );
    mark(
        sorts,
        (1 < outputs).then_some(next + 1),
        output_sort(kind, code, sort, 1),
    );
}

fn mark_nodes(graph: &[u32], sorts: &mut [u8; 8192])
    requires { Shaped graph.now × (rows_right graph.now ≡ true) }
    ensures { sorts.new ≡ sets sorts.old (start_count graph.now) (joined (λ i. output_sorts (node_at graph.now i)) (node_count graph.now)) }
{
    let nodes = wide(graph[0]);
    let mut next = graph[2];
    for i in 0..nodes {
        mark_node(graph, i, next, sorts);
        next += outputs_of(graph[row_place(graph, i)]);
    }
}

// The sort of each wire at its number, 0 past the last.
pub fn wire_sorts(graph: &[u32]) -> [u8; 8192]
    requires { Shaped graph.now × (rows_right graph.now ≡ true) }
    ensures { (w : ℕ) → get_or result w 0 ≡ sort_at graph.now w }
{
    let mut sorts = [0u8; 8192];
    mark_nodes(graph, &mut sorts);
    sorts
}

fn sorted(sorts: &[u8; 8192], wire: Option<u32>, sort: u32) -> bool
    requires { IfSome wire (λ w. w < 8192) }
    ensures { result ≡ sorted_of sorts.now wire sort }
{
    match wire {
        Some(wire) => u32::from(sorts[wide(wire)]) == sort,
        None => true,
    }
}

fn node_sorted(graph: &[u32], i: usize, sorts: &[u8; 8192]) -> bool
    requires { Shaped graph.now × (i < node_count graph.now) × (node_below graph.now i ≡ true) × ((w : ℕ) → get_or sorts.now w 0 ≡ sort_at graph.now w) }
    ensures { result ≡ node_sorted graph.now i }
{
    let at = row_place(graph, i);
    let kind = graph[at];
    let sort = graph[at + 2];
    let [first, second, third] = inputs_at(graph, at);
    if !sorted(sorts, first, input_sort(kind, sort, 0)) {
        return false;
    }
    if !sorted(sorts, second, input_sort(kind, sort, 1)) {
        return false;
    }
    sorted(sorts, third, sort)
}

fn nodes_sorted(graph: &[u32], sorts: &[u8; 8192]) -> bool
    requires { Shaped graph.now × (wires_below graph.now ≡ true) × ((w : ℕ) → get_or sorts.now w 0 ≡ sort_at graph.now w) }
    ensures { result ≡ every (node_count graph.now) (node_sorted graph.now) }
{
    let nodes = wide(graph[0]);
    for i in 0..nodes {
        if !node_sorted(graph, i, sorts) {
            return false;
        }
    }
    true
}

fn results_sorted(graph: &[u32], sorts: &[u8; 8192]) -> bool
    requires { Shaped graph.now × (wires_below graph.now ≡ true) × ((w : ℕ) → get_or sorts.now w 0 ≡ sort_at graph.now w) }
    ensures { result ≡ every (result_count graph.now) (result_sorted graph.now) }
{
    let results = wide(graph[3]);
    for k in 0..results {
        if !sorted(sorts, Some(result_at(graph, k)), 0) {
            return false;
        }
    }
    true
}

fn sorts_agree(graph: &[u32]) -> bool
    requires { Shaped graph.now × (rows_right graph.now ≡ true) × (wires_below graph.now ≡ true) }
    ensures { result ≡ sorts_agree graph.now }
{
    let mut sorts = [0u8; 8192];
    mark_nodes(graph, &mut sorts);
    nodes_sorted(graph, &sorts) && results_sorted(graph, &sorts)
}

// The first refusal of 11 to 15, each over the whole graph before the next.
pub fn check_graph(graph: &[u32]) -> Result<(), Refusal>
    ensures answer { answer_number result ≡ graph_refusal graph.now }
{
    if !has_shape(graph) {
        return Err(Refusal::Shape);
    }
    if !rows_right(graph) {
        return Err(Refusal::Node);
    }
    if !wires_below(graph) {
        return Err(Refusal::Wire);
    }
    if !read_once(graph) {
        return Err(Refusal::Readers);
    }
    if !sorts_agree(graph) {
        return Err(Refusal::Sort);
    }
    Ok(())
}

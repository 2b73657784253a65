// One firing of one node on lent words: the node's view is read from the state, and what the step does is stored back.
// Callers have checked the graph, and the state's length.
#![tactic(auto)]

ghost use Rattle.std.specs.Prelude.{◌≡◌, Bool, true, false, not, ◌||◌, ℕ, ◌+◌, ◌*◌, ◌<◌, ◌≤◌, length, get_or, set};
ghost use Rattle.std.proofs.Math.Option.{some, none};
ghost use Rattle.word.specs.Words.{pick};
ghost use Rattle.step.specs.Shown.{token_of};
ghost use Rattle.graph.specs.Graph.{node_count, wire_count, node_at};
ghost use Rattle.graph.specs.Refusal.{Shaped};
ghost use Rattle.state.specs.Net.{view, fire, is_ready, or_else, net_of};
ghost use Rattle.firing.specs.Acted.{InState, act_stores, Reads, Within, Sees, Placed};
ghost use Rattle.firing.specs.Waiting.{empty_at, waiting_at};
ghost use Rattle.state.specs.State.{token_at, token_on, is_empty, has_room, record_at, stored, emptied, filled, kept};

use step::Kind;

// What stands on a wire.
fn token_at(state: &[u32], wire: usize) -> Option<u32>
    requires { 2 * wire + 1 < length state.now }
    ensures token { token_of result ≡ token_at state.now wire }
{
    match state[2 * wire] {
        0 => None,
        _ => Some(state[2 * wire + 1]),
    }
}

pub fn is_empty(state: &[u32], wire: usize) -> bool
    requires { 2 * wire + 1 < length state.now }
    ensures room { result ≡ is_empty (get_or state.now (2 * wire) 0) }
{
    state[2 * wire] == 0
}

// The same on a place that the node may not have: there is no token there, and no room.
fn token_on(state: &[u32], wire: Option<usize>) -> Option<u32>
    requires { InState wire (length state.now) }
    ensures token { token_of result ≡ token_on state.now (token_of wire) }
{
    token_at(state, wire?)
}

fn room_on(state: &[u32], wire: Option<usize>) -> bool
    requires { InState wire (length state.now) }
    ensures room { result ≡ has_room state.now (token_of wire) }
{
    match wire {
        Some(wire) => is_empty(state, wire),
        None => false,
    }
}

pub fn record_at(state: &[u32], wires: usize, i: usize) -> step::Record
    requires { 2 * wires + 4 * i + 3 < length state.now }
    ensures record { result ≡ record_at wires state.now i }
{
    let at = 2 * wires + 4 * i;
    step::Record {
        phase: state[at],
        r0: state[at + 1],
        r1: state[at + 2],
        r2: state[at + 3],
    }
}

// A wire whose token is taken holds 0 0, and one that is given a word holds 1 and the word.
fn put(state: &mut [u32], wire: usize, full: u32, word: u32)
    requires { 2 * wire + 1 < length state.old }
    ensures state { state.new ≡ set (set state.old (2 * wire) full) (2 * wire + 1) word }
{
    state[2 * wire] = full;
    state[2 * wire + 1] = word;
}

fn take(state: &mut [u32], wire: Option<usize>, taken: bool)
    requires { InState wire (length state.old) }
    ensures state { state.new ≡ stored (emptied (token_of wire) taken) state.old }
{
    if let Some(wire) = wire {
        if taken {
            put(state, wire, 0, 0);
        }
    }
}

fn give(state: &mut [u32], wire: Option<usize>, word: Option<u32>)
    requires { InState wire (length state.old) }
    ensures state { state.new ≡ stored (filled (token_of wire) (token_of word)) state.old }
{
    if let Some(wire) = wire {
        if let Some(word) = word {
            put(state, wire, 1, word);
        }
    }
}

fn keep(state: &mut [u32], wires: usize, i: usize, left: step::Record)
    requires { 2 * wires + 4 * i + 3 < length state.old }
    ensures state { state.new ≡ stored (kept wires i left) state.old }
{
    let at = 2 * wires + 4 * i;
    state[at] = left.phase;
    state[at + 1] = left.r0;
    state[at + 2] = left.r1;
    state[at + 3] = left.r2;
}

// A node's row: its kind, code and sort, and the wire on each place, where its kind has the place. Its kind stays a number, since any may stand
// there.
#[derive(Clone, Copy)]
pub struct Row {
    pub kind: u32,
    pub code: u32,
    pub sort: u32,
    pub inputs: [Option<usize>; 3],
    pub outputs: [Option<usize>; 2],
}

pub fn row_of(graph: &[u32], i: usize) -> Row
    requires { Shaped graph.now × (i < node_count graph.now) }
    ensures row { Reads graph.now i result }
{
    let at = graph::row_place(graph, i);
    let kind = graph[at];
    let inputs = graph::inputs_of(kind);
    let outputs = graph::outputs_of(kind);
    let first = graph::wide(graph[at + 6]);
    Row {
        kind,
        code: graph[at + 1],
        sort: graph[at + 2],
        inputs: [
            (0 < inputs).then_some(graph::wide(graph[at + 3])),
            (1 < inputs).then_some(graph::wide(graph[at + 4])),
            (2 < inputs).then_some(graph::wide(graph[at + 5])),
        ],
        outputs: [
            (0 < outputs).then_some(first),
            (1 < outputs).then_some(first + 1),
        ],
    }
}

// What the node sees.
pub fn see(state: &[u32], row: Row) -> step::Seen
    requires { Within row (length state.now) }
    ensures seen { Sees state.now row result }
{
    let [input0, input1, input2] = row.inputs;
    let [output0, output1] = row.outputs;
    step::Seen {
        inputs: [
            token_on(state, input0),
            token_on(state, input1),
            token_on(state, input2),
        ],
        room: [room_on(state, output0), room_on(state, output1)],
    }
}

// All that a firing does: three inputs, two outputs, and the record that it left.
fn act(state: &mut [u32], row: Row, done: step::Act, left: step::Record, wires: usize, i: usize)
    requires { Within row (length state.old) × (2 * wires + 4 * i + 3 < length state.old) }
    ensures state { state.new ≡ stored (act_stores row done left wires i) state.old }
{
    let [input0, input1, input2] = row.inputs;
    let [takes0, takes1, takes2] = done.takes;
    take(state, input0, takes0);
    take(state, input1, takes1);
    take(state, input2, takes2);
    let [output0, output1] = row.outputs;
    let [gives0, gives1] = done.gives;
    give(state, output0, gives0);
    give(state, output1, gives1);
    keep(state, wires, i, left);
}

// A node that waits, told before its firing is worked out, which costs many times as much: by kind and phase, an input that it needs is empty,
// or an output full.

// Whether the wire is empty that stands in word k of the row at `at`.
fn empty_at(graph: &[u32], state: &[u32], at: usize, k: usize) -> bool
    requires { (at + k < length graph.now) × (2 * get_or graph.now (at + k) 0 + 1 < length state.now) }
    ensures empty { result ≡ empty_at graph.now state.now (at + k) }
{
    is_empty(state, graph::wide(graph[at + k]))
}

// One of its first two inputs is empty.
fn lacks_input(graph: &[u32], state: &[u32], at: usize) -> bool
    requires { (at + 4 < length graph.now) × (2 * get_or graph.now (at + 3) 0 + 1 < length state.now) × (2 * get_or graph.now (at + 4) 0 + 1 < length state.now) }
    ensures waits { result ≡ (empty_at graph.now state.now (at + 3) || empty_at graph.now state.now (at + 4)) }
{
    empty_at(graph, state, at, 3) || empty_at(graph, state, at, 4)
}

// A FORK's input is empty, or its first output full.
fn fork_waits(graph: &[u32], state: &[u32], at: usize) -> bool
    requires { (at + 6 < length graph.now) × (2 * get_or graph.now (at + 3) 0 + 1 < length state.now) × (2 * get_or graph.now (at + 6) 0 + 1 < length state.now) }
    ensures waits { result ≡ (empty_at graph.now state.now (at + 3) || not (empty_at graph.now state.now (at + 6))) }
{
    empty_at(graph, state, at, 3) || !empty_at(graph, state, at, 6)
}

// Whether node i waits. If so it is not ready: `waiting_is_not_ready`.
pub fn waits(graph: &[u32], state: &[u32], i: usize) -> bool
    requires { Placed graph.now i (length state.now) }
    ensures waits { result ≡ waiting_at (node_at graph.now i) (view (net_of graph.now) i state.now) }
{
    let at = graph::row_place(graph, i);
    let wires = graph::wide(graph[1]);
    let phase = state[2 * wires + 4 * i];
    match Kind::try_from(graph[at]) {
        Ok(Kind::Stream) => match phase {
            0 => empty_at(graph, state, at, 3),
            _ => !empty_at(graph, state, at, 6),
        },
        Ok(Kind::Gate) => lacks_input(graph, state, at),
        Ok(Kind::Carry) => match phase {
            0 => empty_at(graph, state, at, 4),
            1 => empty_at(graph, state, at, 3),
            _ => empty_at(graph, state, at, 5),
        },
        Ok(Kind::Invariant) => match phase {
            0 => empty_at(graph, state, at, 4),
            _ => empty_at(graph, state, at, 3),
        },
        Ok(Kind::Split) => lacks_input(graph, state, at),
        Ok(Kind::Fork) => fork_waits(graph, state, at),
        Ok(Kind::Drain) => empty_at(graph, state, at, 3),
        Ok(Kind::Op) => lacks_input(graph, state, at),
        Ok(Kind::Pick) => lacks_input(graph, state, at),
        Err(_) => true,
    }
}

// Whether node i is ready: its record is taken out of the state and lent to a firing of which nothing is stored.
pub fn node_ready(graph: &[u32], state: &[u32], i: usize) -> bool
    requires { Placed graph.now i (length state.now) }
    ensures ready { result ≡ is_ready (fire (net_of graph.now) i state.now) }
{
    let row = row_of(graph, i);
    let seen = see(state, row);
    let mut own = record_at(state, graph::wide(graph[1]), i);
    lent::advance(&mut own, row.kind, row.code, seen).is_some()
}

// Whether node i was ready; if so it has fired, else nothing has changed. Its record is taken out of the state, lent to the firing, which changes
// it in place, and stored with what the firing does.
pub fn fire_node(graph: &[u32], state: &mut [u32], i: usize) -> bool
    requires { Placed graph.now i (length state.old) }
    ensures fired { (result ≡ is_ready (fire (net_of graph.now) i state.old)) × (state.new ≡ or_else (fire (net_of graph.now) i state.old) state.old) }
{
    let row = row_of(graph, i);
    let wires = graph::wide(graph[1]);
    let seen = see(state, row);
    let mut own = record_at(state, wires, i);
    match lent::advance(&mut own, row.kind, row.code, seen) {
        Some(done) => {
            act(state, row, done, own, wires, i);
            true
        }
        None => false,
    }
}

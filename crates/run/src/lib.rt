// A run: the caller's list once, then sweeps until one fires nothing, within an allowance; and what it answers.
#![tactic(auto)]

ghost use Rattle.std.specs.Prelude.{◌≡◌, not, ◌&&◌, ◌||◌, ℕ, ◌+◌, ◌*◌, ◌<◌, ◌≤◌, ltb, length, IfSome};
ghost use Rattle.std.specs.Option.{unwrap_or};
ghost use Rattle.step.specs.Shown.{given};
ghost use Rattle.graph.specs.Refusal.{graph_refusal};
ghost use Rattle.graph.specs.Below.{every};
ghost use Rattle.graph.specs.Graph.{node_count};
ghost use Rattle.state.specs.Legal.{state_length};
ghost use Rattle.state.specs.Net.{net_of};
ghost use Rattle.state.specs.Run.{turn, follow, sweep, finish, is_full, complete, results_full, others_empty, phases_zero, holds_token, holds_zero, zero_step_at, zero_step, outcome};
ghost use Rattle.run.specs.Numbers.{RunAnswer};
ghost use Rattle.run.specs.Entry.{at, order_below, Runs, Below, idle, ran_by};

use refusal::Refusal;
use step::Kind;

// What a run answers that is not refused: the firings made, and the node that stalls.
#[derive(Clone, Copy, Debug, PartialEq, Eq)]
pub enum Ran {
    Spent(u64),
    Complete(u64),
    ZeroStep(u64, u32),
    Stranded(u64),
}

// Node i's turn: what is left of the allowance.
fn turn_of(graph: &[u32], state: &mut [u32], i: usize, left: u64) -> u64
    requires { Runs graph.now (length state.old) × (i < node_count graph.now) }
    ensures turn { (at state.new result ≡ turn (net_of graph.now) i (at state.old left)) × (result ≤ left) }
{
    if left == 0 {
        return left;
    }
    if firing::fire_node(graph, state, i) {
        return left - 1;
    }
    left
}

// The same in a sweep, where most nodes wait: that is asked before a firing is worked out.
fn sweep_turn(graph: &[u32], state: &mut [u32], i: usize, left: u64) -> u64
    requires { Runs graph.now (length state.old) × (i < node_count graph.now) }
    ensures turn { (at state.new result ≡ turn (net_of graph.now) i (at state.old left)) × (result ≤ left) }
{
    if firing::waits(graph, state, i) {
        return left;
    }
    turn_of(graph, state, i, left)
}

// The caller's list once.
pub fn follow_order(graph: &[u32], state: &mut [u32], order: &[u32], allowance: u64) -> u64
    requires { Runs graph.now (length state.old) × Below graph.now order.now }
    ensures followed { (at state.new result ≡ follow (net_of graph.now) order.now (at state.old allowance)) × (result ≤ allowance) }
{
    let mut left = allowance;
    for node in order {
        left = turn_of(graph, state, graph::wide(*node), left);
    }
    left
}

// One sweep from node 0 up.
pub fn sweep_once(graph: &[u32], state: &mut [u32], allowance: u64) -> u64
    requires { Runs graph.now (length state.old) }
    ensures swept { (at state.new result ≡ sweep (net_of graph.now) (node_count graph.now) (at state.old allowance)) × (result ≤ allowance) }
{
    let nodes = graph::wide(graph[0]);
    let mut left = allowance;
    for i in 0..nodes {
        left = sweep_turn(graph, state, i, left);
    }
    left
}

// Sweeps until one fires nothing: that ends the loop, and no count.
fn sweep_all(graph: &[u32], state: &mut [u32], allowance: u64) -> u64
    requires { Runs graph.now (length state.old) }
    ensures finished { (at state.new result ≡ finish (net_of graph.now) (node_count graph.now) (at state.old allowance)) × (result ≤ allowance) }
{
    let mut left = allowance;
    loop {
        let swept = sweep_once(graph, state, left);
        if swept == left {
            return swept;
        }
        left = swept;
    }
}

// A wire that is no result is empty: `marks` counts how often each wire is one.
fn rest_empty(state: &[u32], mark: u8, wire: usize) -> bool
    requires { 2 * wire + 1 < length state.now }
    ensures answer { result ≡ (ltb 0 mark || not (is_full state.now wire)) }
{
    match mark {
        0 => firing::is_empty(state, wire),
        _ => true,
    }
}

// Three tokens, and a step of 0.
fn stalled(seen: step::Seen) -> bool
    ensures answer { result ≡ (holds_token (given seen.inputs 0) && (holds_zero (given seen.inputs 1) && holds_token (given seen.inputs 2))) }
{
    let [start, step, bound] = seen.inputs;
    start.is_some() && step == Some(0) && bound.is_some()
}

// The state that a run ends in, of a graph that was accepted: what the answer asks of it.
#[derive(Clone, Copy)]
struct Reached<'a> {
    graph: &'a [u32],
    state: &'a [u32],
    ghost accepted: { graph_refusal graph.now ≡ 0 },
    ghost whole: { length state.now ≡ state_length graph.now },
}

impl<'a> Reached<'a> {
    fn none_ready(&self) -> bool
        ensures answer { result ≡ every (node_count self.now.graph.now) (idle self.now.graph.now self.now.state.now) }
    {
        let nodes = graph::wide(self.graph[0]);
        for i in 0..nodes {
            if firing::node_ready(self.graph, self.state, i) {
                return false;
            }
        }
        true
    }

    fn results_full(&self) -> bool
        ensures answer { result ≡ results_full self.now.graph.now self.now.state.now }
    {
        let results = graph::wide(self.graph[3]);
        for k in 0..results {
            if firing::is_empty(self.state, graph::wide(graph::result_at(self.graph, k))) {
                return false;
            }
        }
        true
    }

    fn others_empty(&self) -> bool
        ensures answer { result ≡ others_empty self.now.graph.now self.now.state.now }
    {
        let mut marks = [0u8; 8192];
        graph::count_results(self.graph, &mut marks);
        let wires = graph::wide(self.graph[1]);
        for w in 0..wires {
            if !rest_empty(self.state, marks[w], w) {
                return false;
            }
        }
        true
    }

    fn phases_zero(&self) -> bool
        ensures answer { result ≡ phases_zero self.now.graph.now self.now.state.now }
    {
        let nodes = graph::wide(self.graph[0]);
        let wires = graph::wide(self.graph[1]);
        for i in 0..nodes {
            if self.state[2 * wires + 4 * i] != 0 {
                return false;
            }
        }
        true
    }

    fn is_complete(&self) -> bool
        ensures answer { result ≡ complete self.now.graph.now self.now.state.now }
    {
        self.results_full() && self.others_empty() && self.phases_zero()
    }

    fn zero_step_at(&self, i: usize) -> bool
        requires { i < node_count self.now.graph.now }
        ensures answer { result ≡ zero_step_at self.now.graph.now self.now.state.now i }
    {
        let row = firing::row_of(self.graph, i);
        let Ok(Kind::Stream) = Kind::try_from(row.kind) else {
            return false;
        };
        let wires = graph::wide(self.graph[1]);
        let own = firing::record_at(self.state, wires, i);
        if own.phase != 0 {
            return false;
        }
        stalled(firing::see(self.state, row))
    }

    // The lowest such STREAM.
    fn zero_step(&self) -> Option<u32>
        ensures answer { unwrap_or result (node_count self.now.graph.now) ≡ zero_step self.now.graph.now self.now.state.now }
        ensures below { IfSome result (λ node. node < node_count self.now.graph.now) }
    {
        for node in 0..self.graph[0] {
            if self.zero_step_at(graph::wide(node)) {
                return Some(node);
            }
        }
        None
    }
}

pub fn ended(graph: &[u32], state: &[u32], firings: u64) -> Ran
    requires { Runs graph.now (length state.now) }
    ensures answer { result ≡ ran_by (outcome graph.now state.now) firings }
{
    let end = Reached { graph, state };
    if !end.none_ready() {
        return Ran::Spent(firings);
    }
    if end.is_complete() {
        return Ran::Complete(firings);
    }
    match end.zero_step() {
        Some(node) => Ran::ZeroStep(firings, node),
        None => Ran::Stranded(firings),
    }
}

// No number of the order list is past the last node.
pub fn order_below(graph: &[u32], order: &[u32]) -> bool
    requires { graph_refusal graph.now ≡ 0 }
    ensures answer { result ≡ order_below graph.now order.now }
{
    let nodes = graph[0];
    for node in order {
        if nodes <= *node {
            return false;
        }
    }
    true
}

// A run of the lent state.
pub fn run(graph: &[u32], state: &mut [u32], order: &[u32], allowance: u64) -> Result<Ran, Refusal>
    ensures answer { RunAnswer graph.now state.old order.now allowance result state.new }
{
    machine::check_state(graph, state)?;
    if !order_below(graph, order) {
        return Err(Refusal::Order);
    }
    let followed = follow_order(graph, state, order, allowance);
    let left = sweep_all(graph, state, followed);
    Ok(ended(graph, state, allowance - left))
}

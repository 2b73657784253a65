// A run told as it goes: firing by firing, a line for each with what the node took and what it gave; or, where that is not asked, how many firings there were so far.
// Nodes and wires have their rows and roles beside them, by the names of `roles`.
// The turns are those of the run's rule: the list, then sweeps until one has fired nothing, within the allowance.
#![tactic(auto)]

ghost use Rattle.std.specs.Prelude.{◌≡◌, ◌≤◌, ◌<◌, length, ⊤};
ghost use Rattle.graph.specs.Graph.{node_count};
ghost use Rattle.state.specs.Net.{net_of};
ghost use Rattle.state.specs.Run.{turn, follow, sweep, finish};
ghost use Rattle.run.specs.Numbers.{RunAnswer};
ghost use Rattle.run.specs.Entry.{at, Runs, Below};

use channels::{Channels, Console};
use drawn::{Graph, Names, Node, State, View};
use refusal::Refusal;
use run::Ran;
use std::alloc::AllocError;
use std::io;
use std::io::Write;
use text::Page;

// After so many turns of nodes the firings so far are told: some seconds.
const MANY: u64 = 100000000;

// What is told of a run: each firing as an answer, or the firings so far as a complaint; by which names, and whether words have a sign.
pub struct How<'a, R> {
    pub console: &'a Console<'a, R>,
    pub names: Names<'a>,
    pub trace: bool,
    pub signed: bool,
}

// By hand, since a derive would ask that `R` is copied too.
impl<'a, R> Copy for How<'a, R> {}

impl<'a, R> Clone for How<'a, R> {
    ghost is_clone = { λ x y. y ≡ x };

    ghost is_infallible = { λ _. ⊤ };

    fn clone(&self) -> Result<Self, AllocError> {
        Ok(*self)
    }
}

// A node's five wires: its three inputs, then its two outputs. A wire that is not there is past every state.
fn wires_of(node: Node) -> [u32; 5] {
    let [first, second, third] = node.takes;
    let other = if node.outputs() == 2 {
        node.gives.saturating_add(1)
    } else {
        graph::ABSENT
    };
    [first, second, third, node.gives, other]
}

// The words of the tokens on them.
fn tokens_of(node: Node, state: &[u32]) -> [Option<u32>; 5] {
    wires_of(node).map(|wire| State(state).token(wire))
}

// A firing: its number, and the tokens on the node's wires before it and after it.
#[derive(Drop)]
struct Firing {
    number: u64,
    node: Node,
    before: [Option<u32>; 5],
    after: [Option<u32>; 5],
}

// Wire and word of each token that is there and is not among the others; where there is none, the word nothing.
fn write_tokens<W: Write>(
    to: &mut W,
    view: View<'_>,
    wires: &[u32],
    there: &[Option<u32>],
    others: &[Option<u32>],
) -> io::Result<()> {
    let mut none = true;
    for ((wire, token), other) in wires.iter().zip(there).zip(others) {
        if let (Some(word), None) = (token, other) {
            let token = roles::Token::new(view, *wire, *word);
            write!(to, "{token}")?;
            none = false;
        }
    }
    if none {
        return to.write_all(b" nothing");
    }
    Ok(())
}

// A firing's line.
fn write_firing<W: Write>(to: &mut W, view: View<'_>, firing: &Firing) -> io::Result<()> {
    let number = firing.number;
    let node = roles::Node::new(view, firing.node);
    let wires = wires_of(firing.node);
    let before = &firing.before;
    let after = &firing.after;
    write!(to, "{number}: {node}, took")?;
    write_tokens(to, view, &wires[..3], &before[..3], &after[..3])?;
    to.write_all(b" gave")?;
    write_tokens(to, view, &wires[3..], &after[3..], &before[3..])?;
    to.write_all(b"\n")
}

fn tell<R: Channels>(how: &How<'_, R>, graph: &[u32], state: &[u32], firing: &Firing) {
    let view = View {
        graph: Graph(graph),
        state: State(state),
        names: how.names,
        signed: how.signed,
    };
    let mut memory = [0u8; 4096];
    let mut page = Page::new(&mut memory);
    let _ = write_firing(&mut page, view, firing);
    let _ = how.console.answer(page.as_slice());
}

// The run told firing by firing.

// A node's turn: what is left of the allowance. The firing is told with its number.
fn turn_of<R: Channels>(
    how: &How<'_, R>,
    graph: &[u32],
    state: &mut [u32],
    i: u32,
    left: u64,
    allowance: u64,
) -> u64
    requires { Runs graph.now (length state.old) × (i < node_count graph.now) × (left ≤ allowance) }
    ensures turn { (at state.new result ≡ turn (net_of graph.now) i (at state.old left)) × (result ≤ left) }
{
    if left == 0 {
        return left;
    }
    let node = Graph(graph).node(i);
    let before = tokens_of(node, state);
    if firing::fire_node(graph, state, graph::wide(i)) {
        let firing = Firing {
            number: allowance - left + 1,
            node,
            before,
            after: tokens_of(node, state),
        };
        tell(how, graph, state, &firing);
        return left - 1;
    }
    left
}

fn follow_told<R: Channels>(
    how: &How<'_, R>,
    graph: &[u32],
    state: &mut [u32],
    order: &[u32],
    allowance: u64,
) -> u64
    requires { Runs graph.now (length state.old) × Below graph.now order.now }
    ensures followed { (at state.new result ≡ follow (net_of graph.now) order.now (at state.old allowance)) × (result ≤ allowance) }
{
    let mut left = allowance;
    for node in order {
        left = turn_of(how, graph, state, *node, left, allowance);
    }
    left
}

fn sweep_told<R: Channels>(
    how: &How<'_, R>,
    graph: &[u32],
    state: &mut [u32],
    given: u64,
    allowance: u64,
) -> u64
    requires { Runs graph.now (length state.old) × (given ≤ allowance) }
    ensures swept { (at state.new result ≡ sweep (net_of graph.now) (node_count graph.now) (at state.old given)) × (result ≤ given) }
{
    let nodes = graph[0];
    let mut left = given;
    for i in 0..nodes {
        left = turn_of(how, graph, state, i, left, allowance);
    }
    left
}

// The run, told or not. What is not traced goes through the run's own turns, so that it takes no longer.

// The caller's list once.
fn follow_order<R: Channels>(
    how: &How<'_, R>,
    graph: &[u32],
    state: &mut [u32],
    order: &[u32],
    allowance: u64,
) -> u64
    requires { Runs graph.now (length state.old) × Below graph.now order.now }
    ensures followed { (at state.new result ≡ follow (net_of graph.now) order.now (at state.old allowance)) × (result ≤ allowance) }
{
    if how.trace {
        return follow_told(how, graph, state, order, allowance);
    }
    run::follow_order(graph, state, order, allowance)
}

// One sweep from node 0 up.
fn sweep_once<R: Channels>(
    how: &How<'_, R>,
    graph: &[u32],
    state: &mut [u32],
    given: u64,
    allowance: u64,
) -> u64
    requires { Runs graph.now (length state.old) × (given ≤ allowance) }
    ensures swept { (at state.new result ≡ sweep (net_of graph.now) (node_count graph.now) (at state.old given)) × (result ≤ given) }
{
    if how.trace {
        return sweep_told(how, graph, state, given, allowance);
    }
    run::sweep_once(graph, state, given)
}

fn tell_firings<R: Channels>(how: &How<'_, R>, firings: u64) {
    let mut memory = [0u8; 64];
    let mut page = Page::new(&mut memory);
    let _ = writeln!(page, "{firings} firings so far");
    how.console.complain(page.as_slice());
}

// The turns since the firings were last told, after one sweep more.
fn note<R: Channels>(how: &How<'_, R>, graph: &[u32], turns: u64, firings: u64) -> u64 {
    if turns < MANY {
        return turns + Graph(graph).nodes() as u64;
    }
    if !how.trace {
        tell_firings(how, firings);
    }
    0
}

// Sweeps until one fires nothing: that ends the loop, and no count.
fn sweep_all<R: Channels>(
    how: &How<'_, R>,
    graph: &[u32],
    state: &mut [u32],
    given: u64,
    allowance: u64,
) -> u64
    requires { Runs graph.now (length state.old) × (given ≤ allowance) }
    ensures finished { (at state.new result ≡ finish (net_of graph.now) (node_count graph.now) (at state.old given)) × (result ≤ given) }
{
    let mut left = given;
    let mut turns: u64 = 0;
    loop {
        let swept = sweep_once(how, graph, state, left, allowance);
        if swept == left {
            return swept;
        }
        left = swept;
        turns = note(how, graph, turns, allowance - left);
    }
}

// A run of the lent state, told as `how` says. It promises what `run::run` promises, so that a run and what is told of it agree.
pub fn run_told<R: Channels>(
    how: &How<'_, R>,
    graph: &[u32],
    state: &mut [u32],
    order: &[u32],
    allowance: u64,
) -> Result<Ran, Refusal>
    ensures answer { RunAnswer graph.now state.old order.now allowance result state.new }
{
    machine::check_state(graph, state)?;
    if !run::order_below(graph, order) {
        return Err(Refusal::Order);
    }
    let followed = follow_order(how, graph, state, order, allowance);
    let left = sweep_all(how, graph, state, followed, allowance);
    Ok(run::ended(graph, state, allowance - left))
}

// A rehearsal of a graph: loading, the run, and what people are told of them.
#![tactic(auto)]

ghost use Rattle.std.specs.Prelude.{◌≤◌};
ghost use Rattle.rehearsal.specs.Rehearsed.{Rehearsed};

use channels::Channels;
use drawn::{Graph, View};
use refusal::Refusal;
use run::Ran;
use std::io;
use std::io::Write;
use told::{Answer, Asks, Rule};
use traced::How;

// How many inputs a graph has.
fn inputs_of(graph: Graph<'_>) -> usize {
    (0..graph.starts())
        .filter(|k| graph.start(*k).kind == 0)
        .count()
}

// A refusal of a graph, its inputs or an order list, and what the numbers were where people can count them.
pub fn write_refused<W: Write>(
    to: &mut W,
    why: Refusal,
    graph: Graph<'_>,
    given: usize,
) -> io::Result<()> {
    let rule = Rule(why);
    let asks = Asks(why);
    write!(to, "refused by {rule}: {asks}")?;
    match why {
        Refusal::Inputs => {
            let inputs = inputs_of(graph);
            writeln!(to, "; inputs of the table: {inputs}, words given: {given}")
        }
        Refusal::Order => {
            let nodes = graph.nodes();
            writeln!(to, ", which is {nodes}")
        }
        _ => to.write_all(b"\n"),
    }
}

// Loads and runs a graph in the lent state, which has the length that the graph asks, told as `how` says.
pub fn run_graph<R: Channels>(
    how: &How<'_, R>,
    graph: &[u32],
    inputs: &[u32],
    state: &mut [u32],
    order: &[u32],
    allowance: u64,
) -> Result<Ran, Refusal>
    ensures answer { Rehearsed graph.now inputs.now state.old order.now allowance result state.new }
{
    machine::load(graph, inputs, state)?;
    traced::run_told(how, graph, state, order, allowance)
}

// The answer by its name.
pub fn answer_of(ran: Ran) -> Answer {
    match ran {
        Ran::Complete(_) => Answer::Complete,
        Ran::ZeroStep(_, _) => Answer::ZeroStep,
        Ran::Stranded(_) => Answer::Stranded,
        Ran::Spent(_) => Answer::Spent,
    }
}

// The answer, the firings and the counts.
fn write_answered<W: Write>(to: &mut W, view: View<'_>, ran: Ran) -> io::Result<()> {
    let answer = answer_of(ran);
    match ran {
        Ran::Complete(firings) | Ran::Stranded(firings) | Ran::Spent(firings) => {
            write!(to, "{answer} after {firings} firings")?;
        }
        Ran::ZeroStep(firings, node) => {
            let node = roles::Node::new(view, view.graph.node(node));
            write!(to, "{answer} after {firings} firings at {node}")?;
        }
    }
    let nodes = view.graph.nodes();
    let wires = view.graph.wires();
    writeln!(to, ", {nodes} nodes, {wires} wires")
}

// What is to be known of a run that did not complete.
fn write_why<W: Write>(to: &mut W, view: View<'_>, ran: Ran) -> io::Result<()> {
    match ran {
        Ran::Complete(_) => Ok(()),
        Ran::ZeroStep(_, node) => standing::write_zero_step(to, view, node),
        Ran::Stranded(_) => standing::write_tokens(to, view),
        Ran::Spent(_) => standing::write_spent(to, view),
    }
}

// What a run has left: the answer, why it did not complete, and the results.
pub fn write_ran<W: Write>(to: &mut W, view: View<'_>, ran: Ran) -> io::Result<()> {
    write_answered(to, view, ran)?;
    write_why(to, view, ran)?;
    for k in 0..view.graph.results() {
        match view.state.token(view.graph.result(k)) {
            Some(word) => {
                let word = view.word(word);
                writeln!(to, "result {k}: {word}")?;
            }
            None => writeln!(to, "result {k}: none")?,
        }
    }
    Ok(())
}

// The answer as a comment, above a drawing with the tokens that the run has left.
pub fn write_drawn<W: Write>(to: &mut W, view: View<'_>, ran: Ran) -> io::Result<()> {
    to.write_all(b"// ")?;
    write_answered(to, view, ran)
}

// The words of a state, and no more than a state can have.
pub fn state_words(graph: Graph<'_>) -> usize
    ensures { result ≤ 32768 }
{
    (2 * graph.wires() as usize + 4 * graph.nodes() as usize).min(32768)
}

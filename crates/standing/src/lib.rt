// What a run has left on the wires and in the records: the tokens that stand, who waits for what, and the loops that are open.
// Nodes and wires have their rows and roles beside them, by the names of `roles`.
#![tactic(auto)]

ghost use Rattle.std.specs.Prelude.{◌≤◌, ◌<◌, IfSome};

use drawn::{Node, View, word_at};
use std::io;
use std::io::Write;
use told::Condition;

// Tokens.

// How many tokens stand on wires.
pub fn tokens(view: View<'_>) -> usize
    ensures { result ≤ 8192 }
{
    (0..view.graph.wires())
        .filter(|wire| view.state.token(*wire).is_some())
        .count()
}

// The node that reads a wire; where none does, it is a result.
fn reader_of(view: View<'_>, wire: u32) -> Option<Node>
    ensures { IfSome result (λ node. node.number < 8192) }
{
    for i in 0..view.graph.nodes() {
        let node = view.graph.node(i);
        if node.inputs().contains(&wire) {
            return Some(node);
        }
    }
    None
}

// The reader of a wire, and its inputs on which no token stands.
fn write_waiting<W: Write>(to: &mut W, view: View<'_>, node: Node) -> io::Result<()> {
    let named = roles::Node::new(view, node);
    write!(to, " waits at {named}, inputs without a token:")?;
    let mut lacks = false;
    for wire in node.inputs() {
        if view.state.token(*wire).is_none() {
            let wire = roles::Wire::new(view, *wire);
            write!(to, "{wire}")?;
            lacks = true;
        }
    }
    if lacks {
        return Ok(());
    }
    to.write_all(b" none")
}

// A line for a wire and the token that stands on it.
fn write_token<W: Write>(to: &mut W, view: View<'_>, wire: u32, word: u32) -> io::Result<()> {
    let token = roles::Token::new(view, wire, word);
    write!(to, "token{token}")?;
    match reader_of(view, wire) {
        Some(node) => write_waiting(to, view, node)?,
        None => to.write_all(b" is a result")?,
    }
    to.write_all(b"\n")
}

// Each token that stands, a line each, with the node that reads its wire and what that node lacks.
pub fn write_tokens<W: Write>(to: &mut W, view: View<'_>) -> io::Result<()> {
    for wire in 0..view.graph.wires() {
        if let Some(word) = view.state.token(wire) {
            write_token(to, view, wire, word)?;
        }
    }
    Ok(())
}

// Loops.

// A node's record: its phase, then its registers.
fn record(view: View<'_>, i: u32) -> [u32; 4] {
    let place = 2 * view.graph.wires() as usize + 4 * i as usize;
    let words = view.state.0;
    [
        word_at(words, place),
        word_at(words, place + 1),
        word_at(words, place + 2),
        word_at(words, place + 3),
    ]
}

// Each loop that is open, a line each: a STREAM that has taken its index, step and bound, and has not given its last condition; and what it asks to go on.
fn write_loops<W: Write>(to: &mut W, view: View<'_>) -> io::Result<()> {
    for i in 0..view.graph.nodes() {
        let node = view.graph.node(i);
        let [phase, index, step, bound] = record(view, i);
        if node.kind == 0 && phase == 1 {
            let named = roles::Node::new(view, node);
            let index = view.word(index);
            let step = view.word(step);
            let bound = view.word(bound);
            let condition = Condition(node.code % 5);
            writeln!(
                to,
                "open loop: {named}: index {index}, step {step}, bound {bound}, goes on while index {condition} bound"
            )?;
        }
    }
    Ok(())
}

// What a spent allowance leaves.
pub fn write_spent<W: Write>(to: &mut W, view: View<'_>) -> io::Result<()> {
    let tokens = tokens(view);
    write!(
        to,
        "the allowance is spent and the results are not final; tokens on wires: {tokens}; a larger --allowance helps where an index moves towards its bound\n"
    )?;
    write_loops(to, view)
}

// Whose step is 0: the wire that it came by.
pub fn write_zero_step<W: Write>(to: &mut W, view: View<'_>, i: u32) -> io::Result<()> {
    let wire = roles::Wire::new(view, view.graph.node(i).takes[1]);
    writeln!(to, "its step is the word 0 on wire{wire}")
}

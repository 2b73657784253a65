// A graph as a list for people and programs: the words of the header, the starts, the results and each node, a line each, and behind them, as comments, what they
// say. Without its comments it is the graph's words.
// The list or the drawing of a large graph has more letters than the commands have memory, so it is written part by part, by a lent page.
#![tactic(auto)]

use channels::{Channels, Console};
use drawn::View;
use roles::{Node, Wire};
use std::io;
use std::io::Write;
use text::Page;

// The header, the starts, and the results.
fn write_head<W: Write>(to: &mut W, view: View<'_>) -> io::Result<()> {
    let header = view.graph.header();
    writeln!(to, "{header} # nodes, wires, starts, results")?;
    for k in 0..view.graph.starts() {
        write_start(to, view, k)?;
    }
    for k in 0..view.graph.results() {
        let number = view.graph.result(k);
        let wire = Wire::new(view, number);
        writeln!(to, "{number} # result {k} is wire{wire}")?;
    }
    Ok(())
}

// A start's two words, what it is, and its wire.
fn write_start<W: Write>(to: &mut W, view: View<'_>, k: u32) -> io::Result<()> {
    let words = view.graph.start_words(k);
    let what = match view.graph.start(k).kind {
        0 => "# INPUT gives wire",
        1 => "# CONST gives wire",
        _ => "",
    };
    let wire = Wire::new(view, k);
    writeln!(to, "{words} {what}{wire}")
}

// A node's seven words, and what they say.
fn write_node<W: Write>(to: &mut W, view: View<'_>, i: u32) -> io::Result<()> {
    let words = view.graph.row(i);
    let node = view.graph.node(i);
    let named = Node::new(view, node);
    write!(to, "{words} # {named}; takes")?;
    for input in node.inputs() {
        let wire = Wire::new(view, *input);
        write!(to, "{wire}")?;
    }
    if node.outputs() == 0 {
        return to.write_all(b"; gives nothing\n");
    }
    to.write_all(b"; gives")?;
    if node.gives < 8192 {
        for k in 0..node.outputs() {
            let wire = Wire::new(view, node.gives.saturating_add(k));
            write!(to, "{wire}")?;
        }
    }
    to.write_all(b"\n")
}

// Sends what stands on a page, which is empty then.
fn send<R: Channels>(console: &Console<'_, R>, page: &mut Page<'_>) -> io::Result<()> {
    console.answer(page.as_slice())?;
    page.clear();
    Ok(())
}

// Writes a graph's words with what they say, or fails as the channel does.
pub fn write_list<R: Channels>(
    console: &Console<'_, R>,
    view: View<'_>,
    page: &mut Page<'_>,
) -> io::Result<()> {
    let _ = write_head(page, view);
    send(console, page)?;
    for i in 0..view.graph.nodes() {
        let _ = write_node(page, view, i);
        send(console, page)?;
    }
    Ok(())
}

// Writes a graph's drawing, with the tokens of its state.
pub fn write_drawing<R: Channels>(
    console: &Console<'_, R>,
    view: View<'_>,
    page: &mut Page<'_>,
) -> io::Result<()> {
    let _ = drawn::write_top(page, view);
    send(console, page)?;
    for i in 0..view.graph.nodes() {
        let _ = drawn::write_part(page, view, i);
        send(console, page)?;
    }
    let _ = drawn::write_bottom(page, view);
    send(console, page)
}

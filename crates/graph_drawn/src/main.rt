// Lists and draws the graph whose words standard input gives; behind semicolons the state's words, and the names of nodes and wires.
#![tactic(auto)]

use arrayvec::ArrayVec;
use channels::{Channel, Channels, Input};
use drawn::{Graph, Names, State, View};
use std::io;
use std::io::Write;
use text::Page;

fn write_view<W: Write>(to: &mut W, view: View<'_>) -> io::Result<()> {
    drawn::write_graph(to, view.graph)?;
    drawn::write_drawing(to, view)
}

// The words of a part of the text, as far as they can be read.
fn words_of(text: &[u8], k: usize) -> ArrayVec<u32, 4096> {
    let mut words = ArrayVec::new();
    let _ = text::read_words(text::part(text, k), &mut words);
    words
}

fn draw_text<R: Channels>(rt: &R, text: &[u8]) {
    let graph = words_of(text, 0);
    let state = words_of(text, 1);
    let nodes = words_of(text, 2);
    let wires = words_of(text, 3);
    let view = View {
        graph: Graph(graph.as_slice()),
        state: State(state.as_slice()),
        names: Names {
            nodes: nodes.as_slice(),
            wires: wires.as_slice(),
        },
        signed: false,
    };
    let mut memory = [0u8; 65536];
    let mut page = Page::new(&mut memory);
    let _ = write_view(&mut page, view);
    channels::tell(rt, Channel::Output, page.as_slice());
}

fn main(rt: HostRuntime) {
    let mut text = [0u8; 65536];
    let n = channels::read_full(&mut Input(&rt), &mut text);
    draw_text(&rt, &text[..n]);
}

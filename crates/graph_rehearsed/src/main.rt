// Rehearses two graphs by sweeps, with an allowance of 1,000, first as they are and then with their firings told, and with an allowance of 30: the sum graph, and one that strands,
// which no table gives; the second with signs. Standard input gives of each its words, the input words, the words of a state, and the names of its nodes and wires, semicolons between.
#![tactic(auto)]

ghost use Rattle.std.specs.Prelude.{◌≤◌};

use arrayvec::ArrayVec;
use channels::{Channel, Channels, Console, Input};
use drawn::{Graph, Names, State, View};
use text::Page;
use traced::How;

fn rehearse<R: Channels>(
    how: &How<'_, R>,
    graph: &[u32],
    inputs: &[u32],
    state: &mut [u32],
    allowance: u64,
) {
    let ran = rehearsal::run_graph(how, graph, inputs, state, &[], allowance);
    let mut memory = [0u8; 65536];
    let mut page = Page::new(&mut memory);
    let view = View {
        graph: Graph(graph),
        state: State(state),
        names: how.names,
        signed: how.signed,
    };
    let _ = match ran {
        Ok(ran) => rehearsal::write_ran(&mut page, view, ran),
        Err(why) => rehearsal::write_refused(&mut page, why, Graph(graph), inputs.len()),
    };
    let _ = how.console.answer(page.as_slice());
}

// The words of a part of the text, as far as they can be read and there is room for them.
fn words_of<const N: usize>(text: &[u8], k: usize) -> ArrayVec<u32, N> {
    let mut words = ArrayVec::new();
    let _ = text::read_words(text::part(text, k), &mut words);
    words
}

// The graph whose first part is part k of the text.
fn rehearse_text<R: Channels>(console: &Console<'_, R>, text: &[u8], k: usize, signed: bool)
    requires { k ≤ 5 }
{
    let graph = words_of::<4096>(text, k);
    let inputs = words_of::<512>(text, k + 1);
    let mut state = words_of::<4096>(text, k + 2);
    let nodes = words_of::<4096>(text, k + 3);
    let wires = words_of::<4096>(text, k + 4);
    let names = Names {
        nodes: nodes.as_slice(),
        wires: wires.as_slice(),
    };
    let graph = graph.as_slice();
    let inputs = inputs.as_slice();
    let state = state.as_mut_slice();
    rehearse_as(console, names, false, signed, graph, inputs, state, 1000);
    rehearse_as(console, names, true, signed, graph, inputs, state, 1000);
    rehearse_as(console, names, false, signed, graph, inputs, state, 30);
}

fn rehearse_as<R: Channels>(
    console: &Console<'_, R>,
    names: Names<'_>,
    trace: bool,
    signed: bool,
    graph: &[u32],
    inputs: &[u32],
    state: &mut [u32],
    allowance: u64,
) {
    let how = How {
        console,
        names,
        trace,
        signed,
    };
    rehearse(&how, graph, inputs, state, allowance);
}

fn main(rt: HostRuntime) {
    let mut text = [0u8; 65536];
    let count = channels::read_full(&mut Input(&rt), &mut text);
    let console = Console {
        rt: &rt,
        answers: Channel::Output,
        complaints: Channel::Output,
    };
    rehearse_text(&console, &text[..count], 0, false);
    rehearse_text(&console, &text[..count], 5, true);
}

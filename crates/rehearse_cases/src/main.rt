// Runs the commands of rehearse that its standard input names, one a line, with both channels on standard output, each below its line.
// Spaces stand between arguments. A line that starts with # is written as it is; an empty one is left out.
#![tactic(auto)]

use arrayvec::ArrayVec;
use channels::{Channel, Channels, Console, Input};
use std::rt::Files;

fn spaced(letter: u8) -> u8 {
    if letter == b' ' { 0 } else { letter }
}

fn show<R: Channels>(console: &Console<'_, R>, line: &[u8]) {
    let _ = console.answer(line);
    let _ = console.answer(b"\n");
}

// The arguments of a line: a 0 for each space, and one at the end. Letters for which there is no room are left out.
fn obey<R: Channels + Files>(console: &Console<'_, R>, line: &[u8]) {
    let mut arguments = ArrayVec::<u8, 4096>::new();
    let _ = arguments.extend(line.iter().map(|letter| spaced(*letter)));
    let _ = arguments.try_push(0);
    commands::obey(console, arguments.as_slice());
}

fn try_line<R: Channels + Files>(console: &Console<'_, R>, line: &[u8]) {
    match line {
        [] => {}
        [b'#', ..] => show(console, line),
        _ => {
            let _ = console.answer(b"$ rehearse ");
            show(console, line);
            obey(console, line);
        }
    }
}

fn main(rt: HostRuntime) {
    let mut text = [0u8; 65536];
    let count = channels::read_full(&mut Input(&rt), &mut text);
    let console = Console {
        rt: &rt,
        answers: Channel::Output,
        complaints: Channel::Output,
    };
    for line in text[..count].split(|letter| *letter == b'\n') {
        try_line(&console, line);
    }
}

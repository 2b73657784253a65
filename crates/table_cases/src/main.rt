// Checks the loop tables that standard input lists, and says of each the number and the row.
// A line is a name, a colon and a table: six words to a row, a word a letter, 0 to 9 and then a for 10 and on to z for 35; spaces are passed over.
#![tactic(auto)]

use arrayvec::ArrayVec;
use channels::{Channel, Channels, Input};
use std::io::Write;
use text::Page;

// Where the reading of a line stands: the words so far, and whether the name is behind.
#[derive(Drop)]
struct Line {
    words: ArrayVec<u32, 4096>,
    named: bool,
}

fn value(letter: u8) -> u32 {
    match letter {
        b'0'..=b'9' => (letter - b'0') as u32,
        b'a'..=b'z' => (letter - b'a') as u32 + 10,
        _ => 0,
    }
}

fn tell<R: Channels>(rt: &R, table: &[u32]) {
    let (number, row) = match table::check_rows(table) {
        Ok(()) => (0, 0),
        Err(refused) => (refused.why.number(), refused.row),
    };
    let mut memory = [0u8; 64];
    let mut page = Page::new(&mut memory);
    let _ = writeln!(page, " {number} {row}");
    channels::tell(rt, Channel::Output, page.as_slice());
}

impl Line {
    // One letter of a line. The name is passed on; the line's end tells of the table.
    fn take<R: Channels>(&mut self, rt: &R, letter: u8) {
        if !self.named {
            channels::tell(rt, Channel::Output, &[letter]);
            self.named = letter == b':';
        } else if letter == b'\n' {
            tell(rt, self.words.as_slice());
            self.words.clear();
            self.named = false;
        } else if letter != b' ' {
            // Words for which there is no room are left out.
            let _ = self.words.try_push(value(letter));
        }
    }
}

fn main(rt: HostRuntime) {
    let mut text = [0u8; 65536];
    let count = channels::read_full(&mut Input(&rt), &mut text);
    let mut line = Line {
        words: ArrayVec::new(),
        named: false,
    };
    for letter in &text[..count] {
        line.take(&rt, *letter);
    }
}

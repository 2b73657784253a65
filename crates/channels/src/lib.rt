// The channels of a program: the one that it reads, and the two that it writes.
#![tactic(auto)]

ghost use Rattle.std.specs.Prelude.{◌≤◌, length};
ghost use Rattle.std.specs.Io.{ReadsAtMost};

use std::io;
use std::io::{Print, Read};

// Where a text goes.
#[derive(Clone, Copy, Debug, PartialEq, Eq)]
pub enum Channel {
    Output,
    Errors,
}

pub trait Channels {
    // Writes all of a text, or fails.
    fn send(&self, to: Channel, text: &[u8]) -> io::Result<()>;

    // Reads once: the letters that are there now go to the start of `chunk`. Where there are no more, it answers 0.
    fn receive(&self, chunk: &mut [u8]) -> io::Result<usize>
        ensures { ReadsAtMost result chunk.new };
}

impl Channels for HostRuntime {
    fn send(&self, to: Channel, text: &[u8]) -> io::Result<()> {
        match to {
            Channel::Output => self.stdout().write_all(text),
            Channel::Errors => self.stderr().write_all(text),
        }
    }

    fn receive(&self, chunk: &mut [u8]) -> io::Result<usize> {
        self.stdin().read(chunk)
    }
}

// What a program is given, as a reader.
#[derive(Clone, Copy)]
pub struct Input<'a, R>(pub &'a R);

impl<'a, R: Channels> Read for Input<'a, R> {
    fn read(&mut self, chunk: &mut [u8]) -> io::Result<usize> {
        self.0.receive(chunk)
    }
}

// Writes all of a text where nobody asks whether that could be done.
pub fn tell<R: Channels>(rt: &R, to: Channel, text: &[u8]) {
    let _ = rt.send(to, text);
}

// Reads until there is no more, the text is full, or a read fails; how many letters there are. A `while`, since a read gives as many as it likes.
pub fn read_full<F: Read>(from: &mut F, text: &mut [u8]) -> usize
    ensures { result ≤ length text.new }
{
    let mut done = 0;
    while done < text.len() {
        let n = from.read(&mut text[done..]).unwrap_or(0);
        if n == 0 {
            break;
        }
        done += n;
    }
    done
}

// Where a program answers, and where it complains.
#[derive(Drop)]
pub struct Console<'a, R> {
    pub rt: &'a R,
    pub answers: Channel,
    pub complaints: Channel,
}

impl<'a, R: Channels> Console<'a, R> {
    // Answers on standard output, and complaints on standard error.
    pub fn new(rt: &'a R) -> Self {
        Console {
            rt,
            answers: Channel::Output,
            complaints: Channel::Errors,
        }
    }

    pub fn answer(&self, text: &[u8]) -> io::Result<()> {
        self.rt.send(self.answers, text)
    }

    // Nobody asks whether a complaint could be written.
    pub fn complain(&self, text: &[u8]) {
        tell(self.rt, self.complaints, text);
    }
}

// Words as people type them: decimal numbers in a text, read into fixed memory, parts of a line, and words as they are told.
// What is told is written to an `io::Write`, mostly to a page of fixed memory.
#![tactic(auto)]

ghost use Rattle.std.specs.Prelude.{◌≡◌, ◌≤◌, ◌+◌, ◌-◌, length, min, take, IfOk};
ghost use Rattle.std.specs.List.{replace_range};
ghost use Rattle.std.specs.Io.{WritesAtMost};
ghost use Rattle.std.specs.Io.Iter.{u64_saturate};
ghost use Rattle.std.specs.Io.KnownBytes.{WriteAppends};
ghost use Rattle.text.specs.Pages.{memory_of, place_of, written_on};

use arrayvec::ArrayVec;
use std::io::{Cursor, Write};
use std::{fmt, io};

// What can be wrong with a text.
#[derive(Clone, Copy, Debug, PartialEq, Eq)]
pub enum Problem {
    // A letter that is no digit, no space and no part's end.
    Letter,
    // A number that is over what it may be.
    Large,
    // More words than there is room for.
    Many,
    // No number, or two, where one is wanted.
    Single,
}

impl fmt::Display for Problem {
    fn fmt<W: fmt::Write>(&self, f: &mut fmt::Formatter<W>) -> fmt::Result {
        f.write_str(match self {
            Problem::Letter => "a letter that is no digit, space or semicolon",
            Problem::Large => "a number that is too large",
            Problem::Many => "more words in a list than there is room for",
            Problem::Single => "one number belongs before the first semicolon",
        })
    }
}

// The most that a word is below 0.
pub const MOST_BELOW: u64 = 2147483648;

// One more digit behind a number. What is past the largest stays there, and so past every word.
pub fn longer(value: u64, digit: u8) -> u64 {
    value.saturating_mul(10).saturating_add(digit as u64)
}

// Where the reading of words stands: the number that is being read, and what was wrong first.
#[derive(Drop)]
struct Reading {
    value: Option<u64>,
    problem: Option<Problem>,
}

impl Reading {
    fn spoil(&mut self, problem: Problem) {
        if self.problem.is_none() {
            self.problem = Some(problem);
            self.value = None;
        }
    }

    // A number's end: the word is kept.
    fn keep<const N: usize>(&mut self, words: &mut ArrayVec<u32, N>) {
        if let Some(value) = self.value {
            match u32::try_from(value) {
                Ok(word) => match words.try_push(word) {
                    Ok(()) => self.value = None,
                    Err(_) => self.spoil(Problem::Many),
                },
                Err(_) => self.spoil(Problem::Large),
            }
        }
    }

    fn letter<const N: usize>(&mut self, words: &mut ArrayVec<u32, N>, letter: u8) {
        match letter {
            b'0'..=b'9' => self.value = Some(longer(self.value.unwrap_or(0), letter - b'0')),
            b'\t'..=b'\r' | b' ' => self.keep(words),
            _ => self.spoil(Problem::Letter),
        }
    }
}

// Puts the words of a text behind those that are there. Where something is wrong, the words are those that could be read.
pub fn read_words<const N: usize>(
    text: &[u8],
    words: &mut ArrayVec<u32, N>,
) -> Result<(), Problem> {
    let mut reading = Reading {
        value: None,
        problem: None,
    };
    for letter in text {
        reading.letter(words, *letter);
    }
    reading.keep(words);
    match reading.problem {
        None => Ok(()),
        Some(problem) => Err(problem),
    }
}

// Where the reading of a single number stands.
#[derive(Clone, Copy, PartialEq, Eq)]
enum Place {
    Before,
    Within,
    Behind,
}

#[derive(Drop)]
struct Single {
    value: u64,
    place: Place,
    problem: Option<Problem>,
}

impl Single {
    fn spoil(&mut self, problem: Problem) {
        self.value = 0;
        self.problem = Some(problem);
    }

    fn digit(&mut self, digit: u8) {
        if self.place == Place::Behind {
            return self.spoil(Problem::Single);
        }
        self.place = Place::Within;
        match self.value.checked_mul(10) {
            Some(tens) => match tens.checked_add(digit as u64) {
                Some(value) => self.value = value,
                None => self.spoil(Problem::Large),
            },
            None => self.spoil(Problem::Large),
        }
    }

    fn letter(&mut self, letter: u8) {
        match letter {
            b'0'..=b'9' => self.digit(letter - b'0'),
            b'\t'..=b'\r' | b' ' => {
                if self.place == Place::Within {
                    self.place = Place::Behind;
                }
            }
            _ => {
                self.place = Place::Within;
                self.spoil(Problem::Letter);
            }
        }
    }
}

// The one number of a text. Of several problems the last is told.
pub fn read_number(text: &[u8]) -> Result<u64, Problem> {
    let mut number = Single {
        value: 0,
        place: Place::Before,
        problem: None,
    };
    for letter in text {
        number.letter(*letter);
    }
    match number.problem {
        Some(problem) => Err(problem),
        None if number.place == Place::Before => Err(Problem::Single),
        None => Ok(number.value),
    }
}

// Parts of a line, with a mark behind each but the last.

// How often a mark stands in a line.
pub fn marks(line: &[u8], mark: u8) -> usize
    ensures { result ≤ length line.now }
{
    line.iter().filter(|letter| **letter == mark).count()
}

// Part k, counted from 0; past the last part, nothing.
pub fn part_by(line: &[u8], k: usize, mark: u8) -> &[u8] {
    line.split(|letter| *letter == mark).nth(k).unwrap_or(&[])
}

// Part k between semicolons.
pub fn part(line: &[u8], k: usize) -> &[u8] {
    part_by(line, k, b';')
}

// A word as it is told, 0 to 4,294,967,295; or with its sign, -2,147,483,648 to 2,147,483,647.
#[derive(Clone, Copy, Debug, PartialEq, Eq)]
pub struct Word {
    pub word: u32,
    pub signed: bool,
}

impl fmt::Display for Word {
    fn fmt<W: fmt::Write>(&self, f: &mut fmt::Formatter<W>) -> fmt::Result {
        let word = self.word;
        if self.signed && word::is_negative(word) {
            let size = word::magnitude(word);
            return write!(f, "-{size}");
        }
        write!(f, "{word}")
    }
}

// Words as they are told in a line, each behind a space.
#[derive(Clone, Copy, Debug)]
pub struct Words<'a>(pub &'a [u32]);

impl<'a> fmt::Display for Words<'a> {
    fn fmt<W: fmt::Write>(&self, f: &mut fmt::Formatter<W>) -> fmt::Result {
        for word in self.0 {
            write!(f, " {word}")?;
        }
        Ok(())
    }
}

// A page of lent memory, which is written from its start on. Letters that do not fit are left out.
#[derive(Drop)]
pub struct Page<'a>(Cursor<&'a mut [u8]>);

impl<'a> Page<'a> {
    pub fn new(memory: &'a mut [u8]) -> Self
        ensures memory { memory_of result ≡ memory.old }
        ensures place { place_of result ≡ 0 }
    {
        Page(Cursor::new(memory))
    }

    // What is written.
    pub fn as_slice(&self) -> &[u8]
        ensures written { result.now ≡ written_on self.now }
        ensures few { length result.now ≤ length (memory_of self.now) }
    {
        let memory = self.0.get_ref();
        memory.get(..self.0.position() as usize).unwrap_or(memory)
    }

    pub fn clear(&mut self)
        ensures memory { memory_of self.new ≡ memory_of self.old }
        ensures place { place_of self.new ≡ 0 }
    {
        self.0.set_position(0);
    }
}

impl<'a> Write for Page<'a> {
    // As many letters as there is room for go behind those that are written.
    fn write(&mut self, text: &[u8]) -> io::Result<usize>
        ensures bound { WritesAtMost result text.now }
        ensures bytes { WriteAppends None None result text.now }
        ensures count { result ≡ Ok (min (length text.now) (length (memory_of self.old) - place_of self.old)) }
        ensures place { IfOk result (λ n. place_of self.new ≡ u64_saturate (place_of self.old + n)) }
        ensures memory { IfOk result (λ n. place_of self.old ≤ length (memory_of self.old) → memory_of self.new ≡ replace_range (memory_of self.old) (place_of self.old) (place_of self.old + n) (take n text.now)) }
    {
        self.0.write(text)
    }

    // What is told comes in many small parts: one write does for each, where the library's own loops.
    fn write_all(&mut self, text: &[u8]) -> io::Result<()> {
        if self.0.write(text)? < text.len() {
            return Err(io::ErrorKind::WriteZero.into());
        }
        Ok(())
    }

    fn flush(&mut self) -> io::Result<()> {
        Ok(())
    }
}

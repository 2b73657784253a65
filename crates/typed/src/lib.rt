// A text of decimal words as people type it: its words, and the place of what is wrong with it.
// Lines and columns are counted from 1 and a column is a letter of UTF-8; rows are counted from 0 and a row has the words kind and a to e.
// White space stands between words, and # starts a comment that ends with its line. Word a of a CONST may have a sign.
#![tactic(auto)]

use arrayvec::ArrayVec;
use std::fmt;

// What can be wrong.
#[derive(Clone, Copy, Debug, PartialEq, Eq)]
pub enum Problem {
    // A letter that is no digit, no white space and in no comment.
    Letter,
    // A word over the largest.
    Large,
    // More words than there is room for.
    Many,
    // A sign before a word that has none.
    Sign,
    // A word below the least.
    Low,
}

// What is wrong first: the offset of its letter or of its word's first digit or sign, and how many words stand before it.
#[derive(Clone, Copy, Debug, PartialEq, Eq)]
pub struct Misread {
    pub problem: Problem,
    pub at: usize,
    pub before: usize,
}

// The kind whose word a may have a sign.
const CONST: u32 = 1;

// The word that is being read: where it starts, and whether it has a sign.
#[derive(Clone, Copy)]
struct Number {
    value: u64,
    below: bool,
    start: usize,
}

impl Number {
    fn word(self) -> Result<u32, Problem> {
        if self.below {
            return self.word_below();
        }
        u32::try_from(self.value).map_err(|_| Problem::Large)
    }

    fn word_below(self) -> Result<u32, Problem> {
        if text::MOST_BELOW < self.value {
            return Err(Problem::Low);
        }
        Ok(word::negate(self.value as u32))
    }
}

// Where the reading stands.
#[derive(Drop)]
struct Scan {
    number: Option<Number>,
    comment: bool,
}

impl Misread {
    fn new<const N: usize>(problem: Problem, at: usize, words: &ArrayVec<u32, N>) -> Self {
        Misread {
            problem,
            at,
            before: words.len(),
        }
    }
}

// Whether the next word is word a of a CONST.
fn of_const(words: &[u32]) -> bool {
    words.len() % 6 == 1 && words.last() == Some(&CONST)
}

impl Scan {
    // A word's end: the word is kept.
    fn keep<const N: usize>(&mut self, words: &mut ArrayVec<u32, N>) -> Result<(), Misread> {
        if let Some(number) = self.number {
            self.number = None;
            return match number.word() {
                Ok(word) => match words.try_push(word) {
                    Ok(()) => Ok(()),
                    Err(_) => Err(Misread::new(Problem::Many, number.start, words)),
                },
                Err(problem) => Err(Misread::new(problem, number.start, words)),
            };
        }
        Ok(())
    }

    fn digit(&mut self, digit: u8, i: usize) {
        let number = self.number.unwrap_or(Number {
            value: 0,
            below: false,
            start: i,
        });
        self.number = Some(Number {
            value: text::longer(number.value, digit),
            below: number.below,
            start: number.start,
        });
    }

    // A sign at offset i. One that starts no number of a table is a letter as any other.
    fn sign<const N: usize>(
        &mut self,
        words: &ArrayVec<u32, N>,
        i: usize,
        starts_number: bool,
    ) -> Result<(), Misread> {
        if self.number.is_some() || !starts_number {
            return Err(Misread::new(Problem::Letter, i, words));
        }
        if !of_const(words.as_slice()) {
            return Err(Misread::new(Problem::Sign, i, words));
        }
        self.number = Some(Number {
            value: 0,
            below: true,
            start: i,
        });
        Ok(())
    }

    // The letter at offset i; `signed` says that a sign there starts a number of a table.
    fn letter<const N: usize>(
        &mut self,
        words: &mut ArrayVec<u32, N>,
        letter: u8,
        i: usize,
        signed: bool,
    ) -> Result<(), Misread> {
        if self.comment {
            self.comment = letter != b'\n';
            return Ok(());
        }
        match letter {
            b'0'..=b'9' => self.digit(letter - b'0', i),
            b'\t'..=b'\r' | b' ' => self.keep(words)?,
            b'#' => {
                self.keep(words)?;
                self.comment = true;
            }
            b'-' => self.sign(words, i, signed)?,
            _ => return Err(Misread::new(Problem::Letter, i, words)),
        }
        Ok(())
    }
}

// Whether the letter behind offset i is a digit.
fn before_digit(text: &[u8], i: usize) -> bool {
    match text.get(i.saturating_add(1)) {
        Some(letter) => letter.is_ascii_digit(),
        None => false,
    }
}

// Puts the words of a text, up to the first thing that is wrong, behind those that are there. `rows` says that it is a table's.
pub fn read<const N: usize>(
    text: &[u8],
    words: &mut ArrayVec<u32, N>,
    rows: bool,
) -> Result<(), Misread> {
    let mut scan = Scan {
        number: None,
        comment: false,
    };
    for (i, letter) in text.iter().enumerate() {
        scan.letter(words, *letter, i, rows && before_digit(text, i))?;
    }
    scan.keep(words)
}

// Places.

// A byte that starts a letter of UTF-8.
fn starts(b: u8) -> bool {
    !matches!(b, 128..=191)
}

// Line and column of a letter.
#[derive(Clone, Copy, Debug, PartialEq, Eq)]
pub struct Place {
    pub line: u64,
    pub column: u64,
}

impl fmt::Display for Place {
    fn fmt<W: fmt::Write>(&self, f: &mut fmt::Formatter<W>) -> fmt::Result {
        let line = self.line;
        let column = self.column;
        write!(f, "line {line}, column {column}")
    }
}

// Where the letter at an offset stands.
pub fn place_of(text: &[u8], at: usize) -> Place {
    let mut place = Place { line: 1, column: 1 };
    for letter in text.iter().take(at) {
        if *letter == b'\n' {
            place.line = place.line.saturating_add(1);
            place.column = 1;
        } else if starts(*letter) {
            place.column = place.column.saturating_add(1);
        }
    }
    place
}

// The letter that a text starts with: itself, and where it has more than one byte its number too, since some letters look like a space or like nothing.
#[derive(Clone, Copy, Debug)]
pub struct First<'a>(pub &'a [u8]);

// The letter of more than one byte that a text starts with.
fn wide_letter(text: &[u8]) -> Option<char> {
    for size in 2..5 {
        if let Some(front) = text.get(..size) {
            if let Ok(letter) = str::from_utf8(front) {
                return letter.chars().next();
            }
        }
    }
    None
}

impl<'a> fmt::Display for First<'a> {
    fn fmt<W: fmt::Write>(&self, f: &mut fmt::Formatter<W>) -> fmt::Result {
        let byte = self.0.first().copied().unwrap_or(0);
        match byte {
            b' '..=b'~' => {
                let letter = byte as char;
                return write!(f, "'{letter}'");
            }
            0..=127 => return write!(f, "byte {byte}"),
            _ => {}
        }
        match wide_letter(self.0) {
            Some('\u{feff}') => f.write_str("a byte-order mark"),
            Some(letter) => {
                let code = letter as u32;
                write!(f, "'{letter}' (U+{code:04x})")
            }
            None => write!(f, "byte {byte}"),
        }
    }
}

// Problems, told.

// The word that is the next behind so many: its row, and its name there.
#[derive(Clone, Copy, Debug)]
struct Next(usize);

impl fmt::Display for Next {
    fn fmt<W: fmt::Write>(&self, f: &mut fmt::Formatter<W>) -> fmt::Result {
        let row = self.0 / 6;
        let word = match self.0 % 6 {
            0 => "kind",
            1 => "word a",
            2 => "word b",
            3 => "word c",
            4 => "word d",
            _ => "word e",
        };
        write!(f, " (row {row}, {word})")
    }
}

// A text's first problem: where it stands, and what it is. In a table's text the row and the word are told too.
#[derive(Clone, Copy, Debug)]
pub struct Found<'a> {
    pub text: &'a [u8],
    pub misread: Misread,
    pub rows: bool,
}

impl<'a> fmt::Display for Found<'a> {
    fn fmt<W: fmt::Write>(&self, f: &mut fmt::Formatter<W>) -> fmt::Result {
        let place = place_of(self.text, self.misread.at);
        write!(f, "{place}")?;
        if self.rows {
            let next = Next(self.misread.before);
            write!(f, "{next}")?;
        }
        match self.misread.problem {
            Problem::Letter => {
                let rest = self.text.get(self.misread.at..).unwrap_or(&[]);
                let first = First(rest);
                write!(f, ": {first} is no digit")
            }
            Problem::Large => f.write_str(": a word over 4,294,967,295"),
            Problem::Low => f.write_str(": a word below -2,147,483,648"),
            Problem::Sign => {
                f.write_str(": '-' is no digit here: only word a of a CONST may be below 0")
            }
            Problem::Many => { f.write_str(": more words than the 65,536 that there is room for") }
        }
    }
}

// Lines. A text is laid out a row a line where at least half of the lines that hold words hold six; the odd line is then the first that holds words, and not six.

#[derive(Clone, Copy, Debug, PartialEq, Eq)]
pub struct Odd {
    pub line: u64,
    pub words: usize,
}

// What is odd about a line, as `line 3 has 5 words, a row has six`.
impl fmt::Display for Odd {
    fn fmt<W: fmt::Write>(&self, f: &mut fmt::Formatter<W>) -> fmt::Result {
        let line = self.line;
        let words = self.words;
        let noun = if words == 1 { "word" } else { "words" };
        write!(f, "line {line} has {words} {noun}, a row has six")
    }
}

// The words of a line before its comment.
fn words_of(line: &[u8]) -> usize {
    let before = text::part_by(line, 0, b'#');
    before
        .split(|letter| matches!(letter, b'\t'..=b'\r' | b' '))
        .filter(|word| !word.is_empty())
        .count()
}

pub fn odd_line(text: &[u8]) -> Option<Odd> {
    let mut rows: u64 = 0;
    let mut others: u64 = 0;
    let mut line: u64 = 0;
    let mut odd = None;
    for letters in text.split(|letter| *letter == b'\n') {
        line = line.saturating_add(1);
        match words_of(letters) {
            0 => {}
            6 => rows = rows.saturating_add(1),
            words => {
                others = others.saturating_add(1);
                odd = odd.or(Some(Odd { line, words }));
            }
        }
    }
    if others <= rows { odd } else { None }
}

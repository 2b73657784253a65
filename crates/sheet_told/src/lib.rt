// Why a text is no sheet, in people's words: line and column, what stands there, what could have stood there, and the rule.
// What could have stood there is asked of the reader itself, byte by byte, so there is no second account of sheets here.
#![tactic(auto)]

use arrayvec::ArrayVec;
use refusal::Refusal;
use sheet_read::Unread;
use std::io::Write;
use std::{fmt, io};
use told::{Asks, Rule};
use typed::First;

// Whether a text starts as a sheet does; no table of words does.
pub fn is_sheet(text: &[u8]) -> bool {
    text.starts_with(b"rows=")
}

// No first part of a sheet has more bytes.
type Trial = ArrayVec<u8, 65536>;

// Bytes that stand in sheets are from the line feed up to z, which is before this one.
const PAST: u8 = b'{';

// Whether a sheet can go on with this byte behind a text: whether the reader goes past it.
fn goes_on(trial: &mut Trial, byte: u8) -> bool {
    let at = trial.len();
    if trial.try_push(byte).is_err() {
        return false;
    }
    let mut rows = [0u32; 1];
    let read = sheet_read::read_sheet(trial.as_slice(), &mut rows);
    trial.pop();
    match read {
        Err(Unread::Text(place)) => at < place,
        _ => true,
    }
}

// The bytes with which a sheet can go on behind a text.
fn marks_behind(text: &[u8]) -> [bool; 128] {
    let mut marks = [false; 128];
    let mut trial = Trial::new();
    if trial.try_extend_from_slice(text).is_ok() {
        for byte in b'\n'..PAST {
            marks[byte as usize] = goes_on(&mut trial, byte);
        }
    }
    marks
}

fn is_marked(marks: &[bool; 128], byte: u8) -> bool {
    marks.get(byte as usize) == Some(&true)
}

// The last of the marked digits that follow a digit.
fn last_digit(marks: &[bool; 128], digit: u8) -> u8 {
    let mut last = digit;
    for next in digit..b'9' + 1 {
        if !is_marked(marks, next) {
            break;
        }
        last = next;
    }
    last
}

// Whether a byte is told with the digit before it.
fn follows(marks: &[bool; 128], byte: u8) -> bool {
    matches!(byte, b'1'..=b'9') && is_marked(marks, byte.saturating_sub(1))
}

// A byte that could stand there; from a digit on, all digits that could.
fn write_byte<W: Write>(to: &mut W, marks: &[bool; 128], byte: u8) -> io::Result<()> {
    if byte == b'\n' {
        return to.write_all(b"the end of the line");
    }
    let letter = byte as char;
    write!(to, "'{letter}'")?;
    if byte.is_ascii_digit() {
        let last = last_digit(marks, byte);
        if byte < last {
            let letter = last as char;
            write!(to, " to '{letter}'")?;
        }
    }
    Ok(())
}

// What could have stood behind a text.
fn write_could<W: Write>(to: &mut W, before: &[u8]) -> io::Result<()> {
    let marks = marks_behind(before);
    let mut gap = "";
    for byte in b'\n'..PAST {
        if is_marked(&marks, byte) && !follows(&marks, byte) {
            write!(to, "{gap}")?;
            write_byte(to, &marks, byte)?;
            gap = ", ";
        }
    }
    if gap.is_empty() {
        return to.write_all(b"nothing, the sheet is whole before it");
    }
    Ok(())
}

// What stands where a text starts.
#[derive(Clone, Copy, Debug)]
struct Found<'a>(&'a [u8]);

impl<'a> fmt::Display for Found<'a> {
    fn fmt<W: fmt::Write>(&self, f: &mut fmt::Formatter<W>) -> fmt::Result {
        match self.0.first() {
            None => f.write_str("the end of the text"),
            Some(b'\n') => f.write_str("the end of the line"),
            Some(b'\r') => f.write_str("a carriage return"),
            Some(b'\t') => f.write_str("a tab"),
            Some(b' ') => f.write_str("a blank"),
            Some(_) => {
                let first = First(self.0);
                write!(f, "{first}")
            }
        }
    }
}

// A refusal by rule 19 at an offset.
pub fn write_refusal<W: Write>(to: &mut W, file: &[u8], text: &[u8], at: usize) -> io::Result<()> {
    let (before, behind) = text.split_at(at.min(text.len()));
    let place = typed::place_of(text, at);
    let rule = Rule(Refusal::Text);
    let found = Found(behind);
    to.write_all(file)?;
    write!(
        to,
        ": {place}: refused by {rule}\n  found: {found}\n  could stand there: "
    )?;
    write_could(to, before)?;
    let asks = Asks(Refusal::Text);
    writeln!(to, "\n  the rule: {asks}")
}

// Files of words, and the two channels of a command: what it answers goes to one, what it has to complain of to the other.
#![tactic(auto)]

use arrayvec::ArrayVec;
use channels::{Channels, Console};
use sheet_read::Unread;
use std::io::{Read, Write};
use std::rt::Files;
use std::{fmt, fs, io};
use text::Page;
use typed::{Found, Misread};

// Why a command has not done what it was asked: a rule refused, or a command, an argument or a file was wrong.
#[derive(Clone, Copy, Debug, PartialEq, Eq)]
pub enum Stop {
    Refused,
    Error,
}

impl fmt::Display for Stop {
    fn fmt<W: fmt::Write>(&self, f: &mut fmt::Formatter<W>) -> fmt::Result {
        f.write_str(match self {
            Stop::Refused => "refused",
            Stop::Error => "error",
        })
    }
}

// The words of a file.
pub type Words = ArrayVec<u32, 65536>;

// Why a call failed, in words, by the number that the system gives. Its kinds in std tell fewer of them apart.
fn trouble(number: i32) -> &'static str {
    match number {
        2 => "there is no such file",
        5 => "the device failed",
        9 => "it is closed",
        13 => "this file may not be read",
        20 => "a part of its path is no directory",
        21 => "this is a directory",
        27 => "the file grows too large",
        28 => "no space is left on the device",
        32 => "nobody reads it",
        36 => "the name is too long",
        40 => "its path goes through too many links",
        _ => "the system refuses it",
    }
}

fn write_complaint<W: Write, D: fmt::Display + Drop>(
    to: &mut W,
    about: &[u8],
    what: D,
) -> io::Result<()> {
    to.write_all(about)?;
    writeln!(to, ": {what}")
}

// A line: what the complaint is about, a colon, and what is wrong.
pub fn complain<R: Channels, D: fmt::Display + Drop>(
    console: &Console<'_, R>,
    about: &[u8],
    what: D,
) {
    let mut memory = [0u8; 65536];
    let mut page = Page::new(&mut memory);
    let _ = write_complaint(&mut page, about, what);
    console.complain(page.as_slice());
}

// A call about a file or a channel failed.
fn fail<R: Channels>(console: &Console<'_, R>, about: &[u8], error: io::Error) -> Stop {
    complain(console, about, trouble(error.raw_os_error().unwrap_or(0)));
    Stop::Error
}

// What a command that has written its answer comes to. An answer that could not be written, as on a full disk, is an error.
pub fn written<R: Channels>(console: &Console<'_, R>, done: io::Result<()>) -> Result<(), Stop> {
    match done {
        Ok(()) => Ok(()),
        Err(error) => Err(fail(console, b"standard output", error)),
    }
}

pub fn answer<R: Channels>(console: &Console<'_, R>, text: &[u8]) -> Result<(), Stop> {
    written(console, console.answer(text))
}

// A line that has not the six words of a row moves the rows behind it, so it is told before what is wrong in line `before` or behind it.
pub fn note_odd<R: Channels>(console: &Console<'_, R>, path: &[u8], text: &[u8], before: u64) {
    if let Some(odd) = typed::odd_line(text) {
        if odd.line < before {
            complain(console, path, odd);
        }
    }
}

// A text that is no list of words.
fn refuse_words<R: Channels>(
    console: &Console<'_, R>,
    path: &[u8],
    text: &[u8],
    misread: Misread,
    rows: bool,
) -> Stop {
    if rows {
        note_odd(console, path, text, typed::place_of(text, misread.at).line);
    }
    complain(
        console,
        path,
        Found {
            text,
            misread,
            rows,
        },
    );
    Stop::Error
}

// A sheet has at most 512 rows, so only TEXT refuses it where that many are lent.
fn read_sheet<R: Channels>(
    console: &Console<'_, R>,
    path: &[u8],
    text: &[u8],
    words: &mut Words,
) -> Result<(), Stop> {
    let mut rows = [0u32; 3072];
    match sheet_read::read_sheet(text, &mut rows) {
        Ok(written) => {
            let _ = words.extend(rows.iter().copied().take(written));
            return Ok(());
        }
        Err(Unread::Text(place)) => {
            let mut memory = [0u8; 65536];
            let mut page = Page::new(&mut memory);
            let _ = sheet_told::write_refusal(&mut page, path, text, place);
            console.complain(page.as_slice());
        }
        Err(Unread::Room(_)) => {}
    }
    Err(Stop::Refused)
}

fn read_text<R: Channels>(
    console: &Console<'_, R>,
    path: &[u8],
    rows: bool,
    text: &[u8],
    words: &mut Words,
) -> Result<(), Stop> {
    if rows && sheet_told::is_sheet(text) {
        return read_sheet(console, path, text, words);
    }
    match typed::read(text, words, rows) {
        Ok(()) => Ok(()),
        Err(misread) => Err(refuse_words(console, path, text, misread, rows)),
    }
}

// A file's letters, unless it has more than the text has room for. One read behind them tells that, and also why a file cannot be read, as a directory.
fn read_letters<'a, F: Read>(file: &mut F, text: &'a mut [u8]) -> io::Result<Option<&'a [u8]>> {
    let count = channels::read_full(file, text);
    let mut more = [0u8; 4096];
    if file.read(&mut more)? != 0 {
        return Ok(None);
    }
    Ok(Some(&text[..count]))
}

fn read_named<'a, R: Files>(
    rt: &R,
    name: &str,
    text: &'a mut [u8],
) -> io::Result<Option<&'a [u8]>> {
    let mut file = fs::open(rt, name)?;
    read_letters(&mut file, text)
}

// Reads a file's words. `rows` says that it is a table's: it may be a sheet, a constant may be below 0, and the place of what is wrong is told by row and word too.
// What it returns are the file's letters, in `text`.
pub fn read_file<'a, R: Channels + Files>(
    console: &Console<'_, R>,
    path: &[u8],
    rows: bool,
    text: &'a mut [u8],
    words: &mut Words,
) -> Result<&'a [u8], Stop> {
    let Ok(name) = str::from_utf8(path) else {
        complain(console, path, "a file's name has to be UTF-8");
        return Err(Stop::Error);
    };
    match read_named(console.rt, name, text) {
        Ok(Some(letters)) => {
            read_text(console, path, rows, letters, words)?;
            Ok(letters)
        }
        Ok(None) => {
            complain(
                console,
                path,
                "the file has more bytes than the 1,048,576 that there is room for",
            );
            Err(Stop::Error)
        }
        Err(error) => Err(fail(console, path, error)),
    }
}

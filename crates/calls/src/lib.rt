// Calls as lines: a name, numbers in decimal, lists with semicolons between. One line is one call and has one line for its answer.
// `answer` works on fixed memory alone; `serve` reads the lines that a program is given and answers them.
// An answer is written as far as there is room.
#![tactic(auto)]

ghost use Rattle.std.specs.Prelude.{◌≤◌, length};

use arrayvec::ArrayVec;
use channels::{Channels, Console};
use engine::Plain;
use itoa::{Buffer, Integer};
use machine::Fired;
use refusal::{Refusal, Refused};
use run::Ran;
use sheet_read::Unread;
use std::io::Write;
use std::{fmt, io};
use text::{Page, Problem, part, read_number, read_words};

// What can be wrong with a line.
#[derive(Clone, Copy, Debug, PartialEq, Eq)]
enum Mistake {
    Text(Problem),
    Name,
    Lists,
    Lent,
    Long,
    Two,
}

impl From<Problem> for Mistake {
    fn from(problem: Problem) -> Self {
        Mistake::Text(problem)
    }
}

impl fmt::Display for Mistake {
    fn fmt<W: fmt::Write>(&self, f: &mut fmt::Formatter<W>) -> fmt::Result {
        match self {
            Mistake::Text(problem) => write!(f, "{problem}"),
            Mistake::Name => f.write_str("no call has this name"),
            Mistake::Lists => f.write_str("this call has another number of semicolons"),
            Mistake::Lent => f.write_str("more words or bytes are to be lent than there are"),
            Mistake::Long => f.write_str("the line is too long"),
            Mistake::Two => f.write_str("two numbers belong before the first semicolon"),
        }
    }
}

#[derive(Clone, Copy, Debug, PartialEq, Eq)]
enum Call {
    CheckTable,
    Lower,
    CheckGraph,
    Load,
    Fire,
    Run,
    ReadSheet,
    WriteSheet,
    ReadPlain,
}

impl Call {
    fn named(name: &[u8]) -> Option<Call> {
        match name {
            b"check_table" => Some(Call::CheckTable),
            b"lower" => Some(Call::Lower),
            b"check_graph" => Some(Call::CheckGraph),
            b"load" => Some(Call::Load),
            b"fire" => Some(Call::Fire),
            b"run" => Some(Call::Run),
            b"read_sheet" => Some(Call::ReadSheet),
            b"write_sheet" => Some(Call::WriteSheet),
            b"read_plain" => Some(Call::ReadPlain),
            _ => None,
        }
    }

    // How many semicolons a call has.
    fn lists(self) -> usize {
        match self {
            Call::CheckTable | Call::CheckGraph => 0,
            Call::Lower | Call::ReadSheet | Call::WriteSheet => 1,
            Call::Load | Call::Fire | Call::ReadPlain => 2,
            Call::Run => 3,
        }
    }
}

// Memory. What is lent holds sevens before a call.

type List = ArrayVec<u32, 65536>;

fn lent<T: Copy>(memory: &mut [T], count: u64, seven: T) -> Result<&mut [T], Mistake> {
    let lent = memory.get_mut(..count as usize).ok_or(Mistake::Lent)?;
    for place in lent.iter_mut() {
        *place = seven;
    }
    Ok(lent)
}

// Answers.

// Numbers, each behind a space. They are gathered, so that many are written at once: sixteen, of 40 digits at most.
fn write_list<W: Write, I: Integer>(to: &mut W, numbers: &[I]) -> io::Result<()> {
    let mut digits = Buffer::new();
    let mut letters = ArrayVec::<u8, 656>::new();
    for numbers in numbers.chunks(16) {
        letters.clear();
        for number in numbers {
            let _ = letters.try_push(b' ');
            for digit in digits.format(*number).as_bytes() {
                let _ = letters.try_push(*digit);
            }
        }
        to.write_all(letters.as_slice())?;
    }
    Ok(())
}

// 0, or a refusal's number.
fn number_of<T: Drop>(answer: Result<T, Refusal>) -> u32 {
    match answer {
        Ok(_) => 0,
        Err(why) => why.number(),
    }
}

// 0 and 0, or a refusal's number and its row.
fn number_and_row<T: Drop>(answer: Result<T, Refused>) -> (u32, u32) {
    match answer {
        Ok(_) => (0, 0),
        Err(refused) => (refused.why.number(), refused.row),
    }
}

// The lines behind their names, for each call: lists are read and memory is lent, then the call is made.

fn check_table<W: Write>(rest: &[u8], to: &mut W) -> Result<(), Mistake> {
    let mut table = List::new();
    read_words(rest, &mut table)?;
    let (number, row) = number_and_row(lowering::check_table(table.as_slice()));
    let _ = write!(to, "{number} {row}");
    Ok(())
}

fn lower<W: Write>(rest: &[u8], to: &mut W) -> Result<(), Mistake> {
    let count = read_number(part(rest, 0))?;
    let mut table = List::new();
    read_words(part(rest, 1), &mut table)?;
    let mut memory = [0u32; 65536];
    let graph = lent(&mut memory, count, 7)?;
    let lowered = lowering::lower(table.as_slice(), graph);
    let (number, row) = number_and_row(lowered);
    let written = lowered.unwrap_or(0);
    let _ = write!(to, "{number} {row} {written} ;");
    let _ = write_list(to, graph);
    Ok(())
}

fn check_graph<W: Write>(rest: &[u8], to: &mut W) -> Result<(), Mistake> {
    let mut graph = List::new();
    read_words(rest, &mut graph)?;
    let number = number_of(graph::check_graph(graph.as_slice()));
    let _ = write!(to, "{number}");
    Ok(())
}

fn load<W: Write>(rest: &[u8], to: &mut W) -> Result<(), Mistake> {
    let count = read_number(part(rest, 0))?;
    let mut graph = List::new();
    let mut inputs = List::new();
    read_words(part(rest, 1), &mut graph)?;
    read_words(part(rest, 2), &mut inputs)?;
    let mut memory = [0u32; 65536];
    let state = lent(&mut memory, count, 7)?;
    let number = number_of(machine::load(graph.as_slice(), inputs.as_slice(), state));
    let _ = write!(to, "{number} ;");
    let _ = write_list(to, state);
    Ok(())
}

fn fire<W: Write>(rest: &[u8], to: &mut W) -> Result<(), Mistake> {
    let node = read_number(part(rest, 0))?;
    let mut graph = List::new();
    let mut state = List::new();
    read_words(part(rest, 1), &mut graph)?;
    read_words(part(rest, 2), &mut state)?;
    let fired = machine::fire(graph.as_slice(), state.as_mut_slice(), node as usize);
    let number = number_of(fired);
    let done = if fired == Ok(Fired::Done) { 1 } else { 0 };
    let _ = write!(to, "{number} {done} ;");
    let _ = write_list(to, state.as_slice());
    Ok(())
}

// Which answer a run has, the firings, and the node of a zero step.
fn told_run(ran: Ran) -> (u32, u64, u32) {
    match ran {
        Ran::Complete(firings) => (0, firings, 0),
        Ran::ZeroStep(firings, node) => (1, firings, node),
        Ran::Stranded(firings) => (2, firings, 0),
        Ran::Spent(firings) => (3, firings, 0),
    }
}

fn run<W: Write>(rest: &[u8], to: &mut W) -> Result<(), Mistake> {
    let allowance = read_number(part(rest, 0))?;
    let mut graph = List::new();
    let mut state = List::new();
    let mut order = List::new();
    read_words(part(rest, 1), &mut graph)?;
    read_words(part(rest, 2), &mut state)?;
    read_words(part(rest, 3), &mut order)?;
    let ran = run::run(
        graph.as_slice(),
        state.as_mut_slice(),
        order.as_slice(),
        allowance,
    );
    let number = number_of(ran);
    let (answer, firings, node) = match ran {
        Ok(ran) => told_run(ran),
        Err(_) => (0, 0, 0),
    };
    let _ = write!(to, "{number} {answer} {firings} {node} ;");
    let _ = write_list(to, state.as_slice());
    Ok(())
}

// Words as bytes. A list has at most 65,536 words, so there is room for its bytes, and what is not narrow is a number that is too large.
fn narrow(words: &[u32], bytes: &mut ArrayVec<u8, 65536>) -> Result<(), Problem> {
    for word in words {
        let byte = u8::try_from(*word).map_err(|_| Problem::Large)?;
        bytes.try_push(byte).map_err(|_| Problem::Large)?;
    }
    Ok(())
}

fn read_sheet<W: Write>(rest: &[u8], to: &mut W) -> Result<(), Mistake> {
    let count = read_number(part(rest, 0))?;
    let mut words = List::new();
    read_words(part(rest, 1), &mut words)?;
    let mut memory = [0u32; 65536];
    let rows = lent(&mut memory, count, 7)?;
    let mut sheet = ArrayVec::new();
    narrow(words.as_slice(), &mut sheet)?;
    let read = sheet_read::read_sheet(sheet.as_slice(), rows);
    let (number, place, written) = match read {
        Ok(written) => (0, 0, written),
        Err(Unread::Text(offset)) => (Refusal::Text.number(), offset as u64, 0),
        Err(Unread::Room(size)) => (Refusal::Room.number(), size as u64, 0),
    };
    let _ = write!(to, "{number} {place} {written} ;");
    let _ = write_list(to, rows);
    Ok(())
}

fn write_sheet<W: Write>(rest: &[u8], to: &mut W) -> Result<(), Mistake> {
    let count = read_number(part(rest, 0))?;
    let mut table = List::new();
    read_words(part(rest, 1), &mut table)?;
    let mut memory = [0u8; 65536];
    let sheet = lent(&mut memory, count, 7)?;
    let wrote = sheet_written::write_sheet(table.as_slice(), sheet);
    let (number, row) = number_and_row(wrote);
    let written = wrote.unwrap_or(0);
    let _ = write!(to, "{number} {row} {written} ;");
    let _ = write_list(to, sheet);
    Ok(())
}

// The two numbers of a text. Where there is none, or one too many, two are wanted.
fn read_two(text: &[u8]) -> Result<(u64, u64), Mistake> {
    let start = text.iter().position(|letter| b' ' < *letter);
    let text = text.get(start.unwrap_or(0)..).unwrap_or(&[]);
    let end = text.iter().position(|letter| *letter <= b' ');
    let (first, second) = text.split_at(end.unwrap_or(text.len()));
    match (read_number(first), read_number(second)) {
        (Ok(first), Ok(second)) => Ok((first, second)),
        (Err(Problem::Single), _) | (Ok(_), Err(Problem::Single)) => Err(Mistake::Two),
        (Err(problem), _) | (Ok(_), Err(problem)) => Err(Mistake::Text(problem)),
    }
}

// A refusal's row or that of a zero step, which answer it is, and the turns made.
fn told_plain(plain: Result<Plain, Refused>) -> (u32, u32, u64) {
    match plain {
        Ok(Plain::Ended(turns)) => (0, 0, turns),
        Ok(Plain::ZeroStep { row, turns }) => (row, 1, turns),
        Ok(Plain::Spent(turns)) => (0, 3, turns),
        Err(refused) => (refused.row, 0, 0),
    }
}

fn read_plain<W: Write>(rest: &[u8], to: &mut W) -> Result<(), Mistake> {
    let (allowance, count) = read_two(part(rest, 0))?;
    let mut memory = [0u32; 65536];
    let results = lent(&mut memory, count, 7)?;
    let mut table = List::new();
    let mut inputs = List::new();
    read_words(part(rest, 1), &mut table)?;
    read_words(part(rest, 2), &mut inputs)?;
    let plain = engine::read_plain(table.as_slice(), inputs.as_slice(), results, allowance);
    let (number, _) = number_and_row(plain);
    let (row, answer, turns) = told_plain(plain);
    let _ = write!(to, "{number} {row} {answer} {turns} ;");
    let _ = write_list(to, results);
    Ok(())
}

// Where the name that a line starts with ends.
fn name_end(line: &[u8]) -> usize
    ensures { result ≤ length line.now }
{
    line.iter()
        .position(|letter| *letter <= b' ')
        .unwrap_or(line.len())
}

fn answer_call<W: Write>(line: &[u8], to: &mut W) -> Result<(), Mistake> {
    let (name, rest) = line.split_at(name_end(line));
    let call = Call::named(name).ok_or(Mistake::Name)?;
    if text::marks(rest, b';') != call.lists() {
        return Err(Mistake::Lists);
    }
    match call {
        Call::CheckTable => check_table(rest, to),
        Call::Lower => lower(rest, to),
        Call::CheckGraph => check_graph(rest, to),
        Call::Load => load(rest, to),
        Call::Fire => fire(rest, to),
        Call::Run => run(rest, to),
        Call::ReadSheet => read_sheet(rest, to),
        Call::WriteSheet => write_sheet(rest, to),
        Call::ReadPlain => read_plain(rest, to),
    }
}

fn tell_mistake<W: Write>(mistake: Mistake, to: &mut W) {
    let _ = write!(to, "error: {mistake}");
}

// The answer to a line.
pub fn answer<W: Write>(line: &[u8], to: &mut W) {
    if let Err(mistake) = answer_call(line, to) {
        tell_mistake(mistake, to);
    }
}

// Lines from a channel.

// The letters of a line so far, whether there were too many, and the page that its answer is written on.
#[derive(Drop)]
struct Desk<'a> {
    line: Page<'a>,
    long: bool,
    page: Page<'a>,
}

impl<'a> Desk<'a> {
    // Answers the line, and begins another.
    fn reply<R: Channels>(&mut self, console: &Console<'_, R>) {
        if self.long {
            tell_mistake(Mistake::Long, &mut self.page);
        } else {
            answer(self.line.as_slice(), &mut self.page);
        }
        let _ = self.page.write_all(b"\n");
        let _ = console.answer(self.page.as_slice());
        self.page.clear();
        self.line.clear();
        self.long = false;
    }

    // A part of a line.
    fn take(&mut self, letters: &[u8]) {
        if self.line.write_all(letters).is_err() {
            self.long = true;
        }
    }

    // What was read: each line feed ends a line.
    fn read<R: Channels>(&mut self, console: &Console<'_, R>, letters: &[u8]) {
        let mut parts = letters.split(|letter| *letter == b'\n');
        if let Some(first) = parts.next() {
            self.take(first);
        }
        for part in parts {
            self.reply(console);
            self.take(part);
        }
    }
}

// Answers each line that the program is given. A line has at most 1,048,576 letters, a list at most 65,536 words.
pub fn serve<R: Channels>(console: &Console<'_, R>) {
    let mut chunk = [0u8; 65536];
    let mut letters = [0u8; 1048576];
    let mut answers = [0u8; 1048576];
    let mut desk = Desk {
        line: Page::new(&mut letters),
        long: false,
        page: Page::new(&mut answers),
    };
    // As much as one read gives at a time, so that a caller who waits for an answer has it.
    for _ in 0..u64::MAX {
        let count = console.rt.receive(&mut chunk).unwrap_or(0);
        if count == 0 {
            break;
        }
        desk.read(console, &chunk[..count]);
    }
    // A last line that has no end is a line too.
    if !desk.line.as_slice().is_empty() {
        desk.reply(console);
    }
}

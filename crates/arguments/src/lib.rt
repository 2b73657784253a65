// What a command is asked: its arguments, read one by one. The table is the first that is no option; the others are input words.
// The arguments of a command stand in one text, each with a byte 0 behind it, which no argument can hold: so a command is the same whether it comes
// from the system or from a file of cases. Argument 0 is the command's name.
#![tactic(auto)]

use arrayvec::ArrayVec;
use std::fmt;

// No table has more inputs.
pub type Inputs = ArrayVec<u32, 512>;

// Argument k, counted from 0; past the last, nothing.
pub fn argument(line: &[u8], k: usize) -> &[u8] {
    text::part_by(line, k, 0)
}

// Whether the usage is asked for: by no argument, or by --help in place of a command or behind one.
pub fn asks_help(line: &[u8]) -> bool {
    line.is_empty()
        || argument(line, 0) == b"--help".as_slice()
        || argument(line, 1) == b"--help".as_slice()
}

// What can be wrong with an argument.
#[derive(Clone, Copy, Debug, PartialEq, Eq)]
pub enum Problem {
    Table,
    Option,
    Word,
    Inputs,
    Value,
    Allowance,
    Orders,
    Alone,
    Trace,
    Unread,
    Unturned,
    Unrun,
}

impl fmt::Display for Problem {
    fn fmt<W: fmt::Write>(&self, f: &mut fmt::Formatter<W>) -> fmt::Result {
        f.write_str(match self {
            Problem::Table => "no table is named",
            Problem::Option => "there is no such option",
            Problem::Word => "an input is a decimal number, -2,147,483,648 to 4,294,967,295",
            Problem::Inputs => "no table has so many inputs",
            Problem::Value => "something is to follow this option",
            Problem::Allowance => "an allowance is a number, 0 to 18,446,744,073,709,551,615",
            Problem::Orders => "--order and --reverse do not go together",
            Problem::Alone => "this command takes a table and nothing else",
            Problem::Trace => "a drawing has no trace",
            Problem::Unread => "--turns and --both go with run and read, not with a drawing",
            Problem::Unturned => "--turns goes with read, and with run where --both is given",
            Problem::Unrun => {
                "a reading has no firings: it takes input words, --turns and --signed"
            }
        })
    }
}

// What is wrong first, and the argument that it is about.
#[derive(Clone, Copy, Debug)]
pub struct Wrong<'a> {
    pub problem: Problem,
    pub argument: &'a [u8],
}

// The allowance of firings and that of turns where none is asked: more than any rehearsal of a station takes, and over in minutes.
pub const USUAL: u64 = 1000000000;

// `run` says that a run was asked for by an input or an option, `steered` that an option was given which a run alone takes, and `turned` that
// --turns was. `signed` says that words are to be told with a sign.
#[derive(Clone, Copy, Debug)]
pub struct Asked<'a> {
    pub table: &'a [u8],
    pub order: Option<&'a [u8]>,
    pub allowance: u64,
    pub turns: u64,
    pub reverse: bool,
    pub trace: bool,
    pub both: bool,
    pub run: bool,
    pub steered: bool,
    pub turned: bool,
    pub signed: bool,
}

// What an option waits for in the next argument.
#[derive(Clone, Copy, PartialEq, Eq)]
enum Awaited {
    File,
    Allowance,
    Turns,
}

// The number of a text, where it is one.
fn allowance(argument: &[u8]) -> Result<u64, Wrong<'_>> {
    match text::read_number(argument) {
        Ok(number) => Ok(number),
        Err(_) => Err(Wrong {
            problem: Problem::Allowance,
            argument,
        }),
    }
}

// The word that an input is.
fn word_of(argument: &[u8]) -> Option<u32> {
    match argument.strip_prefix(b"-") {
        Some(size) => word_below(size),
        None => u32::try_from(text::read_number(argument).ok()?).ok(),
    }
}

// What follows a sign: the word below 0.
fn word_below(size: &[u8]) -> Option<u32> {
    let size = text::read_number(size).ok()?;
    if text::MOST_BELOW < size {
        return None;
    }
    Some(word::negate(size as u32))
}

// A number with a sign is no option, but an input.
fn is_option(argument: &[u8]) -> bool {
    match argument {
        [b'-', letter, ..] => !letter.is_ascii_digit(),
        _ => false,
    }
}

impl<'a> Asked<'a> {
    fn new() -> Self {
        Asked {
            table: &[],
            order: None,
            allowance: USUAL,
            turns: USUAL,
            reverse: false,
            trace: false,
            both: false,
            run: false,
            steered: false,
            turned: false,
            signed: false,
        }
    }

    // An option that a run alone takes.
    fn steer(&mut self) {
        self.run = true;
        self.steered = true;
    }

    // An option, and what it waits for.
    fn option(&mut self, argument: &'a [u8]) -> Result<Option<Awaited>, Wrong<'a>> {
        match argument {
            b"--reverse" => {
                self.steer();
                self.reverse = true;
            }
            b"--trace" => {
                self.steer();
                self.trace = true;
            }
            b"--both" => {
                self.steer();
                self.both = true;
            }
            // That asks for no run.
            b"--signed" => self.signed = true,
            b"--order" => {
                self.steer();
                return Ok(Some(Awaited::File));
            }
            b"--allowance" => {
                self.steer();
                return Ok(Some(Awaited::Allowance));
            }
            b"--turns" => {
                self.run = true;
                return Ok(Some(Awaited::Turns));
            }
            _ => {
                return Err(Wrong {
                    problem: Problem::Option,
                    argument,
                });
            }
        }
        Ok(None)
    }

    // What an option waits for.
    fn value(&mut self, awaited: Awaited, argument: &'a [u8]) -> Result<(), Wrong<'a>> {
        match awaited {
            Awaited::File => self.order = Some(argument),
            Awaited::Allowance => self.allowance = allowance(argument)?,
            Awaited::Turns => {
                self.turns = allowance(argument)?;
                self.turned = true;
            }
        }
        Ok(())
    }

    // An input word is kept.
    fn input(&mut self, argument: &'a [u8], inputs: &mut Inputs) -> Result<(), Wrong<'a>> {
        if inputs.is_full() {
            return Err(Wrong {
                problem: Problem::Inputs,
                argument,
            });
        }
        match word_of(argument) {
            Some(word) => {
                inputs.push(word);
                self.run = true;
                Ok(())
            }
            None => Err(Wrong {
                problem: Problem::Word,
                argument,
            }),
        }
    }

    // An argument behind the table that no option waits for; what it waits for itself.
    fn plain(
        &mut self,
        argument: &'a [u8],
        inputs: &mut Inputs,
    ) -> Result<Option<Awaited>, Wrong<'a>> {
        if is_option(argument) {
            return self.option(argument);
        }
        self.input(argument, inputs)?;
        Ok(None)
    }
}

// Every argument behind the command's name. What is wrong first is told of its argument, or of the last option behind it that waits for another one.
pub fn read<'a>(line: &'a [u8], inputs: &mut Inputs) -> Result<Asked<'a>, Wrong<'a>> {
    let mut asked = Asked::new();
    let mut table = None;
    let mut option = argument(line, 0);
    let mut awaited = None;
    let mut wrong: Option<Wrong<'a>> = None;
    let last = text::marks(line, 0);
    for argument in line.split(|letter| *letter == 0).take(last).skip(1) {
        if let Some(value) = awaited {
            match asked.value(value, argument) {
                Ok(()) => awaited = None,
                Err(found) => wrong = wrong.or(Some(found)),
            }
        } else if table.is_none() && !is_option(argument) {
            table = Some(argument);
        } else {
            match asked.plain(argument, inputs) {
                Ok(None) => {}
                Ok(waits) => {
                    awaited = waits;
                    option = argument;
                    if let Some(found) = wrong {
                        wrong = Some(Wrong { argument, ..found });
                    }
                }
                Err(found) => wrong = wrong.or(Some(found)),
            }
        }
    }
    if let Some(wrong) = wrong {
        return Err(wrong);
    }
    if awaited.is_some() {
        return Err(Wrong {
            problem: Problem::Value,
            argument: option,
        });
    }
    complete(asked, table, argument(line, 0))
}

// What is wrong with all arguments together.
fn complete<'a>(
    asked: Asked<'a>,
    table: Option<&'a [u8]>,
    command: &'a [u8],
) -> Result<Asked<'a>, Wrong<'a>> {
    if asked.reverse && asked.order.is_some() {
        return Err(Wrong {
            problem: Problem::Orders,
            argument: command,
        });
    }
    match table {
        Some(table) => Ok(Asked { table, ..asked }),
        None => Err(Wrong {
            problem: Problem::Table,
            argument: command,
        }),
    }
}

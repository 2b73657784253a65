// A reading of a table without its graph, told; and the run of the table's graph held to it.
#![tactic(auto)]

ghost use Rattle.std.specs.Prelude.{◌≡◌, ◌≤◌, min};
ghost use Rattle.table.specs.Rows.{size};
ghost use Rattle.table.specs.Kinds.{kind_number};
ghost use Rattle.table.specs.Counted.{rows_of};

use drawn::{View, word_at};
use engine::Plain;
use refusal::{Refusal, Refused};
use std::io::Write;
use std::{fmt, io};
use table::Kind;
use text::Word;
use told::{Answer, Asks, Rule};

// How many of the first 512 rows are of a kind.
fn rows_of(table: &[u32], kind: Kind) -> usize
    ensures few { result ≤ 512 }
    ensures rows { result ≡ rows_of (kind_number kind) table.now (min (size table.now) 512) }
{
    let number = kind.number();
    let last = (table.len() / 6).min(512) as u32;
    let mut count: usize = 0;
    for r in 0..last {
        if table::kind_at(table, r) == number {
            count += 1;
        }
    }
    count
}

// How a reading ended.
#[derive(Clone, Copy, Debug)]
struct Ending(Result<Plain, Refused>);

fn turns(count: u64) -> &'static str {
    if count == 1 { "turn" } else { "turns" }
}

impl fmt::Display for Ending {
    fn fmt<W: fmt::Write>(&self, f: &mut fmt::Formatter<W>) -> fmt::Result {
        match self.0 {
            Ok(Plain::Ended(count)) => {
                let turns = turns(count);
                write!(f, "ENDED after {count} {turns}")
            }
            Ok(Plain::ZeroStep { row, turns: count }) => {
                let turns = turns(count);
                write!(f, "ZERO STEP after {count} {turns} at the FOR at row {row}")
            }
            Ok(Plain::Spent(count)) => {
                let turns = turns(count);
                write!(f, "SPENT after {count} {turns}")
            }
            Err(refused) => {
                let rule = Rule(refused.why);
                write!(f, "refused by {rule}")
            }
        }
    }
}

// A reading of a table with so many input words given, and the results that it left. `signed` tells its words with a sign.
#[derive(Clone, Copy, Debug)]
pub struct Reading<'a> {
    pub table: &'a [u32],
    pub given: usize,
    pub plain: Result<Plain, Refused>,
    pub results: &'a [u32],
    pub signed: bool,
}

impl<'a> Reading<'a> {
    // The refusal by a rule on rows. Rules 16 and 10 are about the words that come with a table.
    pub fn rows_refusal(&self) -> Option<Refusal> {
        match self.plain {
            Err(refused) => match refused.why {
                Refusal::Inputs | Refusal::Room => None,
                why => Some(why),
            },
            Ok(_) => None,
        }
    }

    fn ended(&self) -> bool {
        matches!(self.plain, Ok(Plain::Ended(_)))
    }

    // What rules 16 and 10 ask of a reading, and what the numbers were.
    fn write_counts<W: Write>(&self, to: &mut W, why: Refusal) -> io::Result<()> {
        if why == Refusal::Inputs {
            let asks = Asks(why);
            let inputs = rows_of(self.table, Kind::Input);
            let given = self.given;
            return writeln!(
                to,
                "{asks}; inputs of the table: {inputs}, words given: {given}"
            );
        }
        let outs = rows_of(self.table, Kind::Out);
        writeln!(
            to,
            "a word is lent for each OUT; results of the table: {outs}"
        )
    }

    // What is to be known of how it ended, behind its first words.
    fn write_why<W: Write>(&self, to: &mut W, plain: Plain) -> io::Result<()> {
        match plain {
            Plain::ZeroStep { row, .. } => {
                // The row that the FOR's step is.
                let step = word_at(self.table, 6 * row as usize + 2);
                writeln!(to, "\nits step is the word 0 of row {step}")
            }
            Plain::Spent(_) => to.write_all(
                b": one more turn is due\na larger --turns helps where an index moves towards its bound\n",
            ),
            Plain::Ended(_) => to.write_all(b"\n"),
        }
    }

    // A line for each OUT; where the reading has not ended each has none.
    fn write_results<W: Write>(&self, to: &mut W) -> io::Result<()> {
        for k in 0..rows_of(self.table, Kind::Out) {
            if self.ended() {
                let word = Word {
                    word: word_at(self.results, k),
                    signed: self.signed,
                };
                writeln!(to, "result {k}: {word}")?;
            } else {
                writeln!(to, "result {k}: none")?;
            }
        }
        Ok(())
    }

    pub fn write<W: Write>(&self, to: &mut W) -> io::Result<()> {
        let ending = Ending(self.plain);
        write!(to, "{ending}")?;
        match self.plain {
            Ok(plain) => {
                self.write_why(to, plain)?;
                self.write_results(to)
            }
            Err(refused) => {
                to.write_all(b": ")?;
                self.write_counts(to, refused.why)
            }
        }
    }
}

// The run of a graph, which ended with an answer in a state, held to the reading of its table.
#[derive(Clone, Copy, Debug)]
pub struct Held<'a> {
    pub answer: Answer,
    pub view: View<'a>,
    pub plain: Result<Plain, Refused>,
    pub results: &'a [u32],
}

// What holding the two together comes to.
#[derive(Clone, Copy, Debug, PartialEq, Eq)]
pub enum Verdict {
    Agreed,
    Opposed,
    // A SPENT side says nothing of the other.
    RunSpent,
    ReadingSpent,
}

impl<'a> Held<'a> {
    // Result k of a run that is COMPLETE.
    fn result(&self, k: u32) -> u32 {
        self.view.state.word(self.view.graph.result(k))
    }

    // The first result in which the run and the reading differ.
    fn first_other(&self) -> Option<u32> {
        (0..self.view.graph.results()).find(|k| self.result(*k)
            != word_at(self.results, *k as usize))
    }

    // Rows are not compared: a graph goes on beside a zero step, and may name another loop that waits.
    pub fn verdict(&self) -> Verdict {
        let agreed = match self.plain {
            _ if self.answer == Answer::Spent => return Verdict::RunSpent,
            Ok(Plain::Spent(_)) => return Verdict::ReadingSpent,
            Ok(Plain::Ended(_)) => {
                self.answer == Answer::Complete && self.first_other().is_none()
            }
            Ok(Plain::ZeroStep { .. }) => self.answer == Answer::ZeroStep,
            Err(_) => false,
        };
        if agreed {
            Verdict::Agreed
        } else {
            Verdict::Opposed
        }
    }

    // What each side answered, and the first result that is another where both have results.
    fn write_opposed<W: Write>(&self, to: &mut W) -> io::Result<()> {
        let answer = self.answer;
        let ending = Ending(self.plain);
        writeln!(
            to,
            "THE GRAPH AND THE READING WITHOUT THE GRAPH DIFFER\n  the graph: {answer}\n  the reading: {ending}"
        )?;
        if answer == Answer::Complete && matches!(self.plain, Ok(Plain::Ended(_))) {
            if let Some(k) = self.first_other() {
                let ran = self.view.word(self.result(k));
                let read = self.view.word(word_at(self.results, k as usize));
                writeln!(
                    to,
                    "  result {k}: by the graph {ran}, by the reading {read}"
                )?;
            }
        }
        to.write_all(
            b"  Both are proved to give the same, so this machine or this program is at fault.\n  Do not use this rehearsal. Keep the table and the inputs, and tell the office and those who maintain rehearse.\n",
        )
    }

    pub fn write<W: Write>(&self, to: &mut W) -> io::Result<()> {
        let ending = Ending(self.plain);
        match self.verdict() {
            Verdict::Agreed if matches!(self.plain, Ok(Plain::Ended(_))) => writeln!(
                to,
                "the reading without the graph agrees: {ending} with the same results"
            ),
            Verdict::Agreed => writeln!(
                to,
                "the reading without the graph agrees: {ending}; the graph goes on beside it, and may name another loop"
            ),
            Verdict::Opposed => self.write_opposed(to),
            Verdict::RunSpent => writeln!(
                to,
                "the reading without the graph: {ending}; not compared, since the run is SPENT: a larger --allowance may help"
            ),
            Verdict::ReadingSpent => writeln!(
                to,
                "the reading without the graph: {ending}; not compared, since the reading is SPENT: a larger --turns may help"
            ),
        }
    }
}

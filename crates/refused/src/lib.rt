// A refusal of a table in people's words: the file and the row, the rule, the clause that is broken, what the row says and what the rule asks.
#![tactic(auto)]

ghost use Rattle.std.specs.Prelude.{◌≤◌};

use phrases::{AKind, Grouped, RowWord, plural};
use refusal::Refusal;
use std::io::Write;
use std::{fmt, io};
use table::{Broken, Clause, Innermost, LengthFault, NameFault, OpenFault, PlaceFault, Sort};
use told::{Asks, Row, RowKind, Rule};

// Word k of a row; 0 where the table has none.
fn cell(table: &[u32], row: u32, k: u32) -> u32 {
    let i = 6 * (row as usize) + (k as usize);
    table.get(i).copied().unwrap_or(0)
}

// How many rows there are; no more than a number holds.
fn size_of(table: &[u32]) -> u32
    ensures { result ≤ 1000000 }
{
    (table.len() / 6).min(1000000) as u32
}

// What breaks LENGTH.
#[derive(Clone, Copy, Debug)]
struct Length<'a> {
    table: &'a [u32],
    fault: LengthFault,
}

impl<'a> fmt::Display for Length<'a> {
    fn fmt<W: fmt::Write>(&self, f: &mut fmt::Formatter<W>) -> fmt::Result {
        let size = size_of(self.table);
        let rest = (self.table.len() % 6) as u32;
        let count = 6 * size + rest;
        let words = Grouped(count);
        let rows = Grouped(size);
        match self.fault {
            LengthFault::SplitRow => {
                let words_end = plural(count);
                let rows_end = plural(size);
                let rest_end = plural(rest);
                write!(
                    f,
                    "found: {words} word{words_end}, {rows} row{rows_end} and {rest} word{rest_end} more"
                )
            }
            LengthFault::NoRow => f.write_str("found: no words"),
            LengthFault::ManyRows => write!(f, "found: {words} words, {rows} rows"),
        }
    }
}

// What breaks CODE: the word, and its value.
#[derive(Clone, Copy, Debug)]
struct Code {
    word: u32,
    value: u32,
}

impl fmt::Display for Code {
    fn fmt<W: fmt::Write>(&self, f: &mut fmt::Formatter<W>) -> fmt::Result {
        let value = self.value;
        match self.word {
            1 => write!(f, "a is {value}, and operators are 0 to 7"),
            4 => write!(f, "d is {value}, and updates are 0 to 5"),
            5 => write!(f, "e is {value}, and conditions are 0 to 4"),
            _ => Ok(()),
        }
    }
}

// A NEXT too many in row `row`: one NEXT serves one ARG, and those that are there stand directly before the row.
#[derive(Clone, Copy, Debug)]
struct ManyNexts {
    row: u32,
    within: Innermost,
}

impl fmt::Display for ManyNexts {
    fn fmt<W: fmt::Write>(&self, f: &mut fmt::Formatter<W>) -> fmt::Result {
        let body = self.within.body;
        let args = self.within.args;
        let first = self.row.saturating_sub(self.within.nexts);
        let last = self.row.saturating_sub(1);
        match args {
            0 => write!(f, "NEXT: this loop, of the FOR at row {body}, has no ARG"),
            1 => write!(
                f,
                "NEXT: this loop has 1 ARG, and its NEXT stands at row {first} already"
            ),
            _ => write!(
                f,
                "NEXT: this loop has {args} ARGs, and its NEXTs stand at rows {first} to {last} already"
            ),
        }
    }
}

// What breaks PLACE.
#[derive(Clone, Copy, Debug)]
struct Place<'a> {
    table: &'a [u32],
    row: u32,
    fault: PlaceFault,
    within: Innermost,
}

impl<'a> fmt::Display for Place<'a> {
    fn fmt<W: fmt::Write>(&self, f: &mut fmt::Formatter<W>) -> fmt::Result {
        let kind = AKind(cell(self.table, self.row, 0));
        let before = AKind(cell(self.table, self.row.saturating_sub(1), 0));
        let body = self.within.body;
        match self.fault {
            PlaceFault::BehindOut => {
                write!(f, "{kind} stands behind an OUT: only OUT follows OUT")
            }
            PlaceFault::BehindNext => {
                write!(
                    f,
                    "{kind} stands behind a NEXT: only NEXT and END follow NEXT"
                )
            }
            PlaceFault::LateStart => {
                write!(
                    f,
                    "{kind} stands behind {before}: INPUT and CONST come first"
                )
            }
            PlaceFault::LateArg if self.row == 0 => {
                f.write_str("an ARG stands first: ARG follows FOR or ARG")
            }
            PlaceFault::LateArg => {
                write!(f, "an ARG stands behind {before}: ARG follows FOR or ARG")
            }
            PlaceFault::LoneNext => f.write_str("NEXT: no loop is open here"),
            PlaceFault::ManyNexts => {
                let nexts = ManyNexts {
                    row: self.row,
                    within: self.within,
                };
                write!(f, "{nexts}")
            }
            PlaceFault::LoneEnd => f.write_str("END: no loop is open here"),
            PlaceFault::EarlyEnd => {
                let args = self.within.args;
                let nexts = self.within.nexts;
                let args_end = plural(args);
                let nexts_end = plural(nexts);
                write!(
                    f,
                    "END: this loop, of the FOR at row {body}, has {args} ARG{args_end} and {nexts} NEXT{nexts_end} so far"
                )
            }
            PlaceFault::InnerOut => {
                write!(f, "OUT: the loop of the FOR at row {body} is still open")
            }
        }
    }
}

// What breaks NAME: word `word` of a row names a row whose value is hidden there.
#[derive(Clone, Copy, Debug)]
struct Hidden<'a> {
    table: &'a [u32],
    row: u32,
    named: u32,
    fault: NameFault,
}

impl<'a> fmt::Display for Hidden<'a> {
    fn fmt<W: fmt::Write>(&self, f: &mut fmt::Formatter<W>) -> fmt::Result {
        let size = size_of(self.table);
        let last = size.saturating_sub(1);
        let number = cell(self.table, self.named, 0);
        let kind = RowKind(number);
        let a_kind = AKind(number);
        match self.fault {
            NameFault::Later if size <= self.named => {
                write!(f, "and the last row is row {last}")
            }
            NameFault::Later if self.named == self.row => f.write_str("this row itself"),
            NameFault::Later => f.write_str("which comes later"),
            NameFault::Valueless => write!(f, "{a_kind}, which has no value"),
            // A FOR and an ARG are a loop's own, a NEXT is at home around its loop, and the other kinds only stand in one.
            NameFault::Closed(body) => match number {
                4 | 5 => write!(f, "the {kind} of a loop that is closed"),
                6 => write!(
                    f,
                    "the NEXT of a loop within a loop that is closed, that of the FOR at row {body}"
                ),
                _ => write!(
                    f,
                    "{a_kind} in a loop that is closed, that of the FOR at row {body}"
                ),
            },
            NameFault::Entered(_) => write!(
                f,
                "the {kind} of this very loop: an ARG starts from a value outside its loop"
            ),
            NameFault::Unended(_) => f.write_str("a NEXT whose END has not come"),
        }
    }
}

// The clause that is broken.
#[derive(Clone, Copy, Debug)]
struct Told<'a> {
    table: &'a [u32],
    clause: Clause,
}

impl<'a> fmt::Display for Told<'a> {
    fn fmt<W: fmt::Write>(&self, f: &mut fmt::Formatter<W>) -> fmt::Result {
        let table = self.table;
        let row = self.clause.row;
        match self.clause.broken {
            Broken::Length(fault) => {
                let length = Length { table, fault };
                write!(f, "{length}")
            }
            Broken::Kind => {
                let kind = cell(table, row, 0);
                write!(f, "the kind is {kind}, and kinds are 0 to 8")
            }
            Broken::Spare(k) => {
                let word = RowWord(k);
                let value = cell(table, row, k);
                let kind = AKind(cell(table, row, 0));
                write!(
                    f,
                    "{word} is {value}, and {kind} does not use {word}: write 0"
                )
            }
            Broken::Code(word) => {
                let value = cell(table, row, word);
                let code = Code { word, value };
                write!(f, "{code}")
            }
            Broken::Place(fault, within) => {
                let place = Place {
                    table,
                    row,
                    fault,
                    within,
                };
                write!(f, "{place}")
            }
            Broken::Depth(within) => {
                let body = within.body;
                write!(
                    f,
                    "FOR: eight loops are open already, the innermost since row {body}"
                )
            }
            Broken::Name(k, fault) => {
                let word = RowWord(k);
                let named = cell(table, row, k);
                let hidden = Hidden {
                    table,
                    row,
                    named,
                    fault,
                };
                write!(f, "{word} names row {named}, {hidden}")
            }
            Broken::Type(k, sort) => {
                let word = RowWord(k);
                let named = cell(table, row, k);
                match sort {
                    Sort::Word => write!(f, "{word} must be a word, row {named} is a flag"),
                    Sort::Flag => write!(f, "{word} must be a flag, row {named} is a word"),
                }
            }
            Broken::Open(OpenFault::Unclosed, within) => {
                let body = within.body;
                write!(f, "the loop of the FOR at row {body} is not ended")
            }
            Broken::Open(OpenFault::Outless, _) => {
                let last = row.saturating_sub(1);
                let kind = AKind(cell(table, last, 0));
                write!(f, "no OUT stands last: the last row, row {last}, is {kind}")
            }
        }
    }
}

// Whether a rule is about one row; LENGTH, OPEN and ROOM are about the whole table.
fn of_a_row(refusal: Refusal) -> bool {
    !matches!(refusal, Refusal::Length | Refusal::Open | Refusal::Room)
}

// A refusal by rules 1 to 9.
pub fn write_refusal<W: Write>(
    to: &mut W,
    file: &[u8],
    table: &[u32],
    clause: Clause,
) -> io::Result<()> {
    let refusal = clause.broken.refusal();
    let row = clause.row;
    let rule = Rule(refusal);
    let told = Told { table, clause };
    to.write_all(file)?;
    if of_a_row(refusal) {
        let said = Row { table, row };
        write!(
            to,
            ": row {row}: refused by {rule}\n  {told}\n  the row says:{said}"
        )?;
    } else {
        write!(to, ": refused by {rule}\n  {told}")?;
    }
    let asks = Asks(refusal);
    writeln!(to, "\n  the rule: {asks}")
}

// A refusal by rule 10: the counts of nodes, wires, starts and results beside their limits.
pub fn write_room<W: Write>(to: &mut W, file: &[u8], counts: [u32; 4]) -> io::Result<()> {
    let [nodes, wires, starts, results] = counts.map(Grouped);
    let rule = Rule(Refusal::Room);
    let asks = Asks(Refusal::Room);
    to.write_all(file)?;
    writeln!(
        to,
        ": refused by {rule}\n  nodes: {nodes} (at most 4,096), wires: {wires} (at most 8,192), starts: {starts} (at most 512), results: {results} (at most 512)\n  the rule: {asks}"
    )
}

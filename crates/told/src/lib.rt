// What people are told: the names of kinds and answers, what the rules ask, and what a row says.
#![tactic(auto)]

use refusal::Refusal;
use std::fmt;
use text::Words;

// What a rule asks.
#[derive(Clone, Copy, Debug, PartialEq, Eq)]
pub struct Asks(pub Refusal);

impl fmt::Display for Asks {
    fn fmt<W: fmt::Write>(&self, f: &mut fmt::Formatter<W>) -> fmt::Result {
        f.write_str(match self.0 {
            Refusal::Length => "a table has one to 512 rows of six words",
            Refusal::Kind => "a row starts with a kind from 0 to 8",
            Refusal::Spare => "the words that a kind does not use are 0",
            Refusal::Code => "an operator is 0 to 7, an update 0 to 5, a condition 0 to 4",
            Refusal::Place => {
                "INPUT and CONST come first, ARG follows FOR or ARG, a loop has as many NEXTs as ARGs, then END, OUT stands last, outside every loop"
            }
            Refusal::Depth => "at most eight loops are open",
            Refusal::Name =>
                "an operand is the number of an earlier row whose value is visible here",
            Refusal::Type => "the first operand of PICK is a flag, every other operand is a word",
            Refusal::Open => "every loop is ended, and there is an OUT",
            Refusal::Room => {
                "the graph of a table has at most 4,096 nodes, 8,192 wires, 512 starts and 512 results"
            }
            Refusal::Shape => {
                "a graph has 4 + 2S + R + 7n words, and counts within 4,096, 8,192, 512 and 512"
            }
            Refusal::Node => {
                "starts, kinds, codes, sorts, absent places and output numbers are as the kind asks"
            }
            Refusal::Wire => "every input and result is below W",
            Refusal::Readers => "every wire is read once",
            Refusal::Sort => "what is read has the sort that is asked",
            Refusal::Inputs => "one word for each INPUT",
            Refusal::State => "a state has 2W + 4n words and is legal",
            Refusal::Order => "every node number is below the number of nodes",
            Refusal::Text => {
                "a sheet has a line rows=, 1 to 512, and for each row the lines row=, kind= and a= to e= as far as its kind uses them, with numbers up to 4,294,967,295 and no leading zeros, each line ended by one line feed and nothing else in it"
            }
        })
    }
}

// A refusal by its number and its name, as `rule 1 LENGTH`.
#[derive(Clone, Copy, Debug, PartialEq, Eq)]
pub struct Rule(pub Refusal);

impl fmt::Display for Rule {
    fn fmt<W: fmt::Write>(&self, f: &mut fmt::Formatter<W>) -> fmt::Result {
        let name = self.0;
        let number = name.number();
        write!(f, "rule {number} {name}")
    }
}

// The kind of a row, by its word.
#[derive(Clone, Copy, Debug, PartialEq, Eq)]
pub struct RowKind(pub u32);

impl fmt::Display for RowKind {
    fn fmt<W: fmt::Write>(&self, f: &mut fmt::Formatter<W>) -> fmt::Result {
        match table::Kind::try_from(self.0) {
            Ok(kind) => write!(f, "{kind}"),
            Err(_) => f.write_str("no kind"),
        }
    }
}

// The kind of a node, by its word.
#[derive(Clone, Copy, Debug, PartialEq, Eq)]
pub struct NodeKind(pub u32);

impl fmt::Display for NodeKind {
    fn fmt<W: fmt::Write>(&self, f: &mut fmt::Formatter<W>) -> fmt::Result {
        match step::Kind::try_from(self.0) {
            Ok(kind) => write!(f, "{kind}"),
            Err(_) => Ok(()),
        }
    }
}

// What a loop asks of its index and its bound to go on, by its code.
#[derive(Clone, Copy, Debug, PartialEq, Eq)]
pub struct Condition(pub u32);

impl fmt::Display for Condition {
    fn fmt<W: fmt::Write>(&self, f: &mut fmt::Formatter<W>) -> fmt::Result {
        f.write_str(match self.0 {
            0 => "<",
            1 => "<=",
            2 => ">",
            3 => ">=",
            _ => "!=",
        })
    }
}

// What a node's code says, behind a space: an OP's + or a STREAM's += and <; the other kinds have none.
#[derive(Clone, Copy, Debug, PartialEq, Eq)]
pub struct Code {
    pub kind: u32,
    pub code: u32,
}

fn update_name(code: u32) -> &'static str {
    match code {
        0 => " +=",
        1 => " -=",
        2 => " *=",
        3 => " /=",
        4 => " <<=",
        5 => " >>=",
        _ => "",
    }
}

fn operator_name(code: u32) -> &'static str {
    match code {
        0 => " +",
        1 => " -",
        2 => " *",
        3 => " <",
        4 => " <=",
        5 => " >",
        6 => " >=",
        7 => " !=",
        _ => "",
    }
}

impl fmt::Display for Code {
    fn fmt<W: fmt::Write>(&self, f: &mut fmt::Formatter<W>) -> fmt::Result {
        match self.kind {
            0 => {
                let update = update_name(self.code / 5);
                let condition = Condition(self.code % 5);
                write!(f, "{update} {condition}")
            }
            7 => f.write_str(operator_name(self.code)),
            _ => Ok(()),
        }
    }
}

// What row `row` of a table says: its words, each behind a space, and its kind's name. Past the table's end there is no row.
#[derive(Clone, Copy, Debug)]
pub struct Row<'a> {
    pub table: &'a [u32],
    pub row: u32,
}

impl<'a> fmt::Display for Row<'a> {
    fn fmt<W: fmt::Write>(&self, f: &mut fmt::Formatter<W>) -> fmt::Result {
        match self.table.chunks_exact(6).take(512).nth(self.row as usize) {
            Some(row) => {
                let words = Words(row);
                let kind = RowKind(row[0]);
                write!(f, "{words} ({kind})")
            }
            None => f.write_str(" nothing, the table ends before it"),
        }
    }
}

// How a run can end.
#[derive(Clone, Copy, Debug, PartialEq, Eq)]
pub enum Answer {
    Complete,
    ZeroStep,
    Stranded,
    Spent,
}

impl fmt::Display for Answer {
    fn fmt<W: fmt::Write>(&self, f: &mut fmt::Formatter<W>) -> fmt::Result {
        f.write_str(match self {
            Answer::Complete => "COMPLETE",
            Answer::ZeroStep => "ZERO STEP",
            Answer::Stranded => "STRANDED",
            Answer::Spent => "SPENT",
        })
    }
}

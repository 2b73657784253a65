// The refusals of every entry, in the order of their numbers. A refusal is an error that leaves what was lent as it was.
#![tactic(auto)]

ghost use Rattle.std.specs.Prelude.{◌≡◌};
ghost use Rattle.refusal.specs.Numbers.{number_of};

use std::error::Error;
use std::fmt;

#[derive(Clone, Copy, Debug, PartialEq, Eq)]
pub enum Refusal {
    Length,
    Kind,
    Spare,
    Code,
    Place,
    Depth,
    Name,
    Type,
    Open,
    Room,
    Shape,
    Node,
    Wire,
    Readers,
    Sort,
    Inputs,
    State,
    Order,
    Text,
}

impl Refusal {
    // The number that the fitters' papers give it, 1 to 19.
    pub fn number(self) -> u32
        ensures { result ≡ number_of self }
    {
        match self {
            Refusal::Length => 1,
            Refusal::Kind => 2,
            Refusal::Spare => 3,
            Refusal::Code => 4,
            Refusal::Place => 5,
            Refusal::Depth => 6,
            Refusal::Name => 7,
            Refusal::Type => 8,
            Refusal::Open => 9,
            Refusal::Room => 10,
            Refusal::Shape => 11,
            Refusal::Node => 12,
            Refusal::Wire => 13,
            Refusal::Readers => 14,
            Refusal::Sort => 15,
            Refusal::Inputs => 16,
            Refusal::State => 17,
            Refusal::Order => 18,
            Refusal::Text => 19,
        }
    }
}

impl fmt::Display for Refusal {
    fn fmt<W: fmt::Write>(&self, f: &mut fmt::Formatter<W>) -> fmt::Result {
        f.write_str(match self {
            Refusal::Length => "LENGTH",
            Refusal::Kind => "KIND",
            Refusal::Spare => "SPARE",
            Refusal::Code => "CODE",
            Refusal::Place => "PLACE",
            Refusal::Depth => "DEPTH",
            Refusal::Name => "NAME",
            Refusal::Type => "TYPE",
            Refusal::Open => "OPEN",
            Refusal::Room => "ROOM",
            Refusal::Shape => "SHAPE",
            Refusal::Node => "NODE",
            Refusal::Wire => "WIRE",
            Refusal::Readers => "READERS",
            Refusal::Sort => "SORT",
            Refusal::Inputs => "INPUTS",
            Refusal::State => "STATE",
            Refusal::Order => "ORDER",
            Refusal::Text => "TEXT",
        })
    }
}

impl Error for Refusal {}

// A refusal of a table or of what is made of it: a row goes with it, or what else the entry says of it.
#[derive(Clone, Copy, Debug, PartialEq, Eq)]
pub struct Refused {
    pub why: Refusal,
    pub row: u32,
}

impl fmt::Display for Refused {
    fn fmt<W: fmt::Write>(&self, f: &mut fmt::Formatter<W>) -> fmt::Result {
        write!(f, "{} at row {}", self.why, self.row)
    }
}

impl Error for Refused {}

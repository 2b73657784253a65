// Numbers, kinds and words of a row as they stand in sentences.
#![tactic(auto)]

use std::fmt;
use told::RowKind;

// A number with commas between its thousands.
#[derive(Clone, Copy, Debug, PartialEq, Eq)]
pub struct Grouped(pub u32);

impl fmt::Display for Grouped {
    fn fmt<W: fmt::Write>(&self, f: &mut fmt::Formatter<W>) -> fmt::Result {
        let ones = self.0 % 1000;
        let thousands = self.0 / 1000 % 1000;
        let millions = self.0 / 1000000 % 1000;
        let billions = self.0 / 1000000000;
        match self.0 {
            0..=999 => write!(f, "{ones}"),
            1000..=999999 => write!(f, "{thousands},{ones:03}"),
            1000000..=999999999 => write!(f, "{millions},{thousands:03},{ones:03}"),
            _ => write!(f, "{billions},{millions:03},{thousands:03},{ones:03}"),
        }
    }
}

// What stands behind a noun of so many things.
pub fn plural(count: u32) -> &'static str {
    if count == 1 { "" } else { "s" }
}

// A kind's name with its article.
#[derive(Clone, Copy, Debug, PartialEq, Eq)]
pub struct AKind(pub u32);

impl fmt::Display for AKind {
    fn fmt<W: fmt::Write>(&self, f: &mut fmt::Formatter<W>) -> fmt::Result {
        let kind = RowKind(self.0);
        match self.0 {
            0 | 2 | 5 | 7 | 8 => write!(f, "an {kind}"),
            1 | 3 | 4 | 6 => write!(f, "a {kind}"),
            _ => write!(f, "{kind}"),
        }
    }
}

// The name of a word of a row.
#[derive(Clone, Copy, Debug, PartialEq, Eq)]
pub struct RowWord(pub u32);

impl fmt::Display for RowWord {
    fn fmt<W: fmt::Write>(&self, f: &mut fmt::Formatter<W>) -> fmt::Result {
        f.write_str(match self.0 {
            0 => "the kind",
            1 => "a",
            2 => "b",
            3 => "c",
            4 => "d",
            5 => "e",
            _ => "",
        })
    }
}

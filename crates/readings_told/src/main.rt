// Tells ends of a run and of a reading held together, also such as no table gives. Standard input has five parts for each, a semicolon behind each part: the run's answer, and a 1 behind it for words with a sign; the reading's
// answer, its row or rule, and its turns; the words of a graph; those of a state; the results of the reading.
#![tactic(auto)]

ghost use Rattle.std.specs.Prelude.{◌<◌};

use arrayvec::ArrayVec;
use channels::{Channel, Channels, Input};
use drawn::{Graph, Names, State, View, word_at};
use engine::Plain;
use readings::Held;
use refusal::{Refusal, Refused};
use std::io;
use std::io::Write;
use text::Page;
use told::Answer;

// The rules, in the order of their numbers, from 1 on.
const RULES: [Refusal; 19] = [
    Refusal::Length,
    Refusal::Kind,
    Refusal::Spare,
    Refusal::Code,
    Refusal::Place,
    Refusal::Depth,
    Refusal::Name,
    Refusal::Type,
    Refusal::Open,
    Refusal::Room,
    Refusal::Shape,
    Refusal::Node,
    Refusal::Wire,
    Refusal::Readers,
    Refusal::Sort,
    Refusal::Inputs,
    Refusal::State,
    Refusal::Order,
    Refusal::Text,
];

// An answer over 3 is held to a reading as STRANDED is.
fn answer_of(answer: u32) -> Answer {
    match answer {
        0 => Answer::Complete,
        1 => Answer::ZeroStep,
        3 => Answer::Spent,
        _ => Answer::Stranded,
    }
}

fn rule_of(number: u32) -> Option<Refusal> {
    RULES.into_iter().find(|rule| rule.number() == number)
}

// A number that no rule has refuses a reading as rule 16 does.
fn plain_of(answer: u32, row: u32, turns: u64) -> Result<Plain, Refused> {
    match answer {
        0 => Ok(Plain::Ended(turns)),
        1 => Ok(Plain::ZeroStep { row, turns }),
        3 => Ok(Plain::Spent(turns)),
        _ => Err(Refused {
            why: rule_of(row).unwrap_or(Refusal::Inputs),
            row: 0,
        }),
    }
}

// The words of a part of the text, as far as they can be read and there is room for them.
fn words_of<const N: usize>(text: &[u8], k: usize) -> ArrayVec<u32, N> {
    let mut words = ArrayVec::new();
    let _ = text::read_words(text::part(text, k), &mut words);
    words
}

// The case whose first part is part k.
fn tell_case<R: Channels>(rt: &R, text: &[u8], k: usize)
    requires { k < 1000 }
{
    let run = words_of::<2>(text, k);
    let reading = words_of::<3>(text, k + 1);
    let graph = words_of::<256>(text, k + 2);
    let state = words_of::<256>(text, k + 3);
    let results = words_of::<8>(text, k + 4);
    let answer = word_at(run.as_slice(), 0);
    let signed = word_at(run.as_slice(), 1) == 1;
    let view = view_of(graph.as_slice(), state.as_slice(), signed);
    tell(rt, answer, reading.as_slice(), view, results.as_slice());
}

fn view_of<'a>(graph: &'a [u32], state: &'a [u32], signed: bool) -> View<'a> {
    View {
        graph: Graph(graph),
        state: State(state),
        names: Names {
            nodes: &[],
            wires: &[],
        },
        signed,
    }
}

// A case is told with the numbers that it has. Where no rule or no answer has them, the text of the library speaks of rule 16 or of STRANDED.

// Rule 0 is told as `none`, and a rule over 19 without a name.
fn write_with_rule<W: Write>(to: &mut W, text: &str, rule: u32) -> io::Result<()> {
    if rule_of(rule).is_none() {
        if let Some((before, behind)) = text.split_once("16 INPUTS") {
            let name = if rule == 0 { "none" } else { "" };
            return write!(to, "{before}{rule} {name}{behind}");
        }
    }
    write!(to, "{text}")
}

// An answer over 3 is told without a name.
fn write_with_numbers<W: Write>(to: &mut W, text: &str, answer: u32, rule: u32) -> io::Result<()> {
    if 3 < answer {
        if let Some((before, behind)) = text.split_once("STRANDED") {
            write!(to, "{before}")?;
            return write_with_rule(to, behind, rule);
        }
    }
    write_with_rule(to, text, rule)
}

fn tell<R: Channels>(rt: &R, answer: u32, reading: &[u32], view: View<'_>, results: &[u32]) {
    let rule = word_at(reading, 1);
    let held = Held {
        answer: answer_of(answer),
        view,
        plain: plain_of(word_at(reading, 0), rule, word_at(reading, 2) as u64),
        results,
    };
    let mut memory = [0u8; 4096];
    let mut page = Page::new(&mut memory);
    let _ = held.write(&mut page);
    let text = str::from_utf8(page.as_slice()).unwrap_or("");
    let mut memory = [0u8; 4096];
    let mut page = Page::new(&mut memory);
    let _ = write_with_numbers(&mut page, text, answer, rule);
    channels::tell(rt, Channel::Output, page.as_slice());
}

fn main(rt: HostRuntime) {
    let mut text = [0u8; 65536];
    let count = channels::read_full(&mut Input(&rt), &mut text);
    let text = &text[..count];
    let cases = (text::marks(text, b';') / 5).min(100);
    for case in 0..cases {
        tell_case(&rt, text, 5 * case);
    }
}

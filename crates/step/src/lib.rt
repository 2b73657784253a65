// One firing of one node, by value: what the node sees and its record go in, what the firing does comes out.
#![tactic(auto)]

ghost use Rattle.std.specs.Prelude.{◌≡◌, ℕ};
ghost use Rattle.std.proofs.Math.Option.{some};
ghost use Rattle.step.specs.Kinds.{STREAM, GATE, CARRY, INVARIANT, SPLIT, FORK, DRAIN, OP, PICK, Input};
ghost use Rattle.step.specs.Machines.{program, step_of, in_phase, holding};
ghost use Rattle.step.specs.Named.{number_of, Decodes};
ghost use Rattle.step.specs.Shown.{given, view_of, effect_of, shown, words_seen, words_in, decided, decided_of, effect, ready, unless};

use std::error::Error;
use std::fmt;

// The kinds of nodes, in the order of their numbers.
#[derive(Clone, Copy, Debug, PartialEq, Eq, Hash)]
pub enum Kind {
    Stream,
    Gate,
    Carry,
    Invariant,
    Split,
    Fork,
    Drain,
    Op,
    Pick,
}

impl Kind {
    // The number that stands for it in a row.
    pub fn number(self) -> u32
        ensures { result ≡ number_of self }
    {
        self as u32
    }
}

// A number that is no kind's.
#[derive(Clone, Copy, Debug, PartialEq, Eq, Hash)]
pub struct UnknownKind(pub u32);

impl TryFrom<u32> for Kind {
    type Error = UnknownKind;

    ghost try_from_gives = { Decodes };

    fn try_from(number: u32) -> Result<Self, UnknownKind> {
        match number {
            0 => Ok(Kind::Stream),
            1 => Ok(Kind::Gate),
            2 => Ok(Kind::Carry),
            3 => Ok(Kind::Invariant),
            4 => Ok(Kind::Split),
            5 => Ok(Kind::Fork),
            6 => Ok(Kind::Drain),
            7 => Ok(Kind::Op),
            8 => Ok(Kind::Pick),
            _ => Err(UnknownKind(number)),
        }
    }
}

impl fmt::Display for Kind {
    fn fmt<W: fmt::Write>(&self, f: &mut fmt::Formatter<W>) -> fmt::Result {
        f.write_str(match self {
            Kind::Stream => "STREAM",
            Kind::Gate => "GATE",
            Kind::Carry => "CARRY",
            Kind::Invariant => "INVARIANT",
            Kind::Split => "SPLIT",
            Kind::Fork => "FORK",
            Kind::Drain => "DRAIN",
            Kind::Op => "OP",
            Kind::Pick => "PICK",
        })
    }
}

impl fmt::Display for UnknownKind {
    fn fmt<W: fmt::Write>(&self, f: &mut fmt::Formatter<W>) -> fmt::Result {
        write!(f, "no kind of node has number {}", self.0)
    }
}

impl Error for UnknownKind {}

// A node's phase and three registers. A phase stays a number, since any may stand in a lent state.
#[derive(Clone, Copy, Debug, PartialEq, Eq)]
pub struct Record {
    pub phase: u32,
    pub r0: u32,
    pub r1: u32,
    pub r2: u32,
}

// What a node sees: the words that wait on its three inputs, and whether each of its two outputs is there and empty.
#[derive(Clone, Copy, Debug)]
pub struct Seen {
    pub inputs: [Option<u32>; 3],
    pub room: [bool; 2],
}

// What a firing does: which inputs it takes, the words that it gives, the record left.
#[derive(Clone, Copy, Debug)]
pub struct Act {
    pub takes: [bool; 3],
    pub gives: [Option<u32>; 2],
    pub next: Record,
}

const NONE: [bool; 3] = [false, false, false];

const FIRST: [bool; 3] = [true, false, false];

const SECOND: [bool; 3] = [false, true, false];

const THIRD: [bool; 3] = [false, false, true];

const BOTH: [bool; 3] = [true, true, false];

const ALL: [bool; 3] = [true, true, true];

const TRUE: Option<u32> = Some(1);

const FALSE: Option<u32> = Some(0);

const REST: Record = Record {
    phase: 0,
    r0: 0,
    r1: 0,
    r2: 0,
};

fn fires(takes: [bool; 3], gives: [Option<u32>; 2], next: Record) -> Option<Act>
    ensures effect { shown result ≡ some (effect takes (given gives 0) (given gives 1) next) }
{
    Some(Act { takes, gives, next })
}

fn in_phase(phase: u32) -> Record
    ensures record { result ≡ in_phase phase }
{
    Record { phase, ..REST }
}

fn hold(r0: u32, r1: u32, r2: u32) -> Record
    ensures record { result ≡ holding r0 r1 r2 }
{
    Record {
        phase: 1,
        r0,
        r1,
        r2,
    }
}

// The word on each input. Of an input that is empty it is 0, and nothing takes it.
fn words_of(seen: Seen) -> [u32; 3]
    ensures words { result ≡ words_seen seen }
{
    seen.inputs.map(|word| word.unwrap_or(0))
}

// What each kind would do next, by its phase and then the flag it takes. Whether it may is asked once, in `step`.

// In phase 0 it takes start, step and bound, unless the step is 0; in phase 1 it gives a pair a firing.
fn stream(code: u32, words: [u32; 3], own: Record) -> Option<Act>
    ensures decision { shown result ≡ decided (program STREAM code own) (words_in words) }
{
    let [start, step, bound] = words;
    match own.phase {
        0 => match step {
            0 => None,
            _ => fires(ALL, [None, None], hold(start, step, bound)),
        },
        1 => match word::condition(code % 5, own.r0, own.r2) {
            0 => fires(NONE, [Some(own.r0), FALSE], REST),
            _ => {
                let index = word::update(code / 5, own.r0, own.r1);
                fires(NONE, [Some(own.r0), TRUE], hold(index, own.r1, own.r2))
            }
        },
        _ => None,
    }
}

// The first true condition gives the value alone, later ones give the pair; the last false gives the condition alone.
fn gate(words: [u32; 3], own: Record) -> Option<Act>
    ensures decision { shown result ≡ decided (program GATE 0 own) (words_in words) }
{
    let [value, condition, _] = words;
    match own.phase {
        0 => match condition {
            0 => fires(BOTH, [None, None], REST),
            _ => fires(BOTH, [Some(value), None], in_phase(1)),
        },
        1 => match condition {
            0 => fires(BOTH, [None, FALSE], REST),
            _ => fires(BOTH, [Some(value), TRUE], in_phase(1)),
        },
        _ => None,
    }
}

// `a`, then `d`, then after each true `d` one `b`, in firings of their own.
fn carry(words: [u32; 3], own: Record) -> Option<Act>
    ensures decision { shown result ≡ decided (program CARRY 0 own) (words_in words) }
{
    let [d, a, b] = words;
    match own.phase {
        0 => fires(SECOND, [Some(a), None], in_phase(1)),
        1 => match d {
            0 => fires(FIRST, [None, None], in_phase(0)),
            _ => fires(FIRST, [None, None], in_phase(2)),
        },
        2 => fires(THIRD, [Some(b), None], in_phase(1)),
        _ => None,
    }
}

// `a` is stored and given; each true `d` gives it again, the last false clears the store.
fn invariant(words: [u32; 3], own: Record) -> Option<Act>
    ensures decision { shown result ≡ decided (program INVARIANT 0 own) (words_in words) }
{
    let [d, a, _] = words;
    match own.phase {
        0 => fires(SECOND, [Some(a), None], hold(a, 0, 0)),
        1 => match d {
            0 => fires(FIRST, [None, None], REST),
            _ => fires(FIRST, [Some(own.r0), None], hold(own.r0, 0, 0)),
        },
        _ => None,
    }
}

// The leg that the flag names, and no other.
fn split(words: [u32; 3], own: Record) -> Option<Act>
    ensures decision { shown result ≡ decided (program SPLIT 0 own) (words_in words) }
{
    let [flag, value, _] = words;
    match own.phase {
        0 => match flag {
            0 => fires(BOTH, [None, Some(value)], REST),
            _ => fires(BOTH, [Some(value), None], REST),
        },
        _ => None,
    }
}

fn fork(words: [u32; 3], own: Record) -> Option<Act>
    ensures decision { shown result ≡ decided (program FORK 0 own) (words_in words) }
{
    let [value, _, _] = words;
    match own.phase {
        0 => fires(FIRST, [Some(value), Some(value)], REST),
        _ => None,
    }
}

fn drain(own: Record) -> Option<Act>
    ensures decision { (words : Input → ℕ) → shown result ≡ decided (program DRAIN 0 own) words }
{
    match own.phase {
        0 => fires(FIRST, [None, None], REST),
        _ => None,
    }
}

fn operator(code: u32, words: [u32; 3], own: Record) -> Option<Act>
    ensures decision { shown result ≡ decided (program OP code own) (words_in words) }
{
    let [x, y, _] = words;
    match own.phase {
        0 => fires(BOTH, [Some(word::operate(code, x, y)), None], REST),
        _ => None,
    }
}

// All three are taken, whichever word is given.
fn picker(words: [u32; 3], own: Record) -> Option<Act>
    ensures decision { shown result ≡ decided (program PICK 0 own) (words_in words) }
{
    let [flag, x, y] = words;
    match own.phase {
        0 => match flag {
            0 => fires(ALL, [Some(y), None], REST),
            _ => fires(ALL, [Some(x), None], REST),
        },
        _ => None,
    }
}

// By kind. A number over 8 is no kind.
fn decide(kind: u32, code: u32, words: [u32; 3], own: Record) -> Option<Act>
    ensures decision { shown result ≡ decided_of kind code own (words_in words) }
{
    match Kind::try_from(kind) {
        Ok(Kind::Stream) => stream(code, words, own),
        Ok(Kind::Gate) => gate(words, own),
        Ok(Kind::Carry) => carry(words, own),
        Ok(Kind::Invariant) => invariant(words, own),
        Ok(Kind::Split) => split(words, own),
        Ok(Kind::Fork) => fork(words, own),
        Ok(Kind::Drain) => drain(own),
        Ok(Kind::Op) => operator(code, words, own),
        Ok(Kind::Pick) => picker(words, own),
        Err(_) => None,
    }
}

// A place that is used has to be fit for it.
fn fit(used: bool, is: bool) -> bool
    ensures answer { result ≡ unless used is }
{
    !used || is
}

// Every input it would take is full, and every output it would fill has room.
fn is_ready(seen: Seen, act: Act) -> bool
    ensures answer { result ≡ ready seen (effect_of act) }
{
    let [takes0, takes1, takes2] = act.takes;
    let [gives0, gives1] = act.gives;
    let [input0, input1, input2] = seen.inputs;
    let [room0, room1] = seen.room;
    fit(takes0, input0.is_some())
        && fit(takes1, input1.is_some())
        && fit(takes2, input2.is_some())
        && fit(gives0.is_some(), room0)
        && fit(gives1.is_some(), room1)
}

// One firing, or none where the node is not ready.
pub fn step(kind: u32, code: u32, seen: Seen, own: Record) -> Option<Act>
    ensures firing { shown result ≡ step_of kind code (view_of seen own) }
{
    let act = decide(kind, code, words_of(seen), own)?;
    if is_ready(seen, act) { Some(act) } else { None }
}

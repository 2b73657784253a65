// The walk of a table's rows: a body runs its loops, and a loop runs its body. Words and rows are read afresh where the reading does.
#![tactic(auto)]

ghost use Rattle.std.specs.Prelude.{◌≡◌, ◌+◌, ◌-◌, ◌<◌, ◌≤◌};
ghost use Rattle.word.specs.Words.{condition, update};
ghost use Rattle.table.specs.Rows.{kind_at, word};
ghost use Rattle.turning.specs.Words.{env_of, WholeLoop};
ghost use Rattle.walking.specs.Walks.{Walked, Rowed, Turned};

use table::Kind;
use turning::{Loop, Loops, Rows};

// The row that a walk has come to, with so many turns left.
#[derive(Clone, Copy, Debug, PartialEq, Eq)]
pub struct At {
    pub row: u32,
    pub left: u64,
}

// Why a walk comes no further: a zero step at a FOR's row with so many turns left, or a turn that is due with none left.
#[derive(Clone, Copy, Debug, PartialEq, Eq)]
pub enum Halt {
    ZeroStep { row: u32, left: u64 },
    Spent,
}

// The condition of the loop at row l for index x.
fn holds(rows: &Rows, words: &[u32; 512], l: u32, x: u32) -> u32
    requires { (l < rows.now.size) × (kind_at rows.now.table.now l ≡ 4) }
    ensures { result ≡ condition (word rows.now.table.now l 5) x (env_of words.now (word rows.now.table.now l 3)) }
{
    word::condition(table::word_at(rows.table, l, 5), x, rows.named(words, l, 3))
}

// Its index after one more turn.
fn index_after(rows: &Rows, words: &[u32; 512], l: u32) -> u32
    requires { (l < rows.now.size) × (kind_at rows.now.table.now l ≡ 4) }
    ensures { result ≡ update (word rows.now.table.now l 4) (env_of words.now l) (env_of words.now (word rows.now.table.now l 2)) }
{
    let index = turning::word_of(words, l);
    let step = rows.named(words, l, 2);
    word::update(table::word_at(rows.table, l, 4), index, step)
}

// One row that is no END.
#[cycle(body_laps_row_turns)]
fn row(
    loops: &Loops,
    words: &mut [u32; 512],
    aside: &mut [u32; 512],
    i: u32,
    left: u64,
) -> Result<At, Halt>
    requires { (i < loops.now.rows.size) × (kind_at loops.now.rows.table.now i ≡ 7 → ⊥) }
    ensures { Rowed loops.now.rows.table.now i words.old left result words.new }
{
    let next = At { row: i + 1, left };
    match loops.rows.kind(i) {
        Kind::For => laps(loops, words, aside, i, left),
        Kind::Op => {
            loops.rows.op_row(words, i);
            Ok(next)
        }
        Kind::Pick => {
            loops.rows.pick_row(words, i);
            Ok(next)
        }
        _ => Ok(next),
    }
}

// The rows from `from` on up to an END or the table's end. A `while`, since a loop's rows are passed over at once.
#[cycle(body_laps_row_turns)]
pub fn body(
    loops: &Loops,
    words: &mut [u32; 512],
    aside: &mut [u32; 512],
    from: u32,
    allow: u64,
) -> Result<At, Halt>
    requires { from ≤ loops.now.rows.size }
    ensures { Walked loops.now.rows.table.now from words.old allow result words.new }
{
    let mut i = from;
    let mut left = allow;
    while i < loops.rows.size {
        if loops.rows.kind(i) == Kind::End {
            return Ok(At { row: i, left });
        }
        let next = row(loops, words, aside, i, left)?;
        left = next.left;
        i = next.row;
    }
    Ok(At { row: i, left })
}

// The turns of a loop whose first has begun. A `loop`, since they end by its condition and the allowance, and not by a count.
#[cycle(body_laps_row_turns)]
fn turns(
    loops: &Loops,
    words: &mut [u32; 512],
    aside: &mut [u32; 512],
    l: &Loop,
    allow: u64,
) -> Result<At, Halt>
    requires { WholeLoop loops.now.rows.table.now l.now.row l.now.first l.now.end }
    ensures { Turned loops.now.rows.table.now l.now.row l.now.first words.old allow result words.new }
{
    let mut left = allow;
    loop {
        let end = body(loops, words, aside, l.first, left)?;
        let x = index_after(&loops.rows, words, l.row);
        if holds(&loops.rows, words, l.row, x) == 0 {
            loops.rows.leave(words, aside, l);
            return Ok(At {
                row: end.row + 1,
                left: end.left,
            });
        }
        if end.left == 0 {
            return Err(Halt::Spent);
        }
        loops.rows.next_turn(words, aside, l, x);
        left = end.left - 1;
    }
}

// The loop at row l.
#[cycle(body_laps_row_turns)]
fn laps(
    loops: &Loops,
    words: &mut [u32; 512],
    aside: &mut [u32; 512],
    l: u32,
    allow: u64,
) -> Result<At, Halt>
    requires { (l < loops.now.rows.size) × (kind_at loops.now.rows.table.now l ≡ 4) }
    ensures { Rowed loops.now.rows.table.now l words.old allow result words.new }
{
    if loops.rows.named(words, l, 2) == 0 {
        return Err(Halt::ZeroStep {
            row: l,
            left: allow,
        });
    }
    let start = loops.rows.named(words, l, 1);
    let place = loops.at(l);
    if holds(&loops.rows, words, l, start) == 0 {
        loops.rows.pass_over(words, aside, &place);
        return Ok(At {
            row: place.end + 1,
            left: allow,
        });
    }
    if allow == 0 {
        return Err(Halt::Spent);
    }
    loops.rows.first_turn(words, aside, &place, start);
    turns(loops, words, aside, &place, allow - 1)
}

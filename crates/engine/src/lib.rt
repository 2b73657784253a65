// The reading of a table without its graph.
#![tactic(auto)]

ghost use Rattle.std.specs.Prelude.{◌≡◌, ◌≤◌, length};
ghost use Rattle.table.specs.Rows.{size};
ghost use Rattle.table.specs.Counted.{rows_of};
ghost use Rattle.engine.specs.Plain.{made, plain_of};
ghost use Rattle.engine.specs.Answers.{plain_within, told_by, lent_by, PlainAnswer};

use refusal::{Refusal, Refused};
use table::Kind;
use turning::Rows;
use walking::Halt;

// Ended, with the turns made; a zero step, with the FOR's row and the turns made; or spent, with the turns made.
#[derive(Clone, Copy, Debug, PartialEq, Eq)]
pub enum Plain {
    Ended(u64),
    ZeroStep { row: u32, turns: u64 },
    Spent(u64),
}

// The reading of a table that passes, with a word for each INPUT and room for each result.
fn read_rows(rows: &Rows, inputs: &[u32], results: &mut [u32], allowance: u64) -> Plain
    requires { (length inputs.now ≡ rows_of 0 rows.now.table.now rows.now.size) × (rows_of 8 rows.now.table.now rows.now.size ≤ length results.old) }
    ensures { (made result ≡ told_by allowance (plain_within rows.now.table.now inputs.now allowance)) × (results.new ≡ lent_by results.old (plain_within rows.now.table.now inputs.now allowance)) }
{
    let mut words = rows.first_words(inputs);
    let loops = rows.loops();
    let mut aside = [0u32; 512];
    match walking::body(&loops, &mut words, &mut aside, 0, allowance) {
        Ok(end) => {
            rows.put_results(&words, results);
            Plain::Ended(allowance - end.left)
        }
        Err(halt) => match halt {
            Halt::ZeroStep { row, left } => Plain::ZeroStep {
                row,
                turns: allowance - left,
            },
            Halt::Spent => Plain::Spent(allowance),
        },
    }
}

// Reads a table on its inputs, with so many turns allowed; the results go first into the lent words.
pub fn read_plain(
    table: &[u32],
    inputs: &[u32],
    results: &mut [u32],
    allowance: u64,
) -> Result<Plain, Refused>
    ensures answer { PlainAnswer table.now inputs.now results.old allowance (plain_of result) results.new }
{
    table::check_rows(table)?;
    let rows = Rows {
        table,
        size: (table.len() / 6) as u32,
    };
    if inputs.len() != rows.count(Kind::Input) {
        return Err(Refused {
            why: Refusal::Inputs,
            row: 0,
        });
    }
    if results.len() < rows.count(Kind::Out) {
        return Err(Refused {
            why: Refusal::Room,
            row: rows.size,
        });
    }
    Ok(read_rows(&rows, inputs, results, allowance))
}

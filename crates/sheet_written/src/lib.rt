// The sheet of a table, written into lent bytes. `write_sheet` is the entry. The functions `put_..` write into bytes that have room and answer the place
// behind what they wrote.
#![tactic(auto)]

ghost use Rattle.std.specs.Prelude.{◌≡◌, true, ◌+◌, ◌*◌, ◌<◌, ◌≤◌, length, IfOk};
ghost use Rattle.std.proofs.lemmas.List.Edits.{sets};
ghost use Rattle.table.specs.Rows.{size};
ghost use Rattle.table.specs.Check.{answer};
ghost use Rattle.sheet.specs.Sheet.{decimal, line_of, word_key, words_text, row_text, rows_text, sheet_of, row_fault, fault_from, sheet_refusal, has_sheet};
ghost use Rattle.sheet.specs.Answers.{WriteAnswer, written_by};
ghost use Rattle.refusal.specs.Numbers.{answer_number, refused_number, refused_row};

use refusal::{Refusal, Refused};
use table::Kind;

// How many rows a table may have.
const MOST_ROWS: usize = 512;

// 2 and 3 on row r.
fn check_row(table: &[u32], r: u32) -> Result<(), Refusal>
    requires { (r < size table.now) × (r < 512) }
    ensures { answer_number result ≡ row_fault table.now r }
{
    if Kind::try_from(table::kind_at(table, r)).is_err() {
        return Err(Refusal::Kind);
    }
    if table::spare_word(table, r).is_some() {
        return Err(Refusal::Spare);
    }
    Ok(())
}

fn check_rows(table: &[u32], n: u32) -> Result<(), Refused>
    requires { (length table.now ≡ 6 * n) × (n ≤ 512) }
    ensures { answer (refused_number result) (refused_row result) ≡ fault_from n table.now 0 }
{
    for row in 0..n {
        if let Err(why) = check_row(table, row) {
            return Err(Refused { why, row });
        }
    }
    Ok(())
}

// 1 to 3, for which a table has no sheet. The row count is answered.
fn check_table(table: &[u32]) -> Result<u32, Refused>
    ensures { (answer (refused_number result) (refused_row result) ≡ sheet_refusal table.now) × IfOk result (λ n. (length table.now ≡ 6 * n) × (n ≤ 512)) }
{
    let n = table.len() / 6;
    if table.len() % 6 != 0 || n < 1 || n > MOST_ROWS {
        return Err(Refused {
            why: Refusal::Length,
            row: 0,
        });
    }
    check_rows(table, n as u32)?;
    Ok(n as u32)
}

// Word k's line.
fn put_word(out: &mut [u8], at: usize, k: u32, v: u32) -> usize
    requires { (k < 6) × (at + length (line_of (word_key k) (decimal v)) ≤ length out.old) }
    ensures { (out.new ≡ sets out.old at (line_of (word_key k) (decimal v))) × (result ≡ at + length (line_of (word_key k) (decimal v))) }
{
    let key = [(96 + k) as u8, b'='];
    sheet::put_line(out, at, &key, v)
}

// The lines of row r's first so many words.
fn put_words(out: &mut [u8], at: usize, table: &[u32], r: u32, used: u32) -> usize
    requires { (r < size table.now) × (r < 512) × (used ≤ 5) × (at + length (words_text used table.now r 1) ≤ length out.old) }
    ensures { (out.new ≡ sets out.old at (words_text used table.now r 1)) × (result ≡ at + length (words_text used table.now r 1)) }
{
    let mut p = at;
    for k in 1..used + 1 {
        p = put_word(out, p, k, table::word_at(table, r, k));
    }
    p
}

fn put_row(out: &mut [u8], at: usize, table: &[u32], r: u32) -> usize
    requires { (r < size table.now) × (r < 512) × (at + length (row_text table.now r) ≤ length out.old) }
    ensures { (out.new ≡ sets out.old at (row_text table.now r)) × (result ≡ at + length (row_text table.now r)) }
{
    let kind = table::kind_at(table, r);
    let p = sheet::put_start(out, at, r);
    let q = sheet::put_name(out, p, kind);
    let used = table::used_words(kind);
    put_words(out, q, table, r, used)
}

fn put_rows(out: &mut [u8], at: usize, table: &[u32], n: u32) -> usize
    requires { (length table.now ≡ 6 * n) × (n ≤ 512) × (at + length (rows_text n table.now 0) ≤ length out.old) }
    ensures { (out.new ≡ sets out.old at (rows_text n table.now 0)) × (result ≡ at + length (rows_text n table.now 0)) }
{
    let mut p = at;
    for r in 0..n {
        p = put_row(out, p, table, r);
    }
    p
}

fn put_sheet(out: &mut [u8], table: &[u32], n: u32) -> usize
    requires { (length table.now ≡ 6 * n) × (n ≤ 512) × (length (sheet_of table.now) ≤ length out.old) }
    ensures { (out.new ≡ sets out.old 0 (sheet_of table.now)) × (result ≡ length (sheet_of table.now)) }
{
    let p = sheet::put_line(out, 0, b"rows=", n);
    put_rows(out, p, table, n)
}

// The sheet is written aside first, so that lent bytes that are too few stay as they were. No sheet has more than 65,536 bytes.
fn write_passed(table: &[u32], n: u32, text: &mut [u8]) -> Result<usize, Refused>
    requires { (length table.now ≡ 6 * n) × (n ≤ 512) × (has_sheet table.now ≡ true) }
    ensures { WriteAnswer table.now text.old (refused_number result) (refused_row result) (written_by result) text.new }
{
    let mut page = [0u8; 65536];
    let long = put_sheet(&mut page, table, n);
    if text.len() < long {
        return Err(Refused {
            why: Refusal::Room,
            row: n,
        });
    }
    Ok(sheet::put_bytes(text, 0, &page[..long]))
}

// The lent bytes hold the sheet from the first on, and its length is answered. A refusal leaves them: 1 to 3 where the table has no sheet, with the row of 2
// and 3; 10 where they are too few, with the row count.
pub fn write_sheet(table: &[u32], text: &mut [u8]) -> Result<usize, Refused>
    ensures answer { WriteAnswer table.now text.old (refused_number result) (refused_row result) (written_by result) text.new }
{
    let n = check_table(table)?;
    write_passed(table, n, text)
}

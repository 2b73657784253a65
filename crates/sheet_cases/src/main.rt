// Sheets read and written as standard input lists the calls: each way in which a line can break, at each key. Then the largest sheet, 512 rows of FOR with
// words of ten digits, is written and read back.
#![tactic(auto)]

use channels::{Channels, Console};
use refusal::Refusal;
use sheet_read::Unread;
use std::io;
use std::io::Write;
use text::Page;

const FOR: u32 = 4;

// A row of the largest sheet.
const ROW: [u32; 6] = [FOR, u32::MAX, u32::MAX, u32::MAX, u32::MAX, u32::MAX];

fn write_largest<W: Write>(to: &mut W, sheet: &mut [u8]) -> io::Result<()> {
    let mut table = [0u32; 3072];
    for row in table.chunks_exact_mut(6) {
        row.copy_from_slice(&ROW);
    }
    let (number, row, written) = match sheet_written::write_sheet(&table, sheet) {
        Ok(written) => (0, 0, written),
        Err(refused) => (refused.why.number(), refused.row, 0),
    };
    write!(
        to,
        "the largest sheet: written {number} {row} {written}, read "
    )
}

// What was read back of the sheet.
fn write_read<W: Write>(to: &mut W, sheet: &[u8]) -> io::Result<()> {
    let mut rows = [0u32; 3072];
    let (number, place, written) = match sheet_read::read_sheet(sheet, &mut rows) {
        Ok(written) => (0, 0, written),
        Err(Unread::Text(offset)) => (Refusal::Text.number(), offset as u64, 0),
        Err(Unread::Room(size)) => (Refusal::Room.number(), size as u64, 0),
    };
    let same = if rows.chunks_exact(6).all(|row| row == ROW.as_slice()) {
        "the same"
    } else {
        "another"
    };
    writeln!(to, "{number} {place} {written}, {same}")
}

// The bytes lent are just enough.
fn tell_largest<R: Channels>(console: &Console<'_, R>) {
    let mut sheet = [0u8; 41883];
    let mut memory = [0u8; 4096];
    let mut page = Page::new(&mut memory);
    let _ = write_largest(&mut page, &mut sheet);
    let _ = write_read(&mut page, &sheet);
    let _ = console.answer(page.as_slice());
}

fn main(rt: HostRuntime) {
    let console = Console::new(&rt);
    calls::serve(&console);
    tell_largest(&console);
}

// From DIMACS or AIGER text to the sheet.

ghost use Rattle.std.specs.Prelude.{◌≡◌, ◌≤◌, length, Ok};
ghost use Rattle.clauses.specs.Limit.{max_nets};
ghost use Rattle.sheet.specs.Comparing.{sheet_of, comparing, comparing_aiger};

use crate::write::write;
use aiger::reading::MAX_CIRCUIT_ENTRIES;
use clauses::limits::{MAX_NETS, MAX_NUMBERS};
use clauses::reading::ListSize;
use clauses::refusal::Refusal;
use closure::close::MAX_WORK;

// The sheet of the list that reading has put at the start of a row, under round limit V + 1, at the buffer's start. The lead row and the
// work row are its own.
fn write_read(list: ListSize, row: &[i32], text: &mut [u8]) -> Result<usize, Refusal>
    requires { (list.entries ≤ length row.now) × (list.nets ≤ max_nets) }
    ensures { record { result = result; text = text.new } ≡ sheet_of (Ok list) row.now text.old }
{
    let mut leads = [0; MAX_NETS as usize];
    let mut work = [0; MAX_WORK];
    write(
        list.nets,
        list.clauses,
        &row[..list.entries],
        list.nets + 1,
        &mut leads,
        &mut work,
        text,
    )
}

// Reads a DIMACS text and writes its sheet. The literal row has room for the numbers of any text that is not too long.
pub fn compare(input: &[u8], text: &mut [u8]) -> Result<usize, Refusal>
    ensures { record { result = result; text = text.new } ≡ comparing input.now text.old }
{
    let mut row = [0; MAX_NUMBERS];
    let list = clauses::reading::read(input, &mut row)?;
    write_read(list, &row, text)
}

// Reads an AIGER text and writes its sheet. The literal row has room for the entries that any text makes.
pub fn compare_aiger(input: &[u8], text: &mut [u8]) -> Result<usize, Refusal>
    ensures { record { result = result; text = text.new } ≡ comparing_aiger input.now text.old }
{
    let mut row = [0; MAX_CIRCUIT_ENTRIES];
    let list = aiger::reading::read(input, &mut row)?;
    write_read(list, &row, text)
}

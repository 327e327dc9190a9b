// Closing a clause list and writing its sheet.

ghost use Rattle.std.specs.Prelude.{◌≡◌};
ghost use Rattle.sheet.specs.Writing.{writing};

use crate::lines::put_sheet;
use clauses::refusal::Refusal;
use closure::close::{check_list, close};

// Bytes that the lent text buffer must have (specs/Writing.antt).
pub const MIN_BUFFER: usize = 16384;

// Closes a clause list of V nets and C clauses under a round limit and writes the sheet at the buffer's start; the number of bytes, or
// why the list is turned away.
pub fn write(
    v: u32,
    c: u32,
    row: &[i32],
    limit: u32,
    leads: &mut [u32],
    work: &mut [u32],
    text: &mut [u8],
) -> Result<usize, Refusal>
    ensures { record { result = result; leads = leads.new; work = work.new; text = text.new }
        ≡ writing v c row.now limit leads.old work.old text.old }
{
    check_list(v, c, row, leads.len(), work.len())?;
    if text.len() < MIN_BUFFER {
        return Err(Refusal::BufferTooShort);
    }
    let summary = close(v, c, row, limit, leads, work)?;
    Ok(put_sheet(text, v, summary, &leads[..v as usize]))
}

// DIMACS text in.

ghost use Rattle.std.specs.Prelude.{◌≡◌, List, ◌≤◌, ℤ, length};
ghost use Rattle.clauses.specs.Limit.{max_entries};
ghost use Rattle.clauses.specs.Reading.{body, reading};
ghost use Rattle.clauses.specs.Scanning.{words_from, Keeps, read_body, read_numbers};
ghost use Rattle.clauses.specs.Tally.{tally_of};

use crate::body::scan_numbers;
use crate::checks::{check_entries, check_sizes};
use crate::header::{Header, find_header};
use crate::limits::{MAX_ENTRIES, MAX_TEXT};
use crate::refusal::Refusal;
use crate::tally::EntryTally;

// V, C and the number of entries of a list that was read.
#[derive(Clone, Copy, Debug, PartialEq, Eq)]
pub struct ListSize {
    pub nets: u32,
    pub clauses: u32,
    pub entries: usize,
}

// Tests 4 to 7 and 10 to 12, of numbers whose tally is t and which kept holds; and the numbers to the row. AIGER text is read so too.
pub fn read_numbers(
    kept: &[i32],
    v: u32,
    c: u32,
    t: EntryTally,
    row: &mut [i32],
) -> Result<ListSize, Refusal>
    requires { max_entries ≤ length kept.now }
    ensures { ((numbers : List ℤ) → Keeps kept.now numbers → t ≡ tally_of v numbers
        → record { result = result; row = row.new } ≡ read_numbers row.old (record { nets = v; clauses = c }) numbers) }
{
    let entries = t.entries;
    if row.len() < entries {
        return Err(Refusal::RowTooShort);
    }
    check_sizes(v, c, entries)?;
    check_entries(c, t)?;
    row[..entries].copy_from_slice(&kept[..entries]);
    Ok(ListSize {
        nets: v,
        clauses: c,
        entries,
    })
}

// Test 3, and the rest, of the body behind a header. The row is written only once all tests have passed, so the numbers are kept
// here until then.
fn read_body(text: &[u8], header: Header, row: &mut [i32]) -> Result<ListSize, Refusal>
    requires { header.body ≤ length text.now }
    ensures value { result ≡ (read_body row.old header.sizes (body (words_from text.now header.body))).result }
    ensures row_after { row.new ≡ (read_body row.old header.sizes (body (words_from text.now header.body))).row }
{
    let mut kept = [0i32; MAX_ENTRIES];
    let sizes = header.sizes;
    let tally = scan_numbers(text, header.body, sizes.nets, &mut kept)?;
    read_numbers(&kept, sizes.nets, sizes.clauses, tally, row)
}

// Reads a text into a row.
#[tactic(auto, using(crate::proofs::ReadingTests::readings))]
pub fn read(text: &[u8], row: &mut [i32]) -> Result<ListSize, Refusal>
    ensures value { result ≡ (reading text.now row.old).result }
    ensures row_after { row.new ≡ (reading text.now row.old).row }
{
    if MAX_TEXT < text.len() {
        return Err(Refusal::TextTooLong);
    }
    let header = find_header(text)?;
    read_body(text, header, row)
}

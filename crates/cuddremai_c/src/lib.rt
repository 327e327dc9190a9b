// The entry points for C and Rust. Each answers 0, or a refusal's number and through `place` its place; a refusal leaves all else that
// was lent as it was. A slice is a pointer and a length in C.

#![tactic(auto)]

ghost use Rattle.std.specs.Prelude.{◌≡◌};
ghost use Rattle.clauses.specs.Refusal.{number_of, place_of};
ghost use Rattle.clauses.specs.Reading.{reading};
ghost use Rattle.aiger.specs.Reading as Aiger;
ghost use Rattle.clauses.specs.Printing.{printing};
ghost use Rattle.closure.specs.Closing.{closing};
ghost use Rattle.sheet.specs.Writing.{writing};
ghost use Rattle.sheet.specs.Comparing.{comparing, comparing_aiger};
ghost use Rattle.cuddremai_c.specs.Calling.{verdict_number, read_call, print_call, close_call, sheet_call};

use clauses::printing::print;
use clauses::reading::{ListSize, read};
use clauses::refusal::Refusal;
use closure::close::close;
use rules::Verdict;
use sheet::compare::{compare, compare_aiger};
use sheet::write::write;

// The number that stands for a verdict.
fn verdict_number(verdict: Verdict) -> u32
    ensures { result ≡ verdict_number verdict }
{
    match verdict {
        Verdict::Contradiction => 1,
        Verdict::Settled => 2,
        Verdict::Unfinished => 3,
    }
}

// Hands over a refusal: its place, and its number.
fn hand_refusal(refusal: Refusal, place: &mut usize) -> u32
    ensures number { result ≡ number_of refusal }
    ensures place { place.new ≡ place_of refusal }
{
    *place = refusal.place();
    refusal.number()
}

// Hands over what reading answers: V, C and the number of entries.
fn hand_list(
    list: Result<ListSize, Refusal>,
    nets: &mut u32,
    clauses: &mut u32,
    entries: &mut usize,
    place: &mut usize,
) -> u32
    ensures { record { number = result; place = place.new; values = record { nets = nets.new; clauses = clauses.new; entries = entries.new } }
        ≡ read_call list (record { nets = nets.old; clauses = clauses.old; entries = entries.old }) }
{
    match list {
        Err(r) => hand_refusal(r, place),
        Ok(s) => {
            *nets = s.nets;
            *clauses = s.clauses;
            *entries = s.entries;
            *place = 0;
            0
        }
    }
}

// Hands over what printing and writing a sheet answer: the number of bytes.
fn hand_bytes(answer: Result<usize, Refusal>, written: &mut usize, place: &mut usize) -> u32
    ensures { record { number = result; place = place.new; values = written.new } ≡ print_call answer written.old }
{
    match answer {
        Err(r) => hand_refusal(r, place),
        Ok(n) => {
            *written = n;
            *place = 0;
            0
        }
    }
}

// Reads a DIMACS text into a literal row; V, C and the number of entries.
#[unsafe(no_mangle)]
pub extern "C" fn cuddremai_read(
    text: &[u8],
    row: &mut [i32],
    nets: &mut u32,
    clauses: &mut u32,
    entries: &mut usize,
    place: &mut usize,
) -> u32
    ensures answer { record { number = result; place = place.new; values = record { nets = nets.new; clauses = clauses.new; entries = entries.new } }
        ≡ read_call (reading text.now row.old).result (record { nets = nets.old; clauses = clauses.old; entries = entries.old }) }
    ensures row { row.new ≡ (reading text.now row.old).row }
{
    let list = read(text, row);
    hand_list(list, nets, clauses, entries, place)
}

// Reads an AIGER text and makes the clauses of its circuit into a literal row; V, C and the number of entries.
#[unsafe(no_mangle)]
pub extern "C" fn cuddremai_read_aiger(
    text: &[u8],
    row: &mut [i32],
    nets: &mut u32,
    clauses: &mut u32,
    entries: &mut usize,
    place: &mut usize,
) -> u32
    ensures answer { record { number = result; place = place.new; values = record { nets = nets.new; clauses = clauses.new; entries = entries.new } }
        ≡ read_call (Aiger.reading text.now row.old).result (record { nets = nets.old; clauses = clauses.old; entries = entries.old }) }
    ensures row { row.new ≡ (Aiger.reading text.now row.old).row }
{
    let list = aiger::reading::read(text, row);
    hand_list(list, nets, clauses, entries, place)
}

// Prints a clause list as DIMACS text; the number of bytes.
#[unsafe(no_mangle)]
pub extern "C" fn cuddremai_print(
    nets: u32,
    clauses: u32,
    row: &[i32],
    text: &mut [u8],
    written: &mut usize,
    place: &mut usize,
) -> u32
    ensures answer { record { number = result; place = place.new; values = written.new }
        ≡ print_call (printing nets clauses row.now text.old).result written.old }
    ensures text { text.new ≡ (printing nets clauses row.now text.old).buffer }
{
    let printed = print(nets, clauses, row, text);
    hand_bytes(printed, written, place)
}

// Closes a clause list under a round limit; verdict, rounds, ANDs, XORs, ITEs and groups.
#[unsafe(no_mangle)]
pub extern "C" fn cuddremai_close(
    nets: u32,
    clauses: u32,
    row: &[i32],
    limit: u32,
    leads: &mut [u32],
    work: &mut [u32],
    summary: &mut [u32; 6],
    place: &mut usize,
) -> u32
    ensures answer { record { number = result; place = place.new; values = summary.new }
        ≡ close_call (closing nets clauses row.now limit leads.old work.old).result summary.old }
    ensures leads { leads.new ≡ (closing nets clauses row.now limit leads.old work.old).leads }
    ensures work { work.new ≡ (closing nets clauses row.now limit leads.old work.old).work }
{
    match close(nets, clauses, row, limit, leads, work) {
        Err(r) => hand_refusal(r, place),
        Ok(s) => {
            *summary = [
                verdict_number(s.verdict),
                s.rounds,
                s.ands,
                s.xors,
                s.ites,
                s.groups,
            ];
            *place = 0;
            0
        }
    }
}

// Closes a clause list under a round limit and writes its sheet; the number of bytes.
#[unsafe(no_mangle)]
pub extern "C" fn cuddremai_sheet(
    nets: u32,
    clauses: u32,
    row: &[i32],
    limit: u32,
    leads: &mut [u32],
    work: &mut [u32],
    text: &mut [u8],
    written: &mut usize,
    place: &mut usize,
) -> u32
    ensures answer { record { number = result; place = place.new; values = written.new }
        ≡ sheet_call (writing nets clauses row.now limit leads.old work.old text.old).result written.old }
    ensures leads { leads.new ≡ (writing nets clauses row.now limit leads.old work.old text.old).leads }
    ensures work { work.new ≡ (writing nets clauses row.now limit leads.old work.old text.old).work }
    ensures text { text.new ≡ (writing nets clauses row.now limit leads.old work.old text.old).text }
{
    let sheet = write(nets, clauses, row, limit, leads, work, text);
    hand_bytes(sheet, written, place)
}

// From a DIMACS text to its sheet, under round limit V + 1; the number of bytes.
#[unsafe(no_mangle)]
pub extern "C" fn cuddremai_compare(
    input: &[u8],
    text: &mut [u8],
    written: &mut usize,
    place: &mut usize,
) -> u32
    ensures answer { record { number = result; place = place.new; values = written.new }
        ≡ sheet_call (comparing input.now text.old).result written.old }
    ensures text { text.new ≡ (comparing input.now text.old).text }
{
    let sheet = compare(input, text);
    hand_bytes(sheet, written, place)
}

// From an AIGER text to its sheet, under round limit V + 1; the number of bytes.
#[unsafe(no_mangle)]
pub extern "C" fn cuddremai_compare_aiger(
    input: &[u8],
    text: &mut [u8],
    written: &mut usize,
    place: &mut usize,
) -> u32
    ensures answer { record { number = result; place = place.new; values = written.new }
        ≡ sheet_call (comparing_aiger input.now text.old).result written.old }
    ensures text { text.new ≡ (comparing_aiger input.now text.old).text }
{
    let sheet = compare_aiger(input, text);
    hand_bytes(sheet, written, place)
}

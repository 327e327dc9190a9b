// DIMACS text out.

ghost use Rattle.std.specs.Prelude.{◌≡◌, ◌+◌, ◌<◌, ◌≤◌, length};
ghost use Rattle.clauses.specs.Limit.{max_entries};
ghost use Rattle.clauses.specs.Number.{signed_decimal};
ghost use Rattle.clauses.specs.Writing.{Wrote};
ghost use Rattle.clauses.specs.Printing.{header_text, entry_text, row_text, list_text, printing};

use crate::checks::{check_entries, check_sizes};
use crate::entry::{is_negative, magnitude};
use crate::header::Sizes;
use crate::limits::MAX_TEXT;
use crate::refusal::Refusal;
use crate::tally::tally_row;
use crate::walk::{Walk, next};
use crate::writing::{decimal_length, put, put_bytes, put_decimal, put_word};

// The length of an entry in decimal.
#[tactic(auto, using(crate::proofs::Texts::number_lengths))]
fn number_length(x: i32) -> usize
    ensures { result ≡ length (signed_decimal x) }
{
    decimal_length(magnitude(x) as u64) + is_negative(x) as usize
}

// The length of an entry's text.
#[tactic(auto, using(crate::proofs::Texts::entry_lengths))]
fn entry_length(x: i32) -> usize
    ensures { result ≡ length (entry_text x) }
{
    if x == 0 { 2 } else { number_length(x) + 1 }
}

// The length of a row's text.
#[tactic(auto, using(crate::proofs::Texts::row_lengths))]
fn row_length(row: &[i32]) -> usize
    requires { length row.now ≤ max_entries }
    ensures { result ≡ length (row_text row.now) }
{
    let mut total = 0;
    let mut walk = Walk { row, at: 0 };
    while walk.at < row.len() {
        total += entry_length(next(&mut walk));
    }
    total
}

// The length of the header's text: `p cnf `, V, a space, C and LF.
#[tactic(auto, using(crate::proofs::Texts::list_lengths))]
fn header_length(sizes: Sizes) -> usize
    ensures { result ≡ length (header_text sizes.nets sizes.clauses) }
{
    decimal_length(sizes.nets as u64) + decimal_length(sizes.clauses as u64) + 8
}

// The length of a list's text.
#[tactic(auto, using(crate::proofs::Texts::list_lengths))]
fn list_length(sizes: Sizes, row: &[i32]) -> usize
    requires { length row.now ≤ max_entries }
    ensures { result ≡ length (list_text sizes.nets sizes.clauses row.now) }
{
    header_length(sizes) + row_length(row)
}

// Prints an entry in decimal.
#[tactic(auto, using(crate::proofs::Texts::numbers))]
fn print_number(text: &mut [u8], at: usize, x: i32) -> usize
    requires { at + length (signed_decimal x) ≤ length text.old }
    ensures { Wrote text.old at (signed_decimal x) text.new result }
{
    let m = magnitude(x);
    if is_negative(x) {
        let digits = put(text, at, b'-');
        return put_decimal(text, digits, m as u64);
    }
    put_decimal(text, at, m as u64)
}

// Prints an entry.
#[tactic(auto, using(crate::proofs::Texts::entries))]
fn print_entry(text: &mut [u8], at: usize, x: i32) -> usize
    requires { at + length (entry_text x) ≤ length text.old }
    ensures { Wrote text.old at (entry_text x) text.new result }
{
    if x == 0 {
        return put_bytes(text, at, b"0\n");
    }
    let end = print_number(text, at, x);
    put(text, end, b' ')
}

// Prints a row.
fn print_row(text: &mut [u8], at: usize, row: &[i32]) -> usize
    requires { at + length (row_text row.now) ≤ length text.old }
    ensures { Wrote text.old at (row_text row.now) text.new result }
{
    let mut end = at;
    let mut walk = Walk { row, at: 0 };
    while walk.at < row.len() {
        end = print_entry(text, end, next(&mut walk));
    }
    end
}

// Prints the header at the start.
fn print_header(text: &mut [u8], sizes: Sizes) -> usize
    requires { length (header_text sizes.nets sizes.clauses) ≤ length text.old }
    ensures { Wrote text.old 0 (header_text sizes.nets sizes.clauses) text.new result }
{
    let nets = put_bytes(text, 0, b"p cnf ");
    let clauses = put_word(text, nets, sizes.nets as u64, b' ');
    put_word(text, clauses, sizes.clauses as u64, b'\n')
}

// Prints a list's text at the start.
fn print_list(text: &mut [u8], sizes: Sizes, row: &[i32]) -> usize
    requires { length (list_text sizes.nets sizes.clauses row.now) ≤ length text.old }
    ensures { Wrote text.old 0 (list_text sizes.nets sizes.clauses row.now) text.new result }
{
    let body = print_header(text, sizes);
    print_row(text, body, row)
}

// Prints a clause list: first the tests, then the text's length, then the text.
#[tactic(auto, using(crate::proofs::Prints::prints))]
pub fn print(v: u32, c: u32, row: &[i32], text: &mut [u8]) -> Result<usize, Refusal>
    ensures value { result ≡ (printing v c row.now text.old).result }
    ensures text_after { text.new ≡ (printing v c row.now text.old).buffer }
{
    check_sizes(v, c, row.len())?;
    check_entries(c, tally_row(v, row))?;
    let sizes = Sizes {
        nets: v,
        clauses: c,
    };
    let length = list_length(sizes, row);
    if text.len() < length || MAX_TEXT < length {
        return Err(Refusal::BufferTooShort);
    }
    Ok(print_list(text, sizes, row))
}

// Numbers in a text.

ghost use Rattle.std.specs.Prelude.{◌≡◌, true, ◌≤◌, length, drop};
ghost use Rattle.clauses.specs.Bytes.{is_digit, every};
ghost use Rattle.clauses.specs.Number.{value};
ghost use Rattle.clauses.specs.Scanning.{digits_at, unsigned_at, number_at};

use crate::text::{Cursor, digits_end, is_blank};

// A number that carries no minus, and the place behind it.
#[derive(Clone, Copy, Debug, PartialEq, Eq)]
pub struct Unsigned {
    pub value: u32,
    pub end: usize,
}

// A number's sign and magnitude, and the cursor behind it.
#[derive(Clone, Copy, Debug, PartialEq, Eq)]
pub struct Number {
    pub minus: bool,
    pub magnitude: u32,
    pub next: Cursor,
}

// The value of at most nine digits.
fn digits_value(digits: &[u8]) -> u32
    requires { (every is_digit digits.now ≡ true) × (length digits.now ≤ 9) }
    ensures { result ≡ value 0 digits.now }
{
    let mut n = 0;
    for digit in digits {
        n = 10 * n + u32::from(*digit - b'0');
    }
    n
}

// The longest run of digits at a place, as a number.
#[tactic(auto, using(crate::proofs::Words::digit_runs))]
pub fn read_digits(text: &[u8], at: usize) -> Option<Unsigned>
    ensures { result ≡ digits_at (drop at text.now) at }
{
    let end = digits_end(text, at);
    if end == at {
        return None;
    }
    let digits = &text[at..end];
    if digits.len() > 9 {
        return None;
    }
    if let [b'0', _, ..] = digits {
        return None;
    }
    Some(Unsigned {
        value: digits_value(digits),
        end,
    })
}

// The rest of a word, as a number that carries no minus.
#[tactic(auto, using(crate::proofs::Words::word_ends))]
fn read_unsigned(text: &[u8], at: usize) -> Option<Unsigned>
    ensures { result ≡ unsigned_at (drop at text.now) at }
{
    let number = read_digits(text, at)?;
    if number.end < text.len() && !is_blank(text[number.end]) {
        return None;
    }
    Some(number)
}

// The word at a cursor, as a number.
#[tactic(auto, using(crate::proofs::Words::number_forms))]
pub fn read_number(text: &[u8], cursor: Cursor) -> Option<Number>
    ensures { result ≡ number_at (drop cursor.at text.now) cursor.at }
{
    let at = cursor.at;
    if text.len() <= at {
        return None;
    }
    if text[at] != b'-' {
        let magnitude = read_unsigned(text, at)?;
        return Some(Number {
            minus: false,
            magnitude: magnitude.value,
            next: Cursor { at: magnitude.end },
        });
    }
    let magnitude = read_unsigned(text, at + 1)?;
    if magnitude.value == 0 {
        return None;
    }
    Some(Number {
        minus: true,
        magnitude: magnitude.value,
        next: Cursor { at: magnitude.end },
    })
}

// Bytes of a text, and their runs.

ghost use Rattle.std.specs.Prelude.{◌≡◌, not, ◌+◌, eqb, length, drop};
ghost use Rattle.clauses.specs.Bytes.{lf, is_blank, is_digit, front};

use crate::run::run_end;

// A place in a text.
#[derive(Clone, Copy, Debug, PartialEq, Eq)]
pub struct Cursor {
    pub at: usize,
}

#[tactic(auto, unfolding(crate::specs::Bytes::is_digit))]
fn is_digit(b: u8) -> bool
    ensures { result ≡ is_digit b }
{
    b.is_ascii_digit()
}

#[tactic(auto, unfolding(crate::specs::Bytes::is_blank))]
pub fn is_blank(b: u8) -> bool
    ensures { result ≡ is_blank b }
{
    b == b' ' || b == b'\t' || b == b'\r' || b == b'\n'
}

// The end of a run of digits.
pub fn digits_end(text: &[u8], at: usize) -> usize
    ensures { result ≡ at + length (front is_digit (drop at text.now)) }
{
    run_end(text, at, is_digit)
}

// The end of a run of blanks.
pub fn blanks_end(text: &[u8], at: usize) -> usize
    ensures { result ≡ at + length (front is_blank (drop at text.now)) }
{
    run_end(text, at, is_blank)
}

// The end of a line, from a place in it on.
pub fn line_end(text: &[u8], at: usize) -> usize
    ensures { result ≡ at + length (front (λ b. not (eqb b lf)) (drop at text.now)) }
{
    run_end(text, at, |b| b != b'\n')
}

// The body of a text: the words of the lines that are not comments.

ghost use Rattle.std.specs.Prelude.{◌≡◌, ◌≤◌, length};
ghost use Rattle.std.proofs.lemmas.List.Edits.{sets};
ghost use Rattle.clauses.specs.Scanning.{starts_line, NextWord, scanned_from, numbers_from};

use crate::entry::put_entry;
use crate::number::read_number;
use crate::refusal::Refusal;
use crate::tally::EntryTally;
use crate::text::{Cursor, blanks_end, line_end};

// Whether a line starts at a place.
#[tactic(auto, using(crate::proofs::Bodies::line_starts))]
fn starts_line(text: &[u8], at: usize) -> bool
    requires { at ≤ length text.now }
    ensures { result ≡ starts_line text.now at }
{
    at == 0 || text[at - 1] == b'\n'
}

// The place of the next word from a place on, or the text's end.
#[tactic(auto, using(crate::proofs::Bodies::next_words))]
fn next_word(text: &[u8], at: usize) -> usize
    requires { at ≤ length text.now }
    ensures { NextWord text.now at result }
{
    let mut i = blanks_end(text, at);
    while i < text.len() && text[i] == b'c' && starts_line(text, i) {
        i = blanks_end(text, line_end(text, i));
    }
    i
}

// The tally of the numbers from a place on, for nets up to v; and the numbers to the start of kept, as far as it has room. A word
// that is not a number ends the reading at its first byte.
#[tactic(auto, using(crate::proofs::Scans::scans), unfolding(crate::specs::Scanning::scanned_from))]
pub fn scan_numbers(
    text: &[u8],
    from: usize,
    v: u32,
    kept: &mut [i32],
) -> Result<EntryTally, Refusal>
    requires { from ≤ length text.now }
    ensures value { result ≡ scanned_from text.now from v }
    ensures kept_after { kept.new ≡ sets kept.old 0 (numbers_from text.now from) }
{
    let mut t = EntryTally::start();
    let mut at = next_word(text, from);
    while at < text.len() {
        let Some(number) = read_number(text, Cursor { at }) else {
            return Err(Refusal::Word(at));
        };
        put_entry(kept, t.entries, number.minus, number.magnitude);
        t = t.add(v, number.magnitude);
        at = next_word(text, number.next.at);
    }
    Ok(t)
}

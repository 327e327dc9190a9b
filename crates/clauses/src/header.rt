// The header of a text.

ghost use Rattle.std.specs.Prelude.{◌≡◌, ◌≤◌, ◌<◌, length, drop};
ghost use Rattle.clauses.specs.Bytes.{is_gap};
ghost use Rattle.clauses.specs.Reading.{is_passed, after, after_gap, after_format, sizes, header_line};
ghost use Rattle.clauses.specs.Scanning.{Reaches, HeaderFound};

use crate::number::read_digits;
use crate::refusal::Refusal;
use crate::run::run_end;
use crate::text::{blanks_end, is_blank, line_end};

// V and C.
#[derive(Clone, Copy, Debug, PartialEq, Eq)]
pub struct Sizes {
    pub nets: u32,
    pub clauses: u32,
}

// V and C, and the place where the body starts.
#[derive(Clone, Copy, Debug, PartialEq, Eq)]
pub struct Header {
    pub sizes: Sizes,
    pub body: usize,
}

// The place behind a word, if the line goes on with it.
#[tactic(auto, using(crate::proofs::Headers::word_there, crate::proofs::Headers::word_missing))]
pub fn word_end(line: &[u8], at: usize, word: &[u8]) -> Option<usize>
    requires { at ≤ length line.now }
    ensures { Reaches line.now (after word.now (drop at line.now)) result }
{
    if line[at..].starts_with(word) {
        Some(at + word.len())
    } else {
        None
    }
}

#[tactic(auto, unfolding(crate::specs::Bytes::is_gap))]
fn is_gap(b: u8) -> bool
    ensures { result ≡ is_gap b }
{
    matches!(b, b' ' | b'\t')
}

// The place behind one or more spaces or tabs, if the line goes on with them.
fn gap_end(line: &[u8], at: usize) -> Option<usize>
    ensures { Reaches line.now (after_gap (drop at line.now)) result }
{
    let end = run_end(line, at, is_gap);
    if end == at { None } else { Some(end) }
}

// The place of V in a line that has the form of a header up to there.
#[tactic(auto, unfolding(crate::specs::Reading::after_format))]
fn format_end(line: &[u8]) -> Option<usize>
    ensures { Reaches line.now (after_format line.now) result }
{
    let gap = word_end(line, 0, b"p")?;
    let format = gap_end(line, gap)?;
    let gap = word_end(line, format, b"cnf")?;
    gap_end(line, gap)
}

// V and C, where the line has the form of a header from V on.
#[tactic(auto, using(crate::proofs::Headers::size_parts), unfolding(crate::specs::Reading::sizes))]
fn read_sizes(line: &[u8], at: usize) -> Option<Sizes>
    ensures { result ≡ sizes (drop at line.now) }
{
    let nets = read_digits(line, at)?;
    let gap = gap_end(line, nets.end)?;
    let clauses = read_digits(line, gap)?;
    if blanks_end(line, clauses.end) != line.len() {
        return None;
    }
    Some(Sizes {
        nets: nets.value,
        clauses: clauses.value,
    })
}

// V and C of a line that has the form of a header.
#[tactic(auto, unfolding(crate::specs::Reading::header_line))]
fn read_header(line: &[u8]) -> Option<Sizes>
    ensures { result ≡ header_line line.now }
{
    let nets = format_end(line)?;
    read_sizes(line, nets)
}

// Whether a line is a comment or all blanks.
fn is_passed(line: &[u8]) -> bool
    ensures { result ≡ is_passed line.now }
{
    line.starts_with(b"c") || line.iter().all(|b| is_blank(*b))
}

// The header of a text: the first line that is not passed over. Where it has not the form of a header, or there is none, the text is refused.
#[tactic(auto, using(crate::proofs::Bodies::header_lines))]
pub fn find_header(text: &[u8]) -> Result<Header, Refusal>
    requires { length text.now < 18446744073709551615 }
    ensures { HeaderFound text.now result }
{
    let mut at = 0;
    while at < text.len() {
        let end = line_end(text, at);
        let line = &text[at..end];
        if !is_passed(line) {
            let Some(sizes) = read_header(line) else {
                return Err(Refusal::Header(at));
            };
            return Ok(Header { sizes, body: end });
        }
        at = end + 1;
    }
    Err(Refusal::Header(text.len()))
}

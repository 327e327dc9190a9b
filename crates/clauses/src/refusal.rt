// What is turned away: the refusals of documents 01 and 02, each with its number and place.

ghost use Rattle.std.specs.Prelude.{◌≡◌, ◌++◌, length, drop};
ghost use Rattle.clauses.specs.Refusal.{number_of, place_of, refusal_text};

use crate::writing::{put_bytes, put_word};

// Bytes of the longest refusal text: the names, a number of two digits and a place of twenty.
pub const MAX_REFUSAL: usize = 38;

#[derive(Clone, Copy, Debug, PartialEq, Eq)]
pub enum Refusal {
    TextTooLong,
    Header(usize),
    Word(usize),
    RowTooShort,
    TooManyNets,
    TooManyClauses,
    TooManyEntries,
    LeadsTooShort,
    WorkTooShort,
    EntryTooLarge(usize),
    NotEnded,
    ClauseCount,
    BufferTooShort,
    TooManyRounds,
    AigerHeader,
    LatchesOrOutputs(usize),
    AigerLine(usize),
    AndOutput(usize),
}

impl Refusal {
    pub fn number(self) -> u32
        ensures { result ≡ number_of self }
    {
        match self {
            Refusal::TextTooLong => 1,
            Refusal::Header(_) => 2,
            Refusal::Word(_) => 3,
            Refusal::RowTooShort => 4,
            Refusal::TooManyNets => 5,
            Refusal::TooManyClauses => 6,
            Refusal::TooManyEntries => 7,
            Refusal::LeadsTooShort => 8,
            Refusal::WorkTooShort => 9,
            Refusal::EntryTooLarge(_) => 10,
            Refusal::NotEnded => 11,
            Refusal::ClauseCount => 12,
            Refusal::BufferTooShort => 13,
            Refusal::TooManyRounds => 14,
            Refusal::AigerHeader => 15,
            Refusal::LatchesOrOutputs(_) => 16,
            Refusal::AigerLine(_) => 17,
            Refusal::AndOutput(_) => 18,
        }
    }

    // The place of what is turned away, 0 where the refusal has none.
    pub fn place(self) -> usize
        ensures { result ≡ place_of self }
    {
        match self {
            Refusal::Header(p)
            | Refusal::Word(p)
            | Refusal::EntryTooLarge(p)
            | Refusal::LatchesOrOutputs(p)
            | Refusal::AigerLine(p)
            | Refusal::AndOutput(p) => p,
            _ => 0,
        }
    }
}

// The number of a refusal.
pub fn number(r: Refusal) -> u32
    ensures { result ≡ number_of r }
{
    Refusal::number(r)
}

// The place of a refusal.
pub fn place(r: Refusal) -> usize
    ensures { result ≡ place_of r }
{
    Refusal::place(r)
}

// Puts a refusal's text, as a program prints it, at the start of a buffer that holds any such text; how many bytes it has.
#[tactic(auto, using(crate::proofs::RefusalTexts::number_length, crate::proofs::RefusalTexts::place_length))]
pub fn put_refusal(r: Refusal, text: &mut [u8; MAX_REFUSAL]) -> usize
    ensures value { result ≡ length (refusal_text r) }
    ensures text_after { text.new ≡ refusal_text r ++ drop (length (refusal_text r)) text.old }
{
    let at = put_bytes(text, 0, b"refusal,place\n");
    let next = put_word(text, at, r.number() as u64, b',');
    put_word(text, next, r.place() as u64, b'\n')
}

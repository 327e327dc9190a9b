// The numbers of a line.

ghost use Rattle.std.specs.Prelude.{◌≡◌, ◌<◌};
ghost use Rattle.aiger.specs.Line.{field_at, literal_at};

use clauses::number::read_digits;

// A number of a line, and the place behind the byte that ends it.
#[derive(Clone, Copy)]
pub struct Field {
    pub value: u32,
    pub next: usize,
}

// The number at a place, if the given byte follows it.
#[tactic(auto, unfolding(crate::specs::Line::field_at, clauses::specs::Scanning::as_unsigned))]
pub fn read_field(text: &[u8], at: usize, end: u8) -> Option<Field>
    requires { 0 < end }
    ensures { result ≡ field_at end text.now at }
{
    let number = read_digits(text, at)?;
    if number.end < text.len() && text[number.end] == end {
        Some(Field {
            value: number.value,
            next: number.end + 1,
        })
    } else {
        None
    }
}

// .. if it is a literal of a circuit with so many nets, too.
#[tactic(auto, unfolding(crate::specs::Line::literal_at))]
pub fn read_literal(text: &[u8], at: usize, end: u8, nets: u32) -> Option<Field>
    requires { 0 < end }
    ensures { result ≡ literal_at nets end text.now at }
{
    let literal = read_field(text, at, end)?;
    if 2 * (nets as u64) + 1 < literal.value as u64 {
        return None;
    }
    Some(literal)
}

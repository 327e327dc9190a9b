// The header of an AIGER text.

ghost use Rattle.std.specs.Prelude.{◌≡◌, not, Some};
ghost use Rattle.aiger.specs.Line.{header_of};
ghost use Rattle.aiger.specs.Reading.{is_header_bad};

use crate::line::read_field;
use clauses::header::word_end;

// M, I, L, O and A; the places of L and O, and that of the second line.
#[derive(Clone, Copy)]
pub struct Header {
    pub nets: u32,
    pub inputs: u32,
    pub latches: u32,
    pub outputs: u32,
    pub ands: u32,
    pub latches_at: usize,
    pub outputs_at: usize,
    pub lines: usize,
}

// The header, if the text's first line is one.
#[tactic(auto, using(crate::proofs::Fields::header_start), unfolding(crate::specs::Line::header_of))]
pub fn read_header(text: &[u8]) -> Option<Header>
    ensures { result ≡ header_of text.now }
{
    let start = word_end(text, 0, b"aag ")?;
    let nets = read_field(text, start, b' ')?;
    let inputs = read_field(text, nets.next, b' ')?;
    let latches = read_field(text, inputs.next, b' ')?;
    let outputs = read_field(text, latches.next, b' ')?;
    let ands = read_field(text, outputs.next, b'\n')?;
    Some(Header {
        nets: nets.value,
        inputs: inputs.value,
        latches: latches.value,
        outputs: outputs.value,
        ands: ands.value,
        latches_at: inputs.next,
        outputs_at: latches.next,
        lines: ands.next,
    })
}

impl Header {
    // Whether there are nets for all inputs, latches and ANDs.
    pub fn has_nets(self) -> bool
        ensures { result ≡ not (is_header_bad (Some self)) }
    {
        self.inputs as u64 + self.latches as u64 + self.ands as u64 <= self.nets as u64
    }
}

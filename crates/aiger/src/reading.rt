// AIGER text in.

ghost use Rattle.std.specs.Prelude.{◌≡◌, ◌*◌, ◌≤◌, ◌<◌, length};
ghost use Rattle.clauses.specs.Limit.{max_text};
ghost use Rattle.aiger.specs.Line.{circuit_from, circuit_lines, and_lines};
ghost use Rattle.aiger.specs.Reading.{reading};
ghost use Rattle.aiger.specs.Scanning.{read_lines};

use crate::ands::scan_ands;
use crate::clause::MadeEntries;
use crate::header::{Header, read_header};
use crate::inputs::read_inputs;
use crate::line::{Field, read_literal};
use crate::tree::LiteralTree;
use clauses::limits::MAX_TEXT;
use clauses::reading::{ListSize, read_numbers};
use clauses::refusal::Refusal;

// Entries that any text makes: at most ten for an AND line, which has six bytes or more, and two for the output.
pub const MAX_CIRCUIT_ENTRIES: usize = 10 * (MAX_TEXT / 6) + 2;

// Reads the AND lines behind the line of the output; the literals of the input lines are in the tree. Then the tests of the entries made,
// and the entries to the row. The row is written only once all tests have passed.
fn read_ands(
    text: &[u8],
    header: Header,
    output: Field,
    tree: &mut LiteralTree,
    row: &mut [i32],
) -> Result<ListSize, Refusal>
    requires output_bound { output.value < 1000000000 }
    requires inputs_bound { (2 * length tree.old ≤ output.next) × (output.next ≤ length text.now) × (length text.now ≤ max_text) }
    ensures { record { result = result; row = row.new }
        ≡ read_lines row.old (circuit_from header.nets tree.old output.value (and_lines header.nets text.now header.ands output.next)) }
{
    let mut entries = MadeEntries::new(header.nets);
    scan_ands(text, output.next, header, tree, &mut entries)?;
    entries.put_clause(&[output.value]);
    let tally = entries.tally;
    read_numbers(&entries.row, header.nets, tally.zeros as u32, tally, row)
}

// Reads the lines behind the header. A line that is read has at least two bytes, so the tree has room for the nets of all. It is not inlined
// into `read`, which would have its rows on the stack for a header that is turned away too.
#[inline(never)]
fn read_lines(text: &[u8], header: Header, row: &mut [i32]) -> Result<ListSize, Refusal>
    requires { (header.lines ≤ length text.now) × (length text.now ≤ max_text) }
    ensures { record { result = result; row = row.new } ≡ read_lines row.old (circuit_lines header text.now) }
{
    let mut tree = LiteralTree::new();
    let at = read_inputs(text, header, &mut tree)?;
    let Some(output) = read_literal(text, at, b'\n', header.nets) else {
        return Err(Refusal::AigerLine(at));
    };
    read_ands(text, header, output, &mut tree, row)
}

// Reads an AIGER text, and makes the clauses of its circuit, into a row.
pub fn read(text: &[u8], row: &mut [i32]) -> Result<ListSize, Refusal>
    ensures value { result ≡ (reading text.now row.old).result }
    ensures row_after { row.new ≡ (reading text.now row.old).row }
{
    if MAX_TEXT < text.len() {
        return Err(Refusal::TextTooLong);
    }
    let Some(header) = read_header(text) else {
        return Err(Refusal::AigerHeader);
    };
    if !header.has_nets() {
        return Err(Refusal::AigerHeader);
    }
    if header.latches != 0 {
        return Err(Refusal::LatchesOrOutputs(header.latches_at));
    }
    if header.outputs != 1 {
        return Err(Refusal::LatchesOrOutputs(header.outputs_at));
    }
    read_lines(text, header, row)
}

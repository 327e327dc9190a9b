// Printing a sheet to standard output, or any other writer.

#![tactic(auto)]

ghost use Rattle.std.specs.Prelude.{◌≤◌, length, IfOk, OnOk};
ghost use Rattle.std.specs.Io.KnownBytes.{Appends};
ghost use Rattle.console.specs.Printed.{answer_text, printed, printed_aiger};

use clauses::refusal::Refusal;
use sheet::compare::{compare, compare_aiger};
use sheet::write::MIN_BUFFER;
use std::io;
use std::io::Write;
use support::shown::print_refusal;

// Prints the bytes that were written to a buffer, or why a text is turned away.
fn print_written<W: Write>(
    out: &mut W,
    written: Result<usize, Refusal>,
    text: &[u8],
) -> io::Result<()>
    requires { IfOk written (λ n. n ≤ length text.now) }
    ensures { OnOk result (Appends (W.contents out.old) (W.contents out.new) (answer_text written text.now)) }
{
    match written {
        Err(r) => print_refusal(out, r),
        Ok(n) => out.write_all(&text[..n]),
    }
}

// Prints the sheet of a DIMACS text, by way of a buffer that holds any sheet, or why it is turned away.
pub fn print_sheet<W: Write>(out: &mut W, input: &[u8]) -> io::Result<()>
    ensures { OnOk result (Appends (W.contents out.old) (W.contents out.new) (printed input.now)) }
{
    let mut text = [0; MIN_BUFFER];
    let written = compare(input, &mut text);
    print_written(out, written, &text)
}

// Prints the sheet of an AIGER text, or why it is turned away.
pub fn print_aiger_sheet<W: Write>(out: &mut W, input: &[u8]) -> io::Result<()>
    ensures { OnOk result (Appends (W.contents out.old) (W.contents out.new) (printed_aiger input.now)) }
{
    let mut text = [0; MIN_BUFFER];
    let written = compare_aiger(input, &mut text);
    print_written(out, written, &text)
}

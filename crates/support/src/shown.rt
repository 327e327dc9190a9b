// Printing to standard output, or any other writer.

ghost use Rattle.std.specs.Prelude.{OnOk};
ghost use Rattle.std.specs.Io.KnownBytes.{Appends};
ghost use Rattle.clauses.specs.Refusal.{refusal_text};

use clauses::refusal::{MAX_REFUSAL, Refusal, put_refusal};
use std::io;
use std::io::Write;

// Prints a refusal as a program does: its number and its place.
pub fn print_refusal<W: Write>(out: &mut W, r: Refusal) -> io::Result<()>
    ensures { OnOk result (Appends (W.contents out.old) (W.contents out.new) (refusal_text r)) }
{
    let mut text = [0u8; MAX_REFUSAL];
    let n = put_refusal(r, &mut text);
    out.write_all(&text[..n])
}

// Reads a circuit as AIGER text from standard input and prints its sheet, or why it is turned away.

#![tactic(auto)]

ghost use Rattle.std.specs.Prelude.{OnOk, IfSome, take};
ghost use Rattle.std.specs.Io.KnownBytes.{Appends};
ghost use Rattle.console.specs.Printed.{printed_aiger};

use clauses::limits::MAX_TEXT;
use console::print_aiger_sheet;
use std::io;
use std::io::{Read, Write};
use support::input::read_full;

// One byte more than a text may have is held, so that a longer one is turned away and not cut short.
fn run<R: Read, W: Write>(from: &mut R, out: &mut W) -> io::Result<()>
    ensures { OnOk result (IfSome (R.remaining from.old) (λ xs. Appends (W.contents out.old) (W.contents out.new) (printed_aiger (take 65537 xs)))) }
{
    let mut input = [0; MAX_TEXT + 1];
    let n = read_full(from, &mut input)?;
    print_aiger_sheet(out, &input[..n])
}

fn main(rt: HostRuntime) -> io::Result<()> {
    run(&mut rt.stdin(), &mut rt.stdout())
}

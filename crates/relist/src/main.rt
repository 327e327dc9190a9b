// Reads a clause list as DIMACS text from standard input and prints it back, or says why it is turned away.

#![tactic(auto)]

ghost use Rattle.std.specs.Prelude.{OnOk, IfSome, take};
ghost use Rattle.std.specs.Io.KnownBytes.{Appends};
ghost use Rattle.relist.specs.Relisting.{list_printed, relisted};

use clauses::limits::{MAX_NUMBERS, MAX_TEXT};
use clauses::printing::print;
use clauses::reading::read;
use std::io;
use std::io::{Read, Write};
use support::input::read_full;
use support::shown::print_refusal;

// Prints a list back, by way of a buffer that holds any text that printing accepts.
fn print_list<W: Write>(out: &mut W, v: u32, c: u32, row: &[i32]) -> io::Result<()>
    ensures { OnOk result (Appends (W.contents out.old) (W.contents out.new) (list_printed v c row.now)) }
{
    let mut text = [0; MAX_TEXT];
    match print(v, c, row, &mut text) {
        Err(r) => print_refusal(out, r),
        Ok(n) => out.write_all(&text[..n]),
    }
}

// Reads a text, by way of a row that has room for the numbers of any text that is not too long.
fn relist<W: Write>(out: &mut W, text: &[u8]) -> io::Result<()>
    ensures { OnOk result (Appends (W.contents out.old) (W.contents out.new) (relisted text.now)) }
{
    let mut row = [0; MAX_NUMBERS];
    match read(text, &mut row) {
        Err(r) => print_refusal(out, r),
        Ok(s) => print_list(out, s.nets, s.clauses, &row[..s.entries]),
    }
}

// One byte more than a text may have is held, so that a longer one is turned away and not cut short.
fn run<R: Read, W: Write>(from: &mut R, out: &mut W) -> io::Result<()>
    ensures { OnOk result (IfSome (R.remaining from.old) (λ xs. Appends (W.contents out.old) (W.contents out.new) (relisted (take 65537 xs)))) }
{
    let mut text = [0; MAX_TEXT + 1];
    let n = read_full(from, &mut text)?;
    relist(out, &text[..n])
}

fn main(rt: HostRuntime) -> io::Result<()> {
    run(&mut rt.stdin(), &mut rt.stdout())
}

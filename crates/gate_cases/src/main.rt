// Runs the finder on document 01's lists that concern gates, one line each: the list's name, and how many ANDs, XORs and ITEs
// there are.

#![tactic(auto)]

ghost use Rattle.std.specs.Prelude.{◌≡◌, map, ◌-◌, ◌≤◌, length, get_or};
ghost use Rattle.clauses.specs.Limit.{max_entries};
ghost use Rattle.clauses.specs.Code.{code_of};
ghost use Rattle.clauses.specs.Row.{SmallEntries};

use clauses::limits::{MAX_ENTRIES, MAX_NETS};
use clauses::reading::read;
use clauses::tally::tally_row;
use gates::finder::find_gates;
use std::io;
use std::io::Write;

// The three counts of a row.
fn show_counts<W: Write>(out: &mut W, row: &[i32]) -> io::Result<()>
    requires row_len_bound { length row.now ≤ max_entries }
    requires small_entries { SmallEntries row.now }
    requires row_value { get_or (map code_of row.now) (length row.now - 1) 0 ≡ 0 }
{
    let mut codes = [0u32; MAX_ENTRIES];
    let mut marks = [0u8; MAX_ENTRIES];
    let found = find_gates(row, &mut codes, &mut marks);
    let counts = found.counts;
    writeln!(out, "{},{},{}", counts.ands, counts.xors, counts.ites)
}

// .. of a row that the finder takes.
fn show_row<W: Write>(out: &mut W, row: &[i32]) -> io::Result<()> {
    if MAX_ENTRIES < row.len() {
        return Ok(());
    }
    let t = tally_row(MAX_NETS, row);
    if t.within < row.len() {
        return Ok(());
    }
    if t.ended {
        show_counts(out, row)?;
    }
    Ok(())
}

// .. of a text.
fn counts<W: Write>(out: &mut W, name: &str, text: &[u8]) -> io::Result<()> {
    let mut row = [0i32; MAX_ENTRIES];
    write!(out, "{name}: ")?;
    match read(text, &mut row) {
        Err(_) => writeln!(out, "refused"),
        Ok(s) => match row.get(..s.entries) {
            Some(entries) => show_row(out, entries),
            None => Ok(()),
        },
    }
}

// XORs.
fn xor_cases<W: Write>(out: &mut W) -> io::Result<()> {
    counts(
        out,
        "XOR over five nets",
        b"p cnf 5 16\n1 2 3 4 5 0 1 2 3 -4 -5 0 1 2 -3 4 -5 0 1 2 -3 -4 5 0 1 -2 3 4 -5 0 1 -2 3 -4 5 0 1 -2 -3 4 5 0 1 -2 -3 -4 -5 0 -1 2 3 4 -5 0 -1 2 3 -4 5 0 -1 2 -3 4 5 0 -1 2 -3 -4 -5 0 -1 -2 3 4 5 0 -1 -2 3 -4 -5 0 -1 -2 -3 4 -5 0 -1 -2 -3 -4 5 0\n",
    )?;
    counts(
        out,
        "XOR over six nets",
        b"p cnf 6 32\n1 2 3 4 5 6 0 1 2 3 4 -5 -6 0 1 2 3 -4 5 -6 0 1 2 3 -4 -5 6 0 1 2 -3 4 5 -6 0 1 2 -3 4 -5 6 0 1 2 -3 -4 5 6 0 1 2 -3 -4 -5 -6 0 1 -2 3 4 5 -6 0 1 -2 3 4 -5 6 0 1 -2 3 -4 5 6 0 1 -2 3 -4 -5 -6 0 1 -2 -3 4 5 6 0 1 -2 -3 4 -5 -6 0 1 -2 -3 -4 5 -6 0 1 -2 -3 -4 -5 6 0 -1 2 3 4 5 -6 0 -1 2 3 4 -5 6 0 -1 2 3 -4 5 6 0 -1 2 3 -4 -5 -6 0 -1 2 -3 4 5 6 0 -1 2 -3 4 -5 -6 0 -1 2 -3 -4 5 -6 0 -1 2 -3 -4 -5 6 0 -1 -2 3 4 5 6 0 -1 -2 3 4 -5 -6 0 -1 -2 3 -4 5 -6 0 -1 -2 3 -4 -5 6 0 -1 -2 -3 4 5 -6 0 -1 -2 -3 4 -5 6 0 -1 -2 -3 -4 5 6 0 -1 -2 -3 -4 -5 -6 0\n",
    )?;
    counts(
        out,
        "both sums over three nets",
        b"p cnf 3 8\n1 2 3 0 1 -2 -3 0 -1 2 -3 0 -1 -2 3 0 1 2 -3 0 1 -2 3 0 -1 2 3 0 -1 -2 -3 0\n",
    )?;
    counts(
        out,
        "XOR with one sign pattern missing",
        b"p cnf 4 7\n1 2 3 4 0 1 2 -3 -4 0 1 -2 3 -4 0 1 -2 -3 4 0 -1 2 3 -4 0 -1 2 -3 4 0 -1 -2 -3 -4 0\n",
    )
}

// ANDs.
fn and_cases<W: Write>(out: &mut W) -> io::Result<()> {
    counts(
        out,
        "AND with one input doubled",
        b"p cnf 3 3\n3 -1 -2 0 -3 1 0 -3 1 0\n",
    )?;
    counts(
        out,
        "AND with the other input doubled",
        b"p cnf 3 3\n3 -1 -2 0 -3 2 0 -3 2 0\n",
    )?;
    counts(
        out,
        "one clause that gives three ANDs",
        b"p cnf 3 5\n-3 1 0 -3 2 0 3 -1 -2 0 1 2 0 -1 -2 0\n",
    )?;
    counts(
        out,
        "AND whose clause is repeated",
        b"p cnf 3 4\n-3 1 0 -3 2 0 3 -1 -2 0 -2 3 -1 3 0\n",
    )?;
    counts(
        out,
        "ignored clauses",
        b"p cnf 2 3\n1 -1 2 0 -1 1 0 -1 -2 0\n",
    )
}

// More than one kind, and multiplexers.
fn other_cases<W: Write>(out: &mut W) -> io::Result<()> {
    counts(
        out,
        "two ANDs",
        b"p cnf 4 6\n-3 1 0 -3 2 0 3 -1 -2 0 -4 1 0 -4 2 0 4 -1 -2 0\n",
    )?;
    counts(
        out,
        "two ANDs and an XOR",
        b"p cnf 5 11\n-3 1 0 -3 2 0 3 -1 -2 0 -4 1 0 -4 2 0 4 -1 -2 0 -5 3 4 0 -5 -3 -4 0 5 -3 4 0 5 3 -4 0 5 0\n",
    )?;
    counts(
        out,
        "two multiplexers",
        b"p cnf 5 8\n-1 -4 2 0 -1 4 -2 0 1 -4 3 0 1 4 -3 0 -1 -5 -2 0 -1 5 2 0 1 -5 -3 0 1 5 3 0\n",
    )?;
    counts(
        out,
        "a multiplexer with both data pins on one net",
        b"p cnf 3 4\n-1 -3 2 0 -1 3 -2 0 1 -3 2 0 1 3 -2 0\n",
    )
}

fn main(rt: HostRuntime) -> io::Result<()> {
    let mut out = rt.stdout();
    xor_cases(&mut out)?;
    and_cases(&mut out)?;
    other_cases(&mut out)
}

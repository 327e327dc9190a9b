// Prints the sheets of document 01's lists to try, and a refusal of each number that a text can bring, each below its name.

#![tactic(auto)]

use console::print_sheet;
use std::io;
use std::io::Write;
use support::made::make_text;

// Prints a name and the sheet of a text.
fn sheet_of<W: Write>(out: &mut W, name: &str, text: &[u8]) -> io::Result<()> {
    writeln!(out, "{name}")?;
    print_sheet(out, text)
}

// The same, of a text of a header, a word a number of times, and a last word.
fn sheet_of_long<W: Write>(
    out: &mut W,
    name: &str,
    header: &[u8],
    word: &[u8],
    times: usize,
    last: &[u8],
) -> io::Result<()> {
    let mut room = [0; 65600];
    sheet_of(out, name, make_text(&mut room, header, word, times, last))
}

// The starred lists without gates.
fn starred_clauses<W: Write>(out: &mut W) -> io::Result<()> {
    sheet_of(out, "no clause", b"p cnf 0 0\n")?;
    sheet_of(out, "one empty clause", b"p cnf 0 1\n0\n")?;
    sheet_of(out, "(1)(-1)", b"p cnf 1 2\n1 0 -1 0\n")?;
    sheet_of(out, "(1 1)", b"p cnf 1 1\n1 1 0\n")?;
    sheet_of(out, "(1 -1)", b"p cnf 1 1\n1 -1 0\n")?;
    sheet_of(out, "(1 2)(-1 -2)", b"p cnf 2 2\n1 2 0 -1 -2 0\n")?;
    sheet_of(out, "(1)(-1 2)(-2 3)", b"p cnf 3 3\n1 0 -1 2 0 -2 3 0\n")?;
    sheet_of(
        out,
        "(3 -1 -2)(-3 1)(-3 1)",
        b"p cnf 3 3\n3 -1 -2 0 -3 1 0 -3 1 0\n",
    )
}

// The starred lists with gates.
fn starred_gates<W: Write>(out: &mut W) -> io::Result<()> {
    sheet_of(
        out,
        "(-3 1)(-3 2)(3 -1 -2)(1 2)(-1 -2)",
        b"p cnf 3 5\n-3 1 0 -3 2 0 3 -1 -2 0 1 2 0 -1 -2 0\n",
    )?;
    sheet_of(
        out,
        "two ANDs that differ",
        b"p cnf 5 11\n-3 1 0 -3 2 0 3 -1 -2 0 -4 1 0 -4 2 0 4 -1 -2 0 -5 3 4 0 -5 -3 -4 0 5 -3 4 0 5 3 -4 0 5 0\n",
    )?;
    sheet_of(
        out,
        "4 = 1 ? 2 : 3 and 5 = 1 ? -2 : -3",
        b"p cnf 5 8\n-1 -4 2 0 -1 4 -2 0 1 -4 3 0 1 4 -3 0 -1 -5 -2 0 -1 5 2 0 1 -5 -3 0 1 5 3 0\n",
    )?;
    sheet_of(
        out,
        "(-1 -3 2)(-1 3 -2)(1 -3 2)(1 3 -2)",
        b"p cnf 3 4\n-1 -3 2 0 -1 3 -2 0 1 -3 2 0 1 3 -2 0\n",
    )
}

// A refusal of each number that a text can bring, and the largest sizes.
fn refusals<W: Write>(out: &mut W) -> io::Result<()> {
    sheet_of(out, "empty input", b"")?;
    sheet_of_long(out, "65,536 bytes", b"p cnf 0 0\n", b" ", 65526, b"")?;
    sheet_of_long(out, "65,537 bytes", b"p cnf 0 0\n", b" ", 65527, b"")?;
    sheet_of(out, "no header", b"c only this\n1 0\n")?;
    sheet_of(out, "a word that is no number", b"p cnf 1 1\n-0 0")?;
    sheet_of(out, "V 1,025", b"p cnf 1025 0\n")?;
    sheet_of(out, "C 4,097", b"p cnf 1 4097\n")?;
    sheet_of_long(out, "16,385 entries", b"p cnf 1 1\n", b"1 ", 16384, b"0")?;
    sheet_of(
        out,
        "an entry too large, and a wrong C",
        b"p cnf 3 2\n1 -4 0\n",
    )?;
    sheet_of(out, "no final 0", b"p cnf 3 1\n1 -2 3")?;
    sheet_of(out, "a wrong C", b"p cnf 3 2\n1 -2 3 0\n")
}

fn main(rt: HostRuntime) -> io::Result<()> {
    let mut out = rt.stdout();
    sheet_of(
        &mut out,
        "the sheet's list",
        b"p cnf 4 6\n-3 1 0 -3 2 0 3 -1 -2 0\n-4 1 0 -4 2 0 4 -1 -2 0\n",
    )?;
    starred_clauses(&mut out)?;
    starred_gates(&mut out)?;
    refusals(&mut out)
}

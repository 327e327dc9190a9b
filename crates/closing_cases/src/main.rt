// Closes document 01's lists to try, one line each: the list's name, the values of the sheet's second line or the refusal's number and place,
// the first six codes of the lead row, and the work row's last entry that closing clears and the one past it. Both rows hold 7 everywhere
// before.

#![tactic(auto)]

use clauses::limits::MAX_ENTRIES;
use clauses::reading::read;
use clauses::refusal::Refusal;
use closure::close::{Summary, close};
use rules::Verdict;
use std::io;
use std::io::Write;

fn verdict_name(verdict: Verdict) -> &'static str {
    match verdict {
        Verdict::Contradiction => "contradiction",
        Verdict::Settled => "settled",
        Verdict::Unfinished => "unfinished",
    }
}

// The sheet's second line, or the refusal.
fn show_closing<W: Write>(out: &mut W, v: u32, answer: Result<Summary, Refusal>) -> io::Result<()> {
    match answer {
        Err(r) => write!(out, "refusal {} at {}", r.number(), r.place()),
        Ok(s) => {
            let verdict = verdict_name(s.verdict);
            write!(
                out,
                "{verdict},{},{v},{},{},{},{}",
                s.rounds, s.ands, s.xors, s.ites, s.groups
            )
        }
    }
}

fn show_entries<W: Write>(out: &mut W, entries: &[u32]) -> io::Result<()> {
    for entry in entries {
        write!(out, " {entry}")?;
    }
    Ok(())
}

fn close_row<W: Write>(out: &mut W, v: u32, c: u32, row: &[i32], limit: u32) -> io::Result<()> {
    let mut leads = [7; 1025];
    let mut work = [7; 16385];
    let answer = close(v, c, row, limit, &mut leads, &mut work);
    show_closing(out, v, answer)?;
    write!(out, "; leads")?;
    show_entries(out, &leads[..6])?;
    write!(out, "; work")?;
    show_entries(out, &work[16383..])?;
    writeln!(out)
}

// A text's list, with V nets.
fn close_text<W: Write>(
    out: &mut W,
    name: &str,
    v: u32,
    text: &[u8],
    limit: u32,
) -> io::Result<()> {
    let mut row = [0; MAX_ENTRIES];
    write!(out, "{name}: ")?;
    match read(text, &mut row) {
        Err(_) => writeln!(out, "not read"),
        Ok(s) => match row.get(..s.entries) {
            Some(entries) => close_row(out, v, s.clauses, entries, limit),
            None => Ok(()),
        },
    }
}

// The same under round limit V + 1 or more, which all answer alike.
fn closes<W: Write>(out: &mut W, name: &str, v: u32, text: &[u8]) -> io::Result<()> {
    close_text(out, name, v, text, 1025)
}

// Starred lists 1 to 6.
fn unit_cases<W: Write>(out: &mut W) -> io::Result<()> {
    closes(out, "no clause", 0, b"p cnf 0 0\n")?;
    closes(out, "one empty clause", 0, b"p cnf 0 1\n0\n")?;
    closes(out, "(1)(-1)", 1, b"p cnf 1 2\n1 0 -1 0\n")?;
    closes(out, "(1 1)", 1, b"p cnf 1 1\n1 1 0\n")?;
    closes(out, "(1 -1)", 1, b"p cnf 1 1\n1 -1 0\n")?;
    closes(out, "(1 2)(-1 -2)", 2, b"p cnf 2 2\n1 2 0 -1 -2 0\n")
}

// Starred lists 7 to 9.
fn and_cases<W: Write>(out: &mut W) -> io::Result<()> {
    closes(out, "(1)(-1 2)(-2 3)", 3, b"p cnf 3 3\n1 0 -1 2 0 -2 3 0\n")?;
    closes(
        out,
        "(3 -1 -2)(-3 1)(-3 1)",
        3,
        b"p cnf 3 3\n3 -1 -2 0 -3 1 0 -3 1 0\n",
    )?;
    closes(
        out,
        "(-3 1)(-3 2)(3 -1 -2)(1 2)(-1 -2)",
        3,
        b"p cnf 3 5\n-3 1 0 -3 2 0 3 -1 -2 0 1 2 0 -1 -2 0\n",
    )
}

// Starred lists 10 to 12.
fn gate_cases<W: Write>(out: &mut W) -> io::Result<()> {
    closes(
        out,
        "two ANDs that differ",
        5,
        b"p cnf 5 11\n-3 1 0 -3 2 0 3 -1 -2 0 -4 1 0 -4 2 0 4 -1 -2 0 -5 3 4 0 -5 -3 -4 0 5 -3 4 0 5 3 -4 0 5 0\n",
    )?;
    closes(
        out,
        "two multiplexers",
        5,
        b"p cnf 5 8\n-1 -4 2 0 -1 4 -2 0 1 -4 3 0 1 4 -3 0 -1 -5 -2 0 -1 5 2 0 1 -5 -3 0 1 5 3 0\n",
    )?;
    closes(
        out,
        "a multiplexer with both data pins on one net",
        3,
        b"p cnf 3 4\n-1 -3 2 0 -1 3 -2 0 1 -3 2 0 1 3 -2 0\n",
    )
}

// The sheet's list under a round limit.
fn close_sheet<W: Write>(out: &mut W, name: &str, limit: u32) -> io::Result<()> {
    close_text(
        out,
        name,
        4,
        b"p cnf 4 6\n-3 1 0 -3 2 0 3 -1 -2 0 -4 1 0 -4 2 0 4 -1 -2 0\n",
        limit,
    )
}

fn limit_cases<W: Write>(out: &mut W) -> io::Result<()> {
    close_sheet(out, "the sheet's list, limit 0", 0)?;
    close_sheet(out, "the sheet's list, limit 1", 1)?;
    close_sheet(out, "the sheet's list, limit 4,294,967,295", 4294967295)
}

fn refusal_cases<W: Write>(out: &mut W) -> io::Result<()> {
    closes(out, "V 1,024", 1024, b"p cnf 1 1\n1 0\n")?;
    closes(out, "V 1,025", 1025, b"p cnf 1 1\n1 0\n")?;
    closes(out, "entry -V", 3, b"p cnf 3 1\n-3 0\n")?;
    closes(out, "entry -V - 1", 2, b"p cnf 3 1\n1 -3 0\n")
}

// Rows of one clause, and one entry more.
fn entry_cases<W: Write>(out: &mut W) -> io::Result<()> {
    let mut row = [1i32; 16384];
    row[16383] = 0;
    write!(out, "16,384 entries: ")?;
    close_row(out, 1, 1, &row, 1025)?;
    let more = [1i32; 16385];
    write!(out, "16,385 entries: ")?;
    close_row(out, 1, 1, &more, 1025)
}

fn main(rt: HostRuntime) -> io::Result<()> {
    let mut out = rt.stdout();
    unit_cases(&mut out)?;
    and_cases(&mut out)?;
    gate_cases(&mut out)?;
    limit_cases(&mut out)?;
    refusal_cases(&mut out)?;
    entry_cases(&mut out)
}

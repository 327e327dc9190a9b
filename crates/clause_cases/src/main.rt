// Compares clauses of rows of codes where they stand, one line for each pair: its name, and whether the two are equal as sets. Then it compares
// a clause of 8,000 literals with others, once for each byte of standard input, of which it reads 4,096, and prints `=` or `/` for each.

#![tactic(auto)]

use gates::same::is_same_set;
use std::io;
use std::io::Write;
use support::input::read_full;

fn pair<W: Write>(out: &mut W, name: &str, codes: &[u32], a: usize, b: usize) -> io::Result<()> {
    let equal = if is_same_set(codes, a, b) {
        "equal"
    } else {
        "different"
    };
    writeln!(out, "{name}: {equal}")
}

// Which literals the two have.
fn literal_cases<W: Write>(out: &mut W) -> io::Result<()> {
    pair(out, "the same order", &[2, 5, 6, 0, 2, 5, 6, 0], 0, 4)?;
    pair(out, "turned round", &[2, 5, 6, 0, 6, 5, 2, 0], 0, 4)?;
    pair(out, "another order", &[2, 5, 6, 8, 0, 6, 2, 8, 5, 0], 0, 5)?;
    pair(
        out,
        "a literal that only the first has",
        &[2, 5, 6, 0, 5, 2, 0],
        0,
        4,
    )?;
    pair(
        out,
        "a literal that only the second has",
        &[5, 2, 0, 2, 5, 6, 0],
        0,
        3,
    )?;
    pair(
        out,
        "one literal that differs",
        &[2, 5, 6, 0, 6, 5, 8, 0],
        0,
        4,
    )?;
    pair(
        out,
        "the same nets with another sign",
        &[2, 5, 6, 0, 2, 4, 6, 0],
        0,
        4,
    )?;
    pair(out, "a repeated literal", &[2, 5, 2, 0, 5, 2, 0], 0, 4)?;
    pair(
        out,
        "other literals repeated",
        &[2, 5, 2, 0, 5, 2, 5, 0],
        0,
        4,
    )?;
    pair(
        out,
        "as many literals, of which one is repeated",
        &[2, 5, 2, 0, 5, 2, 6, 0],
        0,
        4,
    )?;
    pair(out, "a net and its inverse", &[2, 3, 0, 3, 2, 0], 0, 3)
}

// Where the two start and end.
fn place_cases<W: Write>(out: &mut W) -> io::Result<()> {
    pair(out, "a clause and itself", &[2, 5, 6, 0], 0, 0)?;
    pair(
        out,
        "the second before the first",
        &[2, 5, 6, 0, 6, 2, 5, 0],
        4,
        0,
    )?;
    pair(
        out,
        "clauses in the middle of others",
        &[8, 2, 5, 0, 6, 5, 2, 0],
        1,
        5,
    )?;
    pair(out, "a part of a clause", &[2, 5, 6, 0], 0, 1)?;
    pair(
        out,
        "a literal that stands before the second",
        &[2, 8, 0, 8, 2, 0],
        0,
        4,
    )?;
    pair(out, "no 0 at the row's end", &[2, 5, 0, 5, 2], 0, 3)?;
    pair(out, "two empty clauses", &[2, 0, 0, 5, 0], 1, 2)?;
    pair(
        out,
        "an empty clause and another one",
        &[2, 0, 0, 5, 0],
        2,
        3,
    )?;
    pair(
        out,
        "an empty clause before one with the first's literals",
        &[2, 5, 0, 0, 2, 5, 0],
        0,
        3,
    )?;
    pair(
        out,
        "an empty clause and one past the row's end",
        &[2, 0, 0],
        2,
        3,
    )?;
    pair(out, "a clause and one past the row's end", &[2, 5, 0], 0, 3)?;
    pair(
        out,
        "two clauses past the row's end",
        &[2, 5, 0],
        3,
        18446744073709551615,
    )?;
    pair(
        out,
        "the largest start and a clause",
        &[2, 5, 0],
        18446744073709551615,
        0,
    )?;
    pair(out, "an empty row", &[], 0, 0)
}

// How many literals a wide clause has, and how many entries with its 0.
const WIDTH: usize = 8000;

const ENTRIES: usize = WIDTH + 1;

// Where the clauses start that the first one is compared with. The empty one stands right before one that has all its literals.
const SAME_ORDER: usize = ENTRIES;

const EMPTY: usize = TURNED_ROUND - 1;

const TURNED_ROUND: usize = 2 * ENTRIES;

const TURNED_ROUND_BUT_ONE: usize = 3 * ENTRIES;

const MIXED: usize = 4 * ENTRIES;

// Puts a wide clause at a place: the literals in an order that a first one and a step give.
fn put_clause(row: &mut [u32], at: usize, first: usize, step: usize) {
    let mut k = first;
    for code in row.iter_mut().skip(at).take(WIDTH) {
        *code = (k % WIDTH + 2) as u32;
        k = k % WIDTH + step % WIDTH;
    }
}

// The wide clause that a byte stands for.
fn start_of(order: u8) -> usize {
    match order {
        b'o' => SAME_ORDER,
        b'e' => EMPTY,
        b't' => TURNED_ROUND,
        b'b' => TURNED_ROUND_BUT_ONE,
        _ => MIXED,
    }
}

// Compares the first clause with the one that each byte stands for.
fn compare_wide<W: Write>(out: &mut W, codes: &[u32], orders: &[u8]) -> io::Result<()> {
    for order in orders {
        if is_same_set(codes, 0, start_of(*order)) {
            write!(out, "=")?;
        } else {
            write!(out, "/")?;
        }
    }
    Ok(())
}

fn wide_cases<W: Write>(out: &mut W, orders: &[u8]) -> io::Result<()> {
    let mut row = [0u32; 5 * ENTRIES];
    put_clause(&mut row, 0, 0, 1);
    put_clause(&mut row, SAME_ORDER, 0, 1);
    put_clause(&mut row, TURNED_ROUND, WIDTH - 1, WIDTH - 1);
    put_clause(&mut row, TURNED_ROUND_BUT_ONE, WIDTH - 1, WIDTH - 1);
    row[TURNED_ROUND_BUT_ONE] = 1;
    put_clause(&mut row, MIXED, 0, 4999);
    write!(out, "clauses of 8,000 literals: ")?;
    compare_wide(out, &row, orders)?;
    writeln!(out)
}

fn main(rt: HostRuntime) -> io::Result<()> {
    let mut out = rt.stdout();
    literal_cases(&mut out)?;
    place_cases(&mut out)?;
    let mut orders = [0u8; 4096];
    let n = read_full(&mut rt.stdin(), &mut orders)?;
    wide_cases(&mut out, &orders[..n])
}

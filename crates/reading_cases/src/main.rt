// Runs document 01's cases of reading and printing, one line each: its name; what the answer is; and whether what was
// lent kept its contents, past what was written.

#![tactic(auto)]

mod shown;

use clauses::limits::MAX_NUMBERS;
use clauses::printing::print;
use clauses::reading::read;
use shown::{show_printing, show_reading};
use std::io;
use std::io::Write;
use support::made::make_text;

// Reads a text into a row that holds 7 everywhere.
fn reads_into<W: Write>(out: &mut W, name: &str, text: &[u8], row: &mut [i32]) -> io::Result<()> {
    let answer = read(text, row);
    show_reading(out, name, answer, row)
}

// Reads a text into a row with room for all numbers that a text can have.
fn reads<W: Write>(out: &mut W, name: &str, text: &[u8]) -> io::Result<()> {
    let mut row = [7; MAX_NUMBERS];
    reads_into(out, name, text, &mut row)
}

// Reads a text of a header, a word a number of times, and a last word.
fn reads_long<W: Write>(
    out: &mut W,
    name: &str,
    header: &[u8],
    word: &[u8],
    times: usize,
    last: &[u8],
) -> io::Result<()> {
    let mut room = [0; 65600];
    reads(out, name, make_text(&mut room, header, word, times, last))
}

// Prints a list into a buffer that holds `#` everywhere.
fn prints<W: Write>(
    out: &mut W,
    name: &str,
    v: u32,
    c: u32,
    row: &[i32],
    text: &mut [u8],
) -> io::Result<()> {
    let answer = print(v, c, row, text);
    show_printing(out, name, answer, text)
}

// No header.
fn header_cases<W: Write>(out: &mut W) -> io::Result<()> {
    reads(out, "empty text", b"")?;
    reads(
        out,
        "no header, blanks and a comment",
        b" \n\nc p cnf 1 1\n\t",
    )?;
    reads(out, "a number before the header", b"c\n1 0\np cnf 1 1\n")?;
    reads(out, "NUL bytes", b"\x00\x00\x00")
}

// Headers that are malformed.
fn header_form_cases<W: Write>(out: &mut W) -> io::Result<()> {
    reads(out, "a blank before p", b"\n p cnf 1 1\n1 0\n")?;
    reads(out, "p and cnf not separated", b"pcnf 1 1\n1 0\n")?;
    reads(out, "CR in the header's middle", b"p cnf\r1 1\n1 0\n")
}

// V and C.
fn header_number_cases<W: Write>(out: &mut W) -> io::Result<()> {
    reads(out, "V with a minus", b"p cnf -1 1\n1 0\n")?;
    reads(out, "V with a 0 in front", b"p cnf 01 1\n1 0\n")?;
    reads(out, "V of ten digits", b"p cnf 1000000000 1\n1 0\n")?;
    reads(out, "C missing", b"p cnf 1\n1 0\n")?;
    reads(out, "a word behind C", b"p cnf 1 1 1\n1 0\n")
}

// Blanks and comments.
fn line_cases<W: Write>(out: &mut W) -> io::Result<()> {
    reads(out, "tabs and spaces", b"p\t cnf \t1\t1 \t\n1 0\n")?;
    reads(out, "CR LF", b"c x\r\np cnf 2 1\r\n1 -2\r\n0\r\n")?;
    reads(out, "c behind a lone CR", b"p cnf 1 1\n1 0\rc\n")?;
    reads(out, "header without a body", b"p cnf 0 0")?;
    reads(
        out,
        "comments anywhere",
        b"c\x00\xff\np cnf 1 1\nc 2 0\n1\ncx\n0\nc last",
    )
}

// Zeros in front.
fn word_cases<W: Write>(out: &mut W) -> io::Result<()> {
    reads(out, "-0", b"p cnf 1 1\n-0 0")?;
    reads(out, "a 0 in front", b"p cnf 1 1\n1 01 0\n")?;
    reads(out, "-01", b"p cnf 1 1\n-01 0\n")?;
    reads(out, "00", b"p cnf 0 1\n00\n")
}

// Signs.
fn sign_cases<W: Write>(out: &mut W) -> io::Result<()> {
    reads(out, "a plus sign", b"p cnf 1 1\n+1 0\n")?;
    reads(out, "a minus alone", b"p cnf 1 1\n1 - 0\n")?;
    reads(out, "two minus signs", b"p cnf 1 1\n--1 0\n")
}

// Long numbers, and what may not follow a number.
fn word_end_cases<W: Write>(out: &mut W) -> io::Result<()> {
    reads(out, "nine digits", b"p cnf 1 1\n1 -999999999 0\n")?;
    reads(out, "ten digits", b"p cnf 1 1\n1 1000000000 0\n")?;
    reads(out, "a NUL behind a number", b"p cnf 1 1\n1\x00 0\n")?;
    reads(
        out,
        "a comment in the middle of a line",
        b"p cnf 1 1\n1 0 c\n",
    )?;
    reads(out, "a second header", b"p cnf 1 1\n1 0\np cnf 1 1\n")
}

// The tests of V, C and the entries.
fn list_cases<W: Write>(out: &mut W) -> io::Result<()> {
    reads(out, "V 1,024", b"p cnf 1024 1\n1024 0\n")?;
    reads(out, "V 1,025", b"p cnf 1025 1\n1025 0\n")?;
    reads(out, "entry -V", b"p cnf 3 1\n1 -3 0\n")?;
    reads(out, "entry -V - 1", b"p cnf 3 1\n1 -4 0\n")?;
    reads(out, "no final 0", b"p cnf 2 1\n1 2")
}

// Several tests hold, or C alone is wrong.
fn order_cases<W: Write>(out: &mut W) -> io::Result<()> {
    reads(out, "an entry too large, a wrong C", b"p cnf 2 5\n1 3 0\n")?;
    reads(out, "a wrong C", b"p cnf 2 2\n1 2 0\n")?;
    reads(out, "no final 0, a wrong C", b"p cnf 2 2\n1 2")?;
    reads(out, "clauses with no literal", b"p cnf 0 2\n0 0\n")?;
    reads(
        out,
        "V and C too large, a word that is no number",
        b"p cnf 1025 4097\nx\n",
    )?;
    reads(out, "V and C too large", b"p cnf 1025 4097\n")
}

// The limits of C and of the entries, each on both sides.
fn limit_cases<W: Write>(out: &mut W) -> io::Result<()> {
    reads_long(out, "C 4,096", b"p cnf 0 4096\n", b"0\n", 4096, b"")?;
    reads_long(out, "C 4,097", b"p cnf 0 4097\n", b"0\n", 4097, b"")?;
    reads_long(out, "16,384 entries", b"p cnf 1 1\n", b"1 ", 16383, b"0\n")?;
    reads_long(out, "16,385 entries", b"p cnf 1 1\n", b"1 ", 16384, b"0\n")?;
    reads_long(
        out,
        "a word behind 16,385 entries",
        b"p cnf 1 1\n",
        b"1 ",
        16385,
        b"x",
    )
}

// The limit of the text, and the most entries that a text can have.
fn text_limit_cases<W: Write>(out: &mut W) -> io::Result<()> {
    reads_long(
        out,
        "32,763 entries, the most a text can have",
        b"p cnf 1 1\n",
        b"1 ",
        32762,
        b"0",
    )?;
    reads_long(out, "65,536 bytes", b"p cnf 0 0\n", b" ", 65526, b"")?;
    reads_long(out, "65,537 bytes", b"p cnf 0 0\n", b" ", 65527, b"")
}

// Rows that are too short, or just long enough.
fn room_cases<W: Write>(out: &mut W) -> io::Result<()> {
    let mut two = [7i32; 2];
    let mut three = [7i32; 3];
    let mut none = [7i32; 0];
    reads_into(
        out,
        "a row of 2 for 3 numbers",
        b"p cnf 2 1\n1 2 0\n",
        &mut two,
    )?;
    reads_into(
        out,
        "a row of 3 for 3 numbers",
        b"p cnf 2 1\n1 2 0\n",
        &mut three,
    )?;
    reads_into(
        out,
        "a row of 2, and V too large",
        b"p cnf 1025 1\n1 2 0\n",
        &mut two,
    )?;
    reads_into(
        out,
        "a row of 2, and a word that is no number",
        b"p cnf 2 1\n1 2 0 x\n",
        &mut two,
    )?;
    reads_into(out, "an empty row for no number", b"p cnf 5 0\n", &mut none)?;
    reads_into(
        out,
        "an empty row for one number",
        b"p cnf 5 1\n0",
        &mut none,
    )
}

// Printing into a buffer with room for 14 bytes, or 13.
fn printing_cases<W: Write>(out: &mut W) -> io::Result<()> {
    let mut text = [b'#'; 14];
    let mut short = [b'#'; 13];
    let clause = [1i32, 0];
    let least = [1i32, -2147483648, 0];
    let open = [0i32, 1];
    prints(out, "V 1,025", 1025, 1, &clause, &mut text)?;
    prints(out, "C 4,097", 1, 4097, &clause, &mut text)?;
    prints(out, "-2,147,483,648", 1024, 1, &least, &mut text)?;
    prints(out, "no final 0", 1, 1, &open, &mut text)?;
    prints(out, "a wrong C", 1, 2, &clause, &mut text)?;
    prints(out, "14 bytes into 13", 1, 1, &clause, &mut short)?;
    prints(out, "14 bytes into 14", 1, 1, &clause, &mut text)
}

// Texts of 65,537 and 65,536 bytes.
fn printing_limit_cases<W: Write>(out: &mut W) -> io::Result<()> {
    let mut text = [b'#'; 70000];
    let mut row = [1000i32; 13105];
    row[0] = -1000;
    row[1] = -1000;
    row[13104] = 0;
    prints(out, "65,537 bytes", 1000, 1, &row, &mut text)?;
    row[1] = 1000;
    prints(out, "65,536 bytes", 1000, 1, &row, &mut text)
}

// Rows of 16,385 and 16,384 entries.
fn printing_entries_cases<W: Write>(out: &mut W) -> io::Result<()> {
    let mut text = [b'#'; 70000];
    let mut more = [1i32; 16385];
    more[16384] = 0;
    prints(out, "16,385 entries", 1, 1, &more, &mut text)?;
    let mut most = [1i32; 16384];
    most[16383] = 0;
    prints(out, "16,384 entries", 1, 1, &most, &mut text)
}

fn main(rt: HostRuntime) -> io::Result<()> {
    let mut out = rt.stdout();
    header_cases(&mut out)?;
    header_form_cases(&mut out)?;
    header_number_cases(&mut out)?;
    line_cases(&mut out)?;
    word_cases(&mut out)?;
    sign_cases(&mut out)?;
    word_end_cases(&mut out)?;
    list_cases(&mut out)?;
    order_cases(&mut out)?;
    limit_cases(&mut out)?;
    text_limit_cases(&mut out)?;
    room_cases(&mut out)?;
    printing_cases(&mut out)?;
    printing_limit_cases(&mut out)?;
    printing_entries_cases(&mut out)
}

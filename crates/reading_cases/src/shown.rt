// One line of output for each case.

use clauses::reading::ListSize;
use clauses::refusal::Refusal;
use std::io;
use std::io::Write;

// Whether what was lent holds what filled it, from a place on.
fn kept<T: PartialEq>(lent: &[T], from: usize, filling: &T) -> &'static str {
    if lent.iter().skip(from).all(|x| x == filling) {
        "kept"
    } else {
        "touched"
    }
}

// Shows what reading answers, for a row that held 7 everywhere.
pub fn show_reading<W: Write>(
    out: &mut W,
    name: &str,
    answer: Result<ListSize, Refusal>,
    row: &[i32],
) -> io::Result<()> {
    match answer {
        Err(r) => {
            let kept = kept(row, 0, &7);
            writeln!(out, "{name}: refusal {},{}; {kept}", r.number(), r.place())
        }
        Ok(s) => {
            let kept = kept(row, s.entries, &7);
            writeln!(
                out,
                "{name}: {},{},{}; {kept}",
                s.nets, s.clauses, s.entries
            )
        }
    }
}

// Shows what printing answers, for a buffer that held `#` everywhere.
pub fn show_printing<W: Write>(
    out: &mut W,
    name: &str,
    answer: Result<usize, Refusal>,
    text: &[u8],
) -> io::Result<()> {
    match answer {
        Err(r) => {
            let kept = kept(text, 0, &b'#');
            writeln!(
                out,
                "printing {name}: refusal {},{}; {kept}",
                r.number(),
                r.place()
            )
        }
        Ok(n) => {
            let kept = kept(text, n, &b'#');
            writeln!(out, "printing {name}: {n}; {kept}")
        }
    }
}

// The AND lines.

ghost use Rattle.std.specs.Prelude.{◌≡◌, [], ◌+◌, ◌*◌, ◌≤◌, ◌<◌, length};
ghost use Rattle.clauses.specs.Limit.{max_text};
ghost use Rattle.clauses.specs.Tally.{start};
ghost use Rattle.aiger.specs.Line.{and_at, and_lines};
ghost use Rattle.aiger.specs.Scanning.{Ready, AndTaken, ands_result, AndsRead};
ghost use Rattle.aiger.specs.Tree.{max_keys};

use crate::clause::MadeEntries;
use crate::header::Header;
use crate::line::read_literal;
use crate::tree::LiteralTree;
use clauses::refusal::Refusal;

// The place of an AND line, and its literals.
#[derive(Clone, Copy)]
pub struct And {
    pub place: usize,
    pub output: u32,
    pub left: u32,
    pub right: u32,
}

// An AND line, and the place behind it.
#[derive(Clone, Copy)]
pub struct AndLine {
    pub gate: And,
    pub next: usize,
}

// The AND line at a place, of a circuit with so many nets.
#[tactic(auto, unfolding(crate::specs::Line::and_at))]
fn read_and(text: &[u8], at: usize, nets: u32) -> Option<AndLine>
    ensures { result ≡ and_at nets text.now at }
{
    let output = read_literal(text, at, b' ', nets)?;
    let left = read_literal(text, output.next, b' ', nets)?;
    let right = read_literal(text, left.next, b'\n', nets)?;
    Some(AndLine {
        gate: And {
            place: at,
            output: output.value,
            left: left.value,
            right: right.value,
        },
        next: right.next,
    })
}

// Makes the clauses of an AND line, if its output is new.
fn take_and(g: And, tree: &mut LiteralTree, entries: &mut MadeEntries) -> Result<(), Refusal>
    requires ready { Ready g entries.old.tally }
    requires room { length tree.old < max_keys }
    ensures { AndTaken g tree.old entries.old result tree.new entries.new }
{
    if !tree.add_new(g.output) {
        return Err(Refusal::AndOutput(g.place));
    }
    entries.put_and(g);
    Ok(())
}

// Reads the AND lines from a place on, behind the input lines, whose literals are in the tree, and makes the entries of their clauses.
// All lines are read, also those behind an output that is not new.
pub fn scan_ands(
    text: &[u8],
    from: usize,
    header: Header,
    tree: &mut LiteralTree,
    entries: &mut MadeEntries,
) -> Result<(), Refusal>
    requires lines_in_bounds { (2 * length tree.old ≤ from) × (from ≤ length text.now) × (length text.now ≤ max_text) }
    requires none_made { entries.old.tally ≡ start }
    ensures { AndsRead (ands_result tree.old [] (and_lines header.nets text.now header.ands from)) entries.old result entries.new }
{
    let mut outputs = Ok(());
    let mut at = from;
    for _ in 0..header.ands {
        let Some(line) = read_and(text, at, header.nets) else {
            return Err(Refusal::AigerLine(at));
        };
        if outputs.is_ok() {
            outputs = take_and(line.gate, tree, entries);
        }
        at = line.next;
    }
    outputs
}

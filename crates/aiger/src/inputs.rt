// The input lines.

ghost use Rattle.std.specs.Prelude.{◌≡◌, [], ◌≤◌, length};
ghost use Rattle.clauses.specs.Limit.{max_text};
ghost use Rattle.aiger.specs.Scanning.{InputsRead};

use crate::header::Header;
use crate::line::read_literal;
use crate::tree::LiteralTree;
use clauses::refusal::Refusal;

// Reads the input lines, whose literals become those of the tree; the place behind them.
pub fn read_inputs(text: &[u8], header: Header, tree: &mut LiteralTree) -> Result<usize, Refusal>
    requires empty { tree.old ≡ [] }
    requires lines_in_bounds { (header.lines ≤ length text.now) × (length text.now ≤ max_text) }
    ensures { InputsRead header.nets text.now header.inputs header.lines result tree.new }
{
    let mut at = header.lines;
    for _ in 0..header.inputs {
        let Some(input) = read_literal(text, at, b'\n', header.nets) else {
            return Err(Refusal::AigerLine(at));
        };
        if !tree.add_new(input.value) {
            return Err(Refusal::AigerLine(at));
        }
        at = input.next;
    }
    Ok(at)
}

// Places of a row of codes.

ghost use Rattle.std.specs.Prelude.{◌≡◌, ◌+◌, length, get_or};
ghost use Rattle.clauses.specs.Row.{clause_at};

use crate::run::run_end;

// The literal at a place, 0 at a clause's end and past the row's.
pub fn literal(codes: &[u32], at: usize) -> u32
    ensures { result ≡ get_or codes.now at 0 }
{
    codes.get(at).copied().unwrap_or(0)
}

// The place of the 0 that ends the clause at b, or the row's length.
#[tactic(auto, unfolding(crate::specs::Row::clause_at))]
pub fn clause_end(codes: &[u32], b: usize) -> usize
    ensures { result ≡ b + length (clause_at codes.now b) }
{
    run_end(codes, b, |code| code != 0)
}

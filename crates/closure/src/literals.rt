// Searches among the literals of a clause by their old leads, and for its start.

ghost use Rattle.std.specs.Prelude.{◌≡◌, ◌≤◌, ◌<◌, length};
ghost use Rattle.clauses.specs.Row.{start_of};
ghost use Rattle.closure.specs.Passing.{is_other, FirstOf, Tells};
ghost use Rattle.closure.specs.Holding.{Among};

use crate::lead::lead_of;

// Whether place q is not `skip`, and its lead neither F nor y.
fn is_other(codes: &[u32], old: &[u32], skip: usize, y: u32, q: usize) -> bool
    requires { q < length codes.now }
    ensures { result ≡ is_other codes.now old.now skip y q }
{
    if q == skip {
        return false;
    }
    let x = lead_of(old, codes[q]);
    x != 0 && x != y
}

// The first place from `from` on, below `to` and other than `skip`, whose lead is neither F nor y.
pub fn first_other(
    codes: &[u32],
    old: &[u32],
    from: usize,
    to: usize,
    skip: usize,
    y: u32,
) -> Option<usize>
    requires { (from ≤ to) × (to ≤ length codes.now) }
    ensures { FirstOf (is_other codes.now old.now skip y) from to result }
{
    (from..to).find(|q| is_other(codes, old, skip, y, *q))
}

// Whether a place from `from` on, below `to` and other than `skip`, has the lead x.
pub fn has_lead(codes: &[u32], old: &[u32], from: usize, to: usize, skip: usize, x: u32) -> bool
    requires { to ≤ length codes.now }
    ensures { Tells (Among codes.now old.now from to skip x) result }
{
    (from..to).any(|q| q != skip && lead_of(old, codes[q]) == x)
}

// The place where the clause of place p starts.
pub fn beginning(codes: &[u32], p: usize) -> usize
    requires { p ≤ length codes.now }
    ensures { result ≡ start_of codes.now p }
{
    for q in (0..p).rev() {
        if codes[q] == 0 {
            return q + 1;
        }
    }
    0
}

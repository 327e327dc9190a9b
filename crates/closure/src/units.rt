// Rules 1 and 2: clauses of which at most one literal is left, and pairs of two-literal clauses.

ghost use Rattle.std.specs.Prelude.{◌≡◌, List, ℕ, ◌+◌, length};
ghost use Rattle.clauses.specs.Row.{clause_at, Starts};
ghost use Rattle.closure.specs.Passing.{UnitJoined, ClauseJoined};
ghost use Rattle.closure.specs.Marked.{Ready, Went};
ghost use Rattle.closure.specs.Worklist.{OnList, AreStarts};

use crate::literals::first_other;
use crate::tally::Tally;
use clauses::place::clause_end;
use clauses::sign::inverse;

// Rule 1 for the clause from b up to its ending at e, whatever the marks are.
fn by_unit(codes: &[u32], b: usize, e: usize, old: &[u32], new: &mut [u32], t: Tally) -> Tally
    requires by_index { (marks : List ℕ) × Ready codes.now marks old.now new.old t }
    requires starts { Starts codes.now b × (e ≡ b + length (clause_at codes.now b)) }
    ensures { (marks : List ℕ) → Ready codes.now marks old.now new.old t → Went codes.now marks old.now new.old t new.new result × UnitJoined codes.now old.now new.new result b }
{
    let Some(p) = first_other(codes, old, b, e, e, 0) else {
        return t.join(new, 1, 0);
    };
    if first_other(codes, old, p + 1, e, e, 0).is_some() {
        return t;
    }
    t.join(new, codes[p], 1)
}

// Rules 1 and 2 for the clause from b up to its ending at e.
fn by_clause(
    codes: &[u32],
    marks: &[u8],
    b: usize,
    e: usize,
    old: &[u32],
    new: &mut [u32],
    t: Tally,
) -> Tally
    requires ready { Ready codes.now marks.now old.now new.old t }
    requires starts { Starts codes.now b × (e ≡ b + length (clause_at codes.now b)) }
    ensures went { Went codes.now marks.now old.now new.old t new.new result }
    ensures clause { ClauseJoined codes.now marks.now old.now new.new result b }
{
    let u = by_unit(codes, b, e, old, new, t);
    if marks[e] == 2 {
        return u.join(new, codes[b], inverse(codes[b + 1]));
    }
    u
}

// Rules 1 and 2 for the listed clauses.
pub fn by_clauses(
    codes: &[u32],
    marks: &[u8],
    list: &[u32],
    old: &[u32],
    new: &mut [u32],
    tally: Tally,
) -> Tally
    requires ready { Ready codes.now marks.now old.now new.old tally }
    requires are_starts { AreStarts codes.now list.now }
    ensures went { Went codes.now marks.now old.now new.old tally new.new result }
    ensures clauses { (b : ℕ) → OnList list.now b → ClauseJoined codes.now marks.now old.now new.new result b }
{
    let mut t = tally;
    for start in list {
        let b = *start as usize;
        t = by_clause(codes, marks, b, clause_end(codes, b), old, new, t);
    }
    t
}

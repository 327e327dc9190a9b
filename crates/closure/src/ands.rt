// Rule 3: ANDs whose output is a constant or one of the inputs.

ghost use Rattle.std.specs.Prelude.{◌≡◌, true, List, ℕ, get_or};
ghost use Rattle.gates.specs.Found.{is_and};
ghost use Rattle.clauses.specs.Row.{Starts, LiteralAt};
ghost use Rattle.closure.specs.Passing.{AndJoined};
ghost use Rattle.closure.specs.Holding.{Blank};
ghost use Rattle.closure.specs.Inputs.{AndTaken};
ghost use Rattle.closure.specs.Marked.{Ready, Went};
ghost use Rattle.closure.specs.Worklist.{OnList, AreStarts};

use crate::inputs::Inputs;
use crate::lead::lead_of;
use crate::tally::Tally;
use clauses::place::clause_end;
use clauses::sign::inverse;

// Rule 3 for the AND with these inputs, whatever the other marks are.
fn by_and(inputs: &Inputs, held: &mut [bool], new: &mut [u32], t: Tally) -> Tally
    requires by_index { (marks : List ℕ) × Ready inputs.now.codes.now marks inputs.now.old.now new.old t }
    requires blank_2 { Blank held.old }
    ensures and { (marks : List ℕ) → Ready inputs.now.codes.now marks inputs.now.old.now new.old t → is_and (get_or marks inputs.now.output 0) ≡ true
        → AndTaken inputs.now marks new.old t new.new result }
    ensures blank { Blank held.new }
{
    let l = inputs.codes[inputs.output];
    let Some(q) = inputs.first_other(0) else {
        return t.join(new, l, 1);
    };
    let x = inputs.codes[q];
    if inputs.first_other(lead_of(inputs.old, x)).is_none() {
        return t.join(new, l, inverse(x));
    }
    if inputs.has_clash(held) {
        return t.join(new, l, 0);
    }
    t
}

// Rule 3 for the ANDs of the clause that starts at b.
fn by_ands_at(
    codes: &[u32],
    marks: &[u8],
    b: usize,
    old: &[u32],
    held: &mut [bool],
    new: &mut [u32],
    tally: Tally,
) -> Tally
    requires ready { Ready codes.now marks.now old.now new.old tally }
    requires starts { Starts codes.now b }
    requires blank_2 { Blank held.old }
    ensures went { Went codes.now marks.now old.now new.old tally new.new result }
    ensures ands { (p : ℕ) → LiteralAt codes.now b p → is_and (get_or marks.now p 0) ≡ true → AndJoined codes.now old.now new.new result b p }
    ensures blank { Blank held.new }
{
    let e = clause_end(codes, b);
    let mut t = tally;
    for p in b..e {
        if marks[p] % 2 == 1 {
            let inputs = Inputs {
                codes,
                old,
                start: b,
                end: e,
                output: p,
            };
            t = by_and(&inputs, held, new, t);
        }
    }
    t
}

// Rule 3 for the ANDs of the listed clauses.
pub fn by_ands(
    codes: &[u32],
    marks: &[u8],
    list: &[u32],
    old: &[u32],
    held: &mut [bool],
    new: &mut [u32],
    tally: Tally,
) -> Tally
    requires ready { Ready codes.now marks.now old.now new.old tally }
    requires are_starts { AreStarts codes.now list.now }
    requires blank_2 { Blank held.old }
    ensures went { Went codes.now marks.now old.now new.old tally new.new result }
    ensures ands { (b p : ℕ) → OnList list.now b → LiteralAt codes.now b p → is_and (get_or marks.now p 0) ≡ true → AndJoined codes.now old.now new.new result b p }
    ensures blank { Blank held.new }
{
    let mut t = tally;
    for start in list {
        t = by_ands_at(codes, marks, *start as usize, old, held, new, t);
    }
    t
}

// The inputs of an AND, by the leads before the round.

ghost use Rattle.std.specs.Prelude.{◌≡◌};
ghost use Rattle.closure.specs.Passing.{is_other, FirstOf, Tells};
ghost use Rattle.closure.specs.Holding.{Low};
ghost use Rattle.closure.specs.Matching.{Placed, InClause, HasLead};

use crate::literals::{beginning, first_other, has_lead};
use clauses::place::clause_end;

// The literals of the clause from `start` up to its ending at `end`, but for the AND's output: the inverses of its inputs.
#[derive(Clone, Copy)]
pub struct Inputs<'a> {
    pub codes: &'a [u32],
    pub old: &'a [u32],
    pub start: usize,
    pub end: usize,
    pub output: usize,
    ghost clause: { InClause codes.now output start end },
    ghost low: { Low codes.now old.now },
}

impl<'a> Inputs<'a> {
    // Those of the AND with its output at place p.
    pub fn of(codes: &'a [u32], old: &'a [u32], p: usize) -> Inputs<'a>
        requires placed { Placed codes.now p }
        requires low { Low codes.now old.now }
        ensures { (result.codes.now ≡ codes.now) × (result.old.now ≡ old.now) × (result.output ≡ p) }
    {
        Inputs {
            codes,
            old,
            start: beginning(codes, p),
            end: clause_end(codes, p),
            output: p,
        }
    }

    // Whether they are so few that they are searched faster than held.
    pub fn is_narrow(&self) -> bool {
        self.end - self.start <= 8
    }

    // The place of the first one whose lead is neither F nor y.
    pub fn first_other(&self, y: u32) -> Option<usize>
        ensures { FirstOf (is_other self.now.codes.now self.now.old.now self.now.output y) self.now.start self.now.end result }
    {
        first_other(self.codes, self.old, self.start, self.end, self.output, y)
    }

    // Whether one of them has the lead x.
    pub fn has_lead(&self, x: u32) -> bool
        ensures { Tells (HasLead self.now.codes.now self.now.old.now self.now.output x) result }
    {
        has_lead(self.codes, self.old, self.start, self.end, self.output, x)
    }
}

// Clashes among the inputs of an AND: one is joined to F, or two are joined as inverses.

ghost use Rattle.std.specs.Prelude.{◌+◌, ◌*◌, ◌≤◌, ◌<◌, length};
ghost use Rattle.clauses.specs.Limit.{max_nets};
ghost use Rattle.closure.specs.Passing.{Tells};
ghost use Rattle.closure.specs.Holding.{Blank};
ghost use Rattle.closure.specs.Inputs.{HoldsInputs, InputClash, HeldInputClash, InputsClash};

use crate::inputs::Inputs;
use crate::lead::lead_of;
use crate::literals::has_lead;
use clauses::sign::inverse;

impl Inputs<'_> {
    // Whether the literal at q is joined to T, or to the inverse of one behind it.
    fn is_clash(&self, q: usize) -> bool
        requires { q < self.now.end }
        ensures { Tells (InputClash self.now q) result }
    {
        if q == self.output {
            return false;
        }
        let y = lead_of(self.old, self.codes[q]);
        y == 1
            || has_lead(
                self.codes,
                self.old,
                q + 1,
                self.end,
                self.output,
                inverse(y),
            )
    }

    // Whether inputs clash, by a search for each: the fastest way if they are few.
    fn has_narrow_clash(&self) -> bool
        ensures { Tells (InputsClash self.now) result }
    {
        (self.start..self.end).any(|q| self.is_clash(q))
    }

    // Whether the literal at q is joined to T, or the inverse of its lead is held.
    fn is_held_clash(&self, held: &[bool], q: usize) -> bool
        requires { (q < self.now.end) × (2 * max_nets + 2 ≤ length held.now) }
        ensures { Tells (HeldInputClash self.now held.now q) result }
    {
        if q == self.output {
            return false;
        }
        let y = lead_of(self.old, self.codes[q]);
        y == 1 || held[inverse(y) as usize]
    }

    // Whether inputs clash, their leads being held.
    fn has_held_clash(&self, held: &[bool]) -> bool
        requires { HoldsInputs self.now held.now }
        ensures { Tells (InputsClash self.now) result }
    {
        (self.start..self.end).any(|q| self.is_held_clash(held, q))
    }

    // Whether an input is joined to F, or two are joined as inverses.
    pub fn has_clash(&self, held: &mut [bool]) -> bool
        requires { Blank held.old }
        ensures told { Tells (InputsClash self.now) result }
        ensures blank { Blank held.new }
    {
        if self.is_narrow() {
            return self.has_narrow_clash();
        }
        self.hold(held);
        let r = self.has_held_clash(held);
        self.release(held);
        r
    }
}

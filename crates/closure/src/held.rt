// A lent row that holds the leads of an AND's inputs, so that they are looked up at once.

ghost use Rattle.std.specs.Prelude.{◌+◌, ◌*◌, ◌≤◌, length};
ghost use Rattle.clauses.specs.Limit.{max_nets};
ghost use Rattle.closure.specs.Holding.{Blank};
ghost use Rattle.closure.specs.Inputs.{PutInputs, HoldsInputs};

use crate::inputs::Inputs;
use crate::lead::lead_of;

impl Inputs<'_> {
    // Makes the entries of their leads v.
    fn put(&self, v: bool, held: &mut [bool])
        requires { 2 * max_nets + 2 ≤ length held.old }
        ensures { PutInputs self.now v held.old held.new }
    {
        for q in self.start..self.end {
            if q != self.output {
                held[lead_of(self.old, self.codes[q]) as usize] = v;
            }
        }
    }

    // Holds their leads.
    pub fn hold(&self, held: &mut [bool])
        requires { Blank held.old }
        ensures { HoldsInputs self.now held.new }
    {
        self.put(true, held);
    }

    // Lets them go.
    pub fn release(&self, held: &mut [bool])
        requires { HoldsInputs self.now held.old }
        ensures { Blank held.new }
    {
        self.put(false, held);
    }
}

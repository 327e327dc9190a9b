// The set of an AND's input leads, T left out, compared with another's.

ghost use Rattle.std.specs.Prelude.{◌≡◌, true, false, ℕ, ◌+◌, ◌*◌, ◌≤◌, ◌<◌, length};
ghost use Rattle.clauses.specs.Limit.{max_nets};
ghost use Rattle.closure.specs.Passing.{lead_at, Tells};
ghost use Rattle.closure.specs.Holding.{Blank, Low};
ghost use Rattle.closure.specs.declared.inputs.Inputs.{Inputs};
ghost use Rattle.closure.specs.Inputs.{OneRow, LeadOf, WithinInputs, HoldsInputs};
ghost use Rattle.closure.specs.Matching.{Placed, Alike};

use crate::inputs::Inputs;
use crate::lead::lead_of;

impl Inputs<'_> {
    // Whether every lead but F passes a test.
    fn all_leads<F: Fn(u32) -> bool>(&self, test: F) -> bool
        requires { (y : ℕ) → y < 2 * max_nets + 2 → F.pre test y }
        ensures each { result ≡ true → (a : ℕ) → LeadOf self.now a → F.post test (lead_at self.now.codes.now self.now.old.now a) true }
        ensures one { result ≡ false → (a : ℕ) × LeadOf self.now a × F.post test (lead_at self.now.codes.now self.now.old.now a) false }
    {
        for a in self.start..self.end {
            if a != self.output {
                let y = lead_of(self.old, self.codes[a]);
                if y != 0 && !test(y) {
                    return false;
                }
            }
        }
        true
    }

    // Whether every lead but F is one of the others', by a search for each: the fastest way if they are few.
    fn is_narrow_within(&self, others: &Inputs) -> bool
        requires { OneRow self.now others.now }
        ensures { Tells (WithinInputs self.now others.now) result }
    {
        self.all_leads(|y| others.has_lead(y))
    }

    // Whether every lead but F is one of the others', however many they are.
    fn is_wide_within(&self, others: &Inputs, held: &mut [bool]) -> bool
        requires one { OneRow self.now others.now }
        requires blank_2 { Blank held.old }
        ensures told { Tells (WithinInputs self.now others.now) result }
        ensures blank { Blank held.new }
    {
        others.hold(held);
        let r = self.is_held(held);
        others.release(held);
        r
    }

    // Whether every lead but F is held; if the others' are, whether it is one of them.
    fn is_held(&self, held: &[bool]) -> bool
        requires { 2 * max_nets + 2 ≤ length held.now }
        ensures { (others : Inputs) → OneRow self.now others → HoldsInputs others held.now → Tells (WithinInputs self.now others) result }
    {
        self.all_leads(|y| held[y as usize])
    }
}

// Whether the ANDs at p and q have the same set.
pub fn is_alike(codes: &[u32], old: &[u32], p: usize, q: usize, held: &mut [bool]) -> bool
    requires placed { Placed codes.now p × Placed codes.now q }
    requires low { Low codes.now old.now × Blank held.old }
    ensures told { Tells (Alike codes.now old.now p q) result }
    ensures blank { Blank held.new }
{
    let left = Inputs::of(codes, old, p);
    let right = Inputs::of(codes, old, q);
    if left.is_narrow() && right.is_narrow() {
        left.is_narrow_within(&right) && right.is_narrow_within(&left)
    } else {
        left.is_wide_within(&right, held) && right.is_wide_within(&left, held)
    }
}

// The XORs, each by one of its clauses.

ghost use Rattle.std.specs.Prelude.{◌≡◌, true, false, not, ◌||◌, map, ◌≤◌, length};
ghost use Rattle.clauses.specs.Code.{net};
ghost use Rattle.clauses.specs.Clause.{clauses_in};
ghost use Rattle.clauses.specs.Lists.{all};
ghost use Rattle.clauses.specs.Listing.{present};
ghost use Rattle.clauses.specs.Sign.{plus, is_inverse};
ghost use Rattle.clauses.specs.Row.{clause_at};
ghost use Rattle.gates.specs.Listing.{signings};
ghost use Rattle.gates.specs.Mark.{is_lowest, is_upright, gives_xor};
ghost use Rattle.gates.specs.Search.{Once};
ghost use Rattle.gates.specs.Mask.{masked, mask_odd};

use crate::clause::Clause;
use crate::index::ClauseIndex;
use clauses::sign::is_inverse;

// Whether no net of the clause is lower than x's.
fn is_lowest(clause: &[u32], x: u32) -> bool
    ensures { result ≡ is_lowest clause.now x }
{
    clause.iter().all(|y| x / 2 <= *y / 2)
}

// Whether at most the lowest net is inverse.
fn is_upright(clause: &[u32]) -> bool
    ensures { result ≡ is_upright clause.now }
{
    clause
        .iter()
        .all(|x| !is_inverse(*x) || is_lowest(clause, *x))
}

// Whether the mask changes an odd number of the clause's signs.
fn is_mask_odd(clause: &[u32], mask: u32) -> bool
    ensures { result ≡ mask_odd mask clause.now }
{
    let mut m = mask;
    let mut odd = false;
    for _ in clause {
        odd ^= m % 2 == 1;
        m /= 2;
    }
    odd
}

impl ClauseIndex<'_> {
    // Whether the clause with the signs changed that the mask has is present, if these are an even number.
    fn is_mask_present(&self, clause: &[u32], mask: u32) -> bool
        requires { Once (map net clause.now) }
        ensures { result ≡ (mask_odd mask clause.now || present (clauses_in self.now.codes.now) (masked mask clause.now)) }
    {
        is_mask_odd(clause, mask) || self.is_present(clause, mask)
    }

    // Whether the clause, which is present itself, is so with any even number of its signs changed.
    fn is_every_mask_present(&self, clause: &[u32]) -> bool
        requires once { Once (map net clause.now) }
        requires clause_len_bound { length clause.now ≤ 5 }
        requires clause_value { present (clauses_in self.now.codes.now) clause.now ≡ true }
        ensures { result ≡ all (present (clauses_in self.now.codes.now)) (signings clause.now false) }
    {
        let masks = 1u32 << clause.len();
        for mask in 1..masks {
            if !self.is_mask_present(clause, mask) {
                return false;
            }
        }
        true
    }
}

impl Clause<'_> {
    // Whether it stands for an XOR, if it has three literals or more.
    pub fn is_xor(&self) -> bool
        ensures { result ≡ gives_xor (clauses_in self.now.list.codes.now) (clause_at self.now.list.codes.now self.now.start) }
    {
        let literals = self.literals();
        literals.len() <= 5 && is_upright(literals) && self.list.is_every_mask_present(literals)
    }
}

// The search for a clause with given literals in a row of codes.

ghost use Rattle.std.specs.Prelude.{◌≡◌};
ghost use Rattle.clauses.specs.Clause.{clauses_in};
ghost use Rattle.clauses.specs.Listing.{mem, present};
ghost use Rattle.clauses.specs.Row.{clause_at};
ghost use Rattle.gates.specs.Search.{first_place, Once};
ghost use Rattle.gates.specs.Mask.{masked};

use crate::index::{ClauseIndex, bucket_of};
use crate::literal::flipped;
use clauses::place::literal;

// Whether the clause at b holds x.
fn holds(codes: &[u32], b: usize, x: u32) -> bool
    ensures { result ≡ mem x (clause_at codes.now b) }
{
    let mut i = b;
    while literal(codes, i) != 0 {
        if literal(codes, i) == x {
            return true;
        }
        i += 1;
    }
    false
}

impl ClauseIndex<'_> {
    // Where the first clause starts with exactly the literals of q, those inverted whose bit is set in the mask: it has no more literals than
    // these, and holds all of them.
    fn find(&self, q: &[u32], mask: u32) -> Option<usize>
        requires { Once (masked mask q.now) }
        ensures { result ≡ first_place self.now.codes.now (masked mask q.now) }
    {
        let n = self.codes.len();
        let mut b = self.first_in(bucket_of(q, mask));
        'clauses: loop {
            if n <= b {
                break 'clauses None;
            }
            let here = b;
            b = self.next_in(here);
            if literal(self.codes, here + q.len()) != 0 {
                continue 'clauses;
            }
            let mut m = mask;
            'literals: for x in q {
                if !holds(self.codes, here, flipped(*x, m)) {
                    continue 'clauses;
                }
                m /= 2;
            }
            break 'clauses Some(here);
        }
    }

    // Whether such a clause is present.
    pub fn is_present(&self, q: &[u32], mask: u32) -> bool
        requires { Once (masked mask q.now) }
        ensures { result ≡ present (clauses_in self.now.codes.now) (masked mask q.now) }
    {
        self.find(q, mask).is_some()
    }
}

// The clauses of a row of codes that stand for their set.

ghost use Rattle.std.specs.Prelude.{◌≡◌, ◌≤◌, length};
ghost use Rattle.clauses.specs.Listing.{same_set};
ghost use Rattle.clauses.specs.Row.{clause_at, Starts};
ghost use Rattle.gates.specs.Mark.{is_first, is_candidate, kind_of, Kinds};

use crate::clause::Clause;
use crate::index::{ClauseIndex, bucket_of};
use crate::kind::Kind;
use crate::same::is_same_set;
use clauses::place::clause_end;

impl Clause<'_> {
    // Whether the clause at a is a copy of it: they are equal as sets. If one has more literals they are not compared.
    fn is_copy(&self, a: usize) -> bool
        requires { Starts self.now.list.codes.now a }
        ensures { result ≡ same_set (clause_at self.now.list.codes.now self.now.start) (clause_at self.now.list.codes.now a) }
    {
        let codes = self.list.codes;
        clause_end(codes, a) - a == self.len() && is_same_set(codes, self.start, a)
    }

    // Whether it is the first of its set. Of the clauses before it those of its bucket are met.
    fn is_first(&self) -> bool
        ensures { result ≡ is_first self.now.list.codes.now self.now.start }
    {
        let mut a = self.list.first_in(bucket_of(self.literals(), 0));
        while a < self.start {
            if self.is_copy(a) {
                return false;
            }
            a = self.list.next_in(a);
        }
        true
    }

    // Whether it has three literals or more and is the first of its set.
    fn is_candidate(&self) -> bool
        ensures { result ≡ is_candidate self.now.list.codes.now self.now.start }
    {
        3 <= self.len() && self.is_first()
    }

    fn kind(&self) -> Kind
        ensures { result ≡ kind_of self.now.list.codes.now self.now.start }
    {
        if !self.is_candidate() {
            return Kind::Other;
        }
        if self.len() == 3 {
            Kind::Three
        } else {
            Kind::Long
        }
    }
}

// A row with its index, and the kinds of its clauses, each where its clause starts.
#[derive(Clone, Copy)]
pub struct ClauseKinds<'a> {
    pub list: ClauseIndex<'a>,
    pub kinds: &'a [Kind],
    ghost listed: { Kinds list.codes.now kinds.now (length list.codes.now) },
}

// Writes the kinds of all clauses, each where its clause starts.
pub fn list_kinds(list: &ClauseIndex, kinds: &mut [Kind])
    requires { length list.now.codes.now ≤ length kinds.old }
    ensures { Kinds list.now.codes.now kinds.new (length list.now.codes.now) }
{
    for clause in list.clauses() {
        kinds[clause.start] = clause.kind();
    }
}

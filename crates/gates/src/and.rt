// The ANDs of a clause.

ghost use Rattle.std.specs.Prelude.{◌≡◌, true, ◌||◌, [], ◌∷◌, ◌<◌, eqb, length, get_or};
ghost use Rattle.clauses.specs.Code.{negate};
ghost use Rattle.clauses.specs.Clause.{clauses_in};
ghost use Rattle.clauses.specs.Listing.{present};
ghost use Rattle.clauses.specs.Row.{clause_at, LiteralAt};
ghost use Rattle.gates.specs.Normal.{max_code};
ghost use Rattle.gates.specs.Mark.{is_candidate, Twos, gives_and};

use crate::clause::Clause;
use crate::index::ClauseIndex;
use clauses::sign::inverse;

impl ClauseIndex<'_> {
    // Whether the clause (not l, not k) is present, if k is another literal than l.
    fn is_input(&self, l: u32, k: u32) -> bool
        ensures { result ≡ (eqb k l || present (clauses_in self.now.codes.now) (negate l ∷ negate k ∷ [])) }
    {
        k == l || self.is_present(&[l, k], 3)
    }

    // Whether l is the output of an AND of the clause, if that has three literals or more.
    fn gives_and(&self, clause: &[u32], l: u32) -> bool
        ensures { result ≡ gives_and (clauses_in self.now.codes.now) clause.now l }
    {
        clause.iter().all(|k| self.is_input(l, *k))
    }
}

// A clause of three literals or more that is the first of its set, and the row that says which literals are in clauses of two.
#[derive(Clone, Copy)]
pub struct Candidate<'a> {
    pub clause: Clause<'a>,
    pub twos: &'a [u32],
    ghost first: { is_candidate clause.list.codes.now clause.start ≡ true },
    ghost listed: { Twos clause.list.codes.now twos.now (length clause.list.codes.now) },
}

impl Candidate<'_> {
    // Whether its literal at p is the output of an AND. It is none if its inverse is in no clause of two literals.
    pub fn is_and(&self, p: usize) -> bool
        requires { LiteralAt self.now.clause.list.codes.now self.now.clause.start p }
        ensures { result ≡ gives_and (clauses_in self.now.clause.list.codes.now) (clause_at self.now.clause.list.codes.now self.now.clause.start) (get_or self.now.clause.list.codes.now p 0) }
    {
        let clause = &self.clause;
        let l = clause.list.codes[p];
        self.twos[inverse(l) as usize] != 0 && clause.list.gives_and(clause.literals(), l)
    }
}

// Sets the entries of the literals that are in clauses of two, and clears all others.
pub fn list_twos(list: &ClauseIndex, twos: &mut [u32])
    requires { max_code < length twos.old }
    ensures { Twos list.now.codes.now twos.new (length list.now.codes.now) }
{
    twos.fill(0);
    for clause in list.clauses() {
        if clause.len() == 2 {
            let literals = clause.literals();
            twos[literals[0] as usize] = 1;
            twos[literals[1] as usize] = 1;
        }
    }
}

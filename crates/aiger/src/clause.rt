// The clauses of an AND line and of the output, made as entries of a row.

ghost use Rattle.std.specs.Prelude.{◌≡◌, [], ◌∷◌, ◌+◌, ◌*◌, ◌<◌, eqb, length, All};
ghost use Rattle.std.specs.List.{list_any};
ghost use Rattle.clauses.specs.Code.{negate};
ghost use Rattle.aiger.specs.Circuit.{is_left_out, and_clauses};
ghost use Rattle.clauses.specs.Number.{signed};
ghost use Rattle.clauses.specs.Tally.{start};
ghost use Rattle.aiger.specs.Scanning.{Room, Put, Ready, literal_entries, clause_entries, made};

use crate::ands::And;
use clauses::entry::put_entry;
use clauses::limits::MAX_ENTRIES;
use clauses::sign::inverse;
use clauses::tally::EntryTally;

// Whether a clause has a literal or a constant.
fn has(clause: &[u32], x: u32) -> bool
    ensures { result ≡ list_any (λ y. eqb y x) clause.now }
{
    clause.iter().any(|y| *y == x)
}

// Whether a clause has a net and its inverse.
fn is_tautology(clause: &[u32]) -> bool
    ensures { result ≡ list_any (λ x. list_any (λ y. eqb y (negate x)) clause.now) clause.now }
{
    clause.iter().any(|x| has(clause, inverse(*x)))
}

// Whether a clause is left out: it has the constant T, or a net and its inverse.
#[tactic(auto, using(crate::proofs::Entries::left_out_any))]
fn is_left_out(clause: &[u32]) -> bool
    ensures { result ≡ is_left_out clause.now }
{
    has(clause, 1) || is_tautology(clause)
}

// Entries of clauses of a circuit with so many nets: their row, as far as it has room for them, and their tally.
#[derive(Drop)]
pub struct MadeEntries {
    pub nets: u32,
    pub tally: EntryTally,
    pub row: [i32; MAX_ENTRIES],
}

impl MadeEntries {
    pub fn new(nets: u32) -> MadeEntries
        ensures { (result.nets ≡ nets) × (result.tally ≡ start) }
    {
        MadeEntries {
            nets,
            tally: EntryTally::start(),
            row: [0; MAX_ENTRIES],
        }
    }

    // Puts an entry, given by its sign and a magnitude of at most nine digits.
    fn put(&mut self, minus: bool, magnitude: u32)
        requires { (magnitude < 1000000000) × Room self.old.tally 1 }
        ensures { Put self.old (signed minus magnitude ∷ []) self.new }
    {
        put_entry(&mut self.row, self.tally.entries, minus, magnitude);
        self.tally = self.tally.add(self.nets, magnitude);
    }

    // Puts a literal, unless it is the constant F.
    fn put_literal(&mut self, x: u32)
        requires { (x < 1000000000) × Room self.old.tally 1 }
        ensures { Put self.old (literal_entries x) self.new }
    {
        if x != 0 {
            self.put(x % 2 == 1, x / 2);
        }
    }

    // Puts a clause, unless it is left out.
    #[inline(always)]
    pub fn put_clause(&mut self, clause: &[u32])
        requires literals { All (λ x. x < 1000000000) clause.now }
        requires room { Room self.old.tally (length clause.now + 1) }
        ensures { Put self.old (clause_entries clause.now) self.new }
    {
        if is_left_out(clause) {
            return;
        }
        for x in clause {
            self.put_literal(*x);
        }
        self.put(false, 0);
    }

    // Puts the three clauses of an AND line.
    pub fn put_and(&mut self, g: And)
        requires { Ready g self.old.tally }
        ensures { Put self.old (made (and_clauses g)) self.new }
    {
        let off = inverse(g.output);
        self.put_clause(&[off, g.left]);
        self.put_clause(&[off, g.right]);
        self.put_clause(&[g.output, inverse(g.left), inverse(g.right)]);
    }
}

// A clause of a row of codes, and the clauses one after another.

ghost use Rattle.std.specs.Prelude.{◌≡◌, true, ◌+◌, ◌-◌, ◌<◌, length};
ghost use Rattle.std.specs.Iterator.{at_most};
ghost use Rattle.clauses.specs.Row.{clause_at};
ghost use Rattle.gates.specs.Index.{is_start};

use crate::index::ClauseIndex;
use clauses::place::clause_end;

// A clause of a row, from where it starts to the 0 that ends it.
#[derive(Clone, Copy)]
pub struct Clause<'a> {
    pub list: ClauseIndex<'a>,
    pub start: usize,
    pub end: usize,
    ghost inside: { start < length list.codes.now },
    ghost starts: { is_start list.codes.now start ≡ true },
    ghost ends: { end ≡ start + length (clause_at list.codes.now start) },
}

impl<'a> Clause<'a> {
    // How many literals it has.
    pub fn len(&self) -> usize
        ensures { result ≡ length (clause_at self.now.list.codes.now self.now.start) }
    {
        self.end - self.start
    }

    pub fn literals(&self) -> &'a [u32]
        ensures { result.now ≡ clause_at self.now.list.codes.now self.now.start }
    {
        &self.list.codes[self.start..self.end]
    }
}

// The clauses of a row from one on.
#[derive(Drop)]
pub struct Clauses<'a> {
    pub list: ClauseIndex<'a>,
    pub start: usize,
    ghost starts: { start < length list.codes.now → is_start list.codes.now start ≡ true },
}

impl<'a> Iterator for Clauses<'a> {
    ghost use Rattle.gates.specs.Clauses.{GivesClause};

    type Item = Clause<'a>;

    ghost next_gives = { GivesClause };

    ghost remaining = { λ s. at_most (length s.list.codes.now - s.start) };

    fn next(&mut self) -> Option<Clause<'a>> {
        let start = self.start;
        if self.list.codes.len() <= start {
            return None;
        }
        let end = clause_end(self.list.codes, start);
        self.start = end + 1;
        Some(Clause {
            list: self.list,
            start,
            end,
        })
    }
}

impl<'a> ClauseIndex<'a> {
    // All clauses of the row.
    pub fn clauses(&self) -> Clauses<'a>
        ensures list { result.list ≡ self.now }
        ensures start { result.start ≡ 0 }
    {
        Clauses {
            list: *self,
            start: 0,
        }
    }
}

// The marks of ANDs and XORs, and of the two-literal clauses whose inverses are a clause too.

ghost use Rattle.std.specs.Prelude.{◌≡◌, ◌+◌, length};
ghost use Rattle.clauses.specs.Row.{LiteralAt};
ghost use Rattle.gates.specs.Mark.{Twos, marks_pair, Marking, Pairing};

use crate::and::Candidate;
use crate::clause::Clause;
use crate::counts::{Counts, add_ands, add_xors};
use crate::first::ClauseKinds;
use crate::index::ClauseIndex;
use crate::kind::Kind;

impl Candidate<'_> {
    // Marks its literal at p, if it is the output of an AND.
    fn mark_literal(&self, p: usize, marks: &mut [u8], counts: &mut Counts)
        requires literal_at { LiteralAt self.now.clause.list.codes.now self.now.clause.start p }
        requires marks_len { length marks.old ≡ length self.now.clause.list.codes.now }
        requires marking { Marking self.now.clause.list.codes.now marks.old p counts.old.ands counts.old.xors }
        ensures marking_2 { Marking self.now.clause.list.codes.now marks.new (p + 1) counts.new.ands counts.new.xors }
        ensures ites_value { counts.new.ites ≡ counts.old.ites }
    {
        if self.is_and(p) {
            marks[p] = 1;
            add_ands(counts, 1);
        }
    }

    // Marks its end, if it stands for an XOR.
    fn mark_end(&self, marks: &mut [u8], counts: &mut Counts)
        requires marks_len { length marks.old ≡ length self.now.clause.list.codes.now }
        requires marking { Marking self.now.clause.list.codes.now marks.old self.now.clause.end counts.old.ands counts.old.xors }
        ensures marking_2 { Marking self.now.clause.list.codes.now marks.new (self.now.clause.end + 1) counts.new.ands counts.new.xors }
        ensures ites_value { counts.new.ites ≡ counts.old.ites }
    {
        if self.clause.is_xor() {
            marks[self.clause.end] = 1;
            add_xors(counts, 1);
        }
    }

    // Marks its ANDs and its XOR.
    fn mark(&self, marks: &mut [u8], counts: &mut Counts)
        requires marks_len { length marks.old ≡ length self.now.clause.list.codes.now }
        requires marking { Marking self.now.clause.list.codes.now marks.old self.now.clause.start counts.old.ands counts.old.xors }
        ensures marking_2 { Marking self.now.clause.list.codes.now marks.new (self.now.clause.end + 1) counts.new.ands counts.new.xors }
        ensures ites_value { counts.new.ites ≡ counts.old.ites }
    {
        for p in self.clause.start..self.clause.end {
            self.mark_literal(p, marks, counts);
        }
        self.mark_end(marks, counts);
    }
}

impl Clause<'_> {
    // Whether it has two literals and that of their inverses is present.
    fn is_pair(&self) -> bool
        ensures { result ≡ marks_pair self.now.list.codes.now self.now.start }
    {
        self.len() == 2 && self.list.is_present(self.literals(), 3)
    }
}

// Marks the ANDs and XORs of a row in marks that are all 0, and counts them.
pub fn mark_clauses(kinds: &ClauseKinds, twos: &[u32], marks: &mut [u8], counts: &mut Counts)
    requires twos { Twos kinds.now.list.codes.now twos.now (length kinds.now.list.codes.now) }
    requires marks_len { length marks.old ≡ length kinds.now.list.codes.now }
    requires marking { Marking kinds.now.list.codes.now marks.old 0 counts.old.ands counts.old.xors }
    ensures marking_2 { Marking kinds.now.list.codes.now marks.new (length kinds.now.list.codes.now) counts.new.ands counts.new.xors }
    ensures ites_value { counts.new.ites ≡ counts.old.ites }
{
    for clause in kinds.list.clauses() {
        if kinds.kinds[clause.start] != Kind::Other {
            let candidate = Candidate { clause, twos };
            candidate.mark(marks, counts);
        }
    }
}

// Marks the ends of the clauses of two literals whose inverses are a clause too.
pub fn mark_pairs(list: &ClauseIndex, marks: &mut [u8])
    requires { length marks.old ≡ length list.now.codes.now }
    ensures { Pairing list.now.codes.now marks.old marks.new (length list.now.codes.now) }
{
    for clause in list.clauses() {
        if clause.is_pair() {
            marks[clause.end] = 2;
        }
    }
}

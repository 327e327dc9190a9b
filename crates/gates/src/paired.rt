// The places of a row where sides of ITEs may be, chained by their literals.

ghost use Rattle.std.specs.Prelude.{◌≡◌, true, ◌+◌, ◌-◌, ◌^◌, ◌≤◌, ◌<◌, length, get_or, replicate};
ghost use Rattle.std.specs.Iterator.{at_most};
ghost use Rattle.clauses.specs.Row.{LiteralAt};
ghost use Rattle.gates.specs.Mark.{kind_of};
ghost use Rattle.gates.specs.Ites.{is_paired, is_paired_at, PlacesChained, Room};
ghost use Rattle.gates.specs.declared.kind.Kind.TheVariants.{Three};

use crate::clause::Clause;
use crate::first::ClauseKinds;
use crate::index::ClauseIndex;
use crate::kind::Kind;
use clauses::chain::link;

// The paired places of a row, chained by their literals.
#[derive(Clone, Copy)]
pub struct PairedPlaces<'a> {
    pub list: ClauseIndex<'a>,
    pub heads: &'a [u32],
    pub chain: &'a [u32],
    ghost room: { Room list.codes.now (length heads.now) (length chain.now) },
    ghost chained: { PlacesChained list.codes.now (length list.codes.now) heads.now chain.now },
}

impl<'a> PairedPlaces<'a> {
    // Those with one literal.
    pub fn with(&self, literal: u32) -> PlacesWith<'a>
        requires { literal < length self.now.heads.now }
        ensures places { result.places ≡ self.now }
        ensures literal { result.literal ≡ literal }
        ensures next { result.next ≡ get_or self.now.heads.now literal 0 }
    {
        PlacesWith {
            places: *self,
            literal,
            next: self.heads[literal as usize] as usize,
        }
    }
}

// The paired places with one literal, the last one first. `next` is counted from 1, and 0 where none is left.
#[derive(Drop)]
pub struct PlacesWith<'a> {
    pub places: PairedPlaces<'a>,
    pub literal: u32,
    pub next: usize,
    ghost low: { next ≤ length places.list.codes.now },
    ghost paired: { 0 < next → is_paired_at places.list.codes.now literal (next - 1) ≡ true },
}

impl<'a> Iterator for PlacesWith<'a> {
    ghost use Rattle.gates.specs.Paired.{GivesPlace};

    type Item = usize;

    ghost next_gives = { GivesPlace };

    ghost remaining = { λ s. at_most s.next };

    fn next(&mut self) -> Option<usize> {
        if self.next == 0 {
            return None;
        }
        let place = self.next - 1;
        self.next = self.places.chain[place] as usize;
        Some(place)
    }
}

// The mask of the places other than p in a clause of three literals that starts at b.
fn others_mask(b: usize, p: usize) -> u32
    requires { (b ≤ p) × (p < b + 3) }
    ensures { result ≡ 7 - 2 ^ (p - b) }
{
    match p - b {
        0 => 6,
        1 => 5,
        _ => 3,
    }
}

impl Clause<'_> {
    // Whether the clause, which is the first with its three literals, is present with the literals inverted that are not at p.
    fn is_paired(&self, p: usize) -> bool
        requires kind { kind_of self.now.list.codes.now self.now.start ≡ Three }
        requires literal_at { LiteralAt self.now.list.codes.now self.now.start p }
        ensures { result ≡ is_paired self.now.list.codes.now p }
    {
        let b = self.start;
        let literals = &self.list.codes[b..b + 3];
        self.list.is_present(literals, others_mask(b, p))
    }
}

// The chains of the paired places, from heads that are all 0.
pub fn chain_paired(kinds: &ClauseKinds, heads: &mut [u32], chain: &mut [u32])
    requires room { Room kinds.now.list.codes.now (length heads.old) (length chain.old) }
    requires heads_value { heads.old ≡ replicate (length heads.old) 0 }
    ensures { PlacesChained kinds.now.list.codes.now (length kinds.now.list.codes.now) heads.new chain.new }
{
    let codes = kinds.list.codes;
    for clause in kinds.list.clauses() {
        if kinds.kinds[clause.start] == Kind::Three {
            for p in clause.start..clause.end {
                if clause.is_paired(p) {
                    link(codes[p] as usize, p, heads, chain);
                }
            }
        }
    }
}

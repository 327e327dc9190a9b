// The hubs: the sides with one select and one output are in one chain. The chains are made once for a row of clauses.

ghost use Rattle.std.specs.Prelude.{◌+◌, ◌*◌, ◌≤◌, ◌<◌, length};
ghost use Rattle.clauses.specs.Chains.{ChainedIn};
ghost use Rattle.closure.specs.Marked.{MarkedOfSome};
ghost use Rattle.closure.specs.IteSides.{InHub, Hubs};

use crate::ite_sides::{is_side, output_of, pair_key, select_of};
use clauses::chain::link;

// For a bucket of selects and outputs its last side, and for a side the one before it; both are counted from 1, and 0 ends a chain.
#[derive(Drop)]
pub struct SideHubs<const NUMBERS: usize, const BUCKETS: usize> {
    pub heads: [u32; BUCKETS],
    pub links: [u32; NUMBERS],
}

impl<const NUMBERS: usize, const BUCKETS: usize> SideHubs<NUMBERS, BUCKETS> {
    // Puts number s into its chain, if it is a side.
    fn link_side(&mut self, codes: &[u32], marks: &[u8], s: usize)
        requires marked_of_some { MarkedOfSome codes.now marks.now × (s < 2 * length codes.now) }
        requires sizes { (0 < BUCKETS) × (2 * length codes.now ≤ NUMBERS) × (NUMBERS ≤ 4294967295) }
        requires chained_in { ChainedIn (InHub codes.now marks.now BUCKETS) s self.old.heads self.old.links }
        ensures { ChainedIn (InHub codes.now marks.now BUCKETS) (s + 1) self.new.heads self.new.links }
    {
        if !is_side(codes, marks, s) {
            return;
        }
        let key = pair_key(select_of(codes, s), output_of(codes, s));
        let b = (key % (BUCKETS as u64)) as usize;
        link(b, s, &mut self.heads, &mut self.links);
    }

    // Hubs without a side.
    pub fn new() -> Self {
        SideHubs {
            heads: [0; BUCKETS],
            links: [0; NUMBERS],
        }
    }

    // Makes the chains of all sides.
    pub fn chain(&mut self, codes: &[u32], marks: &[u8])
        requires marked_of_some { MarkedOfSome codes.now marks.now }
        requires sizes { (0 < BUCKETS) × (2 * length codes.now ≤ NUMBERS) × (NUMBERS ≤ 4294967295) }
        ensures { Hubs codes.now marks.now self.new }
    {
        self.heads.fill(0);
        for s in 0..2 * codes.len() {
            self.link_side(codes, marks, s);
        }
    }
}

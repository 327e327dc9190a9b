// What the tests of a row's entries need to know, gathered in one pass.

ghost use Rattle.std.specs.Prelude.{◌≡◌, ◌<◌, ◌≤◌, nat_abs, length};
ghost use Rattle.clauses.specs.Tally.{start, step, tally_of};

use crate::entry::magnitude;
use crate::walk::{Walk, next};

// Of the entries so far: how many; the index of the first one over V, or their number; how many are 0; whether the last
// one is 0 or there is none.
#[derive(Clone, Copy, Debug, PartialEq, Eq)]
pub struct EntryTally {
    pub entries: usize,
    pub within: usize,
    pub zeros: usize,
    pub ended: bool,
}

impl EntryTally {
    pub fn start() -> EntryTally
        ensures { result ≡ start }
    {
        EntryTally {
            entries: 0,
            within: 0,
            zeros: 0,
            ended: true,
        }
    }

    // One entry more, of magnitude m.
    #[tactic(auto, using(crate::proofs::Tallies::counted), unfolding(crate::specs::Tally::step))]
    pub fn add(self, v: u32, m: u32) -> EntryTally
        requires zeros_le_entries { self.zeros ≤ self.entries }
        requires entries_bound { self.entries < 18446744073709551615 }
        ensures { result ≡ step v self m }
    {
        let fits = self.within == self.entries && m <= v;
        EntryTally {
            entries: self.entries + 1,
            within: self.within + usize::from(fits),
            zeros: self.zeros + usize::from(m == 0),
            ended: m == 0,
        }
    }
}

// The tally of a row.
#[tactic(auto, using(crate::proofs::Tallies::row_tallies))]
pub fn tally_row(v: u32, row: &[i32]) -> EntryTally
    ensures { result ≡ tally_of v row.now }
{
    let mut tally = EntryTally::start();
    let mut walk = Walk { row, at: 0 };
    while walk.at < row.len() {
        tally = tally.add(v, magnitude(next(&mut walk)));
    }
    tally
}

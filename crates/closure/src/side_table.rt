// A table of sides that is kept from round to round. Of the sides with one select, output and key at most two are entered in a round, with different literals t: where another one of them makes an ITE, one of these does with the same output.

ghost use Rattle.std.specs.Prelude.{◌≡◌, true, List, ℕ, ◌+◌, ◌*◌, ◌/◌, ◌≤◌, ◌<◌, get_or};
ghost use Rattle.rules.specs.Answer.{lead_of};
ghost use Rattle.closure.specs.Passing.{Tells};
ghost use Rattle.closure.specs.Xors.{LeadRow};
ghost use Rattle.closure.specs.Entered.{Keeps};
ghost use Rattle.closure.specs.IteSides.{InThree, select_at, output_at, IsSide, pair_key};
ghost use Rattle.closure.specs.SideTable.{like_of, mate_bucket, SideTable, IsEntry, LastEntry, MatesFrom, StoodFor};

use crate::ite_sides::{output_of, pair_key, select_of, then_of};
use crate::lead::lead_of;
use crate::table::KeyTable;
use clauses::chain::link;

// The entries by their keys, and chained by select, output and key, where mates are found; links are entries counted from 1, and 0 ends a chain.
#[derive(Drop)]
pub struct KeptSides<const ENTRIES: usize, const BUCKETS: usize> {
    pub table: KeyTable<ENTRIES, BUCKETS>,
    pub mate_next: [u32; ENTRIES],
    pub mate_heads: [u32; BUCKETS],
}

// The key of the leads of a select and a literal t.
pub fn like_key(old: &[u32], c: u32, t: u32) -> u64
    ensures { result ≡ pair_key (lead_of old.now c) (lead_of old.now t) }
{
    pair_key(lead_of(old, c), lead_of(old, t))
}

// The bucket, of m, of a select, an output and a key.
fn mate_bucket(c: u32, l: u32, like: u64, m: usize) -> usize
    requires { 0 < m }
    ensures { (result ≡ mate_bucket m c l like) × (result < m) }
{
    let key = like % 4294967291 + c as u64 * 31 + l as u64 * 1009;
    (key % (m as u64)) as usize
}

impl<const ENTRIES: usize, const BUCKETS: usize> KeptSides<ENTRIES, BUCKETS> {
    // A table with no entry.
    pub fn new() -> Self
        requires { 0 < BUCKETS }
        ensures { result.table.count ≡ 0 }
    {
        KeptSides {
            table: KeyTable::new(),
            mate_next: [0; ENTRIES],
            mate_heads: [0; BUCKETS],
        }
    }

    // There is no entry any more.
    pub fn clear(&mut self)
        requires { 0 < BUCKETS }
        ensures count { self.new.table.count ≡ 0 }
        ensures table { (codes : List ℕ) (marks : List ℕ) (old : List ℕ) → SideTable codes marks old self.new }
    {
        self.table.clear();
        self.mate_heads.fill(0);
    }

    // Whether there is room for the sides of clauses with so many entries in the row, three for two.
    pub fn has_room(&self, entries: usize) -> bool
        requires { entries ≤ 4294967295 }
        ensures { result ≡ true → 2 * self.now.table.count + 3 * entries ≤ 2 * ENTRIES }
    {
        self.table.has_room((3 * entries + 1) / 2)
    }

    // Whether entry `at` has this select, output and key.
    fn is_entry(&self, codes: &[u32], at: usize, c: u32, l: u32, like: u64) -> bool
        requires { (at < ENTRIES) × InThree codes.now (get_or self.now.table.values at 0 / 2) }
        ensures { Tells (IsEntry codes.now self.now.table c l like at) result }
    {
        if self.table.keys[at] != like {
            return false;
        }
        let s = self.table.values[at] as usize;
        if select_of(codes, s) != c {
            return false;
        }
        output_of(codes, s) == l
    }

    // The last entry with this select, output and key in a chain from entry `from` on, counted from 1.
    pub fn last_along(&self, codes: &[u32], from: usize, c: u32, l: u32, like: u64) -> Option<usize>
        requires { (bound : ℕ) × MatesFrom codes.now self.now c l like bound from }
        ensures { (bound : ℕ) → MatesFrom codes.now self.now c l like bound from → LastEntry codes.now self.now.table c l like bound result }
    {
        let mut k = from;
        while 0 < k {
            if self.is_entry(codes, k - 1, c, l, like) {
                return Some(k - 1);
            }
            k = self.mate_next[k - 1] as usize;
        }
        None
    }

    // The last entry with this select, output and key.
    pub fn last_entry(&self, codes: &[u32], c: u32, l: u32, like: u64) -> Option<usize>
        requires { (marks : List ℕ) × (old : List ℕ) × SideTable codes.now marks old self.now }
        ensures { LastEntry codes.now self.now.table c l like self.now.table.count result }
    {
        let b = mate_bucket(c, l, like, BUCKETS);
        self.last_along(codes, self.mate_heads[b] as usize, c, l, like)
    }

    // The entry before entry k with this select, output and key, which it has too.
    fn entry_before(&self, codes: &[u32], k: usize, c: u32, l: u32, like: u64) -> Option<usize>
        requires { ((marks : List ℕ) × (old : List ℕ) × SideTable codes.now marks old self.now) × (k < self.now.table.count) × IsEntry codes.now self.now.table c l like k }
        ensures { LastEntry codes.now self.now.table c l like k result }
    {
        self.last_along(codes, self.mate_next[k] as usize, c, l, like)
    }

    // Whether entries stand for side s with this key: one has its literal t, or two have different ones.
    fn stands_for(&self, codes: &[u32], s: usize, like: u64) -> bool
        requires { InThree codes.now (s / 2) × ((marks : List ℕ) × (old : List ℕ) × SideTable codes.now marks old self.now) }
        ensures { result ≡ true → (old : List ℕ) → like ≡ like_of codes.now old s → StoodFor codes.now old self.now.table s }
    {
        let c = select_of(codes, s);
        let l = output_of(codes, s);
        let Some(k) = self.last_entry(codes, c, l, like) else {
            return false;
        };
        let t = then_of(codes, self.table.values[k] as usize);
        if t == then_of(codes, s) {
            return true;
        }
        let Some(j) = self.entry_before(codes, k, c, l, like) else {
            return false;
        };
        then_of(codes, self.table.values[j] as usize) != t
    }

    // Enters side s, unless entries stand for it.
    pub fn enter(&mut self, codes: &[u32], s: usize, old: &[u32])
        requires by_index { (marks : List ℕ) × SideTable codes.now marks old.now self.old × IsSide codes.now marks s }
        requires lead_row { LeadRow old.now }
        requires count_in_bounds { (self.old.table.count < ENTRIES) × (ENTRIES ≤ 4294967295) × (s < 4294967296) }
        ensures table { (marks : List ℕ) → SideTable codes.now marks old.now self.old → IsSide codes.now marks s → SideTable codes.now marks old.now self.new }
        ensures stood { StoodFor codes.now old.now self.new.table s }
        ensures stays { Keeps self.old.table self.new.table × (self.new.table.count ≤ self.old.table.count + 1) }
    {
        let c = select_of(codes, s);
        let like = like_key(old, c, then_of(codes, s));
        if self.stands_for(codes, s, like) {
            return;
        }
        let b = mate_bucket(c, output_of(codes, s), like, BUCKETS);
        link(
            b,
            self.table.count,
            &mut self.mate_heads,
            &mut self.mate_next,
        );
        self.table.enter(like, s as u32);
    }
}

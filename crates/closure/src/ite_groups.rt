// Rule 8: ITEs whose selects and data have the same leads, by groups of entries with one key. The second sides of an entry's ITEs are in the hub of the inverse select.

ghost use Rattle.std.specs.Prelude.{◌≡◌, true, List, ℕ, ◌+◌, ◌-◌, ◌*◌, ◌/◌, ◌≤◌, ◌<◌, length, get_or};
ghost use Rattle.closure.specs.Passing.{Tells};
ghost use Rattle.closure.specs.Marked.{Ready, Went};
ghost use Rattle.closure.specs.IteSides.{InThree, IsSide, Pair, Hubs};
ghost use Rattle.closure.specs.SideTable.{SideGroups, GroupJoined};
ghost use Rattle.closure.specs.IteGroups.{Alike, Held, Holders, Served, Matching, Matchable, IsLast, OneOutput};

use crate::hubs::SideHubs;
use crate::ite_sides::{output_of, pair_key, select_of, then_of};
use crate::lead::lead_of;
use crate::table::KeyTable;
use crate::tally::Tally;
use clauses::sign::flipped;

// Whether sides k and j make an ITE.
fn is_pair(codes: &[u32], k: usize, j: usize) -> bool
    requires { InThree codes.now (k / 2) × InThree codes.now (j / 2) }
    ensures { (marks : List ℕ) → IsSide codes.now marks k → IsSide codes.now marks j → Tells (Pair codes.now marks k j) result }
{
    if select_of(codes, j) != flipped(true, select_of(codes, k)) {
        return false;
    }
    if output_of(codes, j) != output_of(codes, k) {
        return false;
    }
    then_of(codes, j) != flipped(true, then_of(codes, k))
}

// Whether the selects of sides i and k have one old lead, and their literals t too.
fn is_alike(codes: &[u32], old: &[u32], i: usize, k: usize) -> bool
    requires { InThree codes.now (i / 2) × InThree codes.now (k / 2) }
    ensures { Tells (Alike codes.now old.now i k) result }
{
    if lead_of(old, select_of(codes, i)) != lead_of(old, select_of(codes, k)) {
        return false;
    }
    lead_of(old, then_of(codes, i)) == lead_of(old, then_of(codes, k))
}

// Whether a holder f is a side like k, counted from 1.
fn is_held(codes: &[u32], old: &[u32], k: usize, f: usize) -> bool
    requires { InThree codes.now (k / 2) × (0 < f → InThree codes.now ((f - 1) / 2)) }
    ensures { Tells (Held codes.now old.now k f) result }
{
    if f == 0 {
        return false;
    }
    is_alike(codes, old, k, f - 1)
}

// Rule 8 for the ITE of sides k and j and the side that holds the lead of its e: their outputs are joined, or k becomes the holder.
fn match_pair(
    codes: &[u32],
    k: usize,
    j: usize,
    old: &[u32],
    holders: &mut [u32],
    new: &mut [u32],
    t: Tally,
) -> Tally
    requires { (marks : List ℕ) × Ready codes.now marks old.now new.old t × Holders codes.now marks old.now holders.old × Pair codes.now marks k j }
    ensures { (marks : List ℕ) → Ready codes.now marks old.now new.old t → Holders codes.now marks old.now holders.old → Pair codes.now marks k j
        → Matching codes.now marks old.now k holders.old new.old t holders.new new.new result
        × Served codes.now old.now holders.new new.new result k j }
{
    let y = lead_of(old, then_of(codes, j)) as usize;
    let f = holders[y] as usize;
    if is_held(codes, old, k, f) {
        return t.join(new, output_of(codes, k), output_of(codes, f - 1));
    }
    holders[y] = (k + 1) as u32;
    t
}

// .. for all ITEs whose first side is k.
fn match_side<const NUMBERS: usize, const BUCKETS: usize>(
    codes: &[u32],
    k: usize,
    hubs: &SideHubs<NUMBERS, BUCKETS>,
    old: &[u32],
    holders: &mut [u32],
    new: &mut [u32],
    tally: Tally,
) -> Tally
    requires { (marks : List ℕ) × Matchable codes.now marks hubs.now old.now holders.old new.old tally × IsSide codes.now marks k }
    ensures { (marks : List ℕ) → Matchable codes.now marks hubs.now old.now holders.old new.old tally → IsSide codes.now marks k
        → Matching codes.now marks old.now k holders.old new.old tally holders.new new.new result
        × ((j : ℕ) → Pair codes.now marks k j → Served codes.now old.now holders.new new.new result k j) }
{
    let mut t = tally;
    let c = flipped(true, select_of(codes, k));
    let key = pair_key(c, output_of(codes, k));
    let b = (key % (BUCKETS as u64)) as usize;
    let mut j = hubs.heads[b] as usize;
    while 0 < j {
        if is_pair(codes, k, j - 1) {
            t = match_pair(codes, k, j - 1, old, holders, new, t);
        }
        j = hubs.links[j - 1] as usize;
    }
    t
}

// Whether the new leads join the outputs of the sides in the entries with the key of `last`, the last one of them.
fn has_one_output<const ENTRIES: usize, const BUCKETS: usize>(
    codes: &[u32],
    last: usize,
    sides: &KeyTable<ENTRIES, BUCKETS>,
    new: &[u32],
) -> bool
    requires by_index { (marks : List ℕ) × (old : List ℕ) × SideGroups codes.now marks old sides.now }
    requires last { IsLast sides.now last }
    ensures { result ≡ true → OneOutput codes.now new.now sides.now (get_or sides.now.keys last 0) }
{
    let x = lead_of(new, output_of(codes, sides.values[last] as usize));
    let mut at = sides.slot_before(last);
    while let Some(k) = at {
        if lead_of(new, output_of(codes, sides.values[k] as usize)) != x {
            return false;
        }
        at = sides.slot_before(k);
    }
    true
}

// Rule 8 for the ITEs whose first sides are in the entries with the key of `last`, the last one of them.
fn match_likes<const ENTRIES: usize, const NUMBERS: usize, const BUCKETS: usize>(
    codes: &[u32],
    last: usize,
    sides: &KeyTable<ENTRIES, BUCKETS>,
    hubs: &SideHubs<NUMBERS, BUCKETS>,
    old: &[u32],
    holders: &mut [u32],
    new: &mut [u32],
    tally: Tally,
) -> Tally
    requires by_index { (marks : List ℕ) × Matchable codes.now marks hubs.now old.now holders.old new.old tally × SideGroups codes.now marks old.now sides.now }
    requires last { IsLast sides.now last }
    ensures { (marks : List ℕ) → Matchable codes.now marks hubs.now old.now holders.old new.old tally → SideGroups codes.now marks old.now sides.now
        → Went codes.now marks old.now new.old tally new.new result
        × Holders codes.now marks old.now holders.new
        × GroupJoined codes.now marks old.now new.new result sides.now (get_or sides.now.keys last 0) }
{
    let mut t = tally;
    let mut at = Some(last);
    while let Some(k) = at {
        let s = sides.values[k] as usize;
        t = match_side(codes, s, hubs, old, holders, new, t);
        at = sides.slot_before(k);
    }
    t
}

// .. for the entries with the key of entry i, unless a later one has it, or all their outputs are joined.
fn match_group<const ENTRIES: usize, const NUMBERS: usize, const BUCKETS: usize>(
    codes: &[u32],
    i: usize,
    sides: &KeyTable<ENTRIES, BUCKETS>,
    hubs: &SideHubs<NUMBERS, BUCKETS>,
    old: &[u32],
    holders: &mut [u32],
    new: &mut [u32],
    t: Tally,
) -> Tally
    requires by_index { (marks : List ℕ) × Matchable codes.now marks hubs.now old.now holders.old new.old t × SideGroups codes.now marks old.now sides.now }
    requires i_in_bounds { i < sides.now.count }
    ensures { (marks : List ℕ) → Matchable codes.now marks hubs.now old.now holders.old new.old t → SideGroups codes.now marks old.now sides.now
        → Went codes.now marks old.now new.old t new.new result
        × Holders codes.now marks old.now holders.new
        × (IsLast sides.now i → GroupJoined codes.now marks old.now new.new result sides.now (get_or sides.now.keys i 0)) }
{
    if sides.last_slot(sides.keys[i]) != Some(i) {
        return t;
    }
    if has_one_output(codes, i, sides, new) {
        return t;
    }
    match_likes(codes, i, sides, hubs, old, holders, new, t)
}

// .. for the keys of the entries from number `from` on: those that have been entered in this round.
#[inline(never)]
pub fn by_groups<const ENTRIES: usize, const NUMBERS: usize, const BUCKETS: usize>(
    codes: &[u32],
    from: usize,
    sides: &KeyTable<ENTRIES, BUCKETS>,
    hubs: &SideHubs<NUMBERS, BUCKETS>,
    old: &[u32],
    holders: &mut [u32],
    new: &mut [u32],
    tally: Tally,
) -> Tally
    requires by_index { (marks : List ℕ) × Ready codes.now marks old.now new.old tally × SideGroups codes.now marks old.now sides.now × Hubs codes.now marks hubs.now }
    requires in_bounds { 2 * length old.now + 2 ≤ length holders.old }
    ensures { (marks : List ℕ) → Ready codes.now marks old.now new.old tally → SideGroups codes.now marks old.now sides.now → Hubs codes.now marks hubs.now
        → Went codes.now marks old.now new.old tally new.new result
        × ((i : ℕ) → from ≤ i → i < sides.now.count → GroupJoined codes.now marks old.now new.new result sides.now (get_or sides.now.keys i 0)) }
{
    let mut t = tally;
    if sides.count <= from {
        return t;
    }
    holders.fill(0);
    for i in from..sides.count {
        t = match_group(codes, i, sides, hubs, old, holders, new, t);
    }
    t
}

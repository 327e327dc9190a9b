// The worklist of a round: the clauses of a row that it goes over, by where they start. In the first round these are all clauses, in a later one those of which a lead has become a constant, or a lead has changed that a rule about their gates reads.

ghost use Rattle.std.specs.Prelude.{◌≡◌, ◌≢◌, ◌⊎◌, false, List, ℕ, ◌≤◌, ◌<◌, length, get_or, take};
ghost use Rattle.clauses.specs.Row.{Starts};
ghost use Rattle.closure.specs.Passing.{FirstOf};
ghost use Rattle.closure.specs.Marked.{Ended};
ghost use Rattle.closure.specs.Occurrences.{net_at};
ghost use Rattle.closure.specs.Worklist.{HasMark, has_moved, OnList, AreStarts, span_of, HoldsChanged, HoldsAll, SeesTold, SeesMovedBelow};
ghost use Rattle.closure.specs.Listing.{IndexOf, Listing, Listed};

use crate::occurrences::Occurrences;
use clauses::place::clause_end;

// Nets of a block that is searched for changes at once.
const BLOCK: usize = 64;

// Whether the leads of two rows of one length differ. The loop has no other end, so that it goes over several at once.
fn differ(older: &[u32], old: &[u32]) -> bool
    requires { length older.now ≡ length old.now }
    ensures { result ≡ false → (w : ℕ) → w < length old.now → has_moved older.now old.now w ≡ false }
{
    let mut any = false;
    for (a, b) in older.iter().zip(old) {
        any |= a != b;
    }
    any
}

// A place from `from` of the leads on, before which none has changed: blocks without a change are left behind.
fn skip_unmoved(older: &[u32], old: &[u32], from: usize) -> usize
    requires { (length older.now ≡ length old.now) × (from ≤ length old.now) }
    ensures { (from ≤ result) × (result ≤ length old.now) × ((w : ℕ) → from ≤ w → w < result → has_moved older.now old.now w ≡ false) }
{
    let mut w = from;
    while BLOCK <= old.len() - w && !differ(&older[w..w + BLOCK], &old[w..w + BLOCK]) {
        w += BLOCK;
    }
    w
}

// The first net from place `from` of the leads on whose lead has changed, by its place.
fn next_moved(older: &[u32], old: &[u32], from: usize) -> Option<usize>
    requires { (length older.now ≡ length old.now) × (from ≤ length old.now) }
    ensures { FirstOf (has_moved older.now old.now) from (length old.now) result }
{
    let unmoved = skip_unmoved(older, old, from);
    (unmoved..old.len()).find(|w| older[*w] != old[*w])
}

// How many clauses are listed, and how many entries of the row they take.
#[derive(Clone, Copy)]
pub struct Work {
    pub clauses: usize,
    pub entries: usize,
}

// A worklist that is being made, in rows that are lent: where the clauses start, and marks at the starts of those that are on it.
pub struct Worklist<'a> {
    pub list: &'a mut [u32],
    pub seen: &'a mut [bool],
    pub work: Work,
}

impl Worklist<'_> {
    // Lists the clause that starts at b, unless it is seen.
    fn list_clause(&mut self, codes: &[u32], b: usize)
        requires ended { Ended codes.now × Starts codes.now b × (length codes.now ≤ 4294967295) }
        requires listing { Listing codes.now self.old }
        ensures listed { Listed codes.now self.old self.new }
        ensures seen { HasMark self.new.seen.now b }
    {
        if self.seen[b] {
            return;
        }
        let e = clause_end(codes, b);
        self.seen[b] = true;
        self.list[self.work.clauses] = b as u32;
        self.work.clauses += 1;
        self.work.entries += e + 1 - b;
    }

    // Lists the clauses of net w to which a change of its lead tells anything: it is a constant, or read.
    fn list_net(&mut self, occurrences: &Occurrences, w: usize, constant: bool)
        requires net { (w ≢ 0) × (w < length occurrences.now.occurs.now) }
        requires listing { Listing occurrences.now.codes.now self.old }
        ensures listed { Listed occurrences.now.codes.now self.old self.new }
        ensures told { SeesTold occurrences.now.codes.now occurrences.now.starts.now occurrences.now.reads.now w constant self.new.seen.now }
    {
        let mut k = occurrences.occurs[w] as usize;
        while 0 < k {
            let at = k - 1;
            if constant || occurrences.reads[at] {
                self.list_clause(occurrences.codes, occurrences.starts[at] as usize);
            }
            k = occurrences.links[at] as usize;
        }
    }

    // Lists the clauses that a round after the first goes over; `older` has the leads before the last round.
    fn list_moved(&mut self, occurrences: &Occurrences, older: &[u32], old: &[u32])
        requires older_len { (length older.now ≡ length old.now) × (length old.now < length occurrences.now.occurs.now) }
        requires listing { Listing occurrences.now.codes.now self.old }
        ensures listed { Listed occurrences.now.codes.now self.old self.new }
        ensures told { SeesMovedBelow occurrences.now.codes.now occurrences.now.starts.now occurrences.now.reads.now older.now old.now (length old.now) self.new.seen.now }
    {
        let mut from = 0;
        while let Some(w) = next_moved(older, old, from) {
            self.list_net(occurrences, w + 1, old[w] < 2);
            from = w + 1;
        }
    }
}

// None of the listed clauses is seen any more.
fn release_list(list: &[u32], seen: &mut [bool])
    requires { (i : ℕ) → i < length list.now → get_or list.now i 0 < length seen.old }
    ensures { (q : ℕ) → (get_or seen.old q false ≡ false) ⊎ OnList list.now q → get_or seen.new q false ≡ false }
{
    for b in list {
        seen[*b as usize] = false;
    }
}

// Lists the clauses that a round after the first goes over; `seen` is lent and given back without marks.
pub fn list_changed(
    occurrences: &Occurrences,
    older: &[u32],
    old: &[u32],
    seen: &mut [bool],
    list: &mut [u32],
) -> Work
    requires older_len { (length older.now ≡ length old.now) × ((q : ℕ) → net_at occurrences.now.codes.now q ≤ length old.now) × (length old.now < length occurrences.now.occurs.now) }
    requires codes_in_bounds { (length occurrences.now.codes.now ≤ length seen.old) × (length occurrences.now.codes.now ≤ length list.old) }
    requires unseen { (q : ℕ) → get_or seen.old q false ≡ false }
    ensures list { (result.clauses ≤ length list.old) × AreStarts occurrences.now.codes.now (take result.clauses list.new) × (result.entries ≡ span_of occurrences.now.codes.now (take result.clauses list.new)) }
    ensures holds { (marks : List ℕ) → IndexOf occurrences.now marks → HoldsChanged occurrences.now.codes.now marks older.now old.now (take result.clauses list.new) }
    ensures seen { (q : ℕ) → get_or seen.new q false ≡ false }
    ensures room { result.entries ≤ length occurrences.now.codes.now }
{
    let mut worklist = Worklist {
        list,
        seen,
        work: Work {
            clauses: 0,
            entries: 0,
        },
    };
    worklist.list_moved(occurrences, older, old);
    let Worklist { list, seen, work } = worklist;
    release_list(&list[..work.clauses], seen);
    work
}

// Lists all clauses.
pub fn list_all(codes: &[u32], list: &mut [u32]) -> Work
    requires { Ended codes.now × (length codes.now ≤ length list.old) × (length codes.now ≤ 4294967295) }
    ensures list { (result.clauses ≤ length list.old) × AreStarts codes.now (take result.clauses list.new) × (result.entries ≡ span_of codes.now (take result.clauses list.new)) }
    ensures holds { HoldsAll codes.now (take result.clauses list.new) }
    ensures room { result.entries ≡ length codes.now }
{
    let mut clauses = 0;
    let mut b = 0;
    while b < codes.len() {
        list[clauses] = b as u32;
        clauses += 1;
        b = clause_end(codes, b) + 1;
    }
    Work {
        clauses,
        entries: codes.len(),
    }
}

// Rule 4: ANDs with equal sets of input leads, matched by a table of keys that is kept from round to round. An AND whose set is new to the table gets a slot, with the place of its output; slots of earlier rounds stay, and match only where the sets are equal now.

ghost use Rattle.std.specs.Prelude.{◌≡◌, List, ℕ, ◌+◌, ◌≤◌, ◌<◌, length, get_or};
ghost use Rattle.clauses.specs.Row.{clause_at, Starts};
ghost use Rattle.closure.specs.Holding.{Blank};
ghost use Rattle.closure.specs.Matching.{AndAt};
ghost use Rattle.closure.specs.Marked.{Ready, Went};
ghost use Rattle.closure.specs.Entered.{Keeps};
ghost use Rattle.closure.specs.Worklist.{AreStarts, span_of};
ghost use Rattle.closure.specs.KeptAnds.{AndTable, Represented, Met, Searched, AndsKnown};

use crate::and_sets::is_alike;
use crate::signature::key_of;
use crate::table::KeyTable;
use crate::tally::Tally;
use clauses::place::clause_end;

// A round that is being made, and whether a slot has the set of the AND at hand.
#[derive(Clone, Copy)]
struct Search {
    tally: Tally,
    known: bool,
}

// Joins the output at p with that of every AND with its set, among the slots with the key.
fn join_alike<const SLOTS: usize, const BUCKETS: usize>(
    codes: &[u32],
    p: usize,
    old: &[u32],
    key: u64,
    ands: &KeyTable<SLOTS, BUCKETS>,
    held: &mut [bool],
    new: &mut [u32],
    tally: Tally,
) -> Search
    requires by_index { (marks : List ℕ) × Ready codes.now marks old.now new.old tally × AndTable codes.now marks ands.now × AndAt codes.now marks p }
    requires blank_2 { Blank held.old }
    ensures searched { (marks : List ℕ) → Ready codes.now marks old.now new.old tally → AndTable codes.now marks ands.now → AndAt codes.now marks p
        → Searched codes.now marks old.now ands.now key p new.old tally new.new result.tally result.known }
    ensures blank { Blank held.new }
{
    let mut t = tally;
    let mut known = false;
    let mut at = ands.last_slot(key);
    while let Some(k) = at {
        let q = ands.values[k] as usize;
        if is_alike(codes, old, q, p, held) {
            t = t.join(new, codes[p], codes[q]);
            known = true;
        }
        at = ands.slot_before(k);
    }
    Search { tally: t, known }
}

// Rule 4 for the AND at p: it is joined with those of its set, or gets a slot.
fn match_and<const SLOTS: usize, const BUCKETS: usize>(
    codes: &[u32],
    p: usize,
    old: &[u32],
    ands: &mut KeyTable<SLOTS, BUCKETS>,
    held: &mut [bool],
    new: &mut [u32],
    tally: Tally,
) -> Tally
    requires by_index { (marks : List ℕ) × Ready codes.now marks old.now new.old tally × AndTable codes.now marks ands.old × AndAt codes.now marks p }
    requires count_in_bounds { (ands.old.count < SLOTS) × (SLOTS ≤ 4294967295) × Blank held.old }
    ensures matched { (marks : List ℕ) → Ready codes.now marks old.now new.old tally → AndTable codes.now marks ands.old → AndAt codes.now marks p
        → Went codes.now marks old.now new.old tally new.new result × AndTable codes.now marks ands.new }
    ensures met { Met codes.now old.now new.new result ands.old p }
    ensures known { Represented codes.now old.now new.new result ands.new p }
    ensures stays { Keeps ands.old ands.new × (ands.new.count ≤ ands.old.count + 1) }
    ensures blank { Blank held.new }
{
    let key = key_of(codes, old, p, held);
    let found = join_alike(codes, p, old, key, ands, held, new, tally);
    if !found.known {
        ands.enter(key, p as u32);
    }
    found.tally
}

// Rule 4 for the ANDs of the clause that starts at b.
fn match_clause<const SLOTS: usize, const BUCKETS: usize>(
    codes: &[u32],
    marks: &[u8],
    b: usize,
    old: &[u32],
    ands: &mut KeyTable<SLOTS, BUCKETS>,
    held: &mut [bool],
    new: &mut [u32],
    tally: Tally,
) -> Tally
    requires ready { Ready codes.now marks.now old.now new.old tally × Starts codes.now b }
    requires and_table { AndTable codes.now marks.now ands.old }
    requires b_bound { (ands.old.count + length (clause_at codes.now b) ≤ SLOTS) × (SLOTS ≤ 4294967295) × Blank held.old }
    ensures went { Went codes.now marks.now old.now new.old tally new.new result }
    ensures table { AndTable codes.now marks.now ands.new }
    ensures known { (list : List ℕ) (i : ℕ) → get_or list i 0 ≡ b
        → AndsKnown codes.now marks.now old.now new.old tally list i ands.old
        → AndsKnown codes.now marks.now old.now new.new result list (i + 1) ands.new }
    ensures few { ands.new.count ≤ ands.old.count + length (clause_at codes.now b) }
    ensures blank { Blank held.new }
{
    let mut t = tally;
    let e = clause_end(codes, b);
    for p in b..e {
        if marks[p] % 2 == 1 {
            t = match_and(codes, p, old, ands, held, new, t);
        }
    }
    t
}

// Rule 4 for the ANDs of the listed clauses, with a table that is kept.
#[inline(never)]
pub fn by_and_pairs<const SLOTS: usize, const BUCKETS: usize>(
    codes: &[u32],
    marks: &[u8],
    list: &[u32],
    old: &[u32],
    ands: &mut KeyTable<SLOTS, BUCKETS>,
    held: &mut [bool],
    new: &mut [u32],
    tally: Tally,
) -> Tally
    requires ready { Ready codes.now marks.now old.now new.old tally }
    requires are_starts { AreStarts codes.now list.now }
    requires and_table { AndTable codes.now marks.now ands.old }
    requires ands_known { AndsKnown codes.now marks.now old.now new.old tally list.now 0 ands.old }
    requires list_in_bounds { (ands.old.count + span_of codes.now list.now ≤ SLOTS) × (SLOTS ≤ 4294967295) × Blank held.old }
    ensures went { Went codes.now marks.now old.now new.old tally new.new result }
    ensures table { AndTable codes.now marks.now ands.new }
    ensures known { AndsKnown codes.now marks.now old.now new.new result list.now (length list.now) ands.new }
    ensures few { ands.new.count ≤ ands.old.count + span_of codes.now list.now }
    ensures blank { Blank held.new }
{
    let mut t = tally;
    for b in list {
        t = match_clause(codes, marks, *b as usize, old, ands, held, new, t);
    }
    t
}

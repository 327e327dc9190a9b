// Rules 5 and 6: XORs are matched by what is left of them without one literal.

ghost use Rattle.std.specs.Prelude.{◌≡◌, List, ℕ, ◌+◌, ◌≤◌, ◌<◌, length, get_or};
ghost use Rattle.clauses.specs.Row.{clause_at, Starts};
ghost use Rattle.closure.specs.Marked.{Ready, Went};
ghost use Rattle.closure.specs.Xors.{Packable};
ghost use Rattle.closure.specs.XorMatching.{join_alone, Placed, Stepped, rest_along, sum_along};
ghost use Rattle.closure.specs.Worklist.{AreStarts, span_of};
ghost use Rattle.closure.specs.KeptXors.{XorTable, XorsKnown};

use crate::nets::rest_of;
use crate::table::KeyTable;
use crate::tally::Tally;
use clauses::place::clause_end;
use clauses::sign::flipped;

// Joins a sum of at most one net to it.
fn join_alone(new: &mut [u32], t: Tally, key: u64, sum: u32) -> Tally
    requires { t.joins < 4294967295 }
    ensures { record { row = new.new; tally = result } ≡ join_alone new.old t key sum }
{
    if key < 65536 {
        return t.join(new, sum, 2 * (key as u32));
    }
    t
}

// Joins a sum to the one in the slot of its key, or gives it a slot.
fn place<const SLOTS: usize, const BUCKETS: usize>(
    xors: &mut KeyTable<SLOTS, BUCKETS>,
    new: &mut [u32],
    t: Tally,
    key: u64,
    sum: u32,
) -> Tally
    requires { (xors.old.count < SLOTS) × (SLOTS ≤ 4294967295) × (t.joins < 4294967295) }
    ensures { Placed key sum xors.old (record { row = new.old; tally = t }) xors.new (record { row = new.new; tally = result }) }
{
    if let Some(k) = xors.last_slot(key) {
        return t.join(new, sum, xors.values[k]);
    }
    xors.enter(key, sum);
    t
}

// Takes one literal of an XOR: what is left of the others is its sum.
fn take_literal<const SLOTS: usize, const BUCKETS: usize>(
    codes: &[u32],
    old: &[u32],
    xors: &mut KeyTable<SLOTS, BUCKETS>,
    new: &mut [u32],
    tally: Tally,
    b: usize,
    n: usize,
    p: usize,
) -> Tally
    requires packable { Packable old.now codes.now b n p }
    requires room { (xors.old.count < SLOTS) × (SLOTS ≤ 4294967295) × (tally.joins < 4294967294) }
    ensures { Stepped (rest_along old.now codes.now b n p).key (sum_along old.now codes.now b n p)
        xors.old (record { row = new.old; tally = tally }) xors.new (record { row = new.new; tally = result }) }
{
    let rest = rest_of(codes, old, b, n, p);
    let sum = flipped(!rest.odd, codes[p]);
    let t = join_alone(new, tally, rest.key, sum);
    place(xors, new, t, rest.key, sum)
}

// Takes each literal of the clause that starts at b, if it stands for an XOR.
fn take_clause<const SLOTS: usize, const BUCKETS: usize>(
    codes: &[u32],
    marks: &[u8],
    b: usize,
    old: &[u32],
    xors: &mut KeyTable<SLOTS, BUCKETS>,
    new: &mut [u32],
    tally: Tally,
) -> Tally
    requires ready { Ready codes.now marks.now old.now new.old tally × Starts codes.now b }
    requires xor_table { XorTable codes.now marks.now old.now xors.old }
    requires b_bound { (xors.old.count + length (clause_at codes.now b) ≤ SLOTS) × (SLOTS ≤ 4294967295) }
    ensures went { Went codes.now marks.now old.now new.old tally new.new result }
    ensures table { XorTable codes.now marks.now old.now xors.new }
    ensures known { (list : List ℕ) (i : ℕ) → get_or list i 0 ≡ b
        → XorsKnown codes.now marks.now old.now new.old tally list i xors.old
        → XorsKnown codes.now marks.now old.now new.new result list (i + 1) xors.new }
    ensures few { xors.new.count ≤ xors.old.count + length (clause_at codes.now b) }
{
    let end = clause_end(codes, b);
    let mut t = tally;
    if marks[end] != 1 {
        return t;
    }
    for p in b..end {
        t = take_literal(codes, old, xors, new, t, b, end - b, p);
    }
    t
}

// Rules 5 and 6 for the XORs of the listed clauses, with a table that is kept.
#[inline(never)]
pub fn by_xors<const SLOTS: usize, const BUCKETS: usize>(
    codes: &[u32],
    marks: &[u8],
    list: &[u32],
    old: &[u32],
    xors: &mut KeyTable<SLOTS, BUCKETS>,
    new: &mut [u32],
    tally: Tally,
) -> Tally
    requires ready { Ready codes.now marks.now old.now new.old tally }
    requires are_starts { AreStarts codes.now list.now }
    requires xor_table { XorTable codes.now marks.now old.now xors.old }
    requires xors_known { XorsKnown codes.now marks.now old.now new.old tally list.now 0 xors.old }
    requires list_in_bounds { (xors.old.count + span_of codes.now list.now ≤ SLOTS) × (SLOTS ≤ 4294967295) }
    ensures went { Went codes.now marks.now old.now new.old tally new.new result }
    ensures table { XorTable codes.now marks.now old.now xors.new }
    ensures known { XorsKnown codes.now marks.now old.now new.new result list.now (length list.now) xors.new }
    ensures few { xors.new.count ≤ xors.old.count + span_of codes.now list.now }
{
    let mut t = tally;
    for b in list {
        t = take_clause(codes, marks, *b as usize, old, xors, new, t);
    }
    t
}

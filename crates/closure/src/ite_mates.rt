// Rule 7: ITEs whose select is a constant, or whose sides have literals with one lead. The sides of the listed clauses are entered in a table that is kept.

ghost use Rattle.std.specs.Prelude.{◌≡◌, List, ℕ, ◌+◌, ◌*◌, ◌≤◌, ◌<◌, length, get_or};
ghost use Rattle.clauses.specs.Row.{clause_at, Starts};
ghost use Rattle.closure.specs.Making.{Kernel, JoinedBy};
ghost use Rattle.closure.specs.Marked.{Ready, Went};
ghost use Rattle.closure.specs.Entered.{Keeps};
ghost use Rattle.closure.specs.Worklist.{AreStarts, span_of};
ghost use Rattle.closure.specs.IteSides.{select_at, output_at, then_at, IsSide};
ghost use Rattle.closure.specs.SideTable.{SideTable, MateAt, SideJoined, StoodFor, SidesKnown};

use crate::ite_sides::{is_side, output_of, select_of, then_of};
use crate::lead::lead_of;
use crate::side_table::{KeptSides, like_key};
use crate::tally::Tally;
use clauses::place::clause_end;
use clauses::sign::flipped;

// Rule 7 for side s, by its select.
fn by_select(codes: &[u32], s: usize, old: &[u32], new: &mut [u32], t: Tally) -> Tally
    requires { (marks : List ℕ) × Ready codes.now marks old.now new.old t × IsSide codes.now marks s }
    ensures went { (marks : List ℕ) → Ready codes.now marks old.now new.old t → IsSide codes.now marks s
        → Went codes.now marks old.now new.old t new.new result }
    ensures joined { Kernel old.now (select_at codes.now s) 1 → JoinedBy new.new result (output_at codes.now s) (then_at codes.now s) }
{
    if lead_of(old, select_of(codes, s)) != 1 {
        return t;
    }
    t.join(new, output_of(codes, s), then_of(codes, s))
}

// Rule 7 for side s and the sides that are entered, by their literals t: a mate has the inverse select, the same output and the same lead of t.
fn by_mate<const ENTRIES: usize, const BUCKETS: usize>(
    codes: &[u32],
    s: usize,
    old: &[u32],
    sides: &KeptSides<ENTRIES, BUCKETS>,
    new: &mut [u32],
    t: Tally,
) -> Tally
    requires { (marks : List ℕ) × Ready codes.now marks old.now new.old t × SideTable codes.now marks old.now sides.now × IsSide codes.now marks s }
    ensures went { (marks : List ℕ) → Ready codes.now marks old.now new.old t → SideTable codes.now marks old.now sides.now → IsSide codes.now marks s
        → Went codes.now marks old.now new.old t new.new result }
    ensures joined { (i : ℕ) → i < sides.now.table.count → MateAt codes.now old.now sides.now.table s i → JoinedBy new.new result (output_at codes.now s) (then_at codes.now s) }
{
    let c = flipped(true, select_of(codes, s));
    let l = output_of(codes, s);
    let u = then_of(codes, s);
    let Some(_) = sides.last_entry(codes, c, l, like_key(old, c, u)) else {
        return t;
    };
    t.join(new, l, u)
}

// Rule 7 for side s, which is entered.
fn take_side<const ENTRIES: usize, const BUCKETS: usize>(
    codes: &[u32],
    s: usize,
    old: &[u32],
    sides: &mut KeptSides<ENTRIES, BUCKETS>,
    new: &mut [u32],
    tally: Tally,
) -> Tally
    requires by_index { (marks : List ℕ) × Ready codes.now marks old.now new.old tally × SideTable codes.now marks old.now sides.old × IsSide codes.now marks s }
    requires count_in_bounds { (sides.old.table.count < ENTRIES) × (ENTRIES ≤ 4294967295) }
    ensures went { (marks : List ℕ) → Ready codes.now marks old.now new.old tally → SideTable codes.now marks old.now sides.old → IsSide codes.now marks s
        → Went codes.now marks old.now new.old tally new.new result }
    ensures table { (marks : List ℕ) → SideTable codes.now marks old.now sides.old → IsSide codes.now marks s → SideTable codes.now marks old.now sides.new }
    ensures joined { SideJoined codes.now old.now new.new result sides.new.table s }
    ensures stood { StoodFor codes.now old.now sides.new.table s }
    ensures stays { Keeps sides.old.table sides.new.table × (sides.new.table.count ≤ sides.old.table.count + 1) }
{
    let t = by_select(codes, s, old, new, tally);
    sides.enter(codes, s, old);
    by_mate(codes, s, old, sides, new, t)
}

// Rule 7 for the sides of the clause that starts at b.
fn take_clause<const ENTRIES: usize, const BUCKETS: usize>(
    codes: &[u32],
    marks: &[u8],
    b: usize,
    old: &[u32],
    sides: &mut KeptSides<ENTRIES, BUCKETS>,
    new: &mut [u32],
    tally: Tally,
) -> Tally
    requires ready { Ready codes.now marks.now old.now new.old tally × Starts codes.now b }
    requires side_table { SideTable codes.now marks.now old.now sides.old }
    requires b_bound { (2 * sides.old.table.count + 3 * (length (clause_at codes.now b) + 1) ≤ 2 * ENTRIES) × (ENTRIES ≤ 4294967295) }
    ensures went { Went codes.now marks.now old.now new.old tally new.new result }
    ensures table { SideTable codes.now marks.now old.now sides.new }
    ensures known { (list : List ℕ) (i : ℕ) → get_or list i 0 ≡ b
        → SidesKnown codes.now marks.now old.now new.old tally list i sides.old.table
        → SidesKnown codes.now marks.now old.now new.new result list (i + 1) sides.new.table }
    ensures stays { Keeps sides.old.table sides.new.table }
    ensures few { 2 * sides.new.table.count ≤ 2 * sides.old.table.count + 3 * (length (clause_at codes.now b) + 1) }
{
    let e = clause_end(codes, b);
    let mut t = tally;
    if e - b != 3 {
        return t;
    }
    for s in 2 * b..2 * e {
        if is_side(codes, marks, s) {
            t = take_side(codes, s, old, sides, new, t);
        }
    }
    t
}

// Rule 7 for the sides of the listed clauses, which are entered.
#[inline(never)]
pub fn by_sides<const ENTRIES: usize, const BUCKETS: usize>(
    codes: &[u32],
    marks: &[u8],
    list: &[u32],
    old: &[u32],
    sides: &mut KeptSides<ENTRIES, BUCKETS>,
    new: &mut [u32],
    tally: Tally,
) -> Tally
    requires ready { Ready codes.now marks.now old.now new.old tally }
    requires are_starts { AreStarts codes.now list.now }
    requires side_table { SideTable codes.now marks.now old.now sides.old }
    requires sides_known { SidesKnown codes.now marks.now old.now new.old tally list.now 0 sides.old.table }
    requires list_bound { (2 * sides.old.table.count + 3 * span_of codes.now list.now ≤ 2 * ENTRIES) × (ENTRIES ≤ 4294967295) }
    ensures went { Went codes.now marks.now old.now new.old tally new.new result }
    ensures table { SideTable codes.now marks.now old.now sides.new }
    ensures known { SidesKnown codes.now marks.now old.now new.new result list.now (length list.now) sides.new.table }
    ensures stays { Keeps sides.old.table sides.new.table }
    ensures few { 2 * sides.new.table.count ≤ 2 * sides.old.table.count + 3 * span_of codes.now list.now }
{
    let mut t = tally;
    for b in list {
        t = take_clause(codes, marks, *b as usize, old, sides, new, t);
    }
    t
}

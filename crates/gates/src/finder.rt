// The gates of a clause list.

ghost use Rattle.std.specs.Prelude.{◌≡◌, ◌↔◌, List, map, ℕ, ◌-◌, ◌≤◌, ◌<◌, length, get_or, take, drop};
ghost use Rattle.clauses.specs.Limit.{max_entries};
ghost use Rattle.clauses.specs.Code.{code_of};
ghost use Rattle.clauses.specs.Clause.{Present, clauses_in, clauses_of};
ghost use Rattle.clauses.specs.Row.{SmallEntries};
ghost use Rattle.gates.specs.Counted.{AreCounts};
ghost use Rattle.gates.specs.Found.{Found};
ghost use Rattle.gates.specs.Normal.{normal_row, max_code};

use crate::and::list_twos;
use crate::counts::Counts;
use crate::first::{ClauseKinds, list_kinds};
use crate::index::{BUCKETS, ClauseIndex};
use crate::ites::mark_ites;
use crate::kind::Kind;
use crate::mark::{mark_clauses, mark_pairs};
use crate::prepare::prepare;
use clauses::limits::{CODES, MAX_ENTRIES};

// Entries of the index of clauses.
const INDEX: usize = BUCKETS + MAX_ENTRIES;

// Marks the gates of a row of codes, whatever the marks held, and counts them. The other row is for the literals of clauses of two.
fn mark_gates(list: &ClauseIndex, twos: &mut [u32], marks: &mut [u8]) -> Counts
    requires max_code_in_bounds { max_code < length twos.old }
    requires marks_len { length marks.old ≡ length list.now.codes.now }
    ensures { (cs : List (List ℕ)) → ((c : List ℕ) → Present cs c ↔ Present (clauses_in list.now.codes.now) c)
        → Found cs list.now.codes.now marks.new × AreCounts cs result.ands result.xors result.ites }
{
    let mut kinds = [Kind::Other; MAX_ENTRIES];
    let mut counts = Counts::default();
    marks.fill(0);
    list_kinds(list, &mut kinds);
    list_twos(list, twos);
    let kinds = ClauseKinds {
        list: *list,
        kinds: &kinds,
    };
    mark_clauses(&kinds, twos, marks, &mut counts);
    mark_ites(&kinds, marks, &mut counts);
    mark_pairs(list, marks);
    counts
}

// What has been found: how many entries the row of codes has, and how many gates there are.
#[derive(Clone, Copy)]
pub struct Finding {
    pub entries: usize,
    pub counts: Counts,
}

// Writes the normal form of a row at the start of the codes, and the marks of its gates at the start of the marks. Besides what
// is lent it uses 57,352 numbers and 16,384 bytes of its own, 245,792 bytes.
pub fn find_gates(row: &[i32], codes: &mut [u32], marks: &mut [u8]) -> Finding
    requires row_len_bound { length row.now ≤ max_entries }
    requires row_in_bounds { length row.now ≤ length codes.old }
    requires row_in_bounds_2 { length row.now ≤ length marks.old }
    requires small_entries { SmallEntries row.now }
    requires row_value { get_or (map code_of row.now) (length row.now - 1) 0 ≡ 0 }
    ensures entries_value { result.entries ≡ length (normal_row row.now) }
    ensures codes_after { take (length (normal_row row.now)) codes.new ≡ normal_row row.now }
    ensures found { Found (clauses_of row.now) (normal_row row.now) (take (length (normal_row row.now)) marks.new) }
    ensures marks_unchanged { drop (length (normal_row row.now)) marks.new ≡ drop (length (normal_row row.now)) marks.old }
    ensures are_counts { AreCounts (clauses_of row.now) result.counts.ands result.counts.xors result.counts.ites }
{
    let mut index = [0u32; INDEX];
    let mut seen = [0u32; CODES];
    let n = prepare(row, codes, &mut index, &mut seen);
    let list = ClauseIndex {
        codes: &codes[..n],
        index: &index,
    };
    let counts = mark_gates(&list, &mut seen, &mut marks[..n]);
    Finding { entries: n, counts }
}

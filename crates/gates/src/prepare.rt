// The clause list made ready for searching.

ghost use Rattle.std.specs.Prelude.{◌≡◌, map, ◌+◌, ◌-◌, ◌<◌, ◌≤◌, length, get_or, take};
ghost use Rattle.clauses.specs.Limit.{max_entries};
ghost use Rattle.clauses.specs.Code.{code_of};
ghost use Rattle.clauses.specs.Row.{SmallEntries};
ghost use Rattle.gates.specs.Normal.{normal_row, max_code};
ghost use Rattle.gates.specs.Index.{buckets, Indexed};

use crate::index::make_index;
use crate::normal::normalise;

// Writes the normal form of a row at the start of the codes, and its index; answers how many entries the normal form has.
pub fn prepare(row: &[i32], codes: &mut [u32], index: &mut [u32], seen: &mut [u32]) -> usize
    requires row_len_bound { length row.now ≤ max_entries }
    requires row_in_bounds { length row.now ≤ length codes.old }
    requires row_in_bounds_2 { buckets + length row.now ≤ length index.old }
    requires max_code_in_bounds { max_code < length seen.old }
    requires small_entries { SmallEntries row.now }
    requires row_value { get_or (map code_of row.now) (length row.now - 1) 0 ≡ 0 }
    ensures value { result ≡ length (normal_row row.now) }
    ensures codes_after { take (length (normal_row row.now)) codes.new ≡ normal_row row.now }
    ensures indexed { Indexed (normal_row row.now) index.new }
{
    let n = normalise(row, codes, seen);
    make_index(&codes[..n], index);
    n
}

// The clause list in normal form, as a row of codes.

ghost use Rattle.std.specs.Prelude.{◌≡◌, map, ◌+◌, ◌-◌, ◌<◌, ◌≤◌, nat_abs, length, get_or, take};
ghost use Rattle.clauses.specs.Limit.{max_nets, max_entries};
ghost use Rattle.clauses.specs.Code.{code_of};
ghost use Rattle.clauses.specs.Row.{clause_at, SmallEntries};
ghost use Rattle.gates.specs.Normal.{normal_row, max_code, Older, gather_on, GatheredClause};

use clauses::entry::code;
use clauses::sign::inverse;
use clauses::walk::{Walk, next};

// Of the literals of a clause that were gathered: the place behind them in the row, the place behind those that were put, and
// whether a net and its inverse are among them.
#[derive(Clone, Copy)]
struct Gathered {
    end: usize,
    put: usize,
    ignored: bool,
}

// One literal more: it is put among the codes, unless it has the stamp already, and gets the stamp.
fn gather_literal(t: Gathered, x: i32, codes: &mut [u32], seen: &mut [u32], stamp: u32) -> Gathered
    requires { (t.put ≤ t.end) × (t.end < length codes.old) × (nat_abs x ≤ max_nets) × (max_code < length seen.old) }
    ensures { record { gathered = result; codes = codes.new; seen = seen.new } ≡ gather_on (code_of x) stamp (record { gathered = t; codes = codes.old; seen = seen.old }) }
{
    let y = code(x);
    let ignored = seen[inverse(y) as usize] == stamp || t.ignored;
    let mut put = t.put;
    if seen[y as usize] != stamp {
        codes[put] = y;
        put += 1;
    }
    seen[y as usize] = stamp;
    Gathered {
        end: t.end + 1,
        put,
        ignored,
    }
}

// Gathers the clause at b: puts its literals, each once, at place n of the codes. They are marked with the stamp.
fn gather_clause(
    row: &[i32],
    b: usize,
    codes: &mut [u32],
    n: usize,
    seen: &mut [u32],
    stamp: u32,
) -> Gathered
    requires { (n ≤ b) × (length row.now ≤ length codes.old) × SmallEntries row.now × (max_code < length seen.old) × Older seen.old stamp }
    ensures { GatheredClause (clause_at (map code_of row.now) b) b n stamp codes.old (record { gathered = result; codes = codes.new; seen = seen.new }) }
{
    let mut gathered = Gathered {
        end: b,
        put: n,
        ignored: false,
    };
    let mut walk = Walk { row, at: b };
    loop {
        let x = next(&mut walk);
        if x == 0 {
            return gathered;
        }
        gathered = gather_literal(gathered, x, codes, seen, stamp);
    }
}

// Writes the clauses of a row that are not ignored, each literal once, at the start of the codes; answers how many entries.
pub fn normalise(row: &[i32], codes: &mut [u32], seen: &mut [u32]) -> usize
    requires row_len_bound { length row.now ≤ max_entries }
    requires row_in_bounds { length row.now ≤ length codes.old }
    requires max_code_in_bounds { max_code < length seen.old }
    requires small_entries { SmallEntries row.now }
    requires row_value { get_or (map code_of row.now) (length row.now - 1) 0 ≡ 0 }
    ensures value { result ≡ length (normal_row row.now) }
    ensures codes_after { take result codes.new ≡ normal_row row.now }
{
    seen.fill(0);
    let mut n = 0;
    let mut b = 0;
    while b < row.len() {
        let gathered = gather_clause(row, b, codes, n, seen, (b as u32) + 1);
        if !gathered.ignored {
            codes[gathered.put] = 0;
            n = gathered.put + 1;
        }
        b = gathered.end + 1;
    }
    n
}

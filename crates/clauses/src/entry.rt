// The signed entries of a literal row: their magnitudes, signs and codes, and how they are stored.

ghost use Rattle.std.specs.Prelude.{◌≡◌, ◌<◌, ◌≤◌, nat_abs, set};
ghost use Rattle.std.specs.Int.{is_negative};
ghost use Rattle.clauses.specs.Code.{code_of};
ghost use Rattle.clauses.specs.Limit.{max_nets};
ghost use Rattle.clauses.specs.Number.{signed};

// The magnitude of any entry, -2,147,483,648 too.
pub fn magnitude(x: i32) -> u32
    ensures { result ≡ nat_abs x }
{
    x.unsigned_abs()
}

// Whether an entry has a minus.
pub fn is_negative(x: i32) -> bool
    ensures { result ≡ is_negative x }
{
    x.is_negative()
}

// The entry of a sign and a magnitude of at most nine digits.
fn entry_of(minus: bool, m: u32) -> i32
    requires { m < 1000000000 }
    ensures { result ≡ signed minus m }
{
    if minus { -(m as i32) } else { m as i32 }
}

// The literal code of an entry, of a net up to the limit.
#[tactic(auto, using(crate::proofs::Signed::codes))]
pub fn code(x: i32) -> u32
    requires { nat_abs x ≤ max_nets }
    ensures { result ≡ code_of x }
{
    2 * magnitude(x) + is_negative(x) as u32
}

// Stores an entry, given by its sign and a magnitude of at most nine digits, if the row has room for it.
pub fn put_entry(row: &mut [i32], i: usize, minus: bool, m: u32)
    requires { m < 1000000000 }
    ensures { row.new ≡ set row.old i (signed minus m) }
{
    if i < row.len() {
        row[i] = entry_of(minus, m);
    }
}

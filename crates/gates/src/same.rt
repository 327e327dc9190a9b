// Two clauses of a row of codes, compared where they stand.

ghost use Rattle.std.specs.Prelude.{◌≡◌, false, ◌||◌, ◌+◌, ◌≤◌, eqb, length};
ghost use Rattle.clauses.specs.Listing.{within, same_set};
ghost use Rattle.clauses.specs.Row.{clause_at};
ghost use Rattle.gates.specs.Search.{PlaceOf, GoesOn};

use clauses::place::literal;

// Entries of a block.
const BLOCK: usize = 32;

// Whether a search for x stops at an entry: it is x or ends the clause.
fn is_stop(y: u32, x: u32) -> bool
    ensures { result ≡ (eqb y 0 || eqb y x) }
{
    y == 0 || y == x
}

// False only if it goes past all entries from b to end. The loop is not left early, so that the compiler takes several entries at a time.
fn has_stop(codes: &[u32], b: usize, end: usize, x: u32) -> bool
    requires { (b ≤ end) × (end ≤ length codes.now) }
    ensures { result ≡ false → GoesOn codes.now x b end }
{
    let mut found = false;
    for y in &codes[b..end] {
        if is_stop(*y, x) {
            found = true;
        }
    }
    found
}

// A place from b on before which it does not stop: blocks without a stop are left behind.
fn skip_blocks(codes: &[u32], b: usize, x: u32) -> usize
    ensures { GoesOn codes.now x b result }
{
    let n = codes.len();
    let mut i = b;
    while i < n && BLOCK <= n - i && !has_stop(codes, i, i + BLOCK, x) {
        i += BLOCK;
    }
    i
}

// A place of x in the clause at b, or the clause's end if x is none of its literals.
fn place_of(codes: &[u32], b: usize, x: u32) -> usize
    ensures { PlaceOf codes.now b x result }
{
    let mut i = skip_blocks(codes, b, x);
    while !is_stop(literal(codes, i), x) {
        i += 1;
    }
    i
}

// .. `next` is the place behind the literal that was found last. Those on either side of that one are looked at first, so that two clauses with
// one order, or one turned round, take a step for each literal.
fn place_near(codes: &[u32], b: usize, next: usize, x: u32) -> usize
    requires b_le_next { (b ≤ next) × (next ≤ b + length (clause_at codes.now b)) }
    requires le_x { 1 ≤ x }
    ensures { PlaceOf codes.now b x result }
{
    if literal(codes, next) == x {
        return next;
    }
    if 2 <= next - b && literal(codes, next - 2) == x {
        return next - 2;
    }
    place_of(codes, b, x)
}

// Whether every literal of the clause at a is one of the clause at b.
fn is_within(codes: &[u32], a: usize, b: usize) -> bool
    ensures { result ≡ within (clause_at codes.now a) (clause_at codes.now b) }
{
    let mut i = a;
    let mut next = b;
    loop {
        let x = literal(codes, i);
        if x == 0 {
            return true;
        }
        let p = place_near(codes, b, next, x);
        if literal(codes, p) == 0 {
            return false;
        }
        next = p + 1;
        i += 1;
    }
}

// Whether the clauses that start at a and at b are equal as sets: a repeated literal counts once. A clause ends at its 0 or at the row's end, and
// is empty if it starts past that.
pub fn is_same_set(codes: &[u32], a: usize, b: usize) -> bool
    ensures { result ≡ same_set (clause_at codes.now a) (clause_at codes.now b) }
{
    is_within(codes, a, b) && is_within(codes, b, a)
}

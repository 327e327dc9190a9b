// The sides of the ITEs of a row, by number: those that the marks at place p tell of are numbers 2p and 2p + 1. Side (c, l, t) says that l is t where c is true.

ghost use Rattle.std.specs.Prelude.{◌≡◌, true, cond, ◌+◌, ◌*◌, ◌/◌, ◌<◌, length, get_or};
ghost use Rattle.closure.specs.Marked.{MarkedOfSome};
ghost use Rattle.closure.specs.Passing.{Tells};
ghost use Rattle.closure.specs.IteSides.{InThree, next_to, after_next, select_at, output_at, then_at, tells_of, IsSide};

use clauses::sign::flipped;

// Whether a mark tells of side s.
fn tells_of(s: usize, mark: u8) -> bool
    ensures { result ≡ tells_of s mark }
{
    if s % 2 == 0 {
        return mark / 2 % 2 == 1;
    }
    mark / 4 % 2 == 1
}

// Whether number s is a side.
pub fn is_side(codes: &[u32], marks: &[u8], s: usize) -> bool
    requires { MarkedOfSome codes.now marks.now × (s < 2 * length codes.now) }
    ensures { Tells (IsSide codes.now marks.now s) result }
{
    let p = s / 2;
    if codes[p] == 0 {
        return false;
    }
    tells_of(s, marks[p])
}

// The place after p in its clause of three literals, the first one coming after the last.
fn place_after(codes: &[u32], p: usize) -> usize
    requires { InThree codes.now p }
    ensures place { result ≡ next_to codes.now p }
    ensures in_three { InThree codes.now result }
{
    if codes[p + 1] == 0 {
        return p - 2;
    }
    p + 1
}

// One of the other two literals of its clause: the next one, or the one after it.
fn other(codes: &[u32], p: usize, next: bool) -> u32
    requires { InThree codes.now p }
    ensures { result ≡ get_or codes.now (cond next (next_to codes.now p) (after_next codes.now p)) 0 }
{
    let q = place_after(codes, p);
    if next {
        return codes[q];
    }
    codes[place_after(codes, q)]
}

// The select of side s.
pub fn select_of(codes: &[u32], s: usize) -> u32
    requires { InThree codes.now (s / 2) }
    ensures { result ≡ select_at codes.now s }
{
    flipped(true, codes[s / 2])
}

// Its output.
pub fn output_of(codes: &[u32], s: usize) -> u32
    requires { InThree codes.now (s / 2) }
    ensures { result ≡ output_at codes.now s }
{
    flipped(true, other(codes, s / 2, s % 2 == 0))
}

// Its literal t.
pub fn then_of(codes: &[u32], s: usize) -> u32
    requires { InThree codes.now (s / 2) }
    ensures { result ≡ then_at codes.now s }
{
    other(codes, s / 2, s % 2 == 1)
}

// Two codes as one number.
pub fn pair_key(a: u32, b: u32) -> u64
    ensures { result ≡ a * 4294967296 + b }
{
    a as u64 * 4294967296 + b as u64
}

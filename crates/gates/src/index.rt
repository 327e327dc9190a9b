// The clause index of a row of codes.

ghost use Rattle.std.specs.Prelude.{◌≡◌, ◌+◌, ◌%◌, ◌<◌, ◌≤◌, length};
ghost use Rattle.clauses.specs.Row.{clause_at, Starts};
ghost use Rattle.gates.specs.Normal.{Normal};
ghost use Rattle.gates.specs.Search.{Once};
ghost use Rattle.gates.specs.Index.{share, buckets, bucket_of, is_start, NextIn, Indexed};
ghost use Rattle.gates.specs.Mask.{masked};

use crate::literal::flipped;
use clauses::place::literal;

// The number of buckets (specs/Index.antt).
pub const BUCKETS: usize = 16384;

// A row of codes in normal form, and its index.
#[derive(Clone, Copy)]
pub struct ClauseIndex<'a> {
    pub codes: &'a [u32],
    pub index: &'a [u32],
    ghost normal: { Normal codes.now },
    ghost indexed: { Indexed codes.now index.now },
}

impl ClauseIndex<'_> {
    // Where the first clause of a bucket starts, or the row's length.
    pub fn first_in(&self, bucket: usize) -> usize
        requires { bucket < buckets }
        ensures { NextIn self.now.codes.now bucket 0 result }
    {
        self.index[bucket] as usize
    }

    // .. the next clause of the bucket of the one at b.
    pub fn next_in(&self, b: usize) -> usize
        requires { Starts self.now.codes.now b }
        ensures { NextIn self.now.codes.now (bucket_of (clause_at self.now.codes.now b)) (b + 1) result }
    {
        self.index[BUCKETS + b] as usize
    }
}

// What a literal adds to the sum of its clause.
fn share(x: u32) -> usize
    ensures { result ≡ share x }
{
    let y = (x % 65536) as usize;
    y * (2 * y + 1)
}

// The bucket of a clause that is given by its literals, each once, those inverted whose bit is set in the mask.
pub fn bucket_of(q: &[u32], mask: u32) -> usize
    requires { Once (masked mask q.now) }
    ensures { result ≡ bucket_of (masked mask q.now) }
{
    let mut m = mask;
    let mut sum = 0;
    for x in q {
        sum = (sum + share(flipped(*x, m))) % BUCKETS;
        m /= 2;
    }
    sum
}

// The bucket of the clause at b, whose end is not known: it is found on the way.
fn bucket_at(codes: &[u32], b: usize) -> usize
    requires normal { Normal codes.now }
    requires starts { Starts codes.now b }
    ensures { result ≡ bucket_of (clause_at codes.now b) }
{
    let mut sum = 0;
    let mut i = b;
    loop {
        let x = literal(codes, i);
        if x == 0 {
            return sum;
        }
        sum = (sum + share(x)) % BUCKETS;
        i += 1;
    }
}

// Whether a clause starts at b.
fn is_start(codes: &[u32], b: usize) -> bool
    requires { b < length codes.now }
    ensures { result ≡ is_start codes.now b }
{
    b == 0 || codes[b - 1] == 0
}

// Makes the index of a row of codes, from its last clause to its first.
pub fn make_index(codes: &[u32], index: &mut [u32])
    requires normal { Normal codes.now }
    requires codes_in_bounds { buckets + length codes.now ≤ length index.old }
    ensures { Indexed codes.now index.new }
{
    let n = codes.len();
    index.fill(n as u32);
    for b in (0..n).rev() {
        if is_start(codes, b) {
            let h = bucket_at(codes, b);
            index[BUCKETS + b] = index[h];
            index[h] = b as u32;
        }
    }
}

// The sides of ITEs: which places of a row of codes are marked as such, and how many ITEs there are.

ghost use Rattle.std.specs.Prelude.{◌≡◌, ◌≢◌, true, false, cond, ◌&&◌, ℕ, ◌+◌, ◌*◌, ◌≤◌, ◌<◌, ltb, length, get_or, set};
ghost use Rattle.clauses.specs.Code.{negate, net};
ghost use Rattle.clauses.specs.Lists.{keep};
ghost use Rattle.clauses.specs.Sign.{is_inverse};
ghost use Rattle.clauses.specs.Row.{start_of, around};
ghost use Rattle.gates.specs.Normal.{max_code};
ghost use Rattle.gates.specs.Ites.{in_three, other, is_paired, is_paired_at, halves_at, all_halves, is_half, size_of, side_mark, Sided, SidesAt, pairs_of, Sized};

use crate::counts::{Counts, add_ites};
use crate::first::ClauseKinds;
use crate::index::ClauseIndex;
use crate::paired::{PairedPlaces, chain_paired};
use clauses::limits::{CODES, MAX_ENTRIES};
use clauses::sign::{inverse, is_inverse};

// The place after p in its clause of three literals, the first one coming after the last.
fn next_place(codes: &[u32], p: usize) -> usize
    requires { in_three codes.now p ≡ true }
    ensures { result ≡ around (start_of codes.now p) p }
{
    if codes[p + 1] == 0 { p - 2 } else { p + 1 }
}

// The other two literals of the clause of place p: the next one, and the one after it.
fn other_literals(codes: &[u32], p: usize) -> (u32, u32)
    requires { in_three codes.now p ≡ true }
    ensures next { result.0 ≡ other codes.now p false }
    ensures after { result.1 ≡ other codes.now p true }
{
    let next = next_place(codes, p);
    let after = next_place(codes, next);
    (codes[next], codes[after])
}

// Counts one half more with the output whose inverse is y; z is its side.
fn add_half(sizes: &mut [u32], sides: &mut [u32], y: u32, z: u32)
    requires y_in_bounds { (y < length sizes.old) × (y < length sides.old) }
    requires y_bound { get_or sizes.old y 0 < 4294967295 }
    ensures sizes_after { sizes.new ≡ set sizes.old y (get_or sizes.old y 0 + 1) }
    ensures sides_after { sides.new ≡ set sides.old y z }
{
    let i = y as usize;
    sizes[i] += 1;
    sides[i] = z;
}

impl PairedPlaces<'_> {
    // Counts the halves with literal x by their outputs, from sizes that are all 0.
    fn count_outputs(&self, x: u32, sizes: &mut [u32], sides: &mut [u32])
        requires x_in_bounds { x < length self.now.heads.now }
        requires max_code_in_bounds { (max_code < length sizes.old) × (max_code < length sides.old) }
        requires by_index { (y : ℕ) → get_or sizes.old y 0 ≡ 0 }
        ensures { Sized self.now.list.codes.now x sizes.new sides.new }
    {
        for p in self.with(x) {
            let (y, z) = other_literals(self.list.codes, p);
            add_half(sizes, sides, z, y);
            add_half(sizes, sides, y, z);
        }
    }

    // The sizes of the halves with literal x become 0 again.
    fn clear_outputs(&self, x: u32, sizes: &mut [u32])
        requires x_in_bounds { x < length self.now.heads.now }
        requires max_code_in_bounds { max_code < length sizes.old }
        requires by_index { (y : ℕ) → get_or sizes.old y 0 ≡ size_of self.now.list.codes.now x y (2 * length self.now.list.codes.now) }
        ensures { (y : ℕ) → get_or sizes.new y 0 ≡ 0 }
    {
        for p in self.with(x) {
            let (y, z) = other_literals(self.list.codes, p);
            sizes[z as usize] = 0;
            sizes[y as usize] = 0;
        }
    }
}

impl ClauseIndex<'_> {
    // 1 if there is a half with literal x, the output whose inverse is y, and side z, else 0.
    fn one_half(&self, x: u32, y: u32, z: u32) -> u32
        requires { (net x ≢ net y) × (net x ≢ net z) × (net y ≢ net z) }
        ensures { result ≡ length (keep (is_half self.now.codes.now x y z) (all_halves self.now.codes.now)) }
    {
        let clause = [x, y, z];
        u32::from(self.is_present(&clause, 0) && self.is_present(&clause, 6))
    }
}

// The halves with one literal, counted by their outputs, and of each output the side of one.
#[derive(Clone, Copy)]
struct Halves<'a> {
    places: PairedPlaces<'a>,
    literal: u32,
    sizes: &'a [u32],
    sides: &'a [u32],
    ghost sized: { Sized places.list.codes.now literal sizes.now sides.now },
    ghost max_code_in_bounds: { (max_code < length sizes.now) × (max_code < length sides.now) },
}

// What the mark of a place gets, and how many ITEs with plain select and output have their side t there.
#[derive(Clone, Copy)]
struct Sides {
    mark: u8,
    plain: u32,
}

// The marks of two halves with n and m mates.
fn side_mark(n: u32, m: u32) -> u8
    ensures value { result ≡ cond (ltb 0 n) 2 0 + cond (ltb 0 m) 4 0 }
    ensures upper_bound { result ≤ 6 }
{
    2 * u8::from(0 < n) + 4 * u8::from(0 < m)
}

// n if the inverses of both literals are plain nets.
fn if_plain(x: u32, y: u32, n: u32) -> u32
    ensures value { result ≡ cond (is_inverse x && is_inverse y) n 0 }
    ensures upper_bound { result ≤ n }
{
    if is_inverse(x) && is_inverse(y) { n } else { 0 }
}

impl Halves<'_> {
    // 1 if there is a half with the output whose inverse is y, and the inverse of z for its side, else 0. Where one half has that output, or none,
    // that is known without a search.
    fn one_inverse(&self, y: u32, z: u32) -> u32
        requires y_in_bounds { (y < length self.now.sizes.now) × (y < length self.now.sides.now) }
        requires nets { (net self.now.literal ≢ net y) × (net self.now.literal ≢ net z) × (net y ≢ net z) }
        ensures { result ≡ length (keep (is_half self.now.places.list.codes.now self.now.literal y (negate z)) (all_halves self.now.places.list.codes.now)) }
    {
        let i = y as usize;
        let not_z = inverse(z);
        match self.sizes[i] {
            0 => 0,
            1 => u32::from(self.sides[i] == not_z),
            _ => self.places.list.one_half(self.literal, y, not_z),
        }
    }

    // The sides at a paired place whose literal's inverse the halves have. A half's mates are those with its output, but for the one whose side is
    // the inverse of its own; for both halves of the place that one is of the same clauses.
    fn sides_at(&self, p: usize) -> Sides
        requires p_value { is_paired self.now.places.list.codes.now p ≡ true }
        requires literal { self.now.literal ≡ negate (get_or self.now.places.list.codes.now p 0) }
        ensures mark_value { result.mark ≡ side_mark self.now.places.list.codes.now p }
        ensures plain_value { result.plain ≡ length (pairs_of self.now.places.list.codes.now (halves_at p)) }
        ensures mark_bound { (result.mark ≤ 6) × (result.plain ≤ 65536) }
    {
        let codes = self.places.list.codes;
        let x = codes[p];
        let (y, z) = other_literals(codes, p);
        let inverses = self.one_inverse(y, z);
        let n = self.sizes[y as usize] - inverses;
        let m = self.sizes[z as usize] - inverses;
        Sides {
            mark: side_mark(n, m),
            plain: if_plain(x, y, n) + if_plain(x, z, m),
        }
    }

    // Adds the marks of the sides at the places of the literal x whose inverse the halves have, and counts their ITEs.
    fn mark_places(&self, x: u32, marks: &mut [u8], counts: &mut Counts)
        requires literal { self.now.literal ≡ negate x }
        requires x_in_bounds { x < length self.now.places.heads.now }
        requires marks_in_bounds { (length self.now.places.list.codes.now ≤ length marks.old) × ((p : ℕ) → is_paired_at self.now.places.list.codes.now x p ≡ true → get_or marks.old p 0 < 2) }
        requires ites_bound { counts.old.ites ≤ 1073741824 }
        ensures ands_value { (counts.new.ands ≡ counts.old.ands) × (counts.new.xors ≡ counts.old.xors) }
        ensures sides_at { SidesAt self.now.places.list.codes.now (is_paired_at self.now.places.list.codes.now x) marks.old marks.new counts.old.ites counts.new.ites }
    {
        for p in self.places.with(x) {
            let sides = self.sides_at(p);
            marks[p] += sides.mark;
            add_ites(counts, sides.plain);
        }
    }
}

// Adds the marks of the sides, and counts the ITEs, literal by literal.
fn mark_sides(places: &PairedPlaces, marks: &mut [u8], counts: &mut Counts)
    requires marks_in_bounds { (length places.now.list.codes.now ≤ length marks.old) × ((p : ℕ) → get_or marks.old p 0 < 2) }
    requires ites_value { counts.old.ites ≡ 0 }
    ensures ands_value { (counts.new.ands ≡ counts.old.ands) × (counts.new.xors ≡ counts.old.xors) }
    ensures ites_value_2 { counts.new.ites ≡ length (pairs_of places.now.list.codes.now (all_halves places.now.list.codes.now)) }
    ensures sided { Sided places.now.list.codes.now marks.old marks.new }
{
    let mut sizes = [0u32; CODES];
    let mut sides = [0u32; CODES];
    let literals = places.heads.len() as u32;
    for x in 0..literals {
        let select = inverse(x);
        places.count_outputs(select, &mut sizes, &mut sides);
        let halves = Halves {
            places: *places,
            literal: select,
            sizes: &sizes,
            sides: &sides,
        };
        halves.mark_places(x, marks, counts);
        places.clear_outputs(select, &mut sizes);
    }
}

// Adds the marks of the sides of ITEs to marks that have none yet, and counts the ITEs.
pub fn mark_ites(kinds: &ClauseKinds, marks: &mut [u8], counts: &mut Counts)
    requires marks_in_bounds { (length kinds.now.list.codes.now ≤ length marks.old) × ((p : ℕ) → get_or marks.old p 0 < 2) }
    requires ites_value { counts.old.ites ≡ 0 }
    ensures ands_value { (counts.new.ands ≡ counts.old.ands) × (counts.new.xors ≡ counts.old.xors) }
    ensures ites_value_2 { counts.new.ites ≡ length (pairs_of kinds.now.list.codes.now (all_halves kinds.now.list.codes.now)) }
    ensures sided { Sided kinds.now.list.codes.now marks.old marks.new }
{
    let mut heads = [0u32; CODES];
    let mut chain = [0u32; MAX_ENTRIES];
    chain_paired(kinds, &mut heads, &mut chain);
    let places = PairedPlaces {
        list: kinds.list,
        heads: &heads,
        chain: &chain,
    };
    mark_sides(&places, marks, counts);
}

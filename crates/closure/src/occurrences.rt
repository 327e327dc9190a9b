// The index of a row: the occurrence list of each net, the clause of each place, and whether a rule about the gates of the clause reads its lead. It is made once for a row of clauses.

ghost use Rattle.std.specs.Prelude.{◌≡◌, ◌⊎◌, true, false, MatchOption, ℕ, ◌≤◌, ◌<◌, length, get_or};
ghost use Rattle.clauses.specs.Limit.{max_entries};
ghost use Rattle.clauses.specs.Row.{LiteralAt, around};
ghost use Rattle.clauses.specs.Chains.{Chained};
ghost use Rattle.closure.specs.Marked.{Ended};
ghost use Rattle.closure.specs.Occurrences.{net_at, NoAnd, FirstTwo, Ties, Thens, Reads, PlaceListed, PlacesListed, Indexed};

use clauses::chain::link;
use clauses::place::clause_end;

// The index of a row, in rows that are lent.
#[derive(Clone, Copy)]
pub struct Occurrences<'a> {
    pub codes: &'a [u32],
    // for a place: where its clause starts
    pub starts: &'a [u32],
    // for a place: whether a rule about gates reads its lead
    pub reads: &'a [bool],
    // for a net: its last place, counted from 1
    pub occurs: &'a [u32],
    // for a place: the one before it of its net, counted from 1
    pub links: &'a [u32],
    ghost ended: { Ended codes.now },
    ghost entries: { length codes.now ≤ 4294967295 },
    ghost clauses: { (b q : ℕ) → LiteralAt codes.now b q → get_or starts.now q 0 ≡ b },
    ghost rooms: { (length codes.now ≤ length starts.now) × (length codes.now ≤ length reads.now) × (length codes.now ≤ length links.now) },
    ghost chains: { Chained (net_at codes.now) (length codes.now) occurs.now links.now },
}

// The first place from `from` on, below `to`, that is the output of an AND.
fn first_and(marks: &[u8], from: usize, to: usize) -> Option<usize>
    requires { to ≤ length marks.now }
    ensures { MatchOption result (NoAnd marks.now from to) (λ r. (r < to) × NoAnd marks.now from r) }
{
    (from..to).find(|p| marks[*p] % 2 == 1)
}

// The place after p in the clause of three literals at b, the first one coming after the last.
fn place_after(b: usize, p: usize) -> usize
    requires { (b ≤ max_entries) × (p ≤ max_entries) }
    ensures { result ≡ around b p }
{
    if p == b + 2 { b } else { p + 1 }
}

// The gates of the clause from `start` up to its ending at `end`, by their marks, and where its first two outputs of ANDs are.
#[derive(Clone, Copy)]
struct Gates<'a> {
    marks: &'a [u8],
    start: usize,
    end: usize,
    first: Option<usize>,
    second: Option<usize>,
    ghost clause: { (start ≤ end) × (end < length marks.now) × (end ≤ max_entries) },
    ghost ands: { FirstTwo marks.now start end first second },
}

impl<'a> Gates<'a> {
    fn of(marks: &'a [u8], start: usize, end: usize) -> Gates<'a>
        requires { (start ≤ end) × (end < length marks.now) × (end ≤ max_entries) }
        ensures { (result.marks.now ≡ marks.now) × (result.start ≡ start) × (result.end ≡ end) }
    {
        let first = first_and(marks, start, end);
        let second = match first {
            Some(p) => first_and(marks, p + 1, end),
            None => None,
        };
        Gates {
            marks,
            start,
            end,
            first,
            second,
        }
    }

    // Whether one ties place q.
    fn ties(&self, q: usize) -> bool
        ensures { Ties self.now.marks.now self.now.start self.now.end q → result ≡ true }
    {
        if self.marks[self.end] == 1 {
            return true;
        }
        match self.first {
            Some(p) => p != q || self.second.is_some(),
            None => false,
        }
    }

    // Whether place q holds the literal t of a side.
    fn has_then(&self, q: usize) -> bool
        requires { (self.now.start ≤ q) × (q < self.now.end) }
        ensures { Thens self.now.marks.now self.now.start self.now.end q → result ≡ true }
    {
        if self.end != self.start + 3 {
            return false;
        }
        let next = place_after(self.start, q);
        if self.marks[next] / 2 % 2 == 1 {
            return true;
        }
        self.marks[place_after(self.start, next)] / 4 % 2 == 1
    }

    // Whether a rule about them reads the lead at place q.
    fn reads(&self, q: usize) -> bool
        requires { (self.now.start ≤ q) × (q < self.now.end) }
        ensures { Reads self.now.marks.now self.now.start self.now.end q → result ≡ true }
    {
        self.ties(q) || 1 < self.marks[q] || self.has_then(q)
    }
}

// Lists the places of the clause from b up to its ending at e.
fn list_places(marks: &[u8], b: usize, e: usize, starts: &mut [u32], reads: &mut [bool])
    requires { (b ≤ e) × (e < length marks.now) × (e ≤ length starts.old) × (e ≤ length reads.old) × (e ≤ max_entries) }
    ensures places { (q : ℕ) → b ≤ q → q < e → PlaceListed marks.now b e starts.new reads.new q }
    ensures others { (q : ℕ) → (q < b) ⊎ (e ≤ q) → (get_or starts.new q 0 ≡ get_or starts.old q 0) × (get_or reads.new q false ≡ get_or reads.old q false) }
{
    let gates = Gates::of(marks, b, e);
    for q in b..e {
        starts[q] = b as u32;
        reads[q] = gates.reads(q);
    }
}

// Lists the places of all clauses.
fn list_clauses(codes: &[u32], marks: &[u8], starts: &mut [u32], reads: &mut [bool])
    requires ended { Ended codes.now × (length marks.now ≡ length codes.now) × (length codes.now ≤ max_entries) }
    requires codes_in_bounds { (length codes.now ≤ length starts.old) × (length codes.now ≤ length reads.old) }
    ensures { PlacesListed codes.now marks.now starts.new reads.new (length codes.now) }
{
    let mut b = 0;
    while b < codes.len() {
        let e = clause_end(codes, b);
        list_places(marks, b, e, starts, reads);
        b = e + 1;
    }
}

// Makes the index of a row.
pub fn index_row<'a>(
    codes: &'a [u32],
    marks: &[u8],
    starts: &'a mut [u32],
    reads: &'a mut [bool],
    occurs: &'a mut [u32],
    links: &'a mut [u32],
) -> Occurrences<'a>
    requires ended { Ended codes.now × (length marks.now ≡ length codes.now) × (length codes.now ≤ max_entries) }
    requires codes_in_bounds { (length codes.now ≤ length starts.old) × (length codes.now ≤ length reads.old) × (length codes.now ≤ length links.old) }
    requires by_index { (q : ℕ) → net_at codes.now q < length occurs.old }
    ensures row { result.codes.now ≡ codes.now }
    ensures nets { length result.occurs.now ≡ length occurs.old }
    ensures index { Indexed codes.now marks.now result.starts.now result.reads.now result.occurs.now result.links.now }
{
    list_clauses(codes, marks, starts, reads);
    occurs.fill(0);
    for (q, code) in codes.iter().enumerate() {
        link((code / 2) as usize, q, occurs, links);
    }
    Occurrences {
        codes,
        starts,
        reads,
        occurs,
        links,
    }
}

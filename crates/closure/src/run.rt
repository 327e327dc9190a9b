// Rounds, one after the other, up to a round limit. The tables of gates are kept from round to round.

ghost use Rattle.std.specs.Prelude.{◌≡◌, ◌≢◌, true, false, ◌+◌, ◌*◌, ◌≤◌, length};
ghost use Rattle.std.specs.declared.ops.ControlFlow.TheVariants.{Break};
ghost use Rattle.clauses.specs.Limit.{max_nets, max_entries};
ghost use Rattle.clauses.specs.Clause.{clauses_in};
ghost use Rattle.clauses.specs.Listing.{Fits};
ghost use Rattle.clauses.specs.Code.{nets_of};
ghost use Rattle.gates.specs.Found.{Found};
ghost use Rattle.rules.specs.Answer.{own};
ghost use Rattle.rules.specs.Compute.{ended, closed};
ghost use Rattle.closure.specs.Rounds.{is_still, Followed, Room};

use crate::and_pairs::by_and_pairs;
use crate::ands::by_ands;
use crate::hubs::SideHubs;
use crate::ite_groups::by_groups;
use crate::ite_mates::by_sides;
use crate::occurrences::index_row;
use crate::side_table::KeptSides;
use crate::table::KeyTable;
use crate::tally::Tally;
use crate::units::by_clauses;
use crate::worklist::{list_all, list_changed};
use crate::xors::by_xors;
use clauses::limits::{CODES, MAX_ENTRIES, MAX_NETS};
use rules::Verdict;
use std::ops::ControlFlow;

// Entries of a row with one for each net and one for the constants.
const NETS: usize = MAX_NETS as usize + 1;

// Slots for the ANDs and for the literals of XORs, of which a row has no more than entries.
const SLOTS: usize = MAX_ENTRIES;

// Entries for the sides, of which a row has no more than three for two entries, and numbers of sides.
const SIDES: usize = 3 * MAX_ENTRIES / 2;

const NUMBERS: usize = 2 * MAX_ENTRIES;

// Buckets: a prime, since keys are packed in powers of two.
const BUCKETS: usize = 4093;

// The code where there is no lead.
const NO_LEAD: u32 = 4294967295;

// How closing ends, and the groups left.
#[derive(Clone, Copy)]
pub struct Ended {
    pub verdict: Verdict,
    pub rounds: u32,
    pub groups: u32,
}

// The rounds made and the groups left.
#[derive(Clone, Copy)]
pub struct Progress {
    pub rounds: u32,
    pub groups: u32,
}

// Whether a round has joined nothing.
fn is_still(t: Tally) -> bool
    ensures { result ≡ is_still t }
{
    if t.clash {
        return false;
    }
    t.joins == 0
}

// The end with this verdict.
fn end_with(verdict: Verdict, rounds: u32, groups: u32) -> ControlFlow<Ended, Progress>
    ensures { result ≡ Break (record { verdict = verdict; rounds = rounds; groups = groups }) }
{
    ControlFlow::Break(Ended {
        verdict,
        rounds,
        groups,
    })
}

// What follows a round with this tally: an end, or the next round from its leads.
fn follow(
    limit: u32,
    s: Progress,
    t: Tally,
    next: &[u32],
    leads: &mut [u32],
    older: &mut [u32],
) -> ControlFlow<Ended, Progress>
    requires next_len { (length next.now ≡ length leads.old) × (length older.old ≡ length leads.old) }
    requires rounds_le_limit { s.rounds ≤ limit }
    ensures { Followed limit s t leads.old next.now leads.new older.new result }
{
    let still = is_still(t);
    let rounds = s.rounds;
    if still {
        return end_with(Verdict::Settled, rounds, s.groups);
    }
    if rounds == limit {
        return end_with(Verdict::Unfinished, rounds, s.groups);
    }
    if t.clash {
        leads.fill(NO_LEAD);
        return end_with(Verdict::Contradiction, rounds + 1, 0);
    }
    older.copy_from_slice(leads);
    leads.copy_from_slice(next);
    ControlFlow::Continue(Progress {
        rounds: rounds + 1,
        groups: t.groups,
    })
}

// Whether the tables are made anew for the next round: before the first one, and where they have no room for the gates of clauses with so many entries.
fn is_anew(
    rounds: u32,
    ands: &KeyTable<SLOTS, BUCKETS>,
    xors: &KeyTable<SLOTS, BUCKETS>,
    sides: &KeptSides<SIDES, BUCKETS>,
    entries: usize,
) -> bool
    requires { entries ≤ max_entries }
    ensures { result ≡ false → (rounds ≢ 0) × Room ands.now.count xors.now.count sides.now.table.count entries }
{
    if rounds == 0 {
        return true;
    }
    if !ands.has_room(entries) {
        return true;
    }
    if !xors.has_room(entries) {
        return true;
    }
    !sides.has_room(entries)
}

// Makes rounds up to the limit, from the first leads on, and leaves the last ones; `next` has the leads of the round that is being made, `older` those before the last one. A round goes over the clauses that changed, and over all of them where the tables are made anew. The passes with tables are not inlined here, so that their loops have the registers to themselves.
pub fn run(
    codes: &[u32],
    marks: &[u8],
    limit: u32,
    leads: &mut [u32],
    next: &mut [u32],
    older: &mut [u32],
) -> Ended
    requires found { Found (clauses_in codes.now) codes.now marks.now }
    requires fits { Fits (length leads.old) (clauses_in codes.now) }
    requires leads_len_bound { (length leads.old ≤ max_nets) × (length codes.now ≤ max_entries) }
    requires leads_value { (leads.old ≡ nets_of (length leads.old)) × (next.old ≡ leads.old) × (older.old ≡ leads.old) }
    ensures leads_after { ended result.verdict result.rounds leads.new ≡ closed (length leads.old) (clauses_in codes.now) limit }
    ensures groups_value { result.groups ≡ length (own (length leads.old) leads.new) }
{
    let mut starts = [0u32; MAX_ENTRIES];
    let mut reads = [false; MAX_ENTRIES];
    let mut occurs = [0u32; NETS];
    let mut links = [0u32; MAX_ENTRIES];
    let mut seen = [false; MAX_ENTRIES];
    let mut list = [0u32; MAX_ENTRIES];
    let mut held = [false; CODES];
    let mut holders = [0u32; CODES];
    let mut ands: KeyTable<SLOTS, BUCKETS> = KeyTable::new();
    let mut xors: KeyTable<SLOTS, BUCKETS> = KeyTable::new();
    let mut sides: KeptSides<SIDES, BUCKETS> = KeptSides::new();
    let mut hubs: SideHubs<NUMBERS, BUCKETS> = SideHubs::new();
    let occurrences = index_row(
        codes,
        marks,
        &mut starts,
        &mut reads,
        &mut occurs,
        &mut links,
    );
    hubs.chain(codes, marks);
    let mut s = Progress {
        rounds: 0,
        groups: leads.len() as u32,
    };
    loop {
        let mut work = list_changed(&occurrences, older, leads, &mut seen, &mut list);
        if is_anew(s.rounds, &ands, &xors, &sides, work.entries) {
            ands.clear();
            xors.clear();
            sides.clear();
            work = list_all(codes, &mut list);
        }
        let n = work.clauses;
        let from = sides.table.count;
        let first = Tally {
            groups: s.groups,
            joins: 0,
            clash: false,
        };
        let units = by_clauses(codes, marks, &list[..n], leads, next, first);
        let outputs = by_ands(codes, marks, &list[..n], leads, &mut held, next, units);
        let pairs = by_and_pairs(
            codes,
            marks,
            &list[..n],
            leads,
            &mut ands,
            &mut held,
            next,
            outputs,
        );
        let sums = by_xors(codes, marks, &list[..n], leads, &mut xors, next, pairs);
        let mates = by_sides(codes, marks, &list[..n], leads, &mut sides, next, sums);
        let t = by_groups(
            codes,
            from,
            &sides.table,
            &hubs,
            leads,
            &mut holders,
            next,
            mates,
        );
        match follow(limit, s, t, next, leads, older) {
            ControlFlow::Continue(p) => s = p,
            ControlFlow::Break(end) => return end,
        }
    }
}

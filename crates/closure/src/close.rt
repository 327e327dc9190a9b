// Closing a clause list.

ghost use Rattle.std.specs.Prelude.{◌≡◌, ◌≤◌, length, take};
ghost use Rattle.clauses.specs.Limit.{max_nets, max_entries};
ghost use Rattle.clauses.specs.Clause.{clauses_in};
ghost use Rattle.clauses.specs.Listing.{Fits};
ghost use Rattle.gates.specs.Found.{Found};
ghost use Rattle.rules.specs.Answer.{own};
ghost use Rattle.rules.specs.Compute.{ended, closed};
ghost use Rattle.closure.specs.Closing.{check_list, closing};
ghost use Rattle.closure.specs.Passed.{Passed, ClosedTo, close_rounds};

use crate::lead::first_leads;
use crate::run::{Ended, run};
use clauses::checks::{check_entries, check_sizes};
use clauses::limits::{MAX_ENTRIES, MAX_NETS};
use clauses::refusal::Refusal;
use clauses::tally::tally_row;
use gates::finder::find_gates;
use rules::Verdict;

// Entries of a row of leads.
const NETS: usize = MAX_NETS as usize;

// Entries of the work row (specs/Closing.antt).
pub const MAX_WORK: usize = 16384;

// How closing ends, the numbers of gates, and the groups left.
#[derive(Clone, Copy)]
pub struct Summary {
    pub verdict: Verdict,
    pub rounds: u32,
    pub ands: u32,
    pub xors: u32,
    pub ites: u32,
    pub groups: u32,
}

// Closes the list of a row of codes, and leaves the last leads; `next` and `older` are for the leads of other rounds.
fn close_codes(
    codes: &[u32],
    marks: &[u8],
    limit: u32,
    leads: &mut [u32],
    next: &mut [u32],
    older: &mut [u32],
) -> Ended
    requires found { Found (clauses_in codes.now) codes.now marks.now }
    requires fits { Fits (length leads.old) (clauses_in codes.now) }
    requires leads_len_bound { (length leads.old ≤ max_nets) × (length codes.now ≤ max_entries) }
    requires next_len { (length next.old ≡ length leads.old) × (length older.old ≡ length leads.old) }
    ensures leads_after { ended result.verdict result.rounds leads.new ≡ closed (length leads.old) (clauses_in codes.now) limit }
    ensures groups_value { result.groups ≡ length (own (length leads.old) leads.new) }
{
    first_leads(leads);
    first_leads(next);
    first_leads(older);
    run(codes, marks, limit, leads, next, older)
}

// Closes the list of the first n codes for V nets.
fn close_first(
    codes: &[u32],
    marks: &[u8],
    n: usize,
    limit: u32,
    v: usize,
    leads: &mut [u32],
    next: &mut [u32],
    older: &mut [u32],
) -> Ended
    requires n_in_bounds { (n ≤ length codes.now) × (n ≤ length marks.now) × (n ≤ max_entries) }
    requires found { Found (clauses_in (take n codes.now)) (take n codes.now) (take n marks.now) }
    requires fits { Fits v (clauses_in (take n codes.now)) }
    requires v_le_max_nets { (v ≤ max_nets) × (v ≤ length leads.old) × (v ≤ length next.old) × (v ≤ length older.old) }
    ensures { ClosedTo v (clauses_in (take n codes.now)) limit leads.old leads.new result.verdict result.rounds result.groups }
{
    close_codes(
        &codes[..n],
        &marks[..n],
        limit,
        &mut leads[..v],
        &mut next[..v],
        &mut older[..v],
    )
}

// Finds the gates and makes the rounds, of a list that passes tests 5 to 12; test 14. The last rows are for the codes, the marks and the leads of other rounds.
fn close_in(
    v: u32,
    row: &[i32],
    limit: u32,
    leads: &mut [u32],
    work: &mut [u32],
    codes: &mut [u32],
    marks: &mut [u8],
    next: &mut [u32],
    older: &mut [u32],
) -> Result<Summary, Refusal>
    requires passed { Passed v row.now leads.old work.old }
    requires codes_len { (length codes.old ≡ max_entries) × (length marks.old ≡ max_entries) × (length next.old ≡ max_nets) × (length older.old ≡ max_nets) }
    ensures { record { result = result; leads = leads.new; work = work.new } ≡ close_rounds v row.now limit leads.old work.old }
{
    let f = find_gates(row, codes, marks);
    work[..MAX_WORK].fill(0);
    let e = close_first(
        codes, marks, f.entries, limit, v as usize, leads, next, older,
    );
    if v + 1 < e.rounds {
        return Err(Refusal::TooManyRounds);
    }
    let counts = f.counts;
    Ok(Summary {
        verdict: e.verdict,
        rounds: e.rounds,
        ands: counts.ands,
        xors: counts.xors,
        ites: counts.ites,
        groups: e.groups,
    })
}

// The same, with rows of its own. It is not inlined into `close`, which would have these rows and those of the rounds on the stack for a list that
// is turned away too.
#[inline(never)]
fn close_rounds(
    v: u32,
    row: &[i32],
    limit: u32,
    leads: &mut [u32],
    work: &mut [u32],
) -> Result<Summary, Refusal>
    requires { Passed v row.now leads.old work.old }
    ensures { record { result = result; leads = leads.new; work = work.new } ≡ close_rounds v row.now limit leads.old work.old }
{
    let mut codes = [0u32; MAX_ENTRIES];
    let mut marks = [0u8; MAX_ENTRIES];
    let mut next = [0u32; NETS];
    let mut older = [0u32; NETS];
    close_in(
        v, row, limit, leads, work, &mut codes, &mut marks, &mut next, &mut older,
    )
}

// Tests 5 to 12, of a lead row and a work row with so many entries.
pub fn check_list(v: u32, c: u32, row: &[i32], leads: usize, work: usize) -> Result<(), Refusal>
    ensures { result ≡ check_list v c row.now leads work }
{
    check_sizes(v, c, row.len())?;
    if leads < v as usize {
        return Err(Refusal::LeadsTooShort);
    }
    if work < MAX_WORK {
        return Err(Refusal::WorkTooShort);
    }
    check_entries(c, tally_row(v, row))
}

// Closes a clause list of V nets and C clauses under a round limit, which may be any: from V + 1 up all answer alike.
pub fn close(
    v: u32,
    c: u32,
    row: &[i32],
    limit: u32,
    leads: &mut [u32],
    work: &mut [u32],
) -> Result<Summary, Refusal>
    ensures { record { result = result; leads = leads.new; work = work.new } ≡ closing v c row.now limit leads.old work.old }
{
    check_list(v, c, row, leads.len(), work.len())?;
    close_rounds(v, row, limit, leads, work)
}

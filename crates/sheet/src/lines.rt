// The lines of the sheet, put into a lent buffer one after another.

ghost use Rattle.std.specs.Prelude.{◌≡◌, [], ◌++◌, ◌+◌, ◌≤◌, ◌<◌, length};
ghost use Rattle.clauses.specs.Writing.{Wrote};
ghost use Rattle.sheet.specs.Sheet.{numbers_text, verdict_text, values_line, lead_text, net_line, net_lead_line, net_lines, lead_lines, sheet_text, answer_of};

use clauses::writing::{put, put_bytes, put_decimal, put_word};
use closure::close::Summary;
use rules::Verdict;

// The verdict's name.
#[tactic(auto, unfolding(crate::specs::Sheet::verdict_text))]
fn verdict_name(verdict: Verdict) -> &'static [u8]
    ensures { result.now ≡ verdict_text verdict }
{
    match verdict {
        Verdict::Contradiction => b"contradiction",
        Verdict::Settled => b"settled",
        Verdict::Unfinished => b"unfinished",
    }
}

// Puts the numbers of the line of values: rounds, V, the three gate counts and the groups.
fn put_numbers(text: &mut [u8], at: usize, v: u32, s: Summary) -> usize
    requires { at + length (numbers_text v (answer_of s [])) ≤ length text.old }
    ensures { Wrote text.old at (numbers_text v (answer_of s [])) text.new result }
{
    let nets = put_word(text, at, s.rounds as u64, b',');
    let ands = put_word(text, nets, v as u64, b',');
    let xors = put_word(text, ands, s.ands as u64, b',');
    let ites = put_word(text, xors, s.xors as u64, b',');
    let groups = put_word(text, ites, s.ites as u64, b',');
    put_word(text, groups, s.groups as u64, b'\n')
}

// Puts the line of values.
fn put_values(text: &mut [u8], at: usize, v: u32, s: Summary) -> usize
    requires { at + length (values_line v (answer_of s [])) ≤ length text.old }
    ensures { Wrote text.old at (values_line v (answer_of s [])) text.new result }
{
    let end = put_bytes(text, at, verdict_name(s.verdict));
    let numbers = put(text, end, b',');
    put_numbers(text, numbers, v, s)
}

// Puts a lead.
fn put_lead(text: &mut [u8], at: usize, code: u32) -> usize
    requires { at + length (lead_text code) ≤ length text.old }
    ensures { Wrote text.old at (lead_text code) text.new result }
{
    if code == 0 {
        return put(text, at, b'F');
    }
    if code == 1 {
        return put(text, at, b'T');
    }
    if code % 2 == 1 {
        let next = put(text, at, b'-');
        return put_decimal(text, next, (code / 2) as u64);
    }
    put_decimal(text, at, (code / 2) as u64)
}

// Puts the line of a net.
fn put_net(text: &mut [u8], at: usize, w: u32, code: u32) -> usize
    requires { at + length (net_line w code) ≤ length text.old }
    ensures { Wrote text.old at (net_line w code) text.new result }
{
    let lead = put_word(text, at, w as u64, b',');
    let end = put_lead(text, lead, code);
    put(text, end, b'\n')
}

// Puts a line for each net.
fn put_nets(text: &mut [u8], at: usize, leads: &[u32]) -> usize
    requires leads_in_bounds { at + length (net_lines 1 leads.now) ≤ length text.old }
    requires leads_len_bound { length leads.now < 4294967295 }
    ensures { Wrote text.old at (net_lines 1 leads.now) text.new result }
{
    let mut next = at;
    for (i, lead) in leads.iter().enumerate() {
        next = put_net(text, next, i as u32 + 1, *lead);
    }
    next
}

// Puts the line `net,lead` and a line for each net.
fn put_table(text: &mut [u8], at: usize, leads: &[u32]) -> usize
    requires leads_in_bounds { at + length (net_lead_line ++ net_lines 1 leads.now) ≤ length text.old }
    requires leads_len_bound { length leads.now < 4294967295 }
    ensures { Wrote text.old at (net_lead_line ++ net_lines 1 leads.now) text.new result }
{
    let nets = put_bytes(text, at, b"net,lead\n");
    put_nets(text, nets, leads)
}

// Puts the lines of the leads, which a contradiction does not have.
fn put_leads(text: &mut [u8], at: usize, verdict: Verdict, leads: &[u32]) -> usize
    requires leads_in_bounds { at + length (lead_lines verdict leads.now) ≤ length text.old }
    requires leads_len_bound { length leads.now < 4294967295 }
    ensures { Wrote text.old at (lead_lines verdict leads.now) text.new result }
{
    match verdict {
        Verdict::Contradiction => at,
        Verdict::Settled | Verdict::Unfinished => put_table(text, at, leads),
    }
}

// Puts the sheet at the start.
pub fn put_sheet(text: &mut [u8], v: u32, s: Summary, leads: &[u32]) -> usize
    requires leads_in_bounds { length (sheet_text v (answer_of s leads.now)) ≤ length text.old }
    requires leads_len_bound { length leads.now < 4294967295 }
    ensures { Wrote text.old 0 (sheet_text v (answer_of s leads.now)) text.new result }
{
    let values = put_bytes(text, 0, b"verdict,rounds,variables,ands,xors,ites,groups\n");
    let table = put_values(text, values, v, s);
    put_leads(text, table, s.verdict, leads)
}

// A row of leads: entry w - 1 is the lead of net w.

ghost use Rattle.std.specs.Prelude.{◌≡◌, map, ◌≤◌, length};
ghost use Rattle.clauses.specs.Code.{nets_of};
ghost use Rattle.rules.specs.Answer.{lead_of};
ghost use Rattle.rules.specs.Compute.{replace};

use clauses::sign::{flipped, is_inverse};

// The lead of a literal or constant.
pub fn lead_of(leads: &[u32], code: u32) -> u32
    ensures { result ≡ lead_of leads.now code }
{
    let w = (code / 2) as usize;
    if w == 0 || leads.len() < w {
        return code;
    }
    flipped(is_inverse(code), leads[w - 1])
}

// The lead e, after hi and its inverse have become lo and its inverse.
#[tactic(auto, unfolding(rules::specs::Compute::replace))]
fn replaced(hi: u32, lo: u32, e: u32) -> u32
    ensures { result ≡ replace hi lo e }
{
    if e == hi {
        lo
    } else if e == flipped(true, hi) {
        flipped(true, lo)
    } else {
        e
    }
}

// Replaces hi by lo in every lead.
pub fn replace_all(leads: &mut [u32], hi: u32, lo: u32)
    ensures { leads.new ≡ map (replace hi lo) leads.old }
{
    for lead in leads.iter_mut() {
        *lead = replaced(hi, lo, *lead);
    }
}

// At first each net leads itself.
pub fn first_leads(leads: &mut [u32])
    requires { length leads.old ≤ 1024 }
    ensures { leads.new ≡ nets_of (length leads.old) }
{
    for (i, lead) in leads.iter_mut().enumerate() {
        *lead = 2 * (i as u32) + 2;
    }
}

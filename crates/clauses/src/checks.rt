// The tests that reading, printing and closing share.

ghost use Rattle.std.specs.Prelude.{◌≡◌};
ghost use Rattle.clauses.specs.Check.{check_sizes, check_entries};

use crate::limits::{MAX_CLAUSES, MAX_ENTRIES, MAX_NETS};
use crate::refusal::Refusal;
use crate::tally::EntryTally;

// Tests 5 to 7, of V, C and the number of entries.
#[tactic(auto, unfolding(crate::specs::Check::check_sizes, crate::specs::Refusal::decide))]
pub fn check_sizes(v: u32, c: u32, entries: usize) -> Result<(), Refusal>
    ensures { result ≡ check_sizes v c entries }
{
    if MAX_NETS < v {
        return Err(Refusal::TooManyNets);
    }
    if MAX_CLAUSES < c {
        return Err(Refusal::TooManyClauses);
    }
    if MAX_ENTRIES < entries {
        return Err(Refusal::TooManyEntries);
    }
    Ok(())
}

// Tests 10 to 12, of C and the tally of the entries.
#[tactic(auto, unfolding(crate::specs::Check::check_entries, crate::specs::Refusal::decide))]
pub fn check_entries(c: u32, t: EntryTally) -> Result<(), Refusal>
    ensures { result ≡ check_entries c t }
{
    if t.within < t.entries {
        return Err(Refusal::EntryTooLarge(t.within));
    }
    if !t.ended {
        return Err(Refusal::NotEnded);
    }
    if t.zeros != c as usize {
        return Err(Refusal::ClauseCount);
    }
    Ok(())
}

// The closing rules, what they make of a clause list, and the theorems about it.

#![tactic(auto)]

// How closing ends.
#[derive(Clone, Copy)]
pub enum Verdict {
    Contradiction,
    Settled,
    Unfinished,
}

// The clause list: literal codes, clauses as sets, DIMACS text in and out, and what is turned away.

#![tactic(auto)]

mod body;
pub mod chain;
pub mod checks;
pub mod entry;
pub mod header;
pub mod limits;
pub mod number;
pub mod place;
pub mod printing;
pub mod reading;
pub mod refusal;
mod run;
pub mod sign;
pub mod tally;
mod text;
pub mod walk;
pub mod writing;

// AIGER text in: the circuit that a file says, and its clauses.

#![tactic(auto)]

mod ands;
mod clause;
mod header;
mod inputs;
mod line;
pub mod reading;
mod tree;

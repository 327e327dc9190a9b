// The closing rounds.

#![tactic(auto)]

mod and_pairs;
mod and_sets;
mod ands;
mod clashes;
pub mod close;
mod held;
mod hubs;
mod inputs;
mod ite_groups;
mod ite_mates;
mod ite_sides;
mod lead;
mod literals;
mod nets;
mod occurrences;
mod run;
mod side_table;
mod signature;
mod table;
mod tally;
mod units;
mod worklist;
mod xors;

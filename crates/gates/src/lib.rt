// The gates found in a clause list.

#![tactic(auto)]

mod and;
mod clause;
pub mod counts;
pub mod finder;
mod first;
mod index;
mod ites;
mod kind;
mod literal;
mod mark;
pub mod mark_bits;
mod normal;
mod paired;
mod prepare;
pub mod same;
mod search;
mod xor;

// The sheet: closing's answer as text.

#![tactic(auto)]

pub mod compare;
mod lines;
pub mod write;

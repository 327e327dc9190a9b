// What the programs share: long texts, input read whole, and a refusal printed.

#![tactic(auto)]

pub mod input;
pub mod made;
pub mod shown;

// Plans: the language, and its flat form in words of 64 bits.
#![tactic(auto)]

pub mod eval;
pub mod kinds;
pub mod link;
pub mod sheet;

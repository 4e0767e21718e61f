// Memories in lines: one that is simulated, and one that stops after so many operations.
#![tactic(auto)]

pub mod cached;
pub mod fuse;
mod journal;

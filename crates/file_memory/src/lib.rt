// The memory in a file.
#![tactic(auto)]

pub mod bytes;
pub mod memory;
pub mod open;

pub use memory::FileMemory;

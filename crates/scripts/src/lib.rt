// The script of a rehearsal: its lines as values, its calls as bytes, and answers as words.
#![tactic(auto)]

pub mod bytes;
pub mod draws;
pub mod lines;
pub mod number;
pub mod read;
pub mod words;

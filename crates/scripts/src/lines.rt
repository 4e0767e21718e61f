// The lines of a script as values.
use calls::types::{Attempt, FlowId, Step};
use std::alloc::{AllocError, AllocFailed};
use std::fmt;

// Words and kinds that a call has at most, and bytes of a key or a name.
pub const MOST: usize = 255;

// A call in words.
#[derive(Drop)]
pub enum Asked {
    // the plan is its text
    Start {
        key: Vec<u8>,
        words: Vec<u64>,
        plan: Vec<u8>,
    },
    Tell {
        key: Vec<u8>,
        name: Vec<u8>,
        value: u64,
    },
    Cancel {
        key: Vec<u8>,
    },
    Take {
        kinds: Vec<u32>,
        ms: u32,
    },
    Longer {
        flow: FlowId,
        step: Step,
        attempt: Attempt,
        ms: u32,
    },
    // as in `calls::types::Call`
    Report {
        flow: FlowId,
        step: Step,
        attempt: Attempt,
        well: bool,
        value: u64,
    },
    Show {
        key: Vec<u8>,
    },
    Forget {
        key: Vec<u8>,
    },
    Time {
        ms: u64,
    },
}

#[derive(Drop)]
pub enum Line {
    // how many lines the memory has
    Lines(u64),
    Call(Asked),
    // the bytes of a framed line
    In(Vec<u8>),
    // the power fails behind so many stores
    Fail {
        stores: u64,
        seed: u64,
    },
    // what a worker gives for a kind of task
    Table {
        kind: u32,
        expression: Vec<u8>,
    },
    // a worker does one task, and of a hundred it does so many badly
    Work {
        kinds: Vec<u32>,
        ms: u32,
        seed: u64,
        bad: u8,
    },
    Flows,
}

// What was expected in a line that is none.
#[derive(Clone, Copy, PartialEq, Eq, Debug)]
pub enum BadLine {
    // a word that begins a line
    Command,
    Key,
    Name,
    Number { most: u64 },
    // a colon behind a flow's words
    Colon,
    // the word behind kinds
    For,
    Seed,
    Bad,
    Outcome,
    Hex,
    Expression,
    // past a limit
    Plan,
    Words,
    Kinds,
    // nothing more
    End,
    // there is no memory to read the line
    Memory,
}

impl From<AllocError> for BadLine {
    fn from(_e: AllocError) -> BadLine {
        BadLine::Memory
    }
}

impl<T: Drop> From<AllocFailed<T>> for BadLine {
    fn from(_e: AllocFailed<T>) -> BadLine {
        BadLine::Memory
    }
}

impl fmt::Display for BadLine {
    fn fmt<W: fmt::Write>(&self, f: &mut fmt::Formatter<W>) -> fmt::Result {
        match *self {
            BadLine::Command => write!(f, "expected a word that begins a line"),
            BadLine::Key => write!(f, "expected a key of at most 255 bytes"),
            BadLine::Name => write!(f, "expected a name of at most 255 bytes"),
            BadLine::Number { most } => write!(f, "expected a number up to {most}"),
            BadLine::Colon => write!(f, "expected ':' and a plan"),
            BadLine::For => write!(f, "expected the word 'for'"),
            BadLine::Seed => write!(f, "expected the word 'seed'"),
            BadLine::Bad => write!(f, "expected the word 'bad'"),
            BadLine::Outcome => write!(f, "expected 'well' and a value, or 'bad'"),
            BadLine::Hex => write!(f, "expected bytes in hexadecimal"),
            BadLine::Expression => write!(f, "expected an expression"),
            BadLine::Plan => write!(f, "expected a plan of at most 4294967295 bytes"),
            BadLine::Words => write!(f, "expected at most 255 words"),
            BadLine::Kinds => write!(f, "expected at most 255 kinds"),
            BadLine::End => write!(f, "expected nothing more"),
            BadLine::Memory => write!(f, "out of memory"),
        }
    }
}

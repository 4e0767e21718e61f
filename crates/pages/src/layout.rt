// Where what stands in a page.
pub const PAGE_WORDS: usize = 128;

// the phase: a tag, and four words of what it holds
pub const PHASE: usize = 0;

pub const HERE: usize = 5;

pub const STEPS: usize = 6;

pub const INTO: usize = 7;
// the task: how it stands, as a tag and a time; tag 0 is no task
pub const STANDING: usize = 8;

pub const SINCE: usize = 9;

pub const KIND: usize = 10;

pub const COUNT: usize = 11;

pub const ATTEMPT: usize = 12;

pub const TRIES: usize = 13;

pub const PAUSE: usize = 14;

pub const ARGS: usize = 16;

pub const VARS: usize = 32;
// zeros from here to the end
pub const REST: usize = 96;

pub const BUSY: u64 = 0;

pub const TASKED: u64 = 1;

pub const ASLEEP: u64 = 2;

pub const LISTENS: u64 = 3;

pub const ENDED: u64 = 4;

pub const FAILED: u64 = 5;

pub const NO_TASK: u64 = 0;

pub const DUE: u64 = 1;

pub const OUT: u64 = 2;

// The kinds of units in the flat form: an entry is a kind, and 32 times how deep control is there.
// Numbers and no enum: they are the lasting layout, and a unit's first word may hold any other.
pub const SET: u64 = 1;

pub const DO: u64 = 2;

pub const SLEEP: u64 = 3;

pub const HEAR: u64 = 4;

pub const IF: u64 = 5;

pub const WHILE: u64 = 6;
// a loop as it turns: the second entry of a loop
pub const TURN: u64 = 7;

pub const GUARD: u64 = 8;
// the step out of a guard's first part: the second entry of a guard
pub const LEAVE: u64 = 9;

pub const RETURN: u64 = 10;

pub const FAIL: u64 = 11;
// the end of a part
pub const PART: u64 = 12;
// the end of the plan: the second entry of a part's end
pub const END: u64 = 13;

pub const NUMBER: u64 = 16;

pub const VARIABLE: u64 = 17;

pub const PLUS: u64 = 18;

pub const MINUS: u64 = 19;

pub const TIMES: u64 = 20;

pub const LESS: u64 = 21;

pub const SAME: u64 = 22;

pub const NOT: u64 = 23;

// Words for each 1 of a plan's size.
pub const UNIT: usize = 4;
// A plan's size at most, and its words.
pub const MOST_UNITS: usize = 4096;

pub const MOST_WORDS: usize = 16384;

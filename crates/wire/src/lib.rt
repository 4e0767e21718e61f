// Calls and answers as framed bytes. No kind of call is built yet: each is turned away.
#![tactic(auto)]

pub mod bytes;
pub mod hex;

ghost use Rattle.std.specs.Prelude.{◌≡◌, drop, Some, None, Ok, Err};
ghost use Rattle.wire.specs.Frames.{tag_of, is_call, refusal_of, number_of, frame_of, digits, is_time, Answered};

use bytes::four_at;
pub use hex::{digit, from_hex};
use std::alloc::{AllocError, Global};

// Why a call is turned away.
#[derive(Clone, Copy, PartialEq, Eq, Debug)]
pub enum Refusal {
    // it is no call, or a part of it is past its limit
    BadCall,
    // there is no such flow, or no such task of it
    NotFound,
    // the flow is over already, or is not over yet
    WrongPhase,
    // it is of another try, or of one that is not out
    NotOut,
    // there are as many flows as there may be, or all numbers were given out
    NoMore,
    // no time was told
    NoTime,
    // this kind of call is not built yet
    NotBuilt,
}

// The number that goes out.
impl From<Refusal> for u8 {
    ghost from_gives = { λ r n. n ≡ number_of r };

    fn from(why: Refusal) -> u8 {
        match why {
            Refusal::BadCall => 1,
            Refusal::NotFound => 2,
            Refusal::WrongPhase => 3,
            Refusal::NotOut => 5,
            Refusal::NoMore => 8,
            Refusal::NoTime => 10,
            Refusal::NotBuilt => 12,
        }
    }
}

// The answer to a line: its tag, and why it is turned away.
#[derive(Clone, Copy, PartialEq, Eq, Debug)]
pub struct TurnedAway {
    pub tag: u32,
    pub why: Refusal,
}

fn is_call(frame: &[u8]) -> bool
    ensures { result ≡ is_call frame.now }
{
    frame.len() >= 9
        && u64::from(four_at(frame, 0)) + 4 == frame.len() as u64
        && 1 <= frame[8]
        && frame[8] <= 9
}

// Answers a framed line.
pub fn answer(frame: &[u8]) -> TurnedAway
    ensures tag { result.tag ≡ tag_of frame.now }
    ensures number { number_of result.why ≡ refusal_of frame.now }
{
    let tag = if frame.len() >= 8 {
        four_at(frame, 4)
    } else {
        0
    };
    let why = if is_call(frame) {
        Refusal::NotBuilt
    } else {
        Refusal::NoTime
    };
    TurnedAway { tag, why }
}

// The frame of a line: behind the word in and a blank. None where it has none.
fn frame_of(heap: Global, line: &[u8]) -> Result<Option<Vec<u8>>, AllocError>
    ensures { elim result [ Ok o ↦ elim o [ Some v ↦ frame_of line.now ≡ Some v.items | None ↦ frame_of line.now ≡ None ] | Err e ↦ Unit {0} ] }
{
    match line {
        [b'i', b'n', b' ', text @ ..] => from_hex(heap, text),
        _ => Ok(None),
    }
}

// Answers a line of a house's input: `in` and a frame in hexadecimal, or `time` and a number; all else is no call.
pub fn answer_line(heap: Global, line: &[u8]) -> Result<TurnedAway, AllocError>
    ensures { elim result [ Ok a ↦ Answered (frame_of line.now) (is_time line.now) a | Err e ↦ Unit {0} ] }
{
    if let Some(frame) = frame_of(heap, line)? {
        return Ok(answer(frame.as_slice()));
    }
    let why = if is_time(line) {
        Refusal::NotBuilt
    } else {
        Refusal::NoTime
    };
    Ok(TurnedAway { tag: 0, why })
}

// Nothing but digits.
fn all_digits(text: &[u8]) -> bool
    ensures { result ≡ digits text.now }
{
    text.iter().all(u8::is_ascii_digit)
}

// The word time, a blank, and 1 to 20 digits.
fn is_time(line: &[u8]) -> bool
    ensures { result ≡ is_time line.now }
{
    match line {
        [b't', b'i', b'm', b'e', b' ', text @ ..] => {
            1 <= text.len() && text.len() <= 20 && all_digits(text)
        }
        _ => false,
    }
}

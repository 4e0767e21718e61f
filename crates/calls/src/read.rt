// Calls out of bytes.
ghost use Rattle.std.specs.Prelude.{◌≡◌, ◌≤◌, Some as some, None as none};
ghost use Rattle.calls.specs.Parts.{cut_in, short_in, long_in, many_in};
ghost use Rattle.calls.specs.Raw.{Cancel', Show', Forget', only_key, keyed, start_key, tell_key, take_kinds, longer_in, report_in, time_in, kind_in, raw_in};
ghost use Rattle.calls.specs.Seen.{cut_seen, call_seen};
ghost use Rattle.calls.specs.Stands.{InRangeOf};

use crate::types::{Attempt, Call, FlowId, Kinds, Step, Words};
use wire::bytes::{eight_at, four_at, two_at};

// Some bytes at the front, and what follows them.
#[derive(Clone, Copy)]
pub(crate) struct Cut<'a> {
    part: &'a [u8],
    rest: &'a [u8],
}

fn split(bytes: &[u8], n: usize) -> Option<Cut<'_>>
    ensures { cut_seen result ≡ cut_in n bytes.now }
{
    let (part, rest) = bytes.split_at_checked(n)?;
    Some(Cut { part, rest })
}

// A length of one byte, and so many bytes.
fn short(bytes: &[u8]) -> Option<Cut<'_>>
    ensures { cut_seen result ≡ short_in bytes.now }
{
    let (count, rest) = bytes.split_first()?;
    split(rest, usize::from(*count))
}

// A length of four bytes, and so many bytes.
fn long(bytes: &[u8]) -> Option<Cut<'_>>
    ensures { cut_seen result ≡ long_in bytes.now }
{
    if bytes.len() < 4 {
        return None;
    }
    split(&bytes[4..], four_at(bytes, 0) as usize)
}

// How many, of one byte, and so many parts of this size.
fn many(bytes: &[u8], size: usize) -> Option<Cut<'_>>
    requires { size ≤ 8 }
    ensures { cut_seen result ≡ many_in size bytes.now }
{
    let (count, rest) = bytes.split_first()?;
    split(rest, size * usize::from(*count))
}

// A key and no more.
fn key_alone(bytes: &[u8]) -> Option<&[u8]>
    ensures { elim result [ some k ↦ only_key (short_in bytes.now) ≡ some k.now | none ↦ only_key (short_in bytes.now) ≡ none ] }
{
    let key = short(bytes)?;
    if !key.rest.is_empty() {
        return None;
    }
    Some(key.part)
}

fn start(bytes: &[u8]) -> Option<Call<'_>>
    ensures { call_seen result ≡ start_key (short_in bytes.now) }
{
    let key = short(bytes)?;
    let plan = long(key.rest)?;
    let words = many(plan.rest, 8)?;
    if !words.rest.is_empty() {
        return None;
    }
    Some(Call::Start {
        key: key.part,
        plan: plan.part,
        words: Words::new(words.part),
    })
}

fn tell(bytes: &[u8]) -> Option<Call<'_>>
    ensures { call_seen result ≡ tell_key (short_in bytes.now) }
{
    let key = short(bytes)?;
    let name = short(key.rest)?;
    if name.rest.len() != 8 {
        return None;
    }
    Some(Call::Tell {
        key: key.part,
        name: name.part,
        value: eight_at(name.rest, 0),
    })
}

fn cancel(bytes: &[u8]) -> Option<Call<'_>>
    ensures { call_seen result ≡ keyed Cancel' (only_key (short_in bytes.now)) }
{
    let key = key_alone(bytes)?;
    Some(Call::Cancel { key })
}

fn take(bytes: &[u8]) -> Option<Call<'_>>
    ensures { call_seen result ≡ take_kinds (many_in 4 bytes.now) }
{
    let kinds = many(bytes, 4)?;
    if kinds.rest.len() != 4 {
        return None;
    }
    Some(Call::Take {
        kinds: Kinds::new(kinds.part),
        ms: four_at(kinds.rest, 0),
    })
}

fn longer(bytes: &[u8]) -> Option<Call<'_>>
    ensures { call_seen result ≡ longer_in bytes.now }
{
    if bytes.len() != 22 {
        return None;
    }
    Some(Call::Longer {
        flow: FlowId(eight_at(bytes, 0)),
        step: Step(eight_at(bytes, 8)),
        attempt: Attempt(two_at(bytes, 16)),
        ms: four_at(bytes, 18),
    })
}

fn report(bytes: &[u8]) -> Option<Call<'_>>
    ensures { call_seen result ≡ report_in bytes.now }
{
    if bytes.len() != 27 {
        return None;
    }
    let well = match bytes[18] {
        0 => false,
        1 => true,
        _ => return None,
    };
    Some(Call::Report {
        flow: FlowId(eight_at(bytes, 0)),
        step: Step(eight_at(bytes, 8)),
        attempt: Attempt(two_at(bytes, 16)),
        well,
        value: eight_at(bytes, 19),
    })
}

fn show(bytes: &[u8]) -> Option<Call<'_>>
    ensures { call_seen result ≡ keyed Show' (only_key (short_in bytes.now)) }
{
    let key = key_alone(bytes)?;
    Some(Call::Show { key })
}

fn forget(bytes: &[u8]) -> Option<Call<'_>>
    ensures { call_seen result ≡ keyed Forget' (only_key (short_in bytes.now)) }
{
    let key = key_alone(bytes)?;
    Some(Call::Forget { key })
}

fn time(bytes: &[u8]) -> Option<Call<'_>>
    ensures { call_seen result ≡ time_in bytes.now }
{
    if bytes.len() != 8 {
        return None;
    }
    Some(Call::Time {
        ms: eight_at(bytes, 0),
    })
}

fn of_kind(kind: u8, bytes: &[u8]) -> Option<Call<'_>>
    ensures { call_seen result ≡ kind_in kind bytes.now }
{
    match kind {
        1 => start(bytes),
        2 => tell(bytes),
        3 => cancel(bytes),
        4 => take(bytes),
        5 => longer(bytes),
        6 => report(bytes),
        7 => show(bytes),
        8 => forget(bytes),
        9 => time(bytes),
        _ => None,
    }
}

// The call that the bytes are; None where they are none.
pub fn read_call(bytes: &[u8]) -> Option<Call<'_>>
    ensures is { call_seen result ≡ raw_in bytes.now }
    ensures ranged { InRangeOf (call_seen result) }
{
    let (kind, rest) = bytes.split_first()?;
    of_kind(*kind, rest)
}

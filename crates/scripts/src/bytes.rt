// Calls into bytes.
ghost use Rattle.std.specs.Prelude.{◌≡◌, ℕ, ◌<◌, true, List, ◌∷◌, ◌++◌, length, IfOk, if◌then◌else◌, Some, None, vec_items, OnOk, nat_lt};
ghost use Rattle.std.specs.Option.{option_map};
ghost use Rattle.calls.specs.Bytes.{two_bytes, four_bytes, eight_bytes, all_of};
ghost use Rattle.calls.specs.Raw.{Start', Tell', Take', Longer', Report', Time', raw_bytes, short_bytes, long_bytes};
ghost use Rattle.calls.specs.Lines.{framed as framing};
ghost use Rattle.scripts.specs.Asks.{raw_of, fits as fitting, bytes_of, line_bytes};

use crate::lines::{Asked, Line};
use calls::types::{Attempt, FlowId, Step};
use std::alloc::{AllocError, Global};

// A number that is written with a fixed count of bytes, the high byte first.
pub trait Wide {
    ghost bytes: { Self → List ℕ };

    fn put(self, out: &mut Vec<u8>) -> Result<(), AllocError>
        ensures { OnOk result (out.new.items ≡ out.old.items ++ bytes self) };
}

impl Wide for u16 {
    ghost bytes = { two_bytes };

    fn put(self, out: &mut Vec<u8>) -> Result<(), AllocError> {
        out.extend_from_slice(&self.to_be_bytes())
    }
}

impl Wide for u32 {
    ghost bytes = { four_bytes };

    fn put(self, out: &mut Vec<u8>) -> Result<(), AllocError> {
        out.extend_from_slice(&self.to_be_bytes())
    }
}

impl Wide for u64 {
    ghost bytes = { eight_bytes };

    fn put(self, out: &mut Vec<u8>) -> Result<(), AllocError> {
        out.extend_from_slice(&self.to_be_bytes())
    }
}

// A length of one byte, and the bytes. That one byte can tell it is tested once for all parts of a call, by `fits`.
fn put_short(out: &mut Vec<u8>, bytes: &[u8]) -> Result<(), AllocError>
    requires { length bytes.now < 256 }
    ensures { OnOk result (out.new.items ≡ out.old.items ++ short_bytes bytes.now) }
{
    out.push(bytes.len() as u8)?;
    out.extend_from_slice(bytes)?;
    Ok(())
}

// A length of four bytes, and the bytes.
fn put_long(out: &mut Vec<u8>, bytes: &[u8]) -> Result<(), AllocError>
    requires { length bytes.now < 4294967296 }
    ensures { OnOk result (out.new.items ≡ out.old.items ++ long_bytes bytes.now) }
{
    (bytes.len() as u32).put(out)?;
    out.extend_from_slice(bytes)?;
    Ok(())
}

// All of them, one behind the other.
fn put_all<T: Wide + Copy>(out: &mut Vec<u8>, values: &[T]) -> Result<(), AllocError>
    ensures { OnOk result (out.new.items ≡ out.old.items ++ all_of T.bytes values.now) }
{
    for value in values {
        value.put(out)?;
    }
    Ok(())
}

fn start(heap: Global, key: &[u8], plan: &[u8], words: &[u64]) -> Result<Vec<u8>, AllocError>
    requires key { length key.now < 256 }
    requires plan { length plan.now < 4294967296 }
    requires words { length words.now < 256 }
    ensures { IfOk result (λ v. v.items ≡ raw_bytes (Start' key.now plan.now words.now)) }
{
    let mut out = Vec::new(heap);
    out.push(1)?;
    put_short(&mut out, key)?;
    put_long(&mut out, plan)?;
    out.push(words.len() as u8)?;
    put_all(&mut out, words)?;
    Ok(out)
}

fn tell(heap: Global, key: &[u8], name: &[u8], value: u64) -> Result<Vec<u8>, AllocError>
    requires key { length key.now < 256 }
    requires name { length name.now < 256 }
    ensures { IfOk result (λ v. v.items ≡ raw_bytes (Tell' key.now name.now value)) }
{
    let mut out = Vec::new(heap);
    out.push(2)?;
    put_short(&mut out, key)?;
    put_short(&mut out, name)?;
    value.put(&mut out)?;
    Ok(out)
}

// A call of this kind with a key alone.
fn keyed(heap: Global, kind: u8, key: &[u8]) -> Result<Vec<u8>, AllocError>
    requires { length key.now < 256 }
    ensures { IfOk result (λ v. v.items ≡ kind ∷ short_bytes key.now) }
{
    let mut out = Vec::new(heap);
    out.push(kind)?;
    put_short(&mut out, key)?;
    Ok(out)
}

fn take(heap: Global, kinds: &[u32], ms: u32) -> Result<Vec<u8>, AllocError>
    requires { length kinds.now < 256 }
    ensures { IfOk result (λ v. v.items ≡ raw_bytes (Take' kinds.now ms)) }
{
    let mut out = Vec::new(heap);
    out.push(4)?;
    out.push(kinds.len() as u8)?;
    put_all(&mut out, kinds)?;
    ms.put(&mut out)?;
    Ok(out)
}

fn longer(
    heap: Global,
    flow: FlowId,
    step: Step,
    attempt: Attempt,
    ms: u32,
) -> Result<Vec<u8>, AllocError>
    ensures { IfOk result (λ v. v.items ≡ raw_bytes (Longer' flow.0 step.0 attempt.0 ms)) }
{
    let mut out = Vec::new(heap);
    out.push(5)?;
    flow.0.put(&mut out)?;
    step.0.put(&mut out)?;
    attempt.0.put(&mut out)?;
    ms.put(&mut out)?;
    Ok(out)
}

fn report(
    heap: Global,
    flow: FlowId,
    step: Step,
    attempt: Attempt,
    well: bool,
    value: u64,
) -> Result<Vec<u8>, AllocError>
    ensures { IfOk result (λ v. v.items ≡ raw_bytes (Report' flow.0 step.0 attempt.0 well value)) }
{
    let mut out = Vec::new(heap);
    out.push(6)?;
    flow.0.put(&mut out)?;
    step.0.put(&mut out)?;
    attempt.0.put(&mut out)?;
    out.push(u8::from(well))?;
    value.put(&mut out)?;
    Ok(out)
}

fn time(heap: Global, ms: u64) -> Result<Vec<u8>, AllocError>
    ensures { IfOk result (λ v. v.items ≡ raw_bytes (Time' ms)) }
{
    let mut out = Vec::new(heap);
    out.push(9)?;
    ms.put(&mut out)?;
    Ok(out)
}

// Are its parts no longer than their lengths can tell.
fn fits(asked: &Asked) -> bool
    ensures { result ≡ fitting asked.now }
{
    match asked {
        Asked::Start { key, words, plan } => {
            key.len() < 256 && (plan.len() < 4294967296 && words.len() < 256)
        }
        Asked::Tell { key, name, .. } => key.len() < 256 && name.len() < 256,
        Asked::Take { kinds, .. } => kinds.len() < 256,
        Asked::Cancel { key } | Asked::Show { key } | Asked::Forget { key } => key.len() < 256,
        Asked::Longer { .. } | Asked::Report { .. } | Asked::Time { .. } => true,
    }
}

fn written(heap: Global, asked: &Asked) -> Result<Vec<u8>, AllocError>
    requires { fitting asked.now ≡ true }
    ensures { IfOk result (λ v. v.items ≡ raw_bytes (raw_of asked.now)) }
{
    match asked {
        Asked::Start { key, words, plan } => {
            start(heap, key.as_slice(), plan.as_slice(), words.as_slice())
        }
        Asked::Tell { key, name, value } => tell(heap, key.as_slice(), name.as_slice(), *value),
        Asked::Cancel { key } => keyed(heap, 3, key.as_slice()),
        Asked::Take { kinds, ms } => take(heap, kinds.as_slice(), *ms),
        Asked::Longer {
            flow,
            step,
            attempt,
            ms,
        } => longer(heap, *flow, *step, *attempt, *ms),
        Asked::Report {
            flow,
            step,
            attempt,
            well,
            value,
        } => report(heap, *flow, *step, *attempt, *well, *value),
        Asked::Show { key } => keyed(heap, 7, key.as_slice()),
        Asked::Forget { key } => keyed(heap, 8, key.as_slice()),
        Asked::Time { ms } => time(heap, *ms),
    }
}

// The bytes of a call; None where a part is longer than its length can tell.
pub fn asked_bytes(heap: Global, asked: &Asked) -> Result<Option<Vec<u8>>, AllocError>
    ensures { IfOk result (λ o. option_map vec_items o ≡ bytes_of asked.now) }
{
    if !fits(asked) {
        return Ok(None);
    }
    let bytes = written(heap, asked)?;
    Ok(Some(bytes))
}

// The bytes of the call that a line is; None where it is no call.
pub fn call_bytes(heap: Global, line: &Line) -> Result<Option<Vec<u8>>, AllocError>
    ensures { IfOk result (λ o. option_map vec_items o ≡ line_bytes line.now) }
{
    match line {
        Line::Call(asked) => asked_bytes(heap, asked),
        _ => Ok(None),
    }
}

// A framed line: the length of the rest, a tag, and a call or an answer; None where it is too long.
pub fn framed(heap: Global, tag: u32, bytes: &[u8]) -> Result<Option<Vec<u8>>, AllocError>
    ensures { IfOk result (λ o. option_map vec_items o ≡ (if nat_lt (length bytes.now) 4294967292 then Some (framing tag bytes.now) else None)) }
{
    if bytes.len() >= 4294967292 {
        return Ok(None);
    }
    let mut out = Vec::new(heap);
    ((bytes.len() + 4) as u32).put(&mut out)?;
    tag.put(&mut out)?;
    out.extend_from_slice(bytes)?;
    Ok(Some(out))
}

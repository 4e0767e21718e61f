// Lines out of their text.
ghost use Rattle.std.specs.Prelude.{◌<◌, IfSome, IfOk, vec_len};
ghost use Rattle.scripts.specs.Asks.{Sayable};

use crate::lines::{Asked, BadLine, Line, MOST};
use crate::number::number;
use crate::words::Words;
use calls::types::{Attempt, FlowId, Step};
use std::alloc::Global;
use wire::hex::from_hex;

// The word that begins a line.
#[derive(Clone, Copy)]
pub(crate) enum Command {
    Lines,
    Time,
    Start,
    Tell,
    Cancel,
    Take,
    Longer,
    Report,
    Show,
    Forget,
    In,
    Fail,
    Table,
    Work,
    Flows,
}

fn command_of(word: &[u8]) -> Result<Command, BadLine> {
    match word {
        b"lines" => Ok(Command::Lines),
        b"time" => Ok(Command::Time),
        b"start" => Ok(Command::Start),
        b"tell" => Ok(Command::Tell),
        b"cancel" => Ok(Command::Cancel),
        b"take" => Ok(Command::Take),
        b"longer" => Ok(Command::Longer),
        b"report" => Ok(Command::Report),
        b"show" => Ok(Command::Show),
        b"forget" => Ok(Command::Forget),
        b"in" => Ok(Command::In),
        b"fail" => Ok(Command::Fail),
        b"table" => Ok(Command::Table),
        b"work" => Ok(Command::Work),
        b"flows" => Ok(Command::Flows),
        _ => Err(BadLine::Command),
    }
}

fn key_of(heap: Global, words: &mut Words<'_>) -> Result<Vec<u8>, BadLine>
    ensures { IfOk result (λ v. vec_len v < 256) }
{
    let word = words.next().ok_or(BadLine::Key)?;
    if word.len() > MOST {
        return Err(BadLine::Key);
    }
    Ok(Vec::from_slice(heap, word)?)
}

fn name_of(heap: Global, words: &mut Words<'_>) -> Result<Vec<u8>, BadLine>
    ensures { IfOk result (λ v. vec_len v < 256) }
{
    match key_of(heap, words) {
        Err(BadLine::Key) => Err(BadLine::Name),
        named => named,
    }
}

fn word_of(words: &mut Words<'_>) -> Result<u64, BadLine> {
    number(words.next(), u64::MAX)
}

fn short_of(words: &mut Words<'_>) -> Result<u32, BadLine> {
    Ok(number(words.next(), 4294967295)? as u32)
}

fn attempt_of(words: &mut Words<'_>) -> Result<Attempt, BadLine> {
    Ok(Attempt(number(words.next(), 65535)? as u16))
}

// What a list of numbers ends with, and what is wrong where it doesn't or where it is too long.
struct End {
    word: &'static [u8],
    missing: BadLine,
    too_many: BadLine,
}

// Behind the words of a flow.
const PLAN: End = End {
    word: b":",
    missing: BadLine::Colon,
    too_many: BadLine::Words,
};

// Behind kinds.
const FOR: End = End {
    word: b"for",
    missing: BadLine::For,
    too_many: BadLine::Kinds,
};

// Numbers, up to the word that ends them.
fn listed<T: Drop, F: Fn(&[u8]) -> Result<T, BadLine>>(
    heap: Global,
    words: &mut Words<'_>,
    end: &End,
    number_in: F,
) -> Result<Vec<T>, BadLine>
    requires { F.IsAlwaysCallable number_in }
    ensures { IfOk result (λ v. vec_len v < 256) }
{
    let mut found = Vec::new(heap);
    for _i in 0..MOST + 1 {
        let word = words.next().ok_or(end.missing)?;
        if word == end.word {
            return Ok(found);
        }
        found.push(number_in(word)?)?;
    }
    Err(end.too_many)
}

fn words_of(heap: Global, words: &mut Words<'_>) -> Result<Vec<u64>, BadLine>
    ensures { IfOk result (λ v. vec_len v < 256) }
{
    listed(heap, words, &PLAN, |word| number(Some(word), u64::MAX))
}

fn kinds_of(heap: Global, words: &mut Words<'_>) -> Result<Vec<u32>, BadLine>
    ensures { IfOk result (λ v. vec_len v < 256) }
{
    listed(heap, words, &FOR, |word| {
        Ok(number(Some(word), 4294967295)? as u32)
    })
}

fn start(heap: Global, words: &mut Words<'_>) -> Result<Line, BadLine>
    ensures { IfOk result Sayable }
{
    let key = key_of(heap, words)?;
    let found = words_of(heap, words)?;
    let text = words.all();
    if text.len() > 4294967295 {
        return Err(BadLine::Plan);
    }
    let plan = Vec::from_slice(heap, text)?;
    Ok(Line::Call(Asked::Start {
        key,
        words: found,
        plan,
    }))
}

fn tell(heap: Global, words: &mut Words<'_>) -> Result<Line, BadLine>
    ensures { IfOk result Sayable }
{
    let key = key_of(heap, words)?;
    let name = name_of(heap, words)?;
    let value = word_of(words)?;
    Ok(Line::Call(Asked::Tell { key, name, value }))
}

fn take(heap: Global, words: &mut Words<'_>) -> Result<Line, BadLine>
    ensures { IfOk result Sayable }
{
    let kinds = kinds_of(heap, words)?;
    let ms = short_of(words)?;
    Ok(Line::Call(Asked::Take { kinds, ms }))
}

fn longer(words: &mut Words<'_>) -> Result<Line, BadLine>
    ensures { IfOk result Sayable }
{
    let flow = FlowId(word_of(words)?);
    let step = Step(word_of(words)?);
    let attempt = attempt_of(words)?;
    let ms = short_of(words)?;
    Ok(Line::Call(Asked::Longer {
        flow,
        step,
        attempt,
        ms,
    }))
}

// The value of a task that was done well; None for one that was done badly.
fn outcome(words: &mut Words<'_>) -> Result<Option<u64>, BadLine> {
    match words.next() {
        Some(b"well") => Ok(Some(word_of(words)?)),
        Some(b"bad") => Ok(None),
        _ => Err(BadLine::Outcome),
    }
}

fn report(words: &mut Words<'_>) -> Result<Line, BadLine>
    ensures { IfOk result Sayable }
{
    let flow = FlowId(word_of(words)?);
    let step = Step(word_of(words)?);
    let attempt = attempt_of(words)?;
    let done = outcome(words)?;
    Ok(Line::Call(Asked::Report {
        flow,
        step,
        attempt,
        well: done.is_some(),
        value: done.unwrap_or(0),
    }))
}

fn time(words: &mut Words<'_>) -> Result<Line, BadLine>
    ensures { IfOk result Sayable }
{
    let ms = word_of(words)?;
    Ok(Line::Call(Asked::Time { ms }))
}

fn line_in(heap: Global, words: &mut Words<'_>) -> Result<Line, BadLine>
    ensures { IfOk result Sayable }
{
    let word = words.next().ok_or(BadLine::Hex)?;
    let bytes = from_hex(heap, word)?.ok_or(BadLine::Hex)?;
    Ok(Line::In(bytes))
}

fn fail(words: &mut Words<'_>) -> Result<Line, BadLine>
    ensures { IfOk result Sayable }
{
    let stores = word_of(words)?;
    let seed = word_of(words)?;
    Ok(Line::Fail { stores, seed })
}

fn table(heap: Global, words: &mut Words<'_>) -> Result<Line, BadLine>
    ensures { IfOk result Sayable }
{
    let kind = short_of(words)?;
    let expression = Vec::from_slice(heap, words.all())?;
    Ok(Line::Table { kind, expression })
}

fn work(heap: Global, words: &mut Words<'_>) -> Result<Line, BadLine>
    ensures { IfOk result Sayable }
{
    let kinds = kinds_of(heap, words)?;
    let ms = short_of(words)?;
    if !next_is(words, b"seed") {
        return Err(BadLine::Seed);
    }
    let seed = word_of(words)?;
    if !next_is(words, b"bad") {
        return Err(BadLine::Bad);
    }
    let bad = number(words.next(), 100)? as u8;
    Ok(Line::Work {
        kinds,
        ms,
        seed,
        bad,
    })
}

fn next_is(words: &mut Words<'_>, expected: &[u8]) -> bool {
    words.next() == Some(expected)
}

fn line_of(heap: Global, command: Command, words: &mut Words<'_>) -> Result<Line, BadLine>
    ensures { IfOk result Sayable }
{
    match command {
        Command::Lines => Ok(Line::Lines(word_of(words)?)),
        Command::Time => time(words),
        Command::Start => start(heap, words),
        Command::Tell => tell(heap, words),
        Command::Cancel => {
            let key = key_of(heap, words)?;
            Ok(Line::Call(Asked::Cancel { key }))
        }
        Command::Take => take(heap, words),
        Command::Longer => longer(words),
        Command::Report => report(words),
        Command::Show => {
            let key = key_of(heap, words)?;
            Ok(Line::Call(Asked::Show { key }))
        }
        Command::Forget => {
            let key = key_of(heap, words)?;
            Ok(Line::Call(Asked::Forget { key }))
        }
        Command::In => line_in(heap, words),
        Command::Fail => fail(words),
        Command::Table => table(heap, words),
        Command::Work => work(heap, words),
        Command::Flows => Ok(Line::Flows),
    }
}

// The line that a text is; None where it is empty or a remark.
pub fn read_line(heap: Global, text: &[u8]) -> Result<Option<Line>, BadLine>
    ensures { IfOk result (λ o. IfSome o Sayable) }
{
    let mut words = Words::of(text);
    let Some(word) = words.next() else {
        return Ok(None);
    };
    let command = command_of(word)?;
    let line = line_of(heap, command, &mut words)?;
    if words.next().is_some() {
        return Err(BadLine::End);
    }
    Ok(Some(line))
}

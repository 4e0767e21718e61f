// Statements that begin with a variable: tasks and hearings.
ghost use Rattle.std.specs.Prelude.{◌≡◌, ℕ, ◌+◌, ◌-◌, ◌*◌, ◌<◌, ◌≤◌, length, take, slice_index};
ghost use Rattle.plans.specs.Flat.{padded};
ghost use Rattle.text.specs.Ahead.{ahead};
ghost use Rattle.reading.specs.Levels.{Onwards};
ghost use Rattle.reading.specs.Statements.{args_at, list_at, task_at, hear_at, assign_at, ReadStmt};
ghost use Rattle.reading.specs.Tasks.{ReadFront, ReadBack, ReadArgs, ArgsOn, ReadHeard, named};

use crate::error::{Expected, NoPlan};
use crate::exprs::{Cursor, Level, chain};
use crate::heads::{BRACKETS, head, units};
use crate::tokens;
use crate::tokens::Found;
use plans::kinds;
use text::{Key, Token, token_at};

// The largest kind, how often a task may be tried, its longest pause in ms, and its most arguments.
const MOST_KIND: u64 = 4294967295;

const MOST_TRIES: u64 = 32;

const LONGEST_PAUSE: u64 = 86400000;

const MOST_ARGUMENTS: u64 = 16;

// How often a task is tried, and the pause behind its first try.
#[derive(Clone, Copy, Debug, PartialEq, Eq)]
pub struct Back {
    pub tries: u64,
    pub pause: u64,
    pub next: usize,
}

// Arguments: how far the text is read and the draft written, and how many there are.
#[derive(Clone, Copy, Debug, PartialEq, Eq)]
pub struct Args {
    pub at: Cursor,
    pub count: u64,
}

// A hearing's other variable, and where its name begins and ends.
#[derive(Clone, Copy, Debug, PartialEq, Eq)]
pub struct Hearing {
    pub other: u64,
    pub start: usize,
    pub end: usize,
    pub next: usize,
}

// Behind a variable and =: do, a kind and an opening bracket.
fn task_front(text: &[u8], pos: usize) -> Result<Found<u64>, NoPlan>
    requires { pos ≤ length text.now }
    ensures { ReadFront result text.now pos }
{
    let first = tokens::key(text, pos, Key::Do)?;
    let kind = tokens::number(text, first)?;
    if kind.value > MOST_KIND {
        return Err(Expected::Kind.at(kind.start));
    }
    let next = tokens::key(text, kind.next, Key::Open)?;
    Ok(Found {
        value: kind.value,
        start: kind.start,
        next,
    })
}

// Behind the arguments: tries and pause.
fn task_back(text: &[u8], pos: usize) -> Result<Back, NoPlan>
    requires { pos ≤ length text.now }
    ensures { ReadBack result text.now pos }
{
    let first = tokens::key(text, pos, Key::Tries)?;
    let tries = tokens::number(text, first)?;
    if tries.value == 0 || tries.value > MOST_TRIES {
        return Err(Expected::Tries.at(tries.start));
    }
    let then = tokens::key(text, tries.next, Key::Pause)?;
    let pause = tokens::number(text, then)?;
    if pause.value > LONGEST_PAUSE {
        return Err(Expected::Pause.at(pause.start));
    }
    Ok(Back {
        tries: tries.value,
        pause: pause.value,
        next: pause.next,
    })
}

// Behind an argument: others, and the closing bracket.
fn more_arguments(text: &[u8], at: Cursor, out: &mut [u64], count: u64) -> Result<Args, NoPlan>
    requires within { at.pos ≤ length text.now }
    requires room { at.len ≤ length out.old }
    requires few { count ≤ 16 }
    ensures forth { ArgsOn result at.pos at.len (length text.now) (length out.old) }
    ensures read { ReadArgs result args_at (ahead text.now at.pos) text.now (take at.len out.old) count out.new }
{
    let found = token_at(text, at.pos);
    if found.token == Token::Key(Key::Close) {
        let at = Cursor {
            pos: found.next,
            ..at
        };
        return Ok(Args { at, count });
    }
    let pos = tokens::key(text, at.pos, Key::Comma)?;
    if count >= MOST_ARGUMENTS {
        return Err(Expected::Arguments.at(found.start));
    }
    let c = chain(Level::Compare, text, Cursor { pos, ..at }, out, BRACKETS)?;
    more_arguments(text, c, out, count + 1)
}

// Behind the opening bracket.
fn arguments(text: &[u8], at: Cursor, out: &mut [u64]) -> Result<Args, NoPlan>
    requires within { at.pos ≤ length text.now }
    requires room { at.len ≤ length out.old }
    ensures forth { ArgsOn result at.pos at.len (length text.now) (length out.old) }
    ensures read { ReadArgs result list_at (ahead text.now at.pos) text.now (take at.len out.old) 0 out.new }
{
    let found = token_at(text, at.pos);
    if found.token == Token::Key(Key::Close) {
        let at = Cursor {
            pos: found.next,
            ..at
        };
        return Ok(Args { at, count: 0 });
    }
    let c = chain(Level::Compare, text, at, out, BRACKETS)?;
    more_arguments(text, c, out, 1)
}

// Behind a variable and =.
fn task(text: &[u8], start: usize, v: u64, at: Cursor, out: &mut [u64]) -> Result<Cursor, NoPlan>
    requires within { at.pos ≤ length text.now }
    requires room { at.len ≤ length out.old }
    ensures forth { Onwards result at.pos at.len (length text.now) (length out.old) }
    ensures read { ReadStmt result (task_at v) (ahead text.now at.pos) text.now (take at.len out.old) out.new }
{
    let front = task_front(text, at.pos)?;
    at.room(out, 16, start)?;
    let behind = Cursor {
        pos: front.next,
        len: at.len + 16,
    };
    let args = arguments(text, behind, out)?;
    let back = task_back(text, args.at.pos)?;
    head(out, at.len + 12, 0, 0, 0, 0);
    head(out, at.len + 8, 0, 0, 0, 0);
    head(
        out,
        at.len + 4,
        front.value,
        back.tries,
        back.pause,
        args.count,
    );
    head(out, at.len, kinds::DO, v, units(at.len, args.at.len), 0);
    Ok(Cursor {
        pos: back.next,
        ..args.at
    })
}

// Behind a variable and a comma: another variable, =, hear, a name and for.
fn hearing_front(text: &[u8], v: u64, pos: usize) -> Result<Hearing, NoPlan>
    requires { pos ≤ length text.now }
    ensures { ReadHeard result v text.now pos }
{
    let other = tokens::variable(text, pos)?;
    if other.value == v {
        return Err(Expected::OtherVariable.at(other.start));
    }
    let hears = tokens::same(text, other.next)?;
    let first = tokens::key(text, hears, Key::Hear)?;
    let name = tokens::name(text, first)?;
    let next = tokens::key(text, name.next, Key::For)?;
    Ok(Hearing {
        other: other.value,
        start: name.start,
        end: name.next,
        next,
    })
}

// The letter at a place of a name, and 0 behind it.
fn letter(name: &[u8], i: usize) -> u64
    requires { i < 64 }
    ensures { result ≡ slice_index (padded name.now) i }
{
    name.get(i).map_or(0, |&letter| u64::from(letter))
}

// A name, one letter a word, and zeros behind it.
// A loop over places: `zip` of the words with the letters would end with the name, before the zeros.
fn write_name(out: &mut [u64], at: usize, name: &[u8])
    requires { at + 64 ≤ length out.old }
    ensures { out.new ≡ named out.old at name.now }
{
    for i in 0..64 {
        out[at + i] = letter(name, i);
    }
}

// Behind a variable and a comma.
fn hear(text: &[u8], start: usize, v: u64, at: Cursor, out: &mut [u64]) -> Result<Cursor, NoPlan>
    requires within { at.pos ≤ length text.now }
    requires room { at.len ≤ length out.old }
    ensures forth { Onwards result at.pos at.len (length text.now) (length out.old) }
    ensures read { ReadStmt result (hear_at v) (ahead text.now at.pos) text.now (take at.len out.old) out.new }
{
    let front = hearing_front(text, v, at.pos)?;
    at.room(out, 68, start)?;
    let behind = Cursor {
        pos: front.next,
        len: at.len + 68,
    };
    let c = chain(Level::Compare, text, behind, out, BRACKETS)?;
    write_name(out, at.len + 4, &text[front.start..front.end]);
    head(
        out,
        at.len,
        kinds::HEAR,
        v,
        units(at.len, c.len),
        front.other,
    );
    Ok(c)
}

// Behind the variable that a statement begins with.
pub fn behind_variable(
    text: &[u8],
    start: usize,
    v: u64,
    at: Cursor,
    out: &mut [u64],
) -> Result<Cursor, NoPlan>
    requires within { at.pos ≤ length text.now }
    requires room { at.len ≤ length out.old }
    ensures forth { Onwards result at.pos at.len (length text.now) (length out.old) }
    ensures read { ReadStmt result (assign_at v) (ahead text.now at.pos) text.now (take at.len out.old) out.new }
{
    if let Ok(pos) = tokens::same(text, at.pos) {
        return task(text, start, v, Cursor { pos, ..at }, out);
    }
    if let Ok(pos) = tokens::key(text, at.pos, Key::Comma) {
        return hear(text, start, v, Cursor { pos, ..at }, out);
    }
    Err(Expected::Assignment.at(token_at(text, at.pos).start))
}

// Statements and parts, which call each other.
ghost use Rattle.std.specs.Prelude.{◌≡◌, ℕ, ◌+◌, ◌-◌, ◌*◌, ◌<◌, ◌≤◌, true, [], length, take};
ghost use Rattle.text.specs.Lexer.{Lexed, both};
ghost use Rattle.text.specs.Lexer.{tokens as lexemes};
ghost use Rattle.text.specs.Ahead.{ahead, meant, stops};
ghost use Rattle.reading.specs.Beginnings.{begins_at, ends_at, Failure};
ghost use Rattle.reading.specs.Levels.{Onwards};
ghost use Rattle.reading.specs.Statements.{opened_at, other_at, if_at, while_at, guard_at, stmt_at, part_at, ReadStmt, ReadPart};

use crate::error::{Expected, NoPlan};
use crate::exprs::{Cursor, leaf};
use crate::heads::{assignment, head, headed, units, with_expr};
use crate::tasks::behind_variable;
use crate::tokens;
use plans::kinds;
use text::{Key, Lexeme, Token, token_at};

// How a statement begins.
#[derive(Clone, Copy, Debug, PartialEq, Eq)]
pub enum Beginning {
    Set,
    Sleep,
    If,
    While,
    Guard,
    Return,
    Fail,
    Variable(u64),
}

fn begins(token: Token) -> Option<Beginning>
    ensures { result ≡ begins_at token }
{
    match token {
        Token::Variable(v) => Some(Beginning::Variable(v)),
        Token::Key(Key::Set) => Some(Beginning::Set),
        Token::Key(Key::Sleep) => Some(Beginning::Sleep),
        Token::Key(Key::If) => Some(Beginning::If),
        Token::Key(Key::While) => Some(Beginning::While),
        Token::Key(Key::Guard) => Some(Beginning::Guard),
        Token::Key(Key::Return) => Some(Beginning::Return),
        Token::Key(Key::Fail) => Some(Beginning::Fail),
        _ => None,
    }
}

// Does a part end here.
fn ends(token: Token) -> bool
    ensures { result ≡ ends_at token }
{
    matches!(token, Token::Stop | Token::Key(Key::End))
}

// A part in braces.
#[cycle(parts)]
fn opened(text: &[u8], at: Cursor, out: &mut [u64]) -> Result<Cursor, NoPlan>
    requires within { at.pos ≤ length text.now }
    requires room { at.len ≤ length out.old }
    ensures forth { Onwards result at.pos at.len (length text.now) (length out.old) }
    ensures read { ReadPart result opened_at (ahead text.now at.pos) text.now (take at.len out.old) out.new }
{
    let first = tokens::key(text, at.pos, Key::Begin)?;
    let c = part(text, Cursor { pos: first, ..at }, out)?;
    let pos = tokens::key(text, c.pos, Key::End)?;
    Ok(Cursor { pos, ..c })
}

// The word else, and a part in braces.
#[cycle(parts)]
fn other(text: &[u8], at: Cursor, out: &mut [u64]) -> Result<Cursor, NoPlan>
    requires within { at.pos ≤ length text.now }
    requires room { at.len ≤ length out.old }
    ensures forth { Onwards result at.pos at.len (length text.now) (length out.old) }
    ensures read { ReadPart result other_at (ahead text.now at.pos) text.now (take at.len out.old) out.new }
{
    let pos = tokens::key(text, at.pos, Key::Else)?;
    opened(text, Cursor { pos, ..at }, out)
}

// Behind the word if.
#[cycle(parts)]
fn fork(text: &[u8], start: usize, at: Cursor, out: &mut [u64]) -> Result<Cursor, NoPlan>
    requires within { at.pos ≤ length text.now }
    requires room { at.len ≤ length out.old }
    ensures forth { Onwards result at.pos at.len (length text.now) (length out.old) }
    ensures read { ReadStmt result if_at (ahead text.now at.pos) text.now (take at.len out.old) out.new }
{
    let c = headed(text, start, at, out)?;
    let first = opened(text, c, out)?;
    let last = other(text, first, out)?;
    head(
        out,
        at.len,
        kinds::IF,
        units(at.len, first.len),
        units(at.len, last.len),
        units(at.len + 4, c.len),
    );
    Ok(last)
}

// Behind the word while.
#[cycle(parts)]
fn turning(text: &[u8], start: usize, at: Cursor, out: &mut [u64]) -> Result<Cursor, NoPlan>
    requires within { at.pos ≤ length text.now }
    requires room { at.len ≤ length out.old }
    ensures forth { Onwards result at.pos at.len (length text.now) (length out.old) }
    ensures read { ReadStmt result while_at (ahead text.now at.pos) text.now (take at.len out.old) out.new }
{
    let c = headed(text, start, at, out)?;
    let last = opened(text, c, out)?;
    head(
        out,
        at.len,
        kinds::WHILE,
        0,
        units(at.len, last.len),
        units(at.len + 4, c.len),
    );
    Ok(last)
}

// Behind the word guard.
#[cycle(parts)]
fn guarded(text: &[u8], start: usize, at: Cursor, out: &mut [u64]) -> Result<Cursor, NoPlan>
    requires within { at.pos ≤ length text.now }
    requires room { at.len ≤ length out.old }
    ensures forth { Onwards result at.pos at.len (length text.now) (length out.old) }
    ensures read { ReadStmt result guard_at (ahead text.now at.pos) text.now (take at.len out.old) out.new }
{
    at.room(out, 4, start)?;
    let behind = Cursor {
        len: at.len + 4,
        ..at
    };
    let first = opened(text, behind, out)?;
    let last = other(text, first, out)?;
    head(
        out,
        at.len,
        kinds::GUARD,
        units(at.len, first.len),
        units(at.len, last.len),
        0,
    );
    Ok(last)
}

// Behind the word fail.
fn failure(start: usize, at: Cursor, out: &mut [u64]) -> Result<Cursor, NoPlan>
    requires room { at.len ≤ length out.old }
    ensures { Failure result at.pos at.len out.old out.new }
{
    at.room(out, 4, start)?;
    head(out, at.len, kinds::FAIL, 0, 1, 0);
    Ok(Cursor {
        len: at.len + 4,
        ..at
    })
}

// The statement that begins with this token.
#[cycle(parts)]
fn statement(text: &[u8], found: Lexeme, len: usize, out: &mut [u64]) -> Result<Cursor, NoPlan>
    requires within { found.next ≤ length text.now }
    requires room { len ≤ length out.old }
    ensures forth { Onwards result found.next len (length text.now) (length out.old) }
    ensures read { (l : Lexed) → l ≡ both (meant text.now found) (ahead text.now found.next) → (stops found.token ≡ true → ahead text.now found.next ≡ lexemes []) → ReadStmt result stmt_at l text.now (take len out.old) out.new }
{
    let start = found.start;
    let at = Cursor {
        pos: found.next,
        len,
    };
    match begins(found.token) {
        Some(Beginning::Set) => assignment(text, start, at, out),
        Some(Beginning::Sleep) => with_expr(text, start, at, out, kinds::SLEEP, 0),
        Some(Beginning::If) => fork(text, start, at, out),
        Some(Beginning::While) => turning(text, start, at, out),
        Some(Beginning::Guard) => guarded(text, start, at, out),
        Some(Beginning::Return) => with_expr(text, start, at, out, kinds::RETURN, 0),
        Some(Beginning::Fail) => failure(start, at, out),
        Some(Beginning::Variable(v)) => behind_variable(text, start, v, at, out),
        None => Err(Expected::Statement.at(start)),
    }
}

// Statements up to what ends a part.
#[cycle(parts)]
pub fn part(text: &[u8], at: Cursor, out: &mut [u64]) -> Result<Cursor, NoPlan>
    requires within { at.pos ≤ length text.now }
    requires room { at.len ≤ length out.old }
    ensures forth { Onwards result at.pos at.len (length text.now) (length out.old) }
    ensures read { ReadPart result part_at (ahead text.now at.pos) text.now (take at.len out.old) out.new }
{
    let found = token_at(text, at.pos);
    if ends(found.token) {
        let end = Cursor {
            pos: found.start,
            ..at
        };
        return leaf(found.start, end, kinds::PART, 0, out);
    }
    let c = statement(text, found, at.len, out)?;
    part(text, c, out)
}

// One token of a text, where it is the one that is wanted.
ghost use Rattle.std.specs.Prelude.{◌≡◌, ◌≤◌, length};
ghost use Rattle.text.specs.Ahead.{key_meant};
ghost use Rattle.reading.specs.Tokens.{wanted_of, TookKey, TookSame, TookNumber, TookVariable, TookName};

use crate::error::{Expected, NoPlan};
use text::{Key, Lexeme, Operator, Token, token_at};

// What a token has, where it begins, and where what follows it begins.
#[derive(Clone, Copy, Debug, PartialEq, Eq)]
pub struct Found<T> {
    pub value: T,
    pub start: usize,
    pub next: usize,
}

// A token that has what is wanted.
fn wanted<T>(found: Lexeme, value: Option<T>, expected: Expected) -> Result<Found<T>, NoPlan>
    ensures { result ≡ wanted_of found value expected }
{
    match value {
        Some(value) => Ok(Found {
            value,
            start: found.start,
            next: found.next,
        }),
        None => Err(expected.at(found.start)),
    }
}

// Behind this word or sign.
pub fn key(text: &[u8], pos: usize, want: Key) -> Result<usize, NoPlan>
    requires { pos ≤ length text.now }
    ensures { TookKey result (key_meant want) text.now pos }
{
    let found = token_at(text, pos);
    if found.token == Token::Key(want) {
        Ok(found.next)
    } else {
        Err(Expected::Word(want).at(found.start))
    }
}

// Behind the sign =.
pub fn same(text: &[u8], pos: usize) -> Result<usize, NoPlan>
    requires { pos ≤ length text.now }
    ensures { TookSame result text.now pos }
{
    let found = token_at(text, pos);
    if found.token == Token::Operator(Operator::Same) {
        Ok(found.next)
    } else {
        Err(Expected::Same.at(found.start))
    }
}

pub fn number(text: &[u8], pos: usize) -> Result<Found<u64>, NoPlan>
    requires { pos ≤ length text.now }
    ensures { TookNumber result text.now pos }
{
    let found = token_at(text, pos);
    wanted(found, found.token.as_number(), Expected::Number)
}

pub fn variable(text: &[u8], pos: usize) -> Result<Found<u64>, NoPlan>
    requires { pos ≤ length text.now }
    ensures { TookVariable result text.now pos }
{
    let found = token_at(text, pos);
    wanted(found, found.token.as_variable(), Expected::Variable)
}

// A name, which is the bytes from its start to what follows it.
pub fn name(text: &[u8], pos: usize) -> Result<Found<()>, NoPlan>
    requires { pos ≤ length text.now }
    ensures { TookName result text.now pos }
{
    let found = token_at(text, pos);
    let is_name = found.token == Token::Name;
    wanted(found, is_name.then_some(()), Expected::Name)
}

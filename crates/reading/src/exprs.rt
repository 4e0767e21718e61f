// Expressions: from text to units in postfix order.
ghost use Rattle.std.specs.Prelude.{◌≡◌, ℕ, ◌+◌, ◌-◌, ◌*◌, ◌<◌, ◌≤◌, List, [], ◌∷◌, ◌++◌, length, take, MatchResult};
ghost use Rattle.plans.specs.Plan.{Expr};
ghost use Rattle.plans.specs.Flat.{code_of};
ghost use Rattle.text.specs.Lexer.{Lexed};
ghost use Rattle.reading.specs.declared.exprs.Level.TheVariants.{Unary};
ghost use Rattle.reading.specs.Levels.{below_of, expr_at, more_at, joins_at, opens_at, Further, Onwards, Leaf, ReadExpr, ReadFrom, behind_not, behind_open};

use crate::error::{Expected, NoPlan};
use crate::tokens;
use plans::kinds;
use text::{Key, Lexeme, Operator, Token, token_at};

// From the loosest binding to the tightest.
#[derive(Clone, Copy, Debug, PartialEq, Eq)]
pub enum Level {
    Compare,
    Sum,
    Product,
    Unary,
}

// How an expression without operations begins.
#[derive(Clone, Copy, Debug, PartialEq, Eq)]
pub enum Opening {
    Number(u64),
    Variable(u64),
    Negation,
    Bracket,
}

// How far the text is read, and how many words of the draft are written.
// Two places alone, without the text and the draft: each reader answers with a new cursor, and would have to say of either
// that it is still the same, beside what it says of the places.
#[derive(Clone, Copy, Debug, PartialEq, Eq)]
pub struct Cursor {
    pub pos: usize,
    pub len: usize,
}

fn below(level: Level) -> Level
    ensures { result ≡ below_of level }
{
    match level {
        Level::Compare => Level::Sum,
        Level::Sum => Level::Product,
        Level::Product => Level::Unary,
        Level::Unary => Level::Unary,
    }
}

// The operation that a token is, if it is one of this level.
fn joins(level: Level, token: Token) -> Option<Operator>
    ensures { result ≡ joins_at level token }
{
    let Token::Operator(operator) = token else {
        return None;
    };
    match (level, operator) {
        (Level::Compare, Operator::Less) => Some(Operator::Less),
        (Level::Compare, Operator::Same) => Some(Operator::Same),
        (Level::Sum, Operator::Plus) => Some(Operator::Plus),
        (Level::Sum, Operator::Minus) => Some(Operator::Minus),
        (Level::Product, Operator::Times) => Some(Operator::Times),
        _ => None,
    }
}

fn opens(token: Token) -> Option<Opening>
    ensures { result ≡ opens_at token }
{
    match token {
        Token::Number(n) => Some(Opening::Number(n)),
        Token::Variable(v) => Some(Opening::Variable(v)),
        Token::Key(Key::Not) => Some(Opening::Negation),
        Token::Key(Key::Open) => Some(Opening::Bracket),
        _ => None,
    }
}

impl Cursor {
    // Room for so many words more, for what begins at `start`.
    pub fn room(self, out: &[u64], words: usize, start: usize) -> Result<(), NoPlan>
        requires { self.len ≤ length out.now }
        ensures { MatchResult result (λ _. self.len + words ≤ length out.now) (λ _. length out.now < self.len + words) }
    {
        if out.len() - self.len < words {
            return Err(Expected::Size.at(start));
        }
        Ok(())
    }
}

// One unit more.
fn unit(out: &mut [u64], len: usize, kind: u64, value: u64)
    requires { len + 4 ≤ length out.old }
    ensures { take (len + 4) out.new ≡ take len out.old ++ (kind ∷ value ∷ 0 ∷ 0 ∷ []) }
{
    out[len] = kind;
    out[len + 1] = value;
    out[len + 2] = 0;
    out[len + 3] = 0;
}

// A number or a variable.
pub fn leaf(
    start: usize,
    at: Cursor,
    kind: u64,
    value: u64,
    out: &mut [u64],
) -> Result<Cursor, NoPlan>
    requires { at.len ≤ length out.old }
    ensures { Leaf result at.pos at.len kind value out.old out.new }
{
    at.room(out, 4, start)?;
    unit(out, at.len, kind, value);
    Ok(Cursor {
        len: at.len + 4,
        ..at
    })
}

// Operations of a level and of those that bind tighter, from the left.
#[cycle(levels)]
pub fn chain(
    level: Level,
    text: &[u8],
    at: Cursor,
    out: &mut [u64],
    deep: usize,
) -> Result<Cursor, NoPlan>
    requires within { at.pos ≤ length text.now }
    requires room { at.len ≤ length out.old }
    ensures forth { Further result 1 at (length text.now) (length out.old) }
    ensures read { ReadExpr result (expr_at level deep) text.now at.pos (take at.len out.old) out.new }
{
    if level == Level::Unary {
        return unary(text, at, out, deep);
    }
    let c = chain(below(level), text, at, out, deep)?;
    more(level, text, c, out, deep)
}

// What is behind a first operand, whose units are the last ones written.
#[cycle(levels)]
fn more(
    level: Level,
    text: &[u8],
    at: Cursor,
    out: &mut [u64],
    deep: usize,
) -> Result<Cursor, NoPlan>
    requires within { at.pos ≤ length text.now }
    requires room { at.len ≤ length out.old }
    ensures forth { Further result 0 at (length text.now) (length out.old) }
    ensures read { (pre : List ℕ) (e : Expr) → take at.len out.old ≡ pre ++ code_of e → ReadExpr result (more_at level deep e) text.now at.pos pre out.new }
{
    let found = token_at(text, at.pos);
    let Some(operator) = joins(level, found.token) else {
        return Ok(Cursor {
            pos: found.start,
            ..at
        });
    };
    let right = Cursor {
        pos: found.next,
        ..at
    };
    let c = chain(below(level), text, right, out, deep)?;
    c.room(out, 4, found.start)?;
    unit(
        out,
        c.len,
        u64::from(operator),
        ((c.len - at.len) / 4) as u64,
    );
    more(
        level,
        text,
        Cursor {
            len: c.len + 4,
            ..c
        },
        out,
        deep,
    )
}

// A number, a variable, a negation or a bracket.
#[cycle(levels)]
fn unary(text: &[u8], at: Cursor, out: &mut [u64], deep: usize) -> Result<Cursor, NoPlan>
    requires within { at.pos ≤ length text.now }
    requires room { at.len ≤ length out.old }
    ensures forth { Further result 1 at (length text.now) (length out.old) }
    ensures read { ReadExpr result (expr_at Unary deep) text.now at.pos (take at.len out.old) out.new }
{
    let Lexeme { token, start, next } = token_at(text, at.pos);
    let behind = Cursor { pos: next, ..at };
    match opens(token) {
        Some(Opening::Number(n)) => leaf(start, behind, kinds::NUMBER, n, out),
        Some(Opening::Variable(v)) => leaf(start, behind, kinds::VARIABLE, v, out),
        Some(Opening::Negation) => negation(text, start, behind, out, deep),
        Some(Opening::Bracket) => bracket(text, start, behind, out, deep),
        None => Err(Expected::Expression.at(start)),
    }
}

// Behind the word not.
#[cycle(levels)]
fn negation(
    text: &[u8],
    start: usize,
    at: Cursor,
    out: &mut [u64],
    deep: usize,
) -> Result<Cursor, NoPlan>
    requires within { at.pos ≤ length text.now }
    requires room { at.len ≤ length out.old }
    ensures forth { Onwards result at.pos at.len (length text.now) (length out.old) }
    ensures read { (l : Lexed) → l ≡ behind_not text.now at.pos → ReadFrom result (expr_at Unary deep) l text.now (take at.len out.old) out.new }
{
    let c = unary(text, at, out, deep)?;
    c.room(out, 4, start)?;
    unit(out, c.len, kinds::NOT, 0);
    Ok(Cursor {
        len: c.len + 4,
        ..c
    })
}

// Behind an opening bracket.
#[cycle(levels)]
fn bracket(
    text: &[u8],
    start: usize,
    at: Cursor,
    out: &mut [u64],
    deep: usize,
) -> Result<Cursor, NoPlan>
    requires within { at.pos ≤ length text.now }
    requires room { at.len ≤ length out.old }
    ensures forth { Onwards result at.pos at.len (length text.now) (length out.old) }
    ensures read { (l : Lexed) → l ≡ behind_open text.now at.pos → ReadFrom result (expr_at Unary deep) l text.now (take at.len out.old) out.new }
{
    if deep == 0 {
        return Err(Expected::Brackets.at(start));
    }
    let c = chain(Level::Compare, text, at, out, deep - 1)?;
    let pos = tokens::key(text, c.pos, Key::Close)?;
    Ok(Cursor { pos, ..c })
}

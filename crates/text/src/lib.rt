// The text of plans: its tokens, and what is promised of the language.
#![tactic(auto)]

ghost use Rattle.text.specs.Promise.{OnePlan, ReadsExactly, SaysExactly, Printed, ReadBack, SamePlans};
ghost use Rattle.std.specs.Prelude.{◌≡◌, ℕ, ◌+◌, ◌-◌, ◌<◌, ◌≤◌, true, false, List, length, drop, slice_index, slice_range};
ghost use Rattle.plans.specs.Plan.{word_ok};
ghost use Rattle.text.specs.Lexer.{word_byte, tokens_in, both, ended, number_of, variable_of, sign_of, key_of, word_token};
ghost use Rattle.text.specs.Gaps.{goes_on, in_remark};
ghost use Rattle.text.specs.Numbers.{Stepped, numbered, variabled, Below, begins_variable};
ghost use Rattle.text.specs.Words.{saying};
ghost use Rattle.text.specs.Ahead.{ahead, meant, means, Forth, Plain};

use plans::kinds;
use std::error::Error;
use std::fmt;

#[derive(Clone, Copy, Debug, PartialEq, Eq)]
pub enum Operator {
    Plus,
    Minus,
    Times,
    Less,
    Same,
}

#[derive(Clone, Copy, Debug, PartialEq, Eq)]
pub enum Key {
    Set,
    Do,
    Tries,
    Pause,
    Sleep,
    Hear,
    For,
    If,
    Else,
    While,
    Guard,
    Return,
    Fail,
    Not,
    Open,
    Close,
    Begin,
    End,
    Comma,
}

impl Key {
    ghost use Rattle.text.specs.Lexer.{spell};
    ghost use Rattle.text.specs.Ahead.{key_meant};

    // How it is written.
    #[tactic(auto, unfolding(crate::specs::Lexer::spell))]
    pub fn as_str(self) -> &'static str
        ensures { result.now ≡ spell (key_meant self) }
    {
        match self {
            Key::Set => "set",
            Key::Do => "do",
            Key::Tries => "tries",
            Key::Pause => "pause",
            Key::Sleep => "sleep",
            Key::Hear => "hear",
            Key::For => "for",
            Key::If => "if",
            Key::Else => "else",
            Key::While => "while",
            Key::Guard => "guard",
            Key::Return => "return",
            Key::Fail => "fail",
            Key::Not => "not",
            Key::Open => "(",
            Key::Close => ")",
            Key::Begin => "{",
            Key::End => "}",
            Key::Comma => ",",
        }
    }
}

impl fmt::Display for Key {
    fn fmt<W: fmt::Write>(&self, f: &mut fmt::Formatter<W>) -> fmt::Result {
        f.write_str(self.as_str())
    }
}

// The kind of unit that an operation is in the flat form.
impl From<Operator> for u64 {
    ghost use Rattle.text.specs.Kinds.{kind_of};

    ghost from_gives = { λ operator kind. kind ≡ kind_of operator };

    fn from(operator: Operator) -> u64 {
        match operator {
            Operator::Plus => kinds::PLUS,
            Operator::Minus => kinds::MINUS,
            Operator::Times => kinds::TIMES,
            Operator::Less => kinds::LESS,
            Operator::Same => kinds::SAME,
        }
    }
}

// A kind of unit that is no operation.
#[derive(Clone, Copy, Debug, PartialEq, Eq)]
pub struct NoOperation(pub u64);

impl fmt::Display for NoOperation {
    fn fmt<W: fmt::Write>(&self, f: &mut fmt::Formatter<W>) -> fmt::Result {
        write!(f, "no operation has the kind {}", self.0)
    }
}

impl Error for NoOperation {}

impl TryFrom<u64> for Operator {
    type Error = NoOperation;

    ghost use Rattle.text.specs.Kinds.{Operates};

    ghost try_from_gives = { Operates };

    fn try_from(kind: u64) -> Result<Operator, NoOperation> {
        match kind {
            kinds::PLUS => Ok(Operator::Plus),
            kinds::MINUS => Ok(Operator::Minus),
            kinds::TIMES => Ok(Operator::Times),
            kinds::LESS => Ok(Operator::Less),
            kinds::SAME => Ok(Operator::Same),
            _ => Err(NoOperation(kind)),
        }
    }
}

// What stands at a place of a text. Stop: nothing more. Bad: what stands there is no token.
#[derive(Clone, Copy, Debug, PartialEq, Eq)]
pub enum Token {
    Number(u64),
    Variable(u64),
    Name,
    Operator(Operator),
    Key(Key),
    Stop,
    Bad,
}

impl Token {
    ghost use Rattle.text.specs.Ahead.{number_in, variable_in};

    // The number that it is.
    pub fn as_number(self) -> Option<u64>
        ensures { result ≡ number_in self }
    {
        match self {
            Token::Number(n) => Some(n),
            _ => None,
        }
    }

    // The number of the variable that it is.
    pub fn as_variable(self) -> Option<u64>
        ensures { result ≡ variable_in self }
    {
        match self {
            Token::Variable(v) => Some(v),
            _ => None,
        }
    }
}

// A token of a text: where it begins, and where what follows it begins.
#[derive(Clone, Copy, Debug, PartialEq, Eq)]
pub struct Lexeme {
    pub token: Token,
    pub start: usize,
    pub next: usize,
}

// Is this byte part of a word.
fn word_byte(b: u8) -> bool
    ensures { result ≡ word_byte b }
{
    b.is_ascii_alphanumeric()
}

// Is this byte between the tokens, where a remark has begun or not.
fn goes_on(remark: bool, b: u8) -> bool
    ensures { result ≡ goes_on remark b }
{
    remark || b == b' ' || b == b'\t' || b == b'\r' || b == b'\n' || b == b'#'
}

fn in_remark(remark: bool, b: u8) -> bool
    ensures { result ≡ in_remark remark b }
{
    if remark { b != b'\n' } else { b == b'#' }
}

// Behind blanks and remarks.
// A loop and no `position`: whether a remark has begun goes on from byte to byte, which a closure would have to change.
fn past_blanks(text: &[u8], from: usize) -> usize
    requires { from ≤ length text.now }
    ensures forth { from ≤ result }
    ensures within { result ≤ length text.now }
    ensures same { tokens_in (drop result text.now) ≡ tokens_in (drop from text.now) }
    ensures past { result < length text.now → goes_on false (slice_index text.now result) ≡ false }
{
    let mut pos = from;
    let mut remark = false;
    while pos < text.len() {
        if !goes_on(remark, text[pos]) {
            return pos;
        }
        remark = in_remark(remark, text[pos]);
        pos += 1;
    }
    pos
}

// Behind the word that begins here.
fn past_word(text: &[u8], from: usize) -> usize
    requires { (from < length text.now) × (word_byte (slice_index text.now from) ≡ true) }
    ensures forth { from < result }
    ensures within { result ≤ length text.now }
    ensures same { both (ended (slice_range text.now from result)) (tokens_in (drop result text.now)) ≡ tokens_in (drop from text.now) }
{
    let behind = &text[from..];
    from + behind
        .iter()
        .position(|&b| !word_byte(b))
        .unwrap_or(behind.len())
}

// A number with one digit more, if it stays below 2 to the 64.
fn step(n: u64, d: u8) -> Option<u64>
    ensures { Stepped result n d }
{
    if !d.is_ascii_digit() {
        return None;
    }
    n.checked_mul(10)?.checked_add(u64::from(d - b'0'))
}

// The number that a word is.
// A loop and no `try_fold`, which says no more: `?` already ends it at the first byte that is no digit.
fn number_of(w: &[u8]) -> Option<u64>
    ensures { numbered result ≡ number_of w.now }
{
    let mut n = 0u64;
    for d in w {
        n = step(n, *d)?;
    }
    Some(n)
}

// A v, and behind it a digit that is no 0 or the last.
fn begins_variable(w: &[u8]) -> bool
    ensures { result ≡ begins_variable w.now }
{
    w.len() >= 2 && w[0] == b'v' && (w.len() == 2 || b'0' < w[1])
}

// The variable that a word is: v0 to v63, with no 0 before another digit.
fn variable_of(w: &[u8]) -> Option<u64>
    ensures same { variabled result ≡ variable_of w.now }
    ensures small { Below result 64 }
{
    if !begins_variable(w) {
        return None;
    }
    number_of(&w[1..]).filter(|&n| n < 64)
}

// The token that a byte is which is part of no word.
fn sign_of(b: u8) -> Token
    ensures means { (w : List ℕ) → means result w ≡ sign_of b }
    ensures plain { Plain result }
{
    match b {
        b'+' => Token::Operator(Operator::Plus),
        b'-' => Token::Operator(Operator::Minus),
        b'*' => Token::Operator(Operator::Times),
        b'<' => Token::Operator(Operator::Less),
        b'=' => Token::Operator(Operator::Same),
        b'(' => Token::Key(Key::Open),
        b')' => Token::Key(Key::Close),
        b'{' => Token::Key(Key::Begin),
        b'}' => Token::Key(Key::End),
        b',' => Token::Key(Key::Comma),
        _ => Token::Bad,
    }
}

// Which word of the language this is.
#[tactic(auto, using(crate::proofs::Letters::key_letters))]
fn key_of(w: &[u8]) -> Option<Key>
    ensures { saying result ≡ key_of w.now }
{
    match w {
        b"set" => Some(Key::Set),
        b"do" => Some(Key::Do),
        b"tries" => Some(Key::Tries),
        b"pause" => Some(Key::Pause),
        b"sleep" => Some(Key::Sleep),
        b"hear" => Some(Key::Hear),
        b"for" => Some(Key::For),
        b"if" => Some(Key::If),
        b"else" => Some(Key::Else),
        b"while" => Some(Key::While),
        b"guard" => Some(Key::Guard),
        b"return" => Some(Key::Return),
        b"fail" => Some(Key::Fail),
        b"not" => Some(Key::Not),
        _ => None,
    }
}

// Is this a name: 1 to 64 letters a to z.
fn is_name(w: &[u8]) -> bool
    ensures { result ≡ word_ok w.now }
{
    (1..=64).contains(&w.len()) && w.iter().all(u8::is_ascii_lowercase)
}

// The token that a word is.
fn word_of(w: &[u8]) -> Token
    ensures means { means result w.now ≡ word_token w.now }
    ensures plain { Plain result }
{
    if let Some(n) = number_of(w) {
        return Token::Number(n);
    }
    if let Some(key) = key_of(w) {
        return Token::Key(key);
    }
    if is_name(w) {
        return Token::Name;
    }
    match variable_of(w) {
        Some(v) => Token::Variable(v),
        None => Token::Bad,
    }
}

// The first token at this place or behind it.
pub fn token_at(text: &[u8], from: usize) -> Lexeme
    ensures ahead { ahead text.now from ≡ both (meant text.now result) (ahead text.now result.next) }
    ensures start { ahead text.now result.start ≡ ahead text.now from }
    ensures forth { Forth from result (length text.now) }
{
    if text.len() <= from {
        return Lexeme {
            token: Token::Stop,
            start: from,
            next: from,
        };
    }
    let start = past_blanks(text, from);
    if text.len() <= start {
        return Lexeme {
            token: Token::Stop,
            start,
            next: start,
        };
    }
    if !word_byte(text[start]) {
        return Lexeme {
            token: sign_of(text[start]),
            start,
            next: start + 1,
        };
    }
    let next = past_word(text, start);
    Lexeme {
        token: word_of(&text[start..next]),
        start,
        next,
    }
}

pub fn one_plan_stands() -> u8
    ensures { OnePlan }
{
    0
}

pub fn reads_exactly_stands() -> u8
    ensures { ReadsExactly }
{
    0
}

pub fn says_exactly_stands() -> u8
    ensures { SaysExactly }
{
    0
}

pub fn printed_stands() -> u8
    ensures { Printed }
{
    0
}

pub fn read_back_stands() -> u8
    ensures { ReadBack }
{
    0
}

pub fn same_plans_stands() -> u8
    ensures { SamePlans }
{
    0
}

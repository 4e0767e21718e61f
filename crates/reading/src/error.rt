// Why a text is no plan.
ghost use Rattle.std.specs.Prelude.{◌≡◌};

use plans::link::LinkError;
use std::error::Error;
use std::fmt;
use text::Key;

// What was expected at a place of a text.
#[derive(Clone, Copy, Debug, PartialEq, Eq)]
pub enum Expected {
    Statement,
    Expression,
    Number,
    Variable,
    Name,
    // the sign =
    Same,
    // a word or a sign of the language
    Word(Key),
    // = or , behind a variable that begins a statement
    Assignment,
    End,
    // limits
    Kind,
    Tries,
    Pause,
    Arguments,
    Brackets,
    Size,
    Length,
    // a hearing's two variables differ
    OtherVariable,
}

impl Expected {
    // The refusal of what begins at this place.
    pub fn at(self, at: usize) -> NoPlan
        ensures place { result.at ≡ at }
        ensures expected { result.expected ≡ self }
    {
        NoPlan { at, expected: self }
    }
}

impl fmt::Display for Expected {
    fn fmt<W: fmt::Write>(&self, f: &mut fmt::Formatter<W>) -> fmt::Result {
        match self {
            Expected::Statement => write!(f, "a statement"),
            Expected::Expression => write!(f, "an expression"),
            Expected::Number => write!(f, "a number"),
            Expected::Variable => write!(f, "a variable v0 to v63"),
            Expected::Name => write!(f, "a name of 1 to 64 letters a to z"),
            Expected::Same => write!(f, "'='"),
            // the arguments of a task
            Expected::Word(Key::Comma) => write!(f, "',' or ')'"),
            Expected::Word(sign @ (Key::Open | Key::Close | Key::Begin | Key::End)) => {
                write!(f, "'{sign}'")
            }
            Expected::Word(word) => write!(f, "the word '{word}'"),
            Expected::Assignment => write!(f, "'=' or ','"),
            Expected::End => write!(f, "the end"),
            Expected::Kind => write!(f, "a kind below 4294967296"),
            Expected::Tries => write!(f, "1 to 32 tries"),
            Expected::Pause => write!(f, "a pause of at most 86400000"),
            Expected::Arguments => write!(f, "at most 16 arguments"),
            Expected::Brackets => write!(f, "at most 256 brackets inside each other"),
            Expected::Size => write!(f, "a plan of size 4096 at most"),
            Expected::Length => write!(f, "a text of at most 65536 bytes"),
            Expected::OtherVariable => write!(f, "another variable"),
        }
    }
}

// Where the token begins at which a text was found to be no plan, and what was expected there.
#[derive(Clone, Copy, Debug, PartialEq, Eq)]
pub struct NoPlan {
    pub at: usize,
    pub expected: Expected,
}

impl fmt::Display for NoPlan {
    fn fmt<W: fmt::Write>(&self, f: &mut fmt::Formatter<W>) -> fmt::Result {
        write!(f, "expected {} at byte {}", self.expected, self.at)
    }
}

impl Error for NoPlan {}

// Why nothing was read.
#[derive(Clone, Copy, Debug, PartialEq, Eq)]
pub enum ReadError {
    NotPlan(NoPlan),
    // the sheet has too little room for the plan
    NoRoom,
    // the draft has fewer than 16,384 words
    ShortDraft,
}

impl fmt::Display for ReadError {
    fn fmt<W: fmt::Write>(&self, f: &mut fmt::Formatter<W>) -> fmt::Result {
        match self {
            ReadError::NotPlan(why) => write!(f, "{why}"),
            ReadError::NoRoom => write!(f, "the sheet has too little room for the plan"),
            ReadError::ShortDraft => write!(f, "the draft has fewer than 16384 words"),
        }
    }
}

impl Error for ReadError {}

impl From<NoPlan> for ReadError {
    ghost use Rattle.reading.specs.declared.error.ReadError.TheVariants.{NotPlan};

    ghost from_gives = { λ why e. e ≡ NotPlan why };

    fn from(refusal: NoPlan) -> ReadError {
        ReadError::NotPlan(refusal)
    }
}

// A draft that was read is a draft, so that only a short one can be damaged.
impl From<LinkError> for ReadError {
    ghost use Rattle.reading.specs.Errors.{unlinked};

    ghost from_gives = { λ why e. e ≡ unlinked why };

    fn from(why: LinkError) -> ReadError {
        match why {
            LinkError::NoRoom => ReadError::NoRoom,
            LinkError::Damaged => ReadError::ShortDraft,
        }
    }
}

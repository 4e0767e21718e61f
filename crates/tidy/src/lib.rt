// Tidying: a plan's text, read and printed well laid out; or where it is no plan.
#![tactic(auto)]

ghost use Rattle.std.specs.Prelude.{◌≡◌, min, length, MatchResult};
ghost use Rattle.tidy.specs.declared.TidyError.TheVariants.{Memory};
ghost use Rattle.tidy.specs.Tidies.{Tidied, Why, PlaceAt};

use plans::kinds::MOST_WORDS;
use plans::sheet::Slate;
use printing::{PrintError, print};
use reading::error::{NoPlan, ReadError};
use reading::read;
use std::alloc::{AllocError, Global};
use std::error::Error;
use std::fmt;

// Why nothing is printed.
#[derive(Clone, Copy, Debug, PartialEq, Eq)]
pub enum TidyError {
    NotPlan(NoPlan),
    Memory,
}

impl fmt::Display for TidyError {
    fn fmt<W: fmt::Write>(&self, f: &mut fmt::Formatter<W>) -> fmt::Result {
        match self {
            TidyError::NotPlan(why) => write!(f, "{why}"),
            TidyError::Memory => write!(f, "out of memory"),
        }
    }
}

impl Error for TidyError {}

impl From<AllocError> for TidyError {
    ghost from_gives = { λ _ e. e ≡ Memory };

    fn from(_error: AllocError) -> TidyError {
        TidyError::Memory
    }
}

// There is room for every plan, so that only the text can be wrong.
impl From<ReadError> for TidyError {
    ghost use Rattle.tidy.specs.Tidies.{reason_of};

    ghost from_gives = { λ why e. e ≡ reason_of why };

    fn from(error: ReadError) -> TidyError {
        match error {
            ReadError::NotPlan(why) => TidyError::NotPlan(why),
            ReadError::NoRoom | ReadError::ShortDraft => TidyError::Memory,
        }
    }
}

// What was read is a plan, so that only memory can be short.
impl From<PrintError> for TidyError {
    ghost from_gives = { λ _ e. e ≡ Memory };

    fn from(_error: PrintError) -> TidyError {
        TidyError::Memory
    }
}

// The plan that a text is, as `print` lays it out.
pub fn tidy(heap: Global, text: &[u8]) -> Result<Vec<u8>, TidyError>
    ensures { MatchResult result (λ v. Tidied text.now v.items) (λ e. Why e text.now) }
{
    let mut draft = vec![in heap; 0u64; MOST_WORDS]?;
    let mut slate = Slate::new(heap, MOST_WORDS)?;
    read(text, &mut draft, &mut slate)?;
    let mut out = Vec::new(heap);
    print(slate.as_slice(), &mut out)?;
    Ok(out)
}

// Where a byte of a text stands: its line and column, from 1, and where the line begins and ends.
#[derive(Clone, Copy, Debug, PartialEq, Eq)]
pub struct Place {
    pub line: usize,
    pub column: usize,
    pub begin: usize,
    pub end: usize,
}

// The place of a byte, or of the end for one behind it.
pub fn place_of(text: &[u8], at: usize) -> Place
    ensures { PlaceAt text.now (min at (length text.now)) result }
{
    let here = at.min(text.len());
    let mut line = 1;
    let mut begin = 0;
    // One loop for both: a count and a search from the back would go over the bytes twice.
    for i in 0..here {
        if text[i] == b'\n' {
            line += 1;
            begin = i + 1;
        }
    }
    let behind = &text[here..];
    let rest = behind.iter().position(|&byte| byte == b'\n');
    Place {
        line,
        column: here - begin + 1,
        begin,
        end: here + rest.unwrap_or(behind.len()),
    }
}

// Reading: from the text of a plan to its draft.
#![tactic(auto)]

ghost use Rattle.std.specs.Prelude.{◌≡◌, length};
ghost use Rattle.reading.specs.Plans.{ReadPlan, Reads};

pub mod error;
mod exprs;
mod heads;
mod stmts;
mod tasks;
mod tokens;

use error::{Expected, NoPlan, ReadError};
use exprs::Cursor;
use plans::kinds::MOST_WORDS;
use plans::link::link;
use plans::sheet::Sheet;
use text::{Token, token_at};

// The longest text of a plan, in bytes.
pub const LONGEST_TEXT: usize = 65536;

// Reads a plan into a draft of 16,384 words, and gives its size. Of a text that is no plan it says where that was found,
// and what was expected there.
fn read_draft(text: &[u8], draft: &mut [u64]) -> Result<usize, NoPlan>
    requires { length draft.old ≡ 16384 }
    ensures { ReadPlan result text.now draft.new }
{
    if text.len() > LONGEST_TEXT {
        return Err(Expected::Length.at(LONGEST_TEXT));
    }
    let c = stmts::part(text, Cursor { pos: 0, len: 0 }, draft)?;
    let found = token_at(text, c.pos);
    if found.token != Token::Stop {
        return Err(Expected::End.at(found.start));
    }
    Ok(c.len / 4)
}

// Reads a plan: writes its flat form to the sheet, and gives its size. The draft is memory to work in.
// Nothing is written of a text that is no plan.
pub fn read<S: Sheet>(text: &[u8], draft: &mut [u64], sheet: &mut S) -> Result<usize, ReadError>
    ensures { Reads S.wrote S.room result text.now (length draft.old) sheet.old sheet.new }
{
    if draft.len() < MOST_WORDS {
        return Err(ReadError::ShortDraft);
    }
    let part = &mut draft[..MOST_WORDS];
    let size = read_draft(text, part)?;
    link(&part[..4 * size], sheet)?;
    Ok(size)
}

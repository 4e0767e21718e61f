// Decimal numbers.
ghost use Rattle.std.specs.Prelude.{◌≤◌, Ok, Err};

use crate::lines::BadLine;

// One digit more; None past 64 bits.
fn appended(value: u64, digit: u8) -> Option<u64> {
    if !digit.is_ascii_digit() {
        return None;
    }
    value.checked_mul(10)?.checked_add(u64::from(digit - b'0'))
}

fn decimal(word: &[u8]) -> Option<u64> {
    if word.is_empty() {
        return None;
    }
    let mut value = 0;
    for b in word {
        value = appended(value, *b)?;
    }
    Some(value)
}

// The number that a word is.
pub fn number(word: Option<&[u8]>, most: u64) -> Result<u64, BadLine>
    ensures { elim result [ Ok n ↦ n ≤ most | Err e ↦ Unit {0} ] }
{
    match word.and_then(decimal) {
        Some(value) if value <= most => Ok(value),
        _ => Err(BadLine::Number { most }),
    }
}

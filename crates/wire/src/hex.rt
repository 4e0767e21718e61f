// Bytes in hexadecimal.
ghost use Rattle.std.specs.Prelude.{◌≡◌, ◌%◌, ◌<◌, length, IfOk, Some, None, Ok, Err};
ghost use Rattle.wire.specs.Hex.{digit_of, small, bytes_of, letter_of, text_of};

use std::alloc::{AllocError, Global};

// The value of a digit, in either case. No `to_digit`, which is of a char, and whose answer would have to be made a byte again.
pub fn digit(b: u8) -> Option<u8>
    ensures is { result ≡ digit_of b }
    ensures low { small result }
{
    match b {
        b'0'..=b'9' => Some(b - b'0'),
        b'a'..=b'f' => Some(b - b'a' + 10),
        b'A'..=b'F' => Some(b - b'A' + 10),
        _ => None,
    }
}

// The bytes that a text is; None where it is none. For a text of odd length, which is none, no memory is asked for.
pub fn from_hex(heap: Global, text: &[u8]) -> Result<Option<Vec<u8>>, AllocError>
    ensures { elim result [ Ok o ↦ elim o [ Some v ↦ bytes_of text.now ≡ Some v.items | None ↦ bytes_of text.now ≡ None ] | Err e ↦ length text.now % 2 ≡ 0 ] }
{
    if text.len() % 2 != 0 {
        return Ok(None);
    }
    let mut bytes = Vec::new(heap);
    let mut rest = text;
    while let Some(([high, low], more)) = rest.split_first_chunk::<2>() {
        let (Some(high), Some(low)) = (digit(*high), digit(*low)) else {
            return Ok(None);
        };
        bytes.push(high * 16 + low)?;
        rest = more;
    }
    Ok(Some(bytes))
}

// A digit, in lower case.
fn letter(value: u8) -> u8
    requires { value < 16 }
    ensures { result ≡ letter_of value }
{
    if value < 10 {
        b'0' + value
    } else {
        b'a' + (value - 10)
    }
}

// The text of bytes.
pub fn to_hex(heap: Global, bytes: &[u8]) -> Result<Vec<u8>, AllocError>
    ensures { IfOk result (λ v. v.items ≡ text_of bytes.now) }
{
    let mut text = Vec::new(heap);
    for b in bytes {
        text.push(letter(b / 16))?;
        text.push(letter(b % 16))?;
    }
    Ok(text)
}

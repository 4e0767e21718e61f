// Opens the memory in a file, or makes it.
ghost use Rattle.std.specs.Prelude.{◌≡◌, ℕ, ◌+◌, ◌*◌, ◌/◌, ◌%◌, ◌<◌, ◌≤◌, min, length, IfOk, None, vec_len, MatchResult};
ghost use Rattle.file_memory.specs.Files.{lines_of};

use crate::bytes::word_at;
use crate::memory::FileMemory;
pub use device::{FEWEST_LINES, MOST_LINES};
use std::alloc::{AllocError, Global};
use std::error::Error;
use std::fs::{OpenFile, OpenOptions};
use std::io::{ErrorKind, Read, Seek, Write};
use std::rt::Files;
use std::{fmt, fs, io};

// How many lines are held at most. A house has 1 MiB of fixed part, and twice what its 1,024 flows weigh, of which each weighs at most
// 16,384 bytes and 16 bytes for each of 4,096 of its plan's size. Lines past these are never used, and that there is room for all of this
// is as true of these lines as of more. So a larger file counts as one of so many lines, and costs no more memory.
pub const HELD_LINES: u64 = (1_048_576 + 2 * 1_024 * (16_384 + 16 * 4_096)) / 64;

// Why a file cannot be used. Nothing of it was changed.
#[derive(Clone, Copy, Debug)]
pub enum OpenError {
    // It is there, and cannot be opened for reading and writing.
    NotOpened(io::Error),
    // It is not there, and cannot be made.
    NotMade(io::Error),
    // It cannot be read.
    NotRead(io::Error),
    // Its length in bytes is no whole number of lines.
    NotLines(u64),
    // It has so many lines, and that is too few or too many.
    OutOfRange(u64),
    // There is no memory to hold its lines.
    NoMemory,
}

impl From<AllocError> for OpenError {
    fn from(_: AllocError) -> OpenError {
        OpenError::NoMemory
    }
}

impl fmt::Display for OpenError {
    fn fmt<W: fmt::Write>(&self, f: &mut fmt::Formatter<W>) -> fmt::Result {
        match *self {
            OpenError::NotOpened(e) => write!(f, "cannot open it for reading and writing: {e}"),
            OpenError::NotMade(e) => write!(f, "cannot make it: {e}"),
            OpenError::NotRead(e) => write!(f, "cannot read it: {e}"),
            OpenError::NotLines(length) => write!(
                f,
                "its length of {length} bytes is no whole number of lines of 64 bytes"
            ),
            OpenError::OutOfRange(lines) => write!(
                f,
                "it has {lines} lines, and has to have {FEWEST_LINES} to {MOST_LINES}"
            ),
            OpenError::NoMemory => write!(f, "there is no memory to hold it"),
        }
    }
}

impl Error for OpenError {}

// How many lines a file of so many bytes has.
fn lines_in(length: u64) -> Result<u64, OpenError>
    ensures { MatchResult result (λ n. (length ≡ 64 * n) × (32768 ≤ n) × (n ≤ 1099511627776)) (λ _. (n : ℕ) → length ≡ 64 * n → 32768 ≤ n → n ≤ 1099511627776 → ⊥) }
{
    let lines = length / 64;
    if length % 64 != 0 {
        return Err(OpenError::NotLines(length));
    }
    if lines < FEWEST_LINES || lines > MOST_LINES {
        return Err(OpenError::OutOfRange(lines));
    }
    Ok(lines)
}

// Makes the file with the fewest lines, of zeros. It gets its name only when it is whole, so that a power failure leaves it whole or not
// there; and it is synced once more after that, since the folder itself cannot be.
fn make<R: Files>(rt: &R, heap: Global, path: &str) -> Result<R::File, OpenError> {
    let fresh = format!(in heap; "{path}.new")?;
    make_fresh(rt, fresh.as_str(), path).map_err(OpenError::NotMade)
}

fn make_fresh<R: Files>(rt: &R, fresh: &str, path: &str) -> io::Result<R::File> {
    let file = OpenOptions::new()
        .read(true)
        .write(true)
        .create(true)
        .truncate(true)
        .open(rt, fresh)?;
    file.set_len(FEWEST_LINES * 64)?;
    file.sync_all()?;
    fs::rename(rt, fresh, path)?;
    file.sync_all()?;
    Ok(file)
}

// Reads as many words as there are.
fn read_words<F: Read>(file: &mut F, words: &mut Vec<u64>) -> io::Result<()>
    ensures { vec_len words.new ≡ vec_len words.old }
{
    let mut buffer = [0u8; 4096];
    for part in words.chunks_mut(512) {
        let bytes = &mut buffer[..8 * part.len()];
        file.read_exact(bytes)?;
        for (k, word) in part.iter_mut().enumerate() {
            *word = word_at(bytes, 8 * k);
        }
    }
    Ok(())
}

// The memory in the file, which is made if it is not there.
pub fn open<R: Files>(rt: &R, heap: Global, path: &str) -> Result<FileMemory<R::File>, OpenError>
    ensures { IfOk result (λ s. (32768 ≤ lines_of s) × (s.trouble ≡ None)) }
{
    let mut file = match OpenOptions::new().read(true).write(true).open(rt, path) {
        Ok(file) => file,
        Err(e) if e.kind() == ErrorKind::NotFound => make(rt, heap, path)?,
        Err(e) => return Err(OpenError::NotOpened(e)),
    };
    let length = file.metadata().map_err(OpenError::NotRead)?.len();
    let held = lines_in(length)?.min(HELD_LINES);
    let mut words = vec![in heap; 0u64; held as usize * 8]?;
    read_words(&mut file, &mut words).map_err(OpenError::NotRead)?;
    Ok(FileMemory::over(file, words))
}

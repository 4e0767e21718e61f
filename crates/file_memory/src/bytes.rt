// Words as bytes, the high byte first.
ghost use Rattle.std.specs.Prelude.{◌≡◌, ℕ, ◌+◌, ◌*◌, ◌/◌, ◌<◌, ◌≤◌, length};
ghost use Rattle.file_memory.specs.Bytes.{word_in, Laid, BytesReadBack};

// The word whose bytes begin at `at`.
pub fn word_at(bytes: &[u8], at: usize) -> u64
    requires { at + 8 ≤ length bytes.now }
    ensures { result ≡ word_in bytes.now at }
{
    u64::from_be_bytes(*bytes[at..].first_chunk().unwrap())
}

// The bytes of the eight words from `start` on.
pub fn line_bytes(words: &[u64], start: usize) -> [u8; 64]
    requires { start + 8 ≤ length words.now }
    ensures { Laid words.now start result }
{
    let mut bytes = [0; 64];
    for (k, word) in words[start..start + 8].iter().enumerate() {
        bytes[8 * k..8 * k + 8].copy_from_slice(&word.to_be_bytes());
    }
    bytes
}

// A line that is written and read again is the same eight words.
pub fn bytes_read_back() -> u8
    ensures { BytesReadBack }
{
    0
}

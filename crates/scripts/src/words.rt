// The words of a line, parted by blanks.
ghost use Rattle.std.specs.Prelude.{◌≤◌, length};

pub fn is_blank(b: u8) -> bool {
    matches!(b, b' ' | b'\t' | b'\r' | b'\n')
}

// How many blanks are at the front.
fn blanks(text: &[u8]) -> usize
    ensures { result ≤ length text.now }
{
    text.iter()
        .position(|b| !is_blank(*b))
        .unwrap_or(text.len())
}

// How many bytes stand before the first blank.
fn letters(text: &[u8]) -> usize
    ensures { result ≤ length text.now }
{
    text.iter().position(|b| is_blank(*b)).unwrap_or(text.len())
}

// How many bytes there are up to the last that is no blank.
fn trimmed(text: &[u8]) -> usize
    ensures { result ≤ length text.now }
{
    match text.iter().rposition(|b| !is_blank(*b)) {
        Some(last) => last + 1,
        None => 0,
    }
}

// How many bytes stand before a remark.
fn said(text: &[u8]) -> usize
    ensures { result ≤ length text.now }
{
    text.iter().position(|b| *b == b'#').unwrap_or(text.len())
}

// What is left of a line.
#[derive(Clone, Copy)]
pub struct Words<'a> {
    rest: &'a [u8],
}

impl<'a> Words<'a> {
    // The words of a line; a remark has none.
    pub fn of(line: &'a [u8]) -> Words<'a> {
        let (rest, _) = line.split_at(said(line));
        Words { rest }
    }

    // The next word.
    pub fn next(&mut self) -> Option<&'a [u8]> {
        let all = self.rest;
        let (_, text) = all.split_at(blanks(all));
        let (word, rest) = text.split_at(letters(text));
        self.rest = rest;
        if word.is_empty() { None } else { Some(word) }
    }

    // All that is left, without the blanks around it.
    pub fn all(&mut self) -> &'a [u8] {
        let all = self.rest;
        let (_, text) = all.split_at(blanks(all));
        let (text, rest) = text.split_at(trimmed(text));
        self.rest = rest;
        text
    }
}

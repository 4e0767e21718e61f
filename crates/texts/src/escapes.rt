// Texts on one line: \n, \t, \r, \s for a blank, \\, \xHH for a byte, and \(N*TEXT\) for N times a text.
use anyhow::anyhow;
use std::alloc::Global;
use std::fmt::Write;

// Where a text is to be repeated from, and how often it is to stand there.
#[derive(Clone, Copy, Drop)]
struct Mark {
    start: usize,
    times: u64,
}

// What the bytes before this one have begun.
#[derive(Clone, Copy)]
enum State {
    Plain,
    Escape,
    Hex,
    // behind the first digit of two
    HexLow(u8),
    // behind some digits of a count
    Count(u64),
}

#[derive(Drop)]
struct Unescape {
    heap: Global,
    out: Vec<u8>,
    marks: Vec<Mark>,
    state: State,
}

impl Unescape {
    fn take(&mut self, b: u8) -> anyhow::Result<()> {
        match self.state {
            State::Plain => self.plain(b),
            State::Escape => self.escape(b),
            State::Hex => {
                self.state = State::HexLow(hex_digit(b)?);
                Ok(())
            }
            State::HexLow(high) => {
                let low = hex_digit(b)?;
                self.byte(high.wrapping_mul(16).wrapping_add(low))
            }
            State::Count(n) => self.count(n, b),
        }
    }

    fn byte(&mut self, b: u8) -> anyhow::Result<()> {
        self.state = State::Plain;
        self.out.push(b)?;
        Ok(())
    }

    fn plain(&mut self, b: u8) -> anyhow::Result<()> {
        if b == b'\\' {
            self.state = State::Escape;
            return Ok(());
        }
        self.byte(b)
    }

    fn escape(&mut self, b: u8) -> anyhow::Result<()> {
        match b {
            b'n' => self.byte(b'\n'),
            b't' => self.byte(b'\t'),
            b'r' => self.byte(b'\r'),
            b's' => self.byte(b' '),
            b'\\' => self.byte(b'\\'),
            b'x' => {
                self.state = State::Hex;
                Ok(())
            }
            b'(' => {
                self.state = State::Count(0);
                Ok(())
            }
            b')' => self.repeat(),
            _ => Err(anyhow!("no such escape")),
        }
    }

    fn count(&mut self, n: u64, b: u8) -> anyhow::Result<()> {
        match b {
            b'0'..=b'9' => {
                self.state = State::Count(n.saturating_mul(10).saturating_add(u64::from(b - b'0')));
                Ok(())
            }
            b'*' => {
                self.marks.push(Mark {
                    start: self.out.len(),
                    times: n,
                })?;
                self.state = State::Plain;
                Ok(())
            }
            _ => Err(anyhow!("a count goes up to '*'")),
        }
    }

    // The text behind the last mark, as often as the mark says.
    fn repeat(&mut self) -> anyhow::Result<()> {
        self.state = State::Plain;
        let Some(mark) = self.marks.pop() else {
            return Err(anyhow!("nothing to repeat"));
        };
        let start = mark.start;
        if start > self.out.len() {
            return Err(anyhow!("nothing to repeat"));
        }
        let piece = self.out[start..].to_vec(self.heap)?;
        self.out.truncate(start);
        for _ in 0..mark.times {
            self.out.extend_from_slice(&piece)?;
        }
        Ok(())
    }
}

// A digit of a byte. No `to_digit`, which takes capital letters too.
fn hex_digit(b: u8) -> anyhow::Result<u8> {
    match b {
        b'0'..=b'9' => Ok(b - b'0'),
        b'a'..=b'f' => Ok(b - b'a' + 10),
        _ => Err(anyhow!("no digit of two")),
    }
}

// The bytes that a text with escapes stands for.
pub fn unescaped(heap: Global, text: &str) -> anyhow::Result<Vec<u8>> {
    let mut work = Unescape {
        heap,
        out: Vec::new(heap),
        marks: Vec::new(heap),
        state: State::Plain,
    };
    for b in text.as_bytes() {
        work.take(*b)?;
    }
    if !matches!(work.state, State::Plain) || work.marks.len() > 0 {
        return Err(anyhow!("a text ends inside an escape"));
    }
    let Unescape {
        heap: _,
        out,
        marks: _,
        state: _,
    } = work;
    Ok(out)
}

// These bytes with escapes.
pub fn escaped(heap: Global, bytes: &[u8]) -> anyhow::Result<String> {
    let mut s = String::new(heap);
    for b in bytes {
        match *b {
            b'\n' => s.push_str("\\n")?,
            b'\t' => s.push_str("\\t")?,
            b'\r' => s.push_str("\\r")?,
            b'\\' => s.push_str("\\\\")?,
            b' '..=b'~' => s.push(char::from(*b))?,
            other => write!(s, "\\x{other:02x}")?,
        }
    }
    Ok(s)
}

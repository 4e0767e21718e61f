// Lines that come: the length of the rest, a tag, and a call.
ghost use Rattle.std.specs.Prelude.{◌≡◌};
ghost use Rattle.calls.specs.Lines.{tag_in, body_in};
ghost use Rattle.calls.specs.Seen.{body_seen};

use wire::bytes::four_at;

// The tag, and the call's bytes where the length is right.
#[derive(Clone, Copy)]
pub struct Frame<'a> {
    pub tag: u32,
    pub call: Option<&'a [u8]>,
}

pub fn frame_of(line: &[u8]) -> Frame<'_>
    ensures tag { result.tag ≡ tag_in line.now }
    ensures call { body_seen result ≡ body_in line.now }
{
    if line.len() < 8 {
        return Frame { tag: 0, call: None };
    }
    let tag = four_at(line, 4);
    if four_at(line, 0) as usize + 4 != line.len() {
        return Frame { tag, call: None };
    }
    Frame {
        tag,
        call: Some(&line[8..]),
    }
}

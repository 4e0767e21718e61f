// Where the plan of a call is read to.
ghost use Rattle.std.specs.Prelude.{◌-◌};
ghost use Rattle.plans.specs.Noted.{Noted};
ghost use Rattle.service.specs.Planned.{Planned};

use plans::sheet::{Full, Sheet};
use reading::read;

// Words of a plan, of which the first `len` are written. An array and not a vector: a sheet promises nothing of its room once
// it was refused, and this one is written again at each call.
#[derive(Clone, Copy)]
pub struct Paper {
    pub words: [u64; 16384],
    pub len: usize,
}

impl Sheet for Paper {
    ghost wrote = { λ s w t. Noted s.words s.len w t.words t.len };

    ghost room = { λ s. 16384 - s.len };

    fn put(&mut self, word: u64) -> Result<(), Full> {
        if self.len >= 16384 {
            return Err(Full);
        }
        self.words[self.len] = word;
        self.len += 1;
        Ok(())
    }
}

// Reads a plan, and gives its size; None where the text is of none. The draft is memory to work in.
pub fn read_plan(text: &[u8], draft: &mut [u64; 16384], paper: &mut Paper) -> Option<usize>
    ensures { Planned result text.now paper.new.words }
{
    paper.len = 0;
    match read(text, draft, paper) {
        Ok(size) => Some(size),
        Err(_) => None,
    }
}

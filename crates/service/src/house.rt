// The house, with all that it needs beside the memory that lasts.
ghost use Rattle.std.specs.Prelude.{[], ◌∷◌};
ghost use Rattle.flows.specs.House.{Show};
ghost use Rattle.service.specs.Answers.{acts_on, Served};

use crate::lists::is_key;
use crate::paper::Paper;
use calls::types::{Refusal, Reply};
use device::Device;
use engine::held::Held;
use engine::look;
use plans::eval::Damaged;
use store::dir::Dir;
use store::keep::Memory;

// It holds the directory of the memory; the rest is room to work in.
#[derive(Drop)]
pub struct House<D: Device> {
    pub memory: Memory<D>,
    pub held: Held,
    pub dir: Dir,
    pub paper: Paper,
    pub draft: [u64; 16384],
    pub stack: [u64; 4096],
    pub marks: [u64; 18432],
}

impl<D: Device> House<D> {
    fn show(&mut self, key: &[u8]) -> Result<Reply, Damaged>
        ensures { Served D.step D.size (acts_on (Show key.now ∷ [])) self.old.memory.dev self.old.held self.old.dir result self.new.memory.dev self.new.held self.new.dir }
    {
        if !is_key(key) {
            return Ok(Reply::No(Refusal::BadCall));
        }
        look::show(
            &mut self.memory,
            &self.held,
            &self.dir,
            &mut self.paper.words,
            key,
        )
    }
}

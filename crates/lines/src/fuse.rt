// A memory that stops after so many operations, as if the power had failed, so that any work can be cut anywhere.
ghost use Rattle.std.specs.Prelude.{◌≡◌, ℕ, ◌+◌, true, false, Some, None};
ghost use Rattle.device.specs.Ties.{Ties};
ghost use Rattle.lines.specs.Fuses.{left_in, is_cut, Burns, FuseStep, fuse_stopped, fuse_stands};
ghost use Rattle.std.proofs.Common.{rules};
ghost use Rattle.lines.specs.FusesLemmas.{fuse_coheres};

use device::{Coherent, Device, work_ties};

#[derive(Drop)]
pub struct Fuse<D> {
    pub memory: D,
    // How many operations it will still do, or none once it has not done one that was asked for.
    left: Option<u64>,
}

impl<D> Fuse<D> {
    pub fn new(memory: D, operations: u64) -> Fuse<D>
        ensures { (result.memory ≡ memory) × (left_in result ≡ Some operations) }
    {
        Fuse {
            memory,
            left: Some(operations),
        }
    }

    // Whether some operation was not done.
    pub fn is_cut(&self) -> bool
        ensures { result ≡ is_cut self.now }
    {
        self.left.is_none()
    }

    // The memory as it was when the power failed.
    pub fn into_memory(self) -> D
        ensures { result ≡ self.memory }
    {
        let Fuse { memory, left: _ } = self;
        memory
    }

    // Takes one operation off, and says whether it may be done.
    fn burns(&mut self) -> bool
        ensures goes { result ≡ true → Burns (left_in self.old) (left_in self.new) }
        ensures cuts { result ≡ false → (left_in self.new ≡ None) × ((n : ℕ) → left_in self.old ≡ Some n → n ≡ 0) }
        ensures memory { self.new.memory ≡ self.old.memory }
    {
        self.left = self.left.and_then(|left| left.checked_sub(1));
        self.left.is_some()
    }
}

impl<D: Device> Device for Fuse<D> {
    ghost step = { FuseStep D.Device.step };

    ghost size = { λ s. D.Device.size s.memory };

    ghost stays = { Prim.search rules };

    fn lines(&self) -> u64 {
        self.memory.lines()
    }

    fn load(&mut self, line: u64, word: u64) -> u64 {
        if self.burns() {
            self.memory.load(line, word)
        } else {
            0
        }
    }

    fn store(&mut self, line: u64, word: u64, value: u64) {
        if self.burns() {
            self.memory.store(line, word, value);
        }
    }

    fn push(&mut self, line: u64) {
        if self.burns() {
            self.memory.push(line);
        }
    }

    fn fence(&mut self) {
        if self.burns() {
            self.memory.fence();
        }
    }
}

impl<D: Coherent> Coherent for Fuse<D> {
    ghost stands = { fuse_stands D.Coherent.stands };

    ghost stopped = { fuse_stopped D.Coherent.stopped };

    ghost coheres = { fuse_coheres D.Coherent.coheres };
}

// Work on a memory that is cut off anywhere was done in part, on the lines that the memory then stands for; and to its end, where the fuse
// has not cut.
pub fn cut_ties<D: Coherent, A>() -> u8
    ensures { Ties (FuseStep D.Device.step) (fuse_stopped D.Coherent.stopped) (fuse_stands D.Coherent.stands) A }
{
    work_ties::<Fuse<D>, A>()
}

// A simulated memory, for tests and rehearsals: it holds of each line what has reached the memory, the stores since, and how many of them
// are pushed, so that a power failure can be tried at any moment.
ghost use Rattle.std.specs.Prelude.{◌≡◌, ◌*◌, false, IfOk, vec_len};
ghost use Rattle.device.specs.Lines.{Lines, fresh_lines};
ghost use Rattle.std.proofs.Common.{rules};

use crate::journal::{LineStores, Store, Word, choose_pushed, lose_all, settle_all};
use device::{Coherent, Device};
use std::alloc::{AllocError, Global};

// A fence and a power failure walk along the journal alone, so what they cost depends on the stores since, and not on how many lines
// there are.
#[derive(Drop)]
pub struct Cached {
    // Eight for each line.
    words: Vec<Word>,
    lines: Vec<LineStores>,
    // The stores that are not known to have reached the memory, oldest first.
    journal: Vec<Store>,
    // There was no memory for the journal, so nothing more is done.
    stopped: bool,
    ghost eight: { vec_len words ≡ 8 * vec_len lines },
}

impl Cached {
    ghost use Rattle.lines.specs.Caches.{lines_in, Stands, Fails};

    // So many lines, of which all words are 0.
    pub fn new(heap: Global, lines: u32) -> Result<Cached, AllocError>
        ensures { IfOk result (λ s. Stands s fresh_lines × (lines_in s ≡ lines) × (s.stopped ≡ false)) }
    {
        let count = lines as usize;
        Ok(Cached {
            words: vec![in heap; Word { lasts: 0, sees: 0 }; count * 8]?,
            lines: vec![in heap; LineStores {
                count: 0,
                pushed: 0
            }; count]?,
            journal: Vec::new(heap),
            stopped: false,
        })
    }

    // Another memory that stands for the same lines, so that several failures can be tried from one moment.
    pub fn copy(&self) -> Result<Cached, AllocError>
        ensures { IfOk result (λ t. ((m : Lines) → Stands self.now m → Stands t m) × (lines_in t ≡ lines_in self.now) × (t.stopped ≡ self.now.stopped)) }
    {
        Ok(Cached {
            words: self.words.clone()?,
            lines: self.lines.clone()?,
            journal: self.journal.clone()?,
            stopped: self.stopped,
        })
    }

    // Whether it found no memory for a store, and has done nothing since.
    pub fn has_stopped(&self) -> bool
        ensures { result ≡ self.now.stopped }
    {
        self.stopped
    }

    // The power fails, and comes back. The seed decides how many stores of each line have reached the memory.
    pub fn fail(&mut self, seed: u64)
        ensures left { Fails self.old self.new }
        ensures size { lines_in self.new ≡ lines_in self.old }
        ensures goes { self.new.stopped ≡ false }
    {
        choose_pushed(&mut self.lines, &self.journal, seed);
        settle_all(&mut self.words, &mut self.lines, &mut self.journal);
        lose_all(&mut self.words, &mut self.lines, &mut self.journal);
        self.stopped = false;
    }
}

impl Device for Cached {
    ghost use Rattle.lines.specs.Caches.{lines_in, CachedStep};

    ghost step = { CachedStep };

    ghost size = { lines_in };

    ghost stays = { Prim.search rules };

    fn lines(&self) -> u64 {
        (self.words.len() / 8) as u64
    }

    fn load(&mut self, line: u64, word: u64) -> u64 {
        self.words[(line * 8 + word) as usize].sees
    }

    fn store(&mut self, line: u64, word: u64, value: u64) {
        if self.stopped {
            return;
        }
        let place = (line * 8 + word) as usize;
        let Some(count) = self.lines[line as usize].count.checked_add(1) else {
            self.stopped = true;
            return;
        };
        if self.journal.push(Store { place, value }).is_err() {
            self.stopped = true;
            return;
        }
        self.words[place].sees = value;
        self.lines[line as usize].count = count;
    }

    fn push(&mut self, line: u64) {
        if self.stopped {
            return;
        }
        let stores = &mut self.lines[line as usize];
        stores.pushed = stores.count;
    }

    fn fence(&mut self) {
        if self.stopped {
            return;
        }
        settle_all(&mut self.words, &mut self.lines, &mut self.journal);
    }
}

impl Coherent for Cached {
    ghost use Rattle.lines.specs.Caches.{Stands};

    ghost stands = { Stands };

    ghost stopped = { λ s. s.stopped };

    ghost coheres = { Prim.search rules };
}

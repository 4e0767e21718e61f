// Loading and saving on the layout.
ghost use Rattle.std.specs.Prelude.{◌≡◌, ℕ, ◌+◌, ◌-◌, ◌*◌, ◌/◌, ◌%◌, ◌<◌, ◌≤◌, ◌↔◌, length, IfSome, IsSome};
ghost use Rattle.device.specs.Does.{Did};
ghost use Rattle.store.specs.Layout.{Mind, size_at};
ghost use Rattle.store.specs.Works.{rise_work, load_page, load_plan, save_page, save_entry, save_plan, flip_to};

use crate::dir::{Dir, Entries};
use crate::root::pick;
use crate::slot::{PageCopy, Slot};
use blocks::{Blocks, blocks_in};
use device::{Device, FEWEST_LINES, MOST_LINES};
use words::{flip, load_words, save_words};

// A memory that has as many lines as a house needs, and no more than it can tell.
#[derive(Drop)]
pub struct Memory<D: Device> {
    pub dev: D,
    ghost least: { 32768 ≤ D.size dev },
    ghost most: { D.size dev ≤ 1099511627776 },
}

impl<D: Device + Drop> Memory<D> {
    // None where there are too few lines, or too many.
    pub fn new(dev: D) -> Option<Memory<D>>
        ensures same { IfSome result (λ m. m.dev ≡ dev) }
        ensures fits { IsSome result ↔ ((32768 ≤ D.size dev) × (D.size dev ≤ 1099511627776)) }
    {
        let lines = dev.lines();
        if lines < FEWEST_LINES || lines > MOST_LINES {
            return None;
        }
        Some(Memory { dev })
    }
}

impl<D: Device> Memory<D> {
    // Loads the root word, the root page that it picks, and the directory.
    pub fn rise(&mut self, root: &mut [u64; 40], dir: &mut Dir) -> u64
        ensures did { Did D.step (rise_work (D.size self.old.dev)) self.old.dev (record { lines = D.size self.old.dev; now = 0; word = result; page = root.new; dir = dir.new }) self.new.dev }
        ensures stays { D.size self.new.dev ≡ D.size self.old.dev }
    {
        let word = self.dev.load(0, 0);
        load_words(&mut self.dev, 1 + word % 2 * 5, root);
        load_words(&mut self.dev, 16, dir);
        word
    }

    // A slot's page as it counts.
    pub fn load_page(&mut self, root: &[u64; 40], dir: &Dir, slot: Slot, out: &mut [u64; 128])
        ensures did { Did D.step (load_page (D.size self.old.dev) root.now dir.now slot) self.old.dev out.new self.new.dev }
        ensures stays { D.size self.new.dev ≡ D.size self.old.dev }
    {
        let blocks = Blocks {
            total: blocks_in(self.dev.lines()),
            blocks: dir.page_blocks(slot, pick(root, slot)),
        };
        blocks.load(&mut self.dev, out);
    }

    // A slot's plan, of which `out` has the length.
    pub fn load_plan(&mut self, dir: &Dir, slot: Slot, out: &mut [u64])
        requires { length out.old ≡ 4 * size_at dir.now slot }
        ensures did { Did D.step (load_plan (D.size self.old.dev) dir.now slot) self.old.dev out.new self.new.dev }
        ensures stays { D.size self.new.dev ≡ D.size self.old.dev }
    {
        let blocks = Blocks {
            total: blocks_in(self.dev.lines()),
            blocks: dir.plan_blocks(slot),
        };
        blocks.load(&mut self.dev, out);
    }

    // Writes a copy of a slot's page, and pushes it.
    pub fn save_page(&mut self, dir: &Dir, slot: Slot, copy: PageCopy, words: &[u64; 128])
        ensures did { Did D.step (save_page (D.size self.old.dev) dir.now slot copy words.now) self.old.dev tt self.new.dev }
        ensures stays { D.size self.new.dev ≡ D.size self.old.dev }
    {
        let blocks = Blocks {
            total: blocks_in(self.dev.lines()),
            blocks: dir.page_blocks(slot, copy),
        };
        blocks.save(&mut self.dev, words);
    }

    // Writes a new plan into its blocks, and pushes it.
    pub fn save_plan(&mut self, dir: &Dir, slot: Slot, words: &[u64])
        requires { length words.now ≤ 16384 }
        ensures did { Did D.step (save_plan (D.size self.old.dev) dir.now slot words.now) self.old.dev tt self.new.dev }
        ensures stays { D.size self.new.dev ≡ D.size self.old.dev }
    {
        let blocks = Blocks {
            total: blocks_in(self.dev.lines()),
            blocks: dir.plan_blocks(slot),
        };
        blocks.save(&mut self.dev, words);
    }

    // Writes the entry of a slot that is not in use, and pushes it.
    pub fn save_entry(&mut self, slot: Slot, entry: &[u64; 96])
        ensures did { Did D.step (save_entry slot entry.now) self.old.dev tt self.new.dev }
        ensures stays { D.size self.new.dev ≡ D.size self.old.dev }
    {
        save_entry(&mut self.dev, slot, entry);
    }

    // Writes the other root page, and then has it count.
    pub fn commit(&mut self, word: u64, root: &[u64; 40])
        ensures did { Did D.step (flip_to word root.now) self.old.dev tt self.new.dev }
        ensures stays { D.size self.new.dev ≡ D.size self.old.dev }
    {
        commit(&mut self.dev, word, root);
    }
}

// Rising in a memory that is lent: it is as large as a house needs, so that there is a `Memory` over it.
pub fn rise<D: Device>(dev: &mut D, root: &mut [u64; 40], dir: &mut Dir) -> u64
    requires fits { 32768 ≤ D.size dev.old }
    requires few { D.size dev.old ≤ 1099511627776 }
    ensures did { Did D.step (rise_work (D.size dev.old)) dev.old (record { lines = D.size dev.old; now = 0; word = result; page = root.new; dir = dir.new }) dev.new }
    ensures stays { D.size dev.new ≡ D.size dev.old }
{
    match Memory::new(dev) {
        Some(mut memory) => memory.rise(root, dir),
        None => 0,
    }
}

// The entry of a slot stands in lines that every memory of so many has, also one that is too large.
pub fn save_entry<D: Device>(dev: &mut D, slot: Slot, entry: &[u64; 96])
    requires { 32768 ≤ D.size dev.old }
    ensures did { Did D.step (save_entry slot entry.now) dev.old tt dev.new }
    ensures stays { D.size dev.new ≡ D.size dev.old }
{
    save_words(dev, 16 + slot.number() as u64 * 12, 12, entry);
}

// And so do the root pages.
pub fn commit<D: Device>(dev: &mut D, word: u64, root: &[u64; 40])
    requires { 32768 ≤ D.size dev.old }
    ensures did { Did D.step (flip_to word root.now) dev.old tt dev.new }
    ensures stays { D.size dev.new ≡ D.size dev.old }
{
    let other = 1 - word % 2;
    save_words(dev, 1 + other * 5, 5, root);
    flip(dev, 0, 0, other);
}

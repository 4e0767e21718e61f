// Words in blocks of lasting memory that need not be neighbours.
#![tactic(auto)]

ghost use Rattle.std.specs.Prelude.{◌≡◌, ℕ, ◌+◌, ◌-◌, ◌*◌, ◌/◌, ◌%◌, ◌^◌, ◌<◌, ◌≤◌, length};
ghost use Rattle.device.specs.Does.{Did};
ghost use Rattle.words.specs.Works.{load_via, save_via};
ghost use Rattle.blocks.specs.Works.{blocks_in, inside as held, line_in};
ghost use Rattle.blocks.specs.Below.{line_in_below};
ghost use Rattle.blocks.specs.Runs.{Runs, Reads, RunsCost};

use device::{Device, Marks};
use words::{Place, load_run, save_run};

// Where the first block begins: behind 1 MiB.
pub const FIRST_LINE: u64 = 16384;

pub const BLOCK_LINES: u64 = 128;

pub const BLOCK_WORDS: usize = 1024;

// How many blocks there are in so many lines.
pub fn blocks_in(lines: u64) -> u64
    ensures { result ≡ blocks_in lines }
{
    lines.saturating_sub(FIRST_LINE) / BLOCK_LINES
}

// A number of no block is taken for the first: so damaged words lead to no line outside the memory.
fn inside(total: u64, block: u64) -> u64
    ensures is { result ≡ held total block }
    ensures low { 0 < total → result < total }
{
    if block < total { block } else { 0 }
}

// These blocks, of a memory that has so many.
#[derive(Clone, Copy)]
pub struct Blocks<'a> {
    pub total: u64,
    pub blocks: &'a [u64],
    ghost some: { 0 < total },
    ghost few: { total < 2 ^ 50 },
}

impl<'a> Place for Blocks<'a> {
    ghost at = { λ b. line_in b.total b.blocks.now };

    ghost count = { λ b. 128 * length b.blocks.now };

    ghost end = { λ b. 16384 + 128 * b.total };

    fn line(&self, i: usize) -> u64 {
        let block = inside(self.total, self.blocks[i / 128]);
        FIRST_LINE + BLOCK_LINES * block + (i % 128) as u64
    }

    ghost below = { λ b i h. line_in_below b.total b.blocks.now i b.some };
}

impl<'a> Blocks<'a> {
    // Loads words from what stands in the blocks, as many as `out` has.
    pub fn load<D: Device>(&self, dev: &mut D, out: &mut [u64])
        requires fits { 16384 + 128 * self.now.total ≤ D.size dev.old }
        requires within { length out.old ≤ 1024 * length self.now.blocks.now }
        ensures did { Did D.step (load_via (line_in self.now.total self.now.blocks.now) 0 (length out.old)) dev.old out.new dev.new }
        ensures stays { D.size dev.new ≡ D.size dev.old }
    {
        load_run(dev, self, out);
    }

    // Stores the words into the blocks, and pushes the lines that hold them.
    pub fn save<D: Device>(&self, dev: &mut D, words: &[u64])
        requires fits { 16384 + 128 * self.now.total ≤ D.size dev.old }
        requires within { length words.now ≤ 1024 * length self.now.blocks.now }
        ensures did { Did D.step (save_via (line_in self.now.total self.now.blocks.now) ((length words.now + 7) / 8) words.now) dev.old tt dev.new }
        ensures stays { D.size dev.new ≡ D.size dev.old }
    {
        save_run(dev, self, words.len().div_ceil(8), words);
    }
}

// What loading and saving such runs does while a call drafts, for any set of lines that count.
pub fn blocks_stand<M: Marks>() -> u8
    ensures runs { Runs M.Marks.clean }
    ensures reads { Reads }
    ensures costs { RunsCost }
{
    0
}

// The directory: of each slot in use the flow's number, the size of its plan, its blocks and its key.
ghost use Rattle.std.specs.Prelude.{◌≡◌, ℕ, ◌+◌, ◌*◌, ◌/◌, ◌<◌, ◌≤◌, List, min, Bool, true, false, if◌then◌else◌, ◌&&◌, length, Option};
ghost use Rattle.plans.specs.Plan.{same_name};
ghost use Rattle.store.specs.Layout.{used_of, field, id_at, size_at, key_length_at, key_at, blocks_for, block_at, page_blocks, plan_blocks};
ghost use Rattle.store.specs.Entry.{put_entry};
ghost use Rattle.store.specs.Finds.{first_slot, by_id, by_key, is_free, weighs, weight_over};

use crate::root::is_used;
use crate::slot::{PageCopy, SLOTS, Slot};

pub const ENTRY_WORDS: usize = 96;

pub const DIR_WORDS: usize = 98304;

// Where an entry has what.
pub const ID: usize = 0;

pub const SIZE: usize = 1;

pub const KEY_LENGTH: usize = 2;

pub const BLOCKS: usize = 8;

pub const KEY: usize = 32;

pub const MOST_SIZE: usize = 4096;

// The words of the directory, an entry for each slot. It is no struct, so that words that a caller was lent can be one.
pub type Dir = [u64; 98304];

// What is read of a directory, and written into it.
pub trait Entries {
    // Its words.
    ghost list: { Self → List ℕ };

    fn id_at(&self, slot: Slot) -> u64
        ensures { result ≡ id_at (list self.now) slot };

    // At most 4,096, whatever the words are.
    fn size_at(&self, slot: Slot) -> usize
        ensures is { result ≡ size_at (list self.now) slot }
        ensures low { result ≤ 4096 };

    fn block_at(&self, slot: Slot, k: usize) -> u64
        requires { k < 18 }
        ensures { result ≡ block_at (list self.now) slot k };

    // A slot's key, a byte in each word.
    fn key_at(&self, slot: Slot) -> &[u64]
        ensures { result.now ≡ key_at (list self.now) slot };

    // The block of one of the copies of a slot's page.
    fn page_blocks(&self, slot: Slot, copy: PageCopy) -> &[u64]
        ensures is { result.now ≡ page_blocks (list self.now) slot copy }
        ensures one { length result.now ≡ 1 };

    // The blocks of a slot's plan.
    fn plan_blocks(&self, slot: Slot) -> &[u64]
        ensures is { result.now ≡ plan_blocks (list self.now) slot }
        ensures all { length result.now ≡ 16 };

    // The slot of the flow with this number.
    fn find_id(&self, root: &[u64; 40], id: u64) -> Option<Slot>
        ensures { result ≡ first_slot (by_id root.now (list self.now) id) 0 1024 };

    // The slot of the flow with this key.
    fn find_key(&self, root: &[u64; 40], key: &[u8]) -> Option<Slot>
        ensures { result ≡ first_slot (by_key root.now (list self.now) key.now) 0 1024 };

    // What the flows in use weigh.
    fn weight(&self, root: &[u64; 40]) -> u64
        ensures is { result ≡ weight_over root.now (list self.now) 0 1024 }
        ensures low { result ≤ 83886080 };

    // The directory shall have this entry for a slot.
    fn put_entry(&mut self, slot: Slot, words: &[u64; 96])
        ensures { list self.new ≡ put_entry slot words.now (list self.old) };
}

// Is this key, of bytes, the one that stands in these words?
fn same_key(key: &[u8], words: &[u64]) -> bool
    ensures { result ≡ same_name key.now words.now }
{
    key.len() == words.len()
        && key
            .iter()
            .zip(words)
            .all(|(byte, word)| u64::from(*byte) == *word)
}

fn field_at(dir: &Dir, slot: Slot, k: usize) -> u64
    requires { k < 96 }
    ensures { result ≡ field dir.now slot k }
{
    dir[slot.number() * ENTRY_WORDS + k]
}

fn weight_at(root: &[u64; 40], dir: &Dir, slot: Slot) -> u64
    ensures is { result ≡ weighs root.now dir.now slot }
    ensures low { result ≤ 81920 }
{
    if is_used(root, slot) {
        16384 + 16 * dir.size_at(slot) as u64
    } else {
        0
    }
}

impl Entries for Dir {
    ghost list = { λ d. d };

    fn id_at(&self, slot: Slot) -> u64 {
        field_at(self, slot, ID)
    }

    fn size_at(&self, slot: Slot) -> usize {
        field_at(self, slot, SIZE).min(4096) as usize
    }

    fn block_at(&self, slot: Slot, k: usize) -> u64 {
        field_at(self, slot, BLOCKS + k)
    }

    fn key_at(&self, slot: Slot) -> &[u64] {
        let length = field_at(self, slot, KEY_LENGTH).min(64) as usize;
        let start = slot.number() * ENTRY_WORDS + KEY;
        &self[start..start + length]
    }

    fn page_blocks(&self, slot: Slot, copy: PageCopy) -> &[u64] {
        let start = slot.number() * ENTRY_WORDS + BLOCKS + copy.number();
        &self[start..start + 1]
    }

    fn plan_blocks(&self, slot: Slot) -> &[u64] {
        let start = slot.number() * ENTRY_WORDS + BLOCKS + 2;
        &self[start..start + 16]
    }

    fn find_id(&self, root: &[u64; 40], id: u64) -> Option<Slot> {
        first_slot(|slot| is_used(root, slot) && self.id_at(slot) == id)
    }

    fn find_key(&self, root: &[u64; 40], key: &[u8]) -> Option<Slot> {
        first_slot(|slot| is_used(root, slot) && same_key(key, self.key_at(slot)))
    }

    fn weight(&self, root: &[u64; 40]) -> u64 {
        (0..SLOTS)
            .map(|i| weight_at(root, self, Slot::new(i)))
            .sum()
    }

    fn put_entry(&mut self, slot: Slot, words: &[u64; 96]) {
        let start = slot.number() * ENTRY_WORDS;
        self[start..start + ENTRY_WORDS].copy_from_slice(words);
    }
}

// The first slot of which the test holds.
fn first_slot<F: Fn(Slot) -> bool>(test: F) -> Option<Slot>
    requires { F.IsAlwaysCallable test }
    ensures { (p : ℕ → Bool) → ((i : ℕ) (b : Bool) → F.post test i b → b ≡ p i) → result ≡ first_slot p 0 1024 }
{
    for i in 0..SLOTS {
        let slot = Slot::new(i);
        if test(slot) {
            return Some(slot);
        }
    }
    None
}

// The first slot that is not in use.
pub fn free_slot(root: &[u64; 40]) -> Option<Slot>
    ensures { result ≡ first_slot (is_free root.now) 0 1024 }
{
    first_slot(|slot| !is_used(root, slot))
}

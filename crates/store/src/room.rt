// Room: which blocks are free.
ghost use Rattle.std.specs.Prelude.{◌≡◌, ℕ, ◌+◌, ◌*◌, ◌/◌, ◌<◌, ◌≤◌, length, replicate, Option, slice_set};
ghost use Rattle.store.specs.Layout.{size_at, block_at, blocks_for};
ghost use Rattle.store.specs.Room.{mark_blocks, mark_slot, marked, zeros_from, chosen, RoomStands};

use crate::dir::{Dir, Entries};
use crate::root::is_used;
use crate::slot::{SLOTS, Slot};

// The blocks of a flow: two for its page, and the others for its plan. No flow has more than these.
pub const MOST_BLOCKS: usize = 18;

// No more blocks than 1,024 flows can have are looked at.
pub const LOOKED_AT: usize = 18432;

// How many blocks a flow has whose plan is so large.
pub fn blocks_for(size: usize) -> usize
    requires { size ≤ 4096 }
    ensures is { result ≡ blocks_for size }
    ensures low { result ≤ 18 }
{
    2 + size.div_ceil(256)
}

fn mark_block(marks: &mut [u64], block: u64)
    ensures { marks.new ≡ slice_set marks.old block 1 }
{
    // no `get_mut`, whose contract says nothing of the slice after the write
    if block < marks.len() as u64 {
        marks[block as usize] = 1;
    }
}

// Marks the blocks of a slot.
fn mark_blocks(dir: &Dir, slot: Slot, marks: &mut [u64])
    ensures { marks.new ≡ mark_blocks dir.now slot 0 (blocks_for (size_at dir.now slot)) marks.old }
{
    for k in 0..blocks_for(dir.size_at(slot)) {
        mark_block(marks, dir.block_at(slot, k));
    }
}

fn mark_slot(root: &[u64; 40], dir: &Dir, slot: Slot, marks: &mut [u64])
    ensures { marks.new ≡ mark_slot root.now dir.now slot marks.old }
{
    if is_used(root, slot) {
        mark_blocks(dir, slot, marks);
    }
}

// Marks by 1 the blocks that the slots in use have, of as many as there are marks, and all others by 0.
pub fn mark(root: &[u64; 40], dir: &Dir, marks: &mut [u64])
    ensures { marks.new ≡ marked root.now dir.now (length marks.old) }
{
    marks.fill(0);
    for i in 0..SLOTS {
        mark_slot(root, dir, Slot::new(i), marks);
    }
}

// The first free blocks, as many as are needed, and 0 in the place of those that are not.
pub fn choose(marks: &[u64], need: usize) -> Option<[u64; 18]>
    requires { need ≤ 18 }
    ensures { result ≡ chosen need marks.now }
{
    let mut blocks = [0; 18];
    let mut count = 0;
    for (b, mark) in marks.iter().enumerate() {
        if count < need && *mark == 0 {
            blocks[count] = b as u64;
            count += 1;
        }
    }
    if count == need { Some(blocks) } else { None }
}

// What is chosen is free, and there is enough wherever the weights fit and a slot is free.
pub fn room_stands() -> u8
    ensures { RoomStands }
{
    0
}

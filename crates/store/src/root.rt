// The root page: the next flow's number, and of each slot whether it is in use and which copy of its page counts.
ghost use Rattle.std.specs.Prelude.{◌≡◌, ℕ, ◌+◌, ◌<◌, ◌≤◌, length, ◌==◌};
ghost use Rattle.store.specs.Layout.{bit_of, turn_at, used_of, pick_of};

use crate::slot::{PageCopy, Slot};

pub const ROOT_WORDS: usize = 40;

// Where the bits begin that say which slots are in use, and those that say which copies count.
pub const USED: usize = 1;

pub const PICK: usize = 17;

fn bit(page: &[u64; 40], off: usize, slot: Slot) -> u64
    requires { off ≤ 17 }
    ensures is { result ≡ bit_of off page.now slot }
    ensures low { result < 2 }
{
    let number = slot.number();
    (page[off + number / 64] >> (number % 64)) % 2
}

fn turn(page: &mut [u64; 40], off: usize, slot: Slot)
    requires { off ≤ 17 }
    ensures { page.new ≡ turn_at off slot page.old }
{
    let number = slot.number();
    page[off + number / 64] ^= 1u64 << (number % 64);
}

pub fn is_used(page: &[u64; 40], slot: Slot) -> bool
    ensures { result ≡ (used_of page.now slot == 1) }
{
    bit(page, USED, slot) == 1
}

// Which copy of a slot's page counts.
pub fn pick(page: &[u64; 40], slot: Slot) -> PageCopy
    ensures { result ≡ pick_of page.now slot }
{
    PageCopy::new(bit(page, PICK, slot) as usize)
}

// The other copy of a slot's page shall count.
pub fn turn_pick(page: &mut [u64; 40], slot: Slot)
    ensures { page.new ≡ turn_at 17 slot page.old }
{
    turn(page, PICK, slot);
}

// A slot comes into use, or goes out of it.
pub fn turn_used(page: &mut [u64; 40], slot: Slot)
    ensures { page.new ≡ turn_at 1 slot page.old }
{
    turn(page, USED, slot);
}

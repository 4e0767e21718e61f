// A new entry of the directory.
ghost use Rattle.std.specs.Prelude.{◌≡◌, ℕ, ◌+◌, ◌<◌, ◌≤◌, length, EachIndex, slice_index};
ghost use Rattle.store.specs.Layout.{next_of};
ghost use Rattle.store.specs.Entry.{entry_of, bumped};

use crate::dir::{BLOCKS, ID, KEY, KEY_LENGTH, SIZE};

// Writes the bytes of a key, one into each word, and zeros behind it.
fn spell(key: &[u8], words: &mut [u64])
    ensures len { length words.new ≡ length words.old }
    ensures bytes { EachIndex words.new (λ k. slice_index words.new k ≡ slice_index key.now k) }
{
    for (k, word) in words.iter_mut().enumerate() {
        *word = key.get(k).map_or(0, |byte| u64::from(*byte));
    }
}

// The entry of a flow with this number, a plan of this size, this key and these blocks.
pub fn entry_of(id: u64, size: u64, key: &[u8], blocks: &[u64; 18]) -> [u64; 96]
    ensures { result ≡ entry_of id size key.now blocks.now }
{
    let mut words = [0; 96];
    words[ID] = id;
    words[SIZE] = size;
    words[KEY_LENGTH] = key.len() as u64;
    words[BLOCKS..BLOCKS + 18].copy_from_slice(blocks);
    spell(key, &mut words[KEY..]);
    words
}

// One number more is given out.
pub fn bump(root: &mut [u64; 40])
    requires { next_of root.old < 4611686018427387904 }
    ensures { root.new ≡ bumped root.old }
{
    root[0] += 1;
}

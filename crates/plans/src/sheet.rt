// Where the words of a plan are written, one after the other.
ghost use Rattle.std.specs.Prelude.{◌≡◌, ℕ, ◌+◌, ◌∷◌, [], ◌++◌, length, IfOk};
ghost use Rattle.plans.specs.Sheet.{Put};

use std::alloc::{AllocError, Global};
use std::error::Error;
use std::fmt;

// There is no room for a word more.
#[derive(Clone, Copy, Debug, PartialEq, Eq)]
pub struct Full;

impl fmt::Display for Full {
    fn fmt<W: fmt::Write>(&self, f: &mut fmt::Formatter<W>) -> fmt::Result {
        f.write_str("the sheet is full")
    }
}

impl Error for Full {}

// Whoever takes words says by `wrote` what one word more makes of it: plain memory that it holds the word,
// lasting memory that the word was stored.
pub trait Sheet {
    ghost wrote: { Self → ℕ → Self → Type 0 };

    // how many words more it can take
    ghost room: { Self → ℕ };

    fn put(&mut self, word: u64) -> Result<(), Full>
        ensures { Put wrote room result self.old word self.new };
}

// Plain memory with room for so many words.
#[derive(Debug, Drop)]
pub struct Slate {
    words: Vec<u64>,
}

impl Slate {
    ghost use Rattle.plans.specs.Slate.{words_of, room_of};

    pub fn new(heap: Global, room: usize) -> Result<Slate, AllocError>
        ensures empty { IfOk result (λ s. words_of s ≡ []) }
        ensures room { IfOk result (λ s. room_of s ≡ room) }
    {
        let words = Vec::with_capacity(heap, room)?;
        Ok(Slate { words })
    }

    // The words that are written.
    pub fn as_slice(&self) -> &[u64]
        ensures { result.now ≡ words_of self.now }
    {
        &self.words
    }

    pub fn clear(&mut self)
        ensures empty { words_of self.new ≡ [] }
        ensures room { room_of self.new ≡ room_of self.old + length (words_of self.old) }
    {
        self.words.clear();
    }
}

impl Sheet for Slate {
    ghost use Rattle.plans.specs.Slate.{words_of, room_of};

    ghost wrote = { λ s w t. words_of t ≡ words_of s ++ w ∷ [] };

    ghost room = { room_of };

    // There is room for the word, so that nothing is allocated.
    fn put(&mut self, word: u64) -> Result<(), Full> {
        if self.words.len() == self.words.capacity() {
            return Err(Full);
        }
        self.words.push_reserved(word);
        Ok(())
    }
}

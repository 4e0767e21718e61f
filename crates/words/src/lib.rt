// Runs of words in memory that lasts, and the flip of a root word.
#![tactic(auto)]

ghost use Rattle.std.specs.Prelude.{◌≡◌, ℕ, ◌+◌, ◌*◌, ◌/◌, ◌^◌, ◌<◌, ◌≤◌, length};
ghost use Rattle.device.specs.Does.{Did};
ghost use Rattle.device.specs.Flips.{commit_work};
ghost use Rattle.words.specs.Works.{load_via, store_via, push_via, save_via, load_words, store_words, push_lines, save_words};
ghost use Rattle.words.specs.Runs.{RunsVia, ReadsVia, CostsVia, Runs, Reads, RunsCost};

use device::{Device, Marks};

// Where the lines of a run of words stand in the memory.
pub trait Place {
    // The line of the memory in which line `i` of the run stands.
    ghost at: { Self → ℕ → ℕ };

    // How many lines the run may have.
    ghost count: { Self → ℕ };

    // A memory of so many lines has all of these.
    ghost end: { Self → ℕ };

    // The line of the memory in which line `i` of the run stands.
    fn line(&self, i: usize) -> u64
        requires { i < count self.now }
        ensures { result ≡ at self.now i };

    ghost below: { (p : Self) (i : ℕ) → i < count p → at p i < end p };
}

// Lines that are neighbours.
#[derive(Clone, Copy)]
pub struct Neighbours {
    pub first: u64,
    pub count: u64,
    ghost low: { first + count < 2 ^ 63 },
}

impl Place for Neighbours {
    ghost use Rattle.std.proofs.Common.{arith};

    ghost at = { λ p i. p.first + i };

    ghost count = { λ p. p.count };

    ghost end = { λ p. p.first + p.count };

    fn line(&self, i: usize) -> u64 {
        self.first + i as u64
    }

    ghost below = { λ p i h. omega arith };
}

// That the memory has the lines of the place is asked of each of these four: the two are lent apart, and a type that held both would have to be made
// anew at each call.

// Loads words from where they stand, as many as `out` has.
pub fn load_run<D: Device, P: Place>(dev: &mut D, place: &P, out: &mut [u64])
    requires fits { P.end place.now ≤ D.size dev.old }
    requires within { length out.old ≤ 8 * P.count place.now }
    ensures did { Did D.step (load_via (P.at place.now) 0 (length out.old)) dev.old out.new dev.new }
    ensures stays { D.size dev.new ≡ D.size dev.old }
{
    for (i, word) in out.iter_mut().enumerate() {
        *word = dev.load(place.line(i / 8), (i % 8) as u64);
    }
}

// Stores the words where they are to stand.
pub fn store_run<D: Device, P: Place>(dev: &mut D, place: &P, words: &[u64])
    requires fits { P.end place.now ≤ D.size dev.old }
    requires within { length words.now ≤ 8 * P.count place.now }
    ensures did { Did D.step (store_via (P.at place.now) 0 words.now) dev.old tt dev.new }
    ensures stays { D.size dev.new ≡ D.size dev.old }
{
    for (i, word) in words.iter().enumerate() {
        dev.store(place.line(i / 8), (i % 8) as u64, *word);
    }
}

// Pushes the first `count` lines of the run.
pub fn push_run<D: Device, P: Place>(dev: &mut D, place: &P, count: usize)
    requires fits { P.end place.now ≤ D.size dev.old }
    requires within { count ≤ P.count place.now }
    ensures did { Did D.step (push_via (P.at place.now) count) dev.old tt dev.new }
    ensures stays { D.size dev.new ≡ D.size dev.old }
{
    for i in 0..count {
        dev.push(place.line(i));
    }
}

// Stores the words, and pushes the first `count` lines of the run, which hold them all.
pub fn save_run<D: Device, P: Place>(dev: &mut D, place: &P, count: usize, words: &[u64])
    requires fits { P.end place.now ≤ D.size dev.old }
    requires within { count ≤ P.count place.now }
    requires inside { length words.now ≤ 8 * count }
    ensures did { Did D.step (save_via (P.at place.now) count words.now) dev.old tt dev.new }
    ensures stays { D.size dev.new ≡ D.size dev.old }
{
    store_run(dev, place, words);
    push_run(dev, place, count);
}

// Loads words from the line on, as many as `out` has.
pub fn load_words<D: Device>(dev: &mut D, line: u64, out: &mut [u64])
    requires fits { line + (length out.old + 7) / 8 ≤ D.size dev.old }
    requires low { line < 2 ^ 62 }
    ensures did { Did D.step (load_words line 0 (length out.old)) dev.old out.new dev.new }
    ensures stays { D.size dev.new ≡ D.size dev.old }
{
    let place = Neighbours {
        first: line,
        count: out.len().div_ceil(8) as u64,
    };
    load_run(dev, &place, out);
}

// Stores the words from the line on.
pub fn store_words<D: Device>(dev: &mut D, line: u64, words: &[u64])
    requires fits { line + (length words.now + 7) / 8 ≤ D.size dev.old }
    requires low { line < 2 ^ 62 }
    ensures did { Did D.step (store_words line 0 words.now) dev.old tt dev.new }
    ensures stays { D.size dev.new ≡ D.size dev.old }
{
    let place = Neighbours {
        first: line,
        count: words.len().div_ceil(8) as u64,
    };
    store_run(dev, &place, words);
}

// Pushes `count` lines, from the line on.
pub fn push_lines<D: Device>(dev: &mut D, line: u64, count: u64)
    requires fits { line + count ≤ D.size dev.old }
    requires low { line + count < 2 ^ 63 }
    ensures did { Did D.step (push_lines line count) dev.old tt dev.new }
    ensures stays { D.size dev.new ≡ D.size dev.old }
{
    push_run(dev, &Neighbours { first: line, count }, count as usize);
}

// Stores the words from the line on, and pushes `count` lines, which hold them all.
pub fn save_words<D: Device>(dev: &mut D, line: u64, count: u64, words: &[u64])
    requires fits { line + count ≤ D.size dev.old }
    requires low { line + count < 2 ^ 62 }
    requires inside { length words.now ≤ 8 * count }
    ensures did { Did D.step (save_words line count words.now) dev.old tt dev.new }
    ensures stays { D.size dev.new ≡ D.size dev.old }
{
    save_run(
        dev,
        &Neighbours { first: line, count },
        count as usize,
        words,
    );
}

// Makes all that was pushed last, then stores one word, and makes that last too. The first fence is what the flip rests on: without it
// the root word could reach the memory before the words that it makes count.
pub fn flip<D: Device>(dev: &mut D, line: u64, word: u64, value: u64)
    requires fits { line < D.size dev.old }
    requires inside { word < 8 }
    ensures did { Did D.step (commit_work line word value) dev.old tt dev.new }
    ensures stays { D.size dev.new ≡ D.size dev.old }
{
    dev.fence(); // what the word makes count has reached the memory
    dev.store(line, word, value);
    dev.push(line);
    dev.fence(); // and so has the word
}

// What loading and saving runs of words does while a call drafts, for any set of lines that count: wherever the lines of the runs stand, and
// where they are neighbours.
pub fn runs_stand<M: Marks>() -> u8
    ensures runs_via { RunsVia M.Marks.clean }
    ensures reads_via { ReadsVia }
    ensures costs_via { CostsVia }
    ensures runs { Runs M.Marks.clean }
    ensures reads { Reads }
    ensures costs { RunsCost }
{
    0
}

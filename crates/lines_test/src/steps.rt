// Operations that test their bounds, so that a test may ask for any.
use device::Device;

pub fn load<D: Device>(memory: &mut D, line: u64, word: u64) -> u64 {
    if line < memory.lines() && word < 8 {
        memory.load(line, word)
    } else {
        u64::MAX
    }
}

pub fn store<D: Device>(memory: &mut D, line: u64, word: u64, value: u64) {
    if line < memory.lines() && word < 8 {
        memory.store(line, word, value);
    }
}

pub fn push<D: Device>(memory: &mut D, line: u64) {
    if line < memory.lines() {
        memory.push(line);
    }
}

// Stores 1 into the words of a line from `first` on up to `end`, one after another.
pub fn fill<D: Device>(memory: &mut D, line: u64, first: u64, end: u64) {
    for word in first..end {
        store(memory, line, word, 1);
    }
}

// How many of those stores are there, if they are the first ones: no word is there of which an earlier one is not.
pub fn filled<D: Device>(memory: &mut D, line: u64) -> Option<usize> {
    let mut count = 0usize;
    for word in 0..8u64 {
        let value = load(memory, line, word);
        if value == 1 && count as u64 == word {
            count = word as usize + 1;
        } else if value != 0 {
            return None;
        }
    }
    Some(count)
}

// The journal of the simulated memory: the stores that are not known to have reached the memory, oldest first.
ghost use Rattle.std.specs.Prelude.{◌≡◌, ℕ, ◌+◌, ◌-◌, ◌*◌, ◌/◌, ◌%◌, ◌^◌, ◌<◌, ◌≤◌, [], length, if◌then◌else◌, vec_len, nat_lt, slice_index, slice_set};
ghost use Rattle.lines.specs.Walks.{lasts_in, sees_in, counts_in, pushed_in, settle, settling, lost_sees, lost_counts};

// One store: word `place % 8` of line `place / 8`.
#[derive(Clone, Copy)]
pub struct Store {
    pub place: usize,
    pub value: u64,
}

// A word as it has reached the memory, and as it was stored last.
#[derive(Clone, Copy)]
pub struct Word {
    pub lasts: u64,
    pub sees: u64,
}

// How many stores to a line the journal has, and how many of these are pushed.
#[derive(Clone, Copy)]
pub struct LineStores {
    pub count: u64,
    pub pushed: u64,
}

// A store lasts: its word has reached the memory.
fn last_word(words: &mut Vec<Word>, store: Store)
    ensures lasts { lasts_in words.new.items ≡ slice_set (lasts_in words.old.items) store.place store.value }
    ensures sees { sees_in words.new.items ≡ sees_in words.old.items }
{
    if let Some(word) = words.get_mut(store.place) {
        word.lasts = store.value;
    }
}

// A store is lost: its word is seen again as it lasts.
fn lose_word(words: &mut Vec<Word>, place: usize)
    ensures lasts { lasts_in words.new.items ≡ lasts_in words.old.items }
    ensures sees { sees_in words.new.items ≡ slice_set (sees_in words.old.items) place (slice_index (lasts_in words.old.items) place) }
{
    if let Some(word) = words.get_mut(place) {
        word.sees = word.lasts;
    }
}

// The journal has no stores to a line any more.
fn lose_line(lines: &mut Vec<LineStores>, line: usize)
    ensures counts { counts_in lines.new.items ≡ slice_set (counts_in lines.old.items) line 0 }
    ensures pushed { pushed_in lines.new.items ≡ pushed_in lines.old.items }
{
    if let Some(stores) = lines.get_mut(line) {
        stores.count = 0;
    }
}

// If the oldest store to its line that is still in the journal is pushed, it lasts. Says whether it did.
fn settle_one(words: &mut Vec<Word>, lines: &mut Vec<LineStores>, store: Store) -> bool
    ensures done { result ≡ nat_lt 0 (slice_index (pushed_in lines.old.items) (store.place / 8)) }
    ensures lasts { lasts_in words.new.items ≡ (if result then slice_set (lasts_in words.old.items) store.place store.value else lasts_in words.old.items) }
    ensures sees { sees_in words.new.items ≡ sees_in words.old.items }
    ensures counts { counts_in lines.new.items ≡ (if result then slice_set (counts_in lines.old.items) (store.place / 8) (slice_index (counts_in lines.old.items) (store.place / 8) - 1) else counts_in lines.old.items) }
    ensures pushed { pushed_in lines.new.items ≡ (if result then slice_set (pushed_in lines.old.items) (store.place / 8) (slice_index (pushed_in lines.old.items) (store.place / 8) - 1) else pushed_in lines.old.items) }
{
    let Some(stores) = lines.get_mut(store.place / 8) else {
        return false;
    };
    if stores.pushed == 0 {
        return false;
    }
    stores.pushed -= 1;
    stores.count = stores.count.saturating_sub(1);
    last_word(words, store);
    true
}

// Has the stores that are pushed last, and keeps the others in the journal, in their order.
pub fn settle_all(words: &mut Vec<Word>, lines: &mut Vec<LineStores>, journal: &mut Vec<Store>)
    ensures walk { settling (lasts_in words.new.items) (counts_in lines.new.items) (pushed_in lines.new.items) journal.new.items ≡ settle journal.old.items (settling (lasts_in words.old.items) (counts_in lines.old.items) (pushed_in lines.old.items) []) }
    ensures sees { sees_in words.new.items ≡ sees_in words.old.items }
{
    // By index, since the contract of `retain` says nothing of what its closure has written to `words` and `lines`.
    let mut staying = 0;
    for i in 0..journal.len() {
        let store = journal[i];
        if !settle_one(words, lines, store) {
            journal[staying] = store;
            staying += 1;
        }
    }
    journal.truncate(staying);
}

// Loses the stores of the journal: their words are seen again as they last.
pub fn lose_all(words: &mut Vec<Word>, lines: &mut Vec<LineStores>, journal: &mut Vec<Store>)
    ensures lasts { lasts_in words.new.items ≡ lasts_in words.old.items }
    ensures sees { sees_in words.new.items ≡ lost_sees journal.old.items (lasts_in words.old.items) (sees_in words.old.items) }
    ensures counts { counts_in lines.new.items ≡ lost_counts journal.old.items (counts_in lines.old.items) }
    ensures pushed { pushed_in lines.new.items ≡ pushed_in lines.old.items }
    ensures journal { journal.new.items ≡ [] }
{
    for store in journal.iter() {
        lose_word(words, store.place);
        lose_line(lines, store.place / 8);
    }
    journal.clear();
}

// The next number of a sequence that looks random (splitmix64).
fn scrambled(state: u64) -> u64 {
    let a = (state ^ (state >> 30)).wrapping_mul(0xbf58476d1ce4e5b9);
    let b = (a ^ (a >> 27)).wrapping_mul(0x94d049bb133111eb);
    b ^ (b >> 31)
}

// One of the numbers from 0 to `most`, by a number that looks random.
fn chosen(random: u64, most: u64) -> u64
    ensures { result ≤ most }
{
    if most == u64::MAX {
        random
    } else {
        random % (most + 1)
    }
}

// Chooses how many stores to a line are to count as pushed.
fn choose_line(lines: &mut Vec<LineStores>, line: usize, random: u64)
    ensures counts { counts_in lines.new.items ≡ counts_in lines.old.items }
    ensures within { ((l : ℕ) → slice_index (pushed_in lines.old.items) l ≤ slice_index (counts_in lines.old.items) l) → (l : ℕ) → slice_index (pushed_in lines.new.items) l ≤ slice_index (counts_in lines.old.items) l }
{
    if let Some(stores) = lines.get_mut(line) {
        stores.pushed = chosen(random, stores.count);
    }
}

// Chooses for each line with stores in the journal how many of them are to count as pushed.
pub fn choose_pushed(lines: &mut Vec<LineStores>, journal: &Vec<Store>, seed: u64)
    ensures counts { counts_in lines.new.items ≡ counts_in lines.old.items }
    ensures within { ((l : ℕ) → slice_index (pushed_in lines.old.items) l ≤ slice_index (counts_in lines.old.items) l) → (l : ℕ) → slice_index (pushed_in lines.new.items) l ≤ slice_index (counts_in lines.old.items) l }
{
    let mut state = seed;
    for store in journal {
        state = state.wrapping_add(0x9e3779b97f4a7c15);
        choose_line(lines, store.place / 8, scrambled(state));
    }
}

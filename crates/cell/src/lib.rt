// A cell of sixteen words that lasts: it is kept twice, and a root word says which copy counts. The smallest thing that is built on memory
// in lines; it shows how the parts fit together.
#![tactic(auto)]

ghost use Rattle.std.specs.Prelude.{◌≡◌, refl, List, ℕ, ◌+◌, ◌*◌, ◌<◌, ◌≤◌};
ghost use Rattle.device.specs.Lines.{Sensible, Modest};
ghost use Rattle.device.specs.Does.{Did};
ghost use Rattle.device.specs.Flips.{FlipStands};
ghost use Rattle.lines.specs.Caches.{lines_in};
ghost use Rattle.cell.specs.Works.{get_work, put_work};
ghost use Rattle.cell.specs.Cells.{Call, Reply, cell_engine, cell_sense, cell_of, Counts, Rest, CellCosts};
ghost use Rattle.cell.specs.Trials.{Survives};
ghost use Rattle.cell.specs.Crash.{cell_rests, cell_keeps};

use device::{Device, Keeper, Layout, flip_stands, keeper_stands};
use lines::cached::Cached;
use lines::fuse::Fuse;
use words::{flip, load_words, save_words};

// The words that the cell holds.
pub fn get<D: Device>(memory: &mut D) -> [u64; 16]
    requires fits { 5 ≤ D.size memory.old }
    ensures did { Did D.step get_work memory.old result memory.new }
    ensures stays { D.size memory.new ≡ D.size memory.old }
{
    let root = memory.load(0, 0);
    let mut held = [0u64; 16];
    load_words(memory, 1 + 2 * (root % 2), &mut held);
    held
}

// Has the cell hold these words.
pub fn put<D: Device>(memory: &mut D, words: &[u64; 16])
    requires fits { 5 ≤ D.size memory.old }
    ensures did { Did D.step (put_work words.now) memory.old tt memory.new }
    ensures stays { D.size memory.new ≡ D.size memory.old }
{
    let root = memory.load(0, 0);
    save_words(memory, 1 + 2 * (1 - root % 2), 2, words);
    flip(memory, 0, 0, 1 - root % 2);
}

// Puts the words, and has the power fail after so many operations of that. The cell then holds what it held before, or these words.
pub fn put_and_fail(memory: Cached, words: &[u64; 16], operations: u64, seed: u64) -> Cached
    requires fits { 5 ≤ lines_in memory }
    ensures survives { Survives memory words.now result }
    ensures size { lines_in result ≡ lines_in memory }
{
    let mut fuse = Fuse::new(memory, operations);
    put(&mut fuse, words);
    let mut left = fuse.into_memory();
    left.fail(seed);
    left
}

// The cell as the theorems see it: how it is read, and its invariant.
struct CellTerms;

impl Layout for CellTerms {
    ghost state = { List ℕ };

    ghost reads = { λ g s. cell_of g ≡ s };

    ghost counts = { λ g. Counts (g 0 0) };

    ghost rests = { λ g h s reads agree. cell_rests g h (g 0 0) s refl reads agree };
}

impl Keeper for CellTerms {
    ghost call = { Call };

    ghost reply = { Reply };

    ghost engine = { cell_engine };

    ghost sense = { λ n. cell_sense };

    ghost dark = { λ n. Rest };

    ghost light = { λ n s x m. Rest s m };

    ghost kept = { cell_keeps };
}

// Whatever is written to the spare copy before the flip: the words that the cell held, or the new ones, are left.
pub fn cell_flips() -> u8
    ensures stands { FlipStands (λ g s. cell_of g ≡ s) (λ g. Counts (g 0 0)) (Unit {0}) }
{
    flip_stands::<CellTerms, ()>()
}

// The cell makes sense, whenever the power fails; it stays within its lines; and it costs so much.
pub fn cell_stands() -> u8
    ensures sensible { Sensible (λ n. cell_sense) cell_engine }
    ensures modest { Modest cell_engine }
    ensures costs { CellCosts }
{
    keeper_stands::<CellTerms>()
}

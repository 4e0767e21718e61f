// Memory that lasts, in lines of eight words behind a cache: the trait of such a memory, and what is known of work on it.
//
// A store reaches the memory at some time, or never if the power fails first. A push tells the cache to write a line back, and a fence waits
// until all that was pushed has reached the memory.
#![tactic(auto)]

ghost use Rattle.std.specs.Prelude.{◌≡◌, Bool, true, false, ℕ, ◌+◌, ◌*◌, ◌<◌, ◌≤◌};
ghost use Rattle.device.specs.Lines.{Lines, Engine, Sense, Sensible, Modest};
ghost use Rattle.device.specs.Does.{Op, Loaded, Stored, Pushed, Fenced, DidBinds};
ghost use Rattle.device.specs.Ties.{Coheres, Ties};
ghost use Rattle.device.specs.Safe.{Kept, SafeMeans, SafeBinds};
ghost use Rattle.device.specs.Images.{Image, Agree, Rules};
ghost use Rattle.device.specs.Flips.{FlipStands, FlipCosts};
ghost use Rattle.device.specs.Costs.{CostsBound};

// The fewest and the most lines that a memory of a house may have.
pub const FEWEST_LINES: u64 = 32_768;

pub const MOST_LINES: u64 = 1_099_511_627_776;

// A memory in lines. Its contracts say which operation was done, and what a load gave; they do not say that a load gives what was stored
// last, since no program can prove that of a device. So code over a `Device` tests what it reads.
pub trait Device {
    // What one operation may do to the memory.
    ghost step: { Self → Op → Self → Type 0 };

    // How many lines it has.
    ghost size: { Self → ℕ };

    // How many lines it has.
    fn lines(&self) -> u64
        ensures { result ≡ size self.now };

    // One word of a line.
    fn load(&mut self, line: u64, word: u64) -> u64
        requires { (line < size self.old) × (word < 8) }
        ensures { step self.old (Loaded line word result) self.new };

    // Changes one word of a line.
    fn store(&mut self, line: u64, word: u64, value: u64)
        requires { (line < size self.old) × (word < 8) }
        ensures { step self.old (Stored line word value) self.new };

    // Has the line written back.
    fn push(&mut self, line: u64)
        requires { line < size self.old }
        ensures { step self.old (Pushed line) self.new };

    // Waits until all that was pushed has reached the memory.
    fn fence(&mut self)
        ensures { step self.old Fenced self.new };

    ghost stays: { (s : Self) (o : Op) (t : Self) → step s o t → size t ≡ size s };
}

// A memory that is lent is one: it does what the memory behind it does, and stays the same loan, so that the lender knows what came of it.
impl<D: Device> Device for &mut D {
    ghost step = { λ s o t. D.step s.now o t.now × (t.ghost_name ≡ s.ghost_name) };

    ghost size = { λ s. D.size s.now };

    ghost stays = { λ s o t k. D.stays s.now o t.now k.0 };

    fn lines(&self) -> u64 {
        Device::lines(&**self)
    }

    fn load(&mut self, line: u64, word: u64) -> u64 {
        Device::load(&mut **self, line, word)
    }

    fn store(&mut self, line: u64, word: u64, value: u64) {
        Device::store(&mut **self, line, word, value)
    }

    fn push(&mut self, line: u64) {
        Device::push(&mut **self, line)
    }

    fn fence(&mut self) {
        Device::fence(&mut **self)
    }
}

// A memory in which a load gives what was stored last, as long as it has not stopped.
pub trait Coherent: Device {
    // The memory holds these lines.
    ghost stands: { Self → Lines → Type 0 };

    // It has stopped, and does nothing any more.
    ghost stopped: { Self → Bool };

    ghost coheres: { Coheres Self.Device.step stopped stands };
}

// The traits below have no code. Each names what a theorem speaks of, and its laws are what the theorem asks: an `impl` gives the one and
// owes the other. So a theorem about every invariant, layout or set of lines can stand in the contract of a generic function.

// What is claimed of work that yields an `A`: at its end, and at each moment.
pub trait Claim<A> {
    ghost ends: { A → Lines → Type 0 };

    ghost ever: { Lines → Type 0 };
}

// Two sets of lines: those that are clean, and those that are settled.
pub trait Marks {
    ghost clean: { ℕ → Type 0 };

    ghost settled: { ℕ → Type 0 };
}

// A state that is kept in lines: which state an image stands for, and the lines on which that rests.
pub trait Layout {
    ghost state: { Type 0 };

    ghost reads: { Image → state → Type 0 };

    ghost counts: { Image → ℕ → Type 0 };

    ghost rests: { (g h : Image) (s : state) → reads g s → Agree (counts g) g h → reads h s };
}

// An engine, what callers may expect of it, and the invariant that it keeps.
pub trait Keeper {
    ghost call: { Type 0 };

    ghost reply: { Type 0 };

    ghost engine: { Engine call reply };

    ghost sense: { ℕ → Sense call reply };

    // The lines stand for the state, without power.
    ghost dark: { (n : ℕ) → (sense n).State → Lines → Type 0 };

    // The same, with what the engine holds in memory that does not last.
    ghost light: { (n : ℕ) → (sense n).State → engine.Mind → Lines → Type 0 };

    ghost kept: { (n : ℕ) → 32768 ≤ n → n ≤ 1099511627776 → Kept n engine (sense n) (dark n) (light n) };
}

// Work that is done part after part is done as a whole.
pub fn did_binds<D: Device, A, B>() -> u8
    ensures { DidBinds D.Device.step A B }
{
    0
}

// Work on a memory that gives what was stored last is work on lines: done in part where the memory stops in it, and else to its end.
pub fn work_ties<D: Coherent, A>() -> u8
    ensures { Ties D.Device.step D.Coherent.stopped D.Coherent.stands A }
{
    0
}

// Safe work: what is claimed holds at its end and wherever it may be cut off, and it stays within its lines.
pub fn safe_means<A, P: Claim<A>>() -> u8
    ensures { SafeMeans P.Claim.ends P.Claim.ever }
{
    0
}

// Safe work, part after part, is safe as a whole.
pub fn safe_binds<A, B, P: Claim<B>>() -> u8
    ensures { SafeBinds A P.Claim.ends P.Claim.ever }
{
    0
}

// What a store, a push, a fence and a power failure do to what is seen, and to which lines are clean.
pub fn images_stand<M: Marks>() -> u8
    ensures { Rules M.Marks.clean M.Marks.settled }
{
    0
}

// Two copies and a flip: whenever the power fails, the old state or the new one is left. It costs one store, one push and two fences.
pub fn flip_stands<L: Layout, A>() -> u8
    ensures stands { FlipStands L.Layout.reads L.Layout.counts A }
    ensures costs { FlipCosts A }
{
    0
}

// An engine that keeps an invariant makes sense whenever the power fails, and stays within its lines.
pub fn keeper_stands<K: Keeper>() -> u8
    ensures sensible { Sensible K.Keeper.sense K.Keeper.engine }
    ensures modest { Modest K.Keeper.engine }
{
    0
}

// Work makes no more operations than it costs.
pub fn costs_bound<D: Device, A>() -> u8
    ensures { CostsBound D.Device.step A }
{
    0
}

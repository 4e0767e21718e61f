// Calls and answers as values.
ghost use Rattle.std.specs.Prelude.{◌≡◌, ◌↔◌, ℕ, ◌+◌, ◌*◌, ◌<◌, ◌≤◌, List, length, drop, slice_index, IfSome, IsSome};
ghost use Rattle.std.proofs.Common.{arith};
ghost use Rattle.wire.specs.Bytes.{eight_at, four_at};
ghost use Rattle.wire.specs.Frames.{number_of};
ghost use Rattle.calls.specs.BytesLemmas.{eight_shifts, four_shifts};
ghost use Rattle.calls.specs.Held.{numbers_held};

use runs::step::Phase;
use std::marker::PhantomData;
pub use wire::Refusal;
use wire::bytes::{eight_at, four_at};

#[derive(Clone, Copy, PartialEq, Eq, Debug)]
pub struct FlowId(pub u64);

#[derive(Clone, Copy, PartialEq, Eq, Debug)]
pub struct Step(pub u64);

// Which try of a task, from 1.
#[derive(Clone, Copy, PartialEq, Eq, Debug)]
pub struct Attempt(pub u16);

// A number of a fixed width in bytes, the high byte first.
pub trait Wide {
    ghost WIDTH: { ℕ };

    // the number at a place
    ghost at: { List ℕ → ℕ → ℕ };

    // what a clause sees of it
    ghost number: { Self → ℕ };

    const WIDTH: usize;

    fn at(bytes: &[u8], place: usize) -> Self
        requires { place + WIDTH ≤ length bytes.now }
        ensures { number result ≡ at bytes.now place };

    fn widen(self) -> u64
        ensures { result ≡ number self };

    ghost some: { 0 < WIDTH };

    // a drop in front of it leaves it as it is
    ghost shifts: { (f : List ℕ) (n i : ℕ) → at (drop n f) i ≡ at f (n + i) };
}

// A number that is 0 where none is given.
pub trait WideOrZero: Wide + Default {
    ghost default_is_0: { (x : Self) → Self.is_default x → Self.Wide.number x ≡ 0 };
}

impl Wide for u64 {
    ghost WIDTH = { 8 };

    ghost at = { eight_at };

    ghost number = { λ n. n };

    ghost some = { Prim.omega arith };

    ghost shifts = { eight_shifts };

    const WIDTH: usize = 8;

    fn at(bytes: &[u8], place: usize) -> u64 {
        eight_at(bytes, place)
    }

    fn widen(self) -> u64 {
        self
    }
}

impl Wide for u32 {
    ghost WIDTH = { 4 };

    ghost at = { four_at };

    ghost number = { λ n. n };

    ghost some = { Prim.omega arith };

    ghost shifts = { four_shifts };

    const WIDTH: usize = 4;

    fn at(bytes: &[u8], place: usize) -> u32 {
        four_at(bytes, place)
    }

    fn widen(self) -> u64 {
        u64::from(self)
    }
}

impl WideOrZero for u64 {
    ghost default_is_0 = { λ x e. e };
}

impl WideOrZero for u32 {
    ghost default_is_0 = { λ x e. e };
}

// Numbers of one width, as they stand in a call.
#[derive(Clone, Copy)]
pub struct Numbers<'a, T> {
    bytes: &'a [u8],
    of: PhantomData<T>,
}

// The words of a flow.
pub type Words<'a> = Numbers<'a, u64>;

// Kinds of tasks.
pub type Kinds<'a> = Numbers<'a, u32>;

impl<'a, T: Wide> Numbers<'a, T> {
    // What is left behind the last whole number is none.
    pub(crate) fn new(bytes: &'a [u8]) -> Numbers<'a, T>
        ensures { result.bytes.now ≡ bytes.entry.now }
    {
        Numbers {
            bytes,
            of: PhantomData,
        }
    }

    pub fn len(&self) -> usize
        ensures { result ≡ length (numbers_held T.WIDTH T.at self.now) }
    {
        self.bytes.len() / T::WIDTH
    }

    // None past the last.
    pub fn checked(&self, i: usize) -> Option<T>
        ensures some { IfSome result (λ n. T.number n ≡ slice_index (numbers_held T.WIDTH T.at self.now) i) }
        ensures there { IsSome result ↔ (i < length (numbers_held T.WIDTH T.at self.now)) }
    {
        if i < self.len() {
            Some(T::at(self.bytes, T::WIDTH * i))
        } else {
            None
        }
    }
}

impl<'a, T: WideOrZero> Numbers<'a, T> {
    // 0 past the last.
    pub fn get(&self, i: usize) -> T
        ensures { T.number result ≡ slice_index (numbers_held T.WIDTH T.at self.now) i }
    {
        self.checked(i).unwrap_or_default()
    }
}

#[derive(Clone, Copy)]
pub enum Call<'a> {
    // the plan is its text
    Start {
        key: &'a [u8],
        plan: &'a [u8],
        words: Words<'a>,
    },
    Tell {
        key: &'a [u8],
        name: &'a [u8],
        value: u64,
    },
    Cancel {
        key: &'a [u8],
    },
    Take {
        kinds: Kinds<'a>,
        ms: u32,
    },
    Longer {
        flow: FlowId,
        step: Step,
        attempt: Attempt,
        ms: u32,
    },
    // no `Option`: the bytes have a value either way, and a call is read so that its bytes can be told from it
    Report {
        flow: FlowId,
        step: Step,
        attempt: Attempt,
        well: bool,
        value: u64,
    },
    Show {
        key: &'a [u8],
    },
    Forget {
        key: &'a [u8],
    },
    Time {
        ms: u64,
    },
}

// A task that a worker takes, with the first `count` of its words (an array and a count as in `runs::step::Wish`).
#[derive(Clone, Copy)]
pub struct Job {
    pub flow: FlowId,
    pub step: Step,
    pub attempt: Attempt,
    pub kind: u32,
    pub args: [u64; 16],
    pub count: usize,
}

// What has a number that goes out: why a call is turned away, or any number itself.
pub trait Numbered: Copy {
    // the number
    ghost number: { Self → ℕ };

    fn number(self) -> u8
        ensures { result ≡ number self };
}

impl Numbered for Refusal {
    ghost number = { number_of };

    fn number(self) -> u8 {
        u8::from(self)
    }
}

impl Numbered for u8 {
    ghost number = { λ n. n };

    fn number(self) -> u8 {
        self
    }
}

// An answer, with what tells why a call is turned away.
#[derive(Clone, Copy)]
pub enum Response<N> {
    // turned away
    No(N),
    Yes,
    Flow(FlowId),
    Job(Job),
    Nothing,
    State(Phase),
    Full,
}

// The answer of a house.
pub type Reply = Response<Refusal>;

// A slot is a place for one flow, and of its page there are two copies.
ghost use Rattle.std.specs.Prelude.{◌≡◌, ℕ, ◌-◌, ◌<◌};

use std::marker::Model;

pub const SLOTS: usize = 1024;

// One of the slots.
#[derive(Clone, Copy, PartialEq, Eq)]
pub struct Slot {
    number: usize,
}

impl Model for Slot {
    ghost Value = { ℕ };

    ghost view = { λ s. s.number };

    ghost invariant = { λ s. s.number < 1024 };

    ghost inverse = { λ n. record { number = n } };
}

impl Slot {
    pub fn new(number: usize) -> Slot
        requires { number < 1024 }
        ensures { result ≡ number }
    {
        Slot { number }
    }

    pub fn number(self) -> usize
        ensures is { result ≡ self }
        ensures low { result < 1024 }
    {
        self.number
    }
}

// One of the two copies of a page.
#[derive(Clone, Copy, PartialEq, Eq)]
pub struct PageCopy {
    number: usize,
}

impl Model for PageCopy {
    ghost Value = { ℕ };

    ghost view = { λ c. c.number };

    ghost invariant = { λ c. c.number < 2 };

    ghost inverse = { λ n. record { number = n } };
}

impl PageCopy {
    pub fn new(number: usize) -> PageCopy
        requires { number < 2 }
        ensures { result ≡ number }
    {
        PageCopy { number }
    }

    pub fn number(self) -> usize
        ensures is { result ≡ self }
        ensures low { result < 2 }
    {
        self.number
    }

    pub fn other(self) -> PageCopy
        ensures { result ≡ 1 - self }
    {
        PageCopy {
            number: 1 - self.number,
        }
    }
}

// The time that a run is told.
ghost use Rattle.std.specs.Prelude.{◌≡◌, ◌<◌, ◌≤◌, Some, None};

use std::marker::Model;

// In ms. None is later than 2 to the 62, so that a wait of any length ends at a number of 64 bits.
#[derive(Clone, Copy)]
pub struct Time {
    ms: u64,
}

impl Model for Time {
    ghost use Rattle.std.specs.Prelude.{ℕ, ◌≤◌};

    ghost Value = { ℕ };

    ghost view = { λ t. t.ms };

    ghost invariant = { λ t. t.ms ≤ 4611686018427387904 };

    ghost inverse = { λ n. record { ms = n } };
}

impl Time {
    pub fn new(ms: u64) -> Option<Time>
        ensures early { ms ≤ 4611686018427387904 → result ≡ Some ms }
        ensures late { 4611686018427387904 < ms → result ≡ None }
    {
        if ms > 4611686018427387904 {
            return None;
        }
        Some(Time { ms })
    }

    pub fn ms(self) -> u64
        ensures is { result ≡ self }
        ensures low { self ≤ 4611686018427387904 }
    {
        self.ms
    }
}

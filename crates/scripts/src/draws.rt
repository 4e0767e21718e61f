// Draws that are the same from the same seed.
ghost use Rattle.std.specs.Prelude.{◌≡◌, ◌%◌, nat_lt};
ghost use Rattle.scripts.specs.Draws.{begun, drawn};

#[derive(Clone, Copy)]
pub struct Draws {
    state: u64,
}

impl Draws {
    // From 0 as from 1.
    pub fn new(seed: u64) -> Draws
        ensures { result.state ≡ begun seed }
    {
        let state = if seed == 0 { 1 } else { seed };
        Draws { state }
    }

    pub fn draw(&mut self) -> u64
        ensures is { result ≡ drawn self.old.state }
        ensures after { self.new.state ≡ result }
    {
        let mut x = self.state;
        x ^= x << 13;
        x ^= x >> 7;
        x ^= x << 17;
        self.state = x;
        x
    }

    // Of a hundred draws, so many are bad.
    pub fn is_bad(&mut self, percent: u8) -> bool
        ensures is { result ≡ nat_lt (drawn self.old.state % 100) percent }
        ensures after { self.new.state ≡ drawn self.old.state }
    {
        self.draw() % 100 < u64::from(percent)
    }
}

// A number of four bytes that has no default, for the tests.
ghost use Rattle.std.proofs.Common.{arith};
ghost use Rattle.wire.specs.Bytes.{four_at};
ghost use Rattle.calls.specs.BytesLemmas.{four_shifts};

use crate::types::Wide;
use wire::bytes::four_at;

#[derive(Clone, Copy)]
pub(crate) struct Bare(u32);

impl Wide for Bare {
    ghost WIDTH = { 4 };

    ghost at = { four_at };

    ghost number = { λ b. b.0 };

    ghost some = { Prim.omega arith };

    ghost shifts = { four_shifts };

    const WIDTH: usize = 4;

    fn at(bytes: &[u8], place: usize) -> Bare {
        Bare(four_at(bytes, place))
    }

    fn widen(self) -> u64 {
        u64::from(self.0)
    }
}

// A run: a flow goes on by itself until it waits, ends, or has made a thousand moves.
ghost use Rattle.std.specs.Prelude.{◌≡◌, false, ◌⊎◌, [], length};
ghost use Rattle.plans.specs.Plan.{Flow as Meant, still, moves as meant_moves};
ghost use Rattle.runs.specs.Machine.{FlatFlow, Is};
ghost use Rattle.runs.specs.Decode.{code_in};
ghost use Rattle.runs.specs.Carried.{flow_in};
ghost use Rattle.runs.specs.Runs.{stopped_at, RanTo, CameTo, ends_listening};

use crate::step::{Moved, Place, is_busy, step};
use crate::time::Time;
use plans::eval::Damaged;

// Moves that a flow makes at most before another has its turn.
pub const MOST_MOVES: usize = 1000;

#[derive(Clone, Copy)]
pub struct Ran {
    pub moved: Moved,
    pub moves: usize,
}

// With no wish.
fn stopped(place: Place, moves: usize) -> Ran
    ensures { result ≡ stopped_at place moves }
{
    Ran {
        moved: Moved { place, wish: None },
        moves,
    }
}

// The moves as the words say them.
fn go_on(
    words: &[u64],
    place: Place,
    time: Time,
    vars: &mut [u64; 64],
    stack: &mut [u64],
) -> Result<Ran, Damaged>
    ensures { RanTo (length stack.old) words.now time place vars.old result vars.new }
{
    let mut here = place;
    for moves in 0..MOST_MOVES {
        if !is_busy(here.phase) {
            return Ok(stopped(here, moves));
        }
        let moved = step(words, here, time, vars, stack)?;
        if moved.wish.is_some() {
            let moves = moves + 1;
            return Ok(Ran { moved, moves });
        }
        here = moved.place;
    }
    Ok(stopped(here, MOST_MOVES))
}

// Up to a thousand moves. Of a flow of the meaning, at a place that stands for its frames, the result is what the meaning comes to
// in a thousand moves; but where it has come to wait for a word, whoever keeps its box looks there first.
pub fn run(
    words: &[u64],
    place: Place,
    time: Time,
    vars: &mut [u64; 64],
    stack: &mut [u64],
) -> Result<Ran, Damaged>
    ensures flat { RanTo (length stack.old) words.now time place vars.old result vars.new }
    ensures meant { (x : Meant) (y : FlatFlow) → (y.box ≡ []) ⊎ (ends_listening result ≡ false) → Is (code_in (length stack.old) words.now) (flow_in words.now place vars.old y) x → CameTo (length stack.old) words.now y result vars.new (meant_moves 1000 time (still x)) }
{
    go_on(words, place, time, vars, stack)
}

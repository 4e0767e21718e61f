// The house over lasting memory: each call loads what it concerns, does one pure step, writes where nothing counts, and flips.
#![tactic(auto)]

pub mod held;
pub mod look;
pub mod start;
pub mod take;
pub mod time;

ghost use Rattle.engine.specs.Whole.{EngineWhole};

// Whatever is called, whatever time is told, wherever power fails: all that the engine lives through makes sense.
pub fn engine_whole() -> u8
    ensures { EngineWhole }
{
    0
}

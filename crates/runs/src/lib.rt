// One run of a plan: the machine that carries it out on its flat form.
#![tactic(auto)]

pub mod event;
pub mod flow;
pub mod step;
pub mod time;
pub mod unit;

ghost use Rattle.runs.specs.Alike.{Alike};
ghost use Rattle.runs.specs.Decode.{Stands};
ghost use Rattle.runs.specs.Carried.{Carried};

// The machine on the flat form does what the meaning's trees do.
pub fn machine_stands() -> u8
    ensures { Alike }
{
    0
}

// The words of a plan's flat form are that plan: a run on them is a run of the meaning.
pub fn words_stand() -> u8
    ensures { Stands }
{
    0
}

// What `step` does on such words is the machine's move, for a run of any length.
pub fn steps_stand() -> u8
    ensures { Carried }
{
    0
}

// One flow with its task: what an event does to it, and the words of a page that say it.
#![tactic(auto)]

pub mod event;
pub mod flow;
pub mod layout;
pub mod look;
pub mod page;

ghost use Rattle.pages.specs.Sound.{Pages};
ghost use Rattle.pages.specs.Reports.{Tries};
ghost use Rattle.pages.specs.Fitting.{Fitting};
ghost use Rattle.pages.specs.Laid.{LaidFits};

// What was encoded is decoded, and is 128 words of 64 bits; whatever is decoded is sound.
pub fn pages_stand() -> u8
    ensures { Pages }
{
    0
}

// What `tried` finds is what the house goes by, at a report and at a wish for more time.
pub fn tries_stand() -> u8
    ensures { Tries }
{
    0
}

// Every event keeps the numbers of a flow to 64 bits, where those of the plan and of what is given are.
pub fn fitting_stands() -> u8
    ensures { Fitting }
{
    0
}

// The words of a plan are four for each 1 of its size, and of 64 bits.
pub fn laid_fits_stands() -> u8
    ensures { LaidFits }
{
    0
}

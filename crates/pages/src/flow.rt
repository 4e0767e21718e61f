// A flow with the task that it waits for.
use runs::step::Place;

// A try of a task is due, or with a worker.
#[derive(Clone, Copy, Debug, PartialEq, Eq)]
pub enum Standing {
    Due { at: u64 },
    Out { until: u64 },
}

// The task that a flow waits for: the first `count` of its arguments, and zeros behind them (an array and a count as in `runs::step::Wish`).
#[derive(Clone, Copy)]
pub struct Task {
    pub kind: u64,
    pub args: [u64; 16],
    pub count: usize,
    // which try it is, from 1
    pub attempt: u64,
    pub tries: u64,
    // before the second try, in ms; it doubles with each
    pub pause: u64,
    pub standing: Standing,
}

// A flow has a task exactly while its phase is `Tasked`.
#[derive(Clone, Copy)]
pub struct Flow {
    pub place: Place,
    pub vars: [u64; 64],
    pub task: Option<Task>,
}

// Why a report, or a wish for more time, is of no try that is out.
#[derive(Clone, Copy, Debug, PartialEq, Eq)]
pub enum Untried {
    // there is no such task
    NoTask,
    // it is of another try, or of one that is not out
    NotOut,
}

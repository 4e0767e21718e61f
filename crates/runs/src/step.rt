// One move of a flow.
ghost use Rattle.std.specs.Prelude.{◌≡◌, ℕ, ◌+◌, ◌<◌, ◌≤◌, cond, List, [], ◌∷◌, length, take, Some as some};
ghost use Rattle.runs.specs.declared.unit.Statement.TheVariants.{Set, Do, Sleep, Hear, If, While, Return};
ghost use Rattle.plans.specs.Plan.{Flow as Meant, capped, still, further};
ghost use Rattle.runs.specs.Machine.{FlatFlow, Is};
ghost use Rattle.runs.specs.Decode.{code_in};
ghost use Rattle.runs.specs.Carried.{flow_in, Quiet};
ghost use Rattle.runs.specs.Runs.{MovedTo};
ghost use Rattle.runs.specs.Steps.{Out, fill, at_first, busy, gone_to, ended_as, fails_to, does_w, step_w, Placed, Stepped};

use crate::time::Time;
use crate::unit::{Statement, deep_at, statement_at, word_at};
use plans::eval::{Damaged, Stopped, Valued, eval, run};

// What a flow is at.
#[derive(Clone, Copy, Debug, PartialEq, Eq)]
pub enum Phase {
    Busy,
    // it waits for the task that it began as this step
    Tasked {
        step: u64,
    },
    Asleep {
        until: u64,
    },
    // it waits for the word whose name is at this address
    Listens {
        var: u64,
        came: u64,
        name: usize,
        until: u64,
    },
    Ended {
        value: u64,
    },
    Failed,
}

// Where a flow is in its plan: always of this size, however deep its parts are inside each other.
#[derive(Clone, Copy)]
pub struct Place {
    pub phase: Phase,
    // where it goes on, or the task that it waits for
    pub here: usize,
    // tasks, sleeps and hearings begun
    pub steps: u64,
    // the variable that takes a task's result
    pub into: u64,
}

impl Place {
    // With which a flow begins.
    pub fn start() -> Place
        ensures { result ≡ at_first }
    {
        Place {
            phase: Phase::Busy,
            here: 0,
            steps: 0,
            into: 0,
        }
    }
}

// A task that a flow wants done, with the first `count` of its arguments. An array and a count, since a house has no heap to hold them in.
// A type for both whose value is their list was tried: the borrow checker fails on it inside an Option inside a struct that is lent.
#[derive(Clone, Copy)]
pub struct Wish {
    pub kind: u64,
    pub args: [u64; 16],
    pub count: usize,
    pub tries: u64,
    pub pause: u64,
}

#[derive(Clone, Copy)]
pub struct Moved {
    pub place: Place,
    pub wish: Option<Wish>,
}

// A place from which there is a step more: its number is one of those that steps have.
#[derive(Clone, Copy)]
struct Going {
    place: Place,
    ghost early: { place.steps < 4611686018427387904 },
}

pub fn goes(place: Place, here: u64) -> Place
    ensures { result ≡ gone_to here place }
{
    Place {
        phase: Phase::Busy,
        here: here as usize,
        ..place
    }
}

fn ends(place: Place, phase: Phase) -> Place
    ensures { result ≡ ended_as phase place }
{
    Place { phase, ..place }
}

// A failure goes to the nearest guard around it; where there is none the flow has failed.
pub fn fails(place: Place, way: Option<u64>) -> Place
    ensures { result ≡ fails_to way place }
{
    match way {
        Some(other) => goes(place, other),
        None => ends(place, Phase::Failed),
    }
}

// No longer than 2 to the 62 ms.
fn until(time: Time, wait: u64) -> u64
    ensures { result ≡ time + capped wait }
{
    time.ms() + wait.min(4611686018427387904)
}

fn sets(
    words: &[u64],
    place: Place,
    var: u64,
    next: u64,
    expr: usize,
    vars: &mut [u64; 64],
    stack: &mut [u64],
) -> Result<Place, Damaged>
    ensures { Placed result vars.new (does_w (length stack.old) words.now 0 (some (Set var next expr)) place vars.old) }
{
    if var >= 64 {
        return Err(Damaged);
    }
    let Valued { value, .. } = eval(words, expr, vars, stack)?;
    vars[var as usize] = value;
    Ok(goes(place, next))
}

// An if goes to its other part, or a loop behind itself, where the condition is 0; else on where the condition ends.
fn branches(
    words: &[u64],
    place: Place,
    other: u64,
    expr: usize,
    vars: &[u64; 64],
    stack: &mut [u64],
) -> Result<Place, Damaged>
    ensures { Placed result vars.now (does_w (length stack.old) words.now 0 (some (If other expr)) place vars.now) }
{
    let Valued { value, end } = eval(words, expr, vars, stack)?;
    if value == 0 {
        return Ok(goes(place, other));
    }
    Ok(goes(place, end as u64))
}

fn gives(
    words: &[u64],
    place: Place,
    expr: usize,
    vars: &[u64; 64],
    stack: &mut [u64],
) -> Result<Place, Damaged>
    ensures { Placed result vars.now (does_w (length stack.old) words.now 0 (some (Return expr)) place vars.now) }
{
    let Valued { value, .. } = eval(words, expr, vars, stack)?;
    Ok(ends(place, Phase::Ended { value }))
}

fn sleeps(
    words: &[u64],
    going: Going,
    next: u64,
    expr: usize,
    time: Time,
    vars: &[u64; 64],
    stack: &mut [u64],
) -> Result<Place, Damaged>
    ensures { Placed result vars.now (does_w (length stack.old) words.now time (some (Sleep next expr)) going.place vars.now) }
{
    let Valued { value, .. } = eval(words, expr, vars, stack)?;
    let phase = Phase::Asleep {
        until: until(time, value),
    };
    Ok(Place {
        phase,
        here: next as usize,
        steps: going.place.steps + 1,
        ..going.place
    })
}

// It waits for a word as if none had come yet: who keeps the words gives it one at once where one has.
fn listens(
    words: &[u64],
    going: Going,
    var: u64,
    came: u64,
    next: u64,
    name: usize,
    time: Time,
    vars: &[u64; 64],
    stack: &mut [u64],
) -> Result<Place, Damaged>
    ensures { Placed result vars.now (does_w (length stack.old) words.now time (some (Hear var came next name)) going.place vars.now) }
{
    if var >= 64 || came >= 64 || name >= words.len() {
        return Err(Damaged);
    }
    let Valued { value, .. } = eval(words, name + 64, vars, stack)?;
    let phase = Phase::Listens {
        var,
        came,
        name,
        until: until(time, value),
    };
    Ok(Place {
        phase,
        here: next as usize,
        steps: going.place.steps + 1,
        ..going.place
    })
}

// The first `count` of the values, and zeros behind them.
pub fn first_args(values: &[u64], count: usize) -> [u64; 16]
    requires { (count ≤ 16) × (count ≤ length values.now) }
    ensures { result ≡ fill (take count values.now) }
{
    let mut args = [0; 16];
    args[0..count].copy_from_slice(&values[0..count]);
    args
}

// It wishes for a task, and stays at its unit until that has a result or failed.
fn asks(
    words: &[u64],
    going: Going,
    var: u64,
    next: u64,
    way: Option<u64>,
    task: usize,
    vars: &[u64; 64],
    stack: &mut [u64],
) -> Result<Moved, Damaged>
    ensures { Stepped result vars.now (does_w (length stack.old) words.now 0 (some (Do var next way task)) going.place vars.now) }
{
    if var >= 64 || task >= words.len() {
        return Err(Damaged);
    }
    let Stopped { count, .. } = run(words, task + 12, vars, stack)?;
    if count > 16 {
        return Err(Damaged);
    }
    let args = first_args(stack, count);
    let wish = Wish {
        kind: word_at(words, task),
        args,
        count,
        tries: word_at(words, task + 1),
        pause: word_at(words, task + 2),
    };
    let place = Place {
        phase: Phase::Tasked {
            step: going.place.steps,
        },
        steps: going.place.steps + 1,
        into: var,
        ..going.place
    };
    Ok(Moved {
        place,
        wish: Some(wish),
    })
}

// A move with no wish.
fn wishless(place: Result<Place, Damaged>) -> Result<Moved, Damaged>
    ensures { (vs : List ℕ) (o : Out) → Placed place vs o → Stepped result vs o }
{
    place.map(|place| Moved { place, wish: None })
}

pub fn is_busy(phase: Phase) -> bool
    ensures { result ≡ busy phase }
{
    matches!(phase, Phase::Busy)
}

// What a statement does.
fn does(
    words: &[u64],
    going: Going,
    statement: Statement,
    time: Time,
    vars: &mut [u64; 64],
    stack: &mut [u64],
) -> Result<Moved, Damaged>
    ensures { Stepped result vars.new (does_w (length stack.old) words.now time (some statement) going.place vars.old) }
{
    let place = going.place;
    match statement {
        Statement::Set { var, next, expr } => wishless(sets(
            words, place, var, next, expr, vars, stack,
        )),
        Statement::Do {
            var,
            next,
            way,
            task,
        } => asks(words, going, var, next, way, task, vars, stack),
        Statement::Sleep { next, expr } => wishless(sleeps(
            words, going, next, expr, time, vars, stack,
        )),
        Statement::Hear {
            var,
            came,
            next,
            name,
        } => wishless(listens(words, going, var, came, next, name, time, vars, stack)),
        Statement::If { other, expr } => wishless(branches(words, place, other, expr, vars, stack)),
        Statement::While { next, expr } => wishless(branches(
            words, place, next, expr, vars, stack,
        )),
        Statement::Guard { first } => wishless(Ok(goes(place, first as u64))),
        Statement::Go { next } => wishless(Ok(goes(place, next))),
        Statement::Return { expr } => wishless(gives(words, place, expr, vars, stack)),
        Statement::Fail { way } => wishless(Ok(fails(place, way))),
        Statement::End => wishless(Ok(ends(place, Phase::Ended { value: 0 }))),
    }
}

// One move as the words say it. More than 64 parts inside each other, or 2 to the 62 steps, is a failure that no guard takes.
fn walk(
    words: &[u64],
    place: Place,
    time: Time,
    vars: &mut [u64; 64],
    stack: &mut [u64],
) -> Result<Moved, Damaged>
    ensures { Stepped result vars.new (step_w (length stack.old) words.now time place vars.old) }
{
    if !is_busy(place.phase) {
        return Ok(Moved { place, wish: None });
    }
    if deep_at(words, place.here) > 64 || place.steps >= 4611686018427387904 {
        return Ok(Moved {
            place: ends(place, Phase::Failed),
            wish: None,
        });
    }
    match statement_at(words, place.here) {
        Some(statement) => does(words, Going { place }, statement, time, vars, stack),
        None => Err(Damaged),
    }
}

// One move, if the flow is busy. Of a flow of the meaning, at a place that stands for its frames, the result is the meaning's move;
// but a word that it would hear at once is left to whoever keeps its box.
pub fn step(
    words: &[u64],
    place: Place,
    time: Time,
    vars: &mut [u64; 64],
    stack: &mut [u64],
) -> Result<Moved, Damaged>
    ensures flat { Stepped result vars.new (step_w (length stack.old) words.now time place vars.old) }
    ensures meant { (x : Meant) (y : FlatFlow) → Quiet (code_in (length stack.old) words.now place.here).act y.box → Is (code_in (length stack.old) words.now) (flow_in words.now place vars.old y) x → MovedTo (length stack.old) words.now y result vars.new (further time (still x)) }
{
    walk(words, place, time, vars, stack)
}

// What an event does to a flow with its task.
ghost use Rattle.std.specs.Prelude.{◌≡◌, ◌≤◌, length, if◌then◌else◌, nat_lt, Some as some};
ghost use Rattle.runs.specs.Steps.{wishes};
ghost use Rattle.pages.specs.Events.{task_from, ran_on, first_vars, begun, worked_on, again as next_try, wrong_on, wakes_on, ticked_on};
ghost use Rattle.pages.specs.Holds.{BeginsAs, WorksAs, WrongAs, TicksAs};

use crate::flow::{Flow, Standing, Task};
use crate::look::is_late;
use crate::page::is_fair;
use plans::eval::Damaged;
use runs::event::{hearing_over, task_done, task_failed, woken};
use runs::flow::run;
use runs::step::{Phase, Place, Wish, first_args};
use runs::time::Time;

// The task that is wished for, due at once.
fn wished(wish: Wish, time: Time) -> Task
    ensures { some result ≡ task_from time (wishes (some wish)) }
{
    let count = wish.count.min(16);
    let args = first_args(&wish.args, count);
    Task {
        kind: wish.kind,
        args,
        count,
        attempt: 1,
        tries: wish.tries,
        pause: wish.pause,
        standing: Standing::Due { at: time.ms() },
    }
}

fn task_of(wish: Option<Wish>, time: Time) -> Option<Task>
    ensures { result ≡ task_from time (wishes wish) }
{
    wish.map(|wish| wished(wish, time))
}

// It goes on by itself, up to a thousand moves.
fn goes_on(
    plan: &[u64],
    place: Place,
    mut vars: [u64; 64],
    time: Time,
    stack: &mut [u64],
) -> Result<Flow, Damaged>
    ensures { result ≡ ran_on (length stack.old) plan.now time place vars }
{
    let ran = run(plan, place, time, &mut vars, stack)?;
    let task = task_of(ran.moved.wish, time);
    Ok(Flow {
        place: ran.moved.place,
        vars,
        task,
    })
}

fn first_vars(given: &[u64]) -> [u64; 64]
    requires { length given.now ≤ 64 }
    ensures { result ≡ first_vars given.now }
{
    let mut vars = [0; 64];
    vars[0..given.len()].copy_from_slice(given);
    vars
}

// A new flow of a plan, after its first run.
pub fn begin(plan: &[u64], given: &[u64], time: Time, stack: &mut [u64]) -> Result<Flow, Damaged>
    requires { length given.now ≤ 64 }
    ensures flat { result ≡ begun (length stack.old) plan.now given.now time }
    ensures meant { BeginsAs (length stack.old) plan.now given.now time result }
{
    goes_on(plan, Place::start(), first_vars(given), time, stack)
}

// Its task has this result.
pub fn worked(
    plan: &[u64],
    flow: Flow,
    value: u64,
    time: Time,
    stack: &mut [u64],
) -> Result<Flow, Damaged>
    ensures flat { result ≡ worked_on (length stack.old) plan.now time value flow }
    ensures meant { WorksAs (length stack.old) plan.now time value flow result }
{
    if flow.place.into >= 64 {
        return Err(Damaged);
    }
    let mut vars = flow.vars;
    let place = task_done(plan, flow.place, value, &mut vars)?;
    goes_on(plan, place, vars, time, stack)
}

// The next try of a task, due after a pause that doubles with each.
fn again(mut task: Task, time: Time) -> Task
    requires { (1 ≤ task.attempt) × (task.attempt ≤ 32) × (task.pause ≤ 86400000) }
    ensures { result ≡ next_try time task }
{
    let pause = task.pause << (task.attempt - 1);
    task.attempt += 1;
    task.standing = Standing::Due {
        at: time.ms() + pause,
    };
    task
}

// A try of its task went wrong: there is another, or the task has failed.
pub fn went_wrong(
    plan: &[u64],
    mut flow: Flow,
    time: Time,
    stack: &mut [u64],
) -> Result<Flow, Damaged>
    ensures flat { result ≡ wrong_on (length stack.old) plan.now time flow }
    ensures meant { WrongAs (length stack.old) plan.now time flow result }
{
    let Some(task) = flow.task else {
        return Err(Damaged);
    };
    if !is_fair(&task) {
        return Err(Damaged);
    }
    if task.attempt < task.tries {
        flow.task = Some(again(task, time));
        return Ok(flow);
    }
    let place = task_failed(plan, flow.place)?;
    goes_on(plan, place, flow.vars, time, stack)
}

// Who is busy goes on, and who has waited long enough.
fn wakes(plan: &[u64], flow: Flow, time: Time, stack: &mut [u64]) -> Result<Flow, Damaged>
    ensures { result ≡ wakes_on (length stack.old) plan.now time flow }
{
    let now = time.ms();
    match flow.place.phase {
        Phase::Busy => goes_on(plan, flow.place, flow.vars, time, stack),
        Phase::Tasked { .. } => Ok(flow),
        Phase::Asleep { until } => {
            if until > now {
                return Ok(flow);
            }
            goes_on(plan, woken(flow.place), flow.vars, time, stack)
        }
        Phase::Listens {
            var,
            came,
            until,
            ..
        } => {
            if until > now {
                return Ok(flow);
            }
            if var >= 64 || came >= 64 {
                return Err(Damaged);
            }
            let mut vars = flow.vars;
            let place = hearing_over(flow.place, var, came, None, &mut vars);
            goes_on(plan, place, vars, time, stack)
        }
        Phase::Ended { .. } => Ok(flow),
        Phase::Failed => Ok(flow),
    }
}

// The time has come to `time`: a try that is out for too long goes wrong; then the flow wakes.
pub fn ticked(plan: &[u64], flow: Flow, time: Time, stack: &mut [u64]) -> Result<Flow, Damaged>
    ensures flat { result ≡ ticked_on (length stack.old) plan.now time flow }
    ensures meant { TicksAs (length stack.old) plan.now time flow result }
{
    if !is_late(&flow, time.ms()) {
        return wakes(plan, flow, time, stack);
    }
    let flow = went_wrong(plan, flow, time, stack)?;
    wakes(plan, flow, time, stack)
}

// What is asked of a flow with its task, and what changes it without its plan.
ghost use Rattle.std.specs.Prelude.{◌≡◌};
ghost use Rattle.pages.specs.Events.{late_task, stirs_at, stirring, handed_out, one_of, wanted_task, due_task, step_in, tried_task, over_in, cancelled_of};
ghost use Rattle.pages.specs.Holds.{StaysAs, HandedAs, WantedAs, DueAs, StepAs, TriedAs, OverAs, CancelledAs};

use crate::flow::{Flow, Standing, Task, Untried};
use runs::step::Phase;

// Is its task out for too long?
pub fn is_late(flow: &Flow, time: u64) -> bool
    ensures { result ≡ late_task time flow.now.task }
{
    match flow.task {
        Some(
            Task {
                standing: Standing::Out { until },
                ..
            },
        ) => until < time,
        _ => false,
    }
}

fn wakes_at(phase: Phase, time: u64) -> bool
    ensures { result ≡ stirs_at time phase }
{
    match phase {
        Phase::Busy => true,
        Phase::Asleep { until } | Phase::Listens { until, .. } => until <= time,
        Phase::Tasked { .. } | Phase::Ended { .. } | Phase::Failed => false,
    }
}

// Does the time change anything of it?
pub fn stirs(flow: &Flow, time: u64) -> bool
    ensures flat { result ≡ stirring time flow.now }
    ensures meant { StaysAs time flow.now result }
{
    is_late(flow, time) || wakes_at(flow.place.phase, time)
}

// Its task, if it has one, is with a worker until then.
pub fn handed(mut flow: Flow, until: u64) -> Flow
    ensures flat { result ≡ handed_out until flow }
    ensures meant { HandedAs until flow result }
{
    if let Some(mut task) = flow.task {
        task.standing = Standing::Out { until };
        flow.task = Some(task);
    }
    flow
}

fn is_one_of(kind: u64, kinds: &[u64]) -> bool
    ensures { result ≡ one_of kind kinds.now }
{
    kinds.contains(&kind)
}

// Is its task due, and of one of these kinds?
pub fn is_wanted(flow: &Flow, time: u64, kinds: &[u64]) -> bool
    ensures flat { result ≡ wanted_task time kinds.now flow.now.task }
    ensures meant { WantedAs time kinds.now flow.now result }
{
    match flow.task {
        Some(task) => match task.standing {
            Standing::Due { at } => at <= time && is_one_of(task.kind, kinds),
            Standing::Out { .. } => false,
        },
        None => false,
    }
}

// When its task is due; 0 where it is not, as in the meaning. It is asked of a task that is due.
pub fn due_at(flow: &Flow) -> u64
    ensures flat { result ≡ due_task flow.now.task }
    ensures meant { DueAs flow.now result }
{
    match flow.task {
        Some(task) => match task.standing {
            Standing::Due { at } => at,
            Standing::Out { .. } => 0,
        },
        None => 0,
    }
}

// The step that a flow waits for; 0 for one that waits for none, as in the meaning.
pub fn step_of(phase: Phase) -> u64
    ensures flat { result ≡ step_in phase }
    ensures meant { StepAs phase result }
{
    match phase {
        Phase::Tasked { step } => step,
        _ => 0,
    }
}

// Is this try of this step with a worker?
pub fn tried(flow: &Flow, step: u64, attempt: u64) -> Result<(), Untried>
    ensures flat { result ≡ tried_task step attempt (step_in flow.now.place.phase) flow.now.task }
    ensures meant { TriedAs step attempt flow.now result }
{
    let Some(task) = flow.task else {
        return Err(Untried::NoTask);
    };
    if step != step_of(flow.place.phase) {
        return Err(Untried::NoTask);
    }
    if attempt != task.attempt {
        return Err(Untried::NotOut);
    }
    match task.standing {
        Standing::Due { .. } => Err(Untried::NotOut),
        Standing::Out { .. } => Ok(()),
    }
}

// Nothing happens to it any more.
pub fn is_over(phase: Phase) -> bool
    ensures flat { result ≡ over_in phase }
    ensures meant { OverAs phase result }
{
    matches!(phase, Phase::Ended { .. } | Phase::Failed)
}

// If it is not over, it has failed, and has no task.
pub fn cancelled(mut flow: Flow) -> Flow
    ensures flat { result ≡ cancelled_of flow }
    ensures meant { CancelledAs flow result }
{
    if !is_over(flow.place.phase) {
        flow.place.phase = Phase::Failed;
        flow.task = None;
    }
    flow
}

// A flow with its task as the words of a page.
ghost use Rattle.std.specs.Prelude.{◌≡◌, ◌≤◌, length, take};
ghost use Rattle.pages.specs.Page.{fair, agree, phase_of, task_as, task_in, decode_of, place_words, tag_of, since_of, task_words, encode_of};

use crate::flow::{Flow, Standing, Task};
use crate::layout;
use plans::eval::Damaged;
use runs::step::{Phase, Place, first_args};

// Is it a task as plans may wish for it?
pub fn is_fair(task: &Task) -> bool
    ensures { result ≡ fair task.now }
{
    task.count <= 16
        && task.attempt >= 1
        && task.attempt <= task.tries
        && task.tries <= 32
        && task.pause <= 86400000
        && task.kind < 4294967296
}

fn phase_of(tag: u64, a: u64, b: u64, c: u64, d: u64) -> Result<Phase, Damaged>
    ensures { result ≡ phase_of tag a b c d }
{
    match tag {
        layout::BUSY => Ok(Phase::Busy),
        layout::TASKED => Ok(Phase::Tasked { step: a }),
        layout::ASLEEP => Ok(Phase::Asleep { until: a }),
        layout::LISTENS => {
            if a >= 64 || b >= 64 {
                return Err(Damaged);
            }
            Ok(Phase::Listens {
                var: a,
                came: b,
                name: c as usize,
                until: d,
            })
        }
        layout::ENDED => Ok(Phase::Ended { value: a }),
        layout::FAILED => Ok(Phase::Failed),
        _ => Err(Damaged),
    }
}

fn task_as(words: &[u64; 128], standing: Standing) -> Result<Option<Task>, Damaged>
    ensures { result ≡ task_as words.now standing }
{
    let count = words[layout::COUNT] as usize;
    if count > 16 {
        return Err(Damaged);
    }
    let task = Task {
        kind: words[layout::KIND],
        args: first_args(&words[layout::ARGS..layout::VARS], count),
        count,
        attempt: words[layout::ATTEMPT],
        tries: words[layout::TRIES],
        pause: words[layout::PAUSE],
        standing,
    };
    if is_fair(&task) {
        Ok(Some(task))
    } else {
        Err(Damaged)
    }
}

fn task_in(words: &[u64; 128]) -> Result<Option<Task>, Damaged>
    ensures { result ≡ task_in words.now }
{
    match words[layout::STANDING] {
        layout::NO_TASK => Ok(None),
        layout::DUE => task_as(
            words,
            Standing::Due {
                at: words[layout::SINCE],
            },
        ),
        layout::OUT => task_as(
            words,
            Standing::Out {
                until: words[layout::SINCE],
            },
        ),
        _ => Err(Damaged),
    }
}

// Has a flow in this phase such a task, or none?
fn agrees(phase: Phase, task: Option<Task>) -> bool
    ensures { result ≡ agree phase task }
{
    matches!(phase, Phase::Tasked { .. }) == task.is_some()
}

// The flow that the words say.
pub fn decode(words: &[u64; 128]) -> Result<Flow, Damaged>
    ensures { result ≡ decode_of words.now }
{
    let phase = phase_of(words[layout::PHASE], words[1], words[2], words[3], words[4])?;
    let task = task_in(words)?;
    if words[layout::INTO] >= 64 {
        return Err(Damaged);
    }
    if !agrees(phase, task) {
        return Err(Damaged);
    }
    let mut vars = [0; 64];
    vars.copy_from_slice(&words[layout::VARS..layout::REST]);
    let place = Place {
        phase,
        here: words[layout::HERE] as usize,
        steps: words[layout::STEPS],
        into: words[layout::INTO],
    };
    Ok(Flow { place, vars, task })
}

fn place_words(place: Place) -> [u64; 8]
    ensures { result ≡ place_words place.phase place.here place.steps place.into }
{
    let here = place.here as u64;
    let steps = place.steps;
    let into = place.into;
    match place.phase {
        Phase::Busy => [layout::BUSY, 0, 0, 0, 0, here, steps, into],
        Phase::Tasked { step } => [layout::TASKED, step, 0, 0, 0, here, steps, into],
        Phase::Asleep { until } => [layout::ASLEEP, until, 0, 0, 0, here, steps, into],
        Phase::Listens {
            var,
            came,
            name,
            until,
        } => [
            layout::LISTENS,
            var,
            came,
            name as u64,
            until,
            here,
            steps,
            into,
        ],
        Phase::Ended { value } => [layout::ENDED, value, 0, 0, 0, here, steps, into],
        Phase::Failed => [layout::FAILED, 0, 0, 0, 0, here, steps, into],
    }
}

fn tag_of(standing: Standing) -> u64
    ensures { result ≡ tag_of standing }
{
    match standing {
        Standing::Due { .. } => layout::DUE,
        Standing::Out { .. } => layout::OUT,
    }
}

fn since_of(standing: Standing) -> u64
    ensures { result ≡ since_of standing }
{
    match standing {
        Standing::Due { at } => at,
        Standing::Out { until } => until,
    }
}

fn task_words(task: &Option<Task>) -> [u64; 24]
    ensures { result ≡ task_words task.now }
{
    let mut words = [0; 24];
    if let Some(task) = task {
        words[0..8].copy_from_slice(&[
            tag_of(task.standing),
            since_of(task.standing),
            task.kind,
            task.count as u64,
            task.attempt,
            task.tries,
            task.pause,
            0,
        ]);
        words[8..24].copy_from_slice(&task.args);
    }
    words
}

// The words that say the flow.
pub fn encode(flow: &Flow) -> [u64; 128]
    ensures { result ≡ encode_of flow.now }
{
    let mut words = [0; layout::PAGE_WORDS];
    words[layout::PHASE..layout::STANDING].copy_from_slice(&place_words(flow.place));
    words[layout::STANDING..layout::VARS].copy_from_slice(&task_words(&flow.task));
    words[layout::VARS..layout::REST].copy_from_slice(&flow.vars);
    words
}

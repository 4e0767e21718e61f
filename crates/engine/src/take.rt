// A worker takes the task that is due first, then by flow.
ghost use Rattle.std.specs.Prelude.{◌≡◌, ℕ, ◌&&◌, ◌||◌, ◌≤◌, [], None, Ok, ◌==◌, nat_lt};
ghost use Rattle.device.specs.Does.{Did, loop_from};
ghost use Rattle.engine.specs.Works.{better as betterOf, look_flow, look_turn, hand_flow, at_flow, take_work};
ghost use Rattle.engine.specs.Done.{mind_of, Done};

use crate::held::{Held, open, shut};
use calls::types::{Attempt, FlowId, Job, Reply, Step};
use device::Device;
use pages::flow::Flow;
use pages::look::{due_at, handed, is_wanted, step_of};
use plans::eval::Damaged;
use store::dir::{Dir, Entries};
use store::keep::Memory;
use store::root::is_used;
use store::slot::{SLOTS, Slot};

// The best so far: in which slot it is, since when it is due, and of which flow.
#[derive(Clone, Copy)]
pub struct Best {
    pub slot: Slot,
    pub due: u64,
    pub flow: u64,
}

// What a look at the slots has found; damaged where a page was of no flow.
type Looking = Result<Option<Best>, Damaged>;

// Is one that is due since then, of this flow, before the old best?
fn is_sooner(due: u64, flow: u64, old: &Best) -> bool
    ensures { result ≡ (nat_lt due old.now.due || (due == old.now.due && nat_lt flow old.now.flow)) }
{
    due < old.due || due == old.due && flow < old.flow
}

fn better(slot: Slot, due: u64, flow: u64, best: Option<Best>) -> Option<Best>
    ensures { result ≡ betterOf slot due flow best }
{
    match best {
        None => Some(Best { slot, due, flow }),
        Some(old) => {
            if is_sooner(due, flow, &old) {
                Some(Best { slot, due, flow })
            } else {
                Some(old)
            }
        }
    }
}

// One more flow is looked at.
fn look_flow(
    time: u64,
    dir: &Dir,
    kinds: &[u64],
    slot: Slot,
    best: Option<Best>,
    flow: &Flow,
) -> Option<Best>
    ensures { result ≡ look_flow kinds.now (record { lines = 0; now = time; word = 0; page = []; dir = dir.now }) slot best flow.now }
{
    if !is_wanted(flow, time, kinds) {
        return best;
    }
    better(slot, due_at(flow), dir.id_at(slot), best)
}

// One more slot is looked at, also where a page was of no flow: what is loaded depends on the slots alone.
fn look_turn<D: Device>(
    memory: &mut Memory<D>,
    held: &Held,
    dir: &Dir,
    kinds: &[u64],
    slot: Slot,
    looking: Looking,
) -> Looking
    ensures did { Did D.step (look_turn kinds.now (mind_of (D.size memory.old.dev) held.now dir.now) slot looking) memory.old.dev result memory.new.dev }
    ensures stays { D.size memory.new.dev ≡ D.size memory.old.dev }
{
    if !is_used(&held.root, slot) {
        return looking;
    }
    let flow = open(memory, held, dir, slot)?;
    Ok(look_flow(held.time, dir, kinds, slot, looking?, &flow))
}

// All slots.
fn look<D: Device>(memory: &mut Memory<D>, held: &Held, dir: &Dir, kinds: &[u64]) -> Looking
    ensures did { Did D.step (loop_from (look_turn kinds.now (mind_of (D.size memory.old.dev) held.now dir.now)) 0 1024 (Ok None)) memory.old.dev result memory.new.dev }
    ensures stays { D.size memory.new.dev ≡ D.size memory.old.dev }
{
    let mut looking = Ok(None);
    for i in 0..SLOTS {
        looking = look_turn(memory, held, dir, kinds, Slot::new(i), looking);
    }
    looking
}

// A flow's task is handed out for so many ms.
fn hand_flow<D: Device>(
    memory: &mut Memory<D>,
    held: &mut Held,
    dir: &Dir,
    slot: Slot,
    flow: Flow,
    ms: u32,
) -> Result<Reply, Damaged>
    requires clock { held.old.time ≤ 4611686018427387904 }
    ensures done { Done D.step (hand_flow ms (mind_of (D.size memory.old.dev) held.old dir.now) slot flow) memory.old.dev result (mind_of (D.size memory.old.dev) held.new dir.now) memory.new.dev }
    ensures stays { D.size memory.new.dev ≡ D.size memory.old.dev }
    ensures time { held.new.time ≡ held.old.time }
{
    let Some(task) = flow.task else {
        return Err(Damaged);
    };
    let args = task.args;
    let job = Job {
        flow: FlowId(dir.id_at(slot)),
        step: Step(step_of(flow.place.phase)),
        attempt: Attempt((task.attempt % 65536) as u16),
        kind: (task.kind % 4294967296) as u32,
        args,
        count: task.count,
    };
    let until = held.time + u64::from(ms);
    shut(memory, held, dir, slot, &handed(flow, until));
    Ok(Reply::Job(job))
}

// The task that was found is handed out.
fn hand<D: Device>(
    memory: &mut Memory<D>,
    held: &mut Held,
    dir: &Dir,
    slot: Slot,
    ms: u32,
) -> Result<Reply, Damaged>
    requires clock { held.old.time ≤ 4611686018427387904 }
    ensures done { Done D.step (at_flow (mind_of (D.size memory.old.dev) held.old dir.now) (hand_flow ms (mind_of (D.size memory.old.dev) held.old dir.now)) slot) memory.old.dev result (mind_of (D.size memory.old.dev) held.new dir.now) memory.new.dev }
    ensures stays { D.size memory.new.dev ≡ D.size memory.old.dev }
    ensures time { held.new.time ≡ held.old.time }
{
    let flow = open(memory, held, dir, slot)?;
    hand_flow(memory, held, dir, slot, flow, ms)
}

pub fn take<D: Device>(
    memory: &mut Memory<D>,
    held: &mut Held,
    dir: &Dir,
    kinds: &[u64],
    ms: u32,
) -> Result<Reply, Damaged>
    requires clock { held.old.time ≤ 4611686018427387904 }
    ensures done { Done D.step (take_work kinds.now ms (mind_of (D.size memory.old.dev) held.old dir.now)) memory.old.dev result (mind_of (D.size memory.old.dev) held.new dir.now) memory.new.dev }
    ensures stays { D.size memory.new.dev ≡ D.size memory.old.dev }
    ensures time { held.new.time ≡ held.old.time }
{
    match look(memory, held, dir, kinds)? {
        Some(best) => hand(memory, held, dir, best.slot, ms),
        None => Ok(Reply::Nothing),
    }
}

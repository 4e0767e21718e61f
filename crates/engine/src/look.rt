// Calls that concern one flow: show, forget, cancel, longer, report.
ghost use Rattle.std.specs.Prelude.{◌≡◌, ℕ, ◌≤◌, length, if◌then◌else◌, is_some, Ok};
ghost use Rattle.std.specs.Option.{unwrap_or};
ghost use Rattle.device.specs.Does.{bind};
ghost use Rattle.pages.specs.Events.{worked_on, wrong_on};
ghost use Rattle.store.specs.Works.{load_plan};
ghost use Rattle.runs.specs.Carried.{listening};
ghost use Rattle.engine.specs.Works.{at_slot, key_slot, id_slot, show_flow, forget_flow, cancel_flow, longer_flow, report_flow, report_plan};
ghost use Rattle.engine.specs.Done.{mind_of, refusal_of, Done};

use crate::held::{Held, open, shut};
use calls::types::{Refusal, Reply};
use device::Device;
use pages::event::{went_wrong, worked};
use pages::flow::{Flow, Untried};
use pages::look::{cancelled, handed, is_over, tried};
use plans::eval::Damaged;
use runs::step::Phase;
use runs::time::Time;
use store::dir::{Dir, Entries};
use store::keep::Memory;
use store::root::turn_used;
use store::slot::Slot;

// Which try of which step a worker speaks of.
#[derive(Clone, Copy)]
pub struct Try {
    pub step: u64,
    pub attempt: u64,
}

fn is_listening(phase: Phase) -> bool
    ensures { result ≡ listening phase }
{
    matches!(phase, Phase::Listens { .. })
}

// Why what a worker speaks of is turned away.
fn refusal(why: Untried) -> Refusal
    ensures { result ≡ refusal_of why }
{
    match why {
        Untried::NoTask => Refusal::NotFound,
        Untried::NotOut => Refusal::NotOut,
    }
}

// What a flow is. The word that one listens for has its name in the plan.
fn show_flow<D: Device>(
    memory: &mut Memory<D>,
    held: &Held,
    dir: &Dir,
    plan: &mut [u64; 16384],
    slot: Slot,
    flow: Flow,
) -> Reply
    ensures done { Done D.step (show_flow (mind_of (D.size memory.old.dev) held.now dir.now) slot flow) memory.old.dev (Ok result) (mind_of (D.size memory.old.dev) held.now dir.now) memory.new.dev }
    ensures stays { D.size memory.new.dev ≡ D.size memory.old.dev }
{
    if !is_listening(flow.place.phase) {
        return Reply::State(flow.place.phase);
    }
    let size = dir.size_at(slot);
    memory.load_plan(dir, slot, &mut plan[0..4 * size]);
    Reply::State(flow.place.phase)
}

pub fn show<D: Device>(
    memory: &mut Memory<D>,
    held: &Held,
    dir: &Dir,
    plan: &mut [u64; 16384],
    key: &[u8],
) -> Result<Reply, Damaged>
    ensures done { Done D.step (at_slot (mind_of (D.size memory.old.dev) held.now dir.now) (show_flow (mind_of (D.size memory.old.dev) held.now dir.now)) (key_slot (mind_of (D.size memory.old.dev) held.now dir.now) key.now)) memory.old.dev result (mind_of (D.size memory.old.dev) held.now dir.now) memory.new.dev }
    ensures stays { D.size memory.new.dev ≡ D.size memory.old.dev }
{
    let Some(slot) = dir.find_key(&held.root, key) else {
        return Ok(Reply::No(Refusal::NotFound));
    };
    let flow = open(memory, held, dir, slot)?;
    Ok(show_flow(memory, held, dir, plan, slot, flow))
}

// One that is over is forgotten, and its slot is free.
fn forget_flow<D: Device>(
    memory: &mut Memory<D>,
    held: &mut Held,
    dir: &Dir,
    slot: Slot,
    flow: Flow,
) -> Reply
    ensures done { Done D.step (forget_flow (mind_of (D.size memory.old.dev) held.old dir.now) slot flow) memory.old.dev (Ok result) (mind_of (D.size memory.old.dev) held.new dir.now) memory.new.dev }
    ensures stays { D.size memory.new.dev ≡ D.size memory.old.dev }
    ensures time { held.new.time ≡ held.old.time }
{
    if !is_over(flow.place.phase) {
        return Reply::No(Refusal::WrongPhase);
    }
    turn_used(&mut held.root, slot);
    memory.commit(held.word, &held.root);
    held.word = 1 - held.word % 2;
    Reply::Yes
}

pub fn forget<D: Device>(
    memory: &mut Memory<D>,
    held: &mut Held,
    dir: &Dir,
    key: &[u8],
) -> Result<Reply, Damaged>
    ensures done { Done D.step (at_slot (mind_of (D.size memory.old.dev) held.old dir.now) (forget_flow (mind_of (D.size memory.old.dev) held.old dir.now)) (key_slot (mind_of (D.size memory.old.dev) held.old dir.now) key.now)) memory.old.dev result (mind_of (D.size memory.old.dev) held.new dir.now) memory.new.dev }
    ensures stays { D.size memory.new.dev ≡ D.size memory.old.dev }
    ensures time { held.new.time ≡ held.old.time }
{
    let Some(slot) = dir.find_key(&held.root, key) else {
        return Ok(Reply::No(Refusal::NotFound));
    };
    let flow = open(memory, held, dir, slot)?;
    Ok(forget_flow(memory, held, dir, slot, flow))
}

fn cancel_flow<D: Device>(
    memory: &mut Memory<D>,
    held: &mut Held,
    dir: &Dir,
    slot: Slot,
    flow: Flow,
) -> Reply
    ensures done { Done D.step (cancel_flow (mind_of (D.size memory.old.dev) held.old dir.now) slot flow) memory.old.dev (Ok result) (mind_of (D.size memory.old.dev) held.new dir.now) memory.new.dev }
    ensures stays { D.size memory.new.dev ≡ D.size memory.old.dev }
    ensures time { held.new.time ≡ held.old.time }
{
    if is_over(flow.place.phase) {
        return Reply::No(Refusal::WrongPhase);
    }
    shut(memory, held, dir, slot, &cancelled(flow));
    Reply::Yes
}

pub fn cancel<D: Device>(
    memory: &mut Memory<D>,
    held: &mut Held,
    dir: &Dir,
    key: &[u8],
) -> Result<Reply, Damaged>
    ensures done { Done D.step (at_slot (mind_of (D.size memory.old.dev) held.old dir.now) (cancel_flow (mind_of (D.size memory.old.dev) held.old dir.now)) (key_slot (mind_of (D.size memory.old.dev) held.old dir.now) key.now)) memory.old.dev result (mind_of (D.size memory.old.dev) held.new dir.now) memory.new.dev }
    ensures stays { D.size memory.new.dev ≡ D.size memory.old.dev }
    ensures time { held.new.time ≡ held.old.time }
{
    let Some(slot) = dir.find_key(&held.root, key) else {
        return Ok(Reply::No(Refusal::NotFound));
    };
    let flow = open(memory, held, dir, slot)?;
    Ok(cancel_flow(memory, held, dir, slot, flow))
}

// A try that is out stays out until so many ms from now.
fn longer_flow<D: Device>(
    memory: &mut Memory<D>,
    held: &mut Held,
    dir: &Dir,
    slot: Slot,
    flow: Flow,
    try_out: Try,
    ms: u32,
) -> Reply
    requires clock { held.old.time ≤ 4611686018427387904 }
    ensures done { Done D.step (longer_flow try_out.step try_out.attempt ms (mind_of (D.size memory.old.dev) held.old dir.now) slot flow) memory.old.dev (Ok result) (mind_of (D.size memory.old.dev) held.new dir.now) memory.new.dev }
    ensures stays { D.size memory.new.dev ≡ D.size memory.old.dev }
    ensures time { held.new.time ≡ held.old.time }
{
    match tried(&flow, try_out.step, try_out.attempt) {
        Err(why) => Reply::No(refusal(why)),
        Ok(()) => {
            let until = held.time + u64::from(ms);
            shut(memory, held, dir, slot, &handed(flow, until));
            Reply::Yes
        }
    }
}

pub fn longer<D: Device>(
    memory: &mut Memory<D>,
    held: &mut Held,
    dir: &Dir,
    id: u64,
    try_out: Try,
    ms: u32,
) -> Result<Reply, Damaged>
    requires clock { held.old.time ≤ 4611686018427387904 }
    ensures done { Done D.step (at_slot (mind_of (D.size memory.old.dev) held.old dir.now) (longer_flow try_out.step try_out.attempt ms (mind_of (D.size memory.old.dev) held.old dir.now)) (id_slot (mind_of (D.size memory.old.dev) held.old dir.now) id)) memory.old.dev result (mind_of (D.size memory.old.dev) held.new dir.now) memory.new.dev }
    ensures stays { D.size memory.new.dev ≡ D.size memory.old.dev }
    ensures time { held.new.time ≡ held.old.time }
{
    let Some(slot) = dir.find_id(&held.root, id) else {
        return Ok(Reply::No(Refusal::NotFound));
    };
    let flow = open(memory, held, dir, slot)?;
    Ok(longer_flow(memory, held, dir, slot, flow, try_out, ms))
}

// What the end of a try makes of a flow: it went well with a value, or it went wrong.
fn tried_out(
    plan: &[u64],
    flow: Flow,
    end: Option<u64>,
    time: Time,
    stack: &mut [u64; 4096],
) -> Result<Flow, Damaged>
    ensures { result ≡ (if is_some end then worked_on 4096 plan.now time (unwrap_or end 0) flow else wrong_on 4096 plan.now time flow) }
{
    match end {
        Some(value) => worked(plan, flow, value, time, stack),
        None => went_wrong(plan, flow, time, stack),
    }
}

// A try that is out ended: the flow goes on.
fn report_plan<D: Device>(
    memory: &mut Memory<D>,
    held: &mut Held,
    dir: &Dir,
    plan: &mut [u64; 16384],
    stack: &mut [u64; 4096],
    slot: Slot,
    flow: Flow,
    end: Option<u64>,
) -> Result<Reply, Damaged>
    requires clock { held.old.time ≤ 4611686018427387904 }
    ensures done { Done D.step (bind (load_plan (D.size memory.old.dev) dir.now slot) (report_plan (is_some end) (unwrap_or end 0) (mind_of (D.size memory.old.dev) held.old dir.now) slot flow)) memory.old.dev result (mind_of (D.size memory.old.dev) held.new dir.now) memory.new.dev }
    ensures stays { D.size memory.new.dev ≡ D.size memory.old.dev }
    ensures time { held.new.time ≡ held.old.time }
{
    let size = dir.size_at(slot);
    let words = &mut plan[0..4 * size];
    memory.load_plan(dir, slot, words);
    let flow = tried_out(words, flow, end, held.now(), stack)?;
    shut(memory, held, dir, slot, &flow);
    Ok(Reply::Yes)
}

fn report_flow<D: Device>(
    memory: &mut Memory<D>,
    held: &mut Held,
    dir: &Dir,
    plan: &mut [u64; 16384],
    stack: &mut [u64; 4096],
    slot: Slot,
    flow: Flow,
    try_out: Try,
    end: Option<u64>,
) -> Result<Reply, Damaged>
    requires clock { held.old.time ≤ 4611686018427387904 }
    ensures done { Done D.step (report_flow try_out.step try_out.attempt (is_some end) (unwrap_or end 0) (mind_of (D.size memory.old.dev) held.old dir.now) slot flow) memory.old.dev result (mind_of (D.size memory.old.dev) held.new dir.now) memory.new.dev }
    ensures stays { D.size memory.new.dev ≡ D.size memory.old.dev }
    ensures time { held.new.time ≡ held.old.time }
{
    match tried(&flow, try_out.step, try_out.attempt) {
        Err(why) => Ok(Reply::No(refusal(why))),
        Ok(()) => report_plan(memory, held, dir, plan, stack, slot, flow, end),
    }
}

// A try has ended: well with a value, or not.
pub fn report<D: Device>(
    memory: &mut Memory<D>,
    held: &mut Held,
    dir: &Dir,
    plan: &mut [u64; 16384],
    stack: &mut [u64; 4096],
    id: u64,
    try_out: Try,
    end: Option<u64>,
) -> Result<Reply, Damaged>
    requires clock { held.old.time ≤ 4611686018427387904 }
    ensures done { Done D.step (at_slot (mind_of (D.size memory.old.dev) held.old dir.now) (report_flow try_out.step try_out.attempt (is_some end) (unwrap_or end 0) (mind_of (D.size memory.old.dev) held.old dir.now)) (id_slot (mind_of (D.size memory.old.dev) held.old dir.now) id)) memory.old.dev result (mind_of (D.size memory.old.dev) held.new dir.now) memory.new.dev }
    ensures stays { D.size memory.new.dev ≡ D.size memory.old.dev }
    ensures time { held.new.time ≡ held.old.time }
{
    let Some(slot) = dir.find_id(&held.root, id) else {
        return Ok(Reply::No(Refusal::NotFound));
    };
    let flow = open(memory, held, dir, slot)?;
    report_flow(memory, held, dir, plan, stack, slot, flow, try_out, end)
}

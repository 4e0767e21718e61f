// Time is told: each flow that stirs goes on, and one flip makes all of it count.
ghost use Rattle.std.specs.Prelude.{◌≡◌, ℕ, ◌≤◌, None, Ok};
ghost use Rattle.device.specs.Does.{Did, bind, loop_from};
ghost use Rattle.store.specs.Works.{load_plan};
ghost use Rattle.engine.specs.Works.{tick_save, tick_plan, tick_flow, tick_turn, tick_work};
ghost use Rattle.engine.specs.Done.{mind_of, Done};

use crate::held::{Held, open};
use calls::types::Reply;
use device::Device;
use pages::event::ticked;
use pages::flow::Flow;
use pages::look::stirs;
use pages::page::encode;
use plans::eval::Damaged;
use runs::time::Time;
use store::dir::{Dir, Entries};
use store::keep::Memory;
use store::root::{is_used, pick, turn_pick};
use store::slot::{SLOTS, Slot};

// What the flows that have gone on come to: the root page as it is to be, if some flow has changed; damaged where a page was of no flow.
type Changed = Result<Option<[u64; 40]>, Damaged>;

// A flow as it is now is saved where it does not count yet.
fn tick_save<D: Device>(
    memory: &mut Memory<D>,
    held: &Held,
    dir: &Dir,
    slot: Slot,
    changed: Changed,
    flow: &Flow,
) -> Changed
    ensures did { Did D.step (tick_save (mind_of (D.size memory.old.dev) held.now dir.now) slot changed flow.now) memory.old.dev result memory.new.dev }
    ensures stays { D.size memory.new.dev ≡ D.size memory.old.dev }
{
    let copy = pick(&held.root, slot).other();
    memory.save_page(dir, slot, copy, &encode(flow));
    let mut page = changed?.unwrap_or(held.root);
    turn_pick(&mut page, slot);
    Ok(Some(page))
}

// A flow that stirs goes on by its plan.
fn tick_plan<D: Device>(
    memory: &mut Memory<D>,
    held: &Held,
    dir: &Dir,
    plan: &mut [u64; 16384],
    stack: &mut [u64; 4096],
    time: Time,
    slot: Slot,
    changed: Changed,
    flow: Flow,
) -> Changed
    ensures did { Did D.step (bind (load_plan (D.size memory.old.dev) dir.now slot) (tick_plan time (mind_of (D.size memory.old.dev) held.now dir.now) slot changed flow)) memory.old.dev result memory.new.dev }
    ensures stays { D.size memory.new.dev ≡ D.size memory.old.dev }
{
    let size = dir.size_at(slot);
    let words = &mut plan[0..4 * size];
    memory.load_plan(dir, slot, words);
    let flow = ticked(words, flow, time, stack)?;
    tick_save(memory, held, dir, slot, changed, &flow)
}

fn tick_flow<D: Device>(
    memory: &mut Memory<D>,
    held: &Held,
    dir: &Dir,
    plan: &mut [u64; 16384],
    stack: &mut [u64; 4096],
    time: Time,
    slot: Slot,
    changed: Changed,
    flow: Flow,
) -> Changed
    ensures did { Did D.step (tick_flow time (mind_of (D.size memory.old.dev) held.now dir.now) slot changed flow) memory.old.dev result memory.new.dev }
    ensures stays { D.size memory.new.dev ≡ D.size memory.old.dev }
{
    if !stirs(&flow, time.ms()) {
        return changed;
    }
    tick_plan(memory, held, dir, plan, stack, time, slot, changed, flow)
}

// One more slot, also where a page was of no flow: what is done to the memory depends on the slots alone.
fn tick_turn<D: Device>(
    memory: &mut Memory<D>,
    held: &Held,
    dir: &Dir,
    plan: &mut [u64; 16384],
    stack: &mut [u64; 4096],
    time: Time,
    slot: Slot,
    changed: Changed,
) -> Changed
    ensures did { Did D.step (tick_turn time (mind_of (D.size memory.old.dev) held.now dir.now) slot changed) memory.old.dev result memory.new.dev }
    ensures stays { D.size memory.new.dev ≡ D.size memory.old.dev }
{
    if !is_used(&held.root, slot) {
        return changed;
    }
    let flow = open(memory, held, dir, slot)?;
    tick_flow(memory, held, dir, plan, stack, time, slot, changed, flow)
}

// All slots.
fn tick_all<D: Device>(
    memory: &mut Memory<D>,
    held: &Held,
    dir: &Dir,
    plan: &mut [u64; 16384],
    stack: &mut [u64; 4096],
    time: Time,
) -> Changed
    ensures did { Did D.step (loop_from (tick_turn time (mind_of (D.size memory.old.dev) held.now dir.now)) 0 1024 (Ok None)) memory.old.dev result memory.new.dev }
    ensures stays { D.size memory.new.dev ≡ D.size memory.old.dev }
{
    let mut changed = Ok(None);
    for i in 0..SLOTS {
        changed = tick_turn(memory, held, dir, plan, stack, time, Slot::new(i), changed);
    }
    changed
}

// It is this time now.
pub fn tick<D: Device>(
    memory: &mut Memory<D>,
    held: &mut Held,
    dir: &Dir,
    plan: &mut [u64; 16384],
    stack: &mut [u64; 4096],
    time: Time,
) -> Result<Reply, Damaged>
    ensures done { Done D.step (tick_work time (mind_of (D.size memory.old.dev) held.old dir.now)) memory.old.dev result (mind_of (D.size memory.old.dev) held.new dir.now) memory.new.dev }
    ensures stays { D.size memory.new.dev ≡ D.size memory.old.dev }
    ensures clock { held.old.time ≤ 4611686018427387904 → held.new.time ≤ 4611686018427387904 }
{
    let changed = tick_all(memory, held, dir, plan, stack, time)?;
    held.time = time.ms();
    if let Some(page) = changed {
        memory.commit(held.word, &page);
        held.word = 1 - held.word % 2;
        held.root = page;
    }
    Ok(Reply::Yes)
}

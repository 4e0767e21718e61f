// A new flow is started.
ghost use Rattle.std.specs.Prelude.{◌≡◌, ℕ, ◌+◌, ◌-◌, ◌*◌, ◌/◌, ◌%◌, ◌<◌, ◌≤◌, ◌↔◌, min, length, IfSome, IsSome, Ok, nat_le, nat_lt};
ghost use Rattle.device.specs.Does.{Did};
ghost use Rattle.store.specs.Layout.{next_of, turn_at, blocks_for};
ghost use Rattle.store.specs.Works.{flip_to};
ghost use Rattle.store.specs.Entry.{entry_of, put_entry, bumped};
ghost use Rattle.store.specs.Finds.{weight_over};
ghost use Rattle.store.specs.Room.{marked, chosen, looked_at};
ghost use Rattle.engine.specs.Works.{born_work, start_blocks, start_free, start_work};
ghost use Rattle.engine.specs.Done.{mind_of, held_as, Done};

use crate::held::Held;
use blocks::blocks_in;
use calls::types::{FlowId, Refusal, Reply};
use device::Device;
use pages::event::begin;
use pages::flow::Flow;
use pages::page::encode;
use plans::eval::Damaged;
use store::dir::{Dir, Entries, free_slot};
use store::entry::{bump, entry_of};
use store::keep::Memory;
use store::room::{blocks_for, choose, mark};
use store::root::{pick, turn_used};
use store::slot::Slot;

// What a flow is started with: its key, its plan in the flat form, and its first words.
#[derive(Clone, Copy)]
pub struct NewFlow<'a> {
    pub key: &'a [u8],
    pub plan: &'a [u64],
    pub words: &'a [u64],
    ghost small: { length plan.now ≤ 16384 },
    ghost few: { length words.now ≤ 16 },
}

impl<'a> NewFlow<'a> {
    // None where the plan is longer than plans are, or there are more words than a flow is given.
    pub fn new(key: &'a [u8], plan: &'a [u64], words: &'a [u64]) -> Option<NewFlow<'a>>
        ensures same { IfSome result (λ n. (n.key.now ≡ key.entry.now) × (n.plan.now ≡ plan.entry.now) × (n.words.now ≡ words.entry.now)) }
        ensures fits { IsSome result ↔ ((length plan.entry.now ≤ 16384) × (length words.entry.now ≤ 16)) }
    {
        if plan.len() > 16384 || words.len() > 16 {
            return None;
        }
        Some(NewFlow { key, plan, words })
    }
}

// Have all numbers been given out?
fn is_spent(root: &[u64; 40]) -> bool
    ensures { result ≡ nat_le 4611686018427387904 (next_of root.now) }
{
    root[0] >= 4611686018427387903
}

// The other root page with one flow more, and then it counts. That a number is left is tested once, in `start_free`; `low` hands it on, since
// what is held may have none left.
fn count_in<D: Device>(memory: &mut Memory<D>, held: &mut Held, slot: Slot)
    requires low { next_of held.old.root < 4611686018427387904 }
    ensures did { Did D.step (flip_to held.old.word (bumped (turn_at 1 slot held.old.root))) memory.old.dev tt memory.new.dev }
    ensures held { held.new ≡ held_as (bumped (turn_at 1 slot held.old.root)) held.old }
    ensures stays { D.size memory.new.dev ≡ D.size memory.old.dev }
{
    turn_used(&mut held.root, slot);
    bump(&mut held.root);
    memory.commit(held.word, &held.root);
    held.word = 1 - held.word % 2;
}

// Its entry, its plan and its first page are written where nothing counts; then they count.
fn born<D: Device>(
    memory: &mut Memory<D>,
    held: &mut Held,
    dir: &mut Dir,
    new: &NewFlow<'_>,
    slot: Slot,
    blocks: &[u64; 18],
    flow: &Flow,
) -> Reply
    requires low { next_of held.old.root < 4611686018427387904 }
    ensures done { Done D.step (born_work (mind_of (D.size memory.old.dev) held.old dir.old) slot (entry_of (next_of held.old.root) (length new.now.plan.now / 4) new.now.key.now blocks.now) (put_entry slot (entry_of (next_of held.old.root) (length new.now.plan.now / 4) new.now.key.now blocks.now) dir.old) (bumped (turn_at 1 slot held.old.root)) new.now.plan.now flow.now) memory.old.dev (Ok result) (mind_of (D.size memory.old.dev) held.new dir.new) memory.new.dev }
    ensures stays { D.size memory.new.dev ≡ D.size memory.old.dev }
    ensures time { held.new.time ≡ held.old.time }
{
    let id = held.root[0] + 1;
    let entry = entry_of(id, (new.plan.len() / 4) as u64, new.key, blocks);
    dir.put_entry(slot, &entry);
    memory.save_entry(slot, &entry);
    memory.save_plan(dir, slot, new.plan);
    memory.save_page(dir, slot, pick(&held.root, slot), &encode(flow));
    count_in(memory, held, slot);
    Reply::Flow(FlowId(id))
}

// It runs for the first time.
fn start_blocks<D: Device>(
    memory: &mut Memory<D>,
    held: &mut Held,
    dir: &mut Dir,
    new: &NewFlow<'_>,
    stack: &mut [u64; 4096],
    slot: Slot,
    blocks: &[u64; 18],
) -> Result<Reply, Damaged>
    requires clock { held.old.time ≤ 4611686018427387904 }
    requires low { next_of held.old.root < 4611686018427387904 }
    ensures done { Done D.step (start_blocks new.now.key.now (length new.now.plan.now / 4) new.now.plan.now new.now.words.now (mind_of (D.size memory.old.dev) held.old dir.old) slot blocks.now) memory.old.dev result (mind_of (D.size memory.old.dev) held.new dir.new) memory.new.dev }
    ensures stays { D.size memory.new.dev ≡ D.size memory.old.dev }
    ensures time { held.new.time ≡ held.old.time }
{
    let flow = begin(new.plan, new.words, held.now(), stack)?;
    Ok(born(memory, held, dir, new, slot, blocks, &flow))
}

// Does a plan of this size surely fit?
fn is_tight(lines: u64, root: &[u64; 40], dir: &Dir, size: usize) -> bool
    requires few { lines ≤ 1099511627776 }
    requires small { size ≤ 4096 }
    ensures { result ≡ nat_lt (64 * lines) (1048576 + 2 * (weight_over root.now dir.now 0 1024 + (16384 + 16 * size))) }
{
    let sum = dir.weight(root) + (16384 + 16 * size as u64);
    64 * lines < 1048576 + 2 * sum
}

// How many blocks are looked at.
fn looked_at(lines: u64) -> usize
    ensures is { result ≡ looked_at lines }
    ensures low { result ≤ 18432 }
{
    blocks_in(lines).min(18432) as usize
}

// The blocks of a new flow: the first that no flow has.
fn choose_blocks(
    lines: u64,
    root: &[u64; 40],
    dir: &Dir,
    marks: &mut [u64; 18432],
    size: usize,
) -> Option<[u64; 18]>
    requires small { size ≤ 4096 }
    ensures { result ≡ chosen (blocks_for size) (marked root.now dir.now (looked_at lines)) }
{
    let looked = &mut marks[0..looked_at(lines)];
    mark(root, dir, looked);
    choose(looked, blocks_for(size))
}

fn start_free<D: Device>(
    memory: &mut Memory<D>,
    held: &mut Held,
    dir: &mut Dir,
    new: &NewFlow<'_>,
    stack: &mut [u64; 4096],
    marks: &mut [u64; 18432],
    slot: Slot,
) -> Result<Reply, Damaged>
    requires clock { held.old.time ≤ 4611686018427387904 }
    ensures done { Done D.step (start_free new.now.key.now (length new.now.plan.now / 4) new.now.plan.now new.now.words.now (mind_of (D.size memory.old.dev) held.old dir.old) slot) memory.old.dev result (mind_of (D.size memory.old.dev) held.new dir.new) memory.new.dev }
    ensures stays { D.size memory.new.dev ≡ D.size memory.old.dev }
    ensures time { held.new.time ≡ held.old.time }
{
    if is_spent(&held.root) {
        return Ok(Reply::No(Refusal::NoMore));
    }
    let size = new.plan.len() / 4;
    let lines = memory.dev.lines();
    if is_tight(lines, &held.root, dir, size) {
        return Ok(Reply::Full);
    }
    let Some(blocks) = choose_blocks(lines, &held.root, dir, marks, size) else {
        return Err(Damaged);
    };
    start_blocks(memory, held, dir, new, stack, slot, &blocks)
}

// Starts a flow under a key, unless there is one: then it is that one.
pub fn start<D: Device>(
    memory: &mut Memory<D>,
    held: &mut Held,
    dir: &mut Dir,
    new: &NewFlow<'_>,
    stack: &mut [u64; 4096],
    marks: &mut [u64; 18432],
) -> Result<Reply, Damaged>
    requires clock { held.old.time ≤ 4611686018427387904 }
    ensures done { Done D.step (start_work new.now.key.now (length new.now.plan.now / 4) new.now.plan.now new.now.words.now (mind_of (D.size memory.old.dev) held.old dir.old)) memory.old.dev result (mind_of (D.size memory.old.dev) held.new dir.new) memory.new.dev }
    ensures stays { D.size memory.new.dev ≡ D.size memory.old.dev }
    ensures time { held.new.time ≡ held.old.time }
{
    if let Some(slot) = dir.find_key(&held.root, new.key) {
        return Ok(Reply::Flow(FlowId(dir.id_at(slot))));
    }
    let Some(slot) = free_slot(&held.root) else {
        return Ok(Reply::No(Refusal::NoMore));
    };
    start_free(memory, held, dir, new, stack, marks, slot)
}

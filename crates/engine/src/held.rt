// What the house holds in memory that does not last, and a slot's flow opened and shut.
ghost use Rattle.std.specs.Prelude.{◌≡◌, ℕ, ◌-◌, ◌%◌, ◌≤◌};
ghost use Rattle.device.specs.Does.{Did};
ghost use Rattle.store.specs.Layout.{turn_at};
ghost use Rattle.engine.specs.Works.{open_work, shut_work};
ghost use Rattle.engine.specs.Done.{mind_of, held_as};

use device::Device;
use pages::flow::Flow;
use pages::page::{decode, encode};
use plans::eval::Damaged;
use runs::time::Time;
use store::dir::Dir;
use store::keep::Memory;
use store::root::{pick, turn_pick};
use store::slot::Slot;

// The time; the root word; the root page in force. The functions of this crate are lent the memory, this and the directory apart: a signature
// says by `&` and `&mut` which of them a call changes, and no clause has to say that the others stay.
#[derive(Clone, Copy)]
pub struct Held {
    // 0 if none was told, as in the meaning, where no time is 0
    pub time: u64,
    pub word: u64,
    pub root: [u64; 40],
}

impl Held {
    // The time that a flow's run is told.
    pub(crate) fn now(&self) -> Time
        requires clock { self.now.time ≤ 4611686018427387904 }
        ensures { result ≡ self.now.time }
    {
        Time::new(self.time).unwrap()
    }
}

// The flow of a slot.
pub fn open<D: Device>(
    memory: &mut Memory<D>,
    held: &Held,
    dir: &Dir,
    slot: Slot,
) -> Result<Flow, Damaged>
    ensures did { Did D.step (open_work (mind_of (D.size memory.old.dev) held.now dir.now) slot) memory.old.dev result memory.new.dev }
    ensures stays { D.size memory.new.dev ≡ D.size memory.old.dev }
{
    let mut page = [0; 128];
    memory.load_page(&held.root, dir, slot, &mut page);
    decode(&page)
}

// The flow of a slot is saved, and then it counts.
pub fn shut<D: Device>(memory: &mut Memory<D>, held: &mut Held, dir: &Dir, slot: Slot, flow: &Flow)
    ensures did { Did D.step (shut_work (mind_of (D.size memory.old.dev) held.old dir.now) slot flow.now) memory.old.dev tt memory.new.dev }
    ensures held { held.new ≡ held_as (turn_at 17 slot held.old.root) held.old }
    ensures stays { D.size memory.new.dev ≡ D.size memory.old.dev }
{
    let copy = pick(&held.root, slot).other();
    memory.save_page(dir, slot, copy, &encode(flow));
    turn_pick(&mut held.root, slot);
    memory.commit(held.word, &held.root);
    held.word = 1 - held.word % 2;
}

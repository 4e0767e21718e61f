// A cell that is cut off at every operation of a put.
use anyhow::{bail, ensure};
use cell::{get, put, put_and_fail};
use device::Device;
use lines::cached::Cached;

const OLD: [u64; 16] = [11; 16];

const NEW: [u64; 16] = [22; 16];

// A put makes 23 operations: it loads and stores the root word, stores 16 words, pushes three lines and sets two fences.
const OPERATIONS: u64 = 23;

// What a put that was cut off has left in the cell.
#[derive(Clone, Copy)]
enum Left {
    Old,
    New,
    Neither,
}

fn tried(before: &Cached, operations: u64, seed: u64) -> anyhow::Result<Left> {
    let memory = before.copy()?;
    ensure!(memory.lines() >= 5, "the memory is too small");
    let mut left = put_and_fail(memory, &NEW, operations, seed);
    let held = get(&mut left);
    Ok(if held == OLD {
        Left::Old
    } else if held == NEW {
        Left::New
    } else {
        Left::Neither
    })
}

pub fn every_cut(rt: &HostRuntime) -> anyhow::Result<()> {
    let mut before = Cached::new(rt.alloc(), 8)?;
    put(&mut before, &OLD);
    let mut olds = 0u64;
    let mut news = 0u64;
    for operations in 0..=OPERATIONS {
        for seed in 0..100u64 {
            match tried(&before, operations, seed)? {
                Left::Old if operations < OPERATIONS => olds = olds.saturating_add(1),
                Left::New => news = news.saturating_add(1),
                _ => bail!("the cell holds neither the old words nor the new ones"),
            }
        }
    }
    ensure!(
        olds > 0 && news >= 100,
        "the cell never held the old words, or the new ones"
    );
    rt.println("a put that is cut off at any operation leaves the old words or the new ones")?;
    Ok(())
}

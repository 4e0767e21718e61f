// What a power failure leaves of the simulated memory.
use crate::steps::{fill, filled, load, push, store};
use anyhow::{Context, bail, ensure};
use device::Device;
use lines::cached::Cached;

const SEEDS: u64 = 4_000;

// Of two lines with eight and three stores, some first part is left of each, whatever is left of the other; and every two numbers of
// stores come up.
pub fn prefixes(rt: &HostRuntime) -> anyhow::Result<()> {
    let mut came = [[false; 4]; 9];
    for seed in 0..SEEDS {
        let mut memory = Cached::new(rt.alloc(), 64)?;
        fill(&mut memory, 3, 0, 8);
        fill(&mut memory, 40, 0, 3);
        memory.fail(seed);
        let first = filled(&mut memory, 3).context("stores of line 3 are missing before others")?;
        let second = filled(&mut memory, 40).context(
            "stores of line 40 are missing before others",
        )?;
        ensure!(
            first < 9 && second < 4,
            "there are more stores than were made"
        );
        came[first][second] = true;
    }
    ensure!(
        came.iter().flatten().all(|met| *met),
        "some number of stores never came up"
    );
    rt.println("of each line some first part of its stores is left, and every such part came up")?;
    Ok(())
}

// What was pushed before a fence is left in any case, and what was stored after the push need not be.
pub fn fenced_last(rt: &HostRuntime) -> anyhow::Result<()> {
    let mut came = [false; 9];
    for seed in 0..SEEDS {
        let mut memory = Cached::new(rt.alloc(), 64)?;
        fill(&mut memory, 5, 0, 4);
        push(&mut memory, 5);
        fill(&mut memory, 5, 4, 8);
        store(&mut memory, 6, 0, 7);
        memory.fence();
        ensure!(
            load(&mut memory, 5, 7) == 1 && load(&mut memory, 6, 0) == 7,
            "a fence changed what is seen"
        );
        memory.fail(seed);
        match filled(&mut memory, 5) {
            Some(count) if count < 9 => came[count] = true,
            _ => bail!("stores of line 5 are missing before others"),
        }
    }
    ensure!(
        !came[..4].contains(&true),
        "a store was lost that was pushed and fenced"
    );
    ensure!(
        !came[4..].contains(&false),
        "some number of stores never came up"
    );
    rt.println("what was pushed and fenced is left in any case")?;
    Ok(())
}

// A memory of a million lines, with a few stores between fences and failures.
pub fn large(rt: &HostRuntime) -> anyhow::Result<()> {
    let mut memory = Cached::new(rt.alloc(), 1_000_000)?;
    for i in 0..10_000u64 {
        let line = i * 97;
        store(&mut memory, line, i % 8, i);
        push(&mut memory, line);
        memory.fence();
        memory.fail(i);
    }
    for i in 0..10_000u64 {
        ensure!(
            load(&mut memory, i * 97, i % 8) == i,
            "a word is not what was stored"
        );
    }
    rt.println("a million lines, ten thousand fences and as many failures: each word is there")?;
    Ok(())
}

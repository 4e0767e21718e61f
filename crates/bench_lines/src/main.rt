// Operations a second of each memory. `bench_lines ROUNDS PATH` makes so many rounds on the simulated memory, and a hundredth of them on the
// memory in the file PATH, which is made if it is not there. A round stores and loads 128 words of 16 lines, pushes these, and sets a fence.
#![tactic(auto)]

use anyhow::ensure;
use device::Device;
use file_memory::open::open;
use lines::cached::Cached;
use std::env;
use std::time::Instant;

// How many operations a round makes.
const OPERATIONS: u64 = 128 + 128 + 16 + 1;

// The lines that the rounds go through, from the first on again after the last.
const LINES: u64 = 32_768;

// Stores a word into each word of a line, loads them all, and pushes the line. Gives the sum of what was loaded.
fn line_round<D: Device>(memory: &mut D, line: u64, value: u64) -> u64 {
    let mut sum = 0u64;
    if line < memory.lines() {
        for word in 0..8u64 {
            if line < memory.lines() {
                memory.store(line, word, value);
            }
        }
        for word in 0..8u64 {
            if line < memory.lines() {
                sum = sum.wrapping_add(memory.load(line, word));
            }
        }
        if line < memory.lines() {
            memory.push(line);
        }
    }
    sum
}

fn rounds<D: Device>(memory: &mut D, count: u64) -> u64 {
    let mut sum = 0u64;
    for round in 0..count {
        for i in 0..16u64 {
            let line = round.wrapping_mul(16).wrapping_add(i) % LINES;
            sum = sum.wrapping_add(line_round(memory, line, round));
        }
        memory.fence();
    }
    sum
}

// What the sums have to be: 128 times each round's number.
fn expected(count: u64) -> u64 {
    (0..count).fold(
        0,
        |sum: u64, round| sum.wrapping_add(round.wrapping_mul(128)),
    )
}

fn measure<D: Device>(
    rt: &HostRuntime,
    name: &str,
    memory: &mut D,
    count: u64,
) -> anyhow::Result<()> {
    let start = Instant::now(rt)?;
    let sum = rounds(memory, count);
    let micros = start.elapsed(rt)?.as_micros();
    ensure!(
        sum == expected(count),
        "a load gave another word than was stored"
    );
    let operations = count.wrapping_mul(OPERATIONS);
    let a_second = operations as u128 * 1_000_000 / micros.max(1);
    println!(rt; "{name}: {operations} operations in {micros} microseconds, {a_second} a second")?;
    Ok(())
}

fn run(rt: &HostRuntime) -> anyhow::Result<()> {
    let mut given = env::args(rt)?.skip(1);
    let mut simulated = Cached::new(rt.alloc(), 32_768)?;
    let (Some(count), Some(path)) = (given.next(), given.next()) else {
        ensure!(
            rounds(&mut simulated, 3) == expected(3),
            "a load gave another word than was stored"
        );
        rt.println("three rounds: each load gives what was stored")?;
        return Ok(());
    };
    let count = count.as_str().parse::<u64>()?;
    measure(rt, "the simulated memory", &mut simulated, count)?;
    let mut file = open(rt, rt.alloc(), path.as_str())?;
    measure(rt, "the memory in a file", &mut file, count / 100)
}

fn main(rt: HostRuntime) -> anyhow::Result<()> {
    run(&rt)
}

// Rehearses a script: one thing a line. No kind of call is built yet, so each is answered by `no 12`.
#![tactic(auto)]

use anyhow::anyhow;
use std::io::{BufRead, BufReader};

// Does a line of a script begin with one of the words for calls.
fn is_call(word: &str) -> bool {
    matches!(
        word,
        "start" | "tell" | "cancel" | "take" | "longer" | "report" | "show" | "forget" | "time"
    )
}

fn play(rt: &HostRuntime) -> anyhow::Result<()> {
    let heap = rt.alloc();
    let mut number = 0u64;
    for line in BufReader::new(heap, rt.stdin())?.lines(heap) {
        let text = line?;
        number = number.saturating_add(1);
        let mut words = text.as_str().split_whitespace();
        let Some(word) = words.next() else {
            continue;
        };
        if word.starts_with('#') || word == "flows" {
            continue;
        }
        if !is_call(word) {
            eprintln!(rt; "line {number}: not a call")?;
            return Err(anyhow!("the script can't be read"));
        }
        println!(rt; "no 12")?;
    }
    Ok(())
}

fn main(rt: HostRuntime) -> anyhow::Result<()> {
    play(&rt)
}

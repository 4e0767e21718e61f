// A worker: asks a house through standard output for a task of kind 0, and ends where it is given none.
// It knows of no answer but being turned away yet.
#![tactic(auto)]

use std::io;
use std::io::{BufRead, BufReader};

fn main(rt: HostRuntime) -> io::Result<()> {
    let heap = rt.alloc();
    // length, tag, take, one kind, kind 0, for a second
    println!(rt; "in 0000000e0000000004010000000000000003e8")?;
    for line in BufReader::new(heap, rt.stdin())?.lines(heap) {
        let answer = line?;
        eprintln!(rt; "worker: {answer}")?;
        break;
    }
    Ok(())
}

// The house: answers each line of standard input by one line of standard output. No kind of call is built yet.
#![tactic(auto)]

use std::io;
use std::io::{BufRead, BufReader};
use wire::{TurnedAway, answer_line};

fn main(rt: HostRuntime) -> io::Result<()> {
    let heap = rt.alloc();
    for line in BufReader::new(heap, rt.stdin())?.split(heap, b'\n') {
        let bytes = line?;
        let TurnedAway { tag, why } = answer_line(heap, bytes.as_slice())?;
        let number = u8::from(why);
        println!(rt; "out 00000006{tag:08x}00{number:02x}")?;
    }
    Ok(())
}

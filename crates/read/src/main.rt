// Prints a plan well laid out, from the file that is named or from standard input; or says where it is no plan.
#![tactic(auto)]

use reading::LONGEST_TEXT;
use reading::error::NoPlan;
use std::alloc::{AllocError, Global};
use std::io::{Read, Write};
use std::process::ExitCode;
use std::{env, fs, io};
use tidy::{Place, TidyError, place_of, tidy};
use wording::Wording;

// Reads to the end, or to more bytes than a plan may have: all that is longer is none. It is read part after part, so that nothing behind
// those bytes is waited for.
fn read_input<R: Read + Drop>(heap: Global, mut input: R) -> io::Result<Vec<u8>> {
    let mut text = Vec::new(heap);
    let mut part = [0; 4096];
    for _ in 0..=LONGEST_TEXT {
        let count = input.read(&mut part)?.min(part.len());
        text.extend_from_slice(&part[..count])?;
        if count == 0 || text.len() > LONGEST_TEXT {
            break;
        }
    }
    Ok(text)
}

// The line of a text up to 20 bytes behind a place, and a caret under the place.
fn excerpt(heap: Global, text: &[u8], place: Place) -> Result<Vec<u8>, AllocError> {
    let Place {
        line: _,
        column,
        begin,
        end,
    } = place;
    let mut out = Vec::new(heap);
    let here = begin.saturating_add(column.saturating_sub(1));
    let first = begin.max(here.saturating_sub(60));
    let last = end.min(here.saturating_add(20)).min(text.len());
    for &byte in text.get(first..last).unwrap_or(&[]) {
        out.push(if matches!(byte, b' '..=b'~') {
            byte
        } else {
            b'?'
        })?;
    }
    out.push(b'\n')?;
    for _ in first..here {
        out.push(b' ')?;
    }
    out.push(b'^')?;
    out.push(b'\n')?;
    Ok(out)
}

// Says where a text is no plan.
fn complain(rt: &HostRuntime, name: &str, text: &[u8], why: NoPlan) -> io::Result<()> {
    let place = place_of(text, why.at);
    let what = Wording { text, why };
    eprintln!(rt; "{name}:{}:{}: expected {what}", place.line, place.column)?;
    let shown = excerpt(rt.alloc(), text, place)?;
    rt.stderr().write_all(shown.as_slice())
}

// Prints the plan, or says where it is none.
fn show(rt: &HostRuntime, name: &str, text: &[u8]) -> anyhow::Result<ExitCode> {
    match tidy(rt.alloc(), text) {
        Ok(out) => {
            rt.stdout().write_all(&out)?;
            Ok(ExitCode::SUCCESS)
        }
        Err(TidyError::NotPlan(why)) => {
            complain(rt, name, text, why)?;
            Ok(ExitCode::FAILURE)
        }
        Err(error) => Err(error.into()),
    }
}

fn run(rt: &HostRuntime) -> anyhow::Result<ExitCode> {
    let heap = rt.alloc();
    let mut args = env::args(rt)?;
    let _program = args.next();
    match args.next() {
        None => {
            let text = read_input(heap, rt.stdin())?;
            show(rt, "standard input", &text)
        }
        Some(path) => {
            let text = read_input(heap, fs::open(rt, path.as_str())?)?;
            show(rt, path.as_str(), &text)
        }
    }
}

// Ends with status 1 where there was no plan to print.
fn main(rt: HostRuntime) -> anyhow::Result<ExitCode> {
    run(&rt)
}

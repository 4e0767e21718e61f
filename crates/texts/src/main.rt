// Reads a table of texts, one case a line: a name, a blank, and a text written with escapes. Answers each by one line:
// `NAME plan SIZE TEXT`, where a plan's text as it is printed stands only if it is short, or `NAME no AT EXPECTED`.
#![tactic(auto)]

mod escapes;

use anyhow::anyhow;
use escapes::{escaped, unescaped};
use plans::kinds::MOST_WORDS;
use plans::sheet::Slate;
use printing::print;
use reading::error::ReadError;
use reading::read;
use std::alloc::Global;
use std::io::{BufRead, BufReader};
use wording::Wording;

// The longest printed text that an answer shows, in bytes.
const SHORT: usize = 200;

// What is answered about a text, behind its name.
fn answer(heap: Global, text: &[u8]) -> anyhow::Result<String> {
    let mut draft = vec![in heap; 0u64; MOST_WORDS]?;
    let mut slate = Slate::new(heap, MOST_WORDS)?;
    match read(text, &mut draft, &mut slate) {
        Ok(size) => accepted(heap, size, &slate),
        Err(ReadError::NotPlan(why)) => {
            let expected = Wording { text, why };
            Ok(format!(in heap; "no {} {expected}", why.at)?)
        }
        Err(ReadError::NoRoom | ReadError::ShortDraft) => Err(anyhow!("a plan found no room")),
    }
}

// The answer about a text that is a plan.
fn accepted(heap: Global, size: usize, slate: &Slate) -> anyhow::Result<String> {
    let mut out = Vec::new(heap);
    print(slate.as_slice(), &mut out).map_err(|_| anyhow!("a plan was not printed"))?;
    if out.is_empty() || out.len() > SHORT {
        return Ok(format!(in heap; "plan {size}")?);
    }
    let shown = escaped(heap, &out)?;
    Ok(format!(in heap; "plan {size} {shown}")?)
}

// The answer to a line of the table.
fn case(heap: Global, line: &str) -> anyhow::Result<String> {
    let (name, text) = line.split_once(' ').unwrap_or((line, ""));
    let bytes = unescaped(heap, text)?;
    let found = answer(heap, &bytes)?;
    Ok(format!(in heap; "{name} {found}")?)
}

fn answers(rt: &HostRuntime) -> anyhow::Result<()> {
    let heap = rt.alloc();
    for line in BufReader::new(heap, rt.stdin())?.lines(heap) {
        let line = line?;
        let shown = case(heap, line.as_str())?;
        println!(rt; "{shown}")?;
    }
    Ok(())
}

fn main(rt: HostRuntime) -> anyhow::Result<()> {
    answers(&rt)
}

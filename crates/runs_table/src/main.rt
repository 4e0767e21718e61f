// Carries plans out of a table, one a line: a name, a blank, and a plan. Each is answered by one line: its name, and what it comes to
// time after time, with the moves that it made. A task's result is the sum of its kind and its arguments; a sleep ends at its time;
// no word ever comes. A plan is left alone after twenty runs.
#![tactic(auto)]

use anyhow::{Context, anyhow};
use plans::kinds::MOST_WORDS;
use plans::sheet::Slate;
use reading::read;
use runs::event::{hearing_over, task_done, woken};
use runs::flow::{Ran, run};
use runs::step::{Phase, Place, Wish};
use runs::time::Time;
use std::alloc::Global;
use std::io::{BufRead, BufReader};

// Runs after which a plan is left alone.
const MOST_RUNS: usize = 20;

// What a worker would answer.
fn result_of(wish: Wish) -> u64 {
    let args = wish.args.iter().take(wish.count);
    args.fold(wish.kind, |sum, arg| sum.wrapping_add(*arg))
}

// What a run came to, in words.
fn told(heap: Global, ran: Ran) -> anyhow::Result<String> {
    let moves = ran.moves;
    let place = ran.moved.place;
    let text = match place.phase {
        Phase::Busy => format!(in heap; " {moves} busy")?,
        Phase::Tasked { step } => format!(in heap; " {moves} task {step}")?,
        Phase::Asleep { until } => format!(in heap; " {moves} asleep {until}")?,
        Phase::Listens { until, .. } => format!(in heap; " {moves} listens {until}")?,
        Phase::Ended { value } => format!(in heap; " {moves} ended {value}")?,
        Phase::Failed => format!(in heap; " {moves} failed")?,
    };
    Ok(text)
}

// A run, and where it goes on after what it waited for; None where it goes on no more.
#[derive(Clone, Copy)]
struct Done {
    ran: Ran,
    next: Option<Place>,
    time: u64,
}

fn turn(
    words: &[u64],
    place: Place,
    time: u64,
    vars: &mut [u64; 64],
    stack: &mut [u64],
) -> anyhow::Result<Done> {
    let now = Time::new(time).context("a run can't be made")?;
    let ran = run(words, place, now, vars, stack).map_err(|_| anyhow!("damaged words"))?;
    after(words, ran, time, vars)
}

// Gives a flow what it waits for.
fn after(words: &[u64], ran: Ran, time: u64, vars: &mut [u64; 64]) -> anyhow::Result<Done> {
    let place = ran.moved.place;
    match place.phase {
        Phase::Busy => Ok(Done {
            ran,
            next: Some(place),
            time,
        }),
        Phase::Tasked { .. } => {
            let wish = ran.moved.wish.context("a task with no wish")?;
            if place.into >= 64 {
                return Err(anyhow!("a result with no variable"));
            }
            let done = task_done(words, place, result_of(wish), vars);
            let next = done.map_err(|_| anyhow!("damaged words"))?;
            Ok(Done {
                ran,
                next: Some(next),
                time,
            })
        }
        Phase::Asleep { until } => Ok(Done {
            ran,
            next: Some(woken(place)),
            time: until,
        }),
        Phase::Listens {
            var,
            came,
            until,
            ..
        } => {
            if var >= 64 || came >= 64 {
                return Err(anyhow!("a word with no variable"));
            }
            Ok(Done {
                ran,
                next: Some(hearing_over(place, var, came, None, vars)),
                time: until,
            })
        }
        Phase::Ended { .. } | Phase::Failed => Ok(Done {
            ran,
            next: None,
            time,
        }),
    }
}

// Carries out the plan whose flat form these words are.
fn carried(
    heap: Global,
    name: &str,
    words: &[u64],
    vars: &mut [u64; 64],
    stack: &mut [u64],
) -> anyhow::Result<String> {
    let mut place = Place::start();
    let mut time = 0;
    let mut out = format!(in heap; "{name}")?;
    for _ in 0..MOST_RUNS {
        let done = turn(words, place, time, vars, stack)?;
        let shown = told(heap, done.ran)?;
        out.push_str(shown.as_str())?;
        let Some(next) = done.next else {
            return Ok(out);
        };
        place = next;
        time = done.time;
    }
    Ok(out)
}

fn case(heap: Global, name: &str, text: &[u8]) -> anyhow::Result<String> {
    let mut draft = vec![in heap; 0u64; MOST_WORDS]?;
    let mut slate = Slate::new(heap, MOST_WORDS)?;
    read(text, &mut draft, &mut slate).map_err(|_| anyhow!("no plan"))?;
    let mut vars = [0; 64];
    let mut stack = vec![in heap; 0u64; 4096]?;
    carried(heap, name, slate.as_slice(), &mut vars, &mut stack)
}

fn answers(rt: &HostRuntime) -> anyhow::Result<()> {
    let heap = rt.alloc();
    for line in BufReader::new(heap, rt.stdin())?.lines(heap) {
        let line = line?;
        let (name, text) = line
            .as_str()
            .split_once(' ')
            .context("a line needs a name and a plan")?;
        let shown = case(heap, name, text.as_bytes())?;
        println!(rt; "{shown}")?;
    }
    Ok(())
}

fn main(rt: HostRuntime) -> anyhow::Result<()> {
    answers(&rt)
}

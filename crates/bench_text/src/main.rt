// How fast plans are read and printed: `bench_text N` does each N times and writes megabytes a second. Without an argument
// it reads and prints each text once, and writes sizes only.
#![tactic(auto)]

use anyhow::anyhow;
use plans::kinds::MOST_WORDS;
use plans::sheet::Slate;
use printing::print;
use reading::read;
use std::alloc::{AllocError, Global};
use std::env;
use std::time::{Duration, Instant};

// Statements that a text repeats, up to a remark that ends with its last byte.
const MIXED: &str = "# Orders are asked for once a day until one of them is ready, and
# each answer is kept; whoever waits longer than a week is told so.
while v1 < 1000000000000 {
    # the counter, the day in milliseconds and the widest number
    v2 = do 4000000000 (v1, v3 * 86400000, 18446744073709551615) tries 32 pause 86400000
    if v2 = 0 {
        sleep 86400000 # a day
        set v1 = v1 + 1234567890123 - v60
    } else {
        # nobody may wait for an answer longer than seven days, which
        # are counted from when the task before was done; an answer that
        # comes later than that is kept for whoever asks for it next
        v4, v5 = hear anotherorderthatisready for 86400000 * 7
        guard {
            # three times what was heard, or a failure that is caught
            set v6 = not (v4 + v5) * 3 < 12345678901234567890
        } else {
            fail
        }
    }
}
# The rest of the plan goes on with what was counted above, whether or
# not the loop has ended early.
if v63 - (v62 - 18446744073709551615) {
    return 18446744073709551615
} else {
    # nothing more is to be done here, but for what the plan does after
    # its last statement: it ends, and its answer is 0
}
";

const DENSE: &str = "set v1=v2*3+v4-5*v6 ";

const REMARKS: &str = "set v0 = v1 # what is known here before the next one is asked for
";

// So many bytes of text.
fn filled(heap: Global, block: &str, len: usize) -> Result<Vec<u8>, AllocError> {
    let bytes = block.as_bytes();
    let mut text = Vec::new(heap);
    for _ in 0..len / bytes.len().max(1) {
        text.extend_from_slice(bytes)?;
    }
    if text.len() < len {
        text.push(b'#')?;
    }
    text.resize(len, b'-')?;
    Ok(text)
}

// Reads a text so many times; then its size.
fn read_often(
    text: &[u8],
    passes: u64,
    draft: &mut [u64],
    slate: &mut Slate,
) -> anyhow::Result<usize> {
    let mut size = 0;
    for _ in 0..passes {
        slate.clear();
        size = read(text, draft, slate).map_err(|_| anyhow!("the text is no plan"))?;
    }
    Ok(size)
}

// Prints a plan so many times; then the length of its text.
fn print_often(heap: Global, passes: u64, slate: &Slate) -> anyhow::Result<usize> {
    let mut len = 0;
    for _ in 0..passes {
        let mut out = Vec::new(heap);
        print(slate.as_slice(), &mut out).map_err(|_| anyhow!("the plan was not printed"))?;
        len = out.len();
    }
    Ok(len)
}

// Megabytes a second.
fn speed(bytes: usize, passes: u64, time: Duration) -> u64 {
    let micros = u64::try_from(time.as_micros()).unwrap_or(u64::MAX);
    (bytes as u64).saturating_mul(passes) / micros.max(1)
}

// Reads and prints a text, once or so many times.
fn bench(
    rt: &HostRuntime,
    name: &str,
    block: &str,
    len: usize,
    passes: Option<u64>,
) -> anyhow::Result<()> {
    let heap = rt.alloc();
    let text = filled(heap, block, len)?;
    let mut draft = vec![in heap; 0u64; MOST_WORDS]?;
    let mut slate = Slate::new(heap, MOST_WORDS)?;
    let times = passes.unwrap_or(1);
    let start = Instant::now(rt)?;
    let size = read_often(&text, times, &mut draft, &mut slate)?;
    let reading = speed(len, times, start.elapsed(rt)?);
    let again = Instant::now(rt)?;
    let printed = print_often(heap, times, &slate)?;
    let printing = speed(printed, times, again.elapsed(rt)?);
    if passes.is_none() {
        println!(rt; "{name}: {len} bytes, size {size}, printed {printed} bytes")?;
        return Ok(());
    }
    println!(rt; "{name}: {len} bytes, size {size}: reads {reading} MB/s, prints {printing} MB/s")?;
    Ok(())
}

// The argument of the program, if it has one.
fn passes(rt: &HostRuntime) -> anyhow::Result<Option<u64>> {
    let mut args = env::args(rt)?;
    let _ = args.next();
    match args.next() {
        Some(word) => Ok(Some(word.as_str().parse::<u64>()?)),
        None => Ok(None),
    }
}

fn run(rt: &HostRuntime) -> anyhow::Result<()> {
    let passes = passes(rt)?;
    bench(rt, "mixed", MIXED, 65536, passes)?;
    bench(rt, "mixed", MIXED, 16384, passes)?;
    bench(rt, "dense", DENSE, 8192, passes)?;
    bench(rt, "remarks", REMARKS, 65536, passes)
}

fn main(rt: HostRuntime) -> anyhow::Result<()> {
    run(&rt)
}

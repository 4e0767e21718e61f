// Answers into bytes.
ghost use Rattle.std.specs.Prelude.{◌≡◌, ◌+◌, ◌*◌, ◌<◌, ◌≤◌, [], length, IsSome};
ghost use Rattle.std.proofs.lemmas.List.Edits.{sets};
ghost use Rattle.calls.specs.Bytes.{all_eight};
ghost use Rattle.calls.specs.Replies.{phase_of, words_of, phase_bytes, job_bytes, bytes_by, Wrote};
ghost use Rattle.calls.specs.Lines.{framed};

use crate::types::{Job, Numbered, Response};
use runs::step::Phase;

fn put<const N: usize>(out: &mut [u8], at: usize, bytes: [u8; N])
    requires { at + N ≤ length out.old }
    ensures { out.new ≡ sets out.old at bytes.entry }
{
    out[at..at + N].copy_from_slice(&bytes);
}

// Words, one behind the other.
fn put_words(out: &mut [u8], at: usize, words: &[u64])
    requires { at + 8 * length words.now ≤ length out.old }
    ensures { out.new ≡ sets out.old at (all_eight words.now) }
{
    for (i, word) in words.iter().enumerate() {
        put(out, at + 8 * i, word.to_be_bytes());
    }
}

fn put_phase(phase: Phase, out: &mut [u8], at: usize)
    requires { at + length (phase_bytes (phase_of phase)) ≤ length out.old }
    ensures { out.new ≡ sets out.old at (phase_bytes (phase_of phase)) }
{
    match phase {
        Phase::Busy => out[at] = 0,
        Phase::Tasked { .. } => out[at] = 1,
        Phase::Asleep { .. } => out[at] = 2,
        Phase::Listens { .. } => out[at] = 3,
        Phase::Ended { value } => {
            out[at] = 4;
            put(out, at + 1, value.to_be_bytes());
        }
        Phase::Failed => out[at] = 5,
    }
}

impl Job {
    // The first of its words.
    pub fn words(&self) -> &[u64]
        ensures is { result.now ≡ words_of self.now }
        ensures few { length result.now ≤ 16 }
    {
        if self.count < 16 {
            return &self.args[0..self.count];
        }
        &self.args
    }
}

fn put_job(job: &Job, out: &mut [u8], at: usize)
    requires { at + (24 + 8 * length (words_of job.now)) ≤ length out.old }
    ensures { out.new ≡ sets out.old at (job_bytes job.now.flow.0 job.now.step.0 job.now.attempt.0 job.now.kind (words_of job.now)) }
{
    let words = job.words();
    out[at] = 3;
    put(out, at + 1, job.flow.0.to_be_bytes());
    put(out, at + 9, job.step.0.to_be_bytes());
    put(out, at + 17, job.attempt.0.to_be_bytes());
    put(out, at + 19, job.kind.to_be_bytes());
    out[at + 23] = words.len() as u8;
    put_words(out, at + 24, words);
}

fn phase_size(phase: Phase) -> usize
    ensures is { result ≡ length (phase_bytes (phase_of phase)) }
    ensures few { result ≤ 9 }
{
    match phase {
        Phase::Ended { .. } => 9,
        Phase::Busy
        | Phase::Tasked { .. }
        | Phase::Asleep { .. }
        | Phase::Listens { .. }
        | Phase::Failed => 1,
    }
}

impl<N: Numbered> Response<N> {
    // How many bytes it has.
    pub fn size(&self) -> usize
        ensures is { result ≡ length (bytes_by N.number self.now) }
        ensures few { result ≤ 152 }
    {
        match *self {
            Response::No(_) => 2,
            Response::Yes => 1,
            Response::Flow(_) => 9,
            Response::Job(job) => 24 + 8 * job.words().len(),
            Response::Nothing => 1,
            Response::State(phase) => 1 + phase_size(phase),
            Response::Full => 1,
        }
    }
}

fn put_reply<N: Numbered>(reply: &Response<N>, out: &mut [u8], at: usize)
    requires { at + length (bytes_by N.number reply.now) ≤ length out.old }
    ensures { out.new ≡ sets out.old at (bytes_by N.number reply.now) }
{
    match *reply {
        Response::No(why) => put(out, at, [0, why.number()]),
        Response::Yes => out[at] = 1,
        Response::Flow(flow) => {
            out[at] = 2;
            put(out, at + 1, flow.0.to_be_bytes());
        }
        Response::Job(job) => put_job(&job, out, at),
        Response::Nothing => out[at] = 4,
        Response::State(phase) => {
            out[at] = 5;
            put_phase(phase, out, at + 1);
        }
        Response::Full => out[at] = 6,
    }
}

// Writes an answer at the front; None where there is no room, and nothing is written.
pub fn write_reply<N: Numbered>(reply: &Response<N>, out: &mut [u8]) -> Option<usize>
    ensures wrote { Wrote (bytes_by N.number reply.now) out.old out.new result }
    ensures room { 160 ≤ length out.old → IsSome result }
{
    let size = reply.size();
    if out.len() < size {
        return None;
    }
    put_reply(reply, out, 0);
    Some(size)
}

// Writes the line of an answer, in the same way.
pub fn write_line<N: Numbered>(tag: u32, reply: &Response<N>, out: &mut [u8]) -> Option<usize>
    ensures wrote { Wrote (framed tag (bytes_by N.number reply.now)) out.old out.new result }
    ensures room { 160 ≤ length out.old → IsSome result }
{
    let size = reply.size();
    if out.len() < size + 8 {
        return None;
    }
    put(out, 0, ((size + 4) as u32).to_be_bytes());
    put(out, 4, tag.to_be_bytes());
    put_reply(reply, out, 8);
    Some(size + 8)
}

// What is told to a flow that waits: then it is busy again.
ghost use Rattle.std.specs.Prelude.{◌≡◌, ℕ, ◌<◌, true, List, [], set as set_at};
ghost use Rattle.plans.specs.Plan.{Flow as Meant, at as set_to, goes_on, broken, heard as hearing};
ghost use Rattle.runs.specs.declared.step.Phase.TheVariants.{Tasked};
ghost use Rattle.runs.specs.Alike.{is_calm};
ghost use Rattle.runs.specs.Machine.{FlatFlow, Is};
ghost use Rattle.runs.specs.Decode.{code_in};
ghost use Rattle.runs.specs.Units.{statement_at};
ghost use Rattle.runs.specs.Steps.{Went, gone_to, fails_to, Placed};
ghost use Rattle.runs.specs.Carried.{phase_in, flow_in};
ghost use Rattle.runs.specs.Events.{task_of, task_in, by_task, worth, came, NowIs};

use crate::step::{Place, fails, goes};
use crate::unit::{Statement, statement_at};
use plans::eval::Damaged;

// Where a task goes on with its result, and where its failure goes.
#[derive(Clone, Copy)]
pub struct Task {
    pub next: u64,
    pub way: Option<u64>,
}

fn task_of(statement: Statement) -> Option<Task>
    ensures { result ≡ task_of statement }
{
    match statement {
        Statement::Do { next, way, .. } => Some(Task { next, way }),
        _ => None,
    }
}

// The task that a flow at this address waits for.
pub fn task_at(words: &[u64], at: usize) -> Option<Task>
    ensures { result ≡ task_in (statement_at words.now at) }
{
    task_of(statement_at(words, at)?)
}

// It wakes.
pub fn woken(place: Place) -> Place
    ensures flat { result ≡ gone_to place.here place }
    ensures meant { (room : ℕ) (ws vs : List ℕ) (x : Meant) (y : FlatFlow) → is_calm (phase_in ws place.phase) ≡ true → Is (code_in room ws) (flow_in ws place vs y) x → Is (code_in room ws) (flow_in ws result vs y) (goes_on x.frames x.vars x) }
{
    goes(place, place.here as u64)
}

// The task that it waits for has failed: that goes to the nearest guard around it.
pub fn task_failed(words: &[u64], place: Place) -> Result<Place, Damaged>
    ensures flat { Placed result [] (by_task (statement_at words.now place.here) (λ next way. Went (fails_to way place) [] [])) }
    ensures meant { (room k : ℕ) (vs : List ℕ) (x : Meant) (y : FlatFlow) → place.phase ≡ Tasked k → Is (code_in room words.now) (flow_in words.now place vs y) x → NowIs room words.now y result vs (broken x.frames x) }
{
    let Some(task) = task_at(words, place.here) else {
        return Err(Damaged);
    };
    Ok(fails(place, task.way))
}

// The task that it waits for has this result.
pub fn task_done(
    words: &[u64],
    place: Place,
    value: u64,
    vars: &mut [u64; 64],
) -> Result<Place, Damaged>
    requires { place.into < 64 }
    ensures flat { Placed result vars.new (by_task (statement_at words.now place.here) (λ next way. Went (gone_to next place) (set_at vars.old place.into value) [])) }
    ensures meant { (room k : ℕ) (x : Meant) (y : FlatFlow) → place.phase ≡ Tasked k → Is (code_in room words.now) (flow_in words.now place vars.old y) x → NowIs room words.now y result vars.new (goes_on x.frames (set_to x.into value x.vars) x) }
{
    let Some(task) = task_at(words, place.here) else {
        return Err(Damaged);
    };
    vars[place.into as usize] = value;
    Ok(goes(place, task.next))
}

// The hearing is over: one of its variables gets this value, and the other whether a word came.
pub fn heard(
    place: Place,
    var: u64,
    flag: u64,
    value: u64,
    came: u64,
    vars: &mut [u64; 64],
) -> Place
    requires { (var < 64) × (flag < 64) }
    ensures flat { (result ≡ gone_to place.here place) × (vars.new ≡ set_at (set_at vars.old var value) flag came) }
    ensures meant { (room : ℕ) (ws : List ℕ) (x : Meant) (y : FlatFlow) → is_calm (phase_in ws place.phase) ≡ true → Is (code_in room ws) (flow_in ws place vars.old y) x → Is (code_in room ws) (flow_in ws result vars.new y) (hearing var flag value came x.box x.frames x) }
{
    vars[var as usize] = value;
    vars[flag as usize] = came;
    goes(place, place.here as u64)
}

// The word that it waited for has come, with this value; or, with none, its time is over: then both variables are 0.
pub fn hearing_over(
    place: Place,
    var: u64,
    flag: u64,
    word: Option<u64>,
    vars: &mut [u64; 64],
) -> Place
    requires { (var < 64) × (flag < 64) }
    ensures flat { (result ≡ gone_to place.here place) × (vars.new ≡ set_at (set_at vars.old var (worth word)) flag (came word)) }
    ensures meant { (room : ℕ) (ws : List ℕ) (x : Meant) (y : FlatFlow) → is_calm (phase_in ws place.phase) ≡ true → Is (code_in room ws) (flow_in ws place vars.old y) x → Is (code_in room ws) (flow_in ws result vars.new y) (hearing var flag (worth word) (came word) x.box x.frames x) }
{
    let came = u64::from(word.is_some());
    heard(place, var, flag, word.unwrap_or(0), came, vars)
}

// What an expression in the flat form is worth.
ghost use Rattle.std.specs.Prelude.{◌≡◌, ℕ, ◌+◌, ◌*◌, ◌<◌, ◌≤◌, [], length, drop};
ghost use Rattle.plans.specs.Plan.{Expr, expr_size, value as worth};
ghost use Rattle.plans.specs.Eval.{op_of, join_of, run_e, Ran, Within, one_of, Evaled, Meant, Worth, look};

use crate::kinds;
use std::error::Error;
use std::fmt;

// What two values are joined to.
#[derive(Clone, Copy, Debug, PartialEq, Eq)]
pub enum Join {
    Sum,
    Difference,
    Product,
    Under,
    Equal,
}

// What a unit of an expression says to do; every other unit ends it.
#[derive(Clone, Copy, Debug, PartialEq, Eq)]
pub enum Op {
    Push,
    Load,
    Pair(Join),
    Negate,
    Halt,
}

// How many values are on the stack, which is lent and of a fixed size, and where the expressions ended.
#[derive(Clone, Copy, Debug, PartialEq, Eq)]
pub struct Stopped {
    pub count: usize,
    pub end: usize,
}

// An expression's value, and where it ended.
#[derive(Clone, Copy, Debug, PartialEq, Eq)]
pub struct Valued {
    pub value: u64,
    pub end: usize,
}

// Words that are no plan.
#[derive(Clone, Copy, Debug, PartialEq, Eq)]
pub struct Damaged;

impl fmt::Display for Damaged {
    fn fmt<W: fmt::Write>(&self, f: &mut fmt::Formatter<W>) -> fmt::Result {
        f.write_str("the words are no plan")
    }
}

impl Error for Damaged {}

// What a unit's first word says.
impl From<u64> for Op {
    ghost from_gives = { λ word op. op ≡ op_of word };

    fn from(word: u64) -> Op {
        match word {
            kinds::NUMBER => Op::Push,
            kinds::VARIABLE => Op::Load,
            kinds::PLUS => Op::Pair(Join::Sum),
            kinds::MINUS => Op::Pair(Join::Difference),
            kinds::TIMES => Op::Pair(Join::Product),
            kinds::LESS => Op::Pair(Join::Under),
            kinds::SAME => Op::Pair(Join::Equal),
            kinds::NOT => Op::Negate,
            _ => Op::Halt,
        }
    }
}

// Sums, differences and products wrap on purpose: they are cut to 64 bits.
pub fn joined(how: Join, a: u64, b: u64) -> u64
    ensures { result ≡ join_of how a b }
{
    match how {
        Join::Sum => a.wrapping_add(b),
        Join::Difference => a.wrapping_sub(b),
        Join::Product => a.wrapping_mul(b),
        Join::Under => u64::from(a < b),
        Join::Equal => u64::from(a == b),
    }
}

// Does what the units from `at` on say, up to the first that is of no expression.
// The stack is a slice with a count, and no `Vec`: the caller lends its memory, since nothing is allocated here.
pub fn run(code: &[u64], at: usize, vars: &[u64], stack: &mut [u64]) -> Result<Stopped, Damaged>
    ensures within { Within result (length stack.old) }
    ensures ran { Ran result (run_e (length stack.old) vars.now (drop at code.now) at []) stack.new }
{
    let mut left = code.get(at..).ok_or(Damaged)?;
    let mut count = 0;
    while let [kind, value, _, _, rest @ ..] = left {
        match Op::from(*kind) {
            Op::Push => {
                if count >= stack.len() {
                    return Err(Damaged);
                }
                stack[count] = *value;
                count += 1;
            }
            Op::Load => {
                if *value >= vars.len() as u64 || count >= stack.len() {
                    return Err(Damaged);
                }
                stack[count] = vars[*value as usize];
                count += 1;
            }
            Op::Pair(how) => {
                if count < 2 {
                    return Err(Damaged);
                }
                count -= 1;
                stack[count - 1] = joined(how, stack[count - 1], stack[count]);
            }
            Op::Negate => {
                if count < 1 {
                    return Err(Damaged);
                }
                stack[count - 1] = u64::from(stack[count - 1] == 0);
            }
            Op::Halt => {
                let end = code.len() - left.len();
                return Ok(Stopped { count, end });
            }
        }
        left = rest;
    }
    Err(Damaged)
}

// What the expression at `at` is worth, and where it ends.
pub fn eval(code: &[u64], at: usize, vars: &[u64], stack: &mut [u64]) -> Result<Valued, Damaged>
    ensures flat { Evaled result (one_of (run_e (length stack.old) vars.now (drop at code.now) at [])) }
    ensures tree { (e : Expr) → Meant code.now at vars.now (length stack.old) e → Worth result (worth e (look vars.now)) (at + 4 * expr_size e) }
{
    let Stopped { count, end } = run(code, at, vars, stack)?;
    if count != 1 {
        return Err(Damaged);
    }
    Ok(Valued {
        value: stack[0],
        end,
    })
}

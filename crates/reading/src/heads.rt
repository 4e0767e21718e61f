// Heads of statements, and statements with one expression and no parts.
ghost use Rattle.std.specs.Prelude.{◌≡◌, ℕ, ◌+◌, ◌-◌, ◌*◌, ◌/◌, ◌<◌, ◌≤◌, [], ◌∷◌, ◌++◌, length, take};
ghost use Rattle.plans.specs.Plan.{Expr, Stmt, expr_size, stmt_size};
ghost use Rattle.plans.specs.Flat.{code_of, draft_stmt};
ghost use Rattle.text.specs.Ahead.{ahead};
ghost use Rattle.reading.specs.Levels.{Onwards, ReadExpr};
ghost use Rattle.reading.specs.Statements.{put4, whole_expr, expr_then, set_at, ReadStmt};

use crate::error::{Expected, NoPlan};
use crate::exprs::{Cursor, Level, chain};
use crate::tokens;
use plans::kinds;

// How deep brackets may be nested.
pub const BRACKETS: usize = 256;

// The units between two places of the draft.
pub fn units(from: usize, to: usize) -> u64
    requires { from ≤ to }
    ensures { result ≡ (to - from) / 4 }
{
    ((to - from) / 4) as u64
}

// Writes a head again, into the words that were kept for it.
pub fn head(out: &mut [u64], len: usize, kind: u64, second: u64, third: u64, fourth: u64)
    requires { len + 4 ≤ length out.old }
    ensures { out.new ≡ put4 out.old len kind second third fourth }
{
    out[len] = kind;
    out[len + 1] = second;
    out[len + 2] = third;
    out[len + 3] = fourth;
}

// An expression behind four words that are kept for a head.
pub fn headed(text: &[u8], start: usize, at: Cursor, out: &mut [u64]) -> Result<Cursor, NoPlan>
    requires within { at.pos ≤ length text.now }
    requires room { at.len ≤ length out.old }
    ensures forth { Onwards result (at.pos + 1) (at.len + 4) (length text.now) (length out.old) }
    ensures read { ReadExpr result whole_expr text.now at.pos (take (at.len + 4) out.old) out.new }
{
    at.room(out, 4, start)?;
    let behind = Cursor {
        len: at.len + 4,
        ..at
    };
    chain(Level::Compare, text, behind, out, BRACKETS)
}

// A statement that is an expression with a word, or a word and a variable, before it.
pub fn with_expr(
    text: &[u8],
    start: usize,
    at: Cursor,
    out: &mut [u64],
    kind: u64,
    second: u64,
) -> Result<Cursor, NoPlan>
    requires within { at.pos ≤ length text.now }
    requires room { at.len ≤ length out.old }
    ensures forth { Onwards result at.pos at.len (length text.now) (length out.old) }
    ensures read { (f : Expr → Stmt) → ((e : Expr) → draft_stmt (f e) ≡ kind ∷ second ∷ (1 + expr_size e) ∷ 0 ∷ code_of e) → ((e : Expr) → stmt_size (f e) ≡ 1 + expr_size e) → ReadStmt result (expr_then f) (ahead text.now at.pos) text.now (take at.len out.old) out.new }
{
    let c = headed(text, start, at, out)?;
    head(out, at.len, kind, second, units(at.len, c.len), 0);
    Ok(c)
}

// Behind the word set.
pub fn assignment(text: &[u8], start: usize, at: Cursor, out: &mut [u64]) -> Result<Cursor, NoPlan>
    requires within { at.pos ≤ length text.now }
    requires room { at.len ≤ length out.old }
    ensures forth { Onwards result at.pos at.len (length text.now) (length out.old) }
    ensures read { ReadStmt result set_at (ahead text.now at.pos) text.now (take at.len out.old) out.new }
{
    let v = tokens::variable(text, at.pos)?;
    let pos = tokens::same(text, v.next)?;
    with_expr(text, start, Cursor { pos, ..at }, out, kinds::SET, v.value)
}

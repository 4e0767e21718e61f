// Prints plans from their flat form.
#![tactic(auto)]

ghost use Rattle.std.specs.Prelude.{◌≡◌, ℕ, ◌+◌, ◌-◌, ◌*◌, ◌<◌, ◌≤◌, min, true, List, [], ◌++◌, length, drop, IfOk, if◌then◌else◌, codes, decimal, nat_lt};
ghost use Rattle.plans.specs.Plan.{Name, every, word_ok, Expr, sizes, Stmt, Set, Do, Hear, If, While, Guard, Block, stmt_ok, block_ok};
ghost use Rattle.plans.specs.Flat.{code_of, codes_of, IsFlat};
ghost use Rattle.text.specs.Token.{Op};
ghost use Rattle.text.specs.Grammar.{unary, compare};
ghost use Rattle.text.specs.Ahead.{operator_meant};
ghost use Rattle.text.specs.Printer.{expr_text, args_text, bracketed, indent, eol, lines_of, line_stmt, text_of, fits};
ghost use Rattle.printing.specs.Said.{Wrote, Spoke};
ghost use Rattle.printing.specs.Levels.{level_meant, own_of, right_of, Before, sign_text};
ghost use Rattle.printing.specs.declared.PrintError.TheVariants.{Memory, Damaged};
ghost use Rattle.printing.specs.Roots.{Room, Rooted, Operation, FirstOf, FirstBefore};
ghost use Rattle.printing.specs.Heads.{is_unit, units_in, letters_in, PartAt, StmtAt, braced, told};

use plans::kinds;
use std::alloc::AllocError;
use std::error::Error;
use std::fmt;
use std::num::TryFromIntError;
use text::{NoOperation, Operator};

// What a statement's entry has besides its kind counts in these.
const PER_FRAME: u64 = 32;

// Why a plan is not printed. Damaged: the words are no plan's flat form.
#[derive(Clone, Copy, Debug, PartialEq, Eq)]
pub enum PrintError {
    Memory,
    Damaged,
}

impl fmt::Display for PrintError {
    fn fmt<W: fmt::Write>(&self, f: &mut fmt::Formatter<W>) -> fmt::Result {
        f.write_str(match self {
            PrintError::Memory => "out of memory",
            PrintError::Damaged => "the words are no plan",
        })
    }
}

impl Error for PrintError {}

impl From<AllocError> for PrintError {
    ghost from_gives = { λ _ e. e ≡ Memory };

    fn from(_error: AllocError) -> PrintError {
        PrintError::Memory
    }
}

impl From<NoOperation> for PrintError {
    ghost from_gives = { λ _ e. e ≡ Damaged };

    fn from(_error: NoOperation) -> PrintError {
        PrintError::Damaged
    }
}

impl From<TryFromIntError> for PrintError {
    ghost from_gives = { λ _ e. e ≡ Damaged };

    fn from(_error: TryFromIntError) -> PrintError {
        PrintError::Damaged
    }
}

fn put(out: &mut Vec<u8>, bytes: &[u8]) -> Result<(), PrintError>
    ensures { Wrote result out.old.items bytes.now out.new.items }
{
    out.extend_from_slice(bytes)?;
    Ok(())
}

// A number, its last digit last.
fn put_number(out: &mut Vec<u8>, n: u64) -> Result<(), PrintError>
    ensures { Wrote result out.old.items (decimal n) out.new.items }
{
    if n < 10 {
        return put(out, &[b'0' + n as u8]);
    }
    put_number(out, n / 10)?;
    put(out, &[b'0' + (n % 10) as u8])
}

// How many parts a line is in, of which 32 at most are shown.
#[derive(Clone, Copy)]
struct Depth {
    parts: usize,
    ghost few: { parts ≤ 32 },
}

impl Depth {
    // Inside one part more.
    fn inner(self) -> Depth
        ensures { result.parts ≡ min (self.parts + 1) 32 }
    {
        Depth {
            parts: (self.parts + 1).min(32),
        }
    }
}

static SPACES: [u8; 128] = [b' '; 128];

// What a line begins with.
fn put_indent(out: &mut Vec<u8>, depth: Depth) -> Result<(), PrintError>
    ensures { Wrote result out.old.items (indent depth.parts) out.new.items }
{
    put(out, &SPACES[..4 * depth.parts])
}

// How tightly the operations of an expression bind that can stand at a place.
#[derive(Clone, Copy, PartialEq, Eq, PartialOrd, Ord)]
enum Level {
    Unary,
    Product,
    Sum,
    Compare,
}

// An operation's own level, which its left operand may have too.
fn own_level(operator: Operator) -> Level
    ensures { level_meant result ≡ own_of (operator_meant operator) }
{
    match operator {
        Operator::Plus => Level::Sum,
        Operator::Minus => Level::Sum,
        Operator::Times => Level::Product,
        Operator::Less => Level::Compare,
        Operator::Same => Level::Compare,
    }
}

fn right_level(operator: Operator) -> Level
    ensures { level_meant result ≡ right_of (operator_meant operator) }
{
    match operator {
        Operator::Plus => Level::Product,
        Operator::Minus => Level::Product,
        Operator::Times => Level::Unary,
        Operator::Less => Level::Sum,
        Operator::Same => Level::Sum,
    }
}

fn put_operator(out: &mut Vec<u8>, operator: Operator) -> Result<(), PrintError>
    ensures { Wrote result out.old.items (sign_text (operator_meant operator)) out.new.items }
{
    match operator {
        Operator::Plus => put(out, b" + "),
        Operator::Minus => put(out, b" - "),
        Operator::Times => put(out, b" * "),
        Operator::Less => put(out, b" < "),
        Operator::Same => put(out, b" = "),
    }
}

// The root of the operand before one of so many units that ends before this unit.
fn root_before(root: usize, units: u64) -> Option<usize>
    ensures { Before result root units }
{
    if root < 4 || (root - 4) as u64 / 4 < units {
        return None;
    }
    Some(root - 4 - 4 * units as usize)
}

// A bracket, unless the expression fits without.
fn put_unless(out: &mut Vec<u8>, fits: bool, bracket: &[u8]) -> Result<(), PrintError>
    ensures { Wrote result out.old.items (if fits then [] else bracket.now) out.new.items }
{
    if fits {
        return Ok(());
    }
    put(out, bracket)
}

fn put_variable(out: &mut Vec<u8>, v: u64) -> Result<(), PrintError>
    ensures { Wrote result out.old.items (codes "v" ++ decimal v) out.new.items }
{
    put(out, b"v")?;
    put_number(out, v)
}

// Are there so many words from here on.
fn holds(words: &[u64], at: usize, count: usize) -> bool
    ensures { Room result (at + count) (length words.now) }
{
    count <= words.len() && at <= words.len() - count
}

// The words and the text stay two arguments of each function: in one struct the text would be a loan, through which every clause had to look.

// The expression whose last unit is at `root` and whose units are all at `low` or behind it, where one of this level is wanted.
// Operands get ranges of their own, so that each unit is printed once at most, whatever the words are.
#[cycle(exprs)]
fn print_expr(
    words: &[u64],
    low: usize,
    root: usize,
    level: Level,
    out: &mut Vec<u8>,
) -> Result<(), PrintError>
    ensures { (e : Expr) (x : Rooted words.now root e) → low ≤ x.from →
        Wrote result out.old.items (expr_text (level_meant level) e) out.new.items }
{
    if root < low {
        return Err(PrintError::Damaged);
    }
    if !holds(words, root, 2) {
        return Err(PrintError::Damaged);
    }
    match words[root] {
        kinds::NUMBER => put_number(out, words[root + 1]),
        kinds::VARIABLE => put_variable(out, words[root + 1]),
        kinds::NOT => print_not(words, low, root, out),
        _ => print_operation(words, low, root, level, out),
    }
}

#[cycle(exprs)]
fn print_not(words: &[u64], low: usize, root: usize, out: &mut Vec<u8>) -> Result<(), PrintError>
    ensures { (e : Expr) → 4 ≤ root → (x : Rooted words.now (root - 4) e) → low ≤ x.from →
        Wrote result out.old.items (codes "not " ++ expr_text unary e) out.new.items }
{
    if root < 4 {
        return Err(PrintError::Damaged);
    }
    put(out, b"not ")?;
    print_expr(words, low, root - 4, Level::Unary, out)
}

#[cycle(exprs)]
fn print_operation(
    words: &[u64],
    low: usize,
    root: usize,
    level: Level,
    out: &mut Vec<u8>,
) -> Result<(), PrintError>
    requires { root + 1 < length words.now }
    ensures { (o : Op) (a b : Expr) (x : Operation words.now root o a b) → low ≤ x.left.from →
        Wrote result out.old.items (bracketed (fits (own_of o) (level_meant level)) (expr_text (own_of o) a ++ (sign_text o ++ expr_text (right_of o) b))) out.new.items }
{
    let operator = Operator::try_from(words[root])?;
    let left = root_before(root, words[root + 1]).ok_or(PrintError::Damaged)?;
    let fits = own_level(operator) <= level;
    put_unless(out, fits, b"(")?;
    print_expr(words, low, left, own_level(operator), out)?;
    put_operator(out, operator)?;
    print_expr(words, left + 4, root - 4, right_level(operator), out)?;
    put_unless(out, fits, b")")
}

// The first unit of the expression whose last is at `root`: that of its left operands.
#[cycle(first)]
fn first_unit(words: &[u64], root: usize) -> Option<usize>
    ensures { FirstOf result words.now root }
{
    if !holds(words, root, 2) {
        return None;
    }
    match words[root] {
        kinds::NUMBER => Some(root),
        kinds::VARIABLE => Some(root),
        kinds::NOT => first_before(words, root, 0),
        kind => {
            Operator::try_from(kind).ok()?;
            first_before(words, root, words[root + 1])
        }
    }
}

// The first unit of the operand before one of so many units.
#[cycle(first)]
fn first_before(words: &[u64], root: usize, units: u64) -> Option<usize>
    ensures { FirstBefore result words.now root units }
{
    first_unit(words, root_before(root, units)?)
}

fn is_unit(kind: u64) -> bool
    ensures { result ≡ is_unit kind }
{
    kinds::NUMBER <= kind && kind <= kinds::NOT
}

// Behind the units of expressions that begin here.
// By places and not by slices: the answer is a place, which would have to be counted beside them.
fn past_units(words: &[u64], from: usize) -> usize
    ensures { result ≡ from + units_in (drop from words.now) }
{
    let mut at = from;
    while holds(words, at, 4) && is_unit(words[at]) {
        at += 4;
    }
    at
}

// The expression that begins here; then the address behind it.
fn print_value(words: &[u64], at: usize, out: &mut Vec<u8>) -> Result<usize, PrintError>
    ensures forth { IfOk result (λ p. at ≤ p) }
    ensures text { (e : Expr) (rest : List ℕ) → drop at words.now ≡ code_of e ++ rest → units_in rest ≡ 0 →
        Spoke result words.now rest out.old.items (expr_text compare e) out.new.items }
{
    let end = past_units(words, at);
    if end < 4 {
        return Err(PrintError::Damaged);
    }
    print_expr(words, at, end - 4, Level::Compare, out)?;
    Ok(end)
}

// So many arguments of a task, the last of which ends here and whose units are all at `low` or behind it.
fn print_args(
    words: &[u64],
    low: usize,
    end: usize,
    count: u64,
    out: &mut Vec<u8>,
) -> Result<(), PrintError>
    ensures { (es : List Expr) (a : ℕ) (rest : List ℕ) → low ≤ a → drop a words.now ≡ codes_of es ++ rest → end ≡ a + 4 * sizes es → count ≡ length es →
        Wrote result out.old.items (args_text es) out.new.items }
{
    if count == 0 {
        return Ok(());
    }
    if end < 4 {
        return Err(PrintError::Damaged);
    }
    if count == 1 {
        return print_expr(words, low, end - 4, Level::Compare, out);
    }
    let first = first_unit(words, end - 4).ok_or(PrintError::Damaged)?;
    print_args(words, low, first, count - 1, out)?;
    put(out, b", ")?;
    print_expr(words, first, end - 4, Level::Compare, out)
}

// A name, of which each letter is a word, up to a 0.
fn put_name(out: &mut Vec<u8>, letters: &[u64]) -> Result<(), PrintError>
    ensures { every (λ b. nat_lt b 256) letters.now ≡ true → Wrote result out.old.items (letters_in letters.now) out.new.items }
{
    for letter in letters {
        if *letter == 0 {
            break;
        }
        put(out, &[u8::try_from(*letter)?])?;
    }
    Ok(())
}

// What stands before the arguments of a task, and what behind them.
fn put_task(out: &mut Vec<u8>, v: u64, kind: u64) -> Result<(), PrintError>
    ensures { Wrote result out.old.items (codes "v" ++ (decimal v ++ (codes " = do " ++ (decimal kind ++ codes " (")))) out.new.items }
{
    put_variable(out, v)?;
    put(out, b" = do ")?;
    put_number(out, kind)?;
    put(out, b" (")
}

fn put_terms(out: &mut Vec<u8>, tries: u64, pause: u64) -> Result<(), PrintError>
    ensures { Wrote result out.old.items (codes ") tries " ++ (decimal tries ++ (codes " pause " ++ (decimal pause ++ eol)))) out.new.items }
{
    put(out, b") tries ")?;
    put_number(out, tries)?;
    put(out, b" pause ")?;
    put_number(out, pause)?;
    put(out, b"\n")
}

// A line's end: these bytes, and then the expression that begins at `at`; then the address behind it.
fn print_line(
    words: &[u64],
    at: usize,
    bytes: &[u8],
    out: &mut Vec<u8>,
) -> Result<usize, PrintError>
    ensures forth { IfOk result (λ p. at ≤ p) }
    ensures text { (e : Expr) (rest : List ℕ) → drop at words.now ≡ code_of e ++ rest → units_in rest ≡ 0 →
        Spoke result words.now rest out.old.items (bytes.now ++ (expr_text compare e ++ eol)) out.new.items }
{
    put(out, bytes)?;
    let end = print_value(words, at, out)?;
    put(out, b"\n")?;
    Ok(end)
}

// The statement whose head is at `at`, behind what its line begins with; then the address behind it.
fn print_set(words: &[u64], at: usize, out: &mut Vec<u8>) -> Result<usize, PrintError>
    requires { at + 4 ≤ length words.now }
    ensures forth { IfOk result (λ p. at < p) }
    ensures text { (d v : ℕ) (e : Expr) (rest : List ℕ) → StmtAt words.now at (Set v e) rest →
        Spoke result words.now rest out.old.items (told d (Set v e)) out.new.items }
{
    put(out, b"set ")?;
    put_variable(out, words[at + 1])?;
    print_line(words, at + 4, b" = ", out)
}

fn print_do(words: &[u64], at: usize, out: &mut Vec<u8>) -> Result<usize, PrintError>
    ensures forth { IfOk result (λ p. at < p) }
    ensures text { (d v k : ℕ) (es : List Expr) (n p : ℕ) (rest : List ℕ) → StmtAt words.now at (Do v k es n p) rest →
        Spoke result words.now rest out.old.items (told d (Do v k es n p)) out.new.items }
{
    if !holds(words, at, 16) {
        return Err(PrintError::Damaged);
    }
    let end = past_units(words, at + 16);
    put_task(out, words[at + 1], words[at + 4])?;
    print_args(words, at + 16, end, words[at + 7], out)?;
    put_terms(out, words[at + 5], words[at + 6])?;
    Ok(end)
}

fn print_hear(words: &[u64], at: usize, out: &mut Vec<u8>) -> Result<usize, PrintError>
    ensures forth { IfOk result (λ p. at < p) }
    ensures text { (d v w : ℕ) (n : Name) (e : Expr) (rest : List ℕ) → StmtAt words.now at (Hear v w n e) rest → word_ok n ≡ true →
        Spoke result words.now rest out.old.items (told d (Hear v w n e)) out.new.items }
{
    if !holds(words, at, 68) {
        return Err(PrintError::Damaged);
    }
    put_variable(out, words[at + 1])?;
    put(out, b", ")?;
    put_variable(out, words[at + 3])?;
    put(out, b" = hear ")?;
    put_name(out, &words[at + 4..at + 68])?;
    print_line(words, at + 68, b" for ", out)
}

// The statement whose head is at `at`, as its lines, inside so many parts.
#[cycle(parts)]
fn print_statement(
    words: &[u64],
    at: usize,
    depth: Depth,
    out: &mut Vec<u8>,
) -> Result<usize, PrintError>
    requires { at + 4 ≤ length words.now }
    ensures forth { IfOk result (λ p. at < p) }
    ensures text { (d : ℕ) (s : Stmt) (rest : List ℕ) → depth.parts ≡ min d 32 → StmtAt words.now at s rest → stmt_ok s ≡ true →
        Spoke result words.now rest out.old.items (line_stmt d s) out.new.items }
{
    put_indent(out, depth)?;
    match words[at] % PER_FRAME {
        kinds::SET => print_set(words, at, out),
        kinds::DO => print_do(words, at, out),
        kinds::SLEEP => print_line(words, at + 4, b"sleep ", out),
        kinds::HEAR => print_hear(words, at, out),
        kinds::IF => print_if(words, at, depth, out),
        kinds::WHILE => print_while(words, at, depth, out),
        kinds::GUARD => print_guard(words, at, depth, out),
        kinds::RETURN => print_line(words, at + 4, b"return ", out),
        kinds::FAIL => {
            put(out, b"fail\n")?;
            Ok(at + 4)
        }
        _ => Err(PrintError::Damaged),
    }
}

// An if, a loop and a guard have a function each: what they share is `print_braced`.
#[cycle(parts)]
fn print_if(words: &[u64], at: usize, depth: Depth, out: &mut Vec<u8>) -> Result<usize, PrintError>
    requires { at + 4 ≤ length words.now }
    ensures forth { IfOk result (λ p. at < p) }
    ensures text { (d : ℕ) (e : Expr) (a b : Block) (rest : List ℕ) → depth.parts ≡ min d 32 → StmtAt words.now at (If e a b) rest → block_ok a ≡ true → block_ok b ≡ true →
        Spoke result words.now rest out.old.items (told d (If e a b)) out.new.items }
{
    put(out, b"if ")?;
    let first = print_value(words, at + 4, out)?;
    let other = print_braced(words, first, depth, out)?;
    put(out, b" else")?;
    let end = print_braced(words, other, depth, out)?;
    put(out, b"\n")?;
    Ok(end)
}

#[cycle(parts)]
fn print_while(
    words: &[u64],
    at: usize,
    depth: Depth,
    out: &mut Vec<u8>,
) -> Result<usize, PrintError>
    requires { at + 4 ≤ length words.now }
    ensures forth { IfOk result (λ p. at < p) }
    ensures text { (d : ℕ) (e : Expr) (a : Block) (rest : List ℕ) → depth.parts ≡ min d 32 → StmtAt words.now at (While e a) rest → block_ok a ≡ true →
        Spoke result words.now rest out.old.items (told d (While e a)) out.new.items }
{
    put(out, b"while ")?;
    let first = print_value(words, at + 4, out)?;
    let end = print_braced(words, first, depth, out)?;
    put(out, b"\n")?;
    Ok(end)
}

#[cycle(parts)]
fn print_guard(
    words: &[u64],
    at: usize,
    depth: Depth,
    out: &mut Vec<u8>,
) -> Result<usize, PrintError>
    requires { at + 4 ≤ length words.now }
    ensures forth { IfOk result (λ p. at < p) }
    ensures text { (d : ℕ) (a b : Block) (rest : List ℕ) → depth.parts ≡ min d 32 → StmtAt words.now at (Guard a b) rest → block_ok a ≡ true → block_ok b ≡ true →
        Spoke result words.now rest out.old.items (told d (Guard a b)) out.new.items }
{
    put(out, b"guard")?;
    let other = print_braced(words, at + 4, depth, out)?;
    put(out, b" else")?;
    let end = print_braced(words, other, depth, out)?;
    put(out, b"\n")?;
    Ok(end)
}

// The part that begins here, in braces.
#[cycle(parts)]
fn print_braced(
    words: &[u64],
    at: usize,
    depth: Depth,
    out: &mut Vec<u8>,
) -> Result<usize, PrintError>
    ensures forth { IfOk result (λ p. at < p) }
    ensures text { (d : ℕ) (b : Block) (rest : List ℕ) → depth.parts ≡ min d 32 → PartAt words.now at b rest → block_ok b ≡ true →
        Spoke result words.now rest out.old.items (braced d b) out.new.items }
{
    put(out, b" {\n")?;
    let end = print_part(words, at, depth.inner(), out)?;
    put_indent(out, depth)?;
    put(out, b"}")?;
    Ok(end)
}

// The part that begins here, one statement after another; then the address behind it.
// A loop over places: how long a statement is shows only once it is printed.
#[cycle(parts)]
fn print_part(
    words: &[u64],
    at: usize,
    depth: Depth,
    out: &mut Vec<u8>,
) -> Result<usize, PrintError>
    ensures forth { IfOk result (λ p. at < p) }
    ensures text { (d : ℕ) (b : Block) (rest : List ℕ) → depth.parts ≡ min d 32 → PartAt words.now at b rest → block_ok b ≡ true →
        Spoke result words.now rest out.old.items (lines_of d b) out.new.items }
{
    let mut here = at;
    loop {
        if !holds(words, here, 4) {
            return Err(PrintError::Damaged);
        }
        if words[here] % PER_FRAME == kinds::PART {
            return Ok(here + 4);
        }
        here = print_statement(words, here, depth, out)?;
    }
}

// Adds the text of a plan in flat form.
pub fn print(words: &[u64], out: &mut Vec<u8>) -> Result<(), PrintError>
    ensures { (b : Block) → IsFlat words.now b → block_ok b ≡ true → Wrote result out.old.items (text_of b) out.new.items }
{
    let end = print_part(words, 0, Depth { parts: 0 }, out)?;
    if end < words.len() {
        return Err(PrintError::Damaged);
    }
    Ok(())
}

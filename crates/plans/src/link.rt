// Linking: from a draft to the flat form, with where control goes on behind each statement.
ghost use Rattle.std.specs.Prelude.{◌≡◌, ℕ, ◌+◌, ◌-◌, ◌*◌, ◌<◌, ◌≤◌, true, List, [], ◌∷◌, ◌++◌, length, take, drop, if◌then◌else◌, nat_eq};
ghost use Rattle.std.specs.Option.{ForSome};
ghost use Rattle.plans.specs.Plan.{Expr, Block, Stmt, If, While, Guard, size_of};
ghost use Rattle.plans.specs.Flat.{entry, draft_of, draft_stmt, way_word, way_of, lay_stmt, lay, laid, is_simple, next_word, last_word};
ghost use Rattle.plans.specs.Sheet.{Wrote, Written, WrittenTo};
ghost use Rattle.plans.specs.declared.link.LinkError.TheVariants.{NoRoom};

use crate::kinds;
use crate::sheet::{Full, Sheet};
use std::error::Error;
use std::fmt;

#[derive(Clone, Copy, Debug, PartialEq, Eq)]
pub enum LinkError {
    // the sheet takes no more words
    NoRoom,
    // the words are no draft of a plan
    Damaged,
}

impl fmt::Display for LinkError {
    fn fmt<W: fmt::Write>(&self, f: &mut fmt::Formatter<W>) -> fmt::Result {
        f.write_str(match self {
            LinkError::NoRoom => "the sheet takes no more words",
            LinkError::Damaged => "the words are no draft of a plan",
        })
    }
}

impl Error for LinkError {}

impl From<Full> for LinkError {
    ghost from_gives = { λ _ e. e ≡ NoRoom };

    fn from(_full: Full) -> LinkError {
        LinkError::NoRoom
    }
}

// Writes these words.
fn put_all<S: Sheet>(sheet: &mut S, words: &[u64]) -> Result<(), LinkError>
    ensures { Written S.wrote S.room result sheet.old words.now sheet.new }
{
    for word in words {
        sheet.put(*word)?;
    }
    Ok(())
}

// Where control goes on behind a part or a statement, which address takes a failure, if one does,
// and how many frames are under it.
#[derive(Clone, Copy)]
struct Context {
    next: u64,
    way: Option<u64>,
    under: u64,
    ghost near: { ForSome way (λ a. a ≤ 65536) },
}

impl Context {
    // What is behind a statement of a part: the next one, which begins at `end` with this word, or what is behind the part.
    fn behind(self, word: u64, end: u64) -> Context
        requires { self.under ≤ 65536 }
        ensures next { result.next ≡ (if nat_eq word 12 then self.next else end) }
        ensures way { result.way ≡ self.way }
        ensures under { result.under ≡ (if nat_eq word 12 then self.under else self.under + 1) }
    {
        if word == kinds::PART {
            return self;
        }
        Context {
            next: end,
            way: self.way,
            under: self.under + 1,
        }
    }

    // The third word of a statement with no parts: nothing follows a return or a failure.
    fn next_word(self, kind: u64) -> u64
        ensures { result ≡ next_word kind self.next }
    {
        match kind {
            kinds::RETURN | kinds::FAIL => 0,
            _ => self.next,
        }
    }

    // The address that takes a failure and 1 more, or 0 where none does.
    #[tactic(auto, unfolding(crate::specs::Flat::way_word))]
    fn way_word(self) -> u64
        ensures { result ≡ way_word (way_of self.way) }
    {
        self.way.map_or(0, |address| address + 1)
    }

    // The fourth word: a task and a failure say where a failure goes.
    fn last_word(self, kind: u64, own: u64) -> u64
        ensures { result ≡ last_word kind (way_word (way_of self.way)) own }
    {
        match kind {
            kinds::DO | kinds::FAIL => self.way_word(),
            _ => own,
        }
    }
}

// The words of a draft: so few that an address in it, and one that it leads to, is small.
#[derive(Clone, Copy)]
struct Draft<'a> {
    words: &'a [u64],
    ghost small: { length words.now ≤ 16384 },
}

impl<'a> Draft<'a> {
    // Copies words of the draft.
    fn copy<S: Sheet>(&self, from: usize, count: usize, sheet: &mut S) -> Result<(), LinkError>
        ensures { from + count ≤ length self.now.words.now → Written S.wrote S.room result sheet.old (take count (drop from self.now.words.now)) sheet.new }
    {
        let behind = self.words.get(from..).ok_or(LinkError::Damaged)?;
        let words = behind.get(..count).ok_or(LinkError::Damaged)?;
        put_all(sheet, words)
    }

    // A statement with no parts: the draft's words, but for where control and a failure go.
    fn link_simple<S: Sheet>(
        &self,
        at: usize,
        deep: u64,
        go: Context,
        sheet: &mut S,
    ) -> Result<(), LinkError>
        requires whole { at + 4 ≤ length self.now.words.now }
        requires low { deep ≤ 16384 }
        ensures { (s : Stmt) (rest : List ℕ) → is_simple s ≡ true → drop at self.now.words.now ≡ draft_stmt s ++ rest → Written S.wrote S.room result sheet.old (lay_stmt at s go.next (way_of go.way) go.under deep) sheet.new }
    {
        let kind = self.words[at];
        let size = self.words[at + 2];
        if kind > kinds::FAIL || size == 0 || size > 4096 {
            return Err(LinkError::Damaged);
        }
        let head = [
            kind + 32 * deep,
            self.words[at + 1],
            go.next_word(kind),
            go.last_word(kind, self.words[at + 3]),
        ];
        put_all(sheet, &head)?;
        self.copy(at + 4, 4 * (size as usize - 1), sheet)
    }

    #[cycle(parts)]
    fn link_if<S: Sheet>(
        &self,
        at: usize,
        deep: u64,
        go: Context,
        sheet: &mut S,
    ) -> Result<(), LinkError>
        requires whole { at + 4 ≤ length self.now.words.now }
        requires low { (go.under ≤ at + 1) × (deep ≤ at + 1) }
        ensures { (e : Expr) (x y : Block) (rest : List ℕ) → drop at self.now.words.now ≡ draft_stmt (If e x y) ++ rest → Written S.wrote S.room result sheet.old (lay_stmt at (If e x y) go.next (way_of go.way) go.under deep) sheet.new }
    {
        let to_else = self.words[at + 1];
        let units = self.words[at + 3];
        if to_else == 0 || to_else > 4096 || units > 4096 {
            return Err(LinkError::Damaged);
        }
        let first = at + 4 + 4 * units as usize;
        let other = at + 4 * to_else as usize;
        put_all(sheet, &[kinds::IF + 32 * deep, other as u64, 0, 0])?;
        self.copy(at + 4, 4 * units as usize, sheet)?;
        self.link_part(first, go, sheet)?;
        self.link_part(other, go, sheet)?;
        Ok(())
    }

    // Behind a loop's body control goes on at the loop as it turns.
    #[cycle(parts)]
    fn link_while<S: Sheet>(
        &self,
        at: usize,
        deep: u64,
        go: Context,
        sheet: &mut S,
    ) -> Result<(), LinkError>
        requires whole { at + 4 ≤ length self.now.words.now }
        requires low { (go.under ≤ at + 1) × (deep ≤ at + 1) }
        ensures { (e : Expr) (x : Block) (rest : List ℕ) → drop at self.now.words.now ≡ draft_stmt (While e x) ++ rest → Written S.wrote S.room result sheet.old (lay_stmt at (While e x) go.next (way_of go.way) go.under deep) sheet.new }
    {
        let units = self.words[at + 3];
        if units > 4096 {
            return Err(LinkError::Damaged);
        }
        let body = at + 4 + 4 * units as usize;
        put_all(
            sheet,
            &[
                kinds::WHILE + 32 * deep,
                kinds::TURN + 32 * (go.under + 1),
                go.next,
                0,
            ],
        )?;
        self.copy(at + 4, 4 * units as usize, sheet)?;
        let turn = Context {
            next: at as u64 + 1,
            way: go.way,
            under: go.under + 1,
        };
        self.link_part(body, turn, sheet)?;
        Ok(())
    }

    // A failure in a guard's first part goes to its other part.
    #[cycle(parts)]
    fn link_guard<S: Sheet>(
        &self,
        at: usize,
        deep: u64,
        go: Context,
        sheet: &mut S,
    ) -> Result<(), LinkError>
        requires whole { at + 4 ≤ length self.now.words.now }
        requires low { (go.under ≤ at + 1) × (deep ≤ at + 1) }
        ensures { (x y : Block) (rest : List ℕ) → drop at self.now.words.now ≡ draft_stmt (Guard x y) ++ rest → Written S.wrote S.room result sheet.old (lay_stmt at (Guard x y) go.next (way_of go.way) go.under deep) sheet.new }
    {
        let to_other = self.words[at + 1];
        if to_other == 0 || to_other > 4096 {
            return Err(LinkError::Damaged);
        }
        let other = at + 4 * to_other as usize;
        put_all(
            sheet,
            &[
                kinds::GUARD + 32 * deep,
                kinds::LEAVE + 32 * (go.under + 1),
                go.next,
                other as u64,
            ],
        )?;
        let guarded = Context {
            next: at as u64 + 1,
            way: Some(other as u64),
            under: go.under + 1,
        };
        self.link_part(at + 4, guarded, sheet)?;
        self.link_part(other, go, sheet)?;
        Ok(())
    }

    #[cycle(parts)]
    fn link_statement<S: Sheet>(
        &self,
        at: usize,
        deep: u64,
        go: Context,
        sheet: &mut S,
    ) -> Result<(), LinkError>
        requires whole { at + 4 ≤ length self.now.words.now }
        requires low { (go.under ≤ at + 1) × (deep ≤ at + 1) }
        ensures { (s : Stmt) (rest : List ℕ) → drop at self.now.words.now ≡ draft_stmt s ++ rest → Written S.wrote S.room result sheet.old (lay_stmt at s go.next (way_of go.way) go.under deep) sheet.new }
    {
        match self.words[at] {
            kinds::IF => self.link_if(at, deep, go, sheet),
            kinds::WHILE => self.link_while(at, deep, go, sheet),
            kinds::GUARD => self.link_guard(at, deep, go, sheet),
            _ => self.link_simple(at, deep, go, sheet),
        }
    }

    // A part from here on: its statements, and its end. Gives where what follows it begins.
    #[cycle(parts)]
    fn link_part<S: Sheet>(&self, at: usize, go: Context, sheet: &mut S) -> Result<usize, LinkError>
        requires near { at ≤ 65536 }
        requires low { go.under ≤ at }
        ensures { (b : Block) (rest : List ℕ) → drop at self.now.words.now ≡ draft_of b ++ rest → WrittenTo S.wrote S.room result sheet.old (lay at b go.next (way_of go.way) go.under) (at + 4 * size_of b) sheet.new }
    {
        if at + 4 > self.words.len() {
            return Err(LinkError::Damaged);
        }
        if self.words[at] == kinds::PART {
            put_all(
                sheet,
                &[kinds::PART + 32 * (go.under + 1), kinds::END, go.next, 0],
            )?;
            return Ok(at + 4);
        }
        let size = self.words[at + 2];
        if size == 0 || size > 4096 {
            return Err(LinkError::Damaged);
        }
        let end = at + 4 * size as usize;
        if end >= self.words.len() {
            return Err(LinkError::Damaged);
        }
        let after = go.behind(self.words[end], end as u64);
        self.link_statement(at, go.under + 1, after, sheet)?;
        self.link_part(end, go, sheet)
    }
}

// Writes the flat form of a draft. Words that are no draft of a plan are damaged, wherever that is seen.
pub fn link<S: Sheet>(draft: &[u64], sheet: &mut S) -> Result<(), LinkError>
    ensures { (b : Block) → size_of b ≤ 4096 → draft.now ≡ draft_of b → Written S.wrote S.room result sheet.old (laid b) sheet.new }
{
    if draft.len() < 4 || draft.len() > kinds::MOST_WORDS {
        return Err(LinkError::Damaged);
    }
    let whole = Context {
        next: draft.len() as u64 - 3,
        way: None,
        under: 0,
    };
    Draft { words: draft }.link_part(0, whole, sheet)?;
    Ok(())
}

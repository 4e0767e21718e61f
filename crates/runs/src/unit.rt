// What a unit of the flat form says.
ghost use Rattle.std.specs.Prelude.{◌≡◌, ◌^◌, ◌<◌, slice_index};
ghost use Rattle.runs.specs.Units.{way_in, statement_of, statement_at, deep_at};

use plans::kinds;

// A statement, with the addresses at which control goes on and at which its words begin.
#[derive(Clone, Copy, Debug, PartialEq, Eq)]
pub enum Statement {
    Set {
        var: u64,
        next: u64,
        expr: usize,
    },
    // `way`: where a failure goes, if a guard takes it
    Do {
        var: u64,
        next: u64,
        way: Option<u64>,
        task: usize,
    },
    Sleep {
        next: u64,
        expr: usize,
    },
    Hear {
        var: u64,
        came: u64,
        next: u64,
        name: usize,
    },
    // the first part begins where the expression ends
    If {
        other: u64,
        expr: usize,
    },
    // and so does a loop's body
    While {
        next: u64,
        expr: usize,
    },
    Guard {
        first: usize,
    },
    // the end of a part, and the step out of a guard's first part
    Go {
        next: u64,
    },
    Return {
        expr: usize,
    },
    Fail {
        way: Option<u64>,
    },
    End,
}

// The word at an address; past the words there are zeros, which are of no plan.
pub fn word_at(words: &[u64], at: usize) -> u64
    ensures { result ≡ slice_index words.now at }
{
    words.get(at).copied().unwrap_or(0)
}

// Where a failure goes, by its word: the address and 1 more, or 0 where no guard takes it.
fn way_of(word: u64) -> Option<u64>
    ensures { result ≡ way_in word }
{
    word.checked_sub(1)
}

// The statement of a kind, with the three words behind its first. A loop as it turns, and the step out of a guard,
// begin one word behind their unit: so what is the third word for others is their second.
fn statement_of(kind: u64, at: usize, second: u64, third: u64, fourth: u64) -> Option<Statement>
    requires { at < 2 ^ 61 }
    ensures { result ≡ statement_of kind at second third fourth }
{
    match kind {
        kinds::SET => Some(Statement::Set {
            var: second,
            next: third,
            expr: at + 4,
        }),
        kinds::DO => Some(Statement::Do {
            var: second,
            next: third,
            way: way_of(fourth),
            task: at + 4,
        }),
        kinds::SLEEP => Some(Statement::Sleep {
            next: third,
            expr: at + 4,
        }),
        kinds::HEAR => Some(Statement::Hear {
            var: second,
            came: fourth,
            next: third,
            name: at + 4,
        }),
        kinds::IF => Some(Statement::If {
            other: second,
            expr: at + 4,
        }),
        kinds::WHILE => Some(Statement::While {
            next: third,
            expr: at + 4,
        }),
        kinds::TURN => Some(Statement::While {
            next: second,
            expr: at + 3,
        }),
        kinds::GUARD => Some(Statement::Guard { first: at + 4 }),
        kinds::LEAVE => Some(Statement::Go { next: second }),
        kinds::RETURN => Some(Statement::Return { expr: at + 4 }),
        kinds::FAIL => Some(Statement::Fail {
            way: way_of(fourth),
        }),
        kinds::PART => Some(Statement::Go { next: third }),
        kinds::END => Some(Statement::End),
        _ => None,
    }
}

// The statement at an address.
pub fn statement_at(words: &[u64], at: usize) -> Option<Statement>
    ensures { result ≡ statement_at words.now at }
{
    if at >= words.len() {
        return None;
    }
    statement_of(
        words[at] % 32,
        at,
        word_at(words, at + 1),
        word_at(words, at + 2),
        word_at(words, at + 3),
    )
}

// How many frames the meaning has while control is at an address.
pub fn deep_at(words: &[u64], at: usize) -> u64
    ensures { result ≡ deep_at words.now at }
{
    word_at(words, at) / 32
}

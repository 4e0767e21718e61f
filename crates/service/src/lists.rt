// Parts of calls as words.
ghost use Rattle.std.specs.Prelude.{◌≡◌, ◌≤◌, ◌↔◌, length, take, IfSome, IsSome};
ghost use Rattle.plans.specs.Plan.{name_ok};
ghost use Rattle.calls.specs.Held.{numbers_held};

use calls::types::{Numbers, Wide};

// Is it a key: 1 to 64 bytes?
pub fn is_key(key: &[u8]) -> bool
    ensures { result ≡ name_ok key.now }
{
    0 < key.len() && key.len() <= 64
}

// The numbers as words, one after the other, at the front of an array; None where there are more than N.
pub fn copied<T: Wide, const N: usize>(numbers: Numbers<'_, T>) -> Option<[u64; N]>
    ensures same { IfSome result (λ out. take (length (numbers_held T.WIDTH T.at numbers.entry)) out ≡ numbers_held T.WIDTH T.at numbers.entry) }
    ensures there { IsSome result ↔ (length (numbers_held T.WIDTH T.at numbers.entry) ≤ N) }
{
    if numbers.len() > N {
        return None;
    }
    let mut out = [0; N];
    // by place, as `Numbers` gives them: it reads each from the bytes of the call
    for i in 0..numbers.len() {
        out[i] = match numbers.checked(i) {
            Some(number) => number.widen(),
            None => 0,
        };
    }
    Some(out)
}

// What was expected at a place of a text, in words.
#![tactic(auto)]

use reading::error::{Expected, NoPlan};
use std::fmt;

// What is said of a text that is no plan. A number or a variable that is past its limit is no token, so that the text is looked at again.
#[derive(Clone, Copy, Debug)]
pub struct Wording<'a> {
    pub text: &'a [u8],
    pub why: NoPlan,
}

impl fmt::Display for Wording<'_> {
    fn fmt<W: fmt::Write>(&self, f: &mut fmt::Formatter<W>) -> fmt::Result {
        let here = self.text.get(self.why.at..).unwrap_or(&[]);
        match (self.why.expected, here) {
            (Expected::Expression, [b'v', digits @ ..]) if is_number(digits) => {
                write!(f, "{}", Expected::Variable)
            }
            (Expected::Expression | Expected::Number, _) if is_number(here) => {
                write!(f, "a number below 18446744073709551616")
            }
            (expected, _) => write!(f, "{expected}"),
        }
    }
}

// Does a run of letters and digits begin here, or go on, with digits alone.
fn is_number(text: &[u8]) -> bool {
    let digits = text.iter().take_while(|byte| byte.is_ascii_digit()).count();
    digits > 0
        && text
            .get(digits)
            .is_none_or(|byte| !byte.is_ascii_alphabetic())
}

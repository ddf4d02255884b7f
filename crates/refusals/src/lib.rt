// What a call refuses: document 01's number, and the place that it names.
#![tactic(auto)]

ghost use Rattle.std.specs.Prelude.{Some};
ghost use Rattle.refusals.specs.Verdicts.{refusal_text};

use std::error::Error;
use std::fmt;

// A number and a place, or place 0 where document 01 names none.
#[derive(Clone, Copy, Debug, PartialEq, Eq)]
pub struct Refusal(pub u8, pub usize);

impl fmt::Display for Refusal {
    ghost output = { λ r. Some (refusal_text r) };

    fn fmt<W: fmt::Write>(&self, f: &mut fmt::Formatter<W>) -> fmt::Result {
        write!(f, "refused {} at {}", self.0, self.1)
    }
}

impl Error for Refusal {}

// What a test answers: nothing to refuse, or the first refusal.
pub type Verdict = Result<(), Refusal>;

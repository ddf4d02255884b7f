// What every exported call answers: document 01's number and place.
#![tactic(auto)]

ghost use Rattle.std.specs.Prelude.{◌≡◌};
ghost use Rattle.answers.specs.Calls.{refusal_of};

use refusals::Verdict;

// Document 01's number and place; 0 and 0 where a call is served.
#[repr(C)]
#[derive(Clone, Copy)]
pub struct Refusal {
    pub number: u64,
    pub place: usize,
}

pub fn refusal_of(v: Verdict) -> Refusal
    ensures { result ≡ refusal_of v }
{
    match v {
        Ok(()) => Refusal {
            number: 0,
            place: 0,
        },
        Err(refusals::Refusal(number, place)) => Refusal {
            number: number as u64,
            place,
        },
    }
}

// What the calls answer, and demand 3: what holds after any list of offers and new prices. The calls themselves are in `opening`, `offering`, `building` and
// `pricing`.
#![tactic(auto)]

use tables::Action;

// The totals at a mixture, the action of the first vector with the largest product, and the two ceilings of which the upper total is the lower one.
#[derive(Clone, Copy)]
pub struct Bounds {
    pub lower: i64,
    pub upper: i64,
    pub gap: i64,
    pub action: Action,
    pub sawtooth: i64,
    pub informed: i64,
}

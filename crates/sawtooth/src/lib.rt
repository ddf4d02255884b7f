// The sawtooth: the largest drop of a point. Nearly all of an offer's time is spent here, so a point's smallest ratio is found by cross-multiplication
// with one division, and only where the point can beat the largest drop so far.
#![tactic(auto)]

ghost use Rattle.std.specs.Prelude.{◌≡◌, ℕ, ◌+◌, ◌*◌, ◌≤◌, ◌<◌, leb, length, get_or};
ghost use Rattle.integers.specs.Whole.{largest_to, Below};
ghost use Rattle.integers.specs.Search.{every};
ghost use Rattle.tables.specs.Limits.{max_states};
ghost use Rattle.tables.specs.Storage.{weight_in};
ghost use Rattle.plans.specs.Limits.{max_total, max_reached};
ghost use Rattle.plans.specs.Level.{smallest, or_none};
ghost use Rattle.sawtooth.specs.Steps.{drop_in, PointsFit, max_gain, cap};

use tables::read;

// No drop is compared with more than this: one more of it times a weight still fits.
const CAP: u64 = 100_000_000_000_000_000;

// a × b, of a weight and a gain
fn reach(q: u64, gain: u64) -> u64
    requires { (q ≤ max_reached) × (gain ≤ max_gain) }
    ensures { result ≡ q * gain }
{
    q * gain
}

// a × b, of a number up to one more than CAP and a point's weight
fn wanted(least: u64, p: u64) -> u64
    requires { (least ≤ cap + 1) × (p ≤ max_total) }
    ensures { result ≡ least * p }
{
    least * p
}

// Whether the drop is at least `least`: q(s) × gain is at least `least` × p(s) at every state. It leaves at the first that says no.
fn reaches(q: &[u64], weights: &[u32], at: usize, gain: u64, n: usize, least: u64) -> bool
    requires n_le_max_states { (n ≤ max_states) × ((at + n ≤ length weights.now) × ((gain ≤ max_gain) × (least ≤ cap + 1))) }
    requires below { Below max_reached n q.now }
    requires by_index { (s : ℕ) → s < n → get_or weights.now (at + s) 0 ≤ max_total }
    ensures { result ≡ every n (λ s. leb (least * get_or weights.now (at + s) 0) (get_or q.now s 0 * gain)) }
{
    for s in 0..n {
        let p = u64::from(weights[at + s]);
        if reach(q[s], gain) < wanted(least, p) {
            return false;
        }
    }
    true
}

// a × b, of a weight of a state reached and a point's weight
fn cross(q: u64, p: u64) -> u64
    requires { (q ≤ max_reached) × (p ≤ max_total) }
    ensures { result ≡ q * p }
{
    q * p
}

// The drop: the smallest q(s) × gain / p(s), by cross-multiplication with one division at the end; 0 where no state has weight.
fn drop_of(q: &[u64], weights: &[u32], at: usize, gain: u64, n: usize) -> u64
    requires n_le_max_states { (n ≤ max_states) × ((at + n ≤ length weights.now) × (gain ≤ max_gain)) }
    requires below { Below max_reached n q.now }
    requires by_index { (s : ℕ) → s < n → get_or weights.now (at + s) 0 ≤ max_total }
    ensures { result ≡ or_none (smallest n (λ s. get_or weights.now (at + s) 0) (weight_in q.now) gain) }
{
    let mut top: u64 = 1; // under no weight: any state with weight takes its place
    let mut under: u64 = 0;
    for s in 0..n {
        let p = u64::from(weights[at + s]);
        let x = q[s];
        if cross(x, under) < cross(top, p) {
            top = x;
            under = p;
        }
    }
    if under == 0 {
        return 0;
    }
    reach(top, gain) / under
}

fn least_above(best: u64) -> u64
    ensures { (result ≤ best + 1) × (result ≤ cap + 1) }
{
    if best < CAP { best + 1 } else { CAP }
}

// The largest drop of a point, or 0. A point that cannot beat the largest so far is left at once.
pub fn largest_drop<'a>(
    q: &[u64],
    weights: &'a [u32],
    gains: &[u64],
    points: usize,
    n: usize,
) -> u64
    requires n_le_max_states { n ≤ max_states }
    requires below { Below max_reached n q.now }
    requires points_fit { PointsFit n points weights.now }
    requires below_2 { Below max_gain points gains.now }
    ensures { result ≡ largest_to points (drop_in n weights.now gains.now q.now) }
{
    let mut best: u64 = 0;
    for i in 0..points {
        let at = read::start(i, n);
        let gain = gains[i];
        if reaches(q, weights, at, gain, n, least_above(best)) {
            let d = drop_of(q, weights, at, gain, n);
            if best < d {
                best = d;
            }
        }
    }
    best
}

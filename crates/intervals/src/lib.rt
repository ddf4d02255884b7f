// Weights known within ranges: a low and a high for each state, and totals between which every mixture inside has its best plan.
#![tactic(auto)]

ghost use Rattle.std.specs.Prelude.{◌≡◌, true, List, ℕ, ◌+◌, ◌≤◌, ◌<◌, length, get_or, pos, nat_abs};
ghost use Rattle.integers.specs.Whole.{Below};
ghost use Rattle.tables.specs.Limits.{max_states, max_weight, max_entry};
ghost use Rattle.tables.specs.Tables.{Tables};
ghost use Rattle.tables.specs.Storage.{weight_in, tables_in};
ghost use Rattle.masks.specs.Steps.{some_includes, MaskedFit};
ghost use Rattle.plans.specs.Intervals.{least_product};
ghost use Rattle.levels.specs.Storage.{Lent, cells, rows, lent};
ghost use Rattle.runs.specs.Demand3.{ModelAccepted, Event, certifier, after, steps, claim};
ghost use Rattle.bounds.specs.Steps.{support_in};
ghost use Rattle.intervals.specs.Intervals.{ranges_hold, highs_hold, within_of};
ghost use Rattle.intervals.specs.Claim.{RangesHold, WithinHolds};
ghost use Rattle.intervals.specs.Steps.{weight_for, Ranged, lower_in_ranges, totals_in, answer_within, AskedWithin};

use refusals::Refusal;
use tables::{Counts, read};

// The totals over all mixtures inside the ranges.
#[derive(Clone, Copy)]
pub struct Enclosing {
    pub lower: i64,
    pub upper: i64,
}

// A weight, or 0 where it is missing.
fn weight_at(cells: &[u32], s: usize) -> u64
    ensures { result ≡ weight_in cells.now s }
{
    if cells.len() <= s {
        return 0;
    }
    u64::from(cells[s])
}

// 24: whether no low exceeds its high.
fn ranges_hold<'c>(lows: &'c [u32], highs: &'c [u32], n: usize) -> bool
    ensures { result ≡ ranges_hold n lows.now highs.now }
{
    for s in 0..n {
        if weight_at(highs, s) < weight_at(lows, s) {
            return false;
        }
    }
    true
}

// 17: whether there is a low and a high for each state, no high exceeds 1,000,000 and some high is above 0.
fn highs_hold<'c>(lows: &'c [u32], highs: &'c [u32], n: usize) -> bool
    requires { n ≤ max_states }
    ensures { result ≡ highs_hold n lows.now highs.now }
{
    if lows.len() < n {
        return false;
    }
    asking::mixture_holds(highs, n)
}

// The weight that an entry takes: one for entries of 0 or more, another for those below.
fn weight_for(over: u64, under: u64, e: i64) -> u64
    ensures { result ≡ weight_for over under e }
{
    if e < 0 {
        return under;
    }
    over
}

// The product with the n numbers from `at` on: least with lows over and highs under, most with highs over and lows under.
fn sure_product(over: &[u64], under: &[u64], cells: &[i64], at: usize, n: usize) -> i64
    requires n_le_max_states { (n ≤ max_states) × (at + n ≤ length cells.now) }
    requires below { Below max_weight n over.now × Below max_weight n under.now }
    requires by_index { (s : ℕ) → s < n → 0 < weight_in over.now s + weight_in under.now s → nat_abs (get_or cells.now (at + s) (pos 0)) ≤ max_entry }
    ensures { result
        ≡ least_product n (weight_in over.now) (weight_in under.now) (λ s. get_or cells.now (at + s) (pos 0)) }
{
    let mut sum: i64 = 0;
    for s in 0..n {
        let e = cells[at + s];
        sum = integers::add_scaled(sum, weight_for(over[s], under[s], e), e);
    }
    sum
}

// The largest least product, of the vectors whose masks have all states with a high above 0.
fn surest_product(
    lows: &[u64],
    highs: &[u64],
    masks: &[u64],
    entries: &[i64],
    n: usize,
    vectors: usize,
    states: u64,
) -> i64
    requires n_le_max_states { n ≤ max_states }
    requires ranged { Ranged n lows.now highs.now }
    requires masked_fit { MaskedFit n vectors masks.now entries.now }
    requires states_value { (states ≡ support_in n highs.now) × (some_includes masks.now vectors states ≡ true) }
    ensures { result
        ≡ lower_in_ranges n vectors masks.now entries.now lows.now highs.now states }
{
    let mut found = false;
    let mut most: i64 = 0;
    for v in 0..vectors {
        if masks::has(masks[v], states) {
            let here = sure_product(lows, highs, entries, read::start(v, n), n);
            if !found || most < here {
                found = true;
                most = here;
            }
        }
    }
    most
}

// Both totals within ranges that hold, where a vector has all states with a high above 0.
fn totals_at<'b>(
    masks: &'b [u64],
    entries: &'b [i64],
    corners: &'b [i64],
    lows: &[u64],
    highs: &[u64],
    n: usize,
    vectors: usize,
    states: u64,
) -> Enclosing
    requires asked_within { AskedWithin n vectors masks.now entries.now corners.now }
    requires ranged { Ranged n lows.now highs.now }
    requires states_value { (states ≡ support_in n highs.now) × (some_includes masks.now vectors states ≡ true) }
    ensures { result
        ≡ totals_in n vectors masks.now entries.now corners.now lows.now highs.now states }
{
    Enclosing {
        lower: surest_product(lows, highs, masks, entries, n, vectors, states),
        upper: sure_product(highs, lows, corners, 0, n),
    }
}

// The totals within ranges of any content, or refused by 24, 17 or 22.
fn answer<'b, 'c>(
    masks: &'b [u64],
    entries: &'b [i64],
    corners: &'b [i64],
    n: usize,
    vectors: usize,
    lows: &'c [u32],
    highs: &'c [u32],
) -> Result<Enclosing, Refusal>
    requires { AskedWithin n vectors masks.now entries.now corners.now }
    ensures { result ≡ answer_within n vectors masks.now entries.now corners.now lows.now highs.now }
{
    if !ranges_hold(lows, highs, n) {
        return Err(Refusal(24, 0));
    }
    if !highs_hold(lows, highs, n) {
        return Err(Refusal(17, 0));
    }
    let low = weights::point_weights(lows, n, 0);
    let high = weights::point_weights(highs, n, 0);
    let states = masks::support(&high, n);
    if !masks::some_has(masks, vectors, states) {
        return Err(Refusal(22, 0));
    }
    Ok(totals_at(masks, entries, corners, &low, &high, n, vectors, states))
}

// The lower and the upper total of weights known within ranges of any content, or refused by 7, 16, 24, 17 or 22.
pub fn totals_within<'a, 'b, 'c>(
    transition: &'a [u16],
    observation: &'a [u16],
    reward: &'a [i64],
    c: Counts,
    state: &'b [usize],
    actions: &'b [u8],
    masks: &'b [u64],
    entries: &'b [i64],
    corners: &'b [i64],
    weights: &'b [u32],
    values: &'b [i64],
    informed: &'b [i64],
    qmdp: &'b [i64],
    lows: &'c [u32],
    highs: &'c [u32],
) -> Result<Enclosing, Refusal>
    ensures { (choices : List ℕ) →
        let m = tables_in c transition.now observation.now reward.now in
        let standing = lent state.now (cells actions.now choices masks.now entries.now corners.now
        weights.now values.now) (rows informed.now qmdp.now) in
        (result ≡ within_of m standing lows.now highs.now)
        × ((m₀ : Tables) (x : Lent) (es : List Event) → ModelAccepted m₀ x → certifier m standing ≡ after m₀ x es → 0 < steps m₀ x es
        → RangesHold m (claim m₀ x es) lows.now highs.now
        → WithinHolds m (steps m₀ x es) (claim m₀ x es) lows.now highs.now result) }
{
    asking::judge_standing(
        transition,
        observation,
        reward,
        c,
        state,
        actions,
        masks,
        entries,
        corners,
        weights,
        values,
        informed,
        qmdp,
    )?;
    let s = levels::standing_in(state);
    answer(masks, entries, corners, c.states, s.vectors, lows, highs)
}

// New prices in mid-plan: the certifier's numbers are moved by the largest change of a reward, times the level, and it goes on under the new tables. A
// refusal writes nothing.
#![tactic(auto)]

ghost use Rattle.std.specs.Prelude.{◌≡◌, cond, List, ℕ, ◌≤◌, ◌<◌, ◌^◌, pos, nat_abs, ◌-ℤ◌};
ghost use Rattle.integers.specs.Whole.{largest_to, Within};
ghost use Rattle.integers.specs.Cells.{laid, laid_rows};
ghost use Rattle.tables.specs.Limits.{max_states, max_reward, max_entry};
ghost use Rattle.tables.specs.Storage.{tables_in};
ghost use Rattle.masks.specs.Masks.{covered};
ghost use Rattle.plans.specs.Prices.{fallen, risen};
ghost use Rattle.levels.specs.Storage.{cells, rows, lent};
ghost use Rattle.runs.specs.Prices.{prices_verdict, priced_of};
ghost use Rattle.pricing.specs.Steps.{max_move, change_at, Vectors, PricedPoints, lowered_in, raised_in, value_in};

use refusals::Verdict;
use tables::{Counts, State, read};

// How far apart two rewards are.
fn apart(a: i64, b: i64) -> u64
    requires { (nat_abs a ≤ max_reward) × (nat_abs b ≤ max_reward) }
    ensures { result ≡ nat_abs (b -ℤ a) }
{
    integers::magnitude(integers::minus(b, a))
}

// The largest change of a reward, up or down.
fn largest_change(reward: &[i64], new: &[i64], count: usize) -> u64
    requires within { Within max_reward count reward.now }
    requires within_2 { Within max_reward count new.now }
    ensures { result ≡ largest_to count (change_at reward.now new.now) }
{
    let mut most: u64 = 0;
    for (old, changed) in reward[..count].iter().zip(&new[..count]) {
        most = most.max(apart(*old, *changed));
    }
    most
}

// x less k, but at least - limit.
fn fallen(limit: u64, x: i64, k: u64) -> i64
    requires { (limit < 2 ^ 62) × ((k < 2 ^ 62) × (nat_abs x < 2 ^ 62)) }
    ensures { result ≡ fallen limit x k }
{
    let least = integers::minus(0, limit as i64);
    let lower = integers::minus(x, k as i64);
    if lower < least {
        return least;
    }
    lower
}

// x plus k, but at most limit.
fn risen(limit: u64, x: i64, k: u64) -> i64
    requires { (limit < 2 ^ 62) × ((k < 2 ^ 62) × (nat_abs x < 2 ^ 62)) }
    ensures { result ≡ risen limit x k }
{
    integers::lesser(integers::plus(x, k as i64), limit as i64)
}

// An entry, lower by k where it is covered.
fn lowered(mask: u64, s: State, x: i64, limit: u64, k: u64) -> i64
    requires s_lt_max_states { (s.0 < max_states) × ((limit ≤ max_entry) × (k ≤ max_move)) }
    requires pos_bound { nat_abs (cond (covered mask s.0) x (pos 0)) ≤ limit }
    ensures { result ≡ cond (covered mask s.0) (fallen limit x k) x }
{
    if !masks::covers(mask, s) {
        return x;
    }
    fallen(limit, x, k)
}

// The vectors' entries of covered states, lower by k.
fn lower_entries(masks: &[u64], entries: &mut [i64], vectors: usize, n: usize, limit: u64, k: u64)
    requires vectors { Vectors n vectors limit masks.now entries.old }
    requires limit_le_max_entry { (limit ≤ max_entry) × (k ≤ max_move) }
    ensures { entries.new ≡ laid_rows vectors n (lowered_in n limit k masks.now entries.old) entries.old }
{
    for i in 0..vectors * n {
        let v = i / n;
        entries[i] = lowered(masks[v], State(i % n), entries[i], limit, k);
    }
}

// The first cells, higher by k: corners or rows.
fn raise_cells(cells: &mut [i64], count: usize, limit: u64, k: u64)
    requires within { Within limit count cells.old }
    requires limit_le_max_entry { (limit ≤ max_entry) × (k ≤ max_move) }
    ensures { cells.new ≡ laid count (raised_in limit k cells.old) cells.old }
{
    for cell in &mut cells[..count] {
        *cell = risen(limit, *cell, k);
    }
}

// The points' values, higher by k times the totals of their weights.
fn raise_values(weights: &[u32], values: &mut [i64], n: usize, points: usize, limit: u64, k: u64)
    requires priced_points { PricedPoints n points limit weights.now values.old }
    requires limit_le_max_entry { (limit ≤ max_entry) × (k ≤ max_move) }
    ensures { values.new ≡ laid points (value_in n limit k weights.now values.old) values.old }
{
    for i in 0..points {
        let total = weights::weights_total(weights, read::start(i, n), n);
        values[i] = risen(total * limit, values[i], total * k);
    }
}

// Changes the prices of a certifier that stands at level t: with d the largest change of any reward, its vectors fall by d × t where they cover, and its
// corners, values (times the totals of their weights) and rows rise by it, each held at the end of its range. It goes on under the new tables. Or refused
// by 7, by 3, 5 or 6 of the new tables, or by 23, and unchanged.
pub fn reprice<'a, 'n, 'b>(
    transition: &'a [u16],
    observation: &'a [u16],
    reward: &'a [i64],
    c: Counts,
    newtransition: &'n [u16],
    newobservation: &'n [u16],
    newreward: &'n [i64],
    new: Counts,
    state: &'b [usize],
    actions: &'b [u8],
    masks: &'b [u64],
    entries: &mut [i64],
    corners: &mut [i64],
    weights: &'b [u32],
    values: &mut [i64],
    informed: &mut [i64],
    qmdp: &mut [i64],
) -> Verdict
    ensures { (choices : List ℕ) →
        let m = tables_in c transition.now observation.now reward.now in
        let m' = tables_in new newtransition.now newobservation.now newreward.now in
        let standing = lent state.now (cells actions.now choices masks.now entries.old corners.old
        weights.now values.old) (rows informed.old qmdp.old) in
        let priced = lent state.now (cells actions.now choices masks.now entries.new corners.new
        weights.now values.new) (rows informed.new qmdp.new) in
        (result ≡ prices_verdict m standing m')
        × (priced ≡ priced_of m standing m') }
{
    prices::judge_prices(
        transition,
        observation,
        reward,
        c,
        newtransition,
        newobservation,
        newreward,
        new,
        state,
        actions,
        masks,
        &entries[..],
        &corners[..],
        weights,
        &values[..],
        &informed[..],
        &qmdp[..],
    )?;
    let s = levels::standing_in(state);
    let limit = standing::range_of(s.number);
    let cells = c.actions * c.states;
    let k = largest_change(reward, newreward, cells) * s.number as u64;
    lower_entries(masks, entries, s.vectors, c.states, limit, k);
    raise_cells(corners, c.states, limit, k);
    raise_values(weights, values, c.states, s.points, limit, k);
    raise_cells(informed, cells, limit, k);
    raise_cells(qmdp, cells, limit, k);
    Ok(())
}

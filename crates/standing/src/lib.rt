// 7: whether what a certifier holds is within its limits: tables, the level that stands, rows. And 11, which an offered level is asked too.
// Nothing is written.
#![tactic(auto)]

ghost use Rattle.std.specs.Prelude.{◌≡◌, List, [], ℕ, ◌*◌, ◌≤◌, length};
ghost use Rattle.tables.specs.Limits.{max_states, max_actions, max_vectors, max_levels};
ghost use Rattle.tables.specs.Storage.{tables_in};
ghost use Rattle.plans.specs.Limits.{max_points, range};
ghost use Rattle.levels.specs.Storage.{cells, rows, level_in, lent};
ghost use Rattle.levels.specs.Judged.{ranges_verdict, rows_hold, holds};

use levels::{Level, Standing, shape};
use refusals::Verdict;
use tables::{Counts, Tables};

// The range of entries and corners at level t.
pub fn range_of(t: usize) -> u64
    requires { t ≤ max_levels }
    ensures { result ≡ range t }
{
    Tables::REWARD * t as u64
}

// 11: entries, then corners, then point values.
pub fn ranges_hold<'a>(
    masks: &'a [u64],
    entries: &'a [i64],
    corners: &'a [i64],
    weights: &'a [u32],
    values: &'a [i64],
    n: usize,
    vectors: usize,
    points: usize,
    t: usize,
) -> Verdict
    requires n_le_max_states { (n ≤ max_states) × ((t ≤ max_levels) × ((vectors ≤ max_vectors) × (points ≤ max_points))) }
    requires vectors_in_bounds { (vectors ≤ length masks.now) × ((vectors * n ≤ length entries.now) × ((n ≤ length corners.now) ×
        ((points * n ≤ length weights.now) × (points ≤ length values.now)))) }
    ensures { result ≡ ranges_verdict n t
        (level_in n 0 vectors [] [] masks.now entries.now corners.now points weights.now
        values.now) }
{
    let limit = range_of(t);
    ranges::entries_within(masks, entries, vectors, n, limit)?;
    ranges::rows_within(corners, n, 1, limit, 11)?;
    ranges::values_within(weights, values, n, points, limit)
}

// Whether rows of m actions and n states are there and within the range of level t.
fn rows_hold(cells: &[i64], m: usize, n: usize, t: usize) -> bool
    requires { (m ≤ max_actions) × ((n ≤ max_states) × (t ≤ max_levels)) }
    ensures { result ≡ rows_hold m n t cells.now }
{
    if cells.len() < m * n {
        return false;
    }
    ranges::rows_within(cells, m, n, range_of(t), 7).is_ok()
}

// 7: whether the tables, the standing level and the rows are within their limits. The level's choices are not read.
pub fn standing_holds<'a, 'b>(
    transition: &'a [u16],
    observation: &'a [u16],
    reward: &'a [i64],
    c: Counts,
    state: &'b [usize],
    actions: &'b [u8],
    masks: &'b [u64],
    entries: &'b [i64],
    corners: &'b [i64],
    weights: &'b [u32],
    values: &'b [i64],
    informed: &'b [i64],
    qmdp: &'b [i64],
) -> bool
    ensures { (choices : List ℕ) → result ≡ holds (tables_in c transition.now observation.now reward.now)
        (lent state.now (cells actions.now choices masks.now entries.now corners.now
        weights.now values.now) (rows informed.now qmdp.now)) }
{
    if validity::judge_tables(transition, observation, reward, c).is_err() {
        return false;
    }
    if state.len() < Standing::SIZE {
        return false;
    }
    let s = levels::standing_in(state);
    if Level::LEVELS < s.number {
        return false;
    }
    if !shape::counts_hold(s.vectors, s.points) {
        return false;
    }
    if !shape::readable(
        c.states,
        s.vectors,
        s.points,
        actions.len(),
        masks.len(),
        entries.len(),
        corners.len(),
        weights.len(),
        values.len(),
    ) {
        return false;
    }
    if !shape::actions_exist(actions, s.vectors, c.actions) {
        return false;
    }
    if ranges_hold(
        masks, entries, corners, weights, values, c.states, s.vectors, s.points, s.number,
    )
    .is_err()
    {
        return false;
    }
    if weights::weights_hold(weights, c.states, s.points).is_err() {
        return false;
    }
    if !rows_hold(informed, c.actions, c.states, s.number) {
        return false;
    }
    rows_hold(qmdp, c.actions, c.states, s.number)
}

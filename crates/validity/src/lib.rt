// Refusals 3, 5 and 6 of tables of any content.
#![tactic(auto)]

ghost use Rattle.std.specs.Prelude.{◌≡◌, ◌&&◌, ◌+◌, ◌*◌, ◌≤◌, length, get_or};
ghost use Rattle.integers.specs.Whole.{total_to, largest_to};
ghost use Rattle.tables.specs.Limits.{max_states, max_actions, max_observations};
ghost use Rattle.tables.specs.Storage.{cell_in, reward_in, model_of, tables_in};
ghost use Rattle.tables.specs.Judged.{counts_within, cells_within, rewards_within, limits_hold, has_room, tables_stored};
ghost use Rattle.tables.specs.Judged.{rows_total, tables_verdict};

use refusals::{Refusal, Verdict};
use tables::{Action, Counts, State, Tables, read};

pub fn counts_within(n: usize, m: usize, k: usize) -> bool
    ensures { result ≡ counts_within n m k }
{
    if !tables::count_within(Tables::STATES, n) {
        return false;
    }
    if !tables::count_within(Tables::ACTIONS, m) {
        return false;
    }
    tables::count_within(Tables::OBSERVATIONS, k)
}

// The largest of the first `count` cells.
fn largest(cells: &[u16], count: usize) -> u16
    requires { count ≤ length cells.now }
    ensures { result ≡ largest_to count (λ x. get_or cells.now x 0) }
{
    let mut most: u16 = 0;
    for cell in &cells[..count] {
        most = most.max(*cell);
    }
    most
}

// Whether each cell of m blocks of n rows of width w is at most 1: they lie one after the other.
fn cells_within(cells: &[u16], m: usize, n: usize, w: usize) -> bool
    requires m_le_max_actions { (m ≤ max_actions) × ((n ≤ max_states) × (w ≤ max_states)) }
    requires w_in_bounds { m * n * w ≤ length cells.now }
    ensures { result ≡ cells_within m n w (cell_in n w cells.now) }
{
    read::wide(largest(cells, m * n * w)) <= Tables::ONE
}

fn rewards_within(cells: &[i64], m: usize, n: usize) -> bool
    requires m_le_max_actions { (m ≤ max_actions) × (n ≤ max_states) }
    requires n_in_bounds { m * n ≤ length cells.now }
    ensures { result ≡ rewards_within m n (reward_in n cells.now) }
{
    for a in 0..m {
        for s in 0..n {
            if !integers::within(
                Tables::REWARD,
                read::reward_at(cells, n, State(s), Action(a)),
            ) {
                return false;
            }
        }
    }
    true
}

// Whether slices of such lengths are long enough for tables of the counts.
pub fn has_room(c: Counts, transitions: usize, observations: usize, rewards: usize) -> bool
    requires { (c.states ≤ max_states) × ((c.actions ≤ max_actions) × (c.observations ≤ max_observations)) }
    ensures { result ≡ has_room c transitions observations rewards }
{
    let rows = c.actions * c.states;
    if transitions < rows * c.states {
        return false;
    }
    if observations < rows * c.observations {
        return false;
    }
    rows <= rewards
}

// 3: the counts come first, since the cells lie by them.
#[tactic(auto, unfolding(tables::specs::Judged::limits_hold))]
fn limits_hold<'a>(
    transition: &'a [u16],
    observation: &'a [u16],
    reward: &'a [i64],
    c: Counts,
) -> bool
    ensures { let m = tables_in c transition.now observation.now reward.now in
        result ≡ limits_hold (model_of m) && tables_stored m }
{
    if !counts_within(c.states, c.actions, c.observations) {
        return false;
    }
    if !has_room(c, transition.len(), observation.len(), reward.len()) {
        return false;
    }
    if Tables::ONE < c.discount {
        return false;
    }
    if !cells_within(transition, c.actions, c.states, c.states) {
        return false;
    }
    if !cells_within(observation, c.actions, c.states, c.observations) {
        return false;
    }
    rewards_within(reward, c.actions, c.states)
}

// The total of the w cells from `at` on.
pub fn row_total(cells: &[u16], at: usize, w: usize) -> u64
    requires { (at + w ≤ length cells.now) × (w ≤ max_states) }
    ensures { result ≡ total_to w (λ x. get_or cells.now (at + x) 0) }
{
    let mut sum: u64 = 0;
    for x in 0..w {
        sum += read::wide(cells[at + x]);
    }
    sum
}

// 5 and 6: the first row, by action and then by state, that does not total 1.
#[tactic(auto, unfolding(tables::specs::Judged::rows_total))]
pub fn rows_total(cells: &[u16], m: usize, n: usize, w: usize, number: u8) -> Verdict
    requires m_le_max_actions { (m ≤ max_actions) × ((n ≤ max_states) × (w ≤ max_states)) }
    requires w_in_bounds { m * n * w ≤ length cells.now }
    ensures { result ≡ rows_total number m n w (cell_in n w cells.now) }
{
    for a in 0..m {
        for s in 0..n {
            let row = read::row(a, n, s);
            if row_total(cells, read::start(row, w), w) != Tables::ONE {
                return Err(Refusal(number, row));
            }
        }
    }
    Ok(())
}

// 3, then 5, then 6, of tables of any content.
#[tactic(auto, unfolding(tables::specs::Judged::tables_verdict))]
pub fn judge_tables<'a>(
    transition: &'a [u16],
    observation: &'a [u16],
    reward: &'a [i64],
    c: Counts,
) -> Verdict
    ensures { result ≡ tables_verdict (tables_in c transition.now observation.now reward.now) }
{
    if !limits_hold(transition, observation, reward, c) {
        return Err(Refusal(3, 0));
    }
    rows_total(transition, c.actions, c.states, c.states, 5)?;
    rows_total(observation, c.actions, c.states, c.observations, 6)
}

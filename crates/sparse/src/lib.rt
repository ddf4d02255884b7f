// Successor weights, vector backups and what is reached, from a list of transitions: a sum or a search down a column, or the column added to its states.
#![tactic(auto)]

ghost use Rattle.std.specs.Prelude.{◌≡◌, ℕ, ◌+◌, ◌*◌, ◌-◌, ◌≤◌, ◌<◌, ◌^◌, ◌&&◌, ltb, length, get_or, pos, nat_abs, ◌+ℤ◌};
ghost use Rattle.integers.specs.Whole.{◌·◌, total_to, Below, Within};
ghost use Rattle.integers.specs.Search.{some};
ghost use Rattle.integers.specs.Cells.{padded, laid};
ghost use Rattle.tables.specs.Limits.{max_states, max_actions, one, max_weight};
ghost use Rattle.tables.specs.Storage.{row_place, weight_in};
ghost use Rattle.masks.specs.Masks.{covered};
ghost use Rattle.columns.specs.Columns.{state_of, chance_of, said_for, turned_back};
ghost use Rattle.columns.specs.Steps.{ColumnStored, ColumnFits, ColumnsFit};
ghost use Rattle.sums.specs.Steps.{RewardsFit, foreseen_limit};
ghost use Rattle.sparse.specs.Steps.{moved_said, onward_said, backup_said};

use columns::List;
use tables::{Action, ByState, State, Tables, Weights, read};

fn place(w: u32) -> usize
    ensures { result ≡ w }
{
    w as usize
}

// The word at which the cells of a column begin.
fn first_of(list: &[u32], n: usize, a: Action, to: State) -> usize
    requires n_le_max_states { (n ≤ max_states) × ((a.0 < max_actions) × (to.0 < n)) }
    requires column_fits { ColumnFits n list.now (row_place n a.0 to.0) }
    ensures { result ≡ get_or list.now (row_place n a.0 to.0) 0 }
{
    let c = read::row(a.0, n, to.0);
    place(list[c])
}

// How many they are.
fn count_of(list: &[u32], n: usize, a: Action, to: State) -> usize
    requires n_le_max_states { (n ≤ max_states) × ((a.0 < max_actions) × (to.0 < n)) }
    requires column_fits { ColumnFits n list.now (row_place n a.0 to.0) }
    ensures { result ≡ get_or list.now (row_place n a.0 to.0 + 1) 0 - get_or list.now (row_place n a.0 to.0) 0 }
{
    let c = read::row(a.0, n, to.0);
    place(list[c + 1]) - place(list[c])
}

// The state of a cell.
fn state_of(w: u32) -> usize
    ensures { result ≡ state_of w }
{
    (w / List::UNIT) as usize
}

// What T has for it.
fn chance_of(w: u32) -> u64
    ensures { result ≡ chance_of w }
{
    (w % List::UNIT) as u64
}

// The sum of p(s) × T over the cells from a word on, so many.
fn down(list: &[u32], first: usize, count: usize, n: usize, p: &[u64]) -> u64
    requires n_le_max_states { n ≤ max_states }
    requires below { Below max_weight n p.now }
    requires column_stored { ColumnStored n list.now first count }
    ensures { result ≡ total_to n (λ s. weight_in p.now s * said_for list.now first count s) }
{
    let mut sum: u64 = 0;
    for i in 0..count {
        let w = list[first + i];
        sum = sums::add_moved(sum, p[state_of(w)], chance_of(w));
    }
    sum
}

// The sum over s of p(s) × T(s,a,s'), down the column of s'.
fn moved_to(list: &[u32], n: usize, p: &[u64], a: Action, to: State) -> u64
    requires n_le_max_states { (n ≤ max_states) × ((a.0 < max_actions) × (to.0 < n)) }
    requires below { Below max_weight n p.now }
    requires column_fits { ColumnFits n list.now (row_place n a.0 to.0) }
    ensures { result ≡ moved_said n list.now p.now a.0 to.0 }
{
    let first = first_of(list, n, a, to);
    let count = count_of(list, n, a, to);
    down(list, first, count, n, p)
}

// The same at each state reached.
pub fn moved(list: &[u32], n: usize, p: &[u64], a: Action) -> Weights
    requires n_le_max_states { (n ≤ max_states) × (a.0 < max_actions) }
    requires below { Below max_weight n p.now }
    requires columns_fit { ColumnsFit n list.now a.0 }
    ensures { result ≡ padded 0 max_states n (moved_said n list.now p.now a.0) }
{
    let mut u = [0u64; Tables::STATES];
    for to in 0..n {
        u[to] = moved_to(list, n, p, a, State(to));
    }
    u
}

// Adds T × x to the sum of each state that is among the cells from a word on, so many.
fn add_cells(list: &[u32], first: usize, count: usize, n: usize, x: i64, sums: &mut [i64])
    requires n_le_max_states { n ≤ max_states }
    requires column_stored { ColumnStored n list.now first count }
    requires n_in_bounds { n ≤ length sums.old }
    requires by_index { (s : ℕ) → s < n → nat_abs (get_or sums.old s (pos 0)) + said_for list.now first count s * nat_abs x < 2 ^ 63 }
    ensures { sums.new ≡ laid n
        (λ s. get_or sums.old s (pos 0) +ℤ said_for list.now first count s · x) sums.old }
{
    for i in 0..count {
        let w = list[first + i];
        let s = state_of(w);
        sums[s] = integers::add_scaled(sums[s], chance_of(w), x);
    }
}

// Adds T(s,a,s') × x to the sum of each state s, down the column of s'.
fn add_column(list: &[u32], n: usize, a: Action, to: State, x: i64, sums: &mut [i64])
    requires n_le_max_states { (n ≤ max_states) × ((a.0 < max_actions) × (to.0 < n)) }
    requires column_fits { ColumnFits n list.now (row_place n a.0 to.0) }
    requires n_in_bounds { n ≤ length sums.old }
    requires by_index { (s : ℕ) → s < n → nat_abs (get_or sums.old s (pos 0)) + turned_back n list.now s a.0 to.0 * nat_abs x < 2 ^ 63 }
    ensures { sums.new ≡ laid n
        (λ s. get_or sums.old s (pos 0) +ℤ turned_back n list.now s a.0 to.0 · x) sums.old }
{
    let first = first_of(list, n, a, to);
    let count = count_of(list, n, a, to);
    add_cells(list, first, count, n, x, sums);
}

// The sum over s' of T(s,a,s') × what is foreseen at s', at each state s.
fn onward(list: &[u32], n: usize, f: &[i64], a: Action) -> ByState
    requires n_le_max_states { (n ≤ max_states) × (a.0 < max_actions) }
    requires columns_fit { ColumnsFit n list.now a.0 }
    requires within { Within foreseen_limit n f.now }
    ensures { result ≡ padded (pos 0) max_states n (λ s. onward_said n list.now f.now s a.0) }
{
    let mut sums = [0i64; Tables::STATES];
    for to in 0..n {
        add_column(list, n, a, State(to), f[to], &mut sums);
    }
    sums
}

// The vector backup at each state.
pub fn backups(list: &[u32], reward: &[i64], f: &[i64], n: usize, g: u64, a: Action) -> ByState
    requires n_le_max_states { (n ≤ max_states) × ((a.0 < max_actions) × (g ≤ one)) }
    requires columns_fit { ColumnsFit n list.now a.0 }
    requires rewards_fit { RewardsFit n reward.now a.0 }
    requires within { Within foreseen_limit n f.now }
    ensures { result ≡ padded (pos 0) max_states n (backup_said n g list.now reward.now f.now a.0) }
{
    let later = onward(list, n, f, a);
    let mut e = [0i64; Tables::STATES];
    for s in 0..n {
        e[s] = vectors::backup_from(reward, n, g, later[s], State(s), a);
    }
    e
}

// Whether a state of the mask is among the cells from a word on, so many.
fn some_covered(list: &[u32], first: usize, count: usize, n: usize, mask: u64) -> bool
    requires n_le_max_states { n ≤ max_states }
    requires column_stored { ColumnStored n list.now first count }
    ensures { result ≡ some n (λ s. covered mask s && ltb 0 (said_for list.now first count s)) }
{
    for i in 0..count {
        let s = state_of(list[first + i]);
        if masks::covers(mask, State(s)) {
            return true;
        }
    }
    false
}

// Whether a state is reached, with T above 0, from one of a mask.
pub fn reached(list: &[u32], n: usize, mask: u64, a: Action, to: State) -> bool
    requires n_le_max_states { (n ≤ max_states) × ((a.0 < max_actions) × (to.0 < n)) }
    requires column_fits { ColumnFits n list.now (row_place n a.0 to.0) }
    ensures { result ≡ some n (λ s. covered mask s && ltb 0 (turned_back n list.now s a.0 to.0)) }
{
    let first = first_of(list, n, a, to);
    let count = count_of(list, n, a, to);
    some_covered(list, first, count, n, mask)
}

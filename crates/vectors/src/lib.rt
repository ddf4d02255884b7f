// What follows a vector: what its choices foresee at a state reached, and vector backups.
#![tactic(auto)]

ghost use Rattle.std.specs.Prelude.{◌≡◌, ◌≤◌, ◌<◌, length, get_or, pos, nat_abs, ◌+ℤ◌};
ghost use Rattle.integers.specs.Whole.{◌·◌, floor_div, Within};
ghost use Rattle.integers.specs.Cells.{padded};
ghost use Rattle.tables.specs.Limits.{max_states, max_actions, max_observations, one, K};
ghost use Rattle.tables.specs.Storage.{reward_in};
ghost use Rattle.sums.specs.Steps.{foreseen_in, onward_in, backup_in, foreseen_limit, onward_limit};
ghost use Rattle.sums.specs.Steps.{TransitionsFit, ObservationsFit, RewardsFit, ChosenFit};

use tables::{Action, ByState, Observation, State, Tables, Vector, read};

// The sum over o of O(a,s',o) × (entry at s' of the vector that v chooses for o, or 0 where it does not cover s').
fn foreseen_at(
    cells: &[u16],
    n: usize,
    k: usize,
    masks: &[u64],
    entries: &[i64],
    choices: &[u16],
    v: Vector,
    a: Action,
    to: State,
) -> i64
    requires n_le_max_states { (n ≤ max_states) × ((k ≤ max_observations) × ((a.0 < max_actions) × (to.0 < n))) }
    requires observations_fit { ObservationsFit n k cells.now a.0 }
    requires chosen_fit { ChosenFit n k masks.now entries.now choices.now v.0 }
    ensures { result ≡ foreseen_in n k cells.now masks.now entries.now choices.now v.0 a.0 to.0 }
{
    let mut sum: i64 = 0;
    for o in 0..k {
        let w = read::observation_at(cells, n, k, a, to, Observation(o));
        let e = masks::entry_at(
            masks,
            entries,
            n,
            read::choice_at(choices, k, v, Observation(o)),
            to,
        );
        sum = integers::add_scaled(sum, w, e);
    }
    sum
}

// The same at each state reached.
pub fn foreseen(
    cells: &[u16],
    n: usize,
    k: usize,
    masks: &[u64],
    entries: &[i64],
    choices: &[u16],
    v: Vector,
    a: Action,
) -> ByState
    requires n_le_max_states { (n ≤ max_states) × ((k ≤ max_observations) × (a.0 < max_actions)) }
    requires observations_fit { ObservationsFit n k cells.now a.0 }
    requires chosen_fit { ChosenFit n k masks.now entries.now choices.now v.0 }
    ensures { result
        ≡ padded (pos 0) max_states n (foreseen_in n k cells.now masks.now entries.now choices.now v.0 a.0) }
{
    let mut f = [0i64; Tables::STATES];
    for to in 0..n {
        f[to] = foreseen_at(cells, n, k, masks, entries, choices, v, a, State(to));
    }
    f
}

// The sum over s' of T(s,a,s') × what is foreseen at s'.
fn onward(cells: &[u16], n: usize, f: &[i64], s: State, a: Action) -> i64
    requires n_le_max_states { (n ≤ max_states) × ((a.0 < max_actions) × (s.0 < n)) }
    requires transitions_fit { TransitionsFit n cells.now a.0 }
    requires within { Within foreseen_limit n f.now }
    ensures { result ≡ onward_in n cells.now f.now s.0 a.0 }
{
    let mut sum: i64 = 0;
    for to in 0..n {
        let t = read::transition_at(cells, n, s, a, State(to));
        sum = integers::add_scaled(sum, t, f[to]);
    }
    sum
}

// K × R(s,a) + g × the sum onward, which is handed in.
pub fn backup_from(reward: &[i64], n: usize, g: u64, later: i64, s: State, a: Action) -> i64
    requires n_le_max_states { (n ≤ max_states) × ((a.0 < max_actions) × ((s.0 < n) × (g ≤ one))) }
    requires rewards_fit { RewardsFit n reward.now a.0 }
    requires later_bound { nat_abs later ≤ onward_limit }
    ensures { result ≡ K · reward_in n reward.now s.0 a.0 +ℤ g · later }
{
    let now = integers::scaled(Tables::K, read::reward_at(reward, n, s, a));
    integers::add_scaled(now, g, later)
}

// The vector backup: K × R(s,a) + g × the sum onward.
pub fn backup<'a>(
    transition: &'a [u16],
    reward: &'a [i64],
    n: usize,
    g: u64,
    f: &[i64],
    s: State,
    a: Action,
) -> i64
    requires n_le_max_states { (n ≤ max_states) × ((a.0 < max_actions) × ((s.0 < n) × (g ≤ one))) }
    requires transitions_fit { TransitionsFit n transition.now a.0 }
    requires rewards_fit { RewardsFit n reward.now a.0 }
    requires within { Within foreseen_limit n f.now }
    ensures { result ≡ backup_in n g transition.now reward.now f.now a.0 s.0 }
{
    let later = onward(transition, n, f, s, a);
    backup_from(reward, n, g, later, s, a)
}

// The same at each state.
pub fn backups<'a>(
    transition: &'a [u16],
    reward: &'a [i64],
    f: &[i64],
    n: usize,
    g: u64,
    a: Action,
) -> ByState
    requires n_le_max_states { (n ≤ max_states) × ((a.0 < max_actions) × (g ≤ one)) }
    requires transitions_fit { TransitionsFit n transition.now a.0 }
    requires rewards_fit { RewardsFit n reward.now a.0 }
    requires within { Within foreseen_limit n f.now }
    ensures { result ≡ padded (pos 0) max_states n (backup_in n g transition.now reward.now f.now a.0) }
{
    let mut e = [0i64; Tables::STATES];
    for s in 0..n {
        e[s] = backup(transition, reward, n, g, f, State(s), a);
    }
    e
}

// Backups over K, each rounded towards minus infinity.
pub fn floored(b: &[i64], n: usize) -> ByState
    requires { (n ≤ max_states) × (n ≤ length b.now) }
    ensures { result ≡ padded (pos 0) max_states n (λ s. floor_div (get_or b.now s (pos 0)) K) }
{
    let mut e = [0i64; Tables::STATES];
    for (s, backup) in b[..n].iter().enumerate() {
        e[s] = integers::floor_div(*backup, Tables::K);
    }
    e
}

// The vector backup over K at each state, rounded towards minus infinity.
pub fn rounded<'a>(
    transition: &'a [u16],
    reward: &'a [i64],
    f: &[i64],
    n: usize,
    g: u64,
    a: Action,
) -> ByState
    requires n_le_max_states { (n ≤ max_states) × ((a.0 < max_actions) × (g ≤ one)) }
    requires transitions_fit { TransitionsFit n transition.now a.0 }
    requires rewards_fit { RewardsFit n reward.now a.0 }
    requires within { Within foreseen_limit n f.now }
    ensures { result
        ≡ padded (pos 0) max_states n (λ s. floor_div (backup_in n g transition.now reward.now f.now a.0 s) K) }
{
    let b = backups(transition, reward, f, n, g, a);
    floored(&b, n)
}

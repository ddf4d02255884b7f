// Successor weights and expected rewards. The sums are regrouped so that each partial sum is worked out once: Σ_s p(s) × T(s,a,s') for an action.
#![tactic(auto)]

ghost use Rattle.std.specs.Prelude.{◌≡◌, ◌+◌, ◌*◌, ◌≤◌, ◌<◌};
ghost use Rattle.integers.specs.Whole.{Below};
ghost use Rattle.integers.specs.Cells.{padded};
ghost use Rattle.tables.specs.Limits.{max_states, max_actions, max_observations, one, max_weight};
ghost use Rattle.sums.specs.Steps.{moved_in, seen_in, expected_in, moved_limit, TransitionsFit, ObservationsFit, RewardsFit};

use tables::{Action, Observation, State, Tables, Weights, read};

// sum + p × t, of a weight and a transition
pub fn add_moved(sum: u64, p: u64, t: u64) -> u64
    requires { (sum ≤ moved_limit) × ((p ≤ max_weight) × (t ≤ one)) }
    ensures { result ≡ sum + p * t }
{
    sum + p * t
}

// The sum over s of p(s) × T(s,a,s').
fn moved_to(cells: &[u16], n: usize, p: &[u64], a: Action, to: State) -> u64
    requires n_le_max_states { (n ≤ max_states) × ((a.0 < max_actions) × (to.0 < n)) }
    requires below { Below max_weight n p.now }
    requires transitions_fit { TransitionsFit n cells.now a.0 }
    ensures { result ≡ moved_in n cells.now p.now a.0 to.0 }
{
    let mut sum: u64 = 0;
    for s in 0..n {
        let t = read::transition_at(cells, n, State(s), a, to);
        sum = add_moved(sum, p[s], t);
    }
    sum
}

// The same at each state reached.
pub fn moved(cells: &[u16], n: usize, p: &[u64], a: Action) -> Weights
    requires n_le_max_states { (n ≤ max_states) × (a.0 < max_actions) }
    requires below { Below max_weight n p.now }
    requires transitions_fit { TransitionsFit n cells.now a.0 }
    ensures { result ≡ padded 0 max_states n (moved_in n cells.now p.now a.0) }
{
    let mut u = [0u64; Tables::STATES];
    for to in 0..n {
        u[to] = moved_to(cells, n, p, a, State(to));
    }
    u
}

fn share(u: u64, o: u64) -> u64
    requires { (u ≤ moved_limit) × (o ≤ one) }
    ensures { result ≡ u * o }
{
    u * o
}

// The successor weights for an action and an observation, from what moved to each state.
pub fn successors(
    cells: &[u16],
    n: usize,
    k: usize,
    u: &[u64],
    a: Action,
    o: Observation,
) -> Weights
    requires n_le_max_states { (n ≤ max_states) × ((k ≤ max_observations) × ((a.0 < max_actions) × (o.0 < k))) }
    requires below { Below moved_limit n u.now }
    requires observations_fit { ObservationsFit n k cells.now a.0 }
    ensures { result ≡ padded 0 max_states n (seen_in n k cells.now u.now a.0 o.0) }
{
    let mut q = [0u64; Tables::STATES];
    for to in 0..n {
        q[to] = share(u[to], read::observation_at(cells, n, k, a, State(to), o));
    }
    q
}

// p · R(·,a)
pub fn expected_reward(cells: &[i64], n: usize, p: &[u64], a: Action) -> i64
    requires n_le_max_states { (n ≤ max_states) × (a.0 < max_actions) }
    requires below { Below max_weight n p.now }
    requires rewards_fit { RewardsFit n cells.now a.0 }
    ensures { result ≡ expected_in n cells.now p.now a.0 }
{
    let mut sum: i64 = 0;
    for s in 0..n {
        let r = read::reward_at(cells, n, State(s), a);
        sum = integers::add_scaled(sum, p[s], r);
    }
    sum
}

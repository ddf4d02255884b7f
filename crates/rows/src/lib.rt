// Upper bounds by rows, one for each action: a step of the fast informed bound and of QMDP. Rows lie as R does, by action and state.
#![tactic(auto)]

ghost use Rattle.std.specs.Prelude.{◌≡◌, List, ℕ, ◌*◌, ◌≤◌, ◌<◌, length, pos};
ghost use Rattle.integers.specs.Whole.{sum_to, Below};
ghost use Rattle.integers.specs.Cells.{padded, laid_rows};
ghost use Rattle.tables.specs.Limits.{max_states, max_actions, max_observations, one};
ghost use Rattle.tables.specs.Storage.{transition_in, entry_in, model_in};
ghost use Rattle.tables.specs.Steps.{EntriesFit};
ghost use Rattle.sums.specs.Steps.{TransitionsFit, ObservationsFit};
ghost use Rattle.plans.specs.Rows.{highest, informed_next, qmdp_next};
ghost use Rattle.rows.specs.Steps.{best_row_in, top_in, Ready, Seen};

use tables::{Action, ByState, Counts, Observation, State, Tables, Weights, read};

// T(s,a,·)
fn moves(transition: &[u16], n: usize, s: State, a: Action) -> Weights
    requires n_le_max_states { (n ≤ max_states) × ((a.0 < max_actions) × (s.0 < n)) }
    requires transitions_fit { TransitionsFit n transition.now a.0 }
    ensures { result ≡ padded 0 max_states n (transition_in n transition.now s.0 a.0) }
{
    let mut u = [0u64; Tables::STATES];
    for to in 0..n {
        u[to] = read::transition_at(transition, n, s, a, State(to));
    }
    u
}

// The sum over o of the best row's product with what is seen with o, from what moved to each state.
fn ahead(
    observation: &[u16],
    rows: &[i64],
    u: &[u64],
    n: usize,
    k: usize,
    m: usize,
    a: Action,
) -> i64
    requires n_le_max_states { (n ≤ max_states) × ((k ≤ max_observations) × ((a.0 < max_actions) × (0 < m))) }
    requires below { Below one n u.now }
    requires observations_fit { ObservationsFit n k observation.now a.0 }
    requires entries_fit { EntriesFit n m rows.now }
    ensures { result ≡ sum_to k (best_row_in n k m observation.now u.now rows.now a.0) }
{
    let mut sum: i64 = 0;
    for o in 0..k {
        let q = sums::successors(observation, n, k, u, a, Observation(o));
        sum = integers::plus(sum, products::largest_product(&q, rows, n, m));
    }
    sum
}

// The informed row of an action at a state, a level above.
fn informed_at<'a>(
    transition: &'a [u16],
    observation: &'a [u16],
    reward: &'a [i64],
    c: Counts,
    rows: &[i64],
    a: Action,
    s: State,
) -> i64
    requires a_lt_actions { (a.0 < c.actions) × (s.0 < c.states) }
    requires ready { Ready c transition.now reward.now rows.now }
    requires seen { Seen c observation.now }
    ensures { result ≡ informed_next (model_in c transition.now observation.now reward.now)
        (entry_in c.states rows.now) a.0 s.0 }
{
    let n = c.states;
    let u = moves(transition, n, s, a);
    let now = integers::scaled(Tables::K, read::reward_at(reward, n, s, a));
    let later = ahead(observation, rows, &u, n, c.observations, c.actions, a);
    integers::ceil_div(integers::add_scaled(now, c.discount, later), Tables::K)
}

// The informed rows, a level above.
pub fn step_informed<'a>(
    transition: &'a [u16],
    observation: &'a [u16],
    reward: &'a [i64],
    c: Counts,
    rows: &[i64],
    next: &mut [i64],
)
    requires ready { Ready c transition.now reward.now rows.now }
    requires seen { Seen c observation.now }
    requires states_in_bounds { c.actions * c.states ≤ length next.old }
    ensures { next.new ≡ laid_rows c.actions c.states
        (informed_next (model_in c transition.now observation.now reward.now)
        (entry_in c.states rows.now)) next.old }
{
    let n = c.states;
    let cells = c.actions * n;
    for i in 0..cells {
        next[i] = informed_at(
            transition,
            observation,
            reward,
            c,
            rows,
            Action(i / n),
            State(i % n),
        );
    }
}

// The largest of the rows' entries at a state.
fn highest_at(rows: &[i64], n: usize, m: usize, s: State) -> i64
    requires n_le_max_states { (n ≤ max_states) × ((s.0 < n) × ((0 < m) × (m ≤ max_actions))) }
    requires entries_fit { EntriesFit n m rows.now }
    ensures { result ≡ highest m (λ a. entry_in n rows.now a s.0) }
{
    let mut most = read::reward_at(rows, n, s, Action(0));
    for a in 1..m {
        let here = read::reward_at(rows, n, s, Action(a));
        if most < here {
            most = here;
        }
    }
    most
}

// 1,000 times it, at each state.
fn tops(rows: &[i64], n: usize, m: usize) -> ByState
    requires n_le_max_states { (n ≤ max_states) × ((0 < m) × (m ≤ max_actions)) }
    requires entries_fit { EntriesFit n m rows.now }
    ensures { result ≡ padded (pos 0) max_states n (top_in n m rows.now) }
{
    let mut f = [0i64; Tables::STATES];
    for s in 0..n {
        f[s] = integers::scaled(Tables::ONE, highest_at(rows, n, m, State(s)));
    }
    f
}

// The rows of QMDP, a level above: they read no observations.
pub fn step_qmdp<'a>(
    transition: &'a [u16],
    reward: &'a [i64],
    c: Counts,
    rows: &[i64],
    next: &mut [i64],
)
    requires ready { Ready c transition.now reward.now rows.now }
    requires states_in_bounds { c.actions * c.states ≤ length next.old }
    ensures { (observation : List ℕ) → next.new ≡ laid_rows c.actions c.states
        (qmdp_next (model_in c transition.now observation reward.now) (entry_in c.states rows.now)) next.old }
{
    let n = c.states;
    let cells = c.actions * n;
    let f = tops(rows, n, c.actions);
    for i in 0..cells {
        let b = vectors::backup(
            transition,
            reward,
            n,
            c.discount,
            &f,
            State(i % n),
            Action(i / n),
        );
        next[i] = integers::ceil_div(b, Tables::K);
    }
}

// ---- the rows of a certifier

// Both kinds of rows, a level above, over those that stand.
pub fn step<'a>(
    transition: &'a [u16],
    observation: &'a [u16],
    reward: &'a [i64],
    c: Counts,
    informed: &mut [i64],
    qmdp: &mut [i64],
)
    requires ready { (Ready c transition.now reward.now informed.old) × (Ready c transition.now reward.now qmdp.old) }
    requires seen { Seen c observation.now }
    ensures informed_after { informed.new ≡ laid_rows c.actions c.states
        (informed_next (model_in c transition.now observation.now reward.now)
        (entry_in c.states informed.old)) informed.old }
    ensures qmdp_after { qmdp.new ≡ laid_rows c.actions c.states
        (qmdp_next (model_in c transition.now observation.now reward.now)
        (entry_in c.states qmdp.old)) qmdp.old }
{
    let count = c.actions * c.states;
    let mut next = [0i64; Tables::ACTIONS * Tables::STATES];
    step_informed(transition, observation, reward, c, &informed[..], &mut next);
    cells::paste(informed, 0, &next, count);
    let mut above = [0i64; Tables::ACTIONS * Tables::STATES];
    step_qmdp(transition, reward, c, &qmdp[..], &mut above);
    cells::paste(qmdp, 0, &above, count);
}

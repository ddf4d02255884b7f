// Rewards stated by action, state, state reached and observation, as the one expected of each state and action: judged, then laid.
#![tactic(auto)]

ghost use Rattle.std.specs.Prelude.{◌≡◌, ◌*◌, ◌≤◌, ◌<◌, length};
ghost use Rattle.tables.specs.Limits.{max_converted, max_actions, max_observations};
ghost use Rattle.refusals.specs.Verdicts.{left};
ghost use Rattle.drafts.specs.Drafts.{outcome_place};
ghost use Rattle.expected.specs.Expected.{outcome_in, expected_millionths, is_whole, laid_expected, expected_verdict};
ghost use Rattle.expected.specs.Steps.{outcomes_in, SeenFit, ExpectReady};

use refusals::{Refusal, Verdict};
use tables::{Action, Counts, Observation, State, Tables, read};

// Where the reward of a, s, s' and o lies.
fn place(n: usize, k: usize, a: Action, s: State, to: State, o: Observation) -> usize
    requires n_le_max_converted { (n ≤ max_converted) × ((k ≤ max_observations) × (a.0 < max_actions)) }
    requires s_lt_n { (s.0 < n) × ((to.0 < n) × (o.0 < k)) }
    ensures { result ≡ outcome_place n k a.0 s.0 to.0 o.0 }
{
    let row = read::cell(read::row(a.0, n, s.0), n, to.0);
    row * k + o.0
}

// The reward there.
fn outcome_at(
    cells: &[i64],
    n: usize,
    k: usize,
    a: Action,
    s: State,
    to: State,
    o: Observation,
) -> i64
    requires n_le_max_converted { (n ≤ max_converted) × ((k ≤ max_observations) × (a.0 < max_actions)) }
    requires s_lt_n { (s.0 < n) × ((to.0 < n) × (o.0 < k)) }
    requires o_in_bounds { outcome_place n k a.0 s.0 to.0 o.0 < length cells.now }
    ensures { result ≡ outcome_in n k cells.now a.0 s.0 to.0 o.0 }
{
    let at = place(n, k, a, s, to, o);
    cells[at]
}

// The sum over o of O(a,s',o) × the reward of a, s, s' and o.
fn seen(
    observation: &[u16],
    outcomes: &[i64],
    n: usize,
    k: usize,
    a: Action,
    s: State,
    to: State,
) -> i64
    requires { SeenFit n k observation.now outcomes.now a.0 s.0 to.0 }
    ensures { result ≡ outcomes_in n k observation.now outcomes.now a.0 s.0 to.0 }
{
    let mut sum: i64 = 0;
    for o in 0..k {
        let w = read::observation_at(observation, n, k, a, to, Observation(o));
        let r = outcome_at(outcomes, n, k, a, s, to, Observation(o));
        sum = integers::add_scaled(sum, w, r);
    }
    sum
}

// The sum over s' of T(s,a,s') × it.
fn millionths(
    transition: &[u16],
    observation: &[u16],
    outcomes: &[i64],
    c: Counts,
    a: Action,
    s: State,
) -> i64
    requires a_lt_actions { (a.0 < c.actions) × (s.0 < c.states) }
    requires expect_ready { ExpectReady c transition.now observation.now outcomes.now }
    ensures { result ≡ expected_millionths c transition.now observation.now outcomes.now s.0 a.0 }
{
    let n = c.states;
    let k = c.observations;
    let mut sum: i64 = 0;
    for to in 0..n {
        let t = read::transition_at(transition, n, s, a, State(to));
        let r = seen(observation, outcomes, n, k, a, s, State(to));
        sum = integers::add_scaled(sum, t, r);
    }
    sum
}

fn is_whole(x: i64) -> bool
    ensures { result ≡ is_whole x }
{
    integers::magnitude(x) % (Tables::ONE * Tables::ONE) == 0
}

// 26: the first expected reward, by action and then by state, that is not a whole number of ticks.
fn judge(transition: &[u16], observation: &[u16], outcomes: &[i64], c: Counts) -> Verdict
    requires { ExpectReady c transition.now observation.now outcomes.now }
    ensures { result ≡ expected_verdict c transition.now observation.now outcomes.now }
{
    let n = c.states;
    let m = c.actions;
    for a in 0..m {
        for s in 0..n {
            let x = millionths(transition, observation, outcomes, c, Action(a), State(s));
            if !is_whole(x) {
                return Err(Refusal(26, read::row(a, n, s)));
            }
        }
    }
    Ok(())
}

// The expected rewards, by action and state, over the first cells of `reward`.
fn lay(transition: &[u16], observation: &[u16], outcomes: &[i64], c: Counts, reward: &mut [i64])
    requires expect_ready { ExpectReady c transition.now observation.now outcomes.now }
    requires states_in_bounds { c.actions * c.states ≤ length reward.old }
    ensures { reward.new
        ≡ laid_expected c transition.now observation.now outcomes.now reward.old }
{
    let n = c.states;
    let cells = c.actions * n;
    for i in 0..cells {
        let x = millionths(
            transition,
            observation,
            outcomes,
            c,
            Action(i / n),
            State(i % n),
        );
        reward[i] = integers::floor_div(x, Tables::ONE * Tables::ONE);
    }
}

// 26, then the expected rewards: a refusal leaves `reward` as it was.
pub fn expect(
    transition: &[u16],
    observation: &[u16],
    outcomes: &[i64],
    c: Counts,
    reward: &mut [i64],
) -> Verdict
    requires expect_ready { ExpectReady c transition.now observation.now outcomes.now }
    requires states_in_bounds { c.actions * c.states ≤ length reward.old }
    ensures value { result ≡ expected_verdict c transition.now observation.now outcomes.now }
    ensures reward_after { reward.new ≡ left (expected_verdict c transition.now observation.now outcomes.now)
        (laid_expected c transition.now observation.now outcomes.now reward.old)
        reward.old }
{
    judge(transition, observation, outcomes, c)?;
    lay(transition, observation, outcomes, c, reward);
    Ok(())
}

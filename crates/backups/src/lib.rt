// What each action allows at some weights, from a standing level.
#![tactic(auto)]

ghost use Rattle.std.specs.Prelude.{◌≡◌, ◌≤◌, ◌<◌, length, set, replicate, pos};
ghost use Rattle.integers.specs.Whole.{sum_to, Below};
ghost use Rattle.integers.specs.Cells.{padded};
ghost use Rattle.tables.specs.Limits.{max_states, max_actions, max_observations, one};
ghost use Rattle.tables.specs.Steps.{rows_to};
ghost use Rattle.sums.specs.Steps.{seen_in, ObservationsFit, RewardsFit, moved_limit};
ghost use Rattle.columns.specs.Steps.{Lists};
ghost use Rattle.engines.specs.Steps.{EngineFits};
ghost use Rattle.plans.specs.Limits.{max_points, max_total};
ghost use Rattle.plans.specs.Level.{corner_weight, IsPoint};
ghost use Rattle.levels.specs.Storage.{point_in};
ghost use Rattle.sawtooth.specs.Steps.{ceiling_in, CornersFit, PointsFit, max_gain};
ghost use Rattle.backups.specs.Steps.{backup_at_in, Ahead, RoofFits, Roof, Allowed, Light};

use tables::{Action, Counts, Observation, State, Tables, Weights};

// What each action allows, at some weights.
pub type Backups = [i64; Tables::ACTIONS];

// The sum over o of the ceiling at the successor weights, from what moved to each state.
fn ceilings<'a>(
    observation: &[u16],
    u: &[u64],
    corners: &'a [i64],
    weights: &'a [u32],
    gains: &[u64],
    n: usize,
    k: usize,
    points: usize,
    a: Action,
) -> i64
    requires n_le_max_states { (n ≤ max_states) × ((k ≤ max_observations) × (a.0 < max_actions)) }
    requires below { Below moved_limit n u.now }
    requires observations_fit { ObservationsFit n k observation.now a.0 }
    requires corners_fit { CornersFit n corners.now }
    requires points_fit { PointsFit n points weights.now }
    requires below_2 { Below max_gain points gains.now }
    requires ahead { Ahead n k observation.now u.now (ceiling_in n corners.now weights.now gains.now points) a.0 }
    ensures { result ≡ sum_to k (λ o. ceiling_in n corners.now weights.now gains.now points
        (padded 0 max_states n (seen_in n k observation.now u.now a.0 o))) }
{
    let mut sum: i64 = 0;
    for o in 0..k {
        let q = sums::successors(observation, n, k, u, a, Observation(o));
        sum = integers::plus(
            sum,
            ceilings::ceiling(&q, corners, weights, gains, points, n),
        );
    }
    sum
}

// The least K × value at weights p that an action allows.
fn backup_at<'a, 'b>(
    transition: &'a [u16],
    list: &[u32],
    observation: &'a [u16],
    reward: &'a [i64],
    corners: &'b [i64],
    weights: &'b [u32],
    gains: &[u64],
    p: &[u64],
    c: Counts,
    points: usize,
    a: Action,
) -> i64
    requires states_le_max_states { (c.states ≤ max_states) × ((c.observations ≤ max_observations) × ((a.0 < max_actions) × (c.discount ≤ one))) }
    requires below { Below max_total c.states p.now }
    requires engine_fits { (EngineFits c.states transition.now list.now a.0) ×
        ((ObservationsFit c.states c.observations observation.now a.0) × (RewardsFit c.states reward.now a.0)) }
    requires corners_fit { (CornersFit c.states corners.now) × ((PointsFit c.states points weights.now) × (Below max_gain points gains.now)) }
    requires roof_fits { RoofFits c.states c.observations transition.now observation.now
        (ceiling_in c.states corners.now weights.now gains.now points) p.now a.0 }
    ensures { result ≡ backup_at_in c transition.now observation.now reward.now
        (ceiling_in c.states corners.now weights.now gains.now points) p.now a.0 }
{
    let n = c.states;
    let u = engines::moved(transition, list, n, p, a);
    let now = integers::scaled(Tables::K, sums::expected_reward(reward, n, p, a));
    let ahead = ceilings(
        observation,
        &u,
        corners,
        weights,
        gains,
        n,
        c.observations,
        points,
        a,
    );
    integers::add_scaled(now, c.discount, ahead)
}

// The same for each action.
fn backups_at<'a, 'b>(
    transition: &'a [u16],
    list: &[u32],
    observation: &'a [u16],
    reward: &'a [i64],
    corners: &'b [i64],
    weights: &'b [u32],
    gains: &[u64],
    p: &[u64],
    c: Counts,
    points: usize,
) -> Backups
    requires roof { Roof c transition.now observation.now reward.now corners.now weights.now gains.now points }
    requires light { Light c.states p.now }
    requires lists { Lists c transition.now list.now }
    ensures { result ≡ padded (pos 0) max_actions c.actions (backup_at_in c transition.now observation.now
        reward.now (ceiling_in c.states corners.now weights.now gains.now points) p.now) }
{
    let actions = c.actions;
    let mut backups = [0i64; Tables::ACTIONS];
    for a in 0..actions {
        backups[a] = backup_at(
            transition,
            list,
            observation,
            reward,
            corners,
            weights,
            gains,
            p,
            c,
            points,
            Action(a),
        );
    }
    backups
}

// Weight 1 on one state.
pub fn corner_weights(s: State) -> Weights
    requires { s.0 < max_states }
    ensures { result ≡ set (replicate max_states 0) s.0 1 }
{
    let i = s.0;
    let mut p = [0u64; Tables::STATES];
    p[i] = 1;
    p
}

// What each action allows at a corner.
pub fn at_corner<'a, 'b>(
    transition: &'a [u16],
    list: &[u32],
    observation: &'a [u16],
    reward: &'a [i64],
    corners: &'b [i64],
    weights: &'b [u32],
    gains: &[u64],
    c: Counts,
    points: usize,
    s: State,
) -> Backups
    requires roof { Roof c transition.now observation.now reward.now corners.now weights.now gains.now points }
    requires s_lt_states { s.0 < c.states }
    requires lists { Lists c transition.now list.now }
    ensures { Allowed c transition.now observation.now reward.now
        (ceiling_in c.states corners.now weights.now gains.now points) (corner_weight s.0) result }
{
    let p = corner_weights(s);
    backups_at(
        transition,
        list,
        observation,
        reward,
        corners,
        weights,
        gains,
        &p,
        c,
        points,
    )
}

// What each action allows at point i of those given.
pub fn at_point<'a, 'b>(
    transition: &'a [u16],
    list: &[u32],
    observation: &'a [u16],
    reward: &'a [i64],
    corners: &'b [i64],
    weights: &'b [u32],
    gains: &[u64],
    given: &[u32],
    c: Counts,
    points: usize,
    i: usize,
) -> Backups
    requires roof { Roof c transition.now observation.now reward.now corners.now weights.now gains.now points }
    requires i_lt_max_points { (i < max_points) × (rows_to c.states i ≤ length given.now) }
    requires point { IsPoint c.states (point_in c.states given.now i) }
    requires lists { Lists c transition.now list.now }
    ensures { Allowed c transition.now observation.now reward.now
        (ceiling_in c.states corners.now weights.now gains.now points)
        (point_in c.states given.now i) result }
{
    let p = weights::point_weights(given, c.states, i);
    backups_at(
        transition,
        list,
        observation,
        reward,
        corners,
        weights,
        gains,
        &p,
        c,
        points,
    )
}

// The least corners and point values that meet their inequalities, over a standing level.
#![tactic(auto)]

ghost use Rattle.std.specs.Prelude.{◌≡◌, ℕ, ◌*◌, ◌≤◌, ◌<◌, length};
ghost use Rattle.integers.specs.Cells.{laid};
ghost use Rattle.tables.specs.Storage.{model_in};
ghost use Rattle.plans.specs.Limits.{max_built};
ghost use Rattle.plans.specs.Level.{Level, corner_weight, IsPoint};
ghost use Rattle.plans.specs.Build.{least_value};
ghost use Rattle.levels.specs.Storage.{roof_in, point_in};
ghost use Rattle.columns.specs.Steps.{Lists};
ghost use Rattle.sawtooth.specs.Steps.{ceiling_in};
ghost use Rattle.backups.specs.Steps.{Roof, CeilingOf, Roofed};
ghost use Rattle.roofing.specs.Steps.{least_roof};

use tables::{Counts, State, Tables};

// The least whole number that meets the inequality of every action, from what each allows.
fn least_of(backups: &[i64], actions: usize) -> i64
    requires { (0 < actions) × (actions ≤ length backups.now) }
    ensures { result ≡ least_roof actions backups.now }
{
    let mut most = integers::ceil_div(backups[0], Tables::K);
    for backup in &backups[1..actions] {
        let here = integers::ceil_div(*backup, Tables::K);
        if most < here {
            most = here;
        }
    }
    most
}

// The least corners that meet their inequalities.
fn build_corners<'a, 'b>(
    transition: &'a [u16],
    list: &[u32],
    observation: &'a [u16],
    reward: &'a [i64],
    corners: &'b [i64],
    weights: &'b [u32],
    gains: &[u64],
    c: Counts,
    points: usize,
    least: &mut [i64],
)
    requires roof { Roof c transition.now observation.now reward.now corners.now weights.now gains.now points }
    requires states_in_bounds { c.states ≤ length least.old }
    requires lists { Lists c transition.now list.now }
    ensures { (L : Level) → CeilingOf c.states
        (ceiling_in c.states corners.now weights.now gains.now points) L
        → least.new ≡ laid c.states (λ s. least_value
        (model_in c transition.now observation.now reward.now) L (corner_weight s)) least.old }
{
    let n = c.states;
    for s in 0..n {
        let backups = backups::at_corner(
            transition,
            list,
            observation,
            reward,
            corners,
            weights,
            gains,
            c,
            points,
            State(s),
        );
        least[s] = least_of(&backups, c.actions);
    }
}

// The least point values that meet their inequalities.
fn build_values<'a, 'b>(
    transition: &'a [u16],
    list: &[u32],
    observation: &'a [u16],
    reward: &'a [i64],
    corners: &'b [i64],
    weights: &'b [u32],
    gains: &[u64],
    given: &[u32],
    c: Counts,
    points: usize,
    count: usize,
    least: &mut [i64],
)
    requires roof { Roof c transition.now observation.now reward.now corners.now weights.now gains.now points }
    requires count_le_max_built { (count ≤ max_built) × (count * c.states ≤ length given.now) }
    requires by_index { (i : ℕ) → i < count → IsPoint c.states (point_in c.states given.now i) }
    requires count_in_bounds { count ≤ length least.old }
    requires lists { Lists c transition.now list.now }
    ensures { (L : Level) → CeilingOf c.states
        (ceiling_in c.states corners.now weights.now gains.now points) L
        → least.new ≡ laid count (λ i. least_value
        (model_in c transition.now observation.now reward.now) L (point_in c.states given.now i))
        least.old }
{
    for i in 0..count {
        let backups = backups::at_point(
            transition,
            list,
            observation,
            reward,
            corners,
            weights,
            gains,
            given,
            c,
            points,
            i,
        );
        least[i] = least_of(&backups, c.actions);
    }
}

// Both, the values at the points that are given: the gains of the standing level are worked out once for them.
pub fn build_roof<'a, 'b>(
    transition: &'a [u16],
    list: &[u32],
    observation: &'a [u16],
    reward: &'a [i64],
    corners: &'b [i64],
    weights: &'b [u32],
    values: &'b [i64],
    given: &[u32],
    c: Counts,
    points: usize,
    count: usize,
    least: &mut [i64],
    worths: &mut [i64],
)
    requires roofed { Roofed c transition.now observation.now reward.now corners.now points weights.now values.now }
    requires count_le_max_built { (count ≤ max_built) × (count * c.states ≤ length given.now) }
    requires by_index { (i : ℕ) → i < count → IsPoint c.states (point_in c.states given.now i) }
    requires states_in_bounds { (c.states ≤ length least.old) × (count ≤ length worths.old) }
    requires lists { Lists c transition.now list.now }
    ensures least_after { least.new ≡ laid c.states (λ s. least_value
        (model_in c transition.now observation.now reward.now)
        (roof_in c.states corners.now points weights.now values.now) (corner_weight s)) least.old }
    ensures worths_after { worths.new ≡ laid count (λ i. least_value
        (model_in c transition.now observation.now reward.now)
        (roof_in c.states corners.now points weights.now values.now) (point_in c.states given.now i))
        worths.old }
{
    let gains = ceilings::gains(corners, weights, values, points, c.states);
    build_corners(
        transition,
        list,
        observation,
        reward,
        corners,
        weights,
        &gains,
        c,
        points,
        least,
    );
    build_values(
        transition,
        list,
        observation,
        reward,
        corners,
        weights,
        &gains,
        given,
        c,
        points,
        count,
        worths,
    );
}

// The backup inequalities of an offered level's ceiling: corners (14) and points (15).
#![tactic(auto)]

ghost use Rattle.std.specs.Prelude.{◌≡◌, [], ℕ, ◌*◌, ◌≤◌, ◌<◌, length, get_or, pos, nat_abs};
ghost use Rattle.std.specs.Int.Signed.{le_z};
ghost use Rattle.integers.specs.Whole.{◌·◌};
ghost use Rattle.integers.specs.Search.{every};
ghost use Rattle.tables.specs.Limits.{max_entry, K};
ghost use Rattle.tables.specs.Storage.{model_in};
ghost use Rattle.refusals.specs.Verdicts.{◌before◌};
ghost use Rattle.plans.specs.Limits.{max_total};
ghost use Rattle.plans.specs.Level.{Level, IsPoint};
ghost use Rattle.levels.specs.Storage.{point_in, roof_in};
ghost use Rattle.levels.specs.Judged.{corners_verdict, points_verdict};
ghost use Rattle.sawtooth.specs.Steps.{ceiling_in, CornersFit, PointsFit, ValuesFit};
ghost use Rattle.columns.specs.Steps.{Lists};
ghost use Rattle.backups.specs.Steps.{Roof, CeilingOf, Roofed};

use refusals::{Refusal, Verdict};
use tables::{Counts, State, Tables};

// Whether a value is at least every action's backup.
fn covers(backups: &[i64], actions: usize, w: i64) -> bool
    requires actions_in_bounds { actions ≤ length backups.now }
    requires w_bound { nat_abs w ≤ max_total * max_entry }
    ensures { result ≡ every actions (λ a. le_z (get_or backups.now a (pos 0)) (K · w)) }
{
    let most = integers::scaled(Tables::K, w);
    for a in 0..actions {
        if most < backups[a] {
            return false;
        }
    }
    true
}

// 14: the first corner below its backup.
fn corners_hold<'a, 'b>(
    transition: &'a [u16],
    list: &[u32],
    observation: &'a [u16],
    reward: &'a [i64],
    corners: &'b [i64],
    weights: &'b [u32],
    gains: &[u64],
    offered: &[i64],
    c: Counts,
    points: usize,
) -> Verdict
    requires roof { Roof c transition.now observation.now reward.now corners.now weights.now gains.now points }
    requires corners_fit { CornersFit c.states offered.now }
    requires lists { Lists c transition.now list.now }
    ensures { (L : Level) → CeilingOf c.states
        (ceiling_in c.states corners.now weights.now gains.now points) L
        → result ≡ corners_verdict (model_in c transition.now observation.now reward.now) L
        (roof_in c.states offered.now 0 [] []) }
{
    let n = c.states;
    for s in 0..n {
        let backups = backups::at_corner(
            transition,
            list,
            observation,
            reward,
            corners,
            weights,
            gains,
            c,
            points,
            State(s),
        );
        if !covers(&backups, c.actions, offered[s]) {
            return Err(Refusal(14, s));
        }
    }
    Ok(())
}

// 15: the first point below its backup.
fn points_hold<'a, 'b, 'c>(
    transition: &'a [u16],
    list: &[u32],
    observation: &'a [u16],
    reward: &'a [i64],
    corners: &'b [i64],
    weights: &'b [u32],
    gains: &[u64],
    offered: &'c [u32],
    at: &'c [i64],
    c: Counts,
    points: usize,
    count: usize,
) -> Verdict
    requires roof { Roof c transition.now observation.now reward.now corners.now weights.now gains.now points }
    requires points_fit { PointsFit c.states count offered.now }
    requires values_fit { ValuesFit count at.now }
    requires by_index { (i : ℕ) → i < count → IsPoint c.states (point_in c.states offered.now i) }
    requires lists { Lists c transition.now list.now }
    ensures { (L : Level) → CeilingOf c.states
        (ceiling_in c.states corners.now weights.now gains.now points) L
        → result ≡ points_verdict (model_in c transition.now observation.now reward.now) L
        (roof_in c.states [] count offered.now at.now) }
{
    for i in 0..count {
        let backups = backups::at_point(
            transition,
            list,
            observation,
            reward,
            corners,
            weights,
            gains,
            offered,
            c,
            points,
            i,
        );
        if !covers(&backups, c.actions, at[i]) {
            return Err(Refusal(15, i));
        }
    }
    Ok(())
}

// 14, then 15: the gains of the standing level are worked out once for both.
pub fn roof_holds<'a, 'b, 'c>(
    transition: &'a [u16],
    list: &[u32],
    observation: &'a [u16],
    reward: &'a [i64],
    corners: &'b [i64],
    weights: &'b [u32],
    values: &'b [i64],
    newcorners: &'c [i64],
    newweights: &'c [u32],
    newvalues: &'c [i64],
    c: Counts,
    points: usize,
    count: usize,
) -> Verdict
    requires roofed { Roofed c transition.now observation.now reward.now corners.now points weights.now values.now }
    requires roofed_2 { Roofed c transition.now observation.now reward.now newcorners.now count newweights.now newvalues.now }
    requires lists { Lists c transition.now list.now }
    ensures { let M = model_in c transition.now observation.now reward.now in
        let L = roof_in c.states corners.now points weights.now values.now in
        let W = roof_in c.states newcorners.now count newweights.now newvalues.now in
        result ≡ (corners_verdict M L W before points_verdict M L W) }
{
    let gains = ceilings::gains(corners, weights, values, points, c.states);
    corners_hold(
        transition,
        list,
        observation,
        reward,
        corners,
        weights,
        &gains,
        newcorners,
        c,
        points,
    )?;
    points_hold(
        transition,
        list,
        observation,
        reward,
        corners,
        weights,
        &gains,
        newweights,
        newvalues,
        c,
        points,
        count,
    )
}

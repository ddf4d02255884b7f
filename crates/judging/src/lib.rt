// What an offer to a certifier is refused for, 7 to 15 and 21. Tables, the standing level and the offered one are lent; nothing is written.
#![tactic(auto)]

ghost use Rattle.std.specs.Prelude.{◌≡◌, true, ◌*◌, ◌≤◌, length};
ghost use Rattle.refusals.specs.Verdicts.{Fine, ◌before◌};
ghost use Rattle.tables.specs.Limits.{max_states, max_observations, max_vectors, max_levels};
ghost use Rattle.tables.specs.Storage.{model_of, tables_in};
ghost use Rattle.plans.specs.Limits.{max_points};
ghost use Rattle.columns.specs.Columns.{list_holds, handed_list};
ghost use Rattle.levels.specs.Storage.{cells, rows, lent_for, level_in, level_of, lent, standing_in};
ghost use Rattle.levels.specs.Judged.{level_verdict, shape_verdict, backups_verdict, offer_verdict};

use levels::{Level, shape};
use refusals::{Refusal, Verdict};
use tables::Counts;

// 10 to 12: the numbers of an offered level by themselves, at level t over so many standing vectors.
fn judge_level<'a>(
    actions: &'a [u8],
    choices: &'a [u16],
    masks: &'a [u64],
    entries: &'a [i64],
    corners: &'a [i64],
    weights: &'a [u32],
    values: &'a [i64],
    c: Counts,
    vectors: usize,
    points: usize,
    standing: usize,
    t: usize,
) -> Verdict
    requires states_le_max_states { (c.states ≤ max_states) × ((c.observations ≤ max_observations) × ((vectors ≤ max_vectors) ×
        ((points ≤ max_points) × (t ≤ max_levels)))) }
    requires vectors_in_bounds { (vectors ≤ length actions.now) × ((vectors * c.observations ≤ length choices.now) × ((vectors ≤ length masks.now) ×
        (vectors * c.states ≤ length entries.now))) }
    requires states_in_bounds { (c.states ≤ length corners.now) × ((points * c.states ≤ length weights.now) × (points ≤ length values.now)) }
    ensures { result ≡ level_verdict c.states c.actions c.observations t standing (level_in c.states c.observations vectors
        actions.now choices.now masks.now entries.now corners.now points weights.now
        values.now) }
{
    shape::numbers_exist(
        actions,
        choices,
        vectors,
        c.actions,
        c.observations,
        standing,
        10,
    )?;
    standing::ranges_hold(
        masks, entries, corners, weights, values, c.states, vectors, points, t,
    )?;
    weights::weights_hold(weights, c.states, points)
}

// 7 to 12: the certifier and the offered level by themselves.
fn judge_shape<'a, 'b, 'c>(
    transition: &'a [u16],
    observation: &'a [u16],
    reward: &'a [i64],
    c: Counts,
    state: &'b [usize],
    actions: &'b [u8],
    choices: &'b [u16],
    masks: &'b [u64],
    entries: &'b [i64],
    corners: &'b [i64],
    weights: &'b [u32],
    values: &'b [i64],
    informed: &'b [i64],
    qmdp: &'b [i64],
    vectors: usize,
    points: usize,
    newactions: &'c [u8],
    newchoices: &'c [u16],
    newmasks: &'c [u64],
    newentries: &'c [i64],
    newcorners: &'c [i64],
    newweights: &'c [u32],
    newvalues: &'c [i64],
) -> Verdict
    ensures { let m = tables_in c transition.now observation.now reward.now in
        let x = lent state.now (cells actions.now choices.now masks.now entries.now
        corners.now weights.now values.now) (rows informed.now qmdp.now) in
        let l = lent_for vectors points (cells newactions.now newchoices.now newmasks.now newentries.now
        newcorners.now newweights.now newvalues.now) in
        result ≡ shape_verdict m x l }
{
    if !standing::standing_holds(
        transition,
        observation,
        reward,
        c,
        state,
        actions,
        masks,
        entries,
        corners,
        weights,
        values,
        informed,
        qmdp,
    ) {
        return Err(Refusal(7, 0));
    }
    let s = levels::standing_in(state);
    if Level::LEVELS <= s.number {
        return Err(Refusal(8, 0));
    }
    if !shape::counts_hold(vectors, points) {
        return Err(Refusal(9, 0));
    }
    if !shape::complete(
        c.states,
        c.observations,
        vectors,
        points,
        newactions.len(),
        newchoices.len(),
        newmasks.len(),
        newentries.len(),
        newcorners.len(),
        newweights.len(),
        newvalues.len(),
    ) {
        return Err(Refusal(9, 0));
    }
    if !shape::complete(
        c.states,
        c.observations,
        vectors,
        points,
        actions.len(),
        choices.len(),
        masks.len(),
        entries.len(),
        corners.len(),
        weights.len(),
        values.len(),
    ) {
        return Err(Refusal(9, 0));
    }
    judge_level(
        newactions,
        newchoices,
        newmasks,
        newentries,
        newcorners,
        newweights,
        newvalues,
        c,
        vectors,
        points,
        s.vectors,
        s.number + 1,
    )
}

// 21, then 13 to 15: the masks and the backup inequalities.
fn judge_backups<'a, 'b, 'c>(
    transition: &'a [u16],
    list: &[u32],
    observation: &'a [u16],
    reward: &'a [i64],
    c: Counts,
    state: &'b [usize],
    actions: &'b [u8],
    choices: &'b [u16],
    masks: &'b [u64],
    entries: &'b [i64],
    corners: &'b [i64],
    weights: &'b [u32],
    values: &'b [i64],
    informed: &'b [i64],
    qmdp: &'b [i64],
    vectors: usize,
    points: usize,
    newactions: &'c [u8],
    newchoices: &'c [u16],
    newmasks: &'c [u64],
    newentries: &'c [i64],
    newcorners: &'c [i64],
    newweights: &'c [u32],
    newvalues: &'c [i64],
) -> Verdict
    requires newvalues_value { shape_verdict (tables_in c transition.now observation.now reward.now)
        (lent state.now (cells actions.now choices.now masks.now entries.now corners.now weights.now values.now)
        (rows informed.now qmdp.now))
        (lent_for vectors points (cells newactions.now newchoices.now newmasks.now newentries.now newcorners.now newweights.now
        newvalues.now)) ≡ Fine }
    requires list_value { list_holds (tables_in c transition.now observation.now reward.now) list.now ≡ true }
    ensures { let m = tables_in c transition.now observation.now reward.now in
        let x = lent state.now (cells actions.now choices.now masks.now entries.now
        corners.now weights.now values.now) (rows informed.now qmdp.now) in
        let l = lent_for vectors points (cells newactions.now newchoices.now newmasks.now newentries.now
        newcorners.now newweights.now newvalues.now) in
        result ≡ backups_verdict (model_of m) (level_of m (standing_in x)) (level_of m l) }
{
    let s = levels::standing_in(state);
    reaches::masks_hold(
        transition,
        list,
        observation,
        masks,
        newactions,
        newchoices,
        newmasks,
        c,
        vectors,
    )?;
    floors::floors_hold(
        transition,
        list,
        observation,
        reward,
        masks,
        entries,
        newactions,
        newchoices,
        newmasks,
        newentries,
        c,
        vectors,
    )?;
    roofs::roof_holds(
        transition,
        list,
        observation,
        reward,
        corners,
        weights,
        values,
        newcorners,
        newweights,
        newvalues,
        c,
        s.points,
        points,
    )
}

// 7 to 12, 21, 13 to 15; 7 also of the list of transitions, where one is lent.
pub fn judge_offer<'a, 'b, 'c>(
    transition: &'a [u16],
    list: &[u32],
    observation: &'a [u16],
    reward: &'a [i64],
    c: Counts,
    state: &'b [usize],
    actions: &'b [u8],
    choices: &'b [u16],
    masks: &'b [u64],
    entries: &'b [i64],
    corners: &'b [i64],
    weights: &'b [u32],
    values: &'b [i64],
    informed: &'b [i64],
    qmdp: &'b [i64],
    vectors: usize,
    points: usize,
    newactions: &'c [u8],
    newchoices: &'c [u16],
    newmasks: &'c [u64],
    newentries: &'c [i64],
    newcorners: &'c [i64],
    newweights: &'c [u32],
    newvalues: &'c [i64],
) -> Verdict
    ensures { let m = tables_in c transition.now observation.now reward.now in
        let x = lent state.now (cells actions.now choices.now masks.now entries.now
        corners.now weights.now values.now) (rows informed.now qmdp.now) in
        let l = lent_for vectors points (cells newactions.now newchoices.now newmasks.now newentries.now
        newcorners.now newweights.now newvalues.now) in
        result ≡ (handed_list m list.now before offer_verdict m x l) }
{
    if !lists::holds(transition, list, observation, reward, c) {
        return Err(Refusal(7, 0));
    }
    judge_shape(
        transition,
        observation,
        reward,
        c,
        state,
        actions,
        choices,
        masks,
        entries,
        corners,
        weights,
        values,
        informed,
        qmdp,
        vectors,
        points,
        newactions,
        newchoices,
        newmasks,
        newentries,
        newcorners,
        newweights,
        newvalues,
    )?;
    judge_backups(
        transition,
        list,
        observation,
        reward,
        c,
        state,
        actions,
        choices,
        masks,
        entries,
        corners,
        weights,
        values,
        informed,
        qmdp,
        vectors,
        points,
        newactions,
        newchoices,
        newmasks,
        newentries,
        newcorners,
        newweights,
        newvalues,
    )
}

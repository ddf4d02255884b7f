// Building the next level over slices that are lent for it, or a refusal, which writes nothing.
#![tactic(auto)]

ghost use Rattle.std.specs.Prelude.{◌≡◌, true, ◌&&◌, List, ℕ, ◌+◌, ◌*◌, ◌<◌, leb, ltb, length};
ghost use Rattle.tables.specs.Tables.{Tables};
ghost use Rattle.tables.specs.Limits.{max_levels};
ghost use Rattle.tables.specs.Storage.{tables_in, model_of};
ghost use Rattle.refusals.specs.Verdicts.{◌before◌, unless, left};
ghost use Rattle.plans.specs.Limits.{max_built};
ghost use Rattle.plans.specs.Build.{some_covers_all};
ghost use Rattle.columns.specs.Columns.{list_holds, handed_list};
ghost use Rattle.levels.specs.Storage.{Lent, cells, rows, lent, level_of, standing_at, standing_in, point_in, long_enough};
ghost use Rattle.levels.specs.Judged.{holds, weights_verdict};
ghost use Rattle.runs.specs.State.{build_verdict, built_of};
ghost use Rattle.runs.specs.Demand3.{ModelAccepted, Event, certifier, after, steps, claim, PointsHold, BuildHolds};

use levels::{Level, shape};
use refusals::{Refusal, Verdict};
use tables::Counts;

// 7, 8, 9, 12 and 22: the certifier, the points, and slices of such lengths for the level that is built of them.
fn judge_build<'a, 'b>(
    transition: &'a [u16],
    observation: &'a [u16],
    reward: &'a [i64],
    c: Counts,
    state: &'b [usize],
    actions: &'b [u8],
    masks: &'b [u64],
    entries: &'b [i64],
    corners: &'b [i64],
    weights: &'b [u32],
    values: &'b [i64],
    informed: &'b [i64],
    qmdp: &'b [i64],
    given: &[u32],
    count: usize,
    newactions: usize,
    newchoices: usize,
    newmasks: usize,
    newentries: usize,
    newcorners: usize,
    newvalues: usize,
) -> Verdict
    ensures { (choices : List ℕ) →
        let m = tables_in c transition.now observation.now reward.now in
        let standing = lent state.now (cells actions.now choices masks.now entries.now corners.now
        weights.now values.now) (rows informed.now qmdp.now) in
        result ≡ (unless (holds m standing) 7 0
        before unless (ltb (standing_at state.now).number max_levels) 8 0
        before unless (leb count max_built && (leb ((c.states + count) * c.observations) newchoices
        && long_enough c.states (c.states + count) count newactions newmasks newentries newcorners (length given.now) newvalues)) 9 0
        before weights_verdict c.states count (point_in c.states given.now)
        before unless (some_covers_all (model_of m) (level_of m (standing_in standing))) 22 0) }
{
    if !standing::standing_holds(
        transition,
        observation,
        reward,
        c,
        state,
        actions,
        masks,
        entries,
        corners,
        weights,
        values,
        informed,
        qmdp,
    ) {
        return Err(Refusal(7, 0));
    }
    let s = levels::standing_in(state);
    if Level::LEVELS <= s.number {
        return Err(Refusal(8, 0));
    }
    if Level::BUILT < count {
        return Err(Refusal(9, 0));
    }
    if !shape::complete(
        c.states,
        c.observations,
        c.states + count,
        count,
        newactions,
        newchoices,
        newmasks,
        newentries,
        newcorners,
        given.len(),
        newvalues,
    ) {
        return Err(Refusal(9, 0));
    }
    weights::weights_hold(given, c.states, count)?;
    if !masks::some_has(masks, s.vectors, masks::all(c.states)) {
        return Err(Refusal(22, 0));
    }
    Ok(())
}

// Builds the next level from a count of points of any content, whose weights are the level's own: it is accepted where it is offered to the same
// certifier; or refused by 7, 8, 9, 12 or 22. Backups are worked out from the list of transitions where one is lent.
pub fn build<'a, 'b>(
    transition: &'a [u16],
    list: &[u32],
    observation: &'a [u16],
    reward: &'a [i64],
    c: Counts,
    state: &'b [usize],
    actions: &'b [u8],
    masks: &'b [u64],
    entries: &'b [i64],
    corners: &'b [i64],
    weights: &'b [u32],
    values: &'b [i64],
    informed: &'b [i64],
    qmdp: &'b [i64],
    given: &[u32],
    count: usize,
    newactions: &mut [u8],
    newchoices: &mut [u16],
    newmasks: &mut [u64],
    newentries: &mut [i64],
    newcorners: &mut [i64],
    newvalues: &mut [i64],
) -> Verdict
    ensures { (choices : List ℕ) →
        let m = tables_in c transition.now observation.now reward.now in
        let standing = lent state.now (cells actions.now choices masks.now entries.now corners.now
        weights.now values.now) (rows informed.now qmdp.now) in
        let y = cells newactions.old newchoices.old newmasks.old newentries.old newcorners.old
        given.now newvalues.old in
        let made = cells newactions.new newchoices.new newmasks.new newentries.new newcorners.new
        given.now newvalues.new in
        (result ≡ (handed_list m list.now before build_verdict m standing count y))
        × ((made ≡ left (handed_list m list.now) (built_of m standing count y) y)
        × ((m₀ : Tables) (x : Lent) (es : List Event) → ModelAccepted m₀ x → certifier m standing ≡ after m₀ x es → steps m₀ x es < max_levels
        → some_covers_all (model_of m) (claim m₀ x es).level ≡ true → PointsHold m x count y → list_holds m list.now ≡ true
        → BuildHolds m standing (claim m₀ x es) count y result made)) }
{
    if !lists::holds(transition, list, observation, reward, c) {
        return Err(Refusal(7, 0));
    }
    judge_build(
        transition,
        observation,
        reward,
        c,
        state,
        actions,
        masks,
        entries,
        corners,
        weights,
        values,
        informed,
        qmdp,
        given,
        count,
        newactions.len(),
        newchoices.len(),
        newmasks.len(),
        newentries.len(),
        newcorners.len(),
        newvalues.len(),
    )?;
    let s = levels::standing_in(state);
    builder::build_level(
        transition,
        list,
        observation,
        reward,
        c,
        masks,
        entries,
        corners,
        weights,
        values,
        s.vectors,
        s.points,
        given,
        count,
        newactions,
        newchoices,
        newmasks,
        newentries,
        newcorners,
        newvalues,
    );
    Ok(())
}

// What an offer leaves once it is judged: an accepted level over the one that stands, its numbers, and the rows a step further; or all as it was.
#![tactic(auto)]

ghost use Rattle.std.specs.Prelude.{◌≡◌};
ghost use Rattle.refusals.specs.Verdicts.{Fine, left};
ghost use Rattle.tables.specs.Storage.{tables_in};
ghost use Rattle.levels.specs.Storage.{cells, rows, lent, lent_for, level_of};
ghost use Rattle.levels.specs.Judged.{offer_verdict};
ghost use Rattle.runs.specs.State.{raised};

use refusals::Verdict;
use tables::Counts;

// The verdict on an offer; where it is accepted, the certifier is one level higher with it.
pub fn settle<'a, 'b>(
    verdict: Verdict,
    transition: &'a [u16],
    observation: &'a [u16],
    reward: &'a [i64],
    c: Counts,
    state: &mut [usize],
    actions: &mut [u8],
    choices: &mut [u16],
    masks: &mut [u64],
    entries: &mut [i64],
    corners: &mut [i64],
    weights: &mut [u32],
    values: &mut [i64],
    informed: &mut [i64],
    qmdp: &mut [i64],
    vectors: usize,
    points: usize,
    newactions: &'b [u8],
    newchoices: &'b [u16],
    newmasks: &'b [u64],
    newentries: &'b [i64],
    newcorners: &'b [i64],
    newweights: &'b [u32],
    newvalues: &'b [i64],
) -> Verdict
    requires { verdict ≡ Fine → offer_verdict (tables_in c transition.now observation.now reward.now)
        (lent state.old (cells actions.old choices.old masks.old entries.old corners.old weights.old values.old)
        (rows informed.old qmdp.old))
        (lent_for vectors points (cells newactions.now newchoices.now newmasks.now newentries.now newcorners.now newweights.now
        newvalues.now)) ≡ Fine }
    ensures value { result ≡ verdict }
    ensures qmdp_after { let m = tables_in c transition.now observation.now reward.now in
        let x = lent state.old (cells actions.old choices.old masks.old entries.old
        corners.old weights.old values.old) (rows informed.old qmdp.old) in
        let l = lent_for vectors points (cells newactions.now newchoices.now newmasks.now newentries.now
        newcorners.now newweights.now newvalues.now) in
        lent state.new (cells actions.new choices.new masks.new entries.new corners.new
        weights.new values.new) (rows informed.new qmdp.new)
        ≡ left verdict (raised m x (level_of m l)) x }
{
    verdict?;
    levels::raise_standing(state, vectors, points);
    laying::lay_level(
        c.states,
        c.observations,
        actions,
        choices,
        masks,
        entries,
        corners,
        weights,
        values,
        vectors,
        points,
        newactions,
        newchoices,
        newmasks,
        newentries,
        newcorners,
        newweights,
        newvalues,
    );
    rows::step(transition, observation, reward, c, informed, qmdp);
    Ok(())
}

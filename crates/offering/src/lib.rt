// Offering a level: where it is accepted it is written over what is lent and the certifier stands one level higher; a refusal writes nothing.
#![tactic(auto)]

ghost use Rattle.std.specs.Prelude.{◌≡◌};
ghost use Rattle.tables.specs.Storage.{tables_in};
ghost use Rattle.refusals.specs.Verdicts.{◌before◌, left};
ghost use Rattle.columns.specs.Columns.{handed_list};
ghost use Rattle.levels.specs.Storage.{cells, rows, lent, lent_for};
ghost use Rattle.levels.specs.Judged.{offer_verdict};
ghost use Rattle.runs.specs.State.{offered};

use refusals::Verdict;
use tables::Counts;

// Offers a level of any content: the certifier then stands one level higher with it; or refused by 7 to 15 or 21 and unchanged. Backups are worked out from
// the list of transitions where one is lent, and from the table where none is.
pub fn offer<'a, 'b>(
    transition: &'a [u16],
    list: &[u32],
    observation: &'a [u16],
    reward: &'a [i64],
    c: Counts,
    state: &mut [usize],
    actions: &mut [u8],
    choices: &mut [u16],
    masks: &mut [u64],
    entries: &mut [i64],
    corners: &mut [i64],
    weights: &mut [u32],
    values: &mut [i64],
    informed: &mut [i64],
    qmdp: &mut [i64],
    vectors: usize,
    points: usize,
    newactions: &'b [u8],
    newchoices: &'b [u16],
    newmasks: &'b [u64],
    newentries: &'b [i64],
    newcorners: &'b [i64],
    newweights: &'b [u32],
    newvalues: &'b [i64],
) -> Verdict
    ensures { let m = tables_in c transition.now observation.now reward.now in
        let x = lent state.old (cells actions.old choices.old masks.old entries.old
        corners.old weights.old values.old) (rows informed.old qmdp.old) in
        let l = lent_for vectors points (cells newactions.now newchoices.now newmasks.now newentries.now
        newcorners.now newweights.now newvalues.now) in
        let y = lent state.new (cells actions.new choices.new masks.new entries.new corners.new
        weights.new values.new) (rows informed.new qmdp.new) in
        (result ≡ (handed_list m list.now before offer_verdict m x l))
        × (y ≡ left (handed_list m list.now) (offered m x l) x) }
{
    let verdict = judging::judge_offer(
        transition,
        list,
        observation,
        reward,
        c,
        &state[..],
        &actions[..],
        &choices[..],
        &masks[..],
        &entries[..],
        &corners[..],
        &weights[..],
        &values[..],
        &informed[..],
        &qmdp[..],
        vectors,
        points,
        newactions,
        newchoices,
        newmasks,
        newentries,
        newcorners,
        newweights,
        newvalues,
    );
    accepting::settle(
        verdict,
        transition,
        observation,
        reward,
        c,
        state,
        actions,
        choices,
        masks,
        entries,
        corners,
        weights,
        values,
        informed,
        qmdp,
        vectors,
        points,
        newactions,
        newchoices,
        newmasks,
        newentries,
        newcorners,
        newweights,
        newvalues,
    )
}

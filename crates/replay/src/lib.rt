// A list of offers that lies packed in slices, run through the calls one after the other.
#![tactic(auto)]

ghost use Rattle.std.specs.Prelude.{◌≡◌, List, ℕ, Ok};
ghost use Rattle.tables.specs.Tables.{Tables};
ghost use Rattle.tables.specs.Storage.{tables_in};
ghost use Rattle.levels.specs.Storage.{Lent, cells, rows, lent};
ghost use Rattle.runs.specs.Demand3.{ModelAccepted, Event, certifier, after};
ghost use Rattle.blocks.specs.Blocks.{packed};
ghost use Rattle.series.specs.Series.{offers_in};
ghost use Rattle.replay.specs.Replay.{replay_answer, replayed, ReplayHolds};

use refusals::Refusal;
use tables::Counts;

// Offers a list of any content, one level after the other, to the certifier that is lent, and says how many were accepted; or refused by 7 or 9 and nothing
// is offered. Each block has room for v vectors and p points, and the offer that lies there has its own counts of them.
pub fn replay<'a, 'b>(
    transition: &'a [u16],
    observation: &'a [u16],
    reward: &'a [i64],
    c: Counts,
    state: &mut [usize],
    actions: &mut [u8],
    choices: &mut [u16],
    masks: &mut [u64],
    entries: &mut [i64],
    corners: &mut [i64],
    weights: &mut [u32],
    values: &mut [i64],
    informed: &mut [i64],
    qmdp: &mut [i64],
    count: usize,
    v: usize,
    p: usize,
    vectors: &'b [usize],
    points: &'b [usize],
    newactions: &'b [u8],
    newchoices: &'b [u16],
    newmasks: &'b [u64],
    newentries: &'b [i64],
    newcorners: &'b [i64],
    newweights: &'b [u32],
    newvalues: &'b [i64],
) -> Result<usize, Refusal>
    ensures { let m = tables_in c transition.now observation.now reward.now in
        let x = lent state.old (cells actions.old choices.old masks.old entries.old
        corners.old weights.old values.old) (rows informed.old qmdp.old) in
        let b = packed v p vectors.now points.now (cells newactions.now newchoices.now newmasks.now
        newentries.now newcorners.now newweights.now newvalues.now) in
        let y = lent state.new (cells actions.new choices.new masks.new entries.new corners.new
        weights.new values.new) (rows informed.new qmdp.new) in
        (result ≡ replay_answer m x b count)
        × ((y ≡ replayed m x b count)
        × ((m₀ : Tables) (x₀ : Lent) (es : List Event) → ModelAccepted m₀ x₀ → certifier m x ≡ after m₀ x₀ es → (accepted : ℕ) → result ≡ Ok accepted
        → ReplayHolds m₀ x₀ es (offers_in m b count) m y accepted)) }
{
    let verdict = blocks::judge_list(
        transition,
        observation,
        reward,
        c,
        &state[..],
        &actions[..],
        &masks[..],
        &entries[..],
        &corners[..],
        &weights[..],
        &values[..],
        &informed[..],
        &qmdp[..],
        count,
        v,
        p,
        vectors,
        points,
        newactions,
        newchoices,
        newmasks,
        newentries,
        newcorners,
        newweights,
        newvalues,
    );
    let made = blocks::passed(verdict, count); // a list that is refused makes no offer
    let accepted = series::offer_all(
        transition,
        observation,
        reward,
        c,
        state,
        actions,
        choices,
        masks,
        entries,
        corners,
        weights,
        values,
        informed,
        qmdp,
        made,
        v,
        p,
        vectors,
        points,
        newactions,
        newchoices,
        newmasks,
        newentries,
        newcorners,
        newweights,
        newvalues,
    );
    verdict?;
    Ok(accepted)
}

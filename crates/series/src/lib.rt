// Offers that lie packed in slices, made one after the other.
#![tactic(auto)]

ghost use Rattle.std.specs.Prelude.{◌≡◌, ◌<◌};
ghost use Rattle.tables.specs.Storage.{tables_in};
ghost use Rattle.levels.specs.Storage.{cells, rows, lent};
ghost use Rattle.blocks.specs.Blocks.{packed};
ghost use Rattle.blocks.specs.Steps.{Packs};
ghost use Rattle.series.specs.Series.{offers_in, offered_all, accepted_of};

use tables::Counts;

// Offers what lies in each block, in their order: how many were accepted.
pub fn offer_all<'a, 'b>(
    transition: &'a [u16],
    observation: &'a [u16],
    reward: &'a [i64],
    c: Counts,
    state: &mut [usize],
    actions: &mut [u8],
    choices: &mut [u16],
    masks: &mut [u64],
    entries: &mut [i64],
    corners: &mut [i64],
    weights: &mut [u32],
    values: &mut [i64],
    informed: &mut [i64],
    qmdp: &mut [i64],
    count: usize,
    v: usize,
    p: usize,
    vectors: &'b [usize],
    points: &'b [usize],
    newactions: &'b [u8],
    newchoices: &'b [u16],
    newmasks: &'b [u64],
    newentries: &'b [i64],
    newcorners: &'b [i64],
    newweights: &'b [u32],
    newvalues: &'b [i64],
) -> usize
    requires { 0 < count → Packs c.states c.observations count (packed v p vectors.now points.now (cells newactions.now newchoices.now
        newmasks.now newentries.now newcorners.now newweights.now newvalues.now)) }
    ensures { let m = tables_in c transition.now observation.now reward.now in
        let x = lent state.old (cells actions.old choices.old masks.old entries.old
        corners.old weights.old values.old) (rows informed.old qmdp.old) in
        let b = packed v p vectors.now points.now (cells newactions.now newchoices.now newmasks.now
        newentries.now newcorners.now newweights.now newvalues.now) in
        let y = lent state.new (cells actions.new choices.new masks.new entries.new corners.new
        weights.new values.new) (rows informed.new qmdp.new) in
        (result ≡ accepted_of m x (offers_in m b count))
        × (y ≡ offered_all m x (offers_in m b count)) }
{
    let n = c.states;
    let none = [0u32; 0]; // no list of transitions
    let mut accepted: usize = 0;
    for i in 0..count {
        let action = cells::row(newactions, v, i);
        let choice = cells::row(newchoices, v * c.observations, i);
        let mask = cells::row(newmasks, v, i);
        let entry = cells::row(newentries, v * n, i);
        let corner = cells::row(newcorners, n, i);
        let weight = cells::row(newweights, p * n, i);
        let value = cells::row(newvalues, p, i);
        let verdict = offering::offer(
            transition,
            &none,
            observation,
            reward,
            c,
            state,
            actions,
            choices,
            masks,
            entries,
            corners,
            weights,
            values,
            informed,
            qmdp,
            vectors[i],
            points[i],
            action,
            choice,
            mask,
            entry,
            corner,
            weight,
            value,
        );
        if verdict.is_ok() {
            accepted += 1;
        }
    }
    accepted
}

// The interface for C and Rust: a list of offers in one call.
#![tactic(auto)]

ghost use Rattle.std.specs.Prelude.{◌≡◌, List};
ghost use Rattle.tables.specs.Tables.{Tables};
ghost use Rattle.refusals.specs.Verdicts.{Fine};
ghost use Rattle.levels.specs.Storage.{Lent, cells, rows, lent};
ghost use Rattle.runs.specs.Demand3.{ModelAccepted, Event, certifier, after};
ghost use Rattle.blocks.specs.Blocks.{packed, replay_verdict};
ghost use Rattle.series.specs.Series.{offers_in};
ghost use Rattle.replay.specs.Replay.{replay_answer, replayed, ReplayHolds};
ghost use Rattle.answers.specs.Calls.{tables_by};
ghost use Rattle.exports_replay.specs.Calls.{replay_by};

use tables::Counts;

#[repr(C)]
#[derive(Clone, Copy)]
pub struct Replay {
    pub number: u64,
    pub place: usize,
    pub accepted: usize,
}

// Offers each level of a list to a certifier, one after the other. Block i of each slice has room for v vectors and p points; the offer that lies there has
// counts of its own.
#[unsafe(no_mangle)]
pub extern "C" fn biidhaqun_replay<'a, 'b>(
    n: usize,
    m: usize,
    k: usize,
    g: u64,
    transition: &'a [u16],
    observation: &'a [u16],
    reward: &'a [i64],
    state: &mut [usize],
    actions: &mut [u8],
    choices: &mut [u16],
    masks: &mut [u64],
    entries: &mut [i64],
    corners: &mut [i64],
    weights: &mut [u32],
    values: &mut [i64],
    informed: &mut [i64],
    qmdp: &mut [i64],
    count: usize,
    v: usize,
    p: usize,
    vectors: &'b [usize],
    points: &'b [usize],
    newactions: &'b [u8],
    newchoices: &'b [u16],
    newmasks: &'b [u64],
    newentries: &'b [i64],
    newcorners: &'b [i64],
    newweights: &'b [u32],
    newvalues: &'b [i64],
) -> Replay
    ensures { let tables = tables_by n m k g transition.now observation.now reward.now in
        let x = lent state.old (cells actions.old choices.old masks.old entries.old
        corners.old weights.old values.old) (rows informed.old qmdp.old) in
        let b = packed v p vectors.now points.now (cells newactions.now newchoices.now newmasks.now
        newentries.now newcorners.now newweights.now newvalues.now) in
        let y = lent state.new (cells actions.new choices.new masks.new entries.new corners.new
        weights.new values.new) (rows informed.new qmdp.new) in
        (result ≡ replay_by (replay_answer tables x b count))
        × ((y ≡ replayed tables x b count)
        × ((m₀ : Tables) (x₀ : Lent) (es : List Event) → ModelAccepted m₀ x₀ → certifier tables x ≡ after m₀ x₀ es → replay_verdict tables x b count ≡ Fine →
        ReplayHolds m₀ x₀ es (offers_in tables b count) tables (lent state.new (cells actions.new choices.new masks.new
        entries.new corners.new weights.new values.new) (rows informed.new qmdp.new)) result.accepted)) }
{
    let c = Counts {
        states: n,
        actions: m,
        observations: k,
        discount: g,
    };
    match replay::replay(
        transition,
        observation,
        reward,
        c,
        state,
        actions,
        choices,
        masks,
        entries,
        corners,
        weights,
        values,
        informed,
        qmdp,
        count,
        v,
        p,
        vectors,
        points,
        newactions,
        newchoices,
        newmasks,
        newentries,
        newcorners,
        newweights,
        newvalues,
    ) {
        Ok(accepted) => Replay {
            number: 0,
            place: 0,
            accepted,
        },
        Err(e) => {
            let refusal = answers::refusal_of(Err(e));
            Replay {
                number: refusal.number,
                place: refusal.place,
                accepted: 0,
            }
        }
    }
}

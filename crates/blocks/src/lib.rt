// Offers that lie packed in slices, in blocks of one size: whether the slices have so many, and what a list of them is refused for.
#![tactic(auto)]

ghost use Rattle.std.specs.Prelude.{◌≡◌, List, ℕ, ◌*◌, ◌≤◌, leb};
ghost use Rattle.tables.specs.Limits.{max_states, max_observations};
ghost use Rattle.refusals.specs.Verdicts.{left};
ghost use Rattle.tables.specs.Storage.{tables_in};
ghost use Rattle.levels.specs.Storage.{cells, rows, lent};
ghost use Rattle.blocks.specs.Blocks.{packed, blocks_fit, replay_verdict};

use levels::Level;
use refusals::{Refusal, Verdict};
use tables::{Counts, Tables};

// Whether so many blocks of a width lie in a slice of such a length.
fn enough(count: usize, width: usize, long: usize) -> bool
    ensures { result ≡ leb (count * width) long }
{
    if width == 0 {
        return true;
    }
    count <= long / width
}

// 9: whether slices of such lengths have so many blocks, of v vectors and p points.
fn blocks_fit(
    n: usize,
    k: usize,
    count: usize,
    v: usize,
    p: usize,
    vectors: usize,
    points: usize,
    actions: usize,
    choices: usize,
    masks: usize,
    entries: usize,
    corners: usize,
    weights: usize,
    values: usize,
) -> bool
    requires { (n ≤ max_states) × (k ≤ max_observations) }
    ensures { result ≡ blocks_fit n k count v p vectors points actions choices masks entries corners weights values }
{
    if Tables::VECTORS < v {
        return false;
    }
    if Level::POINTS < p {
        return false;
    }
    if vectors < count {
        return false;
    }
    if points < count {
        return false;
    }
    if !enough(count, v, actions) {
        return false;
    }
    if !enough(count, v * k, choices) {
        return false;
    }
    if !enough(count, v, masks) {
        return false;
    }
    if !enough(count, v * n, entries) {
        return false;
    }
    if !enough(count, n, corners) {
        return false;
    }
    if !enough(count, p * n, weights) {
        return false;
    }
    enough(count, p, values)
}

// So many where a verdict refuses nothing, none where it refuses.
pub fn passed(v: Verdict, count: usize) -> usize
    ensures { result ≡ left v count 0 }
{
    match v {
        Ok(()) => count,
        Err(_) => 0,
    }
}

// Whether a list is offered at all: 7 of the certifier, 9 of the list's slices.
pub fn judge_list<'a, 'b, 'c>(
    transition: &'a [u16],
    observation: &'a [u16],
    reward: &'a [i64],
    c: Counts,
    state: &'b [usize],
    actions: &'b [u8],
    masks: &'b [u64],
    entries: &'b [i64],
    corners: &'b [i64],
    weights: &'b [u32],
    values: &'b [i64],
    informed: &'b [i64],
    qmdp: &'b [i64],
    count: usize,
    v: usize,
    p: usize,
    vectors: &'c [usize],
    points: &'c [usize],
    newactions: &'c [u8],
    newchoices: &'c [u16],
    newmasks: &'c [u64],
    newentries: &'c [i64],
    newcorners: &'c [i64],
    newweights: &'c [u32],
    newvalues: &'c [i64],
) -> Verdict
    ensures { let m = tables_in c transition.now observation.now reward.now in
        let b = packed v p vectors.now points.now (cells newactions.now newchoices.now newmasks.now
        newentries.now newcorners.now newweights.now newvalues.now) in
        (choices : List ℕ) → result ≡ replay_verdict m (lent state.now (cells actions.now choices masks.now entries.now
        corners.now weights.now values.now) (rows informed.now qmdp.now)) b count }
{
    if !standing::standing_holds(
        transition,
        observation,
        reward,
        c,
        state,
        actions,
        masks,
        entries,
        corners,
        weights,
        values,
        informed,
        qmdp,
    ) {
        return Err(Refusal(7, 0));
    }
    if !blocks_fit(
        c.states,
        c.observations,
        count,
        v,
        p,
        vectors.len(),
        points.len(),
        newactions.len(),
        newchoices.len(),
        newmasks.len(),
        newentries.len(),
        newcorners.len(),
        newweights.len(),
        newvalues.len(),
    ) {
        return Err(Refusal(9, 0));
    }
    Ok(())
}

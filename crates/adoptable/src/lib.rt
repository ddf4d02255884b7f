// What a solver's files are refused for before a level is made of them: 1, 7, 19, 20, 8 to 12 and 21, in this order.
#![tactic(auto)]

ghost use Rattle.std.specs.Prelude.{◌≡◌, ◌&&◌, List, ℕ, ◌+◌, ◌*◌, ◌≤◌, ◌<◌, leb, ltb, length};
ghost use Rattle.tables.specs.Limits.{max_states, max_observations, max_vectors, max_levels};
ghost use Rattle.tables.specs.Storage.{tables_in};
ghost use Rattle.refusals.specs.Verdicts.{◌before◌, unless};
ghost use Rattle.tables.specs.Judged.{count_within};
ghost use Rattle.plans.specs.Limits.{max_built, range};
ghost use Rattle.levels.specs.Storage.{cells, rows, lent, standing_at, long_enough, point_in};
ghost use Rattle.levels.specs.Judged.{holds, rows_within, weights_verdict, numbers_in};
ghost use Rattle.candidates.specs.Steps.{Upon};
ghost use Rattle.solver.specs.Files.{max_file, vectors_in, files_verdict, with_count};
ghost use Rattle.stated.specs.Steps.{Files, masks_over};
ghost use Rattle.solved.specs.Steps.{vectors_over};

use levels::{Level, shape};
use refusals::{Refusal, Verdict};
use tables::{Counts, Tables};

// ---- 1 to 9

// 8 and 9: the level that stands, and slices of such lengths for the level to be made.
fn judge_room(
    number: usize,
    n: usize,
    k: usize,
    vectors: usize,
    points: usize,
    actions: usize,
    choices: usize,
    masks: usize,
    entries: usize,
    corners: usize,
    weights: usize,
    values: usize,
) -> Verdict
    requires { (n ≤ max_states) × (k ≤ max_observations) }
    ensures { result ≡ (unless (ltb number max_levels) 8 0 before unless (count_within max_vectors vectors
        && (leb points max_built && (leb (vectors * k) choices && long_enough n vectors points actions masks entries corners weights values))) 9 0) }
{
    if Level::LEVELS <= number {
        return Err(Refusal(8, 0));
    }
    if !tables::count_within(Tables::VECTORS, vectors) {
        return Err(Refusal(9, 0));
    }
    if Level::BUILT < points {
        return Err(Refusal(9, 0));
    }
    if !shape::complete(
        n, k, vectors, points, actions, choices, masks, entries, corners, weights, values,
    ) {
        return Err(Refusal(9, 0));
    }
    Ok(())
}

// 1 of either file, 7 of the certifier, 19 and 20 of the files, then 8 and 9.
pub fn judge_files<'a, 'b, 'c>(
    transition: &'a [u16],
    observation: &'a [u16],
    reward: &'a [i64],
    c: Counts,
    state: &'b [usize],
    actions: &'b [u8],
    masks: &'b [u64],
    entries: &'b [i64],
    corners: &'b [i64],
    weights: &'b [u32],
    values: &'b [i64],
    informed: &'b [i64],
    qmdp: &'b [i64],
    alpha: &'c [u8],
    graph: &'c [u8],
    count: usize,
    newactions: usize,
    newchoices: usize,
    newmasks: usize,
    newentries: usize,
    newcorners: usize,
    given: usize,
    newvalues: usize,
) -> Result<usize, Refusal>
    ensures { (choices : List ℕ) →
        let m = tables_in c transition.now observation.now reward.now in
        let standing = lent state.now (cells actions.now choices masks.now entries.now corners.now
        weights.now values.now) (rows informed.now qmdp.now) in
        let vectors = vectors_in c.states alpha.now in
        result ≡ with_count (unless (leb (length alpha.now) max_file && leb (length graph.now) max_file) 1 0
        before unless (holds m standing) 7 0
        before files_verdict c.states c.observations alpha.now graph.now
        before unless (ltb (standing_at state.now).number max_levels) 8 0
        before unless (count_within max_vectors vectors && (leb count max_built && (leb (vectors * c.observations) newchoices
        && long_enough c.states vectors count newactions newmasks newentries newcorners given newvalues))) 9 0) vectors }
{
    if adoption::FILE < alpha.len() {
        return Err(Refusal(1, 0));
    }
    if adoption::FILE < graph.len() {
        return Err(Refusal(1, 0));
    }
    if !standing::standing_holds(
        transition,
        observation,
        reward,
        c,
        state,
        actions,
        masks,
        entries,
        corners,
        weights,
        values,
        informed,
        qmdp,
    ) {
        return Err(Refusal(7, 0));
    }
    let vectors = solver::judge_files(alpha, graph, c.states, c.observations)?;
    let s = levels::standing_in(state);
    judge_room(
        s.number,
        c.states,
        c.observations,
        vectors,
        count,
        newactions,
        newchoices,
        newmasks,
        newentries,
        newcorners,
        given,
        newvalues,
    )?;
    Ok(vectors)
}

// ---- 10, 21, 11 and 12

// 10, 21, 11 and 12 of the level, but for corners and values, which 11 cannot meet.
pub fn judge_level<'a, 'c>(
    transition: &'a [u16],
    observation: &'a [u16],
    reward: &'a [i64],
    masks: &[u64],
    entries: &[i64],
    c: Counts,
    standing: usize,
    t: usize,
    alpha: &'c [u8],
    graph: &'c [u8],
    count: usize,
    given: &[u32],
    points: usize,
) -> Verdict
    requires upon { (Upon c transition.now observation.now reward.now masks.now entries.now standing) × ((t < max_levels) × (count ≤ max_vectors)) }
    requires files { Files c.states c.observations alpha.now graph.now count }
    requires points_le_max_built { (points ≤ max_built) × (points * c.states ≤ length given.now) }
    ensures { let W = vectors_over c transition.now observation.now reward.now masks.now
        entries.now standing t alpha.now graph.now in
        result ≡ (numbers_in 10 count c.actions c.observations standing W.action W.choice
        before masks_over c transition.now observation.now masks.now count W.action W.choice
        before rows_within 11 count c.states (range (t + 1)) W.entry
        before weights_verdict c.states points (point_in c.states given.now)) }
{
    stated::numbers_hold(alpha, graph, c, standing, t, count)?;
    stated::masks_hold(transition, observation, masks, c, t, alpha, graph, count)?;
    solved::entries_hold(
        transition,
        observation,
        reward,
        masks,
        entries,
        c,
        standing,
        t,
        alpha,
        graph,
        count,
    )?;
    weights::weights_hold(given, c.states, points)
}

// The vectors that a solver's alpha file and policy graph file say, over the level that stands: their entries, 11 of these, and the vectors written over lent
// slices.
#![tactic(auto)]

ghost use Rattle.std.specs.Prelude.{◌≡◌, ℕ, ◌+◌, ◌≤◌, ◌<◌, length, get_or, pos};
ghost use Rattle.integers.specs.Whole.{lesser};
ghost use Rattle.integers.specs.Cells.{padded};
ghost use Rattle.tables.specs.Limits.{max_states, max_observations};
ghost use Rattle.tables.specs.Model.{backed_up};
ghost use Rattle.tables.specs.Storage.{model_in};
ghost use Rattle.plans.specs.Limits.{range};
ghost use Rattle.plans.specs.Level.{follows};
ghost use Rattle.levels.specs.Judged.{rows_within};
ghost use Rattle.candidates.specs.Steps.{upon_in, Upon};
ghost use Rattle.builder.specs.Steps.{RowsFit, Filled};
ghost use Rattle.stated.specs.Steps.{ReadTo};
ghost use Rattle.solved.specs.Steps.{vectors_over, Solving, Gives};

use levels::shape;
use refusals::{Refusal, Verdict};
use tables::{Action, ByState, Chosen, Counts, Tables, Vector, read};

// A vector of the level, and where the files go on after it.
#[derive(Clone, Copy)]
pub struct Row {
    pub alpha: usize,
    pub graph: usize,
    pub action: Action,
    pub chosen: Chosen,
    pub entries: ByState,
}

// ---- one vector

// The smaller of two entries at each state.
fn lesser_each(ticks: ByState, backed: ByState, n: usize) -> ByState
    requires { n ≤ max_states }
    ensures { result ≡ padded (pos 0) max_states n (λ s. lesser (get_or ticks s (pos 0)) (get_or backed s (pos 0))) }
{
    let mut least = [0i64; Tables::STATES];
    for s in 0..n {
        least[s] = integers::lesser(ticks[s], backed[s]);
    }
    least
}

// The entries of a vector with an action and choices: each the smaller of the ticks and the backup over K, rounded down.
fn entries_of<'a>(
    transition: &'a [u16],
    observation: &'a [u16],
    reward: &'a [i64],
    masks: &[u64],
    entries: &[i64],
    c: Counts,
    standing: usize,
    ticks: ByState,
    chosen: &[u16],
    a: Action,
) -> ByState
    requires upon { Upon c transition.now observation.now reward.now masks.now entries.now standing }
    requires a_lt_actions { (a.0 < c.actions) × (length chosen.now ≡ max_observations) }
    requires by_index { (o : ℕ) → o < c.observations → get_or chosen.now o 0 < standing }
    ensures { result ≡ padded (pos 0) max_states c.states (λ s. lesser (get_or ticks s (pos 0))
        (backed_up (model_in c transition.now observation.now reward.now) a.0
        (follows (upon_in c standing masks.now entries.now) (λ o. get_or chosen.now o 0)) s)) }
{
    let n = c.states;
    let f = vectors::foreseen(
        observation,
        n,
        c.observations,
        masks,
        entries,
        chosen,
        Vector(0),
        a,
    );
    let backed = vectors::rounded(transition, reward, &f, n, c.discount, a);
    lesser_each(ticks, backed, n)
}

// Vector v of the level.
fn row_at<'a, 'c>(
    transition: &'a [u16],
    observation: &'a [u16],
    reward: &'a [i64],
    masks: &[u64],
    entries: &[i64],
    c: Counts,
    standing: usize,
    t: usize,
    alpha: &'c [u8],
    graph: &'c [u8],
    count: usize,
    v: usize,
    p: usize,
    q: usize,
) -> Row
    requires solving { Solving c transition.now observation.now reward.now masks.now entries.now standing t alpha.now graph.now count }
    requires v_lt_count { (v < count) × (ReadTo c.states c.observations alpha.now graph.now v p q) }
    ensures { Gives c.states c.observations alpha.now graph.now (vectors_over c transition.now
        observation.now reward.now masks.now entries.now standing t alpha.now
        graph.now) v result }
{
    let x = stated::said_at(alpha, graph, c.states, c.observations, t, v, p, q);
    let row = entries_of(
        transition,
        observation,
        reward,
        masks,
        entries,
        c,
        standing,
        x.ticks,
        &x.chosen,
        x.action,
    );
    Row {
        alpha: x.alpha,
        graph: x.graph,
        action: x.action,
        chosen: x.chosen,
        entries: row,
    }
}

// ---- 11

// 11: the first vector with an entry outside its range.
pub fn entries_hold<'a, 'c>(
    transition: &'a [u16],
    observation: &'a [u16],
    reward: &'a [i64],
    masks: &[u64],
    entries: &[i64],
    c: Counts,
    standing: usize,
    t: usize,
    alpha: &'c [u8],
    graph: &'c [u8],
    count: usize,
) -> Verdict
    requires { Solving c transition.now observation.now reward.now masks.now entries.now standing t alpha.now graph.now count }
    ensures { result ≡ rows_within 11 count c.states (range (t + 1)) (vectors_over c transition.now observation.now
        reward.now masks.now entries.now standing t alpha.now graph.now).entry }
{
    let limit = standing::range_of(t + 1);
    let mut p: usize = 0;
    let mut q: usize = 0;
    for v in 0..count {
        let x = row_at(
            transition,
            observation,
            reward,
            masks,
            entries,
            c,
            standing,
            t,
            alpha,
            graph,
            count,
            v,
            p,
            q,
        );
        if ranges::rows_within(&x.entries, 1, c.states, limit, 11).is_err() {
            return Err(Refusal(11, v));
        }
        p = x.alpha;
        q = x.graph;
    }
    Ok(())
}

// ---- the level

// Its vectors, over slices that have room for them.
pub fn write_vectors<'a, 'c>(
    transition: &'a [u16],
    observation: &'a [u16],
    reward: &'a [i64],
    masks: &[u64],
    entries: &[i64],
    c: Counts,
    standing: usize,
    t: usize,
    alpha: &'c [u8],
    graph: &'c [u8],
    count: usize,
    newactions: &mut [u8],
    newchoices: &mut [u16],
    newmasks: &mut [u64],
    newentries: &mut [i64],
)
    requires solving { Solving c transition.now observation.now reward.now masks.now entries.now standing t alpha.now graph.now count }
    requires rows_fit { RowsFit c.states c.observations count newactions.old newchoices.old newmasks.old newentries.old }
    ensures { Filled c.states c.observations (vectors_over c transition.now observation.now reward.now
        masks.now entries.now standing t alpha.now graph.now) count
        newactions.old newchoices.old newmasks.old newentries.old
        newactions.new newchoices.new newmasks.new newentries.new }
{
    let n = c.states;
    let k = c.observations;
    let all = masks::all(n);
    let mut p: usize = 0;
    let mut q: usize = 0;
    for v in 0..count {
        let x = row_at(
            transition,
            observation,
            reward,
            masks,
            entries,
            c,
            standing,
            t,
            alpha,
            graph,
            count,
            v,
            p,
            q,
        );
        newactions[v] = shape::number(x.action);
        newmasks[v] = all;
        cells::paste(newchoices, read::start(v, k), &x.chosen, k);
        cells::paste(newentries, read::start(v, n), &x.entries, n);
        p = x.alpha;
        q = x.graph;
    }
}

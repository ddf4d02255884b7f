// Totals at a mixture: the floor, the lower of two ceilings, and the action to open with. Tables, the standing level and its rows are lent.
#![tactic(auto)]

ghost use Rattle.std.specs.Prelude.{◌≡◌, true, List, ℕ, ◌<◌};
ghost use Rattle.integers.specs.Whole.{Below};
ghost use Rattle.tables.specs.Limits.{max_weight};
ghost use Rattle.tables.specs.Storage.{tables_in};
ghost use Rattle.masks.specs.Steps.{some_includes};
ghost use Rattle.tables.specs.Tables.{Tables};
ghost use Rattle.levels.specs.Storage.{Lent, cells, rows, lent};
ghost use Rattle.runs.specs.State.{totals_of};
ghost use Rattle.runs.specs.Demand3.{ModelAccepted, Event, certifier, after, steps, claim, MixtureHolds, TotalsHold};
ghost use Rattle.bounds.specs.Steps.{support_in, bounds_in, answer_in, Asked};

use levels::shape;
use refusals::Refusal;
use runs::Bounds;
use tables::{Action, Counts, read};

// The totals at weights within the limits, which lie on some states, where a vector counts.
#[tactic(auto, using(crate::proofs::Bounds::among))]
fn bounds_at<'b>(
    actions: &'b [u8],
    masks: &'b [u64],
    entries: &'b [i64],
    corners: &'b [i64],
    weights: &'b [u32],
    informed: &'b [i64],
    gains: &[u64],
    n: usize,
    m: usize,
    vectors: usize,
    points: usize,
    q: &[u64],
    states: u64,
) -> Bounds
    requires asked { Asked n m vectors points actions.now masks.now entries.now corners.now weights.now informed.now gains.now }
    requires below { Below max_weight n q.now }
    requires states_value { (states ≡ support_in n q.now) × (some_includes masks.now vectors states ≡ true) }
    ensures { result ≡ bounds_in n m vectors points actions.now masks.now entries.now corners.now
        weights.now informed.now gains.now q.now }
{
    let v = products::best_vector(q, masks, entries, n, vectors, states);
    let i = v.0;
    let lower = products::product(q, entries, read::start(i, n), n);
    let saw = ceilings::ceiling(q, corners, weights, gains, points, n);
    let row = products::largest_product(q, informed, n, m);
    let upper = integers::lesser(saw, row);
    Bounds {
        lower: lower,
        upper: upper,
        gap: integers::minus(upper, lower),
        action: Action(shape::action(actions[i])),
        sawtooth: saw,
        informed: row,
    }
}

// The totals at a mixture of any content, or refused by 17 or 22.
pub fn answer<'b>(
    actions: &'b [u8],
    masks: &'b [u64],
    entries: &'b [i64],
    corners: &'b [i64],
    weights: &'b [u32],
    informed: &'b [i64],
    gains: &[u64],
    n: usize,
    m: usize,
    vectors: usize,
    points: usize,
    mixture: &[u32],
) -> Result<Bounds, Refusal>
    requires { Asked n m vectors points actions.now masks.now entries.now corners.now weights.now informed.now gains.now }
    ensures { result ≡ answer_in n m vectors points actions.now masks.now entries.now corners.now
        weights.now informed.now gains.now mixture.now }
{
    if !asking::mixture_holds(mixture, n) {
        return Err(Refusal(17, 0));
    }
    let q = weights::point_weights(mixture, n, 0);
    let states = masks::support(&q, n);
    if !masks::some_has(masks, vectors, states) {
        return Err(Refusal(22, 0));
    }
    Ok(bounds_at(
        actions, masks, entries, corners, weights, informed, gains, n, m, vectors, points, &q,
        states,
    ))
}

// The lower and the upper total at a mixture of any content, their gap and the action to open with; or refused by 7, 16, 17 or 22.
pub fn totals<'a, 'b>(
    transition: &'a [u16],
    observation: &'a [u16],
    reward: &'a [i64],
    c: Counts,
    state: &'b [usize],
    actions: &'b [u8],
    masks: &'b [u64],
    entries: &'b [i64],
    corners: &'b [i64],
    weights: &'b [u32],
    values: &'b [i64],
    informed: &'b [i64],
    qmdp: &'b [i64],
    mixture: &[u32],
) -> Result<Bounds, Refusal>
    ensures { (choices : List ℕ) →
        let m = tables_in c transition.now observation.now reward.now in
        let standing = lent state.now (cells actions.now choices masks.now entries.now corners.now
        weights.now values.now) (rows informed.now qmdp.now) in
        (result ≡ totals_of m standing mixture.now)
        × ((m₀ : Tables) (x : Lent) (es : List Event) → ModelAccepted m₀ x → certifier m standing ≡ after m₀ x es → 0 < steps m₀ x es
        → MixtureHolds m (claim m₀ x es) mixture.now → TotalsHold m (steps m₀ x es) (claim m₀ x es) mixture.now result) }
{
    asking::judge_standing(
        transition,
        observation,
        reward,
        c,
        state,
        actions,
        masks,
        entries,
        corners,
        weights,
        values,
        informed,
        qmdp,
    )?;
    let s = levels::standing_in(state);
    let gains = ceilings::gains(corners, weights, values, s.points, c.states);
    answer(
        actions, masks, entries, corners, weights, informed, &gains, c.states, c.actions,
        s.vectors, s.points, mixture,
    )
}

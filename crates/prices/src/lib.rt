// Whether tables differ in their prices alone: 7, then 3, 5 and 6 of the new tables, then 23.
#![tactic(auto)]

ghost use Rattle.std.specs.Prelude.{◌≡◌, List, [], ℕ, ◌≤◌, eqb, length, get_or};
ghost use Rattle.integers.specs.Search.{every};
ghost use Rattle.tables.specs.Storage.{model_in, tables_in};
ghost use Rattle.levels.specs.Storage.{cells, rows, lent};
ghost use Rattle.runs.specs.Prices.{counts_same, same_plans, prices_verdict};
ghost use Rattle.prices.specs.Steps.{Chances};

use refusals::{Refusal, Verdict};
use tables::Counts;

// Whether the first cells of two tables are the same.
fn cells_same(cells: &[u16], new: &[u16], count: usize) -> bool
    requires { (count ≤ length cells.now) × (count ≤ length new.now) }
    ensures { result ≡ every count (λ i. eqb (get_or new.now i 0) (get_or cells.now i 0)) }
{
    new[..count] == cells[..count]
}

fn counts_same(c: Counts, new: Counts) -> bool
    ensures { result ≡ counts_same (model_in c [] [] []) (model_in new [] [] []) }
{
    new.states == c.states
        && new.actions == c.actions
        && new.observations == c.observations
        && new.discount == c.discount
}

// 23: whether counts, discount, T and O are the same.
fn plans_same<'a, 'n>(
    transition: &'a [u16],
    observation: &'a [u16],
    c: Counts,
    newtransition: &'n [u16],
    newobservation: &'n [u16],
    new: Counts,
) -> bool
    requires chances { Chances c transition.now observation.now }
    requires chances_2 { Chances new newtransition.now newobservation.now }
    ensures { result ≡ same_plans (model_in c transition.now observation.now [])
        (model_in new newtransition.now newobservation.now []) }
{
    if !counts_same(c, new) {
        return false;
    }
    let rows = c.actions * c.states;
    if !cells_same(transition, newtransition, rows * c.states) {
        return false;
    }
    cells_same(observation, newobservation, rows * c.observations)
}

// 7, then 3, 5 and 6 of the new tables, then 23. The level's choices are not read.
pub fn judge_prices<'a, 'n, 'b>(
    transition: &'a [u16],
    observation: &'a [u16],
    reward: &'a [i64],
    c: Counts,
    newtransition: &'n [u16],
    newobservation: &'n [u16],
    newreward: &'n [i64],
    new: Counts,
    state: &'b [usize],
    actions: &'b [u8],
    masks: &'b [u64],
    entries: &'b [i64],
    corners: &'b [i64],
    weights: &'b [u32],
    values: &'b [i64],
    informed: &'b [i64],
    qmdp: &'b [i64],
) -> Verdict
    ensures { (choices : List ℕ) → (let m = tables_in c transition.now observation.now reward.now in
        let m' = tables_in new newtransition.now newobservation.now newreward.now in
        let x = lent state.now (cells actions.now choices masks.now entries.now
        corners.now weights.now values.now) (rows informed.now qmdp.now) in
        result ≡ prices_verdict m x m') }
{
    if !standing::standing_holds(
        transition,
        observation,
        reward,
        c,
        state,
        actions,
        masks,
        entries,
        corners,
        weights,
        values,
        informed,
        qmdp,
    ) {
        return Err(Refusal(7, 0));
    }
    validity::judge_tables(newtransition, newobservation, newreward, new)?;
    if !plans_same(
        transition,
        observation,
        c,
        newtransition,
        newobservation,
        new,
    ) {
        return Err(Refusal(23, 0));
    }
    Ok(())
}

// A certifier that climbs, one level higher: the level that was built is offered and accepted.
#![tactic(auto)]

ghost use Rattle.std.specs.Prelude.{◌≡◌};
ghost use Rattle.refusals.specs.Verdicts.{Fine};
ghost use Rattle.tables.specs.Storage.{tables_in};
ghost use Rattle.levels.specs.Judged.{offer_verdict};
ghost use Rattle.runs.specs.State.{offered, answer_for};
ghost use Rattle.climbing.specs.Climb.{lent_of, cells_of};

use climbing::{Climber, POINTS, Rung};
use tables::Counts;

// The certifier with such a level accepted.
pub fn raised<'a>(
    transition: &'a [u16],
    observation: &'a [u16],
    reward: &'a [i64],
    c: Counts,
    h: Climber,
    w: Rung,
) -> Climber
    requires { let m = tables_in c transition.now observation.now reward.now in offer_verdict m (lent_of h) (answer_for m 1 (cells_of w)) ≡ Fine }
    ensures { let m = tables_in c transition.now observation.now reward.now in
        lent_of result ≡ offered m (lent_of h) (answer_for m 1 (cells_of w)) }
{
    let none = [0u32; 0]; // no list of transitions
    let mut state = h.state;
    let mut actions = h.actions;
    let mut choices = h.choices;
    let mut masks = h.masks;
    let mut entries = h.entries;
    let mut corners = h.corners;
    let mut weights = h.weights;
    let mut values = h.values;
    let mut informed = h.informed;
    let mut qmdp = h.qmdp;
    offering::offer(
        transition,
        &none,
        observation,
        reward,
        c,
        &mut state,
        &mut actions,
        &mut choices,
        &mut masks,
        &mut entries,
        &mut corners,
        &mut weights,
        &mut values,
        &mut informed,
        &mut qmdp,
        c.states + POINTS,
        POINTS,
        &w.actions,
        &w.choices,
        &w.masks,
        &w.entries,
        &w.corners,
        &w.weights,
        &w.values,
    )
    .unwrap();
    Climber {
        state: state,
        actions: actions,
        choices: choices,
        masks: masks,
        entries: entries,
        corners: corners,
        weights: weights,
        values: values,
        informed: informed,
        qmdp: qmdp,
    }
}

// 21: from a state that an offered vector covers, the vector chosen for each observation covers every state that is reached with it.
#![tactic(auto)]

ghost use Rattle.std.specs.Prelude.{◌≡◌, ◌&&◌, ◌||◌, [], ℕ, ◌≤◌, ◌<◌, ltb, eqb, length, get_or};
ghost use Rattle.integers.specs.Search.{every, some};
ghost use Rattle.tables.specs.Limits.{max_states, max_actions, max_observations};
ghost use Rattle.tables.specs.Storage.{transition_in, observation_in, choice_in, model_in};
ghost use Rattle.tables.specs.Steps.{cells_to};
ghost use Rattle.masks.specs.Masks.{covered, covered_in};
ghost use Rattle.columns.specs.Steps.{Listed};
ghost use Rattle.levels.specs.Storage.{floor_in};
ghost use Rattle.levels.specs.Judged.{masks_verdict};
ghost use Rattle.reaches.specs.Steps.{reached_in, ActionStored, Chooses, Reaching};

use levels::shape;
use refusals::{Refusal, Verdict};
use tables::{Action, Counts, Observation, State, Vector, read};

// Whether a state is reached, with T above 0, from one of a mask.
fn reached(transition: &[u16], n: usize, mask: u64, a: Action, to: State) -> bool
    requires n_le_max_states { (n ≤ max_states) × ((a.0 < max_actions) × (to.0 < n)) }
    requires a_in_bounds { cells_to n n a.0 ≤ length transition.now }
    ensures { result ≡ some n (λ s. covered mask s && ltb 0 (transition_in n transition.now s a.0 to.0)) }
{
    for s in 0..n {
        if masks::covers(mask, State(s)) {
            if 0 < read::transition_at(transition, n, State(s), a, to) {
                return true;
            }
        }
    }
    false
}

// The same from the table's list where one is lent.
fn reached_by<'a>(
    transition: &'a [u16],
    list: &[u32],
    n: usize,
    mask: u64,
    a: Action,
    to: State,
) -> bool
    requires n_le_max_states { (n ≤ max_states) × ((a.0 < max_actions) × (to.0 < n)) }
    requires a_in_bounds { cells_to n n a.0 ≤ length transition.now }
    requires listed { Listed n transition.now list.now a.0 }
    ensures { result ≡ some n (λ s. covered mask s && ltb 0 (transition_in n transition.now s a.0 to.0)) }
{
    if list.len() == 0 {
        return reached(transition, n, mask, a, to);
    }
    sparse::reached(list, n, mask, a, to)
}

// Whether the vector that v chooses for each observation, with O above 0 at a state, covers the state.
fn seen_covered(
    observation: &[u16],
    masks: &[u64],
    choices: &[u16],
    n: usize,
    k: usize,
    v: Vector,
    a: Action,
    to: State,
) -> bool
    requires n_le_max_states { (n ≤ max_states) × ((k ≤ max_observations) × ((a.0 < max_actions) × (to.0 < n))) }
    requires a_in_bounds { cells_to n k a.0 ≤ length observation.now }
    requires chooses { Chooses k masks.now choices.now v.0 }
    ensures { result ≡ every k (λ o. eqb (observation_in n k observation.now a.0 to.0 o) 0
        || covered_in masks.now (choice_in k choices.now v.0 o) to.0) }
{
    for o in 0..k {
        if 0 < read::observation_at(observation, n, k, a, to, Observation(o)) {
            let chosen = read::choice_at(choices, k, v, Observation(o));
            let i = chosen.0;
            if !masks::covers(masks[i], to) {
                return false;
            }
        }
    }
    true
}

// Whether the vectors that v chooses cover all states: then they cover all that are reached.
fn chosen_cover(masks: &[u64], choices: &[u16], n: usize, k: usize, v: Vector) -> bool
    requires n_nonzero { (0 < n) × ((n ≤ max_states) × (k ≤ max_observations)) }
    requires chooses { Chooses k masks.now choices.now v.0 }
    ensures { result ≡ every k (λ o. every n (covered_in masks.now (choice_in k choices.now v.0 o))) }
{
    let all = masks::all(n);
    for o in 0..k {
        let chosen = read::choice_at(choices, k, v, Observation(o));
        let i = chosen.0;
        if !masks::has(masks[i], all) {
            return false;
        }
    }
    true
}

// 21 of a vector with a mask, an action and choices.
pub fn reached_covered<'a>(
    transition: &'a [u16],
    list: &[u32],
    observation: &'a [u16],
    masks: &[u64],
    choices: &[u16],
    n: usize,
    k: usize,
    v: Vector,
    a: Action,
    mask: u64,
) -> bool
    requires n_nonzero { (0 < n) × (ActionStored n k transition.now observation.now a.0) }
    requires chooses { Chooses k masks.now choices.now v.0 }
    requires listed { Listed n transition.now list.now a.0 }
    ensures { result ≡ reached_in n k transition.now observation.now masks.now (covered mask) a.0
        (choice_in k choices.now v.0) }
{
    if chosen_cover(masks, choices, n, k, v) {
        return true;
    }
    for to in 0..n {
        if reached_by(transition, list, n, mask, a, State(to)) {
            if !seen_covered(observation, masks, choices, n, k, v, a, State(to)) {
                return false;
            }
        }
    }
    true
}

// 21: the first vector with a state that it covers, from which one is reached that the vector chosen does not cover.
pub fn masks_hold<'a, 'b>(
    transition: &'a [u16],
    list: &[u32],
    observation: &'a [u16],
    masks: &[u64],
    actions: &'b [u8],
    choices: &'b [u16],
    covering: &'b [u64],
    c: Counts,
    vectors: usize,
) -> Verdict
    requires reaching { Reaching c transition.now observation.now masks.now vectors actions.now choices.now covering.now }
    requires by_index { (v : ℕ) → v < vectors → Listed c.states transition.now list.now (get_or actions.now v 0) }
    ensures { result ≡ masks_verdict (model_in c transition.now observation.now [])
        (floor_in c.states c.observations 0 [] [] masks.now [])
        (floor_in c.states c.observations vectors actions.now choices.now covering.now []) }
{
    for v in 0..vectors {
        let a = Action(shape::action(actions[v]));
        if !reached_covered(
            transition,
            list,
            observation,
            masks,
            choices,
            c.states,
            c.observations,
            Vector(v),
            a,
            covering[v],
        ) {
            return Err(Refusal(21, v));
        }
    }
    Ok(())
}

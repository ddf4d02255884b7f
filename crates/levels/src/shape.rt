// Refusals 9 and 10 of a level by itself, and whether slices are long enough for it.
ghost use Rattle.std.specs.Prelude.{◌≡◌, ◌&&◌, ◌*◌, ◌≤◌, ◌<◌, leb, length, get_or};
ghost use Rattle.tables.specs.Limits.{max_states, max_actions, max_observations, max_vectors};
ghost use Rattle.plans.specs.Limits.{max_points};
ghost use Rattle.tables.specs.Storage.{choice_in};
ghost use Rattle.levels.specs.Storage.{long_enough};
ghost use Rattle.levels.specs.Judged.{counts_hold, actions_exist, numbers_in};

use super::Level;
use refusals::{Refusal, Verdict};
use tables::{Action, Observation, Tables, Vector, read};

// 9
pub fn counts_hold(vectors: usize, points: usize) -> bool
    ensures { result ≡ counts_hold max_vectors vectors points }
{
    if !tables::count_within(Tables::VECTORS, vectors) {
        return false;
    }
    points <= Level::POINTS
}

// An action's number, as it is stored.
pub fn action(x: u8) -> usize
    ensures { result ≡ x }
{
    x as usize
}

// And as it is stored again.
pub fn number(a: Action) -> u8
    requires { a.0 < max_actions }
    ensures { result ≡ a.0 }
{
    a.0 as u8
}

pub fn actions_exist(actions: &[u8], vectors: usize, m: usize) -> bool
    requires { vectors ≤ length actions.now }
    ensures { result ≡ actions_exist m vectors (λ v. get_or actions.now v 0) }
{
    actions[..vectors].iter().all(|a| action(*a) < m)
}

// 10 of a level, 18 of a plan graph: the first vector or node whose action, or a number that it chooses, does not exist.
pub fn numbers_exist<'a>(
    actions: &'a [u8],
    choices: &'a [u16],
    vectors: usize,
    m: usize,
    k: usize,
    standing: usize,
    number: u8,
) -> Verdict
    requires vectors_le_max_vectors { (vectors ≤ max_vectors) × (k ≤ max_observations) }
    requires vectors_in_bounds { (vectors ≤ length actions.now) × (vectors * k ≤ length choices.now) }
    ensures { result ≡ numbers_in number vectors m k standing (λ v. get_or actions.now v 0) (choice_in k choices.now) }
{
    let mut found = Ok(());
    'vectors: for v in 0..vectors {
        if m <= action(actions[v]) {
            found = Err(Refusal(number, v));
            break 'vectors;
        }
        for o in 0..k {
            let chosen = read::choice_at(choices, k, Vector(v), Observation(o));
            if standing <= chosen.0 {
                found = Err(Refusal(number, v));
                break 'vectors;
            }
        }
    }
    found
}

// Whether slices are long enough for what is read of a level: its choices are not read once it stands.
pub fn readable(
    n: usize,
    vectors: usize,
    points: usize,
    actions: usize,
    masks: usize,
    entries: usize,
    corners: usize,
    weights: usize,
    values: usize,
) -> bool
    requires { (n ≤ max_states) × ((vectors ≤ max_vectors) × (points ≤ max_points)) }
    ensures { result ≡ long_enough n vectors points actions masks entries corners weights values }
{
    if actions < vectors {
        return false;
    }
    if masks < vectors {
        return false;
    }
    if entries < vectors * n {
        return false;
    }
    if corners < n {
        return false;
    }
    if weights < points * n {
        return false;
    }
    points <= values
}

// Whether slices are long enough for all of a level.
pub fn complete(
    n: usize,
    k: usize,
    vectors: usize,
    points: usize,
    actions: usize,
    choices: usize,
    masks: usize,
    entries: usize,
    corners: usize,
    weights: usize,
    values: usize,
) -> bool
    requires { (n ≤ max_states) × ((k ≤ max_observations) × ((vectors ≤ max_vectors) × (points ≤ max_points))) }
    ensures { result ≡ leb (vectors * k) choices && long_enough n vectors points actions masks entries corners weights values }
{
    if choices < vectors * k {
        return false;
    }
    readable(
        n, vectors, points, actions, masks, entries, corners, weights, values,
    )
}

// The builder: from a standing level and the weights of some points, a level that is always accepted.
#![tactic(auto)]

ghost use Rattle.std.specs.Prelude.{◌≡◌, true, [], ℕ, ◌+◌, ◌*◌, ◌-◌, ◌≤◌, ◌<◌, length};
ghost use Rattle.tables.specs.Limits.{max_states};
ghost use Rattle.tables.specs.Storage.{weight_in, model_in, tables_in};
ghost use Rattle.tables.specs.Steps.{rows_to};
ghost use Rattle.plans.specs.Limits.{max_built};
ghost use Rattle.plans.specs.Level.{IsPoint};
ghost use Rattle.plans.specs.Build.{seed, built};
ghost use Rattle.levels.specs.Storage.{cells, level_in, point_in, lent_for, complete, over};
ghost use Rattle.columns.specs.Steps.{Lists};
ghost use Rattle.backups.specs.Steps.{Roofed};
ghost use Rattle.candidates.specs.Steps.{upon_in, Upon};
ghost use Rattle.builder.specs.Steps.{RowsFit, Filled};

use levels::shape;
use tables::{Counts, State, Vector, Weights, read};

// The weights at which vector v is made: corner 0, 1, .., then the points.
fn seed_weights(weights: &[u32], n: usize, v: Vector) -> Weights
    requires n_le_max_states { (n ≤ max_states) × (v.0 < n + max_built) }
    requires n_in_bounds { n ≤ v.0 → rows_to n (v.0 - n) ≤ length weights.now }
    ensures { (s : ℕ) → s < n → weight_in result s ≡ seed n (point_in n weights.now) v.0 s }
{
    let i = v.0;
    if i < n {
        return backups::corner_weights(State(i));
    }
    weights::point_weights(weights, n, i - n)
}

// A vector at each corner, then at each point.
fn build_vectors<'a>(
    transition: &'a [u16],
    list: &[u32],
    observation: &'a [u16],
    reward: &'a [i64],
    covered: &[u64],
    standing: &[i64],
    weights: &[u32],
    c: Counts,
    vectors: usize,
    points: usize,
    actions: &mut [u8],
    choices: &mut [u16],
    masks: &mut [u64],
    entries: &mut [i64],
)
    requires upon { Upon c transition.now observation.now reward.now covered.now standing.now vectors }
    requires points_le_max_built { (points ≤ max_built) × (points * c.states ≤ length weights.now) }
    requires by_index { (i : ℕ) → i < points → IsPoint c.states (point_in c.states weights.now i) }
    requires rows_fit { RowsFit c.states c.observations (c.states + points) actions.old choices.old masks.old entries.old }
    requires lists { Lists c transition.now list.now }
    ensures { Filled c.states c.observations (built (model_in c transition.now observation.now
        reward.now) (upon_in c vectors covered.now standing.now) points (point_in c.states weights.now))
        (c.states + points) actions.old choices.old masks.old entries.old actions.new
        choices.new masks.new entries.new }
{
    let n = c.states;
    let k = c.observations;
    let count = n + points;
    let all = masks::all(n);
    for v in 0..count {
        let p = seed_weights(weights, n, Vector(v));
        let best = candidates::best_candidate(
            transition,
            list,
            observation,
            reward,
            covered,
            standing,
            &p,
            c,
            vectors,
        );
        let made = best.candidate;
        let chosen = made.chosen;
        let row = made.entries;
        actions[v] = shape::number(best.action);
        masks[v] = all;
        cells::paste(choices, read::start(v, k), &chosen, k);
        cells::paste(entries, read::start(v, n), &row, n);
    }
}

// The built level, written over lent slices: its actions, choices, masks (`covers`), entries (`made`), corners (`least`) and values (`worths`). The weights
// of its points are those that were given.
pub fn build_level<'a, 'b>(
    transition: &'a [u16],
    list: &[u32],
    observation: &'a [u16],
    reward: &'a [i64],
    c: Counts,
    masks: &'b [u64],
    entries: &'b [i64],
    corners: &'b [i64],
    weights: &'b [u32],
    values: &'b [i64],
    vectors: usize,
    points: usize,
    given: &[u32],
    count: usize,
    actions: &mut [u8],
    choices: &mut [u16],
    covers: &mut [u64],
    made: &mut [i64],
    least: &mut [i64],
    worths: &mut [i64],
)
    requires upon { Upon c transition.now observation.now reward.now masks.now entries.now vectors }
    requires roofed { Roofed c transition.now observation.now reward.now corners.now points weights.now values.now }
    requires count_le_max_built { (count ≤ max_built) × ((i : ℕ) → i < count → IsPoint c.states (point_in c.states given.now i)) }
    requires worths_value { complete (tables_in c transition.now observation.now reward.now) (lent_for (c.states + count) count
        (cells actions.old choices.old covers.old made.old least.old given.now worths.old)) ≡ true }
    requires lists { Lists c transition.now list.now }
    ensures { cells actions.new choices.new covers.new made.new least.new given.now
        worths.new
        ≡ over (tables_in c transition.now observation.now reward.now)
        (built (model_in c transition.now observation.now reward.now)
        (level_in c.states c.observations vectors [] [] masks.now entries.now corners.now points weights.now
        values.now)
        count (point_in c.states given.now))
        (cells actions.old choices.old covers.old made.old least.old given.now
        worths.old) }
{
    build_vectors(
        transition,
        list,
        observation,
        reward,
        masks,
        entries,
        given,
        c,
        vectors,
        count,
        actions,
        choices,
        covers,
        made,
    );
    roofing::build_roof(
        transition,
        list,
        observation,
        reward,
        corners,
        weights,
        values,
        given,
        c,
        points,
        count,
        least,
        worths,
    );
}

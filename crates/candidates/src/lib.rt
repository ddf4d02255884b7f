// The best action's vector at some weights, from a standing level's vectors.
#![tactic(auto)]

ghost use Rattle.std.specs.Prelude.{◌≡◌, ℕ, ◌≤◌, ◌<◌};
ghost use Rattle.integers.specs.Whole.{Below};
ghost use Rattle.integers.specs.Search.{first_largest_of};
ghost use Rattle.integers.specs.Cells.{padded};
ghost use Rattle.tables.specs.Limits.{max_states, max_actions, max_observations, one};
ghost use Rattle.tables.specs.Storage.{weight_in, model_in};
ghost use Rattle.masks.specs.Masks.{masked_in};
ghost use Rattle.masks.specs.Steps.{MaskedFit};
ghost use Rattle.sums.specs.Steps.{moved_in, seen_in, ObservationsFit, RewardsFit, moved_limit};
ghost use Rattle.columns.specs.Steps.{Lists};
ghost use Rattle.engines.specs.Steps.{EngineFits};
ghost use Rattle.plans.specs.Limits.{max_total, max_reached};
ghost use Rattle.plans.specs.Level.{product};
ghost use Rattle.backups.specs.Steps.{Light};
ghost use Rattle.candidates.specs.Steps.{whole_in, candidate_in, best_of, upon_in, Upon};

use tables::{Action, ByState, Chosen, Counts, Observation, Tables, Vector, read};

// One action's vector at some weights.
#[derive(Clone, Copy)]
pub struct Candidate {
    pub chosen: Chosen,
    pub entries: ByState,
}

// The first action whose vector has the largest product, with its vector.
#[derive(Clone, Copy)]
pub struct Best {
    pub action: Action,
    pub candidate: Candidate,
}

// For each observation, the first previous vector with the largest product with the successor weights, of those that cover all states.
fn choose(
    observation: &[u16],
    masks: &[u64],
    entries: &[i64],
    u: &[u64],
    n: usize,
    k: usize,
    count: usize,
    a: Action,
) -> Chosen
    requires n_le_max_states { (n ≤ max_states) × ((k ≤ max_observations) × ((a.0 < max_actions) × ((0 < n) × (0 < count)))) }
    requires below { Below moved_limit n u.now }
    requires observations_fit { ObservationsFit n k observation.now a.0 }
    requires by_index { (o : ℕ) → o < k → (s : ℕ) → s < n → seen_in n k observation.now u.now a.0 o s ≤ max_reached }
    requires masked_fit { MaskedFit n count masks.now entries.now }
    ensures { result ≡ padded 0 max_observations k (λ o. first_largest_of count (whole_in n masks.now)
        (λ v. product n (weight_in (padded 0 max_states n (seen_in n k observation.now u.now a.0 o)))
        (masked_in n masks.now entries.now v))) }
{
    let all = masks::all(n);
    let mut chosen = [0u16; Tables::OBSERVATIONS];
    for o in 0..k {
        let q = sums::successors(observation, n, k, u, a, Observation(o));
        let best = products::best_vector(&q, masks, entries, n, count, all);
        read::put_choice(&mut chosen, k, Vector(0), Observation(o), best);
    }
    chosen
}

// One action's vector at weights p.
fn vector_for<'a>(
    transition: &'a [u16],
    list: &[u32],
    observation: &'a [u16],
    reward: &'a [i64],
    masks: &[u64],
    entries: &[i64],
    p: &[u64],
    c: Counts,
    count: usize,
    a: Action,
) -> Candidate
    requires states_le_max_states { (c.states ≤ max_states) × ((c.observations ≤ max_observations) × ((a.0 < max_actions) × (c.discount ≤ one))) }
    requires states_nonzero { (0 < c.states) × (0 < count) }
    requires below { Below max_total c.states p.now }
    requires engine_fits { (EngineFits c.states transition.now list.now a.0) ×
        ((ObservationsFit c.states c.observations observation.now a.0) × (RewardsFit c.states reward.now a.0)) }
    requires by_index { (o : ℕ) → o < c.observations → (s : ℕ) → s < c.states → seen_in c.states c.observations observation.now
        (padded 0 max_states c.states (moved_in c.states transition.now p.now a.0)) a.0 o s ≤ max_reached }
    requires masked_fit { MaskedFit c.states count masks.now entries.now }
    ensures { result ≡ candidate_in c transition.now observation.now reward.now masks.now
        entries.now count p.now a.0 }
{
    let n = c.states;
    let k = c.observations;
    let u = engines::moved(transition, list, n, p, a);
    let chosen = choose(observation, masks, entries, &u, n, k, count, a);
    let f = vectors::foreseen(observation, n, k, masks, entries, &chosen, Vector(0), a);
    let b = engines::backups(transition, list, reward, &f, n, c.discount, a);
    let e = vectors::floored(&b, n);
    Candidate {
        chosen: chosen,
        entries: e,
    }
}

// The first action whose vector has the largest product with p.
pub fn best_candidate<'a>(
    transition: &'a [u16],
    list: &[u32],
    observation: &'a [u16],
    reward: &'a [i64],
    masks: &[u64],
    entries: &[i64],
    p: &[u64],
    c: Counts,
    count: usize,
) -> Best
    requires upon { Upon c transition.now observation.now reward.now masks.now entries.now count }
    requires light { Light c.states p.now }
    requires lists { Lists c transition.now list.now }
    ensures { result ≡ best_of (model_in c transition.now observation.now reward.now)
        (upon_in c count masks.now entries.now) p.now }
{
    let n = c.states;
    let actions = c.actions;
    let mut action: usize = 0;
    let mut best = vector_for(
        transition,
        list,
        observation,
        reward,
        masks,
        entries,
        p,
        c,
        count,
        Action(0),
    );
    let first = best.entries;
    let mut most = products::product(p, &first, 0, n);
    for a in 1..actions {
        let next = vector_for(
            transition,
            list,
            observation,
            reward,
            masks,
            entries,
            p,
            c,
            count,
            Action(a),
        );
        let made = next.entries;
        let here = products::product(p, &made, 0, n);
        if most < here {
            most = here;
            action = a;
            best = next;
        }
    }
    Best {
        action: Action(action),
        candidate: best,
    }
}

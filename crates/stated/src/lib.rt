// What a solver's alpha file and policy graph file say of each vector of a level, over the level that stands, and whether it exists: 10 and 21.
#![tactic(auto)]

ghost use Rattle.std.specs.Prelude.{◌≡◌, ◌≤◌, ◌<◌, ltb, length, get_or};
ghost use Rattle.integers.specs.Cells.{padded};
ghost use Rattle.tables.specs.Limits.{max_states, max_observations};
ghost use Rattle.refusals.specs.Verdicts.{◌before◌, unless, first_of};
ghost use Rattle.levels.specs.Judged.{numbers_in};
ghost use Rattle.solver.specs.Files.{vectors_in, action_at};
ghost use Rattle.stated.specs.Stated.{chosen_over};
ghost use Rattle.stated.specs.Steps.{choices_at, ReadTo, Files, SaysVector, Choosing, masks_over};

use alphas::{Alpha, NextNodes, Node};
use refusals::{Refusal, Verdict};
use tables::{Action, ByState, Chosen, Counts, Observation, Tables, Vector, read};

// What both files say of a vector, and where they go on after it.
#[derive(Clone, Copy)]
pub struct Said {
    pub alpha: usize,
    pub graph: usize,
    pub action: Action,
    pub ticks: ByState,
    pub chosen: Chosen,
}

// ---- one vector

// The number of the vector that a next node stands for, over level t, as it is stored.
fn chosen_over(t: usize, next: u16) -> u16
    ensures { result ≡ chosen_over t next }
{
    if 0 < t {
        return next;
    }
    if read::wide(next) == Node::HYPHEN {
        return 0;
    }
    next
}

// The same for each observation.
fn choices_of(next: NextNodes, k: usize, t: usize) -> Chosen
    requires { k ≤ max_observations }
    ensures { result ≡ padded 0 max_observations k (λ o. chosen_over t (get_or next o 0)) }
{
    let mut chosen = [0u16; Tables::OBSERVATIONS];
    for o in 0..k {
        chosen[o] = chosen_over(t, next[o]);
    }
    chosen
}

// Vector v, read from both files.
pub fn said_at<'c>(
    alpha: &'c [u8],
    graph: &'c [u8],
    n: usize,
    k: usize,
    t: usize,
    v: usize,
    p: usize,
    q: usize,
) -> Said
    requires n_le_max_states { (n ≤ max_states) × (k ≤ max_observations) }
    requires v_bound { (v < vectors_in n alpha.now) × (ReadTo n k alpha.now graph.now v p q) }
    ensures { SaysVector n k t alpha.now graph.now v result }
{
    let x = alphas::alpha_at(alpha, p, n).unwrap();
    let y = alphas::node_at(graph, q, v, k).unwrap();
    let Alpha { action, ticks } = x.value;
    let chosen = choices_of(y.value.next, k, t);
    Said {
        alpha: x.next,
        graph: y.next,
        action: Action(action as usize),
        ticks,
        chosen,
    }
}

// ---- 10 and 21

// 10 of vector v: its action, then what it chooses.
fn vector_exists(
    a: Action,
    chosen: &[u16],
    m: usize,
    k: usize,
    standing: usize,
    v: usize,
) -> Verdict
    requires { (k ≤ max_observations) × (k ≤ length chosen.now) }
    ensures { result ≡ (unless (ltb a.0 m) 10 v before first_of k (λ o. unless (ltb (get_or chosen.now o 0) standing) 10 v)) }
{
    if m <= a.0 {
        return Err(Refusal(10, v));
    }
    for o in 0..k {
        let next = read::choice_at(chosen, k, Vector(0), Observation(o));
        if standing <= next.0 {
            return Err(Refusal(10, v));
        }
    }
    Ok(())
}

// 10: the first vector whose action, or a vector that it chooses, does not exist.
pub fn numbers_hold<'c>(
    alpha: &'c [u8],
    graph: &'c [u8],
    c: Counts,
    standing: usize,
    t: usize,
    count: usize,
) -> Verdict
    requires { Files c.states c.observations alpha.now graph.now count }
    ensures { result ≡ numbers_in 10 count c.actions c.observations standing (action_at c.states alpha.now)
        (choices_at c.observations t graph.now) }
{
    let mut p: usize = 0;
    let mut q: usize = 0;
    for v in 0..count {
        let x = said_at(alpha, graph, c.states, c.observations, t, v, p, q);
        vector_exists(x.action, &x.chosen, c.actions, c.observations, standing, v)?;
        p = x.alpha;
        q = x.graph;
    }
    Ok(())
}

// 21: the first vector that chooses one which does not cover a state that is reached.
pub fn masks_hold<'a, 'c>(
    transition: &'a [u16],
    observation: &'a [u16],
    masks: &[u64],
    c: Counts,
    t: usize,
    alpha: &'c [u8],
    graph: &'c [u8],
    count: usize,
) -> Verdict
    requires { Choosing c transition.now observation.now masks.now t alpha.now graph.now count }
    ensures { result ≡ masks_over c transition.now observation.now masks.now count
        (action_at c.states alpha.now) (choices_at c.observations t graph.now) }
{
    let n = c.states;
    let k = c.observations;
    let all = masks::all(n);
    let none = [0u32; 0]; // no list of transitions
    let mut p: usize = 0;
    let mut q: usize = 0;
    for v in 0..count {
        let x = said_at(alpha, graph, n, k, t, v, p, q);
        if !reaches::reached_covered(
            transition,
            &none,
            observation,
            masks,
            &x.chosen,
            n,
            k,
            Vector(0),
            x.action,
            all,
        ) {
            return Err(Refusal(21, v));
        }
        p = x.alpha;
        q = x.graph;
    }
    Ok(())
}

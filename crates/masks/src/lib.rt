// Masks of vectors: the states that they cover, as the bits of a number; and entries where they are covered.
#![tactic(auto)]

ghost use Rattle.std.specs.Prelude.{◌≡◌, true, ◌≤◌, ◌<◌, ◌^◌, ltb, length};
ghost use Rattle.tables.specs.Limits.{max_states, max_vectors};
ghost use Rattle.tables.specs.Storage.{weight_in};
ghost use Rattle.tables.specs.Steps.{rows_to};
ghost use Rattle.masks.specs.Masks.{covered, mask_of, masked_in};
ghost use Rattle.masks.specs.Steps.{includes, some_includes};

use tables::{State, Vector, read};

// Whether a state is in the mask.
#[tactic(auto, unfolding(crate::specs::Masks::covered))]
pub fn covers(mask: u64, s: State) -> bool
    requires { s.0 < max_states }
    ensures { result ≡ covered mask s.0 }
{
    (mask >> s.0) % 2 == 1
}

// The mask of one state.
fn only(s: State) -> u64
    requires { s.0 < max_states }
    ensures { result ≡ 2 ^ s.0 }
{
    1u64 << s.0
}

// The mask of all n states.
pub fn all(n: usize) -> u64
    requires { (0 < n) × (n ≤ max_states) }
    ensures { result ≡ mask_of n (λ s. true) }
{
    (only(State(n - 1)) - 1) * 2 + 1
}

// What is left of a mask below n states.
pub fn narrowed(mask: u64, n: usize) -> u64
    requires { (0 < n) × (n ≤ max_states) }
    ensures { result ≡ mask_of n (covered mask) }
{
    mask & all(n)
}

// The mask of the states with a weight above 0.
pub fn support(q: &[u64], n: usize) -> u64
    requires { (n ≤ max_states) × (n ≤ length q.now) }
    ensures { result ≡ mask_of n (λ s. ltb 0 (weight_in q.now s)) }
{
    let mut states: u64 = 0;
    for s in 0..n {
        if 0 < q[s] {
            states = states + only(State(s));
        }
    }
    states
}

// Whether a mask has each of some states.
pub fn has(mask: u64, states: u64) -> bool
    ensures { result ≡ includes mask states }
{
    mask & states == states
}

// Whether the mask of some vector has.
pub fn some_has(masks: &[u64], vectors: usize, states: u64) -> bool
    requires { vectors ≤ length masks.now }
    ensures { result ≡ some_includes masks.now vectors states }
{
    masks[..vectors].iter().any(|mask| has(*mask, states))
}

// The entry of a vector at a state, or 0 where it does not cover the state.
pub fn entry_at(masks: &[u64], entries: &[i64], n: usize, v: Vector, s: State) -> i64
    requires n_le_max_states { (n ≤ max_states) × (v.0 < max_vectors) }
    requires s_lt_n { s.0 < n }
    requires v_in_bounds { (v.0 < length masks.now) × (rows_to n v.0 ≤ length entries.now) }
    ensures { result ≡ masked_in n masks.now entries.now v.0 s.0 }
{
    let i = v.0;
    if !covers(masks[i], s) {
        return 0;
    }
    read::entry_at(entries, n, v, s)
}

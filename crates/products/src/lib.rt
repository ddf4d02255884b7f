// Products of weights with vectors, the first vector with the largest of those whose masks have some states, and the largest product of rows.
#![tactic(auto)]

ghost use Rattle.std.specs.Prelude.{◌≡◌, true, ℕ, ◌+◌, ◌≤◌, ◌<◌, length, get_or, pos, nat_abs};
ghost use Rattle.integers.specs.Whole.{Below};
ghost use Rattle.integers.specs.Search.{first_largest_of};
ghost use Rattle.tables.specs.Limits.{max_states, max_entry};
ghost use Rattle.tables.specs.Steps.{EntriesFit};
ghost use Rattle.tables.specs.Storage.{weight_in, entry_in};
ghost use Rattle.masks.specs.Masks.{covered, masked_in};
ghost use Rattle.masks.specs.Steps.{includes, MaskedFit};
ghost use Rattle.plans.specs.Limits.{max_reached};
ghost use Rattle.plans.specs.Level.{product};
ghost use Rattle.plans.specs.Rows.{highest};

use tables::{Vector, read};

// The product of weights with the n numbers from `at` on.
pub fn product(q: &[u64], cells: &[i64], at: usize, n: usize) -> i64
    requires n_le_max_states { (n ≤ max_states) × (at + n ≤ length cells.now) }
    requires below { Below max_reached n q.now }
    requires by_index { (s : ℕ) → s < n → 0 < weight_in q.now s → nat_abs (get_or cells.now (at + s) (pos 0)) ≤ max_entry }
    ensures { result ≡ product n (weight_in q.now) (λ s. get_or cells.now (at + s) (pos 0)) }
{
    let mut sum: i64 = 0;
    for s in 0..n {
        sum = integers::add_scaled(sum, q[s], cells[at + s]);
    }
    sum
}

// The first vector with the largest product, of those whose masks have some states, among them all with a weight above 0.
pub fn best_vector(
    q: &[u64],
    masks: &[u64],
    entries: &[i64],
    n: usize,
    vectors: usize,
    states: u64,
) -> Vector
    requires n_le_max_states { (n ≤ max_states) × (0 < vectors) }
    requires below { Below max_reached n q.now }
    requires masked_fit { MaskedFit n vectors masks.now entries.now }
    requires by_index { (s : ℕ) → s < n → 0 < weight_in q.now s → covered states s ≡ true }
    ensures { result.0 ≡ first_largest_of vectors (λ v. includes (get_or masks.now v 0) states)
        (λ v. product n (weight_in q.now) (masked_in n masks.now entries.now v)) }
{
    let mut found = false;
    let mut best: usize = 0;
    let mut most: i64 = 0;
    for v in 0..vectors {
        if masks::has(masks[v], states) {
            let here = product(q, entries, read::start(v, n), n);
            if !found || most < here {
                found = true;
                most = here;
                best = v;
            }
        }
    }
    Vector(best)
}

// The largest product.
pub fn largest_product(q: &[u64], entries: &[i64], n: usize, vectors: usize) -> i64
    requires n_le_max_states { (n ≤ max_states) × (0 < vectors) }
    requires below { Below max_reached n q.now }
    requires entries_fit { EntriesFit n vectors entries.now }
    ensures { result ≡ highest vectors (λ v. product n (weight_in q.now) (entry_in n entries.now v)) }
{
    let mut most = product(q, entries, read::start(0, n), n);
    for v in 1..vectors {
        let met = product(q, entries, read::start(v, n), n);
        if most < met {
            most = met;
        }
    }
    most
}

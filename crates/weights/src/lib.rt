// The weights of a point or of a mixture, and refusal 12: what those of a point total.
#![tactic(auto)]

ghost use Rattle.std.specs.Prelude.{◌≡◌, ◌+◌, ◌*◌, ◌≤◌, ◌<◌, length, get_or};
ghost use Rattle.integers.specs.Whole.{total_to};
ghost use Rattle.integers.specs.Cells.{padded};
ghost use Rattle.tables.specs.Limits.{max_states};
ghost use Rattle.plans.specs.Limits.{max_points};
ghost use Rattle.tables.specs.Steps.{rows_to};
ghost use Rattle.levels.specs.Storage.{point_in};
ghost use Rattle.levels.specs.Judged.{total_holds, weights_verdict};

use levels::Level;
use refusals::{Refusal, Verdict};
use tables::{Tables, Weights, read};

// The weights of row i: of a point, or of a mixture, which is a row alone.
pub fn point_weights(weights: &[u32], n: usize, i: usize) -> Weights
    requires n_le_max_states { (n ≤ max_states) × (i < max_points) }
    requires i_in_bounds { rows_to n i ≤ length weights.now }
    ensures { result ≡ padded 0 max_states n (point_in n weights.now i) }
{
    let mut p = [0u64; Tables::STATES];
    for s in 0..n {
        let at = read::row(i, n, s);
        p[s] = u64::from(weights[at]);
    }
    p
}

// The total of the n weights from `at` on.
pub fn weights_total(cells: &[u32], at: usize, n: usize) -> u64
    requires { (at + n ≤ length cells.now) × (n ≤ max_states) }
    ensures { result ≡ total_to n (λ s. get_or cells.now (at + s) 0) }
{
    let mut sum: u64 = 0;
    for cell in &cells[at..at + n] {
        sum += u64::from(*cell);
    }
    sum
}

// Whether weights total from 1 to 100.
pub fn total_holds(total: u64) -> bool
    ensures { result ≡ total_holds total }
{
    if total < 1 {
        return false;
    }
    total <= Level::TOTAL
}

// 12: the first point whose weights total less than 1 or more than 100.
pub fn weights_hold(cells: &[u32], n: usize, points: usize) -> Verdict
    requires n_le_max_states { (n ≤ max_states) × (points ≤ max_points) }
    requires n_in_bounds { points * n ≤ length cells.now }
    ensures { result ≡ weights_verdict n points (point_in n cells.now) }
{
    for i in 0..points {
        if !total_holds(weights_total(cells, read::start(i, n), n)) {
            return Err(Refusal(12, i));
        }
    }
    Ok(())
}

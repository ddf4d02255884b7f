// Refusal 11 of a level by itself: the ranges of entries, corners and values.
#![tactic(auto)]

ghost use Rattle.std.specs.Prelude.{◌≡◌, ◌*◌, ◌≤◌, ◌<◌, ◌^◌, length, get_or, pos};
ghost use Rattle.tables.specs.Limits.{max_states, max_vectors, max_entry};
ghost use Rattle.plans.specs.Limits.{max_points};
ghost use Rattle.tables.specs.Storage.{row_place};
ghost use Rattle.masks.specs.Masks.{masked_in};
ghost use Rattle.levels.specs.Storage.{point_in};
ghost use Rattle.levels.specs.Judged.{rows_within, value_holds, values_within};

use refusals::{Refusal, Verdict};
use tables::{State, Vector, read};

// 11 of corners, and 7 of rows: the first row, of width w, with a number outside ± limit.
pub fn rows_within(cells: &[i64], rows: usize, w: usize, limit: u64, number: u8) -> Verdict
    requires rows_le_max_vectors { (rows ≤ max_vectors) × ((w ≤ max_states) × (limit < 2 ^ 63)) }
    requires w_in_bounds { rows * w ≤ length cells.now }
    ensures { result ≡ rows_within number rows w limit (λ i x. get_or cells.now (row_place w i x) (pos 0)) }
{
    let mut found = Ok(());
    'rows: for i in 0..rows {
        for x in 0..w {
            let at = read::row(i, w, x);
            if !integers::within(limit, cells[at]) {
                found = Err(Refusal(number, i));
                break 'rows;
            }
        }
    }
    found
}

// 11 of entries: the first vector with one outside ± limit, at a state that it covers.
pub fn entries_within<'a>(
    masks: &'a [u64],
    entries: &'a [i64],
    vectors: usize,
    n: usize,
    limit: u64,
) -> Verdict
    requires vectors_le_max_vectors { (vectors ≤ max_vectors) × ((n ≤ max_states) × (limit < 2 ^ 63)) }
    requires vectors_in_bounds { (vectors ≤ length masks.now) × (vectors * n ≤ length entries.now) }
    ensures { result ≡ rows_within 11 vectors n limit (masked_in n masks.now entries.now) }
{
    let mut found = Ok(());
    'vectors: for v in 0..vectors {
        for s in 0..n {
            let e = masks::entry_at(masks, entries, n, Vector(v), State(s));
            if !integers::within(limit, e) {
                found = Err(Refusal(11, v));
                break 'vectors;
            }
        }
    }
    found
}

// Whether a value lies within ± total × limit. It is passed over where the total is no point's: that is refused by 12.
fn value_holds(total: u64, limit: u64, value: i64) -> bool
    requires { limit ≤ max_entry }
    ensures { result ≡ value_holds total limit value }
{
    if !weights::total_holds(total) {
        return true;
    }
    integers::within(total * limit, value)
}

// 11 of points: the first whose value is outside its range.
pub fn values_within<'a>(
    weights: &'a [u32],
    values: &'a [i64],
    n: usize,
    points: usize,
    limit: u64,
) -> Verdict
    requires n_le_max_states { (n ≤ max_states) × ((points ≤ max_points) × (limit ≤ max_entry)) }
    requires n_in_bounds { (points * n ≤ length weights.now) × (points ≤ length values.now) }
    ensures { result ≡ values_within n points limit (point_in n weights.now) (λ i. get_or values.now i (pos 0)) }
{
    for i in 0..points {
        let total = weights::weights_total(weights, read::start(i, n), n);
        if !value_holds(total, limit, values[i]) {
            return Err(Refusal(11, i));
        }
    }
    Ok(())
}

// The ceiling at some weights, and the gains of a level's points, worked out once for it.
#![tactic(auto)]

ghost use Rattle.std.specs.Prelude.{◌≡◌, ◌*◌, ◌≤◌, nat_abs, ◌-ℤ◌};
ghost use Rattle.integers.specs.Whole.{Below};
ghost use Rattle.integers.specs.Cells.{padded};
ghost use Rattle.tables.specs.Limits.{max_states, max_entry};
ghost use Rattle.tables.specs.Storage.{weight_in};
ghost use Rattle.plans.specs.Limits.{max_points, max_total, max_reached};
ghost use Rattle.plans.specs.Level.{product};
ghost use Rattle.levels.specs.Storage.{corner_in};
ghost use Rattle.sawtooth.specs.Steps.{positive, gain_in, ceiling_in, CornersFit, PointsFit, ValuesFit, max_gain};

use levels::Level;

pub type Gains = [u64; Level::POINTS];

// The positive part of a point's gain: corners · p less its value.
fn gain_of(corners: &[i64], p: &[u64], value: i64, n: usize) -> u64
    requires n_le_max_states { n ≤ max_states }
    requires corners_fit { CornersFit n corners.now }
    requires below { Below max_total n p.now }
    requires value_bound { nat_abs value ≤ max_total * max_entry }
    ensures { result ≡ positive (product n (weight_in p.now) (corner_in corners.now) -ℤ value) }
{
    let g = integers::minus(products::product(p, corners, 0, n), value);
    if g < 0 {
        return 0;
    }
    g as u64
}

// The positive part of each point's gain.
pub fn gains<'a>(
    corners: &'a [i64],
    weights: &'a [u32],
    values: &'a [i64],
    points: usize,
    n: usize,
) -> Gains
    requires n_le_max_states { n ≤ max_states }
    requires corners_fit { CornersFit n corners.now }
    requires points_fit { PointsFit n points weights.now }
    requires values_fit { ValuesFit points values.now }
    ensures { result ≡ padded 0 max_points points (λ i. positive (gain_in n corners.now weights.now values.now i)) }
{
    let mut g = [0u64; Level::POINTS];
    for i in 0..points {
        let p = weights::point_weights(weights, n, i);
        g[i] = gain_of(corners, &p, values[i], n);
    }
    g
}

// The ceiling at q.
pub fn ceiling<'a>(
    q: &[u64],
    corners: &'a [i64],
    weights: &'a [u32],
    gains: &[u64],
    points: usize,
    n: usize,
) -> i64
    requires n_le_max_states { n ≤ max_states }
    requires below { Below max_reached n q.now }
    requires corners_fit { CornersFit n corners.now }
    requires points_fit { PointsFit n points weights.now }
    requires below_2 { Below max_gain points gains.now }
    ensures { result ≡ ceiling_in n corners.now weights.now gains.now points q.now }
{
    let d = sawtooth::largest_drop(q, weights, gains, points, n);
    integers::minus(products::product(q, corners, 0, n), d as i64)
}

// A level: alpha vectors with their masks, corner values and point values, in slices packed by the counts: actions and masks by vector, choices by vector
// and observation, entries by vector and state, corners by state, weights by point and state, values by point.
#![tactic(auto)]

pub mod shape; // 9 and 10, and lengths of slices

ghost use Rattle.std.specs.Prelude.{◌≡◌, ◌∷◌, ◌+◌, ◌≤◌, ◌<◌, length, drop};
ghost use Rattle.tables.specs.Limits.{max_levels};
ghost use Rattle.levels.specs.Storage.{state_size, standing_at, fresh_standing};

#[derive(Clone, Copy)]
pub struct Level {}

impl Level {
    pub const LEVELS: usize = 100; // that are accepted

    pub const POINTS: usize = 32;

    pub const BUILT: usize = 16; // points that the builder takes

    pub const TOTAL: u64 = 100; // at most, of a point's weights

    pub const WEIGHT: u64 = 1_000_000; // of a mixture
}

// What stands: how many levels were accepted, and the vectors and points of the last of them.
#[derive(Clone, Copy)]
pub struct Standing {
    pub number: usize,
    pub vectors: usize,
    pub points: usize,
}

impl Standing {
    pub const SIZE: usize = 3; // its numbers, in the slice that a certifier lends for them

    // A fresh certifier stands at level 0: one vector, no points.
    pub fn fresh() -> Standing
        ensures { result ≡ fresh_standing }
    {
        Standing {
            number: 0,
            vectors: 1,
            points: 0,
        }
    }
}

// What a certifier's slice says.
pub fn standing_in(state: &[usize]) -> Standing
    requires { state_size ≤ length state.now }
    ensures { result ≡ standing_at state.now }
{
    Standing {
        number: state[0],
        vectors: state[1],
        points: state[2],
    }
}

// Writes what stands over it.
pub fn put_standing(state: &mut [usize], s: Standing)
    requires { state_size ≤ length state.old }
    ensures { state.new ≡ s.number ∷ s.vectors ∷ s.points ∷ drop state_size state.old }
{
    state[0] = s.number;
    state[1] = s.vectors;
    state[2] = s.points;
}

// One level higher, with so many vectors and points.
pub fn raise_standing(state: &mut [usize], vectors: usize, points: usize)
    requires { (state_size ≤ length state.old) × ((standing_at state.old).number < max_levels) }
    ensures { state.new ≡ ((standing_at state.old).number + 1) ∷ vectors ∷ points ∷ drop state_size state.old }
{
    let number = state[0] + 1;
    put_standing(
        state,
        Standing {
            number: number,
            vectors: vectors,
            points: points,
        },
    );
}

// One cell of a table, a level, a list of points or a graph, by its indices: where it lies is said here.
ghost use Rattle.std.specs.Prelude.{◌≡◌, ◌+◌, ◌*◌, ◌≤◌, ◌<◌, length, set};
ghost use Rattle.tables.specs.Limits.{max_states, max_actions, max_observations, max_vectors, max_rows};
ghost use Rattle.tables.specs.Storage.{row_start, row_place, transition_in, observation_in, reward_in, entry_in, choice_in};
ghost use Rattle.tables.specs.Steps.{rows_to, cells_to};

use super::{Action, Observation, State, Vector};

pub fn wide(x: u16) -> u64
    ensures { result ≡ x }
{
    x as u64
}

// Where row r of width w starts.
pub fn start(r: usize, w: usize) -> usize
    requires { (r < max_rows) × (w ≤ max_states) }
    ensures { result ≡ row_start w r }
{
    r * w
}

// Place x of row r of width w: of a block of a table, or of a vector.
pub fn row(r: usize, w: usize, x: usize) -> usize
    requires { (r < max_rows) × ((w ≤ max_states) × (x < w)) }
    ensures { (result ≡ row_place w r x) × (result < (r + 1) * max_states) }
{
    start(r, w) + x
}

// Place x of a table's row of width w.
pub fn cell(row: usize, w: usize, x: usize) -> usize
    requires { (row < max_actions * max_states) × ((w ≤ max_states) × (x < w)) }
    ensures { (result ≡ row_place w row x) × (result < max_actions * max_states * w) }
{
    start(row, w) + x
}

// T(s,a,s')
pub fn transition_at(cells: &[u16], n: usize, s: State, a: Action, to: State) -> u64
    requires n_le_max_states { (n ≤ max_states) × (a.0 < max_actions) }
    requires s_lt_n { (s.0 < n) × (to.0 < n) }
    requires a_in_bounds { cells_to n n a.0 ≤ length cells.now }
    ensures { result ≡ transition_in n cells.now s.0 a.0 to.0 }
{
    let at = cell(row(a.0, n, s.0), n, to.0);
    wide(cells[at])
}

// O(a,s',o)
pub fn observation_at(
    cells: &[u16],
    n: usize,
    k: usize,
    a: Action,
    to: State,
    o: Observation,
) -> u64
    requires n_le_max_states { (n ≤ max_states) × ((k ≤ max_observations) × (a.0 < max_actions)) }
    requires to_lt_n { (to.0 < n) × (o.0 < k) }
    requires a_in_bounds { cells_to n k a.0 ≤ length cells.now }
    ensures { result ≡ observation_in n k cells.now a.0 to.0 o.0 }
{
    let at = cell(row(a.0, n, to.0), k, o.0);
    wide(cells[at])
}

// R(s,a)
pub fn reward_at(cells: &[i64], n: usize, s: State, a: Action) -> i64
    requires n_le_max_states { (n ≤ max_states) × (a.0 < max_actions) }
    requires s_lt_n { s.0 < n }
    requires a_in_bounds { rows_to n a.0 ≤ length cells.now }
    ensures { result ≡ reward_in n cells.now s.0 a.0 }
{
    let at = row(a.0, n, s.0);
    cells[at]
}

// The entry of a vector at a state.
pub fn entry_at(cells: &[i64], n: usize, v: Vector, s: State) -> i64
    requires n_le_max_states { (n ≤ max_states) × (v.0 < max_vectors) }
    requires s_lt_n { s.0 < n }
    requires v_in_bounds { rows_to n v.0 ≤ length cells.now }
    ensures { result ≡ entry_in n cells.now v.0 s.0 }
{
    let at = row(v.0, n, s.0);
    cells[at]
}

// The vector that v chooses for an observation: the one place where a stored number becomes a vector.
pub fn choice_at(choices: &[u16], k: usize, v: Vector, o: Observation) -> Vector
    requires k_le_max_observations { (k ≤ max_observations) × ((v.0 < max_vectors) × (o.0 < k)) }
    requires v_in_bounds { rows_to k v.0 ≤ length choices.now }
    ensures { result.0 ≡ choice_in k choices.now v.0 o.0 }
{
    let at = row(v.0, k, o.0);
    Vector(usize::from(choices[at]))
}

// Stores the vector that v chooses for an observation.
pub fn put_choice(choices: &mut [u16], k: usize, v: Vector, o: Observation, chosen: Vector)
    requires k_le_max_observations { (k ≤ max_observations) × ((v.0 < max_vectors) × (o.0 < k)) }
    requires v_in_bounds { rows_to k v.0 ≤ length choices.old }
    requires chosen_lt_max_vectors { chosen.0 < max_vectors }
    ensures { choices.new ≡ set choices.old (row_place k v.0 o.0) chosen.0 }
{
    let at = row(v.0, k, o.0);
    choices[at] = chosen.0 as u16;
}

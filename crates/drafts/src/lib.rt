// What a statement of a model file does to the cells of a table: an index stands for itself, a star for all.
#![tactic(auto)]

ghost use Rattle.std.specs.Prelude.{◌≡◌, ◌+◌, ◌*◌, ◌≤◌, ◌<◌, eqb, length, set};
ghost use Rattle.integers.specs.Search.{some};
ghost use Rattle.tables.specs.Limits.{max_states, max_converted, max_actions, max_observations};
ghost use Rattle.tables.specs.Storage.{row_start, row_place, cell_place};
ghost use Rattle.tables.specs.Steps.{cells_to};
ghost use Rattle.drafts.specs.Drafts.{max_outcome_rows, outcome_place, marked, lowest, spread, stated, rewarded, outcomed};

use tables::read;

// The first of those that i stands for: 0 where i is n, which stands for all of n.
fn lowest_of(n: usize, i: usize) -> usize
    ensures { result ≡ lowest n i }
{
    if i == n {
        return 0;
    }
    i
}

// How many they are.
fn spread_of(n: usize, i: usize) -> usize
    ensures { result ≡ spread n i }
{
    if i == n {
        return n;
    }
    1
}

// Where row r of width w starts.
fn start(r: usize, w: usize) -> usize
    requires { (r ≤ max_outcome_rows) × (w ≤ max_states) }
    ensures { result ≡ row_start w r }
{
    r * w
}

// v in `count` cells of a row, from the place x on.
fn mark<T: Copy>(cells: &mut [T], row: usize, x: usize, count: usize, v: T)
    requires { row + (x + count) ≤ length cells.old }
    ensures { cells.new ≡ marked (λ i. some count (λ j. eqb i (row + (x + j)))) v cells.old }
{
    for j in 0..count {
        cells[row + (x + j)] = v;
    }
}

// The same in `rows` rows of width w, from row y of a block on.
fn mark_rows<T: Copy>(
    cells: &mut [T],
    block: usize,
    y: usize,
    rows: usize,
    w: usize,
    x: usize,
    count: usize,
    v: T,
)
    requires rows_bound { (block + (y + rows) ≤ max_outcome_rows) × ((w ≤ max_states) × (x + count ≤ w)) }
    requires w_in_bounds { (block + (y + rows)) * w ≤ length cells.old }
    ensures { cells.new ≡ marked (λ i. some rows (λ r. some count (λ j. eqb i (row_place w (block + (y + r)) (x + j)))))
        v cells.old }
{
    for r in 0..rows {
        mark(cells, start(block + (y + r), w), x, count, v);
    }
}

// The same in `blocks` blocks of n rows, from block z of a group on.
fn mark_blocks<T: Copy>(
    cells: &mut [T],
    group: usize,
    z: usize,
    blocks: usize,
    n: usize,
    y: usize,
    rows: usize,
    w: usize,
    x: usize,
    count: usize,
    v: T,
)
    requires blocks_bound { (group + (z + blocks) ≤ max_actions * max_converted) × ((n ≤ max_states) × (w ≤ max_states)) }
    requires n_bound { (group + (z + blocks)) * n ≤ max_outcome_rows }
    requires rows_bound { (y + rows ≤ n) × (x + count ≤ w) }
    requires w_in_bounds { (group + (z + blocks)) * n * w ≤ length cells.old }
    ensures { cells.new
        ≡ marked (λ i. some blocks (λ b. some rows (λ r. some count (λ j. eqb i (cell_place n w (group + (z + b)) (y + r) (x + j))))))
        v cells.old }
{
    for b in 0..blocks {
        mark_rows(cells, start(group + (z + b), n), y, rows, w, x, count, v);
    }
}

// The same in `groups` groups of n blocks.
fn mark_outcomes(
    cells: &mut [i64],
    a: usize,
    groups: usize,
    n: usize,
    s: usize,
    blocks: usize,
    y: usize,
    rows: usize,
    w: usize,
    x: usize,
    count: usize,
    v: i64,
)
    requires groups_bound { (a + groups ≤ max_actions) × ((n ≤ max_converted) × (w ≤ max_states)) }
    requires blocks_bound { (s + blocks ≤ n) × ((y + rows ≤ n) × (x + count ≤ w)) }
    requires w_in_bounds { (a + groups) * n * n * w ≤ length cells.old }
    ensures { cells.new
        ≡ marked (λ i. some groups (λ g. some blocks (λ b. some rows (λ r. some count (λ j. eqb i (outcome_place n w (a + g) (s + b) (y + r) (x + j)))))))
        v cells.old }
{
    for g in 0..groups {
        mark_blocks(
            cells,
            start(a + g, n),
            s,
            blocks,
            n,
            y,
            rows,
            w,
            x,
            count,
            v,
        );
    }
}

// p for all that a, s and x stand for, in a table of m blocks of n rows of width w.
fn mark_all(cells: &mut [u16], m: usize, n: usize, w: usize, a: usize, s: usize, x: usize, p: u16)
    requires m_le_max_actions { (m ≤ max_actions) × ((n ≤ max_states) × (w ≤ max_states)) }
    requires a_le_m { (a ≤ m) × ((s ≤ n) × (x ≤ w)) }
    requires w_in_bounds { m * n * w ≤ length cells.old }
    ensures { cells.new ≡ stated m n w a s x p cells.old }
{
    let block = lowest_of(m, a);
    let blocks = spread_of(m, a);
    let row = lowest_of(n, s);
    let rows = spread_of(n, s);
    let place = lowest_of(w, x);
    let count = spread_of(w, x);
    mark_blocks(cells, 0, block, blocks, n, row, rows, w, place, count, p);
}

// p in place x of row s of block a alone.
fn mark_one(cells: &mut [u16], n: usize, w: usize, a: usize, s: usize, x: usize, p: u16)
    requires a_lt_max_actions { (a < max_actions) × ((n ≤ max_states) × (w ≤ max_states)) }
    requires s_lt_n { (s < n) × (x < w) }
    requires a_in_bounds { cells_to n w a ≤ length cells.old }
    ensures { cells.new ≡ set cells.old (cell_place n w a s x) p }
{
    cells[read::cell(read::row(a, n, s), w, x)] = p;
}

// p is stated for block a, row s and place x of a table of m blocks of n rows of width w.
pub fn state(cells: &mut [u16], m: usize, n: usize, w: usize, a: usize, s: usize, x: usize, p: u16)
    requires m_le_max_actions { (m ≤ max_actions) × ((n ≤ max_states) × (w ≤ max_states)) }
    requires a_le_m { (a ≤ m) × ((s ≤ n) × (x ≤ w)) }
    requires w_in_bounds { m * n * w ≤ length cells.old }
    ensures { cells.new ≡ stated m n w a s x p cells.old }
{
    if (a < m) & (s < n) & (x < w) {
        mark_one(cells, n, w, a, s, x, p);
    } else {
        mark_all(cells, m, n, w, a, s, x, p);
    }
}

// r is stated for action a and state s, of m actions and n states.
pub fn state_reward(cells: &mut [i64], m: usize, n: usize, a: usize, s: usize, r: i64)
    requires m_le_max_actions { (m ≤ max_actions) × (n ≤ max_states) }
    requires a_le_m { (a ≤ m) × (s ≤ n) }
    requires n_in_bounds { m * n ≤ length cells.old }
    ensures { cells.new ≡ rewarded m n a s r cells.old }
{
    let row = lowest_of(m, a);
    let rows = spread_of(m, a);
    let place = lowest_of(n, s);
    let count = spread_of(n, s);
    mark_rows(cells, 0, row, rows, n, place, count, r);
}

// r is stated for action a, state s, state reached `to` and observation o, of m actions, n states and k observations.
pub fn state_outcome(
    cells: &mut [i64],
    m: usize,
    n: usize,
    k: usize,
    a: usize,
    s: usize,
    to: usize,
    o: usize,
    r: i64,
)
    requires m_le_max_actions { (m ≤ max_actions) × ((n ≤ max_converted) × (k ≤ max_observations)) }
    requires a_le_m { (a ≤ m) × ((s ≤ n) × ((to ≤ n) × (o ≤ k))) }
    requires k_in_bounds { m * n * n * k ≤ length cells.old }
    ensures { cells.new ≡ outcomed m n k a s to o r cells.old }
{
    let group = lowest_of(m, a);
    let groups = spread_of(m, a);
    let block = lowest_of(n, s);
    let blocks = spread_of(n, s);
    let row = lowest_of(n, to);
    let rows = spread_of(n, to);
    let place = lowest_of(k, o);
    let count = spread_of(k, o);
    mark_outcomes(
        cells, group, groups, n, block, blocks, row, rows, k, place, count, r,
    );
}

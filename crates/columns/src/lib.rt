// Transitions kept as lists: making one, and testing one that is handed in.
#![tactic(auto)]

ghost use Rattle.std.specs.Prelude.{◌≡◌, ℕ, ◌+◌, ◌*◌, ◌≤◌, ◌<◌, ◌^◌, eqb, length, get_or};
ghost use Rattle.std.proofs.Math.Seq.{paste};
ghost use Rattle.integers.specs.Search.{every};
ghost use Rattle.integers.specs.Cells.{laid};
ghost use Rattle.tables.specs.Limits.{max_states, max_actions, one};
ghost use Rattle.tables.specs.Storage.{transition_in};
ghost use Rattle.tables.specs.Steps.{cells_to};
ghost use Rattle.columns.specs.Columns.{cell, cells_of, cells_before, begins, list_of, is_list};
ghost use Rattle.columns.specs.Steps.{TableFits};

use tables::{Action, State, read};

// The list of a table of T: how its words are made.
#[derive(Clone, Copy)]
pub struct List {}

impl List {
    pub const UNIT: u32 = 65_536; // of a cell's state
}

// A word of the list.
fn word(x: usize) -> u32
    requires { x < 2 ^ 32 }
    ensures { result ≡ x }
{
    x as u32
}

// A state and what T has for it, in one word.
fn cell(s: State, p: u64) -> u32
    requires { (s.0 < max_states) × (p ≤ one) }
    ensures { result ≡ cell s.0 p }
{
    s.0 as u32 * List::UNIT + p as u32
}

// How many cells a column has.
fn count(cells: &[u16], n: usize, a: Action, to: State) -> usize
    requires n_le_max_states { (n ≤ max_states) × ((a.0 < max_actions) × (to.0 < n)) }
    requires a_in_bounds { cells_to n n a.0 ≤ length cells.now }
    ensures { result ≡ length (cells_of n (λ s. transition_in n cells.now s a.0 to.0)) }
{
    let mut found: usize = 0;
    for s in 0..n {
        if 0 < read::transition_at(cells, n, State(s), a, to) {
            found += 1;
        }
    }
    found
}

// How many words the list has.
pub fn size(cells: &[u16], n: usize, m: usize) -> usize
    requires { TableFits n m cells.now }
    ensures { result ≡ length (list_of n m (transition_in n cells.now)) }
{
    let columns = m * n;
    let mut at = columns + 1;
    for c in 0..columns {
        at += count(cells, n, Action(c / n), State(c % n));
    }
    at
}

// ---- making

// Where the cells of each column begin, and where the last end.
fn put_begins(cells: &[u16], n: usize, m: usize, list: &mut [u32])
    requires table_fits { TableFits n m cells.now }
    requires n_in_bounds { m * n + 1 ≤ length list.old }
    ensures { list.new ≡ laid (m * n + 1) (begins n m (transition_in n cells.now)) list.old }
{
    let columns = m * n;
    let mut at = columns + 1;
    for c in 0..columns {
        list[c] = word(at);
        at += count(cells, n, Action(c / n), State(c % n));
    }
    list[columns] = word(at);
}

// The cells of a column, from a word on; and the word behind them.
fn put_column(cells: &[u16], n: usize, a: Action, to: State, at: usize, list: &mut [u32]) -> usize
    requires n_le_max_states { (n ≤ max_states) × ((a.0 < max_actions) × (to.0 < n)) }
    requires a_in_bounds { cells_to n n a.0 ≤ length cells.now }
    requires by_index { (s : ℕ) → s < n → transition_in n cells.now s a.0 to.0 ≤ one }
    requires to_in_bounds { at + length (cells_of n (λ s. transition_in n cells.now s a.0 to.0)) ≤ length list.old }
    ensures value { result ≡ at + length (cells_of n (λ s. transition_in n cells.now s a.0 to.0)) }
    ensures list_after { let column = cells_of n (λ s. transition_in n cells.now s a.0 to.0) in
        list.new ≡ paste list.old at column (length column) }
{
    let mut next = at;
    for s in 0..n {
        let p = read::transition_at(cells, n, State(s), a, to);
        if 0 < p {
            list[next] = cell(State(s), p);
            next += 1;
        }
    }
    next
}

// The cells of all columns, behind the words that say where they begin.
fn put_cells(cells: &[u16], n: usize, m: usize, list: &mut [u32])
    requires table_fits { TableFits n m cells.now }
    requires cells_in_bounds { length (list_of n m (transition_in n cells.now)) ≤ length list.old }
    ensures { let column = cells_before n (transition_in n cells.now) (m * n) in
        list.new ≡ paste list.old (m * n + 1) column (length column) }
{
    let columns = m * n;
    let mut at = columns + 1;
    for c in 0..columns {
        at = put_column(cells, n, Action(c / n), State(c % n), at, list);
    }
}

// The list of T over a slice that is long enough for it.
pub fn put_list(cells: &[u16], n: usize, m: usize, list: &mut [u32])
    requires table_fits { TableFits n m cells.now }
    requires cells_in_bounds { length (list_of n m (transition_in n cells.now)) ≤ length list.old }
    ensures { let L = list_of n m (transition_in n cells.now) in
        list.new ≡ laid (length L) (λ i. get_or L i 0) list.old }
{
    put_begins(cells, n, m, list);
    put_cells(cells, n, m, list);
}

// ---- testing

// Whether the words say where the cells of each column begin, and where the last end.
fn begins_hold(cells: &[u16], list: &[u32], n: usize, m: usize) -> bool
    requires table_fits { TableFits n m cells.now }
    requires n_in_bounds { m * n + 1 ≤ length list.now }
    ensures { result ≡ every (m * n + 1) (λ c. eqb (get_or list.now c 0) (begins n m (transition_in n cells.now) c)) }
{
    let columns = m * n;
    let mut at = columns + 1;
    for c in 0..columns {
        if list[c] != word(at) {
            return false;
        }
        at += count(cells, n, Action(c / n), State(c % n));
    }
    list[columns] == word(at)
}

// Whether the cells of a column lie from a word on.
fn column_holds(cells: &[u16], list: &[u32], n: usize, a: Action, to: State, at: usize) -> bool
    requires n_le_max_states { (n ≤ max_states) × ((a.0 < max_actions) × (to.0 < n)) }
    requires a_in_bounds { cells_to n n a.0 ≤ length cells.now }
    requires by_index { (s : ℕ) → s < n → transition_in n cells.now s a.0 to.0 ≤ one }
    requires to_in_bounds { at + length (cells_of n (λ s. transition_in n cells.now s a.0 to.0)) ≤ length list.now }
    ensures { let column = cells_of n (λ s. transition_in n cells.now s a.0 to.0) in
        result ≡ every (length column) (λ i. eqb (get_or list.now (at + i) 0) (get_or column i 0)) }
{
    let mut next = at;
    for s in 0..n {
        let p = read::transition_at(cells, n, State(s), a, to);
        if 0 < p {
            if list[next] != cell(State(s), p) {
                return false;
            }
            next += 1;
        }
    }
    true
}

// Whether the cells of all columns lie behind the words that say where they begin.
fn cells_hold(cells: &[u16], list: &[u32], n: usize, m: usize) -> bool
    requires table_fits { TableFits n m cells.now }
    requires cells_in_bounds { length (list_of n m (transition_in n cells.now)) ≤ length list.now }
    ensures { let all = cells_before n (transition_in n cells.now) (m * n) in
        result ≡ every (length all) (λ i. eqb (get_or list.now (m * n + 1 + i) 0) (get_or all i 0)) }
{
    let columns = m * n;
    let mut at = columns + 1;
    for c in 0..columns {
        let a = Action(c / n);
        let to = State(c % n);
        if !column_holds(cells, list, n, a, to, at) {
            return false;
        }
        at += count(cells, n, a, to);
    }
    true
}

// Whether a slice begins with the list of T.
pub fn is_list(cells: &[u16], list: &[u32], n: usize, m: usize) -> bool
    requires { TableFits n m cells.now }
    ensures { result ≡ is_list n m (transition_in n cells.now) list.now }
{
    if list.len() < size(cells, n, m) {
        return false;
    }
    if !begins_hold(cells, list, n, m) {
        return false;
    }
    cells_hold(cells, list, n, m)
}

// A model and its start numbers, written as a model file.
#![tactic(auto)]

ghost use Rattle.std.specs.Prelude.{◌≡◌, ◌+◌, ◌*◌, ◌≤◌, ◌<◌, ◌^◌, length, get_or};
ghost use Rattle.tables.specs.Limits.{max_states, max_actions};
ghost use Rattle.tables.specs.Storage.{cell_in, reward_in};
ghost use Rattle.tables.specs.Steps.{rows_to, cells_to};
ghost use Rattle.written.specs.Text.{parts_to, row_text, table_text, reward_text, rewards_text, header_text, start_text, file_text, max_text};
ghost use Rattle.digits.specs.Steps.{HasRoom, Wrote};
ghost use Rattle.written.specs.Steps.{numbers, Writable};

use digits::{put, put_fixed_line, put_number, put_opening, put_signed_fixed, put_whole_line};
use tables::{Action, Counts, State, Tables, read};

// What is written.
#[derive(Clone, Copy)]
pub struct Written {}

impl Written {
    pub const LENGTH: usize = 32_768; // bytes that are enough for the text of a model that is converted

    pub const THOUSANDTHS: usize = 3; // the decimals of a table's number, and of the discount

    pub const HUNDREDTHS: usize = 2; // the decimals of a start number, and of a reward

    pub const HUNDRED: u64 = 100; // hundredths in 1
}

// ---- rows of a table

// The numbers in w cells, from a place on.
fn put_numbers(
    out: &mut [u8],
    at: usize,
    places: usize,
    unit: u64,
    cells: &[u16],
    from: usize,
    w: usize,
) -> usize
    requires unit_value { (unit ≡ 10 ^ places) × (from + w ≤ length cells.now) }
    requires has_room { HasRoom at (numbers places cells.now from w) out.old }
    ensures { Wrote at (numbers places cells.now from w) out.old result out.new }
{
    let mut next = at;
    for cell in &cells[from..from + w] {
        next = put_number(out, next, places, unit, read::wide(*cell));
    }
    next
}

// Row s of block a, of width w, which lies from a place on.
fn put_row(
    out: &mut [u8],
    at: usize,
    key: u8,
    a: usize,
    s: usize,
    cells: &[u16],
    from: usize,
    w: usize,
) -> usize
    requires w_in_bounds { from + w ≤ length cells.now }
    requires has_room { HasRoom at (row_text key a s w (λ x. get_or cells.now (from + x) 0)) out.old }
    ensures { Wrote at (row_text key a s w (λ x. get_or cells.now (from + x) 0)) out.old result out.new }
{
    let x = put_opening(out, at, key, a, s);
    let y = put_numbers(out, x, Written::THOUSANDTHS, Tables::ONE, cells, from, w);
    put(out, y, b"\n")
}

// The n rows of block a.
fn put_block(
    out: &mut [u8],
    at: usize,
    key: u8,
    a: usize,
    n: usize,
    w: usize,
    cells: &[u16],
) -> usize
    requires a_lt_max_actions { (a < max_actions) × ((n ≤ max_states) × (w ≤ max_states)) }
    requires a_in_bounds { cells_to n w a ≤ length cells.now }
    requires has_room { HasRoom at (parts_to n (λ s. row_text key a s w (cell_in n w cells.now a s))) out.old }
    ensures { Wrote at (parts_to n (λ s. row_text key a s w (cell_in n w cells.now a s))) out.old result out.new }
{
    let mut next = at;
    for s in 0..n {
        let from = read::start(read::row(a, n, s), w);
        next = put_row(out, next, key, a, s, cells, from, w);
    }
    next
}

// The m blocks of a table.
fn put_table(
    out: &mut [u8],
    at: usize,
    key: u8,
    m: usize,
    n: usize,
    w: usize,
    cells: &[u16],
) -> usize
    requires m_le_max_actions { (m ≤ max_actions) × ((n ≤ max_states) × (w ≤ max_states)) }
    requires w_in_bounds { m * n * w ≤ length cells.now }
    requires has_room { HasRoom at (table_text key m n w (cell_in n w cells.now)) out.old }
    ensures { Wrote at (table_text key m n w (cell_in n w cells.now)) out.old result out.new }
{
    let mut next = at;
    for a in 0..m {
        next = put_block(out, next, key, a, n, w, cells);
    }
    next
}

// ---- rewards

// "R: a : s : * : * v"
fn put_reward(out: &mut [u8], at: usize, a: usize, s: usize, v: i64) -> usize
    requires { HasRoom at (reward_text a s v) out.old }
    ensures { Wrote at (reward_text a s v) out.old result out.new }
{
    let x = put_opening(out, at, b'R', a, s);
    let y = put(out, x, b" : * : * ");
    let z = put_signed_fixed(out, y, Written::HUNDREDTHS, Written::HUNDRED, v);
    put(out, z, b"\n")
}

// Those of an action, by state.
fn put_rewards_of(out: &mut [u8], at: usize, a: usize, n: usize, cells: &[i64]) -> usize
    requires a_lt_max_actions { (a < max_actions) × (n ≤ max_states) }
    requires a_in_bounds { rows_to n a ≤ length cells.now }
    requires has_room { HasRoom at (parts_to n (λ s. reward_text a s (reward_in n cells.now s a))) out.old }
    ensures { Wrote at (parts_to n (λ s. reward_text a s (reward_in n cells.now s a))) out.old result out.new }
{
    let mut next = at;
    for s in 0..n {
        let v = read::reward_at(cells, n, State(s), Action(a));
        next = put_reward(out, next, a, s, v);
    }
    next
}

// Those of m actions.
fn put_rewards(out: &mut [u8], at: usize, m: usize, n: usize, cells: &[i64]) -> usize
    requires m_le_max_actions { (m ≤ max_actions) × (n ≤ max_states) }
    requires n_in_bounds { m * n ≤ length cells.now }
    requires has_room { HasRoom at (rewards_text m n (reward_in n cells.now)) out.old }
    ensures { Wrote at (rewards_text m n (reward_in n cells.now)) out.old result out.new }
{
    let mut next = at;
    for a in 0..m {
        next = put_rewards_of(out, next, a, n, cells);
    }
    next
}

// ---- the file

// Discount and counts.
fn put_header(out: &mut [u8], at: usize, c: Counts) -> usize
    requires { HasRoom at (header_text c) out.old }
    ensures { Wrote at (header_text c) out.old result out.new }
{
    let x = put_fixed_line(
        out,
        at,
        b"discount",
        Written::THOUSANDTHS,
        Tables::ONE,
        c.discount,
    );
    let y = put(out, x, b"values: reward\n");
    let z = put_whole_line(out, y, b"states", c.states);
    let w = put_whole_line(out, z, b"actions", c.actions);
    put_whole_line(out, w, b"observations", c.observations)
}

// The start numbers.
fn put_start(out: &mut [u8], at: usize, n: usize, start: &[u16]) -> usize
    requires n_in_bounds { n ≤ length start.now }
    requires has_room { HasRoom at (start_text n start.now) out.old }
    ensures { Wrote at (start_text n start.now) out.old result out.new }
{
    let x = put(out, at, b"start:");
    let y = put_numbers(out, x, Written::HUNDREDTHS, Written::HUNDRED, start, 0, n);
    put(out, y, b"\n")
}

// The whole file, from the slice's start on.
pub fn put_file(
    out: &mut [u8],
    c: Counts,
    transition: &[u16],
    observation: &[u16],
    reward: &[i64],
    start: &[u16],
) -> usize
    requires writable { Writable c transition.now observation.now reward.now start.now }
    requires max_text_in_bounds { max_text ≤ length out.old }
    ensures { Wrote 0 (file_text c transition.now observation.now reward.now start.now)
        out.old result out.new }
{
    let n = c.states;
    let m = c.actions;
    let k = c.observations;
    let x = put_header(out, 0, c);
    let y = put_start(out, x, n, start);
    let z = put_table(out, y, b'T', m, n, n, transition);
    let w = put_table(out, z, b'O', m, n, k, observation);
    put_rewards(out, w, m, n, reward)
}

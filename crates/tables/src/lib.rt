// The model: its tables, their limits, and how a cell is read.
#![tactic(auto)]

pub mod read; // one cell of a table

ghost use Rattle.std.specs.Prelude.{◌≡◌};
ghost use Rattle.tables.specs.Judged.{count_within};

// Numbers of four kinds, all from 0, side by side: none passes for another.
#[derive(Clone, Copy)]
pub struct State(pub usize);

#[derive(Clone, Copy)]
pub struct Action(pub usize);

#[derive(Clone, Copy)]
pub struct Observation(pub usize);

#[derive(Clone, Copy)]
pub struct Vector(pub usize);

// Numbers by state that are worked out on the way.
pub type Weights = [u64; Tables::STATES]; // of a mixture, a point or the states reached

pub type ByState = [i64; Tables::STATES]; // entries, backups, what is foreseen

// What a vector chooses for each observation: a table of choices of one row.
pub type Chosen = [u16; Tables::OBSERVATIONS];

// The counts by which lent tables are read, and the discount.
#[derive(Clone, Copy)]
pub struct Counts {
    pub states: usize,
    pub actions: usize,
    pub observations: usize,
    pub discount: u64,
}

// The limits of tables, which lie in slices that are lent: T(s,a,s') by a, s, s'; O(a,s',o) by a, s', o; R(s,a) by a, s, the last index fastest.
#[derive(Clone, Copy)]
pub struct Tables {}

impl Tables {
    pub const STATES: usize = 64;

    pub const CONVERTED: usize = 16; // states of a model that is converted

    pub const ACTIONS: usize = 8;

    pub const OBSERVATIONS: usize = 8;

    pub const VECTORS: usize = 1_000;

    pub const ONE: u64 = 1_000; // in thousandths

    pub const REWARD: u64 = 100_000; // in ticks

    pub const K: u64 = 1_000_000_000; // a backup's units in a tick
}

// Whether a count is from 1 to its limit.
pub fn count_within(limit: usize, n: usize) -> bool
    ensures { result ≡ count_within limit n }
{
    if n < 1 {
        return false;
    }
    n <= limit
}

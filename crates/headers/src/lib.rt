// The first words of a model file: discount and counts, then the start numbers.
#![tactic(auto)]

ghost use Rattle.std.specs.Prelude.{◌≡◌, ◌≤◌, length, replicate};
ghost use Rattle.words.specs.Words.{words_in, between};
ghost use Rattle.tables.specs.Limits.{max_states, one};
ghost use Rattle.headers.specs.Headers.{header_counts, header, start_numbers};
ghost use Rattle.headers.specs.Steps.{Heads, Fills};

use grammar::Read;
use numerals::Form;
use refusals::Refusal;
use tables::{Counts, Tables};

// The total of the start numbers.
pub const START: u64 = 100;

// A count is 1 or more.
const LEAST: u64 = 1;

// The start numbers are a table of one block of one row, its first.
const ROWS: usize = 1;

const FIRST: usize = 0;

// From `states:` on.
fn counted_at(file: &[u8], at: usize, discount: u64) -> Result<Read<Counts>, Refusal>
    requires { (at ≤ length file.now) × (discount ≤ one) }
    ensures { Heads file.now at result (header_counts discount (words_in between file.now at)) }
{
    let n = grammar::field_at(
        file,
        at,
        b"states",
        Form::COUNT,
        LEAST,
        Tables::STATES as u64,
    )?;
    let m = grammar::field_at(
        file,
        n.next,
        b"actions",
        Form::COUNT,
        LEAST,
        Tables::ACTIONS as u64,
    )?;
    let k = grammar::field_at(
        file,
        m.next,
        b"observations",
        Form::COUNT,
        LEAST,
        Tables::OBSERVATIONS as u64,
    )?;
    Ok(Read {
        value: Counts {
            states: n.value as usize,
            actions: m.value as usize,
            observations: k.value as usize,
            discount: discount,
        },
        next: k.next,
    })
}

// From `discount:` on.
#[tactic(auto, unfolding(crate::specs::Headers::header_by))]
pub fn header_at(file: &[u8]) -> Result<Read<Counts>, Refusal>
    ensures { Heads file.now 0 result (header (words_in between file.now 0)) }
{
    let discount = grammar::field_at(file, 0, b"discount", Form::PROBABILITY, 0, Tables::ONE)?;
    let values = grammar::keys_at(file, discount.next, b"values", b":")?;
    let reward = grammar::key_at(file, values, b"reward")?;
    counted_at(file, reward, discount.value)
}

// `start:` and n numbers, into cells that are 0.
#[tactic(auto, unfolding(crate::specs::Headers::start_by))]
pub fn start_at(file: &[u8], at: usize, start: &mut [u16], n: usize) -> Result<usize, Refusal>
    requires at_in_bounds { (at ≤ length file.now) × ((1 ≤ n) × (n ≤ max_states)) }
    requires start_value { start.old ≡ replicate max_states 0 }
    ensures { Fills file.now at result start.new (start_numbers n (words_in between file.now at)) }
{
    let next = grammar::keys_at(file, at, b"start", b":")?;
    entries::row_at(
        file,
        next,
        start,
        ROWS,
        ROWS,
        n,
        FIRST,
        FIRST,
        Form::START,
        START,
    )
}

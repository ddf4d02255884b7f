// One vector of a solver's alpha file, and one node of its policy graph file, read from an offset on.
#![tactic(auto)]

ghost use Rattle.std.specs.Prelude.{◌≡◌, ◌≤◌, length};
ghost use Rattle.tables.specs.Limits.{max_states, max_observations};
ghost use Rattle.words.specs.Words.{words_in, between};
ghost use Rattle.grammar.specs.Steps.{Reads};
ghost use Rattle.alphas.specs.Alphas.{most_action, action, decimal, next_node, no_node, several, alpha, node};
ghost use Rattle.alphas.specs.Steps.{GivesList, unread, Gave, alpha_of, node_of};

use grammar::Read;
use numerals::Form;
use refusals::Refusal;
use tables::{ByState, Tables};

// A vector.
#[derive(Clone, Copy)]
pub struct Alpha {
    pub action: u64,
    pub ticks: ByState,
}

// A node.
#[derive(Clone, Copy)]
pub struct Node {
    pub action: u64,
    pub next: NextNodes,
}

pub type NextNodes = [u16; Tables::OBSERVATIONS];

impl Alpha {
    pub const ACTION: u64 = 99; // the most that two digits write

    pub const DECIMAL: u64 = 1_000_000_000_000_000_000; // above all decimals, in units of 10 to the power of -12

    pub const TICK: u64 = 10_000_000_000; // the same units in a tick
}

impl Node {
    pub const NUMBER: u64 = 999; // the most that three digits write

    pub const HYPHEN: u64 = 1_000; // a hyphen in place of a next node
}

// ---- one word

// An action.
fn action_at(file: &[u8], at: usize) -> Result<Read<u64>, Refusal>
    requires { at ≤ length file.now }
    ensures { Reads file.now at most_action result (action (words_in between file.now at)) }
{
    grammar::number_at(file, at, Form::COUNT, 0, Alpha::ACTION)
}

// A next node by its number, or a hyphen.
#[tactic(auto, unfolding(crate::specs::Alphas::next_node))]
fn next_at(file: &[u8], at: usize) -> Result<Read<u64>, Refusal>
    requires { at ≤ length file.now }
    ensures { Reads file.now at no_node result (next_node (words_in between file.now at)) }
{
    let w = reader::word_from(file, at);
    let Ok(next) = grammar::key_of(file, w, b"-") else {
        return grammar::number_of(file, w, Form::NODE, 0, Node::NUMBER);
    };
    Ok(Read {
        value: Node::HYPHEN,
        next: next,
    })
}

// ---- several words

// n decimals, rounded down to ticks.
fn ticks_at(file: &[u8], from: usize, n: usize) -> Result<Read<ByState>, Refusal>
    requires { (from ≤ length file.now) × (n ≤ max_states) }
    ensures { GivesList n file.now from result (several decimal n (words_in between file.now from)) }
{
    let mut ticks = [0i64; Tables::STATES];
    let mut at = from;
    for s in 0..n {
        let d = grammar::signed_at(file, at, Form::DECIMAL, Alpha::DECIMAL)?;
        ticks[s] = integers::floor_div(d.value, Alpha::TICK);
        at = d.next;
    }
    Ok(Read {
        value: ticks,
        next: at,
    })
}

// k next nodes.
fn nexts_at(file: &[u8], from: usize, k: usize) -> Result<Read<NextNodes>, Refusal>
    requires { (from ≤ length file.now) × (k ≤ max_observations) }
    ensures { GivesList k file.now from result (several next_node k (words_in between file.now from)) }
{
    let mut nodes = [0u16; Tables::OBSERVATIONS];
    let mut at = from;
    for o in 0..k {
        let x = next_at(file, at)?;
        nodes[o] = x.value as u16;
        at = x.next;
    }
    Ok(Read {
        value: nodes,
        next: at,
    })
}

// ---- a vector, a node

// 19, whatever it is that a word does not fit.
fn unread(r: Refusal) -> Refusal
    ensures { result ≡ unread r }
{
    Refusal(19, r.1)
}

// An action and n decimals.
pub fn alpha_at(file: &[u8], at: usize, n: usize) -> Result<Read<Alpha>, Refusal>
    requires { (at ≤ length file.now) × (n ≤ max_states) }
    ensures { Gave (alpha_of n) file.now at result (alpha n (words_in between file.now at)) }
{
    let action = action_at(file, at).map_err(unread)?;
    let Read { value: ticks, next } = ticks_at(file, action.next, n).map_err(unread)?;
    Ok(Read {
        value: Alpha {
            action: action.value,
            ticks,
        },
        next,
    })
}

// Node i: its number, its action and k next nodes.
pub fn node_at(file: &[u8], at: usize, i: usize, k: usize) -> Result<Read<Node>, Refusal>
    requires { (at ≤ length file.now) × (k ≤ max_observations) }
    ensures { Gave (node_of k) file.now at result (node k i (words_in between file.now at)) }
{
    let number = grammar::number_at(file, at, Form::NODE, i as u64, i as u64).map_err(unread)?;
    let action = action_at(file, number.next).map_err(unread)?;
    let Read { value: nodes, next } = nexts_at(file, action.next, k).map_err(unread)?;
    Ok(Read {
        value: Node {
            action: action.value,
            next: nodes,
        },
        next,
    })
}

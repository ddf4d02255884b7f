// The rewards of a model file: what follows `R`, read into the cells of its table, by state or in full.
#![tactic(auto)]

ghost use Rattle.std.specs.Prelude.{◌≡◌, ◌≤◌, length};
ghost use Rattle.words.specs.Words.{words_in, between};
ghost use Rattle.entries.specs.Steps.{CellsFit, Leaves};
ghost use Rattle.rewards.specs.Rewards.{reward, rewards, outcome_kept, outcome, outcomes, rewards_or_outcomes};
ghost use Rattle.rewards.specs.Steps.{OutcomesFit, RewardCells};

use numerals::Form;
use refusals::Refusal;
use tables::Tables;

// `r` for the rewards that a and s stand for.
#[tactic(auto, unfolding(crate::specs::Rewards::reward_by))]
fn reward_at(
    file: &[u8],
    at: usize,
    cells: &mut [i64],
    m: usize,
    n: usize,
    a: usize,
    s: usize,
) -> Result<usize, Refusal>
    requires at_in_bounds { (at ≤ length file.now) × (CellsFit m n 1 cells.old) }
    requires a_le_m { (a ≤ m) × (s ≤ n) }
    ensures { Leaves file.now at result cells.new (reward m n a s cells.old (words_in between file.now at)) }
{
    let r = grammar::signed_at(file, at, Form::REWARD, Tables::REWARD)?;
    drafts::state_reward(cells, m, n, a, s, r.value);
    Ok(r.next)
}

// After `R`.
#[tactic(auto, unfolding(crate::specs::Rewards::rewards_by))]
fn rewards_at(
    file: &[u8],
    at: usize,
    cells: &mut [i64],
    m: usize,
    n: usize,
) -> Result<usize, Refusal>
    requires { (at ≤ length file.now) × (CellsFit m n 1 cells.old) }
    ensures { Leaves file.now at result cells.new (rewards m n cells.old (words_in between file.now at)) }
{
    let a = entries::indexed_at(file, at, m)?;
    let s = entries::indexed_at(file, a.next, n)?;
    let first = grammar::keys_at(file, s.next, b":", b"*")?;
    let second = grammar::keys_at(file, first, b":", b"*")?;
    reward_at(
        file,
        second,
        cells,
        m,
        n,
        a.value as usize,
        s.value as usize,
    )
}

// r is stated in full, where the model has few enough states.
fn keep_outcome(
    cells: &mut [i64],
    m: usize,
    n: usize,
    k: usize,
    a: usize,
    s: usize,
    to: usize,
    o: usize,
    r: i64,
)
    requires outcomes_fit { OutcomesFit m n k cells.old }
    requires a_le_m { (a ≤ m) × ((s ≤ n) × ((to ≤ n) × (o ≤ k))) }
    ensures { cells.new ≡ outcome_kept m n k a s to o r cells.old }
{
    if n <= Tables::CONVERTED {
        drafts::state_outcome(cells, m, n, k, a, s, to, o, r);
    }
}

// `r` for the rewards that a, s, the state reached `to` and o stand for.
#[tactic(auto, unfolding(crate::specs::Rewards::outcome_by))]
fn outcome_at(
    file: &[u8],
    at: usize,
    cells: &mut [i64],
    m: usize,
    n: usize,
    k: usize,
    a: usize,
    s: usize,
    to: usize,
    o: usize,
) -> Result<usize, Refusal>
    requires at_in_bounds { (at ≤ length file.now) × (OutcomesFit m n k cells.old) }
    requires a_le_m { (a ≤ m) × ((s ≤ n) × ((to ≤ n) × (o ≤ k))) }
    ensures { Leaves file.now at result cells.new
        (outcome m n k a s to o cells.old (words_in between file.now at)) }
{
    let r = grammar::signed_at(file, at, Form::REWARD, Tables::REWARD)?;
    keep_outcome(cells, m, n, k, a, s, to, o, r.value);
    Ok(r.next)
}

// After `R`, in full.
#[tactic(auto, unfolding(crate::specs::Rewards::outcomes_by))]
fn outcomes_at(
    file: &[u8],
    at: usize,
    cells: &mut [i64],
    m: usize,
    n: usize,
    k: usize,
) -> Result<usize, Refusal>
    requires { (at ≤ length file.now) × (OutcomesFit m n k cells.old) }
    ensures { Leaves file.now at result cells.new (outcomes m n k cells.old (words_in between file.now at)) }
{
    let a = entries::indexed_at(file, at, m)?;
    let s = entries::indexed_at(file, a.next, n)?;
    let to = entries::indexed_at(file, s.next, n)?;
    let o = entries::indexed_at(file, to.next, k)?;
    outcome_at(
        file,
        o.next,
        cells,
        m,
        n,
        k,
        a.value as usize,
        s.value as usize,
        to.value as usize,
        o.value as usize,
    )
}

// After `R`, in full or not.
pub fn rewards_or_outcomes_at(
    file: &[u8],
    at: usize,
    cells: &mut [i64],
    m: usize,
    n: usize,
    k: usize,
    full: bool,
) -> Result<usize, Refusal>
    requires { (at ≤ length file.now) × (RewardCells full m n k cells.old) }
    ensures { Leaves file.now at result cells.new
        (rewards_or_outcomes full m n k cells.old (words_in between file.now at)) }
{
    if full {
        return outcomes_at(file, at, cells, m, n, k);
    }
    rewards_at(file, at, cells, m, n)
}

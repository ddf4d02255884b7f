// The statements of a model file: T, O and R, read into the cells of their tables.
#![tactic(auto)]

ghost use Rattle.std.specs.Prelude.{List, ◌≡◌, ℕ, ◌+◌, ◌≤◌, length};
ghost use Rattle.words.specs.Words.{words_in, between, told};
ghost use Rattle.words.specs.Steps.{WordInside};
ghost use Rattle.entries.specs.Steps.{CellsFit, outcome_of, Leaves};
ghost use Rattle.rewards.specs.Steps.{RewardCells};
ghost use Rattle.statements.specs.Statements.{draft, reward_statement, observation_or_reward, one_statement, statements};

use refusals::Refusal;
use words::Word;

#[tactic(auto, unfolding(crate::specs::Statements::reward_statement_by))]
fn reward_statement_at(
    file: &[u8],
    w: Word,
    reward: &mut [i64],
    m: usize,
    n: usize,
    k: usize,
    full: bool,
) -> Result<usize, Refusal>
    requires { (WordInside file.now 0 (Some w)) × (RewardCells full m n k reward.old) }
    ensures { (t o : List ℕ) → Leaves file.now w.start result (draft t o reward.new)
        (reward_statement full m n k (draft t o reward.old) (told file.now (Some w))) }
{
    let next = grammar::key_of(file, Some(w), b"R")?;
    rewards::rewards_or_outcomes_at(file, next, reward, m, n, k, full)
}

#[tactic(auto, unfolding(crate::specs::Statements::observation_or_reward_by))]
fn other_statement_at(
    file: &[u8],
    w: Word,
    observation: &mut [u16],
    reward: &mut [i64],
    m: usize,
    n: usize,
    k: usize,
    full: bool,
) -> Result<usize, Refusal>
    requires { (WordInside file.now 0 (Some w)) × ((CellsFit m n k observation.old) × (RewardCells full m n k reward.old)) }
    ensures { (t : List ℕ) → Leaves file.now w.start result (draft t observation.new reward.new)
        (observation_or_reward full m n k (draft t observation.old reward.old) (told file.now (Some w))) }
{
    let Ok(next) = grammar::key_of(file, Some(w), b"O") else {
        return reward_statement_at(file, w, reward, m, n, k, full);
    };
    entries::table_at(file, next, observation, m, n, k)
}

#[tactic(auto, unfolding(crate::specs::Statements::one_statement_by))]
fn statement_at(
    file: &[u8],
    w: Word,
    transition: &mut [u16],
    observation: &mut [u16],
    reward: &mut [i64],
    m: usize,
    n: usize,
    k: usize,
    full: bool,
) -> Result<usize, Refusal>
    requires { (WordInside file.now 0 (Some w)) × ((CellsFit m n n transition.old) × ((CellsFit m n k observation.old)
        × (RewardCells full m n k reward.old))) }
    ensures { Leaves file.now w.start result (draft transition.new observation.new reward.new)
        (one_statement full m n k (draft transition.old observation.old reward.old) (told file.now (Some w))) }
{
    let Ok(next) = grammar::key_of(file, Some(w), b"T") else {
        return other_statement_at(file, w, observation, reward, m, n, k, full);
    };
    entries::table_at(file, next, transition, m, n, n)
}

// Statements up to the end of the file.
#[tactic(auto, unfolding(crate::specs::Statements::statements_by))]
pub fn statements_at(
    file: &[u8],
    from: usize,
    transition: &mut [u16],
    observation: &mut [u16],
    reward: &mut [i64],
    m: usize,
    n: usize,
    k: usize,
    full: bool,
) -> Result<usize, Refusal>
    requires { (from ≤ length file.now) × ((CellsFit m n n transition.old) × ((CellsFit m n k observation.old)
        × (RewardCells full m n k reward.old))) }
    ensures { outcome_of (draft transition.new observation.new reward.new) file.now result ≡ statements
        full (length file.now + 1) m n k (draft transition.old observation.old reward.old)
        (words_in between file.now from) }
{
    let mut at = from;
    while let Some(w) = reader::word_from(file, at) {
        at = statement_at(file, w, transition, observation, reward, m, n, k, full)?;
    }
    Ok(at)
}

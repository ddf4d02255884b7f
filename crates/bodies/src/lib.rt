// What follows the counts of a model file: the start numbers, the statements and the totals; and the answer on a file.
#![tactic(auto)]

ghost use Rattle.std.specs.Prelude.{◌≡◌, List, ℕ, ◌+◌, ◌*◌, ◌≤◌, length, replicate, ℤ, pos};
ghost use Rattle.words.specs.Words.{words_in, between};
ghost use Rattle.tables.specs.declared.Counts.{Counts};
ghost use Rattle.tables.specs.Limits.{max_states, max_actions, max_observations};
ghost use Rattle.statements.specs.Statements.{draft};
ghost use Rattle.headers.specs.Headers.{counts_with};
ghost use Rattle.headers.specs.Steps.{CountsFit};
ghost use Rattle.bodies.specs.Body.{text_of, placed, sums_verdict, ended, reward_cells, body};
ghost use Rattle.bodies.specs.Steps.{file_answer, file_in};

use refusals::{Refusal, Verdict};
use tables::Counts;

// A refusal at the end of the file.
fn placed_at(size: usize, v: Verdict) -> Verdict
    ensures { result ≡ placed size v }
{
    v.map_err(|r| Refusal(r.0, size))
}

// 4, then 5, then 6.
#[tactic(auto, unfolding(crate::specs::Body::sums_verdict))]
pub fn totals_of(
    size: usize,
    n: usize,
    m: usize,
    k: usize,
    transition: &[u16],
    observation: &[u16],
    start: &[u16],
) -> Verdict
    requires m_le_max_actions { (m ≤ max_actions) × ((n ≤ max_states) × (k ≤ max_observations)) }
    requires n_in_bounds { (m * n * n ≤ length transition.now) × ((m * n * k ≤ length observation.now) × (n ≤ length start.now)) }
    ensures { (discount : ℕ) (reward : List ℤ) → result ≡ sums_verdict size
        (text_of (counts_with n m k discount) start.now (draft transition.now observation.now reward)) }
{
    if validity::row_total(start, 0, n) != headers::START {
        return Err(Refusal(4, size));
    }
    placed_at(size, validity::rows_total(transition, m, n, n, 5))?;
    placed_at(size, validity::rows_total(observation, m, n, k, 6))
}

// What follows the counts, which are answered: the start numbers, the statements with rewards in full or not, and the totals.
#[tactic(auto, unfolding(crate::specs::Body::body_by))]
pub fn body_at(
    file: &[u8],
    at: usize,
    c: Counts,
    full: bool,
    transition: &mut [u16],
    observation: &mut [u16],
    reward: &mut [i64],
    start: &mut [u16],
) -> Result<Counts, Refusal>
    requires at_in_bounds { at ≤ length file.now }
    requires counts_fit { CountsFit c.states c.actions c.observations c.discount }
    requires transition_value { transition.old ≡ replicate (max_actions * max_states * max_states) 0 }
    requires observation_value { observation.old ≡ replicate (max_actions * max_states * max_observations) 0 }
    requires reward_value { reward.old ≡ replicate (reward_cells full) (pos 0) }
    requires start_value { start.old ≡ replicate max_states 0 }
    ensures value { result ≡ file_answer (ended (length file.now)
        (body full (length file.now + 1) c (words_in between file.now at))) }
    ensures start_after { (d : Counts) → result ≡ Ok d
        → file_in d transition.new observation.new reward.new start.new ≡ ended (length file.now)
        (body full (length file.now + 1) c (words_in between file.now at)) }
{
    let n = c.states;
    let m = c.actions;
    let k = c.observations;
    let next = headers::start_at(file, at, start, n)?;
    statements::statements_at(file, next, transition, observation, reward, m, n, k, full)?;
    totals_of(file.len(), n, m, k, transition, observation, start)?;
    Ok(c)
}

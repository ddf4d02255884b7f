// What totals ask of a certifier and of a mixture: refusals 7, 16 and 17.
#![tactic(auto)]

ghost use Rattle.std.specs.Prelude.{◌≡◌, List, ℕ, ◌≤◌};
ghost use Rattle.tables.specs.Limits.{max_states};
ghost use Rattle.tables.specs.Storage.{tables_in};
ghost use Rattle.levels.specs.Storage.{cells, rows, lent};
ghost use Rattle.runs.specs.State.{mixture_holds, standing_verdict};

use levels::Level;
use refusals::{Refusal, Verdict};
use tables::Counts;

// 17: whether there is a weight for each state, none exceeds 1,000,000 and some is above 0.
pub fn mixture_holds(mixture: &[u32], n: usize) -> bool
    requires { n ≤ max_states }
    ensures { result ≡ mixture_holds n mixture.now }
{
    if mixture.len() < n {
        return false;
    }
    let mut total: u64 = 0;
    for cell in &mixture[..n] {
        let w = u64::from(*cell);
        if Level::WEIGHT < w {
            return false;
        }
        total += w;
    }
    0 < total
}

// 7 and 16: the certifier by itself.
pub fn judge_standing<'a, 'b>(
    transition: &'a [u16],
    observation: &'a [u16],
    reward: &'a [i64],
    c: Counts,
    state: &'b [usize],
    actions: &'b [u8],
    masks: &'b [u64],
    entries: &'b [i64],
    corners: &'b [i64],
    weights: &'b [u32],
    values: &'b [i64],
    informed: &'b [i64],
    qmdp: &'b [i64],
) -> Verdict
    ensures { (choices : List ℕ) → result ≡ standing_verdict (tables_in c transition.now observation.now reward.now)
        (lent state.now (cells actions.now choices masks.now entries.now corners.now
        weights.now values.now) (rows informed.now qmdp.now)) }
{
    if !standing::standing_holds(
        transition,
        observation,
        reward,
        c,
        state,
        actions,
        masks,
        entries,
        corners,
        weights,
        values,
        informed,
        qmdp,
    ) {
        return Err(Refusal(7, 0));
    }
    let s = levels::standing_in(state);
    if s.number == 0 {
        return Err(Refusal(16, 0));
    }
    Ok(())
}

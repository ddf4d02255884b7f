// Two engines of the sums over transitions: from the table, or from its list where one is lent. Both give the same.
#![tactic(auto)]

ghost use Rattle.std.specs.Prelude.{◌≡◌, ◌≤◌, ◌<◌, pos};
ghost use Rattle.integers.specs.Whole.{Below, Within};
ghost use Rattle.integers.specs.Cells.{padded};
ghost use Rattle.tables.specs.Limits.{max_states, max_actions, one, max_weight};
ghost use Rattle.sums.specs.Steps.{moved_in, backup_in, RewardsFit, foreseen_limit};
ghost use Rattle.engines.specs.Steps.{EngineFits};

use tables::{Action, ByState, Weights};

// The sum over s of p(s) × T(s,a,s'), at each state s' reached.
pub fn moved<'a>(transition: &'a [u16], list: &[u32], n: usize, p: &[u64], a: Action) -> Weights
    requires n_le_max_states { (n ≤ max_states) × (a.0 < max_actions) }
    requires below { Below max_weight n p.now }
    requires engine_fits { EngineFits n transition.now list.now a.0 }
    ensures { result ≡ padded 0 max_states n (moved_in n transition.now p.now a.0) }
{
    if list.len() == 0 {
        return sums::moved(transition, n, p, a);
    }
    sparse::moved(list, n, p, a)
}

// The vector backup at each state.
pub fn backups<'a>(
    transition: &'a [u16],
    list: &[u32],
    reward: &'a [i64],
    f: &[i64],
    n: usize,
    g: u64,
    a: Action,
) -> ByState
    requires n_le_max_states { (n ≤ max_states) × ((a.0 < max_actions) × (g ≤ one)) }
    requires engine_fits { EngineFits n transition.now list.now a.0 }
    requires rewards_fit { RewardsFit n reward.now a.0 }
    requires within { Within foreseen_limit n f.now }
    ensures { result ≡ padded (pos 0) max_states n (backup_in n g transition.now reward.now f.now a.0) }
{
    if list.len() == 0 {
        return vectors::backups(transition, reward, f, n, g, a);
    }
    sparse::backups(list, reward, f, n, g, a)
}

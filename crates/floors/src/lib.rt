// The backup inequalities of an offered level's vectors (13).
#![tactic(auto)]

ghost use Rattle.std.specs.Prelude.{◌≡◌, [], ◌≤◌, nat_abs};
ghost use Rattle.std.specs.Int.Signed.{le_z};
ghost use Rattle.integers.specs.Whole.{◌·◌};
ghost use Rattle.tables.specs.Limits.{max_entry, K};
ghost use Rattle.tables.specs.Storage.{model_in};
ghost use Rattle.levels.specs.Storage.{floor_in};
ghost use Rattle.levels.specs.Judged.{floors_verdict};
ghost use Rattle.columns.specs.Steps.{Lists};
ghost use Rattle.floors.specs.Steps.{Judging};

use levels::shape;
use refusals::{Refusal, Verdict};
use tables::{Action, Counts, State, Tables, Vector, read};

// Whether an entry is at most its backup.
fn entry_holds(backup: i64, entry: i64) -> bool
    requires { nat_abs entry ≤ max_entry }
    ensures { result ≡ le_z (K · entry) backup }
{
    integers::scaled(Tables::K, entry) <= backup
}

// 13: the first vector with an entry above its backup, at a state that it covers.
pub fn floors_hold<'a, 'b>(
    transition: &'a [u16],
    list: &[u32],
    observation: &'a [u16],
    reward: &'a [i64],
    masks: &[u64],
    entries: &[i64],
    actions: &'b [u8],
    choices: &'b [u16],
    covering: &'b [u64],
    offered: &'b [i64],
    c: Counts,
    vectors: usize,
) -> Verdict
    requires judging { Judging c transition.now observation.now reward.now masks.now entries.now vectors actions.now choices.now covering.now
        offered.now }
    requires lists { Lists c transition.now list.now }
    ensures { result ≡ floors_verdict (model_in c transition.now observation.now reward.now)
        (floor_in c.states c.observations 0 [] [] masks.now entries.now)
        (floor_in c.states c.observations vectors actions.now choices.now covering.now offered.now) }
{
    let n = c.states;
    let k = c.observations;
    let mut found = Ok(());
    'vectors: for v in 0..vectors {
        let a = Action(shape::action(actions[v]));
        let f = vectors::foreseen(observation, n, k, masks, entries, choices, Vector(v), a);
        let b = engines::backups(transition, list, reward, &f, n, c.discount, a);
        for s in 0..n {
            if masks::covers(covering[v], State(s)) {
                let e = read::entry_at(offered, n, Vector(v), State(s));
                if !entry_holds(b[s], e) {
                    found = Err(Refusal(13, v));
                    break 'vectors;
                }
            }
        }
    }
    found
}

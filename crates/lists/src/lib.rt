// The list of a model's transitions: made over a slice, and tested where it is handed in.
#![tactic(auto)]

ghost use Rattle.std.specs.Prelude.{◌≡◌};
ghost use Rattle.tables.specs.Storage.{tables_in};
ghost use Rattle.columns.specs.Columns.{list_verdict, listed_of, list_holds};

use refusals::{Refusal, Verdict};
use tables::Counts;

// Writes the list of T over a slice; or refused by 3, 5 or 6 of the tables, or 9 where the slice is too short for it, and unchanged.
pub fn make<'a>(
    transition: &'a [u16],
    observation: &'a [u16],
    reward: &'a [i64],
    c: Counts,
    list: &mut [u32],
) -> Verdict
    ensures value { result ≡ list_verdict (tables_in c transition.now observation.now reward.now) list.old }
    ensures list_after { list.new
        ≡ listed_of (tables_in c transition.now observation.now reward.now) list.old }
{
    validity::judge_tables(transition, observation, reward, c)?;
    if list.len() < columns::size(transition, c.states, c.actions) {
        return Err(Refusal(9, 0));
    }
    columns::put_list(transition, c.states, c.actions, list);
    Ok(())
}

// Whether a slice that is handed in with tables is empty, where no list is meant; or the tables are accepted, and it has their list.
pub fn holds<'a>(
    transition: &'a [u16],
    list: &[u32],
    observation: &'a [u16],
    reward: &'a [i64],
    c: Counts,
) -> bool
    ensures { result ≡ list_holds (tables_in c transition.now observation.now reward.now) list.now }
{
    if list.len() == 0 {
        return true;
    }
    if validity::judge_tables(transition, observation, reward, c).is_err() {
        return false;
    }
    columns::is_list(transition, list, c.states, c.actions)
}

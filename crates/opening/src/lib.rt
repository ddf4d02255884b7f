// Opening a certifier: level 0 and its rows over what is lent, or a refusal, which writes nothing.
#![tactic(auto)]

ghost use Rattle.std.specs.Prelude.{◌≡◌, true, ◌&&◌, ◌*◌, ◌≤◌, ◌<◌, leb, length, pos};
ghost use Rattle.integers.specs.Cells.{laid};
ghost use Rattle.tables.specs.Limits.{max_states, max_observations};
ghost use Rattle.tables.specs.Storage.{tables_in};
ghost use Rattle.refusals.specs.Verdicts.{◌before◌, unless};
ghost use Rattle.tables.specs.Judged.{tables_verdict};
ghost use Rattle.masks.specs.Masks.{mask_of};
ghost use Rattle.levels.specs.Storage.{state_size, cells, rows, lent, long_enough, long_rows};
ghost use Rattle.runs.specs.State.{open_verdict, opened};

use levels::{Standing, shape};
use refusals::{Refusal, Verdict};
use tables::{Counts, Tables};

// 3, 5 and 6 of the tables; then 9 where slices of such lengths are too short for level 0.
fn judge_open<'a>(
    transition: &'a [u16],
    observation: &'a [u16],
    reward: &'a [i64],
    c: Counts,
    state: usize,
    actions: usize,
    choices: usize,
    masks: usize,
    entries: usize,
    corners: usize,
    weights: usize,
    values: usize,
    informed: usize,
    qmdp: usize,
) -> Verdict
    ensures { result ≡ (tables_verdict (tables_in c transition.now observation.now reward.now) before
        unless (leb state_size state && ((leb (1 * c.observations) choices && long_enough c.states 1 0 actions masks entries corners weights values)
        && long_rows c.actions c.states informed qmdp)) 9 0) }
{
    validity::judge_tables(transition, observation, reward, c)?;
    if state < Standing::SIZE {
        return Err(Refusal(9, 0));
    }
    let s = Standing::fresh();
    if !shape::complete(
        c.states,
        c.observations,
        s.vectors,
        s.points,
        actions,
        choices,
        masks,
        entries,
        corners,
        weights,
        values,
    ) {
        return Err(Refusal(9, 0));
    }
    let cells = c.actions * c.states;
    if informed < cells {
        return Err(Refusal(9, 0));
    }
    if qmdp < cells {
        return Err(Refusal(9, 0));
    }
    Ok(())
}

// Level 0 over the slices: one zero vector that covers all states, zero corners.
fn lay_level_0(
    n: usize,
    k: usize,
    actions: &mut [u8],
    choices: &mut [u16],
    masks: &mut [u64],
    entries: &mut [i64],
    corners: &mut [i64],
)
    requires n_nonzero { (0 < n) × ((n ≤ max_states) × (k ≤ max_observations)) }
    requires actions_nonzero { (0 < length actions.old) × ((k ≤ length choices.old) × ((0 < length masks.old) × ((n ≤ length entries.old) ×
        (n ≤ length corners.old)))) }
    ensures actions_after { actions.new ≡ laid 1 (λ v. 0) actions.old }
    ensures choices_after { choices.new ≡ laid k (λ o. 0) choices.old }
    ensures masks_after { masks.new ≡ laid 1 (λ v. mask_of n (λ s. true)) masks.old }
    ensures entries_after { entries.new ≡ laid n (λ s. pos 0) entries.old }
    ensures corners_after { corners.new ≡ laid n (λ s. pos 0) corners.old }
{
    actions[0] = 0;
    cells::paste(choices, 0, &[0u16; Tables::OBSERVATIONS], k);
    masks[0] = masks::all(n);
    cells::clear(entries, n);
    cells::clear(corners, n);
}

// Opens a certifier on tables of any content: at level 0, or refused by 3, 5, 6 or 9.
pub fn open<'a>(
    transition: &'a [u16],
    observation: &'a [u16],
    reward: &'a [i64],
    c: Counts,
    state: &mut [usize],
    actions: &mut [u8],
    choices: &mut [u16],
    masks: &mut [u64],
    entries: &mut [i64],
    corners: &mut [i64],
    weights: &[u32],
    values: &[i64],
    informed: &mut [i64],
    qmdp: &mut [i64],
) -> Verdict
    ensures { let m = tables_in c transition.now observation.now reward.now in
        let x = lent state.old (cells actions.old choices.old masks.old entries.old
        corners.old weights.now values.now) (rows informed.old qmdp.old) in
        let y = lent state.new (cells actions.new choices.new masks.new entries.new corners.new
        weights.now values.now) (rows informed.new qmdp.new) in
        (result ≡ open_verdict m x)
        × (y ≡ opened m x) }
{
    judge_open(
        transition,
        observation,
        reward,
        c,
        state.len(),
        actions.len(),
        choices.len(),
        masks.len(),
        entries.len(),
        corners.len(),
        weights.len(),
        values.len(),
        informed.len(),
        qmdp.len(),
    )?;
    levels::put_standing(state, Standing::fresh());
    lay_level_0(
        c.states,
        c.observations,
        actions,
        choices,
        masks,
        entries,
        corners,
    );
    cells::clear(informed, c.actions * c.states);
    cells::clear(qmdp, c.actions * c.states);
    Ok(())
}

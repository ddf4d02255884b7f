// Totals at many mixtures in one call. Tables and the standing level are lent.
#![tactic(auto)]

ghost use Rattle.std.specs.Prelude.{◌≡◌, List, ℕ, ◌*◌, ◌≤◌, length};
ghost use Rattle.tables.specs.Storage.{tables_in, row_in};
ghost use Rattle.levels.specs.Storage.{cells, rows, lent};
ghost use Rattle.bounds.specs.Steps.{answer_in, Asked};
ghost use Rattle.mixtures.specs.Each.{answers, room_for_answers, answers_laid, each_verdict, each_of};

use levels::shape;
use refusals::{Refusal, Verdict};
use tables::Counts;

// Whether slices of such lengths have a place for so many answers.
fn room_for(count: usize, verdicts: usize, lower: usize, upper: usize, advice: usize) -> bool
    ensures { result ≡ room_for_answers count verdicts lower upper advice }
{
    if verdicts < count {
        return false;
    }
    if lower < count {
        return false;
    }
    if upper < count {
        return false;
    }
    count <= advice
}

// The answer at each mixture, written at its number.
fn write_answers<'b>(
    actions: &'b [u8],
    masks: &'b [u64],
    entries: &'b [i64],
    corners: &'b [i64],
    weights: &'b [u32],
    informed: &'b [i64],
    gains: &[u64],
    n: usize,
    m: usize,
    vectors: usize,
    points: usize,
    mixtures: &[u32],
    count: usize,
    verdicts: &mut [u8],
    lower: &mut [i64],
    upper: &mut [i64],
    advice: &mut [u8],
)
    requires asked { Asked n m vectors points actions.now masks.now entries.now corners.now weights.now informed.now gains.now }
    requires n_in_bounds { count * n ≤ length mixtures.now }
    requires count_in_bounds { (count ≤ length verdicts.old) × ((count ≤ length lower.old) × ((count ≤ length upper.old) × (count ≤ length advice.old))) }
    ensures { answers verdicts.new lower.new upper.new advice.new
        ≡ answers_laid (λ i. answer_in n m vectors points actions.now masks.now entries.now corners.now
        weights.now informed.now gains.now (row_in n mixtures.now i)) count
        (answers verdicts.old lower.old upper.old advice.old) }
{
    for i in 0..count {
        let mixture = cells::row(mixtures, n, i);
        match bounds::answer(
            actions, masks, entries, corners, weights, informed, gains, n, m, vectors, points,
            mixture,
        ) {
            Ok(totals) => {
                verdicts[i] = 0;
                lower[i] = totals.lower;
                upper[i] = totals.upper;
                advice[i] = shape::number(totals.action);
            }
            Err(Refusal(number, _)) => {
                verdicts[i] = number;
                lower[i] = 0;
                upper[i] = 0;
                advice[i] = 0;
            }
        }
    }
}

// The totals at each of some mixtures of any content, packed, one after the other: at a mixture's number, what it is refused by or 0, the lower and the
// upper total and the action to open with, every part 0 where it is refused. All are refused by 7, 16, 17 or 9, and then nothing is written.
pub fn each<'a, 'b>(
    transition: &'a [u16],
    observation: &'a [u16],
    reward: &'a [i64],
    c: Counts,
    state: &'b [usize],
    actions: &'b [u8],
    masks: &'b [u64],
    entries: &'b [i64],
    corners: &'b [i64],
    weights: &'b [u32],
    values: &'b [i64],
    informed: &'b [i64],
    qmdp: &'b [i64],
    mixtures: &[u32],
    count: usize,
    verdicts: &mut [u8],
    lower: &mut [i64],
    upper: &mut [i64],
    advice: &mut [u8],
) -> Verdict
    ensures { (choices : List ℕ) →
        let m = tables_in c transition.now observation.now reward.now in
        let standing = lent state.now (cells actions.now choices masks.now entries.now corners.now
        weights.now values.now) (rows informed.now qmdp.now) in
        let y = answers verdicts.old lower.old upper.old advice.old in
        let written = answers verdicts.new lower.new upper.new advice.new in
        (result ≡ each_verdict m standing mixtures.now count y)
        × (written ≡ each_of m standing mixtures.now count y) }
{
    asking::judge_standing(
        transition,
        observation,
        reward,
        c,
        state,
        actions,
        masks,
        entries,
        corners,
        weights,
        values,
        informed,
        qmdp,
    )?;
    let n = c.states;
    if mixtures.len() / n < count {
        return Err(Refusal(17, 0));
    }
    if !room_for(
        count,
        verdicts.len(),
        lower.len(),
        upper.len(),
        advice.len(),
    ) {
        return Err(Refusal(9, 0));
    }
    let s = levels::standing_in(state);
    let gains = ceilings::gains(corners, weights, values, s.points, n);
    write_answers(
        actions, masks, entries, corners, weights, informed, &gains, n, c.actions, s.vectors,
        s.points, mixtures, count, verdicts, lower, upper, advice,
    );
    Ok(())
}

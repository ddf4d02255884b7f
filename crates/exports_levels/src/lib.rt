// The interface for C and Rust: the next level of a certifier, built from points.
#![tactic(auto)]

ghost use Rattle.std.specs.Prelude.{◌≡◌, true, List, ℕ, ◌<◌};
ghost use Rattle.tables.specs.Tables.{Tables};
ghost use Rattle.tables.specs.Limits.{max_levels};
ghost use Rattle.tables.specs.Storage.{model_of};
ghost use Rattle.refusals.specs.Verdicts.{◌before◌, left};
ghost use Rattle.columns.specs.Columns.{list_holds, handed_list};
ghost use Rattle.plans.specs.Build.{some_covers_all};
ghost use Rattle.levels.specs.Storage.{Lent, cells, rows, lent};
ghost use Rattle.runs.specs.State.{build_verdict, built_of};
ghost use Rattle.runs.specs.Demand3.{ModelAccepted, Event, certifier, after, steps, claim, PointsHold};
ghost use Rattle.answers.specs.Calls.{tables_by, refusal_of};
ghost use Rattle.exports_levels.specs.Calls.{Builds};

use answers::Refusal;
use tables::Counts;

// Builds the next level of a certifier from a count of points, whose weights are the level's own. The list is as for an offer.
#[unsafe(no_mangle)]
pub extern "C" fn biidhaqun_build<'a, 'b>(
    n: usize,
    m: usize,
    k: usize,
    g: u64,
    transition: &'a [u16],
    list: &[u32],
    observation: &'a [u16],
    reward: &'a [i64],
    state: &'b [usize],
    actions: &'b [u8],
    masks: &'b [u64],
    entries: &'b [i64],
    corners: &'b [i64],
    weights: &'b [u32],
    values: &'b [i64],
    informed: &'b [i64],
    qmdp: &'b [i64],
    count: usize,
    given: &[u32],
    newactions: &mut [u8],
    newchoices: &mut [u16],
    newmasks: &mut [u64],
    newentries: &mut [i64],
    newcorners: &mut [i64],
    newvalues: &mut [i64],
) -> Refusal
    ensures { (choices : List ℕ) →
        let tables = tables_by n m k g transition.now observation.now reward.now in
        let standing = lent state.now (cells actions.now choices masks.now entries.now corners.now
        weights.now values.now) (rows informed.now qmdp.now) in
        let y = cells newactions.old newchoices.old newmasks.old newentries.old newcorners.old
        given.now newvalues.old in
        let made = cells newactions.new newchoices.new newmasks.new newentries.new newcorners.new
        given.now newvalues.new in
        (result ≡ refusal_of (handed_list tables list.now before build_verdict tables standing count y))
        × ((made ≡ left (handed_list tables list.now) (built_of tables standing count y) y)
        × ((m₀ : Tables) (x : Lent) (es : List Event) → ModelAccepted m₀ x → certifier tables standing ≡ after m₀ x es → steps m₀ x es < max_levels
        → some_covers_all (model_of tables) (claim m₀ x es).level ≡ true → PointsHold tables x count y → list_holds tables list.now ≡ true
        → Builds tables standing (claim m₀ x es) count y result made)) }
{
    let c = Counts {
        states: n,
        actions: m,
        observations: k,
        discount: g,
    };
    let verdict = building::build(
        transition,
        list,
        observation,
        reward,
        c,
        state,
        actions,
        masks,
        entries,
        corners,
        weights,
        values,
        informed,
        qmdp,
        given,
        count,
        newactions,
        newchoices,
        newmasks,
        newentries,
        newcorners,
        newvalues,
    );
    answers::refusal_of(verdict)
}

// The interface for C and Rust: its version, and a level offered, over slices that programs lend. Whatever is handed in, a call ends without fault, and
// one that refuses leaves every lent slice as it was.
#![tactic(auto)]

ghost use Rattle.std.specs.Prelude.{◌≡◌};
ghost use Rattle.refusals.specs.Verdicts.{◌before◌, left};
ghost use Rattle.columns.specs.Columns.{handed_list};
ghost use Rattle.levels.specs.Storage.{cells, rows, lent, lent_for};
ghost use Rattle.levels.specs.Judged.{offer_verdict};
ghost use Rattle.runs.specs.State.{offered};
ghost use Rattle.answers.specs.Calls.{layout_version, tables_by, refusal_of};

use answers::Refusal;
use tables::Counts;

// The version of what follows: it rises where slices, their order or an answer's parts change.
#[unsafe(no_mangle)]
pub extern "C" fn biidhaqun_version() -> u64
    ensures { result ≡ layout_version }
{
    6
}

// Offers a level to a certifier, which then stands one level higher. A list of the transitions may be lent with the table; of no words, none is meant.
#[unsafe(no_mangle)]
pub extern "C" fn biidhaqun_offer<'a, 'b>(
    n: usize,
    m: usize,
    k: usize,
    g: u64,
    transition: &'a [u16],
    list: &[u32],
    observation: &'a [u16],
    reward: &'a [i64],
    state: &mut [usize],
    actions: &mut [u8],
    choices: &mut [u16],
    masks: &mut [u64],
    entries: &mut [i64],
    corners: &mut [i64],
    weights: &mut [u32],
    values: &mut [i64],
    informed: &mut [i64],
    qmdp: &mut [i64],
    vectors: usize,
    points: usize,
    newactions: &'b [u8],
    newchoices: &'b [u16],
    newmasks: &'b [u64],
    newentries: &'b [i64],
    newcorners: &'b [i64],
    newweights: &'b [u32],
    newvalues: &'b [i64],
) -> Refusal
    ensures { let tables = tables_by n m k g transition.now observation.now reward.now in
        let x = lent state.old (cells actions.old choices.old masks.old entries.old
        corners.old weights.old values.old) (rows informed.old qmdp.old) in
        let l = lent_for vectors points (cells newactions.now newchoices.now newmasks.now newentries.now
        newcorners.now newweights.now newvalues.now) in
        let y = lent state.new (cells actions.new choices.new masks.new entries.new corners.new
        weights.new values.new) (rows informed.new qmdp.new) in
        (result ≡ refusal_of (handed_list tables list.now before offer_verdict tables x l))
        × (y ≡ left (handed_list tables list.now) (offered tables x l) x) }
{
    let c = Counts {
        states: n,
        actions: m,
        observations: k,
        discount: g,
    };
    let verdict = offering::offer(
        transition,
        list,
        observation,
        reward,
        c,
        state,
        actions,
        choices,
        masks,
        entries,
        corners,
        weights,
        values,
        informed,
        qmdp,
        vectors,
        points,
        newactions,
        newchoices,
        newmasks,
        newentries,
        newcorners,
        newweights,
        newvalues,
    );
    answers::refusal_of(verdict)
}

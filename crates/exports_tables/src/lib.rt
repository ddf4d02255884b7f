// The interface for C and Rust: a certifier opened on tables, the list of a model's transitions, and new prices. Nothing is kept.
#![tactic(auto)]

ghost use Rattle.std.specs.Prelude.{◌≡◌, List, ℕ};
ghost use Rattle.columns.specs.Columns.{list_verdict, listed_of};
ghost use Rattle.levels.specs.Storage.{cells, rows, lent};
ghost use Rattle.runs.specs.State.{open_verdict, opened};
ghost use Rattle.runs.specs.Prices.{prices_verdict, priced_of};
ghost use Rattle.answers.specs.Calls.{tables_by, refusal_of};

use answers::Refusal;
use tables::Counts;

// Opens a certifier on tables, at level 0. Nothing is written to weights and values: level 0 has no point.
#[unsafe(no_mangle)]
pub extern "C" fn biidhaqun_open<'a>(
    n: usize,
    m: usize,
    k: usize,
    g: u64,
    transition: &'a [u16],
    observation: &'a [u16],
    reward: &'a [i64],
    state: &mut [usize],
    actions: &mut [u8],
    choices: &mut [u16],
    masks: &mut [u64],
    entries: &mut [i64],
    corners: &mut [i64],
    weights: &[u32],
    values: &[i64],
    informed: &mut [i64],
    qmdp: &mut [i64],
) -> Refusal
    ensures { let tables = tables_by n m k g transition.now observation.now reward.now in
        let x = lent state.old (cells actions.old choices.old masks.old entries.old
        corners.old weights.now values.now) (rows informed.old qmdp.old) in
        let y = lent state.new (cells actions.new choices.new masks.new entries.new corners.new
        weights.now values.now) (rows informed.new qmdp.new) in
        (result ≡ refusal_of (open_verdict tables x))
        × (y ≡ opened tables x) }
{
    let c = Counts {
        states: n,
        actions: m,
        observations: k,
        discount: g,
    };
    let verdict = opening::open(
        transition,
        observation,
        reward,
        c,
        state,
        actions,
        choices,
        masks,
        entries,
        corners,
        weights,
        values,
        informed,
        qmdp,
    );
    answers::refusal_of(verdict)
}

// Writes the list of a model's transitions over a slice.
#[unsafe(no_mangle)]
pub extern "C" fn biidhaqun_list<'a>(
    n: usize,
    m: usize,
    k: usize,
    g: u64,
    transition: &'a [u16],
    observation: &'a [u16],
    reward: &'a [i64],
    list: &mut [u32],
) -> Refusal
    ensures value { result ≡ refusal_of (list_verdict (tables_by n m k g transition.now observation.now reward.now)
        list.old) }
    ensures list_after { list.new
        ≡ listed_of (tables_by n m k g transition.now observation.now reward.now) list.old }
{
    let c = Counts {
        states: n,
        actions: m,
        observations: k,
        discount: g,
    };
    let verdict = lists::make(transition, observation, reward, c, list);
    answers::refusal_of(verdict)
}

// Moves a certifier to new tables, of which only the rewards differ. The choices of what stands are not read.
#[unsafe(no_mangle)]
pub extern "C" fn biidhaqun_reprice<'a, 'n, 'b>(
    n: usize,
    m: usize,
    k: usize,
    g: u64,
    transition: &'a [u16],
    observation: &'a [u16],
    reward: &'a [i64],
    newn: usize,
    newm: usize,
    newk: usize,
    newg: u64,
    newtransition: &'n [u16],
    newobservation: &'n [u16],
    newreward: &'n [i64],
    state: &'b [usize],
    actions: &'b [u8],
    masks: &'b [u64],
    entries: &mut [i64],
    corners: &mut [i64],
    weights: &'b [u32],
    values: &mut [i64],
    informed: &mut [i64],
    qmdp: &mut [i64],
) -> Refusal
    ensures { (choices : List ℕ) →
        let tables = tables_by n m k g transition.now observation.now reward.now in
        let next = tables_by newn newm newk newg newtransition.now newobservation.now newreward.now in
        let standing = lent state.now (cells actions.now choices masks.now entries.old corners.old
        weights.now values.old) (rows informed.old qmdp.old) in
        let priced = lent state.now (cells actions.now choices masks.now entries.new corners.new
        weights.now values.new) (rows informed.new qmdp.new) in
        (result ≡ refusal_of (prices_verdict tables standing next))
        × (priced ≡ priced_of tables standing next) }
{
    let c = Counts {
        states: n,
        actions: m,
        observations: k,
        discount: g,
    };
    let new = Counts {
        states: newn,
        actions: newm,
        observations: newk,
        discount: newg,
    };
    let verdict = pricing::reprice(
        transition,
        observation,
        reward,
        c,
        newtransition,
        newobservation,
        newreward,
        new,
        state,
        actions,
        masks,
        entries,
        corners,
        weights,
        values,
        informed,
        qmdp,
    );
    answers::refusal_of(verdict)
}

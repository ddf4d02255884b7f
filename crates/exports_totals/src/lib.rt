// The interface for C and Rust: totals at one mixture, at many and within ranges of weights, and the worth of a plan graph. Nothing is kept.
#![tactic(auto)]

ghost use Rattle.std.specs.Prelude.{◌≡◌, List, ℕ, ◌<◌};
ghost use Rattle.tables.specs.Tables.{Tables};
ghost use Rattle.levels.specs.Storage.{Lent, cells, rows, lent};
ghost use Rattle.runs.specs.State.{totals_of};
ghost use Rattle.runs.specs.Demand3.{ModelAccepted, Event, certifier, after, steps, claim, MixtureHolds};
ghost use Rattle.mixtures.specs.Each.{answers, each_verdict, each_of};
ghost use Rattle.intervals.specs.Intervals.{within_of};
ghost use Rattle.intervals.specs.Claim.{RangesHold};
ghost use Rattle.worths.specs.Storage.{lent_graph};
ghost use Rattle.worth.specs.Judged.{worth_answer};
ghost use Rattle.answers.specs.Calls.{tables_by, refusal_of};
ghost use Rattle.exports_totals.specs.Calls.{totals_by, Brackets, totals_within_by, Encloses, worth_by};

use answers::Refusal;
use tables::{Counts, State};
use worths::Node;

#[repr(C)]
#[derive(Clone, Copy)]
pub struct Totals {
    pub number: u64,
    pub place: usize,
    pub lower: i64,
    pub upper: i64,
    pub gap: i64,
    pub action: usize,
    pub sawtooth: i64,
    pub informed: i64,
}

#[repr(C)]
#[derive(Clone, Copy)]
pub struct TotalsWithin {
    pub number: u64,
    pub place: usize,
    pub lower: i64,
    pub upper: i64,
}

#[repr(C)]
#[derive(Clone, Copy)]
pub struct Worth {
    pub number: u64,
    pub place: usize,
    pub ticks: i64,
}

// The totals of a certifier at a mixture. The choices of what stands are not read.
#[unsafe(no_mangle)]
pub extern "C" fn biidhaqun_totals<'a, 'b>(
    n: usize,
    m: usize,
    k: usize,
    g: u64,
    transition: &'a [u16],
    observation: &'a [u16],
    reward: &'a [i64],
    state: &'b [usize],
    actions: &'b [u8],
    masks: &'b [u64],
    entries: &'b [i64],
    corners: &'b [i64],
    weights: &'b [u32],
    values: &'b [i64],
    informed: &'b [i64],
    qmdp: &'b [i64],
    mixture: &[u32],
) -> Totals
    ensures { (choices : List ℕ) →
        let tables = tables_by n m k g transition.now observation.now reward.now in
        let standing = lent state.now (cells actions.now choices masks.now entries.now corners.now
        weights.now values.now) (rows informed.now qmdp.now) in
        (result ≡ totals_by (totals_of tables standing mixture.now))
        × ((m₀ : Tables) (x : Lent) (es : List Event) → ModelAccepted m₀ x → certifier tables standing ≡ after m₀ x es → 0 < steps m₀ x es
        → MixtureHolds tables (claim m₀ x es) mixture.now → Brackets tables (steps m₀ x es) (claim m₀ x es) mixture.now result) }
{
    let c = Counts {
        states: n,
        actions: m,
        observations: k,
        discount: g,
    };
    match bounds::totals(
        transition,
        observation,
        reward,
        c,
        state,
        actions,
        masks,
        entries,
        corners,
        weights,
        values,
        informed,
        qmdp,
        mixture,
    ) {
        Ok(bounds) => Totals {
            number: 0,
            place: 0,
            lower: bounds.lower,
            upper: bounds.upper,
            gap: bounds.gap,
            action: bounds.action.0,
            sawtooth: bounds.sawtooth,
            informed: bounds.informed,
        },
        Err(e) => {
            let refusal = answers::refusal_of(Err(e));
            Totals {
                number: refusal.number,
                place: refusal.place,
                lower: 0,
                upper: 0,
                gap: 0,
                action: 0,
                sawtooth: 0,
                informed: 0,
            }
        }
    }
}

// The totals of a certifier at a count of mixtures, packed: it is judged once, and a mixture that is refused refuses its own answer alone.
#[unsafe(no_mangle)]
pub extern "C" fn biidhaqun_each<'a, 'b>(
    n: usize,
    m: usize,
    k: usize,
    g: u64,
    transition: &'a [u16],
    observation: &'a [u16],
    reward: &'a [i64],
    state: &'b [usize],
    actions: &'b [u8],
    masks: &'b [u64],
    entries: &'b [i64],
    corners: &'b [i64],
    weights: &'b [u32],
    values: &'b [i64],
    informed: &'b [i64],
    qmdp: &'b [i64],
    mixtures: &[u32],
    count: usize,
    verdicts: &mut [u8],
    lower: &mut [i64],
    upper: &mut [i64],
    advice: &mut [u8],
) -> Refusal
    ensures { (choices : List ℕ) →
        let tables = tables_by n m k g transition.now observation.now reward.now in
        let standing = lent state.now (cells actions.now choices masks.now entries.now corners.now
        weights.now values.now) (rows informed.now qmdp.now) in
        let y = answers verdicts.old lower.old upper.old advice.old in
        let written = answers verdicts.new lower.new upper.new advice.new in
        (result ≡ refusal_of (each_verdict tables standing mixtures.now count y))
        × (written ≡ each_of tables standing mixtures.now count y) }
{
    let c = Counts {
        states: n,
        actions: m,
        observations: k,
        discount: g,
    };
    let verdict = mixtures::each(
        transition,
        observation,
        reward,
        c,
        state,
        actions,
        masks,
        entries,
        corners,
        weights,
        values,
        informed,
        qmdp,
        mixtures,
        count,
        verdicts,
        lower,
        upper,
        advice,
    );
    answers::refusal_of(verdict)
}

// The totals of a certifier over all mixtures whose weights lie within ranges. The choices of what stands are not read.
#[unsafe(no_mangle)]
pub extern "C" fn biidhaqun_within<'a, 'b, 'c>(
    n: usize,
    m: usize,
    k: usize,
    g: u64,
    transition: &'a [u16],
    observation: &'a [u16],
    reward: &'a [i64],
    state: &'b [usize],
    actions: &'b [u8],
    masks: &'b [u64],
    entries: &'b [i64],
    corners: &'b [i64],
    weights: &'b [u32],
    values: &'b [i64],
    informed: &'b [i64],
    qmdp: &'b [i64],
    lows: &'c [u32],
    highs: &'c [u32],
) -> TotalsWithin
    ensures { (choices : List ℕ) →
        let tables = tables_by n m k g transition.now observation.now reward.now in
        let standing = lent state.now (cells actions.now choices masks.now entries.now corners.now
        weights.now values.now) (rows informed.now qmdp.now) in
        (result ≡ totals_within_by (within_of tables standing lows.now highs.now))
        × ((m₀ : Tables) (x : Lent) (es : List Event) → ModelAccepted m₀ x → certifier tables standing ≡ after m₀ x es → 0 < steps m₀ x es
        → RangesHold tables (claim m₀ x es) lows.now highs.now
        → Encloses tables (steps m₀ x es) (claim m₀ x es) lows.now highs.now result) }
{
    let c = Counts {
        states: n,
        actions: m,
        observations: k,
        discount: g,
    };
    match intervals::totals_within(
        transition,
        observation,
        reward,
        c,
        state,
        actions,
        masks,
        entries,
        corners,
        weights,
        values,
        informed,
        qmdp,
        lows,
        highs,
    ) {
        Ok(within) => TotalsWithin {
            number: 0,
            place: 0,
            lower: within.lower,
            upper: within.upper,
        },
        Err(e) => {
            let refusal = answers::refusal_of(Err(e));
            TotalsWithin {
                number: refusal.number,
                place: refusal.place,
                lower: 0,
                upper: 0,
            }
        }
    }
}

// The worth of a plan graph's node at a state with some steps left.
#[unsafe(no_mangle)]
pub extern "C" fn biidhaqun_worth<'a, 'b>(
    n: usize,
    m: usize,
    k: usize,
    g: u64,
    transition: &'a [u16],
    observation: &'a [u16],
    reward: &'a [i64],
    nodes: usize,
    actions: &'b [u8],
    next: &'b [u16],
    node: usize,
    state: usize,
    steps: usize,
) -> Worth
    ensures { let tables = tables_by n m k g transition.now observation.now reward.now in
        result ≡ worth_by (worth_answer tables (lent_graph nodes actions.now next.now) node state steps) }
{
    let c = Counts {
        states: n,
        actions: m,
        observations: k,
        discount: g,
    };
    match worth::worth(
        transition,
        observation,
        reward,
        c,
        nodes,
        actions,
        next,
        Node(node),
        State(state),
        steps,
    ) {
        Ok(ticks) => Worth {
            number: 0,
            place: 0,
            ticks,
        },
        Err(e) => {
            let refusal = answers::refusal_of(Err(e));
            Worth {
                number: refusal.number,
                place: refusal.place,
                ticks: 0,
            }
        }
    }
}

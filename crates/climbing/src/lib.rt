// A certifier that climbs, in arrays of its own: at level 0, and the next level, which is built of one point. None of the calls refuses.
#![tactic(auto)]

ghost use Rattle.std.specs.Prelude.{◌≡◌};
ghost use Rattle.refusals.specs.Verdicts.{Fine};
ghost use Rattle.tables.specs.Storage.{tables_in};
ghost use Rattle.runs.specs.State.{open_verdict, opened, build_verdict, built_of};
ghost use Rattle.climbing.specs.Climb.{blank_cells, blank, lent_of, cells_of};

use levels::Standing;
use tables::{Counts, Tables};

// Each level is built of one point: a vector at each corner and at the point.
pub const POINTS: usize = 1;

pub const VECTORS: usize = Tables::STATES + POINTS;

pub const ROWS: usize = Tables::ACTIONS * Tables::STATES;

// The weights of the point, which is the mixture that is asked at.
pub type Point = [u32; POINTS * Tables::STATES];

// What a certifier is lent, for levels of one point.
#[derive(Clone, Copy)]
pub struct Climber {
    pub state: [usize; Standing::SIZE],
    pub actions: [u8; VECTORS],
    pub choices: [u16; VECTORS * Tables::OBSERVATIONS],
    pub masks: [u64; VECTORS],
    pub entries: [i64; VECTORS * Tables::STATES],
    pub corners: [i64; Tables::STATES],
    pub weights: Point,
    pub values: [i64; POINTS],
    pub informed: [i64; ROWS],
    pub qmdp: [i64; ROWS],
}

// A level that was built, to be offered.
#[derive(Clone, Copy)]
pub struct Rung {
    pub actions: [u8; VECTORS],
    pub choices: [u16; VECTORS * Tables::OBSERVATIONS],
    pub masks: [u64; VECTORS],
    pub entries: [i64; VECTORS * Tables::STATES],
    pub corners: [i64; Tables::STATES],
    pub weights: Point,
    pub values: [i64; POINTS],
}

// A certifier at level 0.
pub fn fresh<'a>(
    transition: &'a [u16],
    observation: &'a [u16],
    reward: &'a [i64],
    c: Counts,
) -> Climber
    requires { open_verdict (tables_in c transition.now observation.now reward.now) blank ≡ Fine }
    ensures { lent_of result ≡ opened (tables_in c transition.now observation.now reward.now) blank }
{
    let mut state = [0usize; Standing::SIZE];
    let mut actions = [0u8; VECTORS];
    let mut choices = [0u16; VECTORS * Tables::OBSERVATIONS];
    let mut masks = [0u64; VECTORS];
    let mut entries = [0i64; VECTORS * Tables::STATES];
    let mut corners = [0i64; Tables::STATES];
    let weights = [0u32; POINTS * Tables::STATES];
    let values = [0i64; POINTS];
    let mut informed = [0i64; ROWS];
    let mut qmdp = [0i64; ROWS];
    opening::open(
        transition,
        observation,
        reward,
        c,
        &mut state,
        &mut actions,
        &mut choices,
        &mut masks,
        &mut entries,
        &mut corners,
        &weights,
        &values,
        &mut informed,
        &mut qmdp,
    )
    .unwrap();
    Climber {
        state: state,
        actions: actions,
        choices: choices,
        masks: masks,
        entries: entries,
        corners: corners,
        weights: weights,
        values: values,
        informed: informed,
        qmdp: qmdp,
    }
}

// The level that the builder makes of the point, upon the one that stands.
pub fn made<'a>(
    transition: &'a [u16],
    observation: &'a [u16],
    reward: &'a [i64],
    c: Counts,
    h: Climber,
    point: Point,
) -> Rung
    requires { build_verdict (tables_in c transition.now observation.now reward.now) (lent_of h) 1 (blank_cells point) ≡ Fine }
    ensures { cells_of result ≡ built_of (tables_in c transition.now observation.now reward.now) (lent_of h) 1
        (blank_cells point) }
{
    let none = [0u32; 0]; // no list of transitions
    let mut actions = [0u8; VECTORS];
    let mut choices = [0u16; VECTORS * Tables::OBSERVATIONS];
    let mut masks = [0u64; VECTORS];
    let mut entries = [0i64; VECTORS * Tables::STATES];
    let mut corners = [0i64; Tables::STATES];
    let mut values = [0i64; POINTS];
    building::build(
        transition,
        &none,
        observation,
        reward,
        c,
        &h.state,
        &h.actions,
        &h.masks,
        &h.entries,
        &h.corners,
        &h.weights,
        &h.values,
        &h.informed,
        &h.qmdp,
        &point,
        POINTS,
        &mut actions,
        &mut choices,
        &mut masks,
        &mut entries,
        &mut corners,
        &mut values,
    )
    .unwrap();
    Rung {
        actions: actions,
        choices: choices,
        masks: masks,
        entries: entries,
        corners: corners,
        weights: point,
        values: values,
    }
}

// The levels of a model, one after the other: each is built of its start numbers, accepted, asked there, and printed.
#![tactic(auto)]

ghost use Rattle.std.specs.Prelude.{◌≡◌};
ghost use Rattle.tables.specs.Model.{Valid};
ghost use Rattle.tables.specs.Steps.{Stored};
ghost use Rattle.tables.specs.Storage.{weight_in, model_in, tables_in};
ghost use Rattle.plans.specs.Level.{IsPoint};
ghost use Rattle.levels.specs.Storage.{standing_at};
ghost use Rattle.runs.specs.State.{totals_of};
ghost use Rattle.climbing.specs.Climb.{lent_of};

use climbing::{Climber, Point};
use refusals::Refusal;
use runs::Bounds;
use std::io;
use tables::{Counts, Tables};

const LEVELS: usize = 3;

type Start = [u16; Tables::STATES];

// The start numbers as the weights of a point.
fn mixture(start: Start) -> Point
    ensures { result ≡ start }
{
    let mut b = [0u32; Tables::STATES];
    for s in 0..Tables::STATES {
        b[s] = start[s] as u32;
    }
    b
}

// The totals at the point.
fn asked<'a>(
    transition: &'a [u16],
    observation: &'a [u16],
    reward: &'a [i64],
    c: Counts,
    h: Climber,
    point: Point,
) -> Result<Bounds, Refusal>
    ensures { result ≡ totals_of (tables_in c transition.now observation.now reward.now) (lent_of h) point }
{
    bounds::totals(
        transition,
        observation,
        reward,
        c,
        &h.state,
        &h.actions,
        &h.masks,
        &h.entries,
        &h.corners,
        &h.weights,
        &h.values,
        &h.informed,
        &h.qmdp,
        &point,
    )
}

// How many levels it has accepted.
fn height(h: Climber) -> usize
    ensures { result ≡ (standing_at h.state).number }
{
    let standing = levels::standing_in(&h.state);
    standing.number
}

// The lines of the levels.
pub fn levels_of<'a>(
    rt: &impl Print,
    transition: &'a [u16],
    observation: &'a [u16],
    reward: &'a [i64],
    c: Counts,
    start: Start,
) -> io::Result<()>
    requires valid { Valid (model_in c transition.now observation.now reward.now) }
    requires stored { Stored c transition.now observation.now reward.now }
    requires point { IsPoint c.states (weight_in start) }
{
    let point = mixture(start);
    let mut h = climbing::fresh(transition, observation, reward, c);
    for t in 0..LEVELS {
        let w = climbing::made(transition, observation, reward, c, h, point);
        h = raising::raised(transition, observation, reward, c, h, w);
        let r = asked(transition, observation, reward, c, h, point).unwrap();
        streams::print_totals(rt, height(h), r)?;
    }
    Ok(())
}

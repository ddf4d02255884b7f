// A model file, read into tables and start numbers in slices that the caller lends. A refusal writes nothing.
#![tactic(auto)]

ghost use Rattle.std.specs.Prelude.{◌≡◌};
ghost use Rattle.refusals.specs.Verdicts.{left};
ghost use Rattle.reading.specs.Reading.{file_for, read_verdict, read_of, laid_transitions, laid_observations, laid_rewards, laid_start};

use refusals::Refusal;
use tables::{Counts, Tables};

// The slice lent for the start numbers is too short.
const SHORT: u8 = 100;

// Reads a model file into tables and start numbers, in hundredths.
#[tactic(auto, unfolding(crate::specs::Reading::read_verdict))]
pub fn read(
    file: &[u8],
    transition: &mut [u16],
    observation: &mut [u16],
    reward: &mut [i64],
    start: &mut [u16],
) -> Result<Counts, Refusal>
    ensures { let x = file_for file.now transition.old observation.old reward.old in
        let v = read_verdict x start.old in
        (result ≡ read_of v x)
        × ((transition.new ≡ left v (laid_transitions x transition.old) transition.old)
        × ((observation.new ≡ left v (laid_observations x observation.old) observation.old)
        × ((reward.new ≡ left v (laid_rewards x reward.old) reward.old)
        × (start.new ≡ left v (laid_start x start.old) start.old)))) }
{
    let mut t = [0u16; Tables::ACTIONS * Tables::STATES * Tables::STATES];
    let mut o = [0u16; Tables::ACTIONS * Tables::STATES * Tables::OBSERVATIONS];
    let mut r = [0i64; Tables::ACTIONS * Tables::STATES];
    let mut s = [0u16; Tables::STATES];
    let c = modelfile::read(
        file,
        transition.len(),
        observation.len(),
        reward.len(),
        &mut t,
        &mut o,
        &mut r,
        &mut s,
    )?;
    let n = c.states;
    if start.len() < n {
        return Err(Refusal(SHORT, n));
    }
    let rows = c.actions * n;
    cells::paste(transition, 0, &t, rows * n);
    cells::paste(observation, 0, &o, rows * c.observations);
    cells::paste(reward, 0, &r, rows);
    cells::paste(start, 0, &s, n);
    Ok(c)
}

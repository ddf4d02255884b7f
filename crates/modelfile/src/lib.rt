// A model file: its counts, with its tables and start numbers in slices, or the refusal of its first offending word or total.
#![tactic(auto)]

ghost use Rattle.std.specs.Prelude.{◌≡◌, ◌+◌, ◌*◌, ◌≤◌, length, replicate, pos};
ghost use Rattle.words.specs.Words.{words_in, between};
ghost use Rattle.tables.specs.declared.Counts.{Counts};
ghost use Rattle.tables.specs.Limits.{max_states, max_actions, max_observations};
ghost use Rattle.headers.specs.Steps.{CountsFit};
ghost use Rattle.bodies.specs.Body.{ended};
ghost use Rattle.bodies.specs.Steps.{file_answer, file_in};
ghost use Rattle.modelfile.specs.ModelFile.{room, roomed, model_file};

use refusals::Refusal;
use tables::Counts;

// The limit of a file.
#[derive(Clone, Copy)]
pub struct ModelFile {}

impl ModelFile {
    pub const BYTES: usize = 32_768;
}

// What follows the counts, where slices of such lengths have room for it.
#[tactic(auto, unfolding(crate::specs::ModelFile::roomed_by))]
fn roomed_at(
    file: &[u8],
    at: usize,
    c: Counts,
    transitions: usize,
    observations: usize,
    rewards: usize,
    transition: &mut [u16],
    observation: &mut [u16],
    reward: &mut [i64],
    start: &mut [u16],
) -> Result<Counts, Refusal>
    requires at_in_bounds { at ≤ length file.now }
    requires counts_fit { CountsFit c.states c.actions c.observations c.discount }
    requires transition_value { transition.old ≡ replicate (max_actions * max_states * max_states) 0 }
    requires observation_value { observation.old ≡ replicate (max_actions * max_states * max_observations) 0 }
    requires reward_value { reward.old ≡ replicate (max_actions * max_states) (pos 0) }
    requires start_value { start.old ≡ replicate max_states 0 }
    ensures value { result ≡ file_answer (ended (length file.now)
        (roomed (room transitions observations rewards) (length file.now + 1) c (words_in between file.now at))) }
    ensures start_after { (d : Counts) → result ≡ Ok d
        → file_in d transition.new observation.new reward.new start.new ≡ ended (length file.now)
        (roomed (room transitions observations rewards) (length file.now + 1) c (words_in between file.now at)) }
{
    if !validity::has_room(c, transitions, observations, rewards) {
        return Err(Refusal(3, 0));
    }
    bodies::body_at(file, at, c, false, transition, observation, reward, start)
}

// Reads a file of any content into cells that are 0, for slices of such lengths.
pub fn read(
    file: &[u8],
    transitions: usize,
    observations: usize,
    rewards: usize,
    transition: &mut [u16],
    observation: &mut [u16],
    reward: &mut [i64],
    start: &mut [u16],
) -> Result<Counts, Refusal>
    requires transition_value { transition.old ≡ replicate (max_actions * max_states * max_states) 0 }
    requires observation_value { observation.old ≡ replicate (max_actions * max_states * max_observations) 0 }
    requires reward_value { reward.old ≡ replicate (max_actions * max_states) (pos 0) }
    requires start_value { start.old ≡ replicate max_states 0 }
    ensures value { result ≡ file_answer (model_file (room transitions observations rewards) file.now) }
    ensures start_after { (c : Counts) → result ≡ Ok c
        → file_in c transition.new observation.new reward.new start.new
        ≡ model_file (room transitions observations rewards) file.now }
{
    if ModelFile::BYTES < file.len() {
        return Err(Refusal(1, 0));
    }
    let head = headers::header_at(file)?;
    roomed_at(
        file,
        head.next,
        head.value,
        transitions,
        observations,
        rewards,
        transition,
        observation,
        reward,
        start,
    )
}

// The converter: reads a file whose rewards depend on what follows, and writes the same model as a model file of ours, with expected rewards. A refusal
// writes nothing.
#![tactic(auto)]

ghost use Rattle.std.specs.Prelude.{◌≡◌, ◌+◌, ◌≤◌, true, length};
ghost use Rattle.refusals.specs.Verdicts.{Fine};
ghost use Rattle.words.specs.Words.{words_in, between};
ghost use Rattle.headers.specs.Steps.{CountsFit};
ghost use Rattle.bodies.specs.Body.{ended, body};
ghost use Rattle.bodies.specs.Steps.{file_in};
ghost use Rattle.written.specs.Text.{max_text};
ghost use Rattle.conversion.specs.Convert.{convert_verdict, converted, convert_answer, converted_over};
ghost use Rattle.conversion.specs.Claim.{ConvertHolds};
ghost use Rattle.conversion.specs.Steps.{SoundFile, Long, AnswersFile};

use modelfile::ModelFile;
use refusals::Refusal;
use tables::{Counts, Tables};
use written::Written;

// 25, then 26, then the expected rewards and the file that has them.
fn write_expected(
    c: Counts,
    transition: &[u16],
    observation: &[u16],
    outcomes: &[i64],
    start: &[u16],
    out: &mut [u8],
) -> Result<usize, Refusal>
    requires sound_file { SoundFile (file_in c transition.now observation.now outcomes.now start.now) }
    requires long { Long transition.now observation.now outcomes.now start.now }
    requires max_text_in_bounds { max_text ≤ length out.old }
    ensures { AnswersFile (file_in c transition.now observation.now outcomes.now start.now)
        out.old result out.new }
{
    if Tables::CONVERTED < c.states {
        return Err(Refusal(25, 0));
    }
    let mut reward = [0i64; Tables::ACTIONS * Tables::CONVERTED];
    expected::expect(transition, observation, outcomes, c, &mut reward)?;
    Ok(written::put_file(out, c, transition, observation, &reward, start))
}

// What follows the counts: it is read, and written with expected rewards.
fn from_counts(file: &[u8], at: usize, c: Counts, out: &mut [u8]) -> Result<usize, Refusal>
    requires at_in_bounds { at ≤ length file.now }
    requires counts_fit { CountsFit c.states c.actions c.observations c.discount }
    requires max_text_in_bounds { max_text ≤ length out.old }
    ensures { AnswersFile (ended (length file.now) (body true (length file.now + 1) c (words_in between file.now at)))
        out.old result out.new }
{
    let mut transition = [0u16; Tables::ACTIONS * Tables::STATES * Tables::STATES];
    let mut observation = [0u16; Tables::ACTIONS * Tables::STATES * Tables::OBSERVATIONS];
    let mut outcomes = [0i64; Tables::ACTIONS
        * Tables::CONVERTED
        * Tables::CONVERTED
        * Tables::OBSERVATIONS];
    let mut start = [0u16; Tables::STATES];
    let counts = bodies::body_at(
        file,
        at,
        c,
        true,
        &mut transition,
        &mut observation,
        &mut outcomes,
        &mut start,
    )?;
    write_expected(counts, &transition, &observation, &outcomes, &start, out)
}

// Writes a file of any content in our form.
pub fn convert(file: &[u8], out: &mut [u8]) -> Result<usize, Refusal>
    ensures value { result ≡ convert_answer (convert_verdict (length out.old) file.now) (length (converted file.now)) }
    ensures out_after { out.new ≡ converted_over file.now out.old }
    ensures convert_holds { convert_verdict (length out.old) file.now ≡ Fine → ConvertHolds file.now }
{
    if out.len() < Written::LENGTH {
        return Err(Refusal(27, 0));
    }
    if ModelFile::BYTES < file.len() {
        return Err(Refusal(1, 0));
    }
    let head = headers::header_at(file)?;
    from_counts(file, head.next, head.value, out)
}

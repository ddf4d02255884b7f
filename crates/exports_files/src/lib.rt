// The interface for C and Rust: a model file read into slices that programs lend, and a file of another form converted to one.
#![tactic(auto)]

ghost use Rattle.std.specs.Prelude.{◌≡◌, length};
ghost use Rattle.refusals.specs.Verdicts.{left, Fine};
ghost use Rattle.reading.specs.Reading.{file_for, read_verdict, read_of, laid_transitions, laid_observations, laid_rewards, laid_start};
ghost use Rattle.conversion.specs.Convert.{convert_verdict, converted, convert_answer, converted_over};
ghost use Rattle.conversion.specs.Claim.{ConvertHolds};
ghost use Rattle.exports_files.specs.Calls.{reading_by, conversion_by};

// What a model file has, with its refusal: every count 0 where it is refused.
#[repr(C)]
#[derive(Clone, Copy)]
pub struct Reading {
    pub number: u64,
    pub place: usize,
    pub states: usize,
    pub actions: usize,
    pub observations: usize,
    pub discount: u64,
}

#[repr(C)]
#[derive(Clone, Copy)]
pub struct Conversion {
    pub number: u64,
    pub place: usize,
    pub length: usize,
}

// Reads a model file into tables and start numbers, in hundredths.
#[unsafe(no_mangle)]
pub extern "C" fn biidhaqun_read(
    file: &[u8],
    transition: &mut [u16],
    observation: &mut [u16],
    reward: &mut [i64],
    start: &mut [u16],
) -> Reading
    ensures { let x = file_for file.now transition.old observation.old reward.old in
        let v = read_verdict x start.old in
        (result ≡ reading_by (read_of v x))
        × ((transition.new ≡ left v (laid_transitions x transition.old) transition.old)
        × ((observation.new ≡ left v (laid_observations x observation.old) observation.old)
        × ((reward.new ≡ left v (laid_rewards x reward.old) reward.old)
        × (start.new ≡ left v (laid_start x start.old) start.old)))) }
{
    let read = reading::read(file, transition, observation, reward, start);
    match read {
        Ok(c) => Reading {
            number: 0,
            place: 0,
            states: c.states,
            actions: c.actions,
            observations: c.observations,
            discount: c.discount,
        },
        Err(e) => {
            let refusal = answers::refusal_of(Err(e));
            Reading {
                number: refusal.number,
                place: refusal.place,
                states: 0,
                actions: 0,
                observations: 0,
                discount: 0,
            }
        }
    }
}

// Writes a file whose rewards depend on what follows as a model file, with expected rewards.
#[unsafe(no_mangle)]
pub extern "C" fn biidhaqun_convert(file: &[u8], out: &mut [u8]) -> Conversion
    ensures value { result ≡ conversion_by (convert_answer (convert_verdict (length out.old) file.now)
        (length (converted file.now))) }
    ensures out_after { out.new ≡ converted_over file.now out.old }
    ensures convert_holds { convert_verdict (length out.old) file.now ≡ Fine → ConvertHolds file.now }
{
    let made = converting::convert(file, out);
    match made {
        Ok(length) => Conversion {
            number: 0,
            place: 0,
            length: length,
        },
        Err(e) => {
            let refusal = answers::refusal_of(Err(e));
            Conversion {
                number: refusal.number,
                place: refusal.place,
                length: 0,
            }
        }
    }
}

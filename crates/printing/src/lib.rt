// What the program `ladder` prints of a model file: its levels, or its refusal.
#![tactic(auto)]

use climbing::ROWS;
use std::io;
use tables::Tables;

const TRANSITIONS: usize = ROWS * Tables::STATES;

const OBSERVATIONS: usize = ROWS * Tables::OBSERVATIONS;

// What is printed of a file.
pub fn answer(rt: &impl Print, file: &[u8]) -> io::Result<()> {
    let mut transition = [0u16; TRANSITIONS];
    let mut observation = [0u16; OBSERVATIONS];
    let mut reward = [0i64; ROWS];
    let mut start = [0u16; Tables::STATES];
    let read = modelfile::read(
        file,
        TRANSITIONS,
        OBSERVATIONS,
        ROWS,
        &mut transition,
        &mut observation,
        &mut reward,
        &mut start,
    );
    match read {
        Ok(c) => ascent::levels_of(rt, &transition, &observation, &reward, c, start),
        Err(r) => streams::print_refusal(rt, r),
    }
}

// What bounds the call that makes a level of a solver's files. The call itself is in `adopting`.
#![tactic(auto)]

// The most bytes of a file.
pub const FILE: usize = 4_194_304;

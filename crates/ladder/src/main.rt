// ladder: reads a model file from standard input, makes its start numbers into one point, builds and offers levels 1 to 3, and prints for each:
// level, lower, upper, gap at that point, action. A refused file prints its number and place. Input that cannot be read prints no line.
#![tactic(auto)]

use modelfile::ModelFile;
use std::rt::HostRuntime;

fn main(rt: HostRuntime) {
    let mut file = [0u8; ModelFile::BYTES + 1];
    let mut input = rt.stdin();
    let n = streams::read_full(&mut input, &mut file);
    if n <= ModelFile::BYTES {
        if !streams::at_end(&mut input) {
            streams::tell_unread(&rt);
            return;
        }
    }
    if printing::answer(&rt, &file[..n]).is_err() {
        streams::tell_unwritten(&rt);
    }
}

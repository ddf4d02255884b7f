// What the program `ladder` reads and writes, line by line, and where its input ends.
#![tactic(auto)]

ghost use Rattle.std.specs.Prelude.{◌≤◌, length};

use refusals::Refusal;
use runs::Bounds;
use std::io::{self, Read};

// Fills the slice from the input, until nothing more comes or a read fails: how many bytes.
pub fn read_full<R: Read>(from: &mut R, to: &mut [u8]) -> usize
    ensures { result ≤ length to.old }
{
    let mut n: usize = 0;
    while n < to.len() {
        match from.read(&mut to[n..]) {
            Ok(got) => {
                if got == 0 {
                    return n;
                }
                n += got;
            }
            Err(_) => {
                return n;
            }
        }
    }
    n
}

// Whether nothing is left to read: a read that fails is not the end of a file.
pub fn at_end<R: Read>(from: &mut R) -> bool {
    let mut more = [0u8; 1];
    match from.read(&mut more) {
        Ok(got) => got == 0,
        Err(_) => false,
    }
}

pub fn tell_unread(rt: &impl Eprint) {
    let _told = eprintln!(rt; "ladder: standard input cannot be read");
}

pub fn tell_unwritten(rt: &impl Eprint) {
    let _told = eprintln!(rt; "ladder: standard output cannot be written");
}

// The line of a level's totals.
pub fn print_totals(rt: &impl Print, number: usize, r: Bounds) -> io::Result<()> {
    let action = r.action;
    println!(rt; "{} {} {} {} {}", number, r.lower, r.upper, r.gap, action.0)
}

pub fn print_refusal(rt: &impl Print, r: Refusal) -> io::Result<()> {
    println!(rt; "{}", r)
}

// The words of a text file: byte classes, and the next word from an offset.
#![tactic(auto)]

ghost use Rattle.std.specs.Prelude.{◌≡◌, ◌≤◌, length};
ghost use Rattle.words.specs.Class.{class_of};
ghost use Rattle.words.specs.Words.{role_of, words_in, between, comment};
ghost use Rattle.words.specs.Steps.{is_end, Run, Next};

#[derive(Clone, Copy)]
pub enum Class {
    Space,
    Colon,
    Hash,
    Digit,
    Point,
    Minus,
    Star,
    Rest,
}

pub fn class_of(b: u8) -> Class
    ensures { result ≡ class_of b }
{
    match b {
        b'\0'..=b' ' => match b {
            b' ' | b'\t' | b'\r' | b'\n' => Class::Space,
            _ => Class::Rest,
        },
        b':' => Class::Colon,
        b'#' => Class::Hash,
        b'0'..=b'9' => Class::Digit,
        b'.' => Class::Point,
        b'-' => Class::Minus,
        b'*' => Class::Star,
        _ => Class::Rest,
    }
}

// Whether a byte belongs to no word that began before it. Of the bytes above the hash, of which most words are made, that is the colon alone.
fn is_end(b: u8) -> bool
    ensures { result ≡ is_end (role_of (class_of b)) }
{
    if b'#' < b {
        return b == b':';
    }
    let k = class_of(b);
    match k {
        Class::Space | Class::Colon | Class::Hash => true,
        _ => false,
    }
}

// Where a word starts and stops.
#[derive(Clone, Copy)]
pub struct Word {
    pub start: usize,
    pub stop: usize,
}

// The end of a comment: the next LF, or the end of the file.
fn line_end(s: &[u8], from: usize) -> usize
    requires { from ≤ length s.now }
    ensures { (from ≤ result) × ((result ≤ length s.now) × (words_in comment s.now from ≡ words_in between s.now result)) }
{
    for at in from..s.len() {
        if s[at] == b'\n' {
            return at;
        }
    }
    s.len()
}

// The end of a word that began before `from`.
fn word_end(s: &[u8], from: usize) -> usize
    requires { from ≤ length s.now }
    ensures { Run s.now from result }
{
    for at in from..s.len() {
        if is_end(s[at]) {
            return at;
        }
    }
    s.len()
}

// The next word from an offset; none from past the end.
pub fn word_at(s: &[u8], from: usize) -> Option<Word>
    ensures { Next s.now from result }
{
    let mut at = from;
    while at < s.len() {
        let b = s[at];
        if !is_end(b) {
            return Some(Word {
                start: at,
                stop: word_end(s, at + 1),
            });
        }
        let k = class_of(b);
        match k {
            Class::Hash => {
                at = line_end(s, at + 1);
            }
            Class::Colon => {
                return Some(Word {
                    start: at,
                    stop: at + 1,
                });
            }
            _ => {
                at += 1;
            }
        }
    }
    None
}

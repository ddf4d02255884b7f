// Numbers as a word writes them: their forms, their digits and their sign.
#![tactic(auto)]

ghost use Rattle.std.specs.Prelude.{◌≡◌, ◌+◌, ◌^◌, ◌≤◌, ◌<◌, length};
ghost use Rattle.numerals.specs.Numeral.{negative, signed};
ghost use Rattle.numerals.specs.Steps.{most_read, WrittenDigits};

use words::Class;

// How a number is written: up to `digits` digits, then optionally a point and up to `places` digits. It counts in units of which
// 10 to the power of `places` make 1. In a loose form one of the two parts may be missing, and an exponent may follow.
#[derive(Clone, Copy)]
pub struct Form {
    pub digits: usize,
    pub places: usize,
    pub loose: bool,
}

impl Form {
    pub const POWER: u64 = 3; // the most that an exponent says

    pub const COUNT: Form = Form {
        digits: 2,
        places: 0,
        loose: false,
    };

    pub const PROBABILITY: Form = Form {
        digits: 1,
        places: 3,
        loose: true,
    };

    pub const START: Form = Form {
        digits: 1,
        places: 2,
        loose: true,
    };

    pub const REWARD: Form = Form {
        digits: 4,
        places: 2,
        loose: true,
    };

    // of a solver's vectors
    pub const DECIMAL: Form = Form {
        digits: 6,
        places: 12,
        loose: false,
    };

    // of a plan graph's nodes
    pub const NODE: Form = Form {
        digits: 3,
        places: 0,
        loose: false,
    };
}

// Where digits end, and the number that they write.
#[derive(Clone, Copy)]
pub struct Digits {
    pub end: usize,
    pub value: u64,
}

// The end of a word, or of `most` bytes from an offset on.
fn bounded(length: usize, from: usize, most: usize) -> usize
    requires { from ≤ length }
    ensures { (from ≤ result) × ((result ≤ length) × ((result ≤ from + most) × (result < length → result ≡ from + most))) }
{
    if length - from < most {
        return length;
    }
    from + most
}

// The digits from an offset on, `most` of them at most. Bytes below them are told first, so that the class takes one test more.
pub fn digits_from(w: &[u8], from: usize, most: usize) -> Digits
    requires { (from ≤ length w.now) × (most ≤ most_read) }
    ensures { WrittenDigits w.now from most result.end result.value }
{
    let stop = bounded(w.len(), from, most);
    let mut v: u64 = 0;
    for at in from..stop {
        let b = w[at];
        if b < b'0' {
            return Digits { end: at, value: v };
        }
        let k = words::class_of(b);
        let Class::Digit = k else {
            return Digits { end: at, value: v };
        };
        v = v * 10 + ((b - b'0') as u64);
    }
    Digits {
        end: stop,
        value: v,
    }
}

// 10 to the power of `places`.
pub fn scale(places: usize) -> u64
    requires { places ≤ most_read }
    ensures { result ≡ 10 ^ places }
{
    match places {
        0 => 1,
        1 => 10,
        2 => 100,
        3 => 1_000,
        4 => 10_000,
        5 => 100_000,
        6 => 1_000_000,
        7 => 10_000_000,
        8 => 100_000_000,
        9 => 1_000_000_000,
        10 => 10_000_000_000,
        11 => 100_000_000_000,
        _ => 1_000_000_000_000,
    }
}

// Whether a word begins with a minus.
pub fn is_negative(w: &[u8]) -> bool
    ensures { result ≡ negative w.now }
{
    if w.len() == 0 {
        return false;
    }
    let k = words::class_of(w[0]);
    match k {
        Class::Minus => true,
        _ => false,
    }
}

// A number with its sign.
pub fn with_sign(minus: bool, v: u64) -> i64
    requires { v < 2 ^ 63 }
    ensures { result ≡ signed minus v }
{
    if minus {
        return 0 - (v as i64);
    }
    v as i64
}

// A number's exponent: after its `e`, an optional minus and a power of ten.
#![tactic(auto)]

ghost use Rattle.std.specs.Prelude.{◌≡◌, true, ◌≤◌, ◌<◌, length, drop};
ghost use Rattle.numerals.specs.Numeral.{most_power, scaled, powered, exponent};
ghost use Rattle.numerals.specs.Steps.{most_units};

use numerals::Form;

// 10 to a power times a number, or the number over it, if that is whole.
fn scaled_by(minus: bool, power: usize, v: u64) -> Option<u64>
    requires { (power ≤ most_power) × (v ≤ most_units true) }
    ensures { result ≡ scaled minus power v }
{
    let u = numerals::scale(power);
    if minus {
        if v % u != 0 {
            return None;
        }
        return Some(v / u);
    }
    Some(v * u)
}

// After an `e`: an optional minus and one digit.
fn powered_by(w: &[u8], v: u64) -> Option<u64>
    requires { v ≤ most_units true }
    ensures { result ≡ powered v w.now }
{
    let minus = numerals::is_negative(w);
    let from = minus as usize;
    let d = numerals::digits_from(w, from, 1);
    if d.end == from {
        return None;
    }
    if d.end < w.len() {
        return None;
    }
    if Form::POWER < d.value {
        return None;
    }
    scaled_by(minus, d.value as usize, v)
}

// An exponent, from its `e` on.
fn marked_of(w: &[u8], from: usize, loose: bool, v: u64) -> Option<u64>
    requires { (from < length w.now) × (v ≤ most_units loose) }
    ensures { result ≡ exponent loose v (drop from w.now) }
{
    if w[from] != b'e' {
        return None;
    }
    if !loose {
        return None;
    }
    powered_by(&w[from + 1..], v)
}

// What follows the digits: mostly nothing.
pub fn exponent_of(w: &[u8], from: usize, loose: bool, v: u64) -> Option<u64>
    requires { (from ≤ length w.now) × (v ≤ most_units loose) }
    ensures { result ≡ exponent loose v (drop from w.now) }
{
    if from == w.len() {
        return Some(v);
    }
    marked_of(w, from, loose, v)
}

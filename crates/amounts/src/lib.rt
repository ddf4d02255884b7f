// A word as a number of a form: a whole part, a point and decimals, an exponent.
#![tactic(auto)]

ghost use Rattle.std.specs.Prelude.{◌≡◌, ◌≤◌, length, drop};
ghost use Rattle.numerals.specs.Numeral.{pointed, enough, after_point, fraction, amount_of};
ghost use Rattle.numerals.specs.Steps.{most_whole, Short};

use numerals::Form;
use words::Class;

// Whether n digits before a point and k after it make a number.
fn is_enough(loose: bool, n: usize, k: usize) -> bool
    ensures { result ≡ enough loose n k }
{
    if n == 0 {
        return loose & (0 < k);
    }
    if k == 0 {
        return loose;
    }
    true
}

// What follows a point.
fn decimal_of(w: &[u8], from: usize, form: Form, n: usize, whole: u64) -> Option<u64>
    requires { (from ≤ length w.now) × ((Short form) × (whole ≤ most_whole form.loose)) }
    ensures { result ≡ after_point form n whole (drop from w.now) }
{
    let d = numerals::digits_from(w, from, form.places);
    let k = d.end - from;
    if !is_enough(form.loose, n, k) {
        return None;
    }
    exponents::exponent_of(
        w,
        d.end,
        form.loose,
        whole + d.value * numerals::scale(form.places - k),
    )
}

// Whether a point stands at an offset.
fn is_pointed(w: &[u8], from: usize) -> bool
    requires { from ≤ length w.now }
    ensures { result ≡ pointed (drop from w.now) }
{
    if from == w.len() {
        return false;
    }
    let k = words::class_of(w[from]);
    match k {
        Class::Point => true,
        _ => false,
    }
}

// What follows a whole part of n digits.
fn fraction_of(w: &[u8], from: usize, form: Form, n: usize, whole: u64) -> Option<u64>
    requires { (from ≤ length w.now) × ((Short form) × (whole ≤ most_whole form.loose)) }
    ensures { result ≡ fraction form n whole (drop from w.now) }
{
    if is_pointed(w, from) {
        return decimal_of(w, from + 1, form, n, whole);
    }
    if n == 0 {
        return None;
    }
    exponents::exponent_of(w, from, form.loose, whole)
}

// The number of a word from an offset on.
pub fn amount_of(w: &[u8], from: usize, form: Form) -> Option<u64>
    requires { (from ≤ length w.now) × (Short form) }
    ensures { result ≡ amount_of form (drop from w.now) }
{
    let d = numerals::digits_from(w, from, form.digits);
    fraction_of(
        w,
        d.end,
        form,
        d.end - from,
        d.value * numerals::scale(form.places),
    )
}

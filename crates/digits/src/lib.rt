// Numbers and lines, written as bytes over those of a slice: each function answers the place behind what it wrote.
#![tactic(auto)]

ghost use Rattle.std.specs.Prelude.{◌≡◌, ◌+◌, ◌^◌, ◌%◌};
ghost use Rattle.digits.specs.Digits.{digits_for, last_digits, whole, fixed, signed_fixed, spaced, line, opening};
ghost use Rattle.digits.specs.Steps.{HasRoom, Wrote};

// A word.
pub fn put(out: &mut [u8], at: usize, word: &[u8]) -> usize
    requires { HasRoom at word.now out.old }
    ensures { Wrote at word.now out.old result out.new }
{
    let w = word.len();
    cells::paste(out, at, word, w);
    at + w
}

// The last decimal digit of v.
fn digit(v: u64) -> u8
    ensures { result ≡ 48 + v % 10 }
{
    b'0' + (v % 10) as u8
}

// So many decimal digits of v, the last ones.
fn put_last_digits(out: &mut [u8], at: usize, count: usize, v: u64) -> usize
    requires { HasRoom at (last_digits count v) out.old }
    ensures { Wrote at (last_digits count v) out.old result out.new }
{
    let mut rest = v;
    for left in (0..count).rev() {
        out[at + left] = digit(rest);
        rest /= 10;
    }
    at + count
}

// How many digits a number below 10,000 has.
fn digits_for(v: u64) -> usize
    ensures { result ≡ digits_for v }
{
    if v < 10 {
        return 1;
    }
    if v < 100 {
        return 2;
    }
    if v < 1_000 {
        return 3;
    }
    4
}

// A number below 10,000.
fn put_whole(out: &mut [u8], at: usize, v: u64) -> usize
    requires { HasRoom at (whole v) out.old }
    ensures { Wrote at (whole v) out.old result out.new }
{
    put_last_digits(out, at, digits_for(v), v)
}

// v units of which `unit` make 1.
pub fn put_fixed(out: &mut [u8], at: usize, places: usize, unit: u64, v: u64) -> usize
    requires { (unit ≡ 10 ^ places) × HasRoom at (fixed places v) out.old }
    ensures { Wrote at (fixed places v) out.old result out.new }
{
    let x = put_whole(out, at, v / unit);
    let y = put(out, x, b".");
    put_last_digits(out, y, places, v % unit)
}

// The same with a minus for a number below 0.
pub fn put_signed_fixed(out: &mut [u8], at: usize, places: usize, unit: u64, v: i64) -> usize
    requires { (unit ≡ 10 ^ places) × HasRoom at (signed_fixed places v) out.old }
    ensures { Wrote at (signed_fixed places v) out.old result out.new }
{
    let size = integers::magnitude(v);
    if v < 0 {
        let x = put(out, at, b"-");
        return put_fixed(out, x, places, unit, size);
    }
    put_fixed(out, at, places, unit, size)
}

// ---- lines

// "K: a : s"
pub fn put_opening(out: &mut [u8], at: usize, key: u8, a: usize, s: usize) -> usize
    requires { HasRoom at (opening key a s) out.old }
    ensures { Wrote at (opening key a s) out.old result out.new }
{
    let head = [key, b':', b' '];
    let x = put(out, at, &head);
    let y = put_whole(out, x, a as u64);
    let z = put(out, y, b" : ");
    put_whole(out, z, s as u64)
}

// " v"
pub fn put_number(out: &mut [u8], at: usize, places: usize, unit: u64, v: u64) -> usize
    requires { (unit ≡ 10 ^ places) × HasRoom at (spaced (fixed places v)) out.old }
    ensures { Wrote at (spaced (fixed places v)) out.old result out.new }
{
    let x = put(out, at, b" ");
    put_fixed(out, x, places, unit, v)
}

// "name: v" and a new line
pub fn put_whole_line(out: &mut [u8], at: usize, name: &[u8], v: usize) -> usize
    requires { HasRoom at (line name.now (whole v)) out.old }
    ensures { Wrote at (line name.now (whole v)) out.old result out.new }
{
    let x = put(out, at, name);
    let y = put(out, x, b": ");
    let z = put_whole(out, y, v as u64);
    put(out, z, b"\n")
}

pub fn put_fixed_line(
    out: &mut [u8],
    at: usize,
    name: &[u8],
    places: usize,
    unit: u64,
    v: u64,
) -> usize
    requires { (unit ≡ 10 ^ places) × HasRoom at (line name.now (fixed places v)) out.old }
    ensures { Wrote at (line name.now (fixed places v)) out.old result out.new }
{
    let x = put(out, at, name);
    let y = put(out, x, b": ");
    let z = put_fixed(out, y, places, unit, v);
    put(out, z, b"\n")
}

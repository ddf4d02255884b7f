// Arithmetic of 64-bit whole numbers whose results are exact: each caller shows that they fit.
#![tactic(auto)]

ghost use Rattle.std.specs.Prelude.{◌≡◌, ◌+◌, ◌*◌, ◌<◌, ◌^◌, leb, nat_abs, ◌+ℤ◌, ◌-ℤ◌};
ghost use Rattle.integers.specs.Whole.{◌·◌, lesser, floor_div, ceil_div};

// sum + k × a
pub fn add_scaled(sum: i64, k: u64, a: i64) -> i64
    requires k_bound { k < 2 ^ 63 }
    requires a_bound { nat_abs sum + k * nat_abs a < 2 ^ 63 }
    ensures { result ≡ sum +ℤ k · a }
{
    sum + k as i64 * a
}

// k × a
pub fn scaled(k: u64, a: i64) -> i64
    requires k_bound { k < 2 ^ 63 }
    requires a_bound { k * nat_abs a < 2 ^ 63 }
    ensures { result ≡ k · a }
{
    k as i64 * a
}

// a + b
pub fn plus(a: i64, b: i64) -> i64
    requires { nat_abs a + nat_abs b < 2 ^ 63 }
    ensures { result ≡ a +ℤ b }
{
    a + b
}

// a - b
pub fn minus(a: i64, b: i64) -> i64
    requires { nat_abs a + nat_abs b < 2 ^ 63 }
    ensures { result ≡ a -ℤ b }
{
    a - b
}

// The smaller of a and b.
pub fn lesser(a: i64, b: i64) -> i64
    ensures { result ≡ lesser a b }
{
    a.min(b)
}

// x over k, rounded towards minus infinity.
#[tactic(auto, using(crate::proofs::Quotients::euclid))]
pub fn floor_div(x: i64, k: u64) -> i64
    requires { (0 < k) × (k < 2 ^ 63) }
    ensures { result ≡ floor_div x k }
{
    x.div_euclid(k as i64)
}

// x over k, rounded towards plus infinity: the machine's quotient drops towards 0, so one more where a remainder is positive.
pub fn ceil_div(x: i64, k: u64) -> i64
    requires { (0 < k) × (k < 2 ^ 63) }
    ensures { result ≡ ceil_div x k }
{
    let d = k as i64;
    let q = x / d;
    if 0 < x % d {
        return q + 1;
    }
    q
}

// Whether x lies between - limit and limit.
pub fn within(limit: u64, x: i64) -> bool
    requires { limit < 2 ^ 63 }
    ensures { result ≡ leb (nat_abs x) limit }
{
    x.unsigned_abs() <= limit
}

// The size of x, without its sign.
pub fn magnitude(x: i64) -> u64
    ensures { result ≡ nat_abs x }
{
    x.unsigned_abs()
}

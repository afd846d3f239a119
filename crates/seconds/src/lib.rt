// Rust's `Duration::as_secs_f64` and `Duration::from_secs_f64`, of a duration in whole ns.
#![tactic(auto)]

ghost use Rattle.std.specs.Prelude.{◌≡◌, ◌+◌, ◌*◌, ◌%◌, ◌^◌, ◌≤◌, ◌<◌};
ghost use Rattle.std.specs.Float.Ieee.Nearest.{closest};
ghost use Rattle.seconds.specs.Seconds.{as_secs_f64, from_secs_f64};

// Whole ns as seconds: whole seconds, plus the ns that are left over 10^9, each operation rounded.
pub fn as_secs_f64(ns: u64) -> f64
    ensures { result ≡ as_secs_f64 ns }
{
    // by hand: tried, std's took 3.6 ns a call in place of 2.7, and a ratio to the Rust in the benchmark would get worse
    (ns / 1_000_000_000) as f64 + (ns % 1_000_000_000) as f64 / 1e9
}

// The whole number nearest to (a * 2^13 + b) / (d * 2^13), a tie to the even one: the quotient of two limbs, for an even d.
fn closest_split(a: u64, b: u64, d: u64) -> u64
    requires { (a < 2 ^ 63) × (b < 8192) × (0 < d) × (d ≤ 2 ^ 62) × (d % 2 ≡ 0) }
    ensures { result ≡ closest (a * 8192 + b) (d * 8192) }
{
    let q = a / d;
    let r = a % d;
    if 2 * r < d {
        return q;
    }
    if d < 2 * r {
        return q + 1;
    }
    if b == 0 { q + q % 2 } else { q + 1 }
}

// The whole number nearest to m * 10^9 / 2^k, a tie to the even one. Of large values the whole seconds are taken apart first,
// of others m * 5^9 in two limbs is divided by 2^(k - 9).
fn closest_ns(m: u64, k: u64) -> u64
    requires { (m < 2 ^ 53) × (18 ≤ k) × (k ≤ 84) × (closest (m * 10 ^ 9) (2 ^ k) < 2 ^ 64) }
    ensures { result ≡ closest (m * 10 ^ 9) (2 ^ k) }
{
    if k < 23 {
        let d = 1u64 << k;
        return (m / d) * 1_000_000_000 + closest_split((m % d) * 1_000_000_000, 0, d);
    }
    let low = (m % 8192) * 1_953_125;
    closest_split(
        (m / 8192) * 1_953_125 + low / 8192,
        low % 8192,
        1u64 << (k - 22),
    )
}

// Seconds as whole ns: the nearest, a tie to the even one. A NaN and what is below 0 is 0, and what a u64 does not hold is 2^64 - 1.
pub fn from_secs_f64(x: f64) -> u64
    ensures { result ≡ from_secs_f64 x }
{
    // the least f64 that is 2^64 ns or more
    if x >= 18446744073.709553 {
        return u64::MAX;
    }
    // 2^-32 s, which is below half a ns
    if x >= 2.3283064365386963e-10 {
        // by hand: tried, std's `Duration` took 21.6 ns a call in place of 11.9
        let bits = x.to_bits();
        return closest_ns(bits % (1 << 52) + (1 << 52), 1075 - (bits >> 52));
    }
    0
}

// IEEE 754's square root of an `f64`, for every input, and the test whether a float is the root of another.
#![tactic(auto)]

ghost use Rattle.std.specs.Prelude.{◌≡◌, ◌+◌, ◌*◌, ◌/◌, ◌^◌, ◌<◌, ◌≤◌, ◌==◌};
ghost use Rattle.std.specs.Float.Ieee as Ieee;
ghost use Rattle.std.specs.Float.{binary64};
ghost use Rattle.sqrt.specs.Sqrt.{sqrt, root_units, whole_root};

use std::marker::Model;

// A root, by its bit pattern: base plus half of the whole root of big * 2^54, rounded up.
#[derive(Drop)]
struct Root {
    big: u64,
    base: u64,
}

impl Model for Root {
    ghost use Rattle.std.specs.Prelude.{ℕ};
    ghost use Rattle.sqrt.specs.RootBits.{root_bits, Sized};

    ghost Value = { ℕ };

    ghost view = { λ r. root_bits r.big r.base };

    ghost invariant = { λ r. Sized r.big r.base };
}

// The root of m * 2^e units of 2^-1074: m is brought to 53 digits, and the power to an even one.
#[tactic(auto, using(crate::specs::Units::normal, crate::specs::Units::answer))]
fn root_of(m: u64, e: u64) -> Root
    requires { (0 < m) × (m < 2 ^ 53) × (e < 2046) }
    ensures { root_units (m * 2 ^ e) ≡ Ieee.of_bits binary64 result }
{
    let z = m.leading_zeros() as u64 - 11;
    let p = e + 54 - z;
    Root {
        big: (m << z) << (p % 2),
        base: (p / 2 + 484) * 4503599627370496,
    }
}

// The root of the float whose pattern is b: finite and above 0.
fn root_at(b: u64) -> Root
    requires { (0 < b) × (b < 2047 * 2 ^ 52) }
    ensures { sqrt (Ieee.of_bits binary64 b) ≡ Ieee.of_bits binary64 result }
{
    let k = b / 4503599627370496;
    let t = b % 4503599627370496;
    if k == 0 {
        root_of(t, 0)
    } else {
        root_of(t + 4503599627370496, k - 1)
    }
}

// The whole root of m * 2^54, digit by digit: each turn takes two binary digits of m * 2^10, and zeros after its 64.
fn root54(m: u64) -> u64
    requires { m < 2 ^ 54 }
    ensures { result ≡ whole_root (m * 2 ^ 54) }
{
    let mut a = m * 1024;
    let mut q: u64 = 0;
    let mut left: u64 = 0;
    for _ in 0..54u64 {
        let next = left * 4 + a / 4611686018427387904;
        a = (a % 4611686018427387904) * 4;
        if 4 * q < next {
            left = next - (4 * q + 1);
            q = 2 * q + 1;
        } else {
            left = next;
            q = 2 * q;
        }
    }
    q
}

// s * s without its low 54 binary digits.
fn square_high(s: u64) -> u64
    requires { s < 2 ^ 54 }
    ensures { result ≡ s * s / 2 ^ 54 }
{
    ((s as u128 * s as u128) >> 54) as u64
}

impl Root {
    // Is b its pattern? Its significand is q exactly if big * 2^54 lies between the squares of 2q - 1 and 2q + 1, which are odd and so never equal to it.
    fn has_bits(&self, b: u64) -> bool
        ensures told { result ≡ (b == self.now) }
        ensures range { (2 ^ 52 ≤ self.now) × (self.now < 2047 * 2 ^ 52) }
    {
        if b < self.base + 4503599627370496 {
            return false;
        }
        let q = b - self.base;
        if 9007199254740992 <= q {
            return false;
        }
        (square_high(2 * q - 1) < self.big) & (self.big <= square_high(2 * q + 1))
    }

    // The root: the guess c, if the test finds it to be the pattern, and else digit by digit.
    fn value(&self, c: u64) -> f64
        ensures { result ≡ Ieee.of_bits binary64 self.now }
    {
        if self.has_bits(c) {
            return f64::from_bits(c);
        }
        f64::from_bits(self.base + (root54(self.big) + 1) / 2)
    }
}

// IEEE 754's square root. The guess is std's root, which has another definition of the same: the exact test shows that it is ours, and where it
// did not the digits would answer.
pub fn sqrt(x: f64) -> f64
    ensures { result ≡ sqrt x }
{
    if x.is_nan() {
        return x;
    }
    if x == 0.0 {
        return x;
    }
    if x < 0.0 {
        return f64::NAN;
    }
    let b = x.to_bits();
    if b == 0x7ff0_0000_0000_0000 {
        return x;
    }
    root_at(b).value(x.sqrt().to_bits())
}

// Rust's `d == v.sqrt()`, by exact products: no loop, and no root taken.
pub fn is_sqrt(d: f64, v: f64) -> bool
    ensures { result ≡ Ieee.eq d (sqrt v) }
{
    if d.is_nan() {
        return false;
    }
    if v.is_nan() {
        return false;
    }
    if v == 0.0 {
        return d == 0.0;
    }
    if v < 0.0 {
        return false;
    }
    let b = v.to_bits();
    if b == 0x7ff0_0000_0000_0000 {
        return d == v;
    }
    root_at(b).has_bits(d.to_bits())
}

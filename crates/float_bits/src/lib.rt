// Rust's `f64::from_bits` and `f64::to_bits`, for every input. There is one NaN here, with one pattern.
#![tactic(auto)]

ghost use Rattle.std.specs.Prelude.{◌≡◌};
ghost use Rattle.std.specs.Float.{binary64};
ghost use Rattle.std.specs.Float.Ieee.{of_bits, to_bits};

// The float whose bits are n. Every pattern of a NaN gives the one NaN.
pub fn from_bits(n: u64) -> f64
    ensures { result ≡ of_bits binary64 n }
{
    std::num::f64_from_bits_with_nan(n)
}

// No twin of `from_bits`, but the other direction by another function of std: the bits of x. A NaN gives 0x7ff8_0000_0000_0000.
pub fn to_bits(x: f64) -> u64
    ensures { result ≡ to_bits binary64 x }
{
    std::num::f64_to_bits_with_nan(x)
}

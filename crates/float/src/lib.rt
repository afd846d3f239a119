// Rust's `f64::min`, `max`, `clamp`, `abs` and `ceil`, and whether a float is in a range, for every input.
#![tactic(auto)]

ghost use Rattle.std.specs.Prelude.{◌≡◌};
ghost use Rattle.float.specs.Float.{min, max, clamp, within, abs, ceil};

// The smaller of the two; where one is a NaN the other; where they are equal the first.
#[tactic(auto, unfolding(crate::specs::Float::min))]
pub fn min(a: f64, b: f64) -> f64
    ensures { result ≡ min a b }
{
    // by hand: std's `min` may give either of 0 and -0
    if a.is_nan() || b < a { b } else { a }
}

// The larger of the two; where one is a NaN the other; where they are equal the first.
#[tactic(auto, unfolding(crate::specs::Float::max))]
pub fn max(x: f64, y: f64) -> f64
    ensures { result ≡ max x y }
{
    // by hand: std's `max` may give either of 0 and -0
    if x.is_nan() || x < y { y } else { x }
}

// x brought into lo ..= hi, and hi where lo is above it. A NaN stays.
#[tactic(auto, unfolding(crate::specs::Float::clamp))]
pub fn clamp(x: f64, lo: f64, hi: f64) -> f64
    ensures { result ≡ clamp x lo hi }
{
    // by hand: std's `clamp` requires lo <= hi
    let raised = if x < lo { lo } else { x };
    if hi < raised { hi } else { raised }
}

// Whether x is from lo to hi; a NaN is not.
pub fn within(lo: f64, hi: f64, x: f64) -> bool
    ensures { result ≡ within lo hi x }
{
    (lo <= x) & (x <= hi)
}

// x without its sign.
#[tactic(auto, using(crate::proofs::Library::abs_is))]
pub fn abs(x: f64) -> f64
    ensures { result ≡ abs x }
{
    x.abs()
}

// The least whole number at or above x, as a float. A zero keeps its sign.
#[tactic(auto, using(crate::proofs::Library::ceil_is, crate::proofs::Library::zero_stays))]
pub fn ceil(x: f64) -> f64
    ensures { result ≡ ceil x }
{
    // zeros at once: std's `ceil` takes several steps
    if x == 0.0 { x } else { x.ceil() }
}

// The numbers that stand for enums and floats in a case.
use bandwidth::Bitrate;
use time::TimeDelta;

pub fn rate(b: u64) -> Bitrate {
    Bitrate(float_bits::from_bits(b))
}

pub fn rate_bits(b: Bitrate) -> u64 {
    float_bits::to_bits(b.as_f64())
}

// The bits of a float that may be missing, and 0 without it.
pub fn option_bits(x: Option<f64>) -> u64 {
    x.map_or(0, float_bits::to_bits)
}

// link_words has these two, private, for its own words: two formats that agree by chance, and either may change alone.
pub fn delta(tag: u64, n: u64) -> TimeDelta {
    match tag {
        0 => TimeDelta::NegativeInfinity,
        1 => TimeDelta::Negative(n),
        2 => TimeDelta::Positive(n),
        _ => TimeDelta::PositiveInfinity,
    }
}

// A length's tag, and its ns.
pub fn delta_parts(d: TimeDelta) -> (u64, u64) {
    match d {
        TimeDelta::NegativeInfinity => (0, 0),
        TimeDelta::Negative(n) => (1, n),
        TimeDelta::Positive(n) => (2, n),
        TimeDelta::PositiveInfinity => (3, 0),
    }
}

// crates/proto/src/bandwidth.rs: rates and sizes, two kinds of quantity, with the operations that a link uses.
#![tactic(auto)]

ghost use Rattle.std.specs.Prelude.{◌≡◌};
ghost use Rattle.bandwidth.specs.Bandwidth as B;

use std::ops::{Add, Div, Mul};

// A data rate in bits per second.
#[derive(Clone, Copy, PartialEq, PartialOrd)]
pub struct Bitrate(pub f64);

// A data size in bytes.
#[derive(Clone, Copy, PartialEq, Eq, PartialOrd, Ord)]
pub struct DataSize(pub i64);

// How the path is used, as far as the delay tells (src/bwe/mod.rs).
#[derive(Clone, Copy)]
pub enum BandwidthUsage {
    Overuse,
    Normal,
    Underuse,
}

impl Bitrate {
    pub const ZERO: Bitrate = Bitrate(0.0);

    // The least and the greatest estimate: 40 kbps and 10 Gbps.
    pub const MIN_ESTIMATE: Bitrate = Bitrate(40_000.0);

    pub const MAX_ESTIMATE: Bitrate = Bitrate(10_000_000_000.0);

    // The greatest rate of a probe, and the greatest acknowledged rate.
    pub const MOST: Bitrate = Bitrate(1e14);

    pub fn bps(bps: u64) -> Self
        ensures { result ≡ B.bps bps }
    {
        Bitrate(std::num::nearest_u64_to_f64(bps))
    }

    pub fn as_f64(self) -> f64
        ensures { result ≡ self.0 }
    {
        self.0
    }

    // A method of its own: std's `clamp` is that of `Ord`, which no float has.
    #[tactic(auto, unfolding(crate::specs::Bandwidth::clamp))]
    pub fn clamp(self, min: Bitrate, max: Bitrate) -> Self
        ensures { result ≡ B.clamp self min max }
    {
        Bitrate(float::clamp(self.0, min.0, max.0))
    }

    // Whether it is from min to max.
    pub fn within(self, min: Bitrate, max: Bitrate) -> bool
        ensures { result ≡ B.within self min max }
    {
        float::within(min.0, max.0, self.0)
    }
}

impl Mul<f64> for Bitrate {
    type Output = Bitrate;

    ghost mul_gives = { λ rate factor product. product ≡ B.mul rate factor };

    fn mul(self, factor: f64) -> Bitrate {
        Bitrate(self.0 * factor)
    }
}

impl DataSize {
    pub const ZERO: DataSize = DataSize(0);

    // The greatest byte sum of a window.
    pub const MOST: DataSize = DataSize(2_147_483_647);

    pub fn bytes(bytes: i64) -> Self
        ensures { result ≡ B.bytes bytes }
    {
        DataSize(bytes)
    }

    pub fn as_bytes_f64(self) -> f64
        ensures { result ≡ B.as_bytes_f64 self }
    {
        std::num::nearest_i64_to_f64(self.0)
    }

    // The rate that moves the size in so many seconds, and 0 where those are a zero.
    #[tactic(auto, unfolding(crate::specs::Bandwidth::per_secs))]
    pub fn per_secs(self, secs: f64) -> Bitrate
        ensures { result ≡ B.per_secs self secs }
    {
        let bytes = self.as_bytes_f64();
        if secs == 0.0 {
            return Bitrate::ZERO;
        }
        Bitrate((bytes * 8.0) / secs)
    }
}

// Past an end of i64, where the Rust overflows, the sum is that end.
impl Add for DataSize {
    type Output = DataSize;

    ghost add_gives = { λ a b sum. sum ≡ B.add_size a b };

    #[tactic(auto, unfolding(crate::specs::Bandwidth::saturated))]
    fn add(self, rhs: DataSize) -> DataSize {
        DataSize(self.0.saturating_add(rhs.0))
    }
}

// The rate that moves the size in a duration of so many ns.
impl Div<u64> for DataSize {
    type Output = Bitrate;

    ghost div_gives = { λ size duration rate. rate ≡ B.per_duration size duration };

    fn div(self, rhs: u64) -> Bitrate {
        self.per_secs(seconds::as_secs_f64(rhs))
    }
}

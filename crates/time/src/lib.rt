// src/bwe/time.rs: instants and lengths of time with their infinities. An instant and a duration are whole numbers of ns.
// A finite length above MAX, given or computed, is the infinity of its sign; such an instant is `DistantFuture`, one below 0 `DistantPast`.
#![tactic(auto)]

ghost use Rattle.std.specs.Prelude.{◌≡◌};
ghost use Rattle.std.specs.Ordering.{as_partial_cmp};
ghost use Rattle.time.specs.Time as Time;
ghost use Rattle.time.specs.Orders as Orders;

use bandwidth::{Bitrate, DataSize};
use std::cmp::Ordering;
use std::ops::{Add, Div, Neg, Sub};

// The longest finite length, and the last exact instant, in ns.
pub const MAX: u64 = 4_000_000_000_000_000_000;

#[derive(Clone, Copy)]
pub enum Timestamp {
    DistantPast,
    Exact(u64),
    DistantFuture,
}

#[derive(Clone, Copy)]
pub enum TimeDelta {
    NegativeInfinity,
    Negative(u64),
    Positive(u64),
    PositiveInfinity,
}

// The longer of a duration that may be missing and of another.
#[tactic(auto, unfolding(crate::specs::Time::longest))]
pub fn longest(duration: Option<u64>, other: u64) -> Option<u64>
    ensures { result ≡ Time.longest duration other }
{
    duration.max(Some(other))
}

// a - b, as a length.
#[tactic(auto, unfolding(crate::specs::Time::difference))]
fn difference(a: u64, b: u64) -> TimeDelta
    ensures { result ≡ Time.difference a b }
{
    if a < b {
        TimeDelta::Negative(b - a)
    } else {
        TimeDelta::Positive(a - b)
    }
}

// Rust's `From<Duration>`.
impl From<u64> for TimeDelta {
    ghost from_gives = { λ duration length. length ≡ Time.positive duration };

    #[tactic(auto, unfolding(crate::specs::Time::positive))]
    fn from(duration: u64) -> TimeDelta {
        if duration <= MAX {
            TimeDelta::Positive(duration)
        } else {
            TimeDelta::PositiveInfinity
        }
    }
}

impl TimeDelta {
    pub const ZERO: TimeDelta = TimeDelta::Positive(0);

    // The opposite of a duration.
    #[tactic(auto, unfolding(crate::specs::Time::negative))]
    fn minus(duration: u64) -> Self
        ensures { result ≡ Time.negative duration }
    {
        if duration <= MAX {
            TimeDelta::Negative(duration)
        } else {
            TimeDelta::NegativeInfinity
        }
    }

    // So many units of ns, of either sign.
    #[tactic(auto, unfolding(crate::specs::Time::units, crate::specs::Time::positive, crate::specs::Time::negative))]
    fn units(number: i64, ns: u64) -> Self
        ensures { result ≡ Time.units number ns }
    {
        let duration = number.unsigned_abs().saturating_mul(ns);
        if number >= 0 {
            TimeDelta::from(duration)
        } else {
            TimeDelta::minus(duration)
        }
    }

    pub fn from_secs(secs: i64) -> Self
        ensures { result ≡ Time.from_secs secs }
    {
        TimeDelta::units(secs, 1_000_000_000)
    }

    pub fn from_millis(millis: i64) -> Self
        ensures { result ≡ Time.from_millis millis }
    {
        TimeDelta::units(millis, 1_000_000)
    }

    // The limits above, put to a length that was given.
    #[tactic(auto, unfolding(crate::specs::Time::limited))]
    fn limited(self) -> Self
        ensures { result ≡ Time.limited self }
    {
        match self {
            TimeDelta::NegativeInfinity => TimeDelta::NegativeInfinity,
            TimeDelta::Negative(d) => TimeDelta::minus(d),
            TimeDelta::Positive(d) => TimeDelta::from(d),
            TimeDelta::PositiveInfinity => TimeDelta::PositiveInfinity,
        }
    }

    // The place of the length in the order of all lengths: negative zero is just below zero.
    #[tactic(auto, unfolding(crate::specs::Time::place, crate::specs::Time::place_limited, crate::specs::Time::limited, crate::specs::Time::positive, crate::specs::Time::negative))]
    fn place(self) -> u64
        ensures { result ≡ Time.place self }
    {
        match self.limited() {
            TimeDelta::NegativeInfinity => 0,
            TimeDelta::Negative(d) => MAX + 1 - d,
            TimeDelta::Positive(d) => MAX + 2 + d,
            TimeDelta::PositiveInfinity => 2 * MAX + 3,
        }
    }

    // The Rust's table of sums, for lengths within the limits.
    #[tactic(auto, unfolding(crate::specs::Time::add_limited))]
    fn add_limited(self, rhs: TimeDelta) -> Self
        requires { Time.Within self × Time.Within rhs }
        ensures { result ≡ Time.add_limited self rhs }
    {
        match (self, rhs) {
            (TimeDelta::PositiveInfinity, _) => TimeDelta::PositiveInfinity,
            (_, TimeDelta::PositiveInfinity) => TimeDelta::PositiveInfinity,
            (TimeDelta::NegativeInfinity, _) => TimeDelta::NegativeInfinity,
            (_, TimeDelta::NegativeInfinity) => TimeDelta::NegativeInfinity,
            (TimeDelta::Negative(a), TimeDelta::Negative(b)) => TimeDelta::minus(a + b),
            (TimeDelta::Negative(a), TimeDelta::Positive(b)) => difference(b, a),
            (TimeDelta::Positive(a), TimeDelta::Negative(b)) => difference(a, b),
            (TimeDelta::Positive(a), TimeDelta::Positive(b)) => TimeDelta::from(a + b),
        }
    }

    #[tactic(auto, unfolding(crate::specs::Time::as_secs_f64, crate::specs::Time::secs_limited))]
    pub fn as_secs_f64(self) -> f64
        ensures { result ≡ Time.as_secs_f64 self }
    {
        match self.limited() {
            TimeDelta::NegativeInfinity => f64::NEG_INFINITY,
            TimeDelta::Negative(d) => -seconds::as_secs_f64(d),
            TimeDelta::Positive(d) => seconds::as_secs_f64(d),
            TimeDelta::PositiveInfinity => f64::INFINITY,
        }
    }
}

// The order is that of the places, and not of the variants: a finite length above MAX is the infinity.
impl PartialEq for TimeDelta {
    ghost eq = { Time.eq };

    ghost laws = { Orders.eq_symmetric };

    fn eq(&self, other: &TimeDelta) -> bool {
        self.place() == other.place()
    }
}

impl Eq for TimeDelta {
    ghost laws = { Orders.eq_equivalence };
}

impl PartialOrd for TimeDelta {
    ghost partial_cmp = { as_partial_cmp Time.cmp };

    ghost laws = { Orders.partial_order };

    fn partial_cmp(&self, other: &TimeDelta) -> Option<Ordering> {
        Some(self.cmp(other))
    }
}

impl Ord for TimeDelta {
    ghost cmp = { Time.cmp };

    ghost total = { Orders.total_order };

    ghost matches_partial_cmp = { Orders.same_order };

    ghost matches_eq = { Orders.equal_ties };

    fn cmp(&self, other: &TimeDelta) -> Ordering {
        self.place().cmp(&other.place())
    }
}

impl Neg for TimeDelta {
    type Output = TimeDelta;

    ghost neg_gives = { λ length opposite. opposite ≡ Time.neg length };

    #[tactic(auto, unfolding(crate::specs::Time::neg))]
    fn neg(self) -> TimeDelta {
        match self {
            TimeDelta::NegativeInfinity => TimeDelta::PositiveInfinity,
            TimeDelta::Negative(d) => TimeDelta::from(d),
            TimeDelta::Positive(d) => TimeDelta::minus(d),
            TimeDelta::PositiveInfinity => TimeDelta::NegativeInfinity,
        }
    }
}

impl Add<TimeDelta> for TimeDelta {
    type Output = TimeDelta;

    ghost add_gives = { λ a b sum. sum ≡ Time.add a b };

    #[tactic(auto, unfolding(crate::specs::Time::add, crate::specs::Time::limited, crate::specs::Time::positive, crate::specs::Time::negative))]
    fn add(self, rhs: TimeDelta) -> TimeDelta {
        self.limited().add_limited(rhs.limited())
    }
}

// The Rust's table of differences is that of sums with the opposite length.
impl Sub<TimeDelta> for TimeDelta {
    type Output = TimeDelta;

    ghost sub_gives = { λ a b rest. rest ≡ Time.sub a b };

    #[tactic(auto, unfolding(crate::specs::Time::sub))]
    fn sub(self, rhs: TimeDelta) -> TimeDelta {
        self + -rhs
    }
}

// A finite length divided by 0 is the infinity of its sign.
impl Div<u32> for TimeDelta {
    type Output = TimeDelta;

    ghost div_gives = { λ length n part. part ≡ Time.div length n };

    #[tactic(auto, unfolding(crate::specs::Time::div, crate::specs::Time::div_limited))]
    fn div(self, rhs: u32) -> TimeDelta {
        match self.limited() {
            TimeDelta::NegativeInfinity => TimeDelta::NegativeInfinity,
            TimeDelta::Negative(d) => d
                .checked_div(rhs.into())
                .map_or(TimeDelta::NegativeInfinity, TimeDelta::Negative),
            TimeDelta::Positive(d) => d
                .checked_div(rhs.into())
                .map_or(TimeDelta::PositiveInfinity, TimeDelta::Positive),
            TimeDelta::PositiveInfinity => TimeDelta::PositiveInfinity,
        }
    }
}

// The rate that moves the size in the length, and 0 where that is a zero.
impl Div<TimeDelta> for DataSize {
    type Output = Bitrate;

    ghost div_gives = { λ size length rate. rate ≡ Time.rate size length };

    fn div(self, rhs: TimeDelta) -> Bitrate {
        self.per_secs(rhs.as_secs_f64())
    }
}

// Rust's `From<Instant>`.
impl From<u64> for Timestamp {
    ghost from_gives = { λ instant time. time ≡ Time.exact instant };

    #[tactic(auto, unfolding(crate::specs::Time::exact))]
    fn from(instant: u64) -> Timestamp {
        if instant <= MAX {
            Timestamp::Exact(instant)
        } else {
            Timestamp::DistantFuture
        }
    }
}

// Its conversion, limits, places, comparisons and sums are written as those of `TimeDelta` are: Rust allows no `PartialEq`, `Ord` or `From` for all types of a trait.
impl Timestamp {
    pub fn is_exact(self) -> bool
        ensures { result ≡ Time.is_exact self }
    {
        matches!(self, Timestamp::Exact(t) if t <= MAX)
    }

    #[tactic(auto, unfolding(crate::specs::Time::limited_instant))]
    fn limited(self) -> Self
        ensures { result ≡ Time.limited_instant self }
    {
        match self {
            Timestamp::DistantPast => Timestamp::DistantPast,
            Timestamp::Exact(t) => Timestamp::from(t),
            Timestamp::DistantFuture => Timestamp::DistantFuture,
        }
    }

    // The place of the instant in the order of all instants.
    #[tactic(auto, unfolding(crate::specs::Time::place_instant, crate::specs::Time::place_limited_instant, crate::specs::Time::limited_instant, crate::specs::Time::exact))]
    fn place(self) -> u64
        ensures { result ≡ Time.place_instant self }
    {
        match self.limited() {
            Timestamp::DistantPast => 0,
            Timestamp::Exact(t) => t + 1,
            Timestamp::DistantFuture => MAX + 2,
        }
    }

    // The Rust's table of sums with a length, within the limits.
    #[tactic(auto, unfolding(crate::specs::Time::add_limited_delta))]
    fn add_limited(self, rhs: TimeDelta) -> Self
        requires { Time.WithinInstant self × Time.Within rhs }
        ensures { result ≡ Time.add_limited_delta self rhs }
    {
        match (self, rhs) {
            (_, TimeDelta::PositiveInfinity) => Timestamp::DistantFuture,
            (Timestamp::DistantFuture, _) => Timestamp::DistantFuture,
            (Timestamp::DistantPast, _) => Timestamp::DistantPast,
            (Timestamp::Exact(_), TimeDelta::NegativeInfinity) => Timestamp::DistantPast,
            (Timestamp::Exact(t), TimeDelta::Negative(d)) => t
                .checked_sub(d)
                .map_or(Timestamp::DistantPast, Timestamp::Exact),
            (Timestamp::Exact(t), TimeDelta::Positive(d)) => Timestamp::from(t + d),
        }
    }

    // The Rust's table of differences, for instants within the limits.
    #[tactic(auto, unfolding(crate::specs::Time::since_limited))]
    fn since_limited(self, rhs: Timestamp) -> TimeDelta
        ensures { result ≡ Time.since_limited self rhs }
    {
        match (self, rhs) {
            (Timestamp::DistantFuture, _) => TimeDelta::PositiveInfinity,
            (_, Timestamp::DistantPast) => TimeDelta::PositiveInfinity,
            (Timestamp::DistantPast, _) => TimeDelta::NegativeInfinity,
            (_, Timestamp::DistantFuture) => TimeDelta::NegativeInfinity,
            (Timestamp::Exact(a), Timestamp::Exact(b)) => difference(a, b),
        }
    }
}

impl PartialEq for Timestamp {
    ghost eq = { Time.eq_instant };

    ghost laws = { Orders.eq_symmetric_instant };

    fn eq(&self, other: &Timestamp) -> bool {
        self.place() == other.place()
    }
}

impl Eq for Timestamp {
    ghost laws = { Orders.eq_equivalence_instant };
}

impl PartialOrd for Timestamp {
    ghost partial_cmp = { as_partial_cmp Time.cmp_instant };

    ghost laws = { Orders.partial_order_instant };

    fn partial_cmp(&self, other: &Timestamp) -> Option<Ordering> {
        Some(self.cmp(other))
    }
}

impl Ord for Timestamp {
    ghost cmp = { Time.cmp_instant };

    ghost total = { Orders.total_order_instant };

    ghost matches_partial_cmp = { Orders.same_order_instant };

    ghost matches_eq = { Orders.equal_ties_instant };

    fn cmp(&self, other: &Timestamp) -> Ordering {
        self.place().cmp(&other.place())
    }
}

impl Add<TimeDelta> for Timestamp {
    type Output = Timestamp;

    ghost add_gives = { λ time length sum. sum ≡ Time.add_delta time length };

    #[tactic(auto, unfolding(crate::specs::Time::add_delta, crate::specs::Time::limited, crate::specs::Time::limited_instant, crate::specs::Time::exact, crate::specs::Time::positive, crate::specs::Time::negative))]
    fn add(self, rhs: TimeDelta) -> Timestamp {
        self.limited().add_limited(rhs.limited())
    }
}

// The difference with a length: the sum with the opposite one, as the Rust's table has it.
impl Sub<TimeDelta> for Timestamp {
    type Output = Timestamp;

    ghost sub_gives = { λ time length rest. rest ≡ Time.sub_delta time length };

    #[tactic(auto, unfolding(crate::specs::Time::sub_delta))]
    fn sub(self, rhs: TimeDelta) -> Timestamp {
        self + -rhs
    }
}

// Rust's `Add<Duration>` and `Sub<Duration>`.
impl Add<u64> for Timestamp {
    type Output = Timestamp;

    ghost add_gives = { λ time duration sum. sum ≡ Time.add_delta time (Time.positive duration) };

    fn add(self, rhs: u64) -> Timestamp {
        self + TimeDelta::from(rhs)
    }
}

impl Sub<u64> for Timestamp {
    type Output = Timestamp;

    ghost sub_gives = { λ time duration rest. rest ≡ Time.sub_delta time (Time.positive duration) };

    fn sub(self, rhs: u64) -> Timestamp {
        self - TimeDelta::from(rhs)
    }
}

// The length from another instant to this one.
impl Sub<Timestamp> for Timestamp {
    type Output = TimeDelta;

    ghost sub_gives = { λ later earlier length. length ≡ Time.since later earlier };

    #[tactic(auto, unfolding(crate::specs::Time::since))]
    fn sub(self, rhs: Timestamp) -> TimeDelta {
        self.limited().since_limited(rhs.limited())
    }
}

// src/bwe/delay/rate_control.rs: the estimate rises, holds or falls by the signal and the observed rate.
#![tactic(auto)]

ghost use Rattle.std.specs.Prelude.{◌≡◌};
ghost use Rattle.rate_control.specs.RateControl as Rate;

use average::MovingAverage;
use bandwidth::{BandwidthUsage, Bitrate};
use std::time::Duration;

const DEFAULT_BACKOFF_TIME: u64 = 100_000_000;

// The values of `BandwidthUsage`, in a type of its own: both are public, and the Rust has two.
#[derive(Clone, Copy)]
pub enum Signal {
    Overuse,
    Underuse,
    Normal,
}

#[derive(Clone, Copy)]
pub enum State {
    Increase,
    Hold,
    Decrease,
}

#[derive(Clone, Copy)]
pub struct RateControl {
    pub state: State,
    pub estimated_bitrate: Bitrate,
    pub min_bitrate: Bitrate,
    pub max_bitrate: Bitrate,
    pub last_observed_bitrate: Option<Bitrate>,
    // The averaged observed rate of the times when the state was Decrease.
    pub averaged_observed_bitrate: MovingAverage,
    pub last_estimate_update: Option<u64>,
    pub last_rtt: Option<u64>,
}

impl From<BandwidthUsage> for Signal {
    ghost from_gives = { λ usage signal. signal ≡ Rate.signal usage };

    #[tactic(auto, unfolding(crate::specs::RateControl::signal))]
    fn from(usage: BandwidthUsage) -> Self {
        match usage {
            BandwidthUsage::Overuse => Signal::Overuse,
            BandwidthUsage::Normal => Signal::Normal,
            BandwidthUsage::Underuse => Signal::Underuse,
        }
    }
}

impl State {
    #[tactic(auto, unfolding(crate::specs::RateControl::transition))]
    pub fn transition(self, signal: Signal) -> Self
        ensures { result ≡ Rate.transition self signal }
    {
        match signal {
            Signal::Overuse => State::Decrease,
            Signal::Underuse => State::Hold,
            Signal::Normal => match self {
                State::Decrease => State::Hold,
                State::Hold => State::Increase,
                State::Increase => State::Increase,
            },
        }
    }
}

// A round trip held to 10 to 200 ms.
#[tactic(auto, unfolding(crate::specs::RateControl::reduction_interval))]
fn reduction_interval(rtt: u64) -> u64
    ensures { result ≡ Rate.reduction_interval rtt }
{
    rtt.clamp(10_000_000, 200_000_000)
}

// Seconds of a round trip and 100 ms, which are added first: a `Duration` holds every such sum.
fn response_time(rtt: u64) -> f64
    ensures { result ≡ Rate.response_time rtt }
{
    (Duration::from_nanos(rtt) + Duration::from_nanos(DEFAULT_BACKOFF_TIME)).as_secs_f64()
}

// The average, anew where a value lies below its range. No function for both ends: it would take the range and the comparison as closures, and be no shorter.
#[tactic(auto, unfolding(crate::specs::RateControl::reset_below))]
fn reset_below(average: MovingAverage, value: f64) -> MovingAverage
    ensures { result ≡ Rate.reset_below average value }
{
    match average.lower_range(3.0) {
        Some(lower) if value < lower => average.reset(),
        _ => average,
    }
}

// The average, anew where a value lies above its range.
#[tactic(auto, unfolding(crate::specs::RateControl::reset_above))]
fn reset_above(average: MovingAverage, value: f64) -> MovingAverage
    ensures { result ≡ Rate.reset_above average value }
{
    match average.upper_range(3.0) {
        Some(upper) if value > upper => average.reset(),
        _ => average,
    }
}

impl RateControl {
    pub const OBSERVED_BIT_RATE_SMOOTHING_FACTOR: f64 = 0.95;

    pub const BETA: f64 = 0.85;

    pub const MAX_ESTIMATE_RATIO: f64 = 1.5;

    pub fn new(start_bitrate: Bitrate, min_bitrate: Bitrate, max_bitrate: Bitrate) -> Self
        ensures { result ≡ Rate.new start_bitrate min_bitrate max_bitrate }
    {
        Self {
            state: State::Increase,
            estimated_bitrate: start_bitrate,
            min_bitrate,
            max_bitrate,
            last_observed_bitrate: None,
            averaged_observed_bitrate: MovingAverage::new(Self::OBSERVED_BIT_RATE_SMOOTHING_FACTOR),
            last_estimate_update: None,
            last_rtt: None,
        }
    }

    pub fn estimated_bitrate(self) -> Bitrate
        ensures { result ≡ self.estimated_bitrate }
    {
        self.estimated_bitrate
    }

    // A method for each field that changes alone: one of both would take a closure, and be no shorter.
    #[tactic(auto, unfolding(crate::specs::RateControl::with_average))]
    fn with_average(self, averaged_observed_bitrate: MovingAverage) -> Self
        ensures { result ≡ Rate.with_average self averaged_observed_bitrate }
    {
        Self {
            averaged_observed_bitrate,
            ..self
        }
    }

    #[tactic(auto, unfolding(crate::specs::RateControl::with_state))]
    fn with_state(self, state: State) -> Self
        ensures { result ≡ Rate.with_state self state }
    {
        Self { state, ..self }
    }

    // The estimate as it is given, and when.
    #[tactic(auto, unfolding(crate::specs::RateControl::with_estimate))]
    fn with_estimate(self, estimated_bitrate: Bitrate, now: u64) -> Self
        ensures { result ≡ Rate.with_estimate self estimated_bitrate now }
    {
        Self {
            estimated_bitrate,
            last_estimate_update: Some(now),
            ..self
        }
    }

    // What an update hands in, before the state is acted on.
    #[tactic(auto, unfolding(crate::specs::RateControl::with_inputs))]
    fn with_inputs(self, signal: Signal, observed_bitrate: Bitrate, rtt: Option<u64>) -> Self
        ensures { result ≡ Rate.with_inputs self signal observed_bitrate rtt }
    {
        Self {
            state: self.state.transition(signal),
            last_observed_bitrate: Some(observed_bitrate),
            last_rtt: rtt.or(self.last_rtt),
            ..self
        }
    }

    #[tactic(auto, unfolding(crate::specs::RateControl::update_observed_bitrate))]
    fn update_observed_bitrate(self, observed_bitrate: Bitrate) -> Self
        ensures { result ≡ Rate.update_observed_bitrate self observed_bitrate }
    {
        let observed = observed_bitrate.as_f64();
        let average = reset_below(self.averaged_observed_bitrate, observed);
        self.with_average(average.update(observed))
    }

    // Whether the estimate may be reduced again: a round trip after the last change, or at once where the observed rate is below half of it.
    #[tactic(auto, unfolding(crate::specs::RateControl::time_to_reduce_further))]
    fn time_to_reduce_further(self, now: u64, observed_bitrate: Bitrate) -> bool
        ensures { result ≡ Rate.time_to_reduce_further self now observed_bitrate }
    {
        let Some(last_change) = self.last_estimate_update else {
            return true; // no change yet
        };
        let rtt = self.last_rtt.unwrap_or(DEFAULT_BACKOFF_TIME);
        if reduction_interval(rtt) <= now.saturating_sub(last_change) {
            return true;
        }
        observed_bitrate < self.estimated_bitrate * 0.5
    }

    #[tactic(auto, unfolding(crate::specs::RateControl::is_near_convergence))]
    fn is_near_convergence(self) -> bool
        ensures { result ≡ Rate.is_near_convergence self }
    {
        self.last_observed_bitrate.is_some_and(|observed| {
            self.averaged_observed_bitrate
                .within_std(observed.as_f64(), 3.0)
        })
    }

    // Bits of a packet of a frame, of 30 frames a second.
    #[tactic(auto, unfolding(crate::specs::RateControl::estimated_packet_size))]
    fn estimated_packet_size(self) -> f64
        ensures { result ≡ Rate.estimated_packet_size self.estimated_bitrate }
    {
        let bits_per_frame = self.estimated_bitrate.0 / 30.0;
        let packets_per_frame = float::ceil(bits_per_frame / (1200.0 * 8.0));
        bits_per_frame / packets_per_frame
    }

    #[tactic(auto, unfolding(crate::specs::RateControl::additive_increase))]
    fn additive_increase(self, since_last_update: u64) -> f64
        ensures { result ≡ Rate.additive_increase self since_last_update }
    {
        let response_time = response_time(self.last_rtt.unwrap_or(0));
        let alpha = 0.5 * float::min(seconds::as_secs_f64(since_last_update) / response_time, 1.0);
        let size = self.estimated_packet_size();
        self.estimated_bitrate.0 + float::max(alpha * size, 1000.0)
    }

    #[tactic(auto, unfolding(crate::specs::RateControl::multiplicative_increase))]
    fn multiplicative_increase(self, since_last_update: u64) -> f64
        ensures { result ≡ Rate.multiplicative_increase self since_last_update }
    {
        let eta = growth::growth_factor(since_last_update / 1_000_000);
        let increase = float::max((eta - 1.0) * self.estimated_bitrate.0, 1000.0);
        self.estimated_bitrate.0 + increase
    }

    #[tactic(auto, unfolding(crate::specs::RateControl::raised))]
    fn raised(self, since_last_update: u64) -> f64
        ensures { result ≡ Rate.raised self since_last_update }
    {
        if self.is_near_convergence() {
            return self.additive_increase(since_last_update);
        }
        self.multiplicative_increase(since_last_update)
    }

    #[tactic(auto, unfolding(crate::specs::RateControl::update_estimate))]
    fn update_estimate(self, bitrate: Bitrate, now: u64) -> Self
        ensures { result ≡ Rate.update_estimate self bitrate now }
    {
        self.with_estimate(bitrate.clamp(self.min_bitrate, self.max_bitrate), now)
    }

    #[tactic(auto, unfolding(crate::specs::RateControl::increase))]
    fn increase(self, observed_bitrate: Bitrate, now: u64) -> Self
        ensures { result ≡ Rate.increase self observed_bitrate now }
    {
        let observed = observed_bitrate.as_f64();
        let increase_limit = observed * Self::MAX_ESTIMATE_RATIO + 10_000.0;
        let estimated_bitrate = self.estimated_bitrate;
        if estimated_bitrate.as_f64() >= increase_limit {
            return self.with_estimate(estimated_bitrate, now);
        }
        let last = self.last_estimate_update.unwrap_or(now);
        let since = now.saturating_sub(last);
        let next = self.with_average(reset_above(self.averaged_observed_bitrate, observed));
        let max = observed * Self::MAX_ESTIMATE_RATIO;
        let new_estimate = float::min(float::min(max, next.raised(since)), increase_limit);
        next.update_estimate(Bitrate(new_estimate), now)
    }

    #[tactic(auto, unfolding(crate::specs::RateControl::decrease))]
    fn decrease(self, observed_bitrate: Bitrate, now: u64) -> Self
        ensures { result ≡ Rate.decrease self observed_bitrate now }
    {
        let new_estimate = observed_bitrate * Self::BETA;
        let estimated_bitrate = self.estimated_bitrate;
        let held = self.with_state(State::Hold);
        if estimated_bitrate < new_estimate {
            return held.update_estimate(estimated_bitrate, now);
        }
        held.update_estimate(new_estimate, now)
    }

    // A probe's result becomes the estimate; state and statistics stay.
    #[tactic(auto, unfolding(crate::specs::RateControl::set_probe_result))]
    pub fn set_probe_result(self, probe_bitrate: Bitrate, now: u64) -> Self
        ensures { result ≡ Rate.set_probe_result self probe_bitrate now }
    {
        self.update_estimate(probe_bitrate, now)
    }

    #[tactic(auto, unfolding(crate::specs::RateControl::update))]
    pub fn update(
        self,
        signal: Signal,
        observed_bitrate: Bitrate,
        rtt: Option<u64>,
        now: u64,
    ) -> Self
        ensures { result ≡ Rate.update self signal observed_bitrate rtt now }
    {
        let next = self.with_inputs(signal, observed_bitrate, rtt);
        match next.state {
            State::Increase => next.increase(observed_bitrate, now),
            State::Decrease => {
                let counted = next.update_observed_bitrate(observed_bitrate);
                if counted.time_to_reduce_further(now, observed_bitrate) {
                    return counted.decrease(observed_bitrate, now);
                }
                counted
            }
            State::Hold => next,
        }
    }
}

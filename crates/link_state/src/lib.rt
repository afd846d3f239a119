// The state of a link, and document 01's question 1: whether a lent one is in range. Whatever it holds, the test is defined.
#![tactic(auto)]

ghost use Rattle.std.specs.Prelude.{◌&&◌, ◌≡◌, ◌≤◌, take};
ghost use Rattle.std.specs.Float.Ieee as Ieee;
ghost use Rattle.link_state.specs.State as State;

use acked_bitrate_estimator::AckedBitrateEstimator;
use arrival_group::{ArrivalGroup, ArrivalGroupAccumulator};
use average::MovingAverage;
use bandwidth::{Bitrate, DataSize};
use control::DelayController;
use rate_control::RateControl;
use time::TimeDelta;
use trendline::{Delays, History, Overuse, TrendlineEstimator};

#[derive(Clone, Copy)]
pub struct Link {
    pub acked: AckedBitrateEstimator,
    pub control: DelayController,
}

// Instants and durations, in ns.
const MOST_NS: u64 = 1_000_000_001_000_000_000;

const MOST_OVERUSE: u64 = 2_000_000_000_000_000_000;

const MOST_TIME: f64 = 1e12;

// The greatest f64 that is not above 10^30; 1e30 is above it.
const MOST_30: f64 = 999999999999999879147136483328.0;

const MOST_31: f64 = 1e31;

const MOST_ROUND_TRIP: f64 = 1e9;

// ---- kinds of fields
// An instant or a duration, if there is one.
fn ns_in(ns: Option<u64>) -> bool
    ensures { result ≡ State.ns_in ns }
{
    ns.is_none_or(|ns| ns <= MOST_NS)
}

#[tactic(auto, unfolding(crate::specs::State::sum_in))]
fn sum_in(sum: DataSize, elapsed: u64) -> bool
    ensures { result ≡ State.sum_in sum elapsed }
{
    (DataSize::ZERO <= sum) & questions::bytes_in(sum) & ((DataSize::ZERO < sum) | (elapsed == 0))
}

fn average_within(most: f64, average: Option<f64>) -> bool
    ensures { result ≡ State.average_within most average }
{
    average.is_none_or(|x| float::within(0.0, most, x))
}

#[tactic(auto, unfolding(crate::specs::State::average_in))]
fn average_in(m: MovingAverage, factor: f64, most: f64) -> bool
    ensures { result ≡ State.average_in m factor most }
{
    (m.smoothing_factor == factor)
        & average_within(most, m.average)
        & float::within(0.0, MOST_30, m.variance)
        & sqrt::is_sqrt(m.std, m.variance)
}

// ---- the acknowledged rate
fn acked_rate_in(rate: Option<Bitrate>) -> bool
    ensures { result ≡ State.acked_rate_in rate }
{
    rate.is_none_or(|x| x.within(Bitrate(0.8), Bitrate::MOST))
}

#[tactic(auto, unfolding(crate::specs::State::acked_in))]
fn acked_in(a: AckedBitrateEstimator) -> bool
    ensures { result ≡ State.acked_in a }
{
    questions::window_in(a.initial_window)
        & questions::window_in(a.window)
        & acked_rate_in(a.estimate)
        & float::within(0.0, MOST_30, a.estimate_var)
        & sum_in(a.sum, a.current_window)
        & (a.current_window <= 10_000_000_000)
        & ns_in(a.last_update)
}

// ---- groups
fn group_in(group: Option<ArrivalGroup>) -> bool
    ensures { result ≡ State.group_in group }
{
    group.is_none_or(|g| {
        (g.first_local_send_time <= MOST_NS)
            & (g.first_remote_recv_time <= MOST_NS)
            & (g.last_local_send_time <= MOST_NS)
            & (g.last_remote_recv_time <= MOST_NS)
    })
}

#[tactic(auto, unfolding(crate::specs::State::groups_in))]
fn groups_in(a: ArrivalGroupAccumulator) -> bool
    ensures { result ≡ State.groups_in a }
{
    ns_in(a.send_time_origin) & group_in(a.previous_group) & group_in(a.current_group)
}

// ---- the trendline
// The first n timings: times in order within ±10^12, delays within ±10^31. By value and with n: given slices, tried, a live timeout takes 115 ns in place of 109, since the history is copied for them.
#[tactic(auto, using(crate::proofs::Laws::timings_loop))]
fn timings_in(times: [f64; 20], delays: [f64; 20], n: usize) -> bool
    requires { n ≤ 20 }
    ensures { result ≡ (State.ascends (Ieee.neg State.most_time) (take n times) State.most_time && State.all_within State.most31 (take n delays)) }
{
    let mut all = true;
    let mut low = -MOST_TIME;
    for i in 0..n {
        all &= (low <= times[i]) & float::within(-MOST_31, MOST_31, delays[i]);
        low = times[i];
    }
    all & (low <= MOST_TIME)
}

#[tactic(auto, unfolding(crate::specs::State::history_in))]
fn history_in(h: History) -> bool
    ensures { result ≡ State.history_in h }
{
    match h.len {
        20 => timings_in(h.times, h.delays, 20),
        n => (n < 20) && timings_in(h.times, h.delays, n),
    }
}

#[tactic(auto, using(crate::proofs::Laws::no_nan), unfolding(crate::specs::State::delays_in))]
fn delays_in(d: Delays) -> bool
    ensures { result ≡ State.delays_in d }
{
    (d.num_delay_variations <= 1000)
        & float::within(-MOST_30, MOST_30, d.accumulated_delay)
        & float::within(-MOST_31, MOST_31, d.smoothed_delay)
        & float::within(
            Delays::MIN_THRESHOLD_MS,
            Delays::MAX_THRESHOLD_MS,
            d.delay_threshold,
        )
        & !d.previous_trend.is_nan()
}

fn overuse_time_in(time: TimeDelta) -> bool
    ensures { result ≡ State.overuse_time_in time }
{
    match time {
        TimeDelta::Negative(ns) | TimeDelta::Positive(ns) => ns <= MOST_OVERUSE,
        TimeDelta::NegativeInfinity | TimeDelta::PositiveInfinity => false,
    }
}

#[tactic(auto, unfolding(crate::specs::State::overuse_in))]
fn overuse_in(overuse: Option<Overuse>) -> bool
    ensures { result ≡ State.overuse_in overuse }
{
    overuse.is_none_or(|o| (o.count <= 2) & overuse_time_in(o.time_overusing))
}

#[tactic(auto, unfolding(crate::specs::State::trendline_in))]
fn trendline_in(t: TrendlineEstimator) -> bool
    ensures { result ≡ State.trendline_in t }
{
    ns_in(t.zero_time)
        & history_in(t.history)
        & delays_in(t.delays)
        & overuse_in(t.overuse)
        & ns_in(t.last_threshold_update)
}

// ---- the rate control and the delay controller
#[tactic(auto, unfolding(crate::specs::State::rate_control_in))]
fn rate_control_in(c: RateControl) -> bool
    ensures { result ≡ State.rate_control_in c }
{
    (c.min_bitrate == Bitrate::MIN_ESTIMATE)
        & (c.max_bitrate == Bitrate::MAX_ESTIMATE)
        & c.estimated_bitrate
            .within(Bitrate::MIN_ESTIMATE, Bitrate::MAX_ESTIMATE)
        & average_in(
            c.averaged_observed_bitrate,
            RateControl::OBSERVED_BIT_RATE_SMOOTHING_FACTOR,
            Bitrate::MOST.0,
        )
        & ns_in(c.last_estimate_update)
        & ns_in(c.last_rtt)
}

impl Link {
    // Part by part, each read when its turn comes.
    #[tactic(auto, unfolding(crate::specs::State::in_range, crate::specs::State::control_in))]
    pub fn in_range(self) -> bool
        ensures { result ≡ State.in_range self }
    {
        acked_in(self.acked)
            && groups_in(self.control.arrival_group_accumulator)
            && trendline_in(self.control.trendline_estimator)
            && rate_control_in(self.control.rate_control)
            && average_in(
                self.control.smoothed_rtt,
                DelayController::RTT_SMOOTHING_FACTOR,
                MOST_ROUND_TRIP,
            )
            && (self.control.next_timeout <= MOST_NS)
            && ns_in(self.control.last_twcc_report)
    }
}

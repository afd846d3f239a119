// src/bwe/delay/control.rs: the delay controller. Smoothed round trips are present after any packet, so the Rust's history of them is never
// consulted and is left out, and so is its copy of the last estimate, which is always the rate control's.
#![tactic(auto)]

ghost use Rattle.std.specs.Prelude.{◌≡◌};
ghost use Rattle.control.specs.Control as Control;

use arrival_group::ArrivalGroupAccumulator;
use average::MovingAverage;
use bandwidth::{BandwidthUsage, Bitrate};
use rate_control::{RateControl, Signal};
use trendline::TrendlineEstimator;

const UPDATE_INTERVAL: u64 = 25_000_000;

const MAX_TWCC_GAP: u64 = 500_000_000;

#[derive(Clone, Copy)]
pub struct DelayController {
    pub arrival_group_accumulator: ArrivalGroupAccumulator,
    pub trendline_estimator: TrendlineEstimator,
    pub rate_control: RateControl,
    // The smoothed round trip, in seconds.
    pub smoothed_rtt: MovingAverage,
    // When to poll next; 0, which is due, before the first call.
    pub next_timeout: u64,
    // When the last report was taken.
    pub last_twcc_report: Option<u64>,
}

// What a report's packets go through: the groups, and the trendline of the delays between them.
#[derive(Clone, Copy)]
pub struct DelayDetector {
    pub arrival_group_accumulator: ArrivalGroupAccumulator,
    pub trendline_estimator: TrendlineEstimator,
}

// What a timeout changes of a controller.
#[derive(Clone, Copy)]
struct Timed {
    rate_control: RateControl,
    next_timeout: u64,
}

// The same option, put together anew: a copy of it as a whole moves its padding too, and a chain of such copies stalls. Without it the typical listing took 0.44 of
// the Rust's time in place of 0.42.
fn anew<T: Copy>(option: Option<T>) -> Option<T>
    ensures { result ≡ option }
{
    match option {
        None => None,
        Some(x) => Some(x),
    }
}

fn groups_anew(groups: ArrivalGroupAccumulator) -> ArrivalGroupAccumulator
    ensures { result ≡ groups }
{
    ArrivalGroupAccumulator {
        send_time_origin: anew(groups.send_time_origin),
        previous_group: anew(groups.previous_group),
        current_group: anew(groups.current_group),
    }
}

fn rate_anew(rate: RateControl) -> RateControl
    ensures { result ≡ rate }
{
    RateControl {
        last_observed_bitrate: anew(rate.last_observed_bitrate),
        averaged_observed_bitrate: MovingAverage {
            average: anew(rate.averaged_observed_bitrate.average),
            ..rate.averaged_observed_bitrate
        },
        last_estimate_update: anew(rate.last_estimate_update),
        last_rtt: anew(rate.last_rtt),
        ..rate
    }
}

// The greatest round trip of a report's packets, where there is one; what one list has more is left out.
fn max_rtt(local_send_times: &[u64], local_recv_times: &[u64]) -> Option<u64>
    ensures { result ≡ Control.max_rtt local_send_times.now local_recv_times.now }
{
    let mut max_rtt = None;
    for (send, receive) in local_send_times.iter().zip(local_recv_times) {
        max_rtt = time::longest(max_rtt, receive.saturating_sub(*send));
    }
    max_rtt
}

impl DelayDetector {
    // A report's packets in the order of receipt; what one list has more is left out.
    fn add_packets(self, local_send_times: &[u64], remote_recv_times: &[u64]) -> Self
        ensures { result ≡ Control.add_packets self local_send_times.now remote_recv_times.now }
    {
        let mut accumulator = self.arrival_group_accumulator;
        let mut trendline = self.trendline_estimator;
        for (send, remote) in local_send_times.iter().zip(remote_recv_times) {
            let done = accumulator.accumulate_packet(*send, *remote);
            accumulator = groups_anew(done.accumulator);
            if let Some(variation) = done.delta {
                trendline = trendline.add_delay_observation(
                    variation,
                    variation.last_remote_recv_time,
                );
            }
        }
        Self {
            arrival_group_accumulator: accumulator,
            trendline_estimator: trendline,
        }
    }
}

impl DelayController {
    pub const RTT_SMOOTHING_FACTOR: f64 = 0.125;

    #[tactic(auto, unfolding(crate::specs::Control::new))]
    pub fn new(initial_bitrate: Bitrate) -> Self
        ensures { result ≡ Control.new initial_bitrate }
    {
        Self {
            arrival_group_accumulator: ArrivalGroupAccumulator::new(),
            trendline_estimator: TrendlineEstimator::new(),
            rate_control: RateControl::new(
                initial_bitrate,
                Bitrate::MIN_ESTIMATE,
                Bitrate::MAX_ESTIMATE,
            ),
            smoothed_rtt: MovingAverage::new(Self::RTT_SMOOTHING_FACTOR),
            next_timeout: 0,
            last_twcc_report: None,
        }
    }

    pub fn poll_timeout(self) -> u64
        ensures { result ≡ self.next_timeout }
    {
        self.next_timeout
    }

    pub fn last_estimate(self) -> Bitrate
        ensures { result ≡ self.rate_control.estimated_bitrate }
    {
        self.rate_control.estimated_bitrate()
    }

    pub fn hypothesis(self) -> BandwidthUsage
        ensures { result ≡ self.trendline_estimator.hypothesis }
    {
        self.trendline_estimator.hypothesis()
    }

    // The smoothed round trip in ns: the nearest, ties to even.
    #[tactic(auto, unfolding(crate::specs::Control::get_smoothed_rtt))]
    pub fn get_smoothed_rtt(self) -> Option<u64>
        ensures { result ≡ Control.get_smoothed_rtt self }
    {
        rtt_of(self.smoothed_rtt)
    }

    // The rate control after an update, and the next timeout.
    #[tactic(auto, unfolding(crate::specs::Control::with_rate))]
    fn with_rate(self, rate_control: RateControl, next_timeout: u64) -> Self
        ensures { result ≡ Control.with_rate self rate_control next_timeout }
    {
        Self {
            rate_control,
            next_timeout,
            ..self
        }
    }

    // The smoothed round trip, at most 25 ms.
    #[tactic(auto, unfolding(crate::specs::Control::wait))]
    fn wait(self) -> u64
        ensures { result ≡ Control.wait self }
    {
        let rtt = self.get_smoothed_rtt().unwrap_or(MAX_TWCC_GAP);
        rtt.min(UPDATE_INTERVAL)
    }

    // Whether the hypothesis is not too old: at most twice the smoothed round trip, and at most 50 ms.
    #[tactic(auto, unfolding(crate::specs::Control::trendline_hypothesis_valid, crate::specs::Control::wait))]
    fn trendline_hypothesis_valid(self, now: u64) -> bool
        ensures { result ≡ Control.trendline_hypothesis_valid self now }
    {
        self.last_twcc_report
            .is_some_and(|last| now.saturating_sub(last) <= 2 * self.wait())
    }

    // A report: its packets in the order of receipt, the acknowledged rate, a probe's result or none, and the moment.
    #[tactic(auto, unfolding(crate::specs::Control::update, crate::specs::Control::update_estimate, crate::specs::Control::with_packets, crate::specs::Control::with_rate, crate::specs::Control::get_smoothed_rtt, time::specs::Time::saturating_add))]
    pub fn update(
        self,
        local_send_times: &[u64],
        remote_recv_times: &[u64],
        local_recv_times: &[u64],
        acked_bitrate: Option<Bitrate>,
        probe_bitrate: Option<Bitrate>,
        moment: u64,
    ) -> Self
        ensures { result ≡ Control.update self local_send_times.now remote_recv_times.now local_recv_times.now acked_bitrate probe_bitrate moment }
    {
        let detector = DelayDetector {
            arrival_group_accumulator: self.arrival_group_accumulator,
            trendline_estimator: self.trendline_estimator,
        };
        let detector = detector.add_packets(local_send_times, remote_recv_times);
        let max_rtt = max_rtt(local_send_times, local_recv_times);
        let smoothed_rtt = update_rtt(self.smoothed_rtt, max_rtt);
        let rate_control = rate_from(
            probe_bitrate,
            acked_bitrate,
            self.rate_control,
            detector.trendline_estimator.hypothesis(),
            smoothed_rtt,
            moment,
        );
        Self {
            arrival_group_accumulator: detector.arrival_group_accumulator,
            trendline_estimator: detector.trendline_estimator,
            rate_control,
            smoothed_rtt,
            next_timeout: moment.saturating_add(UPDATE_INTERVAL),
            last_twcc_report: Some(moment),
        }
    }

    // What a timeout changes. A hypothesis that is too old waits for the next report.
    #[tactic(auto, unfolding(crate::specs::Control::handle_timeout, crate::specs::Control::update_estimate, crate::specs::Control::get_smoothed_rtt, time::specs::Time::saturating_add))]
    fn timed(self, acked_bitrate: Option<Bitrate>, now: u64) -> Timed
        ensures { Control.with_rate self result.rate_control result.next_timeout ≡ Control.handle_timeout self acked_bitrate now }
    {
        if self.trendline_hypothesis_valid(now) {
            return Timed {
                rate_control: rate_from(
                    None,
                    acked_bitrate,
                    self.rate_control,
                    self.hypothesis(),
                    self.smoothed_rtt,
                    now,
                ),
                next_timeout: now.saturating_add(UPDATE_INTERVAL),
            };
        }
        Timed {
            rate_control: self.rate_control,
            next_timeout: now.saturating_add(self.wait()),
        }
    }

    pub fn handle_timeout(self, acked_bitrate: Option<Bitrate>, now: u64) -> Self
        ensures { result ≡ Control.handle_timeout self acked_bitrate now }
    {
        let timed = self.timed(acked_bitrate, now);
        self.with_rate(timed.rate_control, timed.next_timeout)
    }
}

// A smoothed round trip in ns: the nearest, ties to even.
fn rtt_of(smoothed_rtt: MovingAverage) -> Option<u64>
    ensures { result ≡ Control.rtt_of smoothed_rtt.average }
{
    smoothed_rtt.get().map(seconds::from_secs_f64)
}

// A probe's result is applied as it is; else the observed rate, where there is one, goes to the rate control.
fn rate_from(
    probe_bitrate: Option<Bitrate>,
    observed_bitrate: Option<Bitrate>,
    rate_control: RateControl,
    hypothesis: BandwidthUsage,
    smoothed_rtt: MovingAverage,
    now: u64,
) -> RateControl
    ensures { result ≡ Control.rate_from probe_bitrate observed_bitrate rate_control hypothesis (Control.rtt_of smoothed_rtt.average) now }
{
    if let Some(probe) = probe_bitrate {
        return rate_anew(rate_control.set_probe_result(probe, now));
    }
    let Some(observed) = observed_bitrate else {
        return rate_anew(rate_control);
    };
    rate_anew(rate_control.update(
        Signal::from(hypothesis),
        observed,
        rtt_of(smoothed_rtt),
        now,
    ))
}

// The smoothed round trip after a report's greatest.
#[tactic(auto, unfolding(crate::specs::Control::update_rtt))]
fn update_rtt(smoothed_rtt: MovingAverage, max_rtt: Option<u64>) -> MovingAverage
    ensures { result ≡ Control.update_rtt smoothed_rtt max_rtt }
{
    max_rtt.map_or(smoothed_rtt, |rtt| {
        smoothed_rtt.update(seconds::as_secs_f64(rtt))
    })
}

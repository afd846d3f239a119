// src/bwe/acked_bitrate_estimator.rs: the rate at which packets are acknowledged, from sizes summed over windows of remote time.
#![tactic(auto)]

ghost use Rattle.std.specs.Prelude.{◌≡◌, ◌≤◌};
ghost use Rattle.acked_bitrate_estimator.specs.AckedBitrateEstimator as Acked;

use bandwidth::{Bitrate, DataSize};

#[derive(Clone, Copy)]
pub struct AckedBitrateEstimator {
    // The window to use for the first estimate, in ns.
    pub initial_window: u64,
    // The window to use for later ones.
    pub window: u64,
    pub estimate: Option<Bitrate>,
    pub estimate_var: f64,
    // The sum in the current window.
    pub sum: DataSize,
    // How much of the current window has elapsed.
    pub current_window: u64,
    // The remote instant of the last packet.
    pub last_update: Option<u64>,
}

// The bytes of the current window and what of it has elapsed, in ns.
#[derive(Clone, Copy)]
pub struct Window {
    pub sum: DataSize,
    pub elapsed: u64,
}

// The rate of a full window, and whether it held few bytes. No option: one with few bytes has its rate too.
#[derive(Clone, Copy)]
pub struct Sample {
    pub rate: Bitrate,
    pub is_small: bool,
}

// An estimate and its variance.
#[derive(Clone, Copy)]
pub struct Weighed {
    pub estimate: f64,
    pub variance: f64,
}

// What is left of an elapsed window after a gap of at least a window, in whole µs. The Rust panics at a window below 1 µs; here nothing is left.
#[tactic(auto, unfolding(crate::specs::AckedBitrateEstimator::remaining))]
fn remaining(elapsed: u64, window: u64) -> u64
    ensures { result ≡ Acked.remaining elapsed window }
{
    (elapsed / 1000).checked_rem(window / 1000).unwrap_or(0) * 1000
}

impl Window {
    // The window after a gap without packets.
    #[tactic(auto, unfolding(crate::specs::AckedBitrateEstimator::advance, time::specs::Time::saturating_add))]
    pub fn advance(self, gap: u64, window: u64) -> Self
        ensures { result ≡ Acked.advance self gap window }
    {
        let elapsed = self.elapsed.saturating_add(gap);
        if window <= gap {
            return Window {
                sum: DataSize::ZERO,
                elapsed: remaining(elapsed, window),
            };
        }
        Window { elapsed, ..self }
    }

    // The sample of a window that is full.
    #[tactic(auto, unfolding(crate::specs::AckedBitrateEstimator::sample))]
    pub fn sample(self, window: u64) -> Option<Sample>
        ensures { result ≡ Acked.sample self window }
    {
        if self.elapsed < window {
            return None;
        }
        Some(Sample {
            rate: self.sum / window,
            is_small: self.sum < AckedBitrateEstimator::SMALL_SAMPLE_THRESHOLD,
        })
    }

    // The window after its sample, with the packet that came.
    #[tactic(auto, unfolding(crate::specs::AckedBitrateEstimator::with_packet))]
    pub fn with_packet(self, size: DataSize, window: u64) -> Self
        ensures { result ≡ Acked.with_packet self size window }
    {
        if self.elapsed < window {
            return Window {
                sum: self.sum + size,
                ..self
            };
        }
        Window {
            sum: DataSize::ZERO + size,
            elapsed: self.elapsed - window,
        }
    }
}

// A small sample below the estimate counts as less certain.
#[tactic(auto, unfolding(crate::specs::AckedBitrateEstimator::scale))]
fn scale(is_small: bool, estimate: f64, sample: f64) -> f64
    ensures { result ≡ Acked.scale is_small estimate sample }
{
    if is_small & (sample < estimate) {
        return AckedBitrateEstimator::SMALL_SAMPLE_UNCERTAINTY;
    }
    AckedBitrateEstimator::UNCERTAINTY
}

// A bayesian estimate of the rate: the sample weighs less the further it is from the estimate.
#[tactic(auto, unfolding(crate::specs::AckedBitrateEstimator::weigh))]
pub fn weigh(estimate: f64, variance: f64, sample: f64, is_small: bool) -> Weighed
    ensures { result ≡ Acked.weigh estimate variance sample is_small }
{
    let scale = scale(is_small, estimate, sample);
    let uncertainty = scale * float::abs(estimate - sample) / estimate;
    let sample_var = uncertainty * uncertainty;
    let pred_var = variance + 5.0;
    let mean = (sample_var * estimate + pred_var * sample) / (sample_var + pred_var);
    let floored = float::max(mean, AckedBitrateEstimator::ESTIMATE_FLOOR);
    Weighed {
        estimate: std::num::nearest_u64_to_f64(std::num::saturating_f64_to_u64(float::ceil(
            floored,
        ))),
        variance: (sample_var * pred_var) / (sample_var + pred_var),
    }
}

impl AckedBitrateEstimator {
    pub const SMALL_SAMPLE_THRESHOLD: DataSize = DataSize(2000);

    pub const SMALL_SAMPLE_UNCERTAINTY: f64 = 25.0;

    pub const UNCERTAINTY: f64 = 10.0;

    pub const ESTIMATE_FLOOR: f64 = 40_000.0;

    // Two parameters, as the Rust's `new` has them: a struct of both would be no plainer where a caller gives two numbers.
    pub fn new(initial_window: u64, window: u64) -> Self
        ensures { result ≡ Acked.new initial_window window }
    {
        Self {
            initial_window,
            window,
            estimate: None,
            estimate_var: 50.0,
            sum: DataSize::ZERO,
            current_window: 0,
            last_update: None,
        }
    }

    pub fn current_estimate(self) -> Option<Bitrate>
        ensures { result ≡ self.estimate }
    {
        self.estimate
    }

    fn with_window(self, w: Window, receive_time: u64) -> Self
        ensures { result ≡ Acked.with_window self w receive_time }
    {
        Self {
            sum: w.sum,
            current_window: w.elapsed,
            last_update: Some(receive_time),
            ..self
        }
    }

    fn with_estimate(self, rate: Bitrate, variance: f64) -> Self
        ensures { result ≡ Acked.with_estimate self rate variance }
    {
        Self {
            estimate: Some(rate),
            estimate_var: variance,
            ..self
        }
    }

    // The first sample is the estimate; later ones are weighed.
    #[tactic(auto, unfolding(crate::specs::AckedBitrateEstimator::with_sample))]
    fn with_sample(self, sample: Option<Sample>) -> Self
        ensures { result ≡ Acked.with_sample self sample }
    {
        let Some(Sample { rate, is_small }) = sample else {
            return self;
        };
        match self.estimate {
            None => self.with_estimate(rate, self.estimate_var),
            Some(e) => {
                let w = weigh(e.as_f64(), self.estimate_var, rate.as_f64(), is_small);
                self.with_estimate(Bitrate(w.estimate), w.variance)
            }
        }
    }

    // The first estimate wants the larger window.
    #[tactic(auto, unfolding(crate::specs::AckedBitrateEstimator::window_length))]
    fn window_length(self) -> u64
        ensures { result ≡ Acked.window_length self }
    {
        match self.estimate {
            None => self.initial_window,
            Some(_) => self.window,
        }
    }

    // The packet joins the window, which gives its sample first where it is full.
    #[tactic(auto, unfolding(crate::specs::AckedBitrateEstimator::filled))]
    fn filled(self, w: Window, receive_time: u64, packet_size: DataSize) -> Self
        ensures { result ≡ Acked.filled self w receive_time packet_size }
    {
        let window = self.window_length();
        let after = self.with_window(w.with_packet(packet_size, window), receive_time);
        after.with_sample(w.sample(window))
    }

    // A packet that was received at a remote instant. One earlier than the last clears the window, and its size is not added.
    #[tactic(auto, unfolding(crate::specs::AckedBitrateEstimator::update))]
    pub fn update(self, receive_time: u64, packet_size: DataSize) -> Self
        ensures { result ≡ Acked.update self receive_time packet_size }
    {
        let w = Window {
            sum: self.sum,
            elapsed: self.current_window,
        };
        let advanced = match self.last_update {
            None => w,
            Some(last) => {
                if receive_time < last {
                    let cleared = Window {
                        sum: DataSize::ZERO,
                        elapsed: 0,
                    };
                    return self.with_window(cleared, receive_time);
                }
                w.advance(receive_time - last, self.window_length())
            }
        };
        self.filled(advanced, receive_time, packet_size)
    }
}

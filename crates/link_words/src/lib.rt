// A link as 100 words, for callers that cannot hold one: C, and programs that set a word of it. An option is its tag, 0 absent and 1 present, and the words of its value, which are 0
// where it is absent and not read then; a float is its bits; the byte sum is in two's complement.
//
//   0 format, 1
//   1 initial_window   2 window   3,4 estimate   5 estimate_var   6 sum   7 current_window   8,9 last_update
//   10,11 send_time_origin   12..16 previous_group   17..21 current_group
//   22,23 zero_time   24..43 times   44..63 delays   64 len   65 num_delay_variations   66 accumulated_delay   67 smoothed_delay
//   68 delay_threshold   69 previous_trend   70 overuse: 71 count, 72,73 time_overusing   74,75 last_threshold_update   76 hypothesis
//   77 state   78 estimated_bitrate   79 min_bitrate   80 max_bitrate   81,82 last_observed_bitrate
//   83..87 averaged_observed_bitrate   88,89 last_estimate_update   90,91 last_rtt
//   92..96 smoothed_rtt   97 next_timeout   98,99 last_twcc_report
//
// A group is its tag and four instants in the order of its fields, an average its factor, the tag and bits of the average, variance and deviation. The tags of enums count their
// variants from 0.
//
// A part's place goes with all words, and `requires` has its room: a slice of a part would need its length in a clause, and an array of five needs a conversion that can fail, at each call.
#![tactic(auto)]

ghost use Rattle.std.specs.Prelude.{◌≡◌, map, ◌+◌, ◌≤◌, unwrap_or};
ghost use Rattle.std.specs.Float.{binary64};
ghost use Rattle.std.specs.Float.Ieee.{to_bits};
ghost use Rattle.std.proofs.lemmas.List.Edits.{sets};
ghost use Rattle.link_words.specs.LinkWords as Words;

use acked_bitrate_estimator::AckedBitrateEstimator;
use arrival_group::{ArrivalGroup, ArrivalGroupAccumulator};
use average::MovingAverage;
use bandwidth::{BandwidthUsage, Bitrate, DataSize};
use control::DelayController;
use float_bits::{from_bits, to_bits};
use link_state::Link;
use rate_control::{RateControl, State};
use time::TimeDelta;
use trendline::{Delays, History, Overuse, TrendlineEstimator};

// ---- values from their words
// A value, or none by a tag of 0.
fn option<T: Copy>(tag: u64, value: T) -> Option<T>
    ensures { result ≡ Words.option tag value }
{
    (tag != 0).then_some(value)
}

// An average whose words begin at `at`.
fn load_average(words: &[u64; 100], at: usize) -> MovingAverage
    requires { at + 5 ≤ 100 }
    ensures { result ≡ Words.moving_average words.now at }
{
    MovingAverage {
        smoothing_factor: from_bits(words[at]),
        average: option(words[at + 1], from_bits(words[at + 2])),
        variance: from_bits(words[at + 3]),
        std: from_bits(words[at + 4]),
    }
}

// A group whose words begin at `at`.
fn load_group(words: &[u64; 100], at: usize) -> Option<ArrivalGroup>
    requires { at + 5 ≤ 100 }
    ensures { result ≡ Words.group words.now at }
{
    let group = ArrivalGroup {
        first_local_send_time: words[at + 1],
        first_remote_recv_time: words[at + 2],
        last_local_send_time: words[at + 3],
        last_remote_recv_time: words[at + 4],
    };
    option(words[at], group)
}

// The 20 floats from a word on.
fn load_floats(words: &[u64; 100], at: usize) -> [f64; 20]
    requires { at + 20 ≤ 100 }
    ensures { result ≡ Words.floats words.now at 20 }
{
    std::array::from_fn(|i| from_bits(words[at + i]))
}

// A tag past an enum's last counts as the last. The enums are of other crates, so there is no `From`, and a trait of the three would have these same bodies.
fn time_delta(tag: u64, ns: u64) -> TimeDelta
    ensures { result ≡ Words.time_delta tag ns }
{
    match tag {
        0 => TimeDelta::NegativeInfinity,
        1 => TimeDelta::Negative(ns),
        2 => TimeDelta::Positive(ns),
        _ => TimeDelta::PositiveInfinity,
    }
}

fn hypothesis(tag: u64) -> BandwidthUsage
    ensures { result ≡ Words.hypothesis tag }
{
    match tag {
        0 => BandwidthUsage::Overuse,
        1 => BandwidthUsage::Normal,
        _ => BandwidthUsage::Underuse,
    }
}

fn state(tag: u64) -> State
    ensures { result ≡ Words.state tag }
{
    match tag {
        0 => State::Increase,
        1 => State::Hold,
        _ => State::Decrease,
    }
}

// ---- parts from their words
#[tactic(auto, unfolding(crate::specs::LinkWords::acked))]
fn load_acked(words: &[u64; 100]) -> AckedBitrateEstimator
    ensures { result ≡ Words.acked words.now }
{
    AckedBitrateEstimator {
        initial_window: words[1],
        window: words[2],
        estimate: option(words[3], Bitrate(from_bits(words[4]))),
        estimate_var: from_bits(words[5]),
        sum: DataSize(words[6].cast_signed()),
        current_window: words[7],
        last_update: option(words[8], words[9]),
    }
}

#[tactic(auto, unfolding(crate::specs::LinkWords::groups))]
fn load_groups(words: &[u64; 100]) -> ArrivalGroupAccumulator
    ensures { result ≡ Words.groups words.now }
{
    ArrivalGroupAccumulator {
        send_time_origin: option(words[10], words[11]),
        previous_group: load_group(words, 12),
        current_group: load_group(words, 17),
    }
}

#[tactic(auto, unfolding(crate::specs::LinkWords::history))]
fn load_history(words: &[u64; 100]) -> History
    ensures { result ≡ Words.history words.now }
{
    History {
        times: load_floats(words, 24),
        delays: load_floats(words, 44),
        len: words[64] as usize,
    }
}

#[tactic(auto, unfolding(crate::specs::LinkWords::delays))]
fn load_delays(words: &[u64; 100]) -> Delays
    ensures { result ≡ Words.delays words.now }
{
    Delays {
        num_delay_variations: words[65],
        accumulated_delay: from_bits(words[66]),
        smoothed_delay: from_bits(words[67]),
        delay_threshold: from_bits(words[68]),
        previous_trend: from_bits(words[69]),
    }
}

#[tactic(auto, unfolding(crate::specs::LinkWords::trendline))]
fn load_trendline(words: &[u64; 100]) -> TrendlineEstimator
    ensures { result ≡ Words.trendline words.now }
{
    let overuse = Overuse {
        count: words[71],
        time_overusing: time_delta(words[72], words[73]),
    };
    TrendlineEstimator {
        zero_time: option(words[22], words[23]),
        history: load_history(words),
        delays: load_delays(words),
        overuse: option(words[70], overuse),
        last_threshold_update: option(words[74], words[75]),
        hypothesis: hypothesis(words[76]),
    }
}

#[tactic(auto, unfolding(crate::specs::LinkWords::rate_control))]
fn load_rate_control(words: &[u64; 100]) -> RateControl
    ensures { result ≡ Words.rate_control words.now }
{
    RateControl {
        state: state(words[77]),
        estimated_bitrate: Bitrate(from_bits(words[78])),
        min_bitrate: Bitrate(from_bits(words[79])),
        max_bitrate: Bitrate(from_bits(words[80])),
        last_observed_bitrate: option(words[81], Bitrate(from_bits(words[82]))),
        averaged_observed_bitrate: load_average(words, 83),
        last_estimate_update: option(words[88], words[89]),
        last_rtt: option(words[90], words[91]),
    }
}

#[tactic(auto, unfolding(crate::specs::LinkWords::control))]
fn load_control(words: &[u64; 100]) -> DelayController
    ensures { result ≡ Words.control words.now }
{
    DelayController {
        arrival_group_accumulator: load_groups(words),
        trendline_estimator: load_trendline(words),
        rate_control: load_rate_control(words),
        smoothed_rtt: load_average(words, 92),
        next_timeout: words[97],
        last_twcc_report: option(words[98], words[99]),
    }
}

// The link that the words hold, whatever they are.
#[tactic(auto, unfolding(crate::specs::LinkWords::of_words))]
pub fn load(words: &[u64; 100]) -> Link
    ensures { result ≡ Words.of_words words.now }
{
    Link {
        acked: load_acked(words),
        control: load_control(words),
    }
}

// Whether the words are a link's in this format: word 0, and each tag that is read one of its values. Whether the link is in range is question 1's.
// Tests in a row, not `all` over a list of the tags' places: with it the goal `returns` was tried and stayed open.
pub fn formed(words: &[u64; 100]) -> bool
    ensures { result ≡ Words.formed words.now }
{
    (words[0] == 1)
        & (words[3] <= 1)
        & (words[8] <= 1)
        & (words[10] <= 1)
        & (words[12] <= 1)
        & (words[17] <= 1)
        & (words[22] <= 1)
        & (words[70] <= 1)
        & ((words[70] == 0) | (words[72] <= 3))
        & (words[74] <= 1)
        & (words[76] <= 2)
        & (words[77] <= 2)
        & (words[81] <= 1)
        & (words[84] <= 1)
        & (words[88] <= 1)
        & (words[90] <= 1)
        & (words[93] <= 1)
        & (words[98] <= 1)
}

// ---- words of values
// A length's tag and ns. crates/replay has the same tags for the oracle's cases: two formats that agree in this by chance, and either may change alone.
fn time_parts(time: TimeDelta) -> (u64, u64)
    ensures tag { result.0 ≡ Words.time_tag time }
    ensures ns { result.1 ≡ Words.time_ns time }
{
    match time {
        TimeDelta::NegativeInfinity => (0, 0),
        TimeDelta::Negative(ns) => (1, ns),
        TimeDelta::Positive(ns) => (2, ns),
        TimeDelta::PositiveInfinity => (3, 0),
    }
}

// An option's tag and value, or `absent` in the value's place.
fn parts<T: Copy>(option: Option<T>, absent: T) -> (u64, T)
    ensures tag { result.0 ≡ Words.tag option }
    ensures value { result.1 ≡ unwrap_or option absent }
{
    match option {
        None => (0, absent),
        Some(x) => (1, x),
    }
}

// An option's two words at `at`.
fn store_option(words: &mut [u64; 100], at: usize, value: Option<u64>)
    requires { at + 2 ≤ 100 }
    ensures { words.new ≡ sets words.old at (Words.option_words value) }
{
    let (tag, value) = parts(value, 0);
    words[at] = tag;
    words[at + 1] = value;
}

// An average's words from `at` on.
fn store_average(words: &mut [u64; 100], at: usize, average: MovingAverage)
    requires { at + 5 ≤ 100 }
    ensures { words.new ≡ sets words.old at (Words.average_words average) }
{
    words[at] = to_bits(average.smoothing_factor);
    store_option(words, at + 1, average.average.map(to_bits));
    words[at + 3] = to_bits(average.variance);
    words[at + 4] = to_bits(average.std);
}

// A group's words from `at` on.
fn store_group(words: &mut [u64; 100], at: usize, group: Option<ArrivalGroup>)
    requires { at + 5 ≤ 100 }
    ensures { words.new ≡ sets words.old at (Words.group_words group) }
{
    let (tag, times) = parts(group, ArrivalGroup::new(0, 0));
    words[at] = tag;
    words[at + 1] = times.first_local_send_time;
    words[at + 2] = times.first_remote_recv_time;
    words[at + 3] = times.last_local_send_time;
    words[at + 4] = times.last_remote_recv_time;
}

// The bits of 20 floats from a word on. No zip with `words[at..].iter_mut()`: tried, and nothing is known of the words after a loop over that zip.
fn store_floats(words: &mut [u64; 100], at: usize, floats: [f64; 20])
    requires { at + 20 ≤ 100 }
    ensures { words.new ≡ sets words.old at (map (to_bits binary64) floats) }
{
    for (i, x) in floats.iter().enumerate() {
        words[at + i] = to_bits(*x);
    }
}

// ---- words of parts
#[tactic(auto, unfolding(crate::specs::LinkWords::acked_words))]
fn store_acked(words: &mut [u64; 100], a: AckedBitrateEstimator)
    ensures { words.new ≡ sets words.old 1 (Words.acked_words a) }
{
    words[1] = a.initial_window;
    words[2] = a.window;
    store_option(words, 3, a.estimate.map(|rate| to_bits(rate.0)));
    words[5] = to_bits(a.estimate_var);
    words[6] = a.sum.0.cast_unsigned();
    words[7] = a.current_window;
    store_option(words, 8, a.last_update);
}

#[tactic(auto, unfolding(crate::specs::LinkWords::groups_words))]
fn store_groups(words: &mut [u64; 100], a: ArrivalGroupAccumulator)
    ensures { words.new ≡ sets words.old 10 (Words.groups_words a) }
{
    store_option(words, 10, a.send_time_origin);
    store_group(words, 12, a.previous_group);
    store_group(words, 17, a.current_group);
}

#[tactic(auto, using(crate::proofs::Stored::parts))]
fn store_history(words: &mut [u64; 100], h: History)
    ensures { words.new ≡ sets words.old 24 (Words.history_words h) }
{
    store_floats(words, 24, h.times);
    store_floats(words, 44, h.delays);
    words[64] = h.len as u64;
}

#[tactic(auto, unfolding(crate::specs::LinkWords::delays_words))]
fn store_delays(words: &mut [u64; 100], d: Delays)
    ensures { words.new ≡ sets words.old 65 (Words.delays_words d) }
{
    words[65] = d.num_delay_variations;
    words[66] = to_bits(d.accumulated_delay);
    words[67] = to_bits(d.smoothed_delay);
    words[68] = to_bits(d.delay_threshold);
    words[69] = to_bits(d.previous_trend);
}

#[tactic(auto, unfolding(crate::specs::LinkWords::overuse_words))]
fn store_overuse(
    words: &mut [u64; 100],
    overuse: Option<Overuse>,
    last_threshold_update: Option<u64>,
    hypothesis: BandwidthUsage,
)
    ensures { words.new ≡ sets words.old 70 (Words.overuse_words overuse last_threshold_update hypothesis) }
{
    let absent = Overuse {
        count: 0,
        time_overusing: TimeDelta::NegativeInfinity,
    };
    let (tag, values) = parts(overuse, absent);
    words[70] = tag;
    words[71] = values.count;
    let (time_tag, ns) = time_parts(values.time_overusing);
    words[72] = time_tag;
    words[73] = ns;
    store_option(words, 74, last_threshold_update);
    words[76] = hypothesis as u64;
}

#[tactic(auto, using(crate::proofs::Stored::parts))]
fn store_trendline(words: &mut [u64; 100], t: TrendlineEstimator)
    ensures { words.new ≡ sets words.old 22 (Words.trendline_words t) }
{
    store_option(words, 22, t.zero_time);
    store_history(words, t.history);
    store_delays(words, t.delays);
    store_overuse(words, t.overuse, t.last_threshold_update, t.hypothesis);
}

#[tactic(auto, unfolding(crate::specs::LinkWords::rate_control_words))]
fn store_rate_control(words: &mut [u64; 100], c: RateControl)
    ensures { words.new ≡ sets words.old 77 (Words.rate_control_words c) }
{
    words[77] = c.state as u64;
    words[78] = to_bits(c.estimated_bitrate.0);
    words[79] = to_bits(c.min_bitrate.0);
    words[80] = to_bits(c.max_bitrate.0);
    store_option(
        words,
        81,
        c.last_observed_bitrate.map(|rate| to_bits(rate.0)),
    );
    store_average(words, 83, c.averaged_observed_bitrate);
    store_option(words, 88, c.last_estimate_update);
    store_option(words, 90, c.last_rtt);
}

#[tactic(auto, using(crate::proofs::Stored::parts), unfolding(crate::specs::LinkWords::round_trip_words))]
fn store_control(words: &mut [u64; 100], c: DelayController)
    ensures { words.new ≡ sets words.old 10 (Words.control_words c) }
{
    store_groups(words, c.arrival_group_accumulator);
    store_trendline(words, c.trendline_estimator);
    store_rate_control(words, c.rate_control);
    store_average(words, 92, c.smoothed_rtt);
    words[97] = c.next_timeout;
    store_option(words, 98, c.last_twcc_report);
}

// Stores a link's two parts, whatever the words were. No `Link`: C's report has the two apart, and would make one for this call alone.
pub fn store(words: &mut [u64; 100], acked: AckedBitrateEstimator, control: DelayController)
    ensures { words.new ≡ Words.to_words (record { acked = acked; control = control }) }
{
    words[0] = 1;
    store_acked(words, acked);
    store_control(words, control);
}

// Stores what a timeout changes of a link, its rate control and its next timeout. The other words stay.
#[tactic(auto, unfolding(crate::specs::LinkWords::timeout_words))]
pub fn store_timeout(words: &mut [u64; 100], control: DelayController)
    ensures { words.new ≡ Words.timeout_words control words.old }
{
    store_rate_control(words, control.rate_control);
    words[97] = control.next_timeout;
}

// The words of a link.
pub fn words(link: Link) -> [u64; 100]
    ensures { result ≡ Words.to_words link }
{
    let mut words = [0u64; 100];
    store(&mut words, link.acked, link.control);
    words
}

// The operations of tools/oracle/drive.rs on times, rates and sizes, averages, the acknowledged rate and groups, on our side.
use crate::numbers::{delta, delta_parts, option_bits, rate, rate_bits};
use acked_bitrate_estimator::AckedBitrateEstimator;
use arrival_group::{Accumulated, ArrivalGroupAccumulator};
use average::MovingAverage;
use bandwidth::{Bitrate, DataSize};
use cases::Case;
use std::cmp::Ordering;
use time::{TimeDelta, Timestamp};

fn delta_words(d: TimeDelta) -> [u64; 6] {
    let (tag, ns) = delta_parts(d);
    [tag, ns, 0, 0, 0, 0]
}

fn stamp(tag: u64, n: u64) -> Timestamp {
    match tag {
        0 => Timestamp::DistantPast,
        1 => Timestamp::Exact(n),
        _ => Timestamp::DistantFuture,
    }
}

fn stamp_words(t: Timestamp) -> [u64; 6] {
    match t {
        Timestamp::DistantPast => [0; 6],
        Timestamp::Exact(n) => [1, n, 0, 0, 0, 0],
        Timestamp::DistantFuture => [2, 0, 0, 0, 0, 0],
    }
}

// The oracle's numbers: a cast gives -1, 0 and 1.
fn order_number(o: Ordering) -> u64 {
    match o {
        Ordering::Less => 0,
        Ordering::Equal => 1,
        Ordering::Greater => 2,
    }
}

fn size(n: u64) -> DataSize {
    DataSize((n % 0x8000_0000_0000_0000) as i64)
}

fn compare(a: TimeDelta, b: TimeDelta) -> [u64; 6] {
    [
        order_number(a.cmp(&b)),
        (a == b) as u64,
        (a < b) as u64,
        (a <= b) as u64,
        0,
        0,
    ]
}

fn compare_duration(a: TimeDelta, duration: TimeDelta) -> [u64; 6] {
    [
        (a == duration) as u64,
        (a < duration) as u64,
        (a <= duration) as u64,
        0,
        0,
        0,
    ]
}

// A number of either sign, given as a float. Past 10^15, where no case has one, 0.
fn whole(b: u64) -> i64 {
    let x = float_bits::from_bits(b);
    if (-1e15..=1e15).contains(&x) {
        return std::num::saturating_f64_to_i64(x);
    }
    0
}

// Each function below carries out a case's operation and gives our answers. The operations are numbers in the file of cases; each is read in the
// function of its module alone.
pub fn time(i: Case) -> [u64; 6] {
    let a = delta(i.a, i.b);
    let b = delta(i.c, i.d);
    let s = stamp(i.a, i.b);
    let t = stamp(i.c, i.d);
    let n = i.c;
    match i.op {
        1 => delta_words(a + b),
        2 => delta_words(a - b),
        3 => compare(a, b),
        4 => delta_words(a / (n % 0x1_0000_0000) as u32),
        5 => [float_bits::to_bits(a.as_secs_f64()), 0, 0, 0, 0, 0],
        6 => stamp_words(s + b),
        7 => stamp_words(s - b),
        8 => delta_words(s - t),
        9 => [order_number(s.cmp(&t)), s.is_exact() as u64, 0, 0, 0, 0],
        10 => stamp_words(s + n),
        11 => stamp_words(s - n),
        12 => delta_words(s - Timestamp::from(n)),
        13 => [rate_bits(size(n) / a), 0, 0, 0, 0, 0],
        15 => delta_words(TimeDelta::from_secs(whole(i.a))),
        16 => delta_words(TimeDelta::from_millis(whole(i.a))),
        _ => compare_duration(a, TimeDelta::from(n)),
    }
}

fn rate_words(i: Case) -> [u64; 6] {
    let a = rate(i.a);
    let b = rate(i.b);
    [
        rate_bits(a.clamp(rate(i.c), rate(i.d))),
        rate_bits(a * b.as_f64()),
        (a < b) as u64,
        rate_bits(Bitrate::bps(i.e)),
        0,
        0,
    ]
}

fn size_words(i: Case) -> [u64; 6] {
    let a = size(i.a);
    let b = size(i.b);
    [
        float_bits::to_bits(a.as_bytes_f64()),
        (a < b) as u64,
        (a + b < size(i.c)) as u64,
        rate_bits(a / i.d),
        0,
        0,
    ]
}

pub fn bandwidth(i: Case) -> [u64; 6] {
    match i.op {
        80 => rate_words(i),
        _ => size_words(i),
    }
}

pub fn average(m: &mut MovingAverage, i: Case) -> [u64; 6] {
    let x = float_bits::from_bits(i.a);
    match i.op {
        20 => *m = MovingAverage::new(x),
        21 => *m = m.update(x),
        22 => *m = m.reset(),
        _ => (),
    }
    let n = float_bits::from_bits(i.b);
    let probe = float_bits::from_bits(i.c);
    let upper = m.upper_range(n);
    let lower = m.lower_range(n);
    [
        m.get().is_some() as u64
            | (upper.is_some() as u64) << 1
            | (m.within_std(probe, n) as u64) << 2
            | (m.valid() as u64) << 3,
        option_bits(m.get()),
        float_bits::to_bits(m.variance),
        float_bits::to_bits(m.std),
        option_bits(upper),
        option_bits(lower),
    ]
}

pub fn acked(a: &mut AckedBitrateEstimator, i: Case) -> [u64; 6] {
    match i.op {
        30 => *a = AckedBitrateEstimator::new(i.a, i.b),
        31 => *a = a.update(i.a, size(i.b)),
        _ => (),
    }
    let bytes = std::num::saturating_f64_to_u64(a.sum.as_bytes_f64());
    let variance = float_bits::to_bits(a.estimate_var);
    match a.current_estimate() {
        None => [0, 0, variance, bytes, a.current_window, 0],
        Some(e) => [1, rate_bits(e), variance, bytes, a.current_window, 0],
    }
}

pub fn no_groups() -> Accumulated {
    Accumulated {
        accumulator: ArrivalGroupAccumulator::new(),
        delta: None,
    }
}

pub fn groups(g: &mut Accumulated, i: Case) -> [u64; 6] {
    match i.op {
        40 => *g = no_groups(),
        41 => *g = g.accumulator.accumulate_packet(i.a, i.b),
        _ => (),
    }
    let Some(x) = g.delta else {
        return [0; 6];
    };
    let (send_tag, send_ns) = delta_parts(x.send_delta);
    let (arrival_tag, arrival_ns) = delta_parts(x.arrival_delta);
    [
        1,
        send_tag,
        send_ns,
        arrival_tag,
        arrival_ns,
        x.last_remote_recv_time,
    ]
}

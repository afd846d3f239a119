// The operations of tools/oracle/drive.rs on the trendline, the rate control and the delay controller, on our side.
use crate::numbers::{delta, delta_parts, option_bits, rate, rate_bits};
use arrival_group::InterGroupDelayDelta;
use cases::Case;
use control::DelayController;
use rate_control::{RateControl, Signal};
use trendline::TrendlineEstimator;

// The packets that wait for a report, with room for 128: send instants, then remote ones from place 128 on, then local ones from 256 on. One array, no lists on the
// heap: what a report of more than 128 packets takes, and answers, was so when there was no heap, and no input may make it grow.
#[derive(Clone, Copy)]
pub struct Waiting {
    lists: [u64; 384],
    n: usize,
}

impl Waiting {
    pub fn new() -> Self {
        Self {
            lists: [0; 384],
            n: 0,
        }
    }

    fn push(&mut self, i: Case) {
        let n = self.n;
        if n < 128 {
            self.lists[n] = i.a;
            self.lists[n + 128] = i.b;
            self.lists[n + 256] = i.c;
        }
        self.n = n.wrapping_add(1);
    }

    // A packet that finds no room is lost: its answer differs from the oracle's, which is 0.
    fn words(self) -> [u64; 6] {
        [(self.n > 128) as u64, 0, 0, 0, 0, 0]
    }

    // The waiting packets' numbers from a start on. Where there are not so many, which no case reaches, all.
    fn part(&self, start: usize) -> &[u64] {
        let lists = &self.lists;
        lists
            .get(start..)
            .and_then(|rest| rest.get(..self.n))
            .unwrap_or(lists)
    }
}

// Hypothesis with the counts of variations and of overuse. link_replay has one too: what both depend on, `cases`, knows no trendline.
fn trend_word(t: TrendlineEstimator) -> u64 {
    let count = t.hypothesis() as u64 | (t.delays.num_delay_variations << 8);
    match t.overuse {
        None => count,
        Some(o) => {
            let (tag, _) = delta_parts(o.time_overusing);
            count | (o.count << 32) | ((tag % 4 + 1) << 40)
        }
    }
}

fn overusing_ns(t: TrendlineEstimator) -> u64 {
    match t.overuse {
        None => 0,
        Some(o) => delta_parts(o.time_overusing).1,
    }
}

// Each function below carries out a case's operation, a number in the file of cases, and gives our answers.
pub fn trendline(t: &mut TrendlineEstimator, i: Case) -> [u64; 6] {
    let variation = InterGroupDelayDelta {
        send_delta: delta(i.a, i.b),
        arrival_delta: delta(i.c, i.d),
        last_remote_recv_time: i.e,
    };
    match i.op {
        50 => *t = TrendlineEstimator::new(),
        51 => *t = t.add_delay_observation(variation, i.e),
        _ => (),
    }
    let d = t.delays;
    [
        trend_word(*t),
        float_bits::to_bits(d.delay_threshold),
        float_bits::to_bits(d.previous_trend),
        float_bits::to_bits(d.accumulated_delay),
        float_bits::to_bits(d.smoothed_delay),
        overusing_ns(*t),
    ]
}

// The oracle's numbers of a signal. Those of `BandwidthUsage` in link_words are in another order, and of another type.
fn signal(n: u64) -> Signal {
    match n {
        0 => Signal::Overuse,
        1 => Signal::Underuse,
        _ => Signal::Normal,
    }
}

pub fn rate_control(r: &mut RateControl, i: Case) -> [u64; 6] {
    match i.op {
        60 => *r = RateControl::new(rate(i.a), rate(i.b), rate(i.c)),
        61 => {
            let observed = (i.c == 1).then_some(i.d);
            *r = r.update(signal(i.a), rate(i.b), observed, i.e);
        }
        62 => *r = r.set_probe_result(rate(i.a), i.b),
        _ => (),
    }
    let m = r.averaged_observed_bitrate;
    [
        rate_bits(r.estimated_bitrate()),
        r.state as u64,
        m.valid() as u64,
        option_bits(m.get()),
        float_bits::to_bits(m.variance),
        float_bits::to_bits(m.std),
    ]
}

fn report(c: DelayController, w: &Waiting, i: Case) -> DelayController {
    c.update(
        w.part(0),
        w.part(128),
        w.part(256),
        (i.a % 2 == 1).then_some(rate(i.b)),
        (i.a / 2 == 1).then_some(rate(i.c)),
        i.d,
    )
}

fn control_words(c: DelayController) -> [u64; 6] {
    let trendline = c.trendline_estimator;
    let rtt = c.get_smoothed_rtt();
    [
        rate_bits(c.last_estimate()),
        trend_word(trendline),
        c.poll_timeout(),
        float_bits::to_bits(trendline.delays.delay_threshold),
        rtt.is_some() as u64,
        rtt.unwrap_or(0),
    ]
}

// A packet waits for its report, and its answers are 0.
pub fn control(c: &mut DelayController, w: &mut Waiting, i: Case) -> [u64; 6] {
    match i.op {
        70 => *c = DelayController::new(rate(i.a)),
        71 => {
            w.push(i);
            return w.words();
        }
        72 => {
            *c = report(*c, w, i);
            *w = Waiting::new();
        }
        73 => *c = c.handle_timeout((i.a == 1).then_some(rate(i.b)), i.c),
        _ => (),
    }
    control_words(*c)
}

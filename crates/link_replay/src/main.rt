// Replays cases of whole links (tools/oracle, module link) from standard input and compares every answer to the bit. A case is 12 words of 8 bytes,
// little-endian: an operation, 5 inputs, 6 answers; a packet waits for its report and its answers are 0. Prints how many cases and how many of them differ, how many
// of them are packets, and the first case that differs.
#![tactic(auto)]

use acked_bitrate_estimator::AckedBitrateEstimator;
use bandwidth::Bitrate;
use cases::{Case, Counts};
use control::DelayController;
use float_bits::{from_bits, to_bits};
use link::{Called, Opening};
use link_state::Link;
use questions::{Refusal, Report};
use std::alloc::{AllocError, Global};
use std::io;
use time::TimeDelta;
use trendline::TrendlineEstimator;

// The oracle's tags of an overuse's length; 0 is no overuse. An enum whose variants hold values has no cast.
fn delta_tag(d: TimeDelta) -> u64 {
    match d {
        TimeDelta::NegativeInfinity => 1,
        TimeDelta::Negative(_) => 2,
        TimeDelta::Positive(_) => 3,
        TimeDelta::PositiveInfinity => 4,
    }
}

// Hypothesis with the counts of variations and of overuse. `replay` has one too: `cases`, the home of what they share, knows no trendline.
fn trend_word(t: TrendlineEstimator) -> u64 {
    let d = t.delays;
    let count = t.hypothesis() as u64 | (d.num_delay_variations << 8);
    match t.overuse {
        None => count,
        Some(o) => count | (o.count << 32) | (delta_tag(o.time_overusing) << 40),
    }
}

fn shown(answer: Result<(), Refusal>, link: Link) -> [u64; 6] {
    let control = link.control;
    let trendline = control.trendline_estimator;
    let acked = link.acked.current_estimate();
    [
        questions::number(answer),
        to_bits(control.last_estimate().as_f64()),
        trend_word(trendline),
        control.poll_timeout(),
        to_bits(trendline.delays.delay_threshold),
        acked.map_or(0, |rate| to_bits(rate.as_f64())),
    ]
}

// More packets than a report may have.
const ROOM: usize = 1100;

// The packets that wait for a report, as it lends them: list by list.
#[derive(Drop)]
struct Packets {
    sequences: Vec<u64>,
    sizes: Vec<u64>,
    sends: Vec<u64>,
    remotes: Vec<u64>,
    receives: Vec<u64>,
}

impl Packets {
    fn new(alloc: Global) -> Self {
        Self {
            sequences: Vec::new(alloc),
            sizes: Vec::new(alloc),
            sends: Vec::new(alloc),
            remotes: Vec::new(alloc),
            receives: Vec::new(alloc),
        }
    }

    // Whether the packet found room. So many are too many for a report, however many more there are.
    fn push(&mut self, i: Case) -> Result<bool, AllocError> {
        if self.sequences.len() >= ROOM {
            return Ok(false);
        }
        self.sequences.push(i.a)?;
        self.sizes.push(i.b)?;
        self.sends.push(i.c)?;
        self.remotes.push(i.d)?;
        self.receives.push(i.e)?;
        Ok(true)
    }

    fn clear(&mut self) {
        self.sequences.clear();
        self.sizes.clear();
        self.sends.clear();
        self.remotes.clear();
        self.receives.clear();
    }
}

// A list, or all but its last where it is the one that is short.
fn list(list: &[u64], number: u64, short: u64) -> &[u64] {
    match list.split_last() {
        Some((_, rest)) if number == short => rest,
        _ => list,
    }
}

fn report(link: Link, packets: &Packets, i: Case) -> Called {
    let report = Report {
        sequences: list(&packets.sequences, 1, i.d),
        sizes: list(&packets.sizes, 2, i.d),
        sends: list(&packets.sends, 3, i.d),
        remotes: list(&packets.remotes, 4, i.d),
        receives: list(&packets.receives, 5, i.d),
        probe: (i.a == 1).then(|| Bitrate(from_bits(i.b))),
        moment: i.c,
    };
    link::report(link, report)
}

// The link after some cases, the packets that wait for a report, and the counts.
#[derive(Drop)]
struct Replay {
    link: Link,
    packets: Packets,
    counts: Counts,
}

impl Replay {
    fn new(alloc: Global) -> Self {
        // Put together here, as in the other programs: `cases`, the home of what they share, knows no link.
        let acked = AckedBitrateEstimator::new(500_000_000, 150_000_000);
        let control = DelayController::new(Bitrate(1_000_000.0));
        Self {
            link: Link { acked, control },
            packets: Packets::new(alloc),
            counts: Counts::new(),
        }
    }

    fn open(&mut self, i: Case) -> Result<(), Refusal> {
        let opening = Opening::judge(Bitrate(from_bits(i.a)), i.b, i.c)?;
        self.link = opening.link();
        Ok(())
    }

    fn take(&mut self, called: Called) -> Result<(), Refusal> {
        self.link = called.link;
        called.answer.map(|_| ())
    }

    // The operations are numbers in the file of cases, and are read here alone.
    fn run(&mut self, i: Case) -> Result<(), AllocError> {
        let answer = match i.op {
            90 => self.open(i),
            91 => {
                // A packet that finds no room differs from the oracle's.
                let lost = !self.packets.push(i)?;
                self.counts = self
                    .counts
                    .counted(1, i.agrees([lost as u64, 0, 0, 0, 0, 0]));
                return Ok(());
            }
            92 => {
                let called = report(self.link, &self.packets, i);
                self.packets.clear();
                self.take(called)
            }
            93 => self.take(link::timeout(self.link, i.a)),
            _ => Ok(()),
        };
        self.counts = self.counts.counted(0, i.agrees(shown(answer, self.link)));
        Ok(())
    }
}

fn main(rt: HostRuntime) -> io::Result<()> {
    let mut input = rt.reader();
    let mut replay = Replay::new(rt.alloc());
    // Each program that reads cases has this loop: the contract of one in `cases` would have to say of which cases of the input the closure was called.
    for _ in 0..1_000_000_000u64 {
        let mut bytes = [0u8; 96];
        if reading::read_full(&mut input, &mut bytes)? < 96 {
            break;
        }
        replay.run(Case::read(&bytes))?;
    }
    replay.counts.print_all(&rt, b"link")
}

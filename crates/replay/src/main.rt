// Replays cases of the oracle (tools/oracle) from standard input and compares every answer to the bit. A case is 12 words of 8 bytes,
// little-endian: an operation, 5 inputs, 6 answers. A line a module: its name, how many cases, how many differ. Then the first case that differs.
#![tactic(auto)]

mod delay;
mod numbers;
mod quantities;

ghost use Rattle.std.specs.Prelude.{◌<◌};

use acked_bitrate_estimator::AckedBitrateEstimator;
use arrival_group::Accumulated;
use average::MovingAverage;
use bandwidth::Bitrate;
use cases::{Case, Counts};
use control::DelayController;
use delay::Waiting;
use rate_control::RateControl;
use std::io;
use trendline::TrendlineEstimator;

// The module of an operation: they have ten numbers each, from 1 on for time, then from 20 on.
fn module(op: u64) -> usize
    ensures { result < 8 }
{
    if op < 20 {
        return 0;
    }
    if op < 90 {
        return (op / 10) as usize - 1;
    }
    7
}

const NAMES: [&str; 8] = [
    "time",
    "average",
    "acked_bitrate_estimator",
    "arrival_group",
    "trendline",
    "rate_control",
    "control",
    "bandwidth",
];

// The counts of each of the eight modules, and of all.
#[derive(Clone, Copy)]
struct Modules {
    counts: [Counts; 8],
    all: Counts,
}

impl Modules {
    fn new() -> Self {
        let none = Counts::new();
        Self {
            counts: [none; 8],
            all: none,
        }
    }

    // With one case more, which our side answers so.
    fn counted(self, i: Case, answers: [u64; 6]) -> Self {
        let agrees = i.agrees(answers);
        let m = module(i.op);
        let mut next = self;
        next.counts[m] = next.counts[m].counted(0, agrees);
        next.all = next.all.counted(0, agrees);
        next
    }

    fn print(self, rt: &impl Print) -> io::Result<()> {
        for (counts, name) in self.counts.iter().zip(&NAMES) {
            counts.print(rt, name.as_bytes())?;
        }
        self.all.print_first(rt)
    }
}

// What the operations of each module work on.
#[derive(Clone, Copy)]
struct States {
    average: MovingAverage,
    acked: AckedBitrateEstimator,
    groups: Accumulated,
    trendline: TrendlineEstimator,
    rate: RateControl,
    control: DelayController,
    waiting: Waiting,
}

impl States {
    fn new() -> Self {
        let start = Bitrate(1_000_000.0);
        Self {
            average: MovingAverage::new(0.95),
            acked: AckedBitrateEstimator::new(500_000_000, 150_000_000),
            groups: quantities::no_groups(),
            trendline: TrendlineEstimator::new(),
            rate: RateControl::new(start, Bitrate::MIN_ESTIMATE, Bitrate::MAX_ESTIMATE),
            control: DelayController::new(start),
            waiting: Waiting::new(),
        }
    }

    // Carries out a case's operation and gives our answers.
    fn run(&mut self, i: Case) -> [u64; 6] {
        // The operations are numbers in the file of cases, and a range of them is a module's.
        match i.op {
            0..20 => quantities::time(i),
            20..30 => quantities::average(&mut self.average, i),
            30..40 => quantities::acked(&mut self.acked, i),
            40..50 => quantities::groups(&mut self.groups, i),
            50..60 => delay::trendline(&mut self.trendline, i),
            60..70 => delay::rate_control(&mut self.rate, i),
            70..80 => delay::control(&mut self.control, &mut self.waiting, i),
            _ => quantities::bandwidth(i),
        }
    }
}

fn main(rt: HostRuntime) -> io::Result<()> {
    let mut input = rt.reader();
    let mut states = States::new();
    let mut modules = Modules::new();
    // Each program that reads cases has this loop: the contract of one in `cases` would have to say of which cases of the input the closure was called.
    for _ in 0..1_000_000_000u64 {
        let mut bytes = [0u8; 96];
        if reading::read_full(&mut input, &mut bytes)? < 96 {
            break;
        }
        let case = Case::read(&bytes);
        let answers = states.run(case);
        modules = modules.counted(case, answers);
    }
    modules.print(&rt)
}

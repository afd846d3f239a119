// Runs the rows of document 01 that are not theorems, and prints what each gives. Order 3 of document 02 moves none of them.
#![tactic(auto)]

use acked_bitrate_estimator::AckedBitrateEstimator;
use arrival_group::ArrivalGroup;
use bandwidth::{Bitrate, DataSize};
use control::DelayController;
use link_state::Link;
use questions::Report;
use std::io;
use trendline::Delays;

// Two packets of which the second is sent and received so many ns after the first.
fn group(rt: &impl Print, name: &str, spacing: u64) -> io::Result<()> {
    let first = ArrivalGroup::new(0, 0);
    if first.add_packet(spacing, spacing).is_none() {
        return println!(rt; "{name}: starts anew");
    }
    println!(rt; "{name}: joins")
}

// 1,000 bytes at 0 and at 500 ms, with windows of 500 and 150 ms.
fn window(rt: &impl Print, name: &str) -> io::Result<()> {
    let empty = AckedBitrateEstimator::new(500_000_000, 150_000_000);
    let once = empty.update(0, DataSize::bytes(1000));
    let estimate = once
        .update(500_000_000, DataSize::bytes(1000))
        .current_estimate();
    if estimate.is_none() {
        return println!(rt; "{name}: no sample");
    }
    println!(rt; "{name}: a sample")
}

// The threshold of 12.5 ms, 100 ms after its last update.
fn threshold(rt: &impl Print, name: &str, modified_trend: f64) -> io::Result<()> {
    let delays = Delays::new();
    if delays.threshold(modified_trend, 100_000_000) == delays.delay_threshold {
        return println!(rt; "{name}: stays");
    }
    println!(rt; "{name}: adapts")
}

// Put together here, as in the other programs: they have no crate of their own that knows a link.
fn fresh() -> Link {
    Link {
        acked: AckedBitrateEstimator::new(500_000_000, 150_000_000),
        control: DelayController::new(Bitrate(1_000_000.0)),
    }
}

// A report of packets of one byte, all sent and received at 0, to a fresh link.
fn packets(rt: &impl Print, name: &str, sizes: &[u64], instants: &[u64]) -> io::Result<()> {
    let report = Report {
        sequences: instants,
        sizes,
        sends: instants,
        remotes: instants,
        receives: instants,
        probe: None,
        moment: 0,
    };
    let number = questions::number(link::report(fresh(), report).answer);
    println!(rt; "{name}: {number}")
}

fn main(rt: HostRuntime) -> io::Result<()> {
    group(&rt, "send and remote spacing of 5 ms", 5_000_000)?;
    group(&rt, "send and remote spacing of 6 ms", 6_000_000)?;
    window(&rt, "sizes at 0 and 500 ms only")?;
    threshold(&rt, "modified trend 27.5", 27.5)?;
    threshold(
        &rt,
        "modified trend 27.5, and a unit in the last place more",
        27.500000000000004,
    )?;
    packets(&rt, "1,024 packets", &[1u64; 1024], &[0u64; 1024])?;
    packets(&rt, "1,025 packets", &[1u64; 1025], &[0u64; 1025])
}

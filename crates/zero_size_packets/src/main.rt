// The user's failure, on this link: empty packets in the first half second, then a clean line, one second of congestion, and a clean line again. Packets of
// size 0 are refused; packets of size 1 are taken. Either way the estimate recovers. The Rust, fed the empty packets, stays at 60,000 bps.
#![tactic(auto)]

use bandwidth::Bitrate;
use link::{Called, Opening};
use link_state::Link;
use questions::Report;
use std::{array, io};

// How long a packet that was sent at so many ms waits, in ms: from 3 to 4 s each one waits 3 ms longer than the one before.
fn queue(send: u64) -> u64 {
    if (3000..4000).contains(&send) {
        return ((send - 3000) / 5 + 1) * 3;
    }
    0
}

// ns of so many ms after the link was opened.
fn ns(ms: u64) -> u64 {
    if ms > 1_000_000 {
        return 0;
    }
    (1000 + ms) * 1_000_000
}

// When packet i of a report is sent: one every 5 ms, 10 a report.
fn sent(report: u64, i: u64) -> u64 {
    if (report > 2000) | (i > 10) {
        return 0;
    }
    report * 50 + i * 5
}

fn size(send: u64, first_size: u64) -> u64 {
    if send < 500 {
        return first_size;
    }
    1200
}

// The report of that number, of ten packets, taken at a moment. A packet's sequence is the ms at which it is sent.
fn report(link: Link, number: u64, first_size: u64, moment: u64) -> Called {
    let sequences: [u64; 10] = array::from_fn(|i| sent(number, i as u64));
    let arrivals = sequences.map(|send| send.wrapping_add(queue(send)));
    let sizes = sequences.map(|send| size(send, first_size));
    let sends = sequences.map(ns);
    let remotes = arrivals.map(|arrival| ns(arrival.wrapping_add(20)));
    let receives = arrivals.map(|arrival| ns(arrival.wrapping_add(40)));
    let report = Report {
        sequences: &sequences,
        sizes: &sizes,
        sends: &sends,
        remotes: &remotes,
        receives: &receives,
        probe: None,
        moment,
    };
    link::report(link, report)
}

// When a report is taken: 100 ms after its first packet was sent.
fn taken(report: u64) -> u64 {
    ns(sent(report, 0).wrapping_add(100))
}

// In bps.
fn estimate(link: Link) -> u64 {
    let control = link.control;
    std::num::saturating_f64_to_u64(control.last_estimate().as_f64())
}

fn is_shown(number: u64) -> bool {
    matches!(number, 19 | 59 | 79 | 199 | 399 | 799 | 1199)
}

// What stands after a report, where it is shown.
fn show(rt: &impl Print, number: u64, bps: u64, refused: u64) -> io::Result<()> {
    if !is_shown(number) {
        return Ok(());
    }
    let seconds = number / 20 + 1;
    println!(rt; "{seconds} s: estimate {bps} bps, reports refused so far: {refused}")
}

// The link, and how many reports it refused.
#[derive(Clone, Copy)]
struct State {
    link: Link,
    refused: u64,
}

fn next(rt: &impl Print, number: u64, first_size: u64, state: State) -> io::Result<State> {
    let called = report(state.link, number, first_size, taken(number));
    let link = called.link;
    let refused = state.refused.wrapping_add(called.answer.is_err() as u64);
    show(rt, number, estimate(link), refused)?;
    Ok(State { link, refused })
}

fn pass(rt: &impl Print, link: Link, first_size: u64) -> io::Result<()> {
    let mut state = State { link, refused: 0 };
    for number in 0..1200u64 {
        state = next(rt, number, first_size, state)?;
    }
    Ok(())
}

fn run(rt: &impl Print, name: &str, first_size: u64) -> io::Result<()> {
    println!(rt; "{name}")?;
    match Opening::judge(Bitrate(1_000_000.0), 500_000_000, 150_000_000) {
        Ok(opening) => pass(rt, opening.link(), first_size),
        Err(_) => println!(rt; "refused"),
    }
}

fn main(rt: HostRuntime) -> io::Result<()> {
    run(&rt, "size 0 in the first half second", 0)?;
    run(&rt, "size 1 in the first half second", 1)
}

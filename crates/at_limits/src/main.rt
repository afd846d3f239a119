// Limits that no stored case of the oracle reaches: the codes that C gets with lent links; lines and numbers alone on a line; question 1 before the others; and
// public functions at limits that a link does not ask of them. Prints what each gives.
#![tactic(auto)]

use acked_bitrate_estimator::AckedBitrateEstimator;
use arrival_group::{ArrivalGroup, InterGroupDelayDelta};
use bandwidth::{BandwidthUsage, Bitrate, DataSize};
use control::DelayController;
use link_state::Link;
use listing_line::Line;
use pass_records::Record;
use questions::Report;
use receive_order::Keys;
use std::io;
use time::{TimeDelta, Timestamp};
use trendline::{Delays, TrendlineEstimator};

fn text(rt: &impl Print, t: &[u8]) -> io::Result<()> {
    rt.write_all(t)
}

// Prints a number, of whatever kind.
fn number(rt: &impl Print, n: u64) -> io::Result<()> {
    print!(rt; " {n}")
}

fn yes_or_no(rt: &impl Print, yes: bool) -> io::Result<()> {
    if yes {
        text(rt, b" yes")
    } else {
        text(rt, b" no")
    }
}

// ---- C's calls on a lent link: an array of 100 words, since C lends so many
// Whether an opening gives C a code, and words are stored only with 0.
fn open(
    rt: &impl Print,
    start_bitrate: f64,
    initial_window: u64,
    window: u64,
    expected: i64,
) -> io::Result<()> {
    let before = [7u64; 100];
    let mut link = [7u64; 100];
    let code = c_api::hornetpewter_open(&mut link, start_bitrate, initial_window, window);
    if code == 0 {
        return yes_or_no(rt, (expected == 0) & (link[0] == 1) & (link != before));
    }
    yes_or_no(rt, (code == expected) & (link == before))
}

fn openings(rt: &impl Print) -> io::Result<()> {
    text(
        rt,
        b"C opens a link at the float below 40,000 bps, 40,000, 10^10, the float above it, 0 bps with windows of 0:",
    )?;
    open(rt, 39_999.99999999999, 500_000_000, 150_000_000, -2)?;
    open(rt, 40_000.0, 500_000_000, 150_000_000, 0)?;
    open(rt, 10_000_000_000.0, 500_000_000, 150_000_000, 0)?;
    open(rt, 10_000_000_000.000002, 500_000_000, 150_000_000, -2)?;
    open(rt, 0.0, 0, 0, -2)?;
    text(
        rt,
        b"\nwith windows of 1 ms and 10 s, 0 and 1 ms, 1 ms and 0, 1 ms and a ns more, 10 s and 1 ms more:",
    )?;
    open(rt, 1_000_000.0, 1_000_000, 10_000_000_000, 0)?;
    open(rt, 1_000_000.0, 0, 1_000_000, -3)?;
    open(rt, 1_000_000.0, 1_000_000, 0, -3)?;
    open(rt, 1_000_000.0, 1_000_001, 1_000_000, -3)?;
    open(rt, 1_000_000.0, 1_000_000, 10_001_000_000, -3)?;
    text(rt, b"\n")
}

// The words of a link at 1,000,000 bps, with one of them set.
fn lent(word: usize, value: u64) -> [u64; 100] {
    let mut link = [0u64; 100];
    c_api::hornetpewter_open(&mut link, 1_000_000.0, 500_000_000, 150_000_000);
    if word < 100 {
        link[word] = value;
    }
    link
}

// The places that C lends for an estimate.
#[derive(Clone, Copy, PartialEq)]
struct Places {
    bitrate: f64,
    hypothesis: u32,
    next_timeout: u64,
}

impl Places {
    // As they are before a call.
    fn new() -> Self {
        Self {
            bitrate: 7.0,
            hypothesis: 7,
            next_timeout: 7,
        }
    }

    fn print(self, rt: &impl Print) -> io::Result<()> {
        number(rt, self.hypothesis as u64)?;
        number(rt, self.next_timeout)
    }
}

// Whether a call gave C a code, and left what it has to: after 0 what a read of the link tells, else all as it was.
fn left(
    rt: &impl Print,
    code: i64,
    expected: i64,
    before: &[u64; 100],
    link: &[u64; 100],
    places: Places,
) -> io::Result<()> {
    let mut told = Places::new();
    let mut threshold = 7.0;
    if code == 0 {
        let read = c_api::hornetpewter_read(
            link,
            &mut told.bitrate,
            &mut told.hypothesis,
            &mut told.next_timeout,
            &mut threshold,
        );
        return yes_or_no(rt, (expected == 0) & (read == 0) & (places == told));
    }
    yes_or_no(
        rt,
        (code == expected) & (*link == *before) & (places == told),
    )
}

// has_probe and probe are as C gives them.
fn lent_report(
    rt: &impl Print,
    sequences: &[u64],
    sizes: &[u64],
    instants: &[u64],
    has_probe: u32,
    probe: f64,
    moment: u64,
    expected: i64,
) -> io::Result<()> {
    let before = lent(0, 1);
    let mut link = before;
    let mut places = Places::new();
    let code = c_api::hornetpewter_report(
        &mut link,
        sequences,
        sizes,
        instants,
        instants,
        instants,
        has_probe,
        probe,
        moment,
        &mut places.bitrate,
        &mut places.hypothesis,
        &mut places.next_timeout,
    );
    left(rt, code, expected, &before, &link, places)
}

fn lent_timeout(
    rt: &impl Print,
    word: usize,
    value: u64,
    moment: u64,
    expected: i64,
) -> io::Result<()> {
    let before = lent(word, value);
    let mut link = before;
    let mut places = Places::new();
    let code = c_api::hornetpewter_timeout(
        &mut link,
        moment,
        &mut places.bitrate,
        &mut places.hypothesis,
        &mut places.next_timeout,
    );
    left(rt, code, expected, &before, &link, places)
}

// Of one packet.
fn lent_packet(
    rt: &impl Print,
    size: u64,
    instant: u64,
    has_probe: u32,
    probe: f64,
    moment: u64,
    expected: i64,
) -> io::Result<()> {
    lent_report(
        rt,
        &[1],
        &[size],
        &[instant],
        has_probe,
        probe,
        moment,
        expected,
    )
}

// Of two packets at two instants.
fn lent_pair(
    rt: &impl Print,
    sizes: &[u64],
    first: u64,
    second: u64,
    expected: i64,
) -> io::Result<()> {
    lent_report(rt, &[1, 2], sizes, &[first, second], 0, 0.0, 0, expected)
}

fn reports(rt: &impl Print) -> io::Result<()> {
    text(
        rt,
        b"C's code for a report that is accepted, and that 4 to 9 turn down:",
    )?;
    lent_pair(rt, &[1, 1], 5, 6, 0)?;
    lent_pair(rt, &[1], 5, 6, -4)?;
    lent_packet(rt, 1, 1_000_000_000_000_000_001, 0, 0.0, 0, -5)?;
    lent_packet(rt, 0, 5, 0, 0.0, 0, -6)?;
    lent_packet(rt, 1, 5, 0, 0.0, 1, -7)?;
    lent_packet(rt, 1, 5, 1, -1.0, 0, -8)?;
    lent_packet(rt, 2_147_483_648, 5, 0, 0.0, 0, -9)?;
    text(
        rt,
        b"\nin disorder, accepted, 4 and 9; a probe of -1 bps with the flags 0 and 2, of 0 and of 10^14 bps:",
    )?;
    lent_pair(rt, &[1, 1], 6, 5, 0)?;
    lent_pair(rt, &[1], 6, 5, -4)?;
    lent_pair(rt, &[1, 2_147_483_647], 6, 5, -9)?;
    lent_packet(rt, 1, 5, 0, -1.0, 0, 0)?;
    lent_packet(rt, 1, 5, 2, -1.0, 0, -8)?;
    lent_packet(rt, 1, 5, 1, 0.0, 0, 0)?;
    lent_packet(rt, 1, 5, 2, 100_000_000_000_000.0, 0, 0)?;
    text(rt, b"\n")
}

fn timeouts(rt: &impl Print) -> io::Result<()> {
    text(
        rt,
        b"for a timeout at 0 with the formats 1, 0 and 2; at 1 ns, with format 2 too; at 10^18, 1 ms more:",
    )?;
    lent_timeout(rt, 0, 1, 0, 0)?;
    lent_timeout(rt, 0, 0, 0, -1)?;
    lent_timeout(rt, 0, 2, 0, -1)?;
    lent_timeout(rt, 0, 1, 1, -7)?;
    lent_timeout(rt, 0, 2, 1, -1)?;
    lent_timeout(rt, 0, 1, 1_000_000_000_000_000_000, 0)?;
    lent_timeout(rt, 0, 1, 1_000_000_000_001_000_000, -7)?;
    text(
        rt,
        b"\nwith the tags of estimate, overuse, hypothesis and state one past the last, and the time's tag of no overuse; with an estimate out of range:",
    )?;
    lent_timeout(rt, 3, 2, 0, -1)?;
    lent_timeout(rt, 70, 2, 0, -1)?;
    lent_timeout(rt, 76, 3, 0, -1)?;
    lent_timeout(rt, 77, 3, 0, -1)?;
    lent_timeout(rt, 72, 4, 0, 0)?;
    lent_timeout(rt, 78, 0, 0, -1)?;
    text(rt, b"\n")
}

// What C reads of words: code as expected, rate and threshold as expected, hypothesis, next timeout.
fn read(
    rt: &impl Print,
    word: usize,
    value: u64,
    expected: i64,
    rate: f64,
    expected_threshold: f64,
) -> io::Result<()> {
    let link = lent(word, value);
    let mut places = Places::new();
    let mut threshold = 7.0;
    let code = c_api::hornetpewter_read(
        &link,
        &mut places.bitrate,
        &mut places.hypothesis,
        &mut places.next_timeout,
        &mut threshold,
    );
    yes_or_no(
        rt,
        (code == expected) & (places.bitrate == rate) & (threshold == expected_threshold),
    )?;
    places.print(rt)
}

// The example of document 01, by calls: a timeout at 1 s, then a report of no packets with a probe of 2,000,000 bps at 1.01 s.
fn example(rt: &impl Print) -> io::Result<()> {
    let none: &[u64] = &[];
    let mut link = lent(0, 1);
    let mut places = Places::new();
    let first = c_api::hornetpewter_timeout(
        &mut link,
        1_000_000_000,
        &mut places.bitrate,
        &mut places.hypothesis,
        &mut places.next_timeout,
    );
    yes_or_no(rt, (first == 0) & (places.bitrate == 1_000_000.0))?;
    places.print(rt)?;
    let second = c_api::hornetpewter_report(
        &mut link,
        none,
        none,
        none,
        none,
        none,
        1,
        2_000_000.0,
        1_010_000_000,
        &mut places.bitrate,
        &mut places.hypothesis,
        &mut places.next_timeout,
    );
    yes_or_no(rt, (second == 0) & (places.bitrate == 2_000_000.0))?;
    places.print(rt)
}

fn reads(rt: &impl Print) -> io::Result<()> {
    text(
        rt,
        b"C reads a link that was opened, with the formats 0 and 2, with a threshold out of range:",
    )?;
    read(rt, 0, 1, 0, 1_000_000.0, 12.5)?;
    read(rt, 0, 0, -1, 7.0, 7.0)?;
    read(rt, 0, 2, -1, 7.0, 7.0)?;
    read(rt, 68, 0, -1, 7.0, 7.0)?;
    text(rt, b"\nthe example of document 01, by C's calls:")?;
    example(rt)?;
    text(rt, b"\n")
}

// ---- lines
// What was written up to a place.
fn shown(rt: &impl Print, out: &[u8], end: usize) -> io::Result<()> {
    match out.get(..end) {
        None => Ok(()),
        Some(written) => text(rt, written),
    }
}

fn line(
    rt: &impl Print,
    out: &mut [u8],
    record: u64,
    refusal: u64,
    next_timeout: u64,
) -> io::Result<()> {
    let bits = 0x0123_4567_89ab_cdef;
    let line = Line {
        record_number: record,
        refusal,
        letter: b'O',
        bits,
        next_timeout,
    };
    let end = line.put(out, 0);
    shown(rt, out, end)
}

fn number_line(rt: &impl Print, out: &mut [u8], n: u64) -> io::Result<()> {
    let end = listing_line::put_number(out, 0, n);
    shown(rt, out, end)
}

// The second of either has no room: a line is put into an array that the caller lends.
fn lines(rt: &impl Print) -> io::Result<()> {
    let mut out = [0u8; 80];
    line(rt, &mut [0u8; 25], 1, 0, 0)?;
    line(rt, &mut [0u8; 24], 2, 0, 0)?;
    line(rt, &mut out, 9, 9, 9)?;
    line(rt, &mut out, 10, 10, 10)?;
    line(rt, &mut out, 1365, 13, 1_000_000_000_025_000_000)?;
    line(
        rt,
        &mut out,
        9_999_999_999_999_999_999,
        12,
        18_446_744_073_709_551_615,
    )?;
    line(
        rt,
        &mut out,
        10_000_000_000_000_000_000,
        11,
        999_999_999_999_999_999,
    )?;
    number_line(rt, &mut [0u8; 3], 10)?;
    number_line(rt, &mut [0u8; 2], 11)?;
    number_line(rt, &mut out, 12)?;
    number_line(rt, &mut out, 13)?;
    number_line(rt, &mut out, 9)
}

// ---- question 1, asked first
// A link whose estimate is below its limit. No opening makes one, so it is put together here, as `pass_file` does with the link that it opens.
fn out_of_range() -> Link {
    let acked = AckedBitrateEstimator::new(500_000_000, 150_000_000);
    let control = DelayController::new(Bitrate(39_999.0));
    Link { acked, control }
}

fn report(
    rt: &impl Print,
    sequences: &[u64],
    sizes: &[u64],
    instants: &[u64],
    moment: u64,
) -> io::Result<()> {
    let report = Report {
        sequences,
        sizes,
        sends: instants,
        remotes: instants,
        receives: instants,
        probe: None,
        moment,
    };
    let called = link::report(out_of_range(), report);
    number(rt, questions::number(called.answer))
}

fn timeout(rt: &impl Print, moment: u64) -> io::Result<()> {
    let called = link::timeout(out_of_range(), moment);
    number(rt, questions::number(called.answer))
}

// Whether a report that question 9 turns down leaves the estimator as it was.
fn too_many_bytes(rt: &impl Print) -> io::Result<()> {
    let acked = AckedBitrateEstimator::new(500_000_000, 150_000_000);
    let report = Report {
        sequences: &[1, 2],
        sizes: &[1, 2_147_483_647],
        sends: &[5, 6],
        remotes: &[5, 6],
        receives: &[5, 6],
        probe: None,
        moment: 0,
    };
    let after = link::judge_report(acked, report).unwrap_or(acked);
    yes_or_no(rt, after.sum.0 == 0)
}

// Of one packet.
fn packet(rt: &impl Print, size: u64, instant: u64, moment: u64) -> io::Result<()> {
    report(rt, &[1], &[size], &[instant], moment)
}

fn first(rt: &impl Print) -> io::Result<()> {
    text(
        rt,
        b"1 and 4, 1 and 4 in disorder, 1 and 5, 1 and 6, 1 and 7, 1 and 9; timeout, 1 and 7:",
    )?;
    report(rt, &[1, 2], &[1], &[5, 6], 0)?;
    report(rt, &[1, 2], &[1], &[6, 5], 0)?;
    packet(rt, 1, 1_000_000_000_000_000_001, 0)?;
    packet(rt, 0, 5, 0)?;
    packet(rt, 1, 5, 1)?;
    packet(rt, 2_147_483_648, 5, 0)?;
    timeout(rt, 1)?;
    text(rt, b"\nquestion 9 leaves the byte sum:")?;
    too_many_bytes(rt)?;
    text(rt, b"\n")
}

// ---- public functions
// Whether a packet so many ns after the first, sent and received, needs a new group.
fn group(rt: &impl Print, spacing: u64) -> io::Result<()> {
    let first = ArrivalGroup::new(0, 0);
    yes_or_no(rt, first.add_packet(spacing, spacing).is_none())
}

// Whether a modified trend takes a threshold to another, 100 ms after its last update.
fn threshold(
    rt: &impl Print,
    delay_threshold: f64,
    modified_trend: f64,
    expected: f64,
) -> io::Result<()> {
    let mut delays = Delays::new();
    delays.delay_threshold = delay_threshold;
    yes_or_no(
        rt,
        delays.threshold(modified_trend, 100_000_000) == expected,
    )
}

// Whether the threshold is updated by the delay that fills the history, after so many delays, and the hypothesis is then normal.
fn variations(rt: &impl Print, n: u64) -> io::Result<()> {
    let mut trendline = TrendlineEstimator::new();
    trendline.history.len = 19;
    trendline.delays.num_delay_variations = n;
    let variation = InterGroupDelayDelta {
        send_delta: TimeDelta::ZERO,
        arrival_delta: TimeDelta::ZERO,
        last_remote_recv_time: 0,
    };
    let after = trendline.add_delay_observation(variation, 0);
    yes_or_no(rt, after.last_threshold_update.is_some())?;
    yes_or_no(rt, matches!(after.hypothesis(), BandwidthUsage::Normal))
}

// Equal, less, less or equal.
fn instants(rt: &impl Print, a: u64, b: u64) -> io::Result<()> {
    let s = Timestamp::from(a);
    let t = Timestamp::from(b);
    yes_or_no(rt, s == t)?;
    yes_or_no(rt, s < t)?;
    yes_or_no(rt, s <= t)
}

fn sum(rt: &impl Print, a: i64, b: i64, expected: i64) -> io::Result<()> {
    yes_or_no(rt, (DataSize(a) + DataSize(b)).0 == expected)
}

// The order of two packets, and entries of which the third is past the end: 0 after the last.
fn order(rt: &impl Print) -> io::Result<()> {
    let keys = Keys {
        remotes: &[7, 5],
        sends: &[0, 0],
        sequences: &[0, 0],
    };
    let order = keys.order_by_receive_time();
    let entries = receive_order::gather(&[10, 20], &[1, 0, 9], 3);
    yes_or_no(rt, (order[0] == 1) & (order[1] == 0) & (order[2] == 0))?;
    yes_or_no(
        rt,
        (entries[0] == 20) & (entries[1] == 10) & (entries[2] == 0) & (entries[3] == 0),
    )
}

// How many bytes record k has, in a file of one record.
fn record(rt: &impl Print, k: usize) -> io::Result<()> {
    number(rt, Record::of(&[0u8; 48], k).bytes.len() as u64)
}

fn delays(rt: &impl Print) -> io::Result<()> {
    text(
        rt,
        b"a new group 5 ms after the first less 1 ns, 5 ms after it, 1 ns more:",
    )?;
    group(rt, 4_999_999)?;
    group(rt, 5_000_000)?;
    group(rt, 5_000_001)?;
    text(
        rt,
        b"\nthreshold 12.5 stays at a modified trend of the float above 27.5, and so does the float above 12.5; the float below 12.5 adapts at 27.5:",
    )?;
    threshold(rt, 12.5, 27.500000000000004, 12.5)?;
    threshold(
        rt,
        12.500000000000002,
        27.500000000000004,
        12.500000000000002,
    )?;
    threshold(rt, 12.499999999999998, 27.5, 25.549999999999997)?;
    text(rt, b"\nthreshold 599 goes to 600, and 7 to 6:")?;
    threshold(rt, 599.0, 614.0, 600.0)?;
    threshold(rt, 7.0, 0.0, 6.0)?;
    text(
        rt,
        b"\nthe threshold is updated and the hypothesis normal, after 1, 2 and 3 delays:",
    )?;
    variations(rt, 0)?;
    variations(rt, 1)?;
    variations(rt, 2)?;
    text(rt, b"\n")
}

fn quantities(rt: &impl Print) -> io::Result<()> {
    text(
        rt,
        b"instants 5 and 5, 5 and 6, 6 and 5; 4 * 10^18 and a ns more, two ns more and a ns more:",
    )?;
    instants(rt, 5, 5)?;
    instants(rt, 5, 6)?;
    instants(rt, 6, 5)?;
    instants(rt, 4_000_000_000_000_000_000, 4_000_000_000_000_000_001)?;
    instants(rt, 4_000_000_000_000_000_002, 4_000_000_000_000_000_001)?;
    text(
        rt,
        b"\nsizes -2 and -1, the least and -1, the least and 0, -1 and 1:",
    )?;
    sum(rt, -2, -1, -3)?;
    sum(rt, i64::MIN, -1, i64::MIN)?;
    sum(rt, i64::MIN, 0, i64::MIN)?;
    sum(rt, -1, 1, 0)?;
    text(
        rt,
        b"\nthe order of two packets, entries in an order; bytes of records 0, 1, 2 of a file of one:",
    )?;
    order(rt)?;
    record(rt, 0)?;
    record(rt, 1)?;
    record(rt, 2)?;
    text(rt, b"\n")
}

fn main(rt: HostRuntime) -> io::Result<()> {
    openings(&rt)?;
    reports(&rt)?;
    timeouts(&rt)?;
    reads(&rt)?;
    lines(&rt)?;
    first(&rt)?;
    delays(&rt)?;
    quantities(&rt)
}

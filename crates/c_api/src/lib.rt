// What programs in C or Rust call, by the exports of `c_api_c`. A slice is a pointer and a length; a link is 100 words that the caller lends (crates/link_words). A call returns 0, or the opposite of the number of the question that
// turned it down; then every lent place is as it was.
#![tactic(auto)]

ghost use Rattle.std.specs.Prelude.{◌&&◌, ◌≡◌, pos, neg_ℤ};
ghost use Rattle.questions.specs.Questions.{number, report as reported, report-of};
ghost use Rattle.link_state.specs.State.{in_range};
ghost use Rattle.link_words.specs.LinkWords.{formed, hypothesis_tag, to_words};
ghost use Rattle.link.specs.Link as Calls;
ghost use Rattle.link_runs.specs.Statement.Call.{report, timeout};
ghost use Rattle.lent_calls.specs.LentCalls as Lent;

use bandwidth::Bitrate;
use control::DelayController;
use link::{Called, Opening};
use link_state::Link;
use questions::{Refusal, Report};

// ---- what C gets
// The opposite of a question's number: C gets no `Result`.
#[tactic(auto, using(crate::proofs::Laws::codes))]
fn code(refusal: Refusal) -> i64
    ensures { result ≡ neg_ℤ (pos (number refusal)) }
{
    -(u64::from(refusal) as i64)
}

// Estimate, hypothesis and next timeout, to the lent places. C lends each by a pointer of its own, so they are three parameters. A struct of them for the private functions would be made by each export, and their clauses would stay.
fn tell(bitrate: &mut f64, hypothesis: &mut u32, next_timeout: &mut u64, control: DelayController)
    ensures bitrate_after { bitrate.new ≡ control.rate_control.estimated_bitrate.0 }
    ensures hypothesis_after { hypothesis.new ≡ hypothesis_tag control.trendline_estimator.hypothesis }
    ensures next_timeout_after { next_timeout.new ≡ control.next_timeout }
{
    let rate = control.last_estimate();
    *bitrate = rate.0;
    *hypothesis = control.hypothesis() as u32;
    *next_timeout = control.poll_timeout();
}

// What a call gave, to the lent places. Not by `tell`: no invariant of a `Called` says that its estimate is that of its link.
#[tactic(auto, using(crate::proofs::Laws::told))]
fn store(
    link: &mut [u64; 100],
    bitrate: &mut f64,
    hypothesis: &mut u32,
    next_timeout: &mut u64,
    called: Called,
) -> i64
    ensures value { result ≡ Lent.code (Calls.outcome called).reply }
    ensures link_after { link.new ≡ Lent.words_after (Calls.outcome called).reply (to_words (Calls.outcome called).link) link.old }
    ensures bitrate_after { bitrate.new ≡ Lent.bitrate_after (Calls.outcome called).reply bitrate.old }
    ensures hypothesis_after { hypothesis.new ≡ Lent.hypothesis_after (Calls.outcome called).reply hypothesis.old }
    ensures next_timeout_after { next_timeout.new ≡ Lent.next_timeout_after (Calls.outcome called).reply next_timeout.old }
{
    match called.answer {
        Err(refusal) => code(refusal),
        Ok(estimate) => {
            link_words::store(link, called.link.acked, called.link.control);
            *bitrate = estimate.bitrate.0;
            *hypothesis = estimate.hypothesis as u32;
            *next_timeout = estimate.next_timeout;
            0
        }
    }
}

// ---- a link
// Opens a link at a rate in bps, with windows in ns.
#[tactic(auto, using(crate::proofs::Laws::codes))]
pub fn hornetpewter_open(
    link: &mut [u64; 100],
    start_bitrate: f64,
    initial_window: u64,
    window: u64,
) -> i64
    ensures value { result ≡ Lent.open_code (Calls.opening (record { 0 = start_bitrate }) initial_window window) }
    ensures link_after { link.new ≡ Lent.open_words (Calls.opening (record { 0 = start_bitrate }) initial_window window) link.old }
{
    match Opening::judge(Bitrate(start_bitrate), initial_window, window) {
        Ok(opening) => {
            let opened = opening.link();
            link_words::store(link, opened.acked, opened.control);
            0
        }
        Err(refusal) => code(refusal),
    }
}

// Question 1 of lent words and of the link that was loaded from them. Tried: one function that loads and asks, and hands an `Option` to a `let else`; the proof of `hornetpewter_read` did not close.
fn in_range(link: &[u64; 100], lent: Link) -> bool
    ensures { result ≡ (formed link.now && in_range lent) }
{
    link_words::formed(link) & lent.in_range()
}

#[tactic(auto, unfolding(lent_calls::specs::LentCalls::probe_result))]
fn probe_result(has_probe: u32, probe: f64) -> Option<Bitrate>
    ensures { result ≡ Lent.probe_result has_probe probe }
{
    (has_probe != 0).then_some(Bitrate(probe))
}

// A report to a link in range, its packets in the order of receipt. `link::report` gives the same; with the link handed back in `Called` a typical call took 378 ns in place of 303.
fn report_in_order(
    link: &mut [u64; 100],
    lent: Link,
    report: Report,
    bitrate: &mut f64,
    hypothesis: &mut u32,
    next_timeout: &mut u64,
) -> i64
    ensures value { result ≡ Lent.code (Calls.report_in_order lent (reported report.entry)).reply }
    ensures link_after { link.new ≡ Lent.words_after (Calls.report_in_order lent (reported report.entry)).reply
        (to_words (Calls.report_in_order lent (reported report.entry)).link) link.old }
    ensures bitrate_after { bitrate.new ≡ Lent.bitrate_after (Calls.report_in_order lent (reported report.entry)).reply bitrate.old }
    ensures hypothesis_after { hypothesis.new ≡ Lent.hypothesis_after (Calls.report_in_order lent (reported report.entry)).reply hypothesis.old }
    ensures next_timeout_after { next_timeout.new ≡ Lent.next_timeout_after (Calls.report_in_order lent (reported report.entry)).reply next_timeout.old }
{
    let acked = match link::judge_report(lent.acked, report) {
        Ok(acked) => acked,
        Err(refusal) => return code(refusal),
    };
    let control = lent.control.update(
        report.sends,
        report.remotes,
        report.receives,
        acked.current_estimate(),
        report.probe,
        report.moment,
    );
    link_words::store(link, acked, control);
    tell(bitrate, hypothesis, next_timeout, control);
    0
}

// A report: its packets as five lists, a probe's result where has_probe is not 0 (C has no `Option`), and the moment.
pub fn hornetpewter_report(
    link: &mut [u64; 100],
    sequences: &[u64],
    sizes: &[u64],
    sends: &[u64],
    remotes: &[u64],
    receives: &[u64],
    has_probe: u32,
    probe: f64,
    moment: u64,
    bitrate: &mut f64,
    hypothesis: &mut u32,
    next_timeout: &mut u64,
) -> i64
    ensures value { result ≡ Lent.code (Lent.reply_to link.old (report (report-of sequences.now sizes.now sends.now remotes.now receives.now (Lent.probe_result has_probe probe) moment))) }
    ensures link_after { link.new ≡ Lent.after link.old (report (report-of sequences.now sizes.now sends.now remotes.now receives.now (Lent.probe_result has_probe probe) moment)) }
    ensures bitrate_after { bitrate.new ≡ Lent.bitrate_after (Lent.reply_to link.old (report (report-of sequences.now sizes.now sends.now remotes.now receives.now (Lent.probe_result has_probe probe) moment))) bitrate.old }
    ensures hypothesis_after { hypothesis.new ≡ Lent.hypothesis_after (Lent.reply_to link.old (report (report-of sequences.now sizes.now sends.now remotes.now receives.now (Lent.probe_result has_probe probe) moment))) hypothesis.old }
    ensures next_timeout_after { next_timeout.new ≡ Lent.next_timeout_after (Lent.reply_to link.old (report (report-of sequences.now sizes.now sends.now remotes.now receives.now (Lent.probe_result has_probe probe) moment))) next_timeout.old }
{
    let lent = link_words::load(link);
    if !in_range(link, lent) {
        return code(Refusal::OutOfRange);
    }
    let report = Report {
        sequences,
        sizes,
        sends,
        remotes,
        receives,
        probe: probe_result(has_probe, probe),
        moment,
    };
    if report.keys().is_sorted() {
        return report_in_order(link, lent, report, bitrate, hypothesis, next_timeout);
    }
    let called = link::report(lent, report);
    store(link, bitrate, hypothesis, next_timeout, called)
}

// `link::timeout` gives the same; here the words that a timeout leaves as they are aren't stored, and no link is handed back (as above).
pub fn hornetpewter_timeout(
    link: &mut [u64; 100],
    moment: u64,
    bitrate: &mut f64,
    hypothesis: &mut u32,
    next_timeout: &mut u64,
) -> i64
    ensures value { result ≡ Lent.code (Lent.reply_to link.old (timeout moment)) }
    ensures link_after { link.new ≡ Lent.after link.old (timeout moment) }
    ensures bitrate_after { bitrate.new ≡ Lent.bitrate_after (Lent.reply_to link.old (timeout moment)) bitrate.old }
    ensures hypothesis_after { hypothesis.new ≡ Lent.hypothesis_after (Lent.reply_to link.old (timeout moment)) hypothesis.old }
    ensures next_timeout_after { next_timeout.new ≡ Lent.next_timeout_after (Lent.reply_to link.old (timeout moment)) next_timeout.old }
{
    let lent = link_words::load(link);
    if !in_range(link, lent) {
        return code(Refusal::OutOfRange);
    }
    if let Err(refusal) = questions::timeout(moment) {
        return code(refusal);
    }
    let control = lent
        .control
        .handle_timeout(lent.acked.current_estimate(), moment);
    link_words::store_timeout(link, control);
    tell(bitrate, hypothesis, next_timeout, control);
    0
}

// What a link holds, without a call: estimate in bps, hypothesis, next timeout in ns and delay threshold in ms.
#[tactic(auto, using(crate::proofs::Laws::told))]
pub fn hornetpewter_read(
    link: &[u64; 100],
    bitrate: &mut f64,
    hypothesis: &mut u32,
    next_timeout: &mut u64,
    threshold: &mut f64,
) -> i64
    ensures value { result ≡ Lent.code (Lent.read link.now) }
    ensures bitrate_after { bitrate.new ≡ Lent.bitrate_after (Lent.read link.now) bitrate.old }
    ensures hypothesis_after { hypothesis.new ≡ Lent.hypothesis_after (Lent.read link.now) hypothesis.old }
    ensures next_timeout_after { next_timeout.new ≡ Lent.next_timeout_after (Lent.read link.now) next_timeout.old }
    ensures threshold_after { threshold.new ≡ Lent.threshold_after (Lent.read link.now) link.now threshold.old }
{
    let lent = link_words::load(link);
    if !in_range(link, lent) {
        return code(Refusal::OutOfRange);
    }
    tell(bitrate, hypothesis, next_timeout, lent.control);
    *threshold = lent.control.trendline_estimator.delays.delay_threshold;
    0
}

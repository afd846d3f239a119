// A link's calls: opening, report and timeout (src/bwe/mod.rs, `SendSideBandwidthEstimator::update`, and document 01's questions). A call that a question
// turns down gives that question's answer and the link as it came in.
#![tactic(auto)]

ghost use Rattle.std.specs.Prelude.{◌≡◌, true};
ghost use Rattle.questions.specs.Questions.{number, report as reported};
ghost use Rattle.link_state.specs.State.{in_range};
ghost use Rattle.link.specs.Link as Calls;

use acked_bitrate_estimator::AckedBitrateEstimator;
use bandwidth::{BandwidthUsage, Bitrate, DataSize};
use control::DelayController;
use link_state::Link;
use questions::{Refusal, Report};

// What an accepted call returns beside the link.
#[derive(Clone, Copy)]
pub struct Estimate {
    pub bitrate: Bitrate,
    pub hypothesis: BandwidthUsage,
    pub next_timeout: u64,
}

#[derive(Clone, Copy)]
pub struct Called {
    pub answer: Result<Estimate, Refusal>,
    pub link: Link,
}

// An accepted opening. Its fields are private: `judge` alone makes one.
#[derive(Clone, Copy)]
pub struct Opening {
    start_bitrate: Bitrate,
    initial_window: u64,
    window: u64,
}

impl Opening {
    // Windows are ns; the two are the Rust's parameters of `AckedBitrateEstimator::new`, so no struct.
    #[tactic(auto, using(crate::proofs::Laws::by_first_no), unfolding(crate::specs::Link::link))]
    pub fn judge(
        start_bitrate: Bitrate,
        initial_window: u64,
        window: u64,
    ) -> Result<Opening, Refusal>
        ensures { Calls.started result ≡ Calls.opening start_bitrate initial_window window }
    {
        questions::opening(start_bitrate, initial_window, window)?;
        Ok(Opening {
            start_bitrate,
            initial_window,
            window,
        })
    }

    #[tactic(auto, unfolding(crate::specs::Link::link))]
    pub fn link(self) -> Link
        ensures { result ≡ Calls.link self }
    {
        Link {
            acked: AckedBitrateEstimator::new(self.initial_window, self.window),
            control: DelayController::new(self.start_bitrate),
        }
    }
}

// ---- a report's packets to the acknowledged rate
fn data_size(n: u64) -> DataSize
    ensures { result ≡ Calls.data_size n }
{
    DataSize(i64::try_from(n).unwrap_or(i64::MAX))
}

// The estimator after packets in the order of receipt, if question 9 is answered with yes.
fn acknowledge(
    acked: AckedBitrateEstimator,
    remotes: &[u64],
    sizes: &[u64],
) -> Option<AckedBitrateEstimator>
    ensures { result ≡ Calls.acknowledged acked remotes.now sizes.now }
{
    let mut acked = acked;
    for (remote, size) in remotes.iter().zip(sizes) {
        acked = acked.update(*remote, data_size(*size));
        if !questions::bytes_in(acked.sum) {
            return None;
        }
    }
    Some(acked)
}

// ---- report
// Questions 4 to 9 of a report whose packets stand in the order of receipt, and the estimator after it.
#[tactic(auto, using(crate::proofs::Laws::by_first_no))]
pub fn judge_report(
    acked: AckedBitrateEstimator,
    report: Report,
) -> Result<AckedBitrateEstimator, Refusal>
    ensures { Calls.judged acked result ≡ Calls.judge_report acked (reported report.entry) }
{
    report.judge()?;
    acknowledge(acked, report.remotes, report.sizes).ok_or(Refusal::TooManyBytes)
}

fn refused(refusal: Refusal, link: Link) -> Called
    ensures { Calls.outcome result ≡ Calls.refused_by (number refusal) link }
{
    Called {
        answer: Err(refusal),
        link,
    }
}

#[tactic(auto, unfolding(crate::specs::Link::accepted_with))]
fn accepted(link: Link) -> Called
    ensures { Calls.outcome result ≡ Calls.accepted_with link }
{
    let control = link.control;
    let bitrate = control.last_estimate();
    let hypothesis = control.hypothesis();
    let estimate = Estimate {
        bitrate,
        hypothesis,
        next_timeout: control.poll_timeout(),
    };
    Called {
        answer: Ok(estimate),
        link,
    }
}

// A report to a link in range, its packets in the order of receipt.
fn report_in_order(link: Link, report: Report) -> Called
    ensures { Calls.outcome result ≡ Calls.report_in_order link (reported report.entry) }
{
    match judge_report(link.acked, report) {
        Err(refusal) => refused(refusal, link),
        Ok(acked) => {
            let control = link.control.update(
                report.sends,
                report.remotes,
                report.receives,
                acked.current_estimate(),
                report.probe,
                report.moment,
            );
            let updated = Link { acked, control };
            accepted(updated)
        }
    }
}

// A report to a link in range, its packets in any order.
#[tactic(auto, using(crate::proofs::Laws::gathering))]
fn report_unsorted(link: Link, report: Report) -> Called
    requires { in_range link ≡ true }
    ensures { Calls.outcome result ≡ Calls.report link (reported report.entry) }
{
    if !report.lists_in() {
        return refused(Refusal::BadLists, link);
    }
    let n = report.remotes.len();
    let order = report.keys().order_by_receive_time();
    let sizes = receive_order::gather(report.sizes, &order, n);
    let sends = receive_order::gather(report.sends, &order, n);
    let receives = receive_order::gather(report.receives, &order, n);
    let remotes = receive_order::gather(report.remotes, &order, n);
    let ordered = Report {
        sizes: &sizes[..n],
        sends: &sends[..n],
        remotes: &remotes[..n],
        receives: &receives[..n],
        ..report
    };
    report_in_order(link, ordered)
}

#[tactic(auto, using(crate::proofs::Laws::by_first_no))]
pub fn report(link: Link, report: Report) -> Called
    ensures { Calls.outcome result ≡ Calls.report link (reported report.entry) }
{
    if !link.in_range() {
        return refused(Refusal::OutOfRange, link);
    }
    if report.keys().is_sorted() {
        return report_in_order(link, report);
    }
    report_unsorted(link, report)
}

// ---- timeout
// C's timeout (crates/c_api) takes the same course on lent words: there no refusal copies the link, and no call stores more than changed.
#[tactic(auto, using(crate::proofs::Laws::by_first_no))]
pub fn timeout(link: Link, now: u64) -> Called
    ensures { Calls.outcome result ≡ Calls.timeout link now }
{
    if !link.in_range() {
        return refused(Refusal::OutOfRange, link);
    }
    if let Err(refusal) = questions::timeout(now) {
        return refused(refusal, link);
    }
    let control = link
        .control
        .handle_timeout(link.acked.current_estimate(), now);
    let timed_out = Link { control, ..link };
    accepted(timed_out)
}

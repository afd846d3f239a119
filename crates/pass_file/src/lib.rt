// Document 01, pass file and program: the listing of a pass file, a line for each call of a link, written into a lent buffer.
#![tactic(auto)]

ghost use Rattle.std.specs.Prelude.{◌≡◌, ◌≤◌, [], length};
ghost use Rattle.pass_records.specs.PassRecords as Records;
ghost use Rattle.pass_records.specs.Laws.{OnChain};
ghost use Rattle.listing_line.specs.ListingLine.{Wrote};
ghost use Rattle.waiting_packets.specs.WaitingPackets.{of_records};
ghost use Rattle.pass_file.specs.PassFile as PassFile;
ghost use Rattle.pass_file.specs.Judged.{JudgesReport, report_of};

use acked_bitrate_estimator::AckedBitrateEstimator;
use bandwidth::{BandwidthUsage, Bitrate};
use control::DelayController;
use link_state::Link;
use listing_line::Line;
use pass_records::{FileRefusal, Kind, Record};
use questions::{Refusal, Report};
use waiting_packets::WaitingPackets;

// ---- a call
fn open() -> Link
    ensures { result ≡ PassFile.first }
{
    let acked = AckedBitrateEstimator::new(500_000_000, 150_000_000);
    let control = DelayController::new(Bitrate(1_000_000.0));
    Link { acked, control }
}

// No `then_some`, which reads the bits of each report: a record of samples/congestion.pass takes 117 ns in place of 115, and the ratio to the Rust gets worse. No `then`: tried, and the proof didn't close.
fn probe(record: Record) -> Option<Bitrate>
    ensures { result ≡ PassFile.probe «record».entry.bytes.now }
{
    if record.flag() == 1 {
        let bits = record.probe_bits();
        return Some(Bitrate(float_bits::from_bits(bits)));
    }
    None
}

// Questions 4 to 9 of a report of the packets that wait, which are then in the order of receipt. If it is accepted, the acknowledged-rate estimator after it.
#[tactic(auto, using(crate::proofs::Judging::judges))]
fn judge_report(
    acked: AckedBitrateEstimator,
    waiting: &mut WaitingPackets,
    probe: Option<Bitrate>,
    moment: u64,
) -> Result<AckedBitrateEstimator, Refusal>
    ensures { JudgesReport acked (report_of waiting.old probe moment) result waiting.new }
{
    waiting.put_in_order();
    let report = Report {
        sequences: waiting.sequences(),
        sizes: waiting.sizes(),
        sends: waiting.sends(),
        remotes: waiting.remotes(),
        receives: waiting.receives(),
        probe,
        moment,
    };
    link::judge_report(acked, report)
}

// ---- its line
// The letters are this listing's alone: no cast gives them, and the enum is of another crate, so there is no `From`.
fn letter(hypothesis: BandwidthUsage) -> u8
    ensures { result ≡ PassFile.letter hypothesis }
{
    match hypothesis {
        BandwidthUsage::Overuse => b'O',
        BandwidthUsage::Normal => b'N',
        BandwidthUsage::Underuse => b'U',
    }
}

// The line of record k, from the number that its call got and what the link's controller then says.
fn line_of(k: usize, number: u64, control: &DelayController) -> Line
    ensures { result ≡ PassFile.line_of k number control.now }
{
    Line {
        record_number: k as u64,
        refusal: number,
        letter: letter(control.hypothesis()),
        bits: float_bits::to_bits(control.last_estimate().as_f64()),
        next_timeout: control.poll_timeout(),
    }
}

// ---- the listing
// The lines along the chain of a linked file. A link that a run reaches is in range, so question 1 is not put; its two parts are kept
// apart, so that a call copies only what it changes.
fn list_chain(file: &[u8], out: &mut [u8], waiting: &mut WaitingPackets, link: Link) -> usize
    requires on_chain { OnChain file.now (Records.record_count file.now) 1 }
    requires room { length (PassFile.listing file.now) ≤ length out.old }
    requires start { (waiting.old ≡ of_records []) × (link ≡ PassFile.first) }
    ensures { Wrote out.old 0 (PassFile.listing file.now) out.new result }
{
    let mut acked = link.acked;
    let mut control = link.control;
    let mut at = 0;
    let mut k = 1;
    // No `for`: each record names the next, so `std::iter::successors` would read each record in a closure too, to name it there.
    loop {
        let record = Record::of(file, k);
        let now = record.receive();
        // A record of a linked file's chain has a kind.
        let kind = record.kind().unwrap_or(Kind::Timeout);
        match kind {
            Kind::Packet => waiting.push(record),
            Kind::Report => {
                let probe = probe(record);
                let number = match judge_report(acked, waiting, probe, now) {
                    Ok(after) => {
                        acked = after;
                        control = control.update(
                            waiting.sends(),
                            waiting.remotes(),
                            waiting.receives(),
                            acked.current_estimate(),
                            probe,
                            now,
                        );
                        0
                    }
                    Err(refusal) => u64::from(refusal),
                };
                waiting.clear();
                at = line_of(k, number, &control).put(out, at);
            }
            Kind::Timeout => {
                let number = match questions::timeout(now) {
                    Ok(()) => {
                        control = control.handle_timeout(acked.current_estimate(), now);
                        0
                    }
                    Err(refusal) => u64::from(refusal),
                };
                at = line_of(k, number, &control).put(out, at);
            }
        }
        let next = record.next() as usize;
        if next == 0 {
            return at;
        }
        k = next;
    }
}

// The listing of a linked file.
fn list_linked(file: &[u8], out: &mut [u8]) -> usize
    requires on_chain { OnChain file.now (Records.record_count file.now) 1 }
    requires room { length (PassFile.listing file.now) ≤ length out.old }
    ensures { Wrote out.old 0 (PassFile.listing file.now) out.new result }
{
    list_chain(file, out, &mut WaitingPackets::new(), open())
}

// Questions 10 to 13 of a file that may have `most` records, then the listing at the start of the output: how many bytes it has.
#[tactic(auto, unfolding(crate::specs::PassFile::list, crate::specs::PassFile::output))]
pub fn list(file: &[u8], out: &mut [u8], most: u16) -> Result<usize, FileRefusal>
    ensures result_value { result ≡ PassFile.list most file.now (length out.old) }
    ensures out_after { out.new ≡ PassFile.output most file.now out.old }
{
    pass_records::judge(file, most, out.len())?;
    Ok(list_linked(file, out))
}

// The number of the question that turned a file down, or 0.
pub fn number(listed: Result<usize, FileRefusal>) -> u64
    ensures { result ≡ PassFile.answer_number listed }
{
    listed.err().map_or(0, u64::from)
}

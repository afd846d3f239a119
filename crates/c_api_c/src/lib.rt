// What programs in C or Rust call for a link's calls: each export is the function of that name of `c_api`, which a test program calls too: a crate is a library or a static library, and not both. A slice is a pointer and a length.
#![tactic(auto)]

ghost use Rattle.std.specs.Prelude.{◌≡◌};
ghost use Rattle.questions.specs.Questions.{report-of};
ghost use Rattle.link.specs.Link as Calls;
ghost use Rattle.link_runs.specs.Statement.Call.{report, timeout};
ghost use Rattle.lent_calls.specs.LentCalls as Lent;

// ---- a link
// Opens a link at a rate in bps, with windows in ns.
#[unsafe(no_mangle)]
pub extern "C" fn hornetpewter_open(
    link: &mut [u64; 100],
    start_bitrate: f64,
    initial_window: u64,
    window: u64,
) -> i64
    ensures value { result ≡ Lent.open_code (Calls.opening (record { 0 = start_bitrate }) initial_window window) }
    ensures link_after { link.new ≡ Lent.open_words (Calls.opening (record { 0 = start_bitrate }) initial_window window) link.old }
{
    c_api::hornetpewter_open(link, start_bitrate, initial_window, window)
}

// A report: its packets as five lists, a probe's result where has_probe is not 0 (C has no `Option`), and the moment.
#[unsafe(no_mangle)]
pub extern "C" fn hornetpewter_report(
    link: &mut [u64; 100],
    sequences: &[u64],
    sizes: &[u64],
    sends: &[u64],
    remotes: &[u64],
    receives: &[u64],
    has_probe: u32,
    probe: f64,
    moment: u64,
    bitrate: &mut f64,
    hypothesis: &mut u32,
    next_timeout: &mut u64,
) -> i64
    ensures value { result ≡ Lent.code (Lent.reply_to link.old (report (report-of sequences.now sizes.now sends.now remotes.now receives.now (Lent.probe_result has_probe probe) moment))) }
    ensures link_after { link.new ≡ Lent.after link.old (report (report-of sequences.now sizes.now sends.now remotes.now receives.now (Lent.probe_result has_probe probe) moment)) }
    ensures bitrate_after { bitrate.new ≡ Lent.bitrate_after (Lent.reply_to link.old (report (report-of sequences.now sizes.now sends.now remotes.now receives.now (Lent.probe_result has_probe probe) moment))) bitrate.old }
    ensures hypothesis_after { hypothesis.new ≡ Lent.hypothesis_after (Lent.reply_to link.old (report (report-of sequences.now sizes.now sends.now remotes.now receives.now (Lent.probe_result has_probe probe) moment))) hypothesis.old }
    ensures next_timeout_after { next_timeout.new ≡ Lent.next_timeout_after (Lent.reply_to link.old (report (report-of sequences.now sizes.now sends.now remotes.now receives.now (Lent.probe_result has_probe probe) moment))) next_timeout.old }
{
    c_api::hornetpewter_report(
        link,
        sequences,
        sizes,
        sends,
        remotes,
        receives,
        has_probe,
        probe,
        moment,
        bitrate,
        hypothesis,
        next_timeout,
    )
}

#[unsafe(no_mangle)]
pub extern "C" fn hornetpewter_timeout(
    link: &mut [u64; 100],
    moment: u64,
    bitrate: &mut f64,
    hypothesis: &mut u32,
    next_timeout: &mut u64,
) -> i64
    ensures value { result ≡ Lent.code (Lent.reply_to link.old (timeout moment)) }
    ensures link_after { link.new ≡ Lent.after link.old (timeout moment) }
    ensures bitrate_after { bitrate.new ≡ Lent.bitrate_after (Lent.reply_to link.old (timeout moment)) bitrate.old }
    ensures hypothesis_after { hypothesis.new ≡ Lent.hypothesis_after (Lent.reply_to link.old (timeout moment)) hypothesis.old }
    ensures next_timeout_after { next_timeout.new ≡ Lent.next_timeout_after (Lent.reply_to link.old (timeout moment)) next_timeout.old }
{
    c_api::hornetpewter_timeout(link, moment, bitrate, hypothesis, next_timeout)
}

// What a link holds, without a call: estimate in bps, hypothesis, next timeout in ns and delay threshold in ms.
#[unsafe(no_mangle)]
pub extern "C" fn hornetpewter_read(
    link: &[u64; 100],
    bitrate: &mut f64,
    hypothesis: &mut u32,
    next_timeout: &mut u64,
    threshold: &mut f64,
) -> i64
    ensures value { result ≡ Lent.code (Lent.read link.now) }
    ensures bitrate_after { bitrate.new ≡ Lent.bitrate_after (Lent.read link.now) bitrate.old }
    ensures hypothesis_after { hypothesis.new ≡ Lent.hypothesis_after (Lent.read link.now) hypothesis.old }
    ensures next_timeout_after { next_timeout.new ≡ Lent.next_timeout_after (Lent.read link.now) next_timeout.old }
    ensures threshold_after { threshold.new ≡ Lent.threshold_after (Lent.read link.now) link.now threshold.old }
{
    c_api::hornetpewter_read(link, bitrate, hypothesis, next_timeout, threshold)
}

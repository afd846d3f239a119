// Document 01's questions 2 to 9, with their numbers. Question 1 is of a link's state (crates/link_state).
#![tactic(auto)]

ghost use Rattle.std.specs.Prelude.{◌≡◌, ◌<◌, ◌^◌, ℕ, Bool};
ghost use Rattle.questions.specs.Questions as Questions;

use bandwidth::{Bitrate, DataSize};
use receive_order::Keys;

// The question that turned a call down.
#[derive(Clone, Copy, Debug, PartialEq, Eq)]
pub enum Refusal {
    OutOfRange = 1,
    BadStartBitrate,
    BadWindow,
    BadLists,
    BadInstant,
    BadSize,
    BadMoment,
    BadProbe,
    TooManyBytes,
}

// A question's number, which is all that a program says of it: so no `Display`.
impl From<Refusal> for u64 {
    ghost from_gives = { λ refusal n. n ≡ Questions.number refusal };

    fn from(refusal: Refusal) -> u64 {
        refusal as u64
    }
}

// The number of the question that turned a call down, or 0.
pub fn number<T: Drop>(answer: Result<T, Refusal>) -> u64
    ensures { result ≡ Questions.number_or0 answer }
{
    answer.err().map_or(0, u64::from)
}

// A report: packet i has its sequence, size, send, remote and receive instant at place i of five lists; a probe's result, and the moment.
// No list of packets: C lends the five lists.
#[derive(Clone, Copy)]
pub struct Report<'a> {
    pub sequences: &'a [u64],
    pub sizes: &'a [u64],
    pub sends: &'a [u64],
    pub remotes: &'a [u64],
    pub receives: &'a [u64],
    pub probe: Option<Bitrate>,
    pub moment: u64,
}

// The last instant, in ns.
const MOST_INSTANT: u64 = 1_000_000_000_000_000_000;

const MS: u64 = 1_000_000;

// The longest window, in ns.
const MOST_WINDOW: u64 = 10_000_000_000;

const LEAST_SIZE: u64 = 1;

// What a question says that is answered with yes or no.
#[tactic(auto, unfolding(crate::specs::Questions::answer))]
fn ask(yes: bool, refusal: Refusal) -> Result<(), Refusal>
    ensures { result ≡ Questions.answer yes refusal }
{
    if yes { Ok(()) } else { Err(refusal) }
}

// ---- opening: 2 and 3
fn start_in(start_bitrate: Bitrate) -> bool
    ensures { result ≡ Questions.start_in start_bitrate }
{
    start_bitrate.within(Bitrate::MIN_ESTIMATE, Bitrate::MAX_ESTIMATE)
}

#[tactic(auto, unfolding(crate::specs::Questions::window_in))]
pub fn window_in(window: u64) -> bool
    ensures { result ≡ Questions.window_in window }
{
    (window % MS == 0) & (MS <= window) & (window <= MOST_WINDOW)
}

#[tactic(auto, unfolding(crate::specs::Questions::of_opening, crate::specs::Questions::first_no, crate::specs::Questions::answer))]
pub fn opening(start_bitrate: Bitrate, initial_window: u64, window: u64) -> Result<(), Refusal>
    ensures { Questions.number_or0 result ≡ Questions.first_no (Questions.of_opening start_bitrate initial_window window) }
{
    ask(start_in(start_bitrate), Refusal::BadStartBitrate)?;
    ask(
        window_in(initial_window) & window_in(window),
        Refusal::BadWindow,
    )
}

// ---- report: 4 to 8, and what 9 asks of a byte sum
// Whether every number passes a test. All are tested, which LLVM does by vectors: with `xs.iter().all(..)`, tried, 1,024 numbers take 0.6 µs in place of 0.4, and a large report's ratio to the Rust gets worse.
#[tactic(auto, using(crate::proofs::Laws::every_loop))]
fn every<F: Fn(u64) -> bool>(xs: &[u64], test: F) -> bool
    requires { F.IsAlwaysCallable test }
    ensures { (p : ℕ → Bool) → ((x : ℕ) (r : Bool) → F.post test x r → r ≡ p x) → result ≡ Questions.every p xs.now }
{
    let mut yes = true;
    for x in xs {
        yes = yes & test(*x);
    }
    yes
}

fn instants_in(xs: &[u64]) -> bool
    ensures { result ≡ Questions.all_at_most Questions.most_instant xs.now }
{
    every(xs, |x| x <= MOST_INSTANT)
}

fn sizes_in(sizes: &[u64]) -> bool
    ensures { result ≡ Questions.sizes_in sizes.now }
{
    every(sizes, |size| LEAST_SIZE <= size)
}

#[tactic(auto, unfolding(crate::specs::Questions::moment_in))]
fn moment_in(now: u64) -> bool
    ensures { result ≡ Questions.moment_in now }
{
    (now <= MOST_INSTANT) & (now % MS == 0)
}

#[tactic(auto, unfolding(crate::specs::Questions::probe_in))]
fn probe_in(probe: Option<Bitrate>) -> bool
    ensures { result ≡ Questions.probe_in probe }
{
    probe.is_none_or(|rate| rate.within(Bitrate::ZERO, Bitrate::MOST))
}

impl<'a> Report<'a> {
    // What its packets are put in order by.
    pub fn keys(self) -> Keys<'a>
        ensures { result ≡ Questions.keys self.entry }
    {
        Keys {
            remotes: self.remotes,
            sends: self.sends,
            sequences: self.sequences,
        }
    }

    #[tactic(auto, unfolding(crate::specs::Questions::lists_in))]
    pub fn lists_in(self) -> bool
        ensures { result ≡ Questions.lists_in self.entry.sequences.now self.entry.sizes.now self.entry.sends.now self.entry.remotes.now self.entry.receives.now }
    {
        let n = self.sequences.len();
        (self.sizes.len() == n)
            & (self.sends.len() == n)
            & (self.remotes.len() == n)
            & (self.receives.len() == n)
            & (n <= receive_order::MOST_PACKETS)
    }

    #[tactic(auto, unfolding(crate::specs::Questions::of_report, crate::specs::Questions::first_no, crate::specs::Questions::instants_in, crate::specs::Questions::answer))]
    pub fn judge(self) -> Result<(), Refusal>
        ensures { Questions.number_or0 result ≡ Questions.first_no (Questions.of_report (Questions.report self.entry)) }
    {
        ask(self.lists_in(), Refusal::BadLists)?;
        ask(
            instants_in(self.sends) & instants_in(self.remotes) & instants_in(self.receives),
            Refusal::BadInstant,
        )?;
        ask(sizes_in(self.sizes), Refusal::BadSize)?;
        ask(moment_in(self.moment), Refusal::BadMoment)?;
        ask(probe_in(self.probe), Refusal::BadProbe)
    }
}

pub fn bytes_in(sum: DataSize) -> bool
    ensures { result ≡ Questions.bytes_in sum }
{
    sum <= DataSize::MOST
}

// ---- timeout: 7
#[tactic(auto, unfolding(crate::specs::Questions::of_timeout, crate::specs::Questions::first_no, crate::specs::Questions::answer))]
pub fn timeout(now: u64) -> Result<(), Refusal>
    ensures { Questions.number_or0 result ≡ Questions.first_no (Questions.of_timeout now) }
{
    ask(moment_in(now), Refusal::BadMoment)
}

// Replays calls on lent links (tools/oracle, command lent) from standard input and compares every answer, and the whole link after each call, to the bit. A case is
// 12 words of 8 bytes, little-endian: an operation, 5 inputs, 6 answers. Operation 90 lends the link whose 100 words (link_words) come next; a report, 92, has its
// packets next, list by list; and after a report or a timeout, 93, come the 100 words of the link. Prints how many calls there were and how many of them differ, how
// many packets they had, and the first call that differs.
#![tactic(auto)]

use bandwidth::Bitrate;
use cases::{Case, Counts};
use float_bits::{from_bits, to_bits};
use link::{Called, Estimate};
use link_state::Link;
use questions::{Refusal, Report};
use std::io;
use std::io::Read;

// More packets than any report has.
const ROOM: u64 = 40;

// Number, estimate, hypothesis, next timeout.
fn answers(answer: Result<Estimate, Refusal>) -> [u64; 6] {
    match answer {
        Ok(e) => [
            0,
            to_bits(e.bitrate.as_f64()),
            e.hypothesis as u64,
            e.next_timeout,
            0,
            0,
        ],
        Err(refusal) => [u64::from(refusal), 0, 0, 0, 0, 0],
    }
}

// Reads numbers from standard input, all in one piece. Whether all were there.
fn read_words(input: &mut impl Read, words: &mut [u64]) -> io::Result<bool> {
    let mut bytes = [0u8; 1600];
    let Some(bytes) = bytes.get_mut(..8 * words.len()) else {
        return Ok(false);
    };
    let whole = reading::read_full(input, bytes)? == bytes.len();
    for (k, word) in words.iter_mut().enumerate() {
        *word = le_bytes::read_u64(bytes, 8 * k);
    }
    Ok(whole)
}

// The n numbers from a start on. Where there are not so many, which no case reaches, all.
fn part(lists: &[u64], start: usize, n: usize) -> &[u64] {
    lists
        .get(start..)
        .and_then(|rest| rest.get(..n))
        .unwrap_or(lists)
}

// Reads the words of a link. None where they are not whole, or not a link's own.
fn lent(input: &mut impl Read) -> io::Result<Option<Link>> {
    let mut words = [0u64; 100];
    let whole = read_words(input, &mut words)?;
    let link = link_words::load(&words);
    let own = whole & link_words::formed(&words) & (link_words::words(link) == words);
    Ok(own.then_some(link))
}

// The link that is lent, and the counts.
#[derive(Clone, Copy)]
struct Replay {
    link: Option<Link>,
    counts: Counts,
}

impl Replay {
    // Reads the words that come after a call, and compares. Without a link it differs.
    fn compare<F: FnOnce(Link) -> Called>(
        &mut self,
        input: &mut impl Read,
        i: Case,
        packets: u64,
        call: F,
    ) -> io::Result<()>
        requires { F.IsAlwaysCallable call }
    {
        let mut after = [0u64; 100];
        let whole = read_words(input, &mut after)?;
        let mut agrees = false;
        if let Some(link) = self.link {
            let Called { answer, link } = call(link);
            agrees = whole & i.agrees(answers(answer)) & (link_words::words(link) == after);
            self.link = Some(link);
        }
        self.counts = self.counts.counted(packets, agrees);
        Ok(())
    }

    // Where the lists are cut short, so are the words after them.
    fn report(&mut self, input: &mut impl Read, i: Case) -> io::Result<()> {
        let n = if i.d > ROOM { 0 } else { i.d as usize };
        // One array for the five lists, which stand in the file one after another.
        let mut room = [0u64; 5 * ROOM as usize];
        let lists = &mut room[..5 * n];
        read_words(input, lists)?;
        let report = Report {
            sequences: part(lists, 0, n),
            sizes: part(lists, n, n),
            sends: part(lists, 2 * n, n),
            remotes: part(lists, 3 * n, n),
            receives: part(lists, 4 * n, n),
            probe: (i.a == 1).then(|| Bitrate(from_bits(i.b))),
            moment: i.c,
        };
        self.compare(input, i, n as u64, |link| link::report(link, report))
    }

    // The operations are numbers in the file of cases, and are read here alone.
    fn run(&mut self, input: &mut impl Read, i: Case) -> io::Result<()> {
        match i.op {
            90 => self.link = lent(input)?,
            92 => self.report(input, i)?,
            _ => self.compare(input, i, 0, |link| link::timeout(link, i.a))?,
        }
        Ok(())
    }
}

fn main(rt: HostRuntime) -> io::Result<()> {
    let mut input = rt.reader();
    let mut replay = Replay {
        link: None,
        counts: Counts::new(),
    };
    // Each program that reads cases has this loop: the contract of one in `cases` would have to say of which cases of the input the closure was called.
    for _ in 0..1_000_000_000u64 {
        let mut bytes = [0u8; 96];
        if reading::read_full(&mut input, &mut bytes)? < 96 {
            break;
        }
        replay.run(&mut input, Case::read(&bytes))?;
    }
    replay.counts.print_all(&rt, b"lent")
}

// Transport-wide congestion control feedback messages, after the media source identifier: the header, the packet status chunks, the recv deltas. Judging one puts questions 14 to 16.
#![tactic(auto)]

ghost use Rattle.std.specs.Prelude.{◌≡◌, ◌+◌, ◌<◌, ◌≤◌, ltb, length, drop};
ghost use Rattle.twcc.specs.Feedback as Feedback;
ghost use Rattle.twcc.specs.Judging as Judging;

pub const HEADER_BYTES: usize = 8;

#[derive(Clone, Copy, Debug, PartialEq, Eq)]
pub struct Header {
    pub base_seq: u16,
    pub status_count: u16,
    // In units of 64 ms.
    pub reference_time: i32,
    pub feedback_count: u8,
}

// The question that a message fails.
#[derive(Clone, Copy, Debug, PartialEq, Eq)]
pub enum Refusal {
    CutShort = 14,
    Reserved = 15,
    NoStatus = 16,
}

// A packet that a message tells of: its sequence number, and if it was received its time in ticks of 250 µs from the reference.
#[derive(Clone, Copy, Debug, PartialEq, Eq)]
pub struct Packet {
    pub sequence: u16,
    pub ticks: Option<i32>,
}

// What a good message's header says, and the place of its first delta.
#[derive(Clone, Copy, Debug, PartialEq, Eq)]
pub struct Judgement {
    pub header: Header,
    pub deltas: usize,
}

// Where the deltas start, behind the last chunk, and how many bytes they have.
#[derive(Clone, Copy)]
struct Deltas {
    at: usize,
    bytes: usize,
}

// The number of the question, which is all that a program says of it: so no `Display`.
impl From<Refusal> for u64 {
    ghost from_gives = { λ refusal n. n ≡ Feedback.refusal_number refusal };

    fn from(refusal: Refusal) -> u64 {
        refusal as u64
    }
}

// The number of the question that a message fails, or 0.
pub fn number(judged: Result<Header, Refusal>) -> u64
    ensures { result ≡ Feedback.number judged }
{
    judged.err().map_or(0, u64::from)
}

// The 16 bits at a place, the most significant byte first. What lies past the end counts as 0.
// By tests on the length, as `cut_short` and the loop over chunks: `read_u8` and `checked_sub` were tried, and judging took 1.4 times as long.
pub fn read_u16(bytes: &[u8], at: usize) -> u16
    ensures { result ≡ Feedback.read_u16 bytes.now at }
{
    if bytes.len() <= at {
        return 0;
    }
    let low = if bytes.len() - at < 2 {
        0
    } else {
        bytes[at + 1]
    };
    u16::from_be_bytes([bytes[at], low])
}

// Whether n bytes from a place on run past the end.
pub fn cut_short(bytes: &[u8], at: usize, n: usize) -> bool
    ensures { result ≡ ltb (length bytes.now) (at + n) }
{
    bytes.len() < at || bytes.len() - at < n
}

// What a message's header says.
pub fn read_header(message: &[u8]) -> Header
    ensures { result ≡ Feedback.read_header message.now }
{
    let reference = [
        le_bytes::read_u8(message, 4),
        le_bytes::read_u8(message, 5),
        le_bytes::read_u8(message, 6),
        0,
    ];
    Header {
        base_seq: read_u16(message, 0),
        status_count: read_u16(message, 2),
        // The shift copies the sign bit of the 24.
        reference_time: i32::from_be_bytes(reference) >> 8,
        feedback_count: le_bytes::read_u8(message, 7),
    }
}

// The chunks that cover the status count.
#[tactic(auto, using(crate::specs::Judging::judging))]
fn judge_chunks(message: &[u8], count: u16) -> Result<Deltas, Refusal>
    requires { Feedback.header_bytes ≤ length message.now }
    ensures { result ≡ Judging.chunks_from Feedback.header_bytes 0 (drop Feedback.header_bytes message.now) count }
{
    let mut at = HEADER_BYTES;
    let mut left = count;
    let mut bytes: usize = 0;
    // No `for` over the chunks: the count ends it, and the place after the last one is part of what it gives.
    while 0 < left {
        if message.len() - at < 2 {
            return Err(Refusal::CutShort);
        }
        let chunk = read_u16(message, at);
        if status_chunk::any_reserved(chunk, left) {
            return Err(Refusal::Reserved);
        }
        bytes += status_chunk::delta_bytes(chunk, left);
        left -= status_chunk::covered(chunk, left);
        at += 2;
    }
    Ok(Deltas { at, bytes })
}

// A message judged whole, by questions 14 to 16 in the order in which it is read.
#[tactic(auto, using(crate::specs::Judging::judging))]
pub fn judge_with_deltas(message: &[u8]) -> Result<Judgement, Refusal>
    ensures { result ≡ Judging.judge_with_deltas message.now }
{
    if message.len() < HEADER_BYTES {
        return Err(Refusal::CutShort);
    }
    let header = read_header(message);
    if header.status_count == 0 {
        return Err(Refusal::NoStatus);
    }
    let deltas = judge_chunks(message, header.status_count)?;
    if cut_short(message, deltas.at, deltas.bytes) {
        return Err(Refusal::CutShort);
    }
    Ok(Judgement {
        header,
        deltas: deltas.at,
    })
}

#[tactic(auto, unfolding(crate::specs::Judging::judge_with_deltas))]
pub fn judge(message: &[u8]) -> Result<Header, Refusal>
    ensures { result ≡ Feedback.judge message.now }
{
    Ok(judge_with_deltas(message)?.header)
}

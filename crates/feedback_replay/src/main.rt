// Replays feedback messages (tools/oracle, command feedback) from standard input, and compares the judgement, the header and every packet that is handed out, by steps
// over the lent message and by a reader that holds it. A case is six words of 4 bytes, little-endian: length of the message, number, base sequence, status count,
// reference time and feedback count, the last four 0 if refused; then the message; then of a good one 8 bytes a packet: sequence and received, 2 bytes each, and
// ticks, 4 bytes.
// Prints how many messages and how many of them differ, how many packets the good ones tell of, and the first message that differs.
#![tactic(auto)]

use cases::Counts;
use feedback_reader::FeedbackReader;
use std::io;
use std::io::Read;
use twcc::{Header, Packet, Refusal};

const CASE_BYTES: usize = 24;

const PACKET_BYTES: usize = 8;

// More than any case's message and packets need.
const ROOM: usize = 1_000_000;

// As the file has it, number and zeros of a refused message too: a `Result` of a header would leave the zeros uncompared.
#[derive(Clone, Copy, PartialEq, Eq)]
struct Case {
    length: u32,
    number: u64,
    base_seq: u32,
    status_count: u32,
    reference_time: u32,
    feedback_count: u32,
}

fn read_case(bytes: &[u8]) -> Case {
    Case {
        length: le_bytes::read_u32(bytes, 0),
        number: u64::from(le_bytes::read_u32(bytes, 4)),
        base_seq: le_bytes::read_u32(bytes, 8),
        status_count: le_bytes::read_u32(bytes, 12),
        reference_time: le_bytes::read_u32(bytes, 16),
        feedback_count: le_bytes::read_u32(bytes, 20),
    }
}

// The case of a message of that length that is so judged.
fn case_of(length: u32, judged: Result<Header, Refusal>) -> Case {
    let number = twcc::number(judged);
    match judged {
        Ok(header) => Case {
            length,
            number,
            base_seq: u32::from(header.base_seq),
            status_count: u32::from(header.status_count),
            reference_time: header.reference_time.cast_unsigned(),
            feedback_count: u32::from(header.feedback_count),
        },
        Err(_) => Case {
            length,
            number,
            base_seq: 0,
            status_count: 0,
            reference_time: 0,
            feedback_count: 0,
        },
    }
}

fn agrees(c: Case, judged: Result<Header, Refusal>) -> bool {
    case_of(c.length, judged) == c
}

// How many packets come after the message.
fn packets(c: Case) -> u32 {
    if c.number == 0 {
        return c.status_count;
    }
    0
}

// Whether a packet is the one that the bytes tell.
fn is_told(packet: Packet, bytes: &[u8]) -> bool {
    let received = u16::from(packet.ticks.is_some());
    let ticks = packet.ticks.unwrap_or(0).cast_unsigned();
    (le_bytes::read_u16(bytes, 0) == packet.sequence)
        & (le_bytes::read_u16(bytes, 2) == received)
        & (le_bytes::read_u32(bytes, 4) == ticks)
}

// Whether packets are handed out as told, then none, asked three times.
fn hands_out_all<F: FnMut() -> Option<Packet>>(mut next: F, told: &[u8]) -> bool
    requires { F.IsAlwaysCallable next }
{
    let mut same = true;
    for bytes in told.chunks_exact(PACKET_BYTES) {
        same &= next().is_some_and(|packet| is_told(packet, bytes));
    }
    same & next().is_none() & next().is_none() & next().is_none()
}

// By steps over the lent message.
fn compared_by_steps(c: Case, message: &[u8], told: &[u8]) -> bool {
    match feedback_reader::start(message) {
        Ok(started) => {
            let mut cursor = started.cursor;
            agrees(c, Ok(started.header))
                & hands_out_all(|| feedback_reader::step(message, &mut cursor), told)
        }
        Err(refusal) => agrees(c, Err(refusal)),
    }
}

// By a reader that holds the message, and says its header.
fn compared_by_reader(c: Case, message: &[u8], told: &[u8]) -> bool {
    match FeedbackReader::start(message) {
        Ok(mut reader) => { agrees(c, Ok(reader.header())) & hands_out_all(|| reader.next(), told) }
        Err(refusal) => agrees(c, Err(refusal)),
    }
}

fn compared(c: Case, message: &[u8], told: &[u8]) -> bool {
    agrees(c, twcc::judge(message))
        & compared_by_steps(c, message, told)
        & compared_by_reader(c, message, told)
}

// Reads a case's message and packets and compares. What is cut short or too long differs.
fn read_and_compared(input: &mut impl Read, c: Case, bytes: &mut [u8]) -> io::Result<bool> {
    let length = c.length as usize;
    let end = length + packets(c) as usize * PACKET_BYTES;
    if end > bytes.len() {
        return Ok(false);
    }
    let read = reading::read_full(input, &mut bytes[0..end])? == end;
    Ok(read & compared(c, &bytes[0..length], &bytes[length..end]))
}

// Every case of standard input.
fn replay(input: &mut impl Read, bytes: &mut [u8]) -> io::Result<Counts> {
    let mut counts = Counts::new();
    // A loop of its own: its record is no `Case`.
    for _ in 0..1_000_000_000u64 {
        let mut words = [0u8; CASE_BYTES];
        let read = reading::read_full(input, &mut words)?;
        if read == 0 {
            break;
        }
        let c = read_case(&words);
        let same = (read == CASE_BYTES) & read_and_compared(input, c, bytes)?;
        counts = counts.counted(packets(c) as u64, same);
    }
    Ok(counts)
}

fn main(rt: HostRuntime) -> io::Result<()> {
    let mut bytes = cases::zeros::<ROOM>();
    let counts = replay(&mut rt.reader(), &mut bytes)?;
    counts.print_all(&rt, b"feedback")
}

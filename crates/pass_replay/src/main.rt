// Replays pass files (tools/oracle, commands passes and case) from standard input and compares each answer and the whole output. A case is five words of 4 bytes,
// little-endian: length of the file, length of the output, number, length of the listing, linked packets; then the file and the listing.
// A file is listed with up to 65,535 records, then with up to 1,365: what has no more gets the same, and a longer one 10.
// Prints how many files and how many of them differ, how many packets are linked in those that are listed, and the first file that differs.
#![tactic(auto)]

use cases::Counts;
use pass_records::FileRefusal;
use std::io;
use std::io::Read;

// What the output holds before a file is listed. Buffers are arrays, as a caller without a heap lends them.
const UNWRITTEN: u8 = 0xa5;

// More than any case needs, and more than one of up to 1,365 records does.
const ROOM: usize = 65_537 * pass_records::RECORD_BYTES;

const SHORT_ROOM: usize = 80_000;

const SHORT_RECORDS: u16 = 1_365;

// How much of a listing is read at a time.
const PART: usize = 4_096;

// As the file has it: a number of 0 stands beside a listing's length, and any other beside a length of 0, which `answers` compares too.
#[derive(Clone, Copy)]
struct Header {
    file: usize,
    output: usize,
    number: u32,
    listing: usize,
    packets: u32,
}

// Neither this nor the next stops at the first difference: so each compiles to wide comparisons. With `all` and std's `starts_with` files took five times as long.
fn unwritten(out: &[u8]) -> bool {
    out.iter()
        .fold(true, |same, byte| same & (*byte == UNWRITTEN))
}

fn starts_with(out: &[u8], text: &[u8]) -> bool {
    let same = out
        .iter()
        .zip(text)
        .fold(true, |same, (a, b)| same & (a == b));
    same & (text.len() <= out.len())
}

// Whether the next n bytes of standard input, at most a part, are the output's at a place.
fn reads(input: &mut impl Read, out: &[u8], at: usize, n: usize) -> io::Result<bool> {
    let mut part = [0u8; PART];
    let Some(part) = part.get_mut(..n) else {
        return Ok(false);
    };
    let whole = reading::read_full(input, part)? == n;
    Ok(whole & out.get(at..).is_some_and(|rest| starts_with(rest, part)))
}

// Whether the output starts with so many bytes of standard input, and is unwritten after them. All of them are read, also where one differs, so that the next case
// begins where it stands.
fn holds(input: &mut impl Read, out: &[u8], bytes: usize) -> io::Result<bool> {
    let mut same = true;
    for k in 0..bytes / PART {
        same &= reads(input, out, k * PART, PART)?;
    }
    same &= reads(input, out, bytes - bytes % PART, bytes % PART)?;
    Ok(same & out.get(bytes..).is_some_and(unwritten))
}

fn answers(listed: Result<usize, FileRefusal>, number: u64, bytes: usize) -> bool {
    (pass_file::number(listed) == number) & (listed.unwrap_or(0) == bytes)
}

// Whether a file of up to 1,365 records gets under that limit what it got, and a longer one 10.
fn agrees_below(file: &[u8], out: &[u8], number: u64, bytes: usize) -> bool {
    let room = out.len();
    let mut other = [UNWRITTEN; SHORT_ROOM];
    if file.len() > SHORT_RECORDS as usize * pass_records::RECORD_BYTES {
        let listed = pass_file::list(file, &mut other, SHORT_RECORDS);
        return answers(listed, 10, 0) & unwritten(&other);
    }
    let Some(other) = other.get_mut(..room) else {
        return false;
    };
    answers(pass_file::list(file, other, SHORT_RECORDS), number, bytes) & starts_with(out, other)
}

fn read_header(header: &[u8]) -> Header {
    Header {
        file: le_bytes::read_u32(header, 0) as usize,
        output: le_bytes::read_u32(header, 4) as usize,
        number: le_bytes::read_u32(header, 8),
        listing: le_bytes::read_u32(header, 12) as usize,
        packets: le_bytes::read_u32(header, 16),
    }
}

// Reads a case's file and listing and compares. What is cut short or too long differs.
fn compared(input: &mut impl Read, c: Header, file: &mut [u8], out: &mut [u8]) -> io::Result<bool> {
    let n = c.file;
    let room = c.output;
    let bytes = c.listing;
    let number = c.number as u64;
    let (Some(file), Some(out)) = (file.get_mut(..n), out.get_mut(..room)) else {
        return Ok(false);
    };
    let read = reading::read_full(input, file)? == n;
    out.fill(UNWRITTEN);
    let listed = pass_file::list(file, out, pass_records::MOST_RECORDS);
    let same = answers(listed, number, bytes) & holds(input, out, bytes)?;
    Ok(read & same & agrees_below(file, out, number, bytes))
}

// Every case of standard input.
fn replay(input: &mut impl Read, file: &mut [u8], out: &mut [u8]) -> io::Result<Counts> {
    let mut counts = Counts::new();
    // A loop of its own: its record is no `Case`.
    for _ in 0..1_000_000_000u64 {
        let mut header = [0u8; 20];
        if reading::read_full(input, &mut header)? < 20 {
            break;
        }
        let c = read_header(&header);
        counts = counts.counted(c.packets as u64, compared(input, c, file, out)?);
    }
    Ok(counts)
}

fn main(rt: HostRuntime) -> io::Result<()> {
    let mut file = cases::zeros::<ROOM>();
    let mut out = cases::zeros::<ROOM>();
    let counts = replay(&mut rt.reader(), &mut file, &mut out)?;
    counts.print_all(&rt, b"pass_file")
}

// Replays the limits of pass files (tools/oracle, command limits files) from standard input: the codes that C gets for a file, and for the output that its length
// wants. A case is 12 words of 8 bytes, little-endian: an operation; length of the file, next and kind of record 1, length of the output, 0; number, length of the
// listing, output that is wanted or 0, three times 0. All other bytes of the file are 0, but records 1,365, 1,366 and 65,535 are timeouts.
// Prints how many cases there were and how many of them differ, and the first that differs.
#![tactic(auto)]

use cases::{Case, Counts};
use std::io;
use std::io::Read;

// More than any case needs.
const ROOM: usize = 65_537 * 48;

// The bytes of record 1 that a case has.
fn put_first(file: &mut [u8], next: u64, kind: u64) {
    let next = next.to_le_bytes();
    let kind = kind.to_le_bytes();
    if let Some(first) = file.first_chunk_mut::<5>() {
        *first = [next[0], next[1], next[2], 0, kind[0]];
    }
}

fn put_timeouts(file: &mut [u8]) {
    for record in [1_364, 1_365, 65_534] {
        if let Some(kind) = file.get_mut(record * 48 + 4) {
            *kind = 3;
        }
    }
}

// A number, or the opposite of the number of a question: C gets no `Result`.
fn code(question: u64, number: u64) -> i64 {
    match question {
        10..=13 => -(question as i64),
        _ => (number % 4_294_967_296) as i64,
    }
}

fn agrees(c: Case, file: &[u8], out: &mut [u8]) -> bool {
    let answers = c.answers;
    let question = answers[0];
    let unlisted = if question == 10 { 10 } else { 0 };
    (c_pass_file::hornetpewter_list(file, out) == code(question, answers[1]))
        & (c_pass_file::hornetpewter_room(file.len()) == code(unlisted, answers[2]))
}

// What is longer than the file and the output differs.
fn compared(c: Case, file: &mut [u8], out: &mut [u8]) -> bool {
    let bytes = c.a as usize;
    let room = c.d as usize;
    put_first(file, c.b, c.c);
    let (Some(file), Some(out)) = (file.get(..bytes), out.get_mut(..room)) else {
        return false;
    };
    agrees(c, file, out)
}

// Every case of standard input.
fn replay(input: &mut impl Read, file: &mut [u8], out: &mut [u8]) -> io::Result<Counts> {
    let mut counts = Counts::new();
    put_timeouts(file);
    // Each program that reads cases has this loop: the contract of one in `cases` would have to say of which cases of the input the closure was called.
    for _ in 0..1_000_000u64 {
        let mut bytes = [0u8; 96];
        if reading::read_full(input, &mut bytes)? < 96 {
            break;
        }
        counts = counts.counted(0, compared(Case::read(&bytes), file, out));
    }
    Ok(counts)
}

fn main(rt: HostRuntime) -> io::Result<()> {
    let mut file = cases::zeros::<ROOM>();
    let mut out = cases::zeros::<ROOM>();
    let counts = replay(&mut rt.reader(), &mut file, &mut out)?;
    counts.print(&rt, b"file_limits")?;
    counts.print_first(&rt)
}

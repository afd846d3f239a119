// Question 1 at its limits. A line of standard input has the name of a clause and, parted by spaces, cases. A case sets words of a link (link_words), as
// 86=4000000000000000,87=3ff6a09e667f3bcd does: two decimal digits, and a number in hexadecimal. The other words are those of a link with every option
// present. Prints the name, and for each case the number that a timeout gives, 0 accepted and 1 refused, or a dash for words that are no link's.
#![tactic(auto)]

use bandwidth::Bitrate;
use link::Opening;
use std::io;
use std::io::Read;

fn opened() -> [u64; 100] {
    if let Ok(opening) = Opening::judge(Bitrate(1_000_000.0), 500_000_000, 150_000_000) {
        return link_words::words(opening.link());
    }
    [0; 100]
}

// Every option present, its value 0 but for an acknowledged rate of 1; twenty timings at 0; a byte in an elapsed window of 1 ns.
fn full() -> [u64; 100] {
    let mut words = opened();
    words[3] = 1;
    words[4] = float_bits::to_bits(1.0);
    words[6] = 1;
    words[7] = 1;
    words[8] = 1;
    words[10] = 1;
    words[12] = 1;
    words[17] = 1;
    words[22] = 1;
    words[64] = 20;
    words[70] = 1;
    words[72] = 2;
    words[74] = 1;
    words[81] = 1;
    words[84] = 1;
    words[88] = 1;
    words[90] = 1;
    words[93] = 1;
    words[98] = 1;
    words
}

// The next byte, if there is one.
fn next(input: &mut impl Read) -> io::Result<Option<u8>> {
    let mut byte = [0u8; 1];
    Ok((input.read(&mut byte)? > 0).then_some(byte[0]))
}

fn digit(c: u8) -> Option<u64> {
    match c {
        b'0'..=b'9' => Some((c - b'0') as u64),
        b'a'..=b'f' => Some((c - b'a' + 10) as u64),
        _ => None,
    }
}

// A number in hexadecimal, and the byte after it. None comes after 17 digits.
fn read_number(input: &mut impl Read) -> io::Result<(u64, Option<u8>)> {
    let mut value = 0;
    for _ in 0..17u64 {
        let end = next(input)?;
        let Some(d) = end.and_then(digit) else {
            return Ok((value, end));
        };
        value = (value % 0x1000_0000_0000_0000 * 16).wrapping_add(d);
    }
    Ok((value, None))
}

// Prints a name, of up to 1,000 bytes; whether a colon ends it.
fn name(rt: &impl Print, input: &mut impl Read) -> io::Result<bool> {
    for _ in 0..1000u64 {
        let Some(c) = next(input)? else {
            return Ok(false);
        };
        if c == b':' {
            return Ok(true);
        }
        rt.write_all(&[c])?;
    }
    Ok(false)
}

fn show(rt: &impl Print, words: &[u64; 100]) -> io::Result<()> {
    if link_words::formed(words) {
        let called = link::timeout(link_words::load(words), 1_000_000_000);
        let number = questions::number(called.answer);
        return print!(rt; " {number}");
    }
    print!(rt; " -")
}

// Asks a case; whether there is another.
fn case(rt: &impl Print, input: &mut impl Read, link: [u64; 100]) -> io::Result<bool> {
    let mut words = link;
    let mut end = None;
    for _ in 0..100u64 {
        let (at, _) = read_number(input)?;
        let word;
        (word, end) = read_number(input)?;
        // Two decimal digits, which were read as hexadecimal ones.
        words[(at / 16 % 10 * 10 + at % 16 % 10) as usize] = word;
        if end != Some(b',') {
            break;
        }
    }
    show(rt, &words)?;
    Ok(end == Some(b' '))
}

fn cases(rt: &impl Print, input: &mut impl Read, link: [u64; 100]) -> io::Result<()> {
    for _ in 0..1000u64 {
        if !case(rt, input, link)? {
            break;
        }
    }
    Ok(())
}

// Byte by byte: by `lines`, `split` and `parse` other answers came for lines that are no cases, or are longer than the loops here allow.
fn main(rt: HostRuntime) -> io::Result<()> {
    let mut input = rt.reader();
    let link = full();
    for _ in 0..1000u64 {
        if !name(&rt, &mut input)? {
            break;
        }
        rt.write_all(b":")?;
        let _ = next(&mut input)?;
        cases(&rt, &mut input, link)?;
        rt.write_all(b"\n")?;
    }
    Ok(())
}

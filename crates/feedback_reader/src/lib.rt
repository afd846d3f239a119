// A reader of feedback messages: started by judging, it hands out the packets one by one.
// `start` and `step` take the message and the cursor apart, since C keeps the cursor alone, in words that it lends beside the message, and has the header from its start; a FeedbackReader holds both, for Rust.
#![tactic(auto)]

ghost use Rattle.std.specs.Prelude.{◌≡◌, ◌+◌, ◌<◌, ◌≤◌, length, drop};
ghost use Rattle.std.specs.Int.{w32, cast_unsigned};
ghost use Rattle.std.specs.Iterator.{at_most};
ghost use Rattle.status_chunk.specs.Chunk.{number};
ghost use Rattle.twcc.specs.Feedback as Feedback;
ghost use Rattle.feedback_reader.specs.Reader as Reader;

use status_chunk::Symbol;
use twcc::{HEADER_BYTES, Header, Packet, Refusal};

// A chunk, how many of its symbols are left, and the place of the chunk after it.
#[derive(Clone, Copy, Debug, PartialEq, Eq)]
pub struct Place {
    pub next_chunk: usize,
    pub chunk: u16,
    pub symbols_left: u16,
}

// What a reader holds beside the message: the chunk that it is in, the place of the next delta, how many packets are left, the next sequence number, and the sum
// of the deltas so far modulo 2^32.
#[derive(Clone, Copy, Debug, PartialEq, Eq)]
pub struct Cursor {
    pub place: Place,
    pub next_delta: usize,
    pub packets_left: u16,
    pub next_sequence: u16,
    pub ticks: u32,
}

// What a good message's header says, and the cursor before its first packet.
#[derive(Clone, Copy, Debug, PartialEq, Eq)]
pub struct Started {
    pub header: Header,
    pub cursor: Cursor,
}

// Judges a message, and starts before its first packet. The chunk before the first is a run of no symbols.
#[tactic(auto, using(std::proofs::lemmas::Result::err_from_is_err_and), unfolding(crate::specs::Reader::start))]
pub fn start(message: &[u8]) -> Result<Started, Refusal>
    ensures { result ≡ Reader.start message.now }
{
    let judgement = twcc::judge_with_deltas(message)?;
    let header = judgement.header;
    let place = Place {
        next_chunk: HEADER_BYTES,
        chunk: 0,
        symbols_left: 0,
    };
    let cursor = Cursor {
        place,
        next_delta: judgement.deltas,
        packets_left: header.status_count,
        next_sequence: header.base_seq,
        ticks: 0,
    };
    Ok(Started { header, cursor })
}

// The first chunk with a symbol left: the one at hand, or one of those after it. Runs of no symbols are passed over.
#[tactic(auto, using(crate::specs::Filling::filling))]
fn fill(message: &[u8], at_hand: Place) -> Place
    ensures { result ≡ Reader.filled (drop at_hand.next_chunk message.now) at_hand }
{
    let mut place = at_hand;
    // No `for`: a chunk with symbols ends it, and the place of the chunk after that is part of what it gives.
    while place.symbols_left == 0 {
        if twcc::cut_short(message, place.next_chunk, 2) {
            return place;
        }
        let chunk = twcc::read_u16(message, place.next_chunk);
        place = Place {
            next_chunk: place.next_chunk + 2,
            chunk,
            symbols_left: status_chunk::symbol_count(chunk),
        };
    }
    place
}

// The recv delta of a symbol at a place: a byte, not signed, or two bytes and signed.
#[tactic(auto, using(twcc::specs::Numbers::casts), unfolding(crate::specs::Reader::delta_bits))]
fn recv_delta(message: &[u8], at: usize, symbol: Symbol) -> i32
    ensures { cast_unsigned w32 result ≡ Reader.delta_bits (number symbol) message.now at }
{
    match symbol {
        Symbol::SmallDelta => i32::from(le_bytes::read_u8(message, at)),
        Symbol::LargeDelta => i32::from(twcc::read_u16(message, at).cast_signed()),
        Symbol::NotReceived | Symbol::Reserved => 0,
    }
}

#[tactic(auto, using(twcc::specs::Numbers::casts, status_chunk::specs::Laws::received), unfolding(twcc::specs::Feedback::packet))]
fn packet(symbol: Symbol, sequence: u16, sum: u32) -> Packet
    ensures { result ≡ Feedback.packet (number symbol) sequence (Feedback.signed 0x8000_0000 sum) }
{
    let ticks = match symbol {
        Symbol::NotReceived => None,
        _ => Some(sum.cast_signed()),
    };
    Packet { sequence, ticks }
}

// The packet of the symbol at hand.
#[tactic(auto, using(twcc::specs::Numbers::casts), unfolding(crate::specs::Reader::taken))]
fn take(message: &[u8], cursor: &mut Cursor, place: Place, symbol: Symbol) -> Packet
    requires { (cursor.old.next_delta + number symbol ≤ length message.now) × ((0 < cursor.old.packets_left) × (0 < place.symbols_left)) }
    ensures { Reader.gives (Some result) cursor.new ≡ Reader.taken message.now place cursor.old (number symbol) }
{
    let delta = recv_delta(message, cursor.next_delta, symbol);
    let ticks = cursor.ticks.wrapping_add_signed(delta);
    let taken = packet(symbol, cursor.next_sequence, ticks);
    *cursor = Cursor {
        place: Place {
            symbols_left: place.symbols_left - 1,
            ..place
        },
        next_delta: cursor.next_delta + symbol.byte_len(),
        packets_left: cursor.packets_left - 1,
        next_sequence: cursor.next_sequence.wrapping_add(1),
        ticks,
    };
    taken
}

// The next packet. None is left after the last; nor is one where a cursor that no judging made runs past the message or meets a reserved symbol. Then it stays as it is.
#[tactic(auto, unfolding(crate::specs::Reader::step, crate::specs::Reader::step_in, crate::specs::Reader::taken_if))]
pub fn step(message: &[u8], cursor: &mut Cursor) -> Option<Packet>
    ensures { Reader.gives result cursor.new ≡ Reader.step message.now cursor.old }
{
    if cursor.packets_left == 0 {
        return None;
    }
    let place = fill(message, cursor.place);
    if place.symbols_left == 0 {
        return None;
    }
    let symbol = status_chunk::symbol_left(place.chunk, place.symbols_left);
    if symbol == Symbol::Reserved {
        return None;
    }
    if twcc::cut_short(message, cursor.next_delta, symbol.byte_len()) {
        return None;
    }
    Some(take(message, cursor, place, symbol))
}

// A reader that holds the message and the cursor.
#[derive(Clone, Copy)]
pub struct FeedbackReader<'a> {
    pub message: &'a [u8],
    pub cursor: Cursor,
}

impl<'a> FeedbackReader<'a> {
    // Judges a message, and starts a reader of it.
    pub fn start(message: &'a [u8]) -> Result<FeedbackReader<'a>, Refusal>
        ensures { result ≡ Reader.reader_start message.entry }
    {
        let cursor = start(message)?.cursor;
        Ok(FeedbackReader { message, cursor })
    }

    // What the message's header says. Of a message shorter than that the missing bytes count as 0.
    pub fn header(self) -> Header
        ensures { result ≡ Feedback.read_header self.entry.message.now }
    {
        twcc::read_header(self.message)
    }
}

// The packets, one by one.
impl<'a> Iterator for FeedbackReader<'a> {
    type Item = Packet;

    ghost remaining = { λ r. at_most r.cursor.packets_left };

    ghost next_gives = { λ r packet s. (packet ≡ (Reader.reader_next r).packet) × (s ≡ (Reader.reader_next r).reader) };

    #[tactic(auto, unfolding(crate::specs::Reader::step, crate::specs::Reader::step_in, crate::specs::Reader::taken_if, crate::specs::Reader::taken))]
    fn next(&mut self) -> Option<Packet> {
        step(self.message, &mut self.cursor)
    }
}

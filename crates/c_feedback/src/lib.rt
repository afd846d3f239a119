// What programs in C or Rust call to read feedback messages, by the exports of `c_feedback_c`. A slice is a pointer and a length; a reader is seven words that the caller lends, beside the message
// that it was started on. Any words are met with an answer: a word counts modulo the size of its number's type.
//
//   0 next_chunk   1 chunk   2 symbols_left   3 next_delta   4 packets_left   5 next_sequence   6 ticks
#![tactic(auto)]

ghost use Rattle.std.specs.Prelude.{◌≡◌, pos, length};
ghost use Rattle.twcc.specs.Feedback.{judge};
ghost use Rattle.feedback_reader.specs.Reader.{start};
ghost use Rattle.feedback_lists.specs.Lists as Lists;
ghost use Rattle.c_feedback.specs.CFeedback as CFeedback;

use feedback_reader::{Cursor, Place};

fn load(reader: &[u64; 7]) -> Cursor
    ensures { result ≡ CFeedback.cursor_of reader.now }
{
    Cursor {
        place: Place {
            next_chunk: reader[0] as usize,
            chunk: (reader[1] % 0x1_0000) as u16,
            symbols_left: (reader[2] % 0x1_0000) as u16,
        },
        next_delta: reader[3] as usize,
        packets_left: (reader[4] % 0x1_0000) as u16,
        next_sequence: (reader[5] % 0x1_0000) as u16,
        ticks: (reader[6] % 0x1_0000_0000) as u32,
    }
}

fn store(reader: &mut [u64; 7], cursor: Cursor)
    ensures { reader.new ≡ CFeedback.to_words cursor }
{
    *reader = [
        cursor.place.next_chunk as u64,
        u64::from(cursor.place.chunk),
        u64::from(cursor.place.symbols_left),
        cursor.next_delta as u64,
        u64::from(cursor.packets_left),
        u64::from(cursor.next_sequence),
        u64::from(cursor.ticks),
    ];
}

// Judges a message and starts a reader of it: 0, and the header's four numbers; or the opposite of the number of the question that the message fails, and every lent place is as it was.
#[tactic(auto, using(crate::specs::Laws::judged))]
pub fn hornetpewter_feedback_start(
    message: &[u8],
    reader: &mut [u64; 7],
    base_seq: &mut u16,
    status_count: &mut u16,
    reference_time: &mut i32,
    feedback_count: &mut u8,
) -> i64
    ensures value { result ≡ CFeedback.code (judge message.now) }
    ensures reader_after { reader.new ≡ CFeedback.words_started (start message.now) reader.old }
    ensures base_seq_after { base_seq.new ≡ CFeedback.base_seq (judge message.now) base_seq.old }
    ensures status_count_after { status_count.new ≡ CFeedback.status_count (judge message.now) status_count.old }
    ensures reference_time_after { reference_time.new ≡ CFeedback.reference_time (judge message.now) reference_time.old }
    ensures feedback_count_after { feedback_count.new ≡ CFeedback.feedback_count (judge message.now) feedback_count.old }
{
    // The opposite of a refusal's number is written out here, as in `c_api` and `c_pass_file`: one function for the three would want a crate of its own for this line, since no crate with code stands below all three.
    match feedback_reader::start(message) {
        Ok(started) => {
            let header = started.header;
            store(reader, started.cursor);
            *base_seq = header.base_seq;
            *status_count = header.status_count;
            *reference_time = header.reference_time;
            *feedback_count = header.feedback_count;
            0
        }
        Err(refusal) => -(u64::from(refusal) as i64),
    }
}

// Hands out the next packets, as many as both lists have room for, and tells how many: a packet's status, 1 received and 0 not, its ticks, 0 where it was not received, and the sequence
// number of the first. The lists' other places stay as they were; where none is handed out every lent place does.
pub fn hornetpewter_feedback_next(
    message: &[u8],
    reader: &mut [u64; 7],
    sequence: &mut u16,
    statuses: &mut [u8],
    ticks: &mut [i32],
) -> i64
    ensures value { result ≡ pos (length (CFeedback.packets_to statuses.old ticks.old message.now reader.old)) }
    ensures reader_after { reader.new ≡ CFeedback.words_after statuses.old ticks.old message.now reader.old }
    ensures sequence_after { sequence.new ≡ CFeedback.sequence_after (CFeedback.packets_to statuses.old ticks.old message.now reader.old) sequence.old }
    ensures statuses_after { statuses.new ≡ Lists.statuses_over (CFeedback.packets_to statuses.old ticks.old message.now reader.old) statuses.old }
    ensures ticks_after { ticks.new ≡ Lists.ticks_over (CFeedback.packets_to statuses.old ticks.old message.now reader.old) ticks.old }
{
    let mut cursor = load(reader);
    let first = cursor.next_sequence;
    let packets = feedback_lists::read(message, &mut cursor, statuses, ticks);
    if packets == 0 {
        return 0;
    }
    store(reader, cursor);
    *sequence = first;
    packets as i64
}

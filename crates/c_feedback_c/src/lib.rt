// What programs in C or Rust call for reading feedback messages: each export is the function of that name of `c_feedback`, once more since a crate is a library or a static library and not both.
// A slice is a pointer and a length.
#![tactic(auto)]

ghost use Rattle.std.specs.Prelude.{◌≡◌, pos, length};
ghost use Rattle.twcc.specs.Feedback.{judge};
ghost use Rattle.feedback_reader.specs.Reader.{start};
ghost use Rattle.feedback_lists.specs.Lists as Lists;
ghost use Rattle.c_feedback.specs.CFeedback as CFeedback;

// Judges a message and starts a reader of it: 0, and the header's four numbers; or the opposite of the number of the question that the message fails, and every lent place is as it was.
#[unsafe(no_mangle)]
pub extern "C" fn hornetpewter_feedback_start(
    message: &[u8],
    reader: &mut [u64; 7],
    base_seq: &mut u16,
    status_count: &mut u16,
    reference_time: &mut i32,
    feedback_count: &mut u8,
) -> i64
    ensures value { result ≡ CFeedback.code (judge message.now) }
    ensures reader_after { reader.new ≡ CFeedback.words_started (start message.now) reader.old }
    ensures base_seq_after { base_seq.new ≡ CFeedback.base_seq (judge message.now) base_seq.old }
    ensures status_count_after { status_count.new ≡ CFeedback.status_count (judge message.now) status_count.old }
    ensures reference_time_after { reference_time.new ≡ CFeedback.reference_time (judge message.now) reference_time.old }
    ensures feedback_count_after { feedback_count.new ≡ CFeedback.feedback_count (judge message.now) feedback_count.old }
{
    c_feedback::hornetpewter_feedback_start(
        message,
        reader,
        base_seq,
        status_count,
        reference_time,
        feedback_count,
    )
}

// Hands out the next packets, as many as both lists have room for, and tells how many: a packet's status, 1 received and 0 not, its ticks, 0 where it was not received, and the sequence
// number of the first. The lists' other places stay as they were; where none is handed out every lent place does.
#[unsafe(no_mangle)]
pub extern "C" fn hornetpewter_feedback_next(
    message: &[u8],
    reader: &mut [u64; 7],
    sequence: &mut u16,
    statuses: &mut [u8],
    ticks: &mut [i32],
) -> i64
    ensures value { result ≡ pos (length (CFeedback.packets_to statuses.old ticks.old message.now reader.old)) }
    ensures reader_after { reader.new ≡ CFeedback.words_after statuses.old ticks.old message.now reader.old }
    ensures sequence_after { sequence.new ≡ CFeedback.sequence_after (CFeedback.packets_to statuses.old ticks.old message.now reader.old) sequence.old }
    ensures statuses_after { statuses.new ≡ Lists.statuses_over (CFeedback.packets_to statuses.old ticks.old message.now reader.old) statuses.old }
    ensures ticks_after { ticks.new ≡ Lists.ticks_over (CFeedback.packets_to statuses.old ticks.old message.now reader.old) ticks.old }
{
    c_feedback::hornetpewter_feedback_next(message, reader, sequence, statuses, ticks)
}

// Packets of a feedback message handed out to lent lists: message and cursor, statuses and ticks apart, as C lends them.
#![tactic(auto)]

ghost use Rattle.std.specs.Prelude.{◌≡◌, ◌+◌, ◌≤◌, length, replicate};
ghost use Rattle.std.proofs.lemmas.List.Edits.{sets};
ghost use Rattle.feedback_lists.specs.Lists as Lists;
ghost use Rattle.feedback_lists.specs.Run as Run;

use feedback_reader::{Cursor, Place};

// How many packets of a run of small deltas are at hand, whose deltas are in a message of that length and which so many places have room for; 0 in another chunk.
fn run_at_hand(length: usize, places: usize, cursor: Cursor) -> usize
    ensures { Run.AtHand length places cursor result }
{
    let place = cursor.place;
    // By a range, as `status_chunk` tells its kinds: a chunk from 0x2000 up to 0x4000 is a run of small deltas.
    if !(0x2000..0x4000).contains(&place.chunk) {
        return 0;
    }
    let packets = place.symbols_left.min(cursor.packets_left);
    usize::from(packets)
        .min(places)
        .min(length.saturating_sub(cursor.next_delta))
}

// Hands out n packets of a run of small deltas, from a place of the lists on.
// Given parts of the lists, with `fill` and `enumerate`: tried, and handing out took 1.2 to 1.3 times as long. With `zip` and `ticks.iter_mut()`: tried, and the proof didn't close, since nothing is known of what is written through a zip of `iter_mut`.
fn read_run(
    message: &[u8],
    cursor: &mut Cursor,
    statuses: &mut [u8],
    ticks: &mut [i32],
    at: usize,
    n: usize,
)
    requires at_hand { (cursor.old.next_delta + n ≤ length message.now) × ((n ≤ cursor.old.place.symbols_left) × (n ≤ cursor.old.packets_left)) }
    requires room { (at + n ≤ length statuses.old) × (at + n ≤ length ticks.old) }
    ensures cursor_after { cursor.new ≡ Run.after_run cursor.old n (Run.run_ticks n message.now cursor.old.next_delta cursor.old.ticks) }
    ensures statuses_after { statuses.new ≡ sets statuses.old at (replicate n 1) }
    ensures ticks_after { ticks.new ≡ sets ticks.old at (Run.run_times n message.now cursor.old.next_delta cursor.old.ticks) }
{
    let delta = cursor.next_delta;
    let mut sum = cursor.ticks;
    for i in 0..n {
        sum = sum.wrapping_add(u32::from(message[delta + i]));
        statuses[at + i] = 1;
        ticks[at + i] = sum.cast_signed();
    }
    *cursor = Cursor {
        place: Place {
            symbols_left: cursor.place.symbols_left - n as u16,
            ..cursor.place
        },
        next_delta: delta + n,
        packets_left: cursor.packets_left - n as u16,
        next_sequence: cursor.next_sequence.wrapping_add(n as u16),
        ticks: sum,
    };
}

// Hands out the next packets, as many as both lists have room for, and tells how many: of each its status, 1 received and 0 not, and its ticks, 0 where it was not received.
// The lists' other places stay as they were.
pub fn read(message: &[u8], cursor: &mut Cursor, statuses: &mut [u8], ticks: &mut [i32]) -> usize
    ensures value { result ≡ length (Lists.next_packets (Lists.room statuses.old ticks.old) message.now cursor.old) }
    ensures cursor_after { cursor.new ≡ Lists.cursor_after (Lists.room statuses.old ticks.old) message.now cursor.old }
    ensures statuses_after { statuses.new ≡ Lists.statuses_over (Lists.next_packets (Lists.room statuses.old ticks.old) message.now cursor.old) statuses.old }
    ensures ticks_after { ticks.new ≡ Lists.ticks_over (Lists.next_packets (Lists.room statuses.old ticks.old) message.now cursor.old) ticks.old }
{
    let room = statuses.len().min(ticks.len());
    let mut packets: usize = 0;
    // No `for`: a turn hands out a run of packets or one.
    while packets < room {
        let n = run_at_hand(message.len(), room - packets, *cursor);
        if 0 < n {
            read_run(message, cursor, statuses, ticks, packets, n);
            packets += n;
            continue;
        }
        let Some(packet) = feedback_reader::step(message, cursor) else {
            return packets;
        };
        statuses[packets] = u8::from(packet.ticks.is_some());
        ticks[packets] = packet.ticks.unwrap_or(0);
        packets += 1;
    }
    packets
}

// The packets of a pass file that wait for their report, in five lists: a packet's record joins those that are there.
#![tactic(auto)]

ghost use Rattle.std.specs.Prelude.{◌≡◌, ◌≤◌, [], length, take};
ghost use Rattle.receive_order.specs.ReceiveOrder.{put_in_order};
ghost use Rattle.waiting_packets.specs.WaitingPackets as Waiting;

use pass_records::Record;
use std::marker::Model;

// How many are kept: one more than a report may have. With more than that the report is refused, whatever they are.
pub const MOST_WAITING: usize = receive_order::MOST_PACKETS + 1;

// Puts the first n packets of five lists into the order in which a report's packets are processed.
fn put_first_in_order(
    n: usize,
    sequences: &[u64],
    sizes: &mut [u64],
    sends: &mut [u64],
    remotes: &mut [u64],
    receives: &mut [u64],
)
    requires { (n ≤ length sequences.now) × (n ≤ length sizes.old) × (n ≤ length sends.old) × (n ≤ length remotes.old) × (n ≤ length receives.old) }
    ensures sizes_after { take n sizes.new ≡ put_in_order n (take n remotes.old) (take n sends.old) (take n sequences.now) (take n sizes.old) }
    ensures sends_after { take n sends.new ≡ put_in_order n (take n remotes.old) (take n sends.old) (take n sequences.now) (take n sends.old) }
    ensures remotes_after { take n remotes.new ≡ put_in_order n (take n remotes.old) (take n sends.old) (take n sequences.now) (take n remotes.old) }
    ensures receives_after { take n receives.new ≡ put_in_order n (take n remotes.old) (take n sends.old) (take n sequences.now) (take n receives.old) }
{
    receive_order::put_in_order(
        n,
        &sequences[..n],
        &mut sizes[..n],
        &mut sends[..n],
        &mut remotes[..n],
        &mut receives[..n],
    );
}

// Five lists of one length, since a report lends five lists, as C does; each at the start of its array. No heap, so an array holds as many as may be.
#[derive(Drop)]
pub struct WaitingPackets {
    len: usize,
    sequences: [u64; MOST_WAITING],
    sizes: [u64; MOST_WAITING],
    sends: [u64; MOST_WAITING],
    remotes: [u64; MOST_WAITING],
    receives: [u64; MOST_WAITING],
}

impl Model for WaitingPackets {
    ghost use Rattle.std.specs.Prelude.{◌≤◌, take};
    ghost use Rattle.waiting_packets.specs.WaitingPackets.{Packets, most_waiting};

    ghost Value = { Packets };

    ghost view = { λ w. record { sequences = take w.len w.sequences; sizes = take w.len w.sizes; sends = take w.len w.sends; remotes = take w.len w.remotes; receives = take w.len w.receives } };

    ghost invariant = { λ w. w.len ≤ most_waiting };
}

impl WaitingPackets {
    pub fn new() -> Self
        ensures { result ≡ Waiting.of_records [] }
    {
        Self {
            len: 0,
            sequences: [0; MOST_WAITING],
            sizes: [0; MOST_WAITING],
            sends: [0; MOST_WAITING],
            remotes: [0; MOST_WAITING],
            receives: [0; MOST_WAITING],
        }
    }

    // How many wait, and are kept.
    pub fn len(&self) -> usize
        ensures value { result ≡ length self.now.sequences }
        ensures bound { result ≤ Waiting.most_waiting }
    {
        self.len
    }

    // A packet's record joins them.
    pub fn push(&mut self, packet: Record)
        ensures { self.new ≡ Waiting.pushed self.old packet.entry.bytes.now }
    {
        if self.len < MOST_WAITING {
            let n = self.len;
            self.sequences[n] = packet.sequence();
            self.sizes[n] = packet.size() as u64;
            self.sends[n] = packet.send();
            self.remotes[n] = packet.remote();
            self.receives[n] = packet.receive();
            self.len = n + 1;
        }
    }

    // No packet waits.
    pub fn clear(&mut self)
        ensures { self.new ≡ Waiting.of_records [] }
    {
        self.len = 0;
    }

    // Puts them into the order in which a report's packets are processed.
    pub fn put_in_order(&mut self)
        ensures { self.new ≡ Waiting.in_order self.old }
    {
        put_first_in_order(
            self.len,
            &self.sequences,
            &mut self.sizes,
            &mut self.sends,
            &mut self.remotes,
            &mut self.receives,
        );
    }

    // A method for each list: one of all five would take a closure or a number for the list.
    pub fn sequences(&self) -> &[u64]
        ensures { result.now ≡ self.now.sequences }
    {
        &self.sequences[..self.len]
    }

    pub fn sizes(&self) -> &[u64]
        ensures { result.now ≡ self.now.sizes }
    {
        &self.sizes[..self.len]
    }

    pub fn sends(&self) -> &[u64]
        ensures { result.now ≡ self.now.sends }
    {
        &self.sends[..self.len]
    }

    pub fn remotes(&self) -> &[u64]
        ensures { result.now ≡ self.now.remotes }
    {
        &self.remotes[..self.len]
    }

    pub fn receives(&self) -> &[u64]
        ensures { result.now ≡ self.now.receives }
    {
        &self.receives[..self.len]
    }
}

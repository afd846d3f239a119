// src/bwe/delay/arrival_group.rs: packets sent together, and the delays between such groups. Group size and sequence numbers reach no answer.
#![tactic(auto)]

ghost use Rattle.std.specs.Prelude.{◌≡◌};
ghost use Rattle.arrival_group.specs.ArrivalGroup as Group;

use time::{TimeDelta, Timestamp};

const BURST_TIME_INTERVAL: u64 = 5_000_000;

const SEND_TIME_GROUP_LENGTH: u64 = 5_000_000;

const MAX_BURST_DURATION: u64 = 100_000_000;

// A group has a packet: the Rust's options of it are there together, or there is no group.
#[derive(Clone, Copy)]
pub struct ArrivalGroup {
    pub first_local_send_time: u64,
    pub first_remote_recv_time: u64,
    pub last_local_send_time: u64,
    pub last_remote_recv_time: u64,
}

// Whether a packet belongs to a group.
#[derive(Clone, Copy)]
pub enum Belongs {
    Yes,
    NewGroup,
    Skipped,
}

// The delay between two groups.
#[derive(Clone, Copy)]
pub struct InterGroupDelayDelta {
    pub send_delta: TimeDelta,
    pub arrival_delta: TimeDelta,
    pub last_remote_recv_time: u64,
}

#[derive(Clone, Copy)]
pub struct ArrivalGroupAccumulator {
    pub send_time_origin: Option<u64>,
    pub previous_group: Option<ArrivalGroup>,
    pub current_group: Option<ArrivalGroup>,
}

// An accumulator after a packet, and the delay delta that the packet gave.
#[derive(Clone, Copy)]
pub struct Accumulated {
    pub accumulator: ArrivalGroupAccumulator,
    pub delta: Option<InterGroupDelayDelta>,
}

// Rust's `Timestamp::from(later) - earlier`.
fn between(later: u64, earlier: u64) -> TimeDelta
    ensures { result ≡ Group.between later earlier }
{
    Timestamp::from(later) - Timestamp::from(earlier)
}

// A send instant to the nearest ms from the origin, halves up; past the end of u64, that end.
#[tactic(auto, unfolding(crate::specs::ArrivalGroup::rounded, time::specs::Time::saturating_add))]
fn rounded(origin: u64, elapsed: u64) -> u64
    ensures { result ≡ Group.rounded origin elapsed }
{
    let ms = (elapsed / 1000 + 500) / 1000;
    origin.saturating_add(ms.saturating_mul(1_000_000))
}

// Whether a packet arrives in a burst with its group.
fn in_burst(send_time_delta: TimeDelta, arrival_time_delta: TimeDelta, span: u64) -> bool
    ensures { result ≡ Group.in_burst send_time_delta arrival_time_delta span }
{
    arrival_time_delta <= TimeDelta::from(BURST_TIME_INTERVAL)
        && arrival_time_delta - send_time_delta < TimeDelta::ZERO
        && span < MAX_BURST_DURATION
}

impl ArrivalGroup {
    // A group of one packet.
    pub fn new(local_send_time: u64, remote_recv_time: u64) -> Self
        ensures { result ≡ Group.new local_send_time remote_recv_time }
    {
        Self {
            first_local_send_time: local_send_time,
            first_remote_recv_time: remote_recv_time,
            last_local_send_time: local_send_time,
            last_remote_recv_time: remote_recv_time,
        }
    }

    // The Rust's tests, of which the one that most packets meet, the group's length, comes before the costly ones.
    #[tactic(auto, unfolding(crate::specs::ArrivalGroup::belongs_to_group))]
    pub fn belongs_to_group(self, local_send_time: u64, remote_recv_time: u64) -> Belongs
        ensures { result ≡ Group.belongs_to_group self local_send_time remote_recv_time }
    {
        let first = self.first_local_send_time;
        if local_send_time < first {
            return Belongs::Skipped;
        }
        let first_send_delta = local_send_time.saturating_sub(first);
        if first_send_delta <= SEND_TIME_GROUP_LENGTH {
            return Belongs::Yes;
        }
        let send_time_delta = between(local_send_time, self.last_local_send_time);
        if send_time_delta == TimeDelta::ZERO {
            return Belongs::Yes;
        }
        let arrival_time_delta = between(remote_recv_time, self.last_remote_recv_time);
        let span = remote_recv_time.saturating_sub(self.first_remote_recv_time);
        if in_burst(send_time_delta, arrival_time_delta, span) {
            return Belongs::Yes;
        }
        Belongs::NewGroup
    }

    // The group with a packet of its own.
    #[tactic(auto, unfolding(crate::specs::ArrivalGroup::with_packet))]
    fn with_packet(self, local_send_time: u64, remote_recv_time: u64) -> Self
        ensures { result ≡ Group.with_packet self local_send_time remote_recv_time }
    {
        Self {
            last_local_send_time: self.last_local_send_time.max(local_send_time),
            last_remote_recv_time: self.last_remote_recv_time.max(remote_recv_time),
            ..self
        }
    }

    // The group after a packet, or none where the packet needs a new one.
    #[tactic(auto, unfolding(crate::specs::ArrivalGroup::add_packet))]
    pub fn add_packet(self, local_send_time: u64, remote_recv_time: u64) -> Option<Self>
        ensures { result ≡ Group.add_packet self local_send_time remote_recv_time }
    {
        match self.belongs_to_group(local_send_time, remote_recv_time) {
            Belongs::NewGroup => None,
            Belongs::Skipped => Some(self),
            Belongs::Yes => Some(self.with_packet(local_send_time, remote_recv_time)),
        }
    }

    // The length from this group's send instant, its last, to a later group's.
    // Two methods, as in the Rust: one of both would take a closure for the field, and what they share is `between`.
    pub fn departure_delta(self, other: ArrivalGroup) -> TimeDelta
        ensures { result ≡ Group.departure_delta self other }
    {
        between(other.last_local_send_time, self.last_local_send_time)
    }

    pub fn arrival_delta(self, other: ArrivalGroup) -> TimeDelta
        ensures { result ≡ Group.arrival_delta self other }
    {
        between(other.last_remote_recv_time, self.last_remote_recv_time)
    }
}

// The delay between a group, where there is one, and a later one.
#[tactic(auto, unfolding(crate::specs::ArrivalGroup::delta))]
fn delta(previous: Option<ArrivalGroup>, current: ArrivalGroup) -> Option<InterGroupDelayDelta>
    ensures { result ≡ Group.delta previous current }
{
    let previous = previous?;
    Some(InterGroupDelayDelta {
        send_delta: previous.departure_delta(current),
        arrival_delta: previous.arrival_delta(current),
        last_remote_recv_time: current.last_remote_recv_time,
    })
}

impl Accumulated {
    // An accumulator with an origin and a current group, beside a delta.
    fn new(
        origin: u64,
        previous_group: Option<ArrivalGroup>,
        current: ArrivalGroup,
        delta: Option<InterGroupDelayDelta>,
    ) -> Self
        ensures { result ≡ Group.new_accumulated origin previous_group current delta }
    {
        let accumulator = ArrivalGroupAccumulator {
            send_time_origin: Some(origin),
            previous_group,
            current_group: Some(current),
        };
        Self { accumulator, delta }
    }
}

impl ArrivalGroupAccumulator {
    pub fn new() -> Self
        ensures { result ≡ Group.new_accumulator }
    {
        Self {
            send_time_origin: None,
            previous_group: None,
            current_group: None,
        }
    }

    // A packet whose send instant is rounded.
    #[tactic(auto, unfolding(crate::specs::ArrivalGroup::accumulate_rounded))]
    #[inline(always)]
    fn accumulate_rounded(self, origin: u64, send: u64, remote: u64) -> Accumulated
        ensures { result ≡ Group.accumulate_rounded self.current_group self.previous_group origin send remote }
    {
        let previous = self.previous_group;
        let Some(current) = self.current_group else {
            return Accumulated::new(origin, previous, ArrivalGroup::new(send, remote), None);
        };
        match current.add_packet(send, remote) {
            Some(group) => Accumulated::new(origin, previous, group, None),
            None => Accumulated::new(
                origin,
                Some(current),
                ArrivalGroup::new(send, remote),
                delta(previous, current),
            ),
        }
    }

    // A packet, in the order of receipt. One sent before the first packet joins no group.
    // Inlined, since else a loop's accumulator goes through memory at each packet, which takes twice the time.
    #[tactic(auto, unfolding(crate::specs::ArrivalGroup::accumulate_packet))]
    #[inline(always)]
    pub fn accumulate_packet(self, local_send_time: u64, remote_recv_time: u64) -> Accumulated
        ensures { result ≡ Group.accumulate_packet self local_send_time remote_recv_time }
    {
        let origin = self.send_time_origin.unwrap_or(local_send_time);
        if local_send_time < origin {
            // There is an origin here; said so, a loop asks for one at its first packet alone.
            return Accumulated {
                accumulator: Self {
                    send_time_origin: Some(origin),
                    ..self
                },
                delta: None,
            };
        }
        let send = rounded(origin, local_send_time - origin);
        self.accumulate_rounded(origin, send, remote_recv_time)
    }
}

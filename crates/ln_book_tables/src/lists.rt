//! Which HTLC of a book is meant and what becomes of it, and the queue of its decisions.

ghost use Rattle.std.specs.Prelude.{◌≡◌, ◌≤◌};
ghost use Rattle.std.specs.List.{position, list_any, find};
ghost use Rattle.std.specs.Vec.{vec_capacity, vec_len};
ghost use Rattle.ln_book_tables.specs.Replay.{left_out, without_first, is_queued, is_resumed};

use crate::entry::Queued;
use crate::htlc::{Htlc, IncomingLeg, Key, OutgoingLeg};
use ln_log::{ChannelId, Mark};

/// Which HTLC is meant.
#[derive(Clone, Copy)]
pub(crate) enum Which {
    /// The one of this key.
    Htlc(Key),
    /// The one that this event told of.
    OfEvent(ChannelId, u64),
    /// The one whose outgoing HTLC this is.
    Offered(Key),
    /// The one that this event told of, where the channel hasn't decided it.
    Undecided(ChannelId, u64),
    /// The one of this key, where it is finished.
    Finished(Key),
    /// The one of this key, where the channel has decided it.
    Decided(Key),
    /// The one that is held by the number of this event of the channel.
    Held(ChannelId, u64),
}

/// What becomes of an HTLC.
#[derive(Drop)]
pub(crate) enum Change {
    /// The channel has decided it.
    Decide,
    /// Its outgoing HTLC.
    Outgoing(OutgoingLeg),
    /// Its removal.
    Incoming(IncomingLeg),
    /// What is done about it.
    Mark(Mark),
}

impl Key {
    ghost use Rattle.std.specs.Prelude.{◌≡◌};
    ghost use Rattle.ln_book_tables.specs.Replay.{same_key};

    /// Whether it is the same HTLC.
    pub fn is(&self, other: &Key) -> bool
        ensures { result ≡ same_key self.now other.now }
    {
        self.id == other.id && self.channel == other.channel
    }
}

impl OutgoingLeg {
    ghost use Rattle.std.specs.Prelude.{◌≡◌};
    ghost use Rattle.ln_book_tables.specs.Replay.{goes_by, has_no_outgoing};

    // Whether this is the outgoing HTLC.
    pub(crate) fn goes_by(&self, key: &Key) -> bool
        ensures { result ≡ goes_by key.now self.now }
    {
        match self {
            OutgoingLeg::Absent | OutgoingLeg::Refused => false,
            OutgoingLeg::Offered(offered) | OutgoingLeg::Resolved(offered, _) => key.is(offered),
        }
    }

    /// Whether nothing of it is left in another channel.
    pub fn is_none(&self) -> bool
        ensures { result ≡ has_no_outgoing self.now }
    {
        match self {
            OutgoingLeg::Absent | OutgoingLeg::Refused => true,
            OutgoingLeg::Offered(_) | OutgoingLeg::Resolved(_, _) => false,
        }
    }
}

impl IncomingLeg {
    ghost use Rattle.std.specs.Prelude.{◌≡◌};
    ghost use Rattle.ln_book_tables.specs.Replay.{is_settled};

    /// Whether it is irrevocably committed.
    pub fn is_settled(&self) -> bool
        ensures { result ≡ is_settled self.now }
    {
        match self {
            IncomingLeg::Open | IncomingLeg::RemovalSent | IncomingLeg::RemovalRefused => false,
            IncomingLeg::Settled => true,
        }
    }
}

impl Htlc {
    ghost use Rattle.std.specs.Prelude.{◌≡◌};
    ghost use Rattle.ln_book_tables.specs.Replay.{is_told, is_over, is_finished, is_held_in};
    ghost use Rattle.ln_book_tables.specs.Lists.{picks, changed_by};

    // Whether this event told of it.
    fn is_told(&self, channel: &ChannelId, event: u64) -> bool
        ensures { result ≡ is_told channel.now event self.now }
    {
        event == self.event && channel == &self.key.channel
    }

    // Whether it is the one of this key, and finished.
    fn is_finished(&self, key: &Key) -> bool
        ensures { result ≡ is_finished key.now self.now }
    {
        key.is(&self.key) && self.is_over()
    }

    /// Whether nothing is left to be done about it.
    pub(crate) fn is_over(&self) -> bool
        ensures { result ≡ is_over self.now }
    {
        self.incoming.is_settled() && self.outgoing.is_none() && !self.mark.is_held()
    }

    /// Whether it is held by the number of this event.
    pub(crate) fn is_held_in(&self, channel: &ChannelId, event: u64) -> bool
        ensures { result ≡ is_held_in channel.now event self.now }
    {
        self.decided && self.mark.is_held_by(event) && channel == &self.key.channel
    }

    /// Whether it is meant.
    pub(crate) fn is_picked(&self, which: &Which) -> bool
        ensures { result ≡ picks which.now self.now }
    {
        match which {
            Which::Htlc(key) => key.is(&self.key),
            Which::OfEvent(channel, event) => self.is_told(channel, *event),
            Which::Offered(key) => self.outgoing.goes_by(key),
            Which::Undecided(channel, event) => self.is_told(channel, *event) && !self.decided,
            Which::Finished(key) => self.is_finished(key),
            Which::Decided(key) => key.is(&self.key) && self.decided,
            Which::Held(channel, event) => self.is_held_in(channel, *event),
        }
    }

    /// Changes it.
    pub(crate) fn change(&mut self, change: Change)
        ensures { self.new ≡ changed_by change self.old }
    {
        match change {
            Change::Decide => self.decided = true,
            Change::Outgoing(outgoing) => self.outgoing = outgoing,
            Change::Incoming(incoming) => self.incoming = incoming,
            Change::Mark(mark) => self.mark = mark,
        }
    }
}

/// Leaves out the decisions of an event.
pub(crate) fn unqueue(queue: &mut Vec<Queued>, channel: &ChannelId, event: u64)
    ensures left { queue.new.items ≡ left_out (is_queued channel.now event) queue.old.items }
    ensures room { (vec_capacity queue.new ≡ vec_capacity queue.old) × (vec_len queue.new ≤ vec_len queue.old) }
{
    queue.retain(|queued| !queued.decides(channel, event));
}

impl Queued {
    ghost use Rattle.std.specs.Prelude.{◌≡◌};
    ghost use Rattle.ln_book_tables.specs.Replay.{is_queued, is_resumed};

    /// Whether it decides this event.
    pub fn decides(&self, channel: &ChannelId, event: u64) -> bool
        ensures { result ≡ is_queued channel.now event self.now }
    {
        event == self.event && channel == &self.channel && !self.resumes
    }

    /// Whether it resumes what is held by the number of this event.
    pub fn is_resumed(&self, channel: &ChannelId, event: u64) -> bool
        ensures { result ≡ is_resumed channel.now event self.now }
    {
        event == self.event && channel == &self.channel && self.resumes
    }
}

/// Whether what is held by the number of this event is being resumed.
pub(crate) fn is_any_resumed(queue: &[Queued], channel: &ChannelId, event: u64) -> bool
    ensures { result ≡ list_any (is_resumed channel.now event) queue.now }
{
    queue.iter().any(|queued| queued.is_resumed(channel, event))
}

// Where the decision stands that resumes it.
fn resumed_at(queue: &[Queued], channel: &ChannelId, event: u64) -> Option<usize>
    ensures { result ≡ position (is_resumed channel.now event) queue.now }
{
    queue
        .iter()
        .position(|queued| queued.is_resumed(channel, event))
}

/// The decision that resumes what is held by the number of this event leaves the queue.
pub(crate) fn unresume(queue: &mut Vec<Queued>, channel: &ChannelId, event: u64) -> Option<Queued>
    ensures first { result ≡ find (is_resumed channel.now event) queue.old.items }
    ensures left { queue.new.items ≡ without_first (is_resumed channel.now event) queue.old.items }
{
    match resumed_at(queue.as_slice(), channel, event) {
        None => None,
        Some(place) => Some(queue.remove(place)),
    }
}

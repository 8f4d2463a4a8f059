//! By what an HTLC is found.

ghost use Rattle.std.specs.Prelude.{◌≡◌};
ghost use Rattle.ln_book_tables.specs.Indices.{names};

use crate::held::number_in;
use crate::htlc::{Htlc, Key, OutgoingLeg};

/// By what an HTLC is found, and whether a command may be due to it. Each name is its channel and a number, or that of
/// its outgoing HTLC.
#[derive(Clone, Copy)]
pub(crate) struct Names {
    /// Its id.
    pub(crate) key: Option<Key>,
    /// The number of the event that told of it, where that is known.
    pub(crate) event: Option<Key>,
    /// The number by which it is held.
    pub(crate) held: Option<Key>,
    /// Its outgoing HTLC.
    pub(crate) outgoing: Option<Key>,
    /// Its id, where nothing is left to be done about it.
    pub(crate) over: Option<Key>,
    /// Whether a command may be due to it.
    pub(crate) due: bool,
}

impl OutgoingLeg {
    ghost use Rattle.std.specs.Prelude.{◌≡◌};
    ghost use Rattle.ln_book_tables.specs.Indices.{outgoing_key};

    // The outgoing HTLC, where one was offered.
    fn key(&self) -> Option<Key>
        ensures { result ≡ outgoing_key self.now }
    {
        match self {
            OutgoingLeg::Absent | OutgoingLeg::Refused => None,
            OutgoingLeg::Offered(key) | OutgoingLeg::Resolved(key, _) => Some(*key),
        }
    }
}

impl Htlc {
    ghost use Rattle.std.specs.Prelude.{◌≡◌};
    ghost use Rattle.ln_book_tables.specs.Indices.{numbered, event_name, held_name, over_name, names_of};

    // A number in its channel.
    fn numbered(&self, id: u64) -> Key
        ensures { result ≡ numbered self.now id }
    {
        let channel = self.key.channel;
        Key { channel, id }
    }

    // The event that told of it, where that is known.
    fn event_name(&self) -> Option<Key>
        ensures { result ≡ event_name self.now }
    {
        if self.event == u64::MAX {
            None
        } else {
            Some(self.numbered(self.event))
        }
    }

    // By what it is held.
    fn held_name(&self) -> Option<Key>
        ensures { result ≡ held_name self.now }
    {
        let number = number_in(&self.mark)?;
        Some(self.numbered(number))
    }

    // Its key, where nothing is left to be done about it.
    fn over_name(&self) -> Option<Key>
        ensures { result ≡ over_name self.now }
    {
        if self.is_over() { Some(self.key) } else { None }
    }

    // By what it is found.
    fn names(&self) -> Names
        ensures { result ≡ names_of self.now }
    {
        Names {
            key: Some(self.key),
            event: self.event_name(),
            held: self.held_name(),
            outgoing: self.outgoing.key(),
            over: self.over_name(),
            due: self.is_due(),
        }
    }
}

/// By what the HTLC of a slot is found.
pub(crate) fn names_in(slot: &Option<Htlc>) -> Names
    ensures { result ≡ names slot.now }
{
    match slot {
        None => Names {
            key: None,
            event: None,
            held: None,
            outgoing: None,
            over: None,
            due: false,
        },
        Some(htlc) => htlc.names(),
    }
}

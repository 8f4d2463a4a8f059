//! The events that a channel end has yet to decide.

ghost use Rattle.std.specs.Prelude.{◌≡◌, IfOk, IfErr};
ghost use Rattle.ln_log.specs.Log as logs;
ghost use Rattle.ln_log.specs.Log.{Log, first_of, updates_of, update_at};
ghost use Rattle.ln_channel.specs.Pending.{event_in};

use crate::channel::Channel;
use crate::machine::{ChannelMachine, Stage};
use ln_hooks::{ChannelEvent, event_of};
use ln_keys::ChannelKeys;
use ln_log::{EventRef, Side, UpdateLog};
use ln_refusals::Refusal;
use std::alloc::Global;

// The event of the update of this number of a side, where there is one.
fn event_at(
    alloc: Global,
    log: &UpdateLog,
    side: Side,
    own: bool,
    number: u64,
) -> Result<Option<ChannelEvent>, Refusal>
    ensures event { (l : Log) → logs.StandsFor log.now l → IfOk result
        (λ e. e ≡ event_in own (update_at (first_of side l) (updates_of side l) number)) }
    ensures fails_for_memory_alone { IfErr result (λ r. r ≡ Refusal.Memory) }
{
    match log.update(side, number as usize) {
        None => Ok(None),
        Some(update) => event_of(alloc, own, update),
    }
}

impl Channel {
    ghost use Rattle.std.specs.Prelude.{◌≡◌, IfOk, IfErr};
    ghost use Rattle.ln_channel.specs.End as end;
    ghost use Rattle.ln_channel.specs.End.{End};
    ghost use Rattle.ln_channel.specs.Pending.{named_by, pending_events};

    // The event that an entry of the ledger names.
    fn event_named(&self, alloc: Global, entry: EventRef) -> Result<Option<ChannelEvent>, Refusal>
        ensures event { (e : End) → end.StandsFor self.now e
            → IfOk result (λ event. event ≡ named_by entry e) }
        ensures fails_for_memory_alone { IfErr result (λ r. r ≡ Refusal.Memory) }
    {
        match entry {
            EventRef::Own(number) => event_at(alloc, self.dance.log(), Side::Own, true, number),
            EventRef::Peer(number) => event_at(alloc, self.dance.log(), Side::Peer, false, number),
            EventRef::Close => match self.closing.closed {
                None => Ok(None),
                Some(fee) => Ok(Some(ChannelEvent::Closed(fee))),
            },
        }
    }

    /// The events that aren't decided, each with its number, in their order. Takes memory for them; 60 where there is
    /// none.
    pub fn pending_events(&self, alloc: Global) -> Result<Vec<(u64, ChannelEvent)>, Refusal>
        ensures events { (e : End) → end.StandsFor self.now e
            → IfOk result (λ v. v.items ≡ pending_events e) }
        ensures fails_for_memory_alone { IfErr result (λ r. r ≡ Refusal.Memory) }
    {
        let mut events = Vec::new(alloc);
        let _ = self.ledger.next();
        let mut number = self.ledger.decided();
        for entry in self.ledger.undecided() {
            match self.event_named(alloc, *entry)? {
                None => {}
                Some(event) => events.push((number, event))?,
            }
            number += 1;
        }
        Ok(events)
    }
}

impl<K: ChannelKeys + Drop> ChannelMachine<K> {
    ghost use Rattle.std.specs.Prelude.{◌≡◌, IfOk, IfErr};
    ghost use Rattle.ln_channel.specs.State.{State, StandsFor};
    ghost use Rattle.ln_channel.specs.Pending.{pending_at};

    /// The events that its end hasn't decided, each with its number, in their order; none before both have signed the
    /// opening. They are also there where the link has halted, or its channel has failed. Takes memory for them; 60
    /// where there is none, and nothing has changed.
    pub fn pending_events(&self, alloc: Global) -> Result<Vec<(u64, ChannelEvent)>, Refusal>
        ensures events { (l : State K) → StandsFor self.now l → IfOk result (λ v. v.items ≡ pending_at l.stage) }
        ensures fails_for_memory_alone { IfErr result (λ r. r ≡ Refusal.Memory) }
    {
        match &self.stage {
            Stage::Funded(channel) => channel.pending_events(alloc),
            _ => Ok(Vec::new(alloc)),
        }
    }
}

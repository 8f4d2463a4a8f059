//! What the book hears of the channels.

use crate::events::told_event;
use crate::parts::ChannelParts;
use ln_hooks::ChannelEvent;
use ln_keys::ChannelKeys;
use ln_log::ChannelId;
use ln_refusals::Refusal;
use std::alloc::Global;

impl<K: ChannelKeys + Drop> ChannelParts<K> {
    ghost use Rattle.std.specs.Prelude.{◌≡◌, slice_get, IfOk, IfErr, OnOk, OnErr};
    ghost use Rattle.ln_book_tables.specs.Replay.{table_of};
    ghost use Rattle.ln_book.specs.Legs.{other_leg};
    ghost use Rattle.ln_book.specs.Settled.{with_settled};
    ghost use Rattle.ln_manager_channels.specs.Books.{with_heard, heard_leg};
    ghost use Rattle.ln_manager_channels.specs.Events.{told_in};
    ghost use Rattle.ln_manager_channels.specs.Links.{working_id, working_end};

    // The event of this number of a link that works, where its end holds it as irrevocably committed. Error: 60 alone.
    fn told(
        &self,
        alloc: Global,
        channel: usize,
        number: u64,
    ) -> Result<Option<ChannelEvent>, Refusal>
        ensures event { IfOk result (λ e. e ≡ told_in number (working_end (slice_get self.now.links.items channel))) }
        ensures fails_for_memory_alone { IfErr result (λ r. r ≡ Refusal.Memory) }
    {
        let Some(machine) = self.machine(channel) else {
            return Ok(None);
        };
        if machine.is_halted() {
            return Ok(None);
        }
        let Some(end) = machine.saved() else {
            return Ok(None);
        };
        told_event(alloc, end, number)
    }

    // The book hears an event of the channel of this id. Error: 60 alone.
    fn settle(
        &mut self,
        alloc: Global,
        id: ChannelId,
        event: ChannelEvent,
    ) -> Result<Option<ChannelId>, Refusal>
        ensures settles { OnOk result (self.new.book ≡ with_settled id event self.old.book) }
        ensures answers_the_other_leg { IfOk result (λ o. o ≡ other_leg id event (table_of self.old.book)) }
        ensures changes_nothing_if_refused { OnErr result (self.new.book ≡ self.old.book) }
        ensures fails_for_memory_alone { IfErr result (λ r. r ≡ Refusal.Memory) }
        ensures links_stay { self.new.links.items ≡ self.old.links.items }
        ensures records_stay { self.new.records.items ≡ self.old.records.items }
        ensures numbers_stay { self.new.numbers ≡ self.old.numbers }
    {
        let other = self.book.other_leg(&id, &event);
        match self.book.settled(alloc, id, &event) {
            Ok(()) => {
                drop(event);
                Ok(other)
            }
            Err(refusal) => {
                drop(event);
                Err(refusal)
            }
        }
    }

    /// The book hears the event of this number of a channel: the channel of the payment's other leg, which may be due.
    /// Error: 60 alone, and nothing has changed.
    pub(crate) fn hear(
        &mut self,
        alloc: Global,
        channel: usize,
        number: u64,
    ) -> Result<Option<ChannelId>, Refusal>
        ensures hears { OnOk result (self.new.book ≡ with_heard (working_id (slice_get self.old.links.items channel))
            (told_in number (working_end (slice_get self.old.links.items channel))) self.old.book) }
        ensures answers_the_other_leg { IfOk result (λ o. o ≡ heard_leg (working_id (slice_get self.old.links.items
            channel)) (told_in number (working_end (slice_get self.old.links.items channel))) self.old.book) }
        ensures changes_nothing_if_refused { OnErr result (self.new.book ≡ self.old.book) }
        ensures fails_for_memory_alone { IfErr result (λ r. r ≡ Refusal.Memory) }
        ensures links_stay { self.new.links.items ≡ self.old.links.items }
        ensures records_stay { self.new.records.items ≡ self.old.records.items }
        ensures numbers_stay { self.new.numbers ≡ self.old.numbers }
    {
        let Some(id) = self.working_id(channel) else {
            return Ok(None);
        };
        match self.told(alloc, channel, number) {
            Ok(None) => Ok(None),
            Ok(Some(event)) => self.settle(alloc, id, event),
            Err(refusal) => Err(refusal),
        }
    }
}

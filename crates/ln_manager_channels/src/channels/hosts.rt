//! What the book hears of the channels and commands them, what hosts decide, and its settings.

use crate::channels::Channels;
use crate::given::Given;
use crate::height::set_height;
use ln_book::{Use, follow};
use ln_forward::Policy;
use ln_hooks::Verdict;
use ln_keys::{ChannelKeys, Onion};
use ln_log::{ChannelId, Mark};
use ln_refusals::Refusal;
use std::alloc::Global;

impl<K: ChannelKeys + Drop> Channels<K> {
    ghost use Rattle.std.specs.Prelude.{◌≡◌, ◌⊎◌, None, slice_get, IfOk, IfErr, OnOk, OnErr};
    ghost use Rattle.ln_history.specs.History.{with_entry};
    ghost use Rattle.ln_book_tables.specs.declared.entry.Entry.TheVariants as entry;
    ghost use Rattle.ln_book.specs.Uses.{with_route, with_use};
    ghost use Rattle.ln_manager_channels.specs.Books.{with_heard, heard_leg, height_answer, with_height};
    ghost use Rattle.ln_manager_channels.specs.Calls as call;
    ghost use Rattle.ln_manager_channels.specs.Calls.{Makes, obeyed};
    ghost use Rattle.ln_manager_channels.specs.Events as events;
    ghost use Rattle.ln_manager_channels.specs.Events.{told_in};
    ghost use Rattle.ln_manager_channels.specs.Links.{working_id, working_end};
    ghost use Rattle.ln_manager_channels.specs.Obeying.{ObeysBook, Decides, Resumes, HoldsNone};

    // ---- what the book hears

    /// The book hears the event of this number of a channel: the channel of the payment's other leg, which may be due.
    /// Error: 60 alone, and nothing has changed.
    pub fn hear(
        &mut self,
        alloc: Global,
        channel: usize,
        number: u64,
    ) -> Result<Option<ChannelId>, Refusal>
        ensures hears { OnOk result (self.new.parts.book
            ≡ with_heard (working_id (slice_get self.old.parts.links channel))
            (told_in number (working_end (slice_get self.old.parts.links channel))) self.old.parts.book) }
        ensures answers_the_other_leg { IfOk result (λ o. o
            ≡ heard_leg (working_id (slice_get self.old.parts.links channel))
            (told_in number (working_end (slice_get self.old.parts.links channel))) self.old.parts.book) }
        ensures changes_nothing_if_refused { OnErr result (self.new.parts.book ≡ self.old.parts.book) }
        ensures fails_for_memory_alone { IfErr result (λ r. r ≡ Refusal.Memory) }
        ensures links_stay { self.new.parts.links ≡ self.old.parts.links }
        ensures records_stay { self.new.parts.records ≡ self.old.parts.records }
        ensures numbers_stay { self.new.parts.numbers ≡ self.old.parts.numbers }
        ensures enters_this_call { Makes K.signer (call.Hear channel number) self.old.parts self.new.parts }
        ensures beginning_stays { self.new.began ≡ self.old.began }
    {
        self.parts.hear(alloc, channel, number)
    }

    /// The book hears which payments an end takes: `ln_book::follow`. Error: 60 alone, and then it may know the short
    /// id of the channel already.
    pub fn follow(&mut self, policy: Policy, used: Use) -> Result<(), Refusal>
        ensures follows { OnOk result (self.new.parts.book ≡ with_use policy used self.old.parts.book) }
        ensures enters_the_route_at_most { OnErr result ((self.new.parts.book ≡ self.old.parts.book)
            ⊎ (self.new.parts.book ≡ with_route policy used used.short_id self.old.parts.book)) }
        ensures fails_for_memory_alone { IfErr result (λ r. r ≡ Refusal.Memory) }
        ensures links_stay { self.new.parts.links ≡ self.old.parts.links }
        ensures records_stay { self.new.parts.records ≡ self.old.parts.records }
        ensures numbers_stay { self.new.parts.numbers ≡ self.old.parts.numbers }
        ensures enters_this_call { Makes K.signer (call.Follow policy used) self.old.parts self.new.parts }
        ensures beginning_stays { self.new.began ≡ self.old.began }
    {
        follow(&mut self.parts.book, policy, used)
    }

    /// The block height from now on. Error: 40 above 400,000,000, which changes nothing.
    pub fn set_height(&mut self, height: u32) -> Result<(), Refusal>
        ensures answer { result ≡ height_answer height }
        ensures enters_the_height { self.new.parts.book ≡ with_height height self.old.parts.book }
        ensures links_stay { self.new.parts.links ≡ self.old.parts.links }
        ensures records_stay { self.new.parts.records ≡ self.old.parts.records }
        ensures numbers_stay { self.new.parts.numbers ≡ self.old.parts.numbers }
        ensures enters_this_call { Makes K.signer (call.SetHeight height) self.old.parts self.new.parts }
        ensures beginning_stays { self.new.began ≡ self.old.began }
    {
        set_height(&mut self.parts.book, height)
    }

    /// A payment is waited for: `Book::expect`. Error: 60 alone, which changes nothing.
    pub fn expect(
        &mut self,
        preimage: [u8; 32],
        secret: [u8; 32],
        amount: u64,
    ) -> Result<(), Refusal>
        ensures enters_the_invoice { OnOk result (self.new.parts.book ≡ with_entry (entry.Expect (record {
          preimage = preimage;
          expected = record { secret = secret; amount = amount };
        })) self.old.parts.book) }
        ensures changes_nothing_if_refused { OnErr result (self.new.parts.book ≡ self.old.parts.book) }
        ensures fails_for_memory_alone { IfErr result (λ r. r ≡ Refusal.Memory) }
        ensures links_stay { self.new.parts.links ≡ self.old.parts.links }
        ensures records_stay { self.new.parts.records ≡ self.old.parts.records }
        ensures numbers_stay { self.new.parts.numbers ≡ self.old.parts.numbers }
        ensures enters_this_call { Makes K.signer (call.Expect preimage secret amount) self.old.parts self.new.parts }
        ensures beginning_stays { self.new.began ≡ self.old.began }
    {
        self.parts.book.expect(preimage, secret, amount)
    }

    // ---- what it commands, and what is decided

    /// A link that works is given the first command of the book, where that is about an HTLC, and the book is told what
    /// it answers. Error: 60 alone, and nothing has changed.
    pub fn obey_book<O: Onion>(
        &mut self,
        alloc: Global,
        onion: &O,
        channel: usize,
    ) -> Result<Given, Refusal>
        ensures obeys { IfOk result (λ g. ObeysBook K.signer (O.services onion.now) channel
            (working_id (slice_get self.old.parts.links channel)) g (obeyed self.old.parts) (obeyed self.new.parts)) }
        ensures fails_for_memory_alone { IfErr result (λ r. r ≡ Refusal.Memory) }
        ensures links_stay_if_refused { OnErr result (self.new.parts.links ≡ self.old.parts.links) }
        ensures records_stay_if_refused { OnErr result (self.new.parts.records ≡ self.old.parts.records) }
        ensures book_stays_if_refused { OnErr result (self.new.parts.book ≡ self.old.parts.book) }
        ensures numbers_stay { self.new.parts.numbers ≡ self.old.parts.numbers }
        ensures enters_this_call { Makes K.signer (call.ObeyBook (O.services onion.now) channel) self.old.parts
            self.new.parts }
        ensures beginning_stays { self.new.began ≡ self.old.began }
    {
        self.parts.obey_book(alloc, onion, channel)
    }

    /// The first undecided event of a channel is decided by what its host says of it: what is done about it, and what
    /// became of that in its link.
    ///
    /// Errors: 40 where there is no such event, or the link has halted; 60; nothing has changed then.
    pub fn decide<O: Onion>(
        &mut self,
        alloc: Global,
        onion: &O,
        channel: usize,
        verdict: Verdict,
    ) -> Result<(Mark, Given), Refusal>
        ensures decides { IfOk result (λ r. Decides K.signer (O.services onion.now) channel
            (events.next_event (working_end (slice_get self.old.parts.links channel))) verdict r
            (obeyed self.old.parts) (obeyed self.new.parts)) }
        ensures fails { IfErr result (λ r. (r ≡ Refusal.Memory) ⊎ ((r ≡ Refusal.NotReady)
            × (events.next_event (working_end (slice_get self.old.parts.links channel)) ≡ None))) }
        ensures links_stay_if_refused { OnErr result (self.new.parts.links ≡ self.old.parts.links) }
        ensures records_stay_if_refused { OnErr result (self.new.parts.records ≡ self.old.parts.records) }
        ensures book_stays_if_refused { OnErr result (self.new.parts.book ≡ self.old.parts.book) }
        ensures numbers_stay { self.new.parts.numbers ≡ self.old.parts.numbers }
        ensures enters_this_call { Makes K.signer (call.Decide (O.services onion.now) channel verdict) self.old.parts
            self.new.parts }
        ensures beginning_stays { self.new.began ≡ self.old.began }
    {
        self.parts.decide(alloc, onion, channel, verdict)
    }

    /// What is held by the number of this event is decided by what its host says of it now.
    ///
    /// Errors: 40 where nothing is held so, or the link has halted; 60; nothing has changed then.
    pub fn resume<O: Onion>(
        &mut self,
        alloc: Global,
        onion: &O,
        channel: usize,
        event: u64,
        verdict: Verdict,
    ) -> Result<(Mark, Given), Refusal>
        ensures resumes { IfOk result (λ r. Resumes K.signer (O.services onion.now) channel
            (working_id (slice_get self.old.parts.links channel)) event verdict r
            (obeyed self.old.parts) (obeyed self.new.parts)) }
        ensures fails { IfErr result (λ r. (r ≡ Refusal.Memory) ⊎ ((r ≡ Refusal.NotReady)
            × HoldsNone (O.services onion.now) (working_id (slice_get self.old.parts.links channel)) event verdict
            self.old.parts.book)) }
        ensures links_stay_if_refused { OnErr result (self.new.parts.links ≡ self.old.parts.links) }
        ensures records_stay_if_refused { OnErr result (self.new.parts.records ≡ self.old.parts.records) }
        ensures book_stays_if_refused { OnErr result (self.new.parts.book ≡ self.old.parts.book) }
        ensures numbers_stay { self.new.parts.numbers ≡ self.old.parts.numbers }
        ensures enters_this_call { Makes K.signer (call.Resume (O.services onion.now) channel event verdict)
            self.old.parts self.new.parts }
        ensures beginning_stays { self.new.began ≡ self.old.began }
    {
        self.parts.resume(alloc, onion, channel, event, verdict)
    }
}

//! The book of a node's forwarded payments.

ghost use Rattle.std.specs.Prelude.{◌≡◌, OnOk, OnErr, IfOk, IfErr, true, ◌&&◌, is_some};
ghost use Rattle.std.specs.List.{find};
ghost use Rattle.ln_book_tables.specs.Replay.{is_offered, with_resolved};
ghost use Rattle.ln_book.specs.Settled.{has_reason};

use crate::commands::first_command;
use crate::legs::other_channel;
use crate::marks::{mark_by, mark_of, offer_of};
use crate::noted::Noted;
use crate::recovery::kept::{Kept, kept_state_of};
use crate::recovery::leg::ChannelSnapshot;
use crate::recovery::rebuild::rebuilt_htlcs;
use ln_book_tables::{
    Decided, Entry, HeldHtlc, Invoice, KeptState, Key, Offer, Out, OutgoingChannel, PendingCommand,
    Resumed, Tables,
};
use ln_bytes::ShortId;
use ln_channel::Command;
use ln_forward::{Expected, Policy};
use ln_hooks::{ChannelEvent, How, Verdict};
use ln_keys::Onion;
use ln_log::{ChannelId, Mark};
use ln_refusals::Refusal;
use std::alloc::Global;
use std::marker::Model;

// The same mark. Error: 60 alone.
fn copy_mark(mark: &Mark) -> Result<Mark, Refusal>
    ensures copy { IfOk result (λ m. m ≡ mark.now) }
    ensures fails_for_memory_alone { IfErr result (λ r. r ≡ Refusal.Memory) }
{
    Ok(mark.clone()?)
}

// The same of what has become of an HTLC. Error: 60 alone, where it is a reason.
fn copy_how(how: &How) -> Result<How, Refusal>
    ensures copy { IfOk result (λ h. h ≡ how.now) }
    ensures fails_for_memory_alone { IfErr result (λ r. r ≡ Refusal.Memory) }
    ensures takes_memory_for_a_reason_alone { OnErr result (has_reason how.now ≡ true) }
{
    match how {
        How::Fulfilled(preimage) => Ok(How::Fulfilled(*preimage)),
        How::Failed(reason) => Ok(How::Failed(reason.clone()?)),
        How::Malformed(sha, code) => Ok(How::Malformed(*sha, *code)),
    }
}

// Tables keep what has become of an outgoing HTLC, where they have it.
fn keep_result(tables: &mut Tables, key: Key, how: &How) -> Result<(), Refusal>
    ensures done { OnOk result (tables.new ≡ with_resolved key how.now tables.old) }
    ensures changes_nothing_if_refused { OnErr result (tables.new ≡ tables.old) }
    ensures fails_for_memory_alone { IfErr result (λ r. r ≡ Refusal.Memory) }
    ensures takes_memory_for_a_reason_alone { OnErr result
        ((has_reason how.now && is_some (find (is_offered key) tables.old.htlcs)) ≡ true) }
{
    if tables.offered(&key).is_none() {
        return Ok(());
    }
    tables.over(key, copy_how(how)?);
    Ok(())
}

/// The book of a node's forwarded payments. Contracts see it as what it began with and what was entered since, of
/// which its tables are the replay.
pub struct Book {
    tables: Tables,
    history: Noted,
}

// By hand: crates above don't prove again how its parts are dropped.
impl Drop for Book {
    fn drop(self) {
        let Book { tables, history } = self;
        drop(tables);
        drop(history);
    }
}

impl Model for Book {
    ghost use Rattle.std.specs.Prelude.{◌≡◌};
    ghost use Rattle.ln_book_tables.specs.declared.entry.Entry.{Entry};
    ghost use Rattle.ln_history.specs.History.{History};
    ghost use Rattle.ln_book_tables.specs.Replay.{Table, table_of};

    ghost Value = { History Table Entry };

    ghost view = { λ b. b.history };

    ghost invariant = { λ b. b.tables ≡ table_of b.history };
}

impl Book {
    ghost use Rattle.std.specs.Prelude.{◌≡◌, ◌≤◌, OnOk, OnErr, IfErr};
    ghost use Rattle.ln_bytes.specs.ShortId.{short_id_bytes};
    ghost use Rattle.ln_book_tables.specs.declared.entry.Entry.TheVariants as entry;
    ghost use Rattle.ln_history.specs.History.{begun_with, with_entry};
    ghost use Rattle.ln_book_tables.specs.Replay.{no_table, table_of, is_usable};

    /// A book in which nothing stands. Takes no memory.
    pub fn new(alloc: Global) -> Book
        ensures { result ≡ begun_with no_table }
    {
        let tables = Tables::new(alloc);
        let history = Noted::begun(&tables);
        Book { tables, history }
    }

    /// A short channel id names this channel from now on (BOLT 7, "Definition of `short_channel_id`"), by which the
    /// node forwards for what its policy asks (BOLT 7, "HTLC Fees"). `minimum`, in millisatoshi, is the least that the
    /// channel's other end takes. Error: 60 alone, which changes nothing.
    pub fn set_route(
        &mut self,
        id: ShortId,
        channel: ChannelId,
        policy: Policy,
        minimum: u64,
    ) -> Result<(), Refusal>
        ensures enters_the_route { OnOk result (self.new ≡ with_entry (entry.Route (short_id_bytes id.block id.tx
            id.output) (record { channel = channel; policy = policy; minimum = minimum })) self.old) }
        ensures changes_nothing_if_refused { OnErr result (self.new ≡ self.old) }
        ensures fails_for_memory_alone { IfErr result (λ r. r ≡ Refusal.Memory) }
    {
        let id = id.to_bytes();
        let outgoing = OutgoingChannel {
            channel,
            policy,
            minimum,
        };
        self.tables.set_route(id, outgoing)?;
        self.history = self.history.entered(&Entry::Route(id, outgoing));
        Ok(())
    }

    /// Whether this channel takes payments from now on. Error: 60 alone, which changes nothing.
    pub fn set_usable(&mut self, channel: ChannelId, usable: bool) -> Result<(), Refusal>
        ensures enters_the_use { OnOk result (self.new ≡ with_entry (entry.Use channel usable) self.old) }
        ensures changes_nothing_if_refused { OnErr result (self.new ≡ self.old) }
        ensures fails_for_memory_alone { IfErr result (λ r. r ≡ Refusal.Memory) }
    {
        self.tables.set_usable(channel, usable)?;
        self.history = self.history.entered(&Entry::Use(channel, usable));
        Ok(())
    }

    /// Whether this channel takes payments: as it was said last, and false where nothing was said. Takes no memory.
    pub fn usable(&self, channel: &ChannelId) -> bool
        ensures { result ≡ is_usable channel.now (table_of self.now) }
    {
        self.tables.usable(channel)
    }

    /// The block height from now on, at most 400,000,000. Takes no memory.
    pub fn set_height(&mut self, height: u32)
        requires { height ≤ 400000000 }
        ensures { self.new ≡ with_entry (entry.Height height) self.old }
    {
        self.history = self.history.entered(&Entry::Height(height));
        self.tables.set_height(height);
    }

    /// A payment is waited for: by its preimage, with this payment secret (BOLT 4, "Basic Multi-Part Payments") and of
    /// this amount, in millisatoshi. It takes the place of an earlier one with the same payment hash. Error: 60 alone,
    /// which changes nothing.
    pub fn expect(
        &mut self,
        preimage: [u8; 32],
        secret: [u8; 32],
        amount: u64,
    ) -> Result<(), Refusal>
        ensures enters_the_invoice { OnOk result (self.new ≡ with_entry (entry.Expect (record {
          preimage = preimage;
          expected = record { secret = secret; amount = amount };
        })) self.old) }
        ensures changes_nothing_if_refused { OnErr result (self.new ≡ self.old) }
        ensures fails_for_memory_alone { IfErr result (λ r. r ≡ Refusal.Memory) }
    {
        let expected = Expected { secret, amount };
        let invoice = Invoice { preimage, expected };
        self.tables.expect(invoice)?;
        self.history = self.history.entered(&Entry::Expect(invoice));
        Ok(())
    }
}

impl Book {
    ghost use Rattle.std.specs.Prelude.{◌≡◌, OnOk, OnErr, IfOk, IfErr, option_map};
    ghost use Rattle.ln_book_tables.specs.declared.entry.Entry.TheVariants as entry;
    ghost use Rattle.ln_history.specs.History.{with_entry};
    ghost use Rattle.ln_book_tables.specs.Replay.{table_of, pending_command_at, held_by};
    ghost use Rattle.ln_book_tables.specs.Held.{all_held};
    ghost use Rattle.ln_book.specs.Commands.{first_command, with_taken, with_answered};
    ghost use Rattle.std.specs.Prelude.{◌⊎◌, ◌↔◌, IsErrOf, None, Some};
    ghost use Rattle.ln_book.specs.Marks.{offer_of, mark_of, decision, resumption};
    ghost use Rattle.std.specs.Prelude.{true, ◌&&◌, is_some};
    ghost use Rattle.std.specs.List.{find};
    ghost use Rattle.ln_book_tables.specs.Replay.{is_offered};
    ghost use Rattle.ln_book.specs.Settled.{with_settled, keeps_a_reason, has_reason};
    ghost use Rattle.ln_book.specs.Legs.{other_leg};

    /// Decides the event of this number by what the hooks say of it, and queues the decision for its channel: answers
    /// what is done about the event.
    ///
    /// Of an HTLC of the peer's: a hook's failure comes first; one that a hook holds is held by the event's number
    /// until `resume`; of any other one the onion is opened, by which it is forwarded or taken (BOLT 4, "Accepting and
    /// Forwarding a Payment"), or failed by the first of the failures of `check_forward` or `check_final`; by 0x4016
    /// where its payload can't be read; as malformed, by 0xc004, 0xc005 or 0xc006, where the onion can't be. Of any
    /// other event: nothing. An HTLC that its channel has decided stays as it is in the book. Takes memory. Error: 60
    /// alone, which changes nothing.
    pub fn decide<O: Onion>(
        &mut self,
        alloc: Global,
        onion: &O,
        channel: ChannelId,
        event: u64,
        told: &ChannelEvent,
        verdict: Verdict,
    ) -> Result<Mark, Refusal>
        ensures answers_the_mark { IfOk result (λ m. m ≡ mark_of (O.services onion.now) (table_of self.old) event
            (offer_of told.now) verdict) }
        ensures enters_the_decision { OnOk result (self.new ≡ with_entry (entry.Decided (decision (O.services onion.now)
            (table_of self.old) channel event (offer_of told.now) verdict)) self.old) }
        ensures changes_nothing_if_refused { OnErr result (self.new ≡ self.old) }
        ensures fails_for_memory_alone { IfErr result (λ r. r ≡ Refusal.Memory) }
    {
        let offer = offer_of(told);
        let mark = mark_of(alloc, onion, &self.tables, event, offer.as_ref(), verdict)?;
        let queued = copy_mark(&mark)?;
        let answer = copy_mark(&mark)?;
        let decided = Decided {
            channel,
            event,
            offer,
            mark,
        };
        self.note_decided(decided, queued)?;
        Ok(answer)
    }

    // An event was decided; the other mark is a copy of its mark.
    fn note_decided(&mut self, decided: Decided, queued: Mark) -> Result<(), Refusal>
        requires same { queued ≡ decided.mark }
        ensures done { OnOk result (self.new ≡ with_entry (entry.Decided decided) self.old) }
        ensures changes_nothing_if_refused { OnErr result (self.new ≡ self.old) }
        ensures fails_for_memory_alone { IfErr result (λ r. r ≡ Refusal.Memory) }
    {
        let history = self.history.decided(&decided);
        self.tables.decide(decided, queued)?;
        self.history = history;
        Ok(())
    }

    /// The HTLCs of all channels that are held and not being resumed, in order of deciding; after a rebuild one
    /// channel after the other. A program asks for them after a restart, as its hooks are gone and see no event again.
    /// Takes memory.
    ///
    /// Error: 60 where there is none.
    pub fn held(&self, alloc: Global) -> Result<Vec<HeldHtlc>, Refusal>
        ensures lists_what_is_held { IfOk result (λ v. v.items ≡ all_held (table_of self.now)) }
        ensures fails_for_memory_alone { IfErr result (λ r. r ≡ Refusal.Memory) }
    {
        self.tables.all_held(alloc)
    }

    // What is offered by the HTLC that is held by the number of this event, unless it is being resumed.
    fn held_offer(&self, channel: &ChannelId, event: u64) -> Option<Offer>
        ensures { result ≡ option_map (λ h. h.offer) (held_by channel.now event (table_of self.now)) }
    {
        Some(self.tables.held(channel, event)?.offer)
    }

    /// Decides the HTLC that is held by the number of this event by what is said of it now, as `decide` would with the
    /// settings of now, and queues the decision for its channel: answers what is done about it. Takes memory.
    ///
    /// Errors: 40 where no HTLC of the channel is held by this number and isn't being resumed, or where it is to be
    /// held again; 60. Either changes nothing.
    pub fn resume<O: Onion>(
        &mut self,
        alloc: Global,
        onion: &O,
        channel: ChannelId,
        event: u64,
        verdict: Verdict,
    ) -> Result<Mark, Refusal>
        ensures answers_the_mark { IfOk result (λ m. resumption (O.services onion.now) (table_of self.old) channel event
            verdict ≡ Some m) }
        ensures enters_what_is_resumed { IfOk result (λ m. self.new ≡ with_entry (entry.Resumed (record {
          channel = channel;
          event = event;
          mark = m;
        })) self.old) }
        ensures refuses_what_is_not_held { IsErrOf result Refusal.NotReady
            ↔ (resumption (O.services onion.now) (table_of self.old) channel event verdict ≡ None) }
        ensures fails_by_these_alone { IfErr result (λ r. (r ≡ Refusal.NotReady) ⊎ (r ≡ Refusal.Memory)) }
        ensures changes_nothing_if_refused { OnErr result (self.new ≡ self.old) }
    {
        if verdict == Verdict::Hold {
            return Err(Refusal::NotReady);
        }
        let Some(offer) = self.held_offer(&channel, event) else {
            return Err(Refusal::NotReady);
        };
        let mark = mark_by(alloc, onion, &self.tables, event, &offer, verdict)?;
        let answer = copy_mark(&mark)?;
        let resumed = Resumed {
            channel,
            event,
            mark,
        };
        self.note_resumed(resumed)?;
        Ok(answer)
    }

    // What is held was decided.
    fn note_resumed(&mut self, resumed: Resumed) -> Result<(), Refusal>
        ensures done { OnOk result (self.new ≡ with_entry (entry.Resumed resumed) self.old) }
        ensures changes_nothing_if_refused { OnErr result (self.new ≡ self.old) }
        ensures fails_for_memory_alone { IfErr result (λ r. r ≡ Refusal.Memory) }
    {
        let history = self.history.resumed(&resumed);
        self.tables.resume(resumed)?;
        self.history = history;
        Ok(())
    }

    /// What a channel has told: what has become of an own HTLC, or that a removal of a peer's one is irrevocably
    /// committed. Any other event changes nothing. Takes memory for why an HTLC failed that the book has offered, and
    /// for nothing else. Error: 60 alone, which changes nothing.
    pub fn settled(
        &mut self,
        alloc: Global,
        channel: ChannelId,
        told: &ChannelEvent,
    ) -> Result<(), Refusal>
        ensures enters_what_is_settled { OnOk result (self.new ≡ with_settled channel told.now self.old) }
        ensures changes_nothing_if_refused { OnErr result (self.new ≡ self.old) }
        ensures fails_for_memory_alone { IfErr result (λ r. r ≡ Refusal.Memory) }
        ensures takes_memory_for_a_reason_alone { OnErr result
            (keeps_a_reason channel told.now (table_of self.old) ≡ true) }
    {
        match told {
            ChannelEvent::Added { .. } | ChannelEvent::Closed(_) => {}
            ChannelEvent::Settled { own, id, how } => {
                let id = *id;
                let key = Key { channel, id };
                if *own {
                    self.note_resolved(key, how)?;
                } else {
                    self.note_removed(key);
                }
            }
        }
        Ok(())
    }

    /// The channel of the other leg of a payment, before this channel tells of the removal of one: of an own HTLC that
    /// was removed, the channel by which its payment came; of a peer's, that in which it was offered on. None where the
    /// book has no such payment, and of any other event. Takes no memory.
    pub fn other_leg(&self, channel: &ChannelId, told: &ChannelEvent) -> Option<ChannelId>
        ensures { result ≡ other_leg channel.now told.now (table_of self.now) }
    {
        match told {
            ChannelEvent::Added { .. } | ChannelEvent::Closed(_) => None,
            ChannelEvent::Settled { own, id, .. } => {
                let channel = *channel;
                let id = *id;
                other_channel(*own, &Key { channel, id }, &self.tables)
            }
        }
    }

    // What has become of an outgoing HTLC.
    fn note_resolved(&mut self, key: Key, how: &How) -> Result<(), Refusal>
        ensures done { OnOk result (self.new ≡ with_entry (entry.Resolved key how.now) self.old) }
        ensures changes_nothing_if_refused { OnErr result (self.new ≡ self.old) }
        ensures fails_for_memory_alone { IfErr result (λ r. r ≡ Refusal.Memory) }
        ensures takes_memory_for_a_reason_alone { OnErr result
            ((has_reason how.now && is_some (find (is_offered key) (table_of self.old).htlcs)) ≡ true) }
    {
        keep_result(&mut self.tables, key, how)?;
        self.history = self.history.resolved(key, how);
        Ok(())
    }

    // The removal of an incoming HTLC is irrevocably committed.
    fn note_removed(&mut self, key: Key)
        ensures { self.new ≡ with_entry (entry.Removed key) self.old }
    {
        self.history = self.history.entered(&Entry::Removed(key));
        self.tables.removed(key);
    }

    /// The first command of this channel that can be taken, which is then out until it is answered: a decision before
    /// all others; then that of the HTLC that was decided first. None where there is none, or one is out, and then
    /// nothing has changed. Takes memory. Error: 60 alone, which changes nothing.
    pub fn take_commands<O: Onion>(
        &mut self,
        alloc: Global,
        onion: &O,
        channel: ChannelId,
    ) -> Result<Option<Command>, Refusal>
        ensures answers_the_first { IfOk result (λ c. c ≡ option_map (λ x. x.1) (first_command (O.services onion.now)
            channel (table_of self.old))) }
        ensures enters_what_is_taken { OnOk result (self.new ≡ with_taken channel (first_command (O.services onion.now)
            channel (table_of self.old)) self.old) }
        ensures changes_nothing_if_refused { OnErr result (self.new ≡ self.old) }
        ensures fails_for_memory_alone { IfErr result (λ r. r ≡ Refusal.Memory) }
    {
        match first_command(alloc, onion, &channel, &self.tables)? {
            None => Ok(None),
            Some((out, command)) => {
                self.note_taken(channel, out)?;
                Ok(Some(Box::into_inner(command)))
            }
        }
    }

    // A command was handed out.
    fn note_taken(&mut self, channel: ChannelId, out: Out) -> Result<(), Refusal>
        ensures done { OnOk result (self.new ≡ with_entry (entry.Taken channel out) self.old) }
        ensures changes_nothing_if_refused { OnErr result (self.new ≡ self.old) }
        ensures fails_for_memory_alone { IfErr result (λ r. r ≡ Refusal.Memory) }
    {
        self.tables.take(channel, out)?;
        self.history = self.history.entered(&Entry::Taken(channel, out));
        Ok(())
    }

    /// What a channel has answered to the command that is out: the HTLC's id or the event's number, or the number of
    /// its refusal. A refusal by 47 or 62 leaves the command to be taken again; after 60 or 61 nothing can be taken
    /// until the channel was dropped; by any other number the command goes, and an HTLC whose offer was refused below
    /// 47 is failed by 0x1007. Where nothing is out nothing changes. Takes no memory.
    pub fn answered(&mut self, channel: ChannelId, answer: Result<u64, u16>)
        ensures { self.new ≡ with_answered channel answer (pending_command_at channel (table_of self.old)) self.old }
    {
        if let PendingCommand::InFlight(_) = self.tables.answered(&channel, answer) {
            self.history = self.history.entered(&Entry::Answered(channel, answer));
        }
    }
}

impl Book {
    ghost use Rattle.std.specs.Prelude.{◌≡◌, OnOk, OnErr, IfErr};
    ghost use Rattle.ln_book_tables.specs.declared.entry.Entry.TheVariants as entry;
    ghost use Rattle.ln_history.specs.History.{with_entry};
    ghost use Rattle.ln_book_tables.specs.Replay.{table_of};
    ghost use Rattle.ln_book.specs.Kept.{kept_state_of};

    /// A channel's connection was lost, or the channel was loaded from its record; of one that has halted this is
    /// called after the load alone. Nothing is out in it any more. A command that the channel has kept was taken; what
    /// it has lost can be taken again: of what it has sent and not signed for, an HTLC that it doesn't count any more,
    /// and a removal. Takes memory for what the channel is asked. Error: 60 alone, which changes nothing.
    pub fn dropped<T: Kept>(
        &mut self,
        alloc: Global,
        channel: ChannelId,
        kept: &T,
    ) -> Result<(), Refusal>
        ensures enters_what_is_kept { OnOk result (self.new ≡ with_entry (entry.Dropped channel (kept_state_of (T.next
            kept.now) (T.removes kept.now) (T.decides kept.now) channel (table_of self.old))) self.old) }
        ensures changes_nothing_if_refused { OnErr result (self.new ≡ self.old) }
        ensures fails_for_memory_alone { IfErr result (λ r. r ≡ Refusal.Memory) }
    {
        let told = kept_state_of(alloc, kept, &channel, &self.tables)?;
        self.note_dropped(channel, told);
        Ok(())
    }

    // A channel has told what it has kept.
    fn note_dropped(&mut self, channel: ChannelId, told: KeptState)
        ensures { self.new ≡ with_entry (entry.Dropped channel told) self.old }
    {
        self.tables.dropped(&channel, &told);
        self.history = self.history.entered(&Entry::Dropped(channel, told));
    }
}

impl Book {
    ghost use Rattle.std.specs.Prelude.{◌≡◌, OnOk, OnErr, IfErr};
    ghost use Rattle.ln_history.specs.History.{begun_with};
    ghost use Rattle.ln_book_tables.specs.Replay.{table_of};
    ghost use Rattle.ln_book.specs.Rebuild.{rebuilt};

    /// Begins anew with what these channels have, those of the node in the order of their numbers: each is there as it
    /// was loaded, without what no signature covered. Settings stay; nothing is queued, and nothing is out. An HTLC of
    /// a peer's that its channel has decided goes where a result says, else where an own add does; one to be forwarded
    /// that has a removal and goes nowhere was refused, and isn't offered again; one that is finished is left out. A
    /// result whose decision is gone is left to be forgotten (BOLT 2, "Forwarding HTLCs"). Takes memory. Error: 60
    /// alone, which changes nothing.
    pub fn rebuild(&mut self, alloc: Global, snapshots: &[ChannelSnapshot]) -> Result<(), Refusal>
        ensures begins_anew { OnOk result (self.new ≡ begun_with (rebuilt (table_of self.old) snapshots.now)) }
        ensures changes_nothing_if_refused { OnErr result (self.new ≡ self.old) }
        ensures fails_for_memory_alone { IfErr result (λ r. r ≡ Refusal.Memory) }
    {
        let htlcs = rebuilt_htlcs(alloc, snapshots)?;
        self.tables.begin(alloc, htlcs)?;
        self.history = Noted::begun(&self.tables);
        Ok(())
    }
}

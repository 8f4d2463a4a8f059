//! One end of a channel from its opening on.

ghost use Rattle.std.specs.Prelude.{◌≡◌, ◌≤◌, ◌<◌, ◌+◌, ◌^◌, length};
ghost use Rattle.ln_dance.specs.Dance as dancing;
ghost use Rattle.ln_dance.specs.Dance.{Dancer};
ghost use Rattle.ln_log.specs.declared.log.Side.TheVariants as side;
ghost use Rattle.ln_log.specs.Log.{before_first, AreNotGone};
ghost use Rattle.ln_channel.specs.Since.{own_since, peer_since};

use crate::ledger::EventLedger;
use crate::opening::{Opened, Terms};
use crate::output::{Outbox, Output};
use byteorder::{BigEndian, ByteOrder};
use ln_bytes::{Bytes, Record, ShortId};
use ln_close::Closing;
use ln_dance::Dance;
use ln_keys::ChannelKeys;
use ln_log::{Pair, Side, Update};
use ln_msgs::{ClosingSigned, Message, Records, Shutdown};
use ln_refusals::Refusal;
use std::alloc::Global;
use std::marker::Model;

/// How far a channel end is with being ready.
#[derive(Clone, Copy, PartialEq, Eq)]
pub struct Readiness {
    /// The channel's short id, once it was confirmed.
    pub short_id: Option<ShortId>,
    /// Whether `channel_ready` was sent.
    pub ready_sent: bool,
    /// Whether the peer's was taken.
    pub ready_received: bool,
}

/// One end of a channel, once both sides have agreed to it.
#[derive(Drop)]
pub struct Channel {
    pub(crate) dance: Dance,
    pub(crate) closing: Closing,
    pub(crate) terms: Terms,
    pub(crate) readiness: Readiness,
    pub(crate) ledger: EventLedger,
}

impl Model for Channel {
    ghost use Rattle.ln_channel.specs.End.{End, IsSound};

    ghost Value = { End };

    ghost view = { λ c. record {
      dance = c.dance;
      closing = c.closing;
      terms = c.terms;
      readiness = c.readiness;
      ledger = c.ledger;
    } };

    ghost invariant = { λ c. IsSound (record {
      dance = c.dance;
      closing = c.closing;
      terms = c.terms;
      readiness = c.readiness;
      ledger = c.ledger;
    }) };
}

impl Channel {
    ghost use Rattle.std.specs.Prelude.{◌≡◌, ◌≤◌, ◌<◌, ◌+◌, ◌^◌, ◌∷◌, [], Some, ◌++◌, true, false, OnOk, IfOk, IfErr};
    ghost use Rattle.ln_channel.specs.Opening.{HasBegun};
    ghost use Rattle.ln_channel.specs.Ledger.{next_event};
    ghost use Rattle.ln_channel.specs.Outputs.{events_of, numbered};
    ghost use Rattle.ln_channel.specs.Since.{own_since, peer_since};
    ghost use Rattle.ln_channel.specs.End.{StandsFor};
    ghost use Rattle.ln_channel.specs.End.{End, end_of, end_dropped, is_ready, is_closed, all_acknowledged, is_settled};
    ghost use Rattle.ln_channel.specs.End.{has_begun, fee_range, closing_message, due_fee, fee_sent, begins, committed};
    ghost use Rattle.ln_channel.specs.End.{telling, settling, shutdown_message, shutdown_sent, answers_shutdown};
    ghost use Rattle.ln_channel.specs.End.{due_sent, settled};

    /// An end whose opening both sides agree to. Takes no memory.
    pub fn new(alloc: Global, opened: Opened) -> Channel
        requires { HasBegun opened }
        ensures { result ≡ end_of opened }
    {
        let Opened {
            dance,
            closing,
            terms,
        } = opened;
        let readiness = Readiness {
            short_id: None,
            ready_sent: false,
            ready_received: false,
        };
        Channel {
            dance,
            closing,
            terms,
            readiness,
            ledger: EventLedger::new(alloc),
        }
    }

    /// The channel's id.
    pub fn id(&self) -> [u8; 32]
        ensures { result ≡ self.now.dance.channel }
    {
        self.dance.channel()
    }

    /// The id that it had while it was opened.
    pub(crate) fn temporary_id(&self) -> [u8; 32]
        ensures { result ≡ self.now.terms.open_channel.temporary_id }
    {
        self.terms.open_channel.temporary_id
    }

    /// The connection is lost: updates that no signature covers are gone (BOLT 2, "Message Retransmission").
    pub fn drop_unsigned(&mut self)
        ensures state { (e : End) → StandsFor self.old e → StandsFor self.new (end_dropped e) }
        ensures same_channel { self.new.dance.channel ≡ self.old.dance.channel }
    {
        self.dance.drop_unsigned();
    }

    /// Whether it has sent `channel_ready`, and taken the peer's.
    pub fn is_ready(&self) -> bool
        ensures { (e : End) → StandsFor self.now e → result ≡ is_ready e }
    {
        self.readiness.ready_sent && self.readiness.ready_received
    }

    /// Whether it is closed.
    pub fn is_closed(&self) -> bool
        ensures { (e : End) → StandsFor self.now e → result ≡ is_closed e }
    {
        self.closing.closed.is_some()
    }

    /// Whether closing has begun.
    pub fn has_begun(&self) -> bool
        ensures { (e : End) → StandsFor self.now e → result ≡ has_begun e }
    {
        self.closing.shut && self.closing.peer_shut && self.is_settled()
    }

    fn is_settled(&self) -> bool
        ensures { (e : End) → StandsFor self.now e → result ≡ is_settled e.dance.log }
    {
        let log = self.dance.log();
        let own = log.counts(Pair::Current(Side::Own));
        let peer = log.counts(Pair::Current(Side::Peer));
        let own_len = log.len(Side::Own);
        let peer_len = log.len(Side::Peer);
        peer.own == own_len
            && own.own == own_len
            && own.peer == peer_len
            && peer.peer == peer_len
            && log.live_htlc_count(Side::Own) == 0
    }

    // Whether the peer has acknowledged every own update.
    pub(crate) fn all_acknowledged(&self) -> bool
        ensures { (e : End) → StandsFor self.now e → result ≡ all_acknowledged e.dance.log }
    {
        let log = self.dance.log();
        log.counts(Pair::Current(Side::Peer)).own == log.len(Side::Own)
    }

    // ---- what it comes to hold

    // How many updates this side holds as irrevocably committed.
    fn committed(&self) -> Output
        ensures { (e : End) → StandsFor self.now e → result ≡ committed e }
    {
        Output::Committed {
            own: own_held(&self.dance) as u64,
            peer: peer_held(&self.dance) as u64,
        }
    }

    // Tells of the own updates that are held from this one on.
    pub(crate) fn report_own(
        &mut self,
        alloc: Global,
        before: usize,
        outbox: &mut Outbox,
    ) -> Result<(), Refusal>
        requires start { before ≤ self.old.dance.log.current.own }
        requires kept { self.old.dance.log.first.own ≤ before }
        ensures told { (e : End) → StandsFor self.old e → OnOk result (outbox.new ≡ record {
          sent = outbox.old.sent;
          told = (outbox.old.told ++ committed e ∷ [])
              ++ numbered (next_event e.ledger) (events_of true (own_since before e.dance.log));
        }) }
        ensures state { (e : End) → StandsFor self.old e
            → OnOk result (StandsFor self.new (telling true before (own_since before e.dance.log) e)) }
        ensures fails_for_memory_alone { IfErr result (λ r. r ≡ Refusal.Memory) }
        ensures same_dance { self.new.dance ≡ self.old.dance }
        ensures same_channel { self.new.dance.channel ≡ self.old.dance.channel }
    {
        outbox.report(self.committed())?;
        let updates = own_since(&self.dance, before);
        self.ledger.enter_all(alloc, true, before, updates, outbox)
    }

    // Tells of the peer's updates that are held from this one on.
    pub(crate) fn report_peer(
        &mut self,
        alloc: Global,
        before: usize,
        outbox: &mut Outbox,
    ) -> Result<(), Refusal>
        requires start { before ≤ self.old.dance.log.acknowledged.peer }
        requires kept { self.old.dance.log.first.peer ≤ before }
        ensures told { (e : End) → StandsFor self.old e → OnOk result (outbox.new ≡ record {
          sent = outbox.old.sent;
          told = (outbox.old.told ++ committed e ∷ [])
              ++ numbered (next_event e.ledger) (events_of false (peer_since before e.dance.log));
        }) }
        ensures state { (e : End) → StandsFor self.old e
            → OnOk result (StandsFor self.new (telling false before (peer_since before e.dance.log) e)) }
        ensures fails_for_memory_alone { IfErr result (λ r. r ≡ Refusal.Memory) }
        ensures same_dance { self.new.dance ≡ self.old.dance }
        ensures same_channel { self.new.dance.channel ≡ self.old.dance.channel }
    {
        outbox.report(self.committed())?;
        let updates = peer_since(&self.dance, before);
        self.ledger.enter_all(alloc, false, before, updates, outbox)
    }

    // Keeps what became of the own HTLCs that the peer's updates remove which are held from this one on.
    pub(crate) fn keep_results(&mut self, before: usize) -> Result<(), Refusal>
        requires start { before ≤ self.old.dance.log.acknowledged.peer }
        requires kept { self.old.dance.log.first.peer ≤ before }
        ensures state { (e : End) → StandsFor self.old e
            → OnOk result (StandsFor self.new (settling (peer_since before e.dance.log) e)) }
        ensures fails_for_memory_alone { IfErr result (λ r. r ≡ Refusal.Memory) }
        ensures same_channel { self.new.dance.channel ≡ self.old.dance.channel }
    {
        let updates = peer_since(&self.dance, before);
        self.ledger.keep_results(self.dance.log(), updates)
    }

    // ---- what it owes the peer

    pub(crate) fn shutdown_message(&self, alloc: Global) -> Result<Shutdown, Refusal>
        ensures message { (e : End) → StandsFor self.now e → IfOk result (λ m. m ≡ shutdown_message e) }
        ensures fails_for_memory_alone { IfErr result (λ r. r ≡ Refusal.Memory) }
    {
        let script = Vec::from_slice(alloc, self.terms.script.as_slice())?;
        Ok(Shutdown {
            channel_id: self.dance.channel(),
            script: Bytes::new(script),
            records: Records::empty(alloc),
        })
    }

    // Answers the peer's shutdown, where it is owed and may be.
    fn answer_shutdown(&mut self, alloc: Global, outbox: &mut Outbox) -> Result<(), Refusal>
        ensures sent { (e : End) → StandsFor self.old e → OnOk result (outbox.new ≡ record {
          sent = outbox.old.sent ++ shutdown_sent e;
          told = outbox.old.told;
        }) }
        ensures state { (e : End) → StandsFor self.old e → OnOk result (StandsFor self.new (answers_shutdown e)) }
        ensures fails_for_memory_alone { IfErr result (λ r. r ≡ Refusal.Memory) }
        ensures same_channel { self.new.dance.channel ≡ self.old.dance.channel }
    {
        if !self.closing.peer_shut || self.closing.shut || !self.all_acknowledged() {
            return Ok(());
        }
        let message = self.shutdown_message(alloc)?;
        outbox.send(Message::Shutdown(message))?;
        self.closing.shut();
        Ok(())
    }

    // The range that each fee of this side's comes with.
    fn fee_range(&self, alloc: Global) -> Result<Vec<Record>, Refusal>
        ensures range { IfOk result (λ v. v.items ≡ fee_range self.now.closing ∷ []) }
        ensures fails_for_memory_alone { IfErr result (λ r. r ≡ Refusal.Memory) }
    {
        let mut range = [0; 16];
        BigEndian::write_u64(&mut range[..8], self.closing.fees.least);
        BigEndian::write_u64(&mut range[8..], self.closing.fees.greatest);
        let mut records = Vec::new(alloc);
        records.push(Record {
            typ: 1,
            value: Bytes::from_slice(alloc, &range)?,
        })?;
        Ok(records)
    }

    fn closing_message<K: ChannelKeys>(
        &self,
        alloc: Global,
        keys: &K,
        fee: u64,
    ) -> Result<ClosingSigned, Refusal>
        ensures message { (e : End) → StandsFor self.now e
            → IfOk result (λ m. m ≡ closing_message (K.signer keys.now) e fee) }
        ensures fails_for_memory_alone { IfErr result (λ r. r ≡ Refusal.Memory) }
    {
        let range = self.fee_range(alloc)?;
        Ok(ClosingSigned {
            channel_id: self.dance.channel(),
            fee_satoshis: fee,
            signature: keys.sign_close(fee),
            records: Records::new(range),
        })
    }

    pub(crate) fn send_fee<K: ChannelKeys>(
        &self,
        alloc: Global,
        keys: &K,
        fee: u64,
        outbox: &mut Outbox,
    ) -> Result<(), Refusal>
        ensures sent { (e : End) → StandsFor self.now e → OnOk result (outbox.new ≡ record
            { sent = outbox.old.sent ++ fee_sent (K.signer keys.now) e (Some fee); told = outbox.old.told }) }
        ensures fails_for_memory_alone { IfErr result (λ r. r ≡ Refusal.Memory) }
    {
        let message = self.closing_message(alloc, keys, fee)?;
        outbox.send(Message::ClosingSigned(message))
    }

    // The funder sends its first fee, once closing has begun.
    fn begin<K: ChannelKeys>(
        &mut self,
        alloc: Global,
        keys: &K,
        outbox: &mut Outbox,
    ) -> Result<(), Refusal>
        ensures sent { (e : End) → StandsFor self.old e → OnOk result (outbox.new ≡ record {
          sent = outbox.old.sent ++ fee_sent (K.signer keys.now) e (due_fee e);
          told = outbox.old.told;
        }) }
        ensures state { (e : End) → StandsFor self.old e → OnOk result (StandsFor self.new (begins e)) }
        ensures fails_for_memory_alone { IfErr result (λ r. r ≡ Refusal.Memory) }
        ensures same_channel { self.new.dance.channel ≡ self.old.dance.channel }
    {
        if !self.has_begun() {
            return Ok(());
        }
        match self.closing.start() {
            None => Ok(()),
            Some(fee) => self.send_fee(alloc, keys, fee, outbox),
        }
    }

    /// The end of each turn: the shutdown that is owed and may be sent now, then the funder's first fee.
    pub(crate) fn end_turn<K: ChannelKeys>(
        &mut self,
        alloc: Global,
        keys: &K,
        outbox: &mut Outbox,
    ) -> Result<(), Refusal>
        ensures sent { (e : End) → StandsFor self.old e → OnOk result (outbox.new ≡ record
            { sent = outbox.old.sent ++ due_sent (K.signer keys.now) e; told = outbox.old.told }) }
        ensures state { (e : End) → StandsFor self.old e → OnOk result (StandsFor self.new (settled e)) }
        ensures fails_for_memory_alone { IfErr result (λ r. r ≡ Refusal.Memory) }
        ensures same_channel { self.new.dance.channel ≡ self.old.dance.channel }
    {
        self.answer_shutdown(alloc, outbox)?;
        self.begin(alloc, keys, outbox)
    }
}

// How many own updates a side holds as irrevocably committed.
pub(crate) fn own_held(dance: &Dance) -> usize
    ensures held { result ≡ dance.now.log.current.own }
    ensures ordered { dance.now.log.current.own ≤ dance.now.log.acknowledged.own }
    ensures first { dance.now.log.first.own ≤ dance.now.log.current.own }
    ensures within { dance.now.log.current.own ≤ length dance.now.log.own }
    ensures fits_64_bits { dance.now.log.current.own < 2 ^ 64 }
{
    let log = dance.log();
    let _ = log.first(Side::Own);
    log.counts(Pair::Current(Side::Own)).own
}

// How many of the peer's updates it does.
pub(crate) fn peer_held(dance: &Dance) -> usize
    ensures held { result ≡ dance.now.log.acknowledged.peer }
    ensures ordered { dance.now.log.acknowledged.peer ≤ dance.now.log.signed.peer }
    ensures first { dance.now.log.first.peer ≤ dance.now.log.acknowledged.peer }
    ensures within { dance.now.log.acknowledged.peer ≤ length dance.now.log.received }
    ensures fits_64_bits { dance.now.log.acknowledged.peer < 2 ^ 64 }
{
    let log = dance.log();
    let _ = log.first(Side::Peer);
    log.counts(Pair::Current(Side::Peer)).peer
}

// The own updates that are held, from this one on.
fn own_since(dance: &Dance, before: usize) -> &[Update]
    requires start { before ≤ dance.now.log.current.own }
    requires kept { dance.now.log.first.own ≤ before }
    ensures updates { (d : Dancer) → dancing.StandsFor dance.now d → result.now ≡ own_since before d.log }
    ensures fits_64_bits { before + length result.now < 2 ^ 64 }
{
    dance.log().between(Side::Own, before, own_held(dance))
}

// The peer's updates that are held, from this one on.
fn peer_since(dance: &Dance, before: usize) -> &[Update]
    requires start { before ≤ dance.now.log.acknowledged.peer }
    requires kept { dance.now.log.first.peer ≤ before }
    ensures updates { (d : Dancer) → dancing.StandsFor dance.now d → result.now ≡ peer_since before d.log }
    ensures not_removed_before { AreNotGone (before_first side.Peer dance.now.log) result.now }
    ensures fits_64_bits { before + length result.now < 2 ^ 64 }
{
    dance.log().between(Side::Peer, before, peer_held(dance))
}

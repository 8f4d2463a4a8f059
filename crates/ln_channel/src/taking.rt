//! What each message of the peer makes of an end.

ghost use Rattle.std.specs.Prelude.{◌≡◌};
ghost use Rattle.ln_channel.specs.Taking.{range_in};

use crate::channel::{Channel, own_held, peer_held};
use crate::output::Outbox;
use byteorder::{BigEndian, ByteOrder};
use ln_bytes::{Bytes, value_of};
use ln_close::FeeAnswer;
use ln_dance::update_of;
use ln_keys::ChannelKeys;
use ln_log::{Side, Update};
use ln_msgs::{ChannelReady, ClosingSigned, CommitmentSigned, Message, RevokeAndAck, Shutdown};
use ln_refusals::Refusal;
use std::alloc::Global;

impl Channel {
    ghost use Rattle.std.specs.Prelude.{◌≡◌, ◌≤◌, true, OnOk, IfOk, IfErr, OnErr};
    ghost use Rattle.ln_log.specs.Log.{taken_fault};
    ghost use Rattle.ln_dance.specs.Dance.{accept_fault, answer_of, revoked_message, learn_fault};
    ghost use Rattle.ln_channel.specs.Opening.{AnswersFault, AnswersSignature};
    ghost use Rattle.ln_channel.specs.End.{End, StandsFor, Makes, MakesBy};
    ghost use Rattle.ln_channel.specs.Taking.{is_viewed};
    ghost use Rattle.ln_channel.specs.Taking.{takes_ready, late_fault, early_fault, update_row, takes};
    ghost use Rattle.ln_channel.specs.Taking.{accepts, signature_row, revokes, revocation_row};
    ghost use Rattle.ln_channel.specs.Taking.{shutdown_row, shuts_by_peer, answering};
    ghost use Rattle.ln_channel.specs.Taking.{fee_row, told_row, message_row, taken};

    /// Takes `channel_ready` (BOLT 2, "The `channel_ready` Message"): a second one, or one after the close, does
    /// nothing.
    fn take_ready(&mut self, message: &ChannelReady)
        ensures ready { (e : End) → StandsFor self.old e → StandsFor self.new (takes_ready message.now e) }
        ensures same_channel { self.new.dance.channel ≡ self.old.dance.channel }
    {
        if self.readiness.ready_received || self.is_closed() {
            return;
        }
        self.readiness.ready_received = true;
        self.dance.take_point(message.second_point);
    }

    // Whether an update comes too late: an add after the peer's shutdown, a fee once closing has begun.
    fn late_refusal(&self, update: &Update) -> Option<Refusal>
        ensures { (e : End) → StandsFor self.now e → result ≡ late_fault e update.now }
    {
        match update {
            Update::Add(_) => {
                if self.closing.peer_shut {
                    Some(Refusal::AddAfterShutdown)
                } else {
                    None
                }
            }
            Update::Fulfil(_) => None,
            Update::Fail(_) => None,
            Update::Malformed(_) => None,
            Update::Fee(_) => {
                if self.has_begun() {
                    Some(Refusal::OutOfPlace)
                } else {
                    None
                }
            }
        }
    }

    // What is wrong with an update of the peer that the log doesn't know of.
    fn early_refusal(&self, update: &Update) -> Option<Refusal>
        ensures { (e : End) → StandsFor self.now e → result ≡ early_fault e update.now }
    {
        if !self.is_ready() || self.dance.log().is_at_update_limit(Side::Peer) {
            return Some(Refusal::OutOfPlace);
        }
        self.late_refusal(update)
    }

    // Takes an update into the log.
    fn receive(&mut self, update: Update) -> Result<(), Refusal>
        ensures refuses_exactly { (e : End) → StandsFor self.old e
            → AnswersFault (taken_fault e.dance.log update) result }
        ensures state { (e : End) → StandsFor self.old e → OnOk result (StandsFor self.new (takes update e)) }
        ensures changes_nothing_if_refused { OnErr result (self.new ≡ self.old) }
        ensures same_channel { self.new.dance.channel ≡ self.old.dance.channel }
    {
        self.dance.receive(update)
    }

    /// Takes an update (BOLT 2, "Normal Operation").
    ///
    /// Errors: 21 before both sides have confirmed, where the peer has 2^62 updates, or for a fee once closing has
    /// begun; 35 for an add after the peer's shutdown; else those of `UpdateLog::receive`.
    fn take_update(&mut self, alloc: Global, update: Update) -> Result<Outbox, Refusal>
        ensures makes { (e : End) → StandsFor self.old e → Makes (update_row update e) result self.old self.new }
        ensures same_channel { self.new.dance.channel ≡ self.old.dance.channel }
    {
        match self.early_refusal(&update) {
            Some(refusal) => return Err(refusal),
            None => {}
        }
        self.receive(update)?;
        Ok(Outbox::new(alloc))
    }

    // Accepts a signature, and gives the revocation.
    fn accept<K: ChannelKeys>(
        &mut self,
        alloc: Global,
        keys: &K,
        message: &CommitmentSigned,
    ) -> Result<RevokeAndAck, Refusal>
        ensures refuses_exactly { (e : End) → StandsFor self.old e
            → AnswersSignature (accept_fault (K.signer keys.now) message.now e.dance) result }
        ensures message { (e : End) → StandsFor self.old e
            → IfOk result (λ m. m ≡ revoked_message (K.signer keys.now) e.dance) }
        ensures state { (e : End) → StandsFor self.old e → OnOk result (StandsFor self.new (accepts e)) }
        ensures grows { OnOk result (self.old.dance.log.current.own ≤ self.new.dance.log.current.own) }
        ensures first_stays_below { OnOk result (self.new.dance.log.first.own ≤ self.old.dance.log.current.own) }
        ensures changes_nothing_if_refused { OnErr result (self.new ≡ self.old) }
        ensures same_channel { self.new.dance.channel ≡ self.old.dance.channel }
    {
        let _ = own_held(&self.dance);
        self.dance.accept(alloc, keys, message)
    }

    /// Takes a signature (BOLT 2, "Completing the Transition to the Updated State"): it is answered by the revocation,
    /// and what is newly held is told.
    ///
    /// Errors: 21 before both sides have confirmed, or after the last number; 31 for a wrong signature; 60.
    fn take_signature<K: ChannelKeys>(
        &mut self,
        alloc: Global,
        keys: &K,
        message: &CommitmentSigned,
    ) -> Result<Outbox, Refusal>
        ensures makes { (e : End) → StandsFor self.old e
            → MakesBy true (signature_row (K.signer keys.now) message.now e) result self.old self.new }
        ensures same_channel { self.new.dance.channel ≡ self.old.dance.channel }
    {
        if !self.is_ready() {
            return Err(Refusal::OutOfPlace);
        }
        let before = own_held(&self.dance);
        let revocation = self.accept(alloc, keys, message)?;
        let mut outbox = Outbox::new(alloc);
        outbox.send(Message::RevokeAndAck(revocation))?;
        self.report_own(alloc, before, &mut outbox)?;
        Ok(outbox)
    }

    // Learns a revocation.
    fn learn<K: ChannelKeys>(&mut self, keys: &K, message: &RevokeAndAck) -> Result<(), Refusal>
        ensures refuses_exactly { (e : End) → StandsFor self.old e
            → result ≡ answer_of (learn_fault (K.signer keys.now) message.now e.dance) }
        ensures state { (e : End) → StandsFor self.old e
            → OnOk result (StandsFor self.new (revokes message.now e)) }
        ensures grows { OnOk result (self.old.dance.log.acknowledged.peer ≤ self.new.dance.log.acknowledged.peer) }
        ensures first_stays_below { OnOk result (self.new.dance.log.first.peer ≤ self.old.dance.log.acknowledged.peer) }
        ensures changes_nothing_if_refused { OnErr result (self.new ≡ self.old) }
        ensures same_channel { self.new.dance.channel ≡ self.old.dance.channel }
    {
        let _ = peer_held(&self.dance);
        self.dance.learn(keys, message)
    }

    /// Takes a revocation (BOLT 2, "Completing the Transition to the Updated State: `revoke_and_ack`"): what is newly
    /// held is told, and what became of forwarded HTLCs by it is kept.
    ///
    /// Errors: 33 where no signature is unrevoked, 32 for a wrong secret, 60.
    fn take_revocation<K: ChannelKeys>(
        &mut self,
        alloc: Global,
        keys: &K,
        message: &RevokeAndAck,
    ) -> Result<Outbox, Refusal>
        ensures makes { (e : End) → StandsFor self.old e
            → Makes (revocation_row (K.signer keys.now) message.now e) result self.old self.new }
        ensures same_channel { self.new.dance.channel ≡ self.old.dance.channel }
    {
        let before = peer_held(&self.dance);
        self.learn(keys, message)?;
        let mut outbox = Outbox::new(alloc);
        self.report_peer(alloc, before, &mut outbox)?;
        self.keep_results(before)?;
        Ok(outbox)
    }

    /// Takes a shutdown (BOLT 2, "Closing Initiation: `shutdown`"). A repeated one does nothing; 21 where it names
    /// another script.
    fn take_shutdown(&mut self, alloc: Global, message: &Shutdown) -> Result<Outbox, Refusal>
        ensures makes { (e : End) → StandsFor self.old e → Makes (shutdown_row message.now e) result self.old self.new }
        ensures same_channel { self.new.dance.channel ≡ self.old.dance.channel }
    {
        match &self.terms.peer_script {
            Some(script) => {
                if script.as_slice() != message.script.as_slice() {
                    return Err(Refusal::OutOfPlace);
                }
            }
            None => self.note_shutdown(alloc, message)?,
        }
        Ok(Outbox::new(alloc))
    }

    // The peer has shut down, with this script.
    fn note_shutdown(&mut self, alloc: Global, message: &Shutdown) -> Result<(), Refusal>
        ensures state { (e : End) → StandsFor self.old e
            → OnOk result (StandsFor self.new (shuts_by_peer message.now e)) }
        ensures fails_for_memory_alone { IfErr result (λ r. r ≡ Refusal.Memory) }
        ensures same_channel { self.new.dance.channel ≡ self.old.dance.channel }
    {
        let script = Vec::from_slice(alloc, message.script.as_slice())?;
        self.terms.peer_script = Some(Bytes::new(script));
        self.closing.peer_shut();
        Ok(())
    }

    /// Takes a closing fee, and answers it (BOLT 2, "Closing Negotiation: `closing_signed`"): 21 where closing hasn't
    /// begun, 31 for a wrong signature, 36 by `Closing::answer`, which leaves all as it was.
    fn take_fee<K: ChannelKeys>(
        &mut self,
        alloc: Global,
        keys: &K,
        message: &ClosingSigned,
    ) -> Result<Outbox, Refusal>
        ensures makes { (e : End) → StandsFor self.old e
            → Makes (fee_row (K.signer keys.now) message.now e) result self.old self.new }
        ensures same_channel { self.new.dance.channel ≡ self.old.dance.channel }
    {
        if !self.has_begun() {
            return Err(Refusal::OutOfPlace);
        }
        let fee = message.fee_satoshis;
        if !keys.verify_close(fee, &message.signature) {
            return Err(Refusal::SignatureWrong);
        }
        let answer = self.closing.answer(fee, range_in(message))?;
        self.hand_answer(alloc, keys, answer)
    }

    // Sends what an answer to a fee sends, and tells of a close.
    fn hand_answer<K: ChannelKeys>(
        &mut self,
        alloc: Global,
        keys: &K,
        answer: FeeAnswer,
    ) -> Result<Outbox, Refusal>
        ensures handed { (e : End) → StandsFor self.old e
            → IfOk result (λ h. h ≡ (answering (K.signer keys.now) answer e).handed) }
        ensures state { (e : End) → StandsFor self.old e
            → OnOk result (StandsFor self.new (answering (K.signer keys.now) answer e).end) }
        ensures fails_for_memory_alone { IfErr result (λ r. r ≡ Refusal.Memory) }
        ensures same_channel { self.new.dance.channel ≡ self.old.dance.channel }
    {
        let mut outbox = Outbox::new(alloc);
        match answer {
            FeeAnswer::Nothing => {}
            FeeAnswer::Close(fee) => self.ledger.enter_close(fee, &mut outbox)?,
            FeeAnswer::EchoAndClose(fee) => {
                self.send_fee(alloc, keys, fee, &mut outbox)?;
                self.ledger.enter_close(fee, &mut outbox)?;
            }
            FeeAnswer::Propose(fee) => self.send_fee(alloc, keys, fee, &mut outbox)?,
        }
        Ok(outbox)
    }

    // Takes the update that a message tells; 21 where there is none.
    fn take_told(&mut self, alloc: Global, update: Option<Update>) -> Result<Outbox, Refusal>
        ensures makes { (e : End) → StandsFor self.old e → Makes (told_row update e) result self.old self.new }
        ensures same_channel { self.new.dance.channel ≡ self.old.dance.channel }
    {
        match update {
            Some(update) => self.take_update(alloc, update),
            None => Err(Refusal::OutOfPlace),
        }
    }

    // By message: those that aren't of a channel, and those that open one, are out of place (21).
    fn take_message<K: ChannelKeys>(
        &mut self,
        alloc: Global,
        keys: &K,
        message: Message,
    ) -> Result<Outbox, Refusal>
        ensures makes { (e : End) → StandsFor self.old e
            → MakesBy (is_viewed message) (message_row (K.signer keys.now) message e) result
            self.old self.new }
        ensures same_channel { self.new.dance.channel ≡ self.old.dance.channel }
    {
        match &message {
            Message::ChannelReady(ready) => {
                self.take_ready(ready);
                Ok(Outbox::new(alloc))
            }
            Message::CommitmentSigned(signed) => self.take_signature(alloc, keys, signed),
            Message::RevokeAndAck(revocation) => self.take_revocation(alloc, keys, revocation),
            Message::Shutdown(shutdown) => self.take_shutdown(alloc, shutdown),
            Message::ClosingSigned(closing) => self.take_fee(alloc, keys, closing),
            Message::UpdateAddHtlc(_)
            | Message::UpdateFulfillHtlc(_)
            | Message::UpdateFailHtlc(_)
            | Message::UpdateFailMalformedHtlc(_)
            | Message::UpdateFee(_) => self.take_told(alloc, update_of(message)),
            _ => Err(Refusal::OutOfPlace),
        }
    }

    /// Takes a message: what it makes of the end, then the shutdown that is owed and may be sent now, then the funder's
    /// first fee.
    pub fn take<K: ChannelKeys>(
        &mut self,
        alloc: Global,
        keys: &K,
        message: Message,
    ) -> Result<Outbox, Refusal>
        ensures makes { (e : End) → StandsFor self.old e
            → MakesBy (is_viewed message) (taken (K.signer keys.now) message e) result
            self.old self.new }
        ensures same_channel { self.new.dance.channel ≡ self.old.dance.channel }
    {
        let mut outbox = self.take_message(alloc, keys, message)?;
        self.end_turn(alloc, keys, &mut outbox)?;
        Ok(outbox)
    }
}

// The fee range that comes with a closing fee.
fn range_in(message: &ClosingSigned) -> Option<(u64, u64)>
    ensures { result ≡ range_in message.now }
{
    let value = value_of(message.records.as_slice(), 1)?;
    if value.len() != 16 {
        return None;
    }
    Some((BigEndian::read_u64(value), BigEndian::read_u64(&value[8..])))
}

//! What is sent as a connection comes back.

use crate::channel::Channel;
use crate::opening::check_first;
use crate::output::Outbox;
use ln_dance::{Messages, Resend};
use ln_keys::ChannelKeys;
use ln_msgs::{ChannelReestablish, FundingSigned, Message};
use ln_refusals::Refusal;
use std::alloc::Global;

impl Channel {
    ghost use Rattle.std.specs.Prelude.{◌≡◌, ◌⊎◌, true, ◌++◌, OnOk, IfOk, IfErr};
    ghost use Rattle.ln_channel.specs.Failing.{fails};
    ghost use Rattle.ln_dance.specs.Resume.{reestablish_message, resume_fault, owed};
    ghost use Rattle.ln_channel.specs.Opening.{first_fault, AnswersFault, AnswersSignature};
    ghost use Rattle.ln_channel.specs.End.{End, StandsFor, Makes};
    ghost use Rattle.ln_channel.specs.Resume.{resume_row, ready_again, shutdown_again, fee_again, sent_with};

    /// What this side tells as a connection comes back. Takes no memory.
    pub(crate) fn reestablish<K: ChannelKeys>(&self, alloc: Global, keys: &K) -> ChannelReestablish
        ensures { (e : End) → StandsFor self.now e → result ≡ reestablish_message (K.signer keys.now) e.dance }
    {
        self.dance.reestablish(alloc, keys)
    }

    /// The fundee's signature over this end's commitment 0: 31 where it is wrong.
    pub(crate) fn check_funding<K: ChannelKeys>(
        &self,
        alloc: Global,
        keys: &K,
        message: &FundingSigned,
    ) -> Result<(), Refusal>
        ensures refuses_exactly { (e : End) → StandsFor self.now e
            → AnswersSignature (first_fault (K.signer keys.now) e.dance message.now.signature) result }
        ensures refused { IfErr result (λ r. (r ≡ Refusal.Memory) ⊎ (fails r ≡ true)) }
    {
        check_first(alloc, keys, &self.dance, &message.signature)
    }

    fn send_ready_again<K: ChannelKeys>(
        &self,
        alloc: Global,
        keys: &K,
        message: &ChannelReestablish,
        outbox: &mut Outbox,
    ) -> Result<(), Refusal>
        ensures sent { (e : End) → StandsFor self.now e → OnOk result (outbox.new ≡ record {
          sent = outbox.old.sent ++ ready_again (K.signer keys.now) message.now e;
          told = outbox.old.told;
        }) }
        ensures fails_for_memory_alone { IfErr result (λ r. r ≡ Refusal.Memory) }
    {
        if self.dance.is_before_the_first(message) && self.readiness.ready_sent {
            outbox.send(Message::ChannelReady(self.ready_message(alloc, keys)))?;
        }
        Ok(())
    }

    fn send_shutdown_again(&self, alloc: Global, outbox: &mut Outbox) -> Result<(), Refusal>
        ensures sent { (e : End) → StandsFor self.now e → OnOk result (outbox.new ≡ record {
          sent = outbox.old.sent ++ shutdown_again e;
          told = outbox.old.told;
        }) }
        ensures fails_for_memory_alone { IfErr result (λ r. r ≡ Refusal.Memory) }
    {
        if self.closing.shut {
            let message = self.shutdown_message(alloc)?;
            outbox.send(Message::Shutdown(message))?;
        }
        Ok(())
    }

    fn send_fee_again<K: ChannelKeys>(
        &self,
        alloc: Global,
        keys: &K,
        outbox: &mut Outbox,
    ) -> Result<(), Refusal>
        ensures sent { (e : End) → StandsFor self.now e → OnOk result (outbox.new ≡ record {
          sent = outbox.old.sent ++ fee_again (K.signer keys.now) e;
          told = outbox.old.told;
        }) }
        ensures fails_for_memory_alone { IfErr result (λ r. r ≡ Refusal.Memory) }
    {
        match self.closing.own_fee {
            None => Ok(()),
            Some(fee) => self.send_fee(alloc, keys, fee, outbox),
        }
    }

    // What is sent again: channel_ready, what the peer lacks, the own shutdown and the last closing fee.
    fn send_again<K: ChannelKeys>(
        &self,
        alloc: Global,
        keys: &K,
        message: &ChannelReestablish,
        resends: Vec<Resend>,
        outbox: &mut Outbox,
    ) -> Result<(), Refusal>
        ensures sent { (e : End) → StandsFor self.now e → OnOk result (outbox.new ≡ record {
          sent = outbox.old.sent ++ sent_with (K.signer keys.now) message.now resends.items e;
          told = outbox.old.told;
        }) }
        ensures fails_for_memory_alone { IfErr result (λ r. r ≡ Refusal.Memory) }
    {
        self.send_ready_again(alloc, keys, message, outbox)?;
        outbox.send_owed(resends)?;
        self.send_shutdown_again(alloc, outbox)?;
        self.send_fee_again(alloc, keys, outbox)
    }

    // What the peer lacks.
    fn owed<K: ChannelKeys>(
        &self,
        alloc: Global,
        keys: &K,
        message: &ChannelReestablish,
    ) -> Result<Vec<Resend>, Refusal>
        ensures refuses_exactly { (e : End) → StandsFor self.now e
            → AnswersFault (resume_fault (K.signer keys.now) message.now e.dance) result }
        ensures owed { (e : End) → StandsFor self.now e
            → IfOk result (λ v. v.items ≡ owed (K.signer keys.now) message.now e.dance) }
    {
        self.dance.resume(alloc, keys, message)
    }

    /// Takes the peer's `channel_reestablish` (BOLT 2, "Message Retransmission"): sends again what it lacks, and then
    /// what is owed at the end of each turn.
    ///
    /// Errors: 34 for a number that can't be served, 32 for a wrong secret, 60; nothing has changed then.
    pub(crate) fn resume<K: ChannelKeys>(
        &mut self,
        alloc: Global,
        keys: &K,
        message: &ChannelReestablish,
    ) -> Result<Outbox, Refusal>
        ensures makes { (e : End) → StandsFor self.old e
            → Makes (resume_row (K.signer keys.now) message.now e) result self.old self.new }
        ensures same_channel { self.new.dance.channel ≡ self.old.dance.channel }
    {
        let resends = self.owed(alloc, keys, message)?;
        let mut outbox = Outbox::new(alloc);
        self.send_again(alloc, keys, message, resends, &mut outbox)?;
        self.end_turn(alloc, keys, &mut outbox)?;
        Ok(outbox)
    }
}

impl Outbox {
    ghost use Rattle.std.specs.Prelude.{◌≡◌, ◌++◌, OnOk, IfErr};
    ghost use Rattle.ln_channel.specs.Resume.{all_sent, one_again, owed_again};

    fn send_all(&mut self, messages: Messages) -> Result<(), Refusal>
        ensures sent { OnOk result (self.new ≡ record {
          sent = self.old.sent ++ all_sent messages;
          told = self.old.told;
        }) }
        ensures fails_for_memory_alone { IfErr result (λ r. r ≡ Refusal.Memory) }
    {
        for message in messages.into_vec() {
            self.send(message)?;
        }
        Ok(())
    }

    fn send_one(&mut self, resend: Resend) -> Result<(), Refusal>
        ensures sent { OnOk result (self.new ≡ record {
          sent = self.old.sent ++ one_again resend;
          told = self.old.told;
        }) }
        ensures fails_for_memory_alone { IfErr result (λ r. r ≡ Refusal.Memory) }
    {
        match resend {
            Resend::Updates(messages) => self.send_all(messages),
            Resend::Signature(signature) => self.send(Message::CommitmentSigned(signature)),
            Resend::Revocation(revocation) => self.send(Message::RevokeAndAck(revocation)),
        }
    }

    fn send_owed(&mut self, resends: Vec<Resend>) -> Result<(), Refusal>
        ensures sent { OnOk result (self.new ≡ record {
          sent = self.old.sent ++ owed_again resends.items;
          told = self.old.told;
        }) }
        ensures fails_for_memory_alone { IfErr result (λ r. r ≡ Refusal.Memory) }
    {
        for resend in resends {
            self.send_one(resend)?;
        }
        Ok(())
    }
}

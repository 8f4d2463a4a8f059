//! What a side tells as a connection comes back, and what it sends again (BOLT 2, "Message Retransmission").

ghost use Rattle.std.specs.Prelude.{◌≡◌};
ghost use Rattle.ln_dance.specs.Resume.{knows_secret};

use crate::dance::{Dance, LAST_NUMBER, Later};
use crate::messages::update_message;
use ln_keys::{ChannelKeys, Signed};
use ln_log::Pair;
use ln_msgs::{ChannelReestablish, CommitmentSigned, Message, Records, RevokeAndAck};
use ln_refusals::{LostData, Refusal};
use std::alloc::Global;
use std::marker::Model;

/// Messages in their order, which contracts see as a list.
///
/// They are made from a `Vec` and give it back without taking memory.
#[derive(Drop)]
pub struct Messages {
    items: Vec<Message>,
}

impl Model for Messages {
    ghost use Rattle.std.specs.Prelude.{List};
    ghost use Rattle.ln_msgs.specs.declared.messages.message.Message.{Message};

    ghost Value = { List Message };

    ghost view = { λ m. m.items.items };
}

impl Messages {
    ghost use Rattle.std.specs.Prelude.{◌≡◌};

    /// The messages of a vector. Takes no memory.
    pub fn new(items: Vec<Message>) -> Messages
        ensures { result ≡ items.items }
    {
        Messages { items }
    }

    /// The vector. Takes no memory.
    pub fn into_vec(self) -> Vec<Message>
        ensures { result.items ≡ self }
    {
        self.items
    }

    /// The messages in order.
    pub fn as_slice(&self) -> &[Message]
        ensures { result.now ≡ self.now }
    {
        self.items.as_slice()
    }
}

/// What is sent again once a connection came back.
#[derive(Drop)]
pub enum Resend {
    /// The updates that the last signature covers newly, each as it was sent first; there may be none.
    Updates(Messages),
    /// The last signature.
    Signature(CommitmentSigned),
    /// The last revocation.
    Revocation(RevokeAndAck),
}

impl Dance {
    ghost use Rattle.std.specs.Prelude.{◌≡◌, ◌≤◌, ◌++◌, true, map, OnOk, IfOk};
    ghost use Rattle.std.specs.Result.{IsOkUnless};
    ghost use Rattle.ln_log.specs.Limits.{Answers};
    ghost use Rattle.ln_log.specs.Log.{unacknowledged};
    ghost use Rattle.ln_dance.specs.Dance.{Dancer, StandsFor};
    ghost use Rattle.ln_dance.specs.Messages.{update_message};
    ghost use Rattle.ln_dance.specs.Resume.{reestablish_message, lacks_signature, lacks_revocation, can_be_served};
    ghost use Rattle.ln_dance.specs.Resume.{tells_of_later, tells_of_earlier, is_judged_by_secret, lost_data};
    ghost use Rattle.ln_dance.specs.Resume.{resume_fault, updates_again, signature_again, revocation_again};
    ghost use Rattle.ln_dance.specs.Resume.{signature_owed, revocation_owed, owed, is_before_the_first};

    /// What this side tells as a connection comes back: the numbers of the next commitment that is to be signed and of
    /// the next revocation that it expects, the last secret that the peer told, and its current point. Takes no memory.
    pub fn reestablish<K: ChannelKeys>(&self, alloc: Global, keys: &K) -> ChannelReestablish
        ensures { (d : Dancer) → StandsFor self.now d → result ≡ reestablish_message (K.signer keys.now) d }
    {
        let numbers = self.numbers();
        let secret = match self.peer().secret {
            Some(secret) => secret,
            None => [0; 32],
        };
        ChannelReestablish {
            channel_id: self.channel(),
            next_commitment_number: numbers.commitment + 1,
            next_revocation_number: numbers.revoked,
            last_secret: secret,
            current_point: keys.point(numbers.commitment),
            records: Records::empty(alloc),
        }
    }

    /// Whether the numbers of both ends are those of the opening, as far as this message tells: a `channel_ready` that
    /// was sent is then sent again, before all else. Takes no memory.
    pub fn is_before_the_first(&self, message: &ChannelReestablish) -> bool
        ensures { (d : Dancer) → StandsFor self.now d → result ≡ is_before_the_first message.now d }
    {
        self.numbers().commitment == 0 && message.next_commitment_number == 1
    }

    // Whether the peer waits for the last signature.
    fn lacks_signature(&self, message: &ChannelReestablish) -> bool
        ensures { (d : Dancer) → StandsFor self.now d → result ≡ lacks_signature message.now d }
    {
        let numbers = self.numbers();
        message.next_commitment_number == numbers.signed && numbers.signed == numbers.revoked + 1
    }

    // Whether the peer waits for the last revocation.
    fn lacks_revocation(&self, message: &ChannelReestablish) -> bool
        ensures waits_for_it { (d : Dancer) → StandsFor self.now d → result ≡ lacks_revocation message.now d }
        ensures has_revoked_one { (d : Dancer) → StandsFor self.now d → result ≡ true → 1 ≤ d.numbers.commitment }
    {
        let commitment = self.numbers().commitment;
        commitment > 0 && message.next_revocation_number == commitment - 1
    }

    /// Whether the peer, by its numbers, has all signatures and revocations, or all but the last. Takes no memory.
    pub fn can_be_served(&self, message: &ChannelReestablish) -> bool
        ensures { (d : Dancer) → StandsFor self.now d → result ≡ can_be_served message.now d }
    {
        let numbers = self.numbers();
        (message.next_commitment_number == numbers.signed + 1 || self.lacks_signature(message))
            && (message.next_revocation_number == numbers.commitment
                || self.lacks_revocation(message))
    }

    // Whether the peer tells the secret of a commitment that this side hasn't revoked.
    fn tells_of_later(&self, message: &ChannelReestablish) -> bool
        ensures { (d : Dancer) → StandsFor self.now d → result ≡ tells_of_later message.now d }
    {
        let revoked = message.next_revocation_number;
        self.numbers().commitment < revoked && revoked <= LAST_NUMBER + 1
    }

    // Whether none of the peer's numbers is ahead of what this side has sent.
    fn tells_of_earlier(&self, message: &ChannelReestablish) -> bool
        ensures { (d : Dancer) → StandsFor self.now d → result ≡ tells_of_earlier message.now d }
    {
        let numbers = self.numbers();
        message.next_commitment_number <= numbers.signed + 1
            && message.next_revocation_number <= numbers.commitment
    }

    /// Whether the secret that the peer tells decides what becomes of its message: it can be served, or it may prove
    /// whose data is lost. Takes no memory.
    pub fn is_judged_by_secret(&self, message: &ChannelReestablish) -> bool
        ensures { (d : Dancer) → StandsFor self.now d → result ≡ is_judged_by_secret message.now d }
    {
        self.can_be_served(message)
            || self.tells_of_later(message)
            || self.tells_of_earlier(message)
    }

    // Whose data the peer's numbers and its secret prove to be lost.
    fn lost_data<K: ChannelKeys>(&self, keys: &K, message: &ChannelReestablish) -> LostData
        ensures { (d : Dancer) → StandsFor self.now d → result ≡ lost_data (K.signer keys.now) message.now d }
    {
        let is_later = self.tells_of_later(message);
        if (is_later || self.tells_of_earlier(message)) && knows_secret(keys, message) {
            if is_later {
                LostData::Own
            } else {
                LostData::Peer
            }
        } else {
            LostData::Unproved
        }
    }

    // What is wrong with what the peer tells.
    fn resume_refusal<K: ChannelKeys>(
        &self,
        keys: &K,
        message: &ChannelReestablish,
    ) -> Option<Refusal>
        ensures { (d : Dancer) → StandsFor self.now d → result ≡ resume_fault (K.signer keys.now) message.now d }
    {
        if !self.can_be_served(message) {
            Some(Refusal::ReestablishNumber(self.lost_data(keys, message)))
        } else if !knows_secret(keys, message) {
            Some(Refusal::SecretWrong)
        } else {
            None
        }
    }

    // The messages of the updates that the last signature covers newly.
    fn updates_again(&self, alloc: Global) -> Result<Messages, Refusal>
        ensures gives_the_updates { (d : Dancer) → StandsFor self.now d
            → IfOk result (λ m. m ≡ map (update_message d.channel) (unacknowledged d.log)) }
        ensures fails_for_memory_alone { IsOkUnless result Refusal.Memory }
    {
        let channel = self.channel();
        let mut messages = Vec::new(alloc);
        for update in self.log().unacknowledged() {
            messages.push(update_message(alloc, channel, update)?)?;
        }
        Ok(Messages::new(messages))
    }

    // The last signature: over the pair that it covered first, and with the same number.
    fn signature_again<K: ChannelKeys>(
        &self,
        alloc: Global,
        keys: &K,
    ) -> Result<CommitmentSigned, Refusal>
        ensures gives_the_signature { (d : Dancer) → StandsFor self.now d
            → IfOk result (λ m. m ≡ signature_again (K.signer keys.now) d) }
        ensures fails_for_memory_alone { IsOkUnless result Refusal.Memory }
    {
        let view = self.log().view(alloc, Pair::Signed)?;
        let point = self.peer().next_point;
        let Signed { sig, htlcs } = keys.sign(alloc, self.numbers().signed, &point, &view)?;
        Ok(CommitmentSigned {
            channel_id: self.channel(),
            signature: sig,
            htlc_signatures: htlcs,
            records: Records::empty(alloc),
        })
    }

    // The last revocation.
    fn revocation_again<K: ChannelKeys>(&self, alloc: Global, keys: &K) -> RevokeAndAck
        requires { (d : Dancer) → StandsFor self.now d → 1 ≤ d.numbers.commitment }
        ensures { (d : Dancer) → StandsFor self.now d → result ≡ revocation_again (K.signer keys.now) d }
    {
        let current = self.numbers().commitment;
        RevokeAndAck {
            channel_id: self.channel(),
            secret: keys.secret(current - 1),
            next_point: keys.point(current + 1),
            records: Records::empty(alloc),
        }
    }

    // Puts the last signature after what is sent again, where the peer waits for it, with the updates that it covers
    // newly in front of it.
    fn put_signature<K: ChannelKeys>(
        &self,
        alloc: Global,
        keys: &K,
        message: &ChannelReestablish,
        resends: &mut Vec<Resend>,
    ) -> Result<(), Refusal>
        ensures appends_what_is_owed { (d : Dancer) → StandsFor self.now d
            → OnOk result (resends.new.items ≡ resends.old.items ++ signature_owed (K.signer keys.now) message.now d) }
        ensures fails_for_memory_alone { IsOkUnless result Refusal.Memory }
    {
        if self.lacks_signature(message) {
            resends.push(Resend::Updates(self.updates_again(alloc)?))?;
            resends.push(Resend::Signature(self.signature_again(alloc, keys)?))?;
        }
        Ok(())
    }

    // Puts the last revocation after what is sent again, where the peer waits for it.
    fn put_revocation<K: ChannelKeys>(
        &self,
        alloc: Global,
        keys: &K,
        message: &ChannelReestablish,
        resends: &mut Vec<Resend>,
    ) -> Result<(), Refusal>
        ensures appends_what_is_owed { (d : Dancer) → StandsFor self.now d
            → OnOk result (resends.new.items ≡ resends.old.items ++ revocation_owed (K.signer keys.now) message.now d) }
        ensures fails_for_memory_alone { IsOkUnless result Refusal.Memory }
    {
        if self.lacks_revocation(message) {
            resends.push(Resend::Revocation(self.revocation_again(alloc, keys)))?;
        }
        Ok(())
    }

    /// What the peer lacks, by what it tells as a connection comes back, in the order in which it was sent first
    /// (BOLT 2, "Message Retransmission"): where it waits for the last signature, the updates that this covers newly,
    /// and the signature over what it covered first; where it waits for the last revocation, that one. Nothing
    /// changes.
    ///
    /// 34 where the number of the next commitment is neither that after the last signature nor, while this is
    /// unrevoked, its own; or where the number of revocations is neither that of the own commitment nor one less. It
    /// carries whose data is lost, where the peer's secret proves it. Then 32 where revocations were taken and the
    /// secret isn't that of the last one. 60 where there was no memory.
    pub fn resume<K: ChannelKeys>(
        &self,
        alloc: Global,
        keys: &K,
        message: &ChannelReestablish,
    ) -> Result<Vec<Resend>, Refusal>
        ensures refuses_exactly { (d : Dancer) → StandsFor self.now d
            → Answers (resume_fault (K.signer keys.now) message.now d) result }
        ensures owed { (d : Dancer) → StandsFor self.now d
            → IfOk result (λ v. v.items ≡ owed (K.signer keys.now) message.now d) }
    {
        match self.resume_refusal(keys, message) {
            Some(refusal) => return Err(refusal),
            None => {}
        }
        let mut resends = Vec::new(alloc);
        match self.later() {
            Later::Signature => {
                self.put_revocation(alloc, keys, message, &mut resends)?;
                self.put_signature(alloc, keys, message, &mut resends)?;
            }
            Later::Revocation => {
                self.put_signature(alloc, keys, message, &mut resends)?;
                self.put_revocation(alloc, keys, message, &mut resends)?;
            }
        }
        Ok(resends)
    }
}

// Whether the peer tells the secret of the last revocation that it took, if it took one.
fn knows_secret<K: ChannelKeys>(keys: &K, message: &ChannelReestablish) -> bool
    ensures { result ≡ knows_secret (K.signer keys.now) message.now }
{
    let revoked = message.next_revocation_number;
    revoked == 0 || message.last_secret == keys.secret(revoked - 1)
}

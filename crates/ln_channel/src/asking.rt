//! What a host that answers for a link's keys sees of it, and names.

use crate::channel::Channel;
use crate::machine::{ChannelMachine, Stage};
use ln_keys::{ChannelKeys, View};
use ln_msgs::Message;
use ln_refusals::Refusal;
use std::alloc::Global;

impl Stage {
    ghost use Rattle.std.specs.Prelude.{◌≡◌};
    ghost use Rattle.ln_channel.specs.State.{StageStands, KeepsChannel};
    ghost use Rattle.ln_channel.specs.Asking.{with_named, naming_answer};

    // The funding that a funder will name.
    fn name_funding(&mut self, txid: [u8; 32], output: u16) -> Result<(), Refusal>
        ensures answer { (s : Stage) → StageStands self.old s → result ≡ naming_answer s }
        ensures state { (s : Stage) → StageStands self.old s → StageStands self.new (with_named txid output s) }
        ensures same_channel { KeepsChannel self.old self.new }
    {
        match self {
            Stage::AwaitsAccept(spec) => {
                spec.name_funding(txid, output);
                Ok(())
            }
            _ => Err(Refusal::NotReady),
        }
    }
}

impl<K: ChannelKeys + Drop> ChannelMachine<K> {
    ghost use Rattle.std.specs.Prelude.{◌≡◌, IfOk, IfErr, option_copied};
    ghost use Rattle.ln_channel.specs.State.{State, StandsFor, KeepsChannel};
    ghost use Rattle.ln_channel.specs.Asking.{agreed_end, first_view, with_named, naming_answer, reaches_channel};

    /// Other keys from now on; nothing else changes. Takes no memory.
    pub fn set_keys(&mut self, keys: K)
        ensures state { (l : State K) → StandsFor self.old l → StandsFor self.new (record l { keys = keys }) }
        ensures same_channel { KeepsChannel self.old.stage self.new.stage }
    {
        self.keys = keys;
    }

    /// Names the funding of a channel that a funder asks for (BOLT 2, "The `funding_created` Message"): the txid and
    /// the number of its output. Its script needs the key that the fundee's `accept_channel` names, so it may be named
    /// until that is taken; nothing that was sent before depends on it. Takes no memory.
    ///
    /// Error: 40 at any link but a funder's that awaits `accept_channel`, and nothing has changed.
    pub fn name_funding(&mut self, txid: [u8; 32], output: u16) -> Result<(), Refusal>
        ensures answer { (l : State K) → StandsFor self.old l → result ≡ naming_answer l.stage }
        ensures state { (l : State K) → StandsFor self.old l
            → StandsFor self.new (record l { stage = with_named txid output l.stage }) }
        ensures same_channel { KeepsChannel self.old.stage self.new.stage }
    {
        self.stage.name_funding(txid, output)
    }

    /// Whether a message reaches the channel: the link has neither halted nor failed, and what is looked at before the
    /// channel (an error, another channel's id, a connection that is lost) neither passes it over nor refuses it. Takes
    /// no memory.
    pub fn reaches_channel(&self, message: &Message) -> bool
        ensures { (l : State K) → StandsFor self.now l → result ≡ reaches_channel l message.now }
    {
        if self.halted || self.failure.is_some() || self.stage.is_passed_over(message) {
            return false;
        }
        self.stage
            .message_refusal(self.connection, message)
            .is_none()
    }

    /// The end of a channel whose funding is named, whether or not both have signed it. Takes no memory.
    pub fn agreed(&self) -> Option<&Channel>
        ensures end { (l : State K) → StandsFor self.now l → option_copied result ≡ agreed_end l.stage }
    {
        match &self.stage {
            Stage::AwaitsSigned(channel) => Some(channel),
            Stage::Funded(channel) => Some(channel),
            _ => None,
        }
    }

    /// What commitment 0 is worth, at a fundee that awaits `funding_created`. 60 where there is no memory for it.
    pub fn first_view(&self, alloc: Global) -> Result<Option<View>, Refusal>
        ensures view { (l : State K) → StandsFor self.now l → IfOk result (λ v. v ≡ first_view l.stage) }
        ensures fails_for_memory_alone { IfErr result (λ r. r ≡ Refusal.Memory) }
    {
        match &self.stage {
            Stage::AwaitsCreated(agreed) => Ok(Some(agreed.first_view(alloc)?)),
            _ => Ok(None),
        }
    }
}

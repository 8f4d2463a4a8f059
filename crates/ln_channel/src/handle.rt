//! What a message and a command make of a link.

use crate::command::Command;
use crate::machine::{ChannelMachine, Stage};
use crate::output::{Outbox, Output};
use crate::stage::{fails, note_open, obey_open};
use ln_keys::ChannelKeys;
use ln_msgs::Message;
use ln_refusals::Refusal;
use std::alloc::Global;

impl<K: ChannelKeys + Drop> ChannelMachine<K> {
    ghost use Rattle.std.specs.Prelude.{◌≡◌};
    ghost use Rattle.ln_channel.specs.State.{State, StandsFor, KeepsChannel, IsSameLink, fails_by};
    ghost use Rattle.ln_channel.specs.Step.{AnsweredMessage, Answered, handled, commanded, asked, noted, at_hand};
    ghost use Rattle.ln_channel.specs.Step.{obeyed, MovesBy, Takes};
    ghost use Rattle.ln_channel.specs.Taking.{is_viewed};

    /// Takes a message: what it makes of the link, and what is handed out.
    ///
    /// Errors, the first that holds: 62 where the link has halted; the number by which it has failed; 37 for an error
    /// for its channel or for all; 20 for another channel's message; 21 where there is no connection; then those of the
    /// message, with 21 for one that may not come now. By 21 to 35 and 37 the channel has failed; an opening that isn't
    /// signed by both is gone then. By 20 and 36 nothing has changed. 60 where there is no memory, which halts it.
    ///
    /// A warning is passed over, and so are an error for another channel, `init`, `ping` and `pong`.
    pub fn handle(&mut self, alloc: Global, message: Message) -> Result<Vec<Output>, Refusal>
        ensures answers { (l : State K) → StandsFor self.old l
            → AnsweredMessage (λ v. v.items) (handled (K.signer l.keys) l message) l message result self.new }
        ensures same_channel { KeepsChannel self.old.stage self.new.stage }
    {
        if self.halted {
            drop(message);
            return Err(Refusal::Halted);
        }
        match self.failure {
            Some(failure) => {
                drop(message);
                return Err(failure);
            }
            None => {}
        }
        match self.take(alloc, message) {
            Ok(outbox) => self.hand_out(outbox),
            Err(Refusal::Memory) => Err(self.halted_by_memory()),
            Err(refusal) => Err(self.fail_by(refusal)),
        }
    }

    /// Keeps a refusal by which the channel fails, 21 to 35 and 37: an opening that isn't signed by both is gone then.
    /// By any other nothing changes. Takes no memory.
    pub fn fail_by(&mut self, refusal: Refusal) -> Refusal
        ensures refusal { result ≡ refusal }
        ensures state { (l : State K) → StandsFor self.old l → StandsFor self.new (fails_by refusal l) }
        ensures same_channel { KeepsChannel self.old.stage self.new.stage }
    {
        if fails(refusal) {
            self.failure = Some(refusal);
            self.stage.lose();
        }
        refusal
    }

    // Takes a message, unless it is passed over.
    fn take(&mut self, alloc: Global, message: Message) -> Result<Outbox, Refusal>
        ensures takes { (l : State K) → StandsFor self.old l
            → Takes (is_viewed message) (at_hand (K.signer l.keys) l.connection message l.stage) result l self.new }
        ensures same_link { (l : State K) → StandsFor self.old l → IsSameLink l self.new }
        ensures same_channel { KeepsChannel self.old.stage self.new.stage }
    {
        if self.stage.is_passed_over(&message) {
            drop(message);
            return Ok(Outbox::new(alloc));
        }
        match self.stage.message_refusal(self.connection, &message) {
            Some(refusal) => {
                drop(message);
                return Err(refusal);
            }
            None => {}
        }
        self.stage
            .take(alloc, &self.keys, &mut self.connection, message)
    }

    /// Does what it is told: what it makes of the link, and what is handed out. Where it refuses nothing has changed,
    /// but for 60.
    ///
    /// Errors, the first that holds: 62 where the link has halted. Of `Decide` and `Forget`, which are taken without a
    /// connection too, and by a channel that has failed: 40 where the opening isn't signed by both, where another event
    /// is decided than the first undecided one, or where a mark other than `None` isn't for an add of the peer's. Of
    /// the others: the number by which the channel has failed; 40 where its opening isn't signed by both, or the
    /// channel isn't ready for the command; 47 where there is no connection, or the peer's `channel_reestablish` hasn't
    /// come; then those of the command, 41 to 46, 48 and 49. 60 where there is no memory, which halts it.
    pub fn command(&mut self, alloc: Global, command: Command) -> Result<Vec<Output>, Refusal>
        ensures answers { (l : State K) → StandsFor self.old l
            → Answered (λ v. v.items) (commanded (K.signer l.keys) l command) l result self.new }
        ensures same_channel { KeepsChannel self.old.stage self.new.stage }
    {
        if self.halted {
            drop(command);
            return Err(Refusal::Halted);
        }
        match self.work(alloc, command) {
            Ok(outbox) => self.hand_out(outbox),
            Err(Refusal::Memory) => Err(self.halted_by_memory()),
            Err(refusal) => Err(refusal),
        }
    }

    // What it does unless it has halted.
    fn work(&mut self, alloc: Global, command: Command) -> Result<Outbox, Refusal>
        ensures moves { (l : State K) → StandsFor self.old l
            → MovesBy (asked (K.signer l.keys) l command) result l self.new }
        ensures same_link { (l : State K) → StandsFor self.old l → IsSameLink l self.new }
        ensures same_channel { KeepsChannel self.old.stage self.new.stage }
    {
        if command.is_of_records() {
            return self.note(alloc, command);
        }
        match self.failure {
            Some(stored) => {
                drop(command);
                Err(stored)
            }
            None => self.obey(alloc, command),
        }
    }

    // What it makes of a command about decisions at its stage.
    fn note(&mut self, alloc: Global, command: Command) -> Result<Outbox, Refusal>
        ensures moves { (l : State K) → StandsFor self.old l
            → MovesBy (noted l.connection command l.stage) result l self.new }
        ensures same_link { (l : State K) → StandsFor self.old l → IsSameLink l self.new }
        ensures same_channel { KeepsChannel self.old.stage self.new.stage }
    {
        let Stage::Funded(channel) = &mut self.stage else {
            drop(command);
            return Err(Refusal::NotReady);
        };
        note_open(alloc, self.connection, channel, command)
    }

    // What it does at its stage.
    fn obey(&mut self, alloc: Global, command: Command) -> Result<Outbox, Refusal>
        ensures moves { (l : State K) → StandsFor self.old l
            → MovesBy (obeyed (K.signer l.keys) l.connection command l.stage) result l self.new }
        ensures same_link { (l : State K) → StandsFor self.old l → IsSameLink l self.new }
        ensures same_channel { KeepsChannel self.old.stage self.new.stage }
    {
        let Stage::Funded(channel) = &mut self.stage else {
            drop(command);
            return Err(Refusal::NotReady);
        };
        obey_open(alloc, &self.keys, self.connection, channel, command)
    }
}

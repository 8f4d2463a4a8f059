//! A link that nothing saves: one end of a channel from its opening to its close, with the connection that it has.

use crate::channel::Channel;
use crate::config::{FitConfig, FitSpec};
use crate::deep::put;
use crate::opening::{Agreed, open_channel};
use crate::output::{Outbox, Output, one};
use ln_dance::Numbers;
use ln_keys::ChannelKeys;
use ln_msgs::Message;
use ln_refusals::Refusal;
use std::alloc::Global;
use std::marker::Model;

/// Whether a link has a connection.
#[derive(Clone, Copy, PartialEq, Eq)]
pub enum ConnectionState {
    /// It has none.
    Down,
    /// It has one, and awaits the peer's `channel_reestablish`.
    AwaitingReestablish,
    /// It has one, and the peer is there.
    Connected,
}

/// How far a link is with its channel.
#[derive(Drop)]
pub enum Stage {
    /// A fundee awaits `open_channel`.
    AwaitsOpen(FitConfig),
    /// A funder awaits `accept_channel`; without a connection it hasn't sent its `open_channel` yet.
    AwaitsAccept(FitSpec),
    /// A fundee awaits `funding_created`.
    AwaitsCreated(Agreed),
    /// A funder awaits `funding_signed`.
    AwaitsSigned(Channel),
    /// Both have signed the opening.
    Funded(Channel),
    /// The opening failed, or its connection was lost.
    Gone,
}

/// A link that nothing saves: one end of a channel from its opening to its close, with the connection that it has. What
/// a call makes of it is lost where its node stops; ln_link's `Link` saves that before anything is handed out.
///
/// It is new and without a connection at first; `connect` begins. A refusal by which a channel fails, 21 to 35 and 37,
/// is kept, and answered from then on to all messages, and to all commands but `Decide` and `Forget`. Where memory is
/// refused (60) it halts, and answers 62 to everything.
pub struct ChannelMachine<K: ChannelKeys + Drop> {
    pub(crate) keys: K,
    pub(crate) connection: ConnectionState,
    pub(crate) halted: bool,
    pub(crate) failure: Option<Refusal>,
    pub(crate) stage: Stage,
}

// By hand: crates above don't prove again how its parts are dropped.
impl<K: ChannelKeys + Drop> Drop for ChannelMachine<K> {
    fn drop(self) {
        let ChannelMachine {
            keys,
            connection: _,
            halted: _,
            failure: _,
            stage,
        } = self;
        drop(keys);
        drop(stage);
    }
}

impl<K: ChannelKeys + Drop> Model for ChannelMachine<K> {
    ghost use Rattle.ln_channel.specs.State.{State};

    ghost Value = { State K };

    ghost view = { λ l. record {
      keys = l.keys;
      connection = l.connection;
      halted = l.halted;
      failure = l.failure;
      stage = l.stage;
    } };
}

impl ConnectionState {
    ghost use Rattle.std.specs.Prelude.{◌≡◌};
    ghost use Rattle.ln_channel.specs.State.{is_down, is_connected};

    /// Whether there is no connection.
    pub fn is_down(&self) -> bool
        ensures { result ≡ is_down self.now }
    {
        match self {
            ConnectionState::Down => true,
            ConnectionState::AwaitingReestablish => false,
            ConnectionState::Connected => false,
        }
    }

    /// Whether the peer is there.
    pub fn is_connected(&self) -> bool
        ensures { result ≡ is_connected self.now }
    {
        match self {
            ConnectionState::Down => false,
            ConnectionState::AwaitingReestablish => false,
            ConnectionState::Connected => true,
        }
    }
}

impl<K: ChannelKeys + Drop> ChannelMachine<K> {
    ghost use Rattle.std.specs.Prelude.{◌≡◌, true, OnOk, IfOk, IfErr, OnErr};
    ghost use Rattle.ln_channel.specs.declared.machine.Stage.TheVariants as stage;
    ghost use Rattle.ln_channel.specs.Outputs.{all_of};
    ghost use Rattle.ln_channel.specs.State.{State, StandsFor, KeepsChannel, begun, drops, halts};
    ghost use Rattle.ln_channel.specs.State.{IsSameLink, IsHalted, numbers_of};
    ghost use Rattle.ln_channel.specs.Step.{Answered, connected, MovesBy, connects, opened};

    /// A new link of a funder, which opens a channel by this spec. Takes no memory.
    pub fn funder(keys: K, spec: FitSpec) -> ChannelMachine<K>
        ensures { StandsFor result (begun keys (stage.AwaitsAccept spec)) }
    {
        ChannelMachine {
            keys,
            connection: ConnectionState::Down,
            halted: false,
            failure: None,
            stage: Stage::AwaitsAccept(spec),
        }
    }

    /// A new link of a fundee, which takes a channel with this config. Takes no memory.
    pub fn fundee(keys: K, config: FitConfig) -> ChannelMachine<K>
        ensures { StandsFor result (begun keys (stage.AwaitsOpen config)) }
    {
        ChannelMachine {
            keys,
            connection: ConnectionState::Down,
            halted: false,
            failure: None,
            stage: Stage::AwaitsOpen(config),
        }
    }

    /// A link begins anew in its place, with the keys that it has, as a funder that opens a channel by this spec. Takes
    /// no memory.
    pub fn begin_as_funder(&mut self, spec: FitSpec)
        ensures { StandsFor self.new (begun self.old.keys (stage.AwaitsAccept spec)) }
    {
        self.begin(Stage::AwaitsAccept(spec));
    }

    /// A link begins anew in its place, with the keys that it has, as a fundee that takes a channel with this config.
    /// Takes no memory.
    pub fn begin_as_fundee(&mut self, config: FitConfig)
        ensures { StandsFor self.new (begun self.old.keys (stage.AwaitsOpen config)) }
    {
        self.begin(Stage::AwaitsOpen(config));
    }

    // It begins with this stage.
    fn begin(&mut self, stage: Stage)
        ensures { StandsFor self.new (begun self.old.keys stage) }
    {
        self.connection = ConnectionState::Down;
        self.halted = false;
        self.failure = None;
        put(&mut self.stage, stage);
    }

    /// The connection is lost (BOLT 2, "Message Retransmission"): updates that no signature covers are gone, and so is
    /// a channel whose opening isn't signed by both. Without a connection nothing changes. Takes no memory.
    pub fn drop_connection(&mut self)
        ensures state { (l : State K) → StandsFor self.old l → StandsFor self.new (drops l) }
        ensures same_channel { KeepsChannel self.old.stage self.new.stage }
    {
        if !self.connection.is_down() {
            self.connection = ConnectionState::Down;
            self.stage.cut();
        }
    }

    /// The connection is lost, and the link answers 62 from now on. Takes no memory.
    pub fn halt(&mut self)
        ensures state { (l : State K) → StandsFor self.old l → StandsFor self.new (halts l) }
        ensures halted { self.new.halted ≡ true }
        ensures same_channel { KeepsChannel self.old.stage self.new.stage }
    {
        self.drop_connection();
        self.halted = true;
    }

    /// Whether it has a connection, and whether the peer is there. Takes no memory.
    pub fn connection(&self) -> ConnectionState
        ensures { (l : State K) → StandsFor self.now l → result ≡ l.connection }
    {
        self.connection
    }

    /// Whether it has halted, and answers 62 to everything. Takes no memory.
    pub fn is_halted(&self) -> bool
        ensures { (l : State K) → StandsFor self.now l → result ≡ l.halted }
    {
        self.halted
    }

    /// By what the channel has failed. Takes no memory.
    pub fn failure(&self) -> Option<Refusal>
        ensures failure { (l : State K) → StandsFor self.now l → result ≡ l.failure }
        ensures as_kept { result ≡ self.now.failure }
    {
        self.failure
    }

    /// The numbers of its commitments; 0 before an opening is agreed to. Takes no memory.
    pub fn numbers(&self) -> Numbers
        ensures { (l : State K) → StandsFor self.now l → result ≡ numbers_of l.stage }
    {
        self.stage.numbers()
    }

    /// The id of the channel that a message opens: of `accept_channel` at a funder that awaits it, which then names its
    /// funding, and of `funding_created` at a fundee that awaits it. None of a link that has halted or failed. Takes no
    /// memory.
    pub fn opens(&self, message: &Message) -> Option<[u8; 32]>
        ensures { (l : State K) → StandsFor self.now l → result ≡ opened l message.now }
    {
        if self.halted || self.failure.is_some() {
            return None;
        }
        self.stage.opens(message)
    }

    // There was no memory.
    pub(crate) fn halted_by_memory(&mut self) -> Refusal
        ensures fails_for_memory_alone { result ≡ Refusal.Memory }
        ensures halted { (l : State K) → IsSameLink l self.old → IsHalted l self.new }
        ensures same_channel { KeepsChannel self.old.stage self.new.stage }
    {
        self.halt();
        Refusal::Memory
    }

    // Hands out what there is, or halts.
    pub(crate) fn hand_out(&mut self, outbox: Outbox) -> Result<Vec<Output>, Refusal>
        ensures outputs { IfOk result (λ v. v.items ≡ all_of outbox) }
        ensures same { OnOk result (self.new ≡ self.old) }
        ensures halted { OnErr result ((l : State K) → IsSameLink l self.old → IsHalted l self.new) }
        ensures same_channel { KeepsChannel self.old.stage self.new.stage }
        ensures fails_for_memory_alone { IfErr result (λ r. r ≡ Refusal.Memory) }
    {
        match outbox.into_outputs() {
            Ok(outputs) => Ok(outputs),
            Err(_) => Err(self.halted_by_memory()),
        }
    }

    /// There is a connection to the peer. A funder's new link sends `open_channel`, a fundee's nothing; where both have
    /// signed the opening, it sends `channel_reestablish` (BOLT 2, "Channel Establishment v1" and "Message
    /// Retransmission"), also where the channel has failed.
    ///
    /// Errors: 62 where it has halted; 40 where it has a connection, or its opening failed or was broken off; 60, which
    /// halts it.
    pub fn connect(&mut self, alloc: Global) -> Result<Vec<Output>, Refusal>
        ensures answers { (l : State K) → StandsFor self.old l
            → Answered (λ v. v.items) (connected (K.signer l.keys) l) l result self.new }
        ensures same_channel { KeepsChannel self.old.stage self.new.stage }
    {
        if self.halted {
            return Err(Refusal::Halted);
        }
        if !self.connection.is_down() {
            return Err(Refusal::NotReady);
        }
        match self.first_message(alloc) {
            Ok(outbox) => self.hand_out(outbox),
            Err(Refusal::Memory) => Err(self.halted_by_memory()),
            Err(refusal) => Err(refusal),
        }
    }

    // What it sends first over a connection.
    fn first_message(&mut self, alloc: Global) -> Result<Outbox, Refusal>
        ensures moves { (l : State K) → StandsFor self.old l
            → MovesBy (connects (K.signer l.keys) l.stage) result l self.new }
        ensures same_link { (l : State K) → StandsFor self.old l → IsSameLink l self.new }
        ensures same_channel { KeepsChannel self.old.stage self.new.stage }
    {
        match &self.stage {
            Stage::AwaitsOpen(_) => {
                self.connection = ConnectionState::Connected;
                Ok(Outbox::new(alloc))
            }
            Stage::AwaitsAccept(spec) => {
                let message = open_channel(&self.keys, spec)?;
                self.connection = ConnectionState::Connected;
                one(alloc, Message::OpenChannel(message))
            }
            Stage::Funded(channel) => {
                let message = channel.reestablish(alloc, &self.keys);
                self.connection = ConnectionState::AwaitingReestablish;
                one(alloc, Message::ChannelReestablish(message))
            }
            _ => Err(Refusal::NotReady),
        }
    }
}

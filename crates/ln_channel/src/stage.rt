//! What a message makes of each stage of a link.

ghost use Rattle.std.specs.Prelude.{◌≡◌, true, false};
ghost use Rattle.ln_channel.specs.Naming.{named, opens_agreed, opens_told};
ghost use Rattle.ln_channel.specs.Failing.{fails};
ghost use Rattle.ln_channel.specs.Step.{if_any, opening_at, open_at, accept_at, created_at, signed_at, saved_at};
ghost use Rattle.ln_channel.specs.State.{is_saved, StaysUp, StageStands};
ghost use Rattle.ln_channel.specs.End.{End, StandsFor};
ghost use Rattle.ln_channel.specs.Taking.{is_viewed};
ghost use Rattle.ln_channel.specs.declared.machine.ConnectionState.TheVariants as lines;
ghost use Rattle.ln_channel.specs.declared.machine.Stage.TheVariants as stages;
ghost use Rattle.ln_channel.specs.Resume.{resume_row};
ghost use Rattle.ln_channel.specs.Commands.{note_row};
ghost use Rattle.ln_channel.specs.Step.{error_fault, turned, obeyed_open, awaiting_at, saved, Becomes, Moves, MovesEnd};

use crate::channel::Channel;
use crate::command::Command;
use crate::config::{FitConfig, FitSpec, OpenSpec};
use crate::deep::put;
use crate::machine::{ConnectionState, Stage};
use crate::opening::{Agreed, take_accept, take_created, take_open};
use crate::output::{Outbox, one};
use ln_dance::Numbers;
use ln_keys::ChannelKeys;
use ln_msgs::{
    AcceptChannel, ChannelReestablish, FundingCreated, FundingSigned, Message, OpenChannel,
    channel_id,
};
use ln_refusals::Refusal;
use std::alloc::Global;
use std::mem;

/// The id of the channel that a message is about; none of one that opens a channel, and of one that is of no channel.
/// Takes no memory.
pub fn named(message: &Message) -> Option<[u8; 32]>
    ensures { result ≡ named message.now }
{
    match message {
        Message::FundingSigned(m) => Some(m.channel_id),
        Message::ChannelReady(m) => Some(m.channel_id),
        Message::Shutdown(m) => Some(m.channel_id),
        Message::ClosingSigned(m) => Some(m.channel_id),
        Message::UpdateAddHtlc(m) => Some(m.channel_id),
        Message::UpdateFulfillHtlc(m) => Some(m.channel_id),
        Message::UpdateFailHtlc(m) => Some(m.channel_id),
        Message::UpdateFailMalformedHtlc(m) => Some(m.channel_id),
        Message::UpdateFee(m) => Some(m.channel_id),
        Message::CommitmentSigned(m) => Some(m.channel_id),
        Message::RevokeAndAck(m) => Some(m.channel_id),
        Message::ChannelReestablish(m) => Some(m.channel_id),
        _ => None,
    }
}

// The channel that a message opens at a funder.
fn opens_agreed(spec: &OpenSpec, message: &Message) -> Option<[u8; 32]>
    ensures { result ≡ opens_agreed spec.now message.now }
{
    match message {
        Message::AcceptChannel(_) => Some(channel_id(&spec.txid, spec.output)),
        _ => None,
    }
}

// The channel that a message opens at a fundee.
fn opens_told(message: &Message) -> Option<[u8; 32]>
    ensures { result ≡ opens_told message.now }
{
    match message {
        Message::FundingCreated(m) => Some(channel_id(&m.funding_txid, m.output_index)),
        _ => None,
    }
}

// An error fails the channel.
fn error_refusal(message: &Message) -> Option<Refusal>
    ensures { result ≡ error_fault message.now }
{
    match message {
        Message::Error(_) => Some(Refusal::PeerError),
        _ => None,
    }
}

// Whether a refusal fails a channel: 21 to 35 and 37.
pub(crate) fn fails(refusal: Refusal) -> bool
    ensures { result ≡ fails refusal }
{
    let number = refusal.number();
    (21 <= number && number <= 35) || number == 37
}

// Before an opening is agreed to.
const NO_NUMBERS: Numbers = Numbers {
    commitment: 0,
    signed: 0,
    revoked: 0,
};

impl Stage {
    ghost use Rattle.std.specs.Prelude.{◌≡◌};
    ghost use Rattle.ln_channel.specs.Naming.{channel_of, temporary_of, is_meant, is_other, opens};
    ghost use Rattle.ln_channel.specs.State.{StageStands, is_saved, KeepsChannel, StaysUp, lost, cut, numbers_of};
    ghost use Rattle.ln_channel.specs.Taking.{is_viewed};
    ghost use Rattle.ln_channel.specs.Step.{is_passed_over, stray_fault, message_fault, stage_row, Moves};

    // The numbers of its end's commitments.
    pub(crate) fn numbers(&self) -> Numbers
        ensures { (s : Stage) → StageStands self.now s → result ≡ numbers_of s }
    {
        match self {
            Stage::AwaitsSigned(channel) => channel.dance.numbers(),
            Stage::Funded(channel) => channel.dance.numbers(),
            _ => NO_NUMBERS,
        }
    }

    // Whether both have signed the opening.
    fn is_saved(&self) -> bool
        ensures { (s : Stage) → StageStands self.now s → result ≡ is_saved s }
    {
        match self {
            Stage::Funded(_) => true,
            _ => false,
        }
    }

    // An opening that isn't signed by both is gone.
    pub(crate) fn lose(&mut self)
        ensures state { (s : Stage) → StageStands self.old s → StageStands self.new (lost s) }
        ensures same_channel { KeepsChannel self.old self.new }
    {
        if !self.is_saved() {
            put(self, Stage::Gone);
        }
    }

    // Its connection is lost.
    pub(crate) fn cut(&mut self)
        ensures state { (s : Stage) → StageStands self.old s → StageStands self.new (cut s) }
        ensures same_channel { KeepsChannel self.old self.new }
    {
        match self {
            Stage::Funded(channel) => channel.drop_unsigned(),
            _ => put(self, Stage::Gone),
        }
    }

    // The channel's id, once its funding is known to both.
    fn channel(&self) -> Option<[u8; 32]>
        ensures { (s : Stage) → StageStands self.now s → result ≡ channel_of s }
    {
        match self {
            Stage::AwaitsSigned(channel) => Some(channel.id()),
            Stage::Funded(channel) => Some(channel.id()),
            _ => None,
        }
    }

    // Its temporary id, while it is being opened.
    fn temporary(&self) -> Option<[u8; 32]>
        ensures { (s : Stage) → StageStands self.now s → result ≡ temporary_of s }
    {
        match self {
            Stage::AwaitsAccept(spec) => Some(spec.get().temporary_id),
            Stage::AwaitsCreated(agreed) => Some(agreed.temporary_id()),
            Stage::AwaitsSigned(channel) => Some(channel.temporary_id()),
            _ => None,
        }
    }

    // Whether an error with this id is meant for the link.
    fn is_meant(&self, id: &[u8; 32]) -> bool
        ensures { (s : Stage) → StageStands self.now s → result ≡ is_meant s id.now }
    {
        *id == [0; 32] || self.channel() == Some(*id) || self.temporary() == Some(*id)
    }

    // Whether a message is about another channel.
    fn is_other(&self, id: Option<[u8; 32]>) -> bool
        ensures { (s : Stage) → StageStands self.now s → result ≡ is_other id s }
    {
        match id {
            None => false,
            Some(id) => self.channel() != Some(id),
        }
    }

    // The channel that a message opens.
    pub(crate) fn opens(&self, message: &Message) -> Option<[u8; 32]>
        ensures { (s : Stage) → StageStands self.now s → result ≡ opens s message.now }
    {
        match self {
            Stage::AwaitsAccept(spec) => opens_agreed(spec.get(), message),
            Stage::AwaitsCreated(_) => opens_told(message),
            _ => None,
        }
    }

    /// Whether a message is passed over: a warning, an error for another channel, and what is of no channel.
    pub(crate) fn is_passed_over(&self, message: &Message) -> bool
        ensures { (s : Stage) → StageStands self.now s → result ≡ is_passed_over s message.now }
    {
        match message {
            Message::Warning(_) => true,
            Message::Init(_) => true,
            Message::Ping(_) => true,
            Message::Pong(_) => true,
            Message::Error(error) => !self.is_meant(&error.channel_id),
            _ => false,
        }
    }

    // Another channel's message, or one that comes without a connection.
    fn stray_refusal(&self, connection: ConnectionState, message: &Message) -> Option<Refusal>
        ensures { (s : Stage) → StageStands self.now s → result ≡ stray_fault connection s message.now }
    {
        if self.is_other(named(message)) {
            Some(Refusal::UnknownChannel)
        } else if connection.is_down() {
            Some(Refusal::OutOfPlace)
        } else {
            None
        }
    }

    /// What is wrong with a message before the channel is asked: an error, another channel's message, or one that comes
    /// without a connection.
    pub(crate) fn message_refusal(
        &self,
        connection: ConnectionState,
        message: &Message,
    ) -> Option<Refusal>
        ensures { (s : Stage) → StageStands self.now s → result ≡ message_fault connection s message.now }
    {
        match error_refusal(message) {
            Some(refusal) => Some(refusal),
            None => self.stray_refusal(connection, message),
        }
    }

    /// Takes a message that is of the link's channel.
    pub(crate) fn take<K: ChannelKeys>(
        &mut self,
        alloc: Global,
        keys: &K,
        connection: &mut ConnectionState,
        message: Message,
    ) -> Result<Outbox, Refusal>
        ensures moves { (s : Stage) → StageStands self.old s
            → Moves (is_viewed message) (stage_row (K.signer keys.now) connection.old message s)
            result connection.old connection.new s self.new }
        ensures stays_up { StaysUp connection.old connection.new }
        ensures same_channel { KeepsChannel self.old self.new }
    {
        match self {
            Stage::Funded(channel) => take_saved(alloc, keys, connection, channel, message),
            _ => opened_by(alloc, keys, *connection, self, message),
        }
    }
}

// ---- a channel that is being opened

// By message: each has its stage, which is replaced.
fn opened_by<K: ChannelKeys>(
    alloc: Global,
    keys: &K,
    connection: ConnectionState,
    stage: &mut Stage,
    message: Message,
) -> Result<Outbox, Refusal>
    requires { is_saved stage.old ≡ false }
    ensures { (s : Stage) → StageStands stage.old s
        → Moves (is_viewed message) (opening_at
        (K.signer keys.now) connection message s) result connection connection s stage.new }
{
    match &message {
        Message::OpenChannel(_) => opened_by_open(
            alloc,
            keys,
            connection,
            stage,
            message.into_open(),
        ),
        Message::AcceptChannel(_) => opened_by_accept(
            alloc,
            keys,
            connection,
            stage,
            message.into_accept(),
        ),
        Message::FundingCreated(created) => opened_by_created(
            alloc, keys, connection, stage, created,
        ),
        Message::FundingSigned(signed) => opened_by_signed(alloc, keys, connection, stage, signed),
        _ => Err(Refusal::OutOfPlace),
    }
}

fn opened_by_open<K: ChannelKeys>(
    alloc: Global,
    keys: &K,
    connection: ConnectionState,
    stage: &mut Stage,
    message: Option<OpenChannel>,
) -> Result<Outbox, Refusal>
    requires { is_saved stage.old ≡ false }
    ensures { (s : Stage) → StageStands stage.old s
        → Moves false (if_any (open_at (K.signer keys.now) connection) message s) result connection connection
        s stage.new }
{
    let Some(message) = message else {
        return Err(Refusal::OutOfPlace);
    };
    match mem::replace(stage, Stage::Gone) {
        Stage::AwaitsOpen(config) => agree(alloc, keys, connection, stage, config, message),
        other => {
            drop(other);
            Err(Refusal::OutOfPlace)
        }
    }
}

fn agree<K: ChannelKeys>(
    alloc: Global,
    keys: &K,
    connection: ConnectionState,
    stage: &mut Stage,
    config: FitConfig,
    message: OpenChannel,
) -> Result<Outbox, Refusal>
    requires { stage.old ≡ stages.Gone }
    ensures { Becomes false connection (open_at (K.signer keys.now) connection message
        (stages.AwaitsOpen config)) result
        stage.new }
{
    let (agreed, accept) = take_open(alloc, keys, config, message)?;
    put(stage, Stage::AwaitsCreated(agreed));
    one(alloc, Message::AcceptChannel(accept))
}

fn opened_by_accept<K: ChannelKeys>(
    alloc: Global,
    keys: &K,
    connection: ConnectionState,
    stage: &mut Stage,
    message: Option<AcceptChannel>,
) -> Result<Outbox, Refusal>
    requires { is_saved stage.old ≡ false }
    ensures { (s : Stage) → StageStands stage.old s
        → Moves false (if_any (accept_at (K.signer keys.now) connection) message s) result connection connection
        s stage.new }
{
    let Some(message) = message else {
        return Err(Refusal::OutOfPlace);
    };
    match mem::replace(stage, Stage::Gone) {
        Stage::AwaitsAccept(spec) => fund(alloc, keys, connection, stage, spec, message),
        other => {
            drop(other);
            Err(Refusal::OutOfPlace)
        }
    }
}

fn fund<K: ChannelKeys>(
    alloc: Global,
    keys: &K,
    connection: ConnectionState,
    stage: &mut Stage,
    spec: FitSpec,
    message: AcceptChannel,
) -> Result<Outbox, Refusal>
    requires { stage.old ≡ stages.Gone }
    ensures { Becomes false connection (accept_at (K.signer keys.now) connection message
        (stages.AwaitsAccept spec)) result
        stage.new }
{
    let (opened, created) = take_accept(alloc, keys, spec, message)?;
    put(stage, Stage::AwaitsSigned(Channel::new(alloc, opened)));
    one(alloc, Message::FundingCreated(created))
}

fn opened_by_created<K: ChannelKeys>(
    alloc: Global,
    keys: &K,
    connection: ConnectionState,
    stage: &mut Stage,
    message: &FundingCreated,
) -> Result<Outbox, Refusal>
    requires { is_saved stage.old ≡ false }
    ensures { (s : Stage) → StageStands stage.old s
        → Moves true (created_at (K.signer keys.now) connection message.now s) result connection connection
        s stage.new }
{
    match mem::replace(stage, Stage::Gone) {
        Stage::AwaitsCreated(agreed) => sign(alloc, keys, connection, stage, agreed, message),
        other => {
            drop(other);
            Err(Refusal::OutOfPlace)
        }
    }
}

fn sign<K: ChannelKeys>(
    alloc: Global,
    keys: &K,
    connection: ConnectionState,
    stage: &mut Stage,
    agreed: Agreed,
    message: &FundingCreated,
) -> Result<Outbox, Refusal>
    requires { stage.old ≡ stages.Gone }
    ensures { Becomes true connection (created_at (K.signer keys.now) connection message.now
        (stages.AwaitsCreated agreed)) result
        stage.new }
{
    let (opened, signed) = take_created(alloc, keys, agreed, message)?;
    put(stage, Stage::Funded(Channel::new(alloc, opened)));
    one(alloc, Message::FundingSigned(signed))
}

fn opened_by_signed<K: ChannelKeys>(
    alloc: Global,
    keys: &K,
    connection: ConnectionState,
    stage: &mut Stage,
    message: &FundingSigned,
) -> Result<Outbox, Refusal>
    ensures { (s : Stage) → StageStands stage.old s
        → Moves true (signed_at (K.signer keys.now) connection message.now s) result connection connection s stage.new }
{
    match stage {
        Stage::AwaitsSigned(channel) => channel.check_funding(alloc, keys, message)?,
        _ => return Err(Refusal::OutOfPlace),
    }
    save(stage);
    Ok(Outbox::new(alloc))
}

// The opening is signed by both.
fn save(stage: &mut Stage)
    ensures { (s : Stage) → StageStands stage.old s → StageStands stage.new (saved s) }
{
    let signed = mem::replace(stage, Stage::Gone);
    put(stage, saved(signed));
}

fn saved(stage: Stage) -> Stage
    ensures { (s : Stage) → StageStands stage s → StageStands result (saved s) }
{
    match stage {
        Stage::AwaitsSigned(channel) => Stage::Funded(channel),
        other => other,
    }
}

// ---- an open channel

// Once the peer is there, all but its channel_reestablish; until then, that alone.
fn take_saved<K: ChannelKeys>(
    alloc: Global,
    keys: &K,
    connection: &mut ConnectionState,
    channel: &mut Channel,
    message: Message,
) -> Result<Outbox, Refusal>
    ensures moves { (e : End) → StandsFor channel.old e
        → MovesEnd (is_viewed message) (saved_at (K.signer keys.now) connection.old message e)
        result connection.old connection.new channel.old channel.new }
    ensures stays_up { StaysUp connection.old connection.new }
    ensures same_channel { channel.new.dance.channel ≡ channel.old.dance.channel }
{
    if connection.is_connected() {
        channel.take(alloc, keys, message)
    } else {
        take_awaited(alloc, keys, connection, channel, message)
    }
}

fn take_awaited<K: ChannelKeys>(
    alloc: Global,
    keys: &K,
    connection: &mut ConnectionState,
    channel: &mut Channel,
    message: Message,
) -> Result<Outbox, Refusal>
    ensures moves { (e : End) → StandsFor channel.old e
        → MovesEnd (is_viewed message) (awaiting_at (K.signer keys.now) message e)
        result connection.old connection.new channel.old channel.new }
    ensures stays_up { StaysUp connection.old connection.new }
    ensures same_channel { channel.new.dance.channel ≡ channel.old.dance.channel }
{
    match &message {
        Message::ChannelReestablish(reestablish) => {
            take_reestablish(alloc, keys, connection, channel, reestablish)
        }
        _ => Err(Refusal::OutOfPlace),
    }
}

// The peer is there.
fn take_reestablish<K: ChannelKeys>(
    alloc: Global,
    keys: &K,
    connection: &mut ConnectionState,
    channel: &mut Channel,
    message: &ChannelReestablish,
) -> Result<Outbox, Refusal>
    ensures moves { (e : End) → StandsFor channel.old e
        → MovesEnd false (turned lines.Connected (resume_row (K.signer keys.now) message.now e))
        result connection.old connection.new channel.old channel.new }
    ensures stays_up { StaysUp connection.old connection.new }
    ensures same_channel { channel.new.dance.channel ≡ channel.old.dance.channel }
{
    match channel.resume(alloc, keys, message) {
        Ok(outbox) => {
            *connection = ConnectionState::Connected;
            Ok(outbox)
        }
        Err(refusal) => Err(refusal),
    }
}

// ---- a command

// What an open channel does by a command: what sends needs a connection on which the peer is there.
pub(crate) fn obey_open<K: ChannelKeys>(
    alloc: Global,
    keys: &K,
    connection: ConnectionState,
    channel: &mut Channel,
    command: Command,
) -> Result<Outbox, Refusal>
    ensures moves { (e : End) → StandsFor channel.old e
        → MovesEnd false (obeyed_open (K.signer keys.now) connection command e)
        result connection connection channel.old channel.new }
    ensures same_channel { channel.new.dance.channel ≡ channel.old.dance.channel }
{
    match channel.unready_refusal(&command) {
        Some(refusal) => {
            drop(command);
            return Err(refusal);
        }
        None => {}
    }
    if !connection.is_connected() {
        drop(command);
        return Err(Refusal::Disconnected);
    }
    channel.command(alloc, keys, command)
}

// What an open channel makes of a command about decisions.
pub(crate) fn note_open(
    alloc: Global,
    connection: ConnectionState,
    channel: &mut Channel,
    command: Command,
) -> Result<Outbox, Refusal>
    ensures moves { (e : End) → StandsFor channel.old e
        → MovesEnd false (turned connection (note_row command e))
        result connection connection channel.old channel.new }
    ensures same_channel { channel.new.dance.channel ≡ channel.old.dance.channel }
{
    channel.note(alloc, command)
}

//! What is told of a channel.

ghost use Rattle.std.specs.Prelude.{◌≡◌, [], IfOk, IfErr};
ghost use Rattle.ln_refusals.specs.declared.refusal.Refusal.TheVariants as refusal;
ghost use Rattle.ln_channel.specs.Summary.{balance_of};
ghost use Rattle.ln_watch.specs.Summary.{closed_or, failed_or, state_of_end, state_by, in_msat, reserve_of, unsigned};
ghost use Rattle.ln_watch.specs.Summary.{own_unheld, peer_unheld, htlcs_of, opening_summary, end_summary, summary_of};

use crate::htlc::{LiveHtlcs, append_live};
use ln_bytes::ShortId;
use ln_channel::{Channel, ChannelMachine, ConnectionState, Terms};
use ln_dance::{Dance, Numbers};
use ln_keys::{ChannelKeys, Htlc, Role, View};
use ln_log::{ChannelId, Counts, Pair, Side, Update};
use ln_refusals::Refusal;
use std::alloc::{AllocError, Global};

/// How far a channel is, for one of its ends. The first that fits is told, from below.
#[derive(Clone, Copy, Debug, PartialEq, Eq)]
pub enum ChannelState {
    /// It is being opened: its opening isn't signed by both.
    Opening,
    /// Both have signed its opening. One side's `channel_ready` is missing, which tells that the funding is confirmed.
    Unconfirmed,
    /// This end has sent `channel_ready`, and taken the peer's.
    Ready,
    /// One side has sent `shutdown`.
    Shutting,
    /// It is closed at this fee, in satoshis.
    Closed(u64),
    /// It failed by this refusal.
    Failed(Refusal),
    /// Its end has halted: it answers nothing until it was loaded.
    Halted,
}

/// What is told of a channel. While it is opened all is 0, or none, but for its state and its connection.
#[derive(Drop)]
pub struct ChannelSummary {
    /// How far it is.
    pub state: ChannelState,
    /// Whether it has a connection, and whether the peer is there.
    pub connection: ConnectionState,
    /// Its id.
    pub channel: Option<ChannelId>,
    /// Its short id, once it was confirmed.
    pub short_id: Option<ShortId>,
    /// What the own commitment gives to this side, in millisatoshi.
    pub own_balance: u64,
    /// And to the peer.
    pub peer_balance: u64,
    /// What this side may not offer of its balance, in millisatoshi.
    pub own_reserve: u64,
    /// And the peer of its own.
    pub peer_reserve: u64,
    /// The numbers of the commitments.
    pub numbers: Numbers,
    /// How many updates of either side a signature made now would cover, beside those that the last one covers.
    pub unsigned: Counts,
    /// The live HTLCs: this side's by their ids, then the peer's. Of this side's that is each until the own commitment
    /// has its removal; of the peer's each from when the own commitment has it to when it has its removal.
    pub htlcs: LiveHtlcs,
}

impl ChannelSummary {
    ghost use Rattle.std.specs.Prelude.{◌≡◌, IfOk};

    /// The same once more. Takes memory for the HTLCs.
    pub fn copied(&self) -> Result<ChannelSummary, AllocError>
        ensures copy { IfOk result (λ s. s ≡ self.now) }
    {
        let htlcs = self.htlcs.clone()?;
        Ok(ChannelSummary {
            state: self.state,
            connection: self.connection,
            channel: self.channel,
            short_id: self.short_id,
            own_balance: self.own_balance,
            peer_balance: self.peer_balance,
            own_reserve: self.own_reserve,
            peer_reserve: self.peer_reserve,
            numbers: self.numbers,
            unsigned: self.unsigned,
            htlcs,
        })
    }
}

// ---- how far it is

fn closed_or(fee: Option<u64>, state: ChannelState) -> ChannelState
    ensures { result ≡ closed_or fee state }
{
    match fee {
        None => state,
        Some(fee) => ChannelState::Closed(fee),
    }
}

fn failed_or(failure: Option<Refusal>, state: ChannelState) -> ChannelState
    ensures { result ≡ failed_or failure state }
{
    match failure {
        None => state,
        Some(refusal) => ChannelState::Failed(refusal),
    }
}

fn state_of_end(end: &Channel) -> ChannelState
    ensures { result ≡ state_of_end end.now }
{
    let closing = end.closing();
    let state = if closing.shut || closing.peer_shut {
        ChannelState::Shutting
    } else if end.is_ready() {
        ChannelState::Ready
    } else {
        ChannelState::Unconfirmed
    };
    closed_or(closing.closed, state)
}

fn state_by<K: ChannelKeys + Drop>(machine: &ChannelMachine<K>, state: ChannelState) -> ChannelState
    ensures { result ≡ state_by machine.now.halted machine.now.failure state }
{
    if machine.is_halted() {
        return ChannelState::Halted;
    }
    failed_or(machine.failure(), state)
}

// ---- what each side keeps back

fn in_msat(satoshis: u64) -> u64
    ensures { result ≡ in_msat satoshis }
{
    satoshis.saturating_mul(1000)
}

fn reserve_of(side: Role, terms: &Terms) -> u64
    ensures { result ≡ reserve_of side terms.now }
{
    match side {
        Role::Funder => in_msat(terms.accept_channel.channel_reserve_satoshis),
        Role::Fundee => in_msat(terms.open_channel.channel_reserve_satoshis),
    }
}

// ---- updates

fn unsigned(dance: &Dance) -> Counts
    ensures { result ≡ unsigned dance.now.log }
{
    let log = dance.log();
    let signed = log.counts(Pair::Signed);
    let next = log.counts(Pair::ToSign);
    Counts {
        own: next.own - signed.own,
        peer: next.peer - signed.peer,
    }
}

fn own_unheld(dance: &Dance) -> &[Update]
    ensures { result.now ≡ own_unheld dance.now.log }
{
    let log = dance.log();
    log.between(
        Side::Own,
        log.counts(Pair::Current(Side::Own)).own,
        log.len(Side::Own),
    )
}

fn peer_unheld(dance: &Dance) -> &[Update]
    ensures { result.now ≡ peer_unheld dance.now.log }
{
    let log = dance.log();
    log.between(
        Side::Peer,
        log.counts(Pair::Current(Side::Peer)).peer,
        log.len(Side::Peer),
    )
}

// The live HTLCs of an end: its own among those that a signature made now would cover, then the peer's among those of
// the own commitment. 60 where there is no memory.
fn htlcs_of(
    alloc: Global,
    role: Role,
    dance: &Dance,
    signed: &[Htlc],
    own: &[Htlc],
) -> Result<LiveHtlcs, Refusal>
    ensures tells_them { IfOk result (λ h. h ≡ htlcs_of role dance.now.log signed.now own.now) }
    ensures fails_for_memory_alone { IfErr result (λ e. e ≡ refusal.Memory) }
{
    let mut live = Vec::new(alloc);
    let (ours, theirs) = (own_unheld(dance), peer_unheld(dance));
    append_live(&mut live, role, true, ours, theirs, signed)?;
    append_live(&mut live, role.other(), false, theirs, ours, own)?;
    Ok(LiveHtlcs::new(live))
}

// ---- all of it

fn balance_of(side: Role, view: &View) -> u64
    ensures { result ≡ balance_of side view.now }
{
    match side {
        Role::Funder => view.funder,
        Role::Fundee => view.fundee,
    }
}

// Of a channel that is being opened.
fn opening_summary(
    connection: ConnectionState,
    state: ChannelState,
    none: LiveHtlcs,
) -> ChannelSummary
    requires { none ≡ [] }
    ensures { result ≡ opening_summary connection state }
{
    ChannelSummary {
        state,
        connection,
        channel: None,
        short_id: None,
        own_balance: 0,
        peer_balance: 0,
        own_reserve: 0,
        peer_reserve: 0,
        numbers: Numbers {
            commitment: 0,
            signed: 0,
            revoked: 0,
        },
        unsigned: Counts { own: 0, peer: 0 },
        htlcs: none,
    }
}

// Of one whose opening both have signed. 60 where there is no memory.
fn end_summary(
    alloc: Global,
    connection: ConnectionState,
    state: ChannelState,
    end: &Channel,
) -> Result<ChannelSummary, Refusal>
    ensures tells_it { IfOk result (λ s. s ≡ end_summary connection state end.now) }
    ensures fails_for_memory_alone { IfErr result (λ e. e ≡ refusal.Memory) }
{
    let dance = end.dance();
    let role = end.closing().role;
    let terms = end.terms();
    let own = dance.log().view(alloc, Pair::Current(Side::Own))?;
    let signed = dance.log().view(alloc, Pair::ToSign)?;
    let htlcs = htlcs_of(
        alloc,
        role,
        dance,
        signed.htlcs.as_slice(),
        own.htlcs.as_slice(),
    )?;
    Ok(ChannelSummary {
        state,
        connection,
        channel: Some(end.id()),
        short_id: end.readiness().short_id,
        own_balance: balance_of(role, &own),
        peer_balance: balance_of(role.other(), &own),
        own_reserve: reserve_of(role, terms),
        peer_reserve: reserve_of(role.other(), terms),
        numbers: dance.numbers(),
        unsigned: unsigned(dance),
        htlcs,
    })
}

/// What is told of a link's channel. Takes memory. Error: 60 alone.
pub fn summary_of<K: ChannelKeys + Drop>(
    alloc: Global,
    machine: &ChannelMachine<K>,
) -> Result<ChannelSummary, Refusal>
    ensures tells_the_link { IfOk result (λ s. s ≡ summary_of machine.now) }
    ensures fails_for_memory_alone { IfErr result (λ e. e ≡ refusal.Memory) }
{
    let connection = machine.connection();
    match machine.saved() {
        None => {
            let state = state_by(machine, ChannelState::Opening);
            let none = LiveHtlcs::new(Vec::new(alloc));
            Ok(opening_summary(connection, state, none))
        }
        Some(end) => {
            let state = state_by(machine, state_of_end(end));
            end_summary(alloc, connection, state, end)
        }
    }
}

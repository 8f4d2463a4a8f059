//! The four messages that open a channel.

ghost use Rattle.std.specs.Prelude.{◌≡◌, ◌⊎◌, true, false, Some, None, IfOk, IfErr, if◌then◌else◌};
ghost use Rattle.ln_bytes.specs.Tlv.{value_of};
ghost use Rattle.ln_refusals.specs.declared.refusal.Refusal.TheVariants as refusal;
ghost use Rattle.ln_keys.specs.Signer.{Signer};
ghost use Rattle.ln_log.specs.Opening.{IsFit};
ghost use Rattle.ln_log.specs.declared.log.Pair.TheVariants as pair;
ghost use Rattle.ln_log.specs.declared.log.Side.TheVariants as side;
ghost use Rattle.ln_dance.specs.Dance.{view_at};
ghost use Rattle.ln_channel.specs.declared.config.Config.{Config};
ghost use Rattle.ln_channel.specs.declared.config.OpenSpec.{OpenSpec};
ghost use Rattle.ln_channel.specs.declared.opening.Opened.{Opened};
ghost use Rattle.ln_channel.specs.Failing.{fails};
ghost use Rattle.ln_channel.specs.Meeting.{CanOpen, Opens, AreEnds};
ghost use Rattle.ln_channel.specs.Opening.{AnswersSignature, Gives, HasBegun, asked_by_open, asked_by_accept};
ghost use Rattle.ln_channel.specs.Opening.{asked_with, opening_of};
ghost use Rattle.ln_channel.specs.Opening.{first_point, first_dance, opened_by, first_signature, first_fault};
ghost use Rattle.ln_channel.specs.Opening.{open_message, open_fault, typed, accept_message, open_taken, repeats};
ghost use Rattle.ln_channel.specs.Opening.{accept_fault, funder_terms, funder_end, accept_taken, created_taken};
ghost use Rattle.ln_channel.specs.Opening.{signed_end};

use crate::config::{Config, FitConfig, FitSpec, OpenSpec};
use ln_bytes::{Bytes, Record, value_of};
use ln_close::{Closing, Fees};
use ln_dance::{Dance, Later, Numbers, Peer};
use ln_keys::{ChannelKeys, Role, View};
use ln_log::{Limits, Opening, Pair, Side, UpdateLog};
use ln_msgs::{AcceptChannel, FundingCreated, FundingSigned, OpenChannel, Records, channel_id};
use ln_refusals::Refusal;
use std::alloc::Global;
use std::marker::Model;
use std::mem;

/// What both sides told as they opened a channel, for its life.
#[derive(Drop)]
pub struct Terms {
    /// The funder's first message.
    pub open_channel: OpenChannel,
    /// The fundee's.
    pub accept_channel: AcceptChannel,
    /// The script that the own shutdown names.
    pub script: Bytes,
    /// The script that the peer's shutdown named.
    pub peer_script: Option<Bytes>,
}

/// An end of a channel as its opening leaves it: before any update, with nothing of its close done.
#[derive(Drop)]
pub struct Opened {
    /// The numbers and points of its commitments.
    pub dance: Dance,
    /// Its side, and the closing fees that it takes.
    pub closing: Closing,
    /// What both sides told.
    pub terms: Terms,
}

/// What a fundee has until the funding is named.
#[derive(Drop)]
pub struct Agreed {
    fees: Fees,
    terms: Terms,
}

impl Model for Agreed {
    ghost use Rattle.ln_channel.specs.Opening.{Agreement, IsAgreed};

    ghost Value = { Agreement };

    ghost view = { λ a. record { fees = a.fees; terms = a.terms } };

    ghost invariant = { λ a. IsAgreed (record { fees = a.fees; terms = a.terms }) };
}

impl Agreed {
    ghost use Rattle.std.specs.Prelude.{◌≡◌, IfOk, IfErr};
    ghost use Rattle.ln_bytes.specs.Same.{are_same};
    ghost use Rattle.ln_refusals.specs.declared.refusal.Refusal.TheVariants as refusal;
    ghost use Rattle.ln_channel.specs.Asking.{first_worth};

    // The channel's id until its funding is named.
    pub(crate) fn temporary_id(&self) -> [u8; 32]
        ensures { result ≡ self.now.terms.open_channel.temporary_id }
    {
        self.terms.open_channel.temporary_id
    }

    // What commitment 0 will be worth.
    pub(crate) fn first_view(&self, alloc: Global) -> Result<View, Refusal>
        ensures view { IfOk result (λ v. v ≡ first_worth self.now) }
        ensures fails_for_memory_alone { IfErr result (λ r. r ≡ refusal.Memory) }
    {
        own_view(
            alloc,
            &first_dance(alloc, Role::Fundee, [0; 32], &self.terms),
        )
    }

    // Whether a funding_created is of this channel.
    fn is_meant(&self, created: &FundingCreated) -> bool
        ensures { result ≡ are_same created.now.temporary_id self.now.terms.open_channel.temporary_id }
    {
        created.temporary_id == self.terms.open_channel.temporary_id
    }
}

// What each message asks of the HTLCs that its sender is offered.
fn asked_by_open(message: &OpenChannel) -> Limits
    ensures { result ≡ asked_by_open message.now }
{
    Limits {
        minimum: message.htlc_minimum_msat,
        accepted: message.max_accepted_htlcs,
        in_flight: message.max_htlc_value_in_flight_msat,
        reserve: message.channel_reserve_satoshis,
    }
}

fn asked_by_accept(message: &AcceptChannel) -> Limits
    ensures { result ≡ asked_by_accept message.now }
{
    Limits {
        minimum: message.htlc_minimum_msat,
        accepted: message.max_accepted_htlcs,
        in_flight: message.max_htlc_value_in_flight_msat,
        reserve: message.channel_reserve_satoshis,
    }
}

// What an `open_channel` comes to, with a fundee that asks for this.
fn asked_with(message: &OpenChannel, fundee: Limits) -> Opening
    ensures { result ≡ asked_with message.now fundee }
{
    Opening {
        satoshis: message.funding_satoshis,
        push: message.push_msat,
        feerate: message.feerate_per_kw,
        funder: asked_by_open(message),
        fundee,
    }
}

impl Terms {
    fn opening(&self) -> Opening
        ensures { result ≡ opening_of self.now }
    {
        asked_with(&self.open_channel, asked_by_accept(&self.accept_channel))
    }

    fn first_point(&self, role: Role) -> [u8; 33]
        ensures { result ≡ first_point role self.now }
    {
        match role {
            Role::Funder => self.open_channel.first_per_commitment_point,
            Role::Fundee => self.accept_channel.first_per_commitment_point,
        }
    }
}

// An end before any update.
fn first_dance(alloc: Global, role: Role, channel: [u8; 32], terms: &Terms) -> Dance
    requires { IsFit (opening_of terms.now) }
    ensures { result ≡ first_dance role channel terms.now }
{
    let updates = UpdateLog::new(alloc, role, terms.opening());
    let numbers = Numbers {
        commitment: 0,
        signed: 0,
        revoked: 0,
    };
    let peer = Peer {
        point: terms.first_point(role.other()),
        next_point: [0; 33],
        secret: None,
    };
    Dance::new(channel, updates, numbers, peer, Later::Signature)
}

// An end of the channel with this id, which takes these closing fees.
fn opened_by(alloc: Global, role: Role, channel: [u8; 32], fees: Fees, terms: Terms) -> Opened
    requires { IsFit (opening_of terms) }
    ensures { result ≡ opened_by role channel fees terms }
{
    Opened {
        dance: first_dance(alloc, role, channel, &terms),
        closing: Closing::new(role, fees),
        terms,
    }
}

// An end signs the peer's commitment 0, at the peer's point.
fn sign_first<K: ChannelKeys>(alloc: Global, keys: &K, dance: &Dance) -> Result<[u8; 64], Refusal>
    ensures signature { IfOk result (λ s. s ≡ first_signature (K.signer keys.now) dance.now) }
    ensures fails_for_memory_alone { IfErr result (λ r. r ≡ refusal.Memory) }
{
    let view = dance.log().view(alloc, Pair::Current(Side::Peer))?;
    let signed = keys.sign(alloc, 0, &dance.peer().point, &view)?;
    Ok(signed.sig)
}

// What its own commitment is worth.
fn own_view(alloc: Global, dance: &Dance) -> Result<View, Refusal>
    ensures view { IfOk result (λ v. v ≡ view_at (pair.Current side.Own) dance.now) }
    ensures fails_for_memory_alone { IfErr result (λ r. r ≡ refusal.Memory) }
{
    dance.log().view(alloc, Pair::Current(Side::Own))
}

// And checks the peer's signature over its own, at its own point.
pub(crate) fn check_first<K: ChannelKeys>(
    alloc: Global,
    keys: &K,
    dance: &Dance,
    signature: &[u8; 64],
) -> Result<(), Refusal>
    ensures refuses_exactly { AnswersSignature (first_fault (K.signer keys.now) dance.now signature.now) result }
    ensures refused { IfErr result (λ r. (r ≡ refusal.Memory) ⊎ (fails r ≡ true)) }
{
    let view = own_view(alloc, dance)?;
    if keys.verify(0, &keys.point(0), &view, signature, &[]) {
        Ok(())
    } else {
        Err(Refusal::SignatureWrong)
    }
}

// ---- open_channel

impl OpenSpec {
    // The open_channel, with these records.
    fn open_with<K: ChannelKeys>(&self, keys: &K, records: Records) -> OpenChannel
        ensures { result ≡ record (open_message (K.signer keys.now) self.now) { records = records } }
    {
        let points = &self.config.points;
        let limits = &self.config.limits;
        OpenChannel {
            chain_hash: self.config.chain_hash,
            temporary_id: self.temporary_id,
            funding_satoshis: self.funding,
            push_msat: self.push,
            dust_limit_satoshis: self.config.dust_limit,
            max_htlc_value_in_flight_msat: limits.in_flight,
            channel_reserve_satoshis: limits.reserve,
            htlc_minimum_msat: limits.minimum,
            feerate_per_kw: self.feerate,
            to_self_delay: self.config.to_self_delay,
            max_accepted_htlcs: limits.accepted,
            funding_pubkey: points.funding_pubkey,
            revocation_basepoint: points.revocation_basepoint,
            payment_basepoint: points.payment_basepoint,
            delayed_payment_basepoint: points.delayed_payment_basepoint,
            htlc_basepoint: points.htlc_basepoint,
            first_per_commitment_point: keys.point(0),
            channel_flags: self.flags,
            records,
        }
    }
}

/// The `open_channel` by which a funder asks for a channel (BOLT 2, "The `open_channel` Message").
///
/// Takes memory for its records; 60 where there is none.
pub fn open_channel<K: ChannelKeys>(keys: &K, spec: &FitSpec) -> Result<OpenChannel, Refusal>
    ensures message { IfOk result (λ m. m ≡ open_message (K.signer keys.now) spec.now) }
    ensures fails_for_memory_alone { IfErr result (λ r. r ≡ refusal.Memory) }
{
    let spec = spec.get();
    let records = spec.records.clone()?;
    Ok(spec.open_with(keys, records))
}

impl Config {
    // Whether a fundee agrees to an `open_channel`.
    fn agrees_to(&self, message: &OpenChannel) -> bool
        ensures { open_fault self.now message.now ≡ (if result then None else Some refusal.OutOfPlace) }
    {
        message.chain_hash == self.chain_hash && asked_with(message, self.limits).is_fit()
    }

    // The accept_channel, with these records.
    fn accept_with<K: ChannelKeys>(
        &self,
        keys: &K,
        message: &OpenChannel,
        records: Records,
    ) -> AcceptChannel
        ensures { result ≡ record (accept_message (K.signer keys.now) self.now message.now) { records = records } }
    {
        let points = &self.points;
        AcceptChannel {
            temporary_id: message.temporary_id,
            dust_limit_satoshis: self.dust_limit,
            max_htlc_value_in_flight_msat: self.limits.in_flight,
            channel_reserve_satoshis: self.limits.reserve,
            htlc_minimum_msat: self.limits.minimum,
            minimum_depth: self.minimum_depth,
            to_self_delay: self.to_self_delay,
            max_accepted_htlcs: self.limits.accepted,
            funding_pubkey: points.funding_pubkey,
            revocation_basepoint: points.revocation_basepoint,
            payment_basepoint: points.payment_basepoint,
            delayed_payment_basepoint: points.delayed_payment_basepoint,
            htlc_basepoint: points.htlc_basepoint,
            first_per_commitment_point: keys.point(0),
            records,
        }
    }
}

// A channel type that was asked for, to be repeated.
fn channel_type(alloc: Global, records: &Records) -> Result<Records, Refusal>
    ensures typed { IfOk result (λ rs. rs ≡ typed (value_of 1 records.now)) }
    ensures fails_for_memory_alone { IfErr result (λ r. r ≡ refusal.Memory) }
{
    let mut repeated = Vec::new(alloc);
    match value_of(records.as_slice(), 1) {
        None => {}
        Some(value) => {
            let value = Bytes::from_slice(alloc, value)?;
            repeated.push(Record { typ: 1, value })?;
        }
    }
    Ok(Records::new(repeated))
}

fn accept_to_send<K: ChannelKeys>(
    alloc: Global,
    keys: &K,
    config: &Config,
    message: &OpenChannel,
) -> Result<AcceptChannel, Refusal>
    ensures message { IfOk result (λ m. m ≡ accept_message (K.signer keys.now) config.now message.now) }
    ensures fails_for_memory_alone { IfErr result (λ r. r ≡ refusal.Memory) }
{
    let records = channel_type(alloc, &message.records)?;
    Ok(config.accept_with(keys, message, records))
}

/// A fundee takes an `open_channel` and agrees to it by an `accept_channel`, which repeats its channel type (BOLT 2,
/// "The `open_channel` Message").
///
/// Errors: 21 for another chain than the fundee's, a `push_msat` above 1000 * `funding_satoshis`, a `funding_satoshis`
/// that isn't 1 to 2,100,000,000,000,000, or a `max_accepted_htlcs` above 483; else 60 where there is no memory.
pub fn take_open<K: ChannelKeys>(
    alloc: Global,
    keys: &K,
    config: FitConfig,
    message: OpenChannel,
) -> Result<(Agreed, AcceptChannel), Refusal>
    ensures gives_its_row { Gives false (open_taken (K.signer keys.now) config message) result }
    ensures refused { IfErr result (λ r. (r ≡ refusal.Memory) ⊎ (fails r ≡ true)) }
{
    let config = config.into_config();
    if !config.agrees_to(&message) {
        return Err(Refusal::OutOfPlace);
    }
    let answer = accept_to_send(alloc, keys, &config, &message)?;
    let accept_channel = accept_to_send(alloc, keys, &config, &message)?;
    let agreed = Agreed {
        fees: config.fees(),
        terms: Terms {
            open_channel: message,
            accept_channel,
            script: config.script,
            peer_script: None,
        },
    };
    Ok((agreed, answer))
}

// ---- accept_channel

// Whether a channel type that was asked for is repeated.
fn repeats(asked: &Records, told: &Records) -> bool
    ensures { result ≡ repeats (value_of 1 asked.now) (value_of 1 told.now) }
{
    match value_of(asked.as_slice(), 1) {
        None => true,
        Some(asked) => is_told(asked, told),
    }
}

fn is_told(asked: &[u8], told: &Records) -> bool
    ensures { result ≡ repeats (Some asked.now) (value_of 1 told.now) }
{
    match value_of(told.as_slice(), 1) {
        None => false,
        Some(told) => asked == told,
    }
}

impl OpenSpec {
    // Whether an accept_channel agrees to what was asked for.
    fn is_agreed(&self, message: &AcceptChannel) -> bool
        ensures { accept_fault self.now message.now ≡ (if result then None else Some refusal.OutOfPlace) }
    {
        message.temporary_id == self.temporary_id
            && self.offered(asked_by_accept(message)).is_fit()
            && repeats(&self.records, &message.records)
    }
}

fn funder_terms<K: ChannelKeys>(
    alloc: Global,
    keys: &K,
    spec: OpenSpec,
    accept: AcceptChannel,
) -> Terms
    ensures { result ≡ funder_terms (K.signer keys.now) spec accept }
{
    let mut spec = spec;
    let records = mem::replace(&mut spec.records, Records::empty(alloc));
    let open_channel = spec.open_with(keys, records);
    Terms {
        open_channel,
        accept_channel: accept,
        script: spec.config.script,
        peer_script: None,
    }
}

fn funder_end<K: ChannelKeys>(
    alloc: Global,
    keys: &K,
    spec: OpenSpec,
    accept: AcceptChannel,
) -> Opened
    requires { accept_fault spec accept ≡ None }
    ensures { result ≡ funder_end (K.signer keys.now) spec accept }
{
    let channel = channel_id(&spec.txid, spec.output);
    let fees = spec.config.fees();
    let terms = funder_terms(alloc, keys, spec, accept);
    opened_by(alloc, Role::Funder, channel, fees, terms)
}

/// A funder takes an `accept_channel`, and answers by the `funding_created` that names its funding and signs the
/// fundee's commitment 0 (BOLT 2, "The `accept_channel` Message" and "The `funding_created` Message").
///
/// Errors: 21 for another temporary id, a `max_accepted_htlcs` above 483, or where the channel type that was asked
/// for isn't repeated; else 60 where there is no memory.
pub fn take_accept<K: ChannelKeys>(
    alloc: Global,
    keys: &K,
    spec: FitSpec,
    accept: AcceptChannel,
) -> Result<(Opened, FundingCreated), Refusal>
    ensures gives_its_row { Gives false (accept_taken (K.signer keys.now) spec accept) result }
    ensures refused { IfErr result (λ r. (r ≡ refusal.Memory) ⊎ (fails r ≡ true)) }
    ensures begun { IfOk result (λ r. HasBegun r.0) }
{
    let spec = spec.into_spec();
    if !spec.is_agreed(&accept) {
        drop(spec);
        drop(accept);
        return Err(Refusal::OutOfPlace);
    }
    let temporary_id = spec.temporary_id;
    let funding_txid = spec.txid;
    let output_index = spec.output;
    let end = funder_end(alloc, keys, spec, accept);
    let signature = match sign_first(alloc, keys, &end.dance) {
        Ok(signature) => signature,
        Err(refusal) => {
            drop(end);
            return Err(refusal);
        }
    };
    let message = FundingCreated {
        temporary_id,
        funding_txid,
        output_index,
        signature,
        records: Records::empty(alloc),
    };
    Ok((end, message))
}

// ---- funding_created

/// A fundee takes a `funding_created`, and answers by the `funding_signed` that signs the funder's commitment 0 (BOLT
/// 2, "The `funding_created` Message" and "The `funding_signed` Message").
///
/// Errors: 21 for another temporary id, 31 for a wrong signature over the fundee's commitment 0, 60 where there is no
/// memory, also before a signature is tested.
pub fn take_created<K: ChannelKeys>(
    alloc: Global,
    keys: &K,
    agreed: Agreed,
    created: &FundingCreated,
) -> Result<(Opened, FundingSigned), Refusal>
    ensures gives_its_row { Gives true (created_taken (K.signer keys.now) agreed created.now) result }
    ensures refused { IfErr result (λ r. (r ≡ refusal.Memory) ⊎ (fails r ≡ true)) }
    ensures begun { IfOk result (λ r. HasBegun r.0) }
{
    if !agreed.is_meant(created) {
        drop(agreed);
        return Err(Refusal::OutOfPlace);
    }
    let Agreed { fees, terms } = agreed;
    let channel = channel_id(&created.funding_txid, created.output_index);
    let end = opened_by(alloc, Role::Fundee, channel, fees, terms);
    sign_end(alloc, keys, channel, end, &created.signature)
}

// The fundee's end checks the funder's signature, and signs.
fn sign_end<K: ChannelKeys>(
    alloc: Global,
    keys: &K,
    channel: [u8; 32],
    end: Opened,
    signature: &[u8; 64],
) -> Result<(Opened, FundingSigned), Refusal>
    ensures gives_its_row { Gives true (signed_end (K.signer keys.now) channel end signature.now) result }
    ensures refused { IfErr result (λ r. (r ≡ refusal.Memory) ⊎ (fails r ≡ true)) }
    ensures kept { IfOk result (λ r. r.0 ≡ end) }
{
    match check_first(alloc, keys, &end.dance, signature) {
        Ok(()) => {}
        Err(refusal) => {
            drop(end);
            return Err(refusal);
        }
    }
    let signature = match sign_first(alloc, keys, &end.dance) {
        Ok(signature) => signature,
        Err(refusal) => {
            drop(end);
            return Err(refusal);
        }
    };
    let message = FundingSigned {
        channel_id: channel,
        signature,
        records: Records::empty(alloc),
    };
    Ok((end, message))
}

// ---- both ends

/// A law: between partners on one chain whose values fit, each message of the opening is taken, and the two ends that
/// it makes know the same opening, with the roles turned, and hold each other's points.
pub fn opening_is_agreed()
    ensures taken { (a b : Signer) (s : OpenSpec) (c : Config) → CanOpen a b s c
        → (funder : Opened) × (fundee : Opened) × Opens a b s c funder fundee }
    ensures agreed { (a b : Signer) (s : OpenSpec) (c : Config) (funder fundee : Opened) → Opens a b s c funder fundee
        → AreEnds a b funder fundee }
{}

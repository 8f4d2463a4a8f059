//! One side of the dance.

use ln_keys::{ChannelKeys, Signed};
use ln_log::{Counts, Pair, Side, Update, UpdateLog};
use ln_msgs::{CommitmentSigned, Records, RevokeAndAck};
use ln_refusals::Refusal;
use std::alloc::Global;
use std::marker::Model;

/// The last number that a commitment can have, 2^48 - 1 (BOLT 3, "Per-commitment Secret Requirements").
pub const LAST_NUMBER: u64 = 281_474_976_710_655;

/// The numbers of commitments, each below 2^48; commitment 0 is the opening state.
#[derive(Clone, Copy, PartialEq, Eq)]
pub struct Numbers {
    /// Of the own current commitment.
    pub commitment: u64,
    /// Of the peer's commitment that this side signed last.
    pub signed: u64,
    /// How many revocations were taken of the peer: `signed`, or one less.
    pub revoked: u64,
}

impl Numbers {
    ghost use Rattle.std.specs.Prelude.{◌≡◌};
    ghost use Rattle.ln_dance.specs.Dance.{are_in_step};

    /// Whether a side may have them: each is below 2^48, and at most one signature is unrevoked. Takes no memory.
    pub fn are_in_step(&self) -> bool
        ensures { result ≡ are_in_step self.now }
    {
        self.commitment <= LAST_NUMBER
            && self.signed <= LAST_NUMBER
            && self.revoked <= LAST_NUMBER
            && (self.signed == self.revoked || self.signed == self.revoked + 1)
    }
}

/// What the peer has told of its commitments.
#[derive(Clone, Copy, PartialEq, Eq)]
pub struct Peer {
    /// The point of its commitment with the number `revoked`.
    pub point: [u8; 33],
    /// The point of the one after; zeros until it is told.
    pub next_point: [u8; 33],
    /// The last secret that it told.
    pub secret: Option<[u8; 32]>,
}

/// Which of a side's last signature and its last revocation it sent later.
#[derive(Clone, Copy, PartialEq, Eq)]
pub enum Later {
    /// The signature; also before either was sent.
    Signature,
    /// The revocation.
    Revocation,
}

/// One side of the dance: the updates of both sides, the numbers of commitments, what the peer has
/// told, and in which order it sent its last signature and its last revocation.
#[derive(Drop)]
pub struct Dance {
    channel: [u8; 32],
    log: UpdateLog,
    numbers: Numbers,
    peer: Peer,
    later: Later,
}

impl Model for Dance {
    ghost use Rattle.ln_dance.specs.Dance.{Dancer, AreInStep};

    ghost Value = { Dancer };

    ghost view = { λ d. record {
      channel = d.channel;
      log = d.log;
      numbers = d.numbers;
      peer = d.peer;
      later = d.later;
    } };

    ghost invariant = { λ d. AreInStep d.numbers d.log };
}

impl Dance {
    ghost use Rattle.std.specs.Prelude.{◌≡◌, ◌↔◌, ◌+◌, ◌<◌, ◌≤◌, ◌==◌, not, None, IsTrue, IsErrOf, IfOk, OnOk, OnErr};
    ghost use Rattle.ln_log.specs.Log as log;
    ghost use Rattle.ln_log.specs.Log.{Log, after_propose, after_receive, after_drop, proposal_fault, taken_fault};
    ghost use Rattle.ln_log.specs.Log.{all_counts, at_opening, counts_of};
    ghost use Rattle.ln_log.specs.Window.{may_be_base, after_advance};
    ghost use Rattle.std.specs.Result.{IsOkUnless};
    ghost use Rattle.ln_log.specs.Limits.{HasNextId, Answers};
    ghost use Rattle.ln_dance.specs.Dance.{Dancer, StandsFor, AreInStep, IsNumber, is_last, owes, sign_fault};
    ghost use Rattle.ln_dance.specs.Dance.{after_sign};
    ghost use Rattle.ln_dance.specs.Dance.{signed_message, accept_fault, after_accept, revoked_message, learn_fault};
    ghost use Rattle.ln_dance.specs.Dance.{after_learn, with_log, with_next_point, AnswersWithin, answer_of};
    ghost use Rattle.ln_dance.specs.Past.{IsReadOf};

    /// Whether a side may have these numbers beside these updates: each number is below 2^48, at most one
    /// signature is unrevoked, and where none is, the peer's acknowledged commitment covers what the last
    /// signature does. Takes no memory.
    pub fn fits(numbers: &Numbers, updates: &UpdateLog) -> bool
        ensures in_step { (l : Log) → log.StandsFor updates.now l → (IsTrue result ↔ AreInStep numbers.now l) }
        ensures in_step_with_what_is_kept { IsTrue result ↔ AreInStep numbers.now updates.now }
    {
        let covered = updates.counts(Pair::Signed);
        let acknowledged = updates.counts(Pair::Current(Side::Peer));
        if !numbers.are_in_step() {
            return false;
        }
        numbers.signed != numbers.revoked || covered == acknowledged
    }

    /// A side with these updates, numbers and points, which sent the last signature and the last revocation in
    /// this order: all numbers 0 for a channel that was just opened. Takes no memory.
    pub fn new(
        channel: [u8; 32],
        updates: UpdateLog,
        numbers: Numbers,
        peer: Peer,
        later: Later,
    ) -> Dance
        requires { AreInStep numbers updates }
        ensures { (l : Log) → log.StandsFor updates l
            → StandsFor result (record { channel = channel; log = l; numbers = numbers; peer = peer; later = later }) }
    {
        Dance {
            channel,
            log: updates,
            numbers,
            peer,
            later,
        }
    }

    /// The channel's id.
    pub fn channel(&self) -> [u8; 32]
        ensures { (d : Dancer) → StandsFor self.now d → result ≡ d.channel }
    {
        self.channel
    }

    /// The updates of both sides.
    pub fn log(&self) -> &UpdateLog
        ensures { (d : Dancer) → StandsFor self.now d → log.StandsFor result.now d.log }
    {
        &self.log
    }

    /// The numbers of commitments.
    pub fn numbers(&self) -> Numbers
        ensures numbers { (d : Dancer) → StandsFor self.now d → result ≡ d.numbers }
        ensures numbers_fit { IsNumber result.commitment × IsNumber result.signed
            × (result.revoked ≤ result.signed) }
    {
        self.numbers
    }

    /// What the peer has told of its commitments.
    pub fn peer(&self) -> Peer
        ensures { (d : Dancer) → StandsFor self.now d → result ≡ d.peer }
    {
        self.peer
    }

    /// Which of its last signature and its last revocation this side sent later.
    pub fn later(&self) -> Later
        ensures { (d : Dancer) → StandsFor self.now d → result ≡ d.later }
    {
        self.later
    }

    /// Proposes an update: `UpdateLog::propose`.
    pub fn propose(&mut self, update: Update) -> Result<(), Refusal>
        requires { (d : Dancer) → StandsFor self.old d → HasNextId d.log.own update }
        ensures refuses_exactly { (d : Dancer) → StandsFor self.old d → Answers (proposal_fault d.log update) result }
        ensures moves_as_stated { (d : Dancer) → StandsFor self.old d
            → OnOk result (StandsFor self.new (with_log (after_propose update d.log) d)) }
        ensures changes_nothing_if_refused { OnErr result (self.new ≡ self.old) }
        ensures changes_no_count { all_counts self.new.log ≡ all_counts self.old.log }
        ensures same_channel { self.new.channel ≡ self.old.channel }
        ensures same_opening { at_opening self.new.log ≡ at_opening self.old.log }
    {
        self.log.propose(update)
    }

    /// Takes an update of the peer: `UpdateLog::receive`.
    pub fn receive(&mut self, update: Update) -> Result<(), Refusal>
        ensures refuses_exactly { (d : Dancer) → StandsFor self.old d → Answers (taken_fault d.log update) result }
        ensures moves_as_stated { (d : Dancer) → StandsFor self.old d
            → OnOk result (StandsFor self.new (with_log (after_receive update d.log) d)) }
        ensures changes_nothing_if_refused { OnErr result (self.new ≡ self.old) }
        ensures changes_no_count { all_counts self.new.log ≡ all_counts self.old.log }
        ensures same_channel { self.new.channel ≡ self.old.channel }
        ensures same_opening { at_opening self.new.log ≡ at_opening self.old.log }
    {
        self.log.receive(update)
    }

    /// The connection is lost: `UpdateLog::drop_unsigned`. Takes no memory.
    pub fn drop_unsigned(&mut self)
        ensures state { (d : Dancer) → StandsFor self.old d → StandsFor self.new (with_log (after_drop d.log) d) }
        ensures same_channel { self.new.channel ≡ self.old.channel }
        ensures same_opening { at_opening self.new.log ≡ at_opening self.old.log }
    {
        self.log.drop_unsigned();
    }

    /// The base of the updates moves on where it may, and whether it did: `UpdateLog::advance`. 60 where there was no
    /// memory; then nothing has changed.
    pub fn advance(&mut self, alloc: Global, to: Counts) -> Result<bool, Refusal>
        ensures by_its_test { (d : Dancer) → StandsFor self.old d → IfOk result (λ b. b ≡ may_be_base d.log to) }
        ensures state { (d : Dancer) → StandsFor self.old d
            → OnOk result (StandsFor self.new (with_log (after_advance to d.log) d)) }
        ensures changes_nothing_if_refused { OnErr result (self.new ≡ self.old) }
        ensures fails_for_memory_alone { IsOkUnless result Refusal.Memory }
        ensures same_channel { self.new.channel ≡ self.old.channel }
        ensures same_opening { at_opening self.new.log ≡ at_opening self.old.log }
    {
        self.log.advance(alloc, to)
    }

    /// A side that was loaded of another one's record takes over the updates that aren't had one by one any more:
    /// `UpdateLog::take_past_of`. It does nothing at run time.
    pub fn take_past_of(&mut self, other: &Dance)
        requires { IsReadOf self.old.log other.now.log }
        ensures state { self.new ≡ with_log (after_drop other.now.log) self.old }
        ensures same_channel { self.new.channel ≡ self.old.channel }
        ensures same_opening { at_opening self.new.log ≡ at_opening self.old.log }
    {
        self.log.take_past_of(&other.log);
    }

    /// The peer has told the point of its next commitment (BOLT 2, "The `channel_ready` Message").
    pub fn take_point(&mut self, point: [u8; 33])
        ensures state { (d : Dancer) → StandsFor self.old d → StandsFor self.new (with_next_point point d) }
        ensures same_channel { self.new.channel ≡ self.old.channel }
        ensures same_opening { at_opening self.new.log ≡ at_opening self.old.log }
    {
        self.peer.next_point = point;
    }

    /// Whether a signature of this side is unrevoked.
    pub fn owes(&self) -> bool
        ensures owes { (d : Dancer) → StandsFor self.now d → result ≡ owes d }
        ensures by_numbers { result ≡ not (self.now.numbers.signed == self.now.numbers.revoked) }
    {
        self.numbers.signed != self.numbers.revoked
    }

    // What keeps this side from signing.
    fn sign_refusal(&self) -> Option<Refusal>
        ensures refuses_exactly { (d : Dancer) → StandsFor self.now d → result ≡ sign_fault d }
        ensures all_revoked { result ≡ None → self.now.numbers.signed ≡ self.now.numbers.revoked }
        ensures numbered { result ≡ None → IsNumber (self.now.numbers.signed + 1) }
    {
        if self.owes() {
            return Some(Refusal::SignatureOutstanding);
        }
        match self.log.sign_refusal() {
            Some(refusal) => Some(refusal),
            None => {
                if self.numbers.signed == LAST_NUMBER {
                    Some(Refusal::NumbersSpent)
                } else {
                    None
                }
            }
        }
    }

    /// Signs the peer's next commitment (BOLT 2, "Committing Updates So Far"): all own updates, and those of
    /// the peer that stand in the own current commitment.
    ///
    /// 41 where a signature is unrevoked, 42 where nothing would be new, 46 where the last commitment has the
    /// number 2^48 - 1, 60 where there was no memory; then nothing has changed.
    pub fn sign<K: ChannelKeys>(
        &mut self,
        alloc: Global,
        keys: &K,
    ) -> Result<CommitmentSigned, Refusal>
        ensures refuses_exactly { (d : Dancer) → StandsFor self.old d → Answers (sign_fault d) result }
        ensures message { (d : Dancer) → StandsFor self.old d
            → IfOk result (λ m. m ≡ signed_message (K.signer keys.now) d) }
        ensures moves_as_stated { (d : Dancer) → StandsFor self.old d
            → OnOk result (StandsFor self.new (after_sign d)) }
        ensures numbered { (d : Dancer) → StandsFor self.old d → OnOk result (IsNumber (d.numbers.signed + 1)) }
        ensures owes { (d : Dancer) → StandsFor self.old d → OnOk result (IsTrue (owes (after_sign d))) }
        ensures changes_nothing_if_refused { OnErr result (self.new ≡ self.old) }
        ensures counts { OnOk result (all_counts self.new.log
            ≡ record (all_counts self.old.log) { signed = counts_of Pair.ToSign self.old.log }) }
        ensures same_channel { self.new.channel ≡ self.old.channel }
        ensures same_opening { at_opening self.new.log ≡ at_opening self.old.log }
    {
        match self.sign_refusal() {
            Some(refusal) => return Err(refusal),
            None => {}
        }
        let view = self.log.view(alloc, Pair::ToSign)?;
        let number = self.numbers.signed + 1;
        let point = self.peer.next_point;
        let Signed { sig, htlcs } = keys.sign(alloc, number, &point, &view)?;
        self.log.sign();
        self.numbers.signed = number;
        self.later = Later::Signature;
        Ok(CommitmentSigned {
            channel_id: self.channel,
            signature: sig,
            htlc_signatures: htlcs,
            records: Records::empty(alloc),
        })
    }

    /// Takes a signature of the peer over the own next commitment, and gives the revocation of the one
    /// before (BOLT 2, "Completing the Transition to the Updated State"). A signature that covers nothing
    /// new is taken too.
    ///
    /// 21 where the own commitment has the number 2^48 - 1, 31 for a wrong signature, 60 where there was no
    /// memory; then nothing has changed.
    pub fn accept<K: ChannelKeys>(
        &mut self,
        alloc: Global,
        keys: &K,
        message: &CommitmentSigned,
    ) -> Result<RevokeAndAck, Refusal>
        ensures refuses_exactly { (d : Dancer) → StandsFor self.old d
            → AnswersWithin (accept_fault (K.signer keys.now) message.now d) result }
        ensures out_of_place { (d : Dancer) → StandsFor self.old d
            → (IsErrOf result Refusal.OutOfPlace ↔ IsTrue (is_last d.numbers.commitment)) }
        ensures message { (d : Dancer) → StandsFor self.old d
            → IfOk result (λ m. m ≡ revoked_message (K.signer keys.now) d) }
        ensures moves_as_stated { (d : Dancer) → StandsFor self.old d
            → OnOk result (StandsFor self.new (after_accept d)) }
        ensures changes_nothing_if_refused { OnErr result (self.new ≡ self.old) }
        ensures counts { OnOk result (all_counts self.new.log
            ≡ record (all_counts self.old.log) { current = counts_of Pair.ToAccept self.old.log }) }
        ensures same_channel { self.new.channel ≡ self.old.channel }
        ensures same_opening { at_opening self.new.log ≡ at_opening self.old.log }
    {
        let last = self.numbers.commitment;
        if last == LAST_NUMBER {
            return Err(Refusal::OutOfPlace);
        }
        let view = self.log.view(alloc, Pair::ToAccept)?;
        let point = keys.point(last + 1);
        let signatures = message.htlc_signatures.as_slice();
        if !keys.verify(last + 1, &point, &view, &message.signature, signatures) {
            return Err(Refusal::SignatureWrong);
        }
        self.log.accept();
        self.numbers.commitment = last + 1;
        self.later = Later::Revocation;
        Ok(RevokeAndAck {
            channel_id: self.channel,
            secret: keys.secret(last),
            next_point: keys.point(last + 2),
            records: Records::empty(alloc),
        })
    }

    /// Takes a revocation of the peer: its commitment is the one that this side signed last (BOLT 2,
    /// "Completing the Transition to the Updated State"). Takes no memory.
    ///
    /// 33 where no signature is unrevoked, 32 for a secret that doesn't fit the point of the commitment that
    /// is revoked; then nothing has changed.
    pub fn learn<K: ChannelKeys>(&mut self, keys: &K, message: &RevokeAndAck) -> Result<(), Refusal>
        ensures refuses_exactly { (d : Dancer) → StandsFor self.old d
            → result ≡ answer_of (learn_fault (K.signer keys.now) message.now d) }
        ensures moves_as_stated { (d : Dancer) → StandsFor self.old d
            → OnOk result (StandsFor self.new (after_learn message.now d)) }
        ensures changes_nothing_if_refused { OnErr result (self.new ≡ self.old) }
        ensures counts { OnOk result (all_counts self.new.log
            ≡ record (all_counts self.old.log) { acknowledged = self.old.log.signed }) }
        ensures same_channel { self.new.channel ≡ self.old.channel }
        ensures same_opening { at_opening self.new.log ≡ at_opening self.old.log }
    {
        if !self.owes() {
            return Err(Refusal::NothingToRevoke);
        }
        if !keys.secret_fits(self.numbers.revoked, &message.secret, &self.peer.point) {
            return Err(Refusal::SecretWrong);
        }
        self.log.learn();
        self.numbers.revoked += 1;
        self.peer = Peer {
            point: self.peer.next_point,
            next_point: message.next_point,
            secret: Some(message.secret),
        };
        Ok(())
    }
}

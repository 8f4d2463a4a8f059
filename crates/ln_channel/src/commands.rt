//! What each command makes of an end.

use crate::channel::Channel;
use crate::command::Command;
use crate::config::LONGEST_SCRIPT;
use crate::output::{Outbox, Output, one};
use ln_bytes::{Bytes, ShortId};
use ln_dance::{add_message, fail_message, fee_message, fulfil_message, malformed_message};
use ln_keys::ChannelKeys;
use ln_log::{Add, EventRef, Fail, Fee, Fulfil, Malformed, Side, Update, add_of};
use ln_msgs::{ChannelReady, CommitmentSigned, Message, Records};
use ln_refusals::{PeerRule, Refusal};
use std::alloc::Global;

impl Channel {
    ghost use Rattle.std.specs.Prelude.{◌≡◌, length, OnOk, IfOk, OnErr};
    ghost use Rattle.ln_log.specs.declared.update.Update.TheVariants as update;
    ghost use Rattle.ln_log.specs.Updates.{next_id};
    ghost use Rattle.ln_log.specs.Limits.{HasNextId};
    ghost use Rattle.ln_log.specs.Log.{proposal_fault};
    ghost use Rattle.ln_dance.specs.Dance.{signed_message};
    ghost use Rattle.ln_channel.specs.Opening.{AnswersFault};
    ghost use Rattle.ln_channel.specs.End.{End, StandsFor, Makes};
    ghost use Rattle.ln_channel.specs.Commands.{confirm_row, ready_message, shut_by_either, closed_fault, own_fault};
    ghost use Rattle.ln_channel.specs.Commands.{propose_fault, proposes, propose_row, sign_command_fault, signs_next};
    ghost use Rattle.ln_channel.specs.Commands.{sign_row, shut_fault, shut_row, note_row, command_row, unready_fault};
    ghost use Rattle.ln_log.specs.declared.mark.EventRef.TheVariants as ref;
    ghost use Rattle.ln_channel.specs.Ledger.{htlc_of, first_htlc};

    /// The funding is deep enough: sends `channel_ready` (BOLT 2, "The `channel_ready` Message"). 40 where it was sent,
    /// or the channel is closed.
    fn confirm<K: ChannelKeys>(
        &mut self,
        alloc: Global,
        keys: &K,
        short_id: ShortId,
    ) -> Result<Outbox, Refusal>
        ensures makes { (e : End) → StandsFor self.old e
            → Makes (confirm_row (K.signer keys.now) short_id e) result self.old self.new }
        ensures same_channel { self.new.dance.channel ≡ self.old.dance.channel }
    {
        if self.readiness.ready_sent || self.is_closed() {
            return Err(Refusal::NotReady);
        }
        let ready = self.ready_message(alloc, keys);
        self.readiness.short_id = Some(short_id);
        self.readiness.ready_sent = true;
        one(alloc, Message::ChannelReady(ready))
    }

    pub(crate) fn ready_message<K: ChannelKeys>(&self, alloc: Global, keys: &K) -> ChannelReady
        ensures { (e : End) → StandsFor self.now e → result ≡ ready_message (K.signer keys.now) e }
    {
        ChannelReady {
            channel_id: self.dance.channel(),
            second_point: keys.point(1),
            records: Records::empty(alloc),
        }
    }

    // Whether neither side has shut down.
    fn shut_refusal(&self) -> Option<Refusal>
        ensures { (e : End) → StandsFor self.now e → result ≡ shut_by_either e }
    {
        if self.closing.shut || self.closing.peer_shut {
            Some(Refusal::Shut)
        } else {
            None
        }
    }

    fn closed_refusal(&self, update: &Update) -> Option<Refusal>
        ensures { (e : End) → StandsFor self.now e → result ≡ closed_fault e update.now }
    {
        match update {
            Update::Add(_) => self.shut_refusal(),
            Update::Fulfil(_) => None,
            Update::Fail(_) => None,
            Update::Malformed(_) => None,
            Update::Fee(_) => self.shut_refusal(),
        }
    }

    // What keeps this side from an update that the log doesn't know of.
    fn own_refusal(&self, update: &Update) -> Option<Refusal>
        ensures { (e : End) → StandsFor self.now e → result ≡ own_fault e update.now }
    {
        if !self.is_ready() {
            return Some(Refusal::NotReady);
        }
        if self.dance.log().is_at_update_limit(Side::Own) {
            return Some(Refusal::NumbersSpent);
        }
        self.closed_refusal(update)
    }

    // Proposes an update to the log.
    fn propose_next(&mut self, update: Update) -> Result<(), Refusal>
        requires { (e : End) → StandsFor self.old e → HasNextId e.dance.log.own update }
        ensures refuses_exactly { (e : End) → StandsFor self.old e
            → AnswersFault (proposal_fault e.dance.log update) result }
        ensures state { (e : End) → StandsFor self.old e → OnOk result (StandsFor self.new (proposes update e)) }
        ensures changes_nothing_if_refused { OnErr result (self.new ≡ self.old) }
        ensures same_channel { self.new.dance.channel ≡ self.old.dance.channel }
    {
        self.dance.propose(update)
    }

    // Proposes an update, which has the next id where it is an add.
    fn propose(&mut self, update: Update) -> Result<(), Refusal>
        requires { (e : End) → StandsFor self.old e → HasNextId e.dance.log.own update }
        ensures refuses_exactly { (e : End) → StandsFor self.old e → AnswersFault (propose_fault e update) result }
        ensures state { (e : End) → StandsFor self.old e → OnOk result (StandsFor self.new (proposes update e)) }
        ensures changes_nothing_if_refused { OnErr result (self.new ≡ self.old) }
        ensures same_channel { self.new.dance.channel ≡ self.old.dance.channel }
    {
        match self.own_refusal(&update) {
            Some(refusal) => Err(refusal),
            None => self.propose_next(update),
        }
    }

    /// Offers an HTLC with the next id (BOLT 2, "Adding an HTLC: `update_add_htlc`").
    ///
    /// Errors: 40 before both sides have confirmed; 46 where this side has 2^62 updates; 43 where either side has shut
    /// down; 44 with the number by which the peer would refuse it, 23 to 27; 60.
    fn offer(&mut self, alloc: Global, add: Add) -> Result<Outbox, Refusal>
        requires { (e : End) → StandsFor self.old e → add.id ≡ next_id e.dance.log.own }
        ensures makes { (e : End) → StandsFor self.old e
            → Makes (propose_row (update.Add add) e) result self.old self.new }
        ensures same_channel { self.new.dance.channel ≡ self.old.dance.channel }
    {
        self.propose(Update::Add(add))?;
        let message = add_message(alloc, self.dance.channel(), &add);
        one(alloc, Message::UpdateAddHtlc(message))
    }

    /// Fulfils an HTLC of the peer's (BOLT 2, "Removing an HTLC: `update_fulfill_htlc`").
    ///
    /// Errors: 40 and 46 as for an offer; 44 with 28 where there is no such HTLC, 49 where it is removed, 48
    /// where it isn't held as irrevocably committed; 44 with 29 for a wrong preimage; 60.
    fn fulfil(&mut self, alloc: Global, fulfil: Fulfil) -> Result<Outbox, Refusal>
        ensures makes { (e : End) → StandsFor self.old e
            → Makes (propose_row (update.Fulfil fulfil) e) result self.old self.new }
        ensures same_channel { self.new.dance.channel ≡ self.old.dance.channel }
    {
        self.propose(Update::Fulfil(fulfil))?;
        let message = fulfil_message(alloc, self.dance.channel(), &fulfil);
        one(alloc, Message::UpdateFulfillHtlc(message))
    }

    /// Fails an HTLC of the peer's (BOLT 2, "Removing an HTLC: `update_fail_htlc`").
    ///
    /// Errors: as for a fulfilment, but 44 with 7 for a reason of more than 65,491 bytes in place of 44 with 29.
    fn fail(&mut self, alloc: Global, fail: Fail) -> Result<Outbox, Refusal>
        ensures makes { (e : End) → StandsFor self.old e
            → Makes (propose_row (update.Fail fail) e) result self.old self.new }
        ensures same_channel { self.new.dance.channel ≡ self.old.dance.channel }
    {
        let message = fail_message(alloc, self.dance.channel(), &fail);
        self.propose(Update::Fail(fail))?;
        one(alloc, Message::UpdateFailHtlc(message?))
    }

    /// Fails an HTLC of the peer's whose onion can't be read (BOLT 2, "Removing an HTLC:
    /// `update_fail_malformed_htlc`").
    ///
    /// Errors: as for a fulfilment, but 44 with 21 for a code without the BADONION bit, 0x8000, in place of 44 with 29.
    fn fail_malformed(&mut self, alloc: Global, malformed: Malformed) -> Result<Outbox, Refusal>
        ensures makes { (e : End) → StandsFor self.old e
            → Makes (propose_row (update.Malformed malformed) e) result self.old self.new }
        ensures same_channel { self.new.dance.channel ≡ self.old.dance.channel }
    {
        self.propose(Update::Malformed(malformed))?;
        let message = malformed_message(alloc, self.dance.channel(), &malformed);
        one(alloc, Message::UpdateFailMalformedHtlc(message))
    }

    /// Changes the feerate, in satoshi per 1000 weight (BOLT 2, "Updating Fees: `update_fee`").
    ///
    /// Errors: 40, 46 and 43 as for an offer; 44 with 30 at the fundee; 60.
    fn change_fee(&mut self, alloc: Global, fee: Fee) -> Result<Outbox, Refusal>
        ensures makes { (e : End) → StandsFor self.old e
            → Makes (propose_row (update.Fee fee) e) result self.old self.new }
        ensures same_channel { self.new.dance.channel ≡ self.old.dance.channel }
    {
        self.propose(Update::Fee(fee))?;
        let message = fee_message(alloc, self.dance.channel(), &fee);
        one(alloc, Message::UpdateFee(message))
    }

    // The id of the next HTLC that it offers.
    fn next_id(&self) -> u64
        ensures { (e : End) → StandsFor self.now e → result ≡ next_id e.dance.log.own }
    {
        self.dance.log().next_id()
    }

    // Signs the peer's next commitment.
    fn sign_next<K: ChannelKeys>(
        &mut self,
        alloc: Global,
        keys: &K,
    ) -> Result<CommitmentSigned, Refusal>
        ensures refuses_exactly { (e : End) → StandsFor self.old e → AnswersFault (sign_command_fault e) result }
        ensures message { (e : End) → StandsFor self.old e
            → IfOk result (λ m. m ≡ signed_message (K.signer keys.now) e.dance) }
        ensures state { (e : End) → StandsFor self.old e → OnOk result (StandsFor self.new (signs_next e)) }
        ensures changes_nothing_if_refused { OnErr result (self.new ≡ self.old) }
        ensures same_channel { self.new.dance.channel ≡ self.old.dance.channel }
    {
        if !self.is_ready() {
            return Err(Refusal::NotReady);
        }
        self.dance.sign(alloc, keys)
    }

    /// Signs the peer's next commitment (BOLT 2, "Committing Updates So Far: `commitment_signed`").
    ///
    /// Errors: 40 before both sides have confirmed; 41 where a signature is unrevoked, 42 where nothing would be
    /// new, 46 after the last number; 60.
    fn sign<K: ChannelKeys>(&mut self, alloc: Global, keys: &K) -> Result<Outbox, Refusal>
        ensures makes { (e : End) → StandsFor self.old e
            → Makes (sign_row (K.signer keys.now) e) result self.old self.new }
        ensures same_channel { self.new.dance.channel ≡ self.old.dance.channel }
    {
        let covered = self.own_len();
        let message = self.sign_next(alloc, keys)?;
        let mut outbox = Outbox::new(alloc);
        outbox.send(Message::CommitmentSigned(message))?;
        outbox.report(Output::Signed(covered as u64))?;
        Ok(outbox)
    }

    // How many own updates there are.
    fn own_len(&self) -> usize
        ensures { (e : End) → StandsFor self.now e → result ≡ length e.dance.log.own }
    {
        self.dance.log().len(Side::Own)
    }

    // What keeps this side from shutting down.
    fn shutdown_refusal(&self, script: &Bytes) -> Option<Refusal>
        ensures { (e : End) → StandsFor self.now e → result ≡ shut_fault script.now e }
    {
        if self.closing.shut {
            return Some(Refusal::Shut);
        }
        if !self.all_acknowledged() {
            return Some(Refusal::UpdatesPending);
        }
        if script.len() > LONGEST_SCRIPT {
            return Some(Refusal::PeerLimit(PeerRule::TooLong));
        }
        None
    }

    /// Sends shutdown with this script (BOLT 2, "Closing Initiation: `shutdown`"): 43 where it was sent, 45 where own
    /// updates are pending, 44 with 7 for a script of more than 65,499 bytes.
    fn shut<K: ChannelKeys>(
        &mut self,
        alloc: Global,
        keys: &K,
        script: Bytes,
    ) -> Result<Outbox, Refusal>
        ensures makes { (e : End) → StandsFor self.old e
            → Makes (shut_row (K.signer keys.now) script e) result self.old self.new }
        ensures same_channel { self.new.dance.channel ≡ self.old.dance.channel }
    {
        match self.shutdown_refusal(&script) {
            Some(refusal) => return Err(refusal),
            None => {}
        }
        self.terms.script = script;
        self.closing.shut();
        let message = self.shutdown_message(alloc)?;
        let mut outbox = one(alloc, Message::Shutdown(message))?;
        self.end_turn(alloc, keys, &mut outbox)?;
        Ok(outbox)
    }

    /// What isn't ready for a command, which is told before that the peer isn't there.
    pub fn unready_refusal(&self, command: &Command) -> Option<Refusal>
        ensures { (e : End) → StandsFor self.now e → result ≡ unready_fault command.now e }
    {
        match command {
            Command::Confirm(_) => {
                if self.readiness.ready_sent || self.is_closed() {
                    Some(Refusal::NotReady)
                } else {
                    None
                }
            }
            Command::Shutdown(_) => None,
            _ => {
                if self.is_ready() {
                    None
                } else {
                    Some(Refusal::NotReady)
                }
            }
        }
    }

    // The HTLC that the peer's update of this number offers.
    fn peer_htlc(&self, number: u64) -> Option<u64>
        ensures { (e : End) → StandsFor self.now e → result ≡ htlc_of e.dance.log (ref.Peer number) }
    {
        let update = self.dance.log().update(Side::Peer, number as usize)?;
        Some(add_of(update)?.id)
    }

    // The peer's HTLC that the first undecided event tells of.
    fn first_htlc(&self) -> Option<u64>
        ensures { (e : End) → StandsFor self.now e → result ≡ first_htlc e.dance.log e.ledger.undecided }
    {
        match self.ledger.undecided() {
            [EventRef::Peer(number), ..] => self.peer_htlc(*number),
            _ => None,
        }
    }

    /// What a command about decisions makes of the end: the first undecided event is decided, another mark takes the
    /// place of that an HTLC is held, or a result goes that has been passed on. Nothing is sent.
    ///
    /// Errors: 40 where another event is decided than the first undecided one, a mark other than `None` is for none of
    /// the peer's adds, or an HTLC is held by the number of another event; where no decision is held by the number that
    /// is resumed, or it is to be held again; 60.
    pub(crate) fn note(&mut self, alloc: Global, command: Command) -> Result<Outbox, Refusal>
        ensures makes { (e : End) → StandsFor self.old e → Makes (note_row command e) result self.old self.new }
        ensures same_channel { self.new.dance.channel ≡ self.old.dance.channel }
    {
        match command {
            Command::Decide { event, mark } => {
                let htlc = self.first_htlc();
                self.ledger.decide(event, mark, htlc)?;
            }
            Command::Resume { event, mark } => self.ledger.resume(event, mark)?,
            Command::Forget(id) => self.ledger.forget(id),
            other => {
                drop(other);
                return Err(Refusal::NotReady);
            }
        }
        Ok(Outbox::new(alloc))
    }

    /// What a command makes of the end.
    pub fn command<K: ChannelKeys>(
        &mut self,
        alloc: Global,
        keys: &K,
        command: Command,
    ) -> Result<Outbox, Refusal>
        ensures makes { (e : End) → StandsFor self.old e
            → Makes (command_row (K.signer keys.now) command e) result self.old self.new }
        ensures same_channel { self.new.dance.channel ≡ self.old.dance.channel }
    {
        match command {
            Command::Confirm(short_id) => self.confirm(alloc, keys, short_id),
            Command::Add {
                amount,
                hash,
                expiry,
                onion,
                origin,
            } => {
                let id = self.next_id();
                let add = Add {
                    id,
                    amount,
                    hash,
                    expiry,
                    onion,
                    origin,
                };
                self.offer(alloc, add)
            }
            Command::Fulfil { id, preimage } => self.fulfil(alloc, Fulfil { id, preimage }),
            Command::Fail { id, reason } => self.fail(alloc, Fail { id, reason }),
            Command::Malformed { id, sha, code } => {
                let malformed = Malformed {
                    id,
                    sha256_of_onion: sha,
                    failure_code: code,
                };
                self.fail_malformed(alloc, malformed)
            }
            Command::Fee(feerate) => self.change_fee(alloc, Fee { feerate }),
            Command::Sign => self.sign(alloc, keys),
            Command::Shutdown(script) => self.shut(alloc, keys, script),
            Command::Decide { .. } => Err(Refusal::NotReady),
            Command::Forget(_) => Err(Refusal::NotReady),
            Command::Resume { .. } => Err(Refusal::NotReady),
        }
    }
}

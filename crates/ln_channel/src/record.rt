//! What of a link outlives a restart: the end of its channel, and by what the channel has failed.

use crate::channel::{Channel, Readiness};
use crate::deep::put;
use crate::ledger::EventLedger;
use crate::machine::{ChannelMachine, ConnectionState, Stage};
use crate::opening::Terms;
use ln_close::Closing;
use ln_dance::Dance;
use ln_keys::ChannelKeys;
use ln_refusals::Refusal;

impl<K: ChannelKeys + Drop> ChannelMachine<K> {
    ghost use Rattle.std.specs.Prelude.{◌≡◌, option_copied};
    ghost use Rattle.ln_channel.specs.State.{State, StandsFor};
    ghost use Rattle.ln_channel.specs.Record.{saved_end, came_back};

    /// The end of its channel, where both have signed the opening. Takes no memory.
    pub fn saved(&self) -> Option<&Channel>
        ensures end { (l : State K) → StandsFor self.now l → option_copied result ≡ saved_end l.stage }
        ensures as_kept { option_copied result ≡ saved_end self.now.stage }
    {
        match &self.stage {
            Stage::Funded(channel) => Some(channel),
            _ => None,
        }
    }

    /// A link without a connection, as it comes back from what was kept of it. Takes no memory.
    pub fn come_back(keys: K, failure: Option<Refusal>, channel: Channel) -> ChannelMachine<K>
        ensures { StandsFor result (came_back keys failure channel) }
    {
        ChannelMachine {
            keys,
            connection: ConnectionState::Down,
            halted: false,
            failure,
            stage: Stage::Funded(channel),
        }
    }

    /// A link comes back in its place from what was kept of it: without a connection, and with the keys that it has.
    /// Takes no memory.
    pub fn reload(&mut self, failure: Option<Refusal>, channel: Channel)
        ensures { StandsFor self.new (came_back self.old.keys failure channel) }
    {
        self.connection = ConnectionState::Down;
        self.halted = false;
        self.failure = failure;
        put(&mut self.stage, Stage::Funded(channel));
    }
}

impl Channel {
    ghost use Rattle.std.specs.Prelude.{◌≡◌};
    ghost use Rattle.ln_channel.specs.End.{IsSound};
    ghost use Rattle.ln_channel.specs.Parts.{end_with};

    /// An end of these parts: of one role, with the opening that its terms say, with ordered fees, and with the peer's
    /// script where the peer has shut down. Takes no memory.
    pub fn from_parts(
        dance: Dance,
        closing: Closing,
        terms: Terms,
        readiness: Readiness,
        ledger: EventLedger,
    ) -> Channel
        requires { IsSound (end_with dance closing terms readiness ledger) }
        ensures { result ≡ end_with dance closing terms readiness ledger }
    {
        Channel {
            dance,
            closing,
            terms,
            readiness,
            ledger,
        }
    }

    /// The updates, numbers and points of its commitments.
    pub fn dance(&self) -> &Dance
        ensures dance { result.now ≡ self.now.dance }
        ensures fits_together { IsSound self.now }
    {
        &self.dance
    }

    /// How far it is with closing.
    pub fn closing(&self) -> Closing
        ensures { result ≡ self.now.closing }
    {
        self.closing
    }

    /// What both sides told as they opened the channel.
    pub fn terms(&self) -> &Terms
        ensures { result.now ≡ self.now.terms }
    {
        &self.terms
    }

    /// How far it is with being ready.
    pub fn readiness(&self) -> Readiness
        ensures { result ≡ self.now.readiness }
    {
        self.readiness
    }

    /// Its events by number.
    pub fn ledger(&self) -> &EventLedger
        ensures { result.now ≡ self.now.ledger }
    {
        &self.ledger
    }
}

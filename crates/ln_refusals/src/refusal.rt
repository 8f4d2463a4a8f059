//! Why a message, a command, a script or a record is refused, by number.

use crate::lost_data::LostData;
use crate::peer_rule::PeerRule;
use ln_bytes::Fault;
use std::alloc::{AllocError, AllocFailed};
use std::fmt;
use std::fmt::{Display, Formatter};
use thiserror::Error;

/// Why a call was refused.
///
/// 1 to 9 tell of bytes, 20 to 37 of a peer's message, 40 to 49 of a command (nothing has changed),
/// 60 to 65 of the surroundings, 70 and 71 of a record. The text is `refused` and the number; for
/// `PeerLimit` the number of the rule that it carries follows, for `BadScript` the word `line` and the line, and for
/// `ReestablishNumber` whose data is lost, where that is proved: `own data lost` or `peer data lost`.
#[derive(Clone, Copy, Debug, PartialEq, Eq, Error)]
pub enum Refusal {
    /// 1: the bytes end inside a value.
    Truncated,
    /// 2: a number is written in a longer form than it needs.
    NotMinimal,
    /// 3: a record's type isn't above the one before it.
    TlvOrder,
    /// 4: a record has an even type that isn't known.
    TlvUnknownEven,
    /// 5: a record's value passes the end of the stream.
    TlvLength,
    /// 6: a message has an even type that isn't known.
    UnknownEvenType,
    /// 7: a message has more than 65,535 bytes.
    TooLong,
    /// 8: a value with a fixed form has another length.
    FieldLength,
    /// 9: a peer asks for an even feature that isn't known.
    UnknownFeature,
    /// 20: a message names a channel that there isn't.
    UnknownChannel,
    /// 21: a message that may not come in this state.
    OutOfPlace,
    /// 22: an added HTLC hasn't the next id of its sender.
    BadId,
    /// 23: an added HTLC's amount is 0 or below `htlc_minimum_msat`.
    AmountBelowMinimum,
    /// 24: an added HTLC would pass `max_accepted_htlcs`.
    TooManyHtlcs,
    /// 25: an added HTLC would pass `max_htlc_value_in_flight_msat`.
    InFlightOver,
    /// 26: an added HTLC would leave its sender less than `channel_reserve_satoshis`.
    CannotAfford,
    /// 27: an added HTLC's `cltv_expiry` is 500,000,000 or more.
    ExpiryRange,
    /// 28: a removal names an HTLC that can't be removed.
    NoSuchHtlc,
    /// 29: a preimage hasn't the payment hash.
    PreimageWrong,
    /// 30: `update_fee` by the side that doesn't pay the fee.
    NotFunder,
    /// 31: a signature doesn't fit.
    SignatureWrong,
    /// 32: a per commitment secret doesn't fit.
    SecretWrong,
    /// 33: a revocation that answers no signature.
    NothingToRevoke,
    /// 34: `channel_reestablish` with a number that can't be served; carries whose data it proves to be lost.
    ReestablishNumber(LostData),
    /// 35: an HTLC is added after its sender's shutdown.
    AddAfterShutdown,
    /// 36: a closing fee that can't be agreed to.
    FeeOutside,
    /// 37: the peer sent `error`.
    PeerError,
    /// 40: the channel isn't ready for this command.
    NotReady,
    /// 41: the last signature isn't revoked for yet.
    SignatureOutstanding,
    /// 42: a signature would cover nothing new.
    NothingToSign,
    /// 43: a shutdown has passed.
    Shut,
    /// 44: the peer would refuse; carries the rule by which it would (7, 21 or 23 to 30).
    PeerLimit(PeerRule),
    /// 45: the peer hasn't acknowledged every own update.
    UpdatesPending,
    /// 46: there is no further number.
    NumbersSpent,
    /// 47: there is no connection.
    Disconnected,
    /// 48: the HTLC to be removed isn't irrevocably committed yet.
    NotCommitted,
    /// 49: the HTLC to be removed was removed.
    AlreadyRemoved,
    /// 60: there was no memory.
    Memory,
    /// 61: the store failed.
    Store,
    /// 62: the channel end has halted, and answers again once it is loaded from its record.
    Halted,
    /// 63: a read or a write failed.
    Io,
    /// 64: a line of a script isn't one; carries its number, counted from 1, or 0 for the whole text.
    BadScript { line: u64 },
    /// 65: what was waited for didn't come.
    GaveUp,
    /// 70: a record's bytes are damaged.
    Damaged,
    /// 71: a record has an unknown version.
    Version,
}

impl Refusal {
    ghost use Rattle.std.specs.Prelude.{◌≡◌};
    ghost use Rattle.ln_refusals.specs.Refusal.{refusal_number, refusal_name};

    /// The number by which the refusal is told: 1 to 9, 20 to 37, 40 to 49, 60 to 65, 70 or 71.
    pub fn number(&self) -> u16
        ensures { result ≡ refusal_number self.now }
    {
        match self {
            Refusal::Truncated => 1,
            Refusal::NotMinimal => 2,
            Refusal::TlvOrder => 3,
            Refusal::TlvUnknownEven => 4,
            Refusal::TlvLength => 5,
            Refusal::UnknownEvenType => 6,
            Refusal::TooLong => 7,
            Refusal::FieldLength => 8,
            Refusal::UnknownFeature => 9,
            Refusal::UnknownChannel => 20,
            Refusal::OutOfPlace => 21,
            Refusal::BadId => 22,
            Refusal::AmountBelowMinimum => 23,
            Refusal::TooManyHtlcs => 24,
            Refusal::InFlightOver => 25,
            Refusal::CannotAfford => 26,
            Refusal::ExpiryRange => 27,
            Refusal::NoSuchHtlc => 28,
            Refusal::PreimageWrong => 29,
            Refusal::NotFunder => 30,
            Refusal::SignatureWrong => 31,
            Refusal::SecretWrong => 32,
            Refusal::NothingToRevoke => 33,
            Refusal::ReestablishNumber(_) => 34,
            Refusal::AddAfterShutdown => 35,
            Refusal::FeeOutside => 36,
            Refusal::PeerError => 37,
            Refusal::NotReady => 40,
            Refusal::SignatureOutstanding => 41,
            Refusal::NothingToSign => 42,
            Refusal::Shut => 43,
            Refusal::PeerLimit(_) => 44,
            Refusal::UpdatesPending => 45,
            Refusal::NumbersSpent => 46,
            Refusal::Disconnected => 47,
            Refusal::NotCommitted => 48,
            Refusal::AlreadyRemoved => 49,
            Refusal::Memory => 60,
            Refusal::Store => 61,
            Refusal::Halted => 62,
            Refusal::Io => 63,
            Refusal::BadScript { line: _ } => 64,
            Refusal::GaveUp => 65,
            Refusal::Damaged => 70,
            Refusal::Version => 71,
        }
    }

    /// The refusal's name, as it stands here: `NoSuchHtlc` for 28. It is for logs, beside the number; no printed text
    /// of the program has it. Takes no memory.
    pub fn name(&self) -> &'static str
        ensures { result.now ≡ refusal_name self.now }
    {
        match self {
            Refusal::Truncated => "Truncated",
            Refusal::NotMinimal => "NotMinimal",
            Refusal::TlvOrder => "TlvOrder",
            Refusal::TlvUnknownEven => "TlvUnknownEven",
            Refusal::TlvLength => "TlvLength",
            Refusal::UnknownEvenType => "UnknownEvenType",
            Refusal::TooLong => "TooLong",
            Refusal::FieldLength => "FieldLength",
            Refusal::UnknownFeature => "UnknownFeature",
            Refusal::UnknownChannel => "UnknownChannel",
            Refusal::OutOfPlace => "OutOfPlace",
            Refusal::BadId => "BadId",
            Refusal::AmountBelowMinimum => "AmountBelowMinimum",
            Refusal::TooManyHtlcs => "TooManyHtlcs",
            Refusal::InFlightOver => "InFlightOver",
            Refusal::CannotAfford => "CannotAfford",
            Refusal::ExpiryRange => "ExpiryRange",
            Refusal::NoSuchHtlc => "NoSuchHtlc",
            Refusal::PreimageWrong => "PreimageWrong",
            Refusal::NotFunder => "NotFunder",
            Refusal::SignatureWrong => "SignatureWrong",
            Refusal::SecretWrong => "SecretWrong",
            Refusal::NothingToRevoke => "NothingToRevoke",
            Refusal::ReestablishNumber(_) => "ReestablishNumber",
            Refusal::AddAfterShutdown => "AddAfterShutdown",
            Refusal::FeeOutside => "FeeOutside",
            Refusal::PeerError => "PeerError",
            Refusal::NotReady => "NotReady",
            Refusal::SignatureOutstanding => "SignatureOutstanding",
            Refusal::NothingToSign => "NothingToSign",
            Refusal::Shut => "Shut",
            Refusal::PeerLimit(_) => "PeerLimit",
            Refusal::UpdatesPending => "UpdatesPending",
            Refusal::NumbersSpent => "NumbersSpent",
            Refusal::Disconnected => "Disconnected",
            Refusal::NotCommitted => "NotCommitted",
            Refusal::AlreadyRemoved => "AlreadyRemoved",
            Refusal::Memory => "Memory",
            Refusal::Store => "Store",
            Refusal::Halted => "Halted",
            Refusal::Io => "Io",
            Refusal::BadScript { line: _ } => "BadScript",
            Refusal::GaveUp => "GaveUp",
            Refusal::Damaged => "Damaged",
            Refusal::Version => "Version",
        }
    }
}

impl Display for Refusal {
    ghost use Rattle.std.specs.Prelude.{Some};
    ghost use Rattle.ln_refusals.specs.RefusalText.{refusal_text};

    ghost output = { λ r. Some (refusal_text r) };

    fn fmt<W: fmt::Write>(&self, f: &mut Formatter<W>) -> fmt::Result {
        match self {
            Refusal::PeerLimit(rule) => write!(f, "refused {} {}", self.number(), rule.number()),
            Refusal::BadScript { line } => write!(f, "refused {} line {line}", self.number()),
            Refusal::ReestablishNumber(LostData::Own) => {
                write!(f, "refused {} own data lost", self.number())
            }
            Refusal::ReestablishNumber(LostData::Peer) => {
                write!(f, "refused {} peer data lost", self.number())
            }
            _ => write!(f, "refused {}", self.number()),
        }
    }
}

impl From<Fault> for Refusal {
    ghost use Rattle.std.specs.Prelude.{◌≡◌};
    ghost use Rattle.ln_refusals.specs.Refusal.{refusal_of};

    ghost from_gives = { λ f e. e ≡ refusal_of f };

    fn from(fault: Fault) -> Refusal {
        match fault {
            Fault::Truncated => Refusal::Truncated,
            Fault::NotMinimal => Refusal::NotMinimal,
            Fault::TlvOrder => Refusal::TlvOrder,
            Fault::TlvUnknownEven => Refusal::TlvUnknownEven,
            Fault::TlvLength => Refusal::TlvLength,
            Fault::UnknownEvenType => Refusal::UnknownEvenType,
            Fault::TooLong => Refusal::TooLong,
            Fault::FieldLength => Refusal::FieldLength,
            Fault::UnknownFeature => Refusal::UnknownFeature,
            Fault::Memory => Refusal::Memory,
            Fault::Io => Refusal::Io,
        }
    }
}

impl From<AllocError> for Refusal {
    ghost use Rattle.std.specs.Prelude.{◌≡◌};
    ghost use Rattle.ln_refusals.specs.declared.refusal.Refusal.TheVariants.{Memory};

    ghost from_gives = { λ _ e. e ≡ Memory };

    fn from(_error: AllocError) -> Refusal {
        Refusal::Memory
    }
}

impl<T: Drop> From<AllocFailed<T>> for Refusal {
    ghost use Rattle.std.specs.Prelude.{◌≡◌};
    ghost use Rattle.ln_refusals.specs.declared.refusal.Refusal.TheVariants.{Memory};

    ghost from_gives = { λ _ e. e ≡ Memory };

    fn from(_error: AllocFailed<T>) -> Refusal {
        Refusal::Memory
    }
}

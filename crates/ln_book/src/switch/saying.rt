//! What is said between the ends of a node's channels and its book of payments.

ghost use Rattle.std.specs.Prelude.{◌≡◌};
ghost use Rattle.ln_history.specs.History.{with_entry};
ghost use Rattle.ln_book.specs.Value.{of_value};

use crate::switch::uses::Use;
use ln_channel::{Channel, Command};
use ln_history::Past;
use ln_hooks::{ChannelEvent, Verdict};
use ln_log::ChannelId;
use std::snapshot::Snapshot;

/// One thing that was said. It takes no memory: proofs alone read it.
#[derive(Drop)]
pub enum Saying {
    /// The book has handed out this command for the channel.
    Took(ChannelId, Snapshot<Command>),
    /// The book was told what the channel has answered to the command that was out.
    Answered(ChannelId, Result<u64, u16>),
    /// The book was told what has become of an HTLC of the channel.
    Settled(ChannelId, Snapshot<ChannelEvent>),
    /// The book was told what the hooks say of the channel's event of this number.
    Decided(ChannelId, u64, Snapshot<ChannelEvent>, Verdict),
    /// The book was told what this end has kept, as its connection was lost or it was loaded.
    Dropped(Snapshot<Channel>),
    /// The book was told, or had been told the same last, which payments the end takes.
    Uses(Use),
}

/// A value, for proofs alone. Takes no memory.
pub(crate) fn shown<T>(value: &T) -> Snapshot<T>
    ensures { result ≡ of_value value.now }
{
    Snapshot::of(value)
}

/// One thing more was said. Takes no memory.
pub(crate) fn with_word(said: &Past<(), Saying>, word: Saying) -> Past<(), Saying>
    ensures { result.told ≡ with_entry word said.now.told }
{
    said.and(&word)
}

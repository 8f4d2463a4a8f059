//! Which commands of a link are whose.

ghost use Rattle.std.specs.Prelude.{◌≡◌};
ghost use Rattle.ln_manager_channels.specs.Commands.{is_decision, is_users, decides, resumes};
ghost use Rattle.ln_manager_channels.specs.Obeying.{channel_in, origin_of, is_due};

use ln_channel::Command;
use ln_log::ChannelId;

/// What a user may command: it neither removes an HTLC nor decides about one, nor offers one that forwards another.
pub(crate) fn is_users(command: &Command) -> bool
    ensures { result ≡ is_users command.now }
{
    match command {
        Command::Confirm(_) => true,
        Command::Add { origin, .. } => origin.is_none(),
        Command::Fee(_) => true,
        Command::Sign => true,
        Command::Shutdown(_) => true,
        _ => false,
    }
}

// The channel of an HTLC.
fn channel_in(origin: Option<(ChannelId, u64)>) -> Option<ChannelId>
    ensures { result ≡ channel_in origin }
{
    let (channel, _) = origin?;
    Some(channel)
}

/// The channel whose HTLC a command forwards.
pub(crate) fn origin_of(command: &Command) -> Option<ChannelId>
    ensures { result ≡ origin_of command.now }
{
    match command {
        Command::Add { origin, .. } => channel_in(*origin),
        _ => None,
    }
}

/// Whether it is about what a record keeps of decisions of HTLCs.
pub(crate) fn is_decision(command: &Command) -> bool
    ensures { result ≡ is_decision command.now }
{
    match command {
        Command::Decide { .. } => true,
        Command::Resume { .. } => true,
        _ => false,
    }
}

/// What the book has just entered for a link, by the number of its event.
#[derive(Clone, Copy)]
pub(crate) enum Due {
    /// The decision of an event.
    Decision(u64),
    /// That of an HTLC that is held.
    Resumption(u64),
}

/// Whether a command is the one that is due.
pub(crate) fn is_due(due: Due, command: &Command) -> bool
    ensures { result ≡ is_due due command.now }
{
    match due {
        Due::Decision(event) => decides(event, command),
        Due::Resumption(event) => resumes(event, command),
    }
}

// Whether it decides the event of this number.
fn decides(event: u64, command: &Command) -> bool
    ensures { result ≡ decides event command.now }
{
    match command {
        Command::Decide { event: number, .. } => *number == event,
        _ => false,
    }
}

// Whether it resumes what is held by this number.
fn resumes(event: u64, command: &Command) -> bool
    ensures { result ≡ resumes event command.now }
{
    match command {
        Command::Resume { event: number, .. } => *number == event,
        _ => false,
    }
}

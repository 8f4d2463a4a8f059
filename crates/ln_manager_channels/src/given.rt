//! What became of a command that the book had for a channel.

ghost use Rattle.std.specs.Prelude.{◌≡◌};
ghost use Rattle.ln_manager_channels.specs.Links.{done_in};
ghost use Rattle.ln_manager_channels.specs.Obeying.{given_of};

use ln_channel::Output;
use ln_log::ChannelId;
use ln_refusals::Refusal;

/// What became of a command that the book had for a channel.
#[derive(Drop)]
pub enum Given {
    /// There was none.
    Nothing,
    /// Its link has refused it for now, and it is handed out again.
    Waits,
    /// Its link has refused it, and it is over: in the channel of this id something may be due.
    Refused(Option<ChannelId>),
    /// Its link has halted.
    Halted,
    /// It is done, and this is handed out.
    Done(Vec<Output>),
}

/// Whether a command was done, or by what it was refused.
pub(crate) fn done_of(answer: &Result<Vec<Output>, Refusal>) -> Result<(), Refusal>
    ensures { result ≡ done_in answer.now }
{
    match answer {
        Ok(_) => Ok(()),
        Err(refusal) => Err(*refusal),
    }
}

/// What became of a command that a link has answered so: where it was refused, it waits, or is over.
pub(crate) fn given_of(
    answer: Result<Vec<Output>, Refusal>,
    waits: bool,
    origin: Option<ChannelId>,
) -> Given
    ensures { result ≡ given_of answer waits origin }
{
    match answer {
        Ok(outputs) => Given::Done(outputs),
        Err(_) => {
            if waits {
                Given::Waits
            } else {
                Given::Refused(origin)
            }
        }
    }
}

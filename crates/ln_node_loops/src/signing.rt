//! Whether a link owes a signature.

ghost use Rattle.std.specs.Prelude.{◌≡◌, is_none, option_copied};
ghost use Rattle.ln_dance.specs.Dance.{sign_fault};
ghost use Rattle.ln_channel.specs.Commands.{sign_command_fault};
ghost use Rattle.ln_node_loops.specs.Signing.{owes_by, owes_signature};

use ln_channel::{Channel, ChannelMachine};
use ln_dance::{Dance, LAST_NUMBER};
use ln_keys::ChannelKeys;
use ln_refusals::Refusal;

// What keeps a side from signing.
fn sign_refusal(dance: &Dance) -> Option<Refusal>
    ensures { result ≡ sign_fault dance.now }
{
    if dance.owes() {
        return Some(Refusal::SignatureOutstanding);
    }
    match dance.log().sign_refusal() {
        Some(refusal) => Some(refusal),
        None => {
            if dance.numbers().signed == LAST_NUMBER {
                Some(Refusal::NumbersSpent)
            } else {
                None
            }
        }
    }
}

// What keeps an end from signing.
fn command_refusal(end: &Channel) -> Option<Refusal>
    ensures { result ≡ sign_command_fault end.now }
{
    if end.is_ready() {
        sign_refusal(end.dance())
    } else {
        Some(Refusal::NotReady)
    }
}

fn owes_by(end: Option<&Channel>) -> bool
    ensures { result ≡ owes_by (option_copied end.entry) }
{
    match end {
        None => false,
        Some(end) => command_refusal(end).is_none(),
    }
}

/// Whether a link owes a signature: `Sign` would be done, but for want of memory or a failing store.
pub(crate) fn owes_signature<K: ChannelKeys + Drop>(link: &ChannelMachine<K>) -> bool
    ensures { result ≡ owes_signature link.now }
{
    link.connection().is_connected()
        && !link.is_halted()
        && link.failure().is_none()
        && owes_by(link.saved())
}

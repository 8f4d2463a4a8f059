//! When the channels of a node sign.

use crate::node::Node;
use ln_keys::{ChannelKeys, Onion};
use ln_node_loops::Table;
use ln_refusals::Refusal;
use ln_store::RecordStore;
use std::io::{Read, Write};
use std::net::OpenStream;

/// When a channel signs what no signature covers: own updates, and the peer's newly committed ones (BOLT 2, "Committing
/// Updates So Far: `commitment_signed`").
#[derive(Clone, Copy, PartialEq, Eq, Debug)]
pub enum Signing {
    /// As it is ordered `Sign`. So it begins.
    WhenOrdered,
    /// Also where its worker has nothing else to do, so that what came together shares a signature.
    WhenIdle,
}

impl<K, S, O, H, T, W> Node<K, S, O, H, T, W>
where
    K: ChannelKeys + Drop + Send + 'static,
    S: RecordStore + Drop + Send + 'static,
    O: Onion + Copy + Drop + Send + 'static,
    H: Drop + Send + 'static,
    T: Table<H> + Drop + Send + 'static,
    W: Read + Write + OpenStream + Drop + Send + 'static,
{
    ghost use Rattle.std.specs.Prelude.{◌≡◌, ◌≤◌, ◌<◌, Ok, Err};
    ghost use Rattle.ln_refusals.specs.declared.refusal.Refusal.TheVariants as refusal;
    ghost use Rattle.ln_node.specs.Node.{channel_count, signing_of};

    /// Each channel signs so from now on, those that it will have too.
    pub fn set_signing(&mut self, signing: Signing)
        ensures new_channels_sign_so { signing_of self.new ≡ signing }
        ensures channels_stay { channel_count self.new ≡ channel_count self.old }
    {
        self.signing = signing;
        for channel in &self.channels {
            channel.access.set_signing(signing);
        }
    }

    /// A channel signs so from now on, whatever the others do. Takes no memory.
    ///
    /// Error: 40 where there is no such channel.
    pub fn set_signing_of(&self, channel: usize, signing: Signing) -> Result<(), Refusal>
        ensures is_done_where_there_is_one { channel < channel_count self.now → result ≡ Ok tt }
        ensures refuses_where_there_is_none { channel_count self.now ≤ channel → result ≡ Err refusal.NotReady }
    {
        match self.channels.get(channel) {
            None => Err(Refusal::NotReady),
            Some(channel) => {
                channel.access.set_signing(signing);
                Ok(())
            }
        }
    }
}

//! The id of a channel.

ghost use Rattle.std.specs.Prelude.{◌≡◌};
ghost use Rattle.ln_msgs.specs.Messages.Channel.{id_of_channel};

/// The id of the channel whose funding transaction has this id, and pays the channel by the output of this
/// index (BOLT 2, "Definition of `channel_id`"): the transaction's id, into whose last two bytes the two bytes of
/// the index are xored, the higher one first. Takes no memory.
pub fn channel_id(txid: &[u8; 32], output_index: u16) -> [u8; 32]
    ensures { result ≡ id_of_channel txid.now output_index }
{
    let [high, low] = output_index.to_be_bytes();
    let mut id = *txid;
    id[30] ^= high;
    id[31] ^= low;
    id
}

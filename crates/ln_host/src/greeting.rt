//! What of a connection is of no channel: greetings, pings, and the channel that a message is for (BOLT 1).

ghost use Rattle.std.specs.Prelude.{◌≡◌, IfOk, IfErr};
ghost use Rattle.ln_refusals.specs.declared.refusal.Refusal.TheVariants as refusal;
ghost use Rattle.ln_host.specs.Greeting.{networks, init_with, pong_to, channel_of};

use ln_bytes::{Bytes, Record};
use ln_channel::named;
use ln_msgs::{Init, Message, Ping, Pong, Records};
use ln_refusals::Refusal;
use std::alloc::Global;

/// The greatest `num_pong_bytes` that a ping is answered by (BOLT 1, "The `ping` and `pong` Messages").
const LONGEST_PONG: u16 = 65_531;

// The networks of these chains, where there are any.
fn networks(alloc: Global, chains: &[u8]) -> Result<Records, Refusal>
    ensures records { IfOk result (λ rs. rs ≡ networks chains.now) }
    ensures fails_for_memory_alone { IfErr result (λ r. r ≡ refusal.Memory) }
{
    let mut records = Vec::new(alloc);
    if !chains.is_empty() {
        let value = Bytes::from_slice(alloc, chains)?;
        records.push(Record { typ: 1, value })?;
    }
    Ok(Records::new(records))
}

/// An `init` with these features, the lowest bit in the last byte, and with a record `networks` of these chain
/// hashes, 32 bytes each, where there are any (BOLT 1, "The `init` Message"). 60 where there is no memory.
pub fn init_with(alloc: Global, features: &[u8], chains: &[u8]) -> Result<Init, Refusal>
    ensures init { IfOk result (λ i. i ≡ init_with features.now chains.now) }
    ensures fails_for_memory_alone { IfErr result (λ r. r ≡ refusal.Memory) }
{
    let features = Bytes::from_slice(alloc, features)?;
    let records = networks(alloc, chains)?;
    Ok(Init {
        global_features: Bytes::empty(alloc),
        features,
        records,
    })
}

/// The answer to a ping: so many zero bytes; none where it asks for 65,532 or more (BOLT 1, "The `ping` and `pong`
/// Messages"). 60 where there is no memory.
pub fn pong_to(alloc: Global, ping: &Ping) -> Result<Option<Pong>, Refusal>
    ensures pong { IfOk result (λ p. p ≡ pong_to ping.now) }
    ensures fails_for_memory_alone { IfErr result (λ r. r ≡ refusal.Memory) }
{
    if ping.num_pong_bytes > LONGEST_PONG {
        return Ok(None);
    }
    let zeros = Vec::from_elem(alloc, 0u8, usize::from(ping.num_pong_bytes))?;
    Ok(Some(Pong {
        ignored: Bytes::new(zeros),
        records: Records::empty(alloc),
    }))
}

/// The id of the channel that a message is for: the temporary one of the first three messages of an opening, all
/// zeros of an error or a warning for all channels; none of a message of no channel. Takes no memory.
pub fn channel_of(message: &Message) -> Option<[u8; 32]>
    ensures { result ≡ channel_of message.now }
{
    match message {
        Message::Warning(m) => Some(m.channel_id),
        Message::Error(m) => Some(m.channel_id),
        Message::OpenChannel(m) => Some(m.temporary_id),
        Message::AcceptChannel(m) => Some(m.temporary_id),
        Message::FundingCreated(m) => Some(m.temporary_id),
        _ => named(message),
    }
}

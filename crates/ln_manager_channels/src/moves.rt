//! What one call makes of the link at a place.

ghost use Rattle.std.specs.Prelude.{◌≡◌, slice_get, option_copied};
ghost use Rattle.ln_channel.specs.State.{drops, halts};
ghost use Rattle.ln_manager_channels.specs.Moves.{naming_in, with_funding, batched, Connects, Takes, TakesAt, Obeys};
ghost use Rattle.ln_manager_channels.specs.Moves.{ObeysAt, is_fresh_at};
ghost use Rattle.ln_manager_channels.specs.Places.{changed_at, AnswersAt};

use crate::newest::Newest;
use ln_channel::{ChannelMachine, Command, Output};
use ln_keys::ChannelKeys;
use ln_link::Link;
use ln_msgs::Message;
use ln_refusals::Refusal;
use std::alloc::Global;

/// What the link at a place is. Takes no memory.
pub(crate) fn machine_at<K: ChannelKeys + Drop>(
    links: &[Link<K>],
    channel: usize,
) -> Option<&ChannelMachine<K>>
    ensures { option_copied result ≡ slice_get links.now channel }
{
    match links.get(channel) {
        None => None,
        Some(link) => Some(link.channel_machine()),
    }
}

/// Its funding is named.
pub(crate) fn name_at<K: ChannelKeys + Drop>(
    links: &mut Vec<Link<K>>,
    channel: usize,
    txid: [u8; 32],
    output: u16,
) -> Result<(), Refusal>
    ensures answer { result ≡ naming_in (slice_get links.old.items channel) }
    ensures names { links.new.items ≡ changed_at channel (with_funding txid output) links.old.items }
{
    match links.get_mut(channel) {
        None => Err(Refusal::NotReady),
        Some(link) => link.name_funding(txid, output),
    }
}

fn connect<K: ChannelKeys + Drop>(alloc: Global, link: &mut Link<K>) -> Result<Vec<Output>, Refusal>
    ensures { Connects K.signer link.old link.new result }
{
    link.connect(alloc)
}

/// It is connected.
pub(crate) fn connect_at<K: ChannelKeys + Drop>(
    alloc: Global,
    links: &mut Vec<Link<K>>,
    channel: usize,
) -> Result<Vec<Output>, Refusal>
    ensures { AnswersAt channel (Connects K.signer) result links.old.items links.new.items }
{
    match links.get_mut(channel) {
        None => Err(Refusal::NotReady),
        Some(link) => connect(alloc, link),
    }
}

/// Its connection is lost.
pub(crate) fn drop_at<K: ChannelKeys + Drop>(links: &mut Vec<Link<K>>, channel: usize)
    ensures { links.new.items ≡ changed_at channel drops links.old.items }
{
    if let Some(link) = links.get_mut(channel) {
        link.drop_connection();
    }
}

/// Whether its record has changed, and belongs to no batch.
pub(crate) fn is_fresh_at(records: &[Newest], channel: usize) -> bool
    ensures { result ≡ is_fresh_at channel records.now }
{
    match records.get(channel) {
        None => false,
        Some(newest) => newest.is_fresh,
    }
}

/// Its record belongs to a batch.
pub(crate) fn batch_at(records: &mut Vec<Newest>, channel: usize)
    ensures { records.new.items ≡ changed_at channel batched records.old.items }
{
    if let Some(newest) = records.get_mut(channel) {
        newest.is_fresh = false;
    }
}

/// It halts.
pub(crate) fn halt_at<K: ChannelKeys + Drop>(links: &mut Vec<Link<K>>, channel: usize)
    ensures { links.new.items ≡ changed_at channel halts links.old.items }
{
    if let Some(link) = links.get_mut(channel) {
        link.halt();
    }
}

fn take<K: ChannelKeys + Drop>(
    alloc: Global,
    link: &mut Link<K>,
    newest: &mut Newest,
    keys: K,
    message: Message,
) -> Result<Vec<Output>, Refusal>
    ensures { Takes K.signer keys message link.old link.new newest.old newest.new result }
{
    link.set_keys(keys);
    link.handle(alloc, newest, message)
}

/// It takes a message with these keys, over its store.
pub(crate) fn take_at<K: ChannelKeys + Drop>(
    alloc: Global,
    links: &mut Vec<Link<K>>,
    newest: &mut Newest,
    channel: usize,
    keys: K,
    message: Message,
) -> Result<Vec<Output>, Refusal>
    ensures { TakesAt K.signer channel keys message result links.old.items links.new.items newest.old newest.new }
{
    match links.get_mut(channel) {
        None => {
            drop(keys);
            drop(message);
            Err(Refusal::NotReady)
        }
        Some(link) => take(alloc, link, newest, keys, message),
    }
}

fn obey<K: ChannelKeys + Drop>(
    alloc: Global,
    link: &mut Link<K>,
    newest: &mut Newest,
    command: Command,
) -> Result<Vec<Output>, Refusal>
    ensures { Obeys K.signer command link.old link.new newest.old newest.new result }
{
    link.command(alloc, newest, command)
}

/// It is given a command, over its store.
pub(crate) fn obey_at<K: ChannelKeys + Drop>(
    alloc: Global,
    links: &mut Vec<Link<K>>,
    newest: &mut Newest,
    channel: usize,
    command: Command,
) -> Result<Vec<Output>, Refusal>
    ensures { ObeysAt K.signer channel command result links.old.items links.new.items newest.old newest.new }
{
    match links.get_mut(channel) {
        None => {
            drop(command);
            Err(Refusal::NotReady)
        }
        Some(link) => obey(alloc, link, newest, command),
    }
}

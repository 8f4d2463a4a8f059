//! A node's book follows the node's ends.

ghost use Rattle.std.specs.Prelude.{◌≡◌, OnOk, IfOk, IfErr, option_copied};
ghost use Rattle.ln_refusals.specs.declared.refusal.Refusal.TheVariants as refusal;
ghost use Rattle.ln_channel.specs.Record.{saved_end};
ghost use Rattle.ln_world_channels.specs.WorldChannel.{side_of};
ghost use Rattle.ln_world_channels.specs.World.{channel};
ghost use Rattle.ln_world.specs.Follow.{with_end, with_side, with_channel, followed_below, followed};
ghost use Rattle.ln_world.specs.Follow.{side_snapshot, snapshot_in, snapshots_below, begun_anew};

use crate::node::NodeBook;
use ln_book::{Book, ChannelSnapshot, read_end, use_of};
use ln_channel::ChannelMachine;
use ln_forward::Policy;
use ln_keys::{ChannelKeys, Role};
use ln_refusals::Refusal;
use ln_world_channels::{World as Channels, WorldChannel};
use ln_world_dispatch::Node;
use std::alloc::Global;

// The book follows a link's end, where both have signed its opening. 60 where there is no memory.
fn follow_end<K: ChannelKeys + Copy>(
    book: &mut Book,
    policy: Policy,
    link: &ChannelMachine<K>,
) -> Result<(), Refusal>
    ensures followed { OnOk result (book.new ≡ with_end policy link.now (saved_end link.now.stage) book.old) }
    ensures fails_for_memory_alone { IfErr result (λ e. e ≡ refusal.Memory) }
{
    match link.saved() {
        None => Ok(()),
        Some(end) => ln_book::follow(book, policy, use_of(link, end)),
    }
}

fn follow_side<K: ChannelKeys + Copy>(
    book: &mut Book,
    policy: Policy,
    channel: &WorldChannel<K>,
    side: Option<Role>,
) -> Result<(), Refusal>
    ensures followed { OnOk result (book.new ≡ with_side policy channel.now side book.old) }
    ensures fails_for_memory_alone { IfErr result (λ e. e ≡ refusal.Memory) }
{
    match side {
        None => Ok(()),
        Some(side) => follow_end(book, policy, channel.place(side).link()),
    }
}

// The book follows the node's end in a channel, where it has one. 60 where there is no memory.
fn follow_channel<K: ChannelKeys + Copy>(
    book: &mut Book,
    node: Node,
    policy: Policy,
    channel: Option<&WorldChannel<K>>,
) -> Result<(), Refusal>
    ensures followed { OnOk result (book.new ≡ with_channel node policy (option_copied channel.entry) book.old) }
    ensures fails_for_memory_alone { IfErr result (λ e. e ≡ refusal.Memory) }
{
    match channel {
        None => Ok(()),
        Some(channel) => follow_side(book, policy, channel, channel.side_of(node)),
    }
}

// The book follows all ends of a node, by rising number. 60 where there is no memory.
fn follow_all<K: ChannelKeys + Copy>(
    book: &mut Book,
    node: Node,
    policy: Policy,
    channels: &Channels<K>,
) -> Result<(), Refusal>
    ensures followed { OnOk result (book.new ≡ followed_below 256 node policy channels.now.channels book.old) }
    ensures fails_for_memory_alone { IfErr result (λ e. e ≡ refusal.Memory) }
{
    for number in 0..256u16 {
        follow_channel(book, node, policy, channels.channel(number as u8))?;
    }
    Ok(())
}

/// A node's book follows its ends. 60 where there is no memory.
pub(crate) fn follow<K: ChannelKeys + Copy>(
    node: &mut NodeBook,
    channels: &Channels<K>,
) -> Result<(), Refusal>
    ensures followed { OnOk result (node.new ≡ followed channels.now.channels node.old) }
    ensures fails_for_memory_alone { IfErr result (λ e. e ≡ refusal.Memory) }
{
    follow_all(&mut node.book, node.node, node.policy, channels)
}

fn read_side<K: ChannelKeys + Copy>(
    alloc: Global,
    channel: &WorldChannel<K>,
    side: Option<Role>,
    snapshots: &mut Vec<ChannelSnapshot>,
) -> Result<(), Refusal>
    ensures read { OnOk result (snapshots.new.items ≡ side_snapshot channel.now side snapshots.old.items) }
    ensures fails_for_memory_alone { IfErr result (λ e. e ≡ refusal.Memory) }
{
    match side {
        None => Ok(()),
        Some(side) => read_end(alloc, channel.place(side).link().saved(), snapshots),
    }
}

// Reads the node's end in a channel, where it has one. 60 where there is no memory.
fn read_channel<K: ChannelKeys + Copy>(
    alloc: Global,
    node: Node,
    channel: Option<&WorldChannel<K>>,
    snapshots: &mut Vec<ChannelSnapshot>,
) -> Result<(), Refusal>
    ensures read { OnOk result (snapshots.new.items
        ≡ snapshot_in node (option_copied channel.entry) snapshots.old.items) }
    ensures fails_for_memory_alone { IfErr result (λ e. e ≡ refusal.Memory) }
{
    match channel {
        None => Ok(()),
        Some(channel) => read_side(alloc, channel, channel.side_of(node), snapshots),
    }
}

// Reads all ends of a node, in the order of the channels' numbers. 60 where there is no memory.
fn read_all<K: ChannelKeys + Copy>(
    alloc: Global,
    node: Node,
    channels: &Channels<K>,
) -> Result<Vec<ChannelSnapshot>, Refusal>
    ensures snapshots { IfOk result (λ rs. rs.items ≡ snapshots_below 256 node channels.now.channels) }
    ensures fails_for_memory_alone { IfErr result (λ e. e ≡ refusal.Memory) }
{
    let mut snapshots = Vec::new(alloc);
    for number in 0..256u16 {
        read_channel(alloc, node, channels.channel(number as u8), &mut snapshots)?;
    }
    Ok(snapshots)
}

/// A node's book begins anew with what its ends have; settings stay. 60 where there is no memory.
pub(crate) fn begin_anew<K: ChannelKeys + Copy>(
    alloc: Global,
    node: &mut NodeBook,
    channels: &Channels<K>,
) -> Result<(), Refusal>
    ensures begun { OnOk result (node.new ≡ begun_anew channels.now.channels node.old) }
    ensures fails_for_memory_alone { IfErr result (λ e. e ≡ refusal.Memory) }
{
    let snapshots = read_all(alloc, node.node, channels)?;
    node.book.rebuild(alloc, snapshots.as_slice())
}

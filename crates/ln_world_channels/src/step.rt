//! What may happen to nodes and channels.

ghost use Rattle.ln_keys.specs.Partners.{ArePartners};

use ln_channel::Command;
use ln_close::Fees;
use ln_keys::ChannelKeys;
use ln_log::Limits;

/// A node, by its letter.
#[derive(Clone, Copy, PartialEq, Eq)]
pub struct Node {
    /// The letter, in ASCII. It is also the script of the node's `shutdown`.
    pub letter: u8,
}

/// A channel's end at a node.
#[derive(Clone, Copy, PartialEq, Eq)]
pub struct End {
    /// The node.
    pub node: Node,
    /// The channel's number.
    pub channel: u8,
}

/// The keys of a channel's two ends, which are partners: what either signs the other accepts.
#[derive(Drop)]
pub struct Partners<K: ChannelKeys + Copy> {
    /// The keys of the node that opens the channel.
    pub funder: K,
    /// The keys of the other node.
    pub fundee: K,
    pub ghost partners: { ∥ ArePartners (K.signer funder) (K.signer fundee) ∥₁ },
}

/// A channel is opened (BOLT 2, "Channel Establishment v1").
#[derive(Drop)]
pub struct Open<K: ChannelKeys + Copy> {
    /// The channel's number.
    pub channel: u8,
    /// The node that opens and pays for it.
    pub funder: Node,
    /// The other node.
    pub fundee: Node,
    /// What the funder pays in, in satoshis.
    pub satoshis: u64,
    /// What of that the fundee has at first, in msat.
    pub push: u64,
    /// The keys of both ends.
    pub keys: Partners<K>,
}

/// What a channel end does.
#[derive(Drop)]
pub enum Act {
    /// It takes the oldest message in flight to it.
    Deliver,
    /// It is given a command.
    Send(Command),
}

/// Which record a store has of an end after a save that failed.
#[derive(Clone, Copy, PartialEq, Eq)]
pub enum RecordLeft {
    /// That of the end as it was before its act.
    Old,
    /// That of the end as its act leaves it.
    New,
}

/// What may happen in a world of nodes and channels.
#[derive(Drop)]
pub enum Step<K: ChannelKeys + Copy> {
    /// What closing fees a node takes in the channels that are opened from now on.
    Fees(Node, Fees),
    /// What a node asks of the HTLCs that it is offered in the channels that are opened from now on.
    Limits(Node, Limits),
    /// A channel is opened.
    Open(Open<K>),
    /// A channel's end acts.
    Do(End, Act),
    /// An end loses its connection, and what is in flight to it.
    Down(End),
    /// A channel's end has no memory for what it is to do, where it can act so: nothing of that is begun, the end loses
    /// its connection, and what is in flight to it, and answers nothing until it reloads or its node restarts.
    NoMemory(End, Act),
    /// The save of what a channel's end comes to by an act fails, where it can act so: nothing is handed out, and the
    /// end halts as where it has no memory. Its store has the record that is named.
    SaveFails(End, Act, RecordLeft),
    /// A node restarts: each of its ends comes back from its record, without a connection, and what is in flight to it
    /// is lost.
    Restart(Node),
    /// An end that has halted comes back from its record while its node goes on, without a connection, and what is in
    /// flight to it is lost.
    Reload(End),
    /// A node stops before an end of it acts, where that can act: the act isn't begun, and the node restarts.
    StopBefore(End, Act),
    /// A node stops as an end of it has acted and saved, where that can act: what the act hands out is lost, and the
    /// node restarts.
    StopAfter(End, Act),
    /// Both ends of the channel with this number get a connection.
    Up(u8),
}

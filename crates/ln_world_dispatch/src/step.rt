//! What may happen to nodes.

use ln_close::Fees;
use ln_keys::ChannelKeys;
use ln_log::Limits;
use ln_world_channels::{Act, End, Node, Open, RecordLeft};

/// What may happen in a world of nodes: what `ln_world_channels::Step` says, and to dispatchers what is said here.
#[derive(Drop)]
pub enum Step<K: ChannelKeys + Copy> {
    Fees(Node, Fees),
    Limits(Node, Limits),
    Open(Open<K>),
    Do(End, Act),
    Down(End),
    /// The end's dispatcher goes on.
    NoMemory(End, Act),
    /// The end's dispatcher goes on.
    SaveFails(End, Act, RecordLeft),
    /// The node's dispatchers give up their hooks, and begin at the first undecided event.
    Restart(Node),
    /// The end's dispatcher goes on, with its hooks.
    Reload(End),
    StopBefore(End, Act),
    StopAfter(End, Act),
    Up(u8),
    /// The dispatcher of an end serves the end's next event: each of its hooks is called on it.
    Dispatch(End),
    /// The hook at this place of the list that was handed in serves an end from its next event on.
    Register(End, usize),
}

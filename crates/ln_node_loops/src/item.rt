//! What a worker takes.

use ln_channel::Command;
use ln_msgs::Message;

/// An item of a worker's relay. Its `J` is what joins: in the relay the writer of a connection, in a turn the message
/// that greets the peer.
#[derive(Drop)]
pub enum Item<J: Drop> {
    /// There is a connection.
    Joined(J),
    /// A message came.
    Read(Message),
    /// The connection is lost.
    Broken,
    /// The link is told to do this.
    Order(Command),
    /// The last item.
    Stop,
}

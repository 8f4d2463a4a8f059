//! What is noted for whoever watches a node.

use crate::notice::Notice;
use ln_msgs::Message;

/// What a worker notes, turn by turn.
#[derive(Drop)]
pub enum Noted {
    /// The peer's init, by which its connection is open.
    Meets(Message),
    /// What has become of the end, or of its connection.
    Tells(Notice),
}

impl Noted {
    ghost use Rattle.std.specs.Prelude.{◌≡◌};
    ghost use Rattle.ln_node_loops.specs.Noted.{init_of};

    /// The peer's init, where it is noted.
    pub fn into_init(self) -> Option<Message>
        ensures { result ≡ init_of self }
    {
        match self {
            Noted::Meets(init) => Some(init),
            Noted::Tells(_) => None,
        }
    }
}

//! A node of a payment channel network, in threads over sockets.
#![tactic(auto)]

mod answers;
mod asking;
mod book;
mod channel;
mod greeting;
mod held;
mod node;
mod node_book;
mod notices;
mod observed;
mod observer;
mod opening;
mod peer;
mod reader;
mod seat;
mod signing;
mod socket;
mod start;
mod stored;
mod trace;
mod wakeup;
mod wakeups;
mod watch;

pub use answers::Answer;
pub use asking::Ticket;
pub use book::SharedBook;
pub use greeting::Greeting;
pub use ln_book_tables::HeldHtlc;
pub use ln_node_loops::{
    Books, Closes, End, Item, Noted, Notice, Orders, PeerFeatures, ReadsEnds, SavedLink, Table,
    Task, Wire, Worker, WorkerLoop, dispatch_loop, hooks_follow, offers, reader_loop, worker_loop,
    worker_turn,
};
pub use ln_watch::{
    ChannelState, ChannelSummary, Counters, Decided, HtlcStage, LiveHtlc, LiveHtlcs,
};
pub use node::Node;
pub use signing::Signing;
pub use socket::Socket;
pub use stored::Stored;
pub use trace::{Step, Trace};

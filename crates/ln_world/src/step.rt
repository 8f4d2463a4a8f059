//! What may happen to nodes.

use ln_book_tables::Invoice;
use ln_channel::Command;
use ln_close::Fees;
use ln_forward::Policy;
use ln_hooks::Verdict;
use ln_keys::ChannelKeys;
use ln_log::Limits;
use ln_world_dispatch::{End, Node, Open};

/// What a channel end does.
#[derive(Drop)]
pub enum Act {
    /// It takes the oldest message in flight to it.
    Deliver,
    /// It is given a command. A decision, and that a result is forgotten, are the book's to command: nobody sends them.
    Send(Command),
    /// It is given the first command that its node's book has for it.
    Take,
    /// Its first undecided event, where its dispatcher has served that, is decided by the node's book; then it is given
    /// the first command of the book, a decision before all others.
    Decide,
    /// What it holds by the number of this event is decided by its node's book, by what is said of it now; then it is
    /// given the first command of the book. Where the book knows of nothing that is held so, it is refused (40).
    Resume(u64, Verdict),
}

/// What may happen in a world of nodes: what `ln_world_dispatch::Step` says, and to books what is said here.
#[derive(Drop)]
pub enum Step<K: ChannelKeys + Copy> {
    Fees(Node, Fees),
    Limits(Node, Limits),
    /// What a node asks for a payment that it forwards, by each of its channels.
    Policy(Node, Policy),
    /// The block height that a node knows of; one above 400,000,000 is none, and changes nothing.
    Height(Node, u32),
    /// A node waits for a payment.
    Expect(Node, Invoice),
    Open(Open<K>),
    Do(End, Act),
    Down(End),
    /// The command that the end was to take stays in the book.
    NoMemory(End, Act),
    /// The node's book begins anew with what the ends have.
    Restart(Node),
    /// An end that has halted comes back from its record beside its node's book, which goes on and hears what the end
    /// has kept.
    Reload(End),
    StopBefore(End, Act),
    StopAfter(End, Act),
    Up(u8),
    Dispatch(End),
    Register(End, usize),
}

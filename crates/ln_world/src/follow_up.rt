//! What the books of nodes have to do after a step.

use ln_world_dispatch::{Choice, End, Node};

/// What a book has asked of an end.
#[derive(Clone, Copy, PartialEq, Eq)]
pub struct PendingAnswer {
    /// The HTLC or the event that its command is about.
    pub command_subject: u64,
    /// Of a decision what a report tells of it, once it is taken.
    pub noted: Option<DecisionNote>,
}

/// A decision, by what a report tells of it: the event's number, and what is done about it.
#[derive(Clone, Copy, PartialEq, Eq)]
pub enum DecisionNote {
    /// The event was decided.
    Decided(u64, Choice),
    /// What was held by it was decided.
    Resumed(u64, Choice),
}

/// What the books have to do after a step.
#[derive(Clone, Copy, PartialEq, Eq)]
pub enum FollowUp {
    /// Nothing: the step is no matter of books, or couldn't be taken.
    None,
    /// Something was set for a node, whose book follows its ends.
    Set(Node),
    /// An end acts that had told so many events: its book hears what the end answers to what it has asked, and what
    /// the end has come to hold.
    Act(End, u64, Option<PendingAnswer>),
    /// An end has lost its connection, or has come back from its record: its book is told what it has kept.
    Disconnected(End),
    /// An end halts; whether a command of its book was handed out, which stays there.
    Halt(End, bool),
    /// The book has refused to decide what an end holds (40).
    Refuse(End),
    /// A node restarts: its book begins anew.
    Restart(Node),
    /// The ends of the channel with this number get a connection.
    Meet(u8),
}

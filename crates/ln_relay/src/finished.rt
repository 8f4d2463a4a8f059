//! What is known when all seats of a relay have come together.

/// How many items went through a relay.
#[derive(Clone, Copy, PartialEq, Eq)]
pub struct Finished {
    /// Put by the first sender.
    pub put_first: u64,
    /// Put by the second sender.
    pub put_second: u64,
    /// Taken by the receiver.
    pub taken: u64,
}

//! What words ask for, or why they ask for nothing.

use std::alloc::AllocError;

/// What the words of the command line ask for.
#[derive(Drop)]
pub enum Asked {
    /// `answer`: answer the pings on standard input.
    Answer,
    /// `decode` and a text: print the message that this text spells in hexadecimal.
    Decode(String),
    /// `demo`: three nodes in this process, a payment over the middle one, and the close of both channels.
    Demo,
    /// `sim`: run the script on standard input.
    Simulate,
    /// `--help` or `-h`, of the program or after a command: print this text.
    Help(String),
}

/// Why words ask for nothing.
#[derive(Drop)]
pub enum Unasked {
    /// They are no command. The text says why and what is one, and ends in a line feed.
    Usage(String),
    /// There is no memory to read them.
    Memory,
}

impl From<AllocError> for Unasked {
    fn from(_error: AllocError) -> Unasked {
        Unasked::Memory
    }
}

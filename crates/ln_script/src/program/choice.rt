//! What there is to run.

/// What to run.
#[derive(Drop, PartialEq, Eq)]
pub enum Choice {
    /// Answer the pings on standard input.
    Answer,
    /// Print the message that this text spells in hexadecimal.
    Decode(String),
    /// Run the script on standard input.
    Simulate,
}

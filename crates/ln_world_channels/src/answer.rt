//! What a link answers to a message, a command or a connection.

use ln_channel::Output;
use ln_refusals::Refusal;

/// What a link answers, but for want of memory.
#[derive(Drop)]
pub enum Answer {
    /// It did what it was told, and hands this out.
    Done(Vec<Output>),
    /// It refused.
    Refused(Refusal),
}

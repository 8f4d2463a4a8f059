//! How a peer is told that its message is refused.

ghost use Rattle.std.specs.Prelude.{◌≡◌, IfOk};
ghost use Rattle.ln_msgs.specs.Messages.Reply.{text_of_number};

use crate::messages::message::Message;
use crate::messages::records::Records;
use crate::messages::setup::{Error, Warning};
use ln_bytes::Bytes;
use ln_refusals::Refusal;
use std::alloc::{AllocError, Global};

impl Message {
    ghost use Rattle.std.specs.Prelude.{◌≡◌, ◌≢◌, None, option_map, IfOk, IfErr};
    ghost use Rattle.ln_msgs.specs.Messages.Reply.{reply_to};
    ghost use Rattle.ln_msgs.specs.Messages.Typed.{wire};

    /// What a peer is sent whose message for this channel is refused so (BOLT 1, "The `error` and `warning`
    /// Messages"): an error for 20 to 35, a warning for 36, and nothing for the others. Its bytes are the ASCII
    /// text `refused` and the number, with one blank between; it has no records.
    ///
    /// Takes memory for that text. The only error is 60, where there is none.
    pub fn reply_to(
        alloc: Global,
        refusal: Refusal,
        channel_id: &[u8; 32],
    ) -> Result<Option<Message>, Refusal>
        ensures is_the_reply { IfOk result (λ m. option_map wire m ≡ reply_to refusal channel_id.now) }
        ensures fails_for_memory_alone { IfErr result (λ e. (e ≡ Refusal.Memory)
            × (reply_to refusal channel_id.now ≢ None)) }
    {
        let number = refusal.number();
        match number {
            20..=35 => {
                let bytes = refused_text(alloc, number)?;
                Ok(Some(Message::Error(Error {
                    channel_id: *channel_id,
                    bytes,
                    records: Records::empty(alloc),
                })))
            }
            36 => {
                let bytes = refused_text(alloc, number)?;
                Ok(Some(Message::Warning(Warning {
                    channel_id: *channel_id,
                    bytes,
                    records: Records::empty(alloc),
                })))
            }
            _ => Ok(None),
        }
    }
}

/// The text by which a refusal of this number is told.
fn refused_text(alloc: Global, number: u16) -> Result<Bytes, AllocError>
    ensures { IfOk result (λ text. text ≡ text_of_number number) }
{
    let text = format!(in alloc; "refused {number}")?;
    Ok(Bytes::new(text.into_bytes()))
}

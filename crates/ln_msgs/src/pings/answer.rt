//! The answerer of pings.

ghost use Rattle.std.specs.Prelude.{◌≡◌, ◌≢◌, ◌^◌, ◌+◌, ◌-◌, ◌<◌, ◌≤◌, ◌⊎◌, length, drop, IfOk, IfSome, IfErr, IsErrOf};
ghost use Rattle.ln_msgs.specs.Pings.Answer.{owed_at, asked_at, other_asked_at};
ghost use Rattle.ln_msgs.specs.Messages.Table.{ping_form};
ghost use Rattle.ln_msgs.specs.Pings.Served.{Serves, StopsAt};
ghost use Rattle.ln_msgs.specs.Pings.Answered.{AnswersAll, AnswersUpTo, AnswersSome};
ghost use Rattle.ln_msgs.specs.Pings.Counted.{HasRisen};
ghost use Rattle.ln_msgs.specs.Pings.CountedView.{inner_of, failures_of, calls_of};

use crate::codec::checking::check_payload;
use crate::codec::field::{sized_at, u16_at};
use crate::frames::frame::next_frame;
use crate::messages::records::check_records;
use crate::pings::counted::Counted;
use crate::pings::outgoing::{FULL, NO_PONG, Outgoing};
use crate::pings::window::Window;
use ln_bytes::Fault;
use std::alloc::Global;
use std::io::{Read, Write};

/// Why no further frame of a piece was served.
#[derive(Clone, Copy)]
pub(crate) enum Stop {
    /// No whole frame is left.
    NoFrame,
    /// So much waits to be written that it has to be written first.
    Full,
    /// The next message is refused.
    Fault(Fault),
}

/// Serves the whole frames at the front of the bytes, until so much waits that it has to be written. Answers
/// how many bytes they took, and why it stopped.
fn serve(bytes: &[u8], out: &mut Outgoing) -> (usize, Stop)
    requires { out.old.pongs < 2 ^ 64 }
    ensures takes_no_more_than_there_is { result.0 ≤ length bytes.now }
    ensures serves_whole_frames { Serves bytes.now (drop result.0 bytes.now) out.old out.new }
    ensures stops_for_its_reason { StopsAt (drop result.0 bytes.now) result.1 }
    ensures waits_for_a_write_if_full { result.1 ≡ Stop.Full → FULL ≤ length out.new.bytes }
{
    let mut rest = bytes;
    'frames: while !out.is_full() {
        let Some((message, after)) = next_frame(rest) else {
            return (bytes.len() - rest.len(), Stop::NoFrame);
        };
        let owed = match pong_owed(message) {
            Ok(owed) => owed,
            Err(fault) => return (bytes.len() - rest.len(), Stop::Fault(fault)),
        };
        if let Some(count) = owed {
            out.push_pong(count);
        }
        rest = after;
    }
    (bytes.len() - rest.len(), Stop::Full)
}

/// Answers each ping of a stream of frames by its pong (BOLT 1, "The `ping` and `pong` Messages").
///
/// The input is frames up to its end: two bytes of length, and a message of that many bytes. A ping that asks for
/// fewer than 65,532 bytes is answered by the frame of a pong of that many zero bytes; other messages are read
/// past. Answers how many pongs were written, 2^64 - 1 for more.
///
/// It holds 262,144 bytes of input and 196,609 bytes of pongs at most, whatever the length of the input. It takes
/// memory for both at its beginning, and none after: messages are checked where they lie. It reads and writes in
/// large pieces, and has written and flushed every pong that is owed before each read, so that it serves a connection
/// whose other end waits.
///
/// Refuses the first message that can't be read, by its first fault (1 to 6, or 8), and an input that ends inside
/// a frame (1); all pongs owed before that are written. 60 where there is no memory: then nothing was read or written.
/// 63 where a read, a write or a flush failed: then a beginning of the pongs owed is written. 63 also where 2^64 - 1
/// calls of the reader and the writer were made.
pub fn answer_pings<R: Read, W: Write>(
    alloc: Global,
    reader: &mut Counted<R>,
    writer: &mut Counted<W>,
) -> Result<u64, Fault>
    // All is answered.
    ensures answers_all { IfOk result (AnswersAll (R.remaining (inner_of reader.old))
        (R.remaining (inner_of reader.new)) (W.contents (inner_of writer.old)) (W.contents (inner_of writer.new))) }

    // All is answered up to the first fault.
    ensures answers_up_to_the_fault { IfErr result (λ e. e ≢ Fault.Memory → e ≢ Fault.Io
        → AnswersUpTo (R.remaining (inner_of reader.old)) (R.remaining (inner_of reader.new))
        (W.contents (inner_of writer.old)) (W.contents (inner_of writer.new)) e) }

    // At any refusal a beginning is answered.
    ensures answers_some_if_refused { IfErr result
        (λ _. AnswersSome (R.remaining (inner_of reader.old)) (R.remaining (inner_of reader.new))
        (W.contents (inner_of writer.old)) (W.contents (inner_of writer.new))) }

    // Memory is wanted before anything else.
    ensures changes_nothing_without_memory { IsErrOf result Fault.Memory → (reader.new ≡ reader.old)
        × (writer.new ≡ writer.old) }

    // 63 comes only where a call failed, or where 2^64 - 1 calls were made.
    ensures io_is_a_failed_call { IsErrOf result Fault.Io → HasRisen (failures_of reader.old) (failures_of reader.new)
        ⊎ HasRisen (failures_of writer.old) (failures_of writer.new)
        ⊎ (2 ^ 64 - 1 ≤ calls_of reader.new + calls_of writer.new) }
{
    let mut input = Window::new(alloc)?;
    let mut out = Outgoing::new(alloc)?;
    'turns: for _ in 0..u64::MAX {
        let (taken, stop) = serve(input.as_slice(), &mut out);
        input.consume(taken);
        out.send(writer)?;
        match stop {
            Stop::Fault(fault) => return Err(fault),
            Stop::Full => {}
            Stop::NoFrame => {
                if !input.fill(reader)? {
                    if input.as_slice().is_empty() {
                        return Ok(out.pongs());
                    }
                    return Err(Fault::Truncated);
                }
            }
        }
    }
    Err(Fault::Io)
}

/// How many zero bytes of pong a message asks for; none where no pong is owed for it. Takes no memory.
#[tactic(auto, unfolding(crate::specs::Pings::Answer::owed_at, crate::specs::Messages::Message::message_at))]
fn pong_owed(message: &[u8]) -> Result<Option<u16>, Fault>
    requires { length message.now < 65536 }
    ensures reads_what_is_owed { result ≡ owed_at message.now }
    ensures asks_for_a_pong { IfOk result (λ o. IfSome o (λ n. n < NO_PONG)) }
{
    let (typ, payload) = u16_at(message)?;
    match typ {
        18 => ping_asks(payload),
        _ => other_asks(typ, payload),
    }
}

/// A message of another type asks for nothing.
fn other_asks(typ: u16, payload: &[u8]) -> Result<Option<u16>, Fault>
    requires { typ ≢ 18 }
    ensures reads_what_is_owed { result ≡ other_asked_at typ payload.now }
    ensures asks_for_a_pong { IfOk result (λ o. IfSome o (λ n. n < NO_PONG)) }
{
    check_payload(typ, payload)?;
    Ok(None)
}

#[tactic(auto, unfolding(crate::specs::Messages::Message::formed_at))]
fn ping_asks(payload: &[u8]) -> Result<Option<u16>, Fault>
    ensures reads_what_is_owed { result ≡ asked_at ping_form 18 payload.now }
    ensures asks_for_a_pong { IfOk result (λ o. IfSome o (λ n. n < NO_PONG)) }
{
    let (count, rest) = u16_at(payload)?;
    let (_ignored, rest) = sized_at(rest)?;
    check_records(rest, &[], &[])?;
    Ok(if count < NO_PONG { Some(count) } else { None })
}

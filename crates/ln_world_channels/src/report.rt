//! What is told of what a link hands out, and of what it refuses.

ghost use Rattle.std.specs.Prelude.{◌≡◌, ◌++◌, ◌∷◌, [], IfOk, IfErr, OnOk};
ghost use Rattle.ln_refusals.specs.declared.refusal.Refusal.TheVariants as refusal;
ghost use Rattle.ln_world_channels.specs.Lines.{word_of, ending_of, event_line, sends_line, line_of, lines_of};
ghost use Rattle.ln_world_channels.specs.Lines.{reply_of, one_or_none, reply_lines};
ghost use Rattle.ln_refusals.specs.Refusal.{refusal_number};
ghost use Rattle.ln_world_channels.specs.declared.line.Line.TheVariants as line;

use crate::line::{Ending, Line, Word};
use crate::step::End;
use ln_channel::Output;
use ln_dance::Numbers;
use ln_hooks::{ChannelEvent, How};
use ln_msgs::Message;
use ln_refusals::Refusal;
use std::alloc::Global;

// An error and a warning tell of none.
const NO_NUMBERS: Numbers = Numbers {
    commitment: 0,
    signed: 0,
    revoked: 0,
};

/// How a message is told whose sender has these numbers now.
fn word_of(numbers: Numbers, message: &Message) -> Option<Word>
    ensures { result ≡ word_of numbers message.now }
{
    match message {
        Message::ChannelReady(_) => Some(Word::ChannelReady),
        Message::UpdateAddHtlc(add) => Some(Word::Add(add.id)),
        Message::UpdateFulfillHtlc(fulfil) => Some(Word::Fulfil(fulfil.id)),
        Message::UpdateFailHtlc(fail) => Some(Word::Fail(fail.id)),
        Message::UpdateFailMalformedHtlc(malformed) => Some(Word::Malformed(malformed.id)),
        Message::UpdateFee(fee) => Some(Word::Fee(fee.feerate_per_kw)),
        Message::CommitmentSigned(_) => Some(Word::Sign(numbers.signed)),
        Message::RevokeAndAck(_) => Some(Word::Revoke(numbers.commitment.saturating_sub(1))),
        Message::ChannelReestablish(again) => Some(Word::Reestablish(
            again.next_commitment_number,
            again.next_revocation_number,
        )),
        Message::Shutdown(_) => Some(Word::Shutdown),
        Message::ClosingSigned(closing) => Some(Word::Closing(closing.fee_satoshis)),
        Message::Warning(_) => Some(Word::Warning),
        Message::Error(_) => Some(Word::Error),
        _ => None,
    }
}

fn ending_of(how: &How) -> Ending
    ensures { result ≡ ending_of how.now }
{
    match how {
        How::Fulfilled(_) => Ending::Fulfilled,
        How::Failed(_) => Ending::Failed,
        How::Malformed(_, _) => Ending::Malformed,
    }
}

fn event_line(end: End, number: u64, event: &ChannelEvent) -> Line
    ensures { result ≡ event_line end number event.now }
{
    match event {
        ChannelEvent::Added { own, id, .. } => Line::Added {
            end,
            number,
            own: *own,
            id: *id,
        },
        ChannelEvent::Settled { own, id, how } => Line::Settled {
            end,
            number,
            own: *own,
            id: *id,
            how: ending_of(how),
        },
        ChannelEvent::Closed(fee) => Line::Closed {
            end,
            number,
            fee: *fee,
        },
    }
}

/// Tells of a message.
fn report_message(
    end: End,
    numbers: Numbers,
    message: &Message,
    lines: &mut Vec<Line>,
) -> Result<(), Refusal>
    ensures told { OnOk result (lines.new.items ≡ lines.old.items ++ sends_line end (word_of numbers message.now)) }
    ensures fails_for_memory_alone { IfErr result (λ e. e ≡ refusal.Memory) }
{
    match word_of(numbers, message) {
        Some(word) => lines.push(Line::Sends(end, word))?,
        None => {}
    }
    Ok(())
}

fn report_output(
    end: End,
    numbers: Numbers,
    output: &Output,
    lines: &mut Vec<Line>,
) -> Result<(), Refusal>
    ensures told { OnOk result (lines.new.items ≡ lines.old.items ++ line_of end numbers output.now) }
    ensures fails_for_memory_alone { IfErr result (λ e. e ≡ refusal.Memory) }
{
    match output {
        Output::Send(message) => report_message(end, numbers, message, lines),
        Output::Event(number, event) => {
            lines.push(event_line(end, *number, event))?;
            Ok(())
        }
        Output::Signed(_) => Ok(()),
        Output::Committed { .. } => Ok(()),
        Output::Closed(_) => Ok(()),
    }
}

/// Tells of what an end hands out that has these numbers now. 60 where there is no memory.
pub(crate) fn report_outputs(
    end: End,
    numbers: Numbers,
    outputs: &[Output],
    lines: &mut Vec<Line>,
) -> Result<(), Refusal>
    ensures told { OnOk result (lines.new.items ≡ lines.old.items ++ lines_of end numbers outputs.now) }
    ensures fails_for_memory_alone { IfErr result (λ e. e ≡ refusal.Memory) }
{
    for output in outputs {
        report_output(end, numbers, output, lines)?;
    }
    Ok(())
}

/// Tells that an end refuses, and what it answers its peer then. 60 where there is no memory.
pub(crate) fn report_refusal(
    end: End,
    why: Refusal,
    reply: &Option<Message>,
    lines: &mut Vec<Line>,
) -> Result<(), Refusal>
    ensures told { OnOk result (lines.new.items
        ≡ lines.old.items ++ line.Refused end why ∷ reply_lines end (one_or_none reply.now)) }
    ensures fails_for_memory_alone { IfErr result (λ e. e ≡ refusal.Memory) }
{
    lines.push(Line::Refused(end, why))?;
    match reply {
        Some(message) => report_message(end, NO_NUMBERS, message, lines),
        None => Ok(()),
    }
}

/// What the peer is sent, where an end refuses in the channel of this id. 60 where there is no memory.
pub(crate) fn reply_of(
    alloc: Global,
    id: &[u8; 32],
    why: Refusal,
) -> Result<Option<Message>, Refusal>
    ensures reply { IfOk result (λ m. m ≡ reply_of id.now (refusal_number why)) }
    ensures fails_for_memory_alone { IfErr result (λ e. e ≡ refusal.Memory) }
{
    Message::reply_to(alloc, why, id)
}

//! The key-values of a step.

ghost use Rattle.std.specs.Prelude.{◌≡◌, option_map};
ghost use Rattle.ln_trace.specs.Saves.{error_text};
ghost use Rattle.ln_trace.specs.Steps.{message_pair, number_pair, notice_error, error_pair, message_text, number_text};

use crate::one_line::OneLine;
use crate::saves::save_error;
use ln_node::{Notice, Step};
use log::kv::{Error, Source, ToValue, VisitSource, display};

/// The key-values of a step of the channel of this number.
#[derive(Clone, Copy)]
pub struct StepPairs<'a> {
    /// The channel's number.
    pub channel: usize,
    /// The step.
    pub step: &'a Step,
}

// A message's text.
fn message_of(step: &Step) -> Option<&str>
    ensures { option_map message_text result ≡ message_pair step.now }
{
    match step {
        Step::Took(text) | Step::Sent(text) => Some(text.as_str()),
        _ => None,
    }
}

// How many bytes were to be saved, which order was refused, which event is held.
fn number_of(step: &Step) -> Option<(&'static str, u64)>
    ensures { option_map number_text result ≡ number_pair step.now }
{
    match step {
        Step::Saved(bytes, _) => Some(("bytes", *bytes as u64)),
        Step::Noticed(Notice::OrderRefused(order, _)) => Some(("order", *order)),
        Step::Noticed(Notice::Held(event)) => Some(("event", *event)),
        _ => None,
    }
}

// The number of a notice's refusal or fault.
fn notice_error(notice: &Notice) -> Option<u16>
    ensures { option_map error_text result ≡ notice_error notice.now }
{
    match notice {
        Notice::Ended(Err(fault)) => Some(fault.number()),
        Notice::Refused(refusal) | Notice::OrderRefused(_, refusal) => Some(refusal.number()),
        _ => None,
    }
}

// The number of a step's refusal or fault.
fn error_of(step: &Step) -> Option<u16>
    ensures { option_map error_text result ≡ error_pair step.now }
{
    match step {
        Step::Saved(_, answer) => save_error(answer),
        Step::Noticed(notice) => notice_error(notice),
        _ => None,
    }
}

impl Source for StepPairs<'_> {
    ghost use Rattle.std.specs.Prelude.{Some};
    ghost use Rattle.ln_trace.specs.Steps.{step_pairs};

    ghost pairs = { λ it. Some (step_pairs it.channel it.step.now) };

    fn visit<V: VisitSource>(&self, visitor: &mut V) -> Result<(), Error> {
        visitor.visit_pair("channel", self.channel.to_value())?;
        if let Some(text) = message_of(self.step) {
            visitor.visit_pair("message", display(OneLine(text)).to_value())?;
        }
        if let Some((key, number)) = number_of(self.step) {
            visitor.visit_pair(key, number.to_value())?;
        }
        if let Some(number) = error_of(self.step) {
            visitor.visit_pair("error", number.to_value())?;
        }
        Ok(())
    }
}

//! Each step of a trace as a record of `log`.

ghost use Rattle.std.specs.Prelude.{◌≡◌};
ghost use Rattle.log.specs.Record.{record_metadata, record_args, record_key_values, metadata_level, metadata_target};
ghost use Rattle.ln_trace.specs.Steps.{notice_level, step_level, step_target, notice_words, step_words};

use crate::saves::{save_level, save_words};
use crate::step_pairs::StepPairs;
use ln_node::{Notice, Step, Trace};
use log::kv::Source;
use log::{Level, Log, Metadata, Record, warn};

/// The target of messages that a channel's link took or handed out.
pub const MESSAGE: &str = "lnlink::message";

/// The target of saves, as a node traces them.
pub const SAVE: &str = "lnlink::save";

/// The target of notices.
pub const NOTICE: &str = "lnlink::notice";

/// The target of what tells how many steps were lost.
pub const LOST: &str = "lnlink::lost";

fn notice_level(notice: &Notice) -> Level
    ensures { result ≡ notice_level notice.now }
{
    match notice {
        Notice::OrderRefused(..) => Level::Debug,
        Notice::Refused(_) | Notice::Halted => Level::Warn,
        _ => Level::Info,
    }
}

fn level_of(step: &Step) -> Level
    ensures { result ≡ step_level step.now }
{
    match step {
        Step::Took(_) | Step::Sent(_) => Level::Trace,
        Step::Saved(_, answer) => save_level(answer),
        Step::Noticed(notice) => notice_level(notice),
    }
}

fn target_of(step: &Step) -> &'static str
    ensures { result.now ≡ step_target step.now }
{
    match step {
        Step::Took(_) | Step::Sent(_) => MESSAGE,
        Step::Saved(..) => SAVE,
        Step::Noticed(_) => NOTICE,
    }
}

fn notice_words(notice: &Notice) -> &'static str
    ensures { result.now ≡ notice_words notice.now }
{
    match notice {
        Notice::Ended(_) => "connection ended",
        Notice::NoInit => "no init",
        Notice::Met => "peer met",
        Notice::Refused(_) => "refused",
        Notice::OrderRefused(..) => "order refused",
        Notice::Halted => "halted",
        Notice::Loaded => "loaded",
        Notice::Held(_) => "payment held",
    }
}

fn words_of(step: &Step) -> &'static str
    ensures { result.now ≡ step_words step.now }
{
    match step {
        Step::Took(_) => "took",
        Step::Sent(_) => "sent",
        Step::Saved(_, answer) => save_words(answer),
        Step::Noticed(notice) => notice_words(notice),
    }
}

/// A step of the channel of this number, as it is logged: what the table of this crate says of it. Takes no memory.
pub fn step_record(channel: usize, step: &Step) -> Record<'static, &'static str, StepPairs<'_>>
    ensures has_its_level { metadata_level (record_metadata result) ≡ step_level step.now }
    ensures has_its_target { metadata_target (record_metadata result) ≡ step_target step.now }
    ensures says_what_it_is { (record_args result).now ≡ step_words step.now }
    ensures tells_of_its_channel { (record_key_values result).channel ≡ channel }
    ensures tells_of_it { (record_key_values result).step.now ≡ step.now }
{
    let metadata = Metadata::new(level_of(step), target_of(step));
    Record::new(metadata, words_of(step), StepPairs { channel, step }, ())
}

// Logs a record where its level is on.
fn log_record<R: Log, K: Source>(rt: &R, record: &Record<'_, &'static str, K>) {
    if rt.enabled(record.metadata()) {
        rt.log(record);
    }
}

/// Logs what `Node::traced` gave, as it stands: each step as `step_record` has it, and last, where steps were lost, how
/// many. A log has no answer: what its sink drops is gone, and only who calls this waits for a sink that waits. Takes
/// no memory of its own.
pub fn log_trace<R: Log>(rt: &R, trace: &Trace) {
    for (channel, step) in &trace.steps {
        log_record(rt, &step_record(*channel, step));
    }
    if trace.lost > 0 {
        warn!(*rt; target: LOST, count = trace.lost; "steps lost");
    }
}

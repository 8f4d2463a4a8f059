//! What a worker reports to the book of its node. Where there is no memory for it, it yields and tries again.

ghost use Rattle.std.specs.Prelude.{◌≡◌, ◌++◌, ◌∷◌, []};
ghost use Rattle.ln_book.specs.Saying.{settled};
ghost use Rattle.ln_node_loops.specs.Owed.{is_settled, settled_word, settled_words, kept_word, use_word};
ghost use Rattle.ln_node_loops.specs.Turns.{events};

use crate::books::{Books, ReadsEnds};
use crate::end::End;
use ln_channel::Output;
use ln_hooks::ChannelEvent;
use ln_log::ChannelId;
use std::alloc::Global;
use std::sync::Wait;
use std::thread;

// ---- what has become of HTLCs

fn is_settled(event: &ChannelEvent) -> bool
    ensures { result ≡ is_settled event.now }
{
    matches!(event, ChannelEvent::Settled { .. })
}

// Reports an HTLC's removal.
fn report_removal<B: Books, R: Wait>(
    rt: &R,
    alloc: Global,
    book: &mut B,
    channel: ChannelId,
    event: &ChannelEvent,
)
    ensures says_the_removal { B.said book.new ≡ B.said book.old ++ settled channel event.now ∷ [] }
    ensures notes_nothing { B.noted book.new ≡ B.noted book.old }
{
    for _ in rt.forever() {
        match book.settled(rt, alloc, channel, event) {
            Ok(()) => return,
            Err(_) => thread::yield_now(),
        }
    }
    unreachable!()
}

// Reports what has become of an HTLC, where an event says that.
fn report_settled<B: Books, R: Wait>(
    rt: &R,
    alloc: Global,
    book: &mut B,
    channel: ChannelId,
    event: &ChannelEvent,
)
    ensures says_what_is_settled { B.said book.new ≡ B.said book.old ++ settled_word channel event.now }
    ensures notes_nothing { B.noted book.new ≡ B.noted book.old }
{
    if is_settled(event) {
        report_removal(rt, alloc, book, channel, event);
    }
}

fn report_output<B: Books, R: Wait>(
    rt: &R,
    alloc: Global,
    book: &mut B,
    channel: ChannelId,
    output: &Output,
)
    ensures says_what_is_settled { B.said book.new
        ≡ B.said book.old ++ settled_words channel (events (output.now ∷ [])) }
    ensures notes_nothing { B.noted book.new ≡ B.noted book.old }
{
    match output {
        Output::Event(_, event) => report_settled(rt, alloc, book, channel, event),
        _ => {}
    }
}

// Reports what has become of HTLCs by these outputs.
pub(crate) fn report_outputs<B: Books, R: Wait>(
    rt: &R,
    alloc: Global,
    book: &mut B,
    channel: ChannelId,
    outputs: &[Output],
)
    ensures says_what_is_settled { B.said book.new ≡ B.said book.old ++ settled_words channel (events outputs.now) }
    ensures notes_nothing { B.noted book.new ≡ B.noted book.old }
{
    for output in outputs {
        report_output(rt, alloc, book, channel, output);
    }
}

// Reports what has become of HTLCs by these events.
pub(crate) fn report_events<B: Books, R: Wait>(
    rt: &R,
    alloc: Global,
    book: &mut B,
    channel: ChannelId,
    events: &[(u64, ChannelEvent)],
)
    ensures says_what_is_settled { B.said book.new ≡ B.said book.old ++ settled_words channel events.now }
    ensures notes_nothing { B.noted book.new ≡ B.noted book.old }
{
    for one in events {
        report_settled(rt, alloc, book, channel, &one.1);
    }
}

// ---- what an end has kept, and what it can take

// Reports what an end has kept after a lost connection or a load.
pub(crate) fn report_kept<E: End, B: ReadsEnds<E>, R: Wait>(
    rt: &R,
    alloc: Global,
    book: &mut B,
    end: &E,
)
    ensures says_what_is_kept { B.said book.new ≡ B.said book.old ++ kept_word (E.seen (E.state end.now)) }
    ensures notes_nothing { B.noted book.new ≡ B.noted book.old }
{
    for _ in rt.forever() {
        match book.dropped(rt, alloc, end) {
            Ok(()) => return,
            Err(_) => thread::yield_now(),
        }
    }
    unreachable!()
}

// Reports which payments an end takes.
pub(crate) fn report_use<E: End, B: ReadsEnds<E>, R: Wait>(rt: &R, book: &mut B, end: &E)
    ensures says_the_use { B.said book.new ≡ B.said book.old ++ use_word (E.seen (E.state end.now)) }
    ensures notes_nothing { B.noted book.new ≡ B.noted book.old }
{
    for _ in rt.forever() {
        match book.follow(rt, end) {
            Ok(()) => return,
            Err(_) => thread::yield_now(),
        }
    }
    unreachable!()
}

//! The loop of a dispatcher.

ghost use Rattle.std.specs.Prelude.{◌≡◌, ◌++◌, ◌∷◌, []};
ghost use Rattle.ln_book.specs.Saying.{decided};
ghost use Rattle.ln_node_loops.specs.Served.{Served, verdict_word};

use crate::books::Books;
use crate::task::Task;
use ln_hooks::{ChannelEvent, Table, Verdict};
use ln_log::ChannelId;
use ln_relay::Waits;
use std::alloc::Global;
use std::sync::Wait;
use std::thread;

// Registers a hook. Where there is no memory it yields and tries again.
fn register<H: Drop, T: Table<H>, R: Wait>(rt: &R, table: &mut T, hook: H)
    ensures { T.registers table.old hook table.new }
{
    let mut hook = hook;
    for _ in rt.forever() {
        match table.register(hook) {
            Ok(()) => return,
            Err(back) => hook = back,
        }
        thread::yield_now();
    }
    unreachable!()
}

// Hands a verdict to the book. Where there is no memory it yields and tries again.
fn decide<B: Books, R: Wait>(
    rt: &R,
    alloc: Global,
    book: &mut B,
    channel: ChannelId,
    number: u64,
    event: &ChannelEvent,
    verdict: Verdict,
)
    ensures says_the_verdict { B.said book.new ≡ B.said book.old ++ decided channel number event.now verdict ∷ [] }
{
    for _ in rt.forever() {
        match book.decide(rt, alloc, channel, number, event, verdict) {
            Ok(()) => return,
            Err(_) => thread::yield_now(),
        }
    }
    unreachable!()
}

// Hands a verdict to the book, where both have signed the channel's opening.
fn decide_if_signed<B: Books, R: Wait>(
    rt: &R,
    alloc: Global,
    book: &mut B,
    channel: Option<ChannelId>,
    number: u64,
    event: &ChannelEvent,
    verdict: Verdict,
)
    ensures { B.said book.new ≡ B.said book.old ++ verdict_word channel number event.now verdict }
{
    match channel {
        None => {}
        Some(channel) => decide(rt, alloc, book, channel, number, event, verdict),
    }
}

// Calls the hooks on an event, and hands what they say to the book.
fn dispatch<H: Drop, T: Table<H>, B: Books, R: Wait>(
    rt: &R,
    alloc: Global,
    table: &mut T,
    book: &mut B,
    channel: Option<ChannelId>,
    number: u64,
    event: &ChannelEvent,
) -> Verdict
    ensures calls { T.says table.old event.now result table.new }
    ensures says_the_verdict { B.said book.new ≡ B.said book.old ++ verdict_word channel number event.now result }
{
    let verdict = table.call(event);
    decide_if_signed(rt, alloc, book, channel, number, event, verdict);
    verdict
}

/// Serves the items of a dispatcher's relay until `Stop`, in order: calls the hooks once on each event and hands what
/// they say to the book, registers each hook. Gives its seat, its table and its handle of the book back. It waits where
/// there is no item, and tries again where there is no memory.
pub fn dispatch_loop<H, S, T, B, R>(rt: &R, alloc: Global, seat: S, table: T, book: B) -> (S, T, B)
where
    H: Drop,
    S: Waits<Task<H>>,
    T: Table<H>,
    B: Books,
    R: Wait,
    ensures serves_all_it_took { Served T.registers T.says table (S.taken seat) (S.taken result.0) result.1
        (B.said book) (B.said result.2) }
{
    let mut seat = seat;
    let mut table = table;
    let mut book = book;
    for _ in rt.forever() {
        match seat.recv_wait(rt) {
            Some(Task::Event(channel, number, event)) => {
                dispatch(rt, alloc, &mut table, &mut book, channel, number, &event);
                drop(event);
            }
            Some(Task::Register(hook)) => register(rt, &mut table, hook),
            Some(Task::Stop) => return (seat, table, book),
            None => thread::yield_now(),
        }
    }
    unreachable!()
}

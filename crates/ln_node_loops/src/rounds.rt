//! The loop of a worker.

ghost use Rattle.std.specs.Prelude.{◌≡◌, ◌++◌, ◌∷◌, [], true, false, not, ◌&&◌, ◌||◌};
ghost use Rattle.ln_relay.specs.Position.{WasEmpty};
ghost use Rattle.ln_node_loops.specs.Turns.{Ran, ReloadsIfHalted, Began, TakesNoStop, is_new, fresh, last_of, events};
ghost use Rattle.ln_node_loops.specs.Turns.{tasks, drops, is_stop};
ghost use Rattle.ln_book.specs.Seen.{channel_of};
ghost use Rattle.ln_node_loops.specs.Owed.{kept_if, settled_at, owed, load_words};
ghost use Rattle.ln_node_loops.specs.declared.item.Item.TheVariants as item;
ghost use Rattle.ln_node_loops.specs.WorkerLoop.{loop_state, refused_after};
ghost use Rattle.ln_node_loops.specs.Orders.{subject_in, reply_of, replies_to};
ghost use Rattle.ln_node_loops.specs.Noted.{meets, tells, tells_if, tells_refusal, became, became_unless, beside_reply};
ghost use Rattle.ln_node_loops.specs.Noted.{load_notes, awaits_init, is_unconnected};

use crate::books::ReadsEnds;
use crate::end::End;
use crate::features::PeerFeatures;
use crate::item::Item;
use crate::notice::Notice;
use crate::orders::Orders;
use crate::reader::put;
use crate::reports;
use crate::task::Task;
use crate::wire::Closes;
use crate::worker::{Phase, Turned, Worker};
use ln_book::{answer_to, command_subject, waits};
use ln_channel::{Command, Output};
use ln_hooks::ChannelEvent;
use ln_log::ChannelId;
use ln_msgs::Message;
use ln_refusals::Refusal;
use ln_relay::{Receives, Sends};
use std::alloc::Global;
use std::sync::Wait;

/// A worker with its seats: it takes from the first, puts events to the second, talks to the book by the third, and by
/// the fourth replies to orders and learns whether it is to sign by itself.
#[derive(Drop)]
pub struct WorkerLoop<E: Drop, W: Closes + Drop, I: Drop, T: Drop, B: Drop, A: Drop> {
    /// The worker.
    pub worker: Worker<E, W>,
    /// The receiver's seat of its relay.
    pub items: I,
    /// A sender's seat of its dispatcher's relay.
    pub tasks: T,
    /// A handle of the book.
    pub book: B,
    /// Where it replies to orders, and learns whether it is to sign by itself.
    pub orders: A,
}

// Whether an event with this number is new.
fn is_new(last: Option<u64>, number: u64) -> bool
    ensures { result ≡ is_new last number }
{
    match last {
        None => true,
        Some(last) => last < number,
    }
}

// Puts an event of a channel, where it is new. Gives the last number that was put.
fn put_event<H: Drop, T: Sends<Task<H>>, R: Wait>(
    rt: &R,
    seat: &mut T,
    channel: Option<ChannelId>,
    last: Option<u64>,
    number: u64,
    event: ChannelEvent,
) -> Option<u64>
    ensures put { T.put seat.new ≡ T.put seat.old ++ tasks channel (fresh last ((number, event) ∷ [])) }
    ensures last { result ≡ last_of last ((number, event) ∷ []) }
{
    if !is_new(last, number) {
        drop(event);
        return last;
    }
    put(rt, seat, Task::Event(channel, number, event));
    Some(number)
}

// Puts the events among an end's outputs that are new.
fn put_outputs<E: End, H: Drop, T: Sends<Task<H>>, R: Wait>(
    rt: &R,
    seat: &mut T,
    end: &E,
    last: Option<u64>,
    outputs: Vec<Output>,
) -> Option<u64>
    ensures put { T.put seat.new
        ≡ T.put seat.old ++ tasks (channel_of (E.seen (E.state end.now))) (fresh last (events outputs.items)) }
    ensures last { result ≡ last_of last (events outputs.items) }
{
    let channel = end.channel();
    let mut last = last;
    for output in outputs {
        match output {
            Output::Event(number, event) => {
                last = put_event(rt, seat, channel, last, number, event)
            }
            other => drop(other),
        }
    }
    last
}

// Puts an end's events that are new.
fn put_events<E: End, H: Drop, T: Sends<Task<H>>, R: Wait>(
    rt: &R,
    seat: &mut T,
    end: &E,
    last: Option<u64>,
    told: Vec<(u64, ChannelEvent)>,
) -> Option<u64>
    ensures put { T.put seat.new
        ≡ T.put seat.old ++ tasks (channel_of (E.seen (E.state end.now))) (fresh last told.items) }
    ensures last { result ≡ last_of last told.items }
{
    let channel = end.channel();
    let mut last = last;
    for (number, event) in told {
        last = put_event(rt, seat, channel, last, number, event);
    }
    last
}

fn is_stop<J: Drop>(taken: &Item<J>) -> bool
    ensures { result ≡ is_stop taken.now }
{
    matches!(taken, Item::Stop)
}

fn is_broken<J: Drop>(item: &Item<J>) -> bool
    ensures { result ≡ drops item.now false }
{
    matches!(item, Item::Broken)
}

// Whether what an end has kept is told, as its connection breaks: of one that has halted it is known once it is loaded.
fn reports_kept(breaks: bool, halted: bool) -> bool
    ensures { result ≡ (breaks && not halted) }
{
    breaks && !halted
}

// Tells the book what an end has kept, where it is to be told.
fn report_kept_if<E: End, B: ReadsEnds<E>, R: Wait>(
    rt: &R,
    alloc: Global,
    book: &mut B,
    end: &E,
    drops: bool,
)
    ensures says_what_is_kept { B.said book.new ≡ B.said book.old ++ kept_if drops (E.seen (E.state end.now)) }
    ensures notes_nothing { B.noted book.new ≡ B.noted book.old }
{
    if drops {
        reports::report_kept(rt, alloc, book, end);
    }
}

// Tells the book what has become of HTLCs by these outputs.
fn settle_outputs<E: End, B: ReadsEnds<E>, R: Wait>(
    rt: &R,
    alloc: Global,
    book: &mut B,
    end: &E,
    outputs: &[Output],
)
    ensures says_what_is_settled { B.said book.new
        ≡ B.said book.old ++ settled_at (E.seen (E.state end.now)) (events outputs.now) }
    ensures notes_nothing { B.noted book.new ≡ B.noted book.old }
{
    match end.channel() {
        None => {}
        Some(channel) => reports::report_outputs(rt, alloc, book, channel, outputs),
    }
}

// Tells the book what has become of HTLCs by these events.
fn settle_events<E: End, B: ReadsEnds<E>, R: Wait>(
    rt: &R,
    alloc: Global,
    book: &mut B,
    end: &E,
    told: &[(u64, ChannelEvent)],
)
    ensures says_what_is_settled { B.said book.new ≡ B.said book.old ++ settled_at (E.seen (E.state end.now)) told.now }
    ensures notes_nothing { B.noted book.new ≡ B.noted book.old }
{
    match end.channel() {
        None => {}
        Some(channel) => reports::report_events(rt, alloc, book, channel, told),
    }
}

// Tells the book what has become of HTLCs by these outputs, and what the end can take now; what it has kept, first,
// where that is to be told.
fn report<E: End, B: ReadsEnds<E>, R: Wait>(
    rt: &R,
    alloc: Global,
    book: &mut B,
    end: &E,
    drops: bool,
    outputs: &[Output],
)
    ensures says_what_is_owed { B.said book.new
        ≡ B.said book.old ++ owed (E.seen (E.state end.now)) drops (events outputs.now) }
    ensures notes_nothing { B.noted book.new ≡ B.noted book.old }
{
    report_kept_if(rt, alloc, book, end, drops);
    settle_outputs(rt, alloc, book, end, outputs);
    reports::report_use(rt, book, end);
}

// The same by these events.
fn report_pending<E: End, B: ReadsEnds<E>, R: Wait>(
    rt: &R,
    alloc: Global,
    book: &mut B,
    end: &E,
    drops: bool,
    told: &[(u64, ChannelEvent)],
)
    ensures says_what_is_owed { B.said book.new ≡ B.said book.old ++ owed (E.seen (E.state end.now)) drops told.now }
    ensures notes_nothing { B.noted book.new ≡ B.noted book.old }
{
    report_kept_if(rt, alloc, book, end, drops);
    settle_events(rt, alloc, book, end, told);
    reports::report_use(rt, book, end);
}

// Tells the book what an end has kept after a load, what has become of HTLCs by the events that are pending, and what
// the end can take now; nothing where the load was refused.
fn report_load<E: End, B: ReadsEnds<E>, R: Wait>(
    rt: &R,
    alloc: Global,
    book: &mut B,
    end: &E,
    answer: Result<(), Refusal>,
    pending: &[(u64, ChannelEvent)],
)
    ensures says_what_is_owed { B.said book.new
        ≡ B.said book.old ++ load_words answer (E.seen (E.state end.now)) pending.now }
    ensures notes_a_load { B.noted book.new ≡ B.noted book.old ++ load_notes answer }
{
    match answer {
        Ok(()) => {
            book.notice(rt, Notice::Loaded);
            report_pending(rt, alloc, book, end, true, pending);
        }
        Err(_) => {}
    }
}

// A notice, where there is one.
fn note_one<E: End, B: ReadsEnds<E>, R: Wait>(rt: &R, book: &mut B, notice: Option<Notice>)
    ensures says_nothing { B.said book.new ≡ B.said book.old }
    ensures tells_it { B.noted book.new ≡ B.noted book.old ++ tells notice }
{
    match notice {
        None => {}
        Some(notice) => book.notice(rt, notice),
    }
}

fn refused(answer: Result<(), Refusal>) -> Option<Notice>
    ensures { tells result ≡ tells_refusal answer }
{
    match answer {
        Ok(()) => None,
        Err(refusal) => Some(Notice::Refused(refusal)),
    }
}

fn awaits_init(phase: Phase) -> bool
    ensures { result ≡ awaits_init phase }
{
    phase == Phase::AwaitsInit
}

fn is_unconnected(phase: Phase) -> bool
    ensures { result ≡ is_unconnected phase }
{
    phase == Phase::Unconnected
}

// A notice where something is so.
fn notice_if(is: bool, notice: Notice) -> Option<Notice>
    ensures { tells result ≡ tells_if is notice }
{
    if is { Some(notice) } else { None }
}

// Notes the peer's init, where its connection is open by one.
fn meet<E: End, B: ReadsEnds<E>, R: Wait>(rt: &R, book: &mut B, met: Option<Message>)
    ensures says_nothing { B.said book.new ≡ B.said book.old }
    ensures notes_it { B.noted book.new ≡ B.noted book.old ++ meets met }
{
    match met {
        None => {}
        Some(init) => book.met(rt, init),
    }
}

// Tells what has become of the end and its connection, where it hadn't halted before or awaited the peer's init.
fn note<E: End + Drop, W: Closes + Drop, B: ReadsEnds<E>, R: Wait>(
    rt: &R,
    book: &mut B,
    worker: &Worker<E, W>,
    halted: bool,
    awaited: bool,
    answer: Result<(), Refusal>,
)
    ensures says_nothing { B.said book.new ≡ B.said book.old }
    ensures tells_what_became { B.noted book.new ≡ B.noted book.old
        ++ became awaited halted answer worker.now.phase (E.halted (E.state worker.now.end)) }
{
    note_one::<E, B, R>(rt, book, refused(answer));
    let no_init = awaited && is_unconnected(worker.phase);
    note_one::<E, B, R>(rt, book, notice_if(no_init, Notice::NoInit));
    let has_halted = !halted && worker.end.is_halted();
    note_one::<E, B, R>(rt, book, notice_if(has_halted, Notice::Halted));
}

// Tells what has become of the end by a command of the book; nothing where the command waits.
fn note_command<E: End + Drop, W: Closes + Drop, B: ReadsEnds<E>, R: Wait>(
    rt: &R,
    book: &mut B,
    worker: &Worker<E, W>,
    halted: bool,
    waits: bool,
    answer: Result<(), Refusal>,
)
    ensures says_nothing { B.said book.new ≡ B.said book.old }
    ensures tells_what_became { B.noted book.new ≡ B.noted book.old
        ++ became_unless waits halted answer worker.now.phase (E.halted (E.state worker.now.end)) }
{
    if !waits {
        note(rt, book, worker, halted, false, answer);
    }
}

// What an order is about; other items are none.
fn subject_in<J: Drop>(next: u64, item: &Item<J>) -> Option<u64>
    ensures { result ≡ subject_in next item.now }
{
    match item {
        Item::Order(command) => Some(command_subject(next, command)),
        _ => None,
    }
}

// Whether there was something to do, as a command of the book was answered.
fn is_busy(before: bool, waits: bool) -> bool
    ensures is { result ≡ (before || not waits) }
    ensures stays_busy { result ≡ false → before ≡ false }
{
    before || !waits
}

fn reply_of(id: u64, answer: Result<(), Refusal>) -> Result<u64, Refusal>
    ensures { result ≡ reply_of id answer }
{
    match answer {
        Ok(()) => Ok(id),
        Err(refusal) => Err(refusal),
    }
}

// Replies to an order that is about this; not to another item.
fn reply<A: Orders, R: Wait>(
    rt: &R,
    orders: &mut A,
    subject: Option<u64>,
    answer: Result<(), Refusal>,
)
    ensures replies { A.replied orders.new ≡ A.replied orders.old ++ replies_to subject answer }
    ensures tells_nothing { A.allowed orders.new ≡ A.allowed orders.old }
{
    match subject {
        None => {}
        Some(id) => orders.reply(rt, reply_of(id, answer)),
    }
}

// What is told of a turn beside the reply to an order.
fn beside_reply(
    subject: Option<u64>,
    answer: Result<(), Refusal>,
    written: Result<(), Refusal>,
) -> Result<(), Refusal>
    ensures { result ≡ beside_reply subject answer written }
{
    match subject {
        None => answer,
        Some(_) => written,
    }
}

impl<E, W, I, T, B, A> WorkerLoop<E, W, I, T, B, A>
where
    E: End + Drop,
    W: Closes + Drop,
    I: Receives<Item<W>> + Drop,
    T: Drop,
    B: ReadsEnds<E> + Drop,
    A: Orders + Drop,
{
    // How many loads in a row were refused, up to ten, where so many were before.
    fn refused(&self, before: u64) -> u64
        ensures { result ≡ refused_after (E.halted (E.state self.now.worker.end)) before }
    {
        let halted = self.worker.end.is_halted();
        if halted && before < 10 {
            before + 1
        } else if halted {
            before
        } else {
            0
        }
    }

    // Waits where there was nothing to do; else it goes on at once.
    fn wait<R: Wait>(&self, rt: &R, refused: u64, busy: bool) {
        if !busy {
            self.book.wait(rt, refused);
        }
    }

    // Takes an item, and serves it or passes it over; then it is busy. True where it is the last one.
    fn take_one<H: Drop, R: Wait>(
        &mut self,
        rt: &R,
        alloc: Global,
        own_init: &Message,
        peer: &PeerFeatures,
        busy: &mut bool,
    ) -> bool
    where
        T: Sends<Task<H>>,
        ensures ran { Ran E.acts E.halted E.pending E.owes E.seen W.contents own_init.now peer.now
            (WasEmpty (I.position self.old.items)) true
            (loop_state E.state W.contents I.taken T.put B.said B.noted A.replied A.allowed self.old)
            (loop_state E.state W.contents I.taken T.put B.said B.noted A.replied A.allowed self.new) }
        ensures stops { result ≡ true → I.taken self.new.items ≡ I.taken self.old.items ++ item.Stop ∷ [] }
        ensures goes_on { result ≡ false → TakesNoStop (I.taken self.old.items) (I.taken self.new.items) }
        ensures position_stays { I.position self.new.items ≡ I.position self.old.items }
        ensures was_empty { busy.new ≡ false → WasEmpty (I.position self.old.items) (I.taken self.new.items) }
    {
        let Some(item) = self.items.recv(rt) else {
            return false;
        };
        let stops = is_stop(&item);
        let breaks = is_broken(&item);
        let subject = subject_in(self.worker.end.next_id(), &item);
        let halted = self.worker.end.is_halted();
        let awaited = awaits_init(self.worker.phase);
        *busy = true;
        let Turned {
            outputs,
            answer,
            written,
            served: _,
            met,
        } = self.worker.serve(alloc, own_init, peer, item);
        meet(rt, &mut self.book, met);
        let told = beside_reply(subject, answer, written);
        note(rt, &mut self.book, &self.worker, halted, awaited, told);
        let end = &self.worker.end;
        let drops = reports_kept(breaks, end.is_halted());
        report(rt, alloc, &mut self.book, end, drops, outputs.as_slice());
        reply(rt, &mut self.orders, subject, answer);
        let last = self.worker.last;
        self.worker.last = put_outputs(rt, &mut self.tasks, end, last, outputs);
        stops
    }

    // Takes a command of the book; then it is busy, unless the command waits.
    fn obey_one<H: Drop, R: Wait>(
        &mut self,
        rt: &R,
        alloc: Global,
        own_init: &Message,
        peer: &PeerFeatures,
        busy: &mut bool,
    )
    where
        T: Sends<Task<H>>,
        ensures ran { Ran E.acts E.halted E.pending E.owes E.seen W.contents own_init.now peer.now
            (WasEmpty (I.position self.old.items)) false
            (loop_state E.state W.contents I.taken T.put B.said B.noted A.replied A.allowed self.old)
            (loop_state E.state W.contents I.taken T.put B.said B.noted A.replied A.allowed self.new) }
        ensures takes_no_item { self.new.items ≡ self.old.items }
        ensures stays_busy { busy.new ≡ false → busy.old ≡ false }
    {
        let Some(channel) = self.worker.end.channel() else {
            return;
        };
        let Some(command) = self.book.take(rt, alloc, channel) else {
            return;
        };
        let next = self.worker.end.next_id();
        let command_subject = command_subject(next, &command);
        let halted = self.worker.end.is_halted();
        let obeyed = self.worker.obey(alloc, command);
        let done = obeyed.answer;
        let outputs = obeyed.outputs;
        let answer = answer_to(command_subject, done);
        self.book.answered(rt, channel, answer);
        let waits = waits(answer);
        *busy = is_busy(*busy, waits);
        note_command(rt, &mut self.book, &self.worker, halted, waits, done);
        let end = &self.worker.end;
        report(rt, alloc, &mut self.book, end, false, outputs.as_slice());
        let last = self.worker.last;
        self.worker.last = put_outputs(rt, &mut self.tasks, end, last, outputs);
    }

    // Whether a signature is due: it is to sign by itself, and its end owes one.
    fn is_due(&self, allowed: bool) -> bool
        ensures { result ≡ (allowed && E.owes (E.state self.now.worker.end)) }
    {
        allowed && self.worker.end.owes_signature()
    }

    // Where there was nothing else to do it asks whether it is to sign by itself, and signs where that is due.
    fn sign_if_idle<H: Drop, R: Wait>(
        &mut self,
        rt: &R,
        alloc: Global,
        own_init: &Message,
        peer: &PeerFeatures,
        busy: &mut bool,
    )
    where
        T: Sends<Task<H>>,
        requires was_empty { busy.old ≡ false → WasEmpty (I.position self.old.items) (I.taken self.old.items) }
        ensures ran { Ran E.acts E.halted E.pending E.owes E.seen W.contents own_init.now peer.now
            (WasEmpty (I.position self.old.items)) false
            (loop_state E.state W.contents I.taken T.put B.said B.noted A.replied A.allowed self.old)
            (loop_state E.state W.contents I.taken T.put B.said B.noted A.replied A.allowed self.new) }
        ensures takes_no_item { self.new.items ≡ self.old.items }
    {
        if *busy {
            return;
        }
        let allowed = self.orders.signs();
        if !self.is_due(allowed) {
            return;
        }
        *busy = true;
        let halted = self.worker.end.is_halted();
        let obeyed = self.worker.obey(alloc, Command::Sign);
        let outputs = obeyed.outputs;
        note(
            rt,
            &mut self.book,
            &self.worker,
            halted,
            false,
            obeyed.answer,
        );
        let end = &self.worker.end;
        report(rt, alloc, &mut self.book, end, false, outputs.as_slice());
        let last = self.worker.last;
        self.worker.last = put_outputs(rt, &mut self.tasks, end, last, outputs);
    }

    // Loads a halted end, and puts those of its pending events that weren't put yet.
    fn reload_if_halted<H: Drop, R: Wait>(
        &mut self,
        rt: &R,
        alloc: Global,
        own_init: &Message,
        peer: &PeerFeatures,
    )
    where
        T: Sends<Task<H>>,
        ensures reloads { ReloadsIfHalted E.acts E.halted E.pending E.owes E.seen W.contents own_init.now peer.now
            (loop_state E.state W.contents I.taken T.put B.said B.noted A.replied A.allowed self.old)
            (loop_state E.state W.contents I.taken T.put B.said B.noted A.replied A.allowed self.new) }
        ensures takes_no_item { self.new.items ≡ self.old.items }
    {
        if !self.worker.end.is_halted() {
            return;
        }
        let answer = self.worker.load(alloc);
        let told = self.worker.pending_behind(rt, alloc, answer);
        let end = &self.worker.end;
        report_load(rt, alloc, &mut self.book, end, answer, told.as_slice());
        let last = self.worker.last;
        self.worker.last = put_events(rt, &mut self.tasks, end, last, told);
    }
}

/// Serves the items of a worker's relay and the commands of the book in turn, up to the first `Stop`, and gives all of
/// it back: an end that has halted is loaded from its record before each item that is taken. The events that are
/// pending at the start or after a load, and those that the end hands out, are put for the dispatcher as those of the
/// end's channel, each number once and in rising order; before that the book is told what has become of HTLCs by them,
/// and what the end has kept after a lost connection or a load. A command of the book is answered by what the end has
/// answered, and each order is replied to, in their order. Where its relay was empty and it obeyed nothing it asks
/// whether it is to sign by itself; if so it signs what is owed, so that what came together shares a signature. By
/// itself it signs in no other case. Where it had nothing to do it waits for the wake-up, and between loads that are
/// refused the longer, the more they are. The peer is greeted by `own_init`, an init, and its init may ask for no even
/// feature but the known ones and has to offer those that are wanted. Who watches is told what becomes of the end and
/// its connections. It tries again where there is no memory or the dispatcher's relay is full.
pub fn worker_loop<E, W, I, H, T, B, A, R>(
    rt: &R,
    alloc: Global,
    own_init: &Message,
    peer: &PeerFeatures,
    work: WorkerLoop<E, W, I, T, B, A>,
) -> WorkerLoop<E, W, I, T, B, A>
where
    E: End + Drop,
    W: Closes + Drop,
    I: Receives<Item<W>> + Drop,
    H: Drop,
    T: Sends<Task<H>> + Drop,
    B: ReadsEnds<E> + Drop,
    A: Orders + Drop,
    R: Wait,
    ensures serves_all_and_tells_all { Began E.acts E.halted E.pending E.owes E.seen W.contents own_init.now peer.now
        (WasEmpty (I.position work.items))
        (loop_state E.state W.contents I.taken T.put B.said B.noted A.replied A.allowed work)
        (loop_state E.state W.contents I.taken T.put B.said B.noted A.replied A.allowed result) }
{
    let mut work = work;
    let told = work.worker.pending(rt, alloc);
    report_pending(
        rt,
        alloc,
        &mut work.book,
        &work.worker.end,
        false,
        told.as_slice(),
    );
    let last = work.worker.last;
    work.worker.last = put_events(rt, &mut work.tasks, &work.worker.end, last, told);
    let mut refused = 0u64;
    for _ in rt.forever() {
        let mut busy = false;
        work.reload_if_halted(rt, alloc, own_init, peer);
        refused = work.refused(refused);
        if work.take_one(rt, alloc, own_init, peer, &mut busy) {
            return work;
        }
        work.obey_one(rt, alloc, own_init, peer, &mut busy);
        work.sign_if_idle(rt, alloc, own_init, peer, &mut busy);
        work.wait(rt, refused, busy);
    }
    unreachable!()
}

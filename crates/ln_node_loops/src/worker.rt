//! A worker: an end of a channel, and the connection that it has.

ghost use Rattle.std.specs.Prelude.{◌≡◌, None, Ok, [], true, false, option_copied};
ghost use Rattle.ln_node_loops.specs.Sent.{shown};
ghost use Rattle.ln_node_loops.specs.Turn.{IsTurn};
ghost use Rattle.ln_node_loops.specs.declared.item.Item.TheVariants as item;
ghost use Rattle.ln_node_loops.specs.declared.worker.Phase.TheVariants as phase;
ghost use Rattle.ln_node_loops.specs.Phase.{is_lost, is_refused, init_in, first_after, Greets};
ghost use Rattle.ln_node_loops.specs.Connection.{closed};
ghost use Rattle.ln_refusals.specs.declared.refusal.Refusal.TheVariants as refusal;
ghost use Rattle.ln_node_loops.specs.Wire.{connection_at};

use crate::end::End;
use crate::features::{PeerFeatures, fits};
use crate::item::Item;
use crate::turn::{Obeyed, is_reserved, obey_turn, take_turn};
use crate::wire::{Closes, Wire};
use ln_channel::{Command, Output};
use ln_hooks::ChannelEvent;
use ln_msgs::{Counted, Init, Message};
use ln_refusals::Refusal;
use std::alloc::Global;
use std::sync::Wait;
use std::{mem, thread};

/// How far a connection is (BOLT 1, "The `init` Message").
#[derive(Clone, Copy, PartialEq, Eq)]
pub enum Phase {
    /// There is none: nothing is written, and what was read is passed over.
    Unconnected,
    /// The peer was greeted, and its init is awaited.
    AwaitsInit,
    /// It came.
    Open,
}

/// An end, and the connection that it has.
#[derive(Drop)]
pub struct Worker<E: Drop, W: Closes + Drop> {
    /// The end.
    pub end: E,
    /// Its latest connection.
    pub connection: Wire<W>,
    /// How far its connection is.
    pub phase: Phase,
    /// The number of the last event that was put.
    pub last: Option<u64>,
}

/// What an item came to.
#[derive(Drop)]
pub struct Turned {
    /// What the end handed out.
    pub outputs: Vec<Output>,
    /// What was answered: to an order what the end answered, to another item by what not all was written, where it
    /// wasn't.
    pub answer: Result<(), Refusal>,
    /// Whether all that is sent for an order was written: 60 or 7 where nothing was, 63 where a prefix was.
    pub written: Result<(), Refusal>,
    /// Whether the item was served.
    pub served: bool,
    /// The peer's init, where the connection is open by it.
    pub met: Option<Message>,
}

// Whether not all was written by a turn that answered so.
fn is_lost(answer: Result<(), Refusal>) -> bool
    ensures { result ≡ is_lost answer }
{
    match answer {
        Ok(()) => false,
        Err(refusal) => {
            let number = refusal.number();
            number == 7 || number == 60 || number == 63
        }
    }
}

fn is_refused(answer: Result<(), Refusal>) -> bool
    ensures { result ≡ is_refused answer }
{
    match answer {
        Ok(()) => false,
        Err(_) => true,
    }
}

fn init_in(message: &Message) -> Option<&Init>
    ensures { option_copied result ≡ init_in message.now }
{
    match message {
        Message::Init(init) => Some(init),
        _ => None,
    }
}

// How far a connection is after the peer's first message.
fn phase_after(message: &Message, peer: &PeerFeatures) -> Phase
    ensures { Greets peer.now (init_in message.now) result }
{
    match init_in(message) {
        None => Phase::Unconnected,
        Some(init) if fits(init, peer) => Phase::Open,
        Some(_) => Phase::Unconnected,
    }
}

// An item that was served.
fn served(outputs: Vec<Output>, answer: Result<(), Refusal>) -> Turned
    ensures { result
        ≡ record { outputs = outputs; answer = answer; written = Ok tt; served = true; met = None } }
{
    Turned {
        outputs,
        answer,
        written: Ok(()),
        served: true,
        met: None,
    }
}

// An item that was passed over.
fn passed(alloc: Global, answer: Result<(), Refusal>, met: Option<Message>) -> Turned
    ensures outputs { result.outputs.items ≡ [] }
    ensures answer { result.answer ≡ answer }
    ensures written { result.written ≡ Ok tt }
    ensures passed { result.served ≡ false }
    ensures met { result.met ≡ met }
{
    Turned {
        outputs: Vec::new(alloc),
        answer,
        written: Ok(()),
        served: false,
        met,
    }
}

// The peer's first message, where its connection is open by it.
fn first_after(message: Message, phase: Phase) -> Option<Message>
    ensures { result ≡ first_after phase message }
{
    if phase == Phase::Open {
        Some(message)
    } else {
        drop(message);
        None
    }
}

impl<E: End + Drop, W: Closes + Drop> Worker<E, W> {
    ghost use Rattle.std.specs.Prelude.{◌≡◌, None, Option, List, ℕ, Bool, Ok, Err, [], true, false};
    ghost use Rattle.ln_node_loops.specs.Worker.{stand};
    ghost use Rattle.ln_node_loops.specs.Phase.{Hears, kept_connection};
    ghost use Rattle.ln_node_loops.specs.Turns.{Leaves, Step, turn_of, load_of, told_after, Obeys, Giver, MayGive};
    ghost use Rattle.ln_node_loops.specs.Turns.{Declines, met_in};

    /// An end without a connection, none of whose events was put. Takes no memory.
    pub fn new(end: E) -> Worker<E, W>
        ensures end { result.end ≡ end }
        ensures cut { result.phase ≡ phase.Unconnected }
        ensures none_put { result.last ≡ None }
    {
        Worker {
            end,
            connection: Wire::NoneYet,
            phase: Phase::Unconnected,
            last: None,
        }
    }

    // There is no connection any more.
    fn close_connection(&mut self)
        ensures end { self.new.end ≡ self.old.end }
        ensures phase { self.new.phase ≡ phase.Unconnected }
        ensures connection { connection_at W.contents self.new.connection
            ≡ closed (connection_at W.contents self.old.connection) }
        ensures last { self.new.last ≡ self.old.last }
    {
        self.connection = mem::replace(&mut self.connection, Wire::NoneYet).close();
        self.phase = Phase::Unconnected;
    }

    // Without a connection nothing is written.
    fn drop_writer_if_closed(&mut self)
        ensures end { self.new.end ≡ self.old.end }
        ensures phase { self.new.phase ≡ self.old.phase }
        ensures connection { connection_at W.contents self.new.connection
            ≡ kept_connection self.old.phase (connection_at W.contents self.old.connection) }
        ensures last { self.new.last ≡ self.old.last }
    {
        if self.phase == Phase::Unconnected {
            self.close_connection();
        }
    }

    // After a turn.
    fn end_turn(&mut self, over: bool)
        ensures end { self.new.end ≡ self.old.end }
        ensures left { Leaves E.halted self.old.phase over (connection_at W.contents self.old.connection)
            (stand E.state W.contents self.new) }
        ensures last { self.new.last ≡ self.old.last }
    {
        if over || self.end.is_halted() || self.phase == Phase::Unconnected {
            self.close_connection();
        }
    }

    // An item that is served.
    fn turn(&mut self, alloc: Global, item: Item<&Message>) -> (Vec<Output>, Result<(), Refusal>)
        ensures turn { IsTurn E.acts (E.state self.old.end) (shown item.entry) result.0.items result.1
            (E.state self.new.end) (kept_connection self.old.phase (connection_at W.contents self.old.connection))
            (connection_at W.contents self.new.connection) }
        ensures phase { self.new.phase ≡ self.old.phase }
        ensures last { self.new.last ≡ self.old.last }
    {
        self.drop_writer_if_closed();
        take_turn(alloc, &mut self.end, item, &mut self.connection)
    }

    // A connection.
    fn on_connect(&mut self, alloc: Global, own_init: &Message, writer: W) -> Turned
        ensures turn { (peer : PeerFeatures) → Step E.acts E.halted E.pending E.owes W.contents own_init.now peer
            (stand E.state W.contents self.old)
            (turn_of result.served (item.Joined writer) result.outputs.items result.answer result.written)
            (stand E.state W.contents self.new) }
        ensures passed { result.served ≡ false → result.outputs.items ≡ [] }
        ensures declined { result.served ≡ false → result.answer ≡ Ok tt }
        ensures writes_nothing_if_passed { result.served ≡ false → result.written ≡ Ok tt }
        ensures meets { result.met ≡ met_in result.served self.old.phase (item.Joined writer) self.new.phase }
        ensures last { self.new.last ≡ self.old.last }
    {
        self.connection = Wire::Open(Counted::new(writer));
        self.phase = Phase::AwaitsInit;
        let (outputs, answer) = self.turn(alloc, Item::Joined(own_init));
        self.end_turn(is_refused(answer));
        served(outputs, answer)
    }

    // A message that isn't served: the first of a connection must be init; without a connection all are passed over.
    fn on_first_message(&mut self, message: &Message, peer: &PeerFeatures)
        ensures end { self.new.end ≡ self.old.end }
        ensures phase { Hears peer.now self.old.phase message.now self.new.phase }
        ensures connection { (stand E.state W.contents self.new).connection
            ≡ kept_connection self.new.phase (stand E.state W.contents self.old).connection }
        ensures last { self.new.last ≡ self.old.last }
    {
        self.drop_writer_if_closed();
        if self.phase == Phase::AwaitsInit {
            match phase_after(message, peer) {
                Phase::Open => self.phase = Phase::Open,
                _ => self.close_connection(),
            }
        }
    }

    // A message.
    fn read(&mut self, alloc: Global, message: Message, peer: &PeerFeatures) -> Turned
        ensures turn { (own_init : Message) → Step E.acts E.halted E.pending E.owes W.contents own_init peer.now
            (stand E.state W.contents self.old)
            (turn_of result.served (item.Read message) result.outputs.items result.answer result.written)
            (stand E.state W.contents self.new) }
        ensures passed { result.served ≡ false → result.outputs.items ≡ [] }
        ensures declined { result.served ≡ false → result.answer ≡ Ok tt }
        ensures writes_nothing_if_passed { result.served ≡ false → result.written ≡ Ok tt }
        ensures meets { result.met ≡ met_in {W = W} result.served self.old.phase (item.Read message) self.new.phase }
        ensures last { self.new.last ≡ self.old.last }
    {
        if self.phase != Phase::Open {
            self.on_first_message(&message, peer);
            return passed(alloc, Ok(()), first_after(message, self.phase));
        }
        let (outputs, answer) = self.turn(alloc, Item::Read(message));
        self.end_turn(is_lost(answer));
        served(outputs, answer)
    }

    // The connection is lost.
    fn on_disconnect(&mut self, alloc: Global) -> Turned
        ensures turn { (own_init : Message) (peer : PeerFeatures)
            → Step E.acts E.halted E.pending E.owes W.contents own_init peer (stand E.state W.contents self.old)
            (turn_of result.served item.Broken result.outputs.items result.answer result.written)
            (stand E.state W.contents self.new) }
        ensures passed { result.served ≡ false → result.outputs.items ≡ [] }
        ensures declined { result.served ≡ false → result.answer ≡ Ok tt }
        ensures writes_nothing_if_passed { result.served ≡ false → result.written ≡ Ok tt }
        ensures meets { result.met ≡ met_in {W = W} result.served self.old.phase item.Broken self.new.phase }
        ensures last { self.new.last ≡ self.old.last }
    {
        let (outputs, answer) = self.turn(alloc, Item::Broken);
        self.close_connection();
        served(outputs, answer)
    }

    // An order. What is reserved for the book is passed over (40).
    fn order(&mut self, alloc: Global, command: Command) -> Turned
        ensures turn { (own_init : Message) (peer : PeerFeatures)
            → Step E.acts E.halted E.pending E.owes W.contents own_init peer (stand E.state W.contents self.old)
            (turn_of result.served (item.Order command) result.outputs.items result.answer result.written)
            (stand E.state W.contents self.new) }
        ensures passed { result.served ≡ false → result.outputs.items ≡ [] }
        ensures declined { result.served ≡ false → result.answer ≡ Err refusal.NotReady }
        ensures writes_nothing_if_passed { result.served ≡ false → result.written ≡ Ok tt }
        ensures meets { result.met ≡ met_in {W = W} result.served self.old.phase (item.Order command) self.new.phase }
        ensures last { self.new.last ≡ self.old.last }
    {
        if is_reserved(&command) {
            drop(command);
            self.drop_writer_if_closed();
            return passed(alloc, Err(Refusal::NotReady), None);
        }
        let Obeyed {
            outputs,
            answer,
            written,
        } = self.obey(alloc, command);
        Turned {
            outputs,
            answer,
            written,
            served: true,
            met: None,
        }
    }

    /// Serves an item of its relay, or passes it over: messages are passed over until the peer's init came, which may
    /// ask for no even feature but the known ones and has to offer those that are wanted, and orders that are reserved
    /// for the book (40). The writer is closed where the connection is lost, where a turn couldn't write all, where the
    /// end takes no connection or has halted, and where the peer's first message isn't such an init.
    pub fn serve(
        &mut self,
        alloc: Global,
        own_init: &Message,
        peer: &PeerFeatures,
        item: Item<W>,
    ) -> Turned
        ensures turn { Step E.acts E.halted E.pending E.owes W.contents own_init.now peer.now
            (stand E.state W.contents self.old)
            (turn_of result.served item result.outputs.items result.answer result.written)
            (stand E.state W.contents self.new) }
        ensures passed { result.served ≡ false → result.outputs.items ≡ [] }
        ensures declined { result.served ≡ false → Declines item result.answer }
        ensures writes_nothing_if_passed { result.served ≡ false → result.written ≡ Ok tt }
        ensures meets { result.met ≡ met_in result.served self.old.phase item self.new.phase }
        ensures last { self.new.last ≡ self.old.last }
    {
        match item {
            Item::Joined(writer) => self.on_connect(alloc, own_init, writer),
            Item::Read(message) => self.read(alloc, message, peer),
            Item::Broken => self.on_disconnect(alloc),
            Item::Order(command) => self.order(alloc, command),
            Item::Stop => {
                self.drop_writer_if_closed();
                passed(alloc, Ok(()), None)
            }
        }
    }

    /// A command: of the book, of an order that isn't reserved for it, or to sign what is owed.
    pub fn obey(&mut self, alloc: Global, command: Command) -> Obeyed
        ensures turn { (by : Giver) (own_init : Message) (peer : PeerFeatures)
            → MayGive E.owes (E.state self.old.end) by command
            → Step E.acts E.halted E.pending E.owes W.contents own_init peer (stand E.state W.contents self.old)
            (Obeys by command result.outputs.items result.answer result.written) (stand E.state W.contents self.new) }
        ensures last { self.new.last ≡ self.old.last }
    {
        self.drop_writer_if_closed();
        let obeyed = obey_turn(alloc, &mut self.end, command, &mut self.connection);
        self.end_turn(is_lost(obeyed.written));
        obeyed
    }

    /// The events that aren't decided yet. Where there is no memory it yields and tries again.
    pub fn pending<R: Wait>(&self, rt: &R, alloc: Global) -> Vec<(u64, ChannelEvent)>
        ensures { result.items ≡ E.pending (E.state self.now.end) }
    {
        for _ in rt.forever() {
            if let Ok(events) = self.end.pending_events(alloc) {
                return events;
            }
            thread::yield_now();
        }
        unreachable!()
    }

    /// A halted end comes back from its record, without a connection. Refused, its connection is as it was.
    pub fn load(&mut self, alloc: Global) -> Result<(), Refusal>
        requires { E.halted (E.state self.old.end) ≡ true }
        ensures turn { (own_init : Message) (peer : PeerFeatures)
            → Step E.acts E.halted E.pending E.owes W.contents own_init peer (stand E.state W.contents self.old)
            (load_of result (E.pending (E.state self.new.end))) (stand E.state W.contents self.new) }
        ensures last { self.new.last ≡ self.old.last }
    {
        match self.end.load(alloc) {
            Ok(()) => {
                self.close_connection();
                Ok(())
            }
            Err(refusal) => Err(refusal),
        }
    }

    /// The events that aren't decided yet after a load; none after one that was refused.
    pub fn pending_behind<R: Wait>(
        &self,
        rt: &R,
        alloc: Global,
        answer: Result<(), Refusal>,
    ) -> Vec<(u64, ChannelEvent)>
        ensures { result.items ≡ told_after answer (E.pending (E.state self.now.end)) }
    {
        match answer {
            Ok(()) => self.pending(rt, alloc),
            Err(_) => Vec::new(alloc),
        }
    }
}

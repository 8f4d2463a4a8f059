//! One turn of a worker.

ghost use Rattle.std.specs.Prelude.{◌≡◌, ◌++◌, ◌∷◌, [], OnOk, IfOk, IfErr, option_to_list};
ghost use Rattle.std.specs.Prelude.{option_copied, List, option_map, Err, ◌≤◌, length};
ghost use Rattle.ln_msgs.specs.Messages.Message.{Wire, wire_bytes};
ghost use Rattle.ln_msgs.specs.Messages.Typed.{wire};
ghost use Rattle.ln_msgs.specs.Messages.Reply.{reply_to};
ghost use Rattle.ln_node_loops.specs.Reserved.{is_reserved};
ghost use Rattle.ln_node_loops.specs.declared.item.Item.TheVariants as item;
ghost use Rattle.ln_node_loops.specs.declared.kind.Kind.TheVariants as kind;
ghost use Rattle.ln_node_loops.specs.Kind.{kind_of};
ghost use Rattle.ln_node_loops.specs.Sent.{frame_of, frames_of, sent, listed, outputs_of, answer_of, pongs, sent_for};
ghost use Rattle.ln_node_loops.specs.Sent.{shown};
ghost use Rattle.ln_node_loops.specs.Connection.{Open, connection_of};
ghost use Rattle.ln_node_loops.specs.Turn.{SendsNone, Goes, Writes, IsTurn, IsObeyed};

use crate::end::End;
use crate::item::Item;
use crate::kind::{Kind, kind_of};
use crate::wire::Carries;
use ln_bytes::Bytes;
use ln_channel::{Command, Output};
use ln_msgs::{Counted, Message, Pong, Records, encode, fits};
use ln_refusals::Refusal;
use std::alloc::Global;
use std::io::Write;

// ---- what is written

// The bytes of a message.
fn bytes_of(alloc: Global, message: &Message) -> Result<Vec<u8>, Refusal>
    ensures spells { IfOk result (λ v. (v.items ≡ wire_bytes (wire message.now)) × (length v.items ≤ 65535)) }
    ensures lost { IfErr result (SendsNone (wire message.now ∷ [])) }
{
    if !fits(message) {
        return Err(Refusal::TooLong);
    }
    match encode(alloc, message) {
        Ok(bytes) => Ok(bytes),
        Err(fault) => Err(Refusal::from(fault)),
    }
}

// The frame of a message, after the bytes.
#[tactic(auto, unfolding(crate::specs::Sent::frame_of))]
fn append_frame(alloc: Global, out: &mut Vec<u8>, message: &Message) -> Result<(), Refusal>
    ensures appends { OnOk result (out.new.items ≡ out.old.items ++ frame_of (wire message.now)) }
    ensures lost { IfErr result (SendsNone (wire message.now ∷ [])) }
{
    let bytes = bytes_of(alloc, message)?;
    out.extend_from_slice(&(bytes.len() as u16).to_be_bytes())?;
    out.extend_from_slice(&bytes)?;
    Ok(())
}

// The frame of a message, where there is one, after the bytes.
fn append_first(alloc: Global, out: &mut Vec<u8>, first: Option<&Message>) -> Result<(), Refusal>
    ensures appends { OnOk result (out.new.items
        ≡ out.old.items ++ frames_of (option_to_list (option_map wire (option_copied first.entry)))) }
    ensures lost { IfErr result (SendsNone (option_to_list (option_map wire (option_copied first.entry)))) }
{
    match first {
        None => Ok(()),
        Some(message) => append_frame(alloc, out, message),
    }
}

// The frame of an output's message, where it is one, after the bytes.
fn append_output(alloc: Global, out: &mut Vec<u8>, output: &Output) -> Result<(), Refusal>
    ensures appends { OnOk result (out.new.items ≡ out.old.items ++ frames_of (sent (output.now ∷ []))) }
    ensures lost { IfErr result (SendsNone (sent (output.now ∷ []))) }
{
    match output {
        Output::Send(message) => append_frame(alloc, out, message),
        _ => Ok(()),
    }
}

// The frames of the messages among outputs, after the bytes.
fn append_sent(alloc: Global, out: &mut Vec<u8>, outputs: &[Output]) -> Result<(), Refusal>
    ensures appends { OnOk result (out.new.items ≡ out.old.items ++ frames_of (sent outputs.now)) }
    ensures lost { IfErr result (SendsNone (sent outputs.now)) }
{
    for output in outputs {
        match append_output(alloc, out, output) {
            Ok(()) => {}
            Err(refusal) => return Err(refusal),
        }
    }
    Ok(())
}

// The frames of a message, where there is one, and of those among outputs.
fn frames(alloc: Global, first: Option<&Message>, outputs: &[Output]) -> Result<Vec<u8>, Refusal>
    ensures frames { IfOk result (λ v. v.items
        ≡ frames_of (option_to_list (option_map wire (option_copied first.entry)) ++ sent outputs.now)) }
    ensures lost { IfErr result (SendsNone
        (option_to_list (option_map wire (option_copied first.entry)) ++ sent outputs.now)) }
{
    let mut out = Vec::new(alloc);
    match append_first(alloc, &mut out, first) {
        Ok(()) => {}
        Err(refusal) => return Err(refusal),
    }
    match append_sent(alloc, &mut out, outputs) {
        Ok(()) => Ok(out),
        Err(refusal) => Err(refusal),
    }
}

// Sends a message, where there is one, and those among outputs: all are gathered before a byte is written.
fn send<L: Carries>(
    alloc: Global,
    first: Option<&Message>,
    outputs: &[Output],
    connection: &mut L,
) -> Result<(), Refusal>
    ensures { Goes (option_to_list (option_map wire (option_copied first.entry)) ++ sent outputs.now) result
        (L.connection connection.old) (L.connection connection.new) }
{
    match frames(alloc, first, outputs) {
        Ok(bytes) => connection.deliver(bytes.as_slice()),
        Err(refusal) => Err(refusal),
    }
}

// ---- what is answered

// The outputs, and the answer without them.
fn apart(alloc: Global, said: Result<Vec<Output>, Refusal>) -> (Vec<Output>, Result<(), Refusal>)
    ensures outputs { result.0.items ≡ outputs_of (listed (λ v. v.items) said) }
    ensures answer { result.1 ≡ answer_of (listed (λ v. v.items) said) }
{
    match said {
        Ok(outputs) => (outputs, Ok(())),
        Err(refusal) => (Vec::new(alloc), Err(refusal)),
    }
}

// A failed write comes before what the end answered.
fn over(answer: Result<(), Refusal>, written: Result<(), Refusal>) -> Result<(), Refusal>
    ensures written { IfErr written (λ e. result ≡ Err e) }
    ensures answered { OnOk written (result ≡ answer) }
{
    match written {
        Ok(()) => answer,
        Err(refusal) => Err(refusal),
    }
}

fn pong_to(alloc: Global, count: u16) -> Result<Option<Message>, Refusal>
    ensures pong { IfOk result (λ m. option_to_list (option_map wire m) ≡ pongs count) }
    ensures fails_for_memory_alone { IfErr result (λ e. e ≡ Refusal.Memory) }
{
    if count < 65_532 {
        let zeros = vec![in alloc; 0u8; usize::from(count)]?;
        return Ok(Some(Message::Pong(Pong {
            ignored: Bytes::new(zeros),
            records: Records::empty(alloc),
        })));
    }
    Ok(None)
}

// ---- turns

/// What became of a command.
#[derive(Drop)]
pub struct Obeyed {
    /// What the end handed out.
    pub outputs: Vec<Output>,
    /// What the end answered, which who gave the command is told.
    pub answer: Result<(), Refusal>,
    /// Whether all that it sends was written: 60 or 7 where nothing was, 63 where a prefix was.
    pub written: Result<(), Refusal>,
}

/// A command: the end obeys it, and what it sends is written. What the end answered stands apart from
/// what became of the write, as a command that was done is done also where its messages are lost.
pub(crate) fn obey_turn<E: End, L: Carries>(
    alloc: Global,
    end: &mut E,
    command: Command,
    connection: &mut L,
) -> Obeyed
    ensures obeys { IsObeyed E.acts (E.state end.old) command result.outputs.items result.answer result.written
        (E.state end.new) (L.connection connection.old) (L.connection connection.new) }
{
    let said = end.command(alloc, command);
    let (outputs, answer) = apart(alloc, said);
    let written = send(alloc, None, outputs.as_slice(), connection);
    Obeyed {
        outputs,
        answer,
        written,
    }
}

// A connection: the peer is greeted first.
fn join_turn<E: End, L: Carries>(
    alloc: Global,
    end: &mut E,
    own_init: &Message,
    connection: &mut L,
) -> (Vec<Output>, Result<(), Refusal>)
    ensures { IsTurn E.acts (E.state end.old) (item.Joined own_init.now)
        result.0.items result.1 (E.state end.new) (L.connection connection.old) (L.connection connection.new) }
{
    let said = end.connect(alloc);
    let (outputs, answer) = apart(alloc, said);
    let written = send(alloc, Some(own_init), outputs.as_slice(), connection);
    (outputs, over(answer, written))
}

// Sends a message that may have lacked memory.
fn send_one<L: Carries>(
    alloc: Global,
    made: Result<Option<Message>, Refusal>,
    connection: &mut L,
) -> Result<(), Refusal>
    requires fails_for_memory_alone { IfErr made (λ e. e ≡ Refusal.Memory) }
    ensures { (ws : List Wire) → IfOk made (λ m. option_to_list (option_map wire m) ≡ ws)
        → Goes ws result (L.connection connection.old) (L.connection connection.new) }
{
    match made {
        Ok(first) => {
            let written = send(alloc, first.as_ref(), &[], connection);
            drop(first);
            written
        }
        Err(refusal) => Err(refusal),
    }
}

// How a peer is told that its message is refused.
fn reply_to(alloc: Global, id: &[u8; 32], why: Refusal) -> Result<Option<Message>, Refusal>
    ensures reply { IfOk result (λ m. option_to_list (option_map wire m) ≡ option_to_list (reply_to why id.now)) }
    ensures fails_for_memory_alone { IfErr result (λ e. e ≡ Refusal.Memory) }
{
    Message::reply_to(alloc, why, id)
}

// Sends what is due for an answer to a message: what the end sends, or the reply to the peer.
fn send_back<L: Carries>(
    alloc: Global,
    id: &[u8; 32],
    said: Result<Vec<Output>, Refusal>,
    connection: &mut L,
) -> (Vec<Output>, Result<(), Refusal>)
    ensures outputs { result.0.items ≡ outputs_of (listed (λ v. v.items) said) }
    ensures writes { Writes (sent_for id.now (listed (λ v. v.items) said)) (answer_of (listed (λ v. v.items) said))
        result.1 (L.connection connection.old) (L.connection connection.new) }
{
    match said {
        Ok(outputs) => {
            let written = send(alloc, None, outputs.as_slice(), connection);
            (outputs, written)
        }
        Err(refusal) => {
            let made = reply_to(alloc, id, refusal);
            let written = send_one(alloc, made, connection);
            (Vec::new(alloc), over(Err(refusal), written))
        }
    }
}

// Sends what the end sends, and no reply to a refusal.
fn send_only<L: Carries>(
    alloc: Global,
    said: Result<Vec<Output>, Refusal>,
    connection: &mut L,
) -> (Vec<Output>, Result<(), Refusal>)
    ensures outputs { result.0.items ≡ outputs_of (listed (λ v. v.items) said) }
    ensures writes { Writes (sent (outputs_of (listed (λ v. v.items) said))) (answer_of (listed (λ v. v.items) said))
        result.1 (L.connection connection.old) (L.connection connection.new) }
{
    let (outputs, answer) = apart(alloc, said);
    let written = send(alloc, None, outputs.as_slice(), connection);
    (outputs, over(answer, written))
}

// A message of a channel: the end takes it, and a refusal is told to the peer.
fn handle_turn<E: End, L: Carries>(
    alloc: Global,
    end: &mut E,
    id: [u8; 32],
    message: Message,
    connection: &mut L,
) -> (Vec<Output>, Result<(), Refusal>)
    requires { kind_of message ≡ kind.OfChannel id }
    ensures { IsTurn E.acts (E.state end.old) (item.Read message)
        result.0.items result.1 (E.state end.new) (L.connection connection.old) (L.connection connection.new) }
{
    let said = end.handle(alloc, message);
    send_back(alloc, &id, said, connection)
}

// What the peer tells of a failure: the end takes it, and a refusal isn't told to the peer (BOLT 1, "The `error` and
// `warning` Messages"). Otherwise two failed ends would answer each other without end.
fn failure_turn<E: End, L: Carries>(
    alloc: Global,
    end: &mut E,
    message: Message,
    connection: &mut L,
) -> (Vec<Output>, Result<(), Refusal>)
    requires { kind_of message ≡ kind.OfFailure }
    ensures { IsTurn E.acts (E.state end.old) (item.Read message)
        result.0.items result.1 (E.state end.new) (L.connection connection.old) (L.connection connection.new) }
{
    let said = end.handle(alloc, message);
    send_only(alloc, said, connection)
}

// A ping is answered at once.
fn ping_turn<L: Carries>(
    alloc: Global,
    count: u16,
    connection: &mut L,
) -> (Vec<Output>, Result<(), Refusal>)
    ensures outputs { result.0.items ≡ [] }
    ensures goes { Goes (pongs count) result.1 (L.connection connection.old) (L.connection connection.new) }
{
    let made = pong_to(alloc, count);
    let written = send_one(alloc, made, connection);
    (Vec::new(alloc), written)
}

// Nothing is done, and nothing is written.
fn idle_turn(alloc: Global) -> (Vec<Output>, Result<(), Refusal>)
    ensures { (result.0.items ≡ []) × (result.1 ≡ Ok tt) }
{
    (Vec::new(alloc), Ok(()))
}

fn read_turn<E: End, L: Carries>(
    alloc: Global,
    end: &mut E,
    message: Message,
    connection: &mut L,
) -> (Vec<Output>, Result<(), Refusal>)
    ensures { IsTurn E.acts (E.state end.old) (item.Read message)
        result.0.items result.1 (E.state end.new) (L.connection connection.old) (L.connection connection.new) }
{
    match kind_of(&message) {
        Kind::OfConnection => {
            drop(message);
            idle_turn(alloc)
        }
        Kind::Ping(count) => {
            drop(message);
            ping_turn(alloc, count, connection)
        }
        Kind::OfFailure => failure_turn(alloc, end, message, connection),
        Kind::OfChannel(id) => handle_turn(alloc, end, id, message, connection),
    }
}

/// Whether it is reserved for the book: what a record keeps of decisions, what removes an HTLC, and what forwards one.
pub(crate) fn is_reserved(command: &Command) -> bool
    ensures { result ≡ is_reserved command.now }
{
    match command {
        Command::Decide { .. } | Command::Forget(_) | Command::Resume { .. } => true,
        Command::Fulfil { .. } | Command::Fail { .. } | Command::Malformed { .. } => true,
        Command::Add { origin, .. } => origin.is_some(),
        _ => false,
    }
}

// Nothing is done, and nothing is written (40).
fn decline(alloc: Global) -> (Vec<Output>, Result<(), Refusal>)
    ensures { (result.0.items ≡ []) × (result.1 ≡ Err Refusal.NotReady) }
{
    (Vec::new(alloc), Err(Refusal::NotReady))
}

// What is reserved for the book is refused (40).
fn order_turn<E: End, L: Carries>(
    alloc: Global,
    end: &mut E,
    command: Command,
    connection: &mut L,
) -> (Vec<Output>, Result<(), Refusal>)
    ensures { IsTurn E.acts (E.state end.old) (item.Order command)
        result.0.items result.1 (E.state end.new) (L.connection connection.old) (L.connection connection.new) }
{
    if is_reserved(&command) {
        drop(command);
        return decline(alloc);
    }
    let obeyed = obey_turn(alloc, end, command, connection);
    (obeyed.outputs, over(obeyed.answer, obeyed.written))
}

/// Serves one item, as `worker_turn` says, on any connection, or without one.
pub(crate) fn take_turn<E: End, L: Carries>(
    alloc: Global,
    end: &mut E,
    item: Item<&Message>,
    connection: &mut L,
) -> (Vec<Output>, Result<(), Refusal>)
    ensures serves { IsTurn E.acts (E.state end.old) (shown item.entry)
        result.0.items result.1 (E.state end.new) (L.connection connection.old) (L.connection connection.new) }
{
    match item {
        Item::Joined(own_init) => join_turn(alloc, end, own_init, connection),
        Item::Read(message) => read_turn(alloc, end, message, connection),
        Item::Broken => {
            end.drop_connection();
            idle_turn(alloc)
        }
        Item::Order(command) => order_turn(alloc, end, command, connection),
        Item::Stop => idle_turn(alloc),
    }
}

/// Serves one item of a worker's relay: what it makes of the end, and the frames of the messages that are sent for it,
/// in order, in one write. A connection is greeted first, a ping answered, a message of a channel handed to the end and
/// its refusal told to the peer, unless the message is an error or a warning; init and pong ask for nothing. The
/// outputs are all that the end handed out, also where a write failed. Takes memory for the bytes that are written.
///
/// Errors: what the end refuses it by, and then all was written; 40 for an order that is reserved for the book, which
/// changes nothing; or why not all was. 60 where there is no memory for
/// all of the bytes, 7 where a message has more than 65,535 or has records that may not follow its fields: then nothing
/// was written. 63 where a call of the writer failed: then a prefix was.
pub fn worker_turn<E: End, W: Write>(
    alloc: Global,
    end: &mut E,
    item: Item<&Message>,
    writer: &mut Counted<W>,
) -> (Vec<Output>, Result<(), Refusal>)
    ensures serves { IsTurn E.acts (E.state end.old) (shown item.entry) result.0.items result.1 (E.state end.new)
        (Open (connection_of W.contents writer.old)) (Open (connection_of W.contents writer.new)) }
{
    take_turn(alloc, end, item, writer)
}

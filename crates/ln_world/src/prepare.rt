//! What the books of nodes do before a step: what is set is entered, and commands are handed out.

ghost use Rattle.std.specs.Prelude.{◌≡◌, ◌≤◌, OnOk, IfOk, IfErr, Some, None};
ghost use Rattle.ln_refusals.specs.declared.refusal.Refusal.TheVariants as refusal;
ghost use Rattle.ln_book_tables.specs.declared.entry.Entry.TheVariants as entry;
ghost use Rattle.ln_world.specs.Node.{changed, with_policy};
ghost use Rattle.ln_book.specs.Answers.{next_id};
ghost use Rattle.ln_world.specs.BookReports.{event_count};
ghost use Rattle.ln_world.specs.World.{entered, book_of, command_in, command_by, handed_or, handed_out};
ghost use Rattle.ln_world.specs.World.{with_decision, resuming, resumed_at, resumes, refusing, asked};
ghost use Rattle.ln_world.specs.World.{command_of, call_of, unbegun, asked_unbegun, asks_by, end_at};
ghost use Rattle.ln_world.specs.World.{own_act, with_height, if_height, plain, prepared, follow_up_of};
ghost use Rattle.ln_world.specs.World.{stops_behind, if_stopped, link_at, coming_back};
ghost use Rattle.ln_world.specs.declared.follow_up.FollowUp.TheVariants as follow_up;
ghost use Rattle.ln_world.specs.declared.step.Step.TheVariants as step;

use crate::book_reports::{event_count, noted_of};
use crate::call::{end_at, link_at};
use crate::follow_up::{FollowUp, PendingAnswer};
use crate::node::{NodeBook, index_of, place_for};
use crate::step::{Act, Step};
use ln_book::{Book, command_subject, next_id};
use ln_book_tables::Invoice;
use ln_channel::Command;
use ln_forward::Policy;
use ln_hooks::{ChannelEvent, Verdict};
use ln_keys::{ChannelKeys, ToyOnion};
use ln_log::Mark;
use ln_refusals::Refusal;
use ln_world_channels::{Act as ChannelAct, channel_id_of};
use ln_world_dispatch::{End, Node, Nodes, Step as DispatchStep};
use std::alloc::Global;

// The policy of a node. 60 where there is no memory.
fn set_policy(
    alloc: Global,
    nodes: &mut Vec<NodeBook>,
    node: Node,
    policy: Policy,
) -> Result<(), Refusal>
    ensures set { OnOk result (nodes.new.items ≡ changed node (with_policy policy) nodes.old.items) }
    ensures fails_for_memory_alone { IfErr result (λ e. e ≡ refusal.Memory) }
{
    let i = place_for(alloc, nodes, node)?;
    nodes[i].policy = policy;
    Ok(())
}

// The block height of a node. 60 where there is no memory.
fn set_height(
    alloc: Global,
    nodes: &mut Vec<NodeBook>,
    node: Node,
    height: u32,
) -> Result<(), Refusal>
    requires { height ≤ 400000000 }
    ensures set { OnOk result (nodes.new.items ≡ entered node (entry.Height height) nodes.old.items) }
    ensures fails_for_memory_alone { IfErr result (λ e. e ≡ refusal.Memory) }
{
    let i = place_for(alloc, nodes, node)?;
    nodes[i].book.set_height(height);
    Ok(())
}

// A payment that a node waits for. 60 where there is no memory.
fn expect(
    alloc: Global,
    nodes: &mut Vec<NodeBook>,
    node: Node,
    invoice: Invoice,
) -> Result<(), Refusal>
    ensures set { OnOk result (nodes.new.items ≡ entered node (entry.Expect invoice) nodes.old.items) }
    ensures fails_for_memory_alone { IfErr result (λ e. e ≡ refusal.Memory) }
{
    let i = place_for(alloc, nodes, node)?;
    nodes[i].book.expect(
        invoice.preimage,
        invoice.expected.secret,
        invoice.expected.amount,
    )
}

// The book of an end's node hands out the first command for its channel. 60 where there is no memory.
fn hand_out(alloc: Global, nodes: &mut Vec<NodeBook>, end: End) -> Result<Option<Command>, Refusal>
    ensures command { IfOk result (λ c. c ≡ command_in end (book_of end nodes.old.items)) }
    ensures handed { OnOk result (nodes.new.items ≡ handed_out end (Some (book_of end nodes.old.items))
        nodes.old.items) }
    ensures fails_for_memory_alone { IfErr result (λ e. e ≡ refusal.Memory) }
{
    let i = place_for(alloc, nodes, end.node)?;
    nodes[i]
        .book
        .take_commands(alloc, &ToyOnion, channel_id_of(end.channel))
}

// The book of an end's node decides an event, and hands out the first command. 60 where there is no memory.
fn decide(
    alloc: Global,
    nodes: &mut Vec<NodeBook>,
    end: End,
    number: u64,
    event: &ChannelEvent,
    verdict: Verdict,
) -> Result<Option<Command>, Refusal>
    ensures command { IfOk result (λ c. c ≡ command_in end (with_decision end (number, event.now, verdict)
        (book_of end nodes.old.items))) }
    ensures handed { OnOk result (nodes.new.items ≡ handed_out end (Some (with_decision end (number, event.now, verdict)
        (book_of end nodes.old.items))) nodes.old.items) }
    ensures fails_for_memory_alone { IfErr result (λ e. e ≡ refusal.Memory) }
{
    let i = place_for(alloc, nodes, end.node)?;
    let id = channel_id_of(end.channel);
    let book = &mut nodes[i].book;
    drop(book.decide(alloc, &ToyOnion, id, number, event, verdict)?);
    book.take_commands(alloc, &ToyOnion, id)
}

// A book decides what is held by the number of this event, and hands out the first command for the end's channel;
// nothing where it knows of nothing that is held so. 60 where there is no memory.
fn resume_in(
    alloc: Global,
    book: &mut Book,
    end: End,
    number: u64,
    verdict: Verdict,
) -> Result<Option<Command>, Refusal>
    ensures command { IfOk result (λ c. c ≡ command_by end (resuming end number verdict book.old)) }
    ensures handed { OnOk result (book.new ≡ handed_or end (resuming end number verdict book.old) book.old) }
    ensures fails_for_memory_alone { IfErr result (λ e. e ≡ refusal.Memory) }
{
    let id = channel_id_of(end.channel);
    match book.resume(alloc, &ToyOnion, id, number, verdict) {
        Ok(mark) => {
            drop(mark);
            book.take_commands(alloc, &ToyOnion, id)
        }
        Err(Refusal::NotReady) => Ok(None),
        Err(refusal) => Err(refusal),
    }
}

// The same of the book of an end's node, where anything was said of that. 60 where there is no memory.
fn resume(
    alloc: Global,
    nodes: &mut Vec<NodeBook>,
    end: End,
    number: u64,
    verdict: Verdict,
) -> Result<Option<Command>, Refusal>
    ensures command { IfOk result (λ c. c ≡ command_by end (resuming end number verdict
        (book_of end nodes.old.items))) }
    ensures handed { OnOk result (nodes.new.items ≡ handed_out end (resuming end number verdict
        (book_of end nodes.old.items)) nodes.old.items) }
    ensures fails_for_memory_alone { IfErr result (λ e. e ≡ refusal.Memory) }
{
    let Some(i) = index_of(nodes.as_slice(), end.node) else {
        return Ok(None);
    };
    resume_in(alloc, &mut nodes[i].book, end, number, verdict)
}

// The command that the book hands out, for what an end is to do. 60 where there is no memory.
fn ask<K: ChannelKeys + Copy>(
    alloc: Global,
    dispatchers: &Nodes<K>,
    nodes: &mut Vec<NodeBook>,
    end: End,
    what: &Act,
) -> Result<Option<Command>, Refusal>
    ensures command { IfOk result (λ c. c ≡ command_of end what.now
        (record { dispatchers = dispatchers.now; nodes = nodes.old.items })) }
    ensures handed { OnOk result (nodes.new.items ≡ handed_out end (asked end what.now
        (record { dispatchers = dispatchers.now; nodes = nodes.old.items })) nodes.old.items) }
    ensures fails_for_memory_alone { IfErr result (λ e. e ≡ refusal.Memory) }
{
    match what {
        Act::Deliver | Act::Send(_) => Ok(None),
        Act::Take => match end_at(dispatchers.channels(), end) {
            None => Ok(None),
            Some(_) => hand_out(alloc, nodes, end),
        },
        Act::Decide => match dispatchers.waiting(end) {
            None => Ok(None),
            Some((number, event, verdict)) => decide(alloc, nodes, end, number, event, verdict),
        },
        Act::Resume(number, verdict) => match end_at(dispatchers.channels(), end) {
            None => Ok(None),
            Some(_) => resume(alloc, nodes, end, *number, *verdict),
        },
    }
}

// What an end does of its own, where it can: nobody sends what is the book's to command.
fn own_act<K: ChannelKeys + Copy>(dispatchers: &Nodes<K>, end: End, what: Act) -> Option<ChannelAct>
    ensures { result ≡ own_act end what dispatchers.now }
{
    let act = match what {
        Act::Deliver => ChannelAct::Deliver,
        Act::Send(Command::Decide { .. })
        | Act::Send(Command::Forget(_))
        | Act::Send(Command::Resume { .. }) => return None,
        Act::Send(command) => ChannelAct::Send(command),
        Act::Take | Act::Decide | Act::Resume(..) => return None,
    };
    if dispatchers.may_act(end, &act) {
        Some(act)
    } else {
        None
    }
}

fn asked_by(command: &Command, next: u64) -> PendingAnswer
    ensures { Some result ≡ asks_by (Some command.now) next }
{
    PendingAnswer {
        command_subject: command_subject(next, command),
        noted: noted_of(command),
    }
}

// What an act is of its channel, where it can be taken, and what the book asks by it. 60 where there is no memory.
fn begin<K: ChannelKeys + Copy>(
    alloc: Global,
    dispatchers: &Nodes<K>,
    nodes: &mut Vec<NodeBook>,
    end: End,
    what: Act,
) -> Result<(Option<ChannelAct>, Option<PendingAnswer>), Refusal>
    ensures act { IfOk result (λ r. r.0
        ≡ call_of end what (record { dispatchers = dispatchers.now; nodes = nodes.old.items })) }
    ensures asked { IfOk result (λ r. r.1 ≡ asks_by (command_of end what
        (record { dispatchers = dispatchers.now; nodes = nodes.old.items })) (next_id (end_at end dispatchers.now))) }
    ensures handed { OnOk result (nodes.new.items ≡ handed_out end (asked end what
        (record { dispatchers = dispatchers.now; nodes = nodes.old.items })) nodes.old.items) }
    ensures fails_for_memory_alone { IfErr result (λ e. e ≡ refusal.Memory) }
{
    match ask(alloc, dispatchers, nodes, end, &what)? {
        Some(command) => {
            drop(what);
            let next = next_id(end_at(dispatchers.channels(), end));
            let asked = asked_by(&command, next);
            Ok((Some(ChannelAct::Send(command)), Some(asked)))
        }
        None => Ok((own_act(dispatchers, end, what), None)),
    }
}

// What an act is of its channel that isn't begun. 60 where there is no memory.
fn leave<K: ChannelKeys + Copy>(
    alloc: Global,
    dispatchers: &Nodes<K>,
    nodes: &mut Vec<NodeBook>,
    end: End,
    what: Act,
) -> Result<Option<ChannelAct>, Refusal>
    ensures act { IfOk result (λ r. r
        ≡ unbegun end what (record { dispatchers = dispatchers.now; nodes = nodes.old.items })) }
    ensures handed { OnOk result (nodes.new.items ≡ handed_out end (asked_unbegun end what
        (record { dispatchers = dispatchers.now; nodes = nodes.old.items })) nodes.old.items) }
    ensures fails_for_memory_alone { IfErr result (λ e. e ≡ refusal.Memory) }
{
    match what {
        Act::Decide => match dispatchers.waiting(end) {
            None => Ok(None),
            Some((event, _, _)) => Ok(Some(ChannelAct::Send(Command::Decide {
                event,
                mark: Mark::None,
            }))),
        },
        Act::Resume(number, _) => match end_at(dispatchers.channels(), end) {
            None => Ok(None),
            Some(_) => Ok(Some(resumes(number))),
        },
        what => Ok(begin(alloc, dispatchers, nodes, end, what)?.0),
    }
}

// The number by which an act is to resume what is held, where the end is there.
fn resumed_at<K: ChannelKeys + Copy>(dispatchers: &Nodes<K>, end: End, what: &Act) -> Option<u64>
    ensures { result ≡ resumed_at end what.now dispatchers.now }
{
    match what {
        Act::Resume(number, _) => match end_at(dispatchers.channels(), end) {
            None => None,
            Some(_) => Some(*number),
        },
        Act::Deliver | Act::Send(_) | Act::Take | Act::Decide => None,
    }
}

// What that is where it isn't begun: any mark serves.
fn resumes(number: u64) -> ChannelAct
    ensures { result ≡ resumes number }
{
    ChannelAct::Send(Command::Resume {
        event: number,
        mark: Mark::None,
    })
}

// What the books have to do after an act that isn't begun.
fn refusing(end: End, resumed: Option<u64>) -> FollowUp
    ensures { result ≡ refusing end resumed }
{
    match resumed {
        None => FollowUp::None,
        Some(_) => FollowUp::Refuse(end),
    }
}

// An end acts. 60 where there is no memory.
fn prepare_act<K: ChannelKeys + Copy>(
    alloc: Global,
    dispatchers: &Nodes<K>,
    nodes: &mut Vec<NodeBook>,
    end: End,
    what: Act,
) -> Result<(Option<DispatchStep<K>>, FollowUp), Refusal>
    ensures plain { IfOk result (λ r. r.0 ≡ plain K.ChannelKeys (step.Do end what)
        (record { dispatchers = dispatchers.now; nodes = nodes.old.items })) }
    ensures follow_up { IfOk result (λ r. r.1 ≡ follow_up_of {k = K.ChannelKeys} (step.Do end what)
        (record { dispatchers = dispatchers.now; nodes = nodes.old.items })) }
    ensures prepared { OnOk result (nodes.new.items ≡ prepared {k = K.ChannelKeys} (step.Do end what)
        (record { dispatchers = dispatchers.now; nodes = nodes.old.items })) }
    ensures fails_for_memory_alone { IfErr result (λ e. e ≡ refusal.Memory) }
{
    let before = event_count(end_at(dispatchers.channels(), end))?;
    let resumed = resumed_at(dispatchers, end, &what);
    let (act, asked) = begin(alloc, dispatchers, nodes, end, what)?;
    match act {
        None => Ok((None, refusing(end, resumed))),
        Some(act) => Ok((
            Some(DispatchStep::Do(end, act)),
            FollowUp::Act(end, before, asked),
        )),
    }
}

// A node stops after an act of its end that isn't begun: all the same where its book has refused that.
fn stop_unbegun<K: ChannelKeys + Copy>(
    end: End,
    resumed: Option<u64>,
) -> (Option<DispatchStep<K>>, FollowUp)
    ensures plain { result.0 ≡ stops_behind {k = K.ChannelKeys} end None resumed }
    ensures follow_up { result.1 ≡ if_stopped None resumed (follow_up.Restart end.node) }
{
    match resumed {
        None => (None, FollowUp::None),
        Some(number) => (
            Some(DispatchStep::StopBefore(end, resumes(number))),
            FollowUp::Restart(end.node),
        ),
    }
}

// A node stops after an act of its end. 60 where there is no memory.
fn prepare_stop_after<K: ChannelKeys + Copy>(
    alloc: Global,
    dispatchers: &Nodes<K>,
    nodes: &mut Vec<NodeBook>,
    end: End,
    what: Act,
) -> Result<(Option<DispatchStep<K>>, FollowUp), Refusal>
    ensures plain { IfOk result (λ r. r.0 ≡ plain K.ChannelKeys (step.StopAfter end what)
        (record { dispatchers = dispatchers.now; nodes = nodes.old.items })) }
    ensures follow_up { IfOk result (λ r. r.1 ≡ follow_up_of {k = K.ChannelKeys} (step.StopAfter end what)
        (record { dispatchers = dispatchers.now; nodes = nodes.old.items })) }
    ensures prepared { OnOk result (nodes.new.items ≡ prepared {k = K.ChannelKeys} (step.StopAfter end what)
        (record { dispatchers = dispatchers.now; nodes = nodes.old.items })) }
    ensures fails_for_memory_alone { IfErr result (λ e. e ≡ refusal.Memory) }
{
    let resumed = resumed_at(dispatchers, end, &what);
    match begin(alloc, dispatchers, nodes, end, what)?.0 {
        None => Ok(stop_unbegun(end, resumed)),
        Some(act) => Ok((
            Some(DispatchStep::StopAfter(end, act)),
            FollowUp::Restart(end.node),
        )),
    }
}

// What the books have to do after an end's reload: nothing where it hasn't halted.
fn come_back<K: ChannelKeys + Copy>(dispatchers: &Nodes<K>, end: End) -> FollowUp
    ensures { result ≡ coming_back end (link_at end dispatchers.now.channels.channels) }
{
    match link_at(dispatchers.channels(), end) {
        None => FollowUp::None,
        Some(link) => {
            if link.is_halted() {
                FollowUp::Disconnected(end)
            } else {
                FollowUp::None
            }
        }
    }
}

// The block height of a node, where there is such a one. 60 where there is no memory.
fn prepare_height(
    alloc: Global,
    nodes: &mut Vec<NodeBook>,
    node: Node,
    height: u32,
) -> Result<FollowUp, Refusal>
    ensures follow_up { IfOk result (λ r. r ≡ if_height height node) }
    ensures prepared { OnOk result (nodes.new.items ≡ with_height node height nodes.old.items) }
    ensures fails_for_memory_alone { IfErr result (λ e. e ≡ refusal.Memory) }
{
    if height > 400_000_000 {
        return Ok(FollowUp::None);
    }
    set_height(alloc, nodes, node, height)?;
    Ok(FollowUp::Set(node))
}

/// What the books do before a step: the step of dispatchers that it is, if any, and what they have to do after it. 60
/// where there is no memory.
pub(crate) fn prepare<K: ChannelKeys + Copy>(
    alloc: Global,
    dispatchers: &Nodes<K>,
    nodes: &mut Vec<NodeBook>,
    step: Step<K>,
) -> Result<(Option<DispatchStep<K>>, FollowUp), Refusal>
    ensures plain { IfOk result (λ r. r.0 ≡ plain K.ChannelKeys step
        (record { dispatchers = dispatchers.now; nodes = nodes.old.items })) }
    ensures follow_up { IfOk result (λ r. r.1
        ≡ follow_up_of step (record { dispatchers = dispatchers.now; nodes = nodes.old.items })) }
    ensures prepared { OnOk result (nodes.new.items ≡ prepared step
        (record { dispatchers = dispatchers.now; nodes = nodes.old.items })) }
    ensures fails_for_memory_alone { IfErr result (λ e. e ≡ refusal.Memory) }
{
    match step {
        Step::Fees(node, fees) => Ok((Some(DispatchStep::Fees(node, fees)), FollowUp::None)),
        Step::Limits(node, limits) => Ok((
            Some(DispatchStep::Limits(node, limits)),
            FollowUp::None,
        )),
        Step::Policy(node, policy) => {
            set_policy(alloc, nodes, node, policy)?;
            Ok((None, FollowUp::Set(node)))
        }
        Step::Height(node, height) => Ok((None, prepare_height(alloc, nodes, node, height)?)),
        Step::Expect(node, invoice) => {
            expect(alloc, nodes, node, invoice)?;
            Ok((None, FollowUp::Set(node)))
        }
        Step::Open(wish) => Ok((Some(DispatchStep::Open(wish)), FollowUp::None)),
        Step::Do(end, what) => prepare_act(alloc, dispatchers, nodes, end, what),
        Step::Down(end) => Ok((Some(DispatchStep::Down(end)), FollowUp::Disconnected(end))),
        Step::NoMemory(end, what) => {
            let halt = FollowUp::Halt(end, matches!(&what, Act::Take));
            match leave(alloc, dispatchers, nodes, end, what)? {
                None => Ok((None, FollowUp::None)),
                Some(act) => Ok((Some(DispatchStep::NoMemory(end, act)), halt)),
            }
        }
        Step::Restart(node) => Ok((Some(DispatchStep::Restart(node)), FollowUp::Restart(node))),
        Step::Reload(end) => Ok((Some(DispatchStep::Reload(end)), come_back(dispatchers, end))),
        Step::StopBefore(end, what) => match leave(alloc, dispatchers, nodes, end, what)? {
            None => Ok((None, FollowUp::None)),
            Some(act) => Ok((
                Some(DispatchStep::StopBefore(end, act)),
                FollowUp::Restart(end.node),
            )),
        },
        Step::StopAfter(end, what) => prepare_stop_after(alloc, dispatchers, nodes, end, what),
        Step::Up(number) => Ok((Some(DispatchStep::Up(number)), FollowUp::Meet(number))),
        Step::Dispatch(end) => Ok((Some(DispatchStep::Dispatch(end)), FollowUp::None)),
        Step::Register(end, hook) => Ok((Some(DispatchStep::Register(end, hook)), FollowUp::None)),
    }
}

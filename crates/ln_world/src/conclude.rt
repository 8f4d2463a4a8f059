//! What the books of nodes do after a step: they are told what their ends have answered and come to hold, and follow
//! them.

ghost use Rattle.std.specs.Prelude.{◌≡◌, ◌++◌, OnOk, IfErr, option_copied};
ghost use Rattle.ln_refusals.specs.declared.refusal.Refusal.TheVariants as refusal;
ghost use Rattle.ln_world.specs.Node.{changed, with_book};
ghost use Rattle.ln_world.specs.World.{follows, answered, reported, unanswered, saved_dropped, dropped, disconnected};
ghost use Rattle.ln_world.specs.World.{restarted, met, concluded, decided_lines, tells, link_at};
ghost use Rattle.ln_world.specs.Follow.{followed, begun_anew};

use crate::book_reports::{answer_by, report_decided, report_held};
use crate::call::{end_at, link_at};
use crate::follow::{begin_anew, follow};
use crate::follow_up::{FollowUp, PendingAnswer};
use crate::node::{NodeBook, place_for};
use ln_book::Book;
use ln_channel::{Channel as ChannelEnd, ChannelMachine};
use ln_keys::{ChannelKeys, Role};
use ln_refusals::Refusal;
use ln_world_channels::{WorldChannel, channel_id_of};
use ln_world_dispatch::{End, Line, Node, Nodes};
use std::alloc::Global;

// A node's book follows its ends. 60 where there is no memory.
fn follow_node<K: ChannelKeys + Copy>(
    alloc: Global,
    dispatchers: &Nodes<K>,
    nodes: &mut Vec<NodeBook>,
    node: Node,
) -> Result<(), Refusal>
    ensures followed { OnOk result (nodes.new.items
        ≡ changed node (followed dispatchers.now.channels.channels) nodes.old.items) }
    ensures fails_for_memory_alone { IfErr result (λ e. e ≡ refusal.Memory) }
{
    let i = place_for(alloc, nodes, node)?;
    follow(&mut nodes[i], dispatchers.channels())
}

// The book hears what an end has answered to its command.
fn on_answer(book: &mut Book, end: End, asked: Option<PendingAnswer>, told: &[Line])
    ensures { book.new ≡ answered end asked told.now book.old }
{
    match asked {
        None => {}
        Some(asked) => book.answered(
            channel_id_of(end.channel),
            answer_by(asked.command_subject, told),
        ),
    }
}

// The node of an end that has acted. 60 where there is no memory.
fn on_end<K: ChannelKeys + Copy>(
    alloc: Global,
    dispatchers: &Nodes<K>,
    node: &mut NodeBook,
    end: End,
    before: u64,
    asked: Option<PendingAnswer>,
    told: &[Line],
) -> Result<(), Refusal>
    ensures reported { OnOk result (node.new ≡ followed dispatchers.now.channels.channels
        (with_book (reported end before asked told.now dispatchers.now node.old.book) node.old)) }
    ensures fails_for_memory_alone { IfErr result (λ e. e ≡ refusal.Memory) }
{
    let id = channel_id_of(end.channel);
    on_answer(&mut node.book, end, asked, told);
    report_held(
        alloc,
        &mut node.book,
        id,
        end_at(dispatchers.channels(), end),
        before,
    )?;
    follow(node, dispatchers.channels())
}

// An end has acted. 60 where there is no memory.
fn conclude_act<K: ChannelKeys + Copy>(
    alloc: Global,
    dispatchers: &Nodes<K>,
    nodes: &mut Vec<NodeBook>,
    end: End,
    before: u64,
    asked: Option<PendingAnswer>,
    told: &[Line],
) -> Result<(), Refusal>
    ensures concluded { OnOk result (nodes.new.items
        ≡ follows end.node (reported end before asked told.now dispatchers.now) dispatchers.now nodes.old.items) }
    ensures fails_for_memory_alone { IfErr result (λ e. e ≡ refusal.Memory) }
{
    let i = place_for(alloc, nodes, end.node)?;
    on_end(alloc, dispatchers, &mut nodes[i], end, before, asked, told)
}

// The book of an end that has halted, with or without a command of it.
fn on_halt(book: &mut Book, end: End, is_out: bool)
    ensures { book.new ≡ unanswered end is_out book.old }
{
    if is_out {
        book.answered(channel_id_of(end.channel), Err(62));
    }
}

// The node of an end that has halted. 60 where there is no memory.
fn halt_end<K: ChannelKeys + Copy>(
    dispatchers: &Nodes<K>,
    node: &mut NodeBook,
    end: End,
    is_out: bool,
) -> Result<(), Refusal>
    ensures halted { OnOk result (node.new ≡ followed dispatchers.now.channels.channels
        (with_book (unanswered end is_out node.old.book) node.old)) }
    ensures fails_for_memory_alone { IfErr result (λ e. e ≡ refusal.Memory) }
{
    on_halt(&mut node.book, end, is_out);
    follow(node, dispatchers.channels())
}

// An end has halted, with or without a command of its book. 60 where there is no memory.
fn conclude_halt<K: ChannelKeys + Copy>(
    alloc: Global,
    dispatchers: &Nodes<K>,
    nodes: &mut Vec<NodeBook>,
    end: End,
    is_out: bool,
) -> Result<(), Refusal>
    ensures concluded { OnOk result (nodes.new.items
        ≡ follows end.node (unanswered end is_out) dispatchers.now nodes.old.items) }
    ensures fails_for_memory_alone { IfErr result (λ e. e ≡ refusal.Memory) }
{
    let i = place_for(alloc, nodes, end.node)?;
    halt_end(dispatchers, &mut nodes[i], end, is_out)
}

// A book is told what an end has kept. 60 where there is no memory.
fn drop_end(
    alloc: Global,
    book: &mut Book,
    end: End,
    saved: Option<&ChannelEnd>,
) -> Result<(), Refusal>
    ensures dropped { OnOk result (book.new ≡ saved_dropped end (option_copied saved.entry) book.old) }
    ensures fails_for_memory_alone { IfErr result (λ e. e ≡ refusal.Memory) }
{
    match saved {
        None => Ok(()),
        Some(saved) => book.dropped(alloc, channel_id_of(end.channel), saved),
    }
}

// A book is told that a link has lost its connection; of one that has halted nothing is known. 60 where there is no
// memory.
fn drop_link<K: ChannelKeys + Copy>(
    alloc: Global,
    book: &mut Book,
    end: End,
    link: &ChannelMachine<K>,
) -> Result<(), Refusal>
    ensures dropped { OnOk result (book.new ≡ dropped end link.now book.old) }
    ensures fails_for_memory_alone { IfErr result (λ e. e ≡ refusal.Memory) }
{
    if link.is_halted() {
        return Ok(());
    }
    drop_end(alloc, book, end, link.saved())
}

// The node of an end that has lost its connection. 60 where there is no memory.
fn drop_at<K: ChannelKeys + Copy>(
    alloc: Global,
    dispatchers: &Nodes<K>,
    node: &mut NodeBook,
    end: End,
    link: &ChannelMachine<K>,
) -> Result<(), Refusal>
    ensures dropped { OnOk result (node.new ≡ followed dispatchers.now.channels.channels
        (with_book (dropped end link.now node.old.book) node.old)) }
    ensures fails_for_memory_alone { IfErr result (λ e. e ≡ refusal.Memory) }
{
    drop_link(alloc, &mut node.book, end, link)?;
    follow(node, dispatchers.channels())
}

// An end has lost its connection, where it is there. 60 where there is no memory.
fn conclude_disconnection<K: ChannelKeys + Copy>(
    alloc: Global,
    dispatchers: &Nodes<K>,
    nodes: &mut Vec<NodeBook>,
    end: End,
) -> Result<(), Refusal>
    ensures concluded { OnOk result (nodes.new.items
        ≡ disconnected end dispatchers.now (link_at end dispatchers.now.channels.channels) nodes.old.items) }
    ensures fails_for_memory_alone { IfErr result (λ e. e ≡ refusal.Memory) }
{
    let Some(link) = link_at(dispatchers.channels(), end) else {
        return Ok(());
    };
    let i = place_for(alloc, nodes, end.node)?;
    drop_at(alloc, dispatchers, &mut nodes[i], end, link)
}

// A node that has restarted. 60 where there is no memory.
fn restart_at<K: ChannelKeys + Copy>(
    alloc: Global,
    dispatchers: &Nodes<K>,
    node: &mut NodeBook,
) -> Result<(), Refusal>
    ensures restarted { OnOk result (node.new ≡ followed dispatchers.now.channels.channels
        (begun_anew dispatchers.now.channels.channels node.old)) }
    ensures fails_for_memory_alone { IfErr result (λ e. e ≡ refusal.Memory) }
{
    begin_anew(alloc, node, dispatchers.channels())?;
    follow(node, dispatchers.channels())
}

// A node has restarted. 60 where there is no memory.
fn conclude_restart<K: ChannelKeys + Copy>(
    alloc: Global,
    dispatchers: &Nodes<K>,
    nodes: &mut Vec<NodeBook>,
    node: Node,
) -> Result<(), Refusal>
    ensures concluded { OnOk result (nodes.new.items ≡ restarted node dispatchers.now nodes.old.items) }
    ensures fails_for_memory_alone { IfErr result (λ e. e ≡ refusal.Memory) }
{
    let i = place_for(alloc, nodes, node)?;
    restart_at(alloc, dispatchers, &mut nodes[i])
}

// The ends of a channel have a connection, where it is there. 60 where there is no memory.
fn conclude_meet<K: ChannelKeys + Copy>(
    alloc: Global,
    dispatchers: &Nodes<K>,
    nodes: &mut Vec<NodeBook>,
    channel: Option<&WorldChannel<K>>,
) -> Result<(), Refusal>
    ensures concluded { OnOk result (nodes.new.items
        ≡ met dispatchers.now (option_copied channel.entry) nodes.old.items) }
    ensures fails_for_memory_alone { IfErr result (λ e. e ≡ refusal.Memory) }
{
    let Some(channel) = channel else {
        return Ok(());
    };
    let funder = channel.end(Role::Funder).node;
    let fundee = channel.end(Role::Fundee).node;
    follow_node(alloc, dispatchers, nodes, funder)?;
    follow_node(alloc, dispatchers, nodes, fundee)
}

/// What the books do after a step, of which these lines were told. 60 where there is no memory.
pub(crate) fn conclude<K: ChannelKeys + Copy>(
    alloc: Global,
    dispatchers: &Nodes<K>,
    nodes: &mut Vec<NodeBook>,
    follow_up: FollowUp,
    told: &[Line],
) -> Result<(), Refusal>
    ensures concluded { OnOk result (nodes.new.items ≡ concluded follow_up told.now dispatchers.now nodes.old.items) }
    ensures fails_for_memory_alone { IfErr result (λ e. e ≡ refusal.Memory) }
{
    match follow_up {
        FollowUp::None | FollowUp::Refuse(_) => Ok(()),
        FollowUp::Set(node) => follow_node(alloc, dispatchers, nodes, node),
        FollowUp::Act(end, before, asked) => {
            conclude_act(alloc, dispatchers, nodes, end, before, asked, told)
        }
        FollowUp::Disconnected(end) => conclude_disconnection(alloc, dispatchers, nodes, end),
        FollowUp::Halt(end, is_out) => conclude_halt(alloc, dispatchers, nodes, end, is_out),
        FollowUp::Restart(node) => conclude_restart(alloc, dispatchers, nodes, node),
        FollowUp::Meet(number) => {
            conclude_meet(
                alloc,
                dispatchers,
                nodes,
                dispatchers.channels().channel(number),
            )
        }
    }
}

// An end that takes a decision tells of that alone. 60 where there is no memory.
fn report_asked(
    end: End,
    asked: Option<PendingAnswer>,
    told: &[Line],
    lines: &mut Vec<Line>,
) -> Result<(), Refusal>
    ensures told { OnOk result (lines.new.items ≡ lines.old.items ++ decided_lines end asked told.now) }
    ensures fails_for_memory_alone { IfErr result (λ e. e ≡ refusal.Memory) }
{
    match asked {
        None => Ok(()),
        Some(asked) => report_decided(
            end,
            asked.noted,
            answer_by(asked.command_subject, told),
            lines,
        ),
    }
}

/// What is told of a step joins the lines. 60 where there is no memory.
pub(crate) fn report_follow_up(
    follow_up: FollowUp,
    told: &[Line],
    lines: &mut Vec<Line>,
) -> Result<(), Refusal>
    ensures told { OnOk result (lines.new.items ≡ lines.old.items ++ tells follow_up told.now) }
    ensures fails_for_memory_alone { IfErr result (λ e. e ≡ refusal.Memory) }
{
    match follow_up {
        FollowUp::Set(_) => Ok(()),
        FollowUp::Refuse(end) => {
            lines.push(Line::Refused(end, Refusal::NotReady))?;
            Ok(())
        }
        FollowUp::Act(end, _, asked) => {
            lines.extend_from_slice(told)?;
            report_asked(end, asked, told, lines)
        }
        _ => {
            lines.extend_from_slice(told)?;
            Ok(())
        }
    }
}

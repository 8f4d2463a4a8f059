//! What each HTLC of a book has to be commanded, and the first command that can be taken.

ghost use Rattle.std.specs.Prelude.{◌≡◌, IfOk, IfErr, IfSome, Some, length, option_copied, option_map};
ghost use Rattle.std.specs.List.{find};
ghost use Rattle.ln_book.specs.Commands.{own_failure, next_of, add_of, malformed_bytes, removal_resolved};
ghost use Rattle.ln_book.specs.Commands.{removal_by_outgoing};
ghost use Rattle.ln_book.specs.Commands.{removal_by, forget_by, command_of, command_by, due, first_due, is_queued_in};
ghost use Rattle.ln_book.specs.Commands.{queued_command};
ghost use Rattle.ln_book.specs.Commands.{is_resolved_in, forwards_in, first_of, first_command};
ghost use Rattle.ln_book.specs.Commands.{unboxed};

use byteorder::{BigEndian, ByteOrder};
use ln_book_tables::{Htlc, Offer, Out, OutgoingLeg, PendingCommand, Queued, Tables};
use ln_bytes::Bytes;
use ln_channel::Command;
use ln_forward::Failure;
use ln_hooks::How;
use ln_keys::{Onion, OpenFault, Opened, sha256_32};
use ln_log::{ChannelId, Mark};
use ln_refusals::Refusal;
use std::alloc::Global;

/// A failure of the node's own, as it goes back to who offered the HTLC (BOLT 4, "Returning Errors"). Error: 60 alone.
pub(crate) fn own_failure<O: Onion>(
    alloc: Global,
    onion: &O,
    offer: &Offer,
    failure: &Failure,
) -> Result<Bytes, Refusal>
    ensures wrapped { IfOk result (λ b. b ≡ own_failure (O.services onion.now) offer.now failure.now) }
    ensures fails_for_memory_alone { IfErr result (λ r. r ≡ Refusal.Memory) }
{
    match failure.to_bytes(alloc) {
        Ok(bytes) => onion.wrap_failure(alloc, &offer.onion, &offer.hash, bytes.as_slice()),
        Err(_) => Err(Refusal::Memory),
    }
}

// Whether it is known what has become of it in this channel.
fn is_resolved_in(channel: &ChannelId, outgoing: &OutgoingLeg) -> bool
    ensures { result ≡ is_resolved_in channel.now outgoing.now }
{
    match outgoing {
        OutgoingLeg::Absent | OutgoingLeg::Refused | OutgoingLeg::Offered(_) => false,
        OutgoingLeg::Resolved(key, _) => channel == &key.channel,
    }
}

fn forwards_in(channel: &ChannelId, mark: &Mark) -> bool
    ensures { result ≡ forwards_in channel.now mark.now }
{
    match mark {
        Mark::Forward { channel: to, .. } => channel == to,
        Mark::None | Mark::Fail(_) | Mark::Malformed(_) | Mark::Fulfil(_) | Mark::Held(_) => false,
    }
}

// What an HTLC is due in this channel.
fn due(channel: &ChannelId, htlc: &Htlc) -> Option<Out>
    ensures { result ≡ due channel.now htlc.now }
{
    if !htlc.decided {
        None
    } else if htlc.incoming.is_settled() {
        is_resolved_in(channel, &htlc.outgoing).then_some(Out::Forgetting(htlc.key))
    } else if htlc.outgoing.has_nothing_offered() && forwards_in(channel, &htlc.mark) {
        Some(Out::Adding(htlc.key))
    } else if htlc.has_removal() && htlc.incoming.is_open() && channel == &htlc.key.channel {
        Some(Out::Removing(htlc.key))
    } else {
        None
    }
}

// The onion for the next hop.
fn packet_of(opened: &Opened) -> Option<[u8; 1366]>
    requires { IfSome opened.now.next (λ n. length n ≡ 1366) }
    ensures { result ≡ opened.now.next }
{
    match &opened.next {
        None => None,
        Some(bytes) => {
            let mut next = [0; 1366];
            next.copy_from_slice(bytes.as_slice());
            Some(next)
        }
    }
}

// The onion that goes on. Error: 60 alone.
fn next_onion<O: Onion>(
    alloc: Global,
    onion: &O,
    htlc: &Htlc,
) -> Result<Option<[u8; 1366]>, Refusal>
    ensures next { IfOk result (λ n. n
        ≡ next_of ((O.services onion.now).opened htlc.now.offer.onion htlc.now.offer.hash)) }
    ensures fails_for_memory_alone { IfErr result (λ r. r ≡ Refusal.Memory) }
{
    match onion.open(alloc, &htlc.offer.onion, &htlc.offer.hash) {
        Ok(opened) => Ok(packet_of(&opened)),
        Err(OpenFault::Memory) => Err(Refusal::Memory),
        Err(_) => Ok(None),
    }
}

// A command in memory of its own: it is wide, and passed on by many. Error: 60 alone.
fn boxed(alloc: Global, command: Command) -> Result<Option<Box<Command>>, Refusal>
    ensures command { IfOk result (λ c. option_map (λ b. b.value) c ≡ Some command) }
    ensures fails_for_memory_alone { IfErr result (λ r. r ≡ Refusal.Memory) }
{
    Ok(Some(Box::new(alloc, command)?))
}

// The command that offers it. Error: 60 alone.
fn add_of<O: Onion>(alloc: Global, onion: &O, htlc: &Htlc) -> Result<Option<Box<Command>>, Refusal>
    ensures command { IfOk result (λ c. option_map (λ b. b.value) c ≡ add_of (O.services onion.now) htlc.now) }
    ensures fails_for_memory_alone { IfErr result (λ r. r ≡ Refusal.Memory) }
{
    let Some(next) = next_onion(alloc, onion, htlc)? else {
        return Ok(None);
    };
    match &htlc.mark {
        Mark::Forward { amount, expiry, .. } => boxed(
            alloc,
            Command::Add {
                amount: *amount,
                hash: htlc.offer.hash,
                expiry: *expiry,
                onion: next,
                origin: Some((htlc.key.channel, htlc.key.id)),
            },
        ),
        Mark::None | Mark::Held(_) => Ok(None),
        Mark::Fail(_) | Mark::Malformed(_) | Mark::Fulfil(_) => Ok(None),
    }
}

// A failure that says why an onion couldn't be read. Error: 60 alone.
fn malformed_bytes(alloc: Global, sha: &[u8; 32], code: u16) -> Result<Vec<u8>, Refusal>
    ensures bytes { IfOk result (λ v. v.items ≡ malformed_bytes sha.now code) }
    ensures fails_for_memory_alone { IfErr result (λ r. r ≡ Refusal.Memory) }
{
    let mut spelling = [0; 2];
    BigEndian::write_u16(&mut spelling, code);
    let mut bytes = Vec::from_slice(alloc, &spelling)?;
    bytes.extend_from_slice(sha)?;
    Ok(bytes)
}

// The command that passes back what has become of it. Error: 60 alone.
fn removal_resolved<O: Onion>(
    alloc: Global,
    onion: &O,
    htlc: &Htlc,
    how: &How,
) -> Result<Option<Box<Command>>, Refusal>
    ensures command { IfOk result (λ c. option_map (λ b. b.value) c
        ≡ Some (removal_resolved (O.services onion.now) htlc.now how.now)) }
    ensures fails_for_memory_alone { IfErr result (λ r. r ≡ Refusal.Memory) }
{
    let id = htlc.key.id;
    let offer = &htlc.offer;
    match how {
        How::Fulfilled(preimage) => {
            let preimage = *preimage;
            boxed(alloc, Command::Fulfil { id, preimage })
        }
        How::Failed(reason) => {
            let reason = onion.wrap_again(alloc, &offer.onion, &offer.hash, reason.as_slice())?;
            boxed(alloc, Command::Fail { id, reason })
        }
        How::Malformed(sha, code) => {
            let bytes = malformed_bytes(alloc, sha, *code)?;
            let reason = onion.wrap_failure(alloc, &offer.onion, &offer.hash, bytes.as_slice())?;
            boxed(alloc, Command::Fail { id, reason })
        }
    }
}

// The command that removes it, by its way. Error: 60 alone.
fn removal_by_outgoing<O: Onion>(
    alloc: Global,
    onion: &O,
    htlc: &Htlc,
    outgoing: &OutgoingLeg,
) -> Result<Option<Box<Command>>, Refusal>
    ensures command { IfOk result (λ c. option_map (λ b. b.value) c
        ≡ removal_by_outgoing (O.services onion.now) htlc.now outgoing.now) }
    ensures fails_for_memory_alone { IfErr result (λ r. r ≡ Refusal.Memory) }
{
    match outgoing {
        OutgoingLeg::Absent | OutgoingLeg::Offered(_) => Ok(None),
        OutgoingLeg::Refused => {
            let failure = Failure::TemporaryChannelFailure;
            let reason = own_failure(alloc, onion, &htlc.offer, &failure)?;
            boxed(
                alloc,
                Command::Fail {
                    id: htlc.key.id,
                    reason,
                },
            )
        }
        OutgoingLeg::Resolved(_, how) => removal_resolved(alloc, onion, htlc, how),
    }
}

// The command that removes it. Error: 60 alone.
fn removal_of<O: Onion>(
    alloc: Global,
    onion: &O,
    htlc: &Htlc,
) -> Result<Option<Box<Command>>, Refusal>
    ensures command { IfOk result (λ c. option_map (λ b. b.value) c
        ≡ removal_by (O.services onion.now) htlc.now htlc.now.mark) }
    ensures fails_for_memory_alone { IfErr result (λ r. r ≡ Refusal.Memory) }
{
    let id = htlc.key.id;
    match &htlc.mark {
        Mark::None | Mark::Held(_) => Ok(None),
        Mark::Forward { .. } => removal_by_outgoing(alloc, onion, htlc, &htlc.outgoing),
        Mark::Fail(reason) => {
            let reason = reason.clone()?;
            boxed(alloc, Command::Fail { id, reason })
        }
        Mark::Malformed(code) => {
            let sha = sha256_32(&htlc.offer.onion);
            let code = *code;
            boxed(alloc, Command::Malformed { id, sha, code })
        }
        Mark::Fulfil(preimage) => {
            let preimage = *preimage;
            boxed(alloc, Command::Fulfil { id, preimage })
        }
    }
}

// The command that forgets what has become of it. Error: 60 alone.
fn forget_of(alloc: Global, outgoing: &OutgoingLeg) -> Result<Option<Box<Command>>, Refusal>
    ensures command { IfOk result (λ c. option_map (λ b. b.value) c ≡ forget_by outgoing.now) }
    ensures fails_for_memory_alone { IfErr result (λ r. r ≡ Refusal.Memory) }
{
    match outgoing {
        OutgoingLeg::Absent | OutgoingLeg::Refused | OutgoingLeg::Offered(_) => Ok(None),
        OutgoingLeg::Resolved(key, _) => boxed(alloc, Command::Forget(key.id)),
    }
}

// The command of an HTLC. Error: 60 alone.
fn command_of<O: Onion>(
    alloc: Global,
    onion: &O,
    htlc: &Htlc,
    out: Out,
) -> Result<Option<Box<Command>>, Refusal>
    ensures command { IfOk result (λ c. option_map (λ b. b.value) c ≡ command_of (O.services onion.now) htlc.now out) }
    ensures fails_for_memory_alone { IfErr result (λ r. r ≡ Refusal.Memory) }
{
    match out {
        Out::Deciding(_) | Out::Resuming(_) => Ok(None),
        Out::Adding(_) => add_of(alloc, onion, htlc),
        Out::Removing(_) => removal_of(alloc, onion, htlc),
        Out::Forgetting(_) => forget_of(alloc, &htlc.outgoing),
    }
}

// What an HTLC is due in this channel, with its command. Error: 60 alone.
fn command_by<O: Onion>(
    alloc: Global,
    onion: &O,
    channel: &ChannelId,
    htlc: &Htlc,
) -> Result<Option<(Out, Box<Command>)>, Refusal>
    ensures command { IfOk result (λ c. option_map unboxed c ≡ command_by (O.services onion.now)
        htlc.now (due channel.now htlc.now)) }
    ensures fails_for_memory_alone { IfErr result (λ r. r ≡ Refusal.Memory) }
{
    let Some(out) = due(channel, htlc) else {
        return Ok(None);
    };
    match command_of(alloc, onion, htlc, out)? {
        None => Ok(None),
        Some(command) => Ok(Some((out, command))),
    }
}

// The command in this channel of the first HTLC that has one. Error: 60 alone.
fn first_due<O: Onion>(
    alloc: Global,
    onion: &O,
    channel: &ChannelId,
    tables: &Tables,
) -> Result<Option<(Out, Box<Command>)>, Refusal>
    ensures command { IfOk result (λ c. option_map unboxed c ≡ first_due (O.services onion.now)
        channel.now tables.now.htlcs) }
    ensures fails_for_memory_alone { IfErr result (λ r. r ≡ Refusal.Memory) }
{
    for index in 0..tables.due_count() {
        let htlc = tables.due_at(index);
        if let Some(found) = command_by(alloc, onion, channel, htlc)? {
            return Ok(Some(found));
        }
    }
    Ok(None)
}

// The first decision that a channel is yet to take.
fn first_queued<'a>(channel: &ChannelId, queue: &'a [Queued]) -> Option<&'a Queued>
    ensures { option_copied result ≡ find (is_queued_in channel.now) queue.now }
{
    queue.iter().find(|queued| channel == &queued.channel)
}

// The command by which a channel takes a decision. Error: 60 alone.
fn queued_command(alloc: Global, queued: &Queued) -> Result<(Out, Box<Command>), Refusal>
    ensures command { IfOk result (λ x. unboxed x ≡ queued_command queued.now) }
    ensures fails_for_memory_alone { IfErr result (λ r. r ≡ Refusal.Memory) }
{
    let event = queued.event;
    let mark = queued.mark.clone()?;
    if queued.resumes {
        let command = Box::new(alloc, Command::Resume { event, mark })?;
        Ok((Out::Resuming(event), command))
    } else {
        let command = Box::new(alloc, Command::Decide { event, mark })?;
        Ok((Out::Deciding(event), command))
    }
}

// A decision, or else the command of the first HTLC that has one. Error: 60 alone.
fn first_of<O: Onion>(
    alloc: Global,
    onion: &O,
    channel: &ChannelId,
    queued: Option<&Queued>,
    tables: &Tables,
) -> Result<Option<(Out, Box<Command>)>, Refusal>
    ensures command { IfOk result (λ c. option_map unboxed c ≡ first_of (O.services onion.now)
        channel.now (option_copied queued.entry) tables.now.htlcs) }
    ensures fails_for_memory_alone { IfErr result (λ r. r ≡ Refusal.Memory) }
{
    let Some(queued) = queued else {
        return first_due(alloc, onion, channel, tables);
    };
    Ok(Some(queued_command(alloc, queued)?))
}

/// The first command of a channel that can be taken. Error: 60 alone.
pub(crate) fn first_command<O: Onion>(
    alloc: Global,
    onion: &O,
    channel: &ChannelId,
    tables: &Tables,
) -> Result<Option<(Out, Box<Command>)>, Refusal>
    ensures command { IfOk result (λ c. option_map unboxed c ≡ first_command (O.services onion.now)
        channel.now tables.now) }
    ensures fails_for_memory_alone { IfErr result (λ r. r ≡ Refusal.Memory) }
{
    match tables.pending_command(channel) {
        PendingCommand::InFlight(_) | PendingCommand::Unknown(_) => Ok(None),
        PendingCommand::Idle => {
            let queued = first_queued(channel, tables.queue());
            first_of(alloc, onion, channel, queued, tables)
        }
    }
}

//! What a channel has kept, after a lost connection or a load.

ghost use Rattle.std.specs.Prelude.{◌≡◌, filter, IfOk, IfErr, option_copied};
ghost use Rattle.std.specs.List.{find};
ghost use Rattle.ln_book_tables.specs.Replay.{is_queued, is_resumed};
ghost use Rattle.ln_book.specs.Kept.{is_decision_kept, is_pending_command_kept, kept_state_of};

use ln_book_tables::{Ids, KeptState, Out, PendingCommand, Queued, Tables};
use ln_log::{ChannelId, Mark};
use ln_refusals::Refusal;
use std::alloc::Global;

/// What is asked of a channel end, once its connection was lost or it was loaded.
pub trait Kept {
    ghost use Rattle.std.specs.Prelude.{◌≡◌, ℕ, Bool};
    ghost use Rattle.ln_log.specs.declared.mark.Mark.{Mark};

    /// The id of the next own HTLC.
    ghost next: { Self → ℕ };

    /// Whether a removal of the peer's HTLC of this id was kept.
    ghost removes: { Self → ℕ → Bool };

    /// Whether the decision of an event by a mark was kept.
    ghost decides: { Self → ℕ → Mark → Bool };

    /// The id of the next own HTLC: those below it were kept.
    fn next_own_id(&self) -> u64
        ensures { result ≡ next self.now };

    /// Whether a removal of the peer's HTLC of this id was kept.
    fn removal_kept(&self, id: u64) -> bool
        ensures { result ≡ removes self.now id };

    /// Whether the decision of the event of this number by this mark was kept, or the one that resumes what is held by
    /// it.
    fn decision_kept(&self, event: u64, mark: &Mark) -> bool
        ensures { result ≡ decides self.now event mark.now };
}

// Of the ids of the channel's HTLCs those of which a removal was kept. Asks the channel. Error: 60 alone.
fn kept_ids<T: Kept>(alloc: Global, kept: &T, ids: &[u64]) -> Result<Vec<u64>, Refusal>
    ensures ids { IfOk result (λ v. v.items ≡ filter (T.removes kept.now) ids.now) }
    ensures fails_for_memory_alone { IfErr result (λ r. r ≡ Refusal.Memory) }
{
    let mut all = Vec::new(alloc);
    for id in ids {
        if kept.removal_kept(*id) {
            all.push(*id)?;
        }
    }
    Ok(all)
}

// The decision of an event that is queued.
fn queued_at<'a>(channel: &ChannelId, event: u64, queue: &'a [Queued]) -> Option<&'a Queued>
    ensures { option_copied result ≡ find (is_queued channel.now event) queue.now }
{
    queue.iter().find(|queued| queued.decides(channel, event))
}

// That by which what is held is resumed.
fn resumed_at<'a>(channel: &ChannelId, event: u64, queue: &'a [Queued]) -> Option<&'a Queued>
    ensures { option_copied result ≡ find (is_resumed channel.now event) queue.now }
{
    queue
        .iter()
        .find(|queued| queued.is_resumed(channel, event))
}

// Whether that was kept.
fn is_decision_kept<T: Kept>(kept: &T, queued: Option<&Queued>) -> bool
    ensures { result ≡ is_decision_kept (T.decides kept.now) (option_copied queued.entry) }
{
    match queued {
        None => false,
        Some(queued) => kept.decision_kept(queued.event, &queued.mark),
    }
}

// Whether the decision that is out was kept.
fn is_pending_command_kept<T: Kept>(
    kept: &T,
    channel: &ChannelId,
    pending_command: PendingCommand,
    queue: &[Queued],
) -> bool
    ensures { result ≡ is_pending_command_kept (T.decides kept.now) channel.now pending_command queue.now }
{
    match pending_command {
        PendingCommand::Idle => false,
        PendingCommand::InFlight(Out::Deciding(event))
        | PendingCommand::Unknown(Out::Deciding(event)) => {
            is_decision_kept(kept, queued_at(channel, event, queue))
        }
        PendingCommand::InFlight(Out::Resuming(event))
        | PendingCommand::Unknown(Out::Resuming(event)) => {
            is_decision_kept(kept, resumed_at(channel, event, queue))
        }
        PendingCommand::InFlight(_) | PendingCommand::Unknown(_) => false,
    }
}

/// All that a channel is asked. Error: 60 alone.
#[tactic(auto, using(crate::proofs::Lists::kept_among))]
pub fn kept_state_of<T: Kept>(
    alloc: Global,
    kept: &T,
    channel: &ChannelId,
    tables: &Tables,
) -> Result<KeptState, Refusal>
    ensures told { IfOk result (λ x. x ≡ kept_state_of (T.next kept.now) (T.removes kept.now) (T.decides kept.now)
        channel.now tables.now) }
    ensures fails_for_memory_alone { IfErr result (λ r. r ≡ Refusal.Memory) }
{
    let ids = tables.ids_in(alloc, channel)?;
    let removes = kept_ids(alloc, kept, ids.as_slice())?;
    let decides = is_pending_command_kept(
        kept,
        channel,
        tables.pending_command(channel),
        tables.queue(),
    );
    Ok(KeptState {
        next: kept.next_own_id(),
        removes: Ids::of(removes),
        decides,
    })
}

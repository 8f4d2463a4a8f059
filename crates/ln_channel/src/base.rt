//! As an end is saved, the base of its updates moves on.

ghost use Rattle.std.specs.Prelude.{◌≡◌, ◌≤◌, IsTrue};
ghost use Rattle.ln_log.specs.declared.log.Side.TheVariants as side;
ghost use Rattle.ln_log.specs.Log.{between, count_of};
ghost use Rattle.ln_channel.specs.Base.{least_own, least_peer};

use crate::channel::{Channel, own_held, peer_held};
use crate::machine::{ChannelMachine, Stage};
use ln_keys::ChannelKeys;
use ln_log::{Counts, EventRef, Pair, Side, Update, UpdateLog, removed_ids};
use ln_refusals::Refusal;
use std::alloc::Global;

// The least of a count and of the own updates that these events tell of.
fn least_own(held: usize, entries: &[EventRef]) -> usize
    ensures least { result ≡ least_own held entries.now }
    ensures within { result ≤ held }
{
    let mut least = held;
    for entry in entries {
        match entry {
            EventRef::Own(number) => {
                if *number < least as u64 {
                    least = *number as usize;
                }
            }
            EventRef::Peer(_) => {}
            EventRef::Close => {}
        }
    }
    least
}

// Of the peer's.
fn least_peer(held: usize, entries: &[EventRef]) -> usize
    ensures least { result ≡ least_peer held entries.now }
{
    let mut least = held;
    for entry in entries {
        match entry {
            EventRef::Own(_) => {}
            EventRef::Peer(number) => {
                if *number < least as u64 {
                    least = *number as usize;
                }
            }
            EventRef::Close => {}
        }
    }
    least
}

// The own updates that enter the base as it moves on to so many of them; none where it can't.
fn entering(log: &UpdateLog, to: usize) -> &[Update]
    requires not_behind_the_last { to ≤ count_of side.Own log.now }
    ensures { result.now ≡ between log.now.first.own to log.now.own }
{
    let first = log.first(Side::Own);
    // (the counts bound it)
    let _ = log.counts(Pair::Current(Side::Own));
    if to < first {
        log.between(Side::Own, first, first)
    } else {
        log.between(Side::Own, first, to)
    }
}

// Whether the base stands there already.
fn is_base(log: &UpdateLog, to: Counts) -> bool
    ensures { IsTrue result → to ≡ log.now.first }
{
    to.own == log.first(Side::Own) && to.peer == log.first(Side::Peer)
}

impl Channel {
    ghost use Rattle.std.specs.Prelude.{◌≡◌, ◌≤◌, length, OnOk, OnErr, IfErr};
    ghost use Rattle.ln_channel.specs.End.{End, StandsFor};
    ghost use Rattle.ln_channel.specs.Base.{allowed, based};

    // How far the base may move.
    fn allowed(&self) -> Counts
        ensures counts { result ≡ allowed self.now }
        ensures within { result.own ≤ length self.now.dance.log.own }
    {
        let entries = self.ledger.undecided();
        Counts {
            own: least_own(own_held(&self.dance), entries),
            peer: least_peer(peer_held(&self.dance), entries),
        }
    }

    /// What needn't be kept one by one any more is left out: the updates that this end holds as irrevocably committed,
    /// up to the first whose event isn't decided, and the decisions on HTLCs of the peer's that those of them remove
    /// (BOLT 2, "Normal Operation"). Nothing changes where they remove an HTLC that they don't offer, or a side has
    /// spent more by them than it had. Takes time that grows linearly with what is kept, but for finding HTLCs by their
    /// ids in a map. 60 where there was no memory; then nothing has changed.
    pub fn compact(&mut self, alloc: Global) -> Result<(), Refusal>
        ensures state { (e : End) → StandsFor self.old e → OnOk result (StandsFor self.new (based e)) }
        ensures changes_nothing_if_refused { OnErr result (self.new ≡ self.old) }
        ensures fails_for_memory_alone { IfErr result (λ r. r ≡ Refusal.Memory) }
        ensures same_channel { self.new.dance.channel ≡ self.old.dance.channel }
    {
        let to = self.allowed();
        if is_base(self.dance.log(), to) {
            return Ok(());
        }
        let removed = removed_ids(alloc, entering(self.dance.log(), to.own))?;
        if !self.dance.advance(alloc, to)? {
            return Ok(());
        }
        self.ledger.leave_out_removed(&removed);
        Ok(())
    }
}

impl Stage {
    ghost use Rattle.std.specs.Prelude.{◌≡◌, OnOk, OnErr, IfErr};
    ghost use Rattle.ln_channel.specs.State.{StageStands, KeepsChannel};
    ghost use Rattle.ln_channel.specs.Base.{based_stage};

    // The base of its end moves on, where both have signed the opening.
    fn compact(&mut self, alloc: Global) -> Result<(), Refusal>
        ensures state { (s : Stage) → StageStands self.old s → OnOk result (StageStands self.new (based_stage s)) }
        ensures changes_nothing_if_refused { OnErr result (self.new ≡ self.old) }
        ensures fails_for_memory_alone { IfErr result (λ r. r ≡ Refusal.Memory) }
        ensures same_channel { KeepsChannel self.old self.new }
    {
        match self {
            Stage::Funded(channel) => channel.compact(alloc),
            _ => Ok(()),
        }
    }
}

impl<K: ChannelKeys + Drop> ChannelMachine<K> {
    ghost use Rattle.std.specs.Prelude.{◌≡◌, OnOk, OnErr, IfErr};
    ghost use Rattle.ln_channel.specs.State.{State, StandsFor, KeepsChannel};
    ghost use Rattle.ln_channel.specs.Base.{based_link};

    /// Before it is saved, what its end needn't keep one by one any more is left out: `Channel::compact`. Nothing
    /// changes before both have signed the opening. 60 where there was no memory; then nothing has changed.
    pub fn compact(&mut self, alloc: Global) -> Result<(), Refusal>
        ensures state { (l : State K) → StandsFor self.old l → OnOk result (StandsFor self.new (based_link l)) }
        ensures changes_nothing_if_refused { OnErr result (self.new ≡ self.old) }
        ensures fails_for_memory_alone { IfErr result (λ r. r ≡ Refusal.Memory) }
        ensures same_channel { KeepsChannel self.old.stage self.new.stage }
    {
        self.stage.compact(alloc)
    }
}

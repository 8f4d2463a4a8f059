//! The HTLCs of a book in order of deciding, found without a walk.

use crate::entry::{Decided, KeptState, Queued};
use crate::held::{HeldHtlc, held_among};
use crate::htlc::{Htlc, IncomingLeg, Key, OutgoingLeg};
use crate::ids::ids_in;
use crate::indices::Indices;
use crate::lists::{Change, Which};
use crate::lost::put_back_all;
use crate::slots::{change_first, index_all, leave_out, leave_out_over, place_of, squeeze};
use ln_log::{ChannelId, Mark};
use ln_refusals::Refusal;
use std::alloc::Global;
use std::marker::Model;

/// HTLCs in slots, of which one that was left out leaves an empty one, and the indices of those slots. Contracts see
/// the HTLCs. At any time at least half of the slots hold something, and unless two HTLCs have one key the index by key
/// is exact.
#[derive(Drop)]
pub(crate) struct IndexedHtlcs {
    slots: Vec<Option<Htlc>>,
    indices: Indices,
}

impl Model for IndexedHtlcs {
    ghost use Rattle.std.specs.Prelude.{List};
    ghost use Rattle.ln_book_tables.specs.declared.htlc.Htlc.{Htlc};
    ghost use Rattle.ln_book_tables.specs.Slots.{in_slots};
    ghost use Rattle.ln_book_tables.specs.Filled.{IsKept};

    ghost Value = { List Htlc };

    ghost view = { λ h. in_slots h.slots.items };

    ghost invariant = { λ h. IsKept h.slots.items h.indices };
}

impl IndexedHtlcs {
    ghost use Rattle.std.specs.Prelude.{◌≡◌, ◌<◌, [], map, length, OnOk, OnErr, IfOk, IfErr, option_copied};
    ghost use Rattle.std.specs.Prelude.{slice_index_or};
    ghost use Rattle.std.specs.List.{find};
    ghost use Rattle.ln_book_tables.specs.Replay.{changed_first, left_out, with_mark, with_offer, htlc_kept};
    ghost use Rattle.ln_book_tables.specs.Lists.{picks, changed_by};
    ghost use Rattle.ln_book_tables.specs.Due.{due_htlcs};
    ghost use Rattle.ln_book_tables.specs.Held.{held_among};
    ghost use Rattle.ln_book_tables.specs.Ids.{ids_in};

    /// None. Takes no memory.
    pub(crate) fn new(alloc: Global) -> IndexedHtlcs
        ensures { result ≡ [] }
    {
        IndexedHtlcs {
            slots: Vec::new(alloc),
            indices: Indices::new(alloc),
        }
    }

    /// These. Error: 60 alone.
    pub(crate) fn of(alloc: Global, htlcs: Vec<Htlc>) -> Result<IndexedHtlcs, Refusal>
        ensures these { IfOk result (λ h. h ≡ htlcs.items) }
        ensures fails_for_memory_alone { IfErr result (λ r. r ≡ Refusal.Memory) }
    {
        let mut slots = slots_of(alloc, htlcs)?;
        let mut indices = Indices::new(alloc);
        if !indices.reserve(slots.len()) {
            drop(indices);
            drop(slots);
            return Err(Refusal::Memory);
        }
        index_all(slots.as_slice(), &mut indices);
        squeeze(&mut slots, &mut indices);
        Ok(IndexedHtlcs { slots, indices })
    }

    /// The first that is meant.
    pub(crate) fn find(&self, which: &Which) -> Option<&Htlc>
        ensures { option_copied result ≡ find (picks which.now) self.now }
    {
        match place_of(self.slots.as_slice(), &self.indices, which) {
            None => None,
            Some(place) => self.slots[place].as_ref(),
        }
    }

    /// Those that are held and not being resumed. Error: 60 alone.
    pub(crate) fn all_held(&self, alloc: Global, queue: &[Queued]) -> Result<Vec<HeldHtlc>, Refusal>
        ensures held { IfOk result (λ v. v.items ≡ held_among queue.now self.now) }
        ensures fails_for_memory_alone { IfErr result (λ r. r ≡ Refusal.Memory) }
    {
        held_among(alloc, queue, self.slots.as_slice())
    }

    /// The ids of the channel's. Error: 60 alone.
    pub(crate) fn ids_in(&self, alloc: Global, channel: &ChannelId) -> Result<Vec<u64>, Refusal>
        ensures ids { IfOk result (λ v. v.items ≡ ids_in channel.now self.now) }
        ensures fails_for_memory_alone { IfErr result (λ r. r ≡ Refusal.Memory) }
    {
        ids_in(alloc, self.slots.as_slice(), channel)
    }

    /// How many a command may be due to.
    pub(crate) fn due_count(&self) -> usize
        ensures { result ≡ length (due_htlcs self.now) }
    {
        self.indices.due.len()
    }

    /// One of those.
    pub(crate) fn due_at(&self, index: usize) -> &Htlc
        requires { index < length (due_htlcs self.now) }
        ensures { result.now ≡ slice_index_or (due_htlcs self.now) index result.now }
    {
        match &self.slots[self.indices.due[index]] {
            None => unreachable!(),
            Some(htlc) => htlc,
        }
    }

    /// Changes the first one that is meant. Takes no memory.
    pub(crate) fn change_first(&mut self, which: &Which, change: Change)
        ensures { self.new ≡ changed_first (picks which.now) (changed_by change) self.old }
    {
        change_first(&mut self.slots, &mut self.indices, which, change);
    }

    /// Leaves out those that are meant. Takes no memory.
    pub(crate) fn leave_out(&mut self, which: &Which)
        ensures { self.new ≡ left_out (picks which.now) self.old }
    {
        leave_out(&mut self.slots, &mut self.indices, which);
    }

    /// The one that is held by the number of this event gets this mark, and those about which nothing is left to be
    /// done go. Takes no memory.
    pub(crate) fn put_mark(&mut self, channel: &ChannelId, event: u64, mark: Mark)
        ensures { self.new ≡ with_mark channel.now event mark self.old }
    {
        self.change_first(&Which::Held(*channel, event), Change::Mark(mark));
        leave_out_over(&mut self.slots, &mut self.indices);
    }

    /// What a channel has lost of each is put back: by a walk over all, which makes the indices anew. Takes no memory.
    pub(crate) fn put_back_all(&mut self, channel: &ChannelId, told: &KeptState)
        ensures { self.new ≡ map (htlc_kept channel.now told.now) self.old }
    {
        put_back_all(&mut self.slots, channel, told);
        index_all(self.slots.as_slice(), &mut self.indices);
        squeeze(&mut self.slots, &mut self.indices);
    }

    /// The one that was decided, if any, joins the others; the mark is a copy of its mark. Error: 60, which changes
    /// nothing.
    pub(crate) fn join(&mut self, decided: &Decided, mark: Mark) -> Result<(), Refusal>
        requires { mark ≡ decided.now.mark }
        ensures done { OnOk result (self.new ≡ with_offer decided.now decided.now.offer self.old) }
        ensures changes_nothing_if_refused { OnErr result (self.new ≡ self.old) }
        ensures fails_for_memory_alone { IfErr result (λ r. r ≡ Refusal.Memory) }
    {
        if !has_room(&mut self.slots, &mut self.indices) {
            return Err(Refusal::Memory);
        }
        join_reserved(&mut self.slots, &mut self.indices, decided, mark);
        Ok(())
    }
}

ghost use Rattle.std.specs.Prelude.{◌≡◌, ◌<◌, List, [], ◌∷◌, ◌++◌, Option, Some, IsTrue, IfOk, IfErr};
ghost use Rattle.std.specs.Vec.{vec_capacity, vec_len};
ghost use Rattle.ln_book_tables.specs.declared.htlc.Htlc.{Htlc};
ghost use Rattle.ln_book_tables.specs.Replay.{with_offer};
ghost use Rattle.ln_book_tables.specs.Slots.{in_slots};
ghost use Rattle.ln_book_tables.specs.Filled.{held_in, room_in, IsKept};

// A slot for each. Error: 60 alone.
fn slots_of(alloc: Global, htlcs: Vec<Htlc>) -> Result<Vec<Option<Htlc>>, Refusal>
    ensures these { IfOk result (λ v. in_slots v.items ≡ htlcs.items) }
    ensures fails_for_memory_alone { IfErr result (λ r. r ≡ Refusal.Memory) }
{
    let mut slots = Vec::with_capacity(alloc, htlcs.len())?;
    for htlc in htlcs {
        slots.push(Some(htlc))?;
    }
    Ok(slots)
}

// Makes room for one more, and says whether there is.
fn has_room(slots: &mut Vec<Option<Htlc>>, indices: &mut Indices) -> bool
    ensures room { IsTrue result → (vec_len slots.new < vec_capacity slots.new)
        × (vec_len slots.new < vec_capacity indices.new.due) × (vec_len slots.new < room_in indices.new.by_key) }
    ensures same { slots.new.items ≡ slots.old.items }
    ensures kept { (ss : List (Option Htlc)) → IsKept ss indices.old → IsKept ss indices.new }
{
    slots.reserve(1).is_ok() && indices.reserve(slots.capacity())
}

// The HTLC that was decided, if any, joins the others, for which there is room.
fn join_reserved(
    slots: &mut Vec<Option<Htlc>>,
    indices: &mut Indices,
    decided: &Decided,
    mark: Mark,
)
    requires same { mark ≡ decided.now.mark }
    requires room { (vec_len slots.old < vec_capacity slots.old) × (vec_len slots.old < vec_capacity indices.old.due) }
    requires key_room { vec_len slots.old < room_in indices.old.by_key }
    requires kept { IsKept slots.old.items indices.old }
    ensures joined { in_slots slots.new.items ≡ with_offer decided.now decided.now.offer (in_slots slots.old.items) }
    ensures kept { IsKept slots.new.items indices.new }
{
    let Some(offer) = decided.offer else {
        return;
    };
    let channel = decided.channel;
    let id = offer.id;
    let key = Key { channel, id };
    if place_of(slots.as_slice(), indices, &Which::Decided(key)).is_some() {
        return;
    }
    leave_out(slots, indices, &Which::Htlc(key));
    let htlc = Htlc {
        key,
        event: decided.event,
        offer,
        mark,
        decided: false,
        outgoing: OutgoingLeg::Absent,
        incoming: IncomingLeg::Open,
    };
    push(slots, indices, htlc);
}

// One more in a slot after the others.
fn push(slots: &mut Vec<Option<Htlc>>, indices: &mut Indices, htlc: Htlc)
    requires room { (vec_len slots.old < vec_capacity slots.old) × (vec_len slots.old < vec_capacity indices.old.due) }
    requires key_room { held_in slots.old.items < room_in indices.old.by_key }
    requires kept { IsKept slots.old.items indices.old }
    ensures pushed { slots.new.items ≡ slots.old.items ++ Some htlc ∷ [] }
    ensures kept { IsKept slots.new.items indices.new }
{
    let place = slots.len();
    let slot = Some(htlc);
    indices.push(place, &slot);
    slots.push_reserved(slot);
}

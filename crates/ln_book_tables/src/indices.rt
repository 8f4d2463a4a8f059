//! What is kept of the slots of a book, so that an HTLC is found in them without a walk.

use crate::htlc::{Htlc, Key};
use crate::key_index::{KeyIndex, Told};
use crate::lists::Which;
use crate::names::{Names, names_in};
use crate::places::{push_place, put_place};
use ln_log::ChannelId;
use std::alloc::Global;

/// The indices of a book's slots.
#[derive(Drop)]
pub(crate) struct Indices {
    pub(crate) due: Vec<usize>,
    pub(crate) by_key: KeyIndex,
    pub(crate) by_event: KeyIndex,
    pub(crate) by_held: KeyIndex,
    pub(crate) by_outgoing: KeyIndex,
    pub(crate) by_over: KeyIndex,
}

impl Indices {
    ghost use Rattle.std.specs.Prelude.{◌≡◌, ℕ, ◌+◌, ◌<◌, ◌≤◌, List, [], ◌∷◌, ◌++◌, length, get_or, set, Option, None};
    ghost use Rattle.std.specs.Prelude.{IsTrue, not, ◌&&◌, nat_eq};
    ghost use Rattle.std.specs.Vec.{vec_capacity, vec_len};
    ghost use Rattle.ln_book_tables.specs.declared.htlc.Htlc.{Htlc};
    ghost use Rattle.ln_book_tables.specs.Indices.{IsIndexed, names, at_event, told_by};
    ghost use Rattle.ln_book_tables.specs.declared.htlc.Key.{Key};
    ghost use Rattle.ln_book_tables.specs.KeyIndex.{IsIndexOf};
    ghost use Rattle.ln_book_tables.specs.Slots.{in_slots};
    ghost use Rattle.ln_book_tables.specs.Filled.{one_or_none, count_in, room_in, held_in, IsCounted, IsExact};

    /// Of no slots. Takes no memory.
    pub(crate) fn new(alloc: Global) -> Indices
        ensures indexed { IsIndexed [] result }
        ensures counted { IsCounted [] result.by_key }
        ensures exact { IsExact [] result.by_key }
    {
        Indices {
            due: Vec::new(alloc),
            by_key: KeyIndex::new(alloc),
            by_event: KeyIndex::new(alloc),
            by_held: KeyIndex::new(alloc),
            by_outgoing: KeyIndex::new(alloc),
            by_over: KeyIndex::new(alloc),
        }
    }

    /// Of no slots, from now on. Takes no memory.
    pub(crate) fn clear(&mut self)
        ensures indexed { IsIndexed [] self.new }
        ensures counted { IsCounted [] self.new.by_key }
        ensures exact { IsExact [] self.new.by_key }
        ensures room { vec_capacity self.new.due ≡ vec_capacity self.old.due }
        ensures key_room { room_in self.old.by_key ≤ room_in self.new.by_key }
    {
        self.due.clear();
        self.by_key.clear();
        self.by_event.clear();
        self.by_held.clear();
        self.by_outgoing.clear();
        self.by_over.clear();
    }

    /// Makes room for this many slots, and says whether there is.
    pub(crate) fn reserve(&mut self, count: usize) -> bool
        ensures same { (ss : List (Option Htlc)) → IsIndexed ss self.old → IsIndexed ss self.new }
        ensures room { IsTrue result → count ≤ vec_capacity self.new.due }
        ensures enough { IsTrue result → count ≤ room_in self.new.by_key }
        ensures same_keys { (self.new.by_key.places.entries ≡ self.old.by_key.places.entries)
            × (self.new.by_key.exact ≡ self.old.by_key.exact) }
        ensures key_room { room_in self.old.by_key ≤ room_in self.new.by_key }
    {
        let missing = count.saturating_sub(self.due.len());
        self.due.reserve(missing).is_ok() && self.reserve_keys(count)
    }

    // Makes room for this many keys in each.
    fn reserve_keys(&mut self, count: usize) -> bool
        ensures same { (ss : List (Option Htlc)) → IsIndexed ss self.old → IsIndexed ss self.new }
        ensures room { vec_capacity self.new.due ≡ vec_capacity self.old.due }
        ensures enough { IsTrue result → count ≤ room_in self.new.by_key }
        ensures same_keys { (self.new.by_key.places.entries ≡ self.old.by_key.places.entries)
            × (self.new.by_key.exact ≡ self.old.by_key.exact) }
        ensures key_room { room_in self.old.by_key ≤ room_in self.new.by_key }
    {
        self.by_key.reserve(count)
            && self.by_event.reserve(count)
            && self.by_held.reserve(count)
            && self.by_outgoing.reserve(count)
            && self.by_over.reserve(count)
    }

    /// What stands in one more slot, the last one, at this place. Takes no memory.
    pub(crate) fn push(&mut self, place: usize, slot: &Option<Htlc>)
        requires room { place < vec_capacity self.old.due }
        requires fewer { vec_len self.old.due ≤ place }
        ensures indexed { (ss : List (Option Htlc)) → length ss ≡ place → IsIndexed ss self.old
            → IsIndexed (ss ++ slot.now ∷ []) self.new }
        ensures counted { (ss : List (Option Htlc)) → IsCounted ss self.old.by_key
            → held_in (ss ++ slot.now ∷ []) ≤ room_in self.old.by_key
            → IsCounted (ss ++ slot.now ∷ []) self.new.by_key }
        ensures exact { (ss : List (Option Htlc)) → length ss ≡ place → IsIndexed ss self.old
            → IsCounted ss self.old.by_key → held_in (ss ++ slot.now ∷ []) ≤ room_in self.old.by_key
            → IsExact ss self.old.by_key → IsExact (ss ++ slot.now ∷ []) self.new.by_key }
        ensures room { vec_capacity self.new.due ≡ vec_capacity self.old.due }
        ensures key_room { room_in self.old.by_key ≤ room_in self.new.by_key }
    {
        let names = names_in(slot);
        push_place(&mut self.due, place, names.due);
        self.by_key.enter_any(place, &names.key);
        self.by_event.enter_any(place, &names.event);
        self.by_held.enter_any(place, &names.held);
        self.by_outgoing.enter_any(place, &names.outgoing);
        self.by_over.enter_any(place, &names.over);
    }

    /// What stood in the slot at a place was of these names, and now is of those. Takes no memory.
    pub(crate) fn replace(&mut self, place: usize, before: &Names, after: &Names)
        requires { IsTrue (not before.now.due) → vec_len self.old.due < vec_capacity self.old.due }
        ensures indexed { (ss : List (Option Htlc)) (s : Option Htlc) → place < length ss
            → before.now ≡ names (get_or ss place None) → after.now ≡ names s → IsIndexed ss self.old
            → IsIndexed (set ss place s) self.new }
        ensures same_keys { before.now.key ≡ after.now.key → self.new.by_key ≡ self.old.by_key }
        ensures fewer { (at : ℕ → Option Key) → at place ≡ before.now.key → IsIndexOf at self.old.by_key
            → after.now.key ≡ None → IsTrue self.old.by_key.exact
            → count_in self.new.by_key + one_or_none before.now.key ≡ count_in self.old.by_key }
        ensures as_exact { after.now.key ≡ None → self.new.by_key.exact ≡ self.old.by_key.exact }
        ensures key_room { after.now.key ≡ None
            → room_in self.old.by_key ≤ room_in self.new.by_key + one_or_none before.now.key }
        ensures room { vec_capacity self.new.due ≡ vec_capacity self.old.due }
    {
        put_place(&mut self.due, place, before.due, after.due);
        self.by_key.replace(place, &before.key, &after.key);
        self.by_event.replace(place, &before.event, &after.event);
        self.by_held.replace(place, &before.held, &after.held);
        self.by_outgoing
            .replace(place, &before.outgoing, &after.outgoing);
        self.by_over.replace(place, &before.over, &after.over);
    }

    /// Whether it is known that something is left to be done about each HTLC.
    pub(crate) fn has_none_over(&self) -> bool
        ensures { result ≡ self.now.by_over.exact && nat_eq (length self.now.by_over.places.entries) 0 }
    {
        self.by_over.exact && self.by_over.places.is_empty()
    }

    // What an event told of. No event has the number 2^64 - 1.
    fn at_event(&self, channel: &ChannelId, event: u64) -> Told
        ensures { result ≡ at_event channel.now event self.now }
    {
        if event == u64::MAX {
            return Told::Unknown;
        }
        let channel = *channel;
        self.by_event.told(&Key { channel, id: event })
    }

    /// Where the HTLC that is meant may stand.
    pub(crate) fn told(&self, which: &Which) -> Told
        ensures { result ≡ told_by which.now self.now }
    {
        match which {
            Which::Htlc(key) | Which::Finished(key) | Which::Decided(key) => self.by_key.told(key),
            Which::OfEvent(channel, event) | Which::Undecided(channel, event) => {
                self.at_event(channel, *event)
            }
            Which::Offered(key) => self.by_outgoing.told(key),
            Which::Held(channel, event) => {
                let channel = *channel;
                self.by_held.told(&Key {
                    channel,
                    id: *event,
                })
            }
        }
    }
}

//! Where in a list the one of a key stands, found without a walk.

ghost use Rattle.std.specs.Prelude.{◌≡◌, ◌↔◌, IsTrue};
ghost use Rattle.ln_book_tables.specs.declared.htlc.Key.{Key};

use crate::htlc::Key;
use indexmap::IndexMap;
use std::alloc::Global;

/// What an index tells of a key.
#[derive(Clone, Copy)]
pub(crate) enum Told {
    /// The index is not exact: the list has to be walked over.
    Unknown,
    /// It stands nowhere.
    Nowhere,
    /// It stands at this place alone.
    At(usize),
}

/// The place of each key, as long as it is exact: it isn't any more where a key stands at two places, or where there
/// was no memory.
#[derive(Drop)]
pub(crate) struct KeyIndex {
    pub(crate) places: IndexMap<Key, usize>,
    pub(crate) exact: bool,
}

// Whether both are the same key, or none.
fn is_same(before: &Option<Key>, after: &Option<Key>) -> bool
    ensures { IsTrue result ↔ (before.now ≡ after.now) }
{
    match (before, after) {
        (None, None) => true,
        (Some(one), Some(other)) => one.is(other),
        (Some(_), None) | (None, Some(_)) => false,
    }
}

impl KeyIndex {
    ghost use Rattle.std.specs.Prelude.{◌≡◌, ℕ, ◌+◌, ◌<◌, ◌≤◌, [], true, Option, Some, None, IsTrue};
    ghost use Rattle.ln_book_tables.specs.declared.htlc.Key.{Key};
    ghost use Rattle.ln_book_tables.specs.KeyIndex.{IsIndexOf, place_of, put_at, told_in, Leaves, Enters};
    ghost use Rattle.ln_book_tables.specs.Filled.{one_or_none, count_in, spare_in, room_in, StandApart};

    /// Of an empty list. Takes no memory.
    pub(crate) fn new(alloc: Global) -> KeyIndex
        ensures empty { result.places.entries ≡ [] }
        ensures exact { result.exact ≡ true }
    {
        KeyIndex {
            places: IndexMap::new(alloc),
            exact: true,
        }
    }

    /// Of an empty list, from now on. Takes no memory.
    pub(crate) fn clear(&mut self)
        ensures empty { self.new.places.entries ≡ [] }
        ensures exact { self.new.exact ≡ true }
        ensures room { room_in self.old ≤ room_in self.new }
    {
        self.places.clear();
        self.exact = true;
    }

    /// How many keys it has. That says nothing of the list, where it is not exact.
    pub(crate) fn len(&self) -> usize
        ensures { result ≡ count_in self.now }
    {
        self.places.len()
    }

    /// Makes room for this many keys in all, and says whether there is.
    pub(crate) fn reserve(&mut self, count: usize) -> bool
        ensures same { self.new.places.entries ≡ self.old.places.entries }
        ensures as_exact { self.new.exact ≡ self.old.exact }
        ensures room { room_in self.old ≤ room_in self.new }
        ensures enough { IsTrue result → count ≤ room_in self.new }
    {
        let missing = count.saturating_sub(self.places.len());
        self.places.reserve(missing).is_ok()
    }

    /// What it tells of a key.
    pub(crate) fn told(&self, key: &Key) -> Told
        ensures { result ≡ told_in key.now self.now }
    {
        if !self.exact {
            return Told::Unknown;
        }
        match self.places.get(key) {
            None => Told::Nowhere,
            Some(place) => Told::At(*place),
        }
    }

    // A key stands nowhere any more. Takes no memory.
    fn leave(&mut self, key: &Key)
        ensures leaves { Leaves key.now self.old self.new }
        ensures one_fewer { (place : ℕ) → place_of key.now self.old ≡ Some place
            → count_in self.new + 1 ≡ count_in self.old }
        ensures spare { spare_in self.old ≤ spare_in self.new }
        ensures room { room_in self.old ≤ room_in self.new + 1 }
    {
        self.places.swap_remove(key);
    }

    // A key stands at this place. Takes no memory: where there is no room, or where the key stands elsewhere too, the
    // index is not exact any more.
    fn enter(&mut self, place: usize, key: &Key)
        ensures enters { Enters place key.now self.old self.new }
        ensures one_more { count_in self.new ≤ count_in self.old + 1 }
        ensures room { room_in self.old ≤ room_in self.new }
        ensures stays_exact { IsTrue self.old.exact → 0 < spare_in self.old → place_of key.now self.old ≡ None
            → IsTrue self.new.exact }
    {
        if self.places.len() == self.places.capacity() || self.places.contains_key(key) {
            self.exact = false;
            return;
        }
        match self.places.insert(*key, place) {
            Ok(_) => {}
            Err(_) => self.exact = false,
        }
    }

    // What stands at a place, if anything, goes. Takes no memory.
    fn leave_any(&mut self, key: &Option<Key>)
        ensures indexed { (place : ℕ) (at : ℕ → Option Key) → at place ≡ key.now → IsIndexOf at self.old
            → IsIndexOf (put_at place None at) self.new }
        ensures fewer { (place : ℕ) (at : ℕ → Option Key) → at place ≡ key.now → IsIndexOf at self.old
            → IsTrue self.old.exact → count_in self.new + one_or_none key.now ≡ count_in self.old }
        ensures as_exact { self.new.exact ≡ self.old.exact }
        ensures spare { spare_in self.old ≤ spare_in self.new }
        ensures room { room_in self.old ≤ room_in self.new + one_or_none key.now }
    {
        if let Some(key) = key {
            self.leave(key);
        }
    }

    /// This stands at a place, if anything, where nothing stood. Takes no memory.
    pub(crate) fn enter_any(&mut self, place: usize, key: &Option<Key>)
        ensures indexed { (at : ℕ → Option Key) → at place ≡ None → IsIndexOf at self.old
            → IsIndexOf (put_at place key.now at) self.new }
        ensures stays_exact { (at : ℕ → Option Key) → at place ≡ None → IsIndexOf at self.old
            → StandApart (put_at place key.now at) → one_or_none key.now ≤ spare_in self.old
            → IsTrue self.old.exact → IsTrue self.new.exact }
        ensures was_exact { IsTrue self.new.exact → IsTrue self.old.exact }
        ensures same_if_none { key.now ≡ None → self.new ≡ self.old }
        ensures more { count_in self.new ≤ count_in self.old + one_or_none key.now }
        ensures room { room_in self.old ≤ room_in self.new }
    {
        if let Some(key) = key {
            self.enter(place, key);
        }
    }

    /// This stands at a place in place of that. Takes no memory.
    pub(crate) fn replace(&mut self, place: usize, before: &Option<Key>, after: &Option<Key>)
        ensures indexed { (at : ℕ → Option Key) → at place ≡ before.now → IsIndexOf at self.old
            → IsIndexOf (put_at place after.now at) self.new }
        ensures stays_exact { (at : ℕ → Option Key) → at place ≡ before.now → IsIndexOf at self.old
            → StandApart (put_at place after.now at) → 0 < spare_in self.old
            → IsTrue self.old.exact → IsTrue self.new.exact }
        ensures same { before.now ≡ after.now → self.new ≡ self.old }
        ensures fewer { (at : ℕ → Option Key) → at place ≡ before.now → IsIndexOf at self.old → after.now ≡ None
            → IsTrue self.old.exact → count_in self.new + one_or_none before.now ≡ count_in self.old }
        ensures as_exact { after.now ≡ None → self.new.exact ≡ self.old.exact }
        ensures room { after.now ≡ None → room_in self.old ≤ room_in self.new + one_or_none before.now }
    {
        if is_same(before, after) {
            return;
        }
        self.leave_any(before);
        self.enter_any(place, after);
    }
}

//! The slots of a book's HTLCs, and what is found and changed in them by way of their indices.

ghost use Rattle.std.specs.Prelude.{◌≡◌, ◌+◌, ◌<◌, ◌≤◌, not, length, get_or, set, filter, Option, None};
ghost use Rattle.std.specs.Option.{option_map};
ghost use Rattle.std.specs.List.{position};
ghost use Rattle.std.specs.Vec.{vec_capacity, vec_len};
ghost use Rattle.ln_book_tables.specs.Replay.{changed_first, left_out, is_over};
ghost use Rattle.ln_book_tables.specs.Lists.{picks, changed_by};
ghost use Rattle.ln_book_tables.specs.Slots.{in_slots, passes};
ghost use Rattle.ln_book_tables.specs.Indices.{IsIndexed};
ghost use Rattle.ln_book_tables.specs.Filled.{held_in, room_in, IsCounted, IsExact, IsKept};

use crate::htlc::Htlc;
use crate::indices::Indices;
use crate::key_index::Told;
use crate::lists::{Change, Which};
use crate::names::names_in;

// Whether a slot holds the HTLC that is meant.
fn is_picked_in(slot: &Option<Htlc>, which: &Which) -> bool
    ensures { result ≡ passes (picks which.now) slot.now }
{
    match slot {
        None => false,
        Some(htlc) => htlc.is_picked(which),
    }
}

// Whether the slot at a place holds it, if there is one.
fn is_picked_at(slots: &[Option<Htlc>], place: usize, which: &Which) -> bool
    ensures { result ≡ passes (picks which.now) (get_or slots.now place None) }
{
    place < slots.len() && is_picked_in(&slots[place], which)
}

// The place of the first HTLC that is meant, by a walk.
fn walked_to(slots: &[Option<Htlc>], which: &Which) -> Option<usize>
    ensures { result ≡ position (passes (picks which.now)) slots.now }
{
    slots.iter().position(|slot| is_picked_in(slot, which))
}

/// The place of the first HTLC that is meant: without a walk, where the index by which it is found is exact.
pub(crate) fn place_of(slots: &[Option<Htlc>], indices: &Indices, which: &Which) -> Option<usize>
    requires { IsIndexed slots.now indices.now }
    ensures { result ≡ position (passes (picks which.now)) slots.now }
{
    match indices.told(which) {
        Told::Unknown => walked_to(slots, which),
        Told::Nowhere => None,
        Told::At(place) => {
            if is_picked_at(slots, place, which) {
                Some(place)
            } else {
                None
            }
        }
    }
}

/// Makes the indices anew. Takes no memory.
pub(crate) fn index_all(slots: &[Option<Htlc>], indices: &mut Indices)
    requires due { length slots.now ≤ vec_capacity indices.old.due }
    requires keys { held_in slots.now ≤ room_in indices.old.by_key }
    ensures indexed { IsIndexed slots.now indices.new }
    ensures counted { IsCounted slots.now indices.new.by_key }
    ensures exact { IsExact slots.now indices.new.by_key }
    ensures room { vec_capacity indices.new.due ≡ vec_capacity indices.old.due }
    ensures key_room { room_in indices.old.by_key ≤ room_in indices.new.by_key }
{
    indices.clear();
    for place in 0..slots.len() {
        indices.push(place, &slots[place]);
    }
}

// Changes the HTLC of a slot, if it holds one.
fn change_slot(slot: &mut Option<Htlc>, change: Change)
    ensures { slot.new ≡ option_map (changed_by change) slot.old }
{
    match slot {
        None => drop(change),
        Some(htlc) => htlc.change(change),
    }
}

// Changes the HTLC of the slot at a place.
fn change_at(slots: &mut Vec<Option<Htlc>>, indices: &mut Indices, place: usize, change: Change)
    requires there { place < vec_len slots.old }
    requires indexed { IsIndexed slots.old.items indices.old }
    ensures changed { slots.new.items
        ≡ set slots.old.items place (option_map (changed_by change) (get_or slots.old.items place None)) }
    ensures indexed { IsIndexed slots.new.items indices.new }
    ensures same_keys { indices.new.by_key ≡ indices.old.by_key }
{
    let slot = &mut slots[place];
    let before = names_in(slot);
    change_slot(slot, change);
    let after = names_in(slot);
    indices.replace(place, &before, &after);
}

// Empties a slot.
fn empty<T: Drop>(slot: &mut Option<T>)
    ensures { slot.new ≡ None }
{
    *slot = None;
}

// Empties the slot at a place.
fn clear_at(slots: &mut Vec<Option<Htlc>>, indices: &mut Indices, place: usize)
    requires there { place < vec_len slots.old }
    requires indexed { IsIndexed slots.old.items indices.old }
    requires counted { IsCounted slots.old.items indices.old.by_key }
    ensures cleared { slots.new.items ≡ set slots.old.items place None }
    ensures indexed { IsIndexed slots.new.items indices.new }
    ensures counted { IsCounted slots.new.items indices.new.by_key }
    ensures room { (vec_capacity slots.new ≡ vec_capacity slots.old) × (vec_len slots.new ≤ vec_len slots.old)
        × (vec_capacity indices.new.due ≡ vec_capacity indices.old.due) }
    ensures key_room { room_in indices.old.by_key + held_in slots.new.items
        ≤ room_in indices.new.by_key + held_in slots.old.items }
{
    let slot = &mut slots[place];
    let before = names_in(slot);
    empty(slot);
    let after = names_in(slot);
    indices.replace(place, &before, &after);
}

/// Changes the first HTLC that is meant. Takes no memory.
pub(crate) fn change_first(
    slots: &mut Vec<Option<Htlc>>,
    indices: &mut Indices,
    which: &Which,
    change: Change,
)
    requires { IsKept slots.old.items indices.old }
    ensures changed { in_slots slots.new.items
        ≡ changed_first (picks which.now) (changed_by change) (in_slots slots.old.items) }
    ensures kept { IsKept slots.new.items indices.new }
{
    match place_of(slots.as_slice(), indices, which) {
        None => drop(change),
        Some(place) => change_at(slots, indices, place, change),
    }
}

// Leaves out the HTLCs that are meant, by a walk.
fn retain_others(slots: &mut Vec<Option<Htlc>>, indices: &mut Indices, which: &Which)
    requires indexed { IsIndexed slots.old.items indices.old }
    requires counted { IsCounted slots.old.items indices.old.by_key }
    ensures left { slots.new.items ≡ left_out (passes (picks which.now)) slots.old.items }
    ensures indexed { IsIndexed slots.new.items indices.new }
    ensures counted { IsCounted slots.new.items indices.new.by_key }
    ensures room { (vec_capacity slots.new ≡ vec_capacity slots.old) × (vec_len slots.new ≤ vec_len slots.old)
        × (vec_capacity indices.new.due ≡ vec_capacity indices.old.due) }
    ensures key_room { room_in indices.old.by_key + held_in slots.new.items
        ≤ room_in indices.new.by_key + held_in slots.old.items }
{
    slots.retain(|slot| !is_picked_in(slot, which));
    index_all(slots.as_slice(), indices);
}

// Empties the slots of the HTLCs that are meant, or takes them out.
fn empty_all(slots: &mut Vec<Option<Htlc>>, indices: &mut Indices, which: &Which)
    requires indexed { IsIndexed slots.old.items indices.old }
    requires counted { IsCounted slots.old.items indices.old.by_key }
    ensures left { in_slots slots.new.items ≡ left_out (picks which.now) (in_slots slots.old.items) }
    ensures indexed { IsIndexed slots.new.items indices.new }
    ensures counted { IsCounted slots.new.items indices.new.by_key }
    ensures room { (vec_capacity slots.new ≡ vec_capacity slots.old) × (vec_len slots.new ≤ vec_len slots.old)
        × (vec_capacity indices.new.due ≡ vec_capacity indices.old.due) }
    ensures key_room { room_in indices.old.by_key + held_in slots.new.items
        ≤ room_in indices.new.by_key + held_in slots.old.items }
{
    match indices.told(which) {
        Told::Unknown => retain_others(slots, indices, which),
        Told::Nowhere => {}
        Told::At(place) => {
            if is_picked_at(slots.as_slice(), place, which) {
                clear_at(slots, indices, place);
            }
        }
    }
}

/// Leaves out the HTLCs that are meant. Takes no memory.
pub(crate) fn leave_out(slots: &mut Vec<Option<Htlc>>, indices: &mut Indices, which: &Which)
    requires { IsKept slots.old.items indices.old }
    ensures left { in_slots slots.new.items ≡ left_out (picks which.now) (in_slots slots.old.items) }
    ensures kept { IsKept slots.new.items indices.new }
    ensures room { (vec_capacity slots.new ≡ vec_capacity slots.old) × (vec_len slots.new ≤ vec_len slots.old)
        × (vec_capacity indices.new.due ≡ vec_capacity indices.old.due) }
    ensures key_room { room_in indices.old.by_key + held_in slots.new.items
        ≤ room_in indices.new.by_key + held_in slots.old.items }
{
    empty_all(slots, indices, which);
    squeeze(slots, indices);
}

// Whether a slot holds an HTLC about which nothing is left to be done.
fn is_over_in(slot: &Option<Htlc>) -> bool
    ensures { result ≡ passes is_over slot.now }
{
    match slot {
        None => false,
        Some(htlc) => htlc.is_over(),
    }
}

/// Leaves out those about which nothing is left to be done: by a walk over all, unless it is known that there is none.
/// Takes no memory.
pub(crate) fn leave_out_over(slots: &mut Vec<Option<Htlc>>, indices: &mut Indices)
    requires { IsKept slots.old.items indices.old }
    ensures left { in_slots slots.new.items ≡ left_out is_over (in_slots slots.old.items) }
    ensures kept { IsKept slots.new.items indices.new }
{
    if indices.has_none_over() {
        return;
    }
    slots.retain(|slot| !is_over_in(slot));
    index_all(slots.as_slice(), indices);
    squeeze(slots, indices);
}

// Takes empty slots out, and makes the indices anew.
fn take_out_empty(slots: &mut Vec<Option<Htlc>>, indices: &mut Indices)
    requires indexed { IsIndexed slots.old.items indices.old }
    requires counted { IsCounted slots.old.items indices.old.by_key }
    ensures same { in_slots slots.new.items ≡ in_slots slots.old.items }
    ensures kept { IsKept slots.new.items indices.new }
    ensures room { (vec_capacity slots.new ≡ vec_capacity slots.old) × (vec_len slots.new ≤ vec_len slots.old)
        × (vec_capacity indices.new.due ≡ vec_capacity indices.old.due) }
    ensures key_room { room_in indices.old.by_key ≤ room_in indices.new.by_key }
{
    slots.retain(|slot| slot.is_some());
    index_all(slots.as_slice(), indices);
}

/// Takes empty slots out, where they are more than the others, or where it isn't known how many they are. Takes no
/// memory.
pub(crate) fn squeeze(slots: &mut Vec<Option<Htlc>>, indices: &mut Indices)
    requires indexed { IsIndexed slots.old.items indices.old }
    requires counted { IsCounted slots.old.items indices.old.by_key }
    ensures same { in_slots slots.new.items ≡ in_slots slots.old.items }
    ensures kept { IsKept slots.new.items indices.new }
    ensures room { (vec_capacity slots.new ≡ vec_capacity slots.old) × (vec_len slots.new ≤ vec_len slots.old)
        × (vec_capacity indices.new.due ≡ vec_capacity indices.old.due) }
    ensures key_room { room_in indices.old.by_key ≤ room_in indices.new.by_key }
{
    let half = slots.len() - slots.len() / 2;
    if !indices.by_key.exact || half > indices.by_key.len() {
        take_out_empty(slots, indices);
    }
}

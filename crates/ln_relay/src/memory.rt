//! Seats of no relay, for those who test code that sends or receives: what is put is kept, and what is to be
//! taken is given.
ghost use Rattle.std.specs.Prelude.{◌≡◌, ◌≤◌, ◌-◌, ◌++◌, [], length, take, IfOk, vec_len, vec_capacity};
ghost use Rattle.std.specs.Vec.Iter.{into_iter_items};

use crate::traits::{Receives, Sends, Waits};
use std::alloc::{AllocError, Global};
use std::snapshot::Snapshot;
use std::sync::Wait;
use std::vec;

/// A seat that sends and keeps what it was given, as the first sender of a relay that nobody receives from.
#[derive(Drop)]
pub struct MemorySend<T: Drop> {
    items: Vec<T>,
    room: usize,
    ghost reserved: { room ≤ vec_capacity items },
    ghost within: { vec_len items ≤ room },
}

/// A seat that receives what was given at first, as the receiver of a relay that nobody sends to.
#[derive(Drop)]
pub struct MemoryRecv<T: Drop> {
    rest: vec::IntoIter<T>,
    all: Snapshot<Vec<T>>,
    ghost goes_on: { all.value.items ≡
        take (length all.value.items - length (into_iter_items rest)) all.value.items ++ into_iter_items rest },
}

impl<T: Drop> MemorySend<T> {
    ghost use Rattle.ln_relay.specs.Memory.{kept, sender_position};

    /// A seat with room for so many items. Takes the memory for them.
    ///
    /// Error: where there is no memory.
    pub fn new(alloc: Global, room: usize) -> Result<MemorySend<T>, AllocError>
        ensures begins_empty { IfOk result (λ seat. kept seat ≡ []) }
        ensures has_this_room { IfOk result (λ seat. (sender_position seat).room ≡ room) }
    {
        let items = Vec::with_capacity(alloc, room)?;
        Ok(MemorySend { items, room })
    }

    /// What was put, oldest first. Takes no memory.
    pub fn into_items(self) -> Vec<T>
        ensures hands_out_all { result.items ≡ kept self }
    {
        let MemorySend { items, .. } = self;
        items
    }
}

impl<T: Drop> Sends<T> for MemorySend<T> {
    ghost use Rattle.ln_relay.specs.Memory.{kept, sender_position};

    ghost Relay = { Unit {0} };

    ghost position = { sender_position };

    ghost put = { kept };

    fn send<R: Wait>(&mut self, _rt: &R, item: T) -> Result<(), T> {
        if self.items.len() == self.room {
            return Err(item);
        }
        self.items.push_reserved(item);
        Ok(())
    }
}

impl<T: Drop> MemoryRecv<T> {
    ghost use Rattle.ln_relay.specs.Memory.{given, left};

    /// A seat from which these items are taken, the first one first. Takes no memory.
    pub fn new(items: Vec<T>) -> MemoryRecv<T>
        ensures none_taken { given result ≡ [] }
        ensures all_left { left result ≡ items.items }
    {
        let all = Snapshot::of(&items);
        MemoryRecv {
            rest: items.into_iter(),
            all,
        }
    }
}

impl<T: Drop> Receives<T> for MemoryRecv<T> {
    ghost use Rattle.ln_relay.specs.Memory.{given, receiver_position};

    ghost Relay = { Unit {0} };

    ghost position = { receiver_position };

    ghost taken = { given };

    fn recv<R: Wait>(&mut self, _rt: &R) -> Option<T> {
        self.rest.next()
    }
}

impl<T: Drop> Waits<T> for MemoryRecv<T> {
    fn recv_wait<R: Wait>(&mut self, rt: &R) -> Option<T> {
        self.recv(rt)
    }
}

//! Onions that a host opens.

use crate::node::{Ask, HostNode};
use crate::spelling::found_of;
use ln_host::HostRefusal;
use ln_host_onions::name_of;
use ln_library::exactly;
use ln_log::{Add, Side, UpdateLog, add_of, find_add};
use ln_refusals::Refusal;
use std::alloc::Global;

// The HTLC of this id that the peer has offered, among those that a log still has one by one.
fn late_add(log: &UpdateLog, id: u64) -> Option<&Add> {
    for number in log.first(Side::Peer)..log.len(Side::Peer) {
        if let Some(update) = log.update(Side::Peer, number) {
            if let Some(add) = add_of(update) {
                if add.id == id {
                    return Some(add);
                }
            }
        }
    }
    None
}

// The live HTLC of this id that the peer has offered.
pub(crate) fn peers_add(log: &UpdateLog, id: u64) -> Option<&Add> {
    match find_add(id, log.live(Side::Peer)) {
        Some(add) => Some(add),
        None => late_add(log, id),
    }
}

// The ids of the HTLCs that the peer has offered, of all that a log still has.
fn peers_ids(alloc: Global, log: &UpdateLog) -> Result<Vec<u64>, Refusal> {
    let mut ids = Vec::new(alloc);
    for update in log.live(Side::Peer) {
        if let Some(add) = add_of(update) {
            ids.push(add.id)?;
        }
    }
    for number in log.first(Side::Peer)..log.len(Side::Peer) {
        if let Some(update) = log.update(Side::Peer, number) {
            if let Some(add) = add_of(update) {
                ids.push(add.id)?;
            }
        }
    }
    Ok(ids)
}

impl HostNode {
    /// The live HTLC of this id that the peer of a channel has offered. Takes no memory.
    pub(crate) fn incoming(&self, channel: usize, id: u64) -> Option<&Add> {
        match self.end(channel) {
            None => None,
            Some(end) => peers_add(end.dance().log(), id),
        }
    }

    /// Whether something was told of the onion of this name. Takes no memory.
    pub(crate) fn knows(&mut self, name: &[u8; 32]) -> bool {
        self.manager.onion_mut().knows(name)
    }

    // The name of the onion of an HTLC that is asked for now, or was before.
    fn name_at(&self, channel: usize, id: u64) -> Option<[u8; 32]> {
        match self.incoming(channel, id) {
            None => None,
            Some(add) => Some(name_of(&add.onion, &add.hash)),
        }
    }

    /// The name under which the onion of an HTLC was asked for. Takes no memory.
    pub(crate) fn asked_name(&self, channel: usize, id: u64) -> Option<[u8; 32]> {
        match self.seats.get(channel) {
            None => None,
            Some(seat) => seat.onions.get(&id).copied(),
        }
    }

    // How many HTLCs have the onion of this name.
    fn use_count(&self, name: &[u8; 32]) -> u64 {
        match self.uses.get(name) {
            None => 0,
            Some(count) => *count,
        }
    }

    // One more HTLC has the onion of this name.
    fn count_use(&mut self, name: [u8; 32]) -> Result<(), Refusal> {
        let count = self.use_count(&name);
        self.uses.insert(name, count.saturating_add(1))?;
        if count == 0 {
            self.unknown = self.unknown.saturating_add(1);
        }
        Ok(())
    }

    // The onion of an HTLC is asked for, unless another one has it, or it was before. Error: 60 alone.
    pub(crate) fn ask_for(&mut self, channel: usize, id: u64) -> Result<(), Refusal> {
        if self.asked_name(channel, id).is_some() {
            return Ok(());
        }
        let Some(name) = self.name_at(channel, id) else {
            return Ok(());
        };
        self.asks.reserve(1)?;
        let is_new = self.use_count(&name) == 0;
        match self.seats.get_mut(channel) {
            None => return Ok(()),
            Some(seat) => drop(seat.onions.insert(id, name)?),
        }
        if let Err(refusal) = self.count_use(name) {
            self.unname(channel, id);
            return Err(refusal);
        }
        if is_new {
            drop(self.asks.push_back(Ask { channel, id }));
        }
        Ok(())
    }

    // An HTLC has no name any more.
    fn unname(&mut self, channel: usize, id: u64) {
        if let Some(seat) = self.seats.get_mut(channel) {
            drop(seat.onions.remove(&id));
        }
    }

    /// Those of all HTLCs that the peer of a channel has offered. Error: 60 alone.
    pub(crate) fn ask_for_all(&mut self, alloc: Global, channel: usize) -> Result<(), Refusal> {
        let ids = match self.end(channel) {
            None => return Ok(()),
            Some(end) => peers_ids(alloc, end.dance().log())?,
        };
        for id in ids {
            self.ask_for(channel, id)?;
        }
        Ok(())
    }

    // The onion of this name isn't needed any more.
    fn forget_name(&mut self, name: &[u8; 32]) {
        drop(self.uses.remove(name));
        if self.knows(name) {
            self.manager.onion_mut().forget(name);
        } else {
            self.note_known();
        }
    }

    // One name fewer is unknown.
    fn note_known(&mut self) {
        self.unknown = self.unknown.saturating_sub(1);
        if self.unknown == 0 {
            self.is_loading = false;
        }
    }

    /// An HTLC that the peer of a channel offered is gone, and with it what was told of its onion, unless another one
    /// has it. Takes no memory.
    pub(crate) fn forget_onion(&mut self, channel: usize, id: u64) {
        let Some(name) = self.asked_name(channel, id) else {
            return;
        };
        self.unname(channel, id);
        match self.uses.get_mut(&name) {
            Some(count) if *count > 1 => *count -= 1,
            _ => self.forget_name(&name),
        }
    }

    /// What its host found in an onion under a payment hash (32 and 1,366 bytes), which it was asked for.
    ///
    /// Errors: 81 where the bytes are of another length, or say nothing that can be found; 40 where no HTLC has this
    /// onion; 60. Nothing has changed then.
    pub fn onion(
        &mut self,
        alloc: Global,
        hash: &[u8],
        onion: &[u8],
        found: &[u8],
    ) -> Result<(), HostRefusal> {
        let hash = exactly::<32>(hash)?;
        let onion = exactly::<1366>(onion)?;
        let name = name_of(&onion, &hash);
        if self.use_count(&name) == 0 {
            return Err(HostRefusal::Refused(Refusal::NotReady));
        }
        let is_first = !self.knows(&name);
        let found = found_of(alloc, found)?;
        self.manager.onion_mut().tell(&onion, &hash, found)?;
        let was_loading = self.is_loading;
        if is_first {
            self.note_known();
        }
        if was_loading && !self.is_loading {
            self.manager.turn_all(alloc);
        }
        Ok(())
    }
}

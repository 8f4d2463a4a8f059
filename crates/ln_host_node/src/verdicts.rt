//! What a host says of events, and of HTLCs that are held.

use crate::node::HostNode;
use crate::seat::Seat;
use crate::spelling::verdict_of;
use ln_book_tables::HeldHtlc;
use ln_hooks::Verdict;
use ln_host::HostRefusal;
use ln_refusals::Refusal;
use ln_store::stored::{put, put_u32, put_u64};
use std::alloc::Global;

// An HTLC that is held.
fn put_held(out: &mut Vec<u8>, channel: usize, htlc: &HeldHtlc) -> Result<(), Refusal> {
    put_u64(out, channel as u64)?;
    put_u64(out, htlc.number)?;
    put_u64(out, htlc.id)?;
    put_u64(out, htlc.amount)?;
    put(out, &htlc.hash)?;
    put_u32(out, htlc.expiry)
}

// The onion that a verdict needs.
fn needed(seat: Option<&Seat>, verdict: Verdict) -> Option<[u8; 32]> {
    match (seat, verdict) {
        (Some(seat), Verdict::Continue) => seat.asked,
        _ => None,
    }
}

impl HostNode {
    // Whether nothing was told yet of an onion that is needed.
    fn lacks(&mut self, name: Option<[u8; 32]>) -> bool {
        match name {
            None => false,
            Some(name) => !self.knows(&name),
        }
    }

    /// What the host says of the event of a channel that is with it: `Manager::verdict`.
    ///
    /// Errors: 81 where the bytes are no verdict; 80 where a payment is to go on whose onion isn't known yet; nothing
    /// has changed then. Else those of that call.
    pub fn verdict(
        &mut self,
        alloc: Global,
        channel: usize,
        event: u64,
        verdict: &[u8],
    ) -> Result<(), HostRefusal> {
        let verdict = verdict_of(verdict)?;
        if self.is_unseen(channel, event) {
            return Err(HostRefusal::Refused(Refusal::NotReady));
        }
        let name = needed(self.seats.get(channel), verdict);
        if self.lacks(name) {
            return Err(HostRefusal::Asks);
        }
        self.manager.verdict(alloc, channel, event, verdict)?;
        self.conclude(channel);
        Ok(())
    }

    // Whether the host hasn't seen the event yet.
    fn is_unseen(&self, channel: usize, event: u64) -> bool {
        match &self.event {
            None => false,
            Some(pending) => pending.channel == channel && pending.number == event,
        }
    }

    // The event that was with the host is decided.
    fn conclude(&mut self, channel: usize) {
        let over = match self.seats.get_mut(channel) {
            None => None,
            Some(seat) => {
                seat.asked = None;
                let over = seat.over;
                seat.over = None;
                over
            }
        };
        if let Some(id) = over {
            self.forget_onion(channel, id);
        }
    }

    // The onion of what a channel holds by the number of this event. Error: 60 alone.
    fn held_name(
        &self,
        alloc: Global,
        channel: usize,
        event: u64,
    ) -> Result<Option<[u8; 32]>, Refusal> {
        for htlc in self.held_htlcs(alloc)? {
            if htlc.number == event && self.manager.number_of(&htlc.channel) == Some(channel) {
                return Ok(self.asked_name(channel, htlc.id));
            }
        }
        Ok(None)
    }

    // Whether nothing was told yet of the onion of what is held so. Error: 60 alone.
    fn lacks_held(&mut self, alloc: Global, channel: usize, event: u64) -> Result<bool, Refusal> {
        if self.unknown == 0 {
            return Ok(false);
        }
        let name = self.held_name(alloc, channel, event)?;
        Ok(self.lacks(name))
    }

    /// What the host says of an HTLC that a channel holds by the number of this event: `Manager::resume`.
    ///
    /// Errors: 81 where the bytes are no verdict; 80 where it is to go on and its onion isn't known; nothing has
    /// changed then. Else those of that call.
    pub fn resume(
        &mut self,
        alloc: Global,
        channel: usize,
        event: u64,
        verdict: &[u8],
    ) -> Result<(), HostRefusal> {
        let verdict = verdict_of(verdict)?;
        if verdict == Verdict::Continue && self.lacks_held(alloc, channel, event)? {
            return Err(HostRefusal::Asks);
        }
        self.manager.resume(alloc, channel, event, verdict)?;
        Ok(())
    }

    /// The HTLCs that are held, each by its channel's number, the event's, its id and its amount in millisatoshi in
    /// eight bytes each, its payment hash in 32 and its expiry in four. Error: 60 alone.
    pub fn held(&self, alloc: Global) -> Result<Vec<u8>, Refusal> {
        let mut out = Vec::new(alloc);
        for htlc in self.held_htlcs(alloc)? {
            if let Some(channel) = self.manager.number_of(&htlc.channel) {
                put_held(&mut out, channel, &htlc)?;
            }
        }
        Ok(out)
    }
}

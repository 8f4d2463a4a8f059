//! What hooks have seen, for another thread to look at.

use ln_hooks::{ChannelEvent, How};
use std::alloc::{AllocError, Global};
use std::sync::Arc;
use std::sync::atomic::{AtomicU64, Ordering};

/// What the hooks of a payment have seen.
#[derive(Drop)]
pub(crate) struct Seen {
    // What the payer's channel holds as offered, in millisatoshi.
    sent: AtomicU64,
    // What came, in millisatoshi.
    came: AtomicU64,
    // How many payments were fulfilled.
    fulfilled: AtomicU64,
    // How many channels were closed.
    closed: AtomicU64,
}

// How an HTLC was removed, by a number: 1 where it was fulfilled.
fn is_fulfilled(how: &How) -> bool {
    match how {
        How::Fulfilled(_) => true,
        How::Failed(_) => false,
        How::Malformed(_, _) => false,
    }
}

impl Seen {
    /// Nothing yet.
    pub(crate) fn new(alloc: Global) -> Result<Arc<Seen>, AllocError> {
        let seen = Seen {
            sent: AtomicU64::new(0),
            came: AtomicU64::new(0),
            fulfilled: AtomicU64::new(0),
            closed: AtomicU64::new(0),
        };
        Ok(Arc::new(alloc, seen)?)
    }

    /// An event of the payer's channel.
    pub(crate) fn at_payer(&self, event: &ChannelEvent) {
        match event {
            ChannelEvent::Added { amount, .. } => self.sent.store(amount.value(), Ordering::SeqCst),
            ChannelEvent::Settled { how, .. } => {
                if is_fulfilled(how) {
                    self.fulfilled.fetch_add(1, Ordering::SeqCst);
                }
            }
            ChannelEvent::Closed(_) => {
                self.closed.fetch_add(1, Ordering::SeqCst);
            }
        }
    }

    /// An event of the payee's channel.
    pub(crate) fn at_payee(&self, event: &ChannelEvent) {
        match event {
            ChannelEvent::Added { amount, .. } => self.came.store(amount.value(), Ordering::SeqCst),
            ChannelEvent::Settled { .. } => {}
            ChannelEvent::Closed(_) => {
                self.closed.fetch_add(1, Ordering::SeqCst);
            }
        }
    }

    /// What came, in millisatoshi.
    pub(crate) fn paid(&self) -> u64 {
        self.came.load(Ordering::SeqCst)
    }

    /// What was sent beyond that, in millisatoshi.
    pub(crate) fn fee(&self) -> u64 {
        self.sent
            .load(Ordering::SeqCst)
            .saturating_sub(self.came.load(Ordering::SeqCst))
    }

    /// Whether the payment was fulfilled.
    pub(crate) fn is_fulfilled(&self) -> bool {
        self.fulfilled.load(Ordering::SeqCst) > 0
    }

    /// How many channels were closed.
    pub(crate) fn closed(&self) -> u64 {
        self.closed.load(Ordering::SeqCst)
    }
}

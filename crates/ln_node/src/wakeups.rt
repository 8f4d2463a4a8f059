//! The wake-ups of a node's channels.

use crate::wakeup::Wakeup;
use indexmap::IndexMap;
use ln_log::ChannelId;
use std::alloc::{AllocError, Global};
use std::sync::{Arc, Mutex, OnceLock, Wait};

/// A channel's wake-up, and which channel it is.
#[derive(Drop)]
pub(crate) struct ChannelWakeup {
    /// The channel, once both have signed its opening.
    pub(crate) id: OnceLock<ChannelId>,
    /// Sounds where its worker may have something to do.
    pub(crate) wakeup: Wakeup,
}

impl ChannelWakeup {
    /// That of a new channel, which hasn't sounded.
    pub(crate) fn new() -> ChannelWakeup {
        ChannelWakeup {
            id: OnceLock::new(),
            wakeup: Wakeup::new(),
        }
    }
}

/// The wake-ups of a node's channels, by the channels' ids.
#[derive(Drop)]
pub(crate) struct Wakeups {
    kept: Mutex<IndexMap<ChannelId, Arc<ChannelWakeup>>>,
}

impl Wakeups {
    /// None yet. Takes no memory.
    pub(crate) fn new(alloc: Global) -> Wakeups {
        Wakeups {
            kept: Mutex::new(IndexMap::new(alloc)),
        }
    }

    /// Makes room for one channel more than so many.
    pub(crate) fn reserve<R: Wait>(&self, rt: &R, channels: usize) -> Result<(), AllocError> {
        let mut kept = self.kept.lock(rt);
        let missing = channels.saturating_sub(kept.len());
        kept.reserve(missing.saturating_add(1))
    }

    /// Enters the wake-up of a channel, for which there is room.
    pub(crate) fn add<R: Wait>(&self, rt: &R, channel: ChannelId, wakeup: Arc<ChannelWakeup>) {
        let mut kept = self.kept.lock(rt);
        // Without room its worker would look by itself, after a tenth of a second.
        let _ = kept.insert(channel, wakeup);
    }

    /// Sounds that of a channel, where the node has the channel.
    pub(crate) fn ring<R: Wait>(&self, rt: &R, channel: &ChannelId) {
        let kept = self.kept.lock(rt);
        if let Some(found) = kept.get(channel) {
            found.wakeup.ring();
        }
    }
}

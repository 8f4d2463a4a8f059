//! Senders' seats that wake the receiver, or wait for it.

use crate::wakeups::ChannelWakeup;
use ln_relay::Sends;
use std::sync::{Arc, Wait};
use std::thread::Parker;
use std::time::Duration;

/// A sender's seat that wakes the channel's worker after each item that it has put.
#[derive(Drop)]
pub(crate) struct WakingSeat<S: Drop> {
    /// The seat.
    pub(crate) seat: S,
    /// The channel's wake-up.
    pub(crate) channel: Arc<ChannelWakeup>,
}

impl<T: Drop, S: Sends<T> + Drop> Sends<T> for WakingSeat<S> {
    ghost Relay = { S.Relay };

    ghost position = { λ s. S.position s.seat };

    ghost put = { λ s. S.put s.seat };

    fn send<R: Wait>(&mut self, rt: &R, item: T) -> Result<(), T> {
        let sent = self.seat.send(rt, item);
        if sent.is_ok() {
            self.channel.wakeup.ring();
        }
        sent
    }
}

/// A sender's seat that waits a while where there was no room, so that who tries again doesn't keep a processor busy.
#[derive(Drop)]
pub(crate) struct PatientSeat<S: Drop> {
    /// The seat.
    pub(crate) seat: S,
    /// Where it waits; nobody ends that.
    pub(crate) parker: Parker,
}

impl<T: Drop, S: Sends<T> + Drop> Sends<T> for PatientSeat<S> {
    ghost Relay = { S.Relay };

    ghost position = { λ s. S.position s.seat };

    ghost put = { λ s. S.put s.seat };

    fn send<R: Wait>(&mut self, rt: &R, item: T) -> Result<(), T> {
        let sent = self.seat.send(rt, item);
        if sent.is_err() {
            self.parker.park_timeout(rt, Duration::from_millis(1));
        }
        sent
    }
}

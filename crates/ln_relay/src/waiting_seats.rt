//! The seats of a relay whose receiver may wait.
ghost use Rattle.std.specs.Prelude.{◌≡◌, length, true};
ghost use Rattle.crossbeam_channel.specs.Claims.{view, IsSeatAt};
ghost use Rattle.crossbeam_channel.specs.Ends.{sends_on, receives_on};
ghost use Rattle.ln_relay.specs.Rule.{is_sender, is_receiver, put_in, taken_in};

use crate::count::{never, one_more};
use crate::rule::{Hand, Puts, Takes};
use crate::traits::{Receives, Sends, Waits};
use crate::waiting_rule::{RecvEnd, SendEnd};
use crossbeam_channel::{Pass, TrySendError};
use std::sync::Wait;

/// A sender's seat of a relay whose receiver may wait.
#[derive(Drop)]
pub struct WaitSend<T: Drop> {
    pub(crate) end: SendEnd<T>,
    // Kept so that a relay without its receiver is full at last, and never cut off.
    pub(crate) open: RecvEnd<T>,
    pub(crate) pass: Pass<T, Hand<T>>,
    pub(crate) count: u64,
    pub ghost seated: { IsSeatAt (sends_on end) pass },
    pub ghost sends: { is_sender (view pass) ≡ true },
    pub ghost counted: { count ≡ length (put_in (view pass)) },
}

/// The receiver's seat of a relay whose receiver may wait.
#[derive(Drop)]
pub struct WaitRecv<T: Drop> {
    pub(crate) end: RecvEnd<T>,
    pub(crate) pass: Pass<T, Hand<T>>,
    pub(crate) count: u64,
    pub ghost seated: { IsSeatAt (receives_on end) pass },
    pub ghost receives: { is_receiver (view pass) ≡ true },
    pub ghost counted: { count ≡ length (taken_in (view pass)) },
}

impl<T: Drop> Sends<T> for WaitSend<T> {
    ghost use Rattle.ln_relay.specs.WaitSeats as seats;

    ghost Relay = { seats.Queue T };

    ghost position = { seats.sender_position };

    ghost put = { seats.put };

    fn send<R: Wait>(&mut self, rt: &R, item: T) -> Result<(), T> {
        let count = one_more(rt, self.count);
        match self.end.try_send_as::<Puts, R>(rt, &mut self.pass, item) {
            Ok(()) => {
                self.count = count;
                Ok(())
            }
            Err(TrySendError::Full(back)) => Err(back),
            Err(_) => {
                // It has a receiver's end of its own.
                never(rt);
                unreachable!()
            }
        }
    }
}

impl<T: Drop> Receives<T> for WaitRecv<T> {
    ghost use Rattle.ln_relay.specs.WaitSeats as seats;

    ghost Relay = { seats.Queue T };

    ghost position = { seats.receiver_position };

    ghost taken = { seats.taken };

    fn recv<R: Wait>(&mut self, rt: &R) -> Option<T> {
        let count = one_more(rt, self.count);
        match self.end.try_recv_as::<Takes, R>(rt, &mut self.pass) {
            Ok(item) => {
                self.count = count;
                Some(item)
            }
            Err(_) => None,
        }
    }
}

impl<T: Drop> Waits<T> for WaitRecv<T> {
    fn recv_wait<R: Wait>(&mut self, rt: &R) -> Option<T> {
        let count = one_more(rt, self.count);
        match self.end.recv_as::<Takes, R>(rt, &mut self.pass) {
            Ok(item) => {
                self.count = count;
                Some(item)
            }
            Err(_) => None,
        }
    }
}

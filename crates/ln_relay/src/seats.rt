//! The seats of a relay: two send, one receives.
ghost use Rattle.std.specs.Prelude.{◌≡◌, length, true};
ghost use Rattle.std.specs.Arc.{arc_value};
ghost use Rattle.crossbeam_queue.specs.Passes.{view, IsPassOf};
ghost use Rattle.ln_relay.specs.Rule.{is_sender, is_receiver, put_in, taken_in};

use crate::count::one_more;
use crate::rule::{Hand, Puts, Queue, Takes};
use crate::traits::{Receives, Sends};
use crossbeam_queue::Pass;
use std::sync::{Arc, Wait};

/// A sender's seat of a relay.
#[derive(Drop)]
pub struct SendSeat<T: Drop> {
    pub(crate) line: Arc<Queue<T>>,
    pub(crate) pass: Pass<T, Hand<T>>,
    pub(crate) count: u64,
    pub ghost seated: { IsPassOf (arc_value line) pass },
    pub ghost sends: { is_sender (view pass) ≡ true },
    pub ghost counted: { count ≡ length (put_in (view pass)) },
}

/// The receiver's seat of a relay.
#[derive(Drop)]
pub struct RecvSeat<T: Drop> {
    pub(crate) line: Arc<Queue<T>>,
    pub(crate) pass: Pass<T, Hand<T>>,
    pub(crate) count: u64,
    pub ghost seated: { IsPassOf (arc_value line) pass },
    pub ghost receives: { is_receiver (view pass) ≡ true },
    pub ghost counted: { count ≡ length (taken_in (view pass)) },
}

impl<T: Drop> Sends<T> for SendSeat<T> {
    ghost use Rattle.atomic_table.specs.Seated.{TableId};
    ghost use Rattle.ln_relay.specs.Seats as seats;

    ghost Relay = { TableId };

    ghost position = { seats.sender_position };

    ghost put = { seats.put };

    fn send<R: Wait>(&mut self, rt: &R, item: T) -> Result<(), T> {
        let count = one_more(rt, self.count);
        match self.line.push_as::<Puts, R>(rt, &mut self.pass, item) {
            Ok(()) => {
                self.count = count;
                Ok(())
            }
            Err(back) => Err(back),
        }
    }
}

impl<T: Drop> Receives<T> for RecvSeat<T> {
    ghost use Rattle.atomic_table.specs.Seated.{TableId};
    ghost use Rattle.ln_relay.specs.Seats as seats;

    ghost Relay = { TableId };

    ghost position = { seats.receiver_position };

    ghost taken = { seats.taken };

    fn recv<R: Wait>(&mut self, rt: &R) -> Option<T> {
        let count = one_more(rt, self.count);
        match self.line.pop_as::<Takes, R>(rt, &mut self.pass) {
            Some(item) => {
                self.count = count;
                Some(item)
            }
            None => None,
        }
    }
}

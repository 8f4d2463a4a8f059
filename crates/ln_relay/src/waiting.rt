//! A relay whose receiver may wait.
ghost use Rattle.std.specs.Prelude.{◌≡◌, ◌≤◌, [], IfOk};
ghost use Rattle.ln_relay.specs.Position.{AreSeatsOfOne, AreCounts, IsMergeOfAll};
ghost use Rattle.ln_relay.specs.WaitSeats.{put, taken, sender_position, receiver_position};

use crate::finished::Finished;
use crate::rule::{Hand, OneMerge, ReceiverOut, SecondOut, Takes, Together};
use crate::waiting_seats::{WaitRecv, WaitSend};
use crossbeam_channel::bounded_with;
use std::alloc::{AllocError, Global};

/// Makes a relay whose receiver may wait, and that can hold so many items, 1 to 65,536: the first sender's
/// seat, the second's and the receiver's.
///
/// Error: where there is no memory.
pub fn waiting_relay<T: Drop>(
    alloc: Global,
    capacity: usize,
) -> Result<(WaitSend<T>, WaitSend<T>, WaitRecv<T>), AllocError>
    requires capacity_is_allowed { (1 ≤ capacity) × (capacity ≤ 65536) }
    ensures seats_of_one_relay { IfOk result (λ seats.
        AreSeatsOfOne (sender_position seats.0) (sender_position seats.1) (receiver_position seats.2)) }
    ensures all_begin_empty { IfOk result (λ seats. (put seats.0 ≡ []) × (put seats.1 ≡ []) × (taken seats.2 ≡ [])) }
    ensures has_the_capacity { IfOk result (λ seats. (sender_position seats.0).room ≡ capacity) }
    ensures room_of_second { IfOk result (λ seats. (sender_position seats.1).room ≡ capacity) }
    ensures room_of_receiver { IfOk result (λ seats. (receiver_position seats.2).room ≡ capacity) }
{
    let (end, taking, mut pass) = bounded_with::<T, Hand<T>, OneMerge, Global>(alloc, capacity)?;
    let second_pass = end.another::<SecondOut>(&mut pass);
    let receiver_pass = end.another::<ReceiverOut>(&mut pass);
    let second_end = end.try_clone()?;
    let open = taking.try_clone()?;
    let second_open = taking.try_clone()?;
    let first = WaitSend {
        end,
        open,
        pass,
        count: 0,
    };
    let second = WaitSend {
        end: second_end,
        open: second_open,
        pass: second_pass,
        count: 0,
    };
    let receiver = WaitRecv {
        end: taking,
        pass: receiver_pass,
        count: 0,
    };
    Ok((first, second, receiver))
}

/// Takes the three seats of one relay back, and tells how many items each sender has put and how many were
/// taken. What is left in the relay is dropped. Takes no memory.
pub fn finish_waiting<T: Drop>(
    first: WaitSend<T>,
    second: WaitSend<T>,
    receiver: WaitRecv<T>,
) -> Finished
    requires of_one { AreSeatsOfOne (sender_position first) (sender_position second) (receiver_position receiver) }
    ensures counts_are_of_the_seats { AreCounts result (put first) (put second) (taken receiver) }
    ensures merge { IsMergeOfAll (put first) (put second) (taken receiver) }
{
    let done = Finished {
        put_first: first.count,
        put_second: second.count,
        taken: receiver.count,
    };
    let WaitSend { end, mut pass, .. } = first;
    end.absorb::<Together>(&mut pass, second.pass);
    end.absorb::<Together>(&mut pass, receiver.pass);
    end.learn_as::<Takes>(&mut pass);
    done
}

//! A relay that nobody waits at.
ghost use Rattle.std.specs.Prelude.{◌≡◌, ◌≤◌, [], IfOk};
ghost use Rattle.ln_relay.specs.Position.{AreSeatsOfOne, AreCounts, IsMergeOfAll};
ghost use Rattle.ln_relay.specs.Seats.{put, taken, sender_position, receiver_position};

use crate::finished::Finished;
use crate::rule::{Queue, ReceiverOut, SecondOut, Takes, Together};
use crate::seats::{RecvSeat, SendSeat};
use std::alloc::{AllocError, Global};
use std::sync::Arc;

/// Makes a relay that can hold so many items, 1 to 65,536: the first sender's seat, the second's and the
/// receiver's.
///
/// Error: where there is no memory.
pub fn relay<T: Drop>(
    alloc: Global,
    capacity: usize,
) -> Result<(SendSeat<T>, SendSeat<T>, RecvSeat<T>), AllocError>
    requires capacity_is_allowed { (1 ≤ capacity) × (capacity ≤ 65536) }
    ensures seats_of_one_relay { IfOk result (λ seats.
        AreSeatsOfOne (sender_position seats.0) (sender_position seats.1) (receiver_position seats.2)) }
    ensures all_begin_empty { IfOk result (λ seats. (put seats.0 ≡ []) × (put seats.1 ≡ []) × (taken seats.2 ≡ [])) }
    ensures has_the_capacity { IfOk result (λ seats. (sender_position seats.0).room ≡ capacity) }
    ensures room_of_second { IfOk result (λ seats. (sender_position seats.1).room ≡ capacity) }
    ensures room_of_receiver { IfOk result (λ seats. (receiver_position seats.2).room ≡ capacity) }
{
    let (queue, mut pass) = Queue::ruled(alloc, capacity)?;
    let second = queue.another::<SecondOut>(&mut pass);
    let receiver = queue.another::<ReceiverOut>(&mut pass);
    let line = Arc::new(alloc, queue)?;
    let second_line = Arc::try_clone(&line)?;
    let receiver_line = Arc::try_clone(&line)?;
    Ok((
        SendSeat {
            line,
            pass,
            count: 0,
        },
        SendSeat {
            line: second_line,
            pass: second,
            count: 0,
        },
        RecvSeat {
            line: receiver_line,
            pass: receiver,
            count: 0,
        },
    ))
}

/// Takes the three seats of one relay back, and tells how many items each sender has put and how many were
/// taken. What is left in the relay is dropped. Takes no memory.
pub fn finish<T: Drop>(first: SendSeat<T>, second: SendSeat<T>, receiver: RecvSeat<T>) -> Finished
    requires of_one { AreSeatsOfOne (sender_position first) (sender_position second) (receiver_position receiver) }
    ensures counts_are_of_the_seats { AreCounts result (put first) (put second) (taken receiver) }
    ensures merge { IsMergeOfAll (put first) (put second) (taken receiver) }
{
    let done = Finished {
        put_first: first.count,
        put_second: second.count,
        taken: receiver.count,
    };
    let SendSeat { line, mut pass, .. } = first;
    line.absorb::<Together>(&mut pass, second.pass);
    line.absorb::<Together>(&mut pass, receiver.pass);
    line.learn_as::<Takes>(&mut pass);
    done
}

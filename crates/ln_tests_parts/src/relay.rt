//! The relays and the seats of no relay, on rows and across threads.

ghost use Rattle.std.specs.Prelude.{◌≡◌, ◌≤◌};

use ln_relay::{
    Finished, MemoryRecv, MemorySend, Receives, Sends, Waits, finish, finish_waiting, relay,
    waiting_relay,
};
use std::alloc::AllocError;
use std::sync::Wait;
use std::sync::atomic::{AtomicU64, Ordering};
use std::thread;
use std::thread::Threads;

/// How often a thread tries again, until it gives up.
const TURNS: u64 = 100_000_000;

/// Sends 1, 2 and 3.
fn put_three<S: Sends<u32>, R: Wait>(rt: &R, seat: &mut S) -> [Result<(), u32>; 3]
    ensures position_stays { S.position seat.new ≡ S.position seat.old }
{
    [seat.send(rt, 1), seat.send(rt, 2), seat.send(rt, 3)]
}

/// Receives three times.
fn take_three<S: Receives<u32>, R: Wait>(rt: &R, seat: &mut S) -> [Option<u32>; 3]
    ensures position_stays { S.position seat.new ≡ S.position seat.old }
{
    [seat.recv(rt), seat.recv(rt), seat.recv(rt)]
}

/// Whether a relay of two items takes the first two of three. The checks are generic in seats: what names a seat of a
/// relay pays for its whole depth.
fn puts_two<S: Sends<u32>, R: Wait>(rt: &R, seat: &mut S) -> bool
    ensures position_stays { S.position seat.new ≡ S.position seat.old }
{
    put_three(rt, seat) == [Ok(()), Ok(()), Err(3)]
}

/// Whether these are received.
fn takes<S: Receives<u32>, R: Wait>(rt: &R, seat: &mut S, wanted: [Option<u32>; 3]) -> bool
    ensures position_stays { S.position seat.new ≡ S.position seat.old }
{
    take_three(rt, seat) == wanted
}

/// Whether 1 comes to a seat that may wait, then 2, and no more.
fn takes_two<D: Waits<u32>, R: Wait>(rt: &R, seat: &mut D) -> bool {
    seat.recv_wait(rt) == Some(1) && takes(rt, seat, [Some(2), None, None])
}

/// Sends an item, and tries again where the relay is full.
fn put_one<S: Sends<u32>, R: Wait>(rt: &R, seat: &mut S, item: u32)
    ensures position_stays { S.position seat.new ≡ S.position seat.old }
{
    for _ in 0..TURNS {
        if seat.send(rt, item).is_ok() {
            return;
        }
        thread::yield_now();
    }
}

/// Sends 10,000 numbers from `from` on.
fn put_all<S: Sends<u32>, R: Wait>(rt: &R, mut seat: S, from: u32) -> S
    requires within { from ≤ 100000 }
    ensures position_stays { S.position result ≡ S.position seat }
{
    for i in 0..10_000u32 {
        put_one(rt, &mut seat, from + i);
    }
    seat
}

/// Receives an item, and tries again where the relay is empty.
fn take_one<S: Receives<u32>, R: Wait>(rt: &R, seat: &mut S) -> Option<u32>
    ensures position_stays { S.position seat.new ≡ S.position seat.old }
{
    for _ in 0..TURNS {
        if let Some(item) = seat.recv(rt) {
            return Some(item);
        }
        thread::yield_now();
    }
    None
}

/// Which item of each sender comes next, and whether all came in order so far.
#[derive(Clone, Copy, PartialEq, Eq)]
struct Order {
    first: u32,
    second: u32,
    holds: bool,
}

impl Order {
    fn see(&mut self, item: u32) {
        if item == self.first {
            self.first = item.wrapping_add(1);
        } else if item == self.second {
            self.second = item.wrapping_add(1);
        } else {
            self.holds = false;
        }
    }
}

/// Receives 20,000 items.
fn take_all<S: Receives<u32>, R: Wait>(rt: &R, mut seat: S) -> (S, Order)
    ensures position_stays { S.position result.0 ≡ S.position seat }
{
    let mut order = Order {
        first: 0,
        second: 100_000,
        holds: true,
    };
    for _ in 0..20_000 {
        match take_one(rt, &mut seat) {
            Some(item) => order.see(item),
            None => order.holds = false,
        }
    }
    (seat, order)
}

/// What 20,000 items come to that are a merge of what two senders have put.
const MERGED: Order = Order {
    first: 10_000,
    second: 110_000,
    holds: true,
};

const ALL: Finished = Finished {
    put_first: 10_000,
    put_second: 10_000,
    taken: 20_000,
};

const TWO: Finished = Finished {
    put_first: 2,
    put_second: 0,
    taken: 2,
};

#[test]
fn small_relay_hands_over(rt: HostRuntime) -> Result<(), AllocError> {
    let (mut first, second, mut receiver) = relay(rt.alloc(), 2)?;
    assert!(rt; puts_two(&rt, &mut first));
    assert!(rt; takes(&rt, &mut receiver, [Some(1), Some(2), None]));
    assert!(rt; finish(first, second, receiver) == TWO);
    Ok(())
}

#[test]
fn small_waiting_relay_hands_over(rt: HostRuntime) -> Result<(), AllocError> {
    let (mut first, second, mut receiver) = waiting_relay(rt.alloc(), 2)?;
    assert!(rt; puts_two(&rt, &mut first));
    assert!(rt; takes(&rt, &mut receiver, [Some(1), Some(2), None]));
    assert!(rt; finish_waiting(first, second, receiver) == TWO);
    Ok(())
}

#[test]
fn small_seats_of_no_relay(rt: HostRuntime) -> Result<(), AllocError> {
    let mut sender = MemorySend::new(rt.alloc(), 2)?;
    assert!(rt; puts_two(&rt, &mut sender));
    let mut receiver = MemoryRecv::new(sender.into_items());
    assert!(rt; takes_two(&rt, &mut receiver));
    Ok(())
}

/// Two threads send and one receives, until all have ended: the seats, and whether the receiver saw a merge.
fn hand_over<S: Sends<u32> + Send + Drop, D: Receives<u32> + Send + Drop, R: Threads + Wait + Sync>(
    rt: &R,
    first: S,
    second: S,
    receiver: D,
) -> ((S, S, D), bool)
    ensures first_stays { S.position result.0.0 ≡ S.position first }
    ensures second_stays { S.position result.0.1 ≡ S.position second }
    ensures receiver_stays { D.position result.0.2 ≡ D.position receiver }
{
    let (first, (second, (receiver, order))) = thread::join(
        rt,
        move ||
            ensures { S.position result ≡ S.position first }
        { put_all(rt, first, 0) },
        move ||
            ensures second_stays { S.position result.0 ≡ S.position second }
            ensures receiver_stays { D.position result.1.0 ≡ D.position receiver }
        {
            thread::join(
                rt,
                move ||
                    ensures { S.position result ≡ S.position second }
                { put_all(rt, second, 100_000) },
                move ||
                    ensures { D.position result.0 ≡ D.position receiver }
                { take_all(rt, receiver) },
            )
        },
    );
    ((first, second, receiver), order == MERGED)
}

#[test]
fn threads_hand_over_in_order(rt: HostRuntime) -> Result<(), AllocError> {
    let (first, second, receiver) = relay(rt.alloc(), 8)?;
    let ((first, second, receiver), is_merge) = hand_over(&rt, first, second, receiver);
    assert!(rt; is_merge);
    assert!(rt; finish(first, second, receiver) == ALL);
    Ok(())
}

#[test]
fn threads_hand_over_in_order_where_one_may_wait(rt: HostRuntime) -> Result<(), AllocError> {
    let (first, second, receiver) = waiting_relay(rt.alloc(), 8)?;
    let ((first, second, receiver), is_merge) = hand_over(&rt, first, second, receiver);
    assert!(rt; is_merge);
    assert!(rt; finish_waiting(first, second, receiver) == ALL);
    Ok(())
}

/// Sets the flag, and takes one item.
fn wait_for_one<D: Waits<u32> + Drop, R: Wait>(
    rt: &R,
    flag: &AtomicU64,
    mut seat: D,
) -> Option<u32> {
    flag.store(1, Ordering::SeqCst);
    seat.recv_wait(rt)
}

/// Sends 1, a thousand turns after it saw the flag.
fn send_late<S: Sends<u32> + Drop, R: Wait>(rt: &R, flag: &AtomicU64, mut seat: S) -> bool {
    for _ in 0..TURNS {
        if flag.load(Ordering::SeqCst) == 1 {
            break;
        }
        thread::yield_now();
    }
    for _ in 0..1_000 {
        thread::yield_now();
    }
    seat.send(rt, 1).is_ok()
}

/// One thread waits for an item while the other sends late: what came, and whether it was sent.
fn wait_and_send<
    S: Sends<u32> + Send + Drop,
    D: Waits<u32> + Send + Drop,
    R: Threads + Wait + Sync,
>(rt: &R, made: Result<(S, S, D), AllocError>) -> Result<(Option<u32>, bool), AllocError> {
    let (first, second, receiver) = made?;
    let flag = AtomicU64::new(0);
    let told = thread::join(
        rt,
        || wait_for_one(rt, &flag, receiver),
        || send_late(rt, &flag, first),
    );
    drop(second);
    Ok(told)
}

#[test]
fn recv_wait_waits(rt: HostRuntime) -> Result<(), AllocError> {
    let told = wait_and_send(&rt, waiting_relay(rt.alloc(), 1))?;
    assert!(rt; told == (Some(1), true));
    Ok(())
}

//! The reader of a connection.

ghost use Rattle.std.specs.Prelude.{◌≡◌, ◌++◌, ◌∷◌, [], ◌≤◌, ◌<◌, ℕ, List, length, take, IfOk, IfErr};
ghost use Rattle.std.specs.Io.KnownBytes.{Consumes, IsAtEnd};
ghost use Rattle.byteorder.specs.Endian.{big_bytes};
ghost use Rattle.ln_msgs.specs.Pings.CountedView.{inner_of};
ghost use Rattle.ln_node_loops.specs.Reads.{Reads, HandsOn, reads, Fills, Finds};

use crate::item::Item;
use byteorder::{BigEndian, ByteOrder};
use ln_bytes::Fault;
use ln_msgs::{Counted, Incoming, decode};
use ln_relay::Sends;
use std::alloc::Global;
use std::io::Read;
use std::sync::Wait;
use std::thread;

/// Puts an item. Where the relay is full it yields and tries again, for ever if nobody takes.
pub fn put<T: Drop, S: Sends<T>, R: Wait>(rt: &R, seat: &mut S, item: T)
    ensures appends { S.put seat.new ≡ S.put seat.old ++ item ∷ [] }
{
    let mut item = item;
    for _ in rt.forever() {
        match seat.send(rt, item) {
            Ok(()) => return,
            Err(back) => item = back,
        }
        thread::yield_now();
    }
    unreachable!()
}

// Puts a message, where it is of a known type.
fn put_known<W: Drop, S: Sends<Item<W>>, R: Wait>(rt: &R, seat: &mut S, incoming: Incoming)
    ensures { S.put seat.new ≡ S.put seat.old ++ reads (incoming ∷ []) }
{
    match incoming {
        Incoming::Known(message) => put(rt, seat, Item::Read(message)),
        Incoming::Ignored(_) => {}
    }
}

// Reads until the buffer is full, or to the end of the stream. Gives how many bytes were read. The only error is 63.
fn fill<T: Read>(socket: &mut Counted<T>, buffer: &mut [u8]) -> Result<usize, Fault>
    ensures keeps_the_length { length buffer.new ≡ length buffer.old }
    ensures fills { IfOk result (λ n. (n ≤ length buffer.new)
        × Consumes (T.remaining (inner_of socket.old)) (T.remaining (inner_of socket.new)) (take n buffer.new)
        × (n < length buffer.new → IsAtEnd (T.remaining (inner_of socket.new)))) }
    ensures fails { IfErr result (λ f. (f ≡ Fault.Io) × ((came : List ℕ) × (length came < length buffer.old)
        × Consumes (T.remaining (inner_of socket.old)) (T.remaining (inner_of socket.new)) came)) }
{
    let mut count = 0;
    while count < buffer.len() {
        match socket.read(&mut buffer[count..]) {
            Ok(0) => return Ok(count),
            Ok(more) => count += more,
            Err(_) => return Err(Fault::Io),
        }
    }
    Ok(count)
}

// Reads so many bytes; none where the stream is at its end before. Errors: 60, and then none was read, and 63.
fn read_bytes<T: Read>(
    alloc: Global,
    socket: &mut Counted<T>,
    len: usize,
) -> Result<Option<Vec<u8>>, Fault>
    ensures { Fills (λ v. v.items) len (T.remaining (inner_of socket.old)) (T.remaining (inner_of socket.new)) result }
{
    let mut bytes = match vec![in alloc; 0u8; len] {
        Ok(bytes) => bytes,
        Err(_) => return Err(Fault::Memory),
    };
    match fill(socket, &mut bytes) {
        Ok(count) if count == len => Ok(Some(bytes)),
        Ok(_) => Ok(None),
        Err(fault) => Err(fault),
    }
}

// The length of a message, as two bytes tell it.
fn length_in(head: &[u8; 2]) -> usize
    ensures is_told { head.now ≡ big_bytes 2 result }
    ensures fits { result < 65536 }
{
    usize::from(BigEndian::read_u16(head))
}

// Reads the message of the next frame; none where the stream is at its end, where a frame may be cut off.
fn read_message<T: Read>(alloc: Global, socket: &mut Counted<T>) -> Result<Option<Vec<u8>>, Fault>
    ensures { Finds (λ v. v.items) (T.remaining (inner_of socket.old)) (T.remaining (inner_of socket.new)) result }
{
    let mut head = [0u8; 2];
    match fill(socket, &mut head) {
        Ok(2) => {}
        Ok(_) => return Ok(None),
        Err(fault) => return Err(fault),
    }
    let len = length_in(&head);
    read_bytes(alloc, socket, len)
}

// Puts what is heard, until nothing more is. A frame is read once the message before it was put.
fn read_all<T: Read, W: Drop, S: Sends<Item<W>>, R: Wait>(
    rt: &R,
    alloc: Global,
    socket: &mut Counted<T>,
    seat: &mut S,
) -> Result<(), Fault>
    ensures { Reads (T.remaining (inner_of socket.old)) (T.remaining (inner_of socket.new)) result
        (S.put seat.old) (S.put seat.new) }
{
    for _ in rt.forever() {
        let message = match read_message(alloc, socket) {
            Ok(Some(message)) => message,
            Ok(None) => return Ok(()),
            Err(fault) => return Err(fault),
        };
        match decode(alloc, message.as_slice()) {
            Ok(incoming) => put_known(rt, seat, incoming),
            Err(fault) => return Err(fault),
        }
    }
    unreachable!()
}

/// Reads a connection to its end, or to the first fault, and hands its messages to a worker: puts `Joined` with the
/// writer first, then the messages of known types in order, and `Broken` last. It filters nothing else: the worker
/// judges them. A message is read by its length, and once the one before it was put. Gives the seat back, and tells why
/// it ended: Ok at the end of the stream, where a frame may be cut off. Takes memory for one message at a time.
///
/// Errors: 1 to 6 and 8, the first fault of a message; 63 where a read failed; 60 where there is no memory for the next
/// message: it alone of what was read wasn't put. After each the connection is over.
pub fn reader_loop<T: Read, W: Drop, S: Sends<Item<W>>, R: Wait>(
    rt: &R,
    alloc: Global,
    socket: &mut Counted<T>,
    writer: W,
    seat: S,
) -> (S, Result<(), Fault>)
    ensures hands_on_what_came { HandsOn (T.remaining (inner_of socket.old)) (T.remaining (inner_of socket.new))
        result.1 writer (S.put seat) (S.put result.0) }
{
    let mut seat = seat;
    put(rt, &mut seat, Item::Joined(writer));
    let end = read_all(rt, alloc, socket, &mut seat);
    put(rt, &mut seat, Item::Broken);
    (seat, end)
}

//! The bytes that were read and not yet taken.

ghost use Rattle.std.specs.Prelude.{◌≡◌, ◌-◌, ◌<◌, ◌≤◌, length, slice_range};

use crate::pings::counted::Counted;
use ln_bytes::Fault;
use std::alloc::{AllocError, Global};
use std::io::Read;
use std::marker::Model;

/// How many bytes a window holds at most: some frames of the longest kind.
pub(crate) const CAPACITY: usize = 262_144;

/// Bytes in the order in which they were read, at most `CAPACITY` of them. Its memory never grows.
#[derive(Drop)]
pub(crate) struct Window {
    // The bytes are those from `start` to `end`; after them is room.
    buffer: Vec<u8>,
    start: usize,
    end: usize,
}

impl Model for Window {
    ghost use Rattle.std.specs.Prelude.{◌≡◌, ◌≤◌, ℕ, List, slice_range, vec_len};
    ghost use Rattle.ln_msgs.specs.declared.pings.window.TheConstants.{CAPACITY};

    ghost Value = { List ℕ };

    ghost view = { λ w. slice_range w.buffer.items w.start w.end };

    ghost invariant = { λ w. (w.start ≤ w.end) × (w.end ≤ vec_len w.buffer) × (vec_len w.buffer ≡ CAPACITY) };
}

impl Window {
    ghost use Rattle.std.specs.Prelude.{◌≡◌, ◌<◌, ◌≤◌, [], length, drop, Ok, false, IfOk, IfErr};
    ghost use Rattle.std.specs.Io.KnownBytes.{Keeps, IsAtEnd, prepend_known};
    ghost use Rattle.ln_msgs.specs.Pings.CountedView.{inner_of, failures_of, calls_of};
    ghost use Rattle.ln_msgs.specs.Pings.Counted.{HasRisen};

    /// A window that holds nothing.
    pub(crate) fn new(alloc: Global) -> Result<Window, AllocError>
        ensures { IfOk result (λ w. w ≡ []) }
    {
        Ok(Window {
            buffer: vec![in alloc; 0; CAPACITY]?,
            start: 0,
            end: 0,
        })
    }

    /// The bytes.
    pub(crate) fn as_slice(&self) -> &[u8]
        ensures { result.now ≡ self.now }
    {
        let (start, end) = (self.start, self.end);
        &self.buffer[start..end]
    }

    /// Drops so many bytes from the front.
    pub(crate) fn consume(&mut self, count: usize)
        requires { count ≤ length self.old }
        ensures { self.new ≡ drop count self.old }
    {
        self.start += count;
    }

    /// Reads once, as much as there is room for. False at the end of the input. An error of the reader
    /// is 63.
    pub(crate) fn fill<R: Read>(&mut self, reader: &mut Counted<R>) -> Result<bool, Fault>
        requires { length self.old < CAPACITY }
        // What came stands after what was there.
        ensures loses_no_byte { Keeps (prepend_known self.old (R.remaining (inner_of reader.old)))
            (prepend_known self.new (R.remaining (inner_of reader.new))) }
        ensures false_is_the_end { result ≡ Ok false → (self.new ≡ self.old)
            × IsAtEnd (R.remaining (inner_of reader.new)) }
        ensures fails_with_a_failed_call { IfErr result (λ e. (e ≡ Fault.Io)
            × HasRisen (failures_of reader.old) (failures_of reader.new)) }
        ensures no_fewer_failures { failures_of reader.old ≤ failures_of reader.new }
        ensures makes_a_call { HasRisen (calls_of reader.old) (calls_of reader.new) }
        ensures no_fewer_calls { calls_of reader.old ≤ calls_of reader.new }
    {
        let buffer = self.buffer.as_mut_slice();
        let (start, end) = make_room(buffer, self.start, self.end);
        let result = reader.read(&mut buffer[end..]);
        self.start = start;
        self.end = end;
        match result {
            Ok(count) => {
                self.end = end + count;
                Ok(count > 0)
            }
            Err(_) => Err(Fault::Io),
        }
    }
}

/// Moves the bytes from `start` to `end` to the front, where little room is left after them. Answers
/// where they are.
fn make_room(buffer: &mut [u8], start: usize, end: usize) -> (usize, usize)
    requires start_before_end { start ≤ end }
    requires end_within_the_buffer { end ≤ length buffer.old }
    ensures holds_the_same_bytes { slice_range buffer.new result.0 result.1 ≡ slice_range buffer.old start end }
    ensures start_before_end { result.0 ≤ result.1 }
    ensures end_within_the_buffer { result.1 ≤ length buffer.new }
    ensures makes_room { end - start < length buffer.old → result.1 < length buffer.new }
{
    if buffer.len() - end <= buffer.len() / 2 {
        buffer.copy_within(start..end, 0);
        return (0, end - start);
    }
    (start, end)
}

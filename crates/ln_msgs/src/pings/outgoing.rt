//! Pongs that are owed and not yet written.

ghost use Rattle.std.specs.Prelude.{◌≡◌, ◌≤◌, OnOk, IfErr};
ghost use Rattle.std.specs.Io.KnownBytes.{Appends};
ghost use Rattle.ln_msgs.specs.Pings.Counted.{HasRisen};
ghost use Rattle.ln_msgs.specs.Pings.CountedView.{inner_of, failures_of, calls_of};
ghost use Rattle.ln_msgs.specs.Pings.Written.{IsPartlyWritten};

use crate::codec::encoding::LONGEST_MESSAGE;
use crate::pings::counted::Counted;
use byteorder::{BigEndian, ByteOrder};
use ln_bytes::Fault;
use std::alloc::{AllocError, Global};
use std::io::Write;
use std::marker::Model;

/// From so many waiting bytes on, no further pong is taken before they are written.
pub(crate) const FULL: usize = 131_072;

/// The longest frame of a pong: two bytes of length, and as many bytes as a message may have.
const LONGEST_FRAME: usize = 2 + LONGEST_MESSAGE;

/// From so many bytes of pong on, a ping asks for none (BOLT 1, "The `ping` and `pong` Messages").
pub(crate) const NO_PONG: u16 = 65_532;

/// The type of a pong.
const PONG: u16 = 19;

/// Frames of pongs that wait to be written, in one piece of memory that never grows, and the count of all
/// pongs so far, at most 2^64 - 1.
#[derive(Drop)]
pub(crate) struct Outgoing {
    bytes: Vec<u8>,
    pongs: u64,
}

impl Model for Outgoing {
    ghost use Rattle.std.specs.Prelude.{◌+◌, ◌≤◌, vec_capacity};
    ghost use Rattle.ln_msgs.specs.declared.pings.outgoing.TheConstants.{FULL, LONGEST_FRAME};
    ghost use Rattle.ln_msgs.specs.Pings.Outgoing.{Waiting};

    ghost Value = { Waiting };

    ghost view = { λ o. record { bytes = o.bytes.items; pongs = o.pongs } };

    ghost invariant = { λ o. FULL + LONGEST_FRAME ≤ vec_capacity o.bytes };
}

impl Outgoing {
    ghost use Rattle.std.specs.Prelude.{◌≡◌, ◌+◌, ◌<◌, ◌≤◌, ◌↔◌, [], ◌++◌, length, IsTrue, IfOk, OnOk, IfErr};
    ghost use Rattle.std.specs.Io.KnownBytes.{Appends};
    ghost use Rattle.ln_msgs.specs.Pings.Answer.{pong_frame};
    ghost use Rattle.ln_msgs.specs.Pings.Written.{IsPartlyWritten};
    ghost use Rattle.ln_msgs.specs.Pings.Counted.{HasRisen, one_more};
    ghost use Rattle.ln_msgs.specs.Pings.CountedView.{inner_of, failures_of, calls_of};

    /// Nothing waits.
    pub(crate) fn new(alloc: Global) -> Result<Outgoing, AllocError>
        ensures has_no_bytes { IfOk result (λ o. o.bytes ≡ []) }
        ensures has_no_pongs { IfOk result (λ o. o.pongs ≡ 0) }
    {
        Ok(Outgoing {
            bytes: Vec::with_capacity(alloc, FULL + LONGEST_FRAME)?,
            pongs: 0,
        })
    }

    /// How many pongs were owed so far.
    pub(crate) fn pongs(&self) -> u64
        ensures { result ≡ self.now.pongs }
    {
        self.pongs
    }

    /// Whether what waits has to be written first.
    pub(crate) fn is_full(&self) -> bool
        ensures { IsTrue result ↔ (FULL ≤ length self.now.bytes) }
    {
        self.bytes.len() >= FULL
    }

    /// Adds a pong of so many zero bytes. Takes no memory.
    pub(crate) fn push_pong(&mut self, count: u16)
        requires asks_for_a_pong { count < NO_PONG }
        requires is_not_full { length self.old.bytes < FULL }
        ensures appends_a_pong { self.new.bytes ≡ self.old.bytes ++ pong_frame count }
        ensures counts_the_pong { self.new.pongs ≡ one_more self.old.pongs }
    {
        let mut head = [0u8; 6];
        BigEndian::write_u16(&mut head, count + 4);
        BigEndian::write_u16(&mut head[2..], PONG);
        BigEndian::write_u16(&mut head[4..], count);
        let Ok(()) = self.bytes.extend_from_slice(&head) else {
            unreachable!();
        };
        let len = self.bytes.len() + usize::from(count);
        let Ok(()) = self.bytes.resize(len, 0) else {
            unreachable!();
        };
        self.pongs = self.pongs.saturating_add(1);
    }

    /// Writes all that waits and flushes the writer; where nothing waits, does nothing. A failing write or
    /// flush is 63, and what was written by then is a beginning of what waited.
    pub(crate) fn send<W: Write>(&mut self, writer: &mut Counted<W>) -> Result<(), Fault>
        ensures sends_all { OnOk result ((self.new.bytes ≡ [])
            × Appends (W.contents (inner_of writer.old)) (W.contents (inner_of writer.new)) self.old.bytes) }
        ensures sends_a_beginning { IsPartlyWritten (W.contents (inner_of writer.old))
            (W.contents (inner_of writer.new)) self.old.bytes }
        ensures fails_with_a_failed_call { IfErr result (λ e. (e ≡ Fault.Io)
            × HasRisen (failures_of writer.old) (failures_of writer.new)) }
        ensures no_fewer_failures { failures_of writer.old ≤ failures_of writer.new }
        ensures makes_a_call { OnOk result (0 < length self.old.bytes
            → HasRisen (calls_of writer.old) (calls_of writer.new)) }
        ensures no_fewer_calls { calls_of writer.old ≤ calls_of writer.new }
        ensures keeps_the_count { self.new.pongs ≡ self.old.pongs }
    {
        if self.bytes.is_empty() {
            return Ok(());
        }
        write_out(&self.bytes, writer)?;
        self.bytes.clear();
        match writer.flush() {
            Ok(()) => Ok(()),
            Err(_) => Err(Fault::Io),
        }
    }
}

/// Writes the bytes, in as few calls as the writer allows, and doesn't flush it. Takes no memory.
///
/// The only error is 63, where a write fails or takes nothing; what was written by then is a beginning of the bytes.
pub fn write_out<W: Write>(bytes: &[u8], writer: &mut Counted<W>) -> Result<(), Fault>
    ensures writes_all { OnOk result (Appends (W.contents (inner_of writer.old))
        (W.contents (inner_of writer.new)) bytes.now) }
    ensures writes_a_beginning { IsPartlyWritten (W.contents (inner_of writer.old))
        (W.contents (inner_of writer.new)) bytes.now }
    ensures fails_with_a_failed_call { IfErr result (λ e. (e ≡ Fault.Io)
        × HasRisen (failures_of writer.old) (failures_of writer.new)) }
    ensures no_fewer_failures { failures_of writer.old ≤ failures_of writer.new }
    ensures no_fewer_calls { calls_of writer.old ≤ calls_of writer.new }
{
    let mut written = 0;
    while written < bytes.len() {
        match writer.write(&bytes[written..]) {
            Ok(count) if count > 0 => written += count,
            _ => return Err(Fault::Io),
        }
    }
    Ok(())
}

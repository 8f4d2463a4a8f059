//! The longest messages of a channel, and the record that has them.

use crate::put;
use ln_bytes::{Bytes, Record};
use ln_channel::{Command, FitSpec, OpenSpec, Output};
use ln_keys::ToyKeys;
use ln_link::Link;
use ln_msgs::{Message, Records, encode, fits};
use ln_refusals::Refusal;
use ln_store::MemoryStore;
use ln_tests_ends::{
    FUNDER, Side, boxed, code_of, fundee_side, messages_of, open_spec, played, stored,
};
use std::alloc::Global;

/// So many zeros.
fn zeros(alloc: Global, len: usize) -> Result<Bytes, Refusal> {
    let mut bytes = Vec::new(alloc);
    bytes.resize(len, 0)?;
    Ok(Bytes::new(bytes))
}

/// One record of an odd type that nobody knows, whose value has so many bytes.
fn records(alloc: Global, len: usize) -> Result<Records, Refusal> {
    let value = zeros(alloc, len)?;
    let mut records = Vec::new(alloc);
    records.push(Record { typ: 101, value })?;
    Ok(Records::new(records))
}

/// A funder's spec whose `open_channel` has such a record.
fn spec_with(alloc: Global, len: usize) -> Result<Box<OpenSpec>, Refusal> {
    let records = records(alloc, len)?;
    let mut spec = boxed(alloc, open_spec(alloc))?;
    put(&mut spec.records, records);
    Ok(spec)
}

/// A funder's link of a spec; nothing where that doesn't fit.
fn link_of(alloc: Global, spec: Box<OpenSpec>) -> Result<Option<Box<Link<ToyKeys>>>, Refusal> {
    if spec.fits() {
        let spec = FitSpec::new(Box::into_inner(spec));
        Ok(Some(boxed(alloc, Link::funder(FUNDER, spec))?))
    } else {
        drop(spec);
        Ok(None)
    }
}

/// A funder's side whose `open_channel` has such a record; nothing where it doesn't fit.
fn funder_side(alloc: Global, len: usize) -> Result<Option<Box<Side<MemoryStore>>>, Refusal> {
    let spec = spec_with(alloc, len)?;
    let Some(link) = link_of(alloc, spec)? else {
        return Ok(None);
    };
    let store = MemoryStore::new(alloc);
    Ok(Some(boxed(alloc, Side { link, store })?))
}

/// How many bytes a message has, where it can be written.
fn len_of(alloc: Global, message: &Message) -> Result<usize, Refusal> {
    if fits(message) {
        Ok(encode(alloc, message)?.len())
    } else {
        Err(Refusal::FieldLength)
    }
}

/// How many bytes the longest of these messages has, where all can be written.
fn longest_of(alloc: Global, messages: &[Message]) -> Result<usize, Refusal> {
    let mut most = 0;
    for message in messages {
        most = len_of(alloc, message)?.max(most);
    }
    Ok(most)
}

/// The same of the messages among what is handed out.
fn longest(alloc: Global, outputs: Vec<Output>) -> Result<usize, Refusal> {
    let messages = messages_of(alloc, outputs)?;
    longest_of(alloc, messages.as_slice())
}

/// The channel is open, and the funder shuts it with a script of so many bytes: how many bytes its `shutdown` has, how
/// many its record, and by what this is refused where it is loaded, 0 where it is a link's.
fn shut(
    alloc: Global,
    a: &mut Side<MemoryStore>,
    len: usize,
) -> Result<(usize, usize, u32), Refusal> {
    let mut b = boxed(alloc, fundee_side(alloc, MemoryStore::new(alloc))?)?;
    played(alloc, a, &mut b)?;
    let script = zeros(alloc, len)?;
    let shutdown = a
        .link
        .command(alloc, &mut a.store, Command::Shutdown(script))?;
    let shutdown_len = longest(alloc, shutdown)?;
    let bytes = stored(alloc, a)?;
    let refused = code_of(Link::from_record(alloc, FUNDER, bytes.as_slice()).err());
    Ok((shutdown_len, bytes.len(), refused))
}

/// How many bytes the `open_channel` has with a record of so many; nothing where it doesn't fit.
fn opened(alloc: Global, len: usize) -> Result<Option<usize>, Refusal> {
    let Some(mut a) = funder_side(alloc, len)? else {
        return Ok(None);
    };
    let outputs = a.link.connect(alloc)?;
    Ok(Some(longest(alloc, outputs)?))
}

/// The same of the `shutdown` and of the record after it.
fn closed(alloc: Global, records: usize, script: usize) -> Result<(usize, usize, u32), Refusal> {
    let Some(mut a) = funder_side(alloc, records)? else {
        return Err(Refusal::NotReady);
    };
    shut(alloc, &mut a, script)
}

// A message has 65,535 bytes at most; an `open_channel` has 321 beside its records, of which one has 4 beside its
// value here, and a `shutdown` 36 beside its script.
#[test]
fn greatest_messages(rt: HostRuntime) -> Result<(), Refusal> {
    let alloc = rt.alloc();
    assert!(rt; opened(alloc, 65_210)? == Some(65_535));
    assert!(rt; opened(alloc, 65_211)? == None);
    let (shutdown, record, refused) = closed(alloc, 65_210, 65_499)?;
    assert_eq!(rt; (shutdown, refused), (65_535, 0));
    // the record has both: 65,212 bytes more for the value and the longer number before it, 65,499 for the script
    let (_, least, _) = closed(alloc, 0, 0)?;
    assert!(rt; record.checked_sub(least) == Some(65_212 + 65_499));
    // a script of one byte more is refused, as the peer could not be told
    assert_eq!(rt; code_of(closed(alloc, 0, 65_500).err()), 4407);
    Ok(())
}

//! The record that an end's store has: none before its channel is open, and from then on one that can be read.

use ln_keys::ToyKeys;
use ln_refusals::Refusal;
use ln_script::read_script;
use ln_store::decode_record;
use ln_world::Step;
use ln_world_channels::{End, Line, Node, Step as ChannelStep, World};
use std::alloc::Global;

// Whether a record can be read.
fn is_record(alloc: Global, bytes: &[u8]) -> bool {
    match decode_record(alloc, bytes) {
        Ok(record) => {
            drop(record);
            true
        }
        Err(_) => false,
    }
}

// Whether the end of channel 0 at a node has a record after the steps of a script.
fn has_record(alloc: Global, text: &str, letter: u8) -> Result<bool, Refusal> {
    let mut world: Box<World<ToyKeys>> = Box::new(alloc, World::new(alloc))?;
    let mut lines: Vec<Line> = Vec::new(alloc);
    for step in read_script(alloc, text)? {
        if let Step::Open(wish) = step {
            world.step(alloc, ChannelStep::Open(wish), &mut lines)?;
        }
    }
    let node = Node { letter };
    match world.record(alloc, End { node, channel: 0 })? {
        Some(bytes) => Ok(is_record(alloc, bytes.as_slice())),
        None => Ok(false),
    }
}

#[test]
fn records_of_ends(rt: HostRuntime) {
    let open = "open 0 A B 1000000 0\n";
    assert!(rt; has_record(rt.alloc(), "", b'A') == Ok(false));
    assert!(rt; has_record(rt.alloc(), open, b'A') == Ok(true));
    assert!(rt; has_record(rt.alloc(), open, b'B') == Ok(true));
    assert!(rt; has_record(rt.alloc(), open, b'C') == Ok(false));
}

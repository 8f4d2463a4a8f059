//! Saves that fail, and ends that come back from what their stores have then.

use ln_keys::ToyKeys;
use ln_refusals::Refusal;
use ln_script::read_script;
use ln_world::{Act as BookAct, Step};
use ln_world_channels::{Act, End, Line, Node, RecordLeft, Step as ChannelStep, World};
use std::alloc::Global;

const END: End = End {
    node: Node { letter: b'A' },
    channel: 0,
};

// An act of an end is done, or its save fails, and the end reloads; it can't do so before it has halted, nor again.
fn act(
    alloc: Global,
    world: &mut World<ToyKeys>,
    end: End,
    what: Act,
    fails: Option<RecordLeft>,
    lines: &mut Vec<Line>,
) -> Result<(), Refusal> {
    let Some(left) = fails else {
        return world.step(alloc, ChannelStep::Do(end, what), lines);
    };
    world.step(alloc, ChannelStep::Reload(end), lines)?;
    world.step(alloc, ChannelStep::SaveFails(end, what, left), lines)?;
    world.step(alloc, ChannelStep::Reload(end), lines)?;
    world.step(alloc, ChannelStep::Reload(end), lines)
}

// The record of A's end in channel 0 after the openings and the commands of a script.
fn record_after(
    alloc: Global,
    text: &str,
    fails: Option<RecordLeft>,
    lines: &mut Vec<Line>,
) -> Result<Vec<u8>, Refusal> {
    let mut world: Box<World<ToyKeys>> = Box::new(alloc, World::new(alloc))?;
    for step in read_script(alloc, text)? {
        match step {
            Step::Open(wish) => world.step(alloc, ChannelStep::Open(wish), lines)?,
            Step::Do(end, BookAct::Send(command)) => {
                act(alloc, &mut world, end, Act::Send(command), fails, lines)?
            }
            other => drop(other),
        }
    }
    let mut record = Vec::new(alloc);
    if let Some(bytes) = world.record(alloc, END)? {
        record.extend_from_slice(bytes.as_slice())?;
    }
    Ok(record)
}

#[test]
fn failed_saves_leave_a_record(rt: HostRuntime) -> Result<(), Refusal> {
    let alloc = rt.alloc();
    let script = "open 0 A B 1000000 0\nconfirm A0 1x1x0\n";
    let mut told = Vec::new(alloc);
    let before = record_after(alloc, "open 0 A B 1000000 0\n", None, &mut told)?;
    let done = record_after(alloc, script, None, &mut told)?;
    assert!(rt; before.as_slice() != done.as_slice());

    let mut old_told = Vec::new(alloc);
    let old = record_after(alloc, script, Some(RecordLeft::Old), &mut old_told)?;
    assert!(rt; old.as_slice() == before.as_slice());
    let mut new_told = Vec::new(alloc);
    let new = record_after(alloc, script, Some(RecordLeft::New), &mut new_told)?;
    assert!(rt; new.as_slice() == done.as_slice());

    let failed = [
        Line::Open(0),
        Line::Idle,
        Line::Refused(END, Refusal::Store),
        Line::Idle,
    ];
    assert!(rt; old_told.as_slice() == failed.as_slice());
    assert!(rt; new_told.as_slice() == failed.as_slice());
    Ok(())
}

//! Hooks of nodes: on which events each is called, by what the dispatchers tell.

use ln_hooks::{Call, ChannelEvent, FailureCode, Hook, Verdict};
use ln_keys::ToyKeys;
use ln_refusals::Refusal;
use ln_script::read_script;
use ln_world::{End, Line, Node, Step, World};
use std::alloc::{AllocError, Global};

const UNKNOWN: Verdict = Verdict::Fail(FailureCode::IncorrectOrUnknownPaymentDetails);

const TEMPORARY: Verdict = Verdict::Fail(FailureCode::TemporaryChannelFailure);

const CONTINUE: Verdict = Verdict::Continue;

const A0: End = End {
    node: Node { letter: b'A' },
    channel: 0,
};

const B0: End = End {
    node: Node { letter: b'B' },
    channel: 0,
};

/// Lines of a script, or a step of a dispatcher.
#[derive(Clone, Copy)]
enum Part {
    Lines(&'static str),
    Register(End, usize),
    Dispatch(End),
}

use Part::{Dispatch, Lines, Register};

fn put_lines(alloc: Global, text: &str, steps: &mut Vec<Step<ToyKeys>>) -> Result<(), Refusal> {
    for step in read_script(alloc, text)? {
        steps.push(step)?;
    }
    Ok(())
}

fn put_part(alloc: Global, part: &Part, steps: &mut Vec<Step<ToyKeys>>) -> Result<(), Refusal> {
    match part {
        Lines(text) => put_lines(alloc, text, steps)?,
        Register(end, hook) => steps.push(Step::Register(*end, *hook))?,
        Dispatch(end) => steps.push(Step::Dispatch(*end))?,
    }
    Ok(())
}

fn steps_of(alloc: Global, parts: &[Part]) -> Result<Vec<Step<ToyKeys>>, Refusal> {
    let mut steps = Vec::new(alloc);
    for part in parts {
        put_part(alloc, part, &mut steps)?;
    }
    Ok(steps)
}

/// A hook that answers so to the first event that it is called on, and so to all others.
fn at_first(alloc: Global, first: Verdict, others: Verdict) -> Result<Hook, AllocError> {
    let mut answer = first;
    let call: Call = Box::new(alloc, move |_event: &ChannelEvent| {
        let now = answer;
        answer = others;
        now
    })?;
    Ok(Hook::new(call))
}

/// A hook that fails an HTLC of more than so much.
fn above(alloc: Global, most: u64) -> Result<Hook, AllocError> {
    let call: Call = Box::new(alloc, move |event: &ChannelEvent| match event {
        ChannelEvent::Added { amount, .. } if amount.value() > most => TEMPORARY,
        _ => CONTINUE,
    })?;
    Ok(Hook::new(call))
}

/// Two hooks that fail what they are called on first, one that fails all but that, and one that fails large HTLCs.
fn hooks(alloc: Global) -> Result<Vec<Hook>, AllocError> {
    let mut hooks = Vec::with_capacity(alloc, 4)?;
    hooks.push_reserved(at_first(alloc, UNKNOWN, CONTINUE)?);
    hooks.push_reserved(at_first(alloc, CONTINUE, TEMPORARY)?);
    hooks.push_reserved(above(alloc, 5500)?);
    hooks.push_reserved(at_first(alloc, UNKNOWN, CONTINUE)?);
    Ok(hooks)
}

/// How many ends there are in nodes that no hook is handed in to.
fn ends_without_hooks(alloc: Global, parts: &[Part]) -> Result<usize, Refusal> {
    let mut lines = Vec::new(alloc);
    let steps = steps_of(alloc, parts)?;
    let world: Box<World<ToyKeys, Hook>> = Box::new(alloc, World::run(alloc, steps, &mut lines)?)?;
    Ok(world.end_lines(alloc)?.len())
}

/// What is told of dispatches, and of what can't be done.
fn shown_of(alloc: Global, lines: &[Line]) -> Result<Vec<Line>, AllocError> {
    let mut told = Vec::new(alloc);
    for line in lines {
        if matches!(line, Line::Dispatched(..) | Line::Idle) {
            told.push(*line)?;
        }
    }
    Ok(told)
}

/// Whether this is told of them, with these hooks.
fn are_shown(alloc: Global, parts: &[Part], told: &[Line]) -> Result<bool, Refusal> {
    let mut lines = Vec::new(alloc);
    let steps = steps_of(alloc, parts)?;
    drop(World::run_with(alloc, steps, hooks(alloc)?, &mut lines)?);
    Ok(shown_of(alloc, lines.as_slice())?.as_slice() == told)
}

// Two HTLCs from A to B, irrevocably committed at both.
const TWO_ADDS: &str =
    "add A0 5000 400 7\nadd A0 6000 400 8\nsign A0\ndeliver B0\ndeliver B0\ndeliver B0\n\
                        deliver A0\nsign B0\ndeliver A0\ndeliver B0\n";

// Each hook is called on each event from the one on that is next as it is registered, also where one before it fails
// the event; it has one slot at most, and is called no more once its node has restarted.
#[test]
fn hooks_are_called(rt: HostRuntime) {
    let parts = [
        Register(B0, 0),
        Lines("ready 0 A B 1000000 0 1x1x0\n"),
        Register(B0, 0),
        Register(B0, 1),
        Register(A0, 1),
        Register(A0, 2),
        Register(A0, 4),
        Dispatch(B0),
        Lines(TWO_ADDS),
        Dispatch(B0),
        Dispatch(B0),
        Dispatch(B0),
        Dispatch(A0),
        Lines("restart B\n"),
        Dispatch(B0),
        Register(B0, 0),
        Register(B0, 3),
        Dispatch(B0),
        Dispatch(B0),
        Dispatch(A0),
    ];
    let told = [
        // nothing is there yet
        Line::Idle,
        // the second hook has a slot, and there is no fifth one
        Line::Idle,
        Line::Idle,
        // no event yet
        Line::Idle,
        // the first hook fails its first event, the second one all but its first
        Line::Dispatched(B0, 0, UNKNOWN),
        Line::Dispatched(B0, 1, TEMPORARY),
        Line::Idle,
        // the other end's hook looks at the amount
        Line::Dispatched(A0, 0, CONTINUE),
        // from the first undecided event on, without hooks
        Line::Dispatched(B0, 0, CONTINUE),
        Line::Idle,
        Line::Dispatched(B0, 1, UNKNOWN),
        Line::Idle,
        Line::Dispatched(A0, 1, TEMPORARY),
    ];
    assert_eq!(rt; are_shown(rt.alloc(), &parts, &told), Ok(true));
}

// An end that halts and reloads keeps its dispatcher, which goes on behind the last event that it served.
#[test]
fn hooks_stay_over_a_reload(rt: HostRuntime) {
    let parts = [
        Lines("ready 0 A B 1000000 0 1x1x0\n"),
        Register(B0, 0),
        Lines(TWO_ADDS),
        Dispatch(B0),
        Lines("no-memory sign B0\nreload B0\n"),
        Register(B0, 0),
        Dispatch(B0),
        Lines("reload B0\n"),
    ];
    let told = [
        Line::Dispatched(B0, 0, UNKNOWN),
        // the hook is there still
        Line::Idle,
        Line::Dispatched(B0, 1, CONTINUE),
        // the end hasn't halted
        Line::Idle,
    ];
    assert_eq!(rt; are_shown(rt.alloc(), &parts, &told), Ok(true));
}

// After the event that its channel is closed a dispatcher serves none, over restarts too.
#[test]
fn the_close_is_last(rt: HostRuntime) {
    let parts = [
        Lines("ready 0 A B 1000000 0 1x1x0\n"),
        Register(B0, 1),
        Lines("shutdown A0\ndeliver B0\ndeliver A0\ndeliver B0\n"),
        Dispatch(B0),
        Dispatch(B0),
        Lines("restart B\n"),
        Register(B0, 0),
        Dispatch(B0),
        Dispatch(B0),
    ];
    let told = [
        Line::Dispatched(B0, 0, CONTINUE),
        Line::Idle,
        Line::Dispatched(B0, 0, UNKNOWN),
        Line::Idle,
    ];
    assert_eq!(rt; are_shown(rt.alloc(), &parts, &told), Ok(true));
    assert_eq!(rt; ends_without_hooks(rt.alloc(), &parts), Ok(2));
}

//! The demo.

use crate::seen::Seen;
use crate::three::{Tables, Three};
use ln_hooks::{Call, ChannelEvent, Hook, HookTable, Verdict};
use ln_msgs::{Counted, write_out};
use ln_node::Table;
use ln_refusals::Refusal;
use std::alloc::Global;
use std::io::{Read, Write};
use std::net::{Net, OpenStream};
use std::sync::{Arc, Wait};
use std::thread;
use std::thread::Threads;

/// How often the loop looks, until it gives up.
const TURNS: u64 = 100_000_000;

/// In how many of its turns it orders nothing, so that messages aren't kept waiting by orders.
const QUIET: u64 = 32;

/// How far the payment is.
#[derive(Clone, Copy, PartialEq, Eq)]
enum Stage {
    Opening,
    Open,
    Offered,
}

// One look: what is to be ordered now.
fn look<H, T, C, R: Wait>(
    rt: &R,
    alloc: Global,
    three: &Three<H, T, C>,
    seen: &Seen,
    stage: Stage,
) -> Result<Stage, Refusal>
where
    H: Drop + Send + 'static,
    T: Table<H> + Drop + Send + 'static,
    C: Read + Write + OpenStream + Drop + Send + 'static,
{
    match stage {
        Stage::Opening => {
            if three.is_usable(rt) {
                return Ok(Stage::Open);
            }
            three.confirm(rt);
            Ok(Stage::Opening)
        }
        Stage::Open => {
            if three.offer(rt, alloc)? {
                return Ok(Stage::Offered);
            }
            Ok(Stage::Open)
        }
        Stage::Offered => {
            three.sign(rt);
            if seen.is_fulfilled() {
                three.shut(rt, alloc);
            }
            Ok(Stage::Offered)
        }
    }
}

// Has the nodes pay, and close their channels. 65 where that doesn't come about.
fn pay<H, T, C, R: Wait>(
    rt: &R,
    alloc: Global,
    three: &Three<H, T, C>,
    seen: &Seen,
) -> Result<(), Refusal>
where
    H: Drop + Send + 'static,
    T: Table<H> + Drop + Send + 'static,
    C: Read + Write + OpenStream + Drop + Send + 'static,
{
    let mut stage = Stage::Opening;
    for turn in 0..TURNS {
        if seen.closed() >= 2 {
            return Ok(());
        }
        if turn % QUIET == 0 {
            stage = look(rt, alloc, three, seen, stage)?;
        }
        thread::yield_now();
    }
    Err(Refusal::GaveUp)
}

// Opens the channels, and pays.
fn play<H, T, C, R>(
    rt: R,
    alloc: Global,
    three: &mut Three<H, T, C>,
    tables: Tables<T>,
    hooks: (H, H),
    seen: &Seen,
) -> Result<(), Refusal>
where
    H: Drop + Send + 'static,
    T: Table<H> + Drop + Send + 'static,
    C: Read + Write + OpenStream + Drop + Send + 'static,
    R: Net<Stream = C> + Threads + Wait + Copy + Send + 'static,
    R::Listener: Send + 'static,
{
    three.open(rt, alloc, tables)?;
    three.prepare(&rt, hooks)?;
    pay(&rt, alloc, three, seen)
}

// Has three nodes pay, and stops them.
fn run<H, T, C, R>(
    rt: R,
    alloc: Global,
    tables: Tables<T>,
    hooks: (H, H),
    seen: &Seen,
) -> Result<(), Refusal>
where
    H: Drop + Send + 'static,
    T: Table<H> + Drop + Send + 'static,
    C: Read + Write + OpenStream + Drop + Send + 'static,
    R: Net<Stream = C> + Threads + Wait + Copy + Send + 'static,
    R::Listener: Send + 'static,
{
    let mut three: Three<H, T, C> = Three::new(alloc)?;
    let done = play(rt, alloc, &mut three, tables, hooks, seen);
    three.stop(rt);
    done
}

// Prints what was seen.
fn print<W: Write>(alloc: Global, seen: &Seen, writer: &mut Counted<W>) -> Result<(), Refusal> {
    let text = format!(in alloc;
        "paid {}\nfee {}\nclosed {}\n",
        seen.paid(),
        seen.fee(),
        seen.closed()
    )?;
    write_out(text.as_bytes(), writer)?;
    match writer.flush() {
        Ok(()) => Ok(()),
        Err(_) => Err(Refusal::Io),
    }
}

/// Runs three nodes in this process, each connected with the next over loopback: the first pays 5,000,000 millisatoshi
/// to the last, over the one in the middle, and then both channels close. Prints what was paid, what the middle node
/// has kept of it, in millisatoshi, and how many channels were closed, one a line. Takes memory and twelve threads,
/// all of which it joins.
///
/// Errors: 65 where the payment hasn't come about, or a channel hasn't closed, after 100,000,000 looks; 63 where a
/// socket can't be had or the writer fails; 60 where there is no memory or no thread.
pub fn demo<W: Write, C, R>(rt: R, alloc: Global, writer: &mut Counted<W>) -> Result<(), Refusal>
where
    C: Read + Write + OpenStream + Drop + Send + 'static,
    R: Net<Stream = C> + Threads + Wait + Copy + Send + 'static,
    R::Listener: Send + 'static,
{
    let seen = Seen::new(alloc)?;
    let theirs = Arc::try_clone(&seen)?;
    let payer: Call = Box::new(alloc, move |event: &ChannelEvent| -> Verdict {
        theirs.at_payer(event);
        Verdict::Continue
    })?;
    let theirs = Arc::try_clone(&seen)?;
    let payee: Call = Box::new(alloc, move |event: &ChannelEvent| -> Verdict {
        theirs.at_payee(event);
        Verdict::Continue
    })?;
    let tables = (
        HookTable::new(alloc),
        HookTable::new(alloc),
        HookTable::new(alloc),
        HookTable::new(alloc),
    );
    let hooks = (Hook::new(payer), Hook::new(payee));
    run::<Hook, HookTable, C, R>(rt, alloc, tables, hooks, &seen)?;
    print(alloc, &seen, writer)
}

//! What a node's traces and saves are logged as, line by line.

use ln_bytes::{Bytes, Fault};
use ln_node::{Notice, Step, Trace};
use ln_refusals::Refusal;
use ln_store::{MemoryStore, RecordStore};
use ln_trace::{LoggedStore, log_trace};
use log::filter::{Builder, FilteredLog};
use log::sink::{Lines, Memory};
use log::{Level, Logged};
use std::alloc::{AllocError, Global};
use std::cell::Cell;
use std::io;
use std::process::Abort;
use std::rt::Clock;
use std::test::Fail;
use std::time::Duration;

fn expect(rt: &impl Abort, lines: Lines, expected: &[&str]) {
    assert_eq!(rt; lines.len(), expected.len());
    for (line, text) in lines.as_slice().iter().zip(expected) {
        assert!(rt; line.as_str() == *text, "{line:?} is not {text:?}");
    }
}

// A step of each kind.
fn trace(alloc: Global) -> Result<Trace, AllocError> {
    let ready = String::from_str(alloc, "type 36 channel_ready\nchannel_id 09\n")?;
    let fee = String::from_str(alloc, "type 134 update_fee\n")?;
    let mut steps = Vec::new(alloc);
    steps.push((0, Step::Took(ready)))?;
    steps.push((1, Step::Sent(fee)))?;
    steps.push((1, Step::Saved(512, Ok(()))))?;
    steps.push((1, Step::Saved(513, Err(Refusal::Store))))?;
    let notices = [
        Notice::Ended(Ok(())),
        Notice::Ended(Err(Fault::Io)),
        Notice::NoInit,
        Notice::Met,
        Notice::Refused(Refusal::SignatureWrong),
        Notice::OrderRefused(3, Refusal::NotReady),
        Notice::Halted,
        Notice::Loaded,
        Notice::Held(7),
    ];
    for notice in notices {
        steps.push((0, Step::Noticed(notice)))?;
    }
    Ok(Trace { steps, lost: 2 })
}

#[test]
fn each_step_is_a_line(rt: HostRuntime) -> Result<(), Fail> {
    let sink = Memory::new(rt.alloc());
    log_trace(&sink, &trace(rt.alloc())?);
    let expected = [
        "[TRACE lnlink::message] took channel=0 message=type 36 channel_ready, channel_id 09",
        "[TRACE lnlink::message] sent channel=1 message=type 134 update_fee",
        "[DEBUG lnlink::save] saved channel=1 bytes=512",
        "[WARN  lnlink::save] save refused channel=1 bytes=513 error=61",
        "[INFO  lnlink::notice] connection ended channel=0",
        "[INFO  lnlink::notice] connection ended channel=0 error=63",
        "[INFO  lnlink::notice] no init channel=0",
        "[INFO  lnlink::notice] peer met channel=0",
        "[WARN  lnlink::notice] refused channel=0 error=31",
        "[DEBUG lnlink::notice] order refused channel=0 order=3 error=40",
        "[WARN  lnlink::notice] halted channel=0",
        "[INFO  lnlink::notice] loaded channel=0",
        "[INFO  lnlink::notice] payment held channel=0 event=7",
        "[WARN  lnlink::lost] steps lost count=2",
    ];
    expect(&rt, sink.into_lines(), &expected);
    Ok(())
}

#[test]
fn a_filter_picks_by_target(rt: HostRuntime) -> Result<(), Fail> {
    let sink = Memory::new(rt.alloc());
    let filter = Builder::new(rt.alloc()).parse("error,lnlink::save=debug,lnlink::lost=warn")?;
    let log = FilteredLog::new(&sink, filter.build());
    log_trace(&log, &trace(rt.alloc())?);
    drop(log);
    let expected = [
        "[DEBUG lnlink::save] saved channel=1 bytes=512",
        "[WARN  lnlink::save] save refused channel=1 bytes=513 error=61",
        "[WARN  lnlink::lost] steps lost count=2",
    ];
    expect(&rt, sink.into_lines(), &expected);
    Ok(())
}

// A clock that moves by 250 microseconds as it is read, up to so many times.
#[derive(Drop)]
struct Ticks {
    reads: Cell<u64>,
    most: u64,
}

impl Clock for Ticks {
    fn monotonic(&self) -> io::Result<Duration> {
        if self.reads.get() >= self.most {
            return Err(io::Error::from(io::ErrorKind::Unsupported));
        }
        self.reads.set(self.reads.get().saturating_add(1));
        Ok(Duration::from_micros(self.reads.get().saturating_mul(250)))
    }

    fn since_1970(&self) -> io::Result<Duration> {
        Err(io::Error::from(io::ErrorKind::Unsupported))
    }
}

#[test]
fn saves_are_timed_where_they_are_logged(rt: HostRuntime) -> Result<(), Fail> {
    let sink = Memory::new(rt.alloc());
    let clock = Ticks {
        reads: Cell::new(0),
        most: 2,
    };
    let quiet = Logged::new(&clock, Level::Info, &sink);
    let mut store = LoggedStore::new(MemoryStore::new(rt.alloc()), quiet);
    store.save(rt.alloc(), &[1; 32], &[5])?;
    assert_eq!(rt; clock.reads.get(), 0);
    let loud = Logged::new(&clock, Level::Debug, &sink);
    let mut store = LoggedStore::new(store.into_inner(), loud);
    store.save(rt.alloc(), &[171; 32], &[5; 3])?;
    store.save(rt.alloc(), &[171; 32], &[5; 4])?;
    assert_eq!(rt; store.ids(rt.alloc())?.len(), 2);
    drop(store);
    let expected = [
        "[DEBUG lnlink::store] saved channel_id=abababababababababababababababababababababababababababababababab \
            bytes=3 micros=250",
        "[DEBUG lnlink::store] saved channel_id=abababababababababababababababababababababababababababababababab \
            bytes=4",
    ];
    expect(&rt, sink.into_lines(), &expected);
    Ok(())
}

// A store that has no memory for any save.
#[derive(Drop)]
struct Full<S: Drop> {
    inner: S,
}

impl<S: RecordStore + Drop> RecordStore for Full<S> {
    ghost store_view = { λ s. S.store_view s.inner };

    fn save(&mut self, _alloc: Global, _id: &[u8; 32], _bytes: &[u8]) -> Result<(), Refusal> {
        Err(Refusal::Memory)
    }

    fn load(&mut self, alloc: Global, id: &[u8; 32]) -> Result<Option<Bytes>, Refusal> {
        self.inner.load(alloc, id)
    }

    fn ids(&mut self, alloc: Global) -> Result<Vec<[u8; 32]>, Refusal> {
        self.inner.ids(alloc)
    }

    fn failures(&self) -> u64 {
        self.inner.failures()
    }
}

#[test]
fn a_refused_save_is_logged_without_a_time(rt: HostRuntime) -> Result<(), Fail> {
    let sink = Memory::new(rt.alloc());
    let clock = Ticks {
        reads: Cell::new(0),
        most: 2,
    };
    let inner = Full {
        inner: MemoryStore::new(rt.alloc()),
    };
    let mut store = LoggedStore::new(inner, Logged::new(&clock, Level::Info, &sink));
    let answer = store.save(rt.alloc(), &[171; 32], &[5; 3]);
    assert_eq!(rt; answer, Err(Refusal::Memory));
    assert_eq!(rt; clock.reads.get(), 0);
    assert_eq!(rt; store.ids(rt.alloc())?.len(), 0);
    drop(store);
    let expected = [
        "[WARN  lnlink::store] save refused \
            channel_id=abababababababababababababababababababababababababababababababab bytes=3 error=60",
    ];
    expect(&rt, sink.into_lines(), &expected);
    Ok(())
}

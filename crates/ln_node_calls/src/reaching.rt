//! Calls that reach the channel that they name, and orders that fill a relay.

use crate::asking::{PATIENCE, must};
use crate::node::{Driven, turn};
use crate::row::{Row, of_end};
use ln_bytes::Bytes;
use ln_channel::Command;
use ln_node::{Answer, Ticket};
use ln_refusals::Refusal;
use ln_tests_ends::End;
use std::io;
use std::io::{ErrorKind, Read, Write};
use std::net::{Net, OpenStream, Shutdown, TcpListener, TcpStream};
use std::sync::Wait;
use std::sync::atomic::Ordering;
use std::thread::Threads;

/// To how many orders a channel keeps the answers.
const KEPT: u64 = 256;

/// In how many reads a stranger has come to the end.
const READS: u64 = 1000;

// By what an order that fills a relay is refused: 42, 40, 44.
fn refusal_of(command: &Command) -> u16 {
    match command {
        Command::Sign => 42,
        Command::Forget(_) => 40,
        _ => 44,
    }
}

fn is_refused_by(answer: Answer, number: u16) -> bool {
    match answer {
        Answer::Refused(refusal) => refusal.number() == number,
        _ => false,
    }
}

// Writes bytes, and reads until the other side has closed.
fn talk<S: Read + Write + OpenStream + Drop>(stream: S, bytes: &[u8]) -> io::Result<()> {
    let mut stream = stream;
    stream.write_all(bytes)?;
    stream.shutdown(Shutdown::Write)?;
    let mut rest = [0u8; 256];
    for _ in 0..READS {
        if stream.read(&mut rest)? == 0 {
            return Ok(());
        }
    }
    Err(io::Error::from(ErrorKind::Other))
}

impl<N, R> Row<N, R>
where
    N: Driven + Drop,
    R: Net<Listener = TcpListener, Stream = TcpStream> + Threads + Wait + Copy + Send + 'static,
{
    /// An end is ordered so much that its relay is full; then each order that was taken is answered by its own refusal.
    /// The answers to the latest 256 are kept.
    pub fn fill(&self, end: End) -> Result<(), Refusal> {
        let node = self.node(end)?;
        let Some((first, count)) = node.fill(&self.rt, end.channel) else {
            return Err(Refusal::GaveUp);
        };
        must(count >= KEPT)?;
        for at in count.wrapping_sub(KEPT)..count {
            let ticket = Ticket {
                channel: end.channel,
                number: first.wrapping_add(at),
            };
            let answer = node.wait_for_answer(&self.rt, ticket, PATIENCE);
            must(is_refused_by(answer, refusal_of(&turn(at))))?;
        }
        Ok(())
    }

    /// A hook is registered for an end.
    pub fn hook(&self, end: End) -> Result<(), Refusal> {
        must(self.node(end)?.hook(&self.rt, end.channel))
    }

    /// A stranger connects with an end that listens and has no connection, writes these bytes, and reads until the end
    /// has closed the connection.
    pub fn meets_stranger(&self, end: End, bytes: &[u8]) -> Result<(), Refusal> {
        let Some(address) = self.node(end)?.address(end.channel) else {
            return Err(Refusal::NotReady);
        };
        let Ok(stream) = TcpStream::connect(&self.rt, address) else {
            return Err(Refusal::Io);
        };
        must(talk(stream, bytes).is_ok())
    }

    /// An end is to shut down by this script.
    pub fn close(&self, end: End, script: Bytes) -> Result<(), Refusal> {
        must(self.node(end)?.close(&self.rt, end.channel, script).is_ok())
    }

    /// All summaries of a node are as many as it has channels, and tell of each what its own one tells.
    pub fn lists(&self, ends: &[End], node: usize) -> Result<(), Refusal> {
        let Some(it) = self.nodes.get(node) else {
            return Err(Refusal::NotReady);
        };
        let balances = it.balances(&self.rt, self.alloc)?;
        let mut count = 0usize;
        for end in ends {
            if end.node == node && self.proxy(*end).is_ok() {
                let told = balances.as_slice().get(end.channel).copied();
                must(told == Some(self.count(*end, "balance")?))?;
                count = count.wrapping_add(1);
            }
        }
        must(balances.len() == count)
    }

    /// The next save of an end fails, and leaves the old record or the new one.
    pub fn spoil(&self, end: End, leaves_new: u64) -> Result<(), Refusal> {
        let gauge = self.gauge(end)?;
        gauge.leaves_new.store(leaves_new, Ordering::SeqCst);
        gauge.save.store(1, Ordering::SeqCst);
        Ok(())
    }

    /// So many loads from the store of an end are refused from now on.
    pub fn deny(&self, end: End, count: u64) -> Result<(), Refusal> {
        let probe = of_end(self.probes.as_slice(), end)?;
        probe.denials.store(count, Ordering::SeqCst);
        Ok(())
    }
}

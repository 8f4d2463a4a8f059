//! A node of the row, as lines drive it.

use crate::faults::{RowRecords, RowTable};
use ln_bytes::Bytes;
use ln_channel::Command;
use ln_hooks::Verdict;
use ln_keys::{ToyKeys, ToyOnion};
use ln_node::{
    Answer, ChannelSummary, Counters, HeldHtlc, Node, Notice, Signing, Ticket, Trace, offers,
};
use ln_refusals::Refusal;
use ln_tests_ends::{AMOUNT, NoHook, SECRET, preimage};
use std::alloc::Global;
use std::net::{Net, SocketAddr, TcpStream};
use std::sync::Wait;

/// What a row has a running node do: calls of `Node`, with what tests have. The row is generic in it, since each
/// function that names a node pays for all types that a node reaches.
pub trait Driven {
    fn order<R: Wait>(&self, rt: &R, channel: usize, command: Command) -> Result<(), Command>;

    fn ask<R: Wait>(&self, rt: &R, channel: usize, command: Command) -> Result<Ticket, Command>;

    fn answer<R: Wait>(&self, rt: &R, ticket: Ticket) -> Answer;

    fn wait_for_answer<R: Wait>(&self, rt: &R, ticket: Ticket, millis: u64) -> Answer;

    fn notices<R: Wait>(&self, rt: &R, alloc: Global) -> Vec<(usize, Notice)>;

    fn trace(&self, most: u64);

    fn traced<R: Wait>(&self, rt: &R, alloc: Global) -> Trace;

    fn is_usable<R: Wait>(&self, rt: &R, id: &[u8; 32]) -> bool;

    /// It waits for a payment.
    fn expect<R: Wait>(&self, rt: &R, number: u64) -> Result<(), Refusal>;

    fn held<R: Wait>(&self, rt: &R, alloc: Global) -> Result<Vec<(usize, HeldHtlc)>, Refusal>;

    fn resume<R: Wait>(
        &self,
        rt: &R,
        alloc: Global,
        channel: usize,
        number: u64,
        verdict: Verdict,
    ) -> Result<(), Refusal>;

    fn reconnect<R>(&self, rt: &R, channel: usize, at: SocketAddr) -> Result<(), Refusal>
    where
        R: Net<Stream = TcpStream> + Wait;

    fn hang_up<R: Wait>(&self, rt: &R, channel: usize);

    fn address(&self, channel: usize) -> Option<SocketAddr>;

    fn summary<R: Wait>(&self, rt: &R, channel: usize) -> Result<ChannelSummary, Refusal>;

    /// How many summaries of all channels tell.
    fn channels<R: Wait>(&self, rt: &R, alloc: Global) -> Result<usize, Refusal>;

    /// The own balances that the summaries of all channels tell.
    fn balances<R: Wait>(&self, rt: &R, alloc: Global) -> Result<Vec<u64>, Refusal>;

    /// A hook is registered for a channel.
    fn hook<R: Wait>(&self, rt: &R, channel: usize) -> bool;

    /// A channel closes by this script.
    fn close<R: Wait>(&self, rt: &R, channel: usize, script: Bytes) -> Result<(), Command>;

    /// Orders a channel that is open so much that its relay is full, while its worker waits for the book: `sign`,
    /// `forget` and `fee` in turn. Gives the first order's number, and how many were taken; none where a relay took
    /// more than there is room for, or numbered them otherwise.
    fn fill<R: Wait>(&self, rt: &R, channel: usize) -> Option<(u64, u64)>;

    fn counters(&self) -> &Counters;

    /// Whether the peer of a channel has greeted by an init that offers this feature.
    fn peer_offers<R: Wait>(&self, rt: &R, alloc: Global, channel: usize, feature: u16) -> bool;

    fn set_signing(&mut self, signing: Signing);

    fn set_signing_of(&self, channel: usize, signing: Signing) -> Result<(), Refusal>;
}

// More orders than a relay has room for, and its worker has taken while it waits.
const MOST: u64 = 300;

/// The order of this number among those that fill a relay. At an end that can't sign, and didn't open its channel, each
/// kind is refused by a number of its own.
pub fn turn(count: u64) -> Command {
    match (count ^ (count >> 3)) % 3 {
        0 => Command::Sign,
        1 => Command::Forget(0),
        _ => Command::Fee(300),
    }
}

// The number of an order that was taken.
fn number_of(asked: Result<Ticket, Command>) -> Option<u64> {
    match asked {
        Ok(ticket) => Some(ticket.number),
        Err(_) => None,
    }
}

/// A node with toy keys and a toy onion, whose saves are made to fail, and whose hooks say what they are told.
pub type ToyNode = Node<ToyKeys, RowRecords, ToyOnion, NoHook, RowTable>;

impl Driven for ToyNode {
    fn order<R: Wait>(&self, rt: &R, channel: usize, command: Command) -> Result<(), Command> {
        self.order(rt, channel, command)
    }

    fn ask<R: Wait>(&self, rt: &R, channel: usize, command: Command) -> Result<Ticket, Command> {
        self.ask(rt, channel, command)
    }

    fn answer<R: Wait>(&self, rt: &R, ticket: Ticket) -> Answer {
        self.answer(rt, ticket)
    }

    fn wait_for_answer<R: Wait>(&self, rt: &R, ticket: Ticket, millis: u64) -> Answer {
        self.wait_for_answer(rt, ticket, millis)
    }

    fn notices<R: Wait>(&self, rt: &R, alloc: Global) -> Vec<(usize, Notice)> {
        self.notices(rt, alloc)
    }

    fn trace(&self, most: u64) {
        self.trace(most);
    }

    fn traced<R: Wait>(&self, rt: &R, alloc: Global) -> Trace {
        self.traced(rt, alloc)
    }

    fn is_usable<R: Wait>(&self, rt: &R, id: &[u8; 32]) -> bool {
        self.book().lock(rt).usable(id)
    }

    fn expect<R: Wait>(&self, rt: &R, number: u64) -> Result<(), Refusal> {
        self.book()
            .lock(rt)
            .expect(preimage(number), SECRET, AMOUNT)
    }

    fn held<R: Wait>(&self, rt: &R, alloc: Global) -> Result<Vec<(usize, HeldHtlc)>, Refusal> {
        self.held(rt, alloc)
    }

    fn resume<R: Wait>(
        &self,
        rt: &R,
        alloc: Global,
        channel: usize,
        number: u64,
        verdict: Verdict,
    ) -> Result<(), Refusal> {
        match self.resume(rt, alloc, channel, number, verdict) {
            Ok(_) => Ok(()),
            Err(refusal) => Err(refusal),
        }
    }

    fn reconnect<R>(&self, rt: &R, channel: usize, at: SocketAddr) -> Result<(), Refusal>
    where
        R: Net<Stream = TcpStream> + Wait,
    {
        self.reconnect(rt, channel, at)
    }

    fn hang_up<R: Wait>(&self, rt: &R, channel: usize) {
        self.hang_up(rt, channel);
    }

    fn address(&self, channel: usize) -> Option<SocketAddr> {
        self.address(channel)
    }

    fn summary<R: Wait>(&self, rt: &R, channel: usize) -> Result<ChannelSummary, Refusal> {
        self.summary(rt, channel)
    }

    fn channels<R: Wait>(&self, rt: &R, alloc: Global) -> Result<usize, Refusal> {
        Ok(self.channels(rt, alloc)?.len())
    }

    fn balances<R: Wait>(&self, rt: &R, alloc: Global) -> Result<Vec<u64>, Refusal> {
        let mut balances = Vec::new(alloc);
        for told in self.channels(rt, alloc)?.as_slice() {
            balances.push(told.own_balance)?;
        }
        Ok(balances)
    }

    fn hook<R: Wait>(&self, rt: &R, channel: usize) -> bool {
        self.register_hook(rt, channel, NoHook).is_ok()
    }

    fn close<R: Wait>(&self, rt: &R, channel: usize, script: Bytes) -> Result<(), Command> {
        self.close_channel(rt, channel, script)
    }

    fn fill<R: Wait>(&self, rt: &R, channel: usize) -> Option<(u64, u64)> {
        let _held = self.book().lock(rt);
        let mut first = 0;
        for count in 0..MOST {
            match number_of(self.ask(rt, channel, turn(count))) {
                None => return Some((first, count)),
                Some(number) if count == 0 => first = number,
                Some(number) if number.wrapping_sub(first) != count => return None,
                Some(_) => {}
            }
        }
        None
    }

    fn counters(&self) -> &Counters {
        self.counters()
    }

    fn peer_offers<R: Wait>(&self, rt: &R, alloc: Global, channel: usize, feature: u16) -> bool {
        match self.peer_init(rt, alloc, channel) {
            Ok(Some(init)) => offers(&init, feature),
            _ => false,
        }
    }

    fn set_signing(&mut self, signing: Signing) {
        self.set_signing(signing);
    }

    fn set_signing_of(&self, channel: usize, signing: Signing) -> Result<(), Refusal> {
        self.set_signing_of(channel, signing)
    }
}

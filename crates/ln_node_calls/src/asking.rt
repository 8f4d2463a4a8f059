//! Orders that are answered.

use crate::node::Driven;
use crate::row::Row;
use ln_channel::Command;
use ln_node::{Answer, Signing, Ticket};
use ln_refusals::Refusal;
use ln_tests_ends::{End, FEE, order};
use std::net::{Net, TcpListener, TcpStream};
use std::sync::Wait;
use std::thread::Threads;

/// How many thousandths of a second an answer is waited for.
pub const PATIENCE: u64 = 20_000;

/// How many answers a channel keeps.
const KEPT: u64 = 256;

/// What is to become of an order.
#[derive(Clone, Copy)]
pub enum Wanted {
    /// It is done, and this is the id of its HTLC.
    Done(u64),
    /// It is refused by this number.
    Refused(u64),
}

impl Wanted {
    fn is_met(self, answer: Answer) -> bool {
        match (self, answer) {
            (Wanted::Done(wanted), Answer::Done(id)) => id == wanted,
            (Wanted::Refused(wanted), Answer::Refused(refusal)) => {
                u64::from(refusal.number()) == wanted
            }
            _ => false,
        }
    }
}

/// What is to be so, or 65.
pub fn must(is: bool) -> Result<(), Refusal> {
    if is { Ok(()) } else { Err(Refusal::GaveUp) }
}

impl<N, R> Row<N, R>
where
    N: Driven + Drop,
    R: Net<Listener = TcpListener, Stream = TcpStream> + Threads + Wait + Copy + Send + 'static,
{
    /// Orders an end this, which is answered so; and then no more.
    pub fn asks(&self, end: End, command: Command, wanted: Wanted) -> Result<(), Refusal> {
        let ticket = self.ask(end, command)?;
        let node = self.node(end)?;
        must(wanted.is_met(node.wait_for_answer(&self.rt, ticket, PATIENCE)))?;
        must(node.answer(&self.rt, ticket) == Answer::Forgotten)
    }

    // The summary of an end tells of its offer, unsigned or signed since there were so many commitments: it is made
    // before the order is answered.
    fn tells_of_it(&self, end: End, commitments: u64) -> Result<(), Refusal> {
        let unsigned = self.count(end, "unsigned")?;
        must(unsigned > 0 || self.count(end, "commitments")? > commitments)
    }

    /// An end offers a payment over the channel in this block, is answered so, and signs: no connection is lost in
    /// between.
    pub fn asks_to_pay(
        &self,
        payer: End,
        number: u64,
        block: u8,
        wanted: Wanted,
    ) -> Result<(), Refusal> {
        self.wait(payer, "usable", 1)?;
        let offer = order(self.alloc, number, block, FEE)?;
        let _held = self.gate.lock(&self.rt);
        let commitments = self.count(payer, "commitments")?;
        self.asks(payer, offer, wanted)?;
        if let Wanted::Done(_) = wanted {
            self.tells_of_it(payer, commitments)?;
        }
        self.sign(payer)
    }

    /// An end offers so many payments from this one on over the channel in this block, for which its payee waits: it
    /// has taken all of them before the first message is handed on.
    pub fn asks_to_pay_all(
        &self,
        payer: End,
        payee: End,
        first: u64,
        count: u64,
        block: u8,
    ) -> Result<(), Refusal> {
        self.wait(payer, "usable", 1)?;
        let _held = self.gate.lock(&self.rt);
        let node = self.node(payer)?;
        for at in 0..count {
            let number = first.wrapping_add(at);
            self.expect(payee, number)?;
            let ticket = self.ask(payer, order(self.alloc, number, block, FEE)?)?;
            let answer = node.wait_for_answer(&self.rt, ticket, PATIENCE);
            must(matches!(answer, Answer::Done(_)))?;
        }
        self.sign(payer)
    }

    /// A channel of a node signs by itself from now on, or isn't there (40).
    pub fn signs_alone(&self, node: usize, channel: usize) -> Result<(), Refusal> {
        match self.nodes.get(node) {
            Some(node) => node.set_signing_of(channel, Signing::WhenIdle),
            None => Err(Refusal::NotReady),
        }
    }

    /// A node has no answer to the order of this number of its channel.
    pub fn lacks(&self, node: usize, channel: usize, number: u64) -> Result<(), Refusal> {
        let Some(node) = self.nodes.get(node) else {
            return Err(Refusal::NotReady);
        };
        let ticket = Ticket { channel, number };
        must(node.wait_for_answer(&self.rt, ticket, PATIENCE) == Answer::Forgotten)
    }

    /// An end is ordered this, and then something else 256 times: the answer to the first is forgotten, the others
    /// aren't.
    pub fn buries(&self, end: End) -> Result<(), Refusal> {
        let refused = Answer::Refused(Refusal::NotReady);
        let first = self.ask(end, Command::Forget(0))?;
        let second = self.ask(end, Command::Forget(0))?;
        let mut last = second;
        for _ in 1..KEPT {
            last = self.ask(end, Command::Forget(0))?;
        }
        let node = self.node(end)?;
        must(node.wait_for_answer(&self.rt, last, PATIENCE) == refused)?;
        must(node.answer(&self.rt, second) == refused)?;
        must(node.answer(&self.rt, first) == Answer::Forgotten)
    }
}

//! The two ends of a channel: the node's own, which funds it, and its peer's.

use ln_bytes::ShortId;
use ln_channel::{Channel, ChannelMachine, Command, FitConfig, FitSpec, OpenSpec, Output};
use ln_hooks::ChannelEvent;
use ln_keys::ToyKeys;
use ln_msgs::{Message, Records};
use ln_refusals::Refusal;
use ln_tests_ends::{CHEAP, boxed, config, push};
use std::alloc::Global;

type End = ChannelMachine<ToyKeys>;

/// An event of the node's end, with its number.
#[derive(Drop)]
pub struct Shown {
    pub number: u64,
    pub event: ChannelEvent,
}

/// Both ends. In boxes: a function that owns an end pays for its whole depth at each way out.
#[derive(Drop)]
pub struct Ends {
    own: Box<End>,
    peer: Box<End>,
}

/// What an end's signature becomes, and whose it is.
#[derive(Clone, Copy)]
pub enum Signing {
    /// The node's end signs, or its peer's, and what comes of it passes to and fro.
    Own,
    Peer,
    /// The node's end signs, and what it hands out is lost.
    Lost,
}

/// Keys whose tag is that of the peer's peer.
fn keys(own: u8, peer: u8) -> ToyKeys {
    ToyKeys {
        seed: [own; 32],
        tag: [own; 32],
        peer_tag: [peer; 32],
    }
}

/// A new end of the funder, of a channel whose id are these bytes. Half of its 1,000,000 satoshis are the fundee's.
fn funder(alloc: Global, channel: [u8; 32]) -> Result<Box<End>, Refusal> {
    let spec = OpenSpec {
        config: config(alloc, CHEAP),
        funding: 1_000_000,
        push: 500_000_000,
        feerate: 253,
        flags: 0,
        temporary_id: [255; 32],
        txid: channel,
        output: 0,
        records: Records::empty(alloc),
    };
    if spec.fits() {
        boxed(
            alloc,
            ChannelMachine::funder(keys(1, 2), FitSpec::new(spec)),
        )
    } else {
        drop(spec);
        Err(Refusal::NotReady)
    }
}

/// A new end of the fundee.
fn fundee(alloc: Global) -> Result<Box<End>, Refusal> {
    let config = config(alloc, CHEAP);
    if config.fits() {
        boxed(
            alloc,
            ChannelMachine::fundee(keys(2, 1), FitConfig::new(config)),
        )
    } else {
        drop(config);
        Err(Refusal::NotReady)
    }
}

/// Puts a message after the others, an event after those told; of the rest nothing is needed.
fn sort(output: Output, messages: &mut Vec<Message>, told: &mut Vec<Shown>) -> Result<(), Refusal> {
    match output {
        Output::Send(message) => push(messages, message),
        Output::Event(number, event) => push(told, Shown { number, event }),
        other => {
            drop(other);
            Ok(())
        }
    }
}

fn sorted(
    alloc: Global,
    outputs: Vec<Output>,
    told: &mut Vec<Shown>,
) -> Result<Vec<Message>, Refusal> {
    let mut messages = Vec::new(alloc);
    for output in outputs {
        sort(output, &mut messages, told)?;
    }
    Ok(messages)
}

/// An end takes messages: what it answers.
fn taken(
    alloc: Global,
    messages: Vec<Message>,
    end: &mut End,
    told: &mut Vec<Shown>,
) -> Result<Vec<Message>, Refusal> {
    let mut answers = Vec::new(alloc);
    for message in messages {
        let outputs = end.handle(alloc, message)?;
        for output in outputs {
            sort(output, &mut answers, told)?;
        }
    }
    Ok(answers)
}

/// Messages pass to and fro: a signature with all that comes of it is over in five rounds.
fn passed(
    alloc: Global,
    ends: &mut Ends,
    to_own: Vec<Message>,
    to_peer: Vec<Message>,
    told: &mut Vec<Shown>,
) -> Result<(), Refusal> {
    let mut to_own = to_own;
    let mut to_peer = to_peer;
    let mut unheard = Vec::new(alloc);
    for _ in 0..6 {
        let answers = taken(alloc, to_peer, &mut ends.peer, &mut unheard)?;
        to_peer = taken(alloc, to_own, &mut ends.own, told)?;
        to_own = answers;
    }
    Ok(())
}

impl Ends {
    /// A channel whose opening both have signed and confirmed.
    pub fn open(
        alloc: Global,
        channel: [u8; 32],
        told: &mut Vec<Shown>,
    ) -> Result<Box<Ends>, Refusal> {
        let own = funder(alloc, channel)?;
        let peer = fundee(alloc)?;
        let mut ends = boxed(alloc, Ends { own, peer })?;
        ends.connect(alloc, told)?;
        let Some(id) = ShortId::parse("1x1x0") else {
            return Err(Refusal::NotReady);
        };
        ends.obey(alloc, Command::Confirm(id), told)?;
        ends.answer(alloc, Command::Confirm(id), told)?;
        Ok(ends)
    }

    /// There is a connection.
    pub fn connect(&mut self, alloc: Global, told: &mut Vec<Shown>) -> Result<(), Refusal> {
        let from_peer = self.peer.connect(alloc)?;
        let from_own = self.own.connect(alloc)?;
        let to_own = sorted(alloc, from_peer, told)?;
        let to_peer = sorted(alloc, from_own, told)?;
        passed(alloc, self, to_own, to_peer, told)
    }

    /// The connection is lost.
    pub fn cut(&mut self) {
        self.own.drop_connection();
        self.peer.drop_connection();
    }

    /// What the node's end needn't keep one by one any more is left out.
    pub fn settle(&mut self, alloc: Global) -> Result<(), Refusal> {
        self.own.compact(alloc)
    }

    /// The node's end, as a book asks it.
    pub fn channel(&self) -> Option<&Channel> {
        self.own.saved()
    }

    /// The node's end does what it is told.
    pub fn obey(
        &mut self,
        alloc: Global,
        command: Command,
        told: &mut Vec<Shown>,
    ) -> Result<(), Refusal> {
        let outputs = self.own.command(alloc, command)?;
        let to_peer = sorted(alloc, outputs, told)?;
        passed(alloc, self, Vec::new(alloc), to_peer, told)
    }

    /// And so does its peer's.
    pub fn answer(
        &mut self,
        alloc: Global,
        command: Command,
        told: &mut Vec<Shown>,
    ) -> Result<(), Refusal> {
        let outputs = self.peer.command(alloc, command)?;
        let to_own = sorted(alloc, outputs, &mut Vec::new(alloc))?;
        passed(alloc, self, to_own, Vec::new(alloc), told)
    }

    /// An end signs.
    pub fn sign(
        &mut self,
        alloc: Global,
        signing: Signing,
        told: &mut Vec<Shown>,
    ) -> Result<(), Refusal> {
        match signing {
            Signing::Own => self.obey(alloc, Command::Sign, told),
            Signing::Peer => self.answer(alloc, Command::Sign, told),
            Signing::Lost => {
                drop(self.own.command(alloc, Command::Sign)?);
                Ok(())
            }
        }
    }
}

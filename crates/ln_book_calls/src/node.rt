//! A node: its book, and the channels whose ends it asks.

use crate::calls::{at, channel_at};
use crate::ends::{Ends, Shown, Signing};
use crate::onion::onion_of;
use crate::show::show_command;
use ln_book::{Book, ChannelSnapshot, Kept};
use ln_channel::Command;
use ln_hooks::Verdict;
use ln_keys::{ToyOnion, sha256_32};
use ln_log::ChannelId;
use ln_named_lines::value_of;
use ln_refusals::Refusal;
use ln_tests_ends::{bytes_of, wide};
use std::alloc::{AllocError, Global};

/// A channel of the node's.
#[derive(Drop)]
struct NodeChannel {
    channel: ChannelId,
    ends: Box<Ends>,
}

/// A node, and what its hooks say of each event.
#[derive(Drop)]
pub struct Node {
    pub book: Box<Book>,
    pub verdict: Verdict,
    channels: Vec<NodeChannel>,
}

/// Decides each event by what the hooks say, and hears what became of HTLCs. Says how many there were.
fn note(
    alloc: Global,
    book: &mut Book,
    verdict: Verdict,
    channel: ChannelId,
    all: &[Shown],
) -> Result<usize, Refusal> {
    for told in all {
        drop(book.decide(alloc, &ToyOnion, channel, told.number, &told.event, verdict)?);
        book.settled(alloc, channel, &told.event)?;
    }
    Ok(all.len())
}

/// An HTLC that the peer offers.
fn offered(alloc: Global, words: &[&str]) -> Result<Command, AllocError> {
    let hash = sha256_32(&bytes_of(at(words, "preimage")));
    let onion = onion_of(alloc, words, &hash)?;
    Ok(Command::Add {
        amount: at(words, "amount"),
        hash,
        expiry: wide(at(words, "expiry")),
        onion,
        origin: None,
    })
}

fn signing_of(words: &[&str]) -> Result<Signing, Refusal> {
    match value_of(words, "by").unwrap_or("") {
        "own" => Ok(Signing::Own),
        "peer" => Ok(Signing::Peer),
        "lost" => Ok(Signing::Lost),
        _ => Err(Refusal::BadScript { line: 0 }),
    }
}

/// Reads off the ends of all channels.
fn channel_snapshots_of(
    alloc: Global,
    channels: &[NodeChannel],
) -> Result<Vec<ChannelSnapshot>, Refusal> {
    let mut all = Vec::new(alloc);
    for one in channels {
        match one.ends.channel() {
            None => {}
            Some(channel) => all.push(ChannelSnapshot::of(alloc, channel)?)?,
        }
    }
    Ok(all)
}

impl NodeChannel {
    /// What the channel's ends do by a line, and which events the node's end tells of.
    fn play(
        &mut self,
        alloc: Global,
        word: &str,
        words: &[&str],
        told: &mut Vec<Shown>,
    ) -> Result<(), Refusal> {
        match word {
            "offer" => {
                let add = offered(alloc, words)?;
                self.ends.answer(alloc, add, told)
            }
            "pay" => {
                let id = at(words, "id");
                let preimage = bytes_of(at(words, "preimage"));
                self.ends
                    .answer(alloc, Command::Fulfil { id, preimage }, told)
            }
            "sign" => self.ends.sign(alloc, signing_of(words)?, told),
            "up" => self.ends.connect(alloc, told),
            "settle" => self.ends.settle(alloc),
            _ => Err(Refusal::NotReady),
        }
    }

    /// The id of the next own HTLC.
    fn next_id(&self) -> u64 {
        match self.ends.channel() {
            None => 0,
            Some(channel) => channel.next_own_id(),
        }
    }

    /// The node's end does what it is told: the id of the HTLC that it offers by that, or by what it refuses.
    fn obeyed(
        &mut self,
        alloc: Global,
        command: Command,
        told: &mut Vec<Shown>,
    ) -> Result<u64, u16> {
        let next = self.next_id();
        match self.ends.obey(alloc, command, told) {
            Ok(()) => Ok(next),
            Err(refusal) => Err(refusal.number()),
        }
    }
}

fn show_answer(
    alloc: Global,
    command: &str,
    answer: Result<u64, u16>,
) -> Result<String, AllocError> {
    match answer {
        Ok(id) => format!(in alloc; "{command}, taken {id}"),
        Err(number) => format!(in alloc; "{command}, refused {number}"),
    }
}

impl Node {
    /// A node with no channel, and nothing in its book.
    pub fn new(alloc: Global) -> Result<Node, AllocError> {
        let book = Box::new(alloc, Book::new(alloc))?;
        Ok(Node {
            book,
            verdict: Verdict::Continue,
            channels: Vec::new(alloc),
        })
    }

    /// Opens a channel of this id.
    fn open(&mut self, alloc: Global, channel: ChannelId) -> Result<usize, Refusal> {
        let mut told = Vec::new(alloc);
        let ends = Ends::open(alloc, channel, &mut told)?;
        self.channels.push(NodeChannel { channel, ends })?;
        note(
            alloc,
            &mut self.book,
            self.verdict,
            channel,
            told.as_slice(),
        )
    }

    /// Opens so many channels, whose ids are the bytes of numbers from 256 on.
    fn open_all(&mut self, alloc: Global, count: u64) -> Result<usize, Refusal> {
        for number in 0..count {
            let mut channel = [0; 32];
            channel[..8].copy_from_slice(&number.wrapping_add(256).to_be_bytes());
            self.open(alloc, channel)?;
        }
        Ok(self.channels.len())
    }

    /// The index of a channel.
    fn index_of(&self, channel: &ChannelId) -> Result<usize, Refusal> {
        match self.channels.iter().position(|one| channel == &one.channel) {
            None => Err(Refusal::NotReady),
            Some(index) => Ok(index),
        }
    }

    /// A line of one channel's ends: how many events the node's end tells of.
    fn play(&mut self, alloc: Global, word: &str, words: &[&str]) -> Result<usize, Refusal> {
        let channel = channel_at(words);
        if word == "open" {
            return self.open(alloc, channel);
        }
        let index = self.index_of(&channel)?;
        let Some(one) = self.channels.get_mut(index) else {
            return Err(Refusal::NotReady);
        };
        let mut told = Vec::new(alloc);
        one.play(alloc, word, words, &mut told)?;
        note(
            alloc,
            &mut self.book,
            self.verdict,
            channel,
            told.as_slice(),
        )
    }

    /// The node's end of a channel does what the book commands, and the book hears the answer.
    fn obey(&mut self, alloc: Global, channel: ChannelId) -> Result<String, Refusal> {
        let index = self.index_of(&channel)?;
        let Some(one) = self.channels.get_mut(index) else {
            return Err(Refusal::NotReady);
        };
        let Some(command) = self.book.take_commands(alloc, &ToyOnion, channel)? else {
            return Ok(String::from_str(alloc, "nothing")?);
        };
        let mut told = Vec::new(alloc);
        let shown = show_command(alloc, &command);
        let answer = one.obeyed(alloc, command, &mut told);
        self.book.answered(channel, answer);
        let shown = shown?;
        note(
            alloc,
            &mut self.book,
            self.verdict,
            channel,
            told.as_slice(),
        )?;
        Ok(show_answer(alloc, shown.as_str(), answer)?)
    }

    /// A channel loses its connection, and the book asks the node's end what was kept.
    fn down(&mut self, alloc: Global, channel: ChannelId) -> Result<usize, Refusal> {
        let index = self.index_of(&channel)?;
        let Some(one) = self.channels.get_mut(index) else {
            return Err(Refusal::NotReady);
        };
        one.ends.cut();
        let Some(end) = one.ends.channel() else {
            return Err(Refusal::NotReady);
        };
        self.book.dropped(alloc, channel, end)?;
        Ok(0)
    }

    /// The node restarts: all connections are lost, and the book is read off the ends of all channels.
    fn restart(&mut self, alloc: Global) -> Result<usize, Refusal> {
        for one in self.channels.iter_mut() {
            one.ends.cut();
        }
        let snapshots = channel_snapshots_of(alloc, self.channels.as_slice())?;
        self.book.rebuild(alloc, snapshots.as_slice())?;
        Ok(self.channels.len())
    }

    /// A line of channels.
    pub fn call(
        &mut self,
        alloc: Global,
        word: &str,
        words: &[&str],
    ) -> Result<String, AllocError> {
        let channel = channel_at(words);
        if word == "obey" {
            return match self.obey(alloc, channel) {
                Ok(shown) => Ok(shown),
                Err(refusal) => refused(alloc, refusal),
            };
        }
        let done = match word {
            "down" => self.down(alloc, channel),
            "opens" => self.open_all(alloc, at(words, "count")),
            "restart" => self.restart(alloc),
            _ => self.play(alloc, word, words),
        };
        match done {
            Ok(count) => format!(in alloc; "told {count}"),
            Err(refusal) => refused(alloc, refusal),
        }
    }
}

fn refused(alloc: Global, refusal: Refusal) -> Result<String, AllocError> {
    let number = refusal.number();
    format!(in alloc; "refused {number}")
}

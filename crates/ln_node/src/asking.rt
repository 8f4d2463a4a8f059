//! Orders that are answered.

ghost use Rattle.std.specs.Prelude.{◌≡◌, Err, OnOk, OnErr, IfErr};

use crate::answers::{Answer, AnswerRing, counted, notice_of, replied};
use crate::node::Node;
use crate::notices::Notices;
use crate::signing::Signing;
use crate::wakeup::Bell;
use ln_channel::Command;
use ln_history::Past;
use ln_keys::{ChannelKeys, Onion};
use ln_node_loops::{Orders, Table};
use ln_refusals::Refusal;
use ln_store::RecordStore;
use std::alloc::AllocError;
use std::io::{Read, Write};
use std::net::OpenStream;
use std::sync::atomic::{AtomicU64, Ordering};
use std::sync::{Arc, Mutex, Wait};

/// Which order was given: the number of its channel in the node, and its own among all orders of the channel, both
/// from 0. The orders of a node that starts again are counted anew.
#[derive(Clone, Copy, PartialEq, Eq, Debug)]
pub struct Ticket {
    /// The channel's number.
    pub channel: usize,
    /// The order's number.
    pub number: u64,
}

/// What a channel's worker and those who order it something share: the answers to orders, and when it signs.
#[derive(Drop)]
pub(crate) struct OrderAnswers {
    kept: Mutex<AnswerRing>,
    // Sounds after each answer.
    bell: Bell,
    // 1 where the worker signs unasked.
    signs: AtomicU64,
}

impl OrderAnswers {
    /// That of a channel that signs so, which was ordered nothing. Takes no memory.
    pub(crate) fn new(signing: Signing) -> OrderAnswers {
        let answers = OrderAnswers {
            kept: Mutex::new(AnswerRing::new()),
            bell: Bell::new(),
            signs: AtomicU64::new(0),
        };
        answers.set_signing(signing);
        answers
    }

    /// When the worker signs from now on.
    pub(crate) fn set_signing(&self, signing: Signing) {
        let signs = u64::from(signing == Signing::WhenIdle);
        self.signs.store(signs, Ordering::SeqCst);
    }

    // Whether the worker signs unasked.
    fn signs(&self) -> bool {
        self.signs.load(Ordering::SeqCst) != 0
    }

    /// An order that was put counts, and gets the next number; one that came back doesn't.
    pub(crate) fn count<R: Wait>(&self, rt: &R, put: Result<(), Command>) -> Result<u64, Command>
        ensures hands_back { IfErr put (λ back. result ≡ Err back) }
        ensures gives_a_number { OnOk put (OnErr result ⊥) }
    {
        counted(put, &mut *self.kept.lock(rt))
    }

    // The next order is answered, as its link has replied so. Gives its number.
    fn reply<R: Wait>(&self, rt: &R, reply: Result<u64, Refusal>) -> u64 {
        let number = replied(reply, &mut *self.kept.lock(rt));
        self.bell.ring();
        number
    }

    // The answer to an order, which is forgotten here.
    fn take<R: Wait>(&self, rt: &R, number: u64) -> Answer {
        self.kept.lock(rt).take(number)
    }

    /// The same, once there is one. Pending where so many thousandths of a second have passed in which no order was
    /// answered.
    pub(crate) fn wait<R: Wait>(&self, rt: &R, number: u64, millis: u64) -> Answer {
        let mut left = millis;
        for _ in rt.forever() {
            let sounds = self.bell.sounds();
            let answer = self.take(rt, number);
            if answer != Answer::Pending || left == 0 {
                return answer;
            }
            self.bell.wait(rt, sounds);
            if self.bell.sounds() == sounds {
                left -= 1;
            }
        }
        unreachable!()
    }
}

/// The answers to a channel's orders, as its worker gives them.
#[derive(Drop)]
pub(crate) struct OrderReplies {
    answers: Arc<OrderAnswers>,
    notices: Arc<Notices>,
    // The channel's number.
    channel: usize,
    // All replies, and all that was told of whether to sign, for proofs alone.
    replied: Past<(), Result<u64, Refusal>>,
    allowed: Past<(), bool>,
}

impl OrderReplies {
    ghost use Rattle.std.specs.Prelude.{◌≡◌, [], IfOk};

    /// Into these answers, of a channel of this number, where nothing was replied. Takes no memory.
    pub(crate) fn new(
        answers: &Arc<OrderAnswers>,
        notices: &Arc<Notices>,
        channel: usize,
    ) -> Result<OrderReplies, AllocError>
        ensures nothing_was_replied { IfOk result (λ r. r.replied.told.entries ≡ []) }
    {
        Ok(OrderReplies {
            answers: Arc::try_clone(answers)?,
            notices: Arc::try_clone(notices)?,
            channel,
            replied: Past::begun(&()),
            allowed: Past::begun(&()),
        })
    }
}

impl Orders for OrderReplies {
    ghost replied = { λ d. d.replied.told.entries };

    ghost allowed = { λ d. d.allowed.told.entries };

    fn reply<R: Wait>(&mut self, rt: &R, answer: Result<u64, Refusal>) {
        let number = self.answers.reply(rt, answer);
        if let Some(notice) = notice_of(number, answer) {
            self.notices.add(rt, self.channel, notice);
        }
        self.replied = self.replied.and(&answer);
    }

    fn signs(&mut self) -> bool {
        let signs = self.answers.signs();
        self.allowed = self.allowed.and(&signs);
        signs
    }
}

impl<K, S, O, H, T, W> Node<K, S, O, H, T, W>
where
    K: ChannelKeys + Drop + Send + 'static,
    S: RecordStore + Drop + Send + 'static,
    O: Onion + Copy + Drop + Send + 'static,
    H: Drop + Send + 'static,
    T: Table<H> + Drop + Send + 'static,
    W: Read + Write + OpenStream + Drop + Send + 'static,
{
    ghost use Rattle.std.specs.Prelude.{◌≡◌, ◌≤◌, Err, IfOk, IfErr};
    ghost use Rattle.ln_node.specs.declared.answers.Answer.TheVariants.{Forgotten};
    ghost use Rattle.ln_node.specs.Node.{channel_count};

    /// Orders a channel's link to do this, as `order` does, and gives the order's ticket, by which `answer` tells what
    /// has become of it. A full relay, or a channel that there isn't, hands the command back. What removes or forwards
    /// an HTLC, `Decide`, `Resume` and `Forget` are the book's alone, and refused (40). Takes no memory.
    pub fn ask<R: Wait>(&self, rt: &R, channel: usize, command: Command) -> Result<Ticket, Command>
        ensures names_the_channel { IfOk result (λ t. t.channel ≡ channel) }
        ensures hands_back { IfErr result (λ back. back ≡ command) }
        ensures refuses_where_there_is_none { channel_count self.now ≤ channel → result ≡ Err command }
    {
        match self.channels.get(channel) {
            None => Err(command),
            Some(threads) => match threads.order(rt, command) {
                Ok(number) => Ok(Ticket { channel, number }),
                Err(back) => Err(back),
            },
        }
    }

    /// What has become of an order. It doesn't wait; an answer that was fetched is forgotten. A channel keeps the
    /// answers to its latest 256 orders, those of `order` counted. Takes no memory.
    pub fn answer<R: Wait>(&self, rt: &R, ticket: Ticket) -> Answer
        ensures knows_none_where_there_is_none { channel_count self.now ≤ ticket.channel → result ≡ Forgotten }
    {
        self.wait_for_answer(rt, ticket, 0)
    }

    /// The same, once the link has come to the order. It waits for so many thousandths of a second in which the link
    /// comes to no order of the channel; then it is `Pending`. Takes no memory.
    pub fn wait_for_answer<R: Wait>(&self, rt: &R, ticket: Ticket, millis: u64) -> Answer
        ensures knows_none_where_there_is_none { channel_count self.now ≤ ticket.channel → result ≡ Forgotten }
    {
        match self.channels.get(ticket.channel) {
            None => Answer::Forgotten,
            Some(threads) => threads.access.answers.wait(rt, ticket.number, millis),
        }
    }
}

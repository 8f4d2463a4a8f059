//! Messages of peers, and what a host commands.

ghost use Rattle.std.specs.Prelude.{◌≡◌};
ghost use Rattle.ln_host_node.specs.Asked.{asked};

use crate::node::HostNode;
use crate::seat::Seat;
use ln_channel::ChannelMachine;
use ln_host::{Answer, HostKeys, HostRefusal, Question, Seen, answer_of, question_about, seen_in};
use ln_keys::Role;
use ln_library::read;
use ln_msgs::Message;
use ln_refusals::Refusal;
use ln_wire::{decode_command, encode_question};
use std::alloc::Global;

// What a node asks: it knows itself which channels there are.
fn asked(question: Option<Question>) -> Option<Question>
    ensures { result ≡ asked question }
{
    match question {
        Some(Question::New(_)) => None,
        Some(Question::First { channel: _, view }) => Some(Question::Signatures {
            role: Role::Fundee,
            number: 0,
            view,
        }),
        other => other,
    }
}

fn question_in(
    alloc: Global,
    machine: &ChannelMachine<HostKeys>,
    message: &Message,
) -> Result<Option<Question>, Refusal> {
    Ok(asked(question_about(alloc, machine, message)?))
}

impl HostNode {
    ghost use Rattle.std.specs.Prelude.{◌≡◌, ◌⊎◌, Err};
    ghost use Rattle.ln_host.specs.declared.answer.HostRefusal.TheVariants as host;

    /// The question about a message to a channel; no bytes where there is none. It is that of a link, but for one: a
    /// node knows itself which channels there are. Errors: 40 where there is no such channel; the first fault of the
    /// message's bytes, 1 to 9; 60.
    pub fn question(
        &self,
        alloc: Global,
        channel: usize,
        message: &[u8],
    ) -> Result<Vec<u8>, Refusal> {
        let message = read(alloc, message)?;
        let machine = self.machine(channel)?;
        match &message {
            None => Ok(Vec::new(alloc)),
            Some(message) => match &question_in(alloc, machine, message)? {
                None => Ok(Vec::new(alloc)),
                Some(question) => encode_question(alloc, question),
            },
        }
    }

    /// A channel takes a message, with the answer to the question about it. One of an odd type that isn't known does
    /// nothing. A refusal is told to the peer.
    ///
    /// Errors: 40 where there is no such channel; the first fault of the message's bytes, 1 to 9; 80 where there is a
    /// question and no answer, 81 where the answer is none of it; nothing has changed then. Else those of
    /// `Link::handle`.
    pub fn message(
        &mut self,
        alloc: Global,
        channel: usize,
        message: &[u8],
        answer: &[u8],
    ) -> Result<(), HostRefusal>
        ensures nothing_is_given_without_its_answer { ((result ≡ Err host.Asks) ⊎ (result ≡ Err host.Answer))
            → self.new.manager ≡ self.old.manager }
    {
        self.write_batch(alloc)?;
        match read(alloc, message)? {
            None => Ok(()),
            Some(message) => self.take(alloc, channel, message, answer),
        }
    }

    // What is asked about a message, what its answer says, and what of it the chain may need.
    fn heard(
        &self,
        alloc: Global,
        channel: usize,
        message: &Message,
        answer: &[u8],
    ) -> Result<(Answer, Seen), HostRefusal> {
        let machine = self.machine(channel)?;
        if machine.is_halted() {
            return Err(HostRefusal::Refused(Refusal::Halted));
        }
        let question = question_in(alloc, machine, message)?;
        let answer = answer_of(&question, answer)?;
        let seen = seen_in(alloc, &question, message)?;
        Ok((answer, seen))
    }

    fn take(
        &mut self,
        alloc: Global,
        channel: usize,
        message: Message,
        answer: &[u8],
    ) -> Result<(), HostRefusal>
        ensures nothing_is_given_without_its_answer { ((result ≡ Err host.Asks) ⊎ (result ≡ Err host.Answer))
            → self.new.manager ≡ self.old.manager }
    {
        match self.heard(alloc, channel, &message, answer) {
            Ok((answer, seen)) => match self.give(alloc, channel, message, answer, seen) {
                Ok(()) => Ok(()),
                Err(refusal) => Err(HostRefusal::Refused(refusal)),
            },
            Err(refusal) => {
                drop(message);
                Err(refusal)
            }
        }
    }

    // The keys that answer for a message, and a place for what it may tell.
    fn keys_for(&mut self, channel: usize, answer: Answer) -> Result<HostKeys, Refusal> {
        match self.seats.get_mut(channel) {
            None => Err(Refusal::NotReady),
            Some(seat) => {
                seat.secrets.reserve(1)?;
                Ok(seat.keys(answer.is_right, answer.secret))
            }
        }
    }

    fn give(
        &mut self,
        alloc: Global,
        channel: usize,
        message: Message,
        answer: Answer,
        seen: Seen,
    ) -> Result<(), Refusal> {
        let keys = match self.keys_for(channel, answer) {
            Ok(keys) => keys,
            Err(refusal) => {
                drop(message);
                drop(seen);
                return Err(refusal);
            }
        };
        let (is_taken, done) = self.manager.message(alloc, channel, keys, message);
        self.keep(channel, is_taken, seen);
        done
    }

    // What a message had that the chain may need, where the channel has taken it.
    fn keep(&mut self, channel: usize, is_taken: bool, seen: Seen) {
        match self.seats.get_mut(channel) {
            Some(seat) if is_taken => seat.keep(seen),
            _ => drop(seen),
        }
    }

    /// A channel does what its host says: `Manager::command`. Errors: 70 where the bytes are no command; those of that
    /// call.
    pub fn command(
        &mut self,
        alloc: Global,
        channel: usize,
        command: &[u8],
    ) -> Result<(), Refusal> {
        let command = decode_command(alloc, command)?;
        self.manager.command(alloc, channel, command)?;
        Ok(())
    }

    /// Each channel signs that owes a signature: `Manager::sign`.
    pub fn sign(&mut self, alloc: Global) {
        self.manager.sign(alloc);
    }
}

impl Seat {
    /// Keys that have told nothing yet. Takes no memory.
    pub(crate) fn blank_keys(first_point: [u8; 33]) -> HostKeys {
        HostKeys {
            first_point,
            is_right: false,
            secret: [0; 32],
        }
    }
}

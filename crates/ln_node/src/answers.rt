//! The answers to a channel's orders.

ghost use Rattle.std.specs.Prelude.{◌≡◌, ◌<◌, ◌≤◌, ◌+◌, ◌^◌, ◌%◌, ℕ, List, [], ◌∷◌, ◌++◌, length, set};
ghost use Rattle.std.specs.Prelude.{Ok, Err, OnOk, OnErr, IfErr};
ghost use Rattle.ln_node.specs.declared.answers.Answer.{Answer};
ghost use Rattle.ln_node.specs.Answers.{IsRing, Keeps, answer_to, forgotten, answer_of, notice_of};

use ln_channel::Command;
use ln_node_loops::Notice;
use ln_refusals::Refusal;

/// To how many orders of a channel answers are kept: the latest.
const KEPT: u64 = 256;

/// What has become of an order.
#[derive(Clone, Copy, PartialEq, Eq, Debug)]
pub enum Answer {
    /// The channel's link hasn't come to it.
    Pending,
    /// The link has done it, and this is the id of the HTLC that it is about; 0 where it is about none. An HTLC that
    /// isn't signed is lost with its connection, and its id is given again.
    Done(u64),
    /// The link has refused it by this, and then nothing was sent for it. After 60 or 61 the link has halted: what
    /// the order was about shows in the channel's events.
    Refused(Refusal),
    /// No answer is kept: there is no such order, its answer was fetched, or 256 orders were answered since.
    Forgotten,
}

/// The answers to the latest orders of a channel. Contracts see how many orders were put, and all answers, in the
/// orders' order.
#[derive(Drop)]
pub(crate) struct AnswerRing {
    // How many orders were put, and how many of them were answered.
    put: u64,
    answered: u64,
    // The answer to an order stands at its number's remainder by 256.
    latest: [Answer; 256],
}

// Where the answer to the order of this number stands.
fn place(number: u64) -> usize
    ensures { result ≡ number % 256 }
{
    (number % KEPT) as usize
}

// Nothing stands for the order of this number any more. Generic: it doesn't matter what an answer is.
fn forget<A: Copy>(latest: &mut [A; 256], number: u64, none: A)
    ensures { (answers : List A) → Keeps latest.old answers → number < length answers → length answers ≤ number + 256
        → Keeps latest.new (set answers number none) }
{
    latest[place(number)] = none;
}

impl AnswerRing {
    /// Nothing was ordered. Takes no memory.
    pub(crate) fn new() -> AnswerRing
        ensures is_empty { IsRing result 0 [] }
    {
        AnswerRing {
            put: 0,
            answered: 0,
            latest: [Answer::Forgotten; 256],
        }
    }

    /// One order more was put. Gives its number.
    pub(crate) fn put(&mut self) -> u64
        ensures counts { (orders : ℕ) (answers : List Answer) → IsRing self.old orders answers → orders + 1 < 2 ^ 64
            → (result ≡ orders) × IsRing self.new (orders + 1) answers }
    {
        let number = self.put;
        self.put = number.wrapping_add(1);
        number
    }

    /// The next order is answered. Gives its number.
    pub(crate) fn add(&mut self, answer: Answer) -> u64
        ensures appends { (orders : ℕ) (answers : List Answer) → IsRing self.old orders answers
            → length answers + 1 < 2 ^ 64
            → (result ≡ length answers) × IsRing self.new orders (answers ++ answer ∷ []) }
    {
        let number = self.answered;
        self.answered = number.wrapping_add(1);
        self.latest[place(number)] = answer;
        number
    }

    /// The answer to an order, which is forgotten here.
    pub(crate) fn take(&mut self, number: u64) -> Answer
        ensures answers { (orders : ℕ) (answers : List Answer) → IsRing self.old orders answers
            → result ≡ answer_to orders answers number }
        ensures forgets { (orders : ℕ) (answers : List Answer) → IsRing self.old orders answers
            → IsRing self.new orders (forgotten answers number) }
    {
        if number >= self.answered {
            return if number < self.put {
                Answer::Pending
            } else {
                Answer::Forgotten
            };
        }
        if self.answered - number > KEPT {
            return Answer::Forgotten;
        }
        let answer = self.latest[place(number)];
        forget(&mut self.latest, number, Answer::Forgotten);
        answer
    }
}

/// An order that was put counts, and gets the next number; one that came back doesn't.
pub(crate) fn counted(put: Result<(), Command>, ring: &mut AnswerRing) -> Result<u64, Command>
    ensures counts { OnOk put ((orders : ℕ) (answers : List Answer) → IsRing ring.old orders answers
        → orders + 1 < 2 ^ 64 → (result ≡ Ok orders) × IsRing ring.new (orders + 1) answers) }
    ensures gives_a_number { OnOk put (OnErr result ⊥) }
    ensures hands_back { IfErr put (λ back. (result ≡ Err back) × (ring.new ≡ ring.old)) }
{
    match put {
        Ok(()) => Ok(ring.put()),
        Err(back) => Err(back),
    }
}

// By what an order is answered whose link has replied so: a halted end's 60 or 61 is such a reply.
fn answer_of(reply: Result<u64, Refusal>) -> Answer
    ensures { result ≡ answer_of reply }
{
    match reply {
        Ok(id) => Answer::Done(id),
        Err(refusal) => Answer::Refused(refusal),
    }
}

/// The next order is answered, as its link has replied so. Gives its number.
pub(crate) fn replied(reply: Result<u64, Refusal>, ring: &mut AnswerRing) -> u64
    ensures appends { (orders : ℕ) (answers : List Answer) → IsRing ring.old orders answers
        → length answers + 1 < 2 ^ 64
        → (result ≡ length answers) × IsRing ring.new orders (answers ++ answer_of reply ∷ []) }
{
    ring.add(answer_of(reply))
}

/// What is told of the order of this number, whose link has replied so.
pub(crate) fn notice_of(number: u64, reply: Result<u64, Refusal>) -> Option<Notice>
    ensures { result ≡ notice_of number reply }
{
    match reply {
        Ok(_) => None,
        Err(refusal) => Some(Notice::OrderRefused(number, refusal)),
    }
}

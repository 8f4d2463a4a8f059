//! A handle of the book of a node.

ghost use Rattle.std.specs.Prelude.{◌≡◌};
ghost use Rattle.ln_book.specs.Saying.{last_use};

use crate::book::Book;
use crate::switch::saying::{Saying, shown, with_word};
use crate::switch::uses::{Use, follow, is_again};
use ln_channel::{Channel, Command};
use ln_forward::Policy;
use ln_history::Past;
use ln_hooks::{ChannelEvent, Verdict};
use ln_keys::Onion;
use ln_log::{ChannelId, Mark};
use ln_refusals::Refusal;
use std::alloc::Global;

/// A handle of the book of a node, by which one of its threads tells it things and asks for commands. It knows all that
/// was said through it: each of its calls makes one call of the book that it is given, and nothing else adds to it.
#[derive(Drop)]
pub struct BookHandle<O: Drop> {
    onion: O,
    policy: Policy,
    // What was said of an end last.
    used: Option<Use>,
    said: Past<(), Saying>,
    ghost remembers: { last_use said.told.entries ≡ used },
}

impl<O: Onion + Copy + Drop> BookHandle<O> {
    ghost use Rattle.std.specs.Prelude.{◌≡◌, ◌⊎◌, ◌↔◌, ◌++◌, ◌∷◌, [], OnOk, OnErr, IfOk, IfErr};
    ghost use Rattle.std.specs.Prelude.{Some, false, true, option_map};
    ghost use Rattle.ln_book_tables.specs.declared.entry.Entry.TheVariants as entry;
    ghost use Rattle.ln_history.specs.History.{with_entry};
    ghost use Rattle.ln_book_tables.specs.Replay.{table_of};
    ghost use Rattle.ln_book.specs.Commands.{first_command, with_taken};
    ghost use Rattle.ln_book.specs.Marks.{offer_of, mark_of, decision};
    ghost use Rattle.ln_book.specs.Settled.{with_settled, keeps_a_reason};
    ghost use Rattle.ln_book.specs.Saying.{took, answered, settled, decided, dropped, uses, last_use};
    ghost use Rattle.ln_book.specs.Answers.{replied};
    ghost use Rattle.ln_book.specs.Uses.{with_route, with_use, with_dropped};
    ghost use Rattle.ln_book.specs.Handles.{said, policy_of, onion_of};

    /// A handle through which nothing was said. It opens onions by this service, and asks for what it forwards what
    /// this policy says. Takes no memory.
    pub fn new(onion: O, policy: Policy) -> BookHandle<O>
        ensures nothing_was_said { said result ≡ [] }
        ensures asks_by_the_policy { policy_of result ≡ policy }
    {
        BookHandle {
            onion,
            policy,
            used: None,
            said: Past::begun(&()),
        }
    }

    /// The first command for the channel that can be taken, as `Book::take_commands` says. Takes memory. Error: 60
    /// alone, which changes nothing, and then nothing was said.
    pub fn take(
        &mut self,
        alloc: Global,
        book: &mut Book,
        channel: ChannelId,
    ) -> Result<Option<Command>, Refusal>
        ensures answers_the_first { IfOk result (λ c. c ≡ option_map (λ x. x.1) (first_command
            (O.services (onion_of self.old)) channel (table_of book.old))) }
        ensures enters_what_is_taken { OnOk result (book.new ≡ with_taken channel (first_command
            (O.services (onion_of self.old)) channel (table_of book.old)) book.old) }
        ensures changes_nothing_if_refused { OnErr result (book.new ≡ book.old) }
        ensures says_what_is_taken { IfOk result (λ c. said self.new ≡ said self.old ++ took channel c) }
        ensures says_nothing_if_refused { OnErr result (said self.new ≡ said self.old) }
        ensures fails_for_memory_alone { IfErr result (λ r. r ≡ Refusal.Memory) }
        ensures policy_stays { policy_of self.new ≡ policy_of self.old }
    {
        match book.take_commands(alloc, &self.onion, channel) {
            Ok(Some(command)) => {
                self.said = with_word(&self.said, Saying::Took(channel, shown(&command)));
                Ok(Some(command))
            }
            Ok(None) => Ok(None),
            Err(refusal) => Err(refusal),
        }
    }

    /// What the channel has answered to the command that is out. Takes no memory.
    pub fn answered(&mut self, book: &mut Book, channel: ChannelId, answer: Result<u64, u16>)
        ensures enters { book.new ≡ replied channel answer book.old }
        ensures says_the_answer { said self.new ≡ said self.old ++ answered channel answer ∷ [] }
        ensures policy_stays { policy_of self.new ≡ policy_of self.old }
    {
        book.answered(channel, answer);
        self.said = with_word(&self.said, Saying::Answered(channel, answer));
    }

    /// What has become of an HTLC. Takes memory for why one failed that the book has offered, and for nothing else.
    /// Error: 60 alone, which changes nothing, and then nothing was said.
    pub fn settled(
        &mut self,
        alloc: Global,
        book: &mut Book,
        channel: ChannelId,
        event: &ChannelEvent,
    ) -> Result<(), Refusal>
        ensures enters_what_is_settled { OnOk result (book.new ≡ with_settled channel event.now book.old) }
        ensures changes_nothing_if_refused { OnErr result (book.new ≡ book.old) }
        ensures says_what_is_settled { OnOk result (said self.new ≡ said self.old ++ settled channel event.now ∷ []) }
        ensures says_nothing_if_refused { OnErr result (said self.new ≡ said self.old) }
        ensures fails_for_memory_alone { IfErr result (λ r. r ≡ Refusal.Memory) }
        ensures takes_memory_for_a_reason_alone { OnErr result
            (keeps_a_reason channel event.now (table_of book.old) ≡ true) }
        ensures policy_stays { policy_of self.new ≡ policy_of self.old }
    {
        match book.settled(alloc, channel, event) {
            Ok(()) => {
                self.said = with_word(&self.said, Saying::Settled(channel, shown(event)));
                Ok(())
            }
            Err(refusal) => Err(refusal),
        }
    }

    /// What the hooks say of an event: answers what is done about it, as `Book::decide` says. Takes memory. Error: 60
    /// alone, which changes nothing, and then nothing was said.
    pub fn decide(
        &mut self,
        alloc: Global,
        book: &mut Book,
        channel: ChannelId,
        number: u64,
        event: &ChannelEvent,
        verdict: Verdict,
    ) -> Result<Mark, Refusal>
        ensures answers_the_mark { IfOk result (λ m. m ≡ mark_of (O.services (onion_of self.old))
            (table_of book.old) number (offer_of event.now) verdict) }
        ensures enters_the_decision { OnOk result (book.new ≡ with_entry (entry.Decided (decision
            (O.services (onion_of self.old)) (table_of book.old) channel number (offer_of event.now) verdict))
            book.old) }
        ensures changes_nothing_if_refused { OnErr result (book.new ≡ book.old) }
        ensures says_the_verdict { OnOk result (said self.new
            ≡ said self.old ++ decided channel number event.now verdict ∷ []) }
        ensures says_nothing_if_refused { OnErr result (said self.new ≡ said self.old) }
        ensures fails_for_memory_alone { IfErr result (λ r. r ≡ Refusal.Memory) }
        ensures policy_stays { policy_of self.new ≡ policy_of self.old }
    {
        match book.decide(alloc, &self.onion, channel, number, event, verdict) {
            Ok(mark) => {
                self.said = with_word(
                    &self.said,
                    Saying::Decided(channel, number, shown(event), verdict),
                );
                Ok(mark)
            }
            Err(refusal) => Err(refusal),
        }
    }

    /// What an end has kept, as its connection was lost or it was loaded. Takes memory. Error: 60 alone, which changes
    /// nothing, and then nothing was said.
    pub fn dropped(&mut self, alloc: Global, book: &mut Book, end: &Channel) -> Result<(), Refusal>
        ensures enters_what_is_kept { OnOk result (book.new ≡ with_dropped end.now.dance.channel end.now book.old) }
        ensures changes_nothing_if_refused { OnErr result (book.new ≡ book.old) }
        ensures says_what_is_kept { OnOk result (said self.new ≡ said self.old ++ dropped end.now ∷ []) }
        ensures says_nothing_if_refused { OnErr result (said self.new ≡ said self.old) }
        ensures fails_for_memory_alone { IfErr result (λ r. r ≡ Refusal.Memory) }
        ensures policy_stays { policy_of self.new ≡ policy_of self.old }
    {
        match book.dropped(alloc, end.id(), end) {
            Ok(()) => {
                self.said = with_word(&self.said, Saying::Dropped(shown(end)));
                Ok(())
            }
            Err(refusal) => Err(refusal),
        }
    }

    /// Whether the book is to be told which payments an end takes: false exactly where the same was said last. Takes no
    /// memory.
    pub fn is_news(&self, used: Use) -> bool
        ensures { result ≡ false ↔ last_use (said self.now) ≡ Some used }
    {
        !is_again(self.used, used)
    }

    /// Which payments an end takes, where the same was said last: the book isn't told again. Takes no memory.
    pub fn still(&mut self, used: Use)
        requires said_last { last_use (said self.old) ≡ Some used }
        ensures says_the_use { said self.new ≡ said self.old ++ uses used ∷ [] }
        ensures policy_stays { policy_of self.new ≡ policy_of self.old }
    {
        self.said = with_word(&self.said, Saying::Uses(used));
    }

    /// Which payments an end takes: the book is told. Takes memory. Error: 60 alone: the book may know the short id
    /// already, and nothing was said.
    pub fn follow(&mut self, book: &mut Book, used: Use) -> Result<(), Refusal>
        ensures enters_the_use { OnOk result (book.new ≡ with_use (policy_of self.old) used book.old) }
        ensures enters_the_route_at_most { OnErr result ((book.new ≡ book.old)
            ⊎ (book.new ≡ with_route (policy_of self.old) used used.short_id book.old)) }
        ensures says_the_use { OnOk result (said self.new ≡ said self.old ++ uses used ∷ []) }
        ensures says_nothing_if_refused { OnErr result (said self.new ≡ said self.old) }
        ensures fails_for_memory_alone { IfErr result (λ r. r ≡ Refusal.Memory) }
        ensures policy_stays { policy_of self.new ≡ policy_of self.old }
    {
        match follow(book, self.policy, used) {
            Ok(()) => {
                self.used = Some(used);
                self.said = with_word(&self.said, Saying::Uses(used));
                Ok(())
            }
            Err(refusal) => Err(refusal),
        }
    }
}

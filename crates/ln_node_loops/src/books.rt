//! Where a worker and a dispatcher have the book of their node.

use crate::end::End;
use crate::notice::Notice;
use ln_channel::Command;
use ln_hooks::{ChannelEvent, Verdict};
use ln_log::ChannelId;
use ln_msgs::Message;
use ln_refusals::Refusal;
use std::alloc::Global;
use std::sync::Wait;

/// A handle of the book of a node, by which one thread of a channel reaches it, and whoever watches the node is told
/// what becomes of the channel. A contract sees all that was said and noted through it. The book is behind a lock that
/// is held for one call, so what it holds in between isn't said.
pub trait Books {
    ghost use Rattle.std.specs.Prelude.{◌≡◌, ◌⊎◌, ◌++◌, ◌∷◌, [], List, OnOk, OnErr};
    ghost use Rattle.ln_book.specs.declared.switch.saying.Saying.{Saying};
    ghost use Rattle.ln_book.specs.Saying.{took, answered, settled, decided};
    ghost use Rattle.ln_node_loops.specs.declared.noted.Noted.{Noted};
    ghost use Rattle.ln_node_loops.specs.declared.noted.Noted.TheVariants.{Tells};
    ghost use Rattle.ln_node_loops.specs.declared.notice.Notice.TheVariants as notice;

    /// All that was said through it, oldest first.
    ghost said: { Self → List Saying };

    /// All that was noted through it, oldest first.
    ghost noted: { Self → List Noted };

    /// The earliest command for the channel that can be taken; none where there is no memory for it.
    fn take<R: Wait>(&mut self, rt: &R, alloc: Global, channel: ChannelId) -> Option<Command>
        ensures says_what_is_taken { said self.new ≡ said self.old ++ took channel result }
        ensures notes_nothing { noted self.new ≡ noted self.old };

    /// What the channel answered to the command that is out: the id of its HTLC or the number of its event, or the
    /// number of a refusal.
    fn answered<R: Wait>(&mut self, rt: &R, channel: ChannelId, answer: Result<u64, u16>)
        ensures says_the_answer { said self.new ≡ said self.old ++ answered channel answer ∷ [] }
        ensures notes_nothing { noted self.new ≡ noted self.old };

    /// What has become of an HTLC. 60 where there is no memory, and then nothing was told.
    fn settled<R: Wait>(
        &mut self,
        rt: &R,
        alloc: Global,
        channel: ChannelId,
        told: &ChannelEvent,
    ) -> Result<(), Refusal>
        ensures says_what_is_settled { OnOk result (said self.new ≡ said self.old ++ settled channel told.now ∷ []) }
        ensures says_nothing_if_refused { OnErr result (said self.new ≡ said self.old) }
        ensures notes_nothing { noted self.new ≡ noted self.old };

    /// What the hooks say of the channel's event of this number. 60 where there is no memory, and then nothing was
    /// decided.
    fn decide<R: Wait>(
        &mut self,
        rt: &R,
        alloc: Global,
        channel: ChannelId,
        number: u64,
        event: &ChannelEvent,
        verdict: Verdict,
    ) -> Result<(), Refusal>
        ensures says_the_verdict { OnOk result (said self.new
            ≡ said self.old ++ decided channel number event.now verdict ∷ []) }
        ensures says_nothing_if_refused { OnErr result (said self.new ≡ said self.old) }
        ensures notes_at_most_a_hold { (noted self.new ≡ noted self.old)
            ⊎ (noted self.new ≡ noted self.old ++ Tells (notice.Held number) ∷ []) };
}

/// What a worker has of its node: the book, which also reads the channel's end, an `E`; whoever is told what becomes of
/// it; and a wake-up that sounds where there may be something to do.
pub trait ReadsEnds<E: End>: Books {
    ghost use Rattle.std.specs.Prelude.{◌≡◌, ◌++◌, ◌∷◌, [], OnOk, OnErr};
    ghost use Rattle.ln_node_loops.specs.Owed.{kept_word, use_word};
    ghost use Rattle.ln_node_loops.specs.declared.noted.Noted.TheVariants.{Meets, Tells};

    /// What the end has kept, as its connection was lost or it was loaded. 60 where there is no memory, and then
    /// nothing was told.
    fn dropped<R: Wait>(&mut self, rt: &R, alloc: Global, end: &E) -> Result<(), Refusal>
        ensures says_what_is_kept { OnOk result (Self.said self.new
            ≡ Self.said self.old ++ kept_word (E.seen (E.state end.now))) }
        ensures says_nothing_if_refused { OnErr result (Self.said self.new ≡ Self.said self.old) }
        ensures notes_nothing { Self.noted self.new ≡ Self.noted self.old };

    /// Which payments the end can take now, and by what short id it is known. 60 where there is no memory, and then
    /// nothing was told.
    fn follow<R: Wait>(&mut self, rt: &R, end: &E) -> Result<(), Refusal>
        ensures says_the_use { OnOk result (Self.said self.new
            ≡ Self.said self.old ++ use_word (E.seen (E.state end.now))) }
        ensures says_nothing_if_refused { OnErr result (Self.said self.new ≡ Self.said self.old) }
        ensures notes_nothing { Self.noted self.new ≡ Self.noted self.old };

    /// What has become of the end, or of its connection.
    fn notice<R: Wait>(&mut self, rt: &R, notice: Notice)
        ensures tells_it { Self.noted self.new ≡ Self.noted self.old ++ Tells notice ∷ [] }
        ensures says_nothing { Self.said self.new ≡ Self.said self.old };

    /// The peer's init, by which its connection is open.
    fn met<R: Wait>(&mut self, rt: &R, init: Message)
        ensures notes_it { Self.noted self.new ≡ Self.noted self.old ++ Meets init ∷ [] }
        ensures says_nothing { Self.said self.new ≡ Self.said self.old };

    /// Waits, where the wake-up hasn't sounded since the last wait: until it does, or a while. After so many loads in a
    /// row that were refused the while is the longer, the more they are.
    fn wait<R: Wait>(&self, rt: &R, refused: u64);
}

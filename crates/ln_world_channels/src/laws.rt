//! What nodes and channels promise over every list of steps: what is set, channels that are opened, messages that are
//! delivered one at a time, commands that are given, connections that are lost, at each end by itself, and come back,
//! saves that fail, ends that halt and reload, and nodes that restart from their records (BOLT 2). Told of each
//! channel's two links as the code leaves them, whatever their keys are that are partners.

ghost use Rattle.std.specs.Prelude.{ℕ, List};
ghost use Rattle.ln_refusals.specs.declared.refusal.Refusal.TheVariants as refusal;
ghost use Rattle.ln_world_channels.specs.declared.step.Step.{Step};
ghost use Rattle.ln_world_channels.specs.World.{empty, run, channel};
ghost use Rattle.ln_world_channels.specs.Failing.{SomeMayFail};
ghost use Rattle.ln_world_channels.specs.Promises.{OfEach, Headline, NoneRefused, AllTaken, OneFee, Agrees};
ghost use Rattle.ln_world_channels.specs.Promises.{AnswersShutdown, ReadinessAgrees, BothClose, DoExactly};
ghost use Rattle.ln_world_channels.specs.Longest.{BasesAreLongest};
ghost use Rattle.ln_world_channels.specs.Records.{AreSteps, HaveRecords};
ghost use Rattle.ln_world_channels.specs.Sending.{NoneAddsLate};
ghost use Rattle.ln_world_channels.specs.Setup.{all_setups, OpensAsSet};
ghost use Rattle.ln_world_channels.specs.Signing.{SignCovered};

use ln_keys::ChannelKeys;

/// A law: in each channel, what either end holds as irrevocably committed is, each update once and in the order in
/// which it was sent, a beginning of what the other end has covered by a signature.
pub fn headline<K: ChannelKeys + Copy>()
    ensures { (steps : List (Step K K.ChannelKeys)) → OfEach Headline (run K.ChannelKeys steps empty) }
{}

/// A law: in each channel, the message in front of either end is taken by its link, or passed over where it is a
/// `warning`, but for a `closing_signed` whose fee can't be agreed to, which is refused as such (36) and as nothing
/// else. So no link of an open channel has failed.
pub fn never_refused<K: ChannelKeys + Copy>()
    ensures { (steps : List (Step K K.ChannelKeys)) → OfEach (NoneRefused K.signer) (run K.ChannelKeys steps empty) }
{}

/// A law: in each channel whose ends take ranges of closing fees that overlap, the message in front of either end is
/// taken or passed over, each `closing_signed` too.
pub fn never_refused_where_fees_overlap<K: ChannelKeys + Copy>()
    ensures { (steps : List (Step K K.ChannelKeys)) → OfEach (AllTaken K.signer) (run K.ChannelKeys steps empty) }
{}

/// A law: in each channel, where both ends have closed, both have closed at one fee.
pub fn closed_at_one_fee<K: ChannelKeys + Copy>()
    ensures { (steps : List (Step K K.ChannelKeys)) → OfEach OneFee (run K.ChannelKeys steps empty) }
{}

/// A law: in each channel, an end that has met its peer and has taken the peer's `shutdown` has sent its own, once all
/// its updates are acknowledged (BOLT 2, "Closing Initiation: shutdown").
pub fn a_shutdown_is_answered<K: ChannelKeys + Copy>()
    ensures { (steps : List (Step K K.ChannelKeys)) → OfEach AnswersShutdown (run K.ChannelKeys steps empty) }
{}

/// A law: in each channel, where both ends have met, nothing is in flight and neither has anything to sign, both hold
/// every update of either side, and their commitments are worth the same.
pub fn agreement<K: ChannelKeys + Copy>()
    ensures { (steps : List (Step K K.ChannelKeys)) → OfEach Agrees (run K.ChannelKeys steps empty) }
{}

/// A law: in each channel, where both ends have met and nothing is in flight, either has taken the other's `shutdown`
/// exactly where one was sent, and its `channel_ready` likewise, unless it has closed.
pub fn readiness_agrees_at_rest<K: ChannelKeys + Copy>()
    ensures { (steps : List (Step K K.ChannelKeys)) → OfEach ReadinessAgrees (run K.ChannelKeys steps empty) }
{}

/// A law: in each channel whose two ends take closing fees that overlap, where both have met and nothing is in flight,
/// both have shut down, no HTLC is live and all updates are acknowledged, both have closed (BOLT 2, "Closing
/// Negotiation: closing_signed"). Ends whose fees don't overlap may stay open.
pub fn closing_ends<K: ChannelKeys + Copy>()
    ensures { (steps : List (Step K K.ChannelKeys)) → OfEach BothClose (run K.ChannelKeys steps empty) }
{}

/// A law: in each channel, each `commitment_signed` in flight carries exactly the signature and the HTLC signatures
/// that its end's keys give for the commitment that is next for the peer: its number, the peer's own point for that
/// number, and the view of all that the end has covered by its last signature (BOLT 2, "Committing Updates So Far:
/// commitment_signed"). Once it is in front, the peer has the same updates to accept, which are worth the same to it.
pub fn signatures_are_over_what_is_covered<K: ChannelKeys + Copy>()
    ensures { (steps : List (Step K K.ChannelKeys)) → OfEach (SignCovered K.signer) (run K.ChannelKeys steps empty) }
{}

/// A law: in each channel, either link does what a command asks for, where that isn't about decisions, exactly where
/// the link works and has met its peer, its end's marks let it (both `channel_ready` were sent, the peer hasn't shut
/// down, a number is left, no message is too long), and the machine that both ends stand for may make the move.
pub fn commands_are_done_exactly<K: ChannelKeys + Copy>()
    ensures { (steps : List (Step K K.ChannelKeys)) → OfEach (DoExactly K.signer) (run K.ChannelKeys steps empty) }
{}

/// A law: of all that either end of the channel with this number sends in these steps since it was opened, over all its
/// connections and over reloads and restarts of its nodes, no `update_add_htlc` stands after a `shutdown`. What an act
/// hands out counts, though its node stops then, or its save fails and its store has it all the same.
pub fn no_add_follows_a_shutdown<K: ChannelKeys + Copy>()
    ensures { (steps : List (Step K K.ChannelKeys)) (number : ℕ) → NoneAddsLate K.ChannelKeys number steps empty }
{}

/// A law: the channel with this number is there exactly where a step opened it, which is so once at most. Both its ends
/// have the opening that was asked for, with the limits that were set for its nodes by then, and each has the closing
/// fees that were set for its node by then, whatever is set or happens later.
pub fn channels_open_as_set<K: ChannelKeys + Copy>()
    ensures { (steps : List (Step K K.ChannelKeys)) (number : ℕ)
        → OpensAsSet (all_setups K.ChannelKeys number steps empty)
        (channel number (run K.ChannelKeys steps empty).channels) }
{}

/// A law: each end of a channel has a record, so that each act and each opening can be saved, and no step fails by 70
/// (BOLT 2, "Message Retransmission"). What the steps' commands bring is as wide as it is in code: numbers of 16, 32
/// and 64 bits, hashes and preimages of 32 bytes and onions of 1,366.
pub fn every_end_has_a_record<K: ChannelKeys + Copy>()
    ensures records { (steps : List (Step K K.ChannelKeys))
        → AreSteps K.ChannelKeys steps → OfEach HaveRecords (run K.ChannelKeys steps empty) }
    ensures never_damaged { (steps : List (Step K K.ChannelKeys))
        → AreSteps K.ChannelKeys steps → SomeMayFail K.ChannelKeys steps refusal.Damaged empty → ⊥ }
{}

/// A law: in each channel, the base of either end is the longest that its decided events allow: all that the end holds
/// as irrevocably committed, up to its first undecided event (BOLT 2, "Normal Operation").
pub fn bases_are_the_longest<K: ChannelKeys + Copy>()
    ensures { (steps : List (Step K K.ChannelKeys)) → OfEach BasesAreLongest (run K.ChannelKeys steps empty) }
{}

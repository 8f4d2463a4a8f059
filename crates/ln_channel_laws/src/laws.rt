//! What two ends of a channel promise over every list of steps from their opening on: messages are delivered in the
//! order in which they were sent, either end is given any command, closing included, and is saved at any time, which
//! leaves out what it needn't keep one by one any more; and connections are lost, at each end by itself, and come back
//! (BOLT 2, "Message Retransmission").

ghost use Rattle.std.specs.Prelude.{◌≡◌, List};
ghost use Rattle.ln_msgs.specs.declared.messages.message.Message.{Message};
ghost use Rattle.ln_keys.specs.declared.role.Role.{Role};
ghost use Rattle.ln_keys.specs.Signer.{Signer};
ghost use Rattle.ln_channel.specs.declared.command.Command.{Command};
ghost use Rattle.ln_channel.specs.declared.config.Config.{Config};
ghost use Rattle.ln_channel.specs.declared.config.OpenSpec.{OpenSpec};
ghost use Rattle.ln_channel.specs.declared.machine.ConnectionState.{ConnectionState};
ghost use Rattle.ln_channel.specs.declared.machine.ConnectionState.TheVariants.{AwaitingReestablish, Connected};
ghost use Rattle.ln_channel.specs.declared.machine.Stage.TheVariants as stage;
ghost use Rattle.ln_channel.specs.declared.opening.Opened.{Opened};
ghost use Rattle.ln_channel.specs.End.{End};
ghost use Rattle.ln_channel.specs.Meeting.{Opens};
ghost use Rattle.ln_channel.specs.Step.{turned, saved_at, obeyed};
ghost use Rattle.ln_channel_laws.specs.Ends.{Step, opened, message_at, command_at, run};
ghost use Rattle.ln_keys.specs.Partners.{ArePartners};
ghost use Rattle.ln_channel_laws.specs.Promises.{AreSent, AreAgreeable, Headline, NoneRefused, AllTaken};
ghost use Rattle.ln_channel_laws.specs.Answers.{BothHaveAnswered};
ghost use Rattle.ln_channel_laws.specs.Closes.{BothClose};
ghost use Rattle.ln_channel_laws.specs.Doing.{BothDo};
ghost use Rattle.ln_channel_laws.specs.Longest.{BothAreLongest};
ghost use Rattle.ln_channel_laws.specs.LostData.{BothTellWhoLost};
ghost use Rattle.ln_channel_laws.specs.Promises.{OneFee, Agrees, NoneAddsLate, ReadinessAgrees};
ghost use Rattle.ln_channel_laws.specs.Setup.{setup_of, AreSetUp};
ghost use Rattle.ln_channel_laws.specs.Signing.{BothSign, SignsIn};

/// A law: what either end holds as irrevocably committed is, each update once and in the order in which it was sent,
/// a beginning of what the other end has covered by a signature.
pub fn held_was_covered()
    ensures { (a b : Signer) (s : OpenSpec) (c : Config) (funder fundee : Opened) (steps : List Step) → ArePartners a b
        → Opens a b s c funder fundee → Headline (run a b steps (opened funder fundee)) }
{}

/// A law: every message that is delivered is taken, `channel_reestablish` and what is sent again after it included,
/// but for a `closing_signed` whose fee can't be agreed to, which is refused as such (36) and as nothing else. The
/// closing fees of both are below 2^64, as their numbers are sent in eight bytes.
pub fn no_message_is_refused()
    ensures { (a b : Signer) (s : OpenSpec) (c : Config) (funder fundee : Opened) (steps : List Step) → ArePartners a b
        → Opens a b s c funder fundee → AreSent funder.closing.fees → AreSent fundee.closing.fees
        → NoneRefused a b (run a b steps (opened funder fundee)) }
{}

/// A law: where both sides' ranges of closing fees overlap, every message that is delivered is taken, each
/// `closing_signed` too. Of both, `least` <= `first` <= `greatest`, and all below 2^64.
pub fn no_message_is_refused_where_fees_overlap()
    ensures { (a b : Signer) (s : OpenSpec) (c : Config) (funder fundee : Opened) (steps : List Step) → ArePartners a b
        → Opens a b s c funder fundee → AreAgreeable funder.closing.fees fundee.closing.fees
        → AllTaken a b (run a b steps (opened funder fundee)) }
{}

/// A law: where both ends have closed, both have closed at one fee.
pub fn closed_at_one_fee()
    ensures { (a b : Signer) (s : OpenSpec) (c : Config) (funder fundee : Opened) (steps : List Step)
        → Opens a b s c funder fundee → OneFee (run a b steps (opened funder fundee)) }
{}

/// A law: where both ends have met, nothing is in flight and neither has anything to sign, both hold every update of
/// either side, and their commitments are worth the same.
pub fn both_agree_at_rest()
    ensures { (a b : Signer) (s : OpenSpec) (c : Config) (funder fundee : Opened) (steps : List Step) → ArePartners a b
        → Opens a b s c funder fundee → Agrees (run a b steps (opened funder fundee)) }
{}

/// A law: where both ends have met and nothing is in flight, either has taken the other's `shutdown` exactly where one
/// was sent, and its `channel_ready` likewise, unless it has closed: an end that has closed passes that over.
pub fn readiness_agrees_at_rest()
    ensures { (a b : Signer) (s : OpenSpec) (c : Config) (funder fundee : Opened) (steps : List Step) → ArePartners a b
        → Opens a b s c funder fundee → ReadinessAgrees (run a b steps (opened funder fundee)) }
{}

/// A law: of all that an end has sent, over all its connections, no `update_add_htlc` stands after a `shutdown`.
pub fn no_add_follows_a_shutdown()
    ensures { (a b : Signer) (s : OpenSpec) (c : Config) (funder fundee : Opened) (steps : List Step) → ArePartners a b
        → Opens a b s c funder fundee → NoneAddsLate (run a b steps (opened funder fundee)) }
{}

/// A law: an end that has met its peer and has taken the peer's `shutdown` has sent its own, once all its updates are
/// acknowledged (BOLT 2, "Closing Initiation: shutdown").
pub fn a_shutdown_is_answered()
    ensures { (a b : Signer) (s : OpenSpec) (c : Config) (funder fundee : Opened) (steps : List Step) → ArePartners a b
        → Opens a b s c funder fundee → BothHaveAnswered (run a b steps (opened funder fundee)) }
{}

/// A law: where both sides' ranges of closing fees overlap, two ends that have met and have sent their `shutdown`, with
/// nothing in flight, every HTLC settled and every update acknowledged, have closed (BOLT 2, "Closing Negotiation:
/// closing_signed"). Of both ranges, `least` <= `first` <= `greatest`, and all below 2^64.
pub fn closing_ends()
    ensures { (a b : Signer) (s : OpenSpec) (c : Config) (funder fundee : Opened) (steps : List Step) → ArePartners a b
        → Opens a b s c funder fundee → AreAgreeable funder.closing.fees fundee.closing.fees
        → BothClose (run a b steps (opened funder fundee)) }
{}

/// A law: both ends keep the opening that they agreed to, and each the range of closing fees that it was set up with.
pub fn ends_stay_as_set_up()
    ensures { (a b : Signer) (s : OpenSpec) (c : Config) (funder fundee : Opened) (steps : List Step) → ArePartners a b
        → Opens a b s c funder fundee
        → AreSetUp (setup_of funder fundee) (run a b steps (opened funder fundee)).x
        (run a b steps (opened funder fundee)).y }
{}

/// A law of rows, not of whole calls: after a link's looks at what has halted or failed, at what is passed over and at
/// what is of another channel, what ln_channel's rows of an open channel with a connection answer to a message
/// (`saved_at`), and to a command that isn't about records (`obeyed`), is what the steps say of the end
/// (`message_at`, `command_at`). That `handled` and `commanded` of a link answer so is shown in ln_world_channels.
pub fn steps_are_those_of_a_link()
    ensures message_behind_the_reestablish { (keys : Signer) (m : Message) (e : End)
        → saved_at keys Connected m e ≡ turned Connected (message_at keys Connected m e) }
    ensures message_before_it { (keys : Signer) (m : Message) (e : End)
        → saved_at keys AwaitingReestablish m e ≡ turned Connected (message_at keys AwaitingReestablish m e) }
    ensures command { (keys : Signer) (l : ConnectionState) (c : Command) (e : End)
        → obeyed keys l c (stage.Funded e) ≡ turned l (command_at keys l c e) }
{}

/// A law: either end does what a command asks for exactly where it has met its peer, its own readiness lets it (both
/// `channel_ready` were sent, the peer hasn't shut down, a number is left, no message is too long), and the channel's
/// machine may make the move. So no end refuses an update, a signature or a shutdown that it may send.
pub fn commands_are_done_exactly()
    ensures { (a b : Signer) (s : OpenSpec) (c : Config) (funder fundee : Opened) (steps : List Step) (asked : Command)
        → ArePartners a b → Opens a b s c funder fundee → BothDo a b asked (run a b steps (opened funder fundee)) }
{}

/// A law: the base of either end moves on as far as its decided events allow. All that an end holds as irrevocably
/// committed, up to its first undecided event, can be its base, as no event of a removal stands before that of its add,
/// and no side spends before what it spends has come back; and as the end is saved, that is its base (BOLT 2, "Normal
/// Operation").
pub fn bases_are_the_longest()
    ensures { (a b : Signer) (s : OpenSpec) (c : Config) (funder fundee : Opened) (steps : List Step) → ArePartners a b
        → Opens a b s c funder fundee → BothAreLongest (run a b steps (opened funder fundee)) }
{}

/// A law: each `commitment_signed` carries exactly the signature and the HTLC signatures that its end's keys give for
/// the commitment that is next for the peer: its number, the peer's own point for that number, and the view of all
/// that the end has covered by its last signature (BOLT 2, "Committing Updates So Far: commitment_signed"). So is each
/// that an end hands out in a step, by a command or once more as a connection comes back, told of the ends after that
/// step. And so is each in flight, whatever either end does meanwhile; once it is in front, the peer has the same
/// updates to accept, as they were sent, which are worth the same to it.
pub fn signatures_are_over_what_is_covered()
    ensures handed_out { (a b : Signer) (s : OpenSpec) (c : Config) (funder fundee : Opened) (steps : List Step)
        (step : Step) (side : Role) → ArePartners a b → Opens a b s c funder fundee
        → SignsIn a b side step (run a b steps (opened funder fundee)) }
    ensures in_flight { (a b : Signer) (s : OpenSpec) (c : Config) (funder fundee : Opened) (steps : List Step)
        → ArePartners a b → Opens a b s c funder fundee → BothSign a b (run a b steps (opened funder fundee)) }
{}

/// A law: where an end comes back with any older record of its own, and the other end is as it is now, each finds by
/// the other's `channel_reestablish` whose data is lost (BOLT 2, "Message Retransmission"). The older end finds its own
/// exactly where the other end can revoke the commitment that it still holds, so it never publishes a revoked one; the
/// other end serves it, or finds that its peer's is lost. Neither ever finds it the other way round.
pub fn who_has_lost_data()
    ensures { (a b : Signer) (s : OpenSpec) (c : Config) (funder fundee : Opened) (before after : List Step)
        → ArePartners a b → Opens a b s c funder fundee
        → BothTellWhoLost a b (run a b before (opened funder fundee))
        (run a b after (run a b before (opened funder fundee))) }
{}

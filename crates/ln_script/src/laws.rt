//! Laws of scripts, over every text.

ghost use Rattle.std.specs.Prelude.{◌≡◌, ℕ, List, None, Ok, Err, length, count_by};
ghost use Rattle.ln_keys.specs.declared.role.Role.{Role};
ghost use Rattle.ln_keys.specs.Toy.{toy_signer};
ghost use Rattle.ln_log.specs.Machine.{IsRun};
ghost use Rattle.ln_channel.specs.Outputs.{numbered};
ghost use Rattle.ln_channel_laws.specs.Moves.{after_all};
ghost use Rattle.ln_channel_laws.specs.Told.{events_in, unnumbered, ClosesLast};
ghost use Rattle.ln_world_channels.specs.Promises.{Headline, NoneRefused, AllTaken, OneFee, Agrees};
ghost use Rattle.ln_world_channels.specs.Promises.{AnswersShutdown, ReadinessAgrees, BothClose, DoExactly};
ghost use Rattle.ln_world_channels.specs.Longest.{BasesAreLongest};
ghost use Rattle.ln_world_channels.specs.Records.{HaveRecords};
ghost use Rattle.ln_world_channels.specs.Machine.{machine_of, history, all_told, AreInStep};
ghost use Rattle.ln_world_channels.specs.Sending.{NoneAddsLate};
ghost use Rattle.ln_world_channels.specs.Setup.{all_setups, OpensAsSet};
ghost use Rattle.ln_world_channels.specs.Signing.{SignCovered};
ghost use Rattle.ln_world_channels.specs.World as channels;
ghost use Rattle.ln_world_channels.specs.declared.step.Node.{Node};
ghost use Rattle.ln_world_dispatch.specs.Slots.{Answers};
ghost use Rattle.ln_world.specs.Promises.{OfEach, CallsFollow, DispatchersStand, events_of, channel_steps};
ghost use Rattle.ln_payment_circuits.specs.Snapshot.{Incoming};
ghost use Rattle.ln_world.specs.Circuit.{PaysOnce};
ghost use Rattle.ln_world.specs.Commands.{AreOfBook};
ghost use Rattle.ln_script.specs.Keys.{toy};
ghost use Rattle.ln_script.specs.Step.{ToyStep, is_hook};
ghost use Rattle.ln_script.specs.Script.{lines, script_at, script_hooks, IsFirstBad};
ghost use Rattle.ln_script.specs.Report.{said_by, left_by, AfterEachScript};
ghost use Rattle.ln_script.specs.Wide.{AreAsWide};

use ln_keys::ToyKeys;
use ln_world::{
    a_shutdown_is_answered, agreement, bases_are_the_longest, channels_open_as_set, close_is_last,
    closed_at_one_fee, closing_ends, commands_are_done_exactly, decisions_follow_dispatches,
    each_move_may_be_made, events_are_reported, every_end_has_a_record, headline,
    moves_are_the_machines, never_refused, never_refused_where_fees_overlap, one_payment_out,
    readiness_agrees_at_rest, signatures_are_over_what_is_covered,
    undecided_events_are_the_machines,
};

/// A script is refused by the number of its first bad line, and only where there is one.
pub fn first_bad_line()
    ensures refused { (text : List ℕ) (n : ℕ) → script_at text ≡ Err n → IsFirstBad (lines text) n }
    ensures only_then { (text : List ℕ) (n : ℕ) → IsFirstBad (lines text) n → script_at text ≡ Err n }
{}

/// A script that is read has as many steps that register a hook as it has hooks.
pub fn each_hook_is_registered()
    ensures { (text : List ℕ) (steps : List ToyStep) → script_at text ≡ Ok steps
        → count_by is_hook steps ≡ length (script_hooks text) }
{}

/// What a script's steps bring is as wide as it is in code: numbers of 16, 32 and 64 bits, payment secrets, hashes and
/// preimages of 32 bytes, onions of 1,366.
pub fn steps_are_wide()
    ensures { (text : List ℕ) (steps : List ToyStep) → script_at text ≡ Ok steps → AreAsWide steps }
{}

/// The laws of a world hold after each script that is read, whatever the hooks answer that are handed in, and with
/// nothing else asked for: in each channel, what either end holds as irrevocably committed was covered by the other,
/// of all that an end sends no `update_add_htlc` stands after its shutdown, and the calls of each hook follow its
/// end's events (`ln_world::headline`); the message in front of either end is taken, or refused for its closing fee,
/// and no link has failed (`ln_world::never_refused`); where both ends take fees that overlap it is taken
/// (`ln_world::never_refused_where_fees_overlap`); both close at one fee (`ln_world::closed_at_one_fee`); a shutdown is
/// answered (`ln_world::a_shutdown_is_answered`); at rest both ends hold every update and their commitments are worth
/// the same (`ln_world::agreement`); where nothing is in flight each has taken the other's marks
/// (`ln_world::readiness_agrees_at_rest`), and both have closed once both have shut down and all is done
/// (`ln_world::closing_ends`); each signature in flight is over what its end has covered
/// (`ln_world::signatures_are_over_what_is_covered`); a command is done exactly where its end's marks and the machine
/// let it (`ln_world::commands_are_done_exactly`); a channel is there as it was set up
/// (`ln_world::channels_open_as_set`). The moves that the steps are for a channel lead its machine to the two parties
/// that its links stand for (`ln_world::moves_are_the_machines`), each where the machine may make it
/// (`ln_world::each_move_may_be_made`); the events that an end hands out are the machine's, each once and in order
/// (`ln_world::events_are_reported`), what it has yet to decide are those from a place on
/// (`ln_world::undecided_events_are_the_machines`), and the close is the last one, of the moves and of what is handed
/// out (`ln_world::close_is_last`); what is decided was dispatched (`ln_world::decisions_follow_dispatches`). Each end
/// has a record, from which it comes back where its node restarts (`ln_world::every_end_has_a_record`), as what the
/// lines bring and what books command is as wide as it is in code. The base of each end is the longest that its decided
/// events allow (`ln_world::bases_are_the_longest`). And where a node's ends are asked by its book alone to remove
/// HTLCs and to forward them, one goes out for each that comes in (`ln_world::one_payment_out`).
pub fn scripts_keep_the_promises()
    ensures headline { AfterEachScript (OfEach Headline) }
    ensures no_add_follows_a_shutdown { (text : List ℕ) (steps : List ToyStep) (a : Answers) (hooks number : ℕ)
        → script_at text ≡ Ok steps
        → NoneAddsLate toy number (channel_steps toy hooks (said_by a hooks steps)) channels.empty }
    ensures calls_follow { (text : List ℕ) (steps : List ToyStep) (a : Answers) (hooks : ℕ)
        → script_at text ≡ Ok steps → CallsFollow toy hooks (said_by a hooks steps) }
    ensures never_refused { AfterEachScript (OfEach (NoneRefused toy_signer)) }
    ensures never_refused_where_fees_overlap { AfterEachScript (OfEach (AllTaken toy_signer)) }
    ensures closed_at_one_fee { AfterEachScript (OfEach OneFee) }
    ensures a_shutdown_is_answered { AfterEachScript (OfEach AnswersShutdown) }
    ensures agreement { AfterEachScript (OfEach Agrees) }
    ensures readiness_agrees_at_rest { AfterEachScript (OfEach ReadinessAgrees) }
    ensures closing_ends { AfterEachScript (OfEach BothClose) }
    ensures signatures_are_over_what_is_covered { AfterEachScript (OfEach (SignCovered toy_signer)) }
    ensures commands_are_done_exactly { AfterEachScript (OfEach (DoExactly toy_signer)) }
    ensures channels_open_as_set { (text : List ℕ) (steps : List ToyStep) (a : Answers) (hooks number : ℕ)
        → script_at text ≡ Ok steps
        → OpensAsSet (all_setups toy number (channel_steps toy hooks (said_by a hooks steps)) channels.empty)
        (channels.channel number (left_by a hooks steps).dispatchers.channels.channels) }
    ensures moves_are_the_machines { (text : List ℕ) (steps : List ToyStep) (a : Answers) (hooks number : ℕ)
        → script_at text ≡ Ok steps
        → after_all (history toy number (channel_steps toy hooks (said_by a hooks steps)) channels.empty) None
        ≡ machine_of (channels.channel number (left_by a hooks steps).dispatchers.channels.channels) }
    ensures each_move_may_be_made { (text : List ℕ) (steps : List ToyStep) (a : Answers) (hooks number : ℕ)
        → script_at text ≡ Ok steps
        → IsRun (history toy number (channel_steps toy hooks (said_by a hooks steps)) channels.empty) None
        (machine_of (channels.channel number (left_by a hooks steps).dispatchers.channels.channels)) }
    ensures events_are_reported { (text : List ℕ) (steps : List ToyStep) (a : Answers) (hooks number : ℕ) (side : Role)
        → script_at text ≡ Ok steps
        → events_in (all_told toy number side (channel_steps toy hooks (said_by a hooks steps)) channels.empty)
        ≡ numbered 0 (events_of toy hooks number side (said_by a hooks steps)) }
    ensures undecided_events_are_the_machines { (text : List ℕ) (steps : List ToyStep) (a : Answers) (hooks number : ℕ)
        (side : Role) → script_at text ≡ Ok steps
        → AreInStep side (events_of toy hooks number side (said_by a hooks steps))
        (channels.channel number (left_by a hooks steps).dispatchers.channels.channels) }
    ensures close_is_the_last_move_told { (text : List ℕ) (steps : List ToyStep) (a : Answers) (hooks number : ℕ)
        (side : Role) → script_at text ≡ Ok steps
        → ClosesLast (events_of toy hooks number side (said_by a hooks steps)) }
    ensures close_is_last { (text : List ℕ) (steps : List ToyStep) (a : Answers) (hooks number : ℕ) (side : Role)
        → script_at text ≡ Ok steps → ClosesLast (unnumbered
        (all_told toy number side (channel_steps toy hooks (said_by a hooks steps)) channels.empty)) }
    ensures decisions_follow_dispatches { (text : List ℕ) (steps : List ToyStep) (a : Answers) (hooks : ℕ)
        → script_at text ≡ Ok steps → DispatchersStand toy hooks (said_by a hooks steps) }
    ensures every_end_has_a_record { AfterEachScript (OfEach HaveRecords) }
    ensures bases_are_the_longest { AfterEachScript (OfEach BasesAreLongest) }
    ensures one_payment_out { (text : List ℕ) (steps : List ToyStep) (a : Answers) (hooks : ℕ) (node : Node)
        → script_at text ≡ Ok steps → AreOfBook toy node (said_by a hooks steps)
        → (h : Incoming) → PaysOnce node h (left_by a hooks steps) }
{
    headline::<ToyKeys>();
    never_refused::<ToyKeys>();
    never_refused_where_fees_overlap::<ToyKeys>();
    closed_at_one_fee::<ToyKeys>();
    a_shutdown_is_answered::<ToyKeys>();
    agreement::<ToyKeys>();
    readiness_agrees_at_rest::<ToyKeys>();
    closing_ends::<ToyKeys>();
    signatures_are_over_what_is_covered::<ToyKeys>();
    commands_are_done_exactly::<ToyKeys>();
    channels_open_as_set::<ToyKeys>();
    moves_are_the_machines::<ToyKeys>();
    each_move_may_be_made::<ToyKeys>();
    events_are_reported::<ToyKeys>();
    undecided_events_are_the_machines::<ToyKeys>();
    close_is_last::<ToyKeys>();
    decisions_follow_dispatches::<ToyKeys>();
    every_end_has_a_record::<ToyKeys>();
    bases_are_the_longest::<ToyKeys>();
    one_payment_out::<ToyKeys>();
}

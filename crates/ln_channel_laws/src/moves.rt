//! The two ends of a channel, over every list of their steps, are the channel's abstract machine: its moves are what
//! they do (BOLT 2, "Normal Operation").

ghost use Rattle.std.specs.Prelude.{◌≡◌, List, Some, None};
ghost use Rattle.ln_keys.specs.declared.role.Role.{Role};
ghost use Rattle.ln_keys.specs.Signer.{Signer};
ghost use Rattle.ln_log.specs.Machine.{IsRun};
ghost use Rattle.ln_log.specs.Events.{events};
ghost use Rattle.ln_channel.specs.declared.config.Config.{Config};
ghost use Rattle.ln_channel.specs.declared.config.OpenSpec.{OpenSpec};
ghost use Rattle.ln_channel.specs.declared.opening.Opened.{Opened};
ghost use Rattle.ln_channel.specs.Meeting.{Opens};
ghost use Rattle.ln_channel.specs.Outputs.{numbered};
ghost use Rattle.ln_channel_laws.specs.Ends.{Step, opened, run};
ghost use Rattle.ln_keys.specs.Partners.{ArePartners};
ghost use Rattle.ln_channel_laws.specs.Moves.{machine_of, history, after_all};
ghost use Rattle.ln_channel_laws.specs.Pending.{end_of_role, IsInStep};
ghost use Rattle.ln_channel_laws.specs.Told.{as_told, events_in, all_told, unnumbered, ClosesLast};

/// A law: the opening, then the moves that the steps are, lead the machine to the opening and the two parties that the
/// ends stand for. Of commands that aren't refused, an update is proposed, a signature or a shutdown sent. A
/// `commitment_signed` that is taken is accepted, a `revoke_and_ack` learned from; a close, and a shutdown that an end
/// owes and sends in its turn, are the move of that turn. A lost connection drops what no signature covers. What is
/// refused is no move, nor is an update that is taken, a connection that comes back, what is sent again then, or a
/// save.
pub fn moves_are_the_machines()
    ensures { (a b : Signer) (s : OpenSpec) (c : Config) (funder fundee : Opened) (steps : List Step) → ArePartners a b
        → Opens a b s c funder fundee
        → after_all (history a b funder fundee steps) None
        ≡ Some (machine_of (run a b steps (opened funder fundee))) }
{}

/// A law: each of these moves is one that the machine may make where it is made. The opening is fit; an update has the
/// next id, meets the limits, and is no add and no fee after a shutdown; a signature covers something new, and none is
/// unrevoked before it; each update of a side that shuts down is acknowledged; and a side closes once, with both sides
/// shut down, every commitment covering every update, and no HTLC live.
pub fn each_move_may_be_made()
    ensures { (a b : Signer) (s : OpenSpec) (c : Config) (funder fundee : Opened) (steps : List Step) → ArePartners a b
        → Opens a b s c funder fundee
        → IsRun (history a b funder fundee steps) None
        (Some (machine_of (run a b steps (opened funder fundee)))) }
{}

/// A law: the events among all that an end hands out over all steps, with their numbers, are those of the moves for its
/// side: each once, in their order, numbered from 0. These are each add and each removal of either side as the end
/// comes to hold it as irrevocably committed, and its close; an add of more than an event can tell is none.
pub fn events_are_reported()
    ensures { (a b : Signer) (s : OpenSpec) (c : Config) (funder fundee : Opened) (steps : List Step) (side : Role)
        → ArePartners a b → Opens a b s c funder fundee
        → events_in (all_told a b side steps (opened funder fundee))
        ≡ numbered 0 (as_told (events side (history a b funder fundee steps) None)) }
{}

/// A law: the events that an end has yet to decide are those of the moves for its side, each once and in their order,
/// from the count of those that it has decided on, and none is missing: what is decided and what is undecided together
/// are as many. Each is read from the update that its entry in the ledger names, as the end has it now, or from the fee
/// at which it closed.
pub fn undecided_events_are_the_machines()
    ensures { (a b : Signer) (s : OpenSpec) (c : Config) (funder fundee : Opened) (steps : List Step) (side : Role)
        → ArePartners a b → Opens a b s c funder fundee
        → IsInStep (as_told (events side (history a b funder fundee steps) None))
        (end_of_role side (run a b steps (opened funder fundee))) }
{}

/// A law: after the event that an end's channel is closed comes no event: it is the last of those of the moves for its
/// side, and of those that the end hands out over all steps. So an end closes once at most, and comes to hold no update
/// after its close (BOLT 2, "Closing Negotiation: closing_signed").
pub fn close_is_last()
    ensures of_the_moves { (a b : Signer) (s : OpenSpec) (c : Config) (funder fundee : Opened) (steps : List Step)
        (side : Role) → ArePartners a b → Opens a b s c funder fundee
        → ClosesLast (as_told (events side (history a b funder fundee steps) None)) }
    ensures of_what_is_handed_out { (a b : Signer) (s : OpenSpec) (c : Config) (funder fundee : Opened)
        (steps : List Step) (side : Role) → ArePartners a b → Opens a b s c funder fundee
        → ClosesLast (unnumbered (all_told a b side steps (opened funder fundee))) }
{}

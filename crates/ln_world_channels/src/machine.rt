//! Each channel of a world is the channel's abstract machine, over every list of steps: its moves are what the steps do
//! (BOLT 2, "Normal Operation").

ghost use Rattle.std.specs.Prelude.{ℕ, List};
ghost use Rattle.ln_keys.specs.declared.role.Role.{Role};
ghost use Rattle.ln_channel_laws.specs.Told.{ClosesLast};
ghost use Rattle.ln_world_channels.specs.declared.step.Step.{Step};
ghost use Rattle.ln_world_channels.specs.World.{empty, run};
ghost use Rattle.ln_world_channels.specs.Machine.{MovesLead, MovesMayBeMade, EventsAreTold, UndecidedFollow};
ghost use Rattle.ln_world_channels.specs.Machine.{events_by, HandsCloseLast};

use ln_keys::ChannelKeys;

/// A law: the opening of the channel with this number, by what was set for its nodes, then the moves that the steps
/// are for it, lead the machine to the opening and the two parties that its links stand for; where no channel has the
/// number there is no machine, and no step is a move. Of commands that aren't refused, an update is proposed, a
/// signature or a shutdown sent. A `commitment_signed` that is taken is accepted, a `revoke_and_ack` learned from; a
/// close, and a shutdown that an end owes and sends in its turn, are the move of that turn. A lost connection drops
/// what no signature covers, and so do an end that halts and a restart, where they have one. An act whose save fails is
/// its moves where the store has the record as the act leaves it, and none of them else. All else is no move.
pub fn moves_are_the_machines<K: ChannelKeys + Copy>()
    ensures { (steps : List (Step K K.ChannelKeys)) (number : ℕ)
        → MovesLead K.ChannelKeys number steps (run K.ChannelKeys steps empty) }
{}

/// A law: each of these moves is one that the machine may make where it is made.
pub fn each_move_may_be_made<K: ChannelKeys + Copy>()
    ensures { (steps : List (Step K K.ChannelKeys)) (number : ℕ)
        → MovesMayBeMade K.ChannelKeys number steps (run K.ChannelKeys steps empty) }
{}

/// A law: the events among all that an end of the channel with this number hands out in these steps, with their
/// numbers, are those of the moves for its side: each once, in their order, numbered from 0. What an act hands out
/// counts, though its node stops then, or its save fails and its store has it all the same.
pub fn events_are_reported<K: ChannelKeys + Copy>()
    ensures { (steps : List (Step K K.ChannelKeys)) (number : ℕ) (side : Role)
        → EventsAreTold K.ChannelKeys number side steps }
{}

/// A law: the events that an end of the channel with this number has yet to decide are those of the moves for its side,
/// each once and in their order, from the count of those that it has decided on, and none is missing, over all its
/// connections, reloads and restarts. Each is read from the update that its entry in the ledger names, as the
/// end has it now, or from the fee at which it closed.
pub fn undecided_events_are_the_machines<K: ChannelKeys + Copy>()
    ensures { (steps : List (Step K K.ChannelKeys)) (number : ℕ) (side : Role)
        → UndecidedFollow K.ChannelKeys number side steps (run K.ChannelKeys steps empty) }
{}

/// A law: after the event that the channel with this number is closed comes no event: for either end it is the last of
/// those of the moves for its side, and of those that the end hands out in these steps.
pub fn close_is_last<K: ChannelKeys + Copy>()
    ensures of_the_moves { (steps : List (Step K K.ChannelKeys)) (number : ℕ) (side : Role)
        → ClosesLast (events_by K.ChannelKeys number side steps) }
    ensures of_what_is_handed_out { (steps : List (Step K K.ChannelKeys)) (number : ℕ) (side : Role)
        → HandsCloseLast K.ChannelKeys number side steps }
{}

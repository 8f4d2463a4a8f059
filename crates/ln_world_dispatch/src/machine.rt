//! Each channel of nodes is the channel's abstract machine, over every list of steps: its moves are what the steps do
//! (BOLT 2, "Normal Operation").

ghost use Rattle.std.specs.Prelude.{ℕ, List};
ghost use Rattle.ln_keys.specs.declared.role.Role.{Role};
ghost use Rattle.ln_hooks.specs.declared.verdict.Verdict.{Verdict};
ghost use Rattle.ln_channel_laws.specs.Told.{ClosesLast};
ghost use Rattle.ln_world_channels.specs.Machine.{MovesLead, MovesMayBeMade, EventsAreTold, UndecidedFollow};
ghost use Rattle.ln_world_channels.specs.Machine.{HandsCloseLast};
ghost use Rattle.ln_world_dispatch.specs.declared.step.Step.{Step};
ghost use Rattle.ln_world_dispatch.specs.World.{empty, run, plains};
ghost use Rattle.ln_world_dispatch.specs.Promises.{events_of};

use ln_keys::ChannelKeys;

/// A law: `ln_world_channels::moves_are_the_machines`, of these steps. What is dispatched, and which hooks are
/// registered, is no move.
pub fn moves_are_the_machines<K: ChannelKeys + Copy>()
    ensures { (steps : List (Step K K.ChannelKeys × Verdict)) (hooks number : ℕ)
        → MovesLead K.ChannelKeys number (plains K.ChannelKeys steps (empty hooks))
        (run K.ChannelKeys steps (empty hooks)).channels }
{}

/// A law: `ln_world_channels::each_move_may_be_made`, of these steps.
pub fn each_move_may_be_made<K: ChannelKeys + Copy>()
    ensures { (steps : List (Step K K.ChannelKeys × Verdict)) (hooks number : ℕ)
        → MovesMayBeMade K.ChannelKeys number (plains K.ChannelKeys steps (empty hooks))
        (run K.ChannelKeys steps (empty hooks)).channels }
{}

/// A law: `ln_world_channels::events_are_reported`, of these steps.
pub fn events_are_reported<K: ChannelKeys + Copy>()
    ensures { (steps : List (Step K K.ChannelKeys × Verdict)) (hooks number : ℕ) (side : Role)
        → EventsAreTold K.ChannelKeys number side (plains K.ChannelKeys steps (empty hooks)) }
{}

/// A law: `ln_world_channels::undecided_events_are_the_machines`, of these steps.
pub fn undecided_events_are_the_machines<K: ChannelKeys + Copy>()
    ensures { (steps : List (Step K K.ChannelKeys × Verdict)) (hooks number : ℕ) (side : Role)
        → UndecidedFollow K.ChannelKeys number side (plains K.ChannelKeys steps (empty hooks))
        (run K.ChannelKeys steps (empty hooks)).channels }
{}

/// A law: `ln_world_channels::close_is_last`, of these steps.
pub fn close_is_last<K: ChannelKeys + Copy>()
    ensures of_the_moves { (steps : List (Step K K.ChannelKeys × Verdict)) (hooks number : ℕ) (side : Role)
        → ClosesLast (events_of K.ChannelKeys hooks number side steps) }
    ensures of_what_is_handed_out { (steps : List (Step K K.ChannelKeys × Verdict)) (hooks number : ℕ) (side : Role)
        → HandsCloseLast K.ChannelKeys number side (plains K.ChannelKeys steps (empty hooks)) }
{}

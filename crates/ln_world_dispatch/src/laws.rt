//! What nodes promise over every list of steps: what happens to their channels, and events that dispatchers hand to
//! hooks, whatever the hooks say. Told of each channel's two links as the code leaves them, whatever their keys are
//! that are partners.

ghost use Rattle.std.specs.Prelude.{ℕ, List};
ghost use Rattle.ln_refusals.specs.declared.refusal.Refusal.TheVariants as refusal;
ghost use Rattle.ln_hooks.specs.declared.verdict.Verdict.{Verdict};
ghost use Rattle.ln_world_channels.specs.Promises.{Headline, NoneRefused, AllTaken, OneFee, Agrees};
ghost use Rattle.ln_world_channels.specs.Promises.{AnswersShutdown, ReadinessAgrees, BothClose, DoExactly};
ghost use Rattle.ln_world_channels.specs.Longest.{BasesAreLongest};
ghost use Rattle.ln_world_channels.specs.Records.{HaveRecords};
ghost use Rattle.ln_world_channels.specs.Sending.{NoneAddsLate};
ghost use Rattle.ln_world_channels.specs.Setup.{all_setups, OpensAsSet};
ghost use Rattle.ln_world_channels.specs.Signing.{SignCovered};
ghost use Rattle.ln_world_channels.specs.World as channels;
ghost use Rattle.ln_world_dispatch.specs.declared.step.Step.{Step};
ghost use Rattle.ln_world_dispatch.specs.World.{empty, run, plains, SomeMayFail};
ghost use Rattle.ln_world_dispatch.specs.Promises.{AfterEachRun, AreSteps, OfEach, CallsFollow, DispatchersStand};

use ln_keys::ChannelKeys;

/// The main law, in three parts: `ln_world_channels::headline` and `ln_world_channels::no_add_follows_a_shutdown`, of
/// these steps; and each dispatcher's calls to a hook are, each once and in order, a beginning of its end's committed
/// events from the one that was next as the hook was registered; none comes after the close; and each event below the
/// one that an epoch of the dispatcher starts at was dispatched.
pub fn headline<K: ChannelKeys + Copy>()
    ensures holds_what_is_covered { AfterEachRun K.ChannelKeys (OfEach Headline) }
    ensures adds_nothing_late { (steps : List (Step K K.ChannelKeys × Verdict)) (hooks number : ℕ)
        → NoneAddsLate K.ChannelKeys number (plains K.ChannelKeys steps (empty hooks)) channels.empty }
    ensures calls_follow { (steps : List (Step K K.ChannelKeys × Verdict)) (hooks : ℕ)
        → CallsFollow K.ChannelKeys hooks steps }
{}

/// A law: `ln_world_channels::never_refused`, of these steps.
pub fn never_refused<K: ChannelKeys + Copy>()
    ensures { AfterEachRun K.ChannelKeys (OfEach (NoneRefused K.signer)) }
{}

/// A law: `ln_world_channels::never_refused_where_fees_overlap`, of these steps.
pub fn never_refused_where_fees_overlap<K: ChannelKeys + Copy>()
    ensures { AfterEachRun K.ChannelKeys (OfEach (AllTaken K.signer)) }
{}

/// A law: `ln_world_channels::closed_at_one_fee`, of these steps.
pub fn closed_at_one_fee<K: ChannelKeys + Copy>()
    ensures { AfterEachRun K.ChannelKeys (OfEach OneFee) }
{}

/// A law: `ln_world_channels::a_shutdown_is_answered`, of these steps.
pub fn a_shutdown_is_answered<K: ChannelKeys + Copy>()
    ensures { AfterEachRun K.ChannelKeys (OfEach AnswersShutdown) }
{}

/// A law: `ln_world_channels::agreement`, of these steps.
pub fn agreement<K: ChannelKeys + Copy>()
    ensures { AfterEachRun K.ChannelKeys (OfEach Agrees) }
{}

/// A law: `ln_world_channels::readiness_agrees_at_rest`, of these steps.
pub fn readiness_agrees_at_rest<K: ChannelKeys + Copy>()
    ensures { AfterEachRun K.ChannelKeys (OfEach ReadinessAgrees) }
{}

/// A law: `ln_world_channels::closing_ends`, of these steps.
pub fn closing_ends<K: ChannelKeys + Copy>()
    ensures { AfterEachRun K.ChannelKeys (OfEach BothClose) }
{}

/// A law: `ln_world_channels::signatures_are_over_what_is_covered`, of these steps.
pub fn signatures_are_over_what_is_covered<K: ChannelKeys + Copy>()
    ensures { AfterEachRun K.ChannelKeys (OfEach (SignCovered K.signer)) }
{}

/// A law: `ln_world_channels::commands_are_done_exactly`, of these steps.
pub fn commands_are_done_exactly<K: ChannelKeys + Copy>()
    ensures { AfterEachRun K.ChannelKeys (OfEach (DoExactly K.signer)) }
{}

/// A law: `ln_world_channels::channels_open_as_set`, of these steps.
pub fn channels_open_as_set<K: ChannelKeys + Copy>()
    ensures { (steps : List (Step K K.ChannelKeys × Verdict)) (hooks number : ℕ)
        → OpensAsSet (all_setups K.ChannelKeys number (plains K.ChannelKeys steps (empty hooks)) channels.empty)
        (channels.channel number (run K.ChannelKeys steps (empty hooks)).channels.channels) }
{}

/// A law: `ln_world_channels::every_end_has_a_record`, of these steps.
pub fn every_end_has_a_record<K: ChannelKeys + Copy>()
    ensures records { (steps : List (Step K K.ChannelKeys × Verdict)) (hooks : ℕ)
        → AreSteps K.ChannelKeys hooks steps → OfEach HaveRecords (run K.ChannelKeys steps (empty hooks)) }
    ensures never_damaged { (steps : List (Step K K.ChannelKeys × Verdict)) (hooks : ℕ)
        → AreSteps K.ChannelKeys hooks steps
        → SomeMayFail K.ChannelKeys steps refusal.Damaged (empty hooks) → ⊥ }
{}

/// A law: of each dispatcher, over all that was decided, reloads of its end and restarts of its node. Its end has
/// decided what was decided as the dispatcher's epoch began, and no event that the epoch hasn't dispatched, so that
/// each decision is of an event that the hooks have seen. The events that were served in an epoch are, each once and in
/// order, the end's committed events from the epoch's start on, and each hook has its slot from one of these, or the
/// next, on.
pub fn decisions_follow_dispatches<K: ChannelKeys + Copy>()
    ensures { (steps : List (Step K K.ChannelKeys × Verdict)) (hooks : ℕ) → DispatchersStand K.ChannelKeys hooks steps }
{}

/// A law: `ln_world_channels::bases_are_the_longest`, of these steps.
pub fn bases_are_the_longest<K: ChannelKeys + Copy>()
    ensures { AfterEachRun K.ChannelKeys (OfEach BasesAreLongest) }
{}

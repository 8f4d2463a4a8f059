//! The hooks of a channel end.

ghost use Rattle.ln_hooks.specs.Chain.{shown_to};
ghost use Rattle.ln_hooks.specs.Table.{Says};

use crate::event::ChannelEvent;
use crate::hook::Hook;
use crate::serve::{Serve, Table};
use crate::verdict::Verdict;
use ln_refusals::Refusal;
use std::alloc::Global;

/// Calls each hook on the event, once and in order, whatever those before it answered, and says what is to become of
/// it. Takes no memory, but for what the hooks take.
pub fn call_each<H: Serve>(hooks: &mut Vec<H>, event: &ChannelEvent) -> Verdict
    ensures calls_each_hook { Says (λ h. h) (shown_to H.calls) hooks.old.items event.now result hooks.new.items }
{
    let mut verdict = Verdict::Continue;
    for i in 0..hooks.len() {
        let hook = &mut hooks[i];
        verdict = verdict.joined(hook.serve(event));
    }
    verdict
}

/// The hooks of a channel end. Every hook is called on every event, once and in order of registration, whatever those
/// before it answered; what the table says of the event is the first Fail, else Hold where any hook holds it, else
/// Continue.
#[derive(Drop)]
pub struct HookTable {
    /// In order of registration.
    pub hooks: Vec<Hook>,
}

impl HookTable {
    ghost use Rattle.std.specs.Prelude.{◌≡◌, ◌++◌, ◌∷◌, [], OnOk, OnErr, IfOk, IfErr};
    ghost use Rattle.ln_hooks.specs.Table.{Says, SaysOfEach};
    ghost use Rattle.ln_refusals.specs.declared.refusal.Refusal.TheVariants as refusal;

    /// No hooks. Takes no memory.
    pub fn new(alloc: Global) -> HookTable
        ensures { result.hooks.items ≡ [] }
    {
        HookTable {
            hooks: Vec::new(alloc),
        }
    }

    /// Puts a hook after all others. Takes memory: where there was none the hook is handed back beside 60, and the
    /// table is as it was.
    pub fn register(&mut self, hook: Hook) -> Result<(), (Hook, Refusal)>
        ensures appends_it { OnOk result (self.new.hooks.items ≡ self.old.hooks.items ++ hook ∷ []) }
        ensures changes_nothing_if_refused { OnErr result (self.new.hooks.items ≡ self.old.hooks.items) }
        ensures hands_the_hook_back { IfErr result (λ e. (e.0 ≡ hook) × (e.1 ≡ refusal.Memory)) }
    {
        match self.hooks.push(hook) {
            Ok(()) => Ok(()),
            Err(failed) => Err((failed.value, Refusal::Memory)),
        }
    }

    /// Calls each hook on the event, and says what is to become of it. Takes no memory, but for what the hooks take.
    pub fn call(&mut self, event: &ChannelEvent) -> Verdict
        ensures calls_each_hook { Says (λ h. h.call) step self.old.hooks.items event.now result self.new.hooks.items }
    {
        call_each(&mut self.hooks, event)
    }

    /// Calls each hook on each of the events in turn, and says what is to become of each. All the memory that it takes
    /// is taken before the first call: 60 where there was none, and no hook was called.
    pub fn call_run(&mut self, events: &[ChannelEvent]) -> Result<Vec<Verdict>, Refusal>
        ensures calls_each_hook_on_each { IfOk result
            (λ v. SaysOfEach (λ h. h.call) step self.old.hooks.items events.now v.items self.new.hooks.items) }
        ensures fails_for_memory_alone { IfErr result (λ r. r ≡ refusal.Memory) }
        ensures calls_none_if_refused { OnErr result (self.new.hooks.items ≡ self.old.hooks.items) }
    {
        let mut verdicts = Vec::with_capacity(*self.hooks.allocator(), events.len())?;
        for event in events {
            verdicts.push_reserved(self.call(event));
        }
        Ok(verdicts)
    }
}

impl Table<Hook> for HookTable {
    ghost use Rattle.std.specs.Prelude.{◌≡◌, ◌++◌, ◌∷◌, []};
    ghost use Rattle.ln_hooks.specs.Table.{Says};

    ghost registers = { λ t h t'. t'.hooks.items ≡ t.hooks.items ++ h ∷ [] };

    ghost says = { λ t event verdict t'. Says (λ h. h.call) step t.hooks.items event verdict t'.hooks.items };

    fn register(&mut self, hook: Hook) -> Result<(), Hook> {
        match HookTable::register(self, hook) {
            Ok(()) => Ok(()),
            Err((hook, _)) => Err(hook),
        }
    }

    fn call(&mut self, event: &ChannelEvent) -> Verdict {
        HookTable::call(self, event)
    }
}

//! What is called on the events of a channel end.

use crate::event::ChannelEvent;
use crate::hook::Hook;
use crate::verdict::Verdict;

/// What is called on events of a channel end. `Hook` is one.
pub trait Serve: Drop {
    ghost use Rattle.ln_hooks.specs.declared.event.ChannelEvent.{ChannelEvent};
    ghost use Rattle.ln_hooks.specs.declared.verdict.Verdict.{Verdict};

    /// It may be called on the event, answer so, and be left so.
    ghost calls: { Self → ChannelEvent → Verdict → Self → Type 0 };

    /// Calls it on the event, once.
    fn serve(&mut self, event: &ChannelEvent) -> Verdict
        ensures called_once { calls self.old event.now result self.new };
}

/// A table of hooks, where hooks are an `H`. `HookTable` is one for `Hook`.
pub trait Table<H> {
    ghost use Rattle.std.specs.Prelude.{◌≡◌, OnOk, OnErr, IfErr};
    ghost use Rattle.ln_hooks.specs.declared.event.ChannelEvent.{ChannelEvent};
    ghost use Rattle.ln_hooks.specs.declared.verdict.Verdict.{Verdict};

    /// With one hook more the table may be so.
    ghost registers: { Self → H → Self → Type 0 };

    /// The hooks may say so of an event, and leave the table so.
    ghost says: { Self → ChannelEvent → Verdict → Self → Type 0 };

    /// Registers a hook. Takes memory: where there is none the hook is handed back, and a hook that is registered then
    /// is registered in the table as it was.
    fn register(&mut self, hook: H) -> Result<(), H>
        ensures registers { OnOk result (registers self.old hook self.new) }
        ensures hands_back { IfErr result (λ h. h ≡ hook) }
        ensures changes_nothing_if_refused { OnErr result
            ((h : H) (t : Self) → registers self.new h t → registers self.old h t) };

    /// Calls the hooks on an event, each once.
    fn call(&mut self, event: &ChannelEvent) -> Verdict
        ensures { says self.old event.now result self.new };
}

impl Serve for Hook {
    ghost use Rattle.ln_hooks.specs.Chain.{IsCalledOn};

    ghost calls = { λ h event answer h'. IsCalledOn step h.call event answer h'.call };

    fn serve(&mut self, event: &ChannelEvent) -> Verdict {
        self.call(event)
    }
}

//! Stored closures.

use crate::event::ChannelEvent;
use crate::verdict::Verdict;

/// A closure that is handed in to be called on the events of a channel end. It may keep what it likes, and be moved
/// into a thread.
pub type Call = Box<dyn FnMut(&ChannelEvent) -> Verdict + Send>;

/// A closure beside the fact that it may be called on every event, now and after any such calls. The fact is
/// settled as the hook is made, and nothing is tested at a call.
#[derive(Drop)]
pub struct Hook {
    /// The closure.
    pub call: Call,
    pub ghost serves: { IsAlwaysCallable call },
}

impl Hook {
    ghost use Rattle.std.specs.Prelude.{◌≡◌};
    ghost use Rattle.ln_hooks.specs.Chain.{IsCalledOn};

    /// Keeps a closure that may be called on every event, now and after any such calls. Takes no memory.
    pub fn new(call: Call) -> Hook
        requires { IsAlwaysCallable call }
        ensures { result.call ≡ call }
    {
        Hook { call }
    }

    /// Calls the closure on the event, once. Takes no memory, but for what the closure takes.
    pub fn call(&mut self, event: &ChannelEvent) -> Verdict
        ensures called_once { IsCalledOn step self.old.call event.now result self.new.call }
    {
        (self.call)(event)
    }
}

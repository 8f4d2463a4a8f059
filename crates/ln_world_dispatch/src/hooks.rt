//! The hooks that were handed in, and the tables that they get slots in.

ghost use Rattle.std.specs.Prelude.{◌≡◌, map, OnOk, IfErr};
ghost use Rattle.ln_refusals.specs.declared.refusal.Refusal.TheVariants as refusal;
ghost use Rattle.ln_world_channels.specs.WorldChannel.{is_node};
ghost use Rattle.ln_world_dispatch.specs.Slots.{IsAside};

use crate::dispatcher::Dispatcher;
use ln_hooks::{ChannelEvent, Serve, Verdict, call_each};
use ln_refusals::Refusal;
use ln_world_channels::Node;
use std::alloc::Global;
use std::mem;

/// The hooks of a dispatcher: those of its epoch, and those of each epoch that was set aside.
#[derive(Drop)]
pub struct Tables<H: Serve> {
    /// Of its epoch, in order of registration.
    pub now: Vec<H>,
    /// Of the epochs that were set aside, in their order.
    pub past: Vec<Vec<H>>,
}

impl<H: Serve> Tables<H> {
    ghost use Rattle.std.specs.Prelude.{◌≡◌, ◌++◌, ◌∷◌, [], map, OnOk, IfErr};
    ghost use Rattle.ln_refusals.specs.declared.refusal.Refusal.TheVariants as refusal;
    ghost use Rattle.ln_hooks.specs.Table.{Says};
    ghost use Rattle.ln_hooks.specs.Chain.{shown_to};

    /// No hooks. Takes no memory.
    pub(crate) fn new(alloc: Global) -> Tables<H>
        ensures none { result.now.items ≡ [] }
        ensures no_past { result.past.items ≡ [] }
    {
        Tables {
            now: Vec::new(alloc),
            past: Vec::new(alloc),
        }
    }

    // Each hook of its epoch is called on the event.
    fn call(&mut self, event: &ChannelEvent) -> Verdict
        ensures calls_each_hook { Says (λ h. h) (shown_to H.calls) self.old.now.items event.now result
            self.new.now.items }
        ensures past { self.new.past.items ≡ self.old.past.items }
    {
        call_each(&mut self.now, event)
    }

    // The hook gets the last slot of its epoch.
    fn slot(&mut self, hook: H) -> Result<(), Refusal>
        ensures slotted { OnOk result (self.new.now.items ≡ self.old.now.items ++ hook ∷ []) }
        ensures past { OnOk result (self.new.past.items ≡ self.old.past.items) }
        ensures fails_for_memory_alone { IfErr result (λ e. e ≡ refusal.Memory) }
    {
        self.now.push(hook)?;
        Ok(())
    }

    // Its epoch is set aside with its hooks.
    fn set_aside(&mut self, alloc: Global) -> Result<(), Refusal>
        ensures none { OnOk result (self.new.now.items ≡ []) }
        ensures past { OnOk result (map (λ t. t.items) self.new.past.items
            ≡ map (λ t. t.items) self.old.past.items ++ self.old.now.items ∷ []) }
        ensures fails_for_memory_alone { IfErr result (λ e. e ≡ refusal.Memory) }
    {
        self.past.reserve(1)?;
        let table = mem::replace(&mut self.now, Vec::new(alloc));
        self.past.push_reserved(table);
        Ok(())
    }
}

// A dispatcher begins anew, where it is at this node: its epoch's hooks are set aside.
fn begin_anew<H: Serve>(
    alloc: Global,
    node: Node,
    dispatcher: &Dispatcher,
    tables: &mut Tables<H>,
) -> Result<(), Refusal>
    ensures set_aside { OnOk result (IsAside H.calls (is_node dispatcher.now.dispatcher.end.node node)
        (tables.old.now.items, map (λ p. p.items) tables.old.past.items)
        (tables.new.now.items, map (λ p. p.items) tables.new.past.items)) }
    ensures fails_for_memory_alone { IfErr result (λ e. e ≡ refusal.Memory) }
{
    if !dispatcher.is_of(node) {
        return Ok(());
    }
    tables.set_aside(alloc)?;
    Ok(())
}

/// The tables of all dispatchers, and the hooks that have no slot yet, by their places in the list that was handed in.
#[derive(Drop)]
pub struct Hooks<H: Serve> {
    /// Of each dispatcher.
    pub tables: Vec<Tables<H>>,
    /// Those that have no slot yet.
    pub offered: Vec<Option<H>>,
}

impl<H: Serve> Hooks<H> {
    ghost use Rattle.std.specs.Prelude.{◌≡◌, ◌<◌, ◌++◌, ◌∷◌, [], length, map, OnOk, IfOk, IfErr, Some, None};
    ghost use Rattle.std.specs.Prelude.{get_or, set};
    ghost use Rattle.ln_refusals.specs.declared.refusal.Refusal.TheVariants as refusal;
    ghost use Rattle.ln_world_channels.specs.WorldChannel.{is_node};
    ghost use Rattle.ln_world_dispatch.specs.Slots.{CallsAt, SlotsAt, Joins, AreAside};
    ghost use Rattle.ln_world_dispatch.specs.Kept.{dispatchers_of};

    /// Those that are handed in, none with a slot, and no dispatchers. 60 where there is no memory.
    pub(crate) fn new(alloc: Global, handed: Vec<H>) -> Result<Hooks<H>, Refusal>
        ensures no_tables { IfOk result (λ h. h.tables.items ≡ []) }
        ensures offered { IfOk result (λ h. h.offered.items ≡ map Some handed.items) }
        ensures fails_for_memory_alone { IfErr result (λ e. e ≡ refusal.Memory) }
    {
        let mut offered = Vec::new(alloc);
        for hook in handed {
            offered.push(Some(hook))?;
        }
        Ok(Hooks {
            tables: Vec::new(alloc),
            offered,
        })
    }

    /// The hooks of the dispatcher at this place are called on the event.
    pub(crate) fn call(&mut self, place: usize, event: &ChannelEvent) -> Verdict
        requires { place < length self.old.tables.items }
        ensures calls_each_hook { CallsAt H.calls place
            (map (λ t. (t.now.items, map (λ p. p.items) t.past.items)) self.old.tables.items) event.now result
            (map (λ t. (t.now.items, map (λ p. p.items) t.past.items)) self.new.tables.items) }
        ensures offered { self.new.offered.items ≡ self.old.offered.items }
    {
        self.tables[place].call(event)
    }

    /// The hook at this place of the list is taken out of it, where it is there. Takes no memory.
    pub(crate) fn take(&mut self, hook: usize) -> Option<H>
        ensures taken { result ≡ get_or self.old.offered.items hook None }
        ensures left { self.new.offered.items ≡ set self.old.offered.items hook None }
        ensures tables { self.new.tables.items ≡ self.old.tables.items }
    {
        if hook >= self.offered.len() {
            return None;
        }
        self.offered[hook].take()
    }

    /// The hook gets the last slot with the dispatcher at this place. 60 where there is no memory.
    pub(crate) fn slot(&mut self, place: usize, hook: H) -> Result<(), Refusal>
        requires { place < length self.old.tables.items }
        ensures slotted { OnOk result (SlotsAt H.calls place
            (map (λ t. (t.now.items, map (λ p. p.items) t.past.items)) self.old.tables.items) hook
            (map (λ t. (t.now.items, map (λ p. p.items) t.past.items)) self.new.tables.items)) }
        ensures offered { self.new.offered.items ≡ self.old.offered.items }
        ensures fails_for_memory_alone { IfErr result (λ e. e ≡ refusal.Memory) }
    {
        self.tables[place].slot(hook)?;
        Ok(())
    }

    /// The two dispatchers of a channel join, without hooks. 60 where there is no memory.
    pub(crate) fn open(&mut self, alloc: Global) -> Result<(), Refusal>
        ensures joined { OnOk result (Joins H.calls
            (map (λ t. (t.now.items, map (λ p. p.items) t.past.items)) self.old.tables.items)
            (map (λ t. (t.now.items, map (λ p. p.items) t.past.items)) self.new.tables.items)) }
        ensures offered { self.new.offered.items ≡ self.old.offered.items }
        ensures fails_for_memory_alone { IfErr result (λ e. e ≡ refusal.Memory) }
    {
        self.tables.push(Tables::new(alloc))?;
        self.tables.push(Tables::new(alloc))?;
        Ok(())
    }

    /// The dispatchers of a node begin anew: their hooks are set aside. 60 where there is no memory.
    pub(crate) fn set_aside(
        &mut self,
        alloc: Global,
        node: Node,
        dispatchers: &[Dispatcher],
    ) -> Result<(), Refusal>
        requires { length dispatchers.now ≡ length self.old.tables.items }
        ensures set_aside { OnOk result (AreAside H.calls (λ d. is_node d.end.node node)
            (dispatchers_of dispatchers.now)
            (map (λ t. (t.now.items, map (λ p. p.items) t.past.items)) self.old.tables.items)
            (map (λ t. (t.now.items, map (λ p. p.items) t.past.items)) self.new.tables.items)) }
        ensures offered { self.new.offered.items ≡ self.old.offered.items }
        ensures fails_for_memory_alone { IfErr result (λ e. e ≡ refusal.Memory) }
    {
        for i in 0..dispatchers.len() {
            begin_anew(alloc, node, &dispatchers[i], &mut self.tables[i])?;
        }
        Ok(())
    }
}

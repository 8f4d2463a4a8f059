//! Nodes whose dispatchers call hooks.

ghost use Rattle.std.specs.Prelude.{◌≡◌, ◌++◌, ◌∷◌, [], OnOk, IfErr};
ghost use Rattle.ln_refusals.specs.declared.refusal.Refusal.TheVariants as refusal;
ghost use Rattle.ln_world_channels.specs.declared.line.Line.TheVariants as line;

use crate::hooks::Hooks;
use crate::nodes::Nodes;
use crate::step::Step;
use ln_hooks::{ChannelEvent, Serve};
use ln_keys::ChannelKeys;
use ln_refusals::Refusal;
use ln_world_channels::{Act, End, EndLine, Line, Node, Open};
use std::alloc::Global;

// What can't be done is told as such.
fn report_idle(lines: &mut Vec<Line>) -> Result<(), Refusal>
    ensures told { OnOk result (lines.new.items ≡ lines.old.items ++ line.Idle ∷ []) }
    ensures fails_for_memory_alone { IfErr result (λ e. e ≡ refusal.Memory) }
{
    lines.push(Line::Idle)?;
    Ok(())
}

/// Nodes, the channels between them, and the hooks that serve the channels' ends: each is called on every event of its
/// end from the one on that is next as it gets its slot, until its dispatcher begins anew.
#[derive(Drop)]
pub struct World<K: ChannelKeys + Copy, H: Serve> {
    /// Nodes with their channels, and what is written down of the dispatchers.
    pub state: Nodes<K>,
    /// The hooks that were handed in, each in the table of the epoch that it has a slot in.
    pub hooks: Hooks<H>,
}

impl<K: ChannelKeys + Copy, H: Serve> World<K, H> {
    ghost use Rattle.std.specs.Prelude.{◌≡◌, ◌<◌, ◌++◌, ◌∷◌, [], length, map, position, Some, true, OnOk, IfOk, IfErr};
    ghost use Rattle.ln_world_channels.specs.World as channels;
    ghost use Rattle.ln_world_dispatch.specs.declared.step.Step.TheVariants as step;
    ghost use Rattle.ln_world_dispatch.specs.Dispatcher.{is_at};
    ghost use Rattle.ln_world_dispatch.specs.World.{empty, next_event, run, run_lines, unhooked, MayFail};
    ghost use Rattle.ln_world_dispatch.specs.Hooked.{leaves_dispatchers, Steps, HasRun, RunMayFail};

    /// Nothing was set, no channel is open, and these hooks were handed in. Takes memory: 60 where there is none.
    pub fn new(alloc: Global, hooks: Vec<H>) -> Result<World<K, H>, Refusal>
        ensures state { IfOk result (λ w. w.state ≡ empty (length hooks.items)) }
        ensures no_tables { IfOk result (λ w. w.hooks.tables.items ≡ []) }
        ensures offered { IfOk result (λ w. w.hooks.offered.items ≡ map Some hooks.items) }
        ensures fails_for_memory_alone { IfErr result (λ e. e ≡ refusal.Memory) }
    {
        let state = Nodes::new(alloc, hooks.len());
        let hooks = Hooks::new(alloc, hooks)?;
        Ok(World { state, hooks })
    }

    // The dispatcher at this place, which is the end's, serves its next event: each of its hooks is called on it.
    fn serve(
        &mut self,
        end: End,
        place: usize,
        number: u64,
        event: ChannelEvent,
        lines: &mut Vec<Line>,
    ) -> Result<(), Refusal>
        requires place { Some place ≡ position (is_at end) self.old.state.dispatchers }
        requires within { place < length self.old.hooks.tables.items }
        requires next { Some (number, event) ≡ next_event end self.old.state }
        ensures stepped { OnOk result (Steps K.ChannelKeys H.calls (step.Dispatch end) self.old.state
            (map (λ t. (t.now.items, map (λ p. p.items) t.past.items)) self.old.hooks.tables.items)
            self.old.hooks.offered.items self.new.state
            (map (λ t. (t.now.items, map (λ p. p.items) t.past.items)) self.new.hooks.tables.items)
            self.new.hooks.offered.items lines.old.items lines.new.items) }
        ensures fails_for_memory_alone { IfErr result (λ e. e ≡ refusal.Memory) }
    {
        let verdict = self.hooks.call(place, &event);
        self.state.write(end, event, verdict)?;
        lines.push(Line::Dispatched(end, number, verdict))?;
        Ok(())
    }

    // An end's dispatcher serves its next event, where the end holds it.
    fn dispatch(&mut self, alloc: Global, end: End, lines: &mut Vec<Line>) -> Result<(), Refusal>
        requires { length self.old.hooks.tables.items ≡ length self.old.state.dispatchers }
        ensures stepped { OnOk result (Steps K.ChannelKeys H.calls (step.Dispatch end) self.old.state
            (map (λ t. (t.now.items, map (λ p. p.items) t.past.items)) self.old.hooks.tables.items)
            self.old.hooks.offered.items self.new.state
            (map (λ t. (t.now.items, map (λ p. p.items) t.past.items)) self.new.hooks.tables.items)
            self.new.hooks.offered.items lines.old.items lines.new.items) }
        ensures fails_for_memory_alone { IfErr result (λ e. e ≡ refusal.Memory) }
    {
        let Some(place) = self.state.place(end) else {
            report_idle(lines)?;
            return Ok(());
        };
        let Some((number, event)) = self.state.next_event(alloc, end)? else {
            report_idle(lines)?;
            return Ok(());
        };
        self.serve(end, place, number, event, lines)
    }

    // The hook at this place of the list gets a slot with an end's dispatcher, where it may.
    fn register(
        &mut self,
        alloc: Global,
        end: End,
        hook: usize,
        lines: &mut Vec<Line>,
    ) -> Result<(), Refusal>
        requires { length self.old.hooks.tables.items ≡ length self.old.state.dispatchers }
        ensures stepped { OnOk result (Steps K.ChannelKeys H.calls (step.Register end hook) self.old.state
            (map (λ t. (t.now.items, map (λ p. p.items) t.past.items)) self.old.hooks.tables.items)
            self.old.hooks.offered.items self.new.state
            (map (λ t. (t.now.items, map (λ p. p.items) t.past.items)) self.new.hooks.tables.items)
            self.new.hooks.offered.items lines.old.items lines.new.items) }
        ensures fails_for_memory_alone { IfErr result (λ e. e ≡ refusal.Memory) }
    {
        let Some(place) = self.state.place(end) else {
            report_idle(lines)?;
            return Ok(());
        };
        if !self.state.may_register(end, hook) {
            report_idle(lines)?;
            return Ok(());
        }
        let Some(served) = self.hooks.take(hook) else {
            report_idle(lines)?;
            return Ok(());
        };
        self.hooks.slot(place, served)?;
        self.state.step(alloc, Step::Register(end, hook), lines)?;
        Ok(())
    }

    // A step that is no dispatcher's, nor its hooks'.
    fn pass(&mut self, alloc: Global, step: Step<K>, lines: &mut Vec<Line>) -> Result<(), Refusal>
        requires { leaves_dispatchers step ≡ true }
        ensures stepped { OnOk result (Steps K.ChannelKeys H.calls step self.old.state
            (map (λ t. (t.now.items, map (λ p. p.items) t.past.items)) self.old.hooks.tables.items)
            self.old.hooks.offered.items self.new.state
            (map (λ t. (t.now.items, map (λ p. p.items) t.past.items)) self.new.hooks.tables.items)
            self.new.hooks.offered.items lines.old.items lines.new.items) }
        ensures fails { IfErr result (λ e. MayFail K.ChannelKeys step e self.old.state) }
    {
        self.state.step(alloc, step, lines)?;
        Ok(())
    }

    // A channel is opened, where it may be, and its ends get dispatchers, without hooks.
    fn open(&mut self, alloc: Global, wish: Open<K>, lines: &mut Vec<Line>) -> Result<(), Refusal>
        ensures stepped { OnOk result (Steps K.ChannelKeys H.calls (step.Open wish) self.old.state
            (map (λ t. (t.now.items, map (λ p. p.items) t.past.items)) self.old.hooks.tables.items)
            self.old.hooks.offered.items self.new.state
            (map (λ t. (t.now.items, map (λ p. p.items) t.past.items)) self.new.hooks.tables.items)
            self.new.hooks.offered.items lines.old.items lines.new.items) }
        ensures fails { IfErr result (λ e. MayFail K.ChannelKeys (step.Open wish) e self.old.state) }
    {
        let may_open = self.state.may_open(&wish);
        self.state.step(alloc, Step::Open(wish), lines)?;
        if may_open {
            self.hooks.open(alloc)?;
        }
        Ok(())
    }

    // A node restarts, and the hooks of its dispatchers are set aside.
    fn restart(&mut self, alloc: Global, node: Node, lines: &mut Vec<Line>) -> Result<(), Refusal>
        requires { length self.old.hooks.tables.items ≡ length self.old.state.dispatchers }
        ensures stepped { OnOk result (Steps K.ChannelKeys H.calls (step.Restart node) self.old.state
            (map (λ t. (t.now.items, map (λ p. p.items) t.past.items)) self.old.hooks.tables.items)
            self.old.hooks.offered.items self.new.state
            (map (λ t. (t.now.items, map (λ p. p.items) t.past.items)) self.new.hooks.tables.items)
            self.new.hooks.offered.items lines.old.items lines.new.items) }
        ensures fails { IfErr result (λ e. MayFail K.ChannelKeys (step.Restart node) e self.old.state) }
    {
        self.hooks.set_aside(alloc, node, self.state.dispatchers())?;
        self.state.step(alloc, Step::Restart(node), lines)?;
        Ok(())
    }

    // A node stops before an act of its end, where that can act, and the hooks of its dispatchers are set aside.
    fn stop_before(
        &mut self,
        alloc: Global,
        end: End,
        what: Act,
        lines: &mut Vec<Line>,
    ) -> Result<(), Refusal>
        requires { length self.old.hooks.tables.items ≡ length self.old.state.dispatchers }
        ensures stepped { OnOk result (Steps K.ChannelKeys H.calls (step.StopBefore end what) self.old.state
            (map (λ t. (t.now.items, map (λ p. p.items) t.past.items)) self.old.hooks.tables.items)
            self.old.hooks.offered.items self.new.state
            (map (λ t. (t.now.items, map (λ p. p.items) t.past.items)) self.new.hooks.tables.items)
            self.new.hooks.offered.items lines.old.items lines.new.items) }
        ensures fails { IfErr result (λ e. MayFail K.ChannelKeys (step.StopBefore end what) e self.old.state) }
    {
        let may_act = self.state.may_act(end, &what);
        self.state.step(alloc, Step::StopBefore(end, what), lines)?;
        if may_act {
            self.hooks
                .set_aside(alloc, end.node, self.state.dispatchers())?;
        }
        Ok(())
    }

    // A node stops after an act of its end, where that can act, and the hooks of its dispatchers are set aside.
    fn stop_after(
        &mut self,
        alloc: Global,
        end: End,
        what: Act,
        lines: &mut Vec<Line>,
    ) -> Result<(), Refusal>
        requires { length self.old.hooks.tables.items ≡ length self.old.state.dispatchers }
        ensures stepped { OnOk result (Steps K.ChannelKeys H.calls (step.StopAfter end what) self.old.state
            (map (λ t. (t.now.items, map (λ p. p.items) t.past.items)) self.old.hooks.tables.items)
            self.old.hooks.offered.items self.new.state
            (map (λ t. (t.now.items, map (λ p. p.items) t.past.items)) self.new.hooks.tables.items)
            self.new.hooks.offered.items lines.old.items lines.new.items) }
        ensures fails { IfErr result (λ e. MayFail K.ChannelKeys (step.StopAfter end what) e self.old.state) }
    {
        let may_act = self.state.may_act(end, &what);
        self.state.step(alloc, Step::StopAfter(end, what), lines)?;
        if may_act {
            self.hooks
                .set_aside(alloc, end.node, self.state.dispatchers())?;
        }
        Ok(())
    }

    /// What happens in a step, as in `Nodes::step`; in a dispatch each hook that has a slot there is called, once.
    ///
    /// Takes memory. Errors: those of `Nodes::step`.
    pub fn step(
        &mut self,
        alloc: Global,
        step: Step<K>,
        lines: &mut Vec<Line>,
    ) -> Result<(), Refusal>
        requires { length self.old.hooks.tables.items ≡ length self.old.state.dispatchers }
        ensures stepped { OnOk result (Steps K.ChannelKeys H.calls step self.old.state
            (map (λ t. (t.now.items, map (λ p. p.items) t.past.items)) self.old.hooks.tables.items)
            self.old.hooks.offered.items self.new.state
            (map (λ t. (t.now.items, map (λ p. p.items) t.past.items)) self.new.hooks.tables.items)
            self.new.hooks.offered.items lines.old.items lines.new.items) }
        ensures fails { IfErr result (λ e. MayFail K.ChannelKeys step e self.old.state) }
    {
        match step {
            Step::Fees(node, fees) => self.pass(alloc, Step::Fees(node, fees), lines),
            Step::Limits(node, limits) => self.pass(alloc, Step::Limits(node, limits), lines),
            Step::Open(wish) => self.open(alloc, wish, lines),
            Step::Do(end, what) => self.pass(alloc, Step::Do(end, what), lines),
            Step::Down(end) => self.pass(alloc, Step::Down(end), lines),
            Step::NoMemory(end, what) => self.pass(alloc, Step::NoMemory(end, what), lines),
            Step::SaveFails(end, what, left) => {
                self.pass(alloc, Step::SaveFails(end, what, left), lines)
            }
            Step::Restart(node) => self.restart(alloc, node, lines),
            Step::Reload(end) => self.pass(alloc, Step::Reload(end), lines),
            Step::StopBefore(end, what) => self.stop_before(alloc, end, what, lines),
            Step::StopAfter(end, what) => self.stop_after(alloc, end, what, lines),
            Step::Up(number) => self.pass(alloc, Step::Up(number), lines),
            Step::Dispatch(end) => self.dispatch(alloc, end, lines),
            Step::Register(end, hook) => self.register(alloc, end, hook, lines),
        }
    }

    /// Nodes after these steps, one after the other, with these hooks, which steps name by their places in the list;
    /// what is told of each step joins the lines.
    ///
    /// What a step makes of nodes is as in `Nodes::step`. Where a dispatcher serves an event, each hook that has a slot
    /// there is called on it, once and in order of registration, whatever those before it answered; what they say of it
    /// is the first Fail, else Continue. A hook has one slot at most. Where a node restarts or stops, the hooks of its
    /// dispatchers are set aside, as they stood, and are called no more.
    ///
    /// Takes memory. Errors: those of `Nodes::step`: 60 where there is no memory; 70 where an end has no record as an
    /// act or the opening leaves it.
    pub fn run_with(
        alloc: Global,
        steps: Vec<Step<K>>,
        hooks: Vec<H>,
        lines: &mut Vec<Line>,
    ) -> Result<World<K, H>, Refusal>
        ensures has_run { IfOk result (λ w. HasRun K.ChannelKeys H.calls hooks.items steps.items w.state
            (map (λ t. (t.now.items, map (λ p. p.items) t.past.items)) w.hooks.tables.items)
            w.hooks.offered.items lines.old.items lines.new.items) }
        ensures fails { IfErr result (λ e. RunMayFail K.ChannelKeys (length hooks.items) steps.items e) }
    {
        let mut world: World<K, H> = World::new(alloc, hooks)?;
        for step in steps {
            world.step(alloc, step, lines)?;
        }
        Ok(world)
    }

    /// The same where no hook is handed in, so that nothing is said against an event: as `Nodes::run`. Takes memory.
    /// Errors: those of `run_with`.
    pub fn run(
        alloc: Global,
        steps: Vec<Step<K>>,
        lines: &mut Vec<Line>,
    ) -> Result<World<K, H>, Refusal>
        ensures has_run { IfOk result (λ w. HasRun K.ChannelKeys H.calls [] steps.items w.state
            (map (λ t. (t.now.items, map (λ p. p.items) t.past.items)) w.hooks.tables.items)
            w.hooks.offered.items lines.old.items lines.new.items) }
        ensures state { IfOk result (λ w. w.state ≡ run K.ChannelKeys (unhooked steps.items) (empty 0)) }
        ensures told { OnOk result (lines.new.items
            ≡ lines.old.items ++ run_lines K.ChannelKeys (unhooked steps.items) (empty 0)) }
        ensures fails { IfErr result (λ e. RunMayFail K.ChannelKeys 0 steps.items e) }
    {
        World::run_with(alloc, steps, Vec::new(alloc), lines)
    }

    /// Where the ends of all channels stand, as `ln_world_channels::World::end_lines` tells it. 60 where there is no
    /// memory.
    pub fn end_lines(&self, alloc: Global) -> Result<Vec<EndLine>, Refusal>
        ensures lines { IfOk result (λ ls. ls.items ≡ channels.end_lines self.now.state.channels) }
        ensures fails_for_memory_alone { IfErr result (λ e. e ≡ refusal.Memory) }
    {
        self.state.end_lines(alloc)
    }
}

//! A world of nodes.

ghost use Rattle.std.specs.Prelude.{◌≡◌, length, map, IfOk, IfErr};
ghost use Rattle.ln_refusals.specs.declared.refusal.Refusal.TheVariants as refusal;
ghost use Rattle.ln_world.specs.World.{MayFailBy};
ghost use Rattle.ln_world.specs.Hooked.{Moves};

use crate::conclude::{conclude, report_follow_up};
use crate::node::NodeBook;
use crate::prepare::prepare;
use crate::step::Step;
use ln_keys::ChannelKeys;
use ln_refusals::Refusal;
use ln_world_dispatch::{EndLine, Line, Serve, Step as DispatchStep, World as Dispatchers};
use std::alloc::Global;

// Dispatchers take the step that is theirs, if any, and tell of it. 60 where there is no memory, 70 where an end has no
// record as an act or the opening leaves it.
fn move_dispatchers<K: ChannelKeys + Copy, H: Serve>(
    alloc: Global,
    dispatchers: &mut Dispatchers<K, H>,
    step: Option<DispatchStep<K>>,
) -> Result<Vec<Line>, Refusal>
    requires { length dispatchers.old.hooks.tables.items ≡ length dispatchers.old.state.dispatchers }
    ensures moved { IfOk result (λ told. Moves K.ChannelKeys H.calls step dispatchers.old.state
        (map (λ t. (t.now.items, map (λ p. p.items) t.past.items)) dispatchers.old.hooks.tables.items)
        dispatchers.old.hooks.offered.items dispatchers.new.state
        (map (λ t. (t.now.items, map (λ p. p.items) t.past.items)) dispatchers.new.hooks.tables.items)
        dispatchers.new.hooks.offered.items told.items) }
    ensures fails { IfErr result (λ e. MayFailBy K.ChannelKeys step e dispatchers.old.state) }
{
    let mut told = Vec::new(alloc);
    match step {
        None => {
            told.push(Line::Idle)?;
            Ok(told)
        }
        Some(step) => {
            dispatchers.step(alloc, step, &mut told)?;
            Ok(told)
        }
    }
}

/// A world of nodes: their channels, the dispatchers of the channels' ends with the hooks that are called there, and
/// for each node its policy and its book of forwarded payments.
#[derive(Drop)]
pub struct World<K: ChannelKeys + Copy, H: Serve> {
    /// Channels, and the dispatchers of their ends.
    pub dispatchers: Dispatchers<K, H>,
    /// The nodes of which something was said.
    pub nodes: Vec<NodeBook>,
}

impl<K: ChannelKeys + Copy, H: Serve> World<K, H> {
    ghost use Rattle.std.specs.Prelude.{◌≡◌, ◌<◌, ◌++◌, ◌∷◌, [], length, map, Some, true, OnOk, IfOk, IfErr};
    ghost use Rattle.ln_world_channels.specs.World as channels;
    ghost use Rattle.ln_world_dispatch.specs.World as dispatchers;
    ghost use Rattle.ln_world.specs.World.{empty, MayFail};
    ghost use Rattle.ln_world.specs.Hooked.{Steps, HasRun, RunMayFail};

    /// Nothing was set, no channel is open, and these hooks were handed in. 60 where there is no memory.
    pub fn new(alloc: Global, hooks: Vec<H>) -> Result<World<K, H>, Refusal>
        ensures dispatchers { IfOk result (λ w. w.dispatchers.state ≡ dispatchers.empty (length hooks.items)) }
        ensures nodes { IfOk result (λ w. w.nodes.items ≡ []) }
        ensures no_tables { IfOk result (λ w. w.dispatchers.hooks.tables.items ≡ []) }
        ensures offered { IfOk result (λ w. w.dispatchers.hooks.offered.items ≡ map Some hooks.items) }
        ensures fails_for_memory_alone { IfErr result (λ e. e ≡ refusal.Memory) }
    {
        Ok(World {
            dispatchers: Dispatchers::new(alloc, hooks)?,
            nodes: Vec::new(alloc),
        })
    }

    /// What happens in a step, and what is told of it, which joins the lines.
    ///
    /// Of channels it is as in `ln_world_channels::World::step`, of dispatchers and hooks as in
    /// `ln_world_dispatch::World::step`. Beside that each node has a policy and a book of forwarded payments. Where an
    /// end is to decide, the book decides the end's first undecided event, which its dispatcher has served, by what the
    /// hooks said of it; then, as where an end is to take, the book hands out the first command for the end, a decision
    /// before all others, and hears what the end answers. The book of an end that acts hears which removals of HTLCs
    /// the end has come to hold; that of an end that loses its connection or reloads, what the end has kept; and
    /// where a node restarts or stops its book begins anew with what the node's ends have. At last the book follows the
    /// node's ends: their short ids, and which of them take payments. What can't be done changes nothing, and
    /// `Line::Idle` is told: so where the book has no command, nothing waits to be decided, or somebody sends what is
    /// the book's to command.
    ///
    /// Errors: 60 where there is no memory; 70 where an end has no record as an act or the opening leaves it.
    pub fn step(
        &mut self,
        alloc: Global,
        step: Step<K>,
        lines: &mut Vec<Line>,
    ) -> Result<(), Refusal>
        requires { length self.old.dispatchers.hooks.tables.items ≡ length self.old.dispatchers.state.dispatchers }
        ensures stepped { OnOk result (Steps K.ChannelKeys H.calls step
            (record { dispatchers = self.old.dispatchers.state; nodes = self.old.nodes.items })
            (map (λ t. (t.now.items, map (λ p. p.items) t.past.items)) self.old.dispatchers.hooks.tables.items)
            self.old.dispatchers.hooks.offered.items
            (record { dispatchers = self.new.dispatchers.state; nodes = self.new.nodes.items })
            (map (λ t. (t.now.items, map (λ p. p.items) t.past.items)) self.new.dispatchers.hooks.tables.items)
            self.new.dispatchers.hooks.offered.items lines.old.items lines.new.items) }
        ensures fails { IfErr result (λ e. MayFail K.ChannelKeys step e
            (record { dispatchers = self.old.dispatchers.state; nodes = self.old.nodes.items })) }
    {
        let (plain, follow_up) = prepare(alloc, &self.dispatchers.state, &mut self.nodes, step)?;
        let told = move_dispatchers(alloc, &mut self.dispatchers, plain)?;
        conclude(
            alloc,
            &self.dispatchers.state,
            &mut self.nodes,
            follow_up,
            told.as_slice(),
        )?;
        report_follow_up(follow_up, told.as_slice(), lines)
    }

    /// A world after these steps, one after the other, with these hooks, which steps name by their places in the list;
    /// what is told of each step joins the lines. What a step makes of it is as in `step`. A hook has one slot at most;
    /// where a node restarts or stops, the hooks of its dispatchers are set aside, as they stood, and are called no
    /// more.
    ///
    /// Takes memory. Errors: those of `step`.
    pub fn run_with(
        alloc: Global,
        steps: Vec<Step<K>>,
        hooks: Vec<H>,
        lines: &mut Vec<Line>,
    ) -> Result<World<K, H>, Refusal>
        ensures has_run { IfOk result (λ w. HasRun K.ChannelKeys H.calls hooks.items steps.items
            (record { dispatchers = w.dispatchers.state; nodes = w.nodes.items })
            (map (λ t. (t.now.items, map (λ p. p.items) t.past.items)) w.dispatchers.hooks.tables.items)
            w.dispatchers.hooks.offered.items lines.old.items lines.new.items) }
        ensures fails { IfErr result (λ e. RunMayFail K.ChannelKeys (length hooks.items) steps.items e) }
    {
        let mut world: World<K, H> = World::new(alloc, hooks)?;
        for step in steps {
            world.step(alloc, step, lines)?;
        }
        Ok(world)
    }

    /// The same where no hook is handed in. Takes memory. Errors: those of `run_with`.
    pub fn run(
        alloc: Global,
        steps: Vec<Step<K>>,
        lines: &mut Vec<Line>,
    ) -> Result<World<K, H>, Refusal>
        ensures has_run { IfOk result (λ w. HasRun K.ChannelKeys H.calls [] steps.items
            (record { dispatchers = w.dispatchers.state; nodes = w.nodes.items })
            (map (λ t. (t.now.items, map (λ p. p.items) t.past.items)) w.dispatchers.hooks.tables.items)
            w.dispatchers.hooks.offered.items lines.old.items lines.new.items) }
        ensures fails { IfErr result (λ e. RunMayFail K.ChannelKeys 0 steps.items e) }
    {
        World::run_with(alloc, steps, Vec::new(alloc), lines)
    }

    /// Where the ends of all channels stand, as `ln_world_channels::World::end_lines` tells it. 60 where there is no
    /// memory.
    pub fn end_lines(&self, alloc: Global) -> Result<Vec<EndLine>, Refusal>
        ensures lines { IfOk result (λ ls. ls.items ≡ channels.end_lines self.now.dispatchers.state.channels) }
        ensures fails_for_memory_alone { IfErr result (λ e. e ≡ refusal.Memory) }
    {
        self.dispatchers.end_lines(alloc)
    }
}

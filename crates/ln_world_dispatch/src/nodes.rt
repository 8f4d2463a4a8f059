//! Nodes, their channels, and what is written down of the dispatchers.

ghost use Rattle.std.specs.Prelude.{◌≡◌, ◌++◌, ◌==◌, ◌∷◌, [], position, is_some, option_copied, IfOk, IfErr, OnOk};
ghost use Rattle.std.specs.Prelude.{ℕ, Some, option_map, IfSome};
ghost use Rattle.std.specs.List.{list_any};
ghost use Rattle.ln_refusals.specs.declared.refusal.Refusal.TheVariants as refusal;
ghost use Rattle.ln_keys.specs.declared.role.Role.{Role};
ghost use Rattle.ln_world_channels.specs.declared.step.End.{End};
ghost use Rattle.ln_world_channels.specs.declared.line.Line.TheVariants as line;
ghost use Rattle.ln_world_dispatch.specs.Dispatcher.{is_at, dispatcher_at, at_dispatcher, serving, registered};
ghost use Rattle.ln_world_dispatch.specs.World.{event_for, numbered_for, restarts, all_restart, new_dispatchers};
ghost use Rattle.ln_world_dispatch.specs.World.{is_below_next, waiting_for};
ghost use Rattle.ln_world_dispatch.specs.Kept.{dispatchers_of, decided_at, Keeps, AllKeep};

use crate::dispatcher::Dispatcher;
use crate::event::{decided_in, saved_end, undecided_in};
use crate::step::Step;
use ln_channel::Command;
use ln_hooks::{ChannelEvent, Verdict};
use ln_keys::{ChannelKeys, Role};
use ln_refusals::Refusal;
use ln_world_channels::{
    Act, End, EndLine, Line, Node, Open, RecordLeft, Step as ChannelStep, World as Channels,
};
use std::alloc::Global;
use std::marker::Model;

/// Where the dispatcher of an end stands.
fn index_of(dispatchers: &[Dispatcher], end: End) -> Option<usize>
    ensures { result ≡ position (λ d. is_at end d.dispatcher) dispatchers.now }
{
    dispatchers
        .iter()
        .position(|dispatcher| dispatcher.is_at(end))
}

/// The event that a dispatcher serves next, where its end holds it. 60 where there is no memory.
fn event_for<K: ChannelKeys + Copy>(
    alloc: Global,
    channels: &Channels<K>,
    dispatcher: &Dispatcher,
) -> Result<Option<ChannelEvent>, Refusal>
    ensures event { IfOk result (λ e. e ≡ event_for dispatcher.now.dispatcher channels.now) }
    ensures fails_for_memory_alone { IfErr result (λ e. e ≡ refusal.Memory) }
{
    let number = dispatcher.next()?;
    undecided_in(
        alloc,
        channels,
        dispatcher.end().channel,
        dispatcher.side(),
        number,
    )
}

/// An end's dispatcher, where it has one.
fn dispatcher_at(dispatchers: &[Dispatcher], end: End) -> Option<&Dispatcher>
    ensures dispatcher { option_map (λ d. d.now.dispatcher) result
        ≡ dispatcher_at end (dispatchers_of dispatchers.now) }
    ensures keeps { (decided : End → Role → ℕ) → AllKeep decided dispatchers.now
        → IfSome result (λ d. Keeps decided d.now) }
{
    match index_of(dispatchers, end) {
        None => None,
        Some(i) => Some(&dispatchers[i]),
    }
}

/// Whether the number is below that of the event that the end's dispatcher serves next.
fn is_below_next(dispatchers: &[Dispatcher], end: End, number: u64) -> bool
    ensures { result ≡ is_below_next number (dispatcher_at end (dispatchers_of dispatchers.now)) }
{
    match dispatcher_at(dispatchers, end) {
        None => false,
        Some(dispatcher) => dispatcher.is_below_next(number),
    }
}

/// The first event that the end hasn't decided, where its dispatcher has dispatched it in this epoch.
fn waiting<'a, K: ChannelKeys + Copy>(
    channels: &Channels<K>,
    dispatcher: &'a Dispatcher,
) -> Option<(u64, &'a ChannelEvent, Verdict)>
    requires { Keeps (decided_at channels.now) dispatcher.now }
    ensures { option_map (λ p. (p.0, p.1.now, p.2)) result ≡ waiting_for (Some dispatcher.now.dispatcher) channels.now }
{
    let end = saved_end(channels, dispatcher.end().channel, dispatcher.side())?;
    let number = end.ledger().decided();
    let (event, verdict) = dispatcher.served(number)?;
    Some((number, event, verdict))
}

fn has_dispatcher(dispatchers: &[Dispatcher], end: End) -> bool
    ensures { result ≡ is_some (dispatcher_at end (dispatchers_of dispatchers.now)) }
{
    dispatcher_at(dispatchers, end).is_some()
}

/// The event that an end's dispatcher serves next, with its number. 60 where there is no memory.
fn next_event<K: ChannelKeys + Copy>(
    alloc: Global,
    channels: &Channels<K>,
    dispatchers: &[Dispatcher],
    end: End,
) -> Result<Option<(u64, ChannelEvent)>, Refusal>
    ensures event { IfOk result (λ e. e
        ≡ numbered_for (dispatcher_at end (dispatchers_of dispatchers.now)) channels.now) }
    ensures fails_for_memory_alone { IfErr result (λ e. e ≡ refusal.Memory) }
{
    let Some(dispatcher) = dispatcher_at(dispatchers, end) else {
        return Ok(None);
    };
    let number = dispatcher.next()?;
    match event_for(alloc, channels, dispatcher)? {
        None => Ok(None),
        Some(event) => Ok(Some((number, event))),
    }
}

/// The end's dispatcher has served the event, and its hooks said this. 60 where there is no memory.
fn write_at(
    dispatchers: &mut [Dispatcher],
    end: End,
    event: ChannelEvent,
    verdict: Verdict,
) -> Result<(), Refusal>
    ensures written { OnOk result (dispatchers_of dispatchers.new
        ≡ at_dispatcher end (serving event verdict) (dispatchers_of dispatchers.old)) }
    ensures keep { (decided : End → Role → ℕ) → AllKeep decided dispatchers.old → AllKeep decided dispatchers.new }
    ensures fails_for_memory_alone { IfErr result (λ e. e ≡ refusal.Memory) }
{
    match index_of(dispatchers, end) {
        None => {
            drop(event);
            Ok(())
        }
        Some(i) => dispatchers[i].write(event, verdict),
    }
}

/// The hook at this place of the list serves an end from its next event on. 60 where there is no memory.
fn slot_at(dispatchers: &mut [Dispatcher], end: End, hook: usize) -> Result<(), Refusal>
    ensures slotted { OnOk result (dispatchers_of dispatchers.new
        ≡ at_dispatcher end (registered hook) (dispatchers_of dispatchers.old)) }
    ensures keep { (decided : End → Role → ℕ) → AllKeep decided dispatchers.old → AllKeep decided dispatchers.new }
    ensures fails_for_memory_alone { IfErr result (λ e. e ≡ refusal.Memory) }
{
    match index_of(dispatchers, end) {
        None => Ok(()),
        Some(i) => dispatchers[i].slot(hook),
    }
}

/// Whether the hook at this place has a slot, or had one.
fn was_used(used: &[usize], hook: usize) -> bool
    ensures { result ≡ list_any (λ h. h == hook) used.now }
{
    used.iter().any(|place| *place == hook)
}

/// A dispatcher begins anew, where it is at this node. Takes no memory.
fn restart_one<K: ChannelKeys + Copy>(
    alloc: Global,
    channels: &Channels<K>,
    node: Node,
    dispatcher: &mut Dispatcher,
)
    ensures restarted { dispatcher.new.dispatcher ≡ restarts node channels.now dispatcher.old.dispatcher }
    ensures keeps { (decided : End → Role → ℕ) → Keeps decided dispatcher.old → Keeps decided dispatcher.new }
{
    if !dispatcher.is_of(node) {
        return;
    }
    let decided = decided_in(channels, dispatcher.end().channel, dispatcher.side());
    dispatcher.restart(alloc, decided);
}

/// The dispatchers of a node begin anew. Takes no memory.
fn restart_each<K: ChannelKeys + Copy>(
    alloc: Global,
    channels: &Channels<K>,
    node: Node,
    dispatchers: &mut [Dispatcher],
)
    ensures restarted { dispatchers_of dispatchers.new
        ≡ all_restart node channels.now (dispatchers_of dispatchers.old) }
    ensures keep { (decided : End → Role → ℕ) → AllKeep decided dispatchers.old → AllKeep decided dispatchers.new }
{
    for i in 0..dispatchers.len() {
        restart_one(alloc, channels, node, &mut dispatchers[i]);
    }
}

/// A dispatcher lets go of the first event that it keeps, where its end has decided that. Takes no memory.
#[tactic(auto, using(crate::proofs::Keeping::lets_go_so))]
fn let_go_one<K: ChannelKeys + Copy>(
    alloc: Global,
    channels: &Channels<K>,
    dispatcher: &mut Dispatcher,
)
    ensures same_dispatcher { dispatcher.new.dispatcher ≡ dispatcher.old.dispatcher }
    ensures keeps { Keeps (decided_at channels.now) dispatcher.old → Keeps (decided_at channels.now) dispatcher.new }
{
    let decided = decided_in(channels, dispatcher.end().channel, dispatcher.side());
    dispatcher.let_go(alloc, decided);
}

/// An end has acted: its dispatcher lets go of the first event that it keeps, where the end has decided that. Takes no
/// memory.
fn let_go_at<K: ChannelKeys + Copy>(
    alloc: Global,
    channels: &Channels<K>,
    dispatchers: &mut [Dispatcher],
    end: End,
)
    ensures same_dispatchers { dispatchers_of dispatchers.new ≡ dispatchers_of dispatchers.old }
    ensures keep { AllKeep (decided_at channels.now) dispatchers.old
        → AllKeep (decided_at channels.now) dispatchers.new }
{
    if let Some(i) = index_of(dispatchers, end) {
        let_go_one(alloc, channels, &mut dispatchers[i]);
    }
}

/// What the dispatchers don't keep is forgotten in proofs too, so that nothing is promised of it. Takes no memory.
fn forget_each(dispatchers: &mut [Dispatcher])
    ensures keep { (decided : End → Role → ℕ) → AllKeep decided dispatchers.new }
{
    for i in 0..dispatchers.len() {
        dispatchers[i].forget();
    }
}

/// The dispatchers of a channel that is opened join. 60 where there is no memory.
fn open_dispatchers(
    alloc: Global,
    channel: u8,
    funder: Node,
    fundee: Node,
    dispatchers: &mut Vec<Dispatcher>,
) -> Result<(), Refusal>
    ensures joined { OnOk result (dispatchers_of dispatchers.new.items
        ≡ dispatchers_of dispatchers.old.items ++ new_dispatchers channel funder fundee) }
    ensures keep { (decided : End → Role → ℕ) → AllKeep decided dispatchers.old.items
        → AllKeep decided dispatchers.new.items }
    ensures fails_for_memory_alone { IfErr result (λ e. e ≡ refusal.Memory) }
{
    let first = End {
        node: funder,
        channel,
    };
    let second = End {
        node: fundee,
        channel,
    };
    dispatchers.push(Dispatcher::new(alloc, first, Role::Funder))?;
    dispatchers.push(Dispatcher::new(alloc, second, Role::Fundee))?;
    Ok(())
}

/// What can't be taken is idle. 60 where there is no memory.
fn idle(what: Act, lines: &mut Vec<Line>) -> Result<(), Refusal>
    ensures told { OnOk result (lines.new.items ≡ lines.old.items ++ line.Idle ∷ []) }
    ensures fails_for_memory_alone { IfErr result (λ e. e ≡ refusal.Memory) }
{
    drop(what);
    lines.push(Line::Idle)?;
    Ok(())
}

/// Nodes with their channels, and what is written down of the dispatchers of the channels' ends. Of hooks it has the
/// places alone.
#[derive(Drop)]
pub struct Nodes<K: ChannelKeys + Copy> {
    channels: Channels<K>,
    dispatchers: Vec<Dispatcher>,
    used: Vec<usize>,
    hooks: usize,
}

impl<K: ChannelKeys + Copy> Model for Nodes<K> {
    ghost use Rattle.ln_world_dispatch.specs.World.{World as WorldState};
    ghost use Rattle.ln_world_dispatch.specs.Kept.{dispatchers_of, decided_at, AllKeep};

    ghost Value = { WorldState K };

    ghost view = { λ w. record {
      channels = w.channels;
      dispatchers = dispatchers_of w.dispatchers.items;
      used = w.used.items;
      hooks = w.hooks;
    } };

    // what the dispatchers don't keep, their ends have decided
    ghost invariant = { λ w. AllKeep (decided_at w.channels) w.dispatchers.items };
}

impl<K: ChannelKeys + Copy> Nodes<K> {
    ghost use Rattle.std.specs.Prelude.{◌≡◌, ◌<◌, ◌++◌, length, position, option_map, OnOk, IfOk, IfErr, IfSome};
    ghost use Rattle.ln_hooks.specs.declared.verdict.Verdict.TheVariants.{Continue};
    ghost use Rattle.ln_world_channels.specs.World as channels;
    ghost use Rattle.ln_world_channels.specs.Failing as failing;
    ghost use Rattle.ln_world_dispatch.specs.declared.step.Step.TheVariants as step;
    ghost use Rattle.ln_world_dispatch.specs.Dispatcher.{at_dispatcher, is_at, serving};
    ghost use Rattle.ln_world_dispatch.specs.World.{empty, next_event, is_unused, may_register, happens, step_lines};
    ghost use Rattle.ln_world_dispatch.specs.World.{is_dispatched, may_act, waiting, new_dispatchers, all_restart};
    ghost use Rattle.ln_world_dispatch.specs.World.{run, run_lines, unhooked, MayFail, SomeMayFail};
    ghost use Rattle.ln_world_dispatch.specs.Kept.{dispatchers_of};

    /// Nothing was set, no channel is open, and so many hooks were handed in. Takes no memory.
    pub fn new(alloc: Global, hooks: usize) -> Nodes<K>
        ensures { result ≡ empty hooks }
    {
        Nodes {
            channels: Channels::new(alloc),
            dispatchers: Vec::new(alloc),
            used: Vec::new(alloc),
            hooks,
        }
    }

    /// The dispatchers, two for each channel, in the order in which the channels were opened.
    pub(crate) fn dispatchers(&self) -> &[Dispatcher]
        ensures { dispatchers_of result.now ≡ self.now.dispatchers }
    {
        &self.dispatchers
    }

    /// Where the dispatcher of an end stands.
    pub(crate) fn place(&self, end: End) -> Option<usize>
        ensures place { result ≡ position (is_at end) self.now.dispatchers }
        ensures within { IfSome result (λ i. i < length self.now.dispatchers) }
    {
        index_of(&self.dispatchers, end)
    }

    /// Whether a channel is opened by this wish.
    pub(crate) fn may_open(&self, wish: &Open<K>) -> bool
        ensures { result ≡ channels.may_open wish.now self.now.channels }
    {
        self.channels.may_open(wish)
    }

    /// What was set for the nodes, and their channels.
    pub fn channels(&self) -> &Channels<K>
        ensures { result.now ≡ self.now.channels }
    {
        &self.channels
    }

    // A decision is of an event that the end's dispatcher has dispatched.
    fn is_dispatched(&self, end: End, what: &Act) -> bool
        ensures { result ≡ is_dispatched end what.now self.now }
    {
        match what {
            Act::Send(Command::Decide { event, .. }) => is_below_next(
                &self.dispatchers,
                end,
                *event,
            ),
            _ => true,
        }
    }

    /// Whether an end can act so: it is there, a message is in flight to it where it is to take one, and its dispatcher
    /// has dispatched the event that it is to decide. Takes no memory.
    pub fn may_act(&self, end: End, what: &Act) -> bool
        ensures { result ≡ may_act end what.now self.now }
    {
        self.is_dispatched(end, what) && self.channels.may_act(end, what)
    }

    /// The event that waits for an end's decision: the first that the end hasn't decided, where its dispatcher has
    /// dispatched it in this epoch. With it come its number, and what the hooks said of it. Takes no memory.
    pub fn waiting(&self, end: End) -> Option<(u64, &ChannelEvent, Verdict)>
        ensures { option_map (λ p. (p.0, p.1.now, p.2)) result ≡ waiting end self.now }
    {
        match dispatcher_at(&self.dispatchers, end) {
            None => None,
            Some(dispatcher) => waiting(&self.channels, dispatcher),
        }
    }

    /// The event that an end's dispatcher serves next, with its number, where the end holds it. Takes memory for it: 60
    /// where there is none.
    pub(crate) fn next_event(
        &self,
        alloc: Global,
        end: End,
    ) -> Result<Option<(u64, ChannelEvent)>, Refusal>
        ensures event { IfOk result (λ e. e ≡ next_event end self.now) }
        ensures fails_for_memory_alone { IfErr result (λ e. e ≡ Refusal.Memory) }
    {
        next_event(alloc, &self.channels, &self.dispatchers, end)
    }

    /// The end's dispatcher has served the event, and its hooks said this. 60 where there is no memory.
    pub(crate) fn write(
        &mut self,
        end: End,
        event: ChannelEvent,
        verdict: Verdict,
    ) -> Result<(), Refusal>
        ensures written { OnOk result (self.new ≡ record {
          channels = self.old.channels;
          dispatchers = at_dispatcher end (serving event verdict) self.old.dispatchers;
          used = self.old.used;
          hooks = self.old.hooks;
        }) }
        ensures fails_for_memory_alone { IfErr result (λ e. e ≡ Refusal.Memory) }
    {
        write_at(&mut self.dispatchers, end, event, verdict)
    }

    // The end's dispatcher has served this, which is its next event, where there is one; no hook was called.
    fn serve(
        &mut self,
        end: End,
        next: Option<(u64, ChannelEvent)>,
        lines: &mut Vec<Line>,
    ) -> Result<(), Refusal>
        requires { next ≡ next_event end self.old }
        ensures world { OnOk result (self.new ≡ happens K.ChannelKeys Continue (step.Dispatch end) self.old) }
        ensures told { OnOk result (lines.new.items
            ≡ lines.old.items ++ step_lines K.ChannelKeys Continue (step.Dispatch end) self.old) }
        ensures fails_for_memory_alone { IfErr result (λ e. e ≡ Refusal.Memory) }
    {
        match next {
            None => lines.push(Line::Idle)?,
            Some((number, event)) => {
                self.write(end, event, Verdict::Continue)?;
                lines.push(Line::Dispatched(end, number, Verdict::Continue))?;
            }
        }
        Ok(())
    }

    // An end's dispatcher serves its next event, and calls no hook.
    fn dispatch(&mut self, alloc: Global, end: End, lines: &mut Vec<Line>) -> Result<(), Refusal>
        ensures world { OnOk result (self.new ≡ happens K.ChannelKeys Continue (step.Dispatch end) self.old) }
        ensures told { OnOk result (lines.new.items
            ≡ lines.old.items ++ step_lines K.ChannelKeys Continue (step.Dispatch end) self.old) }
        ensures fails_for_memory_alone { IfErr result (λ e. e ≡ Refusal.Memory) }
    {
        let next = self.next_event(alloc, end)?;
        self.serve(end, next, lines)
    }

    // The hook was handed in, and has no slot yet.
    fn is_unused(&self, hook: usize) -> bool
        ensures { result ≡ is_unused hook self.now }
    {
        hook < self.hooks && !was_used(&self.used, hook)
    }

    /// Whether the hook at this place was handed in and has no slot, and the end has a dispatcher. Takes no memory.
    pub(crate) fn may_register(&self, end: End, hook: usize) -> bool
        ensures { result ≡ may_register end hook self.now }
    {
        self.is_unused(hook) && has_dispatcher(&self.dispatchers, end)
    }

    // The hook at this place serves an end from its next event on, where it may.
    fn register(&mut self, end: End, hook: usize, lines: &mut Vec<Line>) -> Result<(), Refusal>
        ensures world { OnOk result (self.new ≡ happens K.ChannelKeys Continue (step.Register end hook) self.old) }
        ensures told { OnOk result (lines.new.items
            ≡ lines.old.items ++ step_lines K.ChannelKeys Continue (step.Register end hook) self.old) }
        ensures fails_for_memory_alone { IfErr result (λ e. e ≡ Refusal.Memory) }
    {
        if !self.may_register(end, hook) {
            lines.push(Line::Idle)?;
            return Ok(());
        }
        slot_at(&mut self.dispatchers, end, hook)?;
        self.used.push(hook)?;
        Ok(())
    }

    // A step that is about channels alone. After a refusal nothing is promised of them, nor of what isn't kept.
    fn pass(
        &mut self,
        alloc: Global,
        step: ChannelStep<K>,
        lines: &mut Vec<Line>,
    ) -> Result<(), Refusal>
        ensures world { OnOk result (self.new ≡ record {
          channels = channels.happens K.ChannelKeys step self.old.channels;
          dispatchers = self.old.dispatchers;
          used = self.old.used;
          hooks = self.old.hooks;
        }) }
        ensures told { OnOk result (lines.new.items
            ≡ lines.old.items ++ channels.step_lines K.ChannelKeys step self.old.channels) }
        ensures fails { IfErr result (λ e. failing.MayFail K.ChannelKeys step e self.old.channels) }
    {
        match self.channels.step(alloc, step, lines) {
            Ok(()) => Ok(()),
            Err(refusal) => {
                forget_each(&mut self.dispatchers);
                Err(refusal)
            }
        }
    }

    // An end has acted: its dispatcher lets go of the event that it has decided, if it has.
    fn let_go(&mut self, alloc: Global, end: End)
        ensures { self.new ≡ self.old }
    {
        let_go_at(alloc, &self.channels, &mut self.dispatchers, end);
    }

    // The dispatchers of a channel that is opened join.
    fn join(
        &mut self,
        alloc: Global,
        channel: u8,
        funder: Node,
        fundee: Node,
    ) -> Result<(), Refusal>
        ensures joined { OnOk result (self.new ≡ record {
          channels = self.old.channels;
          dispatchers = self.old.dispatchers ++ new_dispatchers channel funder fundee;
          used = self.old.used;
          hooks = self.old.hooks;
        }) }
        ensures fails_for_memory_alone { IfErr result (λ e. e ≡ Refusal.Memory) }
    {
        open_dispatchers(alloc, channel, funder, fundee, &mut self.dispatchers)
    }

    // The dispatchers of a node begin anew.
    fn begin_anew(&mut self, alloc: Global, node: Node)
        ensures { self.new ≡ record {
          channels = self.old.channels;
          dispatchers = all_restart node self.old.channels self.old.dispatchers;
          used = self.old.used;
          hooks = self.old.hooks;
        } }
    {
        restart_each(alloc, &self.channels, node, &mut self.dispatchers);
    }

    // An end acts, where that can be; its dispatcher lets go of the event that it has decided, if it has.
    fn act(
        &mut self,
        alloc: Global,
        end: End,
        what: Act,
        lines: &mut Vec<Line>,
    ) -> Result<(), Refusal>
        ensures world { OnOk result (self.new ≡ happens K.ChannelKeys Continue (step.Do end what) self.old) }
        ensures told { OnOk result (lines.new.items
            ≡ lines.old.items ++ step_lines K.ChannelKeys Continue (step.Do end what) self.old) }
        ensures fails { IfErr result (λ e. MayFail K.ChannelKeys (step.Do end what) e self.old) }
    {
        if !self.is_dispatched(end, &what) {
            return idle(what, lines);
        }
        self.pass(alloc, ChannelStep::Do(end, what), lines)?;
        self.let_go(alloc, end);
        Ok(())
    }

    // An end has no memory for an act, where it can act so.
    fn halt(
        &mut self,
        alloc: Global,
        end: End,
        what: Act,
        lines: &mut Vec<Line>,
    ) -> Result<(), Refusal>
        ensures world { OnOk result (self.new ≡ happens K.ChannelKeys Continue (step.NoMemory end what) self.old) }
        ensures told { OnOk result (lines.new.items
            ≡ lines.old.items ++ step_lines K.ChannelKeys Continue (step.NoMemory end what) self.old) }
        ensures fails { IfErr result (λ e. MayFail K.ChannelKeys (step.NoMemory end what) e self.old) }
    {
        if !self.is_dispatched(end, &what) {
            return idle(what, lines);
        }
        self.pass(alloc, ChannelStep::NoMemory(end, what), lines)
    }

    // The save of what an end comes to by an act fails, where it can act so; where its store has the record all the
    // same, its dispatcher lets go of the event that it has decided, if it has.
    fn fail_save(
        &mut self,
        alloc: Global,
        end: End,
        what: Act,
        left: RecordLeft,
        lines: &mut Vec<Line>,
    ) -> Result<(), Refusal>
        ensures world { OnOk result (self.new
            ≡ happens K.ChannelKeys Continue (step.SaveFails end what left) self.old) }
        ensures told { OnOk result (lines.new.items
            ≡ lines.old.items ++ step_lines K.ChannelKeys Continue (step.SaveFails end what left) self.old) }
        ensures fails { IfErr result (λ e. MayFail K.ChannelKeys (step.SaveFails end what left) e self.old) }
    {
        if !self.is_dispatched(end, &what) {
            return idle(what, lines);
        }
        self.pass(alloc, ChannelStep::SaveFails(end, what, left), lines)?;
        self.let_go(alloc, end);
        Ok(())
    }

    // A channel is opened, where it may be, and its ends get dispatchers.
    fn open(&mut self, alloc: Global, wish: Open<K>, lines: &mut Vec<Line>) -> Result<(), Refusal>
        ensures world { OnOk result (self.new ≡ happens K.ChannelKeys Continue (step.Open wish) self.old) }
        ensures told { OnOk result (lines.new.items
            ≡ lines.old.items ++ step_lines K.ChannelKeys Continue (step.Open wish) self.old) }
        ensures fails { IfErr result (λ e. MayFail K.ChannelKeys (step.Open wish) e self.old) }
    {
        let channel = wish.channel;
        let funder = wish.funder;
        let fundee = wish.fundee;
        let may_open = self.channels.may_open(&wish);
        self.pass(alloc, ChannelStep::Open(wish), lines)?;
        if may_open {
            self.join(alloc, channel, funder, fundee)?;
        }
        Ok(())
    }

    // A node restarts, and its dispatchers begin anew.
    fn restart(&mut self, alloc: Global, node: Node, lines: &mut Vec<Line>) -> Result<(), Refusal>
        ensures world { OnOk result (self.new ≡ happens K.ChannelKeys Continue (step.Restart node) self.old) }
        ensures told { OnOk result (lines.new.items
            ≡ lines.old.items ++ step_lines K.ChannelKeys Continue (step.Restart node) self.old) }
        ensures fails { IfErr result (λ e. MayFail K.ChannelKeys (step.Restart node) e self.old) }
    {
        self.pass(alloc, ChannelStep::Restart(node), lines)?;
        self.begin_anew(alloc, node);
        Ok(())
    }

    // A node stops before an act of its end, where that can act, and its dispatchers begin anew.
    fn stop_before(
        &mut self,
        alloc: Global,
        end: End,
        what: Act,
        lines: &mut Vec<Line>,
    ) -> Result<(), Refusal>
        ensures world { OnOk result (self.new ≡ happens K.ChannelKeys Continue (step.StopBefore end what) self.old) }
        ensures told { OnOk result (lines.new.items
            ≡ lines.old.items ++ step_lines K.ChannelKeys Continue (step.StopBefore end what) self.old) }
        ensures fails { IfErr result (λ e. MayFail K.ChannelKeys (step.StopBefore end what) e self.old) }
    {
        if !self.is_dispatched(end, &what) {
            return idle(what, lines);
        }
        let may_act = self.channels.may_act(end, &what);
        self.pass(alloc, ChannelStep::StopBefore(end, what), lines)?;
        if may_act {
            self.begin_anew(alloc, end.node);
        }
        Ok(())
    }

    // A node stops after an act of its end, where that can act, and its dispatchers begin anew.
    fn stop_after(
        &mut self,
        alloc: Global,
        end: End,
        what: Act,
        lines: &mut Vec<Line>,
    ) -> Result<(), Refusal>
        ensures world { OnOk result (self.new ≡ happens K.ChannelKeys Continue (step.StopAfter end what) self.old) }
        ensures told { OnOk result (lines.new.items
            ≡ lines.old.items ++ step_lines K.ChannelKeys Continue (step.StopAfter end what) self.old) }
        ensures fails { IfErr result (λ e. MayFail K.ChannelKeys (step.StopAfter end what) e self.old) }
    {
        if !self.is_dispatched(end, &what) {
            return idle(what, lines);
        }
        let may_act = self.channels.may_act(end, &what);
        self.pass(alloc, ChannelStep::StopAfter(end, what), lines)?;
        if may_act {
            self.begin_anew(alloc, end.node);
        }
        Ok(())
    }

    /// What happens in a step where no hook is called, and what is told of it, which joins the lines.
    ///
    /// Of channels it is as in `ln_world_channels::World::step`, but a decision can be sent only of an event that the
    /// end's dispatcher has dispatched. Where a channel opens, each of its ends gets a dispatcher, which begins at its
    /// first event. A dispatcher serves its next event where its end holds that by now; it reads the event from what
    /// the end hasn't decided, by its number. A hook gets a slot with the dispatcher of an end that is there, where it
    /// was handed in and has none yet: it serves from the next event on. Where an end halts or reloads, its dispatcher
    /// goes on. Where a node restarts or stops, its dispatchers give up their hooks, and begin at the first event that
    /// isn't decided. What can't be done changes
    /// nothing, and `Line::Idle` is told.
    ///
    /// Errors: 60 where there is no memory; 70 where an end has no record as an act or the opening leaves it.
    pub fn step(
        &mut self,
        alloc: Global,
        step: Step<K>,
        lines: &mut Vec<Line>,
    ) -> Result<(), Refusal>
        ensures world { OnOk result (self.new ≡ happens K.ChannelKeys Continue step self.old) }
        ensures told { OnOk result (lines.new.items
            ≡ lines.old.items ++ step_lines K.ChannelKeys Continue step self.old) }
        ensures fails { IfErr result (λ e. MayFail K.ChannelKeys step e self.old) }
    {
        match step {
            Step::Fees(node, fees) => self.pass(alloc, ChannelStep::Fees(node, fees), lines),
            Step::Limits(node, limits) => {
                self.pass(alloc, ChannelStep::Limits(node, limits), lines)
            }
            Step::Open(wish) => self.open(alloc, wish, lines),
            Step::Do(end, what) => self.act(alloc, end, what, lines),
            Step::Down(end) => self.pass(alloc, ChannelStep::Down(end), lines),
            Step::NoMemory(end, what) => self.halt(alloc, end, what, lines),
            Step::SaveFails(end, what, left) => self.fail_save(alloc, end, what, left, lines),
            Step::Restart(node) => self.restart(alloc, node, lines),
            Step::Reload(end) => self.pass(alloc, ChannelStep::Reload(end), lines),
            Step::StopBefore(end, what) => self.stop_before(alloc, end, what, lines),
            Step::StopAfter(end, what) => self.stop_after(alloc, end, what, lines),
            Step::Up(number) => self.pass(alloc, ChannelStep::Up(number), lines),
            Step::Dispatch(end) => self.dispatch(alloc, end, lines),
            Step::Register(end, hook) => self.register(end, hook, lines),
        }
    }

    /// One step after the other. Errors: those of `step`.
    pub fn run(
        &mut self,
        alloc: Global,
        steps: Vec<Step<K>>,
        lines: &mut Vec<Line>,
    ) -> Result<(), Refusal>
        ensures world { OnOk result (self.new ≡ run K.ChannelKeys (unhooked steps.items) self.old) }
        ensures told { OnOk result (lines.new.items
            ≡ lines.old.items ++ run_lines K.ChannelKeys (unhooked steps.items) self.old) }
        ensures fails { IfErr result (λ e. SomeMayFail K.ChannelKeys (unhooked steps.items) e self.old) }
    {
        for step in steps {
            self.step(alloc, step, lines)?;
        }
        Ok(())
    }

    /// Where the ends of all channels stand, as `ln_world_channels::World::end_lines` tells it. 60 where there is no
    /// memory.
    pub fn end_lines(&self, alloc: Global) -> Result<Vec<EndLine>, Refusal>
        ensures lines { IfOk result (λ ls. ls.items ≡ channels.end_lines self.now.channels) }
        ensures fails_for_memory_alone { IfErr result (λ e. e ≡ Refusal.Memory) }
    {
        self.channels.end_lines(alloc)
    }
}

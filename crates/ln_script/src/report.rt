//! The report of steps, to a writer.

ghost use Rattle.std.specs.Prelude.{◌≡◌, ◌≢◌, ◌++◌, ◌⊎◌, ◌≤◌, [], length, map, OnOk, OnErr, IfOk, IfErr, string_bytes};
ghost use Rattle.std.specs.List.{flat_map};
ghost use Rattle.std.specs.Io.KnownBytes.{Appends};
ghost use Rattle.ln_refusals.specs.declared.refusal.Refusal.TheVariants.{Memory, Damaged, Io};
ghost use Rattle.ln_msgs.specs.Pings.Counted.{HasRisen};
ghost use Rattle.ln_msgs.specs.Pings.CountedView.{inner_of, failures_of};
ghost use Rattle.ln_msgs.specs.Pings.Written.{IsPartlyWritten};
ghost use Rattle.ln_world_channels.specs.World as channels;
ghost use Rattle.ln_world.specs.Hooked.{Steps};
ghost use Rattle.ln_script.specs.Keys.{toy};
ghost use Rattle.ln_script.specs.Report.{shown_line, shown_end, lines_text, ends_text, StepFails, StepsFail};
ghost use Rattle.ln_script.specs.Report.{StepTold, StepPartlyTold, StepsTold, Reports, ReportsPartly, report_text};
ghost use Rattle.ln_script.specs.Report.{unhooked};
ghost use Rattle.ln_script.specs.Telling.{AllStand, EachTold, StopsBy};
ghost use Rattle.ln_script.specs.Wide.{AreAsWide};

use crate::line::{put_end_line, put_line};
use crate::print::print_all;
use ln_keys::ToyKeys;
use ln_msgs::{Counted, write_out};
use ln_refusals::Refusal;
use ln_world::{EndLine, Line, Serve, Step, World, every_end_has_a_record};
use std::alloc::{AllocError, Global};
use std::io::Write;

fn put_shown_line(text: &mut String, line: &Line) -> Result<(), AllocError>
    ensures { OnOk result (string_bytes text.new ≡ string_bytes text.old ++ shown_line line.now) }
{
    put_line(text, line)?;
    text.push_str("\n")
}

fn put_shown_end(text: &mut String, line: &EndLine) -> Result<(), AllocError>
    ensures { OnOk result (string_bytes text.new ≡ string_bytes text.old ++ shown_end line.now) }
{
    put_end_line(text, line)?;
    text.push_str("\n")
}

fn put_lines(text: &mut String, lines: &[Line]) -> Result<(), AllocError>
    ensures { OnOk result (string_bytes text.new ≡ string_bytes text.old ++ flat_map shown_line lines.now) }
{
    for line in lines {
        put_shown_line(text, line)?;
    }
    Ok(())
}

fn put_end_lines(text: &mut String, lines: &[EndLine]) -> Result<(), AllocError>
    ensures { OnOk result (string_bytes text.new ≡ string_bytes text.old ++ flat_map shown_end lines.now) }
{
    for line in lines {
        put_shown_end(text, line)?;
    }
    Ok(())
}

/// The lines of a step that the world takes.
fn lines_of_step<H: Serve>(
    alloc: Global,
    world: &mut World<ToyKeys, H>,
    step: Step<ToyKeys>,
) -> Result<Vec<Line>, Refusal>
    requires { length world.old.dispatchers.hooks.tables.items ≡ length world.old.dispatchers.state.dispatchers }
    ensures stepped { IfOk result (λ v. Steps toy H.calls step
        (record { dispatchers = world.old.dispatchers.state; nodes = world.old.nodes.items })
        (map (λ t. (t.now.items, map (λ p. p.items) t.past.items)) world.old.dispatchers.hooks.tables.items)
        world.old.dispatchers.hooks.offered.items
        (record { dispatchers = world.new.dispatchers.state; nodes = world.new.nodes.items })
        (map (λ t. (t.now.items, map (λ p. p.items) t.past.items)) world.new.dispatchers.hooks.tables.items)
        world.new.dispatchers.hooks.offered.items [] v.items) }
    ensures fails { IfErr result (λ e. StepFails step e
        (record { dispatchers = world.old.dispatchers.state; nodes = world.old.nodes.items })) }
{
    let mut lines = Vec::new(alloc);
    world.step(alloc, step, &mut lines)?;
    Ok(lines)
}

/// What is told by lines.
fn text_of_lines(alloc: Global, lines: &[Line]) -> Result<String, Refusal>
    ensures text { IfOk result (λ s. string_bytes s ≡ lines_text lines.now) }
    ensures fails_for_memory_alone { IfErr result (λ e. e ≡ Memory) }
{
    let mut text = String::new(alloc);
    put_lines(&mut text, lines)?;
    Ok(text)
}

/// How the ends of a world's channels stand.
fn text_of_ends<H: Serve>(alloc: Global, world: &World<ToyKeys, H>) -> Result<String, Refusal>
    ensures text { IfOk result (λ s. string_bytes s ≡ ends_text world.now.dispatchers.state.channels) }
    ensures fails_for_memory_alone { IfErr result (λ e. e ≡ Memory) }
{
    let lines = world.end_lines(alloc)?;
    let mut text = String::new(alloc);
    put_end_lines(&mut text, lines.as_slice())?;
    Ok(text)
}

/// Writes a text.
fn print_text<W: Write>(writer: &mut Counted<W>, text: &str) -> Result<(), Refusal>
    ensures prints_it { OnOk result (Appends (W.contents (inner_of writer.old)) (W.contents (inner_of writer.new))
        text.now) }
    ensures front { IsPartlyWritten (W.contents (inner_of writer.old)) (W.contents (inner_of writer.new)) text.now }
    ensures cause { IfErr result (λ e. (e ≡ Io) × HasRisen (failures_of writer.old) (failures_of writer.new)) }
    ensures no_fewer_failures { failures_of writer.old ≤ failures_of writer.new }
{
    write_out(text.as_bytes(), writer)?;
    Ok(())
}

/// Writes what is told by lines.
fn print_lines<W: Write>(
    alloc: Global,
    lines: &[Line],
    writer: &mut Counted<W>,
) -> Result<(), Refusal>
    ensures prints_it { OnOk result (Appends (W.contents (inner_of writer.old)) (W.contents (inner_of writer.new))
        (lines_text lines.now)) }
    ensures front { IsPartlyWritten (W.contents (inner_of writer.old)) (W.contents (inner_of writer.new))
        (lines_text lines.now) }
    ensures cause { IfErr result (λ e. (e ≡ Memory)
        ⊎ ((e ≡ Io) × HasRisen (failures_of writer.old) (failures_of writer.new))) }
    ensures no_fewer_failures { failures_of writer.old ≤ failures_of writer.new }
{
    let text = text_of_lines(alloc, lines)?;
    print_text(writer, text.as_str())
}

/// Writes what is told of a step that the world takes.
fn print_step<W: Write, H: Serve>(
    alloc: Global,
    world: &mut World<ToyKeys, H>,
    step: Step<ToyKeys>,
    writer: &mut Counted<W>,
) -> Result<(), Refusal>
    requires { length world.old.dispatchers.hooks.tables.items ≡ length world.old.dispatchers.state.dispatchers }
    ensures prints_it { OnOk result (StepTold H.calls step
        (record { dispatchers = world.old.dispatchers.state; nodes = world.old.nodes.items })
        (map (λ t. (t.now.items, map (λ p. p.items) t.past.items)) world.old.dispatchers.hooks.tables.items)
        world.old.dispatchers.hooks.offered.items
        (record { dispatchers = world.new.dispatchers.state; nodes = world.new.nodes.items })
        (map (λ t. (t.now.items, map (λ p. p.items) t.past.items)) world.new.dispatchers.hooks.tables.items)
        world.new.dispatchers.hooks.offered.items
        (W.contents (inner_of writer.old)) (W.contents (inner_of writer.new))) }
    ensures front { OnErr result (StepPartlyTold H.calls step
        (record { dispatchers = world.old.dispatchers.state; nodes = world.old.nodes.items })
        (map (λ t. (t.now.items, map (λ p. p.items) t.past.items)) world.old.dispatchers.hooks.tables.items)
        world.old.dispatchers.hooks.offered.items
        (W.contents (inner_of writer.old)) (W.contents (inner_of writer.new))) }
    ensures cause { IfErr result (λ e. StepFails step e
        (record { dispatchers = world.old.dispatchers.state; nodes = world.old.nodes.items })
        ⊎ ((e ≡ Io) × HasRisen (failures_of writer.old) (failures_of writer.new))) }
    ensures no_fewer_failures { failures_of writer.old ≤ failures_of writer.new }
{
    let lines = lines_of_step(alloc, world, step)?;
    print_lines(alloc, lines.as_slice(), writer)
}

/// Writes what is told of steps that a world takes: of each before the next is taken.
pub fn print_each<W: Write, H: Serve>(
    alloc: Global,
    world: &mut World<ToyKeys, H>,
    steps: Vec<Step<ToyKeys>>,
    writer: &mut Counted<W>,
) -> Result<(), Refusal>
    requires { AllStand H.calls (record {
      world = record { dispatchers = world.old.dispatchers.state; nodes = world.old.nodes.items };
      tables = map (λ t. (t.now.items, map (λ p. p.items) t.past.items)) world.old.dispatchers.hooks.tables.items;
      left = world.old.dispatchers.hooks.offered.items;
      written = W.contents (inner_of writer.old);
    }) }
    ensures prints_it { OnOk result (EachTold H.calls steps.items (record {
      world = record { dispatchers = world.old.dispatchers.state; nodes = world.old.nodes.items };
      tables = map (λ t. (t.now.items, map (λ p. p.items) t.past.items)) world.old.dispatchers.hooks.tables.items;
      left = world.old.dispatchers.hooks.offered.items;
      written = W.contents (inner_of writer.old);
    }) (record {
      world = record { dispatchers = world.new.dispatchers.state; nodes = world.new.nodes.items };
      tables = map (λ t. (t.now.items, map (λ p. p.items) t.past.items)) world.new.dispatchers.hooks.tables.items;
      left = world.new.dispatchers.hooks.offered.items;
      written = W.contents (inner_of writer.new);
    })) }
    ensures stops { IfErr result (λ e. StopsBy H.calls (HasRisen (failures_of writer.old) (failures_of writer.new)) e
        steps.items (record {
          world = record { dispatchers = world.old.dispatchers.state; nodes = world.old.nodes.items };
          tables = map (λ t. (t.now.items, map (λ p. p.items) t.past.items)) world.old.dispatchers.hooks.tables.items;
          left = world.old.dispatchers.hooks.offered.items;
          written = W.contents (inner_of writer.old);
        })
        (W.contents (inner_of writer.new))) }
    ensures no_fewer_failures { failures_of writer.old ≤ failures_of writer.new }
{
    for step in steps {
        print_step(alloc, world, step, writer)?;
    }
    Ok(())
}

/// Writes what is told of steps that a world takes in which nothing is set and no channel is open, and to which these
/// hooks were handed in (`print_each`).
fn print_steps<W: Write, H: Serve>(
    alloc: Global,
    steps: Vec<Step<ToyKeys>>,
    hooks: Vec<H>,
    writer: &mut Counted<W>,
) -> Result<World<ToyKeys, H>, Refusal>
    ensures prints_it { IfOk result (λ w. StepsTold H.calls hooks.items steps.items
        (record { dispatchers = w.dispatchers.state; nodes = w.nodes.items })
        (map (λ t. (t.now.items, map (λ p. p.items) t.past.items)) w.dispatchers.hooks.tables.items)
        w.dispatchers.hooks.offered.items
        (W.contents (inner_of writer.old)) (W.contents (inner_of writer.new))) }
    ensures front { OnErr result (ReportsPartly H.calls hooks.items steps.items
        (W.contents (inner_of writer.old)) (W.contents (inner_of writer.new))) }
    ensures cause { IfErr result (λ e. StepsFail (length hooks.items) steps.items e
        ⊎ ((e ≡ Io) × HasRisen (failures_of writer.old) (failures_of writer.new))) }
    ensures no_fewer_failures { failures_of writer.old ≤ failures_of writer.new }
{
    let mut world = World::new(alloc, hooks)?;
    print_each(alloc, &mut world, steps, writer)?;
    Ok(world)
}

/// Writes how the ends of a world's channels stand, and flushes the writer.
pub fn print_ends<W: Write, H: Serve>(
    alloc: Global,
    world: &World<ToyKeys, H>,
    writer: &mut Counted<W>,
) -> Result<(), Refusal>
    ensures prints_it { OnOk result (Appends (W.contents (inner_of writer.old)) (W.contents (inner_of writer.new))
        (ends_text world.now.dispatchers.state.channels)) }
    ensures front { IsPartlyWritten (W.contents (inner_of writer.old)) (W.contents (inner_of writer.new))
        (ends_text world.now.dispatchers.state.channels) }
    ensures cause { IfErr result (λ e. (e ≡ Memory)
        ⊎ ((e ≡ Io) × HasRisen (failures_of writer.old) (failures_of writer.new))) }
{
    let text = text_of_ends(alloc, world)?;
    print_all(writer, text.as_str())
}

/// Writes what is told of steps, from a world in which nothing is set and no channel is open, and to which these hooks
/// are handed in, which steps name by their places in the list: what was told of a step before the next is taken, and
/// at last how the ends of each channel stand. A hook is called once on each event that its dispatcher serves, and
/// what is told of the event is by what it answers. Takes memory for the world and for the text of one step.
///
/// Errors: 60 where there is no memory; 63 where a call of the writer fails; 70 where an end acts and has no record
/// then, which is never so of steps that a script brings (`ln_world::every_end_has_a_record`). What was written by
/// then is a beginning of the report.
pub fn print_report<W: Write, H: Serve>(
    alloc: Global,
    steps: Vec<Step<ToyKeys>>,
    hooks: Vec<H>,
    writer: &mut Counted<W>,
) -> Result<(), Refusal>
    ensures prints_it { OnOk result (Reports H.calls hooks.items steps.items
        (W.contents (inner_of writer.old)) (W.contents (inner_of writer.new))) }
    ensures front { OnErr result (ReportsPartly H.calls hooks.items steps.items
        (W.contents (inner_of writer.old)) (W.contents (inner_of writer.new))) }
    ensures without_hooks { hooks.items ≡ [] → OnOk result (Appends (W.contents (inner_of writer.old))
        (W.contents (inner_of writer.new)) (report_text 0 (unhooked steps.items))) }
    ensures cause { IfErr result (λ e. StepsFail (length hooks.items) steps.items e
        ⊎ ((e ≡ Io) × HasRisen (failures_of writer.old) (failures_of writer.new))) }
    ensures finds_each_record { AreAsWide steps.items → IfErr result (λ e. e ≢ Damaged) }
{
    every_end_has_a_record::<ToyKeys>();
    let world = print_steps(alloc, steps, hooks, writer)?;
    print_ends(alloc, &world, writer)
}

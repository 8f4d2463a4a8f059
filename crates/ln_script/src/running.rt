//! Scripts that run: each line is read when those before it are told.

ghost use Rattle.std.specs.Prelude.{◌≡◌, ◌⊎◌, ◌≤◌, ℕ, List, None, Some, Ok, Err, length, map, OnOk, OnErr, IfOk, IfErr};
ghost use Rattle.ln_refusals.specs.declared.refusal.Refusal.TheVariants.{Memory, BadScript, Io};
ghost use Rattle.ln_msgs.specs.Pings.Counted.{HasRisen};
ghost use Rattle.ln_msgs.specs.Pings.CountedView.{inner_of, failures_of};
ghost use Rattle.ln_script.specs.Step.{texts, numbered, ToyStep};
ghost use Rattle.ln_script.specs.Script.{line_at, steps_from, script_at};
ghost use Rattle.ln_script.specs.Report.{StepsTold, StepsFail, ReportsPartly, ReportsScript, ReportsScriptPartly};

use crate::laws::steps_are_wide;
use crate::reading::{lines_of, place_hooks, read_line};
use crate::report::{print_each, print_ends};
use ln_keys::ToyKeys;
use ln_msgs::Counted;
use ln_refusals::Refusal;
use ln_world::{Serve, Step, World, every_end_has_a_record};
use std::alloc::Global;
use std::io::Write;

/// The steps of a line, whose hooks have no places yet. 64 with the line's number where it is none of a script.
fn steps_of_line(alloc: Global, number: u64, line: &str) -> Result<Vec<Step<ToyKeys>>, Refusal>
    ensures read { IfOk result (λ steps. line_at line.now ≡ Some steps.items) }
    ensures refused { IfErr result (λ e. (e ≡ Memory) ⊎ ((e ≡ BadScript number) × (line_at line.now ≡ None))) }
{
    let mut steps = Vec::new(alloc);
    if !read_line(alloc, line, &mut steps)? {
        return Err(Refusal::BadScript { line: number });
    }
    Ok(steps)
}

/// Looks for the first line that isn't one of a script.
fn check_lines(alloc: Global, lines: &[&str]) -> Result<(), Refusal>
    ensures good { OnOk result ((steps : List ToyStep) × (steps_from 1 (texts lines.now) ≡ Ok steps)) }
    ensures refused { IfErr result (λ e. (e ≡ Memory)
        ⊎ ((line : ℕ) × (e ≡ BadScript line) × (steps_from 1 (texts lines.now) ≡ Err line))) }
{
    for (number, line) in lines.iter().enumerate() {
        steps_of_line(alloc, number as u64 + 1, line)?;
    }
    Ok(())
}

/// Writes what is told of the steps of these lines, each of which is read when those before it are told. The world is
/// one in which nothing is set and no channel is open, and to which these hooks were handed in.
fn print_lines<W: Write, H: Serve>(
    alloc: Global,
    lines: &[&str],
    hooks: Vec<H>,
    writer: &mut Counted<W>,
) -> Result<World<ToyKeys, H>, Refusal>
    ensures prints_it { (steps : List ToyStep) → steps_from 1 (texts lines.now) ≡ Ok steps
        → IfOk result (λ w. StepsTold H.calls hooks.items (numbered 0 steps)
        (record { dispatchers = w.dispatchers.state; nodes = w.nodes.items })
        (map (λ t. (t.now.items, map (λ p. p.items) t.past.items)) w.dispatchers.hooks.tables.items)
        w.dispatchers.hooks.offered.items
        (W.contents (inner_of writer.old)) (W.contents (inner_of writer.new))) }
    ensures front { (steps : List ToyStep) → steps_from 1 (texts lines.now) ≡ Ok steps
        → OnErr result (ReportsPartly H.calls hooks.items (numbered 0 steps)
        (W.contents (inner_of writer.old)) (W.contents (inner_of writer.new))) }
    ensures cause { (steps : List ToyStep) → steps_from 1 (texts lines.now) ≡ Ok steps
        → IfErr result (λ e. StepsFail (length hooks.items) (numbered 0 steps) e
        ⊎ ((e ≡ Io) × HasRisen (failures_of writer.old) (failures_of writer.new))) }
    ensures no_fewer_failures { failures_of writer.old ≤ failures_of writer.new }
{
    let mut world = World::new(alloc, hooks)?;
    let mut place = 0;
    for (number, line) in lines.iter().enumerate() {
        let mut steps = steps_of_line(alloc, number as u64 + 1, line)?;
        place = place_hooks(&mut steps, place);
        print_each(alloc, &mut world, steps, writer)?;
    }
    Ok(world)
}

/// Runs a script over a world that these hooks are handed in to, and writes its report, as `print_report` does of the
/// steps of `read_script`; but the steps of a line are made when those of the lines before are told, so no more than
/// one line's are there at a time. Looks at all lines first. Takes memory for the places of the lines in the text, the
/// steps of one line, the world, and the text of one step.
///
/// Errors: 64 with the number of the first line that isn't one of a script, as `read_script`, and then nothing was
/// written; 60 where there is no memory; 63 where a call of the writer fails. What was written by then is a beginning
/// of the report.
pub fn report_script<W: Write, H: Serve>(
    alloc: Global,
    text: &str,
    hooks: Vec<H>,
    writer: &mut Counted<W>,
) -> Result<(), Refusal>
    ensures prints_it { OnOk result (ReportsScript H.calls hooks.items (script_at text.now)
        (W.contents (inner_of writer.old)) (W.contents (inner_of writer.new))) }
    ensures front { OnErr result (ReportsScriptPartly H.calls hooks.items (script_at text.now)
        (W.contents (inner_of writer.old)) (W.contents (inner_of writer.new))) }
    ensures refused { IfErr result (λ e. (e ≡ Memory)
        ⊎ ((line : ℕ) × (e ≡ BadScript line) × (script_at text.now ≡ Err line) × (writer.new ≡ writer.old))
        ⊎ ((e ≡ Io) × HasRisen (failures_of writer.old) (failures_of writer.new))) }
{
    let pieces = lines_of(alloc, text)?;
    let lines = pieces.as_slice();
    check_lines(alloc, lines)?;
    steps_are_wide();
    every_end_has_a_record::<ToyKeys>();
    let world = print_lines(alloc, lines, hooks, writer)?;
    print_ends(alloc, &world, writer)
}

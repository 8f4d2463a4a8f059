//! Scripts: the steps of their lines.

ghost use Rattle.std.specs.Prelude.{◌≡◌, ℕ, ◌⊎◌, ◌++◌, ◌+◌, ◌<◌, ◌≤◌, Ok, Err, OnOk, IfOk, IfErr};
ghost use Rattle.std.specs.List.{flat_map, count_by};
ghost use Rattle.ln_refusals.specs.declared.refusal.Refusal.TheVariants.{Memory, BadScript};
ghost use Rattle.ln_script.specs.Step.{texts, if_good, joined, with_place, is_hook, next_place, numbered};
ghost use Rattle.ln_script.specs.Script.{lines, words, is_skipped, line_at, steps_from, script_at, hooks_at};
ghost use Rattle.ln_script.specs.Script.{line_hooks};
ghost use Rattle.ln_script.specs.Script.{word_hooks, hooks_by, script_hooks};
ghost use Rattle.ln_script.specs.Hook.{hooked_at};

use crate::hook::{HookLine, hooked_by};
use crate::step::push_steps;
use ln_keys::ToyKeys;
use ln_refusals::Refusal;
use ln_world::Step;
use std::alloc::{AllocError, Global};

/// The lines of a text.
pub fn lines_of(alloc: Global, text: &str) -> Result<Vec<&str>, AllocError>
    ensures { IfOk result (λ v. texts v.items ≡ lines text.now) }
{
    text.split('\n').collect(alloc)
}

/// The words of a line.
pub(crate) fn words_of(alloc: Global, line: &str) -> Result<Vec<&str>, AllocError>
    ensures { IfOk result (λ v. texts v.items ≡ words line.now) }
{
    line.split(' ').collect(alloc)
}

/// Whether nothing is asked for by a line.
fn is_empty_or_comment(line: &str) -> bool
    ensures { result ≡ is_skipped line.now }
{
    match line.as_bytes() {
        [] => true,
        [b'#', ..] => true,
        _ => false,
    }
}

/// Appends the steps of a line, and answers whether it is a line of a script.
pub fn read_line(alloc: Global, line: &str, steps: &mut Vec<Step<ToyKeys>>) -> Result<bool, Refusal>
    ensures read { IfOk result (λ good. if_good good steps.new.items ≡ joined steps.old.items (line_at line.now)) }
    ensures fails_for_memory_alone { IfErr result (λ e. e ≡ Memory) }
{
    if is_empty_or_comment(line) {
        return Ok(true);
    }
    let words = words_of(alloc, line)?;
    push_steps(alloc, words.as_slice(), steps)
}

/// A hook gets its place; then this is the next one's.
fn place_hook(step: &mut Step<ToyKeys>, place: usize) -> usize
    requires { place < usize.MAX }
    ensures placed { step.new ≡ with_place place step.old }
    ensures next { result ≡ next_place (is_hook step.old) place }
{
    match step {
        Step::Register(_, hook) => {
            *hook = place;
            place + 1
        }
        _ => place,
    }
}

/// The hooks get their places, in their order, the first of them this one; answers the place after the last.
pub fn place_hooks(steps: &mut Vec<Step<ToyKeys>>, first: usize) -> usize
    requires { first + count_by is_hook steps.old.items < usize.MAX }
    ensures placed { steps.new.items ≡ numbered first steps.old.items }
    ensures next { result ≡ first + count_by is_hook steps.old.items }
{
    let mut place = first;
    for i in 0..steps.len() {
        place = place_hook(&mut steps[i], place);
    }
    place
}

/// The steps of these lines, whose hooks have no places yet.
fn read_lines(alloc: Global, lines: &[&str]) -> Result<Vec<Step<ToyKeys>>, Refusal>
    ensures read { IfOk result (λ steps. steps_from 1 (texts lines.now) ≡ Ok steps.items) }
    ensures refused { IfErr result (λ e. (e ≡ Memory)
        ⊎ ((line : ℕ) × (e ≡ BadScript line) × (steps_from 1 (texts lines.now) ≡ Err line))) }
{
    let mut steps = Vec::new(alloc);
    for (number, line) in lines.iter().enumerate() {
        if !read_line(alloc, line, &mut steps)? {
            return Err(Refusal::BadScript {
                line: number as u64 + 1,
            });
        }
    }
    Ok(steps)
}

/// The steps of a script: those of its lines, in order. Takes memory for the lines and the steps.
///
/// Errors: 64 with the number of the first line that isn't one of a script, counted from 1, skipped lines too; 60 where
/// there is no memory.
pub fn read_script(alloc: Global, text: &str) -> Result<Vec<Step<ToyKeys>>, Refusal>
    ensures read { IfOk result (λ steps. script_at text.now ≡ Ok steps.items) }
    ensures refused { IfErr result (λ e. (e ≡ Memory)
        ⊎ ((line : ℕ) × (e ≡ BadScript line) × (script_at text.now ≡ Err line))) }
{
    let lines = lines_of(alloc, text)?;
    let mut steps = read_lines(alloc, lines.as_slice())?;
    place_hooks(&mut steps, 0);
    Ok(steps)
}

fn push_hooked(words: &[&str], hooks: &mut Vec<HookLine>) -> Result<(), AllocError>
    ensures { OnOk result (hooks.new.items ≡ hooks.old.items ++ hooks_by (hooked_at (texts words.now))) }
{
    match hooked_by(words) {
        Some(hooked) => {
            hooks.push(hooked.hook)?;
            Ok(())
        }
        None => Ok(()),
    }
}

fn push_by_word(word: &str, words: &[&str], hooks: &mut Vec<HookLine>) -> Result<(), AllocError>
    ensures { OnOk result (hooks.new.items ≡ hooks.old.items ++ word_hooks word.now (texts words.now)) }
{
    match word {
        "hook" => push_hooked(words, hooks),
        _ => Ok(()),
    }
}

/// Appends the hook that a line's words ask for, where they do.
fn push_hook(words: &[&str], hooks: &mut Vec<HookLine>) -> Result<(), AllocError>
    ensures { OnOk result (hooks.new.items ≡ hooks.old.items ++ hooks_at (texts words.now)) }
{
    match words {
        [word, rest @ ..] => push_by_word(word, rest, hooks),
        [] => Ok(()),
    }
}

/// Appends the hook that a line asks for, where it does.
#[tactic(auto, unfolding(crate::specs::Script::line_hooks))]
fn read_hook(alloc: Global, line: &str, hooks: &mut Vec<HookLine>) -> Result<(), AllocError>
    ensures { OnOk result (hooks.new.items ≡ hooks.old.items ++ line_hooks line.now) }
{
    if is_empty_or_comment(line) {
        return Ok(());
    }
    let words = words_of(alloc, line)?;
    push_hook(words.as_slice(), hooks)
}

/// The hooks that these lines ask for.
fn hooks_of(alloc: Global, lines: &[&str]) -> Result<Vec<HookLine>, AllocError>
    ensures { IfOk result (λ hooks. hooks.items ≡ flat_map line_hooks (texts lines.now)) }
{
    let mut hooks = Vec::new(alloc);
    for line in lines {
        read_hook(alloc, line, &mut hooks)?;
    }
    Ok(hooks)
}

/// The hooks of a script, in the order of their lines; other lines, bad ones too, give none. A script that is read has
/// as many steps that register one, each with its place here. Takes memory for the lines and the hooks: 60 where there
/// is none, the only error.
pub fn hook_lines(alloc: Global, text: &str) -> Result<Vec<HookLine>, Refusal>
    ensures hooks { IfOk result (λ hooks. hooks.items ≡ script_hooks text.now) }
    ensures fails_for_memory_alone { IfErr result (λ e. e ≡ Memory) }
{
    let lines = lines_of(alloc, text)?;
    Ok(hooks_of(alloc, lines.as_slice())?)
}

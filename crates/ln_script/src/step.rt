//! The steps of a line.

ghost use Rattle.std.specs.Prelude.{◌≡◌, ◌++◌, IfOk, IfErr, OnOk};
ghost use Rattle.ln_refusals.specs.declared.refusal.Refusal.TheVariants as refusal;
ghost use Rattle.ln_script.specs.Step.{texts, fees_line, limits_line, policy_line, setting_at, set_line, height_line};
ghost use Rattle.ln_script.specs.Step.{invoice_of, expect_line, dispatch_line, register_line, other_step_at};
ghost use Rattle.ln_script.specs.Step.{opening_at, open_line, up_line, down_line, restart_line, reload_line, end_line};
ghost use Rattle.ln_script.specs.Step.{command_line, act_line, do_line, round_line};
ghost use Rattle.ln_script.specs.Step.{step_at, confirms, delivers, ready_steps, ready_line, one_step};
ghost use Rattle.ln_script.specs.Step.{word_line, steps_at, if_good, joined, goes_on_at, fails_at, said_at};
ghost use Rattle.ln_script.specs.Step.{resume_at, resume_line};

use crate::command::{command_of, preimage_of};
use crate::hook::{hooked_by, lawful_code_of};
use crate::keys::partners_of;
use crate::word::{
    channel_of, decimal_of, end_of, node_of, number_of, number_of_32_bits, payment_of, short_id_of,
};
use ln_bytes::ShortId;
use ln_channel::Command;
use ln_close::Fees;
use ln_forward::Expected;
use ln_hooks::Verdict;
use ln_keys::ToyKeys;
use ln_log::Limits;
use ln_refusals::Refusal;
use ln_world::{Act, End, Invoice, Node, Open, Policy, Step};
use std::alloc::Global;

/// set X fees FIRST LEAST MOST
#[tactic(auto, unfolding(crate::specs::Step::fees_at))]
fn fees_line(node: Node, words: &[&str]) -> Option<Step<ToyKeys>>
    ensures { result ≡ fees_line node (texts words.now) }
{
    let [first, least, most] = words else {
        return None;
    };
    let first = decimal_of(first)?;
    let least = decimal_of(least)?;
    let greatest = decimal_of(most)?;
    if least <= first && first <= greatest {
        Some(Step::Fees(
            node,
            Fees {
                first,
                least,
                greatest,
            },
        ))
    } else {
        None
    }
}

/// set X limits MINIMUM ACCEPTED INFLIGHT RESERVE
#[tactic(auto, unfolding(crate::specs::Step::limits_at))]
fn limits_line(node: Node, words: &[&str]) -> Option<Step<ToyKeys>>
    ensures { result ≡ limits_line node (texts words.now) }
{
    let [minimum, accepted, in_flight, reserve] = words else {
        return None;
    };
    let minimum = decimal_of(minimum)?;
    let accepted = number_of(accepted, 0xffff)?;
    let in_flight = decimal_of(in_flight)?;
    let reserve = decimal_of(reserve)?;
    Some(Step::Limits(
        node,
        Limits {
            minimum,
            accepted: accepted as u16,
            in_flight,
            reserve,
        },
    ))
}

/// set X policy BASE PROPORTIONAL DELTA
#[tactic(auto, unfolding(crate::specs::Step::policy_at))]
fn policy_line(node: Node, words: &[&str]) -> Option<Step<ToyKeys>>
    ensures { result ≡ policy_line node (texts words.now) }
{
    let [base, proportional, delta] = words else {
        return None;
    };
    let base = number_of_32_bits(base)?;
    let proportional = number_of_32_bits(proportional)?;
    let delta = number_of(delta, 0xffff)?;
    Some(Step::Policy(
        node,
        Policy {
            base,
            proportional,
            delta: delta as u16,
        },
    ))
}

fn setting_of(node: Node, word: &str, words: &[&str]) -> Option<Step<ToyKeys>>
    ensures { result ≡ setting_at node word.now (texts words.now) }
{
    match word {
        "fees" => fees_line(node, words),
        "limits" => limits_line(node, words),
        "policy" => policy_line(node, words),
        _ => None,
    }
}

fn set_line(words: &[&str]) -> Option<Step<ToyKeys>>
    ensures { result ≡ set_line (texts words.now) }
{
    match words {
        [node, word, rest @ ..] => setting_of(node_of(node)?, word, rest),
        _ => None,
    }
}

/// height X H
fn height_line(words: &[&str]) -> Option<Step<ToyKeys>>
    ensures { result ≡ height_line (texts words.now) }
{
    match words {
        [node, height] => {
            let node = node_of(node)?;
            let height = number_of(height, 400_000_000)?;
            Some(Step::Height(node, height as u32))
        }
        _ => None,
    }
}

/// A payment of this number: its preimage and its secret are 32 bytes of the number.
#[tactic(auto, unfolding(crate::specs::Command::preimage_of))]
fn invoice_of(payment: u8, amount: u64) -> Invoice
    ensures { result ≡ invoice_of payment amount }
{
    Invoice {
        preimage: preimage_of(payment),
        expected: Expected {
            secret: [payment; 32],
            amount,
        },
    }
}

/// expect X N AMOUNT
#[tactic(auto, unfolding(crate::specs::Step::expect_at))]
fn expect_line(words: &[&str]) -> Option<Step<ToyKeys>>
    ensures { result ≡ expect_line (texts words.now) }
{
    let [node, payment, amount] = words else {
        return None;
    };
    let node = node_of(node)?;
    let payment = payment_of(payment)?;
    let amount = decimal_of(amount)?;
    Some(Step::Expect(node, invoice_of(payment, amount)))
}

/// open C X Y SATOSHIS PUSH
#[tactic(auto, unfolding(crate::specs::Step::opening_at))]
fn opening_of(
    channel: &str,
    funder: &str,
    fundee: &str,
    satoshis: &str,
    push: &str,
) -> Option<Open<ToyKeys>>
    ensures { result ≡ opening_at channel.now funder.now fundee.now satoshis.now push.now }
{
    let channel = channel_of(channel)?;
    let funder = node_of(funder)?;
    let fundee = node_of(fundee)?;
    let satoshis = decimal_of(satoshis)?;
    let push = decimal_of(push)?;
    Some(Open {
        channel,
        funder,
        fundee,
        satoshis,
        push,
        keys: partners_of(channel),
    })
}

fn open_line(words: &[&str]) -> Option<Step<ToyKeys>>
    ensures { result ≡ open_line (texts words.now) }
{
    match words {
        [channel, funder, fundee, satoshis, push] => Some(Step::Open(opening_of(
            channel, funder, fundee, satoshis, push,
        )?)),
        _ => None,
    }
}

/// up C
fn up_line(words: &[&str]) -> Option<Step<ToyKeys>>
    ensures { result ≡ up_line (texts words.now) }
{
    match words {
        [channel] => Some(Step::Up(channel_of(channel)?)),
        _ => None,
    }
}

/// down E
fn down_line(words: &[&str]) -> Option<Step<ToyKeys>>
    ensures { result ≡ down_line (texts words.now) }
{
    match words {
        [end] => Some(Step::Down(end_of(end)?)),
        _ => None,
    }
}

/// restart X
fn restart_line(words: &[&str]) -> Option<Step<ToyKeys>>
    ensures { result ≡ restart_line (texts words.now) }
{
    match words {
        [node] => Some(Step::Restart(node_of(node)?)),
        _ => None,
    }
}

/// reload E
fn reload_line(words: &[&str]) -> Option<Step<ToyKeys>>
    ensures { result ≡ reload_line (texts words.now) }
{
    match words {
        [end] => Some(Step::Reload(end_of(end)?)),
        _ => None,
    }
}

/// dispatch E
fn dispatch_line(words: &[&str]) -> Option<Step<ToyKeys>>
    ensures { result ≡ dispatch_line (texts words.now) }
{
    match words {
        [end] => Some(Step::Dispatch(end_of(end)?)),
        _ => None,
    }
}

/// hook E, and what the hook says: its place among the hooks of the script is given later
fn register_line(words: &[&str]) -> Option<Step<ToyKeys>>
    ensures { result ≡ register_line (texts words.now) }
{
    let hooked = hooked_by(words)?;
    Some(Step::Register(hooked.end, 0))
}

/// What an end does by a line.
#[derive(Drop)]
pub struct Doing {
    end: End,
    what: Act,
}

/// deliver E, take E or decide E
fn end_line(what: Act, words: &[&str]) -> Option<Doing>
    ensures { result ≡ end_line what (texts words.now) }
{
    match words {
        [end] => Some(Doing {
            end: end_of(end)?,
            what,
        }),
        _ => None,
    }
}

fn goes_on(words: &[&str]) -> Option<Verdict>
    ensures { result ≡ goes_on_at (texts words.now) }
{
    match words {
        [] => Some(Verdict::Continue),
        _ => None,
    }
}

/// CODE
fn fails(words: &[&str]) -> Option<Verdict>
    ensures { result ≡ fails_at (texts words.now) }
{
    match words {
        [code] => Some(Verdict::Fail(lawful_code_of(code)?)),
        _ => None,
    }
}

/// What is said of what is held: continue, or fail CODE.
fn said_by(word: &str, words: &[&str]) -> Option<Verdict>
    ensures { result ≡ said_at word.now (texts words.now) }
{
    match word {
        "continue" => goes_on(words),
        "fail" => fails(words),
        _ => None,
    }
}

/// resume E K, and what is said of it
#[tactic(auto, unfolding(crate::specs::Step::resume_at))]
fn resume_at(end: &str, number: &str, word: &str, words: &[&str]) -> Option<Doing>
    ensures { result ≡ resume_at end.now number.now word.now (texts words.now) }
{
    let end = end_of(end)?;
    let number = decimal_of(number)?;
    let verdict = said_by(word, words)?;
    Some(Doing {
        end,
        what: Act::Resume(number, verdict),
    })
}

fn resume_line(words: &[&str]) -> Option<Doing>
    ensures { result ≡ resume_line (texts words.now) }
{
    match words {
        [end, number, word, rest @ ..] => resume_at(end, number, word, rest),
        _ => None,
    }
}

/// A command's word, E, and what the command asks for.
#[tactic(auto, unfolding(crate::specs::Step::command_line))]
fn command_line(alloc: Global, word: &str, words: &[&str]) -> Result<Option<Doing>, Refusal>
    ensures doing { IfOk result (λ o. o ≡ command_line word.now (texts words.now)) }
    ensures fails_for_memory_alone { IfErr result (λ e. e ≡ refusal.Memory) }
{
    let [end, rest @ ..] = words else {
        return Ok(None);
    };
    let Some(end) = end_of(end) else {
        return Ok(None);
    };
    match command_of(alloc, end.node, word, rest)? {
        Some(command) => Ok(Some(Doing {
            end,
            what: Act::Send(command),
        })),
        None => Ok(None),
    }
}

/// What an end does, by a line's first word and those after it. 60 where there is no memory.
#[tactic(auto, unfolding(crate::specs::Step::act_line))]
fn act_line(alloc: Global, word: &str, words: &[&str]) -> Result<Option<Doing>, Refusal>
    ensures doing { IfOk result (λ o. o ≡ act_line word.now (texts words.now)) }
    ensures fails_for_memory_alone { IfErr result (λ e. e ≡ refusal.Memory) }
{
    match word {
        "deliver" => Ok(end_line(Act::Deliver, words)),
        "take" => Ok(end_line(Act::Take, words)),
        "decide" => Ok(end_line(Act::Decide, words)),
        "resume" => Ok(resume_line(words)),
        _ => command_line(alloc, word, words),
    }
}

/// An end acts.
fn do_line(alloc: Global, word: &str, words: &[&str]) -> Result<Option<Step<ToyKeys>>, Refusal>
    ensures step { IfOk result (λ o. o ≡ do_line word.now (texts words.now)) }
    ensures fails_for_memory_alone { IfErr result (λ e. e ≡ refusal.Memory) }
{
    match act_line(alloc, word, words)? {
        Some(doing) => Ok(Some(Step::Do(doing.end, doing.what))),
        None => Ok(None),
    }
}

/// What happens round an act.
#[derive(Clone, Copy)]
pub enum Round {
    StopBefore,
    StopAfter,
    NoMemory,
}

/// LINE, after stop-before, stop-after or no-memory
fn round_line(alloc: Global, round: Round, words: &[&str]) -> Result<Option<Step<ToyKeys>>, Refusal>
    ensures step { IfOk result (λ o. o ≡ round_line round (texts words.now)) }
    ensures fails_for_memory_alone { IfErr result (λ e. e ≡ refusal.Memory) }
{
    let [word, rest @ ..] = words else {
        return Ok(None);
    };
    let Some(doing) = act_line(alloc, word, rest)? else {
        return Ok(None);
    };
    Ok(Some(match round {
        Round::StopBefore => Step::StopBefore(doing.end, doing.what),
        Round::StopAfter => Step::StopAfter(doing.end, doing.what),
        Round::NoMemory => Step::NoMemory(doing.end, doing.what),
    }))
}

/// The step of a line that is about books or dispatchers, or of what an end does. 60 where there is no memory.
#[tactic(auto, unfolding(crate::specs::Step::other_step_at))]
fn other_step_of(
    alloc: Global,
    word: &str,
    words: &[&str],
) -> Result<Option<Step<ToyKeys>>, Refusal>
    ensures step { IfOk result (λ o. o ≡ other_step_at word.now (texts words.now)) }
    ensures fails_for_memory_alone { IfErr result (λ e. e ≡ refusal.Memory) }
{
    match word {
        "height" => Ok(height_line(words)),
        "expect" => Ok(expect_line(words)),
        "dispatch" => Ok(dispatch_line(words)),
        "hook" => Ok(register_line(words)),
        _ => do_line(alloc, word, words),
    }
}

/// The step of a line's first word and those after it, where they are one. 60 where there is no memory.
#[tactic(auto, unfolding(crate::specs::Step::step_at))]
fn step_of(alloc: Global, word: &str, words: &[&str]) -> Result<Option<Step<ToyKeys>>, Refusal>
    ensures step { IfOk result (λ o. o ≡ step_at word.now (texts words.now)) }
    ensures fails_for_memory_alone { IfErr result (λ e. e ≡ refusal.Memory) }
{
    match word {
        "set" => Ok(set_line(words)),
        "open" => Ok(open_line(words)),
        "up" => Ok(up_line(words)),
        "down" => Ok(down_line(words)),
        "restart" => Ok(restart_line(words)),
        "reload" => Ok(reload_line(words)),
        "stop-before" => round_line(alloc, Round::StopBefore, words),
        "stop-after" => round_line(alloc, Round::StopAfter, words),
        "no-memory" => round_line(alloc, Round::NoMemory, words),
        _ => other_step_of(alloc, word, words),
    }
}

/// An end that confirms a channel.
fn confirms(channel: u8, node: Node, id: ShortId) -> Step<ToyKeys>
    ensures { result ≡ confirms channel node id }
{
    Step::Do(End { node, channel }, Act::Send(Command::Confirm(id)))
}

/// An end that takes a message.
fn delivers(channel: u8, node: Node) -> Step<ToyKeys>
    ensures { result ≡ delivers channel node }
{
    Step::Do(End { node, channel }, Act::Deliver)
}

/// A channel is opened, both ends confirm it, and each takes what the other sends of that.
#[tactic(auto, unfolding(crate::specs::Step::ready_steps))]
fn push_ready(
    opening: Open<ToyKeys>,
    id: ShortId,
    steps: &mut Vec<Step<ToyKeys>>,
) -> Result<(), Refusal>
    ensures pushed { OnOk result (steps.new.items ≡ steps.old.items ++ ready_steps opening id) }
    ensures fails_for_memory_alone { IfErr result (λ e. e ≡ refusal.Memory) }
{
    let channel = opening.channel;
    let funder = opening.funder;
    let fundee = opening.fundee;
    steps.push(Step::Open(opening))?;
    steps.push(confirms(channel, funder, id))?;
    steps.push(confirms(channel, fundee, id))?;
    steps.push(delivers(channel, fundee))?;
    steps.push(delivers(channel, funder))?;
    Ok(())
}

/// ready C X Y SATOSHIS PUSH BxTxO
fn ready_line(words: &[&str], steps: &mut Vec<Step<ToyKeys>>) -> Result<bool, Refusal>
    ensures read { IfOk result (λ good. if_good good steps.new.items
        ≡ joined steps.old.items (ready_line (texts words.now))) }
    ensures fails_for_memory_alone { IfErr result (λ e. e ≡ refusal.Memory) }
{
    let [channel, funder, fundee, satoshis, push, id] = words else {
        return Ok(false);
    };
    let Some(opening) = opening_of(channel, funder, fundee, satoshis, push) else {
        return Ok(false);
    };
    let Some(id) = short_id_of(id) else {
        return Ok(false);
    };
    push_ready(opening, id, steps)?;
    Ok(true)
}

fn step_line(
    alloc: Global,
    word: &str,
    words: &[&str],
    steps: &mut Vec<Step<ToyKeys>>,
) -> Result<bool, Refusal>
    ensures read { IfOk result (λ good. if_good good steps.new.items
        ≡ joined steps.old.items (one_step (step_at word.now (texts words.now)))) }
    ensures fails_for_memory_alone { IfErr result (λ e. e ≡ refusal.Memory) }
{
    match step_of(alloc, word, words)? {
        Some(step) => {
            steps.push(step)?;
            Ok(true)
        }
        None => Ok(false),
    }
}

#[tactic(auto, unfolding(crate::specs::Step::word_line))]
fn word_line(
    alloc: Global,
    word: &str,
    words: &[&str],
    steps: &mut Vec<Step<ToyKeys>>,
) -> Result<bool, Refusal>
    ensures read { IfOk result (λ good. if_good good steps.new.items
        ≡ joined steps.old.items (word_line word.now (texts words.now))) }
    ensures fails_for_memory_alone { IfErr result (λ e. e ≡ refusal.Memory) }
{
    match word {
        "ready" => ready_line(words, steps),
        _ => step_line(alloc, word, words, steps),
    }
}

/// Appends the steps of a line's words, and answers whether they are a line's. 60 where there is no memory.
pub(crate) fn push_steps(
    alloc: Global,
    words: &[&str],
    steps: &mut Vec<Step<ToyKeys>>,
) -> Result<bool, Refusal>
    ensures read { IfOk result (λ good. if_good good steps.new.items
        ≡ joined steps.old.items (steps_at (texts words.now))) }
    ensures fails_for_memory_alone { IfErr result (λ e. e ≡ refusal.Memory) }
{
    match words {
        [word, rest @ ..] => word_line(alloc, word, rest, steps),
        [] => Ok(false),
    }
}

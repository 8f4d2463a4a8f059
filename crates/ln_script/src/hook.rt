//! The hooks of a script.

ghost use Rattle.std.specs.Prelude.{◌≡◌};
ghost use Rattle.ln_script.specs.Hook.{lawful, lawful_at, above_at, above_hook, hold_hook, count_hook, hook_at};
ghost use Rattle.ln_script.specs.Hook.{hook_of};
ghost use Rattle.ln_script.specs.Hook.{hooked_at};
ghost use Rattle.ln_script.specs.Step.{texts};

use crate::word::{code_of, decimal_of, end_of};
use ln_hooks::{ChannelEvent, FailureCode, Verdict};
use ln_world::{End, Serve};

/// A hook that a line of a script asks for.
#[derive(Clone, Copy, PartialEq, Eq)]
pub enum HookLine {
    /// It says nothing against any event.
    Count,
    /// It fails an HTLC of the peer's.
    Above {
        /// Where that is of more millisatoshi than these.
        amount: u64,
        /// For this reason.
        code: FailureCode,
    },
    /// It holds an HTLC of the peer's.
    Hold {
        /// Where that is of more millisatoshi than these.
        amount: u64,
    },
}

impl HookLine {
    ghost use Rattle.std.specs.Prelude.{◌≡◌};
    ghost use Rattle.ln_script.specs.Hook.{says};

    /// What it says of an event. Takes no memory.
    pub fn says(&self, event: &ChannelEvent) -> Verdict
        ensures { result ≡ says self.now event.now }
    {
        match *self {
            HookLine::Count => Verdict::Continue,
            HookLine::Above { amount, code } => match event {
                ChannelEvent::Added {
                    own: false,
                    amount: offered,
                    ..
                } if offered.value() > amount => Verdict::Fail(code),
                _ => Verdict::Continue,
            },
            HookLine::Hold { amount } => match event {
                ChannelEvent::Added {
                    own: false,
                    amount: offered,
                    ..
                } if offered.value() > amount => Verdict::Hold,
                _ => Verdict::Continue,
            },
        }
    }
}

impl Serve for HookLine {
    ghost use Rattle.ln_script.specs.Hook.{SaysOf};

    ghost calls = { λ hook event said after. SaysOf hook event said after };

    fn serve(&mut self, event: &ChannelEvent) -> Verdict {
        self.says(event)
    }
}

/// A hook and the end that it serves.
#[derive(Clone, Copy, PartialEq, Eq)]
pub struct Hooked {
    pub end: End,
    pub hook: HookLine,
}

/// The code of this number by which a hook may fail a payment.
fn lawful_code(number: u16) -> Option<FailureCode>
    ensures { result ≡ lawful number }
{
    FailureCode::new(number)
}

pub(crate) fn lawful_code_of(word: &str) -> Option<FailureCode>
    ensures { result ≡ lawful_at word.now }
{
    lawful_code(code_of(word)?)
}

/// AMOUNT CODE
fn above(amount: &str, code: &str) -> Option<HookLine>
    ensures { result ≡ above_at amount.now code.now }
{
    let amount = decimal_of(amount)?;
    let code = lawful_code_of(code)?;
    Some(HookLine::Above { amount, code })
}

fn above_hook(words: &[&str]) -> Option<HookLine>
    ensures { result ≡ above_hook (texts words.now) }
{
    match words {
        [amount, code] => above(amount, code),
        _ => None,
    }
}

fn hold_hook(words: &[&str]) -> Option<HookLine>
    ensures { result ≡ hold_hook (texts words.now) }
{
    match words {
        [amount] => Some(HookLine::Hold {
            amount: decimal_of(amount)?,
        }),
        _ => None,
    }
}

fn count_hook(words: &[&str]) -> Option<HookLine>
    ensures { result ≡ count_hook (texts words.now) }
{
    match words {
        [] => Some(HookLine::Count),
        _ => None,
    }
}

fn hook_by(word: &str, words: &[&str]) -> Option<HookLine>
    ensures { result ≡ hook_at word.now (texts words.now) }
{
    match word {
        "count" => count_hook(words),
        "above" => above_hook(words),
        "hold" => hold_hook(words),
        _ => None,
    }
}

/// E count, E above AMOUNT CODE, or E hold AMOUNT
#[tactic(auto, unfolding(crate::specs::Hook::hook_of))]
fn hook_at_end(end: &str, word: &str, words: &[&str]) -> Option<Hooked>
    ensures { result ≡ hook_of end.now word.now (texts words.now) }
{
    let end = end_of(end)?;
    let hook = hook_by(word, words)?;
    Some(Hooked { end, hook })
}

pub(crate) fn hooked_by(words: &[&str]) -> Option<Hooked>
    ensures { result ≡ hooked_at (texts words.now) }
{
    match words {
        [end, word, rest @ ..] => hook_at_end(end, word, rest),
        _ => None,
    }
}

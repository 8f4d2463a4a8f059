//! What is to stand in a line of a script, word by word.

ghost use Rattle.std.specs.Prelude.{◌≡◌, option_copied};
ghost use Rattle.ln_script.specs.Flaw.{setting_wants, hook_wants, verdict_wants, second, third, command_wants};
ghost use Rattle.ln_script.specs.Flaw.{act_wants, step_wants, line_wants};
ghost use Rattle.ln_script.specs.Step.{texts};

use crate::want::Want;

fn setting_wants(word: &str) -> &'static [Want]
    ensures { result.now ≡ setting_wants word.now }
{
    match word {
        "fees" => &[
            Want::Node,
            Want::Setting,
            Want::Number64,
            Want::Number64,
            Want::Number64,
        ],
        "limits" => &[
            Want::Node,
            Want::Setting,
            Want::Number64,
            Want::Number16,
            Want::Number64,
            Want::Number64,
        ],
        "policy" => &[
            Want::Node,
            Want::Setting,
            Want::Number32,
            Want::Number32,
            Want::Number16,
        ],
        _ => &[Want::Node, Want::Setting],
    }
}

fn hook_wants(word: &str) -> &'static [Want]
    ensures { result.now ≡ hook_wants word.now }
{
    match word {
        "above" => &[Want::End, Want::Hook, Want::Number64, Want::FailureCode],
        "hold" => &[Want::End, Want::Hook, Want::Number64],
        _ => &[Want::End, Want::Hook],
    }
}

fn verdict_wants(word: &str) -> &'static [Want]
    ensures { result.now ≡ verdict_wants word.now }
{
    match word {
        "fail" => &[Want::End, Want::Number64, Want::Verdict, Want::FailureCode],
        _ => &[Want::End, Want::Number64, Want::Verdict],
    }
}

/// The second of words; an empty one where there is none.
fn second<'a>(words: &[&'a str]) -> &'a str
    ensures { result.now ≡ second (texts words.now) }
{
    match words {
        [_, word, ..] => word,
        _ => "",
    }
}

/// The third of words; an empty one where there is none.
fn third<'a>(words: &[&'a str]) -> &'a str
    ensures { result.now ≡ third (texts words.now) }
{
    match words {
        [_, _, word, ..] => word,
        _ => "",
    }
}

fn command_wants(word: &str) -> Option<&'static [Want]>
    ensures { option_copied result ≡ command_wants word.now }
{
    match word {
        "confirm" => Some(&[Want::End, Want::ShortId]),
        "add" => Some(&[Want::End, Want::Number64, Want::Number32, Want::Payment]),
        "fulfil" => Some(&[Want::End, Want::Number64, Want::Payment]),
        "fail" => Some(&[Want::End, Want::Number64, Want::Code]),
        "malformed" => Some(&[Want::End, Want::Number64, Want::Code]),
        "fee" => Some(&[Want::End, Want::Number32]),
        "sign" => Some(&[Want::End]),
        "shutdown" => Some(&[Want::End]),
        _ => None,
    }
}

/// What is to stand after the first word of what an end does.
pub(crate) fn act_wants(word: &str, words: &[&str]) -> Option<&'static [Want]>
    ensures { option_copied result ≡ act_wants word.now (texts words.now) }
{
    match word {
        "deliver" => Some(&[Want::End]),
        "take" => Some(&[Want::End]),
        "decide" => Some(&[Want::End]),
        "resume" => Some(verdict_wants(third(words))),
        _ => command_wants(word),
    }
}

fn step_wants(word: &str, words: &[&str]) -> Option<&'static [Want]>
    ensures { option_copied result ≡ step_wants word.now (texts words.now) }
{
    match word {
        "up" => Some(&[Want::Channel]),
        "down" => Some(&[Want::End]),
        "restart" => Some(&[Want::Node]),
        "reload" => Some(&[Want::End]),
        "height" => Some(&[Want::Node, Want::Height]),
        "expect" => Some(&[Want::Node, Want::Payment, Want::Number64]),
        "dispatch" => Some(&[Want::End]),
        _ => act_wants(word, words),
    }
}

/// What is to stand after a line's first word.
#[tactic(auto, unfolding(crate::specs::Flaw::line_wants))]
pub(crate) fn line_wants(word: &str, words: &[&str]) -> Option<&'static [Want]>
    ensures { option_copied result ≡ line_wants word.now (texts words.now) }
{
    match word {
        "set" => Some(setting_wants(second(words))),
        "hook" => Some(hook_wants(second(words))),
        "open" => Some(&[
            Want::Channel,
            Want::Node,
            Want::Node,
            Want::Number64,
            Want::Number64,
        ]),
        "ready" => Some(&[
            Want::Channel,
            Want::Node,
            Want::Node,
            Want::Number64,
            Want::Number64,
            Want::ShortId,
        ]),
        _ => step_wants(word, words),
    }
}

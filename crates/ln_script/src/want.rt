//! What may stand in a line of a script.

ghost use Rattle.std.specs.Prelude.{◌≡◌, is_some};
ghost use Rattle.ln_script.specs.Flaw.{is_setting, is_hook, is_verdict, is_wanted};

use crate::hook::lawful_code_of;
use crate::word::{
    channel_of, code_of, decimal_of, end_of, node_of, number_of, number_of_32_bits, payment_of,
    short_id_of,
};

/// What is to stand in a line's place.
#[derive(Clone, Copy, PartialEq, Eq, Debug)]
pub enum Want {
    /// The first word of a line.
    Command,
    /// The first word of what an end does.
    Act,
    /// `fees`, `limits` or `policy`.
    Setting,
    /// `count`, `above` or `hold`.
    Hook,
    /// `continue` or `fail`.
    Verdict,
    /// A letter A to Z.
    Node,
    /// A channel's number, 0 to 99.
    Channel,
    /// A node and a channel.
    End,
    /// A decimal number of 64 bits without leading zeros.
    Number64,
    /// Such a number of 32 bits.
    Number32,
    /// Such a number of 16 bits.
    Number16,
    /// Such a number of 8 bits.
    Payment,
    /// Such a number, at most 400,000,000.
    Height,
    /// BLOCKxTXxOUTPUT.
    ShortId,
    /// Four hexadecimal digits.
    Code,
    /// Those by which a hook may fail a payment.
    FailureCode,
}

impl Want {
    ghost use Rattle.ln_script.specs.Flaw.{want_name};

    /// What it is called.
    pub fn name(self) -> &'static str
        ensures { result.now ≡ want_name self }
    {
        match self {
            Want::Command => "command",
            Want::Act => "act",
            Want::Setting => "setting",
            Want::Hook => "hook",
            Want::Verdict => "verdict",
            Want::Node => "node",
            Want::Channel => "channel",
            Want::End => "end",
            Want::Number64 => "number of 64 bits",
            Want::Number32 => "number of 32 bits",
            Want::Number16 => "number of 16 bits",
            Want::Payment => "payment",
            Want::Height => "block height",
            Want::ShortId => "short channel id",
            Want::Code => "code",
            Want::FailureCode => "failure code",
        }
    }
}

fn is_setting(word: &str) -> bool
    ensures { result ≡ is_setting word.now }
{
    match word {
        "fees" => true,
        "limits" => true,
        "policy" => true,
        _ => false,
    }
}

fn is_hook(word: &str) -> bool
    ensures { result ≡ is_hook word.now }
{
    match word {
        "count" => true,
        "above" => true,
        "hold" => true,
        _ => false,
    }
}

fn is_verdict(word: &str) -> bool
    ensures { result ≡ is_verdict word.now }
{
    match word {
        "continue" => true,
        "fail" => true,
        _ => false,
    }
}

/// Whether a word is what is wanted.
pub(crate) fn is_wanted(want: Want, word: &str) -> bool
    ensures { result ≡ is_wanted want word.now }
{
    match want {
        Want::Command | Want::Act => false,
        Want::Setting => is_setting(word),
        Want::Hook => is_hook(word),
        Want::Verdict => is_verdict(word),
        Want::Node => node_of(word).is_some(),
        Want::Channel => channel_of(word).is_some(),
        Want::End => end_of(word).is_some(),
        Want::Number64 => decimal_of(word).is_some(),
        Want::Number32 => number_of_32_bits(word).is_some(),
        Want::Number16 => number_of(word, 0xffff).is_some(),
        Want::Payment => payment_of(word).is_some(),
        Want::Height => number_of(word, 400_000_000).is_some(),
        Want::ShortId => short_id_of(word).is_some(),
        Want::Code => code_of(word).is_some(),
        Want::FailureCode => lawful_code_of(word).is_some(),
    }
}

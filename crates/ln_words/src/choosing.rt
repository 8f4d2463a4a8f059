//! Words that are read.

use crate::asked::{Asked, Unasked};
use clap::error::ErrorKind;
use clap::{Arg, ArgAction, ArgMatches, Command, Error};
use std::alloc::{AllocError, Global};

/// `decode HEX`
fn decode_command<'a>(alloc: Global) -> Result<Command<'a>, AllocError> {
    let hex = Arg::new(alloc, "hex")
        .value_name("HEX")
        .help("The message, without its frame: two digits a byte")
        .required(true)
        .allow_hyphen_values(true)
        .action(ArgAction::Set);
    Command::new(alloc, "decode")
        .about("Prints the message that HEX spells, a line a field")
        .arg(hex)
}

/// The program's commands, as the command line crate reads them.
fn commands<'a>(alloc: Global) -> Result<Command<'a>, AllocError> {
    let sim = Command::new(alloc, "sim")
        .about("Runs the script on standard input, and prints its report")
        .after_help("docs/FORMATS.md has the lines of scripts and reports; examples/ has scripts.");
    Command::new(alloc, "lnlink")
        .about("Channel links of a Lightning node")
        .no_binary_name(true)
        .bin_name("lnlink")?
        .subcommand_required(true)
        .disable_help_subcommand(true)
        .subcommand(sim)?
        .subcommand(decode_command(alloc)?)?
        .subcommand(Command::new(alloc, "answer").about(
            "Answers the pings among the frames on standard input",
        ))?
        .subcommand(Command::new(alloc, "demo").about(
            "Runs three nodes over loopback, and a payment",
        ))
}

/// What the words that were read choose.
fn chosen(alloc: Global, matches: &ArgMatches) -> Result<Asked, Unasked> {
    match matches.subcommand() {
        Some(("answer", _)) => Ok(Asked::Answer),
        Some(("sim", _)) => Ok(Asked::Simulate),
        Some(("demo", _)) => Ok(Asked::Demo),
        Some(("decode", inner)) => match inner.get_str("hex") {
            Some(text) => Ok(Asked::Decode(String::from_str(alloc, text)?)),
            None => Err(Unasked::Usage(String::from_str(alloc, "no HEX\n")?)),
        },
        _ => Err(Unasked::Usage(String::from_str(alloc, "no command\n")?)),
    }
}

/// What words ask for that choose no command: help, or nothing.
fn unchosen(alloc: Global, error: &Error) -> Result<Asked, Unasked> {
    let kind = error.kind();
    if kind == ErrorKind::OutOfMemory {
        return Err(Unasked::Memory);
    }
    let text = format!(in alloc; "{error}")?;
    match kind {
        ErrorKind::DisplayHelp => Ok(Asked::Help(text)),
        _ => Err(Unasked::Usage(text)),
    }
}

/// The command that the words after the program's name are: `answer`, `decode` and a text, `sim`, or `demo`; or the
/// help that they ask for. Takes memory.
///
/// Other words and none at all are usage.
pub fn choose(alloc: Global, words: &[String]) -> Result<Asked, Unasked> {
    let command = commands(alloc)?;
    match command.try_get_matches_from(words) {
        Ok(matches) => {
            let choice = chosen(alloc, &matches);
            drop(matches);
            choice
        }
        Err(error) => {
            let answer = unchosen(alloc, &error);
            drop(error);
            answer
        }
    }
}

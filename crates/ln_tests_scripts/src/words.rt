//! What the words of the command line ask for.

use ln_words::{Asked, Unasked, choose};
use std::alloc::Global;
use std::test::*;

/// What these words ask for: the command's name, the text that is to be decoded or the help; or why they ask for
/// nothing.
fn shown(alloc: Global, words: &[&str]) -> Result<String, Fail> {
    let mut all = Vec::new(alloc);
    for word in words {
        all.push(String::from_str(alloc, word)?)?;
    }
    let text = match choose(alloc, all.as_slice()) {
        Ok(Asked::Answer) => String::from_str(alloc, "answer")?,
        Ok(Asked::Simulate) => String::from_str(alloc, "sim")?,
        Ok(Asked::Decode(hex)) => hex,
        Ok(Asked::Demo) => String::from_str(alloc, "demo")?,
        Ok(Asked::Help(text)) => text,
        Err(Unasked::Usage(text)) => text,
        Err(Unasked::Memory) => String::from_str(alloc, "no memory")?,
    };
    Ok(text)
}

/// The same of words that bars part.
fn shown_of(alloc: Global, line: &str) -> Result<String, Fail> {
    let mut words = Vec::new(alloc);
    for word in line.split('|') {
        words.push(word)?;
    }
    shown(alloc, words.as_slice())
}

/// Words, parted by bars, and what they ask for.
const LINES: &str = "\
answer=answer
sim=sim
demo=demo
decode|0015=0015
decode| 0015= 0015
decode|=
decode|-=-";

#[test]
fn command_lines(rt: HostRuntime) -> Result<(), Fail> {
    for line in LINES.split('\n') {
        let mut parts = line.split('=');
        let got = shown_of(rt.alloc(), parts.next().unwrap_or(""))?;
        assert_eq!(rt; got.as_str(), parts.next().unwrap_or(""), "{line}");
    }
    Ok(())
}

/// Words that are no command, parted by bars, and the first line of what is told of them; no words before the first.
const USAGES: &str = "\
=error: unrecognized subcommand ''
answers=error: unrecognized subcommand 'answers'
Answer=error: unrecognized subcommand 'Answer'
help=error: unrecognized subcommand 'help'
demo|more=error: unexpected argument 'more' found
decode=error: the following required arguments were not provided:
decode|00|11=error: unexpected argument '11' found
sim|more=error: unexpected argument 'more' found
answer|more=error: unexpected argument 'more' found
--version=error: unexpected argument '--version' found";

// Words that are no command: why, and what is one.
#[test]
fn usage(rt: HostRuntime) -> Result<(), Fail> {
    for line in USAGES.split('\n') {
        let mut parts = line.split('=');
        let got = shown_of(rt.alloc(), parts.next().unwrap_or(""))?;
        let first = got.as_str().split('\n').next().unwrap_or("");
        assert_eq!(rt; first, parts.next().unwrap_or(""), "{line}");
        assert!(rt; got.as_str().contains("\nUsage: lnlink "), "{line}");
    }
    Ok(())
}

const HELP: &str = "\
Channel links of a Lightning node

Usage: lnlink <COMMAND>

Commands:
  sim     Runs the script on standard input, and prints its report
  decode  Prints the message that HEX spells, a line a field
  answer  Answers the pings among the frames on standard input
  demo    Runs three nodes over loopback, and a payment

Options:
  -h, --help  Print help
";

const HELP_OF_DECODE: &str = "\
Prints the message that HEX spells, a line a field

Usage: lnlink decode <HEX>

Arguments:
  <HEX>  The message, without its frame: two digits a byte

Options:
  -h, --help  Print help
";

// The program's help and a command's, by either word; no words at all are usage.
#[test]
fn help(rt: HostRuntime) -> Result<(), Fail> {
    for (line, text) in [
        ("--help", HELP),
        ("-h", HELP),
        ("--help|sim", HELP),
        ("decode|--help", HELP_OF_DECODE),
        ("decode|-h", HELP_OF_DECODE),
    ] {
        let got = shown_of(rt.alloc(), line)?;
        assert_eq!(rt; got.as_str(), text, "{line}");
    }
    let none = shown(rt.alloc(), &[])?;
    assert!(rt;
        none.as_str()
            .starts_with("error: 'lnlink' requires a subcommand")
    );
    Ok(())
}

// One of each kind of answer, for want of memory at any place.

#[test]
fn small_words(rt: HostRuntime) -> Result<(), Fail> {
    let got = shown(rt.alloc(), &["decode", "0015"])?;
    assert_eq!(rt; got.as_str(), "0015");
    Ok(())
}

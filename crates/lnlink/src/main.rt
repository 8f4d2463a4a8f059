//! `lnlink`: channel links of a payment channel node, on the command line.
#![tactic(auto)]

ghost use Rattle.std.specs.Prelude.{◌≡◌, ◌⊎◌, IfErr};
ghost use Rattle.ln_refusals.specs.declared.refusal.Refusal.TheVariants.{Memory};
ghost use Rattle.lnlink.specs.Failure.{IsUsage};

mod failure;

use failure::Failure;
use ln_demo::demo;
use ln_msgs::Counted;
use ln_refusals::Refusal;
use ln_script::{Choice, ProgramError, perform, print_all};
use ln_words::{Asked, Unasked, choose};
use std::env::Env;
use std::io::ErrorKind;
use std::net::{Net, TcpListener, TcpStream};
use std::process::ExitCode;
use std::sync::Wait;
use std::thread::Threads;
use std::{env, io};

/// What is told of words that aren't text.
const NO_TEXT: &str = "error: the words aren't text\n\nFor more information, try '--help'.\n";

fn main(rt: HostRuntime) -> ExitCode {
    match run(&rt) {
        Ok(()) => ExitCode::SUCCESS,
        Err(failure) => {
            let _ = eprint!(rt; "{failure}");
            ExitCode::from(failure.status())
        }
    }
}

/// Runs what the command line asks for, with standard input and output.
fn run<R>(rt: &R) -> Result<(), Failure>
where
    R: Env + Input + Print + AllocGlobal + Threads + Wait + Copy + Send + 'static,
    R: Net<Listener = TcpListener, Stream = TcpStream>,
{
    let mut writer = Counted::new(io::writer(rt));
    match asked(rt)? {
        Asked::Answer => command(rt, Choice::Answer),
        Asked::Decode(hex) => command(rt, Choice::Decode(hex)),
        Asked::Simulate => command(rt, Choice::Simulate),
        Asked::Help(text) => Ok(print_all(&mut writer, text.as_str())?),
        Asked::Demo => Ok(demo(*rt, rt.alloc(), &mut writer)?),
    }
}

/// Performs a command, with standard input and output.
fn command<R: Input + Print + AllocGlobal>(rt: &R, choice: Choice) -> Result<(), Failure> {
    let mut reader = Counted::new(rt.reader());
    let mut writer = Counted::new(io::writer(rt));
    match perform(rt.alloc(), choice, &mut reader, &mut writer) {
        Ok(()) => Ok(()),
        Err(error) => Err(Failure::Stopped(error)),
    }
}

/// What the words after the program's name ask for. Usage where they are no command or aren't text, 60 where there is
/// no memory to read them.
fn asked<R: Env + AllocGlobal>(rt: &R) -> Result<Asked, Failure>
    ensures { IfErr result (λ e. (e ≡ Failure.Stopped (ProgramError.Refused Memory)) ⊎ IsUsage e) }
{
    match choose(rt.alloc(), words(rt)?.as_slice()) {
        Ok(asked) => Ok(asked),
        Err(Unasked::Usage(text)) => Err(Failure::Usage(text)),
        Err(Unasked::Memory) => Err(Failure::from(Refusal::Memory)),
    }
}

/// The words after the program's name. Words that aren't text are usage.
fn words<R: Env + AllocGlobal>(rt: &R) -> Result<Vec<String>, Failure>
    ensures { IfErr result (λ e. (e ≡ Failure.Stopped (ProgramError.Refused Memory)) ⊎ IsUsage e) }
{
    let all = match env::args(rt) {
        Ok(all) => all,
        Err(error) if error.kind() == ErrorKind::OutOfMemory => {
            return Err(Failure::from(Refusal::Memory));
        }
        Err(_) => return Err(Failure::Usage(String::from_str(rt.alloc(), NO_TEXT)?)),
    };
    let mut words = Vec::new(rt.alloc());
    for word in all.skip(1) {
        words.push(word)?;
    }
    Ok(words)
}

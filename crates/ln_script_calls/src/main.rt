//! Reads cases from standard input, each what a command is given and the report that it is to print, and prints how
//! many there are; or the first that prints another. The first lines of the file `stdin` say how a case is written.
#![tactic(auto)]

mod case;
mod difference;
mod playing;

use case::lines_in;
use playing::fault_of;
use std::alloc::Global;
use std::io;
use std::io::{Read, Write};
use std::process::ExitCode;

/// Plays the cases of a file, up to the first that prints another report or isn't a case. Whether there is none.
fn run<R: Read + Drop, W: Write>(alloc: Global, reader: R, out: &mut W) -> io::Result<bool> {
    let text = io::read_to_string(alloc, reader)?;
    let mut pieces = text.split("== ");
    let mut line = lines_in(pieces.next().unwrap_or("")).saturating_add(1);
    let mut passed: usize = 0;
    for piece in pieces {
        if let Some(fault) = fault_of(alloc, line, piece)? {
            out.write_all(fault.as_bytes())?;
            return Ok(false);
        }
        line = line.saturating_add(lines_in(piece));
        passed = passed.saturating_add(1);
    }
    writeln!(out, "{passed} passed, 0 failed")?;
    Ok(true)
}

fn main(rt: HostRuntime) -> ExitCode {
    match run(rt.alloc(), rt.reader(), &mut io::writer(&rt)) {
        Ok(true) => ExitCode::SUCCESS,
        _ => ExitCode::FAILURE,
    }
}

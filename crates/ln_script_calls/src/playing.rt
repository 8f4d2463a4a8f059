//! Cases that are played.

ghost use Rattle.std.specs.Prelude.{◌≡◌, ℕ, List, [], Ok, None, Some, OnOk, OnErr, IfOk, Option};
ghost use Rattle.ln_script.specs.Done.{DoesPartly};
ghost use Rattle.ln_script_calls.specs.Passing.{IsPrinted, IsReport};

use crate::case::{Case, case_at, lines_in};
use crate::difference::difference;
use ln_msgs::Counted;
use ln_script::{Choice, ProgramError, perform};
use std::alloc::Global;
use std::io;

/// What a command answers with this on its input, and what it writes.
fn performed(alloc: Global, choice: Choice, input: &str) -> (Result<(), ProgramError>, Vec<u8>)
    ensures prints_it { OnOk result.0 (IsPrinted choice input.now result.1.items) }
    ensures front { OnErr result.0 ((after : Option (List ℕ))
        × DoesPartly (Some input.now) after (Some []) (Some result.1.items) choice) }
{
    let mut reader = Counted::new(input.as_bytes());
    let mut writer = Counted::new(Vec::new(alloc));
    let answer = perform(alloc, choice, &mut reader, &mut writer);
    (answer, writer.into_inner())
}

/// All that a command prints with this on its input: its output, and where it is refused `[exit STATUS]` and the line
/// for standard error.
fn printed(alloc: Global, choice: Choice, input: &str) -> io::Result<Vec<u8>>
    ensures prints_its_report { IfOk result (λ bytes. IsReport choice input.now bytes.items) }
{
    let (answer, mut bytes) = performed(alloc, choice, input);
    if let Err(failure) = answer {
        let status = failure.status();
        let line = format!(in alloc; "{status}] {failure}\n")?;
        bytes.extend_from_slice(b"[exit ")?;
        bytes.extend_from_slice(line.as_bytes())?;
    }
    Ok(bytes)
}

/// Where a command prints another report than the one that is wanted, whose first line is this one of the file; after
/// the case's name.
fn fault_in(
    alloc: Global,
    name: &str,
    choice: Choice,
    input: &str,
    report: &str,
    first: usize,
) -> io::Result<Option<String>>
    ensures passes_its_report_alone { result ≡ Ok None → IsReport choice input.now report.now }
{
    let bytes = printed(alloc, choice, input)?;
    match difference(alloc, first, report, bytes.as_slice())? {
        None => Ok(None),
        Some(text) => Ok(Some(format!(in alloc; "{name}\n{text}")?)),
    }
}

/// Of a line that begins no case.
fn no_case(alloc: Global, line: usize) -> io::Result<Option<String>> {
    Ok(Some(format!(in alloc; "line {line}\nno case\n")?))
}

/// Where a script of one line prints another report than the report's line for it; the first of these is this one of
/// the file.
fn fault_in_lines(alloc: Global, case: &Case, first: usize) -> io::Result<Option<String>> {
    let mut reports = case.report.split_inclusive('\n');
    let mut line = first;
    for script in case.given.split_inclusive('\n') {
        let report = reports.next().unwrap_or("");
        let fault = fault_in(alloc, case.name, Choice::Simulate, script, report, line)?;
        if fault.is_some() {
            return Ok(fault);
        }
        line = line.saturating_add(1);
    }
    match reports.next() {
        None => Ok(None),
        Some(_) => no_case(alloc, line),
    }
}

/// What is wrong with the case that begins at this line, after its `== `, where something is: its name, the number of a
/// line and what differs there, or that it is no case.
pub fn fault_of(alloc: Global, line: usize, piece: &str) -> io::Result<Option<String>> {
    let Some(case) = case_at(line, piece) else {
        return no_case(alloc, line);
    };
    let first = line.saturating_add(lines_in(case.given)).saturating_add(2);
    let Case { name, report, .. } = case;
    match case.command {
        "sim" => fault_in(alloc, name, Choice::Simulate, case.given, report, first),
        "decode" => {
            let digits = case.given.strip_suffix('\n').unwrap_or(case.given);
            let choice = Choice::Decode(String::from_str(alloc, digits)?);
            fault_in(alloc, name, choice, "", report, first)
        }
        "lines" => fault_in_lines(alloc, &case, first),
        _ => no_case(alloc, line),
    }
}

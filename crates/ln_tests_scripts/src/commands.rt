//! What each command of the program writes, and what it says where it fails.

use crate::frames::ping_frame;
use ln_msgs::Counted;
use ln_script::{Choice, ProgramError, perform};
use std::alloc::Global;
use std::test::*;

/// The command that a row names: `answer`, `sim`, or `decode`, one blank and its text.
fn choice_of(alloc: Global, line: &str) -> Result<Choice, ProgramError> {
    match line.strip_prefix("decode ") {
        Some(text) => Ok(Choice::Decode(String::from_str(alloc, text)?)),
        None if line == "sim" => Ok(Choice::Simulate),
        None => Ok(Choice::Answer),
    }
}

/// What a command writes, with this on its input.
fn answered(alloc: Global, line: &str, input: &[u8]) -> Result<String, ProgramError> {
    let choice = choice_of(alloc, line)?;
    // no write takes memory, as a writer's want of it is no answer of the program's
    let mut output = Vec::new(alloc);
    output.reserve(4096)?;
    let mut reader = Counted::new(input);
    let mut writer = Counted::new(output);
    perform(alloc, choice, &mut reader, &mut writer)?;
    match str::from_utf8(writer.get_ref().as_slice()) {
        Ok(text) => Ok(String::from_str(alloc, text)?),
        Err(_) => Err(ProgramError::NotText),
    }
}

/// That, or the line for standard error and the exit status.
fn shown(alloc: Global, line: &str, input: &[u8]) -> Result<String, Fail> {
    match answered(alloc, line, input) {
        Ok(text) => Ok(text),
        Err(failure) => {
            let status = failure.status();
            Ok(format!(in alloc; "{failure}, {status}")?)
        }
    }
}

// What the lines of ln_script_calls can't say: bytes that are no text.
#[test]
fn commands(rt: HostRuntime) -> Result<(), Fail> {
    let ping = ping_frame();
    for (line, input, text) in [
        ("answer", b"".as_slice(), ""),
        ("answer", ping.as_slice(), "\0\x06\0\x13\0\x02\0\0"),
        ("answer", b"\0\x06\0\x12", "refused 1 Truncated, 1"),
        (
            "sim",
            b"\xff",
            "the script isn't UTF-8 (refused 64 BadScript), 1",
        ),
    ] {
        let got = shown(rt.alloc(), line, input)?;
        assert_eq!(rt; got.as_str(), text, "{line}");
    }
    Ok(())
}

// One of each command, for want of memory at any place.

#[test]
fn small_answer(rt: HostRuntime) -> Result<(), ProgramError> {
    let got = answered(rt.alloc(), "answer", &ping_frame())?;
    assert_eq!(rt; got.as_str(), "\0\x06\0\x13\0\x02\0\0");
    Ok(())
}

#[test]
fn small_decode(rt: HostRuntime) -> Result<(), ProgramError> {
    let got = answered(rt.alloc(), "decode 0015", b"")?;
    assert_eq!(rt; got.as_str(), "type 21 ignored\n");
    Ok(())
}

#[test]
fn small_sim(rt: HostRuntime) -> Result<(), ProgramError> {
    let got = answered(rt.alloc(), "sim", b"sign A0\n")?;
    assert_eq!(rt; got.as_str(), "idle\n");
    Ok(())
}

#[test]
fn small_bad_line(rt: HostRuntime) -> Result<(), ProgramError> {
    match answered(rt.alloc(), "sim", b"sign C100\n") {
        Err(ProgramError::BadLine(bad)) => assert_eq!(rt; bad.word.as_str(), "C100"),
        Err(error) => return Err(error),
        Ok(text) => assert_eq!(rt; text.as_str(), "a bad line"),
    }
    Ok(())
}

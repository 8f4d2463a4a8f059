//! Scripts that are read whole, and writers that fail.

use ln_msgs::Counted;
use ln_refusals::Refusal;
use ln_script::{first_bad_line, hook_lines, print_all, print_report, read_script};
use ln_tests_parts::Narrow;
use std::alloc::Global;

/// Whether this is the report of a script, with the hooks that its lines ask for.
fn is_shown(alloc: Global, script: &str, report: &str) -> Result<bool, Refusal> {
    // (a report of this length needs no more: no growth of the writer can be refused as a failing write)
    let mut writer = Counted::new(Vec::with_capacity(alloc, report.len())?);
    let steps = read_script(alloc, script)?;
    let hooks = hook_lines(alloc, script)?;
    print_report(alloc, steps, hooks, &mut writer)?;
    Ok(writer.get_ref().as_slice() == report.as_bytes())
}

#[test]
fn small_script(rt: HostRuntime) -> Result<(), Refusal> {
    first_bad_line();
    assert!(rt; is_shown(rt.alloc(), "sign A0\n", "idle\n")?);
    Ok(())
}

#[test]
fn small_row(rt: HostRuntime) -> Result<(), Refusal> {
    let script = "open 0 A B 1000 0\n";
    let report = "0 open\nA0 signed 0 committed 0 peer 0 balance 1000000/0 live 0 open\n\
                  B0 signed 0 committed 0 peer 0 balance 0/1000000 live 0 open\n";
    assert!(rt; is_shown(rt.alloc(), script, report)?);
    Ok(())
}

/// What becomes of a text at a writer that fails after so many calls, and how much of it is written.
fn cut_short(alloc: Global, text: &str, calls_left: u64) -> (Result<(), Refusal>, usize) {
    let mut writer = Counted::new(Narrow::new(alloc, 1, calls_left));
    let result = print_all(&mut writer, text);
    (result, writer.get_ref().bytes.len())
}

#[test]
fn failing_writers(rt: HostRuntime) {
    // a byte a call, and a flush
    for (calls, result, written) in [
        (0, Err(Refusal::Io), 0),
        (4, Err(Refusal::Io), 4),
        (5, Err(Refusal::Io), 5),
        (6, Ok(()), 5),
    ] {
        assert_eq!(rt; cut_short(rt.alloc(), "idle\n", calls), (result, written));
    }
}

//! Cases as they are written.

/// What a command is given, and the report that it is to print.
#[derive(Clone, Copy)]
pub struct Case<'a> {
    /// Which line of the file the case begins with, counted from 1.
    pub line: usize,
    /// The word of the command.
    pub command: &'a str,
    /// What the case shows.
    pub name: &'a str,
    /// What the command is given.
    pub given: &'a str,
    /// All that it is to print.
    pub report: &'a str,
}

/// How many lines end in a text.
pub fn lines_in(text: &str) -> usize {
    text.matches('\n').count()
}

/// The case that begins at this line, after its `== `; none where a part of it is missing.
pub fn case_at(line: usize, piece: &str) -> Option<Case> {
    let (head, body) = piece.split_once('\n')?;
    let (command, name) = head.split_once(": ")?;
    let (given, report) = body.split_once("--\n")?;
    Some(Case {
        line,
        command,
        name,
        given,
        report,
    })
}

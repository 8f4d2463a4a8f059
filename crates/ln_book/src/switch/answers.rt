//! What a book is told of a command that a channel's end was given.

ghost use Rattle.std.specs.Prelude.{◌≡◌, option_copied};
ghost use Rattle.ln_book.specs.Answers.{next_id, command_subject, answer_to, waits};

use ln_book_tables::is_later;
use ln_channel::{Channel, Command};
use ln_refusals::Refusal;

/// The id of the next HTLC that an end offers; 0 before both have signed its opening. Takes no memory.
pub fn next_id(end: Option<&Channel>) -> u64
    ensures { result ≡ next_id (option_copied end.entry) }
{
    match end {
        None => 0,
        Some(end) => end.dance().log().next_id(),
    }
}

/// The id of the HTLC that a command is about, or the number of the event: an HTLC that is offered gets the end's next
/// id. 0 where it is about none. Takes no memory.
pub fn command_subject(next: u64, command: &Command) -> u64
    ensures { result ≡ command_subject next command.now }
{
    match command {
        Command::Add { .. } => next,
        Command::Fulfil { id, .. } => *id,
        Command::Fail { id, .. } => *id,
        Command::Malformed { id, .. } => *id,
        Command::Decide { event, .. } => *event,
        Command::Forget(id) => *id,
        Command::Resume { event, .. } => *event,
        _ => 0,
    }
}

/// What a book is told of a command: what it was about, where the end has done it; else the number of the refusal.
/// Takes no memory.
pub fn answer_to(command_subject: u64, done: Result<(), Refusal>) -> Result<u64, u16>
    ensures { result ≡ answer_to command_subject done }
{
    match done {
        Ok(()) => Ok(command_subject),
        Err(refusal) => Err(refusal.number()),
    }
}

/// Whether a command that was answered so waits: its channel can't take it now, and the book hands it out again. Takes
/// no memory.
pub fn waits(answer: Result<u64, u16>) -> bool
    ensures { result ≡ waits answer }
{
    match answer {
        Ok(_) => false,
        Err(number) => is_later(number),
    }
}

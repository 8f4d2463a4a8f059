//! Lines of a report as text.

ghost use Rattle.std.specs.Prelude.{◌≡◌, ◌++◌, OnOk, string_bytes};
ghost use Rattle.ln_script.specs.LineText.{end_text, word_text, owner_text, ending_text, sends_text, added_text};
ghost use Rattle.ln_script.specs.LineText.{settled_text, closed_text, line_text, status_text, counts_text};
ghost use Rattle.ln_script.specs.LineText.{balances_text};
ghost use Rattle.ln_script.specs.LineText.{event_text, refused_text, restarts_text, end_line_text, with_number};
ghost use Rattle.ln_script.specs.LineText.{verdict_text, dispatched_text, code_text, choice_text, decided_text};
ghost use Rattle.ln_script.specs.LineText.{resumed_text};

use ln_channel::{ChannelStatus, Summary};
use ln_hooks::{FailureCode, Verdict};
use ln_refusals::Refusal;
use ln_world::{Choice, End, EndLine, Ending, Line, Node, Word};
use std::alloc::AllocError;
use std::fmt::Write;

#[tactic(auto, unfolding(crate::specs::LineText::end_text))]
fn put_end(text: &mut String, end: End) -> Result<(), AllocError>
    ensures { OnOk result (string_bytes text.new ≡ string_bytes text.old ++ end_text end) }
{
    let letter = char::from(end.node.letter);
    let channel = end.channel;
    write!(text, "{letter}{channel}")
}

fn put_number(text: &mut String, name: &str, number: u64) -> Result<(), AllocError>
    ensures { OnOk result (string_bytes text.new ≡ string_bytes text.old ++ with_number name.now number) }
{
    write!(text, "{name} {number}")
}

/// What a message is told as.
fn put_word(text: &mut String, word: Word) -> Result<(), AllocError>
    ensures { OnOk result (string_bytes text.new ≡ string_bytes text.old ++ word_text word) }
{
    match word {
        Word::ChannelReady => text.push_str("channel_ready"),
        Word::Add(id) => put_number(text, "add", id),
        Word::Fulfil(id) => put_number(text, "fulfil", id),
        Word::Fail(id) => put_number(text, "fail", id),
        Word::Malformed(id) => put_number(text, "malformed", id),
        Word::Fee(rate) => put_number(text, "fee", u64::from(rate)),
        Word::Sign(number) => put_number(text, "sign", number),
        Word::Revoke(number) => put_number(text, "revoke", number),
        Word::Reestablish(commitment, revocation) => {
            write!(text, "reestablish {commitment} {revocation}")
        }
        Word::Shutdown => text.push_str("shutdown"),
        Word::Closing(fee) => put_number(text, "closing", fee),
        Word::Warning => text.push_str("warning"),
        Word::Error => text.push_str("error"),
    }
}

/// Whose HTLC it is.
fn owner_text(own: bool) -> &'static str
    ensures { result.now ≡ owner_text own }
{
    if own { "own" } else { "peer" }
}

/// How an HTLC was removed.
fn ending_text(how: Ending) -> &'static str
    ensures { result.now ≡ ending_text how }
{
    match how {
        Ending::Fulfilled => "fulfilled",
        Ending::Failed => "failed",
        Ending::Malformed => "malformed",
    }
}

/// An end's event of this number.
fn put_event(text: &mut String, end: End, number: u64) -> Result<(), AllocError>
    ensures { OnOk result (string_bytes text.new ≡ string_bytes text.old ++ event_text end number) }
{
    put_end(text, end)?;
    write!(text, " event {number}")
}

#[tactic(auto, unfolding(crate::specs::LineText::sends_text))]
fn put_sends(text: &mut String, end: End, word: Word) -> Result<(), AllocError>
    ensures { OnOk result (string_bytes text.new ≡ string_bytes text.old ++ sends_text end word) }
{
    put_end(text, end)?;
    text.push_str(" sends ")?;
    put_word(text, word)
}

#[tactic(auto, unfolding(crate::specs::LineText::added_text))]
fn put_added(text: &mut String, end: End, number: u64, own: bool, id: u64) -> Result<(), AllocError>
    ensures { OnOk result (string_bytes text.new ≡ string_bytes text.old ++ added_text end number own id) }
{
    let owner = owner_text(own);
    put_event(text, end, number)?;
    write!(text, " added {owner} {id}")
}

#[tactic(auto, unfolding(crate::specs::LineText::settled_text))]
fn put_settled(
    text: &mut String,
    end: End,
    number: u64,
    own: bool,
    id: u64,
    how: Ending,
) -> Result<(), AllocError>
    ensures { OnOk result (string_bytes text.new ≡ string_bytes text.old ++ settled_text end number own id how) }
{
    let owner = owner_text(own);
    let ending = ending_text(how);
    put_event(text, end, number)?;
    write!(text, " settled {owner} {id} {ending}")
}

#[tactic(auto, unfolding(crate::specs::LineText::closed_text))]
fn put_closed(text: &mut String, end: End, number: u64, fee: u64) -> Result<(), AllocError>
    ensures { OnOk result (string_bytes text.new ≡ string_bytes text.old ++ closed_text end number fee) }
{
    put_event(text, end, number)?;
    write!(text, " closed {fee}")
}

#[tactic(auto, unfolding(crate::specs::LineText::refused_text))]
fn put_refused(text: &mut String, end: End, why: Refusal) -> Result<(), AllocError>
    ensures { OnOk result (string_bytes text.new ≡ string_bytes text.old ++ refused_text end why) }
{
    put_end(text, end)?;
    write!(text, " {why}")
}

#[tactic(auto, unfolding(crate::specs::LineText::restarts_text))]
fn put_restarts(text: &mut String, node: Node) -> Result<(), AllocError>
    ensures { OnOk result (string_bytes text.new ≡ string_bytes text.old ++ restarts_text node) }
{
    let letter = char::from(node.letter);
    write!(text, "{letter} restarts")
}

/// What is said of an event: a failure's code in four hexadecimal digits.
fn verdict_text(verdict: Verdict) -> &'static str
    ensures { result.now ≡ verdict_text verdict }
{
    match verdict {
        Verdict::Continue => "continue",
        Verdict::Hold => "hold",
        Verdict::Fail(FailureCode::TemporaryChannelFailure) => "fail 1007",
        Verdict::Fail(FailureCode::UnknownNextPeer) => "fail 400a",
        Verdict::Fail(FailureCode::AmountBelowMinimum) => "fail 100b",
        Verdict::Fail(FailureCode::FeeInsufficient) => "fail 100c",
        Verdict::Fail(FailureCode::IncorrectCltvExpiry) => "fail 100d",
        Verdict::Fail(FailureCode::ExpiryTooSoon) => "fail 100e",
        Verdict::Fail(FailureCode::IncorrectOrUnknownPaymentDetails) => "fail 400f",
        Verdict::Fail(FailureCode::FinalIncorrectCltvExpiry) => "fail 0012",
        Verdict::Fail(FailureCode::FinalIncorrectHtlcAmount) => "fail 0013",
        Verdict::Fail(FailureCode::ExpiryTooFar) => "fail 0015",
        Verdict::Fail(FailureCode::InvalidOnionPayload) => "fail 4016",
    }
}

#[tactic(auto, unfolding(crate::specs::LineText::dispatched_text))]
fn put_dispatched(
    text: &mut String,
    end: End,
    number: u64,
    verdict: Verdict,
) -> Result<(), AllocError>
    ensures { OnOk result (string_bytes text.new ≡ string_bytes text.old ++ dispatched_text end number verdict) }
{
    let said = verdict_text(verdict);
    put_end(text, end)?;
    write!(text, " dispatch {number} {said}")
}

/// A failure's code in four hexadecimal digits.
#[tactic(auto, unfolding(crate::specs::LineText::code_text))]
fn put_code(text: &mut String, code: u16) -> Result<(), AllocError>
    ensures { OnOk result (string_bytes text.new ≡ string_bytes text.old ++ code_text code) }
{
    let first = code / 4096;
    let second = code / 256 % 16;
    let third = code / 16 % 16;
    let fourth = code % 16;
    write!(text, "{first:x}{second:x}{third:x}{fourth:x}")
}

/// What is done about an event.
fn put_choice(text: &mut String, choice: Choice) -> Result<(), AllocError>
    ensures { OnOk result (string_bytes text.new ≡ string_bytes text.old ++ choice_text choice) }
{
    match choice {
        Choice::None => text.push_str("none"),
        Choice::Forward(channel) => write!(text, "forward {channel}"),
        Choice::Fail(code) => {
            text.push_str("fail ")?;
            put_code(text, code)
        }
        Choice::Malformed(code) => {
            text.push_str("malformed ")?;
            put_code(text, code)
        }
        Choice::Fulfil => text.push_str("fulfil"),
        Choice::Held => text.push_str("held"),
    }
}

#[tactic(auto, unfolding(crate::specs::LineText::decided_text))]
fn put_decided(text: &mut String, end: End, number: u64, choice: Choice) -> Result<(), AllocError>
    ensures { OnOk result (string_bytes text.new ≡ string_bytes text.old ++ decided_text end number choice) }
{
    put_end(text, end)?;
    write!(text, " decided {number} ")?;
    put_choice(text, choice)
}

#[tactic(auto, unfolding(crate::specs::LineText::resumed_text))]
fn put_resumed(text: &mut String, end: End, number: u64, choice: Choice) -> Result<(), AllocError>
    ensures { OnOk result (string_bytes text.new ≡ string_bytes text.old ++ resumed_text end number choice) }
{
    put_end(text, end)?;
    write!(text, " resumed {number} ")?;
    put_choice(text, choice)
}

/// What a step did. Takes memory for the text.
pub(crate) fn put_line(text: &mut String, line: &Line) -> Result<(), AllocError>
    ensures { OnOk result (string_bytes text.new ≡ string_bytes text.old ++ line_text line.now) }
{
    match *line {
        Line::Open(channel) => write!(text, "{channel} open"),
        Line::Sends(end, word) => put_sends(text, end, word),
        Line::Added {
            end,
            number,
            own,
            id,
        } => put_added(text, end, number, own, id),
        Line::Settled {
            end,
            number,
            own,
            id,
            how,
        } => put_settled(text, end, number, own, id, how),
        Line::Closed { end, number, fee } => put_closed(text, end, number, fee),
        Line::Refused(end, why) => put_refused(text, end, why),
        Line::Restarts(node) => put_restarts(text, node),
        Line::Dispatched(end, number, verdict) => put_dispatched(text, end, number, verdict),
        Line::Decided(end, number, choice) => put_decided(text, end, number, choice),
        Line::Resumed(end, number, choice) => put_resumed(text, end, number, choice),
        Line::Idle => text.push_str("idle"),
    }
}

/// How far a channel is.
fn put_status(text: &mut String, status: ChannelStatus) -> Result<(), AllocError>
    ensures { OnOk result (string_bytes text.new ≡ string_bytes text.old ++ status_text status) }
{
    match status {
        ChannelStatus::Open => text.push_str("open"),
        ChannelStatus::Ready => text.push_str("ready"),
        ChannelStatus::Shut => text.push_str("shut"),
        ChannelStatus::Closed(fee) => put_number(text, "closed", fee),
        ChannelStatus::Failed(why) => put_number(text, "failed", u64::from(why.number())),
    }
}

/// The own updates that the last signature covers, and the own ones and the peer's that are held as committed.
fn put_counts(text: &mut String, summary: &Summary) -> Result<(), AllocError>
    ensures { OnOk result (string_bytes text.new ≡ string_bytes text.old ++ counts_text summary.now) }
{
    let signed = summary.signed;
    let committed = summary.own_held;
    let peer = summary.peer_held;
    write!(text, " signed {signed} committed {committed} peer {peer}")
}

/// Both balances in msat, how many HTLCs are live, and how far the channel is.
fn put_balances(text: &mut String, summary: &Summary) -> Result<(), AllocError>
    ensures { OnOk result (string_bytes text.new ≡ string_bytes text.old ++ balances_text summary.now) }
{
    let own = summary.own;
    let peer = summary.peer;
    let live = summary.live;
    write!(text, " balance {own}/{peer} live {live} ")?;
    put_status(text, summary.status)
}

/// How an end stands. Takes memory for the text.
pub(crate) fn put_end_line(text: &mut String, line: &EndLine) -> Result<(), AllocError>
    ensures { OnOk result (string_bytes text.new ≡ string_bytes text.old ++ end_line_text line.now) }
{
    put_end(text, line.end)?;
    put_counts(text, &line.summary)?;
    put_balances(text, &line.summary)
}

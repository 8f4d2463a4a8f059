//! The calls of a link, by bytes.

ghost use Rattle.std.specs.Prelude.{◌≡◌, ◌≢◌, length, IfOk, IfErr, option_copied};
ghost use Rattle.ln_refusals.specs.declared.refusal.Refusal.TheVariants as refusal;
ghost use Rattle.ln_dance.specs.Dance.{view_at};
ghost use Rattle.ln_channel.specs.declared.machine.Stage.TheVariants as stage;
ghost use Rattle.ln_channel.specs.Asking.{agreed_end, naming_answer};
ghost use Rattle.ln_channel.specs.Config.{IsFitConfig, IsFitSpec};
ghost use Rattle.ln_channel.specs.End as end;
ghost use Rattle.ln_channel.specs.End.{End};
ghost use Rattle.ln_host.specs.declared.answer.HostRefusal.TheVariants as host;
ghost use Rattle.ln_host.specs.Doing.{done_by, IsDone};
ghost use Rattle.ln_host.specs.Hosted.{host_record};
ghost use Rattle.ln_host.specs.Seats.{seat};
ghost use Rattle.ln_library.specs.Calls.{exactly, Begins, CannotBegin, IsLoaded, CannotLoad, Asks, Hears, Obeys};
ghost use Rattle.ln_library.specs.Calls.{funding_row, funded_by, record_bytes, told_bytes, Sends, Shows};
ghost use Rattle.ln_library.specs.Looks.{link_summary, pair_of, worth_of, viewed, view_bytes};
ghost use Rattle.ln_wire.specs.Forms.{Gives, whole_in, written_in};
ghost use Rattle.ln_wire.specs.Setup.{config as config_form, spec as spec_form};
ghost use Rattle.ln_wire.specs.Summary.{summary as summary_form};

use crate::connection::{read, written};
use crate::summary::summary_of;
use ln_bytes::Bytes;
use ln_channel::{Channel, FitConfig, FitSpec};
use ln_host::{Head, HostLink, HostRefusal, Told, question_about};
use ln_keys::View;
use ln_log::{Pair, Side};
use ln_msgs::Message;
use ln_refusals::Refusal;
use ln_wire::{
    Item, decode_command, decode_config, decode_saved, decode_spec, encode_blank_item,
    encode_event_item, encode_item, encode_question, encode_record_item, encode_summary,
    encode_view,
};
use std::alloc::Global;

/// So many bytes. Error: 81 where there are more or fewer.
pub fn exactly<const N: usize>(bytes: &[u8]) -> Result<[u8; N], HostRefusal>
    ensures answer { result ≡ exactly N bytes.now }
    ensures bytes { IfOk result (λ b. (b ≡ bytes.now) × (length bytes.now ≡ N)) }
    ensures refused { IfErr result (λ e. (e ≡ host.Answer) × (length bytes.now ≢ N)) }
{
    if bytes.len() != N {
        return Err(HostRefusal::Answer);
    }
    let mut array = [0; N];
    array.copy_from_slice(bytes);
    Ok(array)
}

/// A new link of a funder, by the bytes of its spec and its first per commitment point.
///
/// Errors: 81 where the point hasn't 33 bytes, 70 where the bytes are no spec, 40 where no channel can be opened by it
/// (`OpenSpec::fits`), 60.
pub fn open(alloc: Global, spec: &[u8], first_point: &[u8]) -> Result<HostLink, HostRefusal>
    ensures begins { IfOk result (λ h. Begins IsFitSpec stage.AwaitsAccept (whole_in spec_form spec.now) first_point.now
        (seat h)) }
    ensures refuses { IfErr result (λ e.
        CannotBegin IsFitSpec (whole_in spec_form spec.now) first_point.now e) }
{
    let first_point = exactly::<33>(first_point)?;
    let spec = decode_spec(alloc, spec)?;
    if !spec.fits() {
        drop(spec);
        return Err(HostRefusal::Refused(Refusal::NotReady));
    }
    Ok(HostLink::funder(alloc, FitSpec::new(spec), first_point))
}

/// A new link of a fundee, by the bytes of its config and its first per commitment point. Errors as those of `open`.
pub fn accept(alloc: Global, config: &[u8], first_point: &[u8]) -> Result<HostLink, HostRefusal>
    ensures begins { IfOk result (λ h. Begins IsFitConfig stage.AwaitsOpen (whole_in config_form config.now)
        first_point.now (seat h)) }
    ensures refuses { IfErr result (λ e.
        CannotBegin IsFitConfig (whole_in config_form config.now) first_point.now e) }
{
    let first_point = exactly::<33>(first_point)?;
    let config = decode_config(alloc, config)?;
    if !config.fits() {
        drop(config);
        return Err(HostRefusal::Refused(Refusal::NotReady));
    }
    Ok(HostLink::fundee(alloc, FitConfig::new(config), first_point))
}

/// The link that comes back from what its host saved. Errors: 70 and 71 as of `Link::from_record`, also where the bytes
/// are nothing that a host saved; 60.
pub fn load(alloc: Global, saved: &[u8]) -> Result<HostLink, Refusal>
    ensures comes_back { IfOk result (λ h. IsLoaded saved.now (seat h)) }
    ensures refuses { IfErr result (λ e. CannotLoad saved.now e) }
{
    let saved = decode_saved(alloc, saved)?;
    HostLink::load(alloc, saved)
}

/// Names the funding: `HostLink::name_funding`. Errors: 81 where the txid hasn't 32 bytes, 40.
pub fn fund(link: &mut HostLink, txid: &[u8], output: u16) -> Result<(), HostRefusal>
    ensures answer { result ≡ funding_row txid.now (naming_answer link.old.link.stage) }
    ensures names { seat link.new ≡ funded_by txid.now output (seat link.old) }
{
    let txid = exactly::<32>(txid)?;
    match link.name_funding(txid, output) {
        Ok(()) => Ok(()),
        Err(refusal) => Err(HostRefusal::Refused(refusal)),
    }
}

/// The question about a message; no bytes where there is none. Errors: the first fault of the message's bytes, 1 to
/// 9; 60.
pub fn question(alloc: Global, link: &HostLink, message: &[u8]) -> Result<Vec<u8>, Refusal>
    ensures asks { Asks (λ v. v.items) link.now.link message.now result }
{
    let message = read(alloc, message)?;
    match &message {
        None => Ok(Vec::new(alloc)),
        Some(message) => match &question_about(alloc, link.machine(), message)? {
            None => Ok(Vec::new(alloc)),
            Some(question) => encode_question(alloc, question),
        },
    }
}

/// Takes a message with the answer to the question about it: `HostLink::message`. One of an odd type that isn't known
/// does nothing.
pub fn message(
    alloc: Global,
    link: &mut HostLink,
    message: &[u8],
    answer: &[u8],
) -> Result<(), HostRefusal>
    ensures hears { Hears message.now answer.now result (seat link.old) (seat link.new) }
{
    match read(alloc, message)? {
        None => Ok(()),
        Some(message) => link.message(alloc, message, answer),
    }
}

/// Does what a command says: `HostLink::command`. Errors: 70 where the bytes are no command.
pub fn command(alloc: Global, link: &mut HostLink, command: &[u8]) -> Result<(), Refusal>
    ensures obeys { Obeys command.now result (seat link.old) (seat link.new) }
{
    let command = decode_command(alloc, command)?;
    link.command(alloc, command)
}

// The item of a record that waits to be saved.
fn record_item(alloc: Global, link: &HostLink) -> Result<Vec<u8>, Refusal>
    ensures { Gives (λ v. v.items) result (record_bytes (host_record (seat link.now))) }
{
    match &link.unsaved(alloc)? {
        None => Ok(Vec::new(alloc)),
        Some(record) => encode_record_item(alloc, record),
    }
}

// The item of a message to be sent.
#[tactic(auto, unfolding(ln_wire::specs::Items::item_form))]
fn send_item(alloc: Global, message: &Message) -> Result<Vec<u8>, Refusal>
    ensures { Sends (λ v. v.items) message.now result }
{
    let bytes = written(alloc, message)?;
    encode_item(alloc, &Item::Send(Bytes::new(bytes)))
}

// The item of what is told.
fn told_item(alloc: Global, told: &Told) -> Result<Vec<u8>, Refusal>
    ensures { Gives (λ v. v.items) result (told_bytes told.now) }
{
    match told {
        Told::Event(number, event) => encode_event_item(alloc, *number, event),
        Told::Closed(fee) => encode_item(alloc, &Item::Closed(*fee)),
    }
}

/// What stands first in the line; no bytes where nothing waits. It is shown once the host has these bytes:
/// `HostLink::show`. Errors: 7 where a message has more than 65,535 bytes, 60 where there is no memory.
pub fn next(alloc: Global, link: &HostLink) -> Result<Vec<u8>, Refusal>
    ensures shows { Shows (λ v. v.items) (seat link.now) result }
{
    match link.head() {
        None => Ok(Vec::new(alloc)),
        Some(Head::Record) => record_item(alloc, link),
        Some(Head::Blank(blank)) => encode_blank_item(alloc, blank),
        Some(Head::Send(message)) => send_item(alloc, message),
        Some(Head::Told(told)) => told_item(alloc, told),
    }
}

/// What stands first in the line is dealt with: `HostLink::done`.
pub fn done(alloc: Global, link: &mut HostLink, answer: &[u8]) -> Result<(), HostRefusal>
    ensures does { IsDone (done_by answer.now (seat link.old)) result (seat link.old) (seat link.new) }
{
    link.done(alloc, answer)
}

/// Where the link stands. 60 where there is no memory.
pub fn look(alloc: Global, link: &HostLink) -> Result<Vec<u8>, Refusal>
    ensures looks { Gives (λ v. v.items) result (written_in summary_form (link_summary link.now.link)) }
{
    let summary = summary_of(alloc, link.machine())?;
    encode_summary(alloc, &summary)
}

// Which commitment is looked at.
fn pair_of(which: u8) -> Option<Pair>
    ensures { result ≡ pair_of which }
{
    match which {
        0 => Some(Pair::Current(Side::Own)),
        1 => Some(Pair::Current(Side::Peer)),
        2 => Some(Pair::ToSign),
        3 => Some(Pair::ToAccept),
        _ => None,
    }
}

// What a commitment of a channel is worth.
fn worth_in(alloc: Global, channel: &Channel, pair: Pair) -> Result<View, Refusal>
    ensures worth { (e : End) → end.StandsFor channel.now e → IfOk result (λ v. v ≡ view_at pair e.dance) }
    ensures fails_for_memory_alone { IfErr result (λ r. r ≡ refusal.Memory) }
{
    let view = channel.dance().log().view(alloc, pair)?;
    Ok(view)
}

// That of a channel, where its funding is named.
fn worth_of(alloc: Global, channel: Option<&Channel>, pair: Pair) -> Result<View, Refusal>
    ensures { Gives (λ v. v) result (worth_of pair (option_copied channel.entry)) }
{
    match channel {
        None => Err(Refusal::NotReady),
        Some(channel) => Ok(worth_in(alloc, channel, pair)?),
    }
}

/// What a commitment of a channel is worth: 0 the own one, 1 the peer's, 2 the one that would be signed, 3 the one that
/// the peer's next signature covers. Errors: 40 for another number, or where there is no channel; 60.
pub fn worth(alloc: Global, channel: Option<&Channel>, which: u8) -> Result<Vec<u8>, Refusal>
    ensures looks { Gives (λ v. v.items) result
        (view_bytes (viewed (pair_of which) (option_copied channel.entry))) }
{
    let Some(pair) = pair_of(which) else {
        return Err(Refusal::NotReady);
    };
    let view = worth_of(alloc, channel, pair)?;
    encode_view(alloc, &view)
}

/// What a commitment is worth, as `worth` says it of the link's channel, where its funding is named.
pub fn view(alloc: Global, link: &HostLink, which: u8) -> Result<Vec<u8>, Refusal>
    ensures looks { Gives (λ v. v.items) result
        (view_bytes (viewed (pair_of which) (agreed_end link.now.link.stage))) }
{
    worth(alloc, link.machine().agreed(), which)
}

//! Values as bytes, and bytes as values.

ghost use Rattle.std.specs.Prelude.{◌≡◌, IfOk, Ok};
ghost use Rattle.ln_channel.specs.declared.command.Command.{Command};
ghost use Rattle.ln_channel.specs.declared.config.Config.{Config};
ghost use Rattle.ln_host.specs.declared.record.HostRecord.{HostRecord};
ghost use Rattle.ln_wire.specs.declared.items.Item.{Item};
ghost use Rattle.ln_wire.specs.declared.summary.LinkSummary.{LinkSummary};
ghost use Rattle.ln_channel.specs.declared.config.OpenSpec.{OpenSpec};
ghost use Rattle.ln_host.specs.declared.question.Question.{Question};
ghost use Rattle.ln_keys.specs.declared.view.View.{View};
ghost use Rattle.ln_wire.specs.Forms.{whole_in, written_in, Gives, IsSpelledBy, HasOneForm};
ghost use Rattle.ln_wire.specs.Commands.{command_form};
ghost use Rattle.ln_wire.specs.Items.{saved as saved_form, item_form};
ghost use Rattle.ln_wire.specs.Questions.{question_form, view_form};
ghost use Rattle.ln_wire.specs.Setup.{config as config_form, spec as spec_form};
ghost use Rattle.ln_wire.specs.Summary.{summary as summary_form};

use crate::items::Item;
use crate::summary::LinkSummary;
use crate::whole::{whole, written};
use ln_channel::{Command, Config, OpenSpec};
use ln_host::{HostRecord, Question};
use ln_keys::View;
use ln_refusals::Refusal;
use std::alloc::Global;

/// A config, read of bytes that are one from the first to the last. Takes memory for byte strings and lists.
///
/// Errors: 70 (`Damaged`) where the bytes are none, or something is left; 60 where there is no memory.
pub fn decode_config(alloc: Global, bytes: &[u8]) -> Result<Config, Refusal>
    ensures is_spelled_so { IfOk result (λ x. IsSpelledBy config_form bytes.now x) }
    ensures reads_each { (x : Config) → IsSpelledBy config_form bytes.now x → Gives (λ y. y) result (Ok x) }
    ensures reads_as_defined { Gives (λ x. x) result (whole_in config_form bytes.now) }
{
    whole(alloc, bytes)
}

/// The bytes of it, which `decode_config` reads. Takes memory for them.
///
/// Errors: 7 (`TooLong`) where its script has more than 65,535 bytes; 60 where there is no memory.
pub fn encode_config(alloc: Global, value: &Config) -> Result<Vec<u8>, Refusal>
    ensures writes_as_defined { Gives (λ v. v.items) result (written_in config_form value.now) }
{
    written(alloc, value)
}

/// A spec, read of bytes that are one from the first to the last. Takes memory for byte strings and lists.
///
/// Errors: 70 (`Damaged`) where the bytes are none, or something is left; 60 where there is no memory.
pub fn decode_spec(alloc: Global, bytes: &[u8]) -> Result<OpenSpec, Refusal>
    ensures is_spelled_so { IfOk result (λ x. IsSpelledBy spec_form bytes.now x) }
    ensures reads_each { (x : OpenSpec) → IsSpelledBy spec_form bytes.now x → Gives (λ y. y) result (Ok x) }
    ensures reads_as_defined { Gives (λ x. x) result (whole_in spec_form bytes.now) }
{
    whole(alloc, bytes)
}

/// The bytes of it, which `decode_spec` reads. Takes memory for them.
///
/// Errors: 7 (`TooLong`) where its script or a record has more than 65,535 bytes; 60 where there is no memory.
pub fn encode_spec(alloc: Global, value: &OpenSpec) -> Result<Vec<u8>, Refusal>
    ensures writes_as_defined { Gives (λ v. v.items) result (written_in spec_form value.now) }
{
    written(alloc, value)
}

/// A command, read of bytes that are one from the first to the last. Takes memory for byte strings and lists.
///
/// Errors: 70 (`Damaged`) where the bytes are none, or something is left; 60 where there is no memory.
pub fn decode_command(alloc: Global, bytes: &[u8]) -> Result<Command, Refusal>
    ensures is_spelled_so { IfOk result (λ x. IsSpelledBy command_form bytes.now x) }
    ensures reads_each { (x : Command) → IsSpelledBy command_form bytes.now x → Gives (λ y. y) result (Ok x) }
    ensures reads_as_defined { Gives (λ x. x) result (whole_in command_form bytes.now) }
{
    whole(alloc, bytes)
}

/// The bytes of it, which `decode_command` reads. Takes memory for them.
///
/// Errors: 7 (`TooLong`) where its reason or its script has more than 65,535 bytes; 60 where there is no memory.
pub fn encode_command(alloc: Global, value: &Command) -> Result<Vec<u8>, Refusal>
    ensures writes_as_defined { Gives (λ v. v.items) result (written_in command_form value.now) }
{
    written(alloc, value)
}

/// What a host saves of its link: what an item that is a record has after its kind. It is read of bytes that are one
/// from the first to the last. Takes memory for byte strings and lists.
///
/// Errors: 70 (`Damaged`) where the bytes are none, or something is left; 60 where there is no memory.
pub fn decode_saved(alloc: Global, bytes: &[u8]) -> Result<HostRecord, Refusal>
    ensures is_spelled_so { IfOk result (λ x. IsSpelledBy saved_form bytes.now x) }
    ensures reads_each { (x : HostRecord) → IsSpelledBy saved_form bytes.now x → Gives (λ y. y) result (Ok x) }
    ensures reads_as_defined { Gives (λ x. x) result (whole_in saved_form bytes.now) }
{
    whole(alloc, bytes)
}

/// The bytes of it, which `decode_saved` reads. Takes memory for them.
///
/// Errors: 7 (`TooLong`) where a list or the record has 2^64; 60 where there is no memory.
pub fn encode_saved(alloc: Global, value: &HostRecord) -> Result<Vec<u8>, Refusal>
    ensures writes_as_defined { Gives (λ v. v.items) result (written_in saved_form value.now) }
{
    written(alloc, value)
}

/// A question, read of bytes that are one from the first to the last. Takes memory for byte strings and lists.
///
/// Errors: 70 (`Damaged`) where the bytes are none, or something is left; 60 where there is no memory.
pub fn decode_question(alloc: Global, bytes: &[u8]) -> Result<Question, Refusal>
    ensures is_spelled_so { IfOk result (λ x. IsSpelledBy question_form bytes.now x) }
    ensures reads_each { (x : Question) → IsSpelledBy question_form bytes.now x → Gives (λ y. y) result (Ok x) }
    ensures reads_as_defined { Gives (λ x. x) result (whole_in question_form bytes.now) }
{
    whole(alloc, bytes)
}

/// The bytes of it, which `decode_question` reads. Takes memory for them.
///
/// Errors: 7 (`TooLong`) where a script has more than 65,535 bytes; 60 where there is no memory.
pub fn encode_question(alloc: Global, value: &Question) -> Result<Vec<u8>, Refusal>
    ensures writes_as_defined { Gives (λ v. v.items) result (written_in question_form value.now) }
{
    written(alloc, value)
}

/// An item of a link's line, read of bytes that are one from the first to the last. Takes memory for byte strings and
/// lists.
///
/// Errors: 70 (`Damaged`) where the bytes are none, or something is left; 60 where there is no memory.
pub fn decode_item(alloc: Global, bytes: &[u8]) -> Result<Item, Refusal>
    ensures is_spelled_so { IfOk result (λ x. IsSpelledBy item_form bytes.now x) }
    ensures reads_each { (x : Item) → IsSpelledBy item_form bytes.now x → Gives (λ y. y) result (Ok x) }
    ensures reads_as_defined { Gives (λ x. x) result (whole_in item_form bytes.now) }
{
    whole(alloc, bytes)
}

/// The bytes of it, which `decode_item` reads. Takes memory for them.
///
/// Errors: 7 (`TooLong`) where a script or a reason has more than 65,535 bytes; 60 where there is no memory.
pub fn encode_item(alloc: Global, value: &Item) -> Result<Vec<u8>, Refusal>
    ensures writes_as_defined { Gives (λ v. v.items) result (written_in item_form value.now) }
{
    written(alloc, value)
}

/// Where a link stands, read of bytes that are one from the first to the last. Takes memory for byte strings and lists.
///
/// Errors: 70 (`Damaged`) where the bytes are none, or something is left; 60 where there is no memory.
pub fn decode_summary(alloc: Global, bytes: &[u8]) -> Result<LinkSummary, Refusal>
    ensures is_spelled_so { IfOk result (λ x. IsSpelledBy summary_form bytes.now x) }
    ensures reads_each { (x : LinkSummary) → IsSpelledBy summary_form bytes.now x → Gives (λ y. y) result (Ok x) }
    ensures reads_as_defined { Gives (λ x. x) result (whole_in summary_form bytes.now) }
{
    whole(alloc, bytes)
}

/// The bytes of it, which `decode_summary` reads. Takes memory for them.
///
/// Errors: 7 (`TooLong`) where a list has 2^64; 60 where there is no memory.
pub fn encode_summary(alloc: Global, value: &LinkSummary) -> Result<Vec<u8>, Refusal>
    ensures writes_as_defined { Gives (λ v. v.items) result (written_in summary_form value.now) }
{
    written(alloc, value)
}

/// What a commitment is worth, read of bytes that are one from the first to the last. Takes memory for byte strings
/// and lists.
///
/// Errors: 70 (`Damaged`) where the bytes are none, or something is left; 60 where there is no memory.
pub fn decode_view(alloc: Global, bytes: &[u8]) -> Result<View, Refusal>
    ensures is_spelled_so { IfOk result (λ x. IsSpelledBy view_form bytes.now x) }
    ensures reads_each { (x : View) → IsSpelledBy view_form bytes.now x → Gives (λ y. y) result (Ok x) }
    ensures reads_as_defined { Gives (λ x. x) result (whole_in view_form bytes.now) }
{
    whole(alloc, bytes)
}

/// The bytes of it, which `decode_view` reads. Takes memory for them.
///
/// Errors: 7 (`TooLong`) where a list has 2^64; 60 where there is no memory.
pub fn encode_view(alloc: Global, value: &View) -> Result<Vec<u8>, Refusal>
    ensures writes_as_defined { Gives (λ v. v.items) result (written_in view_form value.now) }
{
    written(alloc, value)
}

/// A law: each kind has one form. What is written is read again, with nothing left; what is read is spelled so, and
/// fits.
pub fn one_form()
    ensures config { HasOneForm config_form }
    ensures spec { HasOneForm spec_form }
    ensures command { HasOneForm command_form }
    ensures saved { HasOneForm saved_form }
    ensures question { HasOneForm question_form }
    ensures item { HasOneForm item_form }
    ensures summary { HasOneForm summary_form }
    ensures view { HasOneForm view_form }
{}

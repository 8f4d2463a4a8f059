//! Items of a link's line as bytes, whose values stand elsewhere.

ghost use Rattle.std.specs.Prelude.{◌≡◌};
ghost use Rattle.ln_wire.specs.Items.{item_form, lent_in};
ghost use Rattle.ln_wire.specs.Forms.{Gives, written_in};
ghost use Rattle.ln_wire.specs.declared.items.Item.TheVariants as item;

use crate::wire::Wire;
use ln_hooks::ChannelEvent;
use ln_host::{Blank, HostRecord};
use ln_refusals::Refusal;
use ln_store::stored::{put_u8, put_u64};
use std::alloc::Global;

// The bytes of an item of this kind, whose value stands elsewhere.
fn lent<T: Wire>(alloc: Global, kind: u8, value: &T) -> Result<Vec<u8>, Refusal>
    ensures { Gives (λ v. v.items) result (lent_in kind T.format value.now) }
{
    if !value.fits() {
        return Err(Refusal::TooLong);
    }
    let mut out = Vec::new(alloc);
    put_u8(&mut out, kind)?;
    value.write(&mut out)?;
    Ok(out)
}

/// The bytes of the item that a record to be saved is: `encode_item` of it, without taking it. Errors as there.
#[tactic(auto, unfolding(crate::specs::Items::item_form))]
pub fn encode_record_item(alloc: Global, saved: &HostRecord) -> Result<Vec<u8>, Refusal>
    ensures writes_as_defined { Gives (λ v. v.items) result (written_in item_form (item.Record saved.now)) }
{
    lent(alloc, 1, saved)
}

/// The bytes of the item that a blank is: `encode_item` of it, without taking it. Errors as there.
#[tactic(auto, unfolding(crate::specs::Items::item_form))]
pub fn encode_blank_item(alloc: Global, blank: &Blank) -> Result<Vec<u8>, Refusal>
    ensures writes_as_defined { Gives (λ v. v.items) result (written_in item_form (item.Blank blank.now)) }
{
    lent(alloc, 2, blank)
}

/// The bytes of the item that an event of this number is: `encode_item` of it, without taking it. Errors as there.
#[tactic(auto, unfolding(crate::specs::Items::item_form))]
pub fn encode_event_item(
    alloc: Global,
    number: u64,
    event: &ChannelEvent,
) -> Result<Vec<u8>, Refusal>
    ensures writes_as_defined { Gives (λ v. v.items) result (written_in item_form (item.Event number event.now)) }
{
    if !event.fits() {
        return Err(Refusal::TooLong);
    }
    let mut out = Vec::new(alloc);
    put_u8(&mut out, 4)?;
    put_u64(&mut out, number)?;
    event.write(&mut out)?;
    Ok(out)
}

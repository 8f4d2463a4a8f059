//! What a node's channels hold, by the channels' numbers.

ghost use Rattle.std.specs.Prelude.{◌≡◌, IfOk};
ghost use Rattle.ln_node.specs.Held.{is_known_by, place_of, numbered};

use ln_book_tables::HeldHtlc;
use ln_log::ChannelId;
use std::alloc::{AllocError, Global};

// Whether a channel is known by this id.
fn is_known_by(known: &Option<ChannelId>, id: &ChannelId) -> bool
    ensures { result ≡ is_known_by known.now id.now }
{
    match known {
        None => false,
        Some(known) => known == id,
    }
}

// The first place where this id stands among those of channels.
fn place_of(ids: &[Option<ChannelId>], id: &ChannelId) -> Option<usize>
    ensures { result ≡ place_of ids.now id.now }
{
    for place in 0..ids.len() {
        if is_known_by(&ids[place], id) {
            return Some(place);
        }
    }
    None
}

/// Those of them whose channel is there, each with its number.
pub(crate) fn numbered(
    alloc: Global,
    ids: &[Option<ChannelId>],
    held: Vec<HeldHtlc>,
) -> Result<Vec<(usize, HeldHtlc)>, AllocError>
    ensures numbers { IfOk result (λ v. v.items ≡ numbered ids.now held.items) }
{
    let mut all = Vec::new(alloc);
    for htlc in held {
        if let Some(channel) = place_of(ids, &htlc.channel) {
            all.push((channel, htlc))?;
        }
    }
    Ok(all)
}

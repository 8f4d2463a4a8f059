//! What a commitment is worth, and the services that a channel end is handed: keys that sign it and
//! onions that travel with its HTLCs.
#![tactic(auto)]

mod hash;
mod keys;
mod onion;
mod partners;
mod role;
mod toy_keys;
mod toy_onion;
mod view;

pub use hash::sha256_32;
pub use keys::{ChannelKeys, Signed};
pub use onion::{Onion, OpenFault, Opened};
pub use partners::{partner_accepts, partner_accepts_close, partner_secret_fits};
pub use role::Role;
pub use toy_keys::ToyKeys;
pub use toy_onion::ToyOnion;
pub use view::{Htlc, Htlcs, View};

//! Channels that are opened, their connections, and what is set.

use crate::node::HostNode;
use crate::seat::Seat;
use ln_channel::{FitConfig, FitSpec};
use ln_host::HostRefusal;
use ln_library::exactly;
use ln_refusals::Refusal;
use ln_wire::{decode_config, decode_spec};
use std::alloc::Global;

impl HostNode {
    ghost use Rattle.std.specs.Prelude.{◌≡◌, true, Err};
    ghost use Rattle.ln_host.specs.declared.answer.HostRefusal.TheVariants as host;

    // A seat for the next channel, whose first point is this.
    fn make_seat(&mut self, alloc: Global, first_point: [u8; 33]) -> Result<(), Refusal> {
        let channel = self.manager.channel_count();
        match self.seats.get_mut(channel) {
            Some(seat) => seat.first_point = first_point,
            None => self.seats.push(Seat::new(alloc, first_point, None))?,
        }
        Ok(())
    }

    /// A channel that this side asks for, by the bytes of its spec and its first per commitment point: its number.
    ///
    /// Errors: 81 where the point hasn't 33 bytes, 70 where the bytes are no spec, 40 where no channel can be opened by
    /// it (`OpenSpec::fits`), 60; none of them adds a channel.
    pub fn open(
        &mut self,
        alloc: Global,
        spec: &[u8],
        first_point: &[u8],
    ) -> Result<usize, HostRefusal> {
        let first_point = exactly::<33>(first_point)?;
        let spec = decode_spec(alloc, spec)?;
        if !spec.fits() {
            drop(spec);
            return Err(HostRefusal::Refused(Refusal::NotReady));
        }
        if let Err(refusal) = self.make_seat(alloc, first_point) {
            drop(spec);
            return Err(HostRefusal::Refused(refusal));
        }
        let keys = Seat::blank_keys(first_point);
        let channel = self.manager.add_funder(alloc, keys, FitSpec::new(spec))?;
        Ok(channel)
    }

    /// A channel that a peer may ask for, by the bytes of a config and its first per commitment point: its number.
    /// Errors as those of `open`.
    pub fn accept(
        &mut self,
        alloc: Global,
        config: &[u8],
        first_point: &[u8],
    ) -> Result<usize, HostRefusal> {
        let first_point = exactly::<33>(first_point)?;
        let config = decode_config(alloc, config)?;
        if !config.fits() {
            drop(config);
            return Err(HostRefusal::Refused(Refusal::NotReady));
        }
        if let Err(refusal) = self.make_seat(alloc, first_point) {
            drop(config);
            return Err(HostRefusal::Refused(refusal));
        }
        let keys = Seat::blank_keys(first_point);
        let channel = self
            .manager
            .add_fundee(alloc, keys, FitConfig::new(config))?;
        Ok(channel)
    }

    /// Names the funding of a channel: `Link::name_funding`. Errors: 81 where the txid hasn't 32 bytes, 40.
    pub fn fund(&mut self, channel: usize, txid: &[u8], output: u16) -> Result<(), HostRefusal> {
        let txid = exactly::<32>(txid)?;
        self.manager.name_funding(channel, txid, output)?;
        Ok(())
    }

    /// There is a connection to the peer of a channel: `Link::connect`.
    ///
    /// Errors: 80 while an onion that was asked for after the load isn't known; 40 where there is no such channel;
    /// those of that call.
    pub fn connect(&mut self, alloc: Global, channel: usize) -> Result<(), HostRefusal>
        ensures onions_come_first { self.old.is_loading ≡ true → result ≡ Err host.Asks }
    {
        if self.is_loading {
            return Err(HostRefusal::Asks);
        }
        self.manager.connect(alloc, channel)?;
        Ok(())
    }

    /// The connection of a channel is lost, and with it the messages that wait. Nothing happens where there is none.
    /// Error: 60, by which the link halts.
    pub fn disconnect(&mut self, alloc: Global, channel: usize) -> Result<(), Refusal> {
        if let Some(seat) = self.seats.get_mut(channel) {
            seat.lose();
        }
        self.manager.disconnect(alloc, channel)
    }

    /// The block height from now on. Error: 40 above 400,000,000.
    pub fn set_height(&mut self, height: u32) -> Result<(), Refusal> {
        self.manager.set_height(height)
    }

    /// A payment is waited for: its preimage and its secret, 32 bytes each, and its amount in millisatoshi. Errors: 81
    /// where they haven't, 60.
    pub fn expect(
        &mut self,
        preimage: &[u8],
        secret: &[u8],
        amount_msat: u64,
    ) -> Result<(), HostRefusal> {
        let preimage = exactly::<32>(preimage)?;
        let secret = exactly::<32>(secret)?;
        self.manager.expect(preimage, secret, amount_msat)?;
        Ok(())
    }
}

//! Two nodes in a program of yours, of which one opens a channel with the other, and what it pays.

mod holding;

use crate::pair::{ToyNode, fundee, funder, with};
use ln_bytes::Bytes;
use ln_channel::Command;
use ln_keys::{ToyOnion, sha256_32};
use ln_refusals::Refusal;
use std::alloc::Global;
use std::net::{Net, TcpListener, TcpStream};
use std::sync::Wait;
use std::thread::Threads;

/// A payment of 70,000 millisatoshi by this preimage. Its onion tells the payee amt_to_forward, outgoing_cltv_value
/// 400 and payment_data with the secret, 32 bytes of 8 (BOLT 4, "`payload` Format").
fn payment(alloc: Global, preimage: &[u8; 32]) -> Result<Command, Refusal> {
    let mut payload = [8; 46];
    payload[..11].copy_from_slice(&[2, 3, 1, 17, 112, 4, 2, 1, 144, 8, 35]);
    payload[43..].copy_from_slice(&[1, 17, 112]);
    let mut payloads = Vec::new(alloc);
    payloads.push(Bytes::from_slice(alloc, &payload)?)?;
    let hash = sha256_32(preimage);
    match ToyOnion::make(payloads.as_slice(), &hash) {
        Some(onion) => Ok(Command::Add {
            amount: 70_000,
            hash,
            expiry: 400,
            onion,
            origin: None,
        }),
        None => Err(Refusal::TooLong),
    }
}

/// The payee, which listens, and the payer, which connects and opens a channel.
fn nodes<R>(rt: R, alloc: Global) -> Result<(ToyNode, ToyNode), Refusal>
where
    R: Net<Listener = TcpListener, Stream = TcpStream> + Threads + Wait + Copy + Send + 'static,
{
    let (payee, address) = fundee(rt, alloc)?;
    let payer = funder(rt, alloc, address);
    with(payee, payer)
}

//! Onions for tests. They are not secure: each payload stands open in its place.

ghost use Rattle.std.specs.Prelude.{◌≡◌, ◌+◌, ◌-◌, ◌≤◌, ◌<◌, ◌++◌, ◌∷◌, ◌⊎◌, ℕ, List, length, take, drop, Ok, Err};
ghost use Rattle.std.specs.Prelude.{None, Some, IfOk, IfErr, IfSome, IfNone};
ghost use Rattle.ln_bytes.specs.Bigsize.{bigsize_at};
ghost use Rattle.ln_bytes.specs.Same.{are_same};
ghost use Rattle.ln_keys.specs.Onion.{onion_key, onion_payloads, onion_hmac};
ghost use Rattle.ln_keys.specs.ToyOnion.{toy_key, toy_hmac, filled, with_length, toy_made, passed_on, next_packet};
ghost use Rattle.ln_keys.specs.ToyOnion.{hop_of, hop_behind, packet_fault, toy_opened, toy_services};

use crate::onion::{Onion, OpenFault, Opened};
use ln_bytes::{Bytes, read_bigsize, write_bigsize};
use ln_refusals::Refusal;
use sha2::{Digest, Sha256};
use std::alloc::{AllocError, Global};

/// Onions whose payloads are readable by every hop.
///
/// The packet has version 0, the key 02 and 32 zero bytes, the payloads one after the other, each after its
/// length as a BigSize, zeros up to 1,300 bytes, and as HMAC the SHA-256 of these 1,300 bytes and the
/// payment hash.
#[derive(Clone, Copy, PartialEq, Eq)]
pub struct ToyOnion;

/// How many bytes the payloads have in a packet.
const ROOM: usize = 1300;

/// 02 and 32 zero bytes.
#[tactic(auto, unfolding(crate::specs::ToyOnion::toy_key))]
fn key() -> [u8; 33]
    ensures { result ≡ toy_key }
{
    let mut key = [0; 33];
    key[0] = 2;
    key
}

/// The SHA-256 of the payloads and the payment hash.
#[tactic(auto, unfolding(crate::specs::ToyOnion::toy_hmac))]
fn hmac_of(payloads: &[u8], hash: &[u8; 32]) -> [u8; 32]
    ensures { result ≡ toy_hmac payloads.now hash.now }
{
    let mut hasher = Sha256::new();
    hasher.update(payloads);
    hasher.update(hash.as_slice());
    hasher.finalize()
}

/// Writes the bytes at a place, over what stood there.
fn put(room: &mut [u8], at: usize, bytes: &[u8])
    requires { at + length bytes.now ≤ length room.old }
    ensures { room.new ≡ take at room.old ++ bytes.now ++ drop (at + length bytes.now) room.old }
{
    room[at..at + bytes.len()].copy_from_slice(bytes);
}

/// The bytes, and zeros after them.
fn room_of(bytes: &[u8]) -> [u8; 1300]
    requires { length bytes.now ≤ 1300 }
    ensures { result ≡ filled bytes.now }
{
    let mut room = [0; ROOM];
    put(&mut room, 0, bytes);
    room
}

/// Version 0, the key, and room after them.
fn headed() -> [u8; 1366]
    ensures { take 34 result ≡ 0 ∷ toy_key }
{
    let mut packet = [0; 1366];
    put(&mut packet, 1, &key());
    packet
}

/// The packet of these 1,300 bytes.
fn packed(room: &[u8; 1300], hash: &[u8; 32]) -> [u8; 1366]
    ensures { result ≡ (0 ∷ toy_key) ++ room.now ++ toy_hmac room.now hash.now }
{
    let mut packet = headed();
    put(&mut packet, 34, room);
    put(&mut packet, 1334, &hmac_of(room, hash));
    packet
}

/// Writes a payload after its length, where there is room, and says where it ends.
fn place(room: &mut [u8; 1300], at: usize, payload: &[u8]) -> Option<usize>
    requires { at ≤ 1300 }
    ensures is_beyond_the_packet { IfNone result (1300 < at + length (with_length payload.now)) }
    ensures ends_within_the_packet { IfSome result (λ n. (n ≡ at + length (with_length payload.now)) × (n ≤ 1300)) }
    ensures bytes { IfSome result (λ n. room.new ≡ take at room.old ++ with_length payload.now ++ drop n room.old) }
{
    let mut head = [0; 9];
    let head_len = write_bigsize(payload.len() as u64, &mut head);
    let left = ROOM - at;
    if left < head_len || left - head_len < payload.len() {
        return None;
    }
    put(room, at, &head[..head_len]);
    put(room, at + head_len, payload);
    Some(at + head_len + payload.len())
}

fn has_key(onion: &[u8; 1366]) -> bool
    ensures { result ≡ are_same (onion_key onion.now) toy_key }
{
    &onion[1..34] == key().as_slice()
}

fn has_hmac(onion: &[u8; 1366], hash: &[u8; 32]) -> bool
    ensures { result ≡ are_same (onion_hmac onion.now) (toy_hmac (onion_payloads onion.now) hash.now) }
{
    &onion[1334..] == hmac_of(&onion[34..1334], hash).as_slice()
}

/// The first fault of a packet's parts.
fn packet_fault_of(onion: &[u8; 1366], hash: &[u8; 32]) -> Option<OpenFault>
    ensures { result ≡ packet_fault onion.now hash.now }
{
    if onion[0] != 0 {
        Some(OpenFault::Version)
    } else if !has_key(onion) {
        Some(OpenFault::Key)
    } else if !has_hmac(onion, hash) {
        Some(OpenFault::Hmac)
    } else {
        None
    }
}

/// The onion that has what is left to the front, where something is left and doesn't begin with 0.
fn next_onion(alloc: Global, rest: &[u8], hash: &[u8; 32]) -> Result<Option<Bytes>, OpenFault>
    requires { length rest.now ≤ 1300 }
    ensures gives_the_next { IfOk result (λ n. n ≡ next_packet rest.now hash.now) }
    ensures next_has_1366_bytes { IfOk result (λ n. IfSome n (λ p. length p ≡ 1366)) }
    ensures fails_for_memory_alone { IfErr result (λ e. e ≡ OpenFault.Memory) }
{
    match rest {
        [] | [0, ..] => Ok(None),
        _ => {
            let packet = packed(&room_of(rest), hash);
            Ok(Some(Bytes::from_slice(alloc, &packet)?))
        }
    }
}

/// The hop of so many bytes at the front.
fn hop(alloc: Global, len: u64, bytes: &[u8], hash: &[u8; 32]) -> Result<Opened, OpenFault>
    requires { length bytes.now ≤ 1300 }
    ensures found { IfOk result (λ o. hop_of len bytes.now hash.now ≡ Ok o) }
    ensures fault { IfErr result (λ e. (e ≡ OpenFault.Memory) ⊎ (hop_of len bytes.now hash.now ≡ Err e)) }
    ensures next_has_1366_bytes { IfOk result (λ o. IfSome o.next (λ n. length n ≡ 1366)) }
{
    if len == 0 || (bytes.len() as u64) < len {
        return Err(OpenFault::Payload);
    }
    let end = len as usize;
    let payload = Bytes::from_slice(alloc, &bytes[..end])?;
    let next = next_onion(alloc, &bytes[end..], hash)?;
    Ok(Opened { payload, next })
}

/// The hop after its length.
fn first_hop(alloc: Global, bytes: &[u8], hash: &[u8; 32]) -> Result<Opened, OpenFault>
    requires { length bytes.now ≤ 1300 }
    ensures found { IfOk result (λ o. hop_behind (bigsize_at bytes.now) bytes.now hash.now ≡ Ok o) }
    ensures fault { IfErr result (λ e. (e ≡ OpenFault.Memory)
        ⊎ (hop_behind (bigsize_at bytes.now) bytes.now hash.now ≡ Err e)) }
    ensures next_has_1366_bytes { IfOk result (λ o. IfSome o.next (λ n. length n ≡ 1366)) }
{
    match read_bigsize(bytes) {
        Ok((len, start)) => hop(alloc, len, &bytes[start..], hash),
        Err(_fault) => Err(OpenFault::Payload),
    }
}

impl Onion for ToyOnion {
    ghost services = { λ _. toy_services };

    fn open(
        &self,
        alloc: Global,
        onion: &[u8; 1366],
        hash: &[u8; 32],
    ) -> Result<Opened, OpenFault> {
        if let Some(fault) = packet_fault_of(onion, hash) {
            return Err(fault);
        }
        first_hop(alloc, &onion[34..1334], hash)
    }

    fn wrap_failure(
        &self,
        alloc: Global,
        _onion: &[u8; 1366],
        _hash: &[u8; 32],
        failure: &[u8],
    ) -> Result<Bytes, Refusal> {
        Ok(Bytes::from_slice(alloc, failure)?)
    }

    fn wrap_again(
        &self,
        alloc: Global,
        _onion: &[u8; 1366],
        _hash: &[u8; 32],
        reason: &[u8],
    ) -> Result<Bytes, Refusal> {
        Ok(Bytes::from_slice(alloc, reason)?)
    }
}

impl ToyOnion {
    /// The onion that carries these payloads, the first hop's first, under a payment hash. `None` where
    /// they and their lengths pass 1,300 bytes. Takes no memory.
    pub fn make(payloads: &[Bytes], hash: &[u8; 32]) -> Option<[u8; 1366]>
        ensures { result ≡ toy_made payloads.now hash.now }
    {
        let mut room = room_of(&[]);
        let mut at = 0;
        for payload in payloads {
            let Some(end) = place(&mut room, at, payload.as_slice()) else {
                return None;
            };
            at = end;
        }
        Some(packed(&room, hash))
    }

    /// A law: an onion that was made is opened again, under the same payment hash. The first hop finds the
    /// first payload, and passes on the onion that would be made of the others.
    pub fn opened_again()
        ensures { (payload : List ℕ) (payloads : List (List ℕ)) (hash onion : List ℕ) → 0 < length payload
            → toy_made (payload ∷ payloads) hash ≡ Some onion
            → toy_opened onion hash ≡ Ok (record { payload = payload; next = passed_on payloads hash }) }
    {}
}

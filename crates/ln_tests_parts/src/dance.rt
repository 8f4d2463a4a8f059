//! Two sides that dance over toy keys. What stands in hex was computed by a separate Python program over hashlib.

use crate::testing::{bytes_of, message_of, point_of, side, signature_of};
use ln_dance::{Dance, Later, Numbers, Peer, update_of};
use ln_keys::{ChannelKeys, Role, ToyKeys};
use ln_log::{Pair, Update};
use ln_msgs::{CommitmentSigned, RevokeAndAck};
use ln_refusals::Refusal;
use ln_tests_ends::{FUNDEE, FUNDER, boxed, htlc};
use std::alloc::Global;

/// What a turn shows: the signature, and the revocation's secret and point.
type Shown = ([u8; 64], [u8; 32], [u8; 33]);

/// One side signs, the other accepts, and the first learns.
fn turn(
    alloc: Global,
    signer: &mut Dance,
    signer_keys: &ToyKeys,
    taker: &mut Dance,
    taker_keys: &ToyKeys,
) -> Result<Shown, Refusal> {
    let signed = boxed(alloc, signer.sign(alloc, signer_keys)?)?;
    let accepted = taker.accept(alloc, taker_keys, &signed);
    let told = match &accepted {
        Ok(revocation) => learned(signer, signer_keys, &signed, revocation),
        Err(refusal) => Err(*refusal),
    };
    drop(accepted);
    told
}

/// The one that has signed learns the revocation.
fn learned(
    signer: &mut Dance,
    signer_keys: &ToyKeys,
    signed: &CommitmentSigned,
    revocation: &RevokeAndAck,
) -> Result<Shown, Refusal> {
    signer.learn(signer_keys, revocation)?;
    Ok((signed.signature, revocation.secret, revocation.next_point))
}

/// The funder offers an HTLC, and the fundee takes it.
fn offer(a: &mut Dance, b: &mut Dance) -> Result<(), Refusal> {
    let id = a.log().next_id();
    a.propose(Update::Add(htlc(id, 5000, 400)))?;
    b.receive(Update::Add(htlc(id, 5000, 400)))
}

/// The numbers of the funder and of the fundee.
fn numbers(a: &Dance, b: &Dance) -> [u64; 6] {
    let x = a.numbers();
    let y = b.numbers();
    [
        x.commitment,
        x.signed,
        x.revoked,
        y.commitment,
        y.signed,
        y.revoked,
    ]
}

/// The funder and the fundee after an opening.
fn sides(alloc: Global) -> Result<(Box<Dance>, Box<Dance>), Refusal> {
    let a = Box::new(alloc, side(alloc, Role::Funder, &FUNDEE, 0))?;
    let b = Box::new(alloc, side(alloc, Role::Fundee, &FUNDER, 0))?;
    Ok((a, b))
}

/// What both turns tell after an offer. What is offered before them and lost with the connection leaves nothing.
fn turns(alloc: Global, a: &mut Dance, b: &mut Dance) -> Result<[Shown; 2], Refusal> {
    offer(a, b)?;
    a.drop_unsigned();
    b.drop_unsigned();
    offer(a, b)?;
    let out = turn(alloc, a, &FUNDER, b, &FUNDEE)?;
    let back = turn(alloc, b, &FUNDEE, a, &FUNDER)?;
    Ok([out, back])
}

/// Half of a signature, a secret and a point after its 02.
const OUT: (&str, &str, &str) = (
    "5838e7d2e16412251d796da42ab6afb0c22ab0b83a8d25ae8ad0e71099884744",
    "d362758e70221a3d374987355c7bbb501b05d577e12bb9507c02ebc789bf1f5b",
    "a7e7cceb2df46fff32324ac4cda0e65a8a588810fef08409f906d5c09395a8bb",
);

const BACK: (&str, &str, &str) = (
    "2e4e0c3c96e51ec319a2bf409db4ac2854c28b3be051886bf22864f80361abe7",
    "1267c212fa828e9e500a5fc4307138c9150a9427f4782881716ac8595a4ac718",
    "eb9c357a3f3d7c3a584373f5b9db488bb13bd1b208fee7758f91f92c2c83b7b3",
);

fn shown_of(row: (&str, &str, &str)) -> Shown {
    (signature_of(row.0), bytes_of(row.1), point_of(row.2))
}

/// Whether an offer and a turn of either side tell this.
fn are_shown(alloc: Global, a: &mut Dance, b: &mut Dance) -> Result<bool, Refusal> {
    let told = turns(alloc, a, b)?;
    let learned = Peer {
        point: FUNDEE.point(1),
        next_point: [5; 33],
        secret: Some(bytes_of(OUT.1)),
    };
    a.take_point([5; 33]);
    let others = Numbers {
        commitment: 0,
        signed: 3,
        revoked: 1,
    };
    Ok(
        told == [shown_of(OUT), shown_of(BACK)]
            && a.peer() == learned
            && numbers(a, b) == [1; 6]
            && a.later() == Later::Revocation
            && b.later() == Later::Signature
            && Dance::fits(&a.numbers(), a.log())
            && !Dance::fits(&others, a.log()),
    )
}

#[test]
fn signatures_and_revocations(rt: HostRuntime) -> Result<(), Refusal> {
    let (mut a, mut b) = sides(rt.alloc())?;
    assert!(rt; are_shown(rt.alloc(), &mut a, &mut b)?);
    Ok(())
}

/// The funder offers and signs, and the fundee accepts: the refusal, and whether each side whose call was refused is as
/// it was.
fn refused_memory(alloc: Global, a: &mut Dance, b: &mut Dance) -> (Result<(), Refusal>, bool) {
    if let Err(refusal) = offer(a, b) {
        return (Err(refusal), true);
    }
    match turn(alloc, a, &FUNDER, b, &FUNDEE) {
        Ok(_told) => (Ok(()), numbers(a, b) == [0, 1, 1, 1, 0, 0]),
        Err(refusal) => {
            let signed = a.log().counts(Pair::Signed).own as u64;
            (Err(refusal), numbers(a, b) == [0, signed, 0, 0, 0, 0])
        }
    }
}

#[test]
fn small_turn(rt: HostRuntime) -> Result<(), Refusal> {
    let (mut a, mut b) = sides(rt.alloc())?;
    let (answer, unchanged) = refused_memory(rt.alloc(), &mut a, &mut b);
    assert!(rt; unchanged);
    answer
}

/// What an update says: its type's number, and of its fields what fits a number: id, amount and expiry; id and ends of
/// the preimage; id, length and first byte of the reason; id, end of the onion's hash and code; the feerate.
fn fields_of(update: &Update) -> [u64; 4] {
    match update {
        Update::Add(add) => [128, add.id, add.amount, u64::from(add.expiry)],
        Update::Fulfil(it) => [
            130,
            it.id,
            u64::from(it.preimage[0]),
            u64::from(it.preimage[31]),
        ],
        Update::Fail(it) => [131, it.id, it.reason.len() as u64, 0],
        Update::Malformed(it) => {
            [
                135,
                it.id,
                u64::from(it.sha256_of_onion[31]),
                u64::from(it.failure_code),
            ]
        }
        Update::Fee(it) => [134, u64::from(it.feerate), 0, 0],
    }
}

/// What the update says that a message of this type tells, whose bytes after the type are these, each so many times;
/// zeros where it tells none.
fn shown_update(alloc: Global, typ: u16, runs: &[(usize, u8)]) -> Result<[u64; 4], Refusal> {
    let made = update_of(message_of(alloc, typ, runs)?);
    let fields = match &made {
        Some(update) => fields_of(update),
        None => [0; 4],
    };
    drop(made);
    Ok(fields)
}

/// A message's type, the bytes after it, and what it tells.
type Row = (u16, &'static [(usize, u8)], [u64; 4]);

/// After the channel's id each message has the fields of its table in BOLT 2, high byte first.
const MESSAGES: [Row; 6] = [
    (
        128,
        &[
            (32, 9),
            (7, 0),
            (1, 3),
            (6, 0),
            (2, 19),
            (32, 7),
            (2, 0),
            (2, 1),
            (1366, 0),
        ],
        [128, 3, 4883, 257],
    ),
    (
        130,
        &[(32, 9), (7, 0), (1, 4), (1, 5), (31, 6)],
        [130, 4, 5, 6],
    ),
    (
        131,
        &[(32, 9), (7, 0), (1, 5), (1, 0), (1, 2), (2, 8)],
        [131, 5, 2, 0],
    ),
    (
        135,
        &[(32, 9), (7, 0), (1, 6), (32, 7), (1, 0xc0), (1, 5)],
        [135, 6, 7, 0xc005],
    ),
    (134, &[(32, 9), (2, 0), (2, 1)], [134, 257, 0, 0]),
    // a ping tells none
    (18, &[(4, 0)], [0; 4]),
];

#[test]
fn updates_of_messages(rt: HostRuntime) {
    let alloc = rt.alloc();
    for row in &MESSAGES {
        assert_eq!(rt; shown_update(alloc, row.0, row.1), Ok(row.2));
    }
}

//! Payloads of hops, fees, and whether a payment is forwarded or taken.

use Failure::{
    AmountBelowMinimum, ExpiryTooFar, ExpiryTooSoon, FeeInsufficient, FinalIncorrectCltvExpiry,
    FinalIncorrectHtlcAmount, IncorrectCltvExpiry,
    IncorrectOrUnknownPaymentDetails as PaymentDetails, InvalidOnionPayload,
    TemporaryChannelFailure, UnknownNextPeer,
};
use ln_bytes::{Fault, ShortId};
use ln_forward::{
    Expected, Failure, Incoming, Payload, Payment, Policy, Route, check_final, check_forward,
    one_payload, read_payload,
};
use std::alloc::Global;

/// A payload of an amount, an expiry and a short channel id.
const HOP: [u8; 18] = [
    2, 2, 0x13, 0x88, 4, 2, 0x01, 0x90, 6, 8, 0, 0, 1, 0, 0, 2, 0, 3,
];

const PAYMENT: Payment = Payment {
    secret: [7; 32],
    total: 5000,
};

const fn asks(amount: Option<u64>, expiry: Option<u32>, payment: Option<Payment>) -> Payload {
    Payload {
        amount,
        expiry,
        next: None,
        payment,
    }
}

/// Whether these bytes are read as this payload.
fn is_read(alloc: Global, bytes: &[u8], payload: &Payload) -> Result<bool, Fault> {
    let read = read_payload(alloc, bytes)?;
    Ok(read == *payload)
}

#[test]
fn small_payload(rt: HostRuntime) -> Result<(), Fault> {
    one_payload();
    let next = ShortId::parse("1x2x3");
    let payload = Payload {
        next,
        ..asks(Some(5000), Some(400), None)
    };
    assert!(rt; is_read(rt.alloc(), &HOP, &payload)?);
    Ok(())
}

/// After type 8 the payment's secret, and its total in two bytes.
fn payment_data() -> [u8; 36] {
    let mut data = [7; 36];
    data[..2].copy_from_slice(&[8, 34]);
    data[34..].copy_from_slice(&[0x13, 0x88]);
    data
}

/// Payloads that can't be read, each with its first fault.
const FAULTY: [(&[u8], Fault); 7] = [
    (&[4, 1, 0], Fault::NotMinimal),
    (&[2, 3, 0, 0x13, 0x88], Fault::NotMinimal),
    (&[4, 2, 1, 0x90, 2, 2, 0x13, 0x88], Fault::TlvOrder),
    (&[2, 2, 0x13, 0x88, 6, 1, 0xff], Fault::FieldLength),
    (&[2, 2, 0x13, 0x88, 4], Fault::Truncated),
    (&[2, 5, 0x13], Fault::TlvLength),
    (&[0x0a, 0], Fault::TlvUnknownEven),
];

#[test]
fn payloads(rt: HostRuntime) {
    let payload = asks(None, None, Some(PAYMENT));
    assert!(rt; is_read(rt.alloc(), &payment_data(), &payload) == Ok(true));
    for row in &FAULTY {
        assert!(rt; read_payload(rt.alloc(), row.0).err() == Some(row.1));
    }
}

const POLICY: Policy = Policy {
    base: 1000,
    proportional: 100,
    delta: 40,
};

#[test]
fn fees(rt: HostRuntime) {
    let dear = Policy {
        base: u32::MAX,
        proportional: u32::MAX,
        delta: 0,
    };
    assert!(rt; POLICY.fee(5_000_000) == 1500);
    assert!(rt; dear.fee(u64::MAX) == 79_228_162_495_821_888_482_834);
}

const INCOMING: Incoming = Incoming {
    amount: 5_001_500,
    expiry: 440,
};

/// What is told of a hop at the height 100 that is asked to forward so much by 400.
fn forwards(amount: u64) -> Result<(), Failure> {
    let payload = Payload {
        next: ShortId::parse("1x2x3"),
        ..asks(Some(amount), Some(400), None)
    };
    let route = Route {
        usable: true,
        minimum: 1,
    };
    check_forward(&INCOMING, &payload, Some(&route), &POLICY, 100)
}

// The fee of 5,000,000 is just paid.
#[test]
fn forwards_or_not(rt: HostRuntime) {
    assert!(rt; forwards(5_000_000) == Ok(()));
    assert!(rt; forwards(5_000_001) == Err(FeeInsufficient(5_001_500)));
}

/// What is told of the end of a payment of 5,001,500 at the height 100, where so much is expected.
fn takes(amount: u64) -> Result<(), Failure> {
    let expected = Expected {
        secret: [7; 32],
        amount,
    };
    let total = INCOMING.amount;
    let payment = Payment { total, ..PAYMENT };
    let payload = asks(Some(total), Some(400), Some(payment));
    check_final(&INCOMING, &payload, Some(&expected), 100)
}

#[test]
fn takes_or_not(rt: HostRuntime) {
    assert!(rt; takes(5_001_500) == Ok(()));
    assert!(rt; takes(5_001_501) == Err(PaymentDetails(5_001_500, 100)));
}

/// Whether the failure is written as these bytes, which begin with its code.
fn is_written(alloc: Global, failure: Failure, want: &[u8]) -> Result<bool, Fault> {
    let bytes = failure.to_bytes(alloc)?;
    Ok(bytes.as_slice() == want && bytes.starts_with(&failure.code().to_be_bytes()))
}

/// Bytes by hand.
const FAILURES: [(Failure, &[u8]); 12] = [
    (TemporaryChannelFailure, &[0x10, 7, 0, 0]),
    (UnknownNextPeer, &[0x40, 0x0a]),
    (
        AmountBelowMinimum(258),
        &[0x10, 0x0b, 0, 0, 0, 0, 0, 0, 1, 2, 0, 0],
    ),
    (
        FeeInsufficient(1),
        &[0x10, 0x0c, 0, 0, 0, 0, 0, 0, 0, 1, 0, 0],
    ),
    (IncorrectCltvExpiry(400), &[0x10, 0x0d, 0, 0, 1, 0x90, 0, 0]),
    (ExpiryTooSoon, &[0x10, 0x0e, 0, 0]),
    (
        PaymentDetails(258, 3),
        &[0x40, 0x0f, 0, 0, 0, 0, 0, 0, 1, 2, 0, 0, 0, 3],
    ),
    (FinalIncorrectCltvExpiry(400), &[0, 0x12, 0, 0, 1, 0x90]),
    (
        FinalIncorrectHtlcAmount(3),
        &[0, 0x13, 0, 0, 0, 0, 0, 0, 0, 3],
    ),
    (ExpiryTooFar, &[0, 0x15]),
    (InvalidOnionPayload(6), &[0x40, 0x16, 6, 0, 0]),
    (InvalidOnionPayload(253), &[0x40, 0x16, 0xfd, 0, 0xfd, 0, 0]),
];

#[test]
fn failures(rt: HostRuntime) {
    let alloc = rt.alloc();
    for row in &FAILURES {
        assert!(rt; is_written(alloc, row.0, row.1) == Ok(true));
    }
}

#[test]
fn small_failure(rt: HostRuntime) -> Result<(), Fault> {
    assert!(rt; is_written(rt.alloc(), ExpiryTooFar, &[0x00, 0x15])?);
    Ok(())
}

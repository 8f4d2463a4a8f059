//! Keys and onions. What stands in hex was computed by a separate Python program over hashlib.

use crate::testing::{bytes_of, point_of, signature_of};
use ln_bytes::Bytes;
use ln_keys::{
    ChannelKeys, Htlc, Htlcs, Onion, OpenFault, Role, Signed, ToyKeys, ToyOnion, View,
    partner_accepts, partner_accepts_close, partner_secret_fits, sha256_32,
};
use ln_refusals::Refusal;
use ln_tests_ends::{FUNDEE, FUNDER};
use std::alloc::{AllocError, Global};

/// The digest of 32 zero bytes.
const OF_ZEROS: &str = "66687aadf862bd776c8fc18b8e9f8e20089714856ee233b3902a591d0d5f2925";

/// A number, and the funder's secret and point of that number.
const SECRETS: [(u64, &str, &str); 2] = [
    (
        0,
        "1267c212fa828e9e500a5fc4307138c9150a9427f4782881716ac8595a4ac718",
        "be1cb3118620b19fff27de8b21949ea2590c184a1ecbfb5acbfaceda768443a5",
    ),
    (
        0x0102_0304_0506_0708,
        "23555b17e4768b77f2bc9f6ec133de44ac2d54c1a5b4bca64772a6abd3782ba5",
        "50f61f7381134f9e2d2878441f95028889fca40587f86779e3d41fa7fcd7c009",
    ),
];

/// Whether these are the funder's secret and point of a number, and fit each other alone.
fn is_secret(number: u64, secret: &str, point: &str) -> bool {
    let secret = bytes_of(secret);
    let point = point_of(point);
    FUNDER.secret(number) == secret
        && FUNDER.point(number) == point
        && FUNDEE.secret_fits(number, &secret, &point)
        && !FUNDEE.secret_fits(number, &[0; 32], &point)
}

#[test]
fn secrets_and_points(rt: HostRuntime) {
    assert!(rt; sha256_32(&[0; 32]) == bytes_of(OF_ZEROS));
    for row in &SECRETS {
        assert!(rt; is_secret(row.0, row.1, row.2));
    }
}

const POINT: [u8; 33] = [7; 33];

const MOST: u64 = 0x1_0000_0000_0000;

/// Half of the signature of number 2^48 over a view with two HTLCs.
const TWO: &str = "3fc8da28986ce1f30160bb9a7d9a8039e853cb118ef0a63da6e522cf2485ef22";

/// One HTLC of either side.
fn two_htlcs(alloc: Global) -> Result<View, AllocError> {
    let first = Htlc {
        owner: Role::Funder,
        id: 5,
        amount: 1000,
        hash: [9; 32],
        expiry: 600,
    };
    let second = Htlc {
        owner: Role::Fundee,
        id: 0,
        amount: 0x0a0b_0c0d_0e0f_1011,
        hash: [8; 32],
        expiry: 0x1234_5678,
    };
    Ok(View {
        funder: 0x1122_3344_5566_7788,
        fundee: 2,
        feerate: 0xaabb_ccdd,
        htlcs: Htlcs::new([first, second].to_vec(alloc)?),
    })
}

/// Half of the signature of number 0 over a view with no HTLC.
const NONE: &str = "c679210fbc41d0b5dd24f3b28aeb2a516b5977e8c0ed8c5566421f25bebaa9ce";

/// Whether the funder's signature over the view is this, and each of its HTLCs, so many, has the same.
fn is_signed(
    alloc: Global,
    view: &View,
    number: u64,
    count: usize,
    half: &str,
) -> Result<bool, Refusal> {
    let right = signature_of(half);
    let Signed { sig, htlcs } = FUNDER.sign(alloc, number, &POINT, view)?;
    for one in htlcs.as_slice() {
        if *one != right {
            return Ok(false);
        }
    }
    Ok(sig == right && htlcs.len() == count)
}

#[test]
fn small_sign(rt: HostRuntime) -> Result<(), Refusal> {
    let view = two_htlcs(rt.alloc())?;
    assert!(rt; is_signed(rt.alloc(), &view, MOST, 2, TWO)?);
    Ok(())
}

#[test]
fn a_view_with_no_htlc(rt: HostRuntime) -> Result<(), Refusal> {
    let view = View {
        funder: 1_000_000,
        fundee: 2_000,
        feerate: 253,
        htlcs: Htlcs::new(Vec::new(rt.alloc())),
    };
    assert!(rt; is_signed(rt.alloc(), &view, 0, 0, NONE)?);
    Ok(())
}

/// Whether the signature over the view is taken, and none where the signature of an HTLC is another.
fn is_taken(view: &View) -> bool {
    let right = signature_of(TWO);
    FUNDEE.verify(MOST, &POINT, view, &right, &[right, right])
        && !FUNDEE.verify(MOST, &POINT, view, &right, &[right, [0; 64]])
}

#[test]
fn accepts_what_is_right_alone(rt: HostRuntime) -> Result<(), AllocError> {
    let view = two_htlcs(rt.alloc())?;
    assert!(rt; is_taken(&view));
    Ok(())
}

/// Half of the funder's signature of a close at a fee of 0x1020.
const CLOSE: &str = "a461a7fc3c52c67fdb3cdf2b1a9fbdf98ff8b81c238ce54ef73d1ea107e935e0";

#[test]
fn closes(rt: HostRuntime) {
    let right = signature_of(CLOSE);
    assert!(rt; FUNDER.sign_close(0x1020) == right);
    assert!(rt; FUNDEE.verify_close(0x1020, &right) && !FUNDEE.verify_close(0x1021, &right));
}

#[test]
fn small_partners(rt: HostRuntime) -> Result<(), Refusal> {
    ToyKeys::crossed(FUNDER, FUNDEE);
    assert!(rt; Role::Funder.other() == Role::Fundee);
    assert!(rt; partner_accepts_close(&FUNDER, &FUNDEE, 7));
    assert!(rt; partner_secret_fits(&FUNDER, &FUNDEE, MOST));
    let view = two_htlcs(rt.alloc())?;
    assert!(rt; partner_accepts(rt.alloc(), &FUNDER, &FUNDEE, MOST, &POINT, &view)?);
    Ok(())
}

const HASH: [u8; 32] = [5; 32];

/// An onion whose payloads begin with these bytes, others after them.
fn onion_of(front: [u8; 7], rest: u8, hmac: &str) -> [u8; 1366] {
    let mut onion = [rest; 1366];
    onion[..34].copy_from_slice(&[0; 34]);
    onion[1] = 2;
    onion[34..41].copy_from_slice(&front);
    onion[1334..].copy_from_slice(&bytes_of(hmac));
    onion
}

/// Two payloads, 01 01 01 and 04 04.
fn two_payloads() -> [u8; 1366] {
    let hmac = "ad7036145d1e1dcda2b4926d83997a28dae24d123d9405b2aa4dda8e6e70993f";
    onion_of([3, 1, 1, 1, 2, 4, 4], 0, hmac)
}

/// The same for its second hop.
fn one_payload() -> [u8; 1366] {
    let hmac = "a982a5cd383743f3ee072a0b17672908b566fd04e4926d5afe758a56fff569c1";
    onion_of([2, 4, 4, 0, 0, 0, 0], 0, hmac)
}

/// One payload of 1,297 bytes 09, which fills it.
fn full() -> [u8; 1366] {
    let hmac = "3f15647cd48c91b793b2845fad0b72dd6553b29ee4a7e59b30bc64738b9069e2";
    onion_of([0xfd, 5, 17, 9, 9, 9, 9], 9, hmac)
}

/// Whether this is the onion of payloads, each of so many times a byte.
fn is_made(
    alloc: Global,
    payloads: &[(usize, u8)],
    onion: Option<[u8; 1366]>,
) -> Result<bool, AllocError> {
    let mut list = Vec::new(alloc);
    for (count, byte) in payloads {
        list.push(Bytes::new(vec![in alloc; *byte; *count]?))?;
    }
    Ok(ToyOnion::make(&list, &HASH) == onion)
}

fn onions_are_made(alloc: Global) -> Result<bool, AllocError> {
    Ok(
        is_made(alloc, &[(3, 1), (2, 4)], Some(two_payloads()))?
            && is_made(alloc, &[(2, 4)], Some(one_payload()))?
            && is_made(alloc, &[(1297, 9)], Some(full()))?
            && is_made(alloc, &[(1298, 9)], None)?,
    )
}

#[test]
fn onions_that_are_made(rt: HostRuntime) {
    ToyOnion::opened_again();
    assert!(rt; onions_are_made(rt.alloc()) == Ok(true));
}

/// Whether the onion opens to a payload of this length and to this onion for the next hop.
fn opens_to(
    alloc: Global,
    onion: &[u8; 1366],
    len: usize,
    next: Option<&[u8; 1366]>,
) -> Result<bool, OpenFault> {
    let opened = ToyOnion.open(alloc, onion, &HASH)?;
    let passed_on = match (&opened.next, next) {
        (None, None) => true,
        (Some(found), Some(next)) => found.as_slice() == next.as_slice(),
        _ => false,
    };
    Ok(passed_on && opened.payload.len() == len)
}

#[test]
fn small_open(rt: HostRuntime) {
    assert!(rt; opens_to(rt.alloc(), &two_payloads(), 3, Some(&one_payload())) == Ok(true));
    assert!(rt; opens_to(rt.alloc(), &one_payload(), 2, None) == Ok(true));
    assert!(rt; opens_to(rt.alloc(), &full(), 1297, None) == Ok(true));
}

/// What an onion is refused by that was made for another payment.
fn fault_of_another(alloc: Global) -> Option<OpenFault> {
    ToyOnion.open(alloc, &one_payload(), &[6; 32]).err()
}

#[test]
fn an_onion_of_another_payment(rt: HostRuntime) {
    assert!(rt; fault_of_another(rt.alloc()) == Some(OpenFault::Hmac));
}

/// The fault of an onion whose payload's length is told by these bytes, and whose HMAC is this: that of no payload, of
/// 5 bytes in three bytes of length, of 1,300 bytes, and of 1,297.
fn fault_of_length(alloc: Global, front: [u8; 3], hmac: &str) -> Option<OpenFault> {
    let onion = onion_of([front[0], front[1], front[2], 0, 0, 0, 0], 0, hmac);
    ToyOnion.open(alloc, &onion, &HASH).err()
}

#[test]
fn lengths_of_a_payload(rt: HostRuntime) {
    for (front, hmac, fault) in [
        (
            [0; 3],
            "f5257ca68b8795ad5b5e747c387943167d4aa2fdf00789f4275edcb90d9e5e00",
            Some(OpenFault::Payload),
        ),
        (
            [0xfd, 0, 5],
            "c42c1a1a924214ee3820b0590aaa53880e864208321106b885aa64579ff19801",
            Some(OpenFault::Payload),
        ),
        (
            [0xfd, 5, 20],
            "961883fa2b97b6d7eca852d051e198dff5f3cbaff60fc488d54e16b62cb88181",
            Some(OpenFault::Payload),
        ),
        (
            [0xfd, 5, 17],
            "e727cad4aa2f5e4f5b1957f6fa9560d1835312407ea1468ef948a5de73b049e6",
            None,
        ),
    ] {
        assert!(rt; fault_of_length(rt.alloc(), front, hmac) == fault);
    }
}

#[test]
fn small_wrap(rt: HostRuntime) -> Result<(), Refusal> {
    let failure = [0x20, 2];
    let wrapped = ToyOnion.wrap_failure(rt.alloc(), &[0; 1366], &[0; 32], &failure)?;
    assert!(rt; wrapped.as_slice() == failure.as_slice());
    let reason = [0x31; 292];
    let again = ToyOnion.wrap_again(rt.alloc(), &[0; 1366], &[0; 32], &reason)?;
    assert!(rt; again.as_slice() == reason.as_slice());
    Ok(())
}

//! A log of updates: what the commitments are worth at each step of a payment, and the plain programs.

use crate::testing::OPENING;
use ln_bytes::Bytes;
use ln_log::{
    ChannelId, Counts, Opening, Outcome, Pair, Role, Side, Standing, Update, UpdateLog, View,
    add_refusal, find_add, last_feerate, live_count, outcome_of, plain_view, removal_of,
    update_refusal,
};
use ln_refusals::Refusal;
use ln_tests_ends::htlc;
use std::alloc::Global;

/// An update in few words.
#[derive(Clone, Copy)]
pub enum What {
    /// Id, amount and expiry.
    Add(u64, u64, u32),
    /// Id, and the byte that the preimage repeats: 0 is right.
    Fulfil(u64, u8),
    /// Id, and how many zero bytes the reason has.
    Fail(u64, usize),
    /// Id and failure code.
    Malformed(u64, u16),
    /// Feerate.
    Fee(u32),
}

use What::{Add, Fail, Fee, Fulfil, Malformed};

fn push(list: &mut Vec<Update>, alloc: Global, what: What) -> Result<(), Refusal> {
    match what {
        Add(id, amount, expiry) => list.push(Update::Add(htlc(id, amount, expiry)))?,
        Fulfil(id, byte) => list.push(fulfilment(id, byte))?,
        Fail(id, len) => {
            let reason = Bytes::new(vec![in alloc; 0; len]?);
            list.push(Update::Fail(ln_log::Fail { id, reason }))?;
        }
        Malformed(id, failure_code) => list.push(Update::Malformed(ln_log::Malformed {
            id,
            sha256_of_onion: [5; 32],
            failure_code,
        }))?,
        Fee(feerate) => list.push(Update::Fee(ln_log::Fee { feerate }))?,
    }
    Ok(())
}

pub fn updates(alloc: Global, whats: &[What]) -> Result<Vec<Update>, Refusal> {
    let mut list = Vec::new(alloc);
    for what in whats {
        push(&mut list, alloc, *what)?;
    }
    Ok(list)
}

fn fulfilment(id: u64, byte: u8) -> Update {
    Update::Fulfil(ln_log::Fulfil {
        id,
        preimage: [byte; 32],
    })
}

/// A step of the funder: it offers an HTLC, which came from another channel; it takes the fulfilment of the HTLC of
/// this id; it changes the feerate; it signs, unless something keeps it from that; it takes the peer's revocation, or
/// the peer's signature; it loses the connection.
#[derive(Clone, Copy)]
enum Step {
    Offer,
    Paid(u64),
    Rate(u32),
    Sign,
    Learn,
    Accept,
    Lose,
}

use Step::{Accept, Learn, Lose, Offer, Paid, Rate, Sign};

const ORIGIN: (ChannelId, u64) = ([9; 32], 17);

fn offer(log: &mut UpdateLog) -> Result<(), Refusal> {
    let mut add = htlc(log.next_id(), 5000, 400);
    add.origin = Some(ORIGIN);
    log.propose(Update::Add(add))
}

fn sign(log: &mut UpdateLog) -> Result<(), Refusal> {
    match log.sign_refusal() {
        Some(refusal) => Err(refusal),
        None => {
            log.sign();
            Ok(())
        }
    }
}

fn take(log: &mut UpdateLog, step: Step) -> Result<(), Refusal> {
    match step {
        Offer => offer(log)?,
        Paid(id) => log.receive(fulfilment(id, 0))?,
        Rate(feerate) => log.propose(Update::Fee(ln_log::Fee { feerate }))?,
        Sign => sign(log)?,
        Learn => log.learn(),
        Accept => log.accept(),
        Lose => log.drop_unsigned(),
    }
    Ok(())
}

/// The funder's balance, the fundee's, the feerate and how many HTLCs are live.
type Row = [u64; 4];

const START: Row = [16_000, 4000, 253, 0];

const OFFERED: Row = [11_000, 4000, 253, 1];

const PAID: Row = [11_000, 9000, 253, 0];

fn row_of(view: &View) -> Row {
    [
        view.funder,
        view.fundee,
        u64::from(view.feerate),
        view.htlcs.len() as u64,
    ]
}

fn is_worth(log: &UpdateLog, alloc: Global, pair: Pair, row: &Row) -> Result<bool, Refusal> {
    let view = log.view(alloc, pair)?;
    Ok(row_of(&view) == *row)
}

/// The own commitment, the peer's, what would be signed and what would be accepted are worth these rows.
fn are_worth(log: &UpdateLog, alloc: Global, rows: &[Row; 4]) -> Result<bool, Refusal> {
    Ok(
        is_worth(log, alloc, Pair::Current(Side::Own), &rows[0])?
            && is_worth(log, alloc, Pair::Current(Side::Peer), &rows[1])?
            && is_worth(log, alloc, Pair::ToSign, &rows[2])?
            && is_worth(log, alloc, Pair::ToAccept, &rows[3])?
            && log.live_htlc_count(Side::Own) as u64 == rows[0][3]
            && log.live_htlc_count(Side::Peer) as u64 == rows[1][3],
    )
}

/// Takes steps, and tells whether the log is worth the rows beside each.
fn leads_to(
    log: &mut UpdateLog,
    alloc: Global,
    table: &[(Step, [Row; 4])],
) -> Result<bool, Refusal> {
    for line in table {
        take(log, line.0)?;
        if !are_worth(log, alloc, &line.1)? {
            return Ok(false);
        }
    }
    Ok(true)
}

const AN_OFFER: [(Step, [Row; 4]); 4] = [
    (Offer, [START, START, OFFERED, START]),
    (Lose, [START; 4]),
    (Offer, [START, START, OFFERED, START]),
    (Sign, [START, START, OFFERED, START]),
];

const A_PAYMENT: [(Step, [Row; 4]); 6] = [
    (Learn, [START, OFFERED, OFFERED, OFFERED]),
    (Accept, [OFFERED; 4]),
    (Paid(0), [OFFERED, OFFERED, OFFERED, PAID]),
    (Accept, [PAID, OFFERED, PAID, PAID]),
    (Sign, [PAID, OFFERED, PAID, PAID]),
    (Learn, [PAID; 4]),
];

/// How many updates of either side the log knows, how many of them the commitments and the last signature cover, how
/// many of these the peer hasn't acknowledged, and which is the last own one that it gives.
fn held(log: &UpdateLog) -> [usize; 8] {
    let signed = log.counts(Pair::Signed);
    [
        log.len(Side::Own),
        log.len(Side::Peer),
        log.counts(Pair::Current(Side::Own)).own,
        log.counts(Pair::Current(Side::Peer)).peer,
        signed.own,
        signed.peer,
        log.unacknowledged().len(),
        given(log),
    ]
}

/// Up to which number own updates are given, all at once.
fn given(log: &UpdateLog) -> usize {
    let from = log.first(Side::Own);
    let to = log.len(Side::Own);
    if from > to {
        return 0;
    }
    from + log.between(Side::Own, from, to).len()
}

/// Whether the first own update still says where its HTLC came from.
fn has_origin(log: &UpdateLog) -> bool {
    match log.update(Side::Own, 0) {
        Some(Update::Add(add)) => add.origin == Some(ORIGIN),
        _ => false,
    }
}

/// An HTLC is offered, lost with the connection, offered again, and paid.
fn is_paid(log: &mut UpdateLog, alloc: Global) -> Result<bool, Refusal> {
    Ok(
        log.sign_refusal() == Some(Refusal::NothingToSign)
            && leads_to(log, alloc, &AN_OFFER)?
            && held(log) == [1, 0, 0, 0, 1, 0, 1, 1]
            && has_origin(log)
            && !log.is_at_update_limit(Side::Own)
            && leads_to(log, alloc, &A_PAYMENT)?,
    )
}

fn funders_log(alloc: Global) -> Result<Box<UpdateLog>, Refusal> {
    Ok(Box::new(alloc, UpdateLog::new(alloc, Role::Funder, OPENING))?)
}

#[test]
fn a_payment(rt: HostRuntime) -> Result<(), Refusal> {
    let mut log = funders_log(rt.alloc())?;
    assert!(rt; is_paid(&mut log, rt.alloc())?);
    Ok(())
}

fn row_at(log: &UpdateLog, alloc: Global, pair: Pair) -> Result<Row, Refusal> {
    let view = log.view(alloc, pair)?;
    Ok(row_of(&view))
}

/// Whether a log whose first updates have left it says the same as one that has all of them one by one.
fn agree(moved: &UpdateLog, whole: &UpdateLog, alloc: Global) -> Result<bool, Refusal> {
    let rows = [
        row_at(whole, alloc, Pair::Current(Side::Own))?,
        row_at(whole, alloc, Pair::Current(Side::Peer))?,
        row_at(whole, alloc, Pair::ToSign)?,
        row_at(whole, alloc, Pair::ToAccept)?,
    ];
    Ok(
        held(moved) == held(whole)
            && moved.next_id() == whole.next_id()
            && moved.sign_refusal() == whole.sign_refusal()
            && are_worth(moved, alloc, &rows)?,
    )
}

/// Both take these steps, and agree after each.
fn agree_behind(
    moved: &mut UpdateLog,
    whole: &mut UpdateLog,
    alloc: Global,
    steps: &[Step],
) -> Result<bool, Refusal> {
    for step in steps {
        take(moved, *step)?;
        take(whole, *step)?;
        if !agree(moved, whole, alloc)? {
            return Ok(false);
        }
    }
    Ok(true)
}

const ONE_PAID: [Step; 8] = [Offer, Sign, Learn, Accept, Paid(0), Accept, Sign, Learn];

const ONE_LIVE: [Step; 5] = [Rate(300), Offer, Sign, Learn, Accept];

const ANOTHER_PAID: [Step; 5] = [Paid(1), Lose, Paid(1), Accept, Sign];

/// The updates of a payment leave the log, then a change of the feerate and an HTLC that is live; this one is paid.
/// None leaves that doesn't stand in each commitment, and no removal without its HTLC.
fn goes_on(moved: &mut UpdateLog, whole: &mut UpdateLog, alloc: Global) -> Result<bool, Refusal> {
    Ok(
        agree_behind(moved, whole, alloc, &ONE_PAID)?
            && !moved.advance(alloc, Counts { own: 0, peer: 1 })?
            && !moved.advance(alloc, Counts { own: 2, peer: 1 })?
            && moved.advance(alloc, Counts { own: 1, peer: 1 })?
            && moved.update(Side::Own, 0).is_none()
            && agree(moved, whole, alloc)?
            && agree_behind(moved, whole, alloc, &ONE_LIVE)?
            && moved.advance(alloc, Counts { own: 3, peer: 1 })?
            && moved.first(Side::Own) == 3
            && moved.own_htlc(1).is_some()
            && agree(moved, whole, alloc)?
            && agree_behind(moved, whole, alloc, &ANOTHER_PAID)?,
    )
}

#[test]
fn updates_leave(rt: HostRuntime) -> Result<(), Refusal> {
    let mut moved = funders_log(rt.alloc())?;
    let mut whole = funders_log(rt.alloc())?;
    assert!(rt; goes_on(&mut moved, &mut whole, rt.alloc())?);
    Ok(())
}

/// Offers an HTLC, takes one, makes the lists anew, and asks what they are worth: the first refusal, and whether what
/// was refused has changed nothing.
fn refused_memory(log: &mut UpdateLog, alloc: Global) -> (Option<Refusal>, bool) {
    let offered = offer(log).err();
    let taken = log.receive(Update::Add(htlc(0, 4000, 400))).err();
    let moved = log.advance(alloc, Counts { own: 0, peer: 0 }).err();
    let asked = log.view(alloc, Pair::ToSign).err();
    let own = usize::from(offered.is_none());
    let peer = usize::from(taken.is_none());
    let unchanged = log.counts(Pair::ToSign) == Counts { own, peer: 0 }
        && log.counts(Pair::ToAccept) == Counts { own: 0, peer }
        && log.next_id() == own as u64;
    (offered.or(taken).or(moved).or(asked), unchanged)
}

#[test]
fn small_log(rt: HostRuntime) -> Result<(), Refusal> {
    let mut log = funders_log(rt.alloc())?;
    let (refusal, unchanged) = refused_memory(&mut log, rt.alloc());
    assert!(rt; unchanged);
    match refusal {
        Some(refusal) => Err(refusal),
        None => Ok(()),
    }
}

/// Whether the update removes an HTLC by a fulfilment.
fn is_fulfilment(update: Option<&Update>, id: u64) -> bool {
    let Some(update) = update else {
        return false;
    };
    match removal_of(update) {
        Some(removal) => removal.id == id && removal.outcome == Outcome::Fulfilled,
        None => false,
    }
}

/// Whether the plain programs tell of these updates what they should.
fn is_shown(funder: &[Update], fundee: &[Update]) -> bool {
    outcome_of(0, fundee) == Outcome::Live
        && outcome_of(1, fundee) == Outcome::Fulfilled
        && is_fulfilment(fundee.first(), 1)
        && !is_fulfilment(funder.first(), 0)
        && matches!(find_add(1, funder), Some(add) if add.amount == 3000)
        && live_count(funder, fundee) == 1
        && last_feerate(253, funder) == 280
}

/// Of two removals the first counts, and of two feerates the last.
fn plain_programs_show(alloc: Global) -> Result<bool, Refusal> {
    let whats = [Add(0, 5000, 400), Fee(300), Add(1, 3000, 400), Fee(280)];
    let funder = updates(alloc, &whats)?;
    let fundee = updates(alloc, &[Fulfil(1, 0), Malformed(1, 0xc005), Fail(2, 3)])?;
    Ok(is_shown(&funder, &fundee))
}

/// Whether the plain program makes of an opening what the log does.
fn is_opened(alloc: Global) -> Result<bool, Refusal> {
    let view = plain_view(alloc, &OPENING, &[], &[])?;
    Ok(row_of(&view) == START)
}

#[test]
fn small_plain_programs(rt: HostRuntime) -> Result<(), Refusal> {
    assert!(rt; plain_programs_show(rt.alloc())?);
    assert!(rt; is_opened(rt.alloc())?);
    Ok(())
}

const STANDING: Standing = Standing {
    next_id: 1,
    live: 1,
    in_flight: 5000,
    balance: 6000,
};

/// How a side stands that has offered a further HTLC.
fn with_offer() -> Standing {
    let offer = Update::Add(ln_log::Add {
        id: 1,
        amount: 10,
        hash: [0; 32],
        expiry: 400,
        onion: [0; 1366],
        origin: None,
    });
    let standing = STANDING.with_own(&offer, &[]).with_all(&[], &[]);
    drop(offer);
    standing
}

/// What the peer refuses a fulfilment by, after these updates of the side that fulfils.
fn peers_refusal(alloc: Global, own: &[What]) -> Result<Option<Refusal>, Refusal> {
    let own = updates(alloc, own)?;
    let held = updates(alloc, &[Add(0, 5000, 400)])?;
    let fulfil = fulfilment(0, 0);
    let refusal = update_refusal(
        &OPENING.fundee,
        &STANDING,
        Role::Funder,
        &own,
        &held,
        &fulfil,
    );
    drop(fulfil);
    Ok(refusal)
}

#[test]
fn limits(rt: HostRuntime) {
    assert!(rt;
        OPENING.is_fit()
            && !Opening {
                satoshis: 0,
                ..OPENING
            }
            .is_fit()
    );
    let fits = add_refusal(&OPENING.fundee, &STANDING, &htlc(0, 4000, 400));
    let least = add_refusal(&OPENING.fundee, &STANDING, &htlc(0, 9, 400));
    assert!(rt; fits.is_none() && least == Some(Refusal::AmountBelowMinimum));
    let stands = Standing {
        next_id: 2,
        live: 2,
        in_flight: 5010,
        balance: 5990,
    };
    assert!(rt; with_offer() == stands);
    assert!(rt; peers_refusal(rt.alloc(), &[]) == Ok(None));
    assert!(rt; peers_refusal(rt.alloc(), &[Fulfil(0, 0)]) == Ok(Some(Refusal::NoSuchHtlc)));
}

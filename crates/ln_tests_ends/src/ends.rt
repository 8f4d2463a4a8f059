//! Two ends of a channel and their stores, as tests drive them.

ghost use Rattle.std.specs.Prelude.{◌≡◌};

use ln_bytes::{Bytes, ShortId};
use ln_channel::{Command, Config, FitConfig, FitSpec, OpenSpec, Output, Points};
use ln_keys::{ToyKeys, sha256_32};
use ln_link::Link;
use ln_log::{Add, Limits};
use ln_msgs::{Message, Records};
use ln_refusals::Refusal;
use ln_store::RecordStore;
use std::alloc::Global;

/// Keys of the funder, and of the fundee: each one's tag is the other's peer's.
pub const FUNDER: ToyKeys = ToyKeys {
    seed: [1; 32],
    tag: [2; 32],
    peer_tag: [3; 32],
};

pub const FUNDEE: ToyKeys = ToyKeys {
    seed: [4; 32],
    tag: [3; 32],
    peer_tag: [2; 32],
};

/// An HTLC whose preimage is 32 zero bytes.
pub fn htlc(id: u64, amount: u64, expiry: u32) -> Add
    ensures { result.id ≡ id }
{
    Add {
        id,
        amount,
        hash: sha256_32(&[0; 32]),
        expiry,
        onion: [0; 1366],
        origin: None,
    }
}

/// Least, first and greatest closing fee.
pub type Range = (u64, u64, u64);

pub const CHEAP: Range = (200, 300, 400);

const DEAR: Range = (350, 400, 500);

const POINTS: Points = Points {
    funding_pubkey: [2; 33],
    revocation_basepoint: [2; 33],
    payment_basepoint: [2; 33],
    delayed_payment_basepoint: [2; 33],
    htlc_basepoint: [2; 33],
};

/// What an end opens or takes channels with.
pub fn config(alloc: Global, fees: Range) -> Config {
    Config {
        limits: Limits {
            minimum: 1,
            accepted: 30,
            in_flight: 1_000_000_000_000,
            reserve: 0,
        },
        chain_hash: [0; 32],
        dust_limit: 546,
        to_self_delay: 144,
        minimum_depth: 3,
        points: POINTS,
        first: fees.1,
        least: fees.0,
        greatest: fees.2,
        script: Bytes::empty(alloc),
    }
}

/// In a box: a function that owns a link pays for its whole depth at each way out, one that owns a box doesn't.
pub fn boxed<T: Drop>(alloc: Global, value: T) -> Result<Box<T>, Refusal> {
    Ok(Box::new(alloc, value)?)
}

pub fn open_spec(alloc: Global) -> OpenSpec {
    OpenSpec {
        config: config(alloc, CHEAP),
        funding: 1_000_000,
        push: 0,
        feerate: 253,
        flags: 0,
        temporary_id: [255; 32],
        txid: [9; 32],
        output: 0,
        records: Records::empty(alloc),
    }
}

/// Puts the message of an output after others.
fn collect(output: Output, messages: &mut Vec<Message>) -> Result<(), Refusal> {
    match output {
        Output::Send(message) => push(messages, message),
        other => {
            drop(other);
            Ok(())
        }
    }
}

/// Puts an item after others.
pub fn push<T: Drop>(items: &mut Vec<T>, item: T) -> Result<(), Refusal> {
    Ok(items.push(item)?)
}

/// The messages among outputs.
pub fn messages_of(alloc: Global, outputs: Vec<Output>) -> Result<Vec<Message>, Refusal> {
    let mut messages = Vec::new(alloc);
    for output in outputs {
        collect(output, &mut messages)?;
    }
    Ok(messages)
}

/// The command by which an HTLC of 5000 msat is offered. Its preimage is 32 zero bytes.
pub fn offer() -> Command {
    let add = htlc(0, 5000, 400);
    let hash = add.hash;
    let onion = add.onion;
    Command::Add {
        amount: add.amount,
        hash,
        expiry: add.expiry,
        onion,
        origin: None,
    }
}

/// A link and its store.
#[derive(Drop)]
pub struct Side<S: RecordStore + Drop> {
    pub link: Box<Link<ToyKeys>>,
    pub store: S,
}

fn side_of<S: RecordStore + Drop>(
    link: Result<Box<Link<ToyKeys>>, Refusal>,
    store: S,
) -> Result<Side<S>, Refusal> {
    match link {
        Ok(link) => Ok(Side { link, store }),
        Err(refusal) => {
            drop(store);
            Err(refusal)
        }
    }
}

/// The funder's side of a new channel, which saves in this store.
pub fn funder_side<S: RecordStore + Drop>(alloc: Global, store: S) -> Result<Side<S>, Refusal> {
    let spec = open_spec(alloc);
    if spec.fits() {
        side_of(
            boxed(alloc, Link::funder(FUNDER, FitSpec::new(spec))),
            store,
        )
    } else {
        drop(spec);
        side_of(Err(Refusal::NotReady), store)
    }
}

/// The fundee's.
pub fn fundee_side<S: RecordStore + Drop>(alloc: Global, store: S) -> Result<Side<S>, Refusal> {
    let config = config(alloc, DEAR);
    if config.fits() {
        side_of(
            boxed(alloc, Link::fundee(FUNDEE, FitConfig::new(config))),
            store,
        )
    } else {
        drop(config);
        side_of(Err(Refusal::NotReady), store)
    }
}

/// What a side answers to a message, after others.
fn take<S: RecordStore + Drop>(
    alloc: Global,
    message: Message,
    side: &mut Side<S>,
    all: &mut Vec<Output>,
) -> Result<(), Refusal> {
    let mut answers = side.link.handle(alloc, &mut side.store, message)?;
    Ok(all.append(&mut answers)?)
}

/// What a side answers to all that it is sent.
pub fn taken<S: RecordStore + Drop>(
    alloc: Global,
    outputs: Vec<Output>,
    side: &mut Side<S>,
) -> Result<Vec<Output>, Refusal> {
    let mut all = Vec::new(alloc);
    for message in messages_of(alloc, outputs)? {
        take(alloc, message, side, &mut all)?;
    }
    Ok(all)
}

/// The four messages of an opening pass.
fn opened<S: RecordStore + Drop, T: RecordStore + Drop>(
    alloc: Global,
    a: &mut Side<S>,
    b: &mut Side<T>,
) -> Result<(), Refusal> {
    drop(b.link.connect(alloc)?);
    let created = a.link.connect(alloc)?;
    let accepted = taken(alloc, created, b)?;
    let created = taken(alloc, accepted, a)?;
    let signed = taken(alloc, created, b)?;
    drop(taken(alloc, signed, a)?);
    Ok(())
}

fn confirmed<S: RecordStore + Drop, T: RecordStore + Drop>(
    alloc: Global,
    a: &mut Side<S>,
    b: &mut Side<T>,
) -> Result<(), Refusal> {
    let Some(id) = ShortId::parse("1x1x0") else {
        return Err(Refusal::Truncated);
    };
    let from_a = a.link.command(alloc, &mut a.store, Command::Confirm(id))?;
    let from_b = b.link.command(alloc, &mut b.store, Command::Confirm(id))?;
    drop(taken(alloc, from_a, b)?);
    drop(taken(alloc, from_b, a)?);
    Ok(())
}

/// The channel is opened, and both ends are ready. Each end has saved three times.
pub fn played<S: RecordStore + Drop, T: RecordStore + Drop>(
    alloc: Global,
    a: &mut Side<S>,
    b: &mut Side<T>,
) -> Result<(), Refusal> {
    opened(alloc, a, b)?;
    confirmed(alloc, a, b)
}

/// The bytes of the one record of a store.
pub fn stored<S: RecordStore + Drop>(alloc: Global, a: &mut Side<S>) -> Result<Vec<u8>, Refusal> {
    let ids = a.store.ids(alloc)?;
    let Some(id) = ids.as_slice().first() else {
        return Err(Refusal::NotReady);
    };
    let Some(bytes) = a.store.load(alloc, id)? else {
        return Err(Refusal::NotReady);
    };
    Ok(Vec::from_slice(alloc, bytes.as_slice())?)
}

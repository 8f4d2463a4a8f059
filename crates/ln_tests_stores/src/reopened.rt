//! A channel whose ends keep their records in files: both processes end, the files are opened again, and it goes on.

use crate::players::{Player, both, commands, is_paid, meet, pays, signs};
use ln_channel::Command;
use ln_keys::ToyKeys;
use ln_link::Link;
use ln_refusals::Refusal;
use ln_sqlite::FileRecords;
use ln_store::RecordStore;
use ln_tests_ends::{FUNDEE, FUNDER, Side, boxed, fundee_side, funder_side, played};
use std::alloc::Global;
use std::fs;
use std::test::Fail;

/// A channel is opened, and a payment made. Whether it is complete. Links and stores are gone then.
fn paid<S: RecordStore + Drop>(
    alloc: Global,
    of_a: Result<S, Refusal>,
    of_b: Result<S, Refusal>,
) -> Result<bool, Refusal> {
    let (of_a, of_b) = both(of_a, of_b)?;
    let mut a = funder_side(alloc, of_a)?;
    let mut b = fundee_side(alloc, of_b)?;
    played(alloc, &mut a, &mut b)?;
    let mut a = boxed(alloc, Player::new(alloc, "A", FUNDER, a))?;
    let mut b = boxed(alloc, Player::new(alloc, "B", FUNDEE, b))?;
    pays(alloc, &mut a, &mut b, &mut String::new(alloc))?;
    is_paid(alloc, &a, &b)
}

/// The link whose record is the one of a store.
fn loaded<S: RecordStore>(
    alloc: Global,
    keys: ToyKeys,
    store: &mut S,
) -> Result<Box<Link<ToyKeys>>, Refusal> {
    let ids = store.ids(alloc)?;
    let Some(id) = ids.as_slice().first() else {
        return Err(Refusal::NotReady);
    };
    let Some(bytes) = store.load(alloc, id)? else {
        return Err(Refusal::NotReady);
    };
    boxed(alloc, Link::from_record(alloc, keys, bytes.as_slice())?)
}

/// The end whose record is in a store.
fn again<S: RecordStore + Drop>(
    alloc: Global,
    name: &'static str,
    keys: ToyKeys,
    mut store: S,
) -> Result<Box<Player<S>>, Refusal> {
    match loaded(alloc, keys, &mut store) {
        Ok(link) => boxed(alloc, Player::new(alloc, name, keys, Side { link, store })),
        Err(refusal) => {
            drop(store);
            Err(refusal)
        }
    }
}

/// Both come back from their stores and meet: whether the payment is complete, and how many updates the funder's end
/// has signed once it has changed the fee.
fn goes_on<S: RecordStore + Drop>(
    alloc: Global,
    of_a: Result<S, Refusal>,
    of_b: Result<S, Refusal>,
) -> Result<(bool, usize), Refusal> {
    let (of_a, of_b) = both(of_a, of_b)?;
    let mut a = again(alloc, "A", FUNDER, of_a)?;
    let mut b = again(alloc, "B", FUNDEE, of_b)?;
    let mut story = String::new(alloc);
    meet(alloc, &mut a, &mut b, &mut story)?;
    let paid = is_paid(alloc, &a, &b)?;
    commands(alloc, &mut a, &mut b, "fee", Command::Fee(300), &mut story)?;
    signs(alloc, &mut a, &mut b, &mut story)?;
    Ok((paid, a.summary(alloc)?.signed))
}

#[test]
fn channel_over_files(rt: HostRuntime) -> Result<(), Fail> {
    let _ = fs::remove_dir_all(&rt, "ln_database_tests_files");
    fs::create_dir(&rt, "ln_database_tests_files")?;
    let (a, b) = (
        "ln_database_tests_files/a.db",
        "ln_database_tests_files/b.db",
    );
    assert_eq!(rt;
        paid(
            rt.alloc(),
            FileRecords::open(&rt, a),
            FileRecords::open(&rt, b)
        ),
        Ok(true)
    );
    assert_eq!(rt;
        goes_on(
            rt.alloc(),
            FileRecords::open(&rt, a),
            FileRecords::open(&rt, b)
        ),
        Ok((true, 2))
    );
    fs::remove_dir_all(&rt, "ln_database_tests_files")?;
    Ok(())
}

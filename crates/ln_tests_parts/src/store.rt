//! Stores of records.

use ln_refusals::Refusal;
use ln_store::{MemoryStore, RecordStore};
use ln_tests_ends::{FailingStore, code_of};
use std::alloc::Global;

/// What a save of this text under 32 bytes of this value is refused by; 0 where it isn't.
fn saved<S: RecordStore>(alloc: Global, store: &mut S, id: u8, text: &str) -> u32 {
    code_of(store.save(alloc, &[id; 32], text.as_bytes()).err())
}

/// Whether the record under 32 bytes of this value is this text; an empty text stands for none.
fn has<S: RecordStore>(alloc: Global, store: &mut S, id: u8, text: &str) -> bool {
    match store.load(alloc, &[id; 32]) {
        Ok(Some(found)) => found.as_slice() == text.as_bytes(),
        Ok(None) => text.is_empty(),
        Err(_) => false,
    }
}

/// The first bytes of all ids, in order, as the digits of a number; 9999 where there is a refusal.
fn listed<S: RecordStore>(alloc: Global, store: &mut S) -> u64 {
    let Ok(ids) = store.ids(alloc) else {
        return 9999;
    };
    let mut number: u64 = 0;
    for id in &ids {
        number = number.wrapping_mul(10).wrapping_add(u64::from(id[0]));
    }
    number
}

/// Ids and texts that are saved one after the other, and the ids that are then listed.
const SAVES: [(u8, &str, u64); 4] = [
    (3, "three", 3),
    (1, "one", 13),
    (2, "two", 123),
    (3, "four", 123),
];

fn are_saved<S: RecordStore>(alloc: Global, store: &mut S) -> bool {
    for (id, text, ids) in &SAVES {
        if saved(alloc, store, *id, text) != 0
            || !has(alloc, store, *id, text)
            || listed(alloc, store) != *ids
        {
            return false;
        }
    }
    true
}

/// Whether a store begins empty, and has what is saved.
fn keeps<S: RecordStore>(alloc: Global, store: &mut S) -> bool {
    has(alloc, store, 3, "")
        && listed(alloc, store) == 0
        && are_saved(alloc, store)
        && has(alloc, store, 1, "one")
        && has(alloc, store, 2, "two")
        && has(alloc, store, 4, "")
        && store.failures() == 0
}

#[test]
fn records_in_memory(rt: HostRuntime) {
    let mut store = MemoryStore::new(rt.alloc());
    assert!(rt; keeps(rt.alloc(), &mut store));
}

/// Whether the third save fails, is counted, and leaves this text.
fn leaves<S: RecordStore>(alloc: Global, store: &mut S, found: &str) -> bool {
    saved(alloc, store, 7, "old") == 0
        && saved(alloc, store, 8, "other") == 0
        && store.failures() == 0
        && saved(alloc, store, 7, "new") == 61
        && store.failures() == 1
        && has(alloc, store, 7, found)
        && has(alloc, store, 8, "other")
        && listed(alloc, store) == 78
}

// A save that fails leaves the old record or the new one, and is counted.
#[test]
fn records_where_a_save_fails(rt: HostRuntime) {
    let mut store = FailingStore::new(MemoryStore::new(rt.alloc()), 2, false);
    assert!(rt; leaves(rt.alloc(), &mut store, "old"));
    let mut store = FailingStore::new(MemoryStore::new(rt.alloc()), 2, true);
    assert!(rt; leaves(rt.alloc(), &mut store, "new"));
}

/// Whether the second of two records under one id is found, and that id alone.
fn is_found<S: RecordStore>(alloc: Global, store: &mut S) -> Result<bool, Refusal> {
    store.save(alloc, &[7; 32], b"old")?;
    store.save(alloc, &[7; 32], b"new")?;
    let found = store.load(alloc, &[7; 32])?;
    let ids = store.ids(alloc)?;
    let is_new = match &found {
        Some(record) => record.as_slice() == b"new".as_slice(),
        None => false,
    };
    Ok(ids.len() == 1 && is_new)
}

#[test]
fn small_store(rt: HostRuntime) -> Result<(), Refusal> {
    let mut store = MemoryStore::new(rt.alloc());
    assert!(rt; is_found(rt.alloc(), &mut store)?);
    Ok(())
}

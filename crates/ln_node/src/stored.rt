//! Channels that come back from their records.

ghost use Rattle.std.specs.Prelude.{◌≡◌, IfOk, length};
ghost use Rattle.ln_history.specs.History.{begun_with};
ghost use Rattle.ln_book_tables.specs.Replay.{no_table};
ghost use Rattle.ln_book.specs.Rebuild.{rebuilt};
ghost use Rattle.ln_node.specs.Stored.{first_record, ComesFrom, IsLoaded, AreLoaded, channel_snapshots_of};

use crate::node_book::NodeBook;
use crate::observed::ObservedStore;
use crate::observer::Monitor;
use crate::opening::NodeLink;
use ln_book::{ChannelSnapshot, read_end};
use ln_bytes::Bytes;
use ln_keys::ChannelKeys;
use ln_link::Link;
use ln_node_loops::SavedLink;
use ln_refusals::Refusal;
use ln_store::RecordStore;
use std::alloc::Global;
use std::net::SocketAddr;
use std::sync::Arc;

/// What a channel of a node that starts again is made of.
#[derive(Drop)]
pub struct Stored<K: ChannelKeys + Drop, S: Drop, T: Drop> {
    /// Its keys.
    pub keys: K,
    /// The store of its record, which has no other.
    pub store: S,
    /// The table of its hooks. A hook that may miss no event stands in it already.
    pub table: T,
    /// Where it listens, where it does.
    pub address: Option<SocketAddr>,
}

/// The same, with the link.
#[derive(Drop)]
pub(crate) struct Loaded<K: ChannelKeys + Drop, S: Drop, T: Drop> {
    pub(crate) end: NodeLink<K, S>,
    pub(crate) table: T,
    pub(crate) address: Option<SocketAddr>,
}

// The first record in a store.
fn first_record<S: RecordStore>(alloc: Global, store: &mut S) -> Result<Option<Bytes>, Refusal>
    ensures finds { IfOk result (λ found. found ≡ first_record (S.store_view store.old).records) }
{
    let ids = store.ids(alloc)?;
    match ids.first() {
        None => Ok(None),
        Some(id) => store.load(alloc, id),
    }
}

// The link that this record tells. 40 where there is none.
fn come_back<K: ChannelKeys + Drop>(
    alloc: Global,
    keys: K,
    found: Option<Bytes>,
) -> Result<Link<K>, Refusal>
    ensures comes_back { IfOk result (λ l. ComesFrom keys found l) }
{
    match found {
        None => Err(Refusal::NotReady),
        Some(bytes) => Link::from_record(alloc, keys, bytes.as_slice()),
    }
}

// The link of the first record in a store.
fn load<K: ChannelKeys + Drop, S: RecordStore>(
    alloc: Global,
    keys: K,
    store: &mut S,
) -> Result<Link<K>, Refusal>
    ensures comes_back { IfOk result (λ l. ComesFrom keys (first_record (S.store_view store.old).records) l) }
{
    match first_record(alloc, store) {
        Ok(found) => come_back(alloc, keys, found),
        Err(refusal) => Err(refusal),
    }
}

// The end of the first record in a store.
fn load_end<K: ChannelKeys + Drop, S: RecordStore + Drop>(
    alloc: Global,
    keys: K,
    store: ObservedStore<S>,
) -> Result<NodeLink<K, S>, Refusal>
    ensures comes_back { IfOk result (λ n.
        ComesFrom keys (first_record (S.store_view store.inner).records) n.saved.value.link) }
{
    let mut store = store;
    match load(alloc, keys, &mut store) {
        Ok(link) => NodeLink::loaded(alloc, SavedLink { link, store }),
        Err(refusal) => Err(refusal),
    }
}

// The channel of this number with its link.
fn load_one<K: ChannelKeys + Drop, S: RecordStore + Drop, T: Drop>(
    alloc: Global,
    monitor: &Arc<Monitor>,
    channel: usize,
    stored: Stored<K, S, T>,
) -> Result<Loaded<K, S, T>, Refusal>
    ensures comes_back { IfOk result (λ l. IsLoaded S.store_view stored l) }
{
    let Stored {
        keys,
        store,
        table,
        address,
    } = stored;
    let store = ObservedStore::new(alloc, monitor, channel, store)?;
    let end = load_end(alloc, keys, store)?;
    Ok(Loaded {
        end,
        table,
        address,
    })
}

/// The channels with their links, which are watched here.
pub(crate) fn load_all<K: ChannelKeys + Drop, S: RecordStore + Drop, T: Drop>(
    alloc: Global,
    monitor: &Arc<Monitor>,
    stored: Vec<Stored<K, S, T>>,
) -> Result<Vec<Loaded<K, S, T>>, Refusal>
    ensures come_back { IfOk result (λ v. AreLoaded S.store_view stored.items v.items) }
    ensures are_as_many { IfOk result (λ v. length v.items ≡ length stored.items) }
{
    let mut loaded = Vec::new(alloc);
    for one in stored {
        loaded.push(load_one(alloc, monitor, loaded.len(), one)?)?;
    }
    Ok(loaded)
}

// What channels have of payments.
fn snapshots<K: ChannelKeys + Drop, S: Drop, T: Drop>(
    alloc: Global,
    loaded: &[Loaded<K, S, T>],
) -> Result<Vec<ChannelSnapshot>, Refusal>
    ensures reads_all { IfOk result (λ rs. rs.items ≡ channel_snapshots_of loaded.now) }
{
    let mut snapshots = Vec::new(alloc);
    for one in loaded {
        read_end(
            alloc,
            one.end.saved.link.channel_machine().saved(),
            &mut snapshots,
        )?;
    }
    Ok(snapshots)
}

/// The book of a node that has these channels. Takes memory. Error: 60 alone.
pub(crate) fn book_of<K: ChannelKeys + Drop, S: Drop, T: Drop>(
    alloc: Global,
    loaded: &[Loaded<K, S, T>],
) -> Result<NodeBook, Refusal>
    ensures begins_with_all { IfOk result (λ b. b.begun.value
        ≡ begun_with (rebuilt no_table (channel_snapshots_of loaded.now))) }
{
    let snapshots = snapshots(alloc, loaded)?;
    NodeBook::new(alloc, snapshots.as_slice())
}

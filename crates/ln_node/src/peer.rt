//! What the peer of a channel tells of itself.

ghost use Rattle.std.specs.Prelude.{◌≡◌, IfOk};
ghost use Rattle.ln_node.specs.Greeting.{init_of};

use ln_bytes::{Bytes, Record};
use ln_msgs::{Init, Message, Records};
use std::alloc::{AllocError, Global};
use std::sync::{Mutex, Wait};

/// The init by which the peer of a channel has greeted last.
#[derive(Drop)]
pub(crate) struct Peer {
    met: Mutex<Option<Message>>,
}

fn copy_of_one(alloc: Global, one: &Record) -> Result<Record, AllocError>
    ensures { IfOk result (λ r. r ≡ one.now) }
{
    Ok(Record {
        typ: one.typ,
        value: Bytes::from_slice(alloc, one.value.as_slice())?,
    })
}

fn copies_of(alloc: Global, records: &[Record]) -> Result<Records, AllocError>
    ensures { IfOk result (λ rs. rs ≡ records.now) }
{
    let mut all = Vec::new(alloc);
    for record in records {
        all.push(copy_of_one(alloc, record)?)?;
    }
    Ok(Records::new(all))
}

fn copy_of(alloc: Global, init: &Init) -> Result<Init, AllocError>
    ensures { IfOk result (λ i. i ≡ init.now) }
{
    Ok(Init {
        global_features: Bytes::from_slice(alloc, init.global_features.as_slice())?,
        features: Bytes::from_slice(alloc, init.features.as_slice())?,
        records: copies_of(alloc, init.records.as_slice())?,
    })
}

// A copy, where there is an init.
fn copied(alloc: Global, met: &Option<Message>) -> Result<Option<Init>, AllocError>
    ensures { IfOk result (λ i. i ≡ init_of met.now) }
{
    match met {
        Some(Message::Init(init)) => Ok(Some(copy_of(alloc, init)?)),
        _ => Ok(None),
    }
}

impl Peer {
    /// It hasn't greeted. Takes no memory.
    pub(crate) fn new() -> Peer {
        Peer {
            met: Mutex::new(None),
        }
    }

    /// It has greeted so, by an init.
    pub(crate) fn meet<R: Wait>(&self, rt: &R, met: Option<Message>) {
        *self.met.lock(rt) = met;
    }

    /// A copy of the init by which it has greeted last; none before.
    pub(crate) fn init<R: Wait>(&self, rt: &R, alloc: Global) -> Result<Option<Init>, AllocError> {
        copied(alloc, &*self.met.lock(rt))
    }
}

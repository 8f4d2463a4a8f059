//! What a host has told of onions.

ghost use Rattle.std.specs.Prelude.{◌≡◌, ◌⊎◌, ◌↔◌, Ok, Err, IfOk, IfErr, IfSome, IsTrue, length, option_copied};
ghost use Rattle.ln_keys.specs.declared.onion.OpenFault.TheVariants as fault;
ghost use Rattle.ln_host_onions.specs.Told.{name_of, opened_of};

use indexmap::IndexMap;
use ln_bytes::Bytes;
use ln_keys::{Onion, OpenFault, Opened};
use ln_refusals::Refusal;
use sha2::{Digest, Sha256};
use std::alloc::Global;
use std::marker::Model;

/// What a host has found in onions, as it told it before a node asks: real onions are opened by keys that only the host
/// has (BOLT 4, "Onion Decryption"). The host wraps failures as they leave. By a mark that no peer knows it tells those
/// that the node has made from those that came back (BOLT 4, "Returning Errors").
#[derive(Drop)]
pub struct HostOnions {
    own_mark: [u8; 32],
    found: IndexMap<[u8; 32], Result<Opened, OpenFault>>,
}

impl Model for HostOnions {
    ghost use Rattle.ln_host_onions.specs.Told.{Told};

    ghost Value = { Told };

    ghost view = { λ o. record { own_mark = o.own_mark; found = o.found.entries } };
}

/// The name of an onion under a payment hash: 32 bytes. Takes no memory.
#[tactic(auto, unfolding(crate::specs::Told::name_of))]
pub fn name_of(onion: &[u8; 1366], hash: &[u8; 32]) -> [u8; 32]
    ensures { result ≡ name_of hash.now onion.now }
{
    let mut hasher = Sha256::new();
    hasher.update(hash.as_slice());
    hasher.update(onion.as_slice());
    hasher.finalize()
}

// The same bytes, where there are any.
fn copy_next(next: &Option<Bytes>) -> Result<Option<Bytes>, OpenFault>
    ensures copy { IfOk result (λ n. n ≡ next.now) }
    ensures fails_for_memory_alone { IfErr result (λ e. e ≡ fault.Memory) }
{
    match next {
        None => Ok(None),
        Some(next) => Ok(Some(next.clone()?)),
    }
}

fn copy(opened: &Opened) -> Result<Opened, OpenFault>
    ensures copy { IfOk result (λ o. o ≡ opened.now) }
    ensures fails_for_memory_alone { IfErr result (λ e. e ≡ fault.Memory) }
{
    let next = copy_next(&opened.next)?;
    let payload = opened.payload.clone()?;
    Ok(Opened { payload, next })
}

// Whether the next onion, where there is one, has 1,366 bytes.
fn is_whole(next: &Option<Bytes>) -> bool
    ensures { IsTrue result ↔ IfSome next.now (λ n. length n ≡ 1366) }
{
    match next {
        None => true,
        Some(next) => next.len() == 1366,
    }
}

// What was found in an onion.
fn open(found: Option<&Result<Opened, OpenFault>>) -> Result<Opened, OpenFault>
    ensures found { IfOk result (λ o. opened_of (option_copied found.entry) ≡ Ok o) }
    ensures fault { IfErr result (λ e. (e ≡ fault.Memory) ⊎ (opened_of (option_copied found.entry) ≡ Err e)) }
    ensures next_has_1366_bytes { IfOk result (λ o. IfSome o.next (λ n. length n ≡ 1366)) }
{
    match found {
        None => Err(OpenFault::Payload),
        Some(Err(fault)) => Err(*fault),
        Some(Ok(opened)) => {
            if is_whole(&opened.next) {
                copy(opened)
            } else {
                Err(OpenFault::Payload)
            }
        }
    }
}

impl HostOnions {
    ghost use Rattle.std.specs.Prelude.{◌≡◌, [], OnOk, OnErr, IfErr, is_some, option_copied};
    ghost use Rattle.indexmap.specs.IndexMap.{insert_entry, swap_remove_entry};
    ghost use Rattle.ln_bytes.specs.Same.{are_same};
    ghost use Rattle.ln_host_onions.specs.Told.{name_of, found_at, own_failure};

    /// Of a host that has told nothing yet. The mark is secret, and the same over all restarts: a failure that was made
    /// before one may leave after it. Takes no memory.
    pub fn new(alloc: Global, own_mark: [u8; 32]) -> HostOnions
        ensures { result ≡ record { own_mark = own_mark; found = [] } }
    {
        HostOnions {
            own_mark,
            found: IndexMap::new(alloc),
        }
    }

    /// A host tells what it found in an onion under a payment hash, until it is forgotten. Error: 60 alone, and nothing
    /// has changed.
    pub fn tell(
        &mut self,
        onion: &[u8; 1366],
        hash: &[u8; 32],
        found: Result<Opened, OpenFault>,
    ) -> Result<(), Refusal>
        ensures told { OnOk result (self.new ≡ record self.old {
          found = insert_entry are_same self.old.found (name_of hash.now onion.now) found;
        }) }
        ensures changes_nothing_if_refused { OnErr result (self.new ≡ self.old) }
        ensures fails_for_memory_alone { IfErr result (λ r. r ≡ Refusal.Memory) }
    {
        match self.found.insert(name_of(onion, hash), found) {
            Ok(_) => Ok(()),
            Err(_) => Err(Refusal::Memory),
        }
    }

    /// Whether it was told what is in the onion of this name. Takes no memory.
    pub fn knows(&self, name: &[u8; 32]) -> bool
        ensures { result ≡ is_some (found_at name.now self.now.found) }
    {
        self.found.contains_key(name)
    }

    // What was found in the onion of this name.
    fn found(&self, name: &[u8; 32]) -> Option<&Result<Opened, OpenFault>>
        ensures { option_copied result ≡ found_at name.now self.now.found }
    {
        self.found.get(name)
    }

    /// What was told of the onion of this name is forgotten. Takes no memory.
    pub fn forget(&mut self, name: &[u8; 32])
        ensures { self.new ≡ record self.old {
          found = swap_remove_entry (are_same name.now) self.old.found;
        } }
    {
        drop(self.found.swap_remove(name));
    }

    /// The failure message of a failure that the node has made; `None` of one that came back. Takes no memory.
    pub fn own_failure<'a>(&self, reason: &'a [u8]) -> Option<&'a [u8]>
        ensures { option_copied result ≡ own_failure self.now.own_mark reason.now }
    {
        match reason.split_at_checked(32) {
            None => None,
            Some((mark, failure)) => {
                if mark == self.own_mark.as_slice() {
                    Some(failure)
                } else {
                    None
                }
            }
        }
    }
}

impl Onion for HostOnions {
    ghost use Rattle.ln_host_onions.specs.Told.{opened_by, marked};

    ghost services = { λ o. record {
      opened = λ onion hash. opened_by o.found onion hash;
      wrapped = λ onion hash failure. marked o.own_mark failure;
      wrapped_again = λ onion hash reason. reason;
    } };

    fn open(
        &self,
        _alloc: Global,
        onion: &[u8; 1366],
        hash: &[u8; 32],
    ) -> Result<Opened, OpenFault> {
        let name = name_of(onion, hash);
        open(self.found(&name))
    }

    fn wrap_failure(
        &self,
        alloc: Global,
        _onion: &[u8; 1366],
        _hash: &[u8; 32],
        failure: &[u8],
    ) -> Result<Bytes, Refusal> {
        let mut bytes = Vec::from_slice(alloc, &self.own_mark)?;
        bytes.extend_from_slice(failure)?;
        Ok(Bytes::new(bytes))
    }

    // (the host wraps it as it leaves)
    fn wrap_again(
        &self,
        alloc: Global,
        _onion: &[u8; 1366],
        _hash: &[u8; 32],
        reason: &[u8],
    ) -> Result<Bytes, Refusal> {
        Ok(Bytes::from_slice(alloc, reason)?)
    }
}

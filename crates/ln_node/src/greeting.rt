//! How a node greets its peers.

ghost use Rattle.std.specs.Prelude.{◌≡◌, ◌++◌, ◌∷◌, [], IfOk, IfErr, OnOk, OnErr};
ghost use Rattle.ln_msgs.specs.declared.messages.message.Message.TheVariants as message;
ghost use Rattle.ln_refusals.specs.declared.refusal.Refusal.TheVariants as refusal;
ghost use Rattle.ln_node.specs.Greeting.{own_init, knows, wants, usual_init, usual_known};

use ln_bytes::Bytes;
use ln_msgs::{Init, Message, Records};
use ln_node_loops::PeerFeatures;
use ln_refusals::Refusal;
use std::alloc::{AllocError, Global};

/// What a node offers by itself, each feature by its odd bit, so that a peer may do without it: data loss protection
/// (1), gossip queries (7), onions with a payload of any length (9), static remote keys (13), payment secrets (15), a
/// shutdown to any segwit version (27), and channel types (45).
const OFFERED: [u8; 6] = [0x20, 0, 0x08, 0, 0xa2, 0x82];

/// The even bits of these features, which a peer may set.
const KNOWN: [u16; 7] = [0, 6, 8, 12, 14, 26, 44];

/// How a node greets its peers, and what it asks of their greeting (BOLT 1, "The `init` Message"; BOLT 9).
#[derive(Drop)]
pub struct Greeting {
    pub(crate) own: Message,
    pub(crate) peer: PeerFeatures,
}

// These numbers, in memory of their own.
fn listed(alloc: Global, numbers: &[u16]) -> Result<Vec<u16>, AllocError>
    ensures { IfOk result (λ v. v.items ≡ numbers.now) }
{
    let mut all = Vec::new(alloc);
    all.extend_from_slice(numbers)?;
    Ok(all)
}

impl Greeting {
    /// By this init. A peer's init may set the known even bits and no other, and has to offer each feature that is
    /// wanted, which is named by either of its two bits. The connection of another peer is closed, and noted
    /// (`NoInit`). Takes no memory.
    pub fn new(own: Init, known: Vec<u16>, wanted: Vec<u16>) -> Greeting
        ensures greets_so { own_init result ≡ message.Init own }
        ensures knows_these { knows result ≡ known.items }
        ensures wants_these { wants result ≡ wanted.items }
    {
        Greeting {
            own: Message::Init(own),
            peer: PeerFeatures { known, wanted },
        }
    }

    /// A peer has to offer this feature, too, which is named by either of its two bits. Takes memory.
    ///
    /// Error: 60 alone, and nothing has changed.
    pub fn want(&mut self, feature: u16) -> Result<(), Refusal>
        ensures wants_it_too { OnOk result (wants self.new ≡ wants self.old ++ feature ∷ []) }
        ensures the_rest_stays { (own_init self.new ≡ own_init self.old) × (knows self.new ≡ knows self.old) }
        ensures changes_nothing_if_refused { OnErr result (wants self.new ≡ wants self.old) }
        ensures fails_for_memory_alone { IfErr result (λ e. e ≡ refusal.Memory) }
    {
        self.peer.wanted.push(feature)?;
        Ok(())
    }

    /// The usual one, with what Electrum's wallet asks of a peer: it offers data loss protection, gossip queries,
    /// onions with a payload of any length, static remote keys, payment secrets, a shutdown to any segwit version and
    /// channel types, knows what a peer may ask of these, and wants none. It names no network, and gossip queries are
    /// read past without an answer. Takes memory.
    ///
    /// Error: 60 alone.
    pub fn usual(alloc: Global) -> Result<Greeting, Refusal>
        ensures greets_so { IfOk result (λ g. own_init g ≡ message.Init usual_init) }
        ensures knows_what_is_usual { IfOk result (λ g. knows g ≡ usual_known) }
        ensures wants_none { IfOk result (λ g. wants g ≡ []) }
        ensures fails_for_memory_alone { IfErr result (λ e. e ≡ refusal.Memory) }
    {
        let features = Bytes::from_slice(alloc, &OFFERED)?;
        let known = listed(alloc, &KNOWN)?;
        let own = Init {
            global_features: Bytes::empty(alloc),
            features,
            records: Records::empty(alloc),
        };
        Ok(Greeting::new(own, known, Vec::new(alloc)))
    }
}

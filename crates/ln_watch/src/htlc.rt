//! The HTLCs of a channel, each with how far it is.

ghost use Rattle.std.specs.Prelude.{◌≡◌, ◌++◌, OnOk, IfErr};
ghost use Rattle.ln_refusals.specs.declared.refusal.Refusal.TheVariants as refusal;
ghost use Rattle.ln_watch.specs.Htlc.{stage_by, stage_of, live_htlc, is_of, live_htlcs};

use ln_keys::{Htlc, Role};
use ln_log::{Outcome, Update, find_add, outcome_of};
use ln_refusals::Refusal;
use std::marker::Model;

/// How far an HTLC is (BOLT 2, "Normal Operation").
#[derive(Clone, Copy, Debug, PartialEq, Eq)]
pub enum HtlcStage {
    /// It is offered, and not irrevocably committed yet.
    Offered,
    /// It is irrevocably committed, and neither side removes it.
    Committed,
    /// It is fulfilled, and that isn't irrevocably committed yet.
    Fulfilled,
    /// It is failed, and that isn't irrevocably committed yet.
    Failed,
}

/// A live HTLC of a channel.
#[derive(Clone, Copy, Debug, PartialEq, Eq)]
pub struct LiveHtlc {
    /// Whether this side has offered it.
    pub own: bool,
    /// Its number among those that its side has offered.
    pub id: u64,
    /// In millisatoshi.
    pub amount: u64,
    /// The payment hash.
    pub hash: [u8; 32],
    /// The block height at which it times out.
    pub expiry: u32,
    /// How far it is.
    pub stage: HtlcStage,
}

/// Live HTLCs, which contracts see as a list. Made from a `Vec`, and gives it back, without taking memory.
#[derive(Clone, Drop)]
pub struct LiveHtlcs {
    items: Vec<LiveHtlc>,
}

impl Model for LiveHtlcs {
    ghost use Rattle.std.specs.Prelude.{List};
    ghost use Rattle.ln_watch.specs.declared.htlc.LiveHtlc.{LiveHtlc};

    ghost Value = { List LiveHtlc };

    ghost view = { λ h. h.items.items };
}

impl LiveHtlcs {
    ghost use Rattle.std.specs.Prelude.{◌≡◌};

    /// Those of a vector.
    pub fn new(items: Vec<LiveHtlc>) -> LiveHtlcs
        ensures { result ≡ items.items }
    {
        LiveHtlcs { items }
    }

    /// The vector.
    pub fn into_vec(self) -> Vec<LiveHtlc>
        ensures { result.items ≡ self }
    {
        self.items
    }

    /// The HTLCs in order.
    pub fn as_slice(&self) -> &[LiveHtlc]
        ensures { result.now ≡ self.now }
    {
        self.items.as_slice()
    }
}

fn stage_by(outcome: Outcome) -> HtlcStage
    ensures { result ≡ stage_by outcome }
{
    match outcome {
        Outcome::Live => HtlcStage::Committed,
        Outcome::Fulfilled => HtlcStage::Fulfilled,
        Outcome::Failed => HtlcStage::Failed,
    }
}

// How far the HTLC of this id is, by the updates that aren't held yet: those of its side, and those of the other one.
fn stage_of(adds: &[Update], removals: &[Update], id: u64) -> HtlcStage
    ensures { result ≡ stage_of adds.now removals.now id }
{
    if find_add(id, adds).is_some() {
        return HtlcStage::Offered;
    }
    stage_by(outcome_of(id, removals))
}

fn is_of(owner: Role, htlc: &Htlc) -> bool
    ensures { result ≡ is_of owner htlc.now }
{
    match owner {
        Role::Funder => match htlc.owner {
            Role::Funder => true,
            Role::Fundee => false,
        },
        Role::Fundee => match htlc.owner {
            Role::Funder => false,
            Role::Fundee => true,
        },
    }
}

// An HTLC with its stage.
fn live_htlc(own: bool, adds: &[Update], removals: &[Update], htlc: &Htlc) -> LiveHtlc
    ensures { result ≡ live_htlc own adds.now removals.now htlc.now }
{
    LiveHtlc {
        own,
        id: htlc.id,
        amount: htlc.amount,
        hash: htlc.hash,
        expiry: htlc.expiry,
        stage: stage_of(adds, removals, htlc.id),
    }
}

/// Appends those of a commitment's HTLCs that one side has offered, by the updates that aren't held yet: those of its
/// side, and those of the other one. Takes memory. 60 where there is none.
pub(crate) fn append_live(
    live: &mut Vec<LiveHtlc>,
    owner: Role,
    own: bool,
    adds: &[Update],
    removals: &[Update],
    htlcs: &[Htlc],
) -> Result<(), Refusal>
    ensures appends { OnOk result (live.new.items
        ≡ live.old.items ++ live_htlcs owner own adds.now removals.now htlcs.now) }
    ensures fails_for_memory_alone { IfErr result (λ e. e ≡ refusal.Memory) }
{
    for htlc in htlcs {
        if is_of(owner, htlc) {
            live.push(live_htlc(own, adds, removals, htlc))?;
        }
    }
    Ok(())
}

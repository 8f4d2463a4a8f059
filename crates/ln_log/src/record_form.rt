//! What a record tells of the first updates of a channel.

ghost use Rattle.ln_log.specs.Opening.{HasFunds};
ghost use Rattle.ln_log.specs.RecordForm.{IsAtOpening};

use crate::balances::Balances;
use crate::log::Counts;
use crate::opening::Opening;
use crate::update::Add;
use ln_keys::Role;
use std::alloc::Global;

/// What a record has of the first updates of both sides: how many they are, what they are worth, and the HTLCs that are
/// live after them, those of each side by rising id. The updates after them it has one by one.
#[derive(Drop)]
pub struct BaseState {
    /// How many updates of either side are in it.
    pub updates: Counts,
    /// What they are worth beside the live HTLCs.
    pub balances: Balances,
    /// This side's live HTLCs.
    pub own: Vec<Add>,
    /// The other side's live HTLCs.
    pub peer: Vec<Add>,
}

impl BaseState {
    /// The base with no updates, where a record has all of them one by one. Takes no memory.
    pub fn at_opening(alloc: Global, opening: &Opening, role: Role) -> BaseState
        requires { HasFunds opening.now }
        ensures { IsAtOpening opening.now role result }
    {
        BaseState {
            updates: Counts { own: 0, peer: 0 },
            balances: Balances {
                next_own: 0,
                next_peer: 0,
                own: opening.first_balance(role),
                peer: opening.first_balance(role.other()),
                feerate: opening.feerate,
            },
            own: Vec::new(alloc),
            peer: Vec::new(alloc),
        }
    }
}

// What the lists of a log begin with.
#[derive(Drop)]
pub(crate) struct Origin {
    pub(crate) opening: Opening,
    pub(crate) role: Role,
    pub(crate) base: BaseState,
}

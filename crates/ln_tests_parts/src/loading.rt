//! What a channel's record tells of its updates: whether a log can be made of it, and which numbers it can
//! have.

use crate::log::What::{Add, Fulfil};
use crate::log::{What, updates};
use crate::testing::OPENING;
use ln_dance::{Dance, Numbers};
use ln_log::{Balances, BaseState, Counts, Coverage, Role, Side, UpdateLog};
use ln_refusals::Refusal;
use ln_tests_ends::htlc;
use std::alloc::Global;

/// How many own and peer's updates the last signature covers, how many are acknowledged, and how many of them the own
/// commitment covers.
fn coverage(counts: [usize; 6]) -> Coverage {
    Coverage {
        signed: Counts {
            own: counts[0],
            peer: counts[1],
        },
        acknowledged: Counts {
            own: counts[2],
            peer: counts[3],
        },
        current: Counts {
            own: counts[4],
            peer: counts[5],
        },
    }
}

/// The fundee fulfils what the funder offers.
const OFFER: [What; 1] = [Add(0, 5000, 400)];

const FULFIL: [What; 1] = [Fulfil(0, 0)];

/// How many HTLCs are live in the own commitment of the log that is loaded, the id of its next one, whether it covers
/// what was told, and which of two numbers of commitments it can have signed, the first and the second.
type Shown = (usize, u64, bool, [bool; 2]);

fn shown(log: &UpdateLog, covered: &Coverage) -> Shown {
    let numbers = Numbers {
        commitment: 1,
        signed: 1,
        revoked: 0,
    };
    let others = Numbers {
        signed: 2,
        ..numbers
    };
    (
        log.live_htlc_count(Side::Own),
        log.next_id(),
        log.coverage() == *covered,
        [Dance::fits(&numbers, log), Dance::fits(&others, log)],
    )
}

/// The base of the fundee's log that has the offer, and nothing of the fundee's: an HTLC of 5,000 msat is live in it.
fn with_offer(alloc: Global) -> Result<BaseState, Refusal> {
    Ok(BaseState {
        updates: Counts { own: 0, peer: 1 },
        balances: Balances {
            next_own: 0,
            next_peer: 1,
            own: 4000,
            peer: 11_000,
            feerate: 253,
        },
        own: Vec::new(alloc),
        peer: vec![in alloc; htlc(0, 5000, 400)]?,
    })
}

/// What is told of the fundee's log of this base and these updates after it, where one can be made of them with these
/// counts.
fn loaded(
    alloc: Global,
    base: BaseState,
    own: &[What],
    peer: &[What],
    counts: [usize; 6],
) -> Result<Option<Shown>, Refusal> {
    let own = updates(alloc, own)?;
    let peer = updates(alloc, peer)?;
    let covered = coverage(counts);
    let role = Role::Fundee;
    if !UpdateLog::can_be_loaded(alloc, &OPENING, role, &base, &own, &peer, &covered)? {
        return Ok(None);
    }
    let made = UpdateLog::load(alloc, OPENING, role, base, own, peer, covered);
    let told = match &made {
        Ok(log) => Ok(Some(shown(log, &covered))),
        Err(refusal) => Err(*refusal),
    };
    drop(made);
    told
}

// A removal is signed before its add is acknowledged, and not before that is committed.
#[test]
fn small_load(rt: HostRuntime) -> Result<(), Refusal> {
    let at_opening = BaseState::at_opening(rt.alloc(), &OPENING, Role::Fundee);
    let told = loaded(rt.alloc(), at_opening, &FULFIL, &OFFER, [1, 1, 0, 0, 0, 1])?;
    assert!(rt; told == Some((1, 0, true, [true, false])));
    let at_opening = BaseState::at_opening(rt.alloc(), &OPENING, Role::Fundee);
    assert!(rt; loaded(rt.alloc(), at_opening, &FULFIL, &OFFER, [1, 0, 0, 0, 0, 1])?.is_none());
    Ok(())
}

// A base lets go of the offer, and its HTLC is as live, and as well removed, as it was; but not of one that isn't held
// as irrevocably committed.
#[test]
fn load_behind_a_base(rt: HostRuntime) -> Result<(), Refusal> {
    let alloc = rt.alloc();
    let told = loaded(alloc, with_offer(alloc)?, &FULFIL, &[], [1, 1, 0, 1, 0, 1])?;
    assert!(rt; told == Some((1, 0, true, [true, false])));
    assert!(rt; loaded(alloc, with_offer(alloc)?, &FULFIL, &[], [1, 1, 0, 0, 0, 1])?.is_none());
    assert!(rt;
        loaded(
            alloc,
            with_offer(alloc)?,
            &[Fulfil(1, 0)],
            &[],
            [1, 1, 0, 1, 0, 1]
        )?
        .is_none()
    );
    Ok(())
}

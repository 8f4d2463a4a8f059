//! Two sides that close a channel.

use ln_close::{Closing, FeeAnswer, Fees, closes_by_agreement};
use ln_keys::Role;
use ln_refusals::Refusal;

/// What the funder of these tests takes, and its fundee.
const CHEAP: Fees = Fees {
    first: 300,
    least: 200,
    greatest: 400,
};

const DEAR: Fees = Fees {
    first: 400,
    least: 350,
    greatest: 500,
};

/// A side whose `shutdown` was sent, and which has taken the other's.
fn shut(role: Role, fees: Fees) -> Closing {
    let mut closing = Closing::new(role, fees);
    closing.shut();
    closing.peer_shut();
    closing
}

/// Whether a side may send its `shutdown`, with updates pending and without, and once that is sent.
fn may_shut() -> [Result<(), Refusal>; 3] {
    let mut closing = Closing::new(Role::Funder, CHEAP);
    let pending = closing.may_shut(true);
    let settled = closing.may_shut(false);
    closing.shut();
    [pending, settled, closing.may_shut(false)]
}

#[test]
fn shutdowns(rt: HostRuntime) {
    closes_by_agreement();
    assert!(rt; may_shut() == [Err(Refusal::UpdatesPending), Ok(()), Err(Refusal::Shut)]);
}

// The funder's first fee is below what the fundee takes, which proposes the least that both do.
#[test]
fn a_fee_that_both_take(rt: HostRuntime) {
    let mut funder = shut(Role::Funder, CHEAP);
    let mut fundee = shut(Role::Fundee, DEAR);
    assert!(rt; funder.start() == Some(300));
    assert!(rt; fundee.answer(300, Some((200, 400))) == Ok(FeeAnswer::Propose(350)));
    assert!(rt; funder.answer(350, Some((350, 500))) == Ok(FeeAnswer::EchoAndClose(350)));
    assert!(rt; fundee.answer(350, Some((200, 400))) == Ok(FeeAnswer::Close(350)));
    assert!(rt; funder.answer(351, None) == Err(Refusal::FeeOutside));
    assert!(rt; (funder.closed, fundee.closed) == (Some(350), Some(350)));
    assert!(rt; (fundee.own_fee, fundee.peer_fee) == (Some(350), Some(350)));
}

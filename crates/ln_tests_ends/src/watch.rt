//! What is told of channels and nodes, by words.

use ln_refusals::Refusal;
use ln_watch::{ChannelState, ChannelSummary, Counters, Decided, HtlcStage};

/// The word for how far a channel is.
pub fn state_word(state: ChannelState) -> &'static str {
    match state {
        ChannelState::Opening => "opening",
        ChannelState::Unconfirmed => "unconfirmed",
        ChannelState::Ready => "ready",
        ChannelState::Shutting => "shutting",
        ChannelState::Closed(_) => "closed",
        ChannelState::Failed(_) => "failed",
        ChannelState::Halted => "halted",
    }
}

// How many HTLCs are that far.
fn at_stage(summary: &ChannelSummary, stage: HtlcStage) -> u64 {
    let mut count = 0u64;
    for htlc in summary.htlcs.as_slice() {
        if htlc.stage == stage {
            count = count.wrapping_add(1);
        }
    }
    count
}

/// What a summary tells under this word; none where it tells nothing.
pub fn value_of(summary: &ChannelSummary, word: &str) -> Option<u64> {
    let told = match word {
        "balance" => summary.own_balance,
        "peer-balance" => summary.peer_balance,
        "reserve" => summary.own_reserve,
        "peer-reserve" => summary.peer_reserve,
        "block" => match summary.short_id {
            Some(id) => u64::from(id.block),
            None => 0,
        },
        "commitments" => summary.numbers.signed,
        "unsigned" => summary.unsigned.own as u64,
        "live" => summary.htlcs.as_slice().len() as u64,
        "offered" => at_stage(summary, HtlcStage::Offered),
        "committed" => at_stage(summary, HtlcStage::Committed),
        _ => return None,
    };
    Some(told)
}

/// What a node has counted under this word; none where it counts nothing. Of saves and loads it is only told whether
/// there were any.
pub fn counted(counters: &Counters, word: &str) -> Option<u64> {
    let counted = match word {
        "forwards" => counters.decided(Decided::Forward),
        "fails" => counters.decided(Decided::Fail),
        "fulfils" => counters.decided(Decided::Fulfil),
        "holds" => counters.decided(Decided::Hold),
        "adds-taken" => counters.taken(128),
        "adds-sent" => counters.sent(128),
        "readies-taken" => counters.taken(36),
        "opens-sent" => counters.sent(32),
        "saves" => u64::from(counters.saves() > 0),
        "loads" => u64::from(counters.loads() > 0),
        _ => return None,
    };
    Some(counted)
}

/// Whether this is the refusal of that number.
pub fn is_refused<T>(answer: &Result<T, Refusal>, number: u16) -> bool {
    match answer {
        Ok(_) => false,
        Err(refusal) => refusal.number() == number,
    }
}

//! Values as bytes that were written by hand.

use crate::rows::{Part, bytes_of};
use ln_channel::{Command, Config, ConnectionState, OpenSpec};
use ln_hooks::ChannelEvent;
use ln_host::{HostRecord, Question};
use ln_keys::Role;
use ln_log::Mark;
use ln_refusals::{LostData, Refusal};
use ln_wire::{
    Item, LinkStatus, LinkSummary, decode_command, decode_config, decode_item, decode_question,
    decode_saved, decode_spec, decode_summary, decode_view, encode_command, encode_config,
    encode_item, encode_question, encode_saved, encode_spec, encode_summary, encode_view, one_form,
};
use std::alloc::Global;

/// `htlc_minimum_msat` 1, `max_accepted_htlcs` 483, `max_htlc_value_in_flight_msat` 5,000,000,
/// `channel_reserve_satoshis` 1000; `chain_hash`; `dust_limit_satoshis` 546, `to_self_delay` 144, `minimum_depth` 3.
const LIMITS: Part = ("000000000000000101e300000000004c4b4000000000000003e8", 1);

const CHAIN_HASH: Part = ("06", 32);

const DEPTH: Part = ("0000000000000222009000000003", 1);

/// Closing fees of 200, 100 and 300 satoshi, and a script of three bytes.
const CLOSING: Part = (
    "00000000000000c80000000000000064000000000000012c0003515253",
    1,
);

const CONFIG: [Part; 14] = [
    LIMITS,
    CHAIN_HASH,
    DEPTH,
    ("02", 1),
    ("a1", 32),
    ("02", 1),
    ("a2", 32),
    ("02", 1),
    ("a3", 32),
    ("03", 1),
    ("a4", 32),
    ("03", 1),
    ("a5", 32),
    CLOSING,
];

/// The same, and 1,000,000 satoshi, 2500 msat, 253 satoshi for 1000 weight, flags 1, output 2 and one record.
const SPEC: [Part; 18] = [
    LIMITS,
    CHAIN_HASH,
    DEPTH,
    ("02", 1),
    ("a1", 32),
    ("02", 1),
    ("a2", 32),
    ("02", 1),
    ("a3", 32),
    ("03", 1),
    ("a4", 32),
    ("03", 1),
    ("a5", 32),
    CLOSING,
    ("00000000000f424000000000000009c4000000fd01", 1),
    ("07", 32),
    ("08", 32),
    ("0002000000000000000100000000000000010002beef", 1),
];

/// 1000 and 2000 msat, 253 satoshi for 1000 weight, and the fundee's HTLC 3 of 500 msat until block 400.
const BALANCES: Part = (
    "00000000000003e800000000000007d0000000fd0000000000000001",
    1,
);

const OFFER: Part = ("01000000000000000300000000000001f4", 1);

const HASH: Part = ("11", 32);

const EXPIRY: Part = ("00000190", 1);

/// The fundee's close at 300 satoshi: 4000 msat to a script of one byte, 5000 to one of two.
const CLOSE: Part = (
    "01000000000000012c0000000000000fa0000000000000138800015100026a00",
    1,
);

#[derive(Clone, Copy)]
enum Kind {
    Config,
    Spec,
    Command,
    Saved,
    Question,
    Item,
    Summary,
    View,
}

/// A command of each kind and a mark of each kind; questions, items and summaries.
const ROWS: [(Kind, &[Part]); 36] = [
    (Kind::Config, &CONFIG),
    (Kind::Spec, &SPEC),
    (Kind::Command, &[("000c35000000070001", 1)]),
    (
        Kind::Command,
        &[
            ("010000000000001388", 1),
            ("09", 32),
            ("00000190", 1),
            ("0a", 1366),
            ("00", 1),
        ],
    ),
    (Kind::Command, &ADD),
    (Kind::Command, &[("020000000000000004", 1), ("0c", 32)]),
    (Kind::Command, &[("0300000000000000050002dead", 1)]),
    (
        Kind::Command,
        &[("040000000000000006", 1), ("0d", 32), ("c005", 1)],
    ),
    (Kind::Command, &[("05000000fd", 1)]),
    (Kind::Command, &[("06", 1)]),
    (Kind::Command, &[("07000151", 1)]),
    (Kind::Command, &[("08000000000000000700", 1)]),
    (
        Kind::Command,
        &[
            ("08000000000000000701", 1),
            ("0e", 32),
            ("000000000000138700000180", 1),
        ],
    ),
    (
        Kind::Command,
        &[("080000000000000007020000000000000001ff", 1)],
    ),
    (Kind::Command, &[("08000000000000000703c005", 1)]),
    (Kind::Command, &[("08000000000000000704", 1), ("0f", 32)]),
    (
        Kind::Command,
        &[("080000000000000007050000000000000007", 1)],
    ),
    (Kind::Command, &[FORGET]),
    (Kind::Command, &[RESUME]),
    (Kind::View, &[BALANCES, OFFER, HASH, EXPIRY]),
    (
        Kind::Question,
        &[("01000000000000000008", 1), BALANCES, OFFER, HASH, EXPIRY],
    ),
    (Kind::Question, &[("020000000000000008", 1), ("03", 33)]),
    (Kind::Question, &[("03", 1), CLOSE]),
    (Kind::Question, &[("040000000000000009", 1)]),
    (Kind::Question, &[("05", 1), ("0e", 32)]),
    (
        Kind::Question,
        &[("06", 1), ("0e", 32), BALANCES, OFFER, HASH, EXPIRY],
    ),
    (Kind::Saved, &SAVED),
    (
        Kind::Saved,
        &[("0e", 32), ("0000000000000000000000000000000000", 1)],
    ),
    (
        Kind::Item,
        &[
            ("01", 1),
            ("0e", 32),
            ("0000000000000000000000000000000003aabbcc", 1),
        ],
    ),
    (
        Kind::Item,
        &[
            ("0201000000000000000008", 1),
            ("02", 33),
            BALANCES,
            OFFER,
            HASH,
            EXPIRY,
        ],
    ),
    (Kind::Item, &[("020200000000000000050000000000000007", 1)]),
    (Kind::Item, &[("02030000000000000001", 1)]),
    (Kind::Item, &[("0204", 1), CLOSE]),
    (Kind::Item, &ADDED),
    (
        Kind::Item,
        &[("040000000000000002010100000000000000030100026a00", 1)],
    ),
    (Kind::Summary, &SUMMARY),
];

/// 5000 msat until block 400, for HTLC 3 of another channel.
const ADD: [Part; 7] = [
    ("010000000000001388", 1),
    ("09", 32),
    ("00000190", 1),
    ("0a", 1366),
    ("01", 1),
    ("0b", 32),
    ("0000000000000003", 1),
];

const FORGET: Part = ("09000000000000000b", 1);

const RESUME: Part = ("0a000000000000000c03c005", 1);

/// Signatures over commitment 5 and one HTLC of it, the secrets of commitments 3 and 4, and three bytes.
const SAVED: [Part; 10] = [
    ("0e", 32),
    ("010000000000000005", 1),
    ("21", 64),
    ("0000000000000001", 1),
    ("22", 64),
    ("00000000000000020000000000000003", 1),
    ("23", 32),
    ("0000000000000004", 1),
    ("24", 32),
    ("0000000000000003aabbcc", 1),
];

/// Event 2: the peer's HTLC 3 of 2,100,000,000,000,000,000 msat, until block 400.
const ADDED: [Part; 4] = [
    ("040000000000000002000000000000000000031d24b2dfac520000", 1),
    ("09", 32),
    ("00000190", 1),
    ("0a", 1366),
];

/// One msat more.
const TOO_MUCH: [Part; 4] = [
    ("040000000000000002000000000000000000031d24b2dfac520001", 1),
    ("09", 32),
    ("00000190", 1),
    ("0a", 1366),
];

/// Connected, of a channel that is closed at 300 satoshi; commitments 5, 6 and 4; 4000 and 5000 msat, no live HTLC, 7
/// is the next id, and the removals of 1 and 2 are kept.
const SUMMARY: [Part; 7] = [
    ("020001", 1),
    ("0e", 32),
    ("03000000000000012c02", 1),
    ("000000000000000500000000000000060000000000000004", 1),
    ("0000000000000fa000000000000013880000000000000000", 1),
    ("00000000000000070000000000000002", 1),
    ("00000000000000010000000000000002", 1),
];

/// The bytes of the value that the bytes are.
fn again(alloc: Global, kind: Kind, bytes: &[u8]) -> Result<Vec<u8>, Refusal> {
    match kind {
        Kind::Config => encode_config(alloc, &decode_config(alloc, bytes)?),
        Kind::Spec => encode_spec(alloc, &decode_spec(alloc, bytes)?),
        Kind::Command => encode_command(alloc, &decode_command(alloc, bytes)?),
        Kind::Saved => encode_saved(alloc, &decode_saved(alloc, bytes)?),
        Kind::Question => encode_question(alloc, &decode_question(alloc, bytes)?),
        Kind::Item => encode_item(alloc, &decode_item(alloc, bytes)?),
        Kind::Summary => encode_summary(alloc, &decode_summary(alloc, bytes)?),
        Kind::View => encode_view(alloc, &decode_view(alloc, bytes)?),
    }
}

/// Whether it is read and written again, and not with a byte after it.
fn is_one_value(alloc: Global, kind: Kind, row: &[Part]) -> Result<bool, Refusal> {
    let mut bytes = bytes_of(alloc, row)?;
    let same = again(alloc, kind, bytes.as_slice())?.as_slice() == bytes.as_slice();
    bytes.push(0)?;
    let more = again(alloc, kind, bytes.as_slice());
    let damaged = more.is_err_and(|e| e == Refusal::Damaged);
    Ok(same && damaged)
}

#[test]
fn rows(rt: HostRuntime) -> Result<(), Refusal> {
    one_form();
    for (kind, row) in &ROWS {
        assert!(rt; is_one_value(rt.alloc(), *kind, row)?);
    }
    Ok(())
}

fn config_is(config: &Config) -> bool {
    let limits = config.limits;
    let points = config.points;
    limits.minimum == 1
        && limits.accepted == 483
        && limits.in_flight == 5_000_000
        && limits.reserve == 1000
        && config.dust_limit == 546
        && config.to_self_delay == 144
        && config.minimum_depth == 3
        && points.revocation_basepoint[1] == 0xa2
        && points.delayed_payment_basepoint[1] == 0xa4
        && (config.first, config.least, config.greatest) == (200, 100, 300)
        && config.script.as_slice() == [0x51, 0x52, 0x53].as_slice()
}

fn spec_is(spec: &OpenSpec) -> bool {
    config_is(&spec.config)
        && spec.funding == 1_000_000
        && spec.push == 2500
        && spec.feerate == 253
        && spec.flags == 1
        && (spec.temporary_id[0], spec.txid[0]) == (7, 8)
        && spec.output == 2
        && spec.records.as_slice().len() == 1
}

fn add_is(command: &Command) -> bool {
    match command {
        Command::Add {
            amount,
            hash,
            expiry,
            onion,
            origin,
        } => {
            *amount == 5000
                && hash[0] == 9
                && *expiry == 400
                && onion[0] == 10
                && *origin == Some(([11; 32], 3))
        }
        _ => false,
    }
}

fn forget_is(command: &Command) -> bool {
    match command {
        Command::Forget(id) => *id == 11,
        _ => false,
    }
}

fn resume_is(command: &Command) -> bool {
    match command {
        Command::Resume { event, mark } => match mark {
            Mark::Malformed(code) => *event == 12 && *code == 0xc005,
            _ => false,
        },
        _ => false,
    }
}

fn close_is(question: &Question) -> bool {
    match question {
        Question::Close(terms) => {
            terms.role == Role::Fundee
                && terms.fee_satoshis == 300
                && terms.own_msat == 4000
                && terms.peer_msat == 5000
                && terms.own_script.len() == 1
                && terms.peer_script.len() == 2
        }
        _ => false,
    }
}

fn added_is(item: &Item) -> bool {
    match item {
        Item::Event(number, event) => match event {
            ChannelEvent::Added {
                own,
                id,
                amount,
                ..
            } => *number == 2 && !*own && *id == 3 && amount.value() == 2_100_000_000_000_000_000,
            _ => false,
        },
        _ => false,
    }
}

fn saved_is(saved: &HostRecord) -> bool {
    let held = match &saved.signatures {
        Some(held) => held.number == 5 && held.htlc_signatures.as_slice().len() == 1,
        None => false,
    };
    held && saved.secrets.as_slice().len() == 2 && saved.record_bytes.len() == 3
}

fn summary_is(summary: &LinkSummary) -> bool {
    let numbers = summary.numbers;
    summary.connection == ConnectionState::Connected
        && !summary.halted
        && summary.status == LinkStatus::Closed(300)
        && summary.lost_data == LostData::Peer
        && (numbers.commitment, numbers.signed, numbers.revoked) == (5, 6, 4)
        && (summary.own_msat, summary.peer_msat) == (4000, 5000)
        && summary.next_own_htlc_id == 7
        && summary.removed_htlc_ids.as_slice() == [1, 2].as_slice()
}

#[test]
fn setups_and_commands(rt: HostRuntime) -> Result<(), Refusal> {
    let alloc = rt.alloc();
    assert!(rt; spec_is(&decode_spec(alloc, bytes_of(alloc, &SPEC)?.as_slice())?));
    assert!(rt; add_is(&decode_command(alloc, bytes_of(alloc, &ADD)?.as_slice())?));
    assert!(rt; forget_is(&decode_command(alloc, bytes_of(alloc, &[FORGET])?.as_slice())?));
    assert!(rt; resume_is(&decode_command(alloc, bytes_of(alloc, &[RESUME])?.as_slice())?));
    Ok(())
}

#[test]
fn questions_and_items(rt: HostRuntime) -> Result<(), Refusal> {
    let alloc = rt.alloc();
    assert!(rt;
        close_is(&decode_question(alloc, bytes_of(alloc, &[("03", 1), CLOSE])?.as_slice())?)
    );
    assert!(rt; added_is(&decode_item(alloc, bytes_of(alloc, &ADDED)?.as_slice())?));
    assert!(rt; saved_is(&decode_saved(alloc, bytes_of(alloc, &SAVED)?.as_slice())?));
    assert!(rt; summary_is(&decode_summary(alloc, bytes_of(alloc, &SUMMARY)?.as_slice())?));
    let too_much = decode_item(alloc, bytes_of(alloc, &TOO_MUCH)?.as_slice());
    assert!(rt; too_much.is_err_and(|e| e == Refusal::Damaged));
    Ok(())
}

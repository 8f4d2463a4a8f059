//! What each type of message has beside its values.

/// A field that hasn't the same size in every message (BOLT 1, "Fundamental Types").
#[derive(Clone, Copy)]
pub(crate) enum Kind {
    /// Bytes after their length in two bytes.
    Sized,
    /// Signatures after their count in two bytes.
    Listed,
}

/// A type of message: its number and name, the names of its fields, how many bytes those have that have one size and
/// stand first, the kinds of the others, the even types of record that it may carry, and the types of record whose
/// value has one length, with that length.
pub(crate) struct Form {
    pub(crate) typ: u16,
    pub(crate) name: &'static str,
    pub(crate) fields: &'static [&'static str],
    pub(crate) fixed: usize,
    pub(crate) others: &'static [Kind],
    pub(crate) known_even: &'static [u64],
    pub(crate) lengths: &'static [(u64, usize)],
}

pub(crate) const WARNING: &Form = &Form {
    typ: 1,
    name: "warning",
    fields: &["channel_id", "data"],
    fixed: 32,
    others: &[Kind::Sized],
    known_even: &[],
    lengths: &[],
};

pub(crate) const INIT: &Form = &Form {
    typ: 16,
    name: "init",
    fields: &["global_features", "features"],
    fixed: 0,
    others: &[Kind::Sized, Kind::Sized],
    known_even: &[],
    lengths: &[],
};

pub(crate) const ERROR: &Form = &Form {
    typ: 17,
    name: "error",
    fields: &["channel_id", "data"],
    fixed: 32,
    others: &[Kind::Sized],
    known_even: &[],
    lengths: &[],
};

pub(crate) const PING: &Form = &Form {
    typ: 18,
    name: "ping",
    fields: &["num_pong_bytes", "ignored"],
    fixed: 2,
    others: &[Kind::Sized],
    known_even: &[],
    lengths: &[],
};

pub(crate) const PONG: &Form = &Form {
    typ: 19,
    name: "pong",
    fields: &["ignored"],
    fixed: 0,
    others: &[Kind::Sized],
    known_even: &[],
    lengths: &[],
};

pub(crate) const OPEN_CHANNEL: &Form = &Form {
    typ: 32,
    name: "open_channel",
    fields: &[
        "chain_hash",
        "temporary_id",
        "funding_satoshis",
        "push_msat",
        "dust_limit_satoshis",
        "max_htlc_value_in_flight_msat",
        "channel_reserve_satoshis",
        "htlc_minimum_msat",
        "feerate_per_kw",
        "to_self_delay",
        "max_accepted_htlcs",
        "funding_pubkey",
        "revocation_basepoint",
        "payment_basepoint",
        "delayed_payment_basepoint",
        "htlc_basepoint",
        "first_per_commitment_point",
        "channel_flags",
    ],
    fixed: 319,
    others: &[],
    known_even: &[0],
    lengths: &[],
};

pub(crate) const ACCEPT_CHANNEL: &Form = &Form {
    typ: 33,
    name: "accept_channel",
    fields: &[
        "temporary_id",
        "dust_limit_satoshis",
        "max_htlc_value_in_flight_msat",
        "channel_reserve_satoshis",
        "htlc_minimum_msat",
        "minimum_depth",
        "to_self_delay",
        "max_accepted_htlcs",
        "funding_pubkey",
        "revocation_basepoint",
        "payment_basepoint",
        "delayed_payment_basepoint",
        "htlc_basepoint",
        "first_per_commitment_point",
    ],
    fixed: 270,
    others: &[],
    known_even: &[0],
    lengths: &[],
};

pub(crate) const FUNDING_CREATED: &Form = &Form {
    typ: 34,
    name: "funding_created",
    fields: &["temporary_id", "funding_txid", "output_index", "signature"],
    fixed: 130,
    others: &[],
    known_even: &[],
    lengths: &[],
};

pub(crate) const FUNDING_SIGNED: &Form = &Form {
    typ: 35,
    name: "funding_signed",
    fields: &["channel_id", "signature"],
    fixed: 96,
    others: &[],
    known_even: &[],
    lengths: &[],
};

pub(crate) const CHANNEL_READY: &Form = &Form {
    typ: 36,
    name: "channel_ready",
    fields: &["channel_id", "second_point"],
    fixed: 65,
    others: &[],
    known_even: &[],
    lengths: &[(1, 8)],
};

pub(crate) const SHUTDOWN: &Form = &Form {
    typ: 38,
    name: "shutdown",
    fields: &["channel_id", "script"],
    fixed: 32,
    others: &[Kind::Sized],
    known_even: &[],
    lengths: &[],
};

pub(crate) const CLOSING_SIGNED: &Form = &Form {
    typ: 39,
    name: "closing_signed",
    fields: &["channel_id", "fee_satoshis", "signature"],
    fixed: 104,
    others: &[],
    known_even: &[],
    lengths: &[(1, 16)],
};

pub(crate) const UPDATE_ADD_HTLC: &Form = &Form {
    typ: 128,
    name: "update_add_htlc",
    fields: &[
        "channel_id",
        "id",
        "amount_msat",
        "payment_hash",
        "cltv_expiry",
        "onion",
    ],
    fixed: 1450,
    others: &[],
    known_even: &[],
    lengths: &[],
};

pub(crate) const UPDATE_FULFILL_HTLC: &Form = &Form {
    typ: 130,
    name: "update_fulfill_htlc",
    fields: &["channel_id", "id", "preimage"],
    fixed: 72,
    others: &[],
    known_even: &[],
    lengths: &[],
};

pub(crate) const UPDATE_FAIL_HTLC: &Form = &Form {
    typ: 131,
    name: "update_fail_htlc",
    fields: &["channel_id", "id", "reason"],
    fixed: 40,
    others: &[Kind::Sized],
    known_even: &[],
    lengths: &[],
};

pub(crate) const COMMITMENT_SIGNED: &Form = &Form {
    typ: 132,
    name: "commitment_signed",
    fields: &["channel_id", "signature", "htlc_signatures"],
    fixed: 96,
    others: &[Kind::Listed],
    known_even: &[],
    lengths: &[],
};

pub(crate) const REVOKE_AND_ACK: &Form = &Form {
    typ: 133,
    name: "revoke_and_ack",
    fields: &["channel_id", "secret", "next_point"],
    fixed: 97,
    others: &[],
    known_even: &[],
    lengths: &[],
};

pub(crate) const UPDATE_FEE: &Form = &Form {
    typ: 134,
    name: "update_fee",
    fields: &["channel_id", "feerate_per_kw"],
    fixed: 36,
    others: &[],
    known_even: &[],
    lengths: &[],
};

pub(crate) const UPDATE_FAIL_MALFORMED_HTLC: &Form = &Form {
    typ: 135,
    name: "update_fail_malformed_htlc",
    fields: &["channel_id", "id", "sha256_of_onion", "failure_code"],
    fixed: 74,
    others: &[],
    known_even: &[],
    lengths: &[],
};

pub(crate) const CHANNEL_REESTABLISH: &Form = &Form {
    typ: 136,
    name: "channel_reestablish",
    fields: &[
        "channel_id",
        "next_commitment_number",
        "next_revocation_number",
        "last_secret",
        "current_point",
    ],
    fixed: 113,
    others: &[],
    known_even: &[],
    lengths: &[],
};

ghost use Rattle.std.specs.Prelude.{option_map};
ghost use Rattle.ln_msgs.specs.Messages.Table.{form_of};
ghost use Rattle.ln_msgs.specs.Messages.Forms.{AreFormsOf};

/// What a type has, where it is known.
pub(crate) fn form_of(typ: u16) -> Option<&'static Form>
    ensures { AreFormsOf (form_of typ) (option_map (λ f. f.now) result) }
{
    match typ {
        1 => Some(WARNING),
        16 => Some(INIT),
        17 => Some(ERROR),
        18 => Some(PING),
        19 => Some(PONG),
        32 => Some(OPEN_CHANNEL),
        33 => Some(ACCEPT_CHANNEL),
        34 => Some(FUNDING_CREATED),
        35 => Some(FUNDING_SIGNED),
        36 => Some(CHANNEL_READY),
        38 => Some(SHUTDOWN),
        39 => Some(CLOSING_SIGNED),
        128 => Some(UPDATE_ADD_HTLC),
        130 => Some(UPDATE_FULFILL_HTLC),
        131 => Some(UPDATE_FAIL_HTLC),
        132 => Some(COMMITMENT_SIGNED),
        133 => Some(REVOKE_AND_ACK),
        134 => Some(UPDATE_FEE),
        135 => Some(UPDATE_FAIL_MALFORMED_HTLC),
        136 => Some(CHANNEL_REESTABLISH),
        _ => None,
    }
}

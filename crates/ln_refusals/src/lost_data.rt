//! Whose data is lost, as far as `channel_reestablish` proves it.

/// Which side has lost data, as far as the other's `channel_reestablish` proves it (BOLT 2, "Message Retransmission").
#[derive(Clone, Copy, Debug, PartialEq, Eq)]
pub enum LostData {
    /// Nothing is proved.
    Unproved,
    /// This side has: the peer told a secret of this side's that revokes a commitment which this side still holds to be
    /// the current one. It must not publish that commitment.
    Own,
    /// The peer has: it told an older secret of this side's, and no number is ahead of what this side has sent. This
    /// side may publish its commitment.
    Peer,
}

//! What partners tell each other as a connection comes back is served, and what is sent again is what was sent first.

ghost use Rattle.std.specs.Prelude.{◌≡◌, ◌↔◌, ◌+◌, ℕ, List, drop, true, false, None};
ghost use Rattle.ln_msgs.specs.declared.messages.commitments.ChannelReestablish.{ChannelReestablish};
ghost use Rattle.ln_msgs.specs.declared.messages.commitments.RevokeAndAck.{RevokeAndAck};
ghost use Rattle.ln_keys.specs.Signer.{Signer};
ghost use Rattle.ln_log.specs.declared.update.Update.{Update};
ghost use Rattle.ln_log.specs.Log.{IsWithin, after_propose, after_receive, after_drop, unacknowledged};
ghost use Rattle.ln_dance.specs.Dance.{Dancer, owes, after_sign, signed_message, after_accept, revoked_message};
ghost use Rattle.ln_dance.specs.Dance.{after_learn, with_log, with_next_point};
ghost use Rattle.ln_dance.specs.Resume.{reestablish_message, lacks_signature, lacks_revocation, resume_fault};
ghost use Rattle.ln_dance.specs.Resume.{signature_again, revocation_again};
ghost use Rattle.ln_dance.specs.Reconnect.{KeepsUp, HaveParted, HasSigned, HasRevoked};

/// A law: what one of two sides tells is served by the other, wherever the connection was lost. The last signature is
/// sent again exactly where the other side hasn't accepted it, and the last revocation exactly where it hasn't learned
/// it.
pub fn reestablish_is_served()
    ensures served { (a b : Signer) (x y : Dancer) (m : ChannelReestablish) → HaveParted a b x y
        → m ≡ reestablish_message b y → resume_fault a m x ≡ None }
    ensures signature_where_lacked { (a b : Signer) (x y : Dancer) (m : ChannelReestablish) → HaveParted a b x y
        → m ≡ reestablish_message b y → (lacks_signature m x ≡ true ↔ (y.numbers.commitment + 1 ≡ x.numbers.signed)) }
    ensures revocation_where_lacked { (a b : Signer) (x y : Dancer) (m : ChannelReestablish) → HaveParted a b x y
        → m ≡ reestablish_message b y → (lacks_revocation m x ≡ true ↔ (y.numbers.revoked + 1 ≡ x.numbers.commitment)) }
{}

/// A law: two sides keep up with each other by each step of the dance, whatever is on its way: x signs, y accepts its
/// last signature, and x learns y's last revocation.
pub fn dance_keeps_up()
    ensures after_sign { (k : Signer) (x y : Dancer) → owes x ≡ false → KeepsUp k x y → KeepsUp k (after_sign x) y }
    ensures after_accept { (k : Signer) (x y : Dancer) → y.numbers.commitment + 1 ≡ x.numbers.signed → KeepsUp k x y
        → KeepsUp k x (after_accept y) }
    ensures after_learn { (k : Signer) (x y z : Dancer) (m : RevokeAndAck) → z.numbers.commitment ≡ x.numbers.revoked
        → m ≡ revoked_message k z → x.numbers.revoked + 1 ≡ y.numbers.commitment → KeepsUp k x y
        → KeepsUp k (after_learn m x) y }
{}

/// A law: the signature that is sent again is the one that was sent first, and so are the updates in front of it, while
/// it is unrevoked and whatever else the side has proposed, taken, accepted or lost since.
pub fn signature_is_sent_again()
    ensures same_signature { (k : Signer) (x z : Dancer) → HasSigned x z → signature_again k z ≡ signed_message k x }
    ensures same_updates { (x z : Dancer) → HasSigned x z
        → unacknowledged z.log ≡ drop x.log.acknowledged.own x.log.own }
    ensures at_first { (x : Dancer) → HasSigned x (after_sign x) }
    ensures after_proposal { (x z : Dancer) (u : Update) → IsWithin z.log → HasSigned x z
        → HasSigned x (with_log (after_propose u z.log) z) }
    ensures after_update { (x z : Dancer) (u : Update) → IsWithin z.log → HasSigned x z
        → HasSigned x (with_log (after_receive u z.log) z) }
    ensures after_signature { (x z : Dancer) → HasSigned x z → HasSigned x (after_accept z) }
    ensures after_break { (x z : Dancer) → IsWithin z.log → HasSigned x z
        → HasSigned x (with_log (after_drop z.log) z) }
    ensures after_same_point { (x z : Dancer) (p : List ℕ) → p ≡ x.peer.next_point → HasSigned x z
        → HasSigned x (with_next_point p z) }
{}

/// A law: the revocation that is sent again is the one that was sent first, while the side has accepted no further
/// signature.
pub fn revocation_is_sent_again()
    ensures same_revocation { (k : Signer) (x z : Dancer) → HasRevoked x z
        → revocation_again k z ≡ revoked_message k x }
    ensures at_first { (x : Dancer) → HasRevoked x (after_accept x) }
{}

//! What one partner signs the other accepts, and what it revokes the first learns, however long the message is on
//! its way.

ghost use Rattle.std.specs.Prelude.{◌≡◌, ◌+◌, None, true};
ghost use Rattle.ln_msgs.specs.declared.messages.commitments.CommitmentSigned.{CommitmentSigned};
ghost use Rattle.ln_msgs.specs.declared.messages.commitments.RevokeAndAck.{RevokeAndAck};
ghost use Rattle.ln_keys.specs.Signer.{Signer};
ghost use Rattle.ln_keys.specs.Partners.{ArePartners};
ghost use Rattle.ln_dance.specs.Dance.{Dancer, IsNumber, owes, signed_message, accept_fault, revoked_message};
ghost use Rattle.ln_dance.specs.Dance.{learn_fault, after_learn};
ghost use Rattle.ln_dance.specs.Exchange.{IsSignedFor, IsRevokedFor};

/// A law: what `a` signed at some moment its partner `b` accepts whenever it then has the same updates as sent,
/// at the number and the point that it was signed for.
pub fn signature_is_accepted()
    ensures { (a b : Signer) (x y : Dancer) (m : CommitmentSigned) → ArePartners a b → IsSignedFor b x y
        → IsNumber (x.numbers.signed + 1) → m ≡ signed_message a x → accept_fault b m y ≡ None }
{}

/// A law: what `b` revoked at some moment its partner `a` learns whenever it is at that number, and then it has
/// the point of the commitment after the next one.
pub fn revocation_is_learned()
    ensures learned { (a b : Signer) (x y : Dancer) (m : RevokeAndAck) → ArePartners a b → IsRevokedFor b y x
        → IsNumber y.numbers.commitment → owes x ≡ true → m ≡ revoked_message b y → learn_fault a m x ≡ None }
    ensures point { (b : Signer) (x y : Dancer) (m : RevokeAndAck) → IsRevokedFor b y x → m ≡ revoked_message b y
        → (after_learn m x).peer.next_point ≡ b.point_of ((after_learn m x).numbers.revoked + 1) }
{}

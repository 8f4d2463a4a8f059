//! What a close comes to.

ghost use Rattle.std.specs.Prelude.{ℕ, Option, IfOk};
ghost use Rattle.ln_keys.specs.declared.role.Role.{Role};
ghost use Rattle.ln_close.specs.declared.closing.Fees.{Fees};
ghost use Rattle.ln_close.specs.declared.closing.Closing.{Closing};
ghost use Rattle.ln_close.specs.Closing.{opened, after_shut, after_peer_shut, started, answer_to, after, AreOrdered};
ghost use Rattle.ln_close.specs.Closing.{Agrees};

/// A side whose first fee lies within its own range sends none outside it, and a channel is closed only at
/// a fee that both sides have sent: it is so at first, and each call keeps it.
pub fn closes_by_agreement()
    ensures opened { (role : Role) (fees : Fees) → Agrees (opened role fees) }
    ensures shut { (c : Closing) → Agrees c → Agrees (after_shut c) }
    ensures peer_shut { (c : Closing) → Agrees c → Agrees (after_peer_shut c) }
    ensures started { (c : Closing) → AreOrdered c.fees → Agrees c → Agrees (started c) }
    ensures answered { (c : Closing) (fee : ℕ) (range : Option (ℕ × ℕ)) → AreOrdered c.fees → Agrees c
        → IfOk (answer_to c fee range) (λ a. Agrees (after fee a c)) }
{}

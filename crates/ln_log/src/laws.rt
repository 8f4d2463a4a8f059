//! What a log does, as moves of the channel's machine.

ghost use Rattle.std.specs.Prelude.{◌≡◌, ◌↔◌, ℕ, List, take, length, Bool, true, false, Option, Some, None};
ghost use Rattle.ln_keys.specs.declared.role.Role.{Role};
ghost use Rattle.ln_keys.specs.Role.{other_role};
ghost use Rattle.ln_refusals.specs.declared.refusal.Refusal.{Refusal};
ghost use Rattle.ln_refusals.specs.PeerRule.{refusal_by, rule_of};
ghost use Rattle.ln_log.specs.declared.opening.Opening.{Opening};
ghost use Rattle.ln_log.specs.declared.update.Update.{Update};
ghost use Rattle.ln_log.specs.Updates.{as_sent, all_sent};
ghost use Rattle.ln_log.specs.Limits.{HasNextId, is_at_update_limit, update_fault};
ghost use Rattle.ln_log.specs.Machine as machine;
ghost use Rattle.ln_log.specs.Machine.{Covered, turned, MaySign, MayShut, MayFollow, MayPropose};
ghost use Rattle.ln_log.specs.Log.{Log, IsWithin, sent_pair, view_for, party_of, after_propose, after_receive};
ghost use Rattle.ln_log.specs.Log.{after_sign, after_accept, after_learn, after_drop, sign_fault, proposal_fault};
ghost use Rattle.ln_log.specs.Log.{length_fault};

/// What the calls of a log make of its lists is what the moves make of the machine's party: an update that
/// is taken is no move; a signature that is taken moves to what the peer has signed, and a revocation to
/// what the peer's commitment is, where these are the same updates as sent.
pub fn moves_exactly()
    ensures a_proposal_is_its_move { (s : Bool) (c : Option ℕ) (l : Log) (u : Update) → IsWithin l
        → party_of s c (after_propose u l) ≡ machine.after_propose (as_sent u) (party_of s c l) }
    ensures a_taken_update_is_no_move { (s : Bool) (c : Option ℕ) (l : Log) (u : Update) → IsWithin l
        → party_of s c (after_receive u l) ≡ party_of s c l }
    ensures a_signature_is_its_move { (s : Bool) (c : Option ℕ) (l : Log)
        → party_of s c (after_sign l) ≡ machine.after_sign (party_of s c l) }
    ensures a_taken_signature_is_its_move { (s t : Bool) (c d : Option ℕ) (l peer : Log)
        → all_sent (take l.acknowledged.own l.own) ≡ all_sent (take peer.signed.peer peer.received)
        → all_sent l.received ≡ all_sent (take peer.signed.own peer.own)
        → party_of s c (after_accept l) ≡ machine.after_accept (party_of t d peer) (party_of s c l) }
    ensures a_taken_revocation_is_its_move { (s t : Bool) (c d : Option ℕ) (l peer : Log)
        → all_sent (take l.signed.own l.own) ≡ all_sent (take peer.current.peer peer.received)
        → all_sent (take l.signed.peer l.received) ≡ all_sent (take peer.current.own peer.own)
        → party_of s c (after_learn l) ≡ machine.after_learn (party_of t d peer) (party_of s c l) }
    ensures a_lost_connection_is_its_move { (s : Bool) (c : Option ℕ) (l : Log) → IsWithin l
        → party_of s c (after_drop l) ≡ machine.after_drop (party_of s c l) }
    ensures a_shutdown_is_its_move { (s : Bool) (c : Option ℕ) (l : Log)
        → party_of true c l ≡ machine.after_shut (party_of s c l) }
    ensures a_close_is_its_move { (s : Bool) (c : Option ℕ) (fee : ℕ) (l : Log)
        → party_of s (Some fee) l ≡ machine.after_close fee (party_of s c l) }
{}

/// A side is kept from signing exactly where its last signature isn't revoked for, or nothing would be
/// new, said of the lists that the counts stand for.
pub fn sign_exactly()
    ensures { (s : Bool) (c : Option ℕ) (l : Log) → IsWithin l → ((sign_fault l ≡ None) ↔ MaySign (party_of s c l)) }
{}

/// Every own update is acknowledged by count exactly where the machine's party may send shutdown.
pub fn shut_exactly()
    ensures { (s : Bool) (c : Option ℕ) (l : Log) → IsWithin l
        → ((l.acknowledged.own ≡ length l.own) ↔ MayShut (party_of s c l)) }
{}

/// An update with the id that is due, and which may follow a shutdown where one was sent, is proposed exactly where
/// the machine's party may propose it, the side has numbers left, and the update isn't too long to be sent.
pub fn propose_exactly()
    ensures { (s : Bool) (c : Option ℕ) (l : Log) (u : Update) → HasNextId l.own u
        → ((MayFollow s u × (proposal_fault l u ≡ None))
        ↔ (MayPropose l.opening l.role (as_sent u) (party_of s c l) × (is_at_update_limit l.own ≡ false)
        × (length_fault u ≡ None))) }
{}

/// What is wrong with an update is the refusal of one of its receiver's rules, and has that rule's number.
pub fn limits_are_rules()
    ensures { (o : Opening) (side : Role) (own seen held : List Update) (u : Update) (r : Refusal)
        → update_fault o side own seen held u ≡ Some r → refusal_by (rule_of r) ≡ r }
{}

/// What a commitment is worth depends on the updates as they are sent alone, and both sides see it alike.
pub fn views_as_sent()
    ensures depends_on_the_updates_as_sent { (o : Opening) (x : Role) (c d : Covered) → sent_pair c ≡ sent_pair d
        → view_for o x c ≡ view_for o x d }
    ensures is_the_same_from_the_other_side { (o : Opening) (x : Role) (c d : Covered)
        → sent_pair c ≡ sent_pair (turned d) → view_for o x c ≡ view_for o (other_role x) d }
{}

//! What beginnings of two lists and the rest of them tell of the whole lists.

ghost use Rattle.std.specs.Prelude.{◌≡◌, ◌<◌, ◌++◌, ◌↔◌, ℕ, List, true, None, if◌then◌else◌};
ghost use Rattle.ln_keys.specs.declared.role.Role.{Role};
ghost use Rattle.ln_log.specs.declared.opening.Opening.{Opening};
ghost use Rattle.ln_log.specs.declared.update.Update.{Update};
ghost use Rattle.ln_log.specs.Updates.{next_id, add_with, outcome, is_live, is_some};
ghost use Rattle.ln_log.specs.Log.{AreNumbered, BothPay};
ghost use Rattle.ln_log.specs.Window.{live_htlcs, balances_of, balances_behind, BothPayBehind, GoesOn};

/// A law: a base, beginnings of both lists that are closed, and the updates after it tell what the whole lists are
/// worth, which of their HTLCs are live, and that both sides can pay. Of the base this takes what it is worth and its
/// live HTLCs alone.
pub fn base_and_window_tell_all()
    ensures balances { (o : Opening) (x : Role) (p w q v : List Update) → GoesOn o x p w q v
        → balances_of o x (p ++ w) (q ++ v)
        ≡ balances_behind x (balances_of o x p q) (live_htlcs p q) w (live_htlcs q p) v }
    ensures live_htlc_count { (o : Opening) (x : Role) (p w q v : List Update) → GoesOn o x p w q v
        → (live_htlcs (p ++ w) (q ++ v) ≡ live_htlcs (live_htlcs p q ++ w) v)
        × (live_htlcs (q ++ v) (p ++ w) ≡ live_htlcs (live_htlcs q p ++ v) w) }
    ensures payment { (o : Opening) (x : Role) (p w q v : List Update) → GoesOn o x p w q v
        → BothPayBehind (balances_of o x p q) (live_htlcs p q) w (live_htlcs q p) v
        → BothPay o x (record { own = p ++ w; peer = q ++ v }) }
{}

/// A law: what a removal is tested by. An HTLC was offered exactly where its id is below the next one; one that is
/// live is found among the live ones, and no other is; and live HTLCs, as the updates that offered them, remove
/// nothing.
pub fn removals_look_at_live_htlcs()
    ensures offered_below_the_next_id { (id : ℕ) (us : List Update) → AreNumbered 0 us
        → ((is_some (add_with id us) ≡ true) ↔ (id < next_id us)) }
    ensures found_among_them { (id : ℕ) (p q : List Update)
        → add_with id (live_htlcs p q) ≡ (if is_live (outcome id q) then add_with id p else None) }
    ensures remove_nothing { (id : ℕ) (p q w : List Update) → outcome id (live_htlcs p q ++ w) ≡ outcome id w }
{}

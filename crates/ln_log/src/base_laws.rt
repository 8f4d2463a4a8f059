//! Which bases updates lead to.

ghost use Rattle.std.specs.Prelude.{◌≡◌, ◌↔◌, ◌≤◌, ◌-◌, List, [], length, take, None};
ghost use Rattle.ln_keys.specs.declared.role.Role.{Role};
ghost use Rattle.ln_log.specs.declared.loading.Coverage.{Coverage};
ghost use Rattle.ln_log.specs.declared.opening.Opening.{Opening};
ghost use Rattle.ln_log.specs.declared.standing.Standing.{Standing};
ghost use Rattle.ln_log.specs.declared.record_form.BaseState.{BaseState};
ghost use Rattle.ln_log.specs.declared.update.Add.{Add};
ghost use Rattle.ln_log.specs.declared.update.Update.{Update};
ghost use Rattle.ln_log.specs.Opening.{HasFunds};
ghost use Rattle.ln_log.specs.Updates.{next_id};
ghost use Rattle.ln_log.specs.View.{live_adds};
ghost use Rattle.ln_log.specs.declared.log.Pair.{Pair};
ghost use Rattle.ln_log.specs.Log.{Log, Counts, none, sign_fault, proposal_fault, taken_fault, IsKept, covered};
ghost use Rattle.ln_log.specs.Log.{counts_of, view_for, unacknowledged, after_propose, after_receive, after_sign};
ghost use Rattle.ln_log.specs.Log.{after_accept, after_learn, after_drop};
ghost use Rattle.ln_log.specs.Window.{Balances, balances_of, IsClosed, BothPayBehind};
ghost use Rattle.ln_log.specs.Explained.{MayBeLedTo, LeadTo, led_own, led_peer};
ghost use Rattle.ln_log.specs.Kept.{IsWindowOf, IsKeptInOrder};
ghost use Rattle.ln_log.specs.Limits.{most_updates, HasNextId};
ghost use Rattle.ln_log.specs.Loading.{stored, IsReadable};
ghost use Rattle.ln_log.specs.Alike.{AreAlike};
ghost use Rattle.ln_log.specs.RecordForm.{RecordForm, kept_of, record_form, record_form_of, written, as_offered};
ghost use Rattle.ln_log.specs.RecordForm.{IsRestorable, HasBalancesAt};
ghost use Rattle.ln_log.specs.RecordForm.{IsAtOpening};

/// A law: of a base that updates may lead to the lists that are written down are such updates, and where there are any,
/// updates may lead to it.
pub fn updates_lead_to_what_may_be_led_to()
    ensures lists_lead_to_it { (o : Opening) (x : Role) (c : Counts) (w : Balances) (own peer : List Add) → HasFunds o
        → MayBeLedTo o x c w own peer → LeadTo o x c w own peer (led_own o x c w own peer) (led_peer o x c w own peer) }
    ensures exactly { (o : Opening) (x : Role) (c : Counts) (w : Balances) (own peer : List Add) → HasFunds o
        → (MayBeLedTo o x c w own peer
        ↔ ((p : List Update) × ((q : List Update) × LeadTo o x c w own peer p q))) }
    ensures none_at_the_opening { (o : Opening) (x : Role) → HasFunds o
        → MayBeLedTo o x none (balances_of o x [] []) [] [] × (led_own o x none (balances_of o x [] []) [] [] ≡ [])
        × (led_peer o x none (balances_of o x [] []) [] [] ≡ []) }
{}

/// A law: whatever lists a log has, a base of them is one that updates may lead to, by what it is worth, its live HTLCs
/// and its counts alone.
pub fn a_base_is_led_to()
    ensures { (l : Log) (s t u v : Standing) (c : Counts) → IsKept l s t u v → c.own ≤ l.current.own
        → c.peer ≤ l.acknowledged.peer → IsClosed l.opening l.role (take c.own l.own) (take c.peer l.received)
        → MayBeLedTo l.opening l.role c (balances_of l.opening l.role (take c.own l.own) (take c.peer l.received))
        (live_adds (take c.own l.own) (take c.peer l.received))
        (live_adds (take c.peer l.received) (take c.own l.own)) }
{}

/// A law: a log can be restored from what a record tells of a base and the updates after it exactly where there are
/// whole lists that the restored log stands for, and that could be loaded themselves; such are the ones that are
/// written down.
pub fn a_record_tells_of_lists()
    ensures exactly { (t : RecordForm) → (IsRestorable t ↔ ((l : Log) × (IsWindowOf (kept_of t) l × IsReadable l))) }
    ensures written_down { (t : RecordForm) → IsRestorable t → IsWindowOf (kept_of t) (written t) }
    ensures tells_them { (t : RecordForm) → IsRestorable t → record_form_of t.first (written t) ≡ t }
    ensures in_order { (t : RecordForm) → IsRestorable t → IsKeptInOrder (kept_of t) }
{}

/// A law: from what a record tells of the lists of a log, with any base of theirs and without the updates that no
/// signature covers, a log can be restored, and it stands for these lists; the ones that are written down are like
/// them.
pub fn what_is_told_of_a_log_restores_it()
    ensures stands_for_them { (l : Log) (s t u v : Standing) (c : Counts) → IsKept l s t u v → l.first ≡ none
        → length l.own ≤ most_updates → length l.received ≤ most_updates → c.own ≤ l.current.own
        → c.peer ≤ l.acknowledged.peer → IsClosed l.opening l.role (take c.own l.own) (take c.peer l.received)
        → IsRestorable (record_form_of c (after_drop l))
        × IsWindowOf (kept_of (record_form_of c (after_drop l))) (after_drop l) }
    ensures is_like_them { (l : Log) (t : RecordForm) → IsRestorable t → IsWindowOf (kept_of t) l
        → AreAlike l (written t) }
{}

/// A law: a record with no updates in its base tells of whole lists, and a log can be restored from it exactly where
/// one can be of these.
pub fn a_record_without_a_base_has_all_updates()
    ensures exactly { (o : Opening) (x : Role) (b : BaseState) (own received : List Update) (c : Coverage)
        → IsAtOpening o x b → (IsRestorable (record_form o x b own received c)
        ↔ IsReadable (stored o x own received c)) }
    ensures written { (o : Opening) (x : Role) (b : BaseState) (own received : List Update) (c : Coverage)
        → IsAtOpening o x b → written (record_form o x b own received c) ≡ stored o x own received c }
{}

/// A law: whether both sides can pay after a base may be told by whether the updates are worth something there.
pub fn what_is_told_has_balances()
    ensures has_balances { (t : RecordForm) → IsRestorable t
        → HasBalancesAt t t.signed × HasBalancesAt t t.acknowledged × HasBalancesAt t t.current }
    ensures can_pay { (t : RecordForm) (c : Counts) → HasBalancesAt t c
        → BothPayBehind t.balances (as_offered t.own_live_htlcs) (take (c.own - t.first.own) t.own)
        (as_offered t.peer_live_htlcs) (take (c.peer - t.first.peer) t.received) }
{}

/// A law: no refusal and no view tells apart two lists that the same kept value stands for, nor does what is sent
/// again. They stay alike whatever is proposed, taken, signed, accepted, learned or lost.
pub fn alike_lists_are_not_told_apart()
    ensures same_refusals { (l m : Log) (u : Update) → AreAlike l m → (sign_fault l ≡ sign_fault m)
        × (proposal_fault l u ≡ proposal_fault m u) × (taken_fault l u ≡ taken_fault m u) }
    ensures same_next_id { (l m : Log) → AreAlike l m → next_id l.own ≡ next_id m.own }
    ensures same_views { (l m : Log) (p : Pair) → AreAlike l m
        → view_for l.opening l.role (covered l (counts_of p l))
        ≡ view_for m.opening m.role (covered m (counts_of p m)) }
    ensures same_unacknowledged { (l m : Log) → AreAlike l m → unacknowledged l ≡ unacknowledged m }
    ensures proposed { (l m : Log) (u : Update) → AreAlike l m → proposal_fault l u ≡ None → HasNextId l.own u
        → AreAlike (after_propose u l) (after_propose u m) }
    ensures taken { (l m : Log) (u : Update) → AreAlike l m → taken_fault l u ≡ None
        → AreAlike (after_receive u l) (after_receive u m) }
    ensures moved { (l m : Log) → AreAlike l m → AreAlike (after_sign l) (after_sign m)
        × AreAlike (after_accept l) (after_accept m) × AreAlike (after_learn l) (after_learn m)
        × AreAlike (after_drop l) (after_drop m) }
{}

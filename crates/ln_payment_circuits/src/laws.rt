//! One payment out for each payment in, whatever happens to a node's channels and to its book.

ghost use Rattle.std.specs.Prelude.{◌≡◌, ℕ, List, true, false, Some};
ghost use Rattle.ln_log.specs.declared.mark.Mark.{Mark};
ghost use Rattle.ln_log.specs.Mark.{is_held};
ghost use Rattle.ln_book_tables.specs.declared.htlc.Key.{Key};
ghost use Rattle.ln_book_tables.specs.declared.htlc.Htlc.{Htlc};
ghost use Rattle.ln_book_tables.specs.declared.entry.Out.TheVariants as out;
ghost use Rattle.ln_book_tables.specs.Replay.{is_open, put_mark};
ghost use Rattle.ln_book.specs.Rebuild.{ChannelSnapshot, rebuilt_htlcs};
ghost use Rattle.ln_book.specs.Commands.{due};
ghost use Rattle.ln_payment_circuits.specs.Snapshot.{IsIn};
ghost use Rattle.ln_payment_circuits.specs.Snapshot.{Snapshot, Incoming, AreFit, nothing_yet};
ghost use Rattle.ln_payment_circuits.specs.Happens.{AreMoments, HasOwnIds, last_of};
ghost use Rattle.ln_payment_circuits.specs.Circuit.{PaysOnce, IsCovered};

/// A law over every list of what may happen to a node: messages and signatures of its channels, what its book asks of
/// them and what they refuse, lost connections, links without memory, and restarts. For each HTLC that came in, a
/// signature covers one HTLC at most that forwards it, over all channels; and where it has a removal, even an unsigned
/// one, that is what became of the one that went out, irrevocably committed (BOLT 2, "Forwarding HTLCs"). A fulfilment
/// carries its preimage. So a payment is forwarded once, and what came in is failed only where nothing that went out
/// for it may still be fulfilled.
pub fn one_payment_out()
    ensures { (id_of : ℕ → List ℕ) (moments : List Snapshot) → HasOwnIds id_of
        → AreMoments id_of nothing_yet moments → (h : Incoming) → PaysOnce id_of h (last_of nothing_yet moments) }
{}

/// A law: what a signature covers of what goes out stays covered, whatever happens next; so "one at most is covered" is
/// said of all times.
pub fn what_is_covered_stays()
    ensures { (id_of : ℕ → List ℕ) (s : Snapshot) (later : List Snapshot) → AreFit id_of s → AreMoments id_of s later
        → (h : Incoming) (c i : ℕ) → IsCovered id_of h s c i → IsCovered id_of h (last_of s later) c i }
{}

/// A law: an HTLC that came in and is held, and that its channel has removed all the same, is neither offered on nor
/// removed again once its node has restarted, whatever it is resumed by. So no payment goes out for what was removed by
/// hand while it was on hold.
pub fn what_was_removed_while_held_goes_nowhere()
    ensures { (rs : List ChannelSnapshot) (x : Htlc) → IsIn x (rebuilt_htlcs rs) → is_held x.mark ≡ true
        → is_open x.incoming ≡ false → (m : Mark) (c : List ℕ) (k : Key)
        → (due c (put_mark m x) ≡ Some (out.Adding k) → ⊥) × (due c (put_mark m x) ≡ Some (out.Removing k) → ⊥) }
{}

//! What becomes of a payment that a node forwards, whatever happens to its links and its book.

ghost use Rattle.std.specs.Prelude.{Bool, List};
ghost use Rattle.ln_payment.specs.Parts.{begun};
ghost use Rattle.ln_payment.specs.Moves.{Move, AreMade, after};
ghost use Rattle.ln_payment.specs.Promises.{Promises};
ghost use Rattle.ln_payment.specs.Recovery.{IsReadBack};

/// A law over every list of moves that may be made, refused removals, lost connections, halted links and restarts
/// included: of the HTLCs that go out for one that came in, a signature covers one at most; and where the one that came
/// in has a removal, even an unsigned one, each that is covered has been removed likewise, irrevocably committed
/// (BOLT 2, "Forwarding HTLCs"). So what is forwarded is forwarded once, and what came in is failed only where nothing
/// that went out for it may still be fulfilled.
pub fn one_payment_out()
    ensures { (moves : List Move) → AreMade moves begun → Promises (after moves begun) }
{}

/// A law over every list of moves that may be made: a node that restarts after them reads off its records what its
/// book had of the payment, but for what no signature covered. Until the removal of the HTLC that came in is
/// irrevocably committed, the book has the decision that it had, and where the HTLC goes out: an offer that a signature
/// covers is there again, one that ended is over though the book hadn't heard of it, and a lost one can be made again,
/// as can one that was refused and not failed yet. What it had let go of had gone nowhere. From then on it asks for
/// nothing but to forget a result.
pub fn the_book_is_read_back()
    ensures { (still : Bool) (moves : List Move) → AreMade moves begun → IsReadBack still (after moves begun) }
{}

//! Laws of what workers and dispatchers do.

ghost use Rattle.std.specs.Prelude.{◌≡◌, ◌++◌, ◌∷◌, ◌-◌, ℕ, map, List, [], Option, Bool, true};
ghost use Rattle.ln_hooks.specs.declared.event.ChannelEvent.{ChannelEvent};
ghost use Rattle.ln_msgs.specs.declared.messages.message.Message.{Message};
ghost use Rattle.ln_refusals.specs.declared.refusal.Refusal.{Refusal};
ghost use Rattle.ln_channel.specs.End as channel;
ghost use Rattle.ln_channel.specs.Pending.{pending_events};
ghost use Rattle.ln_link.specs.Record.{items_of};
ghost use Rattle.ln_link.specs.Loading.{HasRecord, end_of};
ghost use Rattle.ln_relay.specs.Position.{IsMergeOfAll, Position, WasEmpty};
ghost use Rattle.ln_node_loops.specs.declared.features.PeerFeatures.{PeerFeatures};
ghost use Rattle.ln_node_loops.specs.declared.task.Task.{Task};
ghost use Rattle.ln_node_loops.specs.Served.{events_in, Begins};
ghost use Rattle.ln_book.specs.declared.switch.saying.Saying.{Saying};
ghost use Rattle.ln_node_loops.specs.Turns.{LoopState, Began, told, AreEvents, Stand, Turn, Leads, News};
ghost use Rattle.ln_node_loops.specs.Turns.{cuts_off, JoinNone, IsCutOff, RemoveByBookAlone, items_of as items_in};
ghost use Rattle.ln_node_loops.specs.Course.{segment, next_of, Tells};
ghost use Rattle.ln_node_loops.specs.Orders.{Reply, AreRepliesTo, orders_in};
ghost use Rattle.ln_node_loops.specs.Signing.{owes_signature, is_done};
ghost use Rattle.ln_keys.specs.Signer.{Signer};
ghost use Rattle.ln_channel.specs.declared.command.Command.TheVariants as command;
ghost use Rattle.ln_channel.specs.State.{State};
ghost use Rattle.ln_channel.specs.Step.{commanded};

use crate::end::End;
use crate::item::Item;
use crate::wire::Closes;
use ln_keys::ChannelKeys;
use ln_relay::Receives;

/// Where one sender of a dispatcher's relay puts events and the other none, the events that are taken begin those
/// that were put: each once, in order, and none else.
pub fn hooks_follow<H: Drop>()
    ensures { (first second taken : List (Task H)) → IsMergeOfAll first second taken → events_in second ≡ []
        → Begins (events_in taken) (events_in first) }
{}

/// Where the events that are pending at the start of a worker's loop, those of each turn's outputs and those that are
/// pending after each load are events of one channel, one after the other by their numbers, and each list begins no
/// later than after those that were told before, then exactly these events are put for its dispatcher: each once, in
/// order, none left out and none else.
pub fn every_event_is_put<E: End + Drop, W: Closes + Drop, I: Receives<Item<W>> + Drop, H: Drop>()
    ensures { (own_init : Message) (peer : PeerFeatures) (place : Position I.Relay) (a b : LoopState E.State W H)
        (began : Began E.acts E.halted E.pending E.owes E.seen W.contents own_init peer (WasEmpty place) a b)
        (event : ℕ → ChannelEvent) (first end : ℕ)
        → Tells event first (next_of first a.last) (E.pending a.stand.end ∷ map told began.ran.turns) end
        → (new : List (Task H)) × (b.put ≡ a.put ++ new)
        × AreEvents new (segment event (end - next_of first a.last) (next_of first a.last)) }
{}

/// Each order that was taken was replied to, once, in the order in which they were taken: by 40 where it is reserved
/// for the book, else by what the end has answered to it.
pub fn every_order_is_replied_to<
    E: End + Drop,
    W: Closes + Drop,
    I: Receives<Item<W>> + Drop,
    H: Drop,
>()
    ensures { (own_init : Message) (peer : PeerFeatures) (place : Position I.Relay) (a b : LoopState E.State W H)
        (began : Began E.acts E.halted E.pending E.owes E.seen W.contents own_init peer (WasEmpty place) a b)
        → (new : List Reply) × (b.replied ≡ a.replied ++ new)
        × AreRepliesTo E.acts E.seen (orders_in (items_in began.ran.turns)) new }
{}

/// What removes an HTLC, and what forwards one, the end was told by the book alone: no order that it obeyed is such,
/// and nothing that the worker gave it by itself.
pub fn the_book_alone_removes_and_forwards<
    E: End + Drop,
    W: Closes + Drop,
    I: Receives<Item<W>> + Drop,
    H: Drop,
>()
    ensures { (own_init : Message) (peer : PeerFeatures) (place : Position I.Relay) (a b : LoopState E.State W H)
        (began : Began E.acts E.halted E.pending E.owes E.seen W.contents own_init peer (WasEmpty place) a b)
        → RemoveByBookAlone began.ran.turns }
{}

/// A link owes a signature exactly where `Sign` is done, if there is memory and its store doesn't fail.
pub fn a_signature_is_owed_where_sign_is_done<K: ChannelKeys>()
    ensures { (keys : Signer) (l : State K) → owes_signature l ≡ is_done (commanded keys l command.Sign) }
{}

/// After a turn that couldn't write all, or that cut the connection off by another reason, nothing is written until the
/// next connection joins: there is none to write to.
pub fn nothing_is_written_after_a_loss<E: End + Drop, W: Closes + Drop>()
    ensures { (own_init : Message) (peer : PeerFeatures) (tried : Bool) (s s' : Stand E.State) (t : Turn W)
        (ts : List (Turn W)) (words : List Saying) (news : List News) → cuts_off t ≡ true → JoinNone (items_in ts)
        → Leads E.acts E.halted E.pending E.owes E.seen W.contents own_init peer tried s (t ∷ ts) words news s'
        → IsCutOff s' }
{}

/// The events that are pending after a load of an end's record are those of what a lost connection leaves of the end:
/// they tell of updates that the record has one by one.
pub fn a_load_keeps_pending_events()
    ensures { (failure : Option Refusal) (e : channel.End) → HasRecord failure e
        → pending_events (end_of (items_of failure e)) ≡ pending_events (channel.end_dropped e) }
{}

//! Laws of what a book of payments commands the channels of its node, over every list of what was entered in it.

ghost use Rattle.std.specs.Prelude.{◌≡◌, ◌⊎◌, ◌<◌, ℕ, List, true, false, not, ◌&&◌, Some, Ok, Err, is_some, is_none};
ghost use Rattle.std.specs.List.{find, list_any};
ghost use Rattle.ln_log.specs.declared.update.Add.{Add};
ghost use Rattle.ln_log.specs.declared.update.Update.TheVariants as update;
ghost use Rattle.ln_log.specs.Limits.{is_at_update_limit};
ghost use Rattle.ln_forward.specs.declared.failure.Failure.TheVariants as failure;
ghost use Rattle.ln_channel.specs.declared.command.Command.{Command};
ghost use Rattle.ln_channel.specs.declared.command.Command.TheVariants as command;
ghost use Rattle.ln_channel.specs.Commands.{own_fault};
ghost use Rattle.ln_channel.specs.End.{End};
ghost use Rattle.ln_channel.specs.State.{State, is_down};
ghost use Rattle.ln_book_tables.specs.declared.htlc.Key.{Key};
ghost use Rattle.ln_book_tables.specs.declared.htlc.Htlc.{Htlc};
ghost use Rattle.ln_book_tables.specs.declared.entry.Out.{Out};
ghost use Rattle.ln_book_tables.specs.declared.entry.Out.TheVariants as out;
ghost use Rattle.ln_book_tables.specs.declared.entry.PendingCommand.TheVariants as pending_command;
ghost use Rattle.ln_book_tables.specs.declared.entry.KeptState.{KeptState};
ghost use Rattle.ln_book_tables.specs.declared.entry.Entry.{Entry};
ghost use Rattle.ln_book_tables.specs.declared.entry.Entry.TheVariants as entry;
ghost use Rattle.ln_history.specs.History.{History, with_entry};
ghost use Rattle.ln_book_tables.specs.Replay.{Table, table_of, pending_command_at, is_htlc, is_open, htlc_kept};
ghost use Rattle.ln_book_tables.specs.Replay.{same, is_among, is_queued};
ghost use Rattle.ln_keys.specs.Services.{Services};
ghost use Rattle.ln_book.specs.Commands.{own_failure, first_command, with_taken, due, command_by};
ghost use Rattle.ln_book.specs.Answers.{replied};
ghost use Rattle.ln_book.specs.Owing.{Owes, is_lost};
ghost use Rattle.ln_book.specs.Uses.{takes_payments};

/// A command that was handed out, and that its channel has refused for now, is handed out again next: 47, as it isn't
/// connected, and 62, as it has halted.
pub fn what_is_refused_for_now_is_handed_out_again()
    ensures { (s : Services) (c : List ℕ) (b : History Table Entry) (x : Out × Command) (r : ℕ)
        → first_command s c (table_of b) ≡ Some x → (r ≡ 47) ⊎ (r ≡ 62)
        → first_command s c (table_of (replied c (Err r) (with_taken c (Some x) b))) ≡ Some x }
{}

/// A command that was handed out, and of which its channel has kept nothing as its connection was lost or it was
/// loaded, is owed as before.
pub fn what_is_lost_is_owed_again()
    ensures { (s : Services) (c : List ℕ) (b : History Table Entry) (x : Out × Command) (told : KeptState)
        → first_command s c (table_of b) ≡ Some x → told.decides ≡ false → is_lost (x.0) told ≡ true
        → Owes s c x (table_of (with_entry (entry.Dropped c told) (with_taken c (Some x) b))) }
{}

/// Where a channel is owed something and no command is out in it, one can be taken.
pub fn what_is_owed_can_be_taken()
    ensures { (s : Services) (c : List ℕ) (b : History Table Entry) (x : Out × Command) → Owes s c x (table_of b)
        → pending_command_at c (table_of b) ≡ pending_command.Idle → is_some (first_command s c (table_of b)) ≡ true }
{}

/// An HTLC whose offer the next channel refuses by any number below 47 is failed in the channel by which it came, by
/// temporary_channel_failure (BOLT 2, "Forwarding HTLCs"; BOLT 4, "Failure Messages").
pub fn a_refused_offer_fails_back()
    ensures { (s : Services) (c : List ℕ) (b : History Table Entry) (k : Key) (h : Htlc) (r : ℕ)
        → find (is_htlc k) (table_of b).htlcs ≡ Some h → due c h ≡ Some (out.Adding k) → is_open h.incoming ≡ true
        → pending_command_at c (table_of b) ≡ pending_command.InFlight (out.Adding k) → r < 47
        → (g : Htlc) × (find (is_htlc k) (table_of (replied c (Err r) b)).htlcs ≡ Some g)
        × (command_by s g (due k.channel g) ≡ Some (
          out.Removing k,
          command.Fail k.id (own_failure s h.offer failure.TemporaryChannelFailure),
        )) }
{}

/// An HTLC that was offered by this id isn't offered again, in whatever channel, nor after its channel's connection was
/// lost while the channel has kept an HTLC of this id.
pub fn what_was_offered_is_not_offered_again()
    ensures { (c : List ℕ) (b : History Table Entry) (k : Key) (h : Htlc) (id : ℕ)
        → find (is_htlc k) (table_of b).htlcs ≡ Some h
        → pending_command_at c (table_of b) ≡ pending_command.InFlight (out.Adding k)
        → (g : Htlc) × (find (is_htlc k) (table_of (replied c (Ok id) b)).htlcs ≡ Some g)
        × ((d : List ℕ) (j : Key) → due d g ≡ Some (out.Adding j) → ⊥)
        × ((e d : List ℕ) (j : Key) (told : KeptState) → id < told.next
        → due d (htlc_kept e told g) ≡ Some (out.Adding j) → ⊥) }
{}

/// An HTLC whose removal was taken isn't removed again, in whatever channel, nor after a connection was lost while the
/// channel by which it came has kept the removal.
pub fn what_was_removed_is_not_removed_again()
    ensures { (c : List ℕ) (b : History Table Entry) (k : Key) (h : Htlc) (id : ℕ)
        → find (is_htlc k) (table_of b).htlcs ≡ Some h
        → pending_command_at c (table_of b) ≡ pending_command.InFlight (out.Removing k)
        → (g : Htlc) × (find (is_htlc k) (table_of (replied c (Ok id) b)).htlcs ≡ Some g)
        × ((d : List ℕ) (j : Key) → due d g ≡ Some (out.Removing j) → ⊥)
        × ((e d : List ℕ) (j : Key) (told : KeptState)
        → (same e h.key.channel ≡ true → is_among h.key.id told.removes ≡ true)
        → due d (htlc_kept e told g) ≡ Some (out.Removing j) → ⊥) }
{}

/// A decision that was taken isn't queued again.
pub fn what_was_decided_is_not_decided_again()
    ensures { (c : List ℕ) (b : History Table Entry) (n id : ℕ)
        → pending_command_at c (table_of b) ≡ pending_command.InFlight (out.Deciding n)
        → list_any (is_queued c n) (table_of (replied c (Ok id) b)).queue ≡ false }
{}

/// An end takes payments exactly where its link is connected and has neither halted nor failed, the channel isn't
/// closed, and an HTLC that is offered now is refused by nothing that holds for all of them: channel_ready was sent and
/// taken, and shutdown neither sent nor taken (BOLT 2, "Adding an HTLC: `update_add_htlc`", "Closing Initiation:
/// `shutdown`").
pub fn an_end_takes_payments_where_it_may_offer<K>()
    ensures { (l : State K) (e : End) (a : Add) → is_at_update_limit e.dance.log.own ≡ false
        → takes_payments l e ≡ (not l.halted && (is_none l.failure && (not (is_down l.connection)
        && (is_none (own_fault e (update.Add a)) && is_none e.closing.closed)))) }
{}

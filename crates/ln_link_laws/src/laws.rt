//! What a single link promises over every list of calls from its beginning on, restarts included: of messages that can
//! be read, in any order, and of commands, whatever they bring. And which records, whoever wrote them, it can come back
//! from.

ghost use Rattle.std.specs.Prelude.{◌≡◌, ◌↔◌, List, Ok, Err, true};
ghost use Rattle.ln_refusals.specs.declared.refusal.Refusal.TheVariants as refusal;
ghost use Rattle.ln_keys.specs.Signer.{Signer};
ghost use Rattle.ln_keys.specs.Toy.{toy_signer};
ghost use Rattle.ln_keys.specs.declared.toy_keys.ToyKeys.{ToyKeys};
ghost use Rattle.ln_channel.specs.declared.output.Output.{Output};
ghost use Rattle.ln_channel.specs.State.{State};
ghost use Rattle.ln_store.specs.declared.record.Items.{Items};
ghost use Rattle.ln_store.specs.Readable.{is_readable};
ghost use Rattle.ln_store.specs.Store.{StoreView};
ghost use Rattle.ln_link.specs.Calls.{Call};
ghost use Rattle.ln_link_laws.specs.Handed.{AreKeys};
ghost use Rattle.ln_link_laws.specs.Course.{IsCall, Gives, IsLink, AreSendable};
ghost use Rattle.ln_link_laws.specs.Records.{told_by, HasLog, IsExplained, both_zero, IsFromOpening};

use ln_keys::ChannelKeys;

/// A law: no save answers 70. A link that was begun with a config or a spec that fits, and is handed messages that can
/// be read and commands as wide as in code, never answers 70 and never halts by it, also after any restarts from its
/// record: its end always has a record.
pub fn no_save_is_damaged<K: ChannelKeys>()
    ensures { (keys : Signer) (c : Call) (l l' : State K) (s s' : StoreView) → AreKeys keys → IsLink keys l → IsCall c
        → Gives keys c (Err refusal.Damaged) l s l' s' → ⊥ }
{}

/// A law: each message that a link hands out can be written, in at most 65,535 bytes, and is read again as it is: those
/// of the opening, updates, signatures and revocations, also as they are sent again, `shutdown`, `closing_signed` and
/// `channel_reestablish`.
pub fn each_message_can_be_written<K: ChannelKeys>()
    ensures { (keys : Signer) (c : Call) (outputs : List Output) (l l' : State K) (s s' : StoreView) → AreKeys keys
        → IsLink keys l → IsCall c → Gives keys c (Ok outputs) l s l' s' → AreSendable outputs }
{}

/// There are keys as the laws ask for: every toy keys are.
pub fn toy_keys_are_wide()
    ensures { (k : ToyKeys) → AreKeys (toy_signer k) }
{}

/// A law: of a readable record a log can be restored exactly where no more was pushed than all funds, updates may lead
/// to its base, and no HTLC after that is of more than all funds. All else that a log asks is asked of a readable
/// record: the funds, the counts, ids that go on, and the views of the three commitments. Where no update is in the
/// base, that is where the base is the opening's and no HTLC is of more than all funds.
pub fn readable_records_tell_logs()
    ensures exactly { (i : Items) → is_readable i ≡ true → (HasLog i ↔ IsExplained (told_by i)) }
    ensures without_updates_in_the_base { (i : Items) → is_readable i ≡ true → i.updates.base.updates ≡ both_zero
        → (HasLog i ↔ IsFromOpening i) }
{}

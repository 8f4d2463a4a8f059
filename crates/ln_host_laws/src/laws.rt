//! A link by what its host told, and one by the host's own keys: each call hands out the same once the blanks are
//! filled, refuses by the same number and leaves the same (BOLT 2).

ghost use Rattle.std.specs.Prelude.{◌≡◌, List, true, Option, None};
ghost use Rattle.ln_msgs.specs.declared.messages.message.Message.{Message};
ghost use Rattle.ln_keys.specs.Signer.{Signer};
ghost use Rattle.ln_channel.specs.declared.command.Command.{Command};
ghost use Rattle.ln_channel.specs.declared.machine.Stage.{Stage};
ghost use Rattle.ln_channel.specs.Asking.{reaches_channel};
ghost use Rattle.ln_channel.specs.Base.{based_stage};
ghost use Rattle.ln_channel.specs.State.{State};
ghost use Rattle.ln_channel.specs.Step.{handled, commanded, connected, opened};
ghost use Rattle.ln_store.specs.Store.{Records};
ghost use Rattle.ln_link.specs.Saving.{is_known, handled_beside};
ghost use Rattle.ln_host.specs.declared.keys.HostKeys.{HostKeys};
ghost use Rattle.ln_host.specs.declared.question.Question.{Question};
ghost use Rattle.ln_host.specs.Keys.{host_signer};
ghost use Rattle.ln_host.specs.Question.{question_of};
ghost use Rattle.ln_host.specs.Blank.{blank_of};
ghost use Rattle.ln_host_laws.specs.Alike.{IsAlike};
ghost use Rattle.ln_host_laws.specs.Right.{IsRight, told_for};
ghost use Rattle.ln_host_laws.specs.Filled.{filled_row};
ghost use Rattle.ln_host_laws.specs.Known.{channel_asked};
ghost use Rattle.ln_host_laws.specs.Course.{Step, AreToldRight, host_run, host_outputs, own_run, own_outputs};
ghost use Rattle.ln_host_laws.specs.Course.{record_of};

use ln_keys::ChannelKeys;

/// A law: by what the host told before a message, right for the one question about it, the message is taken or refused
/// as by the host's own keys. What it hands out is the same once the blanks are filled, by the link as it is then, and
/// so is what it leaves.
pub fn messages_are_as_by_the_keys<K: ChannelKeys>()
    ensures { (k : Signer) (h : HostKeys) (l : State HostKeys) (l' : State K) (m : Message)
        → h.first_point ≡ k.point_of 0 → IsAlike l l' → IsRight k h (question_of l m) m
        → filled_row k (handled (host_signer h) l m) ≡ handled k l' m }
{}

/// A law: what a host tells that asks its own keys is right, whatever the question.
pub fn keys_tell_right()
    ensures { (k : Signer) (q : Option Question) (m : Message) → IsRight k (told_for k q m) q m }
{}

/// A law: of what a host told no command needs more than the own first point.
pub fn commands_are_as_by_the_keys<K: ChannelKeys>()
    ensures { (k : Signer) (h : HostKeys) (l : State HostKeys) (l' : State K) (c : Command)
        → h.first_point ≡ k.point_of 0 → IsAlike l l'
        → filled_row k (commanded (host_signer h) l c) ≡ commanded k l' c }
{}

/// A law: nor does a connection.
pub fn connections_are_as_by_the_keys<K: ChannelKeys>()
    ensures { (k : Signer) (h : HostKeys) (l : State HostKeys) (l' : State K)
        → h.first_point ≡ k.point_of 0 → IsAlike l l'
        → filled_row k (connected (host_signer h) l) ≡ connected k l' }
{}

/// A law: what is blank in a message is the same before and after the link is compacted, as it is saved.
pub fn blanks_are_of_the_saved_link()
    ensures { (s : Stage) (m : Message) → blank_of (based_stage s) m ≡ blank_of s m }
{}

/// A law: what was told before a message about which nothing was asked decides nothing. What is handed out then may
/// have blanks: as a connection comes back, a revocation has whatever secret was told, until it is filled.
pub fn only_what_is_asked_decides()
    ensures filled { (h h' : HostKeys) (l : State HostKeys) (m : Message) → h.first_point ≡ h'.first_point
        → question_of l m ≡ None
        → filled_row (host_signer h') (handled (host_signer h) l m) ≡ handled (host_signer h') l m }
    ensures whole { (h h' : HostKeys) (l : State HostKeys) (m : Message) → h.first_point ≡ h'.first_point
        → h.secret ≡ h'.secret → question_of l m ≡ None → handled (host_signer h) l m ≡ handled (host_signer h') l m }
{}

/// A law: before a message that reaches the channel, a host is asked whether it knows a channel exactly where the
/// message opens that one. Over two stores that both know it, or neither, a message is answered alike.
pub fn new_channels_are_asked_about<K: ChannelKeys>()
    ensures asked { (l : State K) (m : Message) → reaches_channel l m ≡ true
        → channel_asked (question_of l m) ≡ opened l m }
    ensures stores { (k : Signer) (h : HostKeys) (l : State HostKeys) (l' : State K) (m : Message) (rs rs' : Records)
        → h.first_point ≡ k.point_of 0 → IsAlike l l' → IsRight k h (question_of l m) m
        → is_known (opened l m) rs ≡ is_known (opened l m) rs'
        → filled_row k (handled_beside rs (host_signer h) l m) ≡ handled_beside rs' k l' m }
{}

/// A law: over every list of calls, in which what is told before each message is right, a link by its host hands out
/// what a link with the host's own keys does, and refuses what that refuses. Both stay alike, and the same is saved of
/// them.
pub fn calls_are_as_by_the_keys<K: ChannelKeys>()
    ensures outputs { (k : Signer) (steps : List Step) (l : State HostKeys) (l' : State K)
        → l.keys.first_point ≡ k.point_of 0 → IsAlike l l' → AreToldRight k steps l
        → host_outputs k steps l ≡ own_outputs k steps l' }
    ensures links { (k : Signer) (steps : List Step) (l : State HostKeys) (l' : State K)
        → l.keys.first_point ≡ k.point_of 0 → IsAlike l l' → AreToldRight k steps l
        → IsAlike (host_run steps l) (own_run k steps l') }
    ensures records { (l : State HostKeys) (l' : State K) → IsAlike l l' → record_of l ≡ record_of l' }
{}

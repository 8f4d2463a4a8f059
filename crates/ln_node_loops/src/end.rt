//! One end of a channel that saves what it does, by what it promises.

use ln_channel::{Command, Output};
use ln_hooks::ChannelEvent;
use ln_log::ChannelId;
use ln_msgs::Message;
use ln_refusals::Refusal;
use std::alloc::Global;

/// One end of a channel, with the store that it saves in. `State` is what it stands for, with that
/// store; the loops look into neither.
pub trait End {
    ghost use Rattle.std.specs.Prelude.{◌≡◌, ℕ, List, [], Bool, Option, Result, Ok, IfOk, IfErr, OnErr};
    ghost use Rattle.ln_channel.specs.declared.output.Output.{Output};
    ghost use Rattle.ln_hooks.specs.declared.event.ChannelEvent.{ChannelEvent};
    ghost use Rattle.ln_refusals.specs.declared.refusal.Refusal.{Refusal};
    ghost use Rattle.ln_refusals.specs.declared.refusal.Refusal.TheVariants.{Memory};
    ghost use Rattle.ln_book.specs.Seen.{Seen, channel_of, next_htlc};
    ghost use Rattle.ln_node_loops.specs.Act.{Act, Handles, Obeys, Connects, Drops, Loads};
    ghost use Rattle.ln_node_loops.specs.Sent.{listed, loaded};

    /// What it stands for.
    ghost State: { Type 0 };

    ghost state: { Self → State };

    /// An act may be answered so, and leave it so.
    ghost acts: { State → Act → Result (List Output) Refusal → State → Type 0 };

    /// Whether it answers nothing any more.
    ghost halted: { State → Bool };

    /// The events that aren't decided yet, each with its number.
    ghost pending: { State → List (ℕ × ChannelEvent) };

    /// What a book is told of it, once both have signed the opening.
    ghost seen: { State → Option Seen };

    /// Whether a signature is owed: there is something to sign, and nothing keeps it from that.
    ghost owes: { State → Bool };

    /// Takes a message.
    fn handle(&mut self, alloc: Global, message: Message) -> Result<Vec<Output>, Refusal>
        ensures { acts (state self.old) (Handles message) (listed (λ v. v.items) result) (state self.new) };

    /// Does what it is told.
    fn command(&mut self, alloc: Global, command: Command) -> Result<Vec<Output>, Refusal>
        ensures { acts (state self.old) (Obeys command) (listed (λ v. v.items) result) (state self.new) };

    /// There is a connection.
    fn connect(&mut self, alloc: Global) -> Result<Vec<Output>, Refusal>
        ensures { acts (state self.old) Connects (listed (λ v. v.items) result) (state self.new) };

    /// The connection is lost.
    fn drop_connection(&mut self)
        ensures { acts (state self.old) Drops (Ok []) (state self.new) };

    /// Comes back from its record, without a connection. Refused, it is as it was.
    fn load(&mut self, alloc: Global) -> Result<(), Refusal>
        ensures { acts (state self.old) Loads (loaded result) (state self.new) };

    /// The events that aren't decided yet, each with its number; 60 where there is no memory for them.
    fn pending_events(&self, alloc: Global) -> Result<Vec<(u64, ChannelEvent)>, Refusal>
        ensures events { IfOk result (λ v. v.items ≡ pending (state self.now)) }
        ensures fails_for_memory_alone { IfErr result (λ r. r ≡ Memory) };

    /// Whether it answers nothing any more.
    fn is_halted(&self) -> bool
        ensures { result ≡ halted (state self.now) };

    /// Whether a signature is owed: `Sign` would be done, but for want of memory or a failing store.
    fn owes_signature(&self) -> bool
        ensures { result ≡ owes (state self.now) };

    /// Which channel's end it is, once both have signed the opening.
    fn channel(&self) -> Option<ChannelId>
        ensures { result ≡ channel_of (seen (state self.now)) };

    /// The id of the next HTLC that it offers; 0 before both have signed the opening.
    fn next_id(&self) -> u64
        ensures { result ≡ next_htlc (seen (state self.now)) };
}

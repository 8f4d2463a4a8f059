//! What a link hands out.

ghost use Rattle.std.specs.Prelude.{◌≡◌, ◌∷◌, [], IfOk, IfErr};
ghost use Rattle.ln_channel.specs.Outputs.{sends, nothing};
ghost use Rattle.ln_refusals.specs.declared.refusal.Refusal.TheVariants as refusal;

use ln_hooks::ChannelEvent;
use ln_msgs::Message;
use ln_refusals::Refusal;
use std::alloc::Global;
use std::marker::Model;

/// What a link hands out. Within one answer these stand in this order.
#[derive(Drop)]
pub enum Output {
    /// A message to the peer.
    Send(Message),
    /// How many own updates the last own signature covers.
    Signed(u64),
    /// How many updates this side holds as irrevocably committed.
    Committed {
        /// Of its own.
        own: u64,
        /// Of the peer's.
        peer: u64,
    },
    /// An event with its number.
    Event(u64, ChannelEvent),
    /// The channel is closed at this fee, in satoshis.
    Closed(u64),
}

/// What is to be handed out: messages to the peer, and what is told after them.
#[derive(Drop)]
pub struct Outbox {
    sent: Vec<Output>,
    told: Vec<Output>,
}

impl Model for Outbox {
    ghost use Rattle.ln_channel.specs.Outputs.{Handed};

    ghost Value = { Handed };

    ghost view = { λ b. record { sent = b.sent.items; told = b.told.items } };
}

impl Outbox {
    ghost use Rattle.std.specs.Prelude.{◌≡◌, ◌++◌, ◌∷◌, [], OnOk, IfOk, IfErr};
    ghost use Rattle.ln_channel.specs.declared.output.Output.TheVariants as output;
    ghost use Rattle.ln_channel.specs.Outputs.{nothing, all_of};

    /// Nothing yet. Takes no memory.
    pub(crate) fn new(alloc: Global) -> Outbox
        ensures { result ≡ nothing }
    {
        Outbox {
            sent: Vec::new(alloc),
            told: Vec::new(alloc),
        }
    }

    /// A message to the peer.
    pub(crate) fn send(&mut self, message: Message) -> Result<(), Refusal>
        ensures sent { OnOk result (self.new ≡ record {
          sent = self.old.sent ++ output.Send message ∷ [];
          told = self.old.told;
        }) }
        ensures fails_for_memory_alone { IfErr result (λ r. r ≡ Refusal.Memory) }
    {
        self.sent.push(Output::Send(message))?;
        Ok(())
    }

    /// Something to be told to the user.
    pub(crate) fn report(&mut self, output: Output) -> Result<(), Refusal>
        ensures told { OnOk result (self.new ≡ record { sent = self.old.sent; told = self.old.told ++ output ∷ [] }) }
        ensures fails_for_memory_alone { IfErr result (λ r. r ≡ Refusal.Memory) }
    {
        self.told.push(output)?;
        Ok(())
    }

    /// All of it in order.
    pub fn into_outputs(self) -> Result<Vec<Output>, Refusal>
        ensures outputs { IfOk result (λ v. v.items ≡ all_of self) }
        ensures fails_for_memory_alone { IfErr result (λ r. r ≡ Refusal.Memory) }
    {
        let Outbox { mut sent, told } = self;
        for output in told {
            sent.push(output)?;
        }
        Ok(sent)
    }
}

// One message is sent.
pub(crate) fn one(alloc: Global, message: Message) -> Result<Outbox, Refusal>
    ensures sent { IfOk result (λ h. h ≡ sends (message ∷ []) nothing) }
    ensures fails_for_memory_alone { IfErr result (λ r. r ≡ refusal.Memory) }
{
    let mut outbox = Outbox::new(alloc);
    outbox.send(message)?;
    Ok(outbox)
}

//! The writers of the messages of an opening, which the record of a channel keeps.

ghost use Rattle.ln_msgs.specs.Messages.Typed.{open_wire, accept_wire};
ghost use Rattle.ln_msgs.specs.Codec.Steps.{IsWritten};

use crate::codec::encoding::{LONGEST_MESSAGE, encoded};
use crate::codec::fitting::records_fit;
use crate::messages::form;
use crate::messages::opening::{AcceptChannel, OpenChannel};
use ln_bytes::Fault;
use std::alloc::Global;

impl OpenChannel {
    ghost use Rattle.std.specs.Prelude.{◌≡◌, ◌<◌, ◌≤◌, ◌⊎◌, ◌↔◌, length, IsTrue, IfOk, IfErr, IsErrOf};
    ghost use Rattle.ln_msgs.specs.Codec.Writing.{CanBeWritten};
    ghost use Rattle.ln_msgs.specs.Messages.Message.{Known, Says, wire_bytes};
    ghost use Rattle.ln_msgs.specs.Messages.Typed.{open_wire};

    /// Whether the message's records may stand after its fields, as `fits` says of any message. Takes no memory.
    pub fn fits(&self) -> bool
        ensures { IsTrue result ↔ CanBeWritten (open_wire self.now) }
    {
        records_fit(self.records.as_slice(), form::OPEN_CHANNEL)
    }

    /// The bytes of the message with its type, as `encode` writes them of any message (BOLT 2, "The `open_channel`
    /// Message"). Takes memory for them once.
    ///
    /// The caller sees to it that the records may stand after the fields, which `fits` tests.
    ///
    /// Errors: 7 where the message has more than 65,535 bytes. 60 where there is no memory.
    pub fn encode(&self, alloc: Global) -> Result<Vec<u8>, Fault>
        requires { CanBeWritten (open_wire self.now) }
        ensures writes_the_message { IfOk result (λ v. (v.items ≡ wire_bytes (open_wire self.now))
            × (length v.items ≤ LONGEST_MESSAGE)) }
        ensures says_the_message { IfOk result (λ v. Says (Known (open_wire self.now)) v.items) }
        ensures refuses_what_is_too_long { IsErrOf result Fault.TooLong
            ↔ (LONGEST_MESSAGE < length (wire_bytes (open_wire self.now))) }
        ensures has_one_of_two_faults { IfErr result (λ e. (e ≡ Fault.TooLong) ⊎ (e ≡ Fault.Memory)) }
    {
        open_parts(alloc, self)
    }
}

impl AcceptChannel {
    ghost use Rattle.std.specs.Prelude.{◌≡◌, ◌<◌, ◌≤◌, ◌⊎◌, ◌↔◌, length, IsTrue, IfOk, IfErr, IsErrOf};
    ghost use Rattle.ln_msgs.specs.Codec.Writing.{CanBeWritten};
    ghost use Rattle.ln_msgs.specs.Messages.Message.{Known, Says, wire_bytes};
    ghost use Rattle.ln_msgs.specs.Messages.Typed.{accept_wire};

    /// Whether the message's records may stand after its fields, as `fits` says of any message. Takes no memory.
    pub fn fits(&self) -> bool
        ensures { IsTrue result ↔ CanBeWritten (accept_wire self.now) }
    {
        records_fit(self.records.as_slice(), form::ACCEPT_CHANNEL)
    }

    /// The bytes of the message with its type, as `encode` writes them of any message (BOLT 2, "The `accept_channel`
    /// Message"). Takes memory for them once.
    ///
    /// The caller sees to it that the records may stand after the fields, which `fits` tests.
    ///
    /// Errors: 7 where the message has more than 65,535 bytes. 60 where there is no memory.
    pub fn encode(&self, alloc: Global) -> Result<Vec<u8>, Fault>
        requires { CanBeWritten (accept_wire self.now) }
        ensures writes_the_message { IfOk result (λ v. (v.items ≡ wire_bytes (accept_wire self.now))
            × (length v.items ≤ LONGEST_MESSAGE)) }
        ensures says_the_message { IfOk result (λ v. Says (Known (accept_wire self.now)) v.items) }
        ensures refuses_what_is_too_long { IsErrOf result Fault.TooLong
            ↔ (LONGEST_MESSAGE < length (wire_bytes (accept_wire self.now))) }
        ensures has_one_of_two_faults { IfErr result (λ e. (e ≡ Fault.TooLong) ⊎ (e ≡ Fault.Memory)) }
    {
        accept_parts(alloc, self)
    }
}

fn open_parts(alloc: Global, message: &OpenChannel) -> Result<Vec<u8>, Fault>
    ensures { IsWritten result (open_wire message.now) }
{
    encoded(
        alloc,
        32,
        message.items().as_slice(),
        message.records.as_slice(),
    )
}

fn accept_parts(alloc: Global, message: &AcceptChannel) -> Result<Vec<u8>, Fault>
    ensures { IsWritten result (accept_wire message.now) }
{
    encoded(
        alloc,
        33,
        message.items().as_slice(),
        message.records.as_slice(),
    )
}

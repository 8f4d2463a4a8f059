//! Events, decisions and results as they are stored.

ghost use Rattle.std.specs.Prelude.{◌≡◌, ◌++◌, true, IfErr, OnOk};
ghost use Rattle.ln_store.specs.Format.{fixed, number, ◌&◌};
ghost use Rattle.ln_store.specs.Items as it;

use crate::lists::{list_at, list_fits, optional_at, optional_fits, put_list, put_optional};
use crate::record::{ClosingFees, Events, Forwards, Progress};
use crate::stored::{
    Stored, array_at, array_fits, long_at, put, put_long, put_u8, put_u16, put_u32, put_u64,
    u16_at, u16_fits, u32_at, u32_fits, u64_at, u64_fits,
};
use crate::updates::removal_at;
use ln_log::{ChannelId, Decision, EventRef, Mark, Settlement, removal_of};
use ln_refusals::Refusal;
use std::alloc::Global;

impl Stored for EventRef {
    ghost format = { it.event };

    #[tactic(auto, unfolding(crate::specs::Items::event, crate::specs::Items::no_number))]
    fn read(_alloc: Global, bytes: &[u8]) -> Result<(EventRef, &[u8]), Refusal> {
        let [tag, rest @ ..] = bytes else {
            return Err(Refusal::Damaged);
        };
        let (number, rest) = u64_at(rest)?;
        match *tag {
            0 => Ok((EventRef::Own(number), rest)),
            1 => Ok((EventRef::Peer(number), rest)),
            2 if number == 0 => Ok((EventRef::Close, rest)),
            _ => Err(Refusal::Damaged),
        }
    }

    #[tactic(auto, unfolding(crate::specs::Items::event, crate::specs::Items::no_number))]
    fn fits(&self) -> bool {
        match self {
            EventRef::Own(number) => u64_fits(*number),
            EventRef::Peer(number) => u64_fits(*number),
            EventRef::Close => true,
        }
    }

    #[tactic(auto, unfolding(crate::specs::Items::event, crate::specs::Items::no_number))]
    fn write(&self, out: &mut Vec<u8>) -> Result<(), Refusal> {
        match self {
            EventRef::Own(number) => {
                put_u8(out, 0)?;
                put_u64(out, *number)
            }
            EventRef::Peer(number) => {
                put_u8(out, 1)?;
                put_u64(out, *number)
            }
            EventRef::Close => {
                put_u8(out, 2)?;
                put_u64(out, 0)
            }
        }
    }
}

impl Stored for Events {
    ghost format = { it.events };

    #[tactic(auto, unfolding(crate::specs::Items::events))]
    fn read(alloc: Global, bytes: &[u8]) -> Result<(Events, &[u8]), Refusal> {
        let (decided, rest) = u64_at(bytes)?;
        let (undecided, rest) = list_at(alloc, rest)?;
        Ok((Events { decided, undecided }, rest))
    }

    #[tactic(auto, unfolding(crate::specs::Items::events))]
    fn fits(&self) -> bool {
        u64_fits(self.decided) && list_fits(self.undecided.as_slice())
    }

    #[tactic(auto, unfolding(crate::specs::Items::events))]
    fn write(&self, out: &mut Vec<u8>) -> Result<(), Refusal> {
        put_u64(out, self.decided)?;
        put_list(out, self.undecided.as_slice())
    }
}

fn put_forward(
    out: &mut Vec<u8>,
    channel: &ChannelId,
    amount: u64,
    expiry: u32,
) -> Result<(), Refusal>
    ensures appends_it { OnOk result (out.new.items ≡ out.old.items
        ++ (fixed 32 & number 8 & number 4).bytes (channel.now, (amount, expiry))) }
    ensures fails_for_memory_alone { IfErr result (λ e. e ≡ Refusal.Memory) }
{
    put(out, channel)?;
    put_u64(out, amount)?;
    put_u32(out, expiry)
}

impl Stored for Mark {
    ghost format = { it.stored_mark };

    #[tactic(auto, unfolding(crate::specs::Items::stored_mark))]
    fn read(alloc: Global, bytes: &[u8]) -> Result<(Mark, &[u8]), Refusal> {
        let [tag, rest @ ..] = bytes else {
            return Err(Refusal::Damaged);
        };
        match *tag {
            1 => {
                let (channel, rest) = array_at(rest)?;
                let (amount, rest) = u64_at(rest)?;
                let (expiry, rest) = u32_at(rest)?;
                let mark = Mark::Forward {
                    channel,
                    amount,
                    expiry,
                };
                Ok((mark, rest))
            }
            2 => {
                let (reason, rest) = long_at(alloc, rest)?;
                Ok((Mark::Fail(reason), rest))
            }
            3 => {
                let (code, rest) = u16_at(rest)?;
                Ok((Mark::Malformed(code), rest))
            }
            4 => {
                let (preimage, rest) = array_at(rest)?;
                Ok((Mark::Fulfil(preimage), rest))
            }
            5 => {
                let (event, rest) = u64_at(rest)?;
                Ok((Mark::Held(event), rest))
            }
            _ => Err(Refusal::Damaged),
        }
    }

    #[tactic(auto, unfolding(crate::specs::Items::stored_mark))]
    fn fits(&self) -> bool {
        match self {
            Mark::None => false,
            Mark::Forward {
                channel,
                amount,
                expiry,
            } => array_fits(channel) && u64_fits(*amount) && u32_fits(*expiry),
            Mark::Fail(reason) => (reason.len() as u128) < 1 << 64,
            Mark::Malformed(code) => u16_fits(*code),
            Mark::Fulfil(preimage) => array_fits(preimage),
            Mark::Held(event) => u64_fits(*event),
        }
    }

    #[tactic(auto, unfolding(crate::specs::Items::stored_mark))]
    fn write(&self, out: &mut Vec<u8>) -> Result<(), Refusal> {
        match self {
            Mark::None => Ok(()),
            Mark::Forward {
                channel,
                amount,
                expiry,
            } => {
                put_u8(out, 1)?;
                put_forward(out, channel, *amount, *expiry)
            }
            Mark::Fail(reason) => {
                put_u8(out, 2)?;
                put_long(out, reason.as_slice())
            }
            Mark::Malformed(code) => {
                put_u8(out, 3)?;
                put_u16(out, *code)
            }
            Mark::Fulfil(preimage) => {
                put_u8(out, 4)?;
                put(out, preimage)
            }
            Mark::Held(event) => {
                put_u8(out, 5)?;
                put_u64(out, *event)
            }
        }
    }
}

impl Stored for Decision {
    ghost format = { it.decision };

    #[tactic(auto, unfolding(crate::specs::Items::decision))]
    fn read(alloc: Global, bytes: &[u8]) -> Result<(Decision, &[u8]), Refusal> {
        let (id, rest) = u64_at(bytes)?;
        let (mark, rest) = Mark::read(alloc, rest)?;
        Ok((Decision { id, mark }, rest))
    }

    #[tactic(auto, unfolding(crate::specs::Items::decision))]
    fn fits(&self) -> bool {
        u64_fits(self.id) && self.mark.fits()
    }

    #[tactic(auto, unfolding(crate::specs::Items::decision))]
    fn write(&self, out: &mut Vec<u8>) -> Result<(), Refusal> {
        put_u64(out, self.id)?;
        self.mark.write(out)
    }
}

impl Stored for Settlement {
    ghost format = { it.settlement };

    #[tactic(auto, unfolding(crate::specs::Items::settlement))]
    fn read(alloc: Global, bytes: &[u8]) -> Result<(Settlement, &[u8]), Refusal> {
        let (id, rest) = u64_at(bytes)?;
        let (origin, rest) = <(ChannelId, u64)>::read(alloc, rest)?;
        let (removal, rest) = removal_at(alloc, rest)?;
        let settlement = Settlement {
            id,
            origin,
            removal,
        };
        Ok((settlement, rest))
    }

    #[tactic(auto, unfolding(crate::specs::Items::settlement))]
    fn fits(&self) -> bool {
        u64_fits(self.id)
            && self.origin.fits()
            && self.removal.fits()
            && removal_of(&self.removal).is_some()
    }

    #[tactic(auto, unfolding(crate::specs::Items::settlement))]
    fn write(&self, out: &mut Vec<u8>) -> Result<(), Refusal> {
        put_u64(out, self.id)?;
        self.origin.write(out)?;
        self.removal.write(out)
    }
}

impl Stored for Forwards {
    ghost format = { it.forwards };

    #[tactic(auto, unfolding(crate::specs::Items::forwards))]
    fn read(alloc: Global, bytes: &[u8]) -> Result<(Forwards, &[u8]), Refusal> {
        let (decisions, rest) = list_at(alloc, bytes)?;
        let (results, rest) = list_at(alloc, rest)?;
        Ok((Forwards { decisions, results }, rest))
    }

    #[tactic(auto, unfolding(crate::specs::Items::forwards))]
    fn fits(&self) -> bool {
        list_fits(self.decisions.as_slice()) && list_fits(self.results.as_slice())
    }

    #[tactic(auto, unfolding(crate::specs::Items::forwards))]
    fn write(&self, out: &mut Vec<u8>) -> Result<(), Refusal> {
        put_list(out, self.decisions.as_slice())?;
        put_list(out, self.results.as_slice())
    }
}

impl Stored for ClosingFees {
    ghost format = { it.closing_fees };

    #[tactic(auto, unfolding(crate::specs::Items::closing_fees))]
    fn read(alloc: Global, bytes: &[u8]) -> Result<(ClosingFees, &[u8]), Refusal> {
        let (own, rest) = optional_at(alloc, bytes)?;
        let (peer, rest) = optional_at(alloc, rest)?;
        let (closed, rest) = optional_at(alloc, rest)?;
        Ok((ClosingFees { own, peer, closed }, rest))
    }

    #[tactic(auto, unfolding(crate::specs::Items::closing_fees))]
    fn fits(&self) -> bool {
        optional_fits(&self.own) && optional_fits(&self.peer) && optional_fits(&self.closed)
    }

    #[tactic(auto, unfolding(crate::specs::Items::closing_fees))]
    fn write(&self, out: &mut Vec<u8>) -> Result<(), Refusal> {
        put_optional(out, &self.own)?;
        put_optional(out, &self.peer)?;
        put_optional(out, &self.closed)
    }
}

impl Stored for Progress {
    ghost format = { it.progress };

    #[tactic(auto, unfolding(crate::specs::Items::progress))]
    fn read(alloc: Global, bytes: &[u8]) -> Result<(Progress, &[u8]), Refusal> {
        let (events, rest) = Events::read(alloc, bytes)?;
        let (forwards, rest) = Forwards::read(alloc, rest)?;
        let (fees, rest) = ClosingFees::read(alloc, rest)?;
        let progress = Progress {
            events,
            forwards,
            fees,
        };
        Ok((progress, rest))
    }

    #[tactic(auto, unfolding(crate::specs::Items::progress))]
    fn fits(&self) -> bool {
        self.events.fits() && self.forwards.fits() && self.fees.fits()
    }

    #[tactic(auto, unfolding(crate::specs::Items::progress))]
    fn write(&self, out: &mut Vec<u8>) -> Result<(), Refusal> {
        self.events.write(out)?;
        self.forwards.write(out)?;
        self.fees.write(out)
    }
}

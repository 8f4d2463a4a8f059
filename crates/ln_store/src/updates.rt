//! Updates as they are stored.

ghost use Rattle.std.specs.Prelude.{◌≡◌, ◌++◌, true, IfErr, OnOk};
ghost use Rattle.ln_store.specs.Format.{Finds, only_at, only};
ghost use Rattle.ln_store.specs.Items as it;

use crate::lists::{optional_at, optional_fits, put_optional};
use crate::record::LiveHtlc;
use crate::stored::{
    Stored, array_at, array_fits, put, put_short, put_u8, put_u16, put_u32, put_u64, short_at,
    u8_at, u16_at, u16_fits, u32_at, u32_fits, u64_at, u64_fits,
};
use ln_keys::Role;
use ln_log::{Add, ChannelId, Fail, Fee, Fulfil, Malformed, Update, removal_of};
use ln_refusals::Refusal;
use std::alloc::Global;

impl Stored for (ChannelId, u64) {
    ghost use Rattle.ln_store.specs.Format.{fixed, number, ◌&◌};

    ghost format = { fixed 32 & number 8 };

    fn read(_alloc: Global, bytes: &[u8]) -> Result<((ChannelId, u64), &[u8]), Refusal> {
        let (channel, rest) = array_at(bytes)?;
        let (id, rest) = u64_at(rest)?;
        Ok(((channel, id), rest))
    }

    fn fits(&self) -> bool {
        array_fits(&self.0) && u64_fits(self.1)
    }

    fn write(&self, out: &mut Vec<u8>) -> Result<(), Refusal> {
        put(out, &self.0)?;
        put_u64(out, self.1)
    }
}

impl Stored for Add {
    ghost format = { it.add };

    #[tactic(auto, unfolding(crate::specs::Items::add))]
    fn read(alloc: Global, bytes: &[u8]) -> Result<(Add, &[u8]), Refusal> {
        let (id, rest) = u64_at(bytes)?;
        let (amount, rest) = u64_at(rest)?;
        let (hash, rest) = array_at(rest)?;
        let (expiry, rest) = u32_at(rest)?;
        let (onion, rest) = array_at(rest)?;
        let (origin, rest) = optional_at(alloc, rest)?;
        let add = Add {
            id,
            amount,
            hash,
            expiry,
            onion,
            origin,
        };
        Ok((add, rest))
    }

    #[tactic(auto, unfolding(crate::specs::Items::add))]
    fn fits(&self) -> bool {
        u64_fits(self.id)
            && u64_fits(self.amount)
            && array_fits(&self.hash)
            && u32_fits(self.expiry)
            && array_fits(&self.onion)
            && optional_fits(&self.origin)
    }

    #[tactic(auto, unfolding(crate::specs::Items::add))]
    fn write(&self, out: &mut Vec<u8>) -> Result<(), Refusal> {
        put_u64(out, self.id)?;
        put_u64(out, self.amount)?;
        put(out, &self.hash)?;
        put_u32(out, self.expiry)?;
        put(out, &self.onion)?;
        put_optional(out, &self.origin)
    }
}

impl Stored for Fulfil {
    ghost format = { it.fulfil };

    #[tactic(auto, unfolding(crate::specs::Items::fulfil))]
    fn read(_alloc: Global, bytes: &[u8]) -> Result<(Fulfil, &[u8]), Refusal> {
        let (id, rest) = u64_at(bytes)?;
        let (preimage, rest) = array_at(rest)?;
        Ok((Fulfil { id, preimage }, rest))
    }

    #[tactic(auto, unfolding(crate::specs::Items::fulfil))]
    fn fits(&self) -> bool {
        u64_fits(self.id) && array_fits(&self.preimage)
    }

    #[tactic(auto, unfolding(crate::specs::Items::fulfil))]
    fn write(&self, out: &mut Vec<u8>) -> Result<(), Refusal> {
        put_u64(out, self.id)?;
        put(out, &self.preimage)
    }
}

impl Stored for Fail {
    ghost format = { it.fail };

    #[tactic(auto, unfolding(crate::specs::Items::fail))]
    fn read(alloc: Global, bytes: &[u8]) -> Result<(Fail, &[u8]), Refusal> {
        let (id, rest) = u64_at(bytes)?;
        let (reason, rest) = short_at(alloc, rest)?;
        Ok((Fail { id, reason }, rest))
    }

    #[tactic(auto, unfolding(crate::specs::Items::fail))]
    fn fits(&self) -> bool {
        u64_fits(self.id) && self.reason.fits()
    }

    #[tactic(auto, unfolding(crate::specs::Items::fail))]
    fn write(&self, out: &mut Vec<u8>) -> Result<(), Refusal> {
        put_u64(out, self.id)?;
        put_short(out, self.reason.as_slice())
    }
}

impl Stored for Malformed {
    ghost format = { it.malformed };

    #[tactic(auto, unfolding(crate::specs::Items::malformed))]
    fn read(_alloc: Global, bytes: &[u8]) -> Result<(Malformed, &[u8]), Refusal> {
        let (id, rest) = u64_at(bytes)?;
        let (sha256_of_onion, rest) = array_at(rest)?;
        let (failure_code, rest) = u16_at(rest)?;
        let malformed = Malformed {
            id,
            sha256_of_onion,
            failure_code,
        };
        Ok((malformed, rest))
    }

    #[tactic(auto, unfolding(crate::specs::Items::malformed))]
    fn fits(&self) -> bool {
        u64_fits(self.id) && array_fits(&self.sha256_of_onion) && u16_fits(self.failure_code)
    }

    #[tactic(auto, unfolding(crate::specs::Items::malformed))]
    fn write(&self, out: &mut Vec<u8>) -> Result<(), Refusal> {
        put_u64(out, self.id)?;
        put(out, &self.sha256_of_onion)?;
        put_u16(out, self.failure_code)
    }
}

impl Stored for Fee {
    ghost format = { it.fee };

    #[tactic(auto, unfolding(crate::specs::Items::fee))]
    fn read(_alloc: Global, bytes: &[u8]) -> Result<(Fee, &[u8]), Refusal> {
        let (feerate, rest) = u32_at(bytes)?;
        Ok((Fee { feerate }, rest))
    }

    #[tactic(auto, unfolding(crate::specs::Items::fee))]
    fn fits(&self) -> bool {
        u32_fits(self.feerate)
    }

    #[tactic(auto, unfolding(crate::specs::Items::fee))]
    fn write(&self, out: &mut Vec<u8>) -> Result<(), Refusal> {
        put_u32(out, self.feerate)
    }
}

impl Stored for Update {
    ghost format = { it.update };

    #[tactic(auto, unfolding(crate::specs::Items::update))]
    fn read(alloc: Global, bytes: &[u8]) -> Result<(Update, &[u8]), Refusal> {
        let [tag, rest @ ..] = bytes else {
            return Err(Refusal::Damaged);
        };
        match *tag {
            0 => {
                let (add, rest) = Add::read(alloc, rest)?;
                Ok((Update::Add(add), rest))
            }
            1 => {
                let (fulfil, rest) = Fulfil::read(alloc, rest)?;
                Ok((Update::Fulfil(fulfil), rest))
            }
            2 => {
                let (fail, rest) = Fail::read(alloc, rest)?;
                Ok((Update::Fail(fail), rest))
            }
            3 => {
                let (malformed, rest) = Malformed::read(alloc, rest)?;
                Ok((Update::Malformed(malformed), rest))
            }
            4 => {
                let (fee, rest) = Fee::read(alloc, rest)?;
                Ok((Update::Fee(fee), rest))
            }
            _ => Err(Refusal::Damaged),
        }
    }

    #[tactic(auto, unfolding(crate::specs::Items::update))]
    fn fits(&self) -> bool {
        match self {
            Update::Add(add) => add.fits(),
            Update::Fulfil(fulfil) => fulfil.fits(),
            Update::Fail(fail) => fail.fits(),
            Update::Malformed(malformed) => malformed.fits(),
            Update::Fee(fee) => fee.fits(),
        }
    }

    #[tactic(auto, unfolding(crate::specs::Items::update))]
    fn write(&self, out: &mut Vec<u8>) -> Result<(), Refusal> {
        match self {
            Update::Add(add) => {
                put_u8(out, 0)?;
                add.write(out)
            }
            Update::Fulfil(fulfil) => {
                put_u8(out, 1)?;
                fulfil.write(out)
            }
            Update::Fail(fail) => {
                put_u8(out, 2)?;
                fail.write(out)
            }
            Update::Malformed(malformed) => {
                put_u8(out, 3)?;
                malformed.write(out)
            }
            Update::Fee(fee) => {
                put_u8(out, 4)?;
                fee.write(out)
            }
        }
    }
}

// An update that removes an HTLC.
pub(crate) fn removal_at(alloc: Global, bytes: &[u8]) -> Result<(Update, &[u8]), Refusal>
    ensures { Finds (λ x. (x.0, x.1.now)) result (only_at it.is_removal it.update bytes.now) }
{
    let (update, rest) = Update::read(alloc, bytes)?;
    if removal_of(&update).is_none() {
        return Err(Refusal::Damaged);
    }
    Ok((update, rest))
}

impl Stored for Role {
    ghost format = { it.role };

    #[tactic(auto, unfolding(crate::specs::Items::role))]
    fn read(_alloc: Global, bytes: &[u8]) -> Result<(Role, &[u8]), Refusal> {
        let (number, rest) = u8_at(bytes)?;
        match number {
            0 => Ok((Role::Funder, rest)),
            1 => Ok((Role::Fundee, rest)),
            _ => Err(Refusal::Damaged),
        }
    }

    #[tactic(auto, unfolding(crate::specs::Items::role))]
    fn fits(&self) -> bool {
        true
    }

    #[tactic(auto, unfolding(crate::specs::Items::role))]
    fn write(&self, out: &mut Vec<u8>) -> Result<(), Refusal> {
        match self {
            Role::Funder => put_u8(out, 0),
            Role::Fundee => put_u8(out, 1),
        }
    }
}

impl Stored for LiveHtlc {
    ghost format = { it.live };

    #[tactic(auto, unfolding(crate::specs::Items::live))]
    fn read(alloc: Global, bytes: &[u8]) -> Result<(LiveHtlc, &[u8]), Refusal> {
        let (offerer, rest) = Role::read(alloc, bytes)?;
        let [0, rest @ ..] = rest else {
            return Err(Refusal::Damaged);
        };
        let (add, rest) = Add::read(alloc, rest)?;
        Ok((LiveHtlc { offerer, add }, rest))
    }

    #[tactic(auto, unfolding(crate::specs::Items::live))]
    fn fits(&self) -> bool {
        self.offerer.fits() && self.add.fits()
    }

    #[tactic(auto, unfolding(crate::specs::Items::live))]
    fn write(&self, out: &mut Vec<u8>) -> Result<(), Refusal> {
        self.offerer.write(out)?;
        put_u8(out, 0)?;
        self.add.write(out)
    }
}

//! What channels are opened with, as bytes.

ghost use Rattle.std.specs.Prelude.{◌≡◌};
ghost use Rattle.ln_store.specs.Format.{number};
ghost use Rattle.ln_wire.specs.Setup as it;

use crate::lists::{list_at, list_fits, put_list};
use crate::wire::Wire;
use ln_bytes::Record;
use ln_channel::{Config, OpenSpec, Points};
use ln_close::Fees;
use ln_log::Limits;
use ln_msgs::Records;
use ln_refusals::Refusal;
use ln_store::stored::{
    Stored, array_at, array_fits, put, put_short, put_u8, put_u16, put_u32, put_u64, short_at,
    u8_at, u16_at, u16_fits, u32_at, u32_fits, u64_at, u64_fits,
};
use std::alloc::Global;

/// What an `OpenSpec` has between its config and its records.
#[derive(Clone, Copy)]
pub struct SpecTerms {
    pub funding: u64,
    pub push: u64,
    pub feerate: u32,
    pub flags: u8,
    pub temporary_id: [u8; 32],
    pub txid: [u8; 32],
    pub output: u16,
}

impl Wire for Limits {
    ghost format = { it.limits };

    #[tactic(auto, unfolding(crate::specs::Setup::limits))]
    fn read(_alloc: Global, bytes: &[u8]) -> Result<(Limits, &[u8]), Refusal> {
        let (minimum, rest) = u64_at(bytes)?;
        let (accepted, rest) = u16_at(rest)?;
        let (in_flight, rest) = u64_at(rest)?;
        let (reserve, rest) = u64_at(rest)?;
        let limits = Limits {
            minimum,
            accepted,
            in_flight,
            reserve,
        };
        Ok((limits, rest))
    }

    #[tactic(auto, unfolding(crate::specs::Setup::limits))]
    fn fits(&self) -> bool {
        u64_fits(self.minimum)
            && u16_fits(self.accepted)
            && u64_fits(self.in_flight)
            && u64_fits(self.reserve)
    }

    #[tactic(auto, unfolding(crate::specs::Setup::limits))]
    fn write(&self, out: &mut Vec<u8>) -> Result<(), Refusal> {
        put_u64(out, self.minimum)?;
        put_u16(out, self.accepted)?;
        put_u64(out, self.in_flight)?;
        put_u64(out, self.reserve)
    }
}

impl Wire for Points {
    ghost format = { it.points };

    #[tactic(auto, unfolding(crate::specs::Setup::points))]
    fn read(_alloc: Global, bytes: &[u8]) -> Result<(Points, &[u8]), Refusal> {
        let (funding_pubkey, rest) = array_at(bytes)?;
        let (revocation_basepoint, rest) = array_at(rest)?;
        let (payment_basepoint, rest) = array_at(rest)?;
        let (delayed_payment_basepoint, rest) = array_at(rest)?;
        let (htlc_basepoint, rest) = array_at(rest)?;
        let points = Points {
            funding_pubkey,
            revocation_basepoint,
            payment_basepoint,
            delayed_payment_basepoint,
            htlc_basepoint,
        };
        Ok((points, rest))
    }

    #[tactic(auto, unfolding(crate::specs::Setup::points))]
    fn fits(&self) -> bool {
        array_fits(&self.funding_pubkey)
            && array_fits(&self.revocation_basepoint)
            && array_fits(&self.payment_basepoint)
            && array_fits(&self.delayed_payment_basepoint)
            && array_fits(&self.htlc_basepoint)
    }

    #[tactic(auto, unfolding(crate::specs::Setup::points))]
    fn write(&self, out: &mut Vec<u8>) -> Result<(), Refusal> {
        put(out, &self.funding_pubkey)?;
        put(out, &self.revocation_basepoint)?;
        put(out, &self.payment_basepoint)?;
        put(out, &self.delayed_payment_basepoint)?;
        put(out, &self.htlc_basepoint)
    }
}

impl Wire for Config {
    ghost format = { it.config };

    #[tactic(auto, unfolding(crate::specs::Setup::config))]
    fn read(alloc: Global, bytes: &[u8]) -> Result<(Config, &[u8]), Refusal> {
        let (limits, rest) = Limits::read(alloc, bytes)?;
        let (chain_hash, rest) = array_at(rest)?;
        let (dust_limit, rest) = u64_at(rest)?;
        let (to_self_delay, rest) = u16_at(rest)?;
        let (minimum_depth, rest) = u32_at(rest)?;
        let (points, rest) = Points::read(alloc, rest)?;
        let (fees, rest) = Fees::read(alloc, rest)?;
        let (script, rest) = short_at(alloc, rest)?;
        let config = Config {
            limits,
            chain_hash,
            dust_limit,
            to_self_delay,
            minimum_depth,
            points,
            first: fees.first,
            least: fees.least,
            greatest: fees.greatest,
            script,
        };
        Ok((config, rest))
    }

    #[tactic(auto, unfolding(crate::specs::Setup::config))]
    fn fits(&self) -> bool {
        self.limits.fits()
            && array_fits(&self.chain_hash)
            && u64_fits(self.dust_limit)
            && u16_fits(self.to_self_delay)
            && u32_fits(self.minimum_depth)
            && self.points.fits()
            && self.fees().fits()
            && self.script.fits()
    }

    #[tactic(auto, unfolding(crate::specs::Setup::config))]
    fn write(&self, out: &mut Vec<u8>) -> Result<(), Refusal> {
        self.limits.write(out)?;
        put(out, &self.chain_hash)?;
        put_u64(out, self.dust_limit)?;
        put_u16(out, self.to_self_delay)?;
        put_u32(out, self.minimum_depth)?;
        self.points.write(out)?;
        self.fees().write(out)?;
        put_short(out, self.script.as_slice())
    }
}

impl Wire for Record {
    ghost format = { it.tlv };

    #[tactic(auto, unfolding(crate::specs::Setup::tlv))]
    fn read(alloc: Global, bytes: &[u8]) -> Result<(Record, &[u8]), Refusal> {
        let (typ, rest) = u64_at(bytes)?;
        let (value, rest) = short_at(alloc, rest)?;
        Ok((Record { typ, value }, rest))
    }

    #[tactic(auto, unfolding(crate::specs::Setup::tlv))]
    fn fits(&self) -> bool {
        u64_fits(self.typ) && self.value.fits()
    }

    #[tactic(auto, unfolding(crate::specs::Setup::tlv))]
    fn write(&self, out: &mut Vec<u8>) -> Result<(), Refusal> {
        put_u64(out, self.typ)?;
        put_short(out, self.value.as_slice())
    }
}

impl Wire for SpecTerms {
    ghost format = { it.terms };

    #[tactic(auto, unfolding(crate::specs::Setup::terms))]
    fn read(_alloc: Global, bytes: &[u8]) -> Result<(SpecTerms, &[u8]), Refusal> {
        let (funding, rest) = u64_at(bytes)?;
        let (push, rest) = u64_at(rest)?;
        let (feerate, rest) = u32_at(rest)?;
        let (flags, rest) = u8_at(rest)?;
        let (temporary_id, rest) = array_at(rest)?;
        let (txid, rest) = array_at(rest)?;
        let (output, rest) = u16_at(rest)?;
        let terms = SpecTerms {
            funding,
            push,
            feerate,
            flags,
            temporary_id,
            txid,
            output,
        };
        Ok((terms, rest))
    }

    #[tactic(auto, unfolding(crate::specs::Setup::terms))]
    fn fits(&self) -> bool {
        u64_fits(self.funding)
            && u64_fits(self.push)
            && u32_fits(self.feerate)
            && u8_fits(self.flags)
            && array_fits(&self.temporary_id)
            && array_fits(&self.txid)
            && u16_fits(self.output)
    }

    #[tactic(auto, unfolding(crate::specs::Setup::terms))]
    fn write(&self, out: &mut Vec<u8>) -> Result<(), Refusal> {
        put_u64(out, self.funding)?;
        put_u64(out, self.push)?;
        put_u32(out, self.feerate)?;
        put_u8(out, self.flags)?;
        put(out, &self.temporary_id)?;
        put(out, &self.txid)?;
        put_u16(out, self.output)
    }
}

// Each byte has its form.
fn u8_fits(value: u8) -> bool
    ensures { result ≡ (number 1).fits value }
{
    true
}

fn terms_of(spec: &OpenSpec) -> SpecTerms
    ensures { result ≡ it.terms_of spec.now }
{
    SpecTerms {
        funding: spec.funding,
        push: spec.push,
        feerate: spec.feerate,
        flags: spec.flags,
        temporary_id: spec.temporary_id,
        txid: spec.txid,
        output: spec.output,
    }
}

impl Wire for OpenSpec {
    ghost format = { it.spec };

    #[tactic(auto, unfolding(crate::specs::Setup::spec))]
    fn read(alloc: Global, bytes: &[u8]) -> Result<(OpenSpec, &[u8]), Refusal> {
        let (config, rest) = Config::read(alloc, bytes)?;
        let (terms, rest) = SpecTerms::read(alloc, rest)?;
        let (records, rest) = list_at(alloc, rest)?;
        let temporary_id = terms.temporary_id;
        let txid = terms.txid;
        let spec = OpenSpec {
            config,
            funding: terms.funding,
            push: terms.push,
            feerate: terms.feerate,
            flags: terms.flags,
            temporary_id,
            txid,
            output: terms.output,
            records: Records::new(records),
        };
        Ok((spec, rest))
    }

    #[tactic(auto, unfolding(crate::specs::Setup::spec))]
    fn fits(&self) -> bool {
        Wire::fits(&self.config) && terms_of(self).fits() && list_fits(self.records.as_slice())
    }

    #[tactic(auto, unfolding(crate::specs::Setup::spec))]
    fn write(&self, out: &mut Vec<u8>) -> Result<(), Refusal> {
        self.config.write(out)?;
        terms_of(self).write(out)?;
        put_list(out, self.records.as_slice())
    }
}

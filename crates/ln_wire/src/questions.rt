//! What a commitment and a closing transaction are worth, and what a host is asked, as bytes.

ghost use Rattle.std.specs.Prelude.{◌≡◌, ◌++◌, true, IfErr, OnOk};
ghost use Rattle.ln_store.specs.Format.{Finds};
ghost use Rattle.ln_wire.specs.Questions as it;
ghost use Rattle.ln_wire.specs.Questions.{question_at};

use crate::lists::{list_at, list_fits, put_list};
use crate::wire::Wire;
use ln_host::{ClosingTerms, Question};
use ln_keys::{Htlc, Htlcs, Role, View};
use ln_refusals::Refusal;
use ln_store::stored::{
    Stored, array_at, array_fits, put, put_short, put_u8, put_u32, put_u64, short_at, u32_at,
    u32_fits, u64_at, u64_fits,
};
use std::alloc::Global;

impl Wire for Htlc {
    ghost format = { it.htlc };

    #[tactic(auto, unfolding(crate::specs::Questions::htlc))]
    fn read(alloc: Global, bytes: &[u8]) -> Result<(Htlc, &[u8]), Refusal> {
        let (owner, rest) = Role::read(alloc, bytes)?;
        let (id, rest) = u64_at(rest)?;
        let (amount, rest) = u64_at(rest)?;
        let (hash, rest) = array_at(rest)?;
        let (expiry, rest) = u32_at(rest)?;
        let htlc = Htlc {
            owner,
            id,
            amount,
            hash,
            expiry,
        };
        Ok((htlc, rest))
    }

    #[tactic(auto, unfolding(crate::specs::Questions::htlc))]
    fn fits(&self) -> bool {
        self.owner.fits()
            && u64_fits(self.id)
            && u64_fits(self.amount)
            && array_fits(&self.hash)
            && u32_fits(self.expiry)
    }

    #[tactic(auto, unfolding(crate::specs::Questions::htlc))]
    fn write(&self, out: &mut Vec<u8>) -> Result<(), Refusal> {
        self.owner.write(out)?;
        put_u64(out, self.id)?;
        put_u64(out, self.amount)?;
        put(out, &self.hash)?;
        put_u32(out, self.expiry)
    }
}

impl Wire for View {
    ghost format = { it.view_form };

    #[tactic(auto, unfolding(crate::specs::Questions::view_form))]
    fn read(alloc: Global, bytes: &[u8]) -> Result<(View, &[u8]), Refusal> {
        let (funder, rest) = u64_at(bytes)?;
        let (fundee, rest) = u64_at(rest)?;
        let (feerate, rest) = u32_at(rest)?;
        let (htlcs, rest) = list_at(alloc, rest)?;
        let view = View {
            funder,
            fundee,
            feerate,
            htlcs: Htlcs::new(htlcs),
        };
        Ok((view, rest))
    }

    #[tactic(auto, unfolding(crate::specs::Questions::view_form))]
    fn fits(&self) -> bool {
        u64_fits(self.funder)
            && u64_fits(self.fundee)
            && u32_fits(self.feerate)
            && list_fits(self.htlcs.as_slice())
    }

    #[tactic(auto, unfolding(crate::specs::Questions::view_form))]
    fn write(&self, out: &mut Vec<u8>) -> Result<(), Refusal> {
        put_u64(out, self.funder)?;
        put_u64(out, self.fundee)?;
        put_u32(out, self.feerate)?;
        put_list(out, self.htlcs.as_slice())
    }
}

impl Wire for ClosingTerms {
    ghost format = { it.closing };

    #[tactic(auto, unfolding(crate::specs::Questions::closing))]
    fn read(alloc: Global, bytes: &[u8]) -> Result<(ClosingTerms, &[u8]), Refusal> {
        let (role, rest) = Role::read(alloc, bytes)?;
        let (fee_satoshis, rest) = u64_at(rest)?;
        let (own_msat, rest) = u64_at(rest)?;
        let (peer_msat, rest) = u64_at(rest)?;
        let (own_script, rest) = short_at(alloc, rest)?;
        let (peer_script, rest) = short_at(alloc, rest)?;
        let terms = ClosingTerms {
            role,
            fee_satoshis,
            own_msat,
            peer_msat,
            own_script,
            peer_script,
        };
        Ok((terms, rest))
    }

    #[tactic(auto, unfolding(crate::specs::Questions::closing))]
    fn fits(&self) -> bool {
        self.role.fits()
            && u64_fits(self.fee_satoshis)
            && u64_fits(self.own_msat)
            && u64_fits(self.peer_msat)
            && self.own_script.fits()
            && self.peer_script.fits()
    }

    #[tactic(auto, unfolding(crate::specs::Questions::closing))]
    fn write(&self, out: &mut Vec<u8>) -> Result<(), Refusal> {
        self.role.write(out)?;
        put_u64(out, self.fee_satoshis)?;
        put_u64(out, self.own_msat)?;
        put_u64(out, self.peer_msat)?;
        put_short(out, self.own_script.as_slice())?;
        put_short(out, self.peer_script.as_slice())
    }
}

fn signatures_at(alloc: Global, bytes: &[u8]) -> Result<(Question, &[u8]), Refusal>
    ensures { Finds (λ x. (x.0, x.1.now)) result (question_at 1 bytes.now) }
{
    let (role, rest) = Role::read(alloc, bytes)?;
    let (number, rest) = u64_at(rest)?;
    let (view, rest) = View::read(alloc, rest)?;
    Ok((Question::Signatures { role, number, view }, rest))
}

fn secret_at(bytes: &[u8]) -> Result<(Question, &[u8]), Refusal>
    ensures { Finds (λ x. (x.0, x.1.now)) result (question_at 2 bytes.now) }
{
    let (number, rest) = u64_at(bytes)?;
    let (point, rest) = array_at(rest)?;
    Ok((Question::Secret { number, point }, rest))
}

fn close_at(alloc: Global, bytes: &[u8]) -> Result<(Question, &[u8]), Refusal>
    ensures { Finds (λ x. (x.0, x.1.now)) result (question_at 3 bytes.now) }
{
    let (terms, rest) = ClosingTerms::read(alloc, bytes)?;
    Ok((Question::Close(terms), rest))
}

fn own_secret_at(bytes: &[u8]) -> Result<(Question, &[u8]), Refusal>
    ensures { Finds (λ x. (x.0, x.1.now)) result (question_at 4 bytes.now) }
{
    let (number, rest) = u64_at(bytes)?;
    Ok((Question::OwnSecret(number), rest))
}

fn new_at(bytes: &[u8]) -> Result<(Question, &[u8]), Refusal>
    ensures { Finds (λ x. (x.0, x.1.now)) result (question_at 5 bytes.now) }
{
    let (channel, rest) = array_at(bytes)?;
    Ok((Question::New(channel), rest))
}

fn first_at(alloc: Global, bytes: &[u8]) -> Result<(Question, &[u8]), Refusal>
    ensures { Finds (λ x. (x.0, x.1.now)) result (question_at 6 bytes.now) }
{
    let (channel, rest) = array_at(bytes)?;
    let (view, rest) = View::read(alloc, rest)?;
    Ok((Question::First { channel, view }, rest))
}

impl Wire for Question {
    ghost format = { it.question_form };

    #[tactic(auto, unfolding(crate::specs::Questions::question_form))]
    fn read(alloc: Global, bytes: &[u8]) -> Result<(Question, &[u8]), Refusal> {
        let [tag, rest @ ..] = bytes else {
            return Err(Refusal::Damaged);
        };
        match *tag {
            1 => signatures_at(alloc, rest),
            2 => secret_at(rest),
            3 => close_at(alloc, rest),
            4 => own_secret_at(rest),
            5 => new_at(rest),
            6 => first_at(alloc, rest),
            _ => Err(Refusal::Damaged),
        }
    }

    #[tactic(auto, unfolding(crate::specs::Questions::question_form))]
    fn fits(&self) -> bool {
        match self {
            Question::New(channel) => array_fits(channel),
            Question::First { channel, view } => array_fits(channel) && view.fits(),
            Question::Signatures { role, number, view } => role.fits()
                && u64_fits(*number)
                && view.fits(),
            Question::Secret { number, point } => u64_fits(*number) && array_fits(point),
            Question::Close(terms) => terms.fits(),
            Question::OwnSecret(number) => u64_fits(*number),
        }
    }

    #[tactic(auto, unfolding(crate::specs::Questions::question_form))]
    fn write(&self, out: &mut Vec<u8>) -> Result<(), Refusal> {
        match self {
            Question::New(channel) => {
                put_u8(out, 5)?;
                put(out, channel)
            }
            Question::First { channel, view } => {
                put_u8(out, 6)?;
                put(out, channel)?;
                view.write(out)
            }
            Question::Signatures { role, number, view } => {
                put_u8(out, 1)?;
                role.write(out)?;
                put_u64(out, *number)?;
                view.write(out)
            }
            Question::Secret { number, point } => {
                put_u8(out, 2)?;
                put_u64(out, *number)?;
                put(out, point)
            }
            Question::Close(terms) => {
                put_u8(out, 3)?;
                terms.write(out)
            }
            Question::OwnSecret(number) => {
                put_u8(out, 4)?;
                put_u64(out, *number)
            }
        }
    }
}

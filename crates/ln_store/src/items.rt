//! The updates of both sides, and all that a record has, as they are stored.

ghost use Rattle.std.specs.Prelude.{◌≡◌, ◌++◌, true, IfErr, OnOk};
ghost use Rattle.ln_store.specs.Format.{Finds, number, list, ◌&◌};
ghost use Rattle.ln_store.specs.Items as it;

use crate::list::Listed;
use crate::lists::{list_at, list_fits, put_list};
use crate::record::{
    Agreement, Base, Commitments, Covered, Header, Items, LiveHtlc, Pairs, Progress, Sides,
    Updates, Window,
};
use crate::stored::{Stored, put_u32, put_u64, u32_at, u32_fits, u64_at, u64_fits};
use ln_refusals::Refusal;
use std::alloc::Global;

impl Stored for Sides {
    ghost format = { it.sides };

    #[tactic(auto, unfolding(crate::specs::Items::sides))]
    fn read(_alloc: Global, bytes: &[u8]) -> Result<(Sides, &[u8]), Refusal> {
        let (funder, rest) = u64_at(bytes)?;
        let (fundee, rest) = u64_at(rest)?;
        Ok((Sides { funder, fundee }, rest))
    }

    #[tactic(auto, unfolding(crate::specs::Items::sides))]
    fn fits(&self) -> bool {
        u64_fits(self.funder) && u64_fits(self.fundee)
    }

    #[tactic(auto, unfolding(crate::specs::Items::sides))]
    fn write(&self, out: &mut Vec<u8>) -> Result<(), Refusal> {
        put_u64(out, self.funder)?;
        put_u64(out, self.fundee)
    }
}

// The feerate, and the live HTLCs.
fn put_live(out: &mut Vec<u8>, feerate: u32, live: &Listed<LiveHtlc>) -> Result<(), Refusal>
    requires { (list it.live).fits live.now ≡ true }
    ensures appends_them { OnOk result (out.new.items ≡ out.old.items
        ++ (number 4 & list it.live).bytes (feerate, live.now)) }
    ensures fails_for_memory_alone { IfErr result (λ e. e ≡ Refusal.Memory) }
{
    put_u32(out, feerate)?;
    put_list(out, live.as_slice())
}

impl Stored for Base {
    ghost format = { it.base };

    #[tactic(auto, unfolding(crate::specs::Items::base))]
    fn read(alloc: Global, bytes: &[u8]) -> Result<(Base, &[u8]), Refusal> {
        let (updates, rest) = Sides::read(alloc, bytes)?;
        let (next_ids, rest) = Sides::read(alloc, rest)?;
        let (balances, rest) = Sides::read(alloc, rest)?;
        let (feerate, rest) = u32_at(rest)?;
        let (live, rest) = list_at(alloc, rest)?;
        let base = Base {
            updates,
            next_ids,
            balances,
            feerate,
            live,
        };
        Ok((base, rest))
    }

    #[tactic(auto, unfolding(crate::specs::Items::base))]
    fn fits(&self) -> bool {
        self.updates.fits()
            && self.next_ids.fits()
            && self.balances.fits()
            && u32_fits(self.feerate)
            && list_fits(self.live.as_slice())
    }

    #[tactic(auto, unfolding(crate::specs::Items::base))]
    fn write(&self, out: &mut Vec<u8>) -> Result<(), Refusal> {
        self.updates.write(out)?;
        self.next_ids.write(out)?;
        self.balances.write(out)?;
        put_live(out, self.feerate, &self.live)
    }
}

impl Stored for Window {
    ghost format = { it.window };

    #[tactic(auto, unfolding(crate::specs::Items::window))]
    fn read(alloc: Global, bytes: &[u8]) -> Result<(Window, &[u8]), Refusal> {
        let (funder, rest) = list_at(alloc, bytes)?;
        let (fundee, rest) = list_at(alloc, rest)?;
        Ok((Window { funder, fundee }, rest))
    }

    #[tactic(auto, unfolding(crate::specs::Items::window))]
    fn fits(&self) -> bool {
        list_fits(self.funder.as_slice()) && list_fits(self.fundee.as_slice())
    }

    #[tactic(auto, unfolding(crate::specs::Items::window))]
    fn write(&self, out: &mut Vec<u8>) -> Result<(), Refusal> {
        put_list(out, self.funder.as_slice())?;
        put_list(out, self.fundee.as_slice())
    }
}

// The own updates first.
impl Stored for Covered {
    ghost format = { it.covered };

    #[tactic(auto, unfolding(crate::specs::Items::covered))]
    fn read(_alloc: Global, bytes: &[u8]) -> Result<(Covered, &[u8]), Refusal> {
        let (own, rest) = u64_at(bytes)?;
        let (peer, rest) = u64_at(rest)?;
        Ok((Covered { own, peer }, rest))
    }

    #[tactic(auto, unfolding(crate::specs::Items::covered))]
    fn fits(&self) -> bool {
        u64_fits(self.own) && u64_fits(self.peer)
    }

    #[tactic(auto, unfolding(crate::specs::Items::covered))]
    fn write(&self, out: &mut Vec<u8>) -> Result<(), Refusal> {
        put_u64(out, self.own)?;
        put_u64(out, self.peer)
    }
}

// The peer's updates first.
#[tactic(auto, unfolding(crate::specs::Items::covered_by_own))]
fn current_at(bytes: &[u8]) -> Result<(Covered, &[u8]), Refusal>
    ensures { Finds (λ x. (x.0, x.1.now)) result (it.covered_by_own.at bytes.now) }
{
    let (peer, rest) = u64_at(bytes)?;
    let (own, rest) = u64_at(rest)?;
    Ok((Covered { own, peer }, rest))
}

#[tactic(auto, unfolding(crate::specs::Items::covered_by_own))]
fn current_fits(covered: &Covered) -> bool
    ensures { result ≡ it.covered_by_own.fits covered.now }
{
    u64_fits(covered.peer) && u64_fits(covered.own)
}

#[tactic(auto, unfolding(crate::specs::Items::covered_by_own))]
fn put_current(out: &mut Vec<u8>, covered: &Covered) -> Result<(), Refusal>
    ensures appends_it { OnOk result (out.new.items ≡ out.old.items ++ it.covered_by_own.bytes covered.now) }
    ensures fails_for_memory_alone { IfErr result (λ e. e ≡ Refusal.Memory) }
{
    put_u64(out, covered.peer)?;
    put_u64(out, covered.own)
}

impl Stored for Pairs {
    ghost format = { it.pairs };

    #[tactic(auto, unfolding(crate::specs::Items::pairs))]
    fn read(alloc: Global, bytes: &[u8]) -> Result<(Pairs, &[u8]), Refusal> {
        let (signed, rest) = Covered::read(alloc, bytes)?;
        let (acknowledged, rest) = Covered::read(alloc, rest)?;
        let (current, rest) = current_at(rest)?;
        let pairs = Pairs {
            signed,
            acknowledged,
            current,
        };
        Ok((pairs, rest))
    }

    #[tactic(auto, unfolding(crate::specs::Items::pairs))]
    fn fits(&self) -> bool {
        self.signed.fits() && self.acknowledged.fits() && current_fits(&self.current)
    }

    #[tactic(auto, unfolding(crate::specs::Items::pairs))]
    fn write(&self, out: &mut Vec<u8>) -> Result<(), Refusal> {
        self.signed.write(out)?;
        self.acknowledged.write(out)?;
        put_current(out, &self.current)
    }
}

impl Stored for Updates {
    ghost format = { it.updates };

    #[tactic(auto, unfolding(crate::specs::Items::updates))]
    fn read(alloc: Global, bytes: &[u8]) -> Result<(Updates, &[u8]), Refusal> {
        let (base, rest) = Base::read(alloc, bytes)?;
        let (window, rest) = Window::read(alloc, rest)?;
        let (pairs, rest) = Pairs::read(alloc, rest)?;
        let updates = Updates {
            base,
            window,
            pairs,
        };
        Ok((updates, rest))
    }

    #[tactic(auto, unfolding(crate::specs::Items::updates))]
    fn fits(&self) -> bool {
        self.base.fits() && self.window.fits() && self.pairs.fits()
    }

    #[tactic(auto, unfolding(crate::specs::Items::updates))]
    fn write(&self, out: &mut Vec<u8>) -> Result<(), Refusal> {
        self.base.write(out)?;
        self.window.write(out)?;
        self.pairs.write(out)
    }
}

impl Stored for Items {
    ghost format = { it.items };

    #[tactic(auto, unfolding(crate::specs::Items::items))]
    fn read(alloc: Global, bytes: &[u8]) -> Result<(Items, &[u8]), Refusal> {
        let (header, rest) = Header::read(alloc, bytes)?;
        let (agreement, rest) = Agreement::read(alloc, rest)?;
        let (commitments, rest) = Commitments::read(alloc, rest)?;
        let (updates, rest) = Updates::read(alloc, rest)?;
        let (progress, rest) = Progress::read(alloc, rest)?;
        let items = Items {
            header,
            agreement,
            commitments,
            updates,
            progress,
        };
        Ok((items, rest))
    }

    #[tactic(auto, unfolding(crate::specs::Items::items))]
    fn fits(&self) -> bool {
        self.header.fits()
            && self.agreement.fits()
            && self.commitments.fits()
            && self.updates.fits()
            && self.progress.fits()
    }

    #[tactic(auto, unfolding(crate::specs::Items::items))]
    fn write(&self, out: &mut Vec<u8>) -> Result<(), Refusal> {
        self.header.write(out)?;
        self.agreement.write(out)?;
        self.commitments.write(out)?;
        self.updates.write(out)?;
        self.progress.write(out)
    }
}

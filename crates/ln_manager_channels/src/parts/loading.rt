//! What comes back from the records of all channels.

ghost use Rattle.ln_manager_channels.specs.Loading.{ComesBack};

use crate::parts::{ChannelParts, id_of};
use crate::saved::Saved;
use ln_book::{ChannelSnapshot, read_end};
use ln_keys::ChannelKeys;
use ln_link::Link;
use ln_log::ChannelId;
use ln_refusals::Refusal;
use std::alloc::Global;

// The link that comes back from a record.
fn come_back<K: ChannelKeys + Drop>(alloc: Global, saved: Saved<K>) -> Result<Link<K>, Refusal>
    ensures { ComesBack saved result }
{
    let Saved { keys, bytes } = saved;
    Link::from_record(alloc, keys, bytes.as_slice())
}

impl<K: ChannelKeys + Drop> ChannelParts<K> {
    ghost use Rattle.std.specs.Prelude.{◌≡◌, ◌⊎◌, None, Some, length, IfOk, IfErr, OnOk, OnErr};
    ghost use Rattle.ln_refusals.specs.declared.refusal.Refusal.TheVariants as refusal;
    ghost use Rattle.ln_history.specs.History.{begun_with};
    ghost use Rattle.ln_book_tables.specs.Replay.{table_of};
    ghost use Rattle.ln_book.specs.Rebuild.{rebuilt};
    ghost use Rattle.ln_manager_channels.specs.Books.{snapshots_of};
    ghost use Rattle.ln_manager_channels.specs.Links.{id_by_end};
    ghost use Rattle.ln_manager_channels.specs.Loading.{seat_fault, numbered_by, seated, link_id};
    ghost use Rattle.ln_manager_channels.specs.Loading.{SeatsOne, LacksOne, SeatsAll, LacksSome};
    ghost use Rattle.ln_manager_channels.specs.Moves.{with_place};

    // The next number is that of a channel of this id. Errors: 70 where there is another one, 60.
    fn make_seat(&mut self, alloc: Global, id: Option<ChannelId>) -> Result<(), Refusal>
        ensures may { OnOk result (seat_fault id self.old.numbers ≡ None) }
        ensures numbered { OnOk result (self.new.numbers
            ≡ numbered_by id (length self.old.links.items) self.old.numbers) }
        ensures makes_place { OnOk result (self.new.records.items
            ≡ with_place (length self.old.links.items) self.old.records.items) }
        ensures fails { IfErr result (λ r. (r ≡ Refusal.Memory) ⊎ (seat_fault id self.old.numbers ≡ Some r)) }
        ensures links_stay { self.new.links.items ≡ self.old.links.items }
        ensures book_stays { self.new.book ≡ self.old.book }
    {
        let Some(id) = id else {
            return Err(Refusal::Damaged);
        };
        if self.numbers.get(&id).is_some() {
            return Err(Refusal::Damaged);
        }
        match self.numbers.put(id, self.links.len()) {
            Ok(()) => self.make_record(alloc),
            Err(refusal) => Err(refusal),
        }
    }

    // A link that was loaded has the next number. Errors: 70 where another one has its id, 60.
    fn seat(&mut self, alloc: Global, link: Link<K>) -> Result<(), Refusal>
        ensures may { OnOk result (seat_fault (link_id link) self.old.numbers ≡ None) }
        ensures seats { OnOk result ((record {
          links = self.new.links.items;
          records = self.new.records.items;
          numbers = self.new.numbers;
        }) ≡ seated link (record {
          links = self.old.links.items;
          records = self.old.records.items;
          numbers = self.old.numbers;
        })) }
        ensures fails { IfErr result (λ r. (r ≡ Refusal.Memory)
            ⊎ (seat_fault (link_id link) self.old.numbers ≡ Some r)) }
        ensures book_stays { self.new.book ≡ self.old.book }
    {
        match self.make_seat(alloc, id_of(link.channel_machine().saved())) {
            Ok(()) => {
                self.links.push(link)?;
                Ok(())
            }
            Err(refusal) => {
                drop(link);
                Err(refusal)
            }
        }
    }

    // A channel comes back from its record. Errors: 70 where another one has its id; those of `Link::from_record`.
    fn load_one(&mut self, alloc: Global, saved: Saved<K>) -> Result<(), Refusal>
        ensures seats { OnOk result (SeatsOne saved
            (record { links = self.old.links.items; records = self.old.records.items; numbers = self.old.numbers })
            (record { links = self.new.links.items; records = self.new.records.items; numbers = self.new.numbers })) }
        ensures fails { IfErr result (λ r. (r ≡ Refusal.Memory) ⊎ LacksOne saved
            (record { links = self.old.links.items; records = self.old.records.items; numbers = self.old.numbers }) r) }
        ensures book_stays { self.new.book ≡ self.old.book }
    {
        match come_back(alloc, saved) {
            Ok(link) => self.seat(alloc, link),
            Err(refusal) => Err(refusal),
        }
    }

    // All do, in their order. Errors: those of the first that doesn't.
    fn load_each(&mut self, alloc: Global, saved: Vec<Saved<K>>) -> Result<(), Refusal>
        ensures seats { OnOk result (SeatsAll saved.items
            (record { links = self.old.links.items; records = self.old.records.items; numbers = self.old.numbers })
            (record { links = self.new.links.items; records = self.new.records.items; numbers = self.new.numbers })) }
        ensures fails { IfErr result (λ r. (r ≡ Refusal.Memory) ⊎ LacksSome saved.items
            (record { links = self.old.links.items; records = self.old.records.items; numbers = self.old.numbers }) r) }
        ensures book_stays { self.new.book ≡ self.old.book }
    {
        for each in saved {
            match self.load_one(alloc, each) {
                Ok(()) => {}
                Err(refusal) => return Err(refusal),
            }
        }
        Ok(())
    }

    // What a book reads off the ends. Error: 60 alone.
    fn snapshots(&self, alloc: Global) -> Result<Vec<ChannelSnapshot>, Refusal>
        ensures reads { IfOk result (λ v. v.items ≡ snapshots_of self.now.links.items) }
        ensures fails_for_memory_alone { IfErr result (λ r. r ≡ Refusal.Memory) }
    {
        let mut snapshots = Vec::new(alloc);
        for link in &self.links {
            read_end(alloc, link.channel_machine().saved(), &mut snapshots)?;
        }
        Ok(snapshots)
    }

    // The book begins with what the ends of all channels have. Error: 60 alone, and nothing has changed.
    fn rebuild(&mut self, alloc: Global) -> Result<(), Refusal>
        ensures begins_anew { OnOk result (self.new.book
            ≡ begun_with (rebuilt (table_of self.old.book) (snapshots_of self.old.links.items))) }
        ensures book_stays_if_refused { OnErr result (self.new.book ≡ self.old.book) }
        ensures fails_for_memory_alone { IfErr result (λ r. r ≡ Refusal.Memory) }
        ensures links_stay { self.new.links.items ≡ self.old.links.items }
        ensures records_stay { self.new.records.items ≡ self.old.records.items }
        ensures numbers_stay { self.new.numbers ≡ self.old.numbers }
    {
        match self.snapshots(alloc) {
            Ok(snapshots) => self.book.rebuild(alloc, snapshots.as_slice()),
            Err(refusal) => Err(refusal),
        }
    }

    /// All channels come back from their records, in their order, and the book begins with what the ends have.
    ///
    /// Errors: those of `Link::from_record` (70, 71), 70 where two records have one id, and 60.
    pub(crate) fn load_all(&mut self, alloc: Global, saved: Vec<Saved<K>>) -> Result<(), Refusal>
        ensures seats { OnOk result (SeatsAll saved.items
            (record { links = self.old.links.items; records = self.old.records.items; numbers = self.old.numbers })
            (record { links = self.new.links.items; records = self.new.records.items; numbers = self.new.numbers })) }
        ensures fails { IfErr result (λ r. (r ≡ Refusal.Memory) ⊎ LacksSome saved.items
            (record { links = self.old.links.items; records = self.old.records.items; numbers = self.old.numbers }) r) }
        ensures begins_anew { OnOk result (self.new.book
            ≡ begun_with (rebuilt (table_of self.old.book) (snapshots_of self.new.links.items))) }
    {
        match self.load_each(alloc, saved) {
            Ok(()) => self.rebuild(alloc),
            Err(refusal) => Err(refusal),
        }
    }
}

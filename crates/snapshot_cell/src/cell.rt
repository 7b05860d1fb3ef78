//! The cell, and its calls.
ghost use Rattle.std.specs.Prelude.{◌≡◌, ◌≢◌, None, ◌⊎◌, ◌↔◌, ◌<◌, ◌≤◌, ◌-◌, ◌^◌, min, [], ◌∷◌, vec_len, IfOk, IfErr, IsErrOf};
ghost use Rattle.std.specs.Vec.{vec_capacity};
ghost use Rattle.std.specs.List.{All};
ghost use Rattle.cell_core.specs.Words.{slots, notes};
ghost use Rattle.counted_handles.specs.Calls.{Fits};
ghost use Rattle.counted_handles.specs.Cuts.{dealt_grants};
ghost use Rattle.counted_handles.specs.Opens.{IsBegun};
ghost use Rattle.counted_handles.specs.Ruled.{Begins};
ghost use Rattle.counted_handles.specs.declared.view.View.TheVariants.{Gone};
ghost use Rattle.snapshot_cell.specs.Tokens.{IsDealing, IsLoad, first_publisher, first_reader, limited_reader, noted_next, published_next};

use crate::ending::end_all;
use crate::fault::{NewFault, Spent};
use crate::tokens::{LOADS, Publisher, READERS, Reader};
use atomic_table::{Badge, Table};
use cell_core::{NOTES, Version};
use counted_handles::{
    InUse, Made, Names, NoSlot, Room, Rule, Spots, Strong, View, Weak, Words, deal, deal_rest,
    make, unmake,
};
use raw_slots::Bare;
use std::alloc::Global;
use std::marker::{Model, PhantomData};
use std::snapshot::Snapshot;

/// A cell: the words and the places of its versions. Contracts see which one it is.
pub struct Cell<T, C: Names<T>> {
    table: Table<Room<T>, View<T>, Spots<T>, Rule<C>, Global>,
    spots: Spots<T>,
    bare: Bare<Option<Version<T>>, Global>,
    heap: Global,
}

impl<T, C: Names<T>> Model for Cell<T, C> {
    ghost use Rattle.std.specs.Prelude.{◌≡◌};
    ghost use Rattle.atomic_table.specs.Seated.{TableId, table_id_coded};
    ghost use Rattle.counted_handles.specs.Calls.{AreSpots};

    ghost Value = { TableId };

    ghost coded = { table_id_coded };

    ghost view = { λ a. a.table.shared.table_id };

    ghost invariant = { λ a. AreSpots a.table.shared.table_id a.table.shared.key a.spots × (a.bare.spots ≡ a.spots.places.items) };
}

/// A cell with its publisher and its readers.
pub struct Parts<T, C: Names<T>> {
    /// The cell.
    pub cell: Cell<T, C>,
    /// The one who publishes.
    pub publisher: Publisher<T, C>,
    /// Those who load.
    pub readers: Vec<Reader<T>>,
}

/// The cell is still in use: all three come back as they were, with the reason.
pub struct StillOut<T, C: Names<T>> {
    /// The cell.
    pub cell: Cell<T, C>,
    /// Its publisher.
    pub publisher: Publisher<T, C>,
    /// The readers that were given back.
    pub readers: Vec<Reader<T>>,
    /// That a load has shown that somebody has a version. None where a reader isn't given back.
    pub in_use: Option<InUse>,
}

// So many readers, which may make so many loads, go off the publisher's token of a new cell.
fn deal_all<T, C: Names<T>>(
    words: &Words<T, C>,
    badge: &mut Badge<View<T>>,
    readers: &mut Vec<Reader<T>>,
    count: usize,
    grants: u64,
)
    requires fits { Fits words.now.table_id × (badge.old.table_id ≡ words.now.table_id) }
    requires begun { (value : T) × IsBegun value words.now.table_id.views_name badge.old.views }
    requires room { (readers.old.items ≡ []) × (count ≤ vec_capacity readers.old) × (count ≤ 64) }
    requires grants { grants ≤ dealt_grants }
    ensures badge { (badge.new.table_id ≡ badge.old.table_id) × (badge.new.id ≡ badge.old.id) }
    ensures dealing { (value : T) → IsBegun value words.now.table_id.views_name badge.old.views → IsDealing value words.now.table_id.views_name count grants badge.new.views }
    ensures readers { (value : T) → IsBegun value words.now.table_id.views_name badge.old.views → All (λ r. r ≡ limited_reader grants words.now.table_id value) readers.new.items }
    ensures count { vec_len readers.new ≡ count }
{
    let mut dealt = 0;
    while dealt < count {
        let badge = deal(words, badge, grants);
        readers.push_reserved(Reader {
            badge,
            left: grants,
        });
        dealt += 1;
    }
}

impl<T: Drop, C: Names<T>> Cell<T, C> {
    /// A cell whose first version has number 0 and this value, with its publisher and so many readers.
    /// [`NewFault::TooManyReaders`] exactly where there would be more than [`READERS`]; [`NewFault::NoMemory`] where a growth
    /// was refused. At both the value is dropped.
    pub fn new(alloc: Global, readers: usize, first: T) -> Result<Parts<T, C>, NewFault>
        requires { C.begins first }
        ensures publisher { IfOk result (λ parts. parts.publisher ≡ first_publisher parts.cell first readers) }
        ensures readers { IfOk result (λ parts. All (λ r. r ≡ first_reader parts.cell first) parts.readers.items × (vec_len parts.readers ≡ readers)) }
        ensures too_many { IsErrOf result NewFault.TooManyReaders ↔ (READERS < readers) }
    {
        Cell::new_limited(alloc, readers, first, LOADS)
    }

    /// As [`Cell::new`], whose readers have so many grants; a number over 2^40 counts as 2^40.
    pub fn new_limited(
        alloc: Global,
        readers: usize,
        first: T,
        grants: u64,
    ) -> Result<Parts<T, C>, NewFault>
        requires { C.begins first }
        ensures publisher { IfOk result (λ parts. parts.publisher ≡ first_publisher parts.cell first readers) }
        ensures readers { IfOk result (λ parts. All (λ r. r ≡ limited_reader (min grants dealt_grants) parts.cell first) parts.readers.items × (vec_len parts.readers ≡ readers)) }
        ensures too_many { IsErrOf result NewFault.TooManyReaders ↔ (READERS < readers) }
    {
        if readers > READERS {
            return Err(NewFault::TooManyReaders);
        }
        let last = Snapshot::of(&first);
        let mut tokens = Vec::with_capacity(alloc, readers)
            .ok()
            .ok_or(NewFault::NoMemory)?;
        let Some(made) = make(alloc, first) else {
            return Err(NewFault::NoMemory);
        };
        let Made {
            table,
            mut badge,
            spots,
            bare,
        } = made;
        deal_all(
            &table.shared,
            &mut badge,
            &mut tokens,
            readers,
            grants.min(LOADS),
        );
        let spare = deal_rest(&table.shared, &mut badge);
        Ok(Parts {
            cell: Cell {
                table,
                spots,
                bare,
                heap: alloc,
            },
            publisher: Publisher {
                badge,
                spare,
                number: 0,
                last,
                readers,
                noted: 0,
                ready: 0,
                names: PhantomData,
            },
            readers: tokens,
        })
    }

    // The words.
    pub(crate) fn words(&self) -> &Words<T, C>
        ensures { (result.now.table_id ≡ self.now) × Fits result.now.table_id }
    {
        &self.table.shared
    }

    // Frees the memory, when the cell is ended.
    pub(crate) fn free(self, badge: Badge<View<T>>)
        requires { (badge.table_id ≡ self) × (badge.id ≡ 0) × (badge.views ≡ Gone ∷ []) }
    {
        let Cell {
            table,
            spots,
            bare,
            heap,
        } = self;
        unmake(heap, table, badge, &spots, bare);
    }

    /// An owner of the version published last, by one addition to a word. [`Spent`] where the reader has no grant left. It waits
    /// for nobody.
    pub fn load(&self, reader: &mut Reader<T>) -> Result<Strong<'_, T, C>, Spent>
        requires { reader.old.cell ≡ self.now }
        ensures loaded { IfOk result (λ strong. IsLoad C.begins C.follows reader.old reader.new strong.version) }
        ensures table { IfOk result (λ strong. strong.table ≡ self.now) }
        ensures spent { IfErr result (λ _. (reader.old.left ≡ 0) × (reader.new ≡ reader.old)) }
    {
        if reader.left == 0 {
            return Err(Spent);
        }
        reader.left -= 1;
        Ok(counted_handles::load(&self.table.shared, &self.spots, &mut reader.badge))
    }

    /// An owner of the version that its publisher published last, and a weak owner beside it, which the publisher counts. The reader has then
    /// seen all that is published, of which it had seen a beginning. [`Spent`] where the reader has no grant left, or the publisher can
    /// give no weak owner more: all is then as it was. It waits for nobody.
    pub fn newest_with_weak(
        &self,
        publisher: &mut Publisher<T, C>,
        reader: &mut Reader<T>,
    ) -> Result<(Strong<'_, T, C>, Weak<'_, T, C>), Spent>
        requires { (publisher.old.cell ≡ self.now) × (reader.old.cell ≡ self.now) }
        ensures table { IfOk result (λ owners. owners.0.table ≡ self.now) }
        ensures weak { IfOk result (λ owners. owners.1 ≡ owners.0) }
        ensures newest { IfOk result (λ owners. (owners.0.version ≡ record { number = publisher.old.number; value = publisher.old.value }) × (reader.new ≡ record { cell = self.now; seen = publisher.old.published; left = reader.old.left - 1; gone = reader.old.gone }) × (0 < reader.old.left)) }
        ensures begun { IfOk result (λ _. Begins reader.old.seen publisher.old.published) }
        ensures noted { IfOk result (λ _. (publisher.new ≡ noted_next publisher.old) × (publisher.old.noted < notes)) }
        ensures spent { IfErr result (λ _. ((reader.old.left ≡ 0) ⊎ (publisher.old.noted ≡ notes)) × (reader.new ≡ reader.old) × (publisher.new ≡ publisher.old)) }
    {
        if reader.left == 0 || publisher.noted == NOTES {
            return Err(Spent);
        }
        reader.left -= 1;
        publisher.noted += 1;
        Ok(counted_handles::newest_with_weak(
            &self.table.shared,
            &self.spots,
            &mut publisher.badge,
            &mut reader.badge,
        ))
    }

    /// The reader sees all that its publisher has published, of which it had seen a beginning, for no grant. It waits for nobody.
    pub fn meet(&self, publisher: &mut Publisher<T, C>, reader: &mut Reader<T>)
        requires { (publisher.old.cell ≡ self.now) × (reader.old.cell ≡ self.now) }
        ensures met { reader.new ≡ record { cell = self.now; seen = publisher.old.published; left = reader.old.left; gone = reader.old.gone } }
        ensures begun { Begins reader.old.seen publisher.old.published }
        ensures same { publisher.new ≡ publisher.old }
    {
        counted_handles::meet(&self.table.shared, &mut publisher.badge, &mut reader.badge);
    }

    /// Ends the cell, and gives the value published last. [`StillOut`] with all three as they were where a reader isn't given back,
    /// or where a load has shown that somebody has a version. It waits for nobody and takes no memory.
    pub fn close(
        self,
        publisher: Publisher<T, C>,
        mut readers: Vec<Reader<T>>,
    ) -> Result<T, StillOut<T, C>>
        requires publisher { publisher.cell ≡ self }
        requires readers { All (λ r. r.cell ≡ self) readers.items }
        ensures value { IfOk result (λ value. value ≡ publisher.value) }
        ensures out { IfErr result (λ out. (out.cell ≡ self) × (out.publisher ≡ publisher) × (out.readers.items ≡ readers.items)) }
        ensures few { IfErr result (λ out. out.in_use ≡ None → vec_len readers ≢ publisher.readers) }
    {
        match end_all(self.words(), publisher, &mut readers) {
            Ok((value, badge)) => {
                self.free(badge);
                Ok(value)
            }
            Err((publisher, in_use)) => Err(StillOut {
                cell: self,
                publisher,
                readers,
                in_use,
            }),
        }
    }

    /// Publishes a value that may follow the last one, and gives the old version's owner. [`NoSlot`] with the value where this
    /// call saw none of the 64 slots free: nothing is then published. Where free slots were counted there is one. It waits for nobody.
    pub fn publish(
        &self,
        publisher: &mut Publisher<T, C>,
        value: T,
    ) -> Result<Strong<'_, T, C>, NoSlot<T>>
        requires cell { publisher.old.cell ≡ self.now }
        requires room { publisher.old.number < 2 ^ 64 - 1 }
        requires follows { C.follows publisher.old.value value }
        ensures table { IfOk result (λ strong. strong.table ≡ self.now) }
        ensures old { IfOk result (λ strong. strong.version ≡ record { number = publisher.old.number; value = publisher.old.value }) }
        ensures published { IfOk result (λ _. publisher.new ≡ published_next publisher.old value) }
        ensures refused { IfErr result (λ refused. (refused.value ≡ value) × (refused.probed ≡ slots) × (publisher.new ≡ publisher.old)) }
        ensures none_ready { IfErr result (λ _. publisher.old.ready ≡ 0) }
    {
        let last = Snapshot::of(&value);
        let old = counted_handles::publish(
            &self.table.shared,
            &self.spots,
            &mut publisher.badge,
            publisher.number,
            value,
        )?;
        publisher.number += 1;
        publisher.last = last;
        publisher.ready = publisher.ready.saturating_sub(1);
        Ok(old)
    }
}

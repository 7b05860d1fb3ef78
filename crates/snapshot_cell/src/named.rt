//! A cell and its tokens that a type names: what has the same name belongs together, so no call asks for it.
ghost use Rattle.std.specs.Prelude.{◌≡◌, ◌≢◌, ◌⊎◌, ◌+◌, ◌<◌, ◌-◌, ◌^◌, None, vec_len, IfOk, IfErr};
ghost use Rattle.cell_core.specs.Words.{slots, notes};
ghost use Rattle.counted_handles.specs.History.{IsHistory};
ghost use Rattle.counted_handles.specs.Ruled.{Begins};
ghost use Rattle.snapshot_cell.specs.Tokens.{IsLoad, IsLastOf, noted_next, published_next, ready_for};
ghost use Rattle.atomic_table.specs.Seated.{TableId};

use crate::cell::Cell;
use crate::fault::Spent;
use crate::further::NamedWeak;
use crate::named_ending::end_all_named;
use crate::named_owner::NamedStrong;
use crate::tokens::{Publisher, Reader};
use counted_handles::{FreeCount, InUse, Names, NoSlot};
use std::marker::{Brand, Model, PhantomData};

/// Which cell it is. Each call of a program that runs a cell picks it.
pub trait Naming {
    ghost cell: { TableId };
}

impl Naming for Brand {
    ghost use Rattle.std.specs.Prelude.{[]};

    ghost cell = { record { words = 0; slots = 0; views_name = 0; atom = 0; block = 0; offset = 0; slot_names = [] } };
}

/// The cell of this name.
pub struct NamedCell<T, C: Names<T>, N: Naming> {
    cell: Cell<T, C>,
    names: PhantomData<N>,
    ghost named: { cell ≡ N.cell },
}

/// A reader of the cell of this name. Contracts see the reader.
#[derive(Drop)]
pub struct NamedReader<T, N: Naming> {
    pub(crate) reader: Reader<T>,
    pub(crate) names: PhantomData<N>,
}

impl<T, N: Naming> Model for NamedReader<T, N> {
    ghost use Rattle.std.specs.Prelude.{◌≡◌};
    ghost use Rattle.snapshot_cell.specs.Tokens.{ReaderState, reader_coded};

    ghost Value = { ReaderState T };

    ghost coded = { reader_coded T.code };

    ghost view = { λ a. a.reader };

    ghost invariant = { λ a. a.reader.cell ≡ N.cell };
}

/// The publisher of the cell of this name. Contracts see the publisher.
#[derive(Drop)]
pub struct NamedPublisher<T, C: Names<T>, N: Naming> {
    pub(crate) publisher: Publisher<T, C>,
    names: PhantomData<N>,
}

impl<T, C: Names<T>, N: Naming> Model for NamedPublisher<T, C, N> {
    ghost use Rattle.std.specs.Prelude.{◌≡◌};
    ghost use Rattle.snapshot_cell.specs.Tokens.{PublisherState, publisher_coded};

    ghost Value = { PublisherState T };

    ghost coded = { publisher_coded T.code };

    ghost view = { λ a. a.publisher };

    ghost invariant = { λ a. a.publisher.cell ≡ N.cell };
}

/// The cell of this name is still in use: all three come back as they were, with the reason.
pub struct NamedStillOut<T, C: Names<T>, N: Naming> {
    /// The cell.
    pub cell: NamedCell<T, C, N>,
    /// Its publisher.
    pub publisher: NamedPublisher<T, C, N>,
    /// The readers that were given back.
    pub readers: Vec<NamedReader<T, N>>,
    /// As of [`StillOut`](crate::StillOut).
    pub in_use: Option<InUse>,
}

impl<T, N: Naming> NamedReader<T, N> {
    /// The reader of a cell of this name.
    pub fn of(reader: Reader<T>) -> NamedReader<T, N>
        requires { reader.cell ≡ N.cell }
        ensures { result ≡ reader }
    {
        NamedReader {
            reader,
            names: PhantomData,
        }
    }

    /// The grants that are left: as many loads can be made.
    pub fn left(&self) -> u64
        ensures { result ≡ self.now.left }
    {
        self.reader.left()
    }
}

impl<T, C: Names<T>, N: Naming> NamedPublisher<T, C, N> {
    /// The publisher of a cell of this name.
    pub fn of(publisher: Publisher<T, C>) -> NamedPublisher<T, C, N>
        requires { publisher.cell ≡ N.cell }
        ensures { result ≡ publisher }
    {
        NamedPublisher {
            publisher,
            names: PhantomData,
        }
    }

    /// The number of the version published last.
    pub fn last_number(&self) -> u64
        ensures number { result ≡ self.now.number }
        ensures history { IsHistory C.begins C.follows self.now.published }
        ensures last { IsLastOf self.now.published (record { number = self.now.number; value = self.now.value }) }
    {
        self.publisher.last_number()
    }

    /// How many weak owners more it can give.
    pub fn left(&self) -> u64
        ensures { result + self.now.noted ≡ notes }
    {
        self.publisher.left()
    }
}

impl<T: Drop, C: Names<T>, N: Naming> NamedCell<T, C, N> {
    /// The cell of this name.
    pub fn of(cell: Cell<T, C>) -> NamedCell<T, C, N>
        requires { cell ≡ N.cell }
    {
        NamedCell {
            cell,
            names: PhantomData,
        }
    }

    /// As [`Cell::load`].
    pub fn load(&self, reader: &mut NamedReader<T, N>) -> Result<NamedStrong<'_, T, C, N>, Spent>
        ensures loaded { IfOk result (λ strong. IsLoad C.begins C.follows reader.old reader.new strong) }
        ensures spent { IfErr result (λ _. (reader.old.left ≡ 0) × (reader.new ≡ reader.old)) }
    {
        Ok(NamedStrong::of(self.cell.load(&mut reader.reader)?))
    }

    /// As [`Cell::newest_with_weak`].
    pub fn newest_with_weak(
        &self,
        publisher: &mut NamedPublisher<T, C, N>,
        reader: &mut NamedReader<T, N>,
    ) -> Result<(NamedStrong<'_, T, C, N>, NamedWeak<'_, T, C, N>), Spent>
        ensures weak { IfOk result (λ owners. owners.1 ≡ owners.0) }
        ensures newest { IfOk result (λ owners. (owners.0 ≡ record { number = publisher.old.number; value = publisher.old.value }) × (reader.new ≡ record { cell = reader.old.cell; seen = publisher.old.published; left = reader.old.left - 1; gone = reader.old.gone }) × (0 < reader.old.left)) }
        ensures begun { IfOk result (λ _. Begins reader.old.seen publisher.old.published) }
        ensures noted { IfOk result (λ _. (publisher.new ≡ noted_next publisher.old) × (publisher.old.noted < notes)) }
        ensures spent { IfErr result (λ _. ((reader.old.left ≡ 0) ⊎ (publisher.old.noted ≡ notes)) × (reader.new ≡ reader.old) × (publisher.new ≡ publisher.old)) }
    {
        let (strong, weak) = self
            .cell
            .newest_with_weak(&mut publisher.publisher, &mut reader.reader)?;
        Ok((NamedStrong::of(strong), NamedWeak::of(weak)))
    }

    /// As [`Cell::meet`].
    pub fn meet(&self, publisher: &mut NamedPublisher<T, C, N>, reader: &mut NamedReader<T, N>)
        ensures met { reader.new ≡ record { cell = reader.old.cell; seen = publisher.old.published; left = reader.old.left; gone = reader.old.gone } }
        ensures begun { Begins reader.old.seen publisher.old.published }
        ensures same { publisher.new ≡ publisher.old }
    {
        self.cell.meet(&mut publisher.publisher, &mut reader.reader);
    }

    /// As [`Cell::close`].
    pub fn close(
        self,
        publisher: NamedPublisher<T, C, N>,
        mut readers: Vec<NamedReader<T, N>>,
    ) -> Result<T, NamedStillOut<T, C, N>>
        ensures value { IfOk result (λ value. value ≡ publisher.value) }
        ensures out { IfErr result (λ out. (out.publisher ≡ publisher) × (out.readers.items ≡ readers.items)) }
        ensures few { IfErr result (λ out. out.in_use ≡ None → vec_len readers ≢ publisher.readers) }
    {
        let NamedCell { cell, names: _ } = self;
        let NamedPublisher {
            publisher,
            names: _,
        } = publisher;
        match end_all_named(cell.words(), publisher, &mut readers) {
            Ok((value, badge)) => {
                cell.free(badge);
                Ok(value)
            }
            Err((publisher, in_use)) => Err(NamedStillOut {
                cell: NamedCell::of(cell),
                publisher: NamedPublisher::of(publisher),
                readers,
                in_use,
            }),
        }
    }

    /// As [`Cell::count`].
    pub fn count(&self, publisher: &mut NamedPublisher<T, C, N>) -> FreeCount
        ensures { publisher.new ≡ ready_for publisher.old result }
    {
        self.cell.count(&mut publisher.publisher)
    }

    /// As [`Cell::publish`].
    pub fn publish(
        &self,
        publisher: &mut NamedPublisher<T, C, N>,
        value: T,
    ) -> Result<NamedStrong<'_, T, C, N>, NoSlot<T>>
        requires room { publisher.old.number < 2 ^ 64 - 1 }
        requires follows { C.follows publisher.old.value value }
        ensures old { IfOk result (λ strong. strong ≡ record { number = publisher.old.number; value = publisher.old.value }) }
        ensures published { IfOk result (λ _. publisher.new ≡ published_next publisher.old value) }
        ensures refused { IfErr result (λ refused. (refused.value ≡ value) × (refused.probed ≡ slots) × (publisher.new ≡ publisher.old)) }
        ensures none_ready { IfErr result (λ _. publisher.old.ready ≡ 0) }
    {
        let old = self.cell.publish(&mut publisher.publisher, value)?;
        Ok(NamedStrong::of(old))
    }
}

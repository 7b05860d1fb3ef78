//! Owners of versions of a cell that a type names.
ghost use Rattle.std.specs.Prelude.{◌≡◌, ◌<◌, ◌-◌, Contains, IfOk, IfErr};
ghost use Rattle.counted_handles.specs.Releases.{IsReleased};

use crate::fault::Spent;
use crate::named::{NamedReader, Naming};
use counted_handles::{Names, Released, Strong};
use std::marker::{Model, PhantomData};

/// An owner of a version of the cell of this name, as [`Strong`]. Contracts see the version.
#[derive(Drop)]
pub struct NamedStrong<'a, T: Drop, C: Names<T>, N: Naming> {
    pub(crate) strong: Strong<'a, T, C>,
    names: PhantomData<N>,
}

impl<'a, T: Drop, C: Names<T>, N: Naming> Model for NamedStrong<'a, T, C, N> {
    ghost use Rattle.std.specs.Prelude.{◌≡◌};
    ghost use Rattle.cell_core.specs.declared.words.Version.{Version};

    ghost Value = { Version T };

    ghost view = { λ a. a.strong.version };

    ghost invariant = { λ a. a.strong.table ≡ N.cell };
}

impl<'a, T: Drop, C: Names<T>, N: Naming> NamedStrong<'a, T, C, N> {
    /// The owner of a version of a cell of this name.
    pub fn of(strong: Strong<'a, T, C>) -> NamedStrong<'a, T, C, N>
        requires { strong.table ≡ N.cell }
        ensures { result ≡ strong.entry.version }
    {
        NamedStrong {
            strong,
            names: PhantomData,
        }
    }

    /// The version's number.
    pub fn number(&self) -> u64
        ensures { result ≡ self.now.number }
    {
        self.strong.number()
    }

    /// The version's value.
    pub fn get(&self) -> &T
        ensures { result.now ≡ self.now.value }
    {
        self.strong.get()
    }

    /// Gives the owner up, as [`Strong::release`].
    pub fn release(self) -> Released
        ensures { IsReleased C.begins C.follows result }
    {
        let NamedStrong { strong, names: _ } = self;
        strong.release()
    }

    /// Another owner of the version, for a grant of the reader. [`Spent`] where it has none left. It waits for nobody.
    pub fn clone_strong(
        &mut self,
        reader: &mut NamedReader<T, N>,
    ) -> Result<NamedStrong<'a, T, C, N>, Spent>
        ensures same { self.new ≡ self.old }
        ensures cloned { IfOk result (λ strong. (strong ≡ self.old) × (reader.new ≡ record reader.old { left = reader.old.left - 1 }) × (0 < reader.old.left)) }
        ensures spent { IfErr result (λ _. (reader.old.left ≡ 0) × (reader.new ≡ reader.old)) }
    {
        Ok(NamedStrong::of(reader.reader.clone_of(&mut self.strong)?))
    }

    /// As [`Reader::alive`](crate::Reader::alive).
    pub fn alive(&mut self, reader: &mut NamedReader<T, N>)
        ensures same { (self.new ≡ self.old) × (reader.new ≡ reader.old) }
        ensures alive { Contains reader.old.gone self.old.number → ⊥ }
    {
        reader.reader.alive(&mut self.strong);
    }
}

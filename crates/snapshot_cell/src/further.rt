//! Further owners of a cell's versions: clones of owners, weak owners, and their upgrades; and whether an owner's version is there.
ghost use Rattle.std.specs.Prelude.{◌≡◌, ◌<◌, ◌-◌, Contains, IfOk, IfErr, IfSome};
ghost use Rattle.std.specs.Option.{option_map};
ghost use Rattle.cell_core.specs.Words.{notes};
ghost use Rattle.counted_handles.specs.Lapses.{IsLapsed};
ghost use Rattle.snapshot_cell.specs.Tokens.{IsUpgraded, noted_next};

use crate::fault::Spent;
use crate::named::{NamedPublisher, NamedReader, Naming};
use crate::named_owner::NamedStrong;
use crate::tokens::{Publisher, Reader};
use cell_core::NOTES;
use counted_handles::{Lapsed, Names, Strong, Sunk, Weak};
use std::marker::{Model, PhantomData};

/// A weak owner of a version of the cell of this name: it lets the version go, and can tell later whether it has gone. Contracts see the
/// version.
#[derive(Drop)]
pub struct NamedWeak<'a, T: Drop, C: Names<T>, N: Naming> {
    weak: Weak<'a, T, C>,
    names: PhantomData<N>,
}

impl<'a, T: Drop, C: Names<T>, N: Naming> Model for NamedWeak<'a, T, C, N> {
    ghost use Rattle.std.specs.Prelude.{◌≡◌};
    ghost use Rattle.cell_core.specs.declared.words.Version.{Version};

    ghost Value = { Version T };

    ghost view = { λ a. a.weak.version };

    ghost invariant = { λ a. a.weak.table ≡ N.cell };
}

impl<T: Drop> Reader<T> {
    /// Another owner of an owner's version, for a grant. [`Spent`] where the reader has none left. It waits for nobody.
    pub fn clone_of<'a, C: Names<T>>(
        &mut self,
        strong: &mut Strong<'a, T, C>,
    ) -> Result<Strong<'a, T, C>, Spent>
        requires { self.old.cell ≡ strong.old.table }
        ensures same { strong.new ≡ strong.old }
        ensures cloned { IfOk result (λ another. (another ≡ strong.old) × (self.new ≡ record self.old { left = self.old.left - 1 }) × (0 < self.old.left)) }
        ensures spent { IfErr result (λ _. (self.old.left ≡ 0) × (self.new ≡ self.old)) }
    {
        if self.left == 0 {
            return Err(Spent);
        }
        self.left -= 1;
        Ok(strong.clone_strong(&mut self.badge))
    }

    /// An owner of a weak owner's very version, for a grant; or None, and then the version is buried, which the reader has then seen.
    /// [`Spent`] where it has no grant left. It waits for nobody.
    pub fn upgrade<'a, C: Names<T>>(
        &mut self,
        weak: &mut Weak<'a, T, C>,
    ) -> Result<Option<Strong<'a, T, C>>, Spent>
        requires { weak.old.table ≡ self.old.cell }
        ensures same { weak.new ≡ weak.old }
        ensures upgraded { IfOk result (λ found. IsUpgraded self.old self.new weak.old.version (option_map (λ s. s.version) found) × (0 < self.old.left)) }
        ensures table { IfOk result (λ found. IfSome found (λ s. s.table ≡ self.old.cell)) }
        ensures spent { IfErr result (λ _. (self.old.left ≡ 0) × (self.new ≡ self.old)) }
    {
        if self.left == 0 {
            return Err(Spent);
        }
        match weak.upgrade(&mut self.badge) {
            Ok(strong) => {
                self.left -= 1;
                Ok(Some(strong))
            }
            Err(Sunk { raised: true }) => {
                self.left -= 1;
                Ok(None)
            }
            Err(Sunk { raised: false }) => Ok(None),
        }
    }

    /// Looks whether an owner's version is there still, and it is: its number isn't one of those that the reader has seen buried. It costs
    /// no grant and waits for nobody.
    pub fn alive<'a, C: Names<T>>(&mut self, strong: &mut Strong<'a, T, C>)
        requires { self.old.cell ≡ strong.old.table }
        ensures same { (strong.new ≡ strong.old) × (self.new ≡ self.old) }
        ensures alive { Contains self.old.gone strong.old.version.number → ⊥ }
    {
        strong.alive(&mut self.badge);
    }
}

impl<T: Drop, C: Names<T>> Publisher<T, C> {
    /// A weak owner of an owner's version, which the publisher counts. [`Spent`] where it can give none more. It waits for nobody.
    pub fn downgrade<'a>(&mut self, strong: &mut Strong<'a, T, C>) -> Result<Weak<'a, T, C>, Spent>
        requires { self.old.cell ≡ strong.old.table }
        ensures same { strong.new ≡ strong.old }
        ensures weak { IfOk result (λ weak. weak ≡ strong.old) }
        ensures noted { IfOk result (λ _. (self.new ≡ noted_next self.old) × (self.old.noted < notes)) }
        ensures spent { IfErr result (λ _. (self.old.noted ≡ notes) × (self.new ≡ self.old)) }
    {
        if self.noted == NOTES {
            return Err(Spent);
        }
        self.noted += 1;
        Ok(strong.downgrade(&mut self.badge))
    }
}

impl<T: Drop, C: Names<T>, N: Naming> NamedPublisher<T, C, N> {
    /// As [`Publisher::downgrade`].
    pub fn downgrade<'a>(
        &mut self,
        strong: &mut NamedStrong<'a, T, C, N>,
    ) -> Result<NamedWeak<'a, T, C, N>, Spent>
        ensures same { strong.new ≡ strong.old }
        ensures weak { IfOk result (λ weak. weak ≡ strong.old) }
        ensures noted { IfOk result (λ _. (self.new ≡ noted_next self.old) × (self.old.noted < notes)) }
        ensures spent { IfErr result (λ _. (self.old.noted ≡ notes) × (self.new ≡ self.old)) }
    {
        Ok(NamedWeak::of(self.publisher.downgrade(&mut strong.strong)?))
    }
}

impl<'a, T: Drop, C: Names<T>, N: Naming> NamedWeak<'a, T, C, N> {
    /// The weak owner of a version of a cell of this name.
    pub fn of(weak: Weak<'a, T, C>) -> NamedWeak<'a, T, C, N>
        requires { weak.table ≡ N.cell }
        ensures { result ≡ weak.entry.version }
    {
        NamedWeak {
            weak,
            names: PhantomData,
        }
    }

    /// The version's number.
    pub fn number(&self) -> u64
        ensures { result ≡ self.now.number }
    {
        self.weak.number()
    }

    /// As [`Reader::upgrade`].
    pub fn upgrade(
        &mut self,
        reader: &mut NamedReader<T, N>,
    ) -> Result<Option<NamedStrong<'a, T, C, N>>, Spent>
        ensures same { self.new ≡ self.old }
        ensures upgraded { IfOk result (λ found. IsUpgraded reader.old reader.new self.old found × (0 < reader.old.left)) }
        ensures spent { IfErr result (λ _. (reader.old.left ≡ 0) × (reader.new ≡ reader.old)) }
    {
        match reader.reader.upgrade(&mut self.weak)? {
            Some(strong) => Ok(Some(NamedStrong::of(strong))),
            None => Ok(None),
        }
    }

    /// Gives the weak owner up, as [`Weak::release`].
    pub fn release(self) -> Lapsed
        ensures { IsLapsed result }
    {
        let NamedWeak { weak, names: _ } = self;
        weak.release()
    }
}

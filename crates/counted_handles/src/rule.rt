//! The rule of the table.
use crate::names::Names;
use crate::view::View;
use atomic_table::TableRule;
use cell_core::Version;
use raw_slots::{Place, Spot};
use std::marker::PhantomData;
use std::snapshot::Snapshot;

/// The place of a slot.
pub type Room<T> = Place<Option<Version<T>>, View<T>>;

/// What the table is told when it is made: where the places lie, and the first value.
#[derive(Drop)]
pub struct Spots<T> {
    /// Where the places lie, one a slot.
    pub places: Vec<Spot<Option<Version<T>>>>,
    /// The first value.
    pub first: Snapshot<T>,
}

/// The rule: what the words show is a cell whose values are a history, and each seat has the rights that its view says.
pub struct Rule<C> {
    names: PhantomData<C>,
}

impl<T, C: Names<T>> TableRule<Room<T>, View<T>, Spots<T>> for Rule<C> {
    ghost use Rattle.counted_handles.specs.Ruled.{Ruled};
    ghost use Rattle.counted_handles.specs.declared.view.View.TheVariants.{Begin};

    ghost holds = { λ key table. Ruled C.begins C.follows key.places.items table };

    ghost first = { λ key. Begin key.first.value };
}

//! What a seat at the table knows. No value of these types is made.
use cell_core::{Publisher, Version};
use raw_slots::Spot;
use std::collections::LinkedList;

/// A share of a version: who has it may read the version.
pub struct Mark<T> {
    /// The version's number.
    pub number: u64,
    /// Its slot.
    pub slot: usize,
    /// Its value.
    pub value: T,
    /// The name of the views.
    pub name: u64,
    /// The lifetime for which the slot's place is shared.
    pub life: u64,
    /// The tally of the slot's place.
    pub tally: u64,
}

/// What a weak owner knows of its version, which may be buried.
pub struct Tie<T> {
    /// The version's number.
    pub number: u64,
    /// Its slot.
    pub slot: usize,
    /// Its value.
    pub value: T,
    /// The name of the views.
    pub name: u64,
}

/// What a seat has of a version, for itself or of an owner that it has taken in.
pub enum Hold<T> {
    /// A share.
    Once(Mark<T>),
    /// Two shares.
    Double(Mark<T>),
    /// The version, weakly; and whether a look at S, which no raise has followed, has found it there.
    Loose(Tie<T>, bool),
    /// A share, and the version weakly.
    Mixed(Mark<T>, Tie<T>),
}

/// What a reader knows.
pub struct Reading<T> {
    /// The values that it has seen published, the first one first.
    pub seen: LinkedList<T>,
    /// A share that isn't split off yet.
    pub share: Option<Mark<T>>,
    /// So many grants are left.
    pub left: u64,
    /// Numbers that it has seen buried.
    pub gone: LinkedList<u64>,
    /// The name of the views.
    pub name: u64,
}

/// What the publisher knows.
pub struct Publishing<T> {
    /// The values that are published, the first one first.
    pub published: LinkedList<T>,
    /// How far its publication has come.
    pub how: Publisher,
    /// The value that its publication is of, from prepare to swap.
    pub next: Option<T>,
    /// What it has of a version, and isn't split off yet.
    pub share: Option<Hold<T>>,
    /// So many grants are left.
    pub left: u64,
    /// So many weak owners were made.
    pub noted: u64,
    /// So many readers are about.
    pub readers: u64,
    /// The word W, where it was seen and nobody can change it.
    pub fixed: Option<u64>,
    /// So many slots, from the first one on, were seen free since then, beside the one in W.
    pub swept: u64,
    /// Whether a load since then has shown that somebody has a version.
    pub busy: bool,
    /// Slots that it has seen free, and hasn't taken since: nobody else takes one.
    pub found: LinkedList<usize>,
    /// The readers that it has taken in and is to give back, the last one first.
    pub guests: LinkedList<Reading<T>>,
    /// The name of the views.
    pub name: u64,
    /// Where the place lies that it has taken.
    pub spot: Spot<Option<Version<T>>>,
}

/// What a seat knows.
pub enum View<T> {
    /// The first seat, before anything is published: the first value.
    Begin(T),
    /// The first seat, which has taken the first slot's place: where it lies.
    Began(Spot<Option<Version<T>>>),
    /// The publisher, which has the first seat.
    Publishes(Publishing<T>),
    /// A reader.
    Reads(Reading<T>),
    /// A reader that has taken an owner in, weak or strong, and what this has.
    Hosts(Reading<T>, Hold<T>),
    /// An owner.
    Has(Mark<T>),
    /// A weak owner.
    HasWeakly(Tie<T>),
    /// An owner that has given its share back, and S was then 0: a slot, and the name of the views.
    Buries(usize, u64),
    /// An owner whose bury has won, and that is to fade: a slot, and where its place lies.
    Fades(usize, Spot<Option<Version<T>>>),
    /// An owner that has brought K to 0: a slot.
    Resets(usize),
    /// An owner that has set K to 1: a slot.
    Frees(usize),
    /// The first seat, at the cell's end, which has taken the last version's place: its slot, and where the place lies.
    Ends(usize, Spot<Option<Version<T>>>),
    /// A seat that is spent.
    Gone,
}

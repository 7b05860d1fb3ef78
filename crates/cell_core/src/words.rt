//! What the word machine keeps, its steps and what they tell.

/// How many slots there are.
pub const SLOTS: usize = 64;

/// At most so many shares are given out of the word W in all.
pub const GRANTS: u64 = 1 << 46;

/// At most so many weak owners are made in all.
pub const NOTES: u64 = 1 << 32;

/// What a slot's number counts for in W: `slot * SPAN + given`.
pub(crate) const SPAN: u64 = 1 << 48;

/// S of a slot that is free.
pub(crate) const FREE: u64 = (1 << 63) - 1;

/// S of a slot whose version is buried; raises that come too late add to it.
pub(crate) const DEAD: u64 = 1 << 63;

/// The shares that the cell has of the version in W, before it gives any of them out.
pub(crate) const BULK: u64 = 1 << 62;

/// A value that is published, or is about to be, with its number.
#[derive(Drop)]
pub struct Version<T> {
    /// How many values were published before it.
    pub number: u64,
    /// The value.
    pub value: T,
}

/// A slot: its two words, and the version that lies in it.
#[derive(Drop)]
pub struct Slot<T> {
    /// The word S: the shares that are out, `FREE`, or `DEAD` and more.
    pub shares: u64,
    /// The word K: weak owners, plus 1 until who buried the version has faded, and from the reset on.
    pub weak: u64,
    /// The version, from prepare to bury.
    pub version: Option<Version<T>>,
}

/// How far a publication has come.
#[derive(Clone, Copy)]
pub enum Publisher {
    /// So many slots were seen that aren't free; with 0 no publication is under way.
    Probing(usize),
    /// This slot is taken: the version is to be put into it.
    Preparing(usize),
    /// The version lies in this slot: it is to be published.
    Swapping(usize),
    /// The version is published. The publisher owns the one before it, with the shares that weren't given out of W: all of
    /// them but one are to be given back.
    Settling {
        /// The number of the version before.
        number: u64,
        /// Its slot.
        slot: usize,
        /// How many of its shares were given out of W.
        given: u64,
    },
}

/// How far an owner has come.
#[derive(Clone, Copy)]
pub enum Owner {
    /// It owns a version.
    Holding {
        /// The version's number.
        number: u64,
        /// Its slot.
        slot: usize,
    },
    /// It owns a version twice: one of its shares is to be another owner's. No step of the machine makes it, since a raise
    /// gives its share to an owner of its own; a call on words that threads share has it between two acts.
    Twice {
        /// The version's number.
        number: u64,
        /// Its slot.
        slot: usize,
    },
    /// It owns a version weakly: the slot isn't used again while it is there, but the version may be buried.
    Weakly {
        /// The version's number.
        number: u64,
        /// Its slot.
        slot: usize,
    },
    /// It owns a version weakly, and has a share of it that is to be another owner's. No step of the machine makes it, as with
    /// `Twice`.
    Both {
        /// The version's number.
        number: u64,
        /// Its slot.
        slot: usize,
    },
    /// It has given its share back, and S was then 0: this slot is to be buried.
    Burying(usize),
    /// Its bury has won: it is to fade, as a weak owner of this slot's version does.
    Fading(usize),
    /// It has brought K to 0: this slot's K is to be set to 1.
    Resetting(usize),
    /// It has set K to 1: this slot is to be freed.
    Freeing(usize),
    /// It has made all its steps.
    Spent,
}

/// A step on one word. An owner is named by its place among all, from 0.
#[derive(Drop)]
pub enum WordStep<T> {
    /// One share more is given out of W.
    Load,
    /// The publisher looks whether the next slot is free, and takes it where it is.
    Probe,
    /// The publisher puts the value into the slot that it took, and its shares into S.
    Prepare(T),
    /// The publisher puts its slot into W.
    Swap,
    /// The publisher gives the shares back that weren't given out, but one.
    Settle,
    /// An owner gives its share back.
    Release(usize),
    /// An owner tries to bury what lies in the slot that it left without an owner.
    Bury(usize),
    /// The owner that has reset K gives the slot free.
    Free(usize),
    /// It is seen whether the version that an owner has, weakly or not, is buried.
    Look(usize),
    /// One share more of the version that an owner has, weakly or not, is given out, unless the version is buried.
    Raise(usize),
    /// The publisher makes a weak owner of the version that an owner has.
    Note(usize),
    /// A weak owner is one no more; or the owner whose bury won fades.
    Fade(usize),
    /// The owner that has brought K to 0 sets it to 1.
    Reset(usize),
}

/// What a step on a word gave.
#[derive(Clone, Copy, Debug, PartialEq, Eq)]
pub enum WordEvent {
    /// An owner, and the number that it has: that of the version in W.
    Loaded {
        /// The new owner.
        owner: usize,
        /// Its number.
        number: u64,
    },
    /// The slot isn't free, and the next one is due.
    Passed,
    /// The slot was free, and is the publisher's.
    Taken,
    /// None of the slots is free: the publication ends.
    NoSlot,
    /// The version lies in the slot.
    Prepared,
    /// The version is published. The number is that of the one before, which the publisher owns.
    Swapped(u64),
    /// The publication ends with an owner of the version before.
    Settled {
        /// The new owner.
        owner: usize,
        /// Its number.
        number: u64,
    },
    /// Shares of the version are out, or it is in W: the release ends.
    Left,
    /// No share is out: a bury is due.
    Emptied,
    /// The version with this number is buried, and a fade is due.
    Buried(u64),
    /// The slot had been used again, or another bury won: the release ends.
    Kept,
    /// The slot is free: the release ends.
    Freed,
    /// The version isn't buried.
    Alive,
    /// The version is buried, and no share of it is given out.
    Dead,
    /// A share more is out, and is a new owner's.
    Raised {
        /// The new owner.
        owner: usize,
        /// Its number.
        number: u64,
    },
    /// A weak owner more.
    Noted {
        /// The new weak owner.
        owner: usize,
        /// Its number.
        number: u64,
    },
    /// Others are still to fade: the release ends.
    Faded,
    /// Nobody else is to fade: a reset is due.
    Closed,
    /// K is 1: a free is due.
    Restored,
}

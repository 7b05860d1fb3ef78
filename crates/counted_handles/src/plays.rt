//! The steps by name: what each tells, and how seats are cut and made one.
ghost use Rattle.counted_handles.specs.Plays.{LoadTells, NewestTells, GreetTells, ReleaseTells, BuryTells, FadeTells, ResetTells, FreeTells, NoteTells, RaiseTells, SeeTells, ProbeTells, ScanTells, PrepareTells, SwapTells, SettleTells, LookTells, SweepTells, SkipTells, EndTells, ShutTells, OpenTells, OfferTells};
ghost use Rattle.counted_handles.specs.Tells.{IsClaimed};
ghost use Rattle.counted_handles.specs.Cuts.{kept_share, given_share, kept_back, handed_back, kept_dealt, dealt, lodging, kept_met, handed_met, kept_home, sent_home, hosting, kept_gain, given_gain, kept_reader, given_owner, sharing, kept_untied, given_tie};
ghost use Rattle.counted_handles.specs.declared.view.View.TheVariants.{Has, Gone};
ghost use Rattle.counted_handles.specs.Ruled.{mark_of};

use crate::names::Names;
use crate::rule::Room;
use crate::view::View;
use atomic_table::{Join, Play, Split};
use cell_core::Version;
use raw_slots::{Keys, Tells};
use std::marker::{Brand, PhantomData};
use std::snapshot::Snapshot;

/// A reader's load of W.
pub struct Loads<C> {
    names: PhantomData<C>,
}

impl<T, C: Names<T>> Play<Room<T>, View<T>> for Loads<C> {
    ghost then = { λ _ me found new. LoadTells C.begins C.follows me.0 found new };
}

/// The publisher's load of W.
pub struct Newests<C> {
    names: PhantomData<C>,
}

impl<T, C: Names<T>> Play<Room<T>, View<T>> for Newests<C> {
    ghost then = { λ _ me found new. NewestTells C.begins C.follows me.0 found new };
}

/// The publisher's look at W for the readers that it has taken in.
pub struct Greets;

impl<T> Play<Room<T>, View<T>> for Greets {
    ghost then = { λ _ me _ new. GreetTells me.0 new };
}

/// A release.
pub struct Releases;

impl<T> Play<Room<T>, View<T>> for Releases {
    ghost then = { λ _ me found new. ReleaseTells me.0 found new };
}

/// A bury.
pub struct Buries<C> {
    names: PhantomData<C>,
}

impl<T, C: Names<T>> Play<Room<T>, View<T>> for Buries<C> {
    ghost then = { λ _ me found new. BuryTells C.begins C.follows me.0 found new };
}

/// A fade of who buried a version.
pub struct Fades;

impl<T> Play<Room<T>, View<T>> for Fades {
    ghost then = { λ _ me found new. FadeTells me.0 found new };
}

/// A reset.
pub struct Resets;

impl<T> Play<Room<T>, View<T>> for Resets {
    ghost then = { λ _ me _ new. ResetTells me.0 new };
}

/// A free.
pub struct Frees;

impl<T> Play<Room<T>, View<T>> for Frees {
    ghost then = { λ _ me _ new. FreeTells me.0 new };
}

/// A probe.
pub struct Probes;

impl<T> Play<Room<T>, View<T>> for Probes {
    ghost then = { λ _ me found new. ProbeTells me.0 found new };
}

/// A scan.
pub struct Scans;

impl<T> Play<Room<T>, View<T>> for Scans {
    ghost then = { λ _ me found new. ScanTells me.0 found new };
}

/// A prepare.
pub struct Prepares;

impl<T> Play<Room<T>, View<T>> for Prepares {
    ghost then = { λ _ me _ new. PrepareTells me new };
}

/// A swap.
pub struct Swaps;

impl<T> Play<Room<T>, View<T>> for Swaps {
    ghost then = { λ _ me found new. SwapTells me.0 found new };
}

/// A settle.
pub struct Settles;

impl<T> Play<Room<T>, View<T>> for Settles {
    ghost then = { λ _ me _ new. SettleTells me.0 new };
}

/// The publisher's look at W.
pub struct Looks;

impl<T> Play<Room<T>, View<T>> for Looks {
    ghost then = { λ _ me found new. LookTells me.0 found new };
}

/// A look at S of the next slot while no reader is about.
pub struct Sweeps;

impl<T> Play<Room<T>, View<T>> for Sweeps {
    ghost then = { λ _ me found new. SweepTells me.0 found new };
}

/// A look at K of the slot in W, likewise.
pub struct Skips;

impl<T> Play<Room<T>, View<T>> for Skips {
    ghost then = { λ _ me found new. SkipTells me.0 found new };
}

/// The look at S of the slot in W that ends the cell.
pub struct Ends;

impl<T> Play<Room<T>, View<T>> for Ends {
    ghost then = { λ _ me found new. EndTells me.0 found new };
}

/// The look after it, which gives the last version's place back.
pub struct Shuts;

impl<T> Play<Room<T>, View<T>> for Shuts {
    ghost then = { λ _ me _ new. ShutTells me.0 new };
}

/// The first look at W, which takes the first slot's place.
pub struct Opens;

impl<T> Play<Room<T>, View<T>> for Opens {
    ghost then = { λ _ me _ new. OpenTells me.0 new };
}

/// The second look at W, which gives it back.
pub struct Offers;

impl<T> Play<Room<T>, View<T>> for Offers {
    ghost then = { λ _ me _ new. OfferTells me new };
}

/// A share goes to a seat of its own.
pub struct Shares;

impl<T> Split<View<T>> for Shares {
    ghost left = { kept_share };

    ghost right = { given_share };
}

/// The publisher gives all its grants to a reader.
pub struct Rests;

impl<T> Split<View<T>> for Rests {
    ghost left = { kept_back };

    ghost right = { handed_back };
}

/// How many grants a reader is dealt.
pub trait GrantCount {
    ghost use Rattle.std.specs.Prelude.{ℕ};

    /// The grants.
    ghost grants: { ℕ };
}

impl GrantCount for Brand {
    ghost grants = { 0 };
}

/// The publisher gives a reader of a new cell its grants.
pub struct Deals<H: GrantCount> {
    count: PhantomData<H>,
}

impl<T, H: GrantCount> Split<View<T>> for Deals<H> {
    ghost left = { kept_dealt H.grants };

    ghost right = { dealt H.grants };
}

/// The publisher takes a reader in that it is to give back.
pub struct Lodges;

impl<T> Join<View<T>> for Lodges {
    ghost both = { lodging };

    ghost spent = { Gone };
}

/// The publisher gives the reader back that it took in last.
pub struct Returns;

impl<T> Split<View<T>> for Returns {
    ghost left = { kept_home };

    ghost right = { sent_home };
}

/// The publisher gives the reader back that it took in last, with all its grants and all that is published.
pub struct Meets;

impl<T> Split<View<T>> for Meets {
    ghost left = { kept_met };

    ghost right = { handed_met };
}

/// The publisher's note of the version that it has a share of.
pub struct Notes;

impl<T> Play<Room<T>, View<T>> for Notes {
    ghost then = { λ _ me _ new. NoteTells me.0 new };
}

/// A raise of what a reader has taken in.
pub struct Raises;

impl<T> Play<Room<T>, View<T>> for Raises {
    ghost then = { λ _ me found new. RaiseTells me.0 found new };
}

/// A look at S of what a reader has taken in.
pub struct Sees;

impl<T> Play<Room<T>, View<T>> for Sees {
    ghost then = { λ _ me found new. SeeTells me.0 found new };
}

/// A reader takes an owner in, weak or strong.
pub struct Receives;

impl<T> Join<View<T>> for Receives {
    ghost both = { hosting };

    ghost spent = { Gone };
}

/// What it has gained of it goes to a seat of its own.
pub struct Gains;

impl<T> Split<View<T>> for Gains {
    ghost left = { kept_gain };

    ghost right = { given_gain };
}

/// And the owner that it took in.
pub struct Departs;

impl<T> Split<View<T>> for Departs {
    ghost left = { kept_reader };

    ghost right = { given_owner };
}

/// The publisher takes an owner in.
pub struct Borrows;

impl<T> Join<View<T>> for Borrows {
    ghost both = { sharing };

    ghost spent = { Gone };
}

/// What the publisher has weakly goes to a seat of its own.
pub struct Unties;

impl<T> Split<View<T>> for Unties {
    ghost left = { kept_untied };

    ghost right = { given_tie };
}

/// A claim.
pub struct Claims;

impl<T> Tells<Option<Version<T>>, View<T>> for Claims {
    ghost tells = { IsClaimed };
}

/// What is told of a version when its place is shared.
#[derive(Drop)]
pub struct About<T> {
    pub slot: usize,
    pub version: Snapshot<Version<T>>,
}

/// A place that is shared for the version in a slot.
pub struct Puts;

impl<T> Keys<View<T>, About<T>> for Puts {
    ghost key = { λ about name life tally. Has (mark_of name about.slot about.version.value life tally) };
}

//! What is told to the asker of an IXFR of the versions that are kept: those after the one that it holds, where that is in the
//! window (RFC 1995, 5; own).
ghost use Rattle.std.specs.Prelude.{◌≡◌, ◌≤◌, ◌^◌, ◌++◌, [], ◌∷◌, List, length, take, drop, nat_lt, unwrap_or, is_some, Some, IfSome};
ghost use Rattle.std.specs.List.{slice_get};
ghost use Rattle.std.specs.Option.{option_map, option_and_then};
ghost use Rattle.dns_rdata.specs.Record.{Record};
ghost use Rattle.zone_tree.specs.Version.{Version as Numbered};
ghost use Rattle.zone_tree.specs.Zone.{soa_of};
ghost use Rattle.transfer_core.specs.Chain.{zones_of, reported, told_changes};
ghost use Rattle.transfer_core.specs.Lists.{newest};
ghost use Rattle.transfer_core.specs.Window.{span, fits, serials_of, AreKept, serial_before, is_held_before, kept_since, kept_for, changes_since};

use crate::chain::{ChainView, VersionList, VersionsLeft};
use dns_rdata::Serial;
use zone_tree::{Version, serial_in};

/// How many versions the window has of those whose changes are told (own).
pub const WINDOW: usize = 16;

/// How many older versions are kept beside the newest, at most (own).
pub const KEPT: usize = 8;

/// The window has 16 versions, and beside the newest 8 older ones are kept at most (own).
pub fn sizes_of_what_is_kept()
    ensures window { WINDOW ≡ 16 }
    ensures kept { KEPT ≡ 8 }
{}

/// Which of the versions that are kept are told of (RFC 1995, 5; own).
#[derive(Clone, Copy)]
pub struct Reach {
    /// How many of them, the oldest first, are those up to the served one.
    pub upto: usize,
    /// How many versions the window has.
    pub window: usize,
}

/// The versions of a list after the one that the asker of an IXFR holds, or that they aren't all there.
pub struct KeptChain<'a, K: VersionList> {
    kept: &'a K,
    whole: bool,
    from: usize,
    upto: usize,
    ghost ordered: { from ≤ upto },
    ghost within: { upto ≤ length (K.versions kept.now) },
}

impl<'a, K: VersionList> Drop for KeptChain<'a, K> {
    fn drop(self) {
        let KeptChain {
            kept: _,
            whole: _,
            from: _,
            upto: _,
        } = self;
    }
}

impl<'a, K: VersionList> VersionList for KeptChain<'a, K> {
    ghost versions = { λ chain. drop chain.from (take chain.upto (K.versions chain.kept.now)) };

    fn len(&self) -> usize {
        self.upto - self.from
    }

    fn version(&self, at: usize) -> Option<&Version> {
        if at < self.upto - self.from {
            self.kept.version(self.from + at)
        } else {
            None
        }
    }
}

impl<'a, K: VersionList> ChainView for KeptChain<'a, K> {
    ghost whole = { λ chain. chain.whole };

    fn is_whole(&self) -> bool {
        self.whole
    }
}

/// The versions after the one of the serial that an asker holds, up to the served one, of those that are kept, which are the newest
/// ones. Whole where the asker tells a serial (RFC 1995, 3), its version is in the window, and each after it is kept; the asker's
/// own needn't be: the next one knows the old SOA (RFC 1995, 4 and 5; own).
pub fn chain_since<'a, K: VersionList>(
    kept: &'a K,
    reach: Reach,
    held: Option<Serial>,
) -> KeptChain<'a, K>
    requires { reach.upto ≤ length (K.versions kept.now) }
    ensures whole { result.whole ≡ is_some (kept_for reach.window reach.upto (K.versions kept.now) held) }
    ensures versions { ⟦<KeptChain<'a, K> as VersionList>⟧.versions result ≡ unwrap_or (kept_for reach.window reach.upto (K.versions kept.now) held) [] }
    ensures reported { (soa : List Record) → told_changes result.whole soa (⟦<KeptChain<'a, K> as VersionList>⟧.versions result)
        ≡ option_map (reported soa) (kept_for reach.window reach.upto (K.versions kept.now) held) }
    ensures changes { (older : List (List Record)) → AreKept older (K.versions kept.now)
        → told_changes result.whole (soa_of (newest [] (zones_of (take reach.upto (K.versions kept.now))))) (⟦<KeptChain<'a, K> as VersionList>⟧.versions result)
        ≡ option_and_then (λ serial. changes_since reach.window (zones_of (drop reach.upto (K.versions kept.now))) reach.upto serial.0 (older ++ zones_of (take reach.upto (K.versions kept.now)))) held }
{
    let Some(from) = place_for(kept, reach, held) else {
        return KeptChain {
            kept,
            whole: false,
            from: reach.upto,
            upto: reach.upto,
        };
    };
    KeptChain {
        kept,
        whole: true,
        from,
        upto: reach.upto,
    }
}

/// The place of the version after the one that an asker holds, where it tells a serial.
fn place_for<K: VersionList>(kept: &K, reach: Reach, held: Option<Serial>) -> Option<usize>
    requires { reach.upto ≤ length (K.versions kept.now) }
    ensures place { option_map (λ at. drop at (take reach.upto (K.versions kept.now))) result ≡ kept_for reach.window reach.upto (K.versions kept.now) held }
    ensures within { IfSome result (λ at. at ≤ reach.upto) }
{
    match held {
        Some(serial) => place_since(kept, reach, serial),
        None => None,
    }
}

/// The place of the version after the one of a serial, of those up to the served one; the newest.
fn place_since<K: VersionList>(kept: &K, reach: Reach, serial: Serial) -> Option<usize>
    requires { reach.upto ≤ length (K.versions kept.now) }
    ensures place { option_map (λ at. drop at (take reach.upto (K.versions kept.now))) result ≡ kept_since reach.window (drop reach.upto (K.versions kept.now)) serial.0 (take reach.upto (K.versions kept.now)) }
    ensures within { IfSome result (λ at. at ≤ reach.upto) }
{
    let mut place = None;
    for at in 0..reach.upto {
        if is_held_before(kept, at, serial, reach.window) {
            place = Some(at);
        }
    }
    place
}

/// Whether the version before the one at a place has a serial, and is in the window.
fn is_held_before<K: VersionList>(kept: &K, at: usize, serial: Serial, window: usize) -> bool
    ensures { (v : Numbered) → slice_get (K.versions kept.now) at ≡ Some v → result ≡ is_held_before window serial.0 (zones_of (drop at (K.versions kept.now))) (serial_before v.changes) }
{
    let Some(version) = kept.version(at) else {
        return false;
    };
    let Some(delta) = version.delta() else {
        return false;
    };
    let before = serial_in(delta.old_soa());
    before == serial && fits(kept, at, before, window)
}

/// Whether a version of a serial and those from a place on fit a window.
fn fits<K: VersionList>(kept: &K, at: usize, before: Serial, window: usize) -> bool
    requires { at ≤ length (K.versions kept.now) }
    ensures { result ≡ fits window (before.0 ∷ serials_of (zones_of (drop at (K.versions kept.now)))) }
{
    kept.len() - at < window && spans_less_than_half(kept, at, before)
}

/// Whether it is less than half the ring from a serial through those of the versions from a place on.
fn spans_less_than_half<K: VersionList>(kept: &K, at: usize, before: Serial) -> bool
    ensures { result ≡ nat_lt (span before.0 (serials_of (zones_of (drop at (K.versions kept.now))))) (2 ^ 31) }
{
    let mut left = VersionsLeft::new(kept, at);
    let mut last = before;
    let mut sum = 0u64;
    while let Some(version) = left.next_version() {
        sum += u64::from(last.distance(version.serial()));
        if sum >= u64::from(Serial::HALF_RING) {
            return false;
        }
        last = version.serial();
    }
    true
}

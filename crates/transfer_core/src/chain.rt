//! The versions after the one that the asker of an IXFR holds (RFC 1995, 4).
ghost use Rattle.std.specs.Prelude.{◌≡◌, Bool, List, [], ◌∷◌, length, drop, MatchOption};
ghost use Rattle.std.specs.List.{slice_get};
ghost use Rattle.std.specs.Option.{option_copied};
ghost use Rattle.zone_tree.specs.Version.{Version as Numbered};

use std::marker::Model;
use zone_tree::Version;

/// Versions of a zone, one after another in ascending order, wherever their owners are. Contracts see the list of them.
pub trait VersionList {
    ghost versions: { Self → List Numbered };

    /// How many versions there are.
    fn len(&self) -> usize
        ensures { result ≡ length (versions self.now) };

    /// The version at a place, counted from 0, the oldest; None where there are no more.
    fn version(&self, at: usize) -> Option<&Version>
        ensures { option_copied result ≡ slice_get (versions self.now) at };
}

impl VersionList for Vec<Version> {
    ghost versions = { λ list. list.items };

    fn len(&self) -> usize {
        Vec::len(self)
    }

    fn version(&self, at: usize) -> Option<&Version> {
        self.get(at)
    }
}

/// The versions after the one that the asker of an IXFR holds, up to the one that is served; or that they aren't all there.
/// Contracts see whether they are, and the list of them.
pub trait ChainView: VersionList {
    ghost whole: { Self → Bool };

    /// Whether each version after the one that the asker holds is there.
    fn is_whole(&self) -> bool
        ensures { result ≡ whole self.now };
}

/// The versions of a list that are left.
pub(crate) struct VersionsLeft<'a, L: VersionList> {
    list: &'a L,
    at: usize,
}

impl<'a, L: VersionList> Model for VersionsLeft<'a, L> {
    ghost use Rattle.std.specs.Prelude.{List, drop};
    ghost use Rattle.zone_tree.specs.Version.{Version as Numbered};

    ghost Value = { List Numbered };

    ghost view = { λ left. drop left.at (L.versions left.list.now) };
}

impl<'a, L: VersionList> Drop for VersionsLeft<'a, L> {
    fn drop(self) {
        let VersionsLeft { list: _, at: _ } = self;
    }
}

impl<'a, L: VersionList> VersionsLeft<'a, L> {
    /// Those of a list from a place on.
    pub(crate) fn new(list: &'a L, at: usize) -> VersionsLeft<'a, L>
        ensures { result ≡ drop at (L.versions list.now) }
    {
        VersionsLeft { list, at }
    }

    /// The next version.
    pub(crate) fn next_version(&mut self) -> Option<&'a Version>
        ensures { MatchOption (option_copied result) ((self.old ≡ []) × (self.new ≡ [])) (λ version. self.old ≡ version ∷ self.new) }
    {
        if self.at >= self.list.len() {
            return None;
        }
        let version = self.list.version(self.at)?;
        self.at += 1;
        Some(version)
    }
}

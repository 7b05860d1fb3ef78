//! The labels of a name, from the leftmost on.
ghost use Rattle.std.specs.Prelude.{◌≡◌};
ghost use Rattle.std.specs.Iterator.{YieldsFirstRef, item_count};
ghost use Rattle.dns_name.specs.Labels.{labels_in, IsWhole};

use crate::octets::first_label;
use std::marker::Model;

/// The labels of a name that are left, the leftmost first, each as its octets. Contracts see the list of them.
#[derive(Drop)]
pub struct Labels<'a> {
    octets: &'a [u8],
}

impl<'a> Model for Labels<'a> {
    ghost use Rattle.std.specs.Prelude.{List, ℕ};
    ghost use Rattle.dns_name.specs.Labels.{labels_in, IsWhole};

    ghost Value = { List (List ℕ) };

    ghost view = { λ a. labels_in a.octets.now };

    ghost invariant = { λ a. IsWhole a.octets.now };
}

impl<'a> Labels<'a> {
    /// The labels in a name's octets.
    pub(crate) fn new(octets: &'a [u8]) -> Labels<'a>
        requires { IsWhole octets.now }
        ensures { result ≡ labels_in octets.now }
    {
        Labels { octets }
    }
}

impl<'a> Iterator for Labels<'a> {
    type Item = &'a [u8];

    ghost next_gives = { YieldsFirstRef (λ labels. labels) };

    ghost remaining = { item_count (λ labels. labels) };

    fn next(&mut self) -> Option<&'a [u8]> {
        let (label, behind) = first_label(self.octets)?;
        self.octets = behind;
        Some(label)
    }
}

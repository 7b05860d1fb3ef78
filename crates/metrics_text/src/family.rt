//! Families of samples.
ghost use Rattle.std.specs.Prelude.{◌≡◌, OnOk};

use crate::sample::Sample;
use std::alloc::{AllocError, Global};
use std::marker::Model;

/// What the numbers of a family are.
#[derive(Clone, Copy, Debug, PartialEq, Eq)]
pub enum Kind {
    /// How often something happened since the start: it never falls.
    Counter,
    /// How much there is now.
    Gauge,
    /// How many of what was measured lie below bounds.
    Histogram,
}

/// Samples of one name.
#[derive(Drop)]
pub struct Family {
    pub(crate) name: &'static str,
    pub(crate) help: &'static str,
    pub(crate) kind: Kind,
    pub(crate) samples: Vec<Sample>,
}

impl Model for Family {
    ghost use Rattle.metrics_text.specs.Families.{FamilyOf};

    ghost Value = { FamilyOf };

    ghost view = { λ f. record { name = f.name.now; help = f.help.now; kind = f.kind; samples = f.samples.items } };
}

impl Family {
    ghost use Rattle.metrics_text.specs.Families.{empty_family, with_sample};

    /// A family without samples.
    pub fn new(alloc: Global, name: &'static str, help: &'static str, kind: Kind) -> Family
        ensures { result ≡ empty_family name.now help.now kind }
    {
        Family {
            name,
            help,
            kind,
            samples: Vec::new(alloc),
        }
    }

    /// Puts a sample after the others. The fault is a growth that was refused.
    pub fn push(&mut self, sample: Sample) -> Result<(), AllocError>
        ensures { OnOk result (self.new ≡ with_sample self.old sample) }
    {
        self.samples.push(sample)?;
        Ok(())
    }
}

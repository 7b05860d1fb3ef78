//! Samples and their labels.
ghost use Rattle.std.specs.Prelude.{◌≡◌, ◌++◌, ◌∷◌, [], IfOk, OnOk};

use crate::number::Number;
use std::alloc::{AllocError, Global};
use std::marker::Model;

/// A label: its name, and its value, which may be any text.
#[derive(Drop)]
pub struct Label {
    pub(crate) name: &'static str,
    pub(crate) value: String,
}

impl Model for Label {
    ghost use Rattle.std.specs.Prelude.{string_bytes};
    ghost use Rattle.metrics_text.specs.Samples.{LabelOf};

    ghost Value = { LabelOf };

    ghost view = { λ l. record { name = l.name.now; value = string_bytes l.value } };
}

impl Label {
    /// A label. The fault is a request for memory that was refused.
    pub fn new(alloc: Global, name: &'static str, value: &str) -> Result<Label, AllocError>
        ensures name { IfOk result (λ label. label.name ≡ name.now) }
        ensures value { IfOk result (λ label. label.value ≡ value.now) }
    {
        let value = String::from_str(alloc, value)?;
        Ok(Label { name, value })
    }
}

/// A sample: labels and a number. What follows the family's name is empty but in histograms.
#[derive(Drop)]
pub struct Sample {
    pub(crate) suffix: &'static str,
    pub(crate) labels: Vec<Label>,
    pub(crate) number: Number,
}

impl Model for Sample {
    ghost use Rattle.metrics_text.specs.Samples.{SampleOf};

    ghost Value = { SampleOf };

    ghost view = { λ s. record { suffix = s.suffix.now; labels = s.labels.items; number = s.number } };
}

impl Sample {
    ghost use Rattle.metrics_text.specs.Samples.{plain_sample, labelled};

    /// A sample without labels.
    pub fn new(alloc: Global, number: Number) -> Sample
        ensures { result ≡ plain_sample number }
    {
        Sample {
            suffix: "",
            labels: Vec::new(alloc),
            number,
        }
    }

    /// Puts a label after the others. The fault is a growth that was refused; the sample is then as before.
    pub fn push_label(&mut self, label: Label) -> Result<(), AllocError>
        ensures { OnOk result (self.new ≡ labelled self.old label) }
    {
        self.labels.push(label)?;
        Ok(())
    }
}

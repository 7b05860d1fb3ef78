//! Samples with one label or none, and families of one sample.
ghost use Rattle.std.specs.Prelude.{◌≡◌, IfOk, OnOk};
ghost use Rattle.metrics_text.specs.Families.{empty_family, with_sample};
ghost use Rattle.metric_families.specs.Samples.{one_label, two_labels, whole_sample};

use metrics_text::{Family, Kind, Label, Number, Sample};
use std::alloc::{AllocError, Global};

/// A family of one sample without labels. The fault is a request for memory that was refused.
pub(crate) fn single(
    alloc: Global,
    name: &'static str,
    help: &'static str,
    kind: Kind,
    number: u64,
) -> Result<Family, AllocError>
    ensures { IfOk result (λ family. family ≡ with_sample (empty_family name.now help.now kind) (whole_sample number)) }
{
    let mut family = Family::new(alloc, name, help, kind);
    family.push(Sample::new(alloc, Number::Whole(number)))?;
    Ok(family)
}

/// A family with one sample more, which has one label. The fault is a request for memory that was refused.
pub(crate) fn labelled_single(
    family: Family,
    alloc: Global,
    label: &'static str,
    value: &str,
    number: u64,
) -> Result<Family, AllocError>
    ensures { IfOk result (λ more. more ≡ with_sample family (one_label label.now value.now number)) }
{
    let mut family = family;
    put_labelled(&mut family, alloc, label, value, number)?;
    Ok(family)
}

/// Puts a sample with one label after the others of a family. The fault is a request for memory that was refused.
pub(crate) fn put_labelled(
    family: &mut Family,
    alloc: Global,
    label: &'static str,
    value: &str,
    number: u64,
) -> Result<(), AllocError>
    ensures { OnOk result (family.new ≡ with_sample family.old (one_label label.now value.now number)) }
{
    let mut sample = Sample::new(alloc, Number::Whole(number));
    sample.push_label(Label::new(alloc, label, value)?)?;
    family.push(sample)
}

/// Puts a sample with two labels after the others of a family. The fault is a request for memory that was refused.
pub(crate) fn put_of_two(
    family: &mut Family,
    alloc: Global,
    first: (&'static str, &str),
    second: (&'static str, &str),
    number: u64,
) -> Result<(), AllocError>
    ensures { OnOk result (family.new ≡ with_sample family.old (two_labels first.entry.0.now first.entry.1.now second.entry.0.now second.entry.1.now number)) }
{
    let mut sample = Sample::new(alloc, Number::Whole(number));
    sample.push_label(Label::new(alloc, first.0, first.1)?)?;
    sample.push_label(Label::new(alloc, second.0, second.1)?)?;
    family.push(sample)
}

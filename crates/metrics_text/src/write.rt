//! The text of families.
ghost use Rattle.std.specs.Prelude.{◌≡◌, ◌++◌, ◌∷◌, [], OnOk, flat_map};
ghost use Rattle.metrics_text.specs.Exposition.{help_octet, value_octet, label_text, labels_text, after_comma, sample_line, help_line, type_line, family_text, kind_word, exposition};

use crate::family::{Family, Kind};
use crate::number::put_number;
use crate::sample::{Label, Sample};
use std::alloc::AllocError;

/// Puts the text of families at the end of another, in the exposition format, version 0.0.4. The fault is a growth that was refused; the
/// text then ends anywhere.
pub fn write_metrics(text: &mut Vec<u8>, families: &[Family]) -> Result<(), AllocError>
    ensures { OnOk result (text.new.items ≡ text.old.items ++ exposition families.now) }
{
    for family in families {
        put_family(text, family)?;
    }
    Ok(())
}

/// Puts a family's text at the end of another.
fn put_family(text: &mut Vec<u8>, family: &Family) -> Result<(), AllocError>
    ensures { OnOk result (text.new.items ≡ text.old.items ++ family_text family.now) }
{
    put_help_line(text, family.name, family.help)?;
    put_type_line(text, family.name, family.kind)?;
    put_samples(text, family.name, family.samples.as_slice())
}

/// Puts the line of what a family's samples say.
fn put_help_line(text: &mut Vec<u8>, name: &str, help: &str) -> Result<(), AllocError>
    ensures { OnOk result (text.new.items ≡ text.old.items ++ help_line name.now help.now) }
{
    put_text(text, "# HELP ")?;
    put_text(text, name)?;
    text.push(b' ')?;
    put_help(text, help.as_bytes())?;
    text.push(b'\n')?;
    Ok(())
}

/// Puts the line of a family's kind.
fn put_type_line(text: &mut Vec<u8>, name: &str, kind: Kind) -> Result<(), AllocError>
    ensures { OnOk result (text.new.items ≡ text.old.items ++ type_line name.now kind) }
{
    put_text(text, "# TYPE ")?;
    put_text(text, name)?;
    text.push(b' ')?;
    put_text(text, word_of(kind))?;
    text.push(b'\n')?;
    Ok(())
}

/// The word of a kind.
fn word_of(kind: Kind) -> &'static str
    ensures { result.now ≡ kind_word kind }
{
    match kind {
        Kind::Counter => "counter",
        Kind::Gauge => "gauge",
        Kind::Histogram => "histogram",
    }
}

/// Puts a line for each sample at the end of a text.
fn put_samples(text: &mut Vec<u8>, name: &str, samples: &[Sample]) -> Result<(), AllocError>
    ensures { OnOk result (text.new.items ≡ text.old.items ++ flat_map (sample_line name.now) samples.now) }
{
    for sample in samples {
        put_sample(text, name, sample)?;
    }
    Ok(())
}

/// Puts a sample's line at the end of a text.
fn put_sample(text: &mut Vec<u8>, name: &str, sample: &Sample) -> Result<(), AllocError>
    ensures { OnOk result (text.new.items ≡ text.old.items ++ sample_line name.now sample.now) }
{
    put_text(text, name)?;
    put_text(text, sample.suffix)?;
    put_labels(text, sample.labels.as_slice())?;
    text.push(b' ')?;
    put_number(text, sample.number)?;
    text.push(b'\n')?;
    Ok(())
}

/// Puts a sample's labels in braces at the end of a text, and nothing where there are none.
fn put_labels(text: &mut Vec<u8>, labels: &[Label]) -> Result<(), AllocError>
    ensures { OnOk result (text.new.items ≡ text.old.items ++ labels_text labels.now) }
{
    let [first, rest @ ..] = labels else {
        return Ok(());
    };
    text.push(b'{')?;
    put_label(text, first)?;
    put_more_labels(text, rest)?;
    text.push(b'}')?;
    Ok(())
}

/// Puts labels at the end of a text, each after a comma.
fn put_more_labels(text: &mut Vec<u8>, labels: &[Label]) -> Result<(), AllocError>
    ensures { OnOk result (text.new.items ≡ text.old.items ++ flat_map after_comma labels.now) }
{
    for label in labels {
        text.push(b',')?;
        put_label(text, label)?;
    }
    Ok(())
}

/// Puts a label at the end of a text.
fn put_label(text: &mut Vec<u8>, label: &Label) -> Result<(), AllocError>
    ensures { OnOk result (text.new.items ≡ text.old.items ++ label_text label.now) }
{
    put_text(text, label.name)?;
    put_text(text, "=\"")?;
    put_value(text, label.value.as_bytes())?;
    text.push(b'"')?;
    Ok(())
}

/// Puts a label's value at the end of a text: a backslash, a quotation mark and a line feed after a backslash.
fn put_value(text: &mut Vec<u8>, octets: &[u8]) -> Result<(), AllocError>
    ensures { OnOk result (text.new.items ≡ text.old.items ++ flat_map value_octet octets.now) }
{
    for octet in octets {
        match *octet {
            b'"' => text.extend_from_slice(b"\\\"")?,
            other => put_help_octet(text, other)?,
        }
    }
    Ok(())
}

/// Puts what a family says at the end of a text: a backslash and a line feed after a backslash.
fn put_help(text: &mut Vec<u8>, octets: &[u8]) -> Result<(), AllocError>
    ensures { OnOk result (text.new.items ≡ text.old.items ++ flat_map help_octet octets.now) }
{
    for octet in octets {
        put_help_octet(text, *octet)?;
    }
    Ok(())
}

/// Puts an octet of what a family says at the end of a text.
fn put_help_octet(text: &mut Vec<u8>, octet: u8) -> Result<(), AllocError>
    ensures { OnOk result (text.new.items ≡ text.old.items ++ help_octet octet) }
{
    match octet {
        b'\\' => text.extend_from_slice(b"\\\\"),
        b'\n' => text.extend_from_slice(b"\\n"),
        other => {
            text.push(other)?;
            Ok(())
        }
    }
}

/// Puts a text at the end of another. The fault is a growth that was refused.
pub fn put_text(text: &mut Vec<u8>, more: &str) -> Result<(), AllocError>
    ensures { OnOk result (text.new.items ≡ text.old.items ++ more.now) }
{
    text.extend_from_slice(more.as_bytes())
}

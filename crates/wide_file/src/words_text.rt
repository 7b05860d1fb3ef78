//! A zone's text in words: the way back from plain text.
ghost use Rattle.std.specs.Prelude.{◌≡◌, ◌⊎◌, ◌++◌, [], None, Some, IfOk, IfErr, OnOk, string_bytes};
ghost use Rattle.master_file.specs.Fault.{no_memory};
ghost use Rattle.master_file.specs.Records.{records_of};
ghost use Rattle.master_file.specs.ZoneText.{record_in};
ghost use Rattle.wide_file.specs.WordsText.{words_line, words_text};

use dns_name::Name;
use master_file::{FileFault, RecordEntry, Records};
use std::alloc::{AllocError, Global};
use wide_text::{write_wide_data, write_wide_type};

/// A zone's text with the types and the data of its records in words, where they have a form: a record a line, in the text's order, with the owner
/// whole, the TTL in seconds and the class. Data that isn't of its type's form stands after `\#` (RFC 3597, 5).
///
/// The fault is that of the first entry that has one, as a zone's text is read under the root, on its line; `NoMemory`, at line 0, where a growth was
/// refused.
pub fn in_words(alloc: Global, text: &[u8]) -> Result<String, FileFault>
    ensures whole { OnOk result ((records_of [] text.now).fault ≡ None) }
    ensures words { IfOk result (λ words. words_text (records_of [] text.now).rrs ≡ string_bytes words) }
    ensures fault { IfErr result (λ fault. (fault ≡ no_memory) ⊎ ((records_of [] text.now).fault ≡ Some fault)) }
{
    let mut records = Records::new(alloc, text, &Name::root());
    let mut words = String::new(alloc);
    while let Some(rr) = records.next(alloc)? {
        write_line(alloc, &mut words, &rr)?;
    }
    Ok(words)
}

/// Writes the line of a record in words.
fn write_line(alloc: Global, text: &mut String, rr: &RecordEntry) -> Result<(), AllocError>
    ensures { OnOk result (string_bytes text.new ≡ string_bytes text.old ++ words_line (record_in rr.now)) }
{
    let owner = &rr.owner;
    let seconds = rr.ttl.0;
    write!(text, "{owner} {seconds} IN ")?;
    write_wide_type(text, rr.rdata.rtype())?;
    write_wide_data(alloc, text, &rr.rdata)?;
    text.push('\n')
}

//! The text of a zone, as it is read: plain, or as other servers read zone files.
use crate::dnames::{dnames_in, dnames_of_text};
use crate::file_report::{left_out_in, push_placed, report_at, report_file, words_of};
use crate::includes::Includes;
use commands::{Fault, Source, report_fault_of};
use dns_name::Name;
use master_file::{FileFault, read_zone};
use std::alloc::{AllocError, Global};
use std::io;
use wide_file::{PlainText, WideFault, plain_text, without_mark};
use zone_tree::Zone;

/// The text of a zone.
#[derive(Drop)]
pub struct ZoneText {
    /// What its source has.
    source: Vec<u8>,
    /// The files that it includes.
    includes: Includes,
    /// How it is read.
    reading: Reading,
    /// How many DNAME records it has, if it is read as other servers read zone files; else 0.
    dnames: u64,
}

/// How a text is read.
#[derive(Drop)]
enum Reading {
    /// As it is.
    Plain,
    /// As other servers read zone files, by the plain text that stands for it.
    Wide(PlainText),
    /// As other servers read zone files, where it is refused for this fault: it is no zone.
    Refused(WideFault),
}

/// A text that is refused where it is read as other servers read zone files.
#[derive(Drop)]
pub(crate) struct RefusedFile {
    /// What its source has.
    pub(crate) source: Vec<u8>,
    /// The files that it includes.
    pub(crate) includes: Includes,
    /// What is wrong.
    pub(crate) fault: WideFault,
}

impl ZoneText {
    /// The text of a source, with the files that it includes; `is_wide` is whether it is read as other servers read zone files, its names relative to the
    /// origin: a byte order mark at its start is passed over then. A text without that mark that is a zone as it is stays as it is, since it is the same
    /// zone as a zone file: so a store that was created from it is that of the same text whether or not it is read so. Each command reads by this
    /// function, and a server at its start and at a reload.
    pub(crate) fn of(
        alloc: Global,
        source: Vec<u8>,
        includes: Includes,
        origin: &Name,
        is_wide: bool,
    ) -> Result<ZoneText, RefusedFile> {
        if !is_wide {
            return Ok(ZoneText {
                source,
                includes,
                reading: Reading::Plain,
                dnames: 0,
            });
        }
        let text = without_mark(source.as_slice());
        if text.len() == source.len() {
            if let Ok(zone) = read_zone(alloc, text, origin) {
                return Ok(ZoneText {
                    source,
                    includes,
                    reading: Reading::Plain,
                    dnames: dnames_in(&zone),
                });
            }
        }
        match plain_text(alloc, includes.files.as_slice(), text, origin) {
            Ok(plain) => {
                let dnames = dnames_of_text(plain.text());
                Ok(ZoneText {
                    source,
                    includes,
                    reading: Reading::Wide(plain),
                    dnames,
                })
            }
            Err(fault) => Err(RefusedFile {
                source,
                includes,
                fault,
            }),
        }
    }

    /// A text that is refused, and given to a store that is served whatever the zone's text is.
    pub(crate) fn refused(file: RefusedFile) -> ZoneText {
        let RefusedFile {
            source,
            includes,
            fault,
        } = file;
        ZoneText {
            source,
            includes,
            reading: Reading::Refused(fault),
            dnames: 0,
        }
    }

    /// The zone of the text, or what is wrong with it, by the line of [`ZoneText::octets`].
    pub(crate) fn zone(&self, alloc: Global, origin: &Name) -> Result<Zone, FileFault> {
        read_zone(alloc, self.octets(), origin)
    }

    /// What the zone is read from, and a store created.
    pub(crate) fn octets(&self) -> &[u8] {
        match &self.reading {
            Reading::Wide(plain) => plain.text().as_bytes(),
            _ => self.source.as_slice(),
        }
    }

    /// How many records are left out of the text of a source, if there are any and there is memory for the words.
    pub(crate) fn left_out(&self, alloc: Global, source: Source<'_>) -> Option<String> {
        let Reading::Wide(plain) = &self.reading else {
            return None;
        };
        said_of(alloc, source, left_out_in(alloc, plain)?)
    }

    /// How many DNAME records the text of a source has, if there are any and there is memory for the words.
    pub(crate) fn has_dnames(&self, alloc: Global, source: Source<'_>) -> Option<String> {
        if self.dnames == 0 {
            return None;
        }
        let count = self.dnames;
        let said = format!(in alloc;
            "warning: DNAME records, which have no effect on answers: {count}"
        );
        said_of(alloc, source, said.ok()?)
    }

    /// Appends to `errors` why the text is no zone, for this fault by the line of [`ZoneText::octets`], and returns the program's status.
    pub(crate) fn report(
        &self,
        alloc: Global,
        source: Source<'_>,
        fault: FileFault,
        errors: &mut Vec<u8>,
    ) -> io::Result<u8> {
        let text = self.source.as_slice();
        match &self.reading {
            Reading::Plain => {
                let fault = Err(Fault::Zone(fault));
                Ok(report_fault_of(alloc, fault, source, text, errors))
            }
            Reading::Wide(plain) => {
                report_at(alloc, source, text, &self.includes, plain, fault, errors)
            }
            Reading::Refused(own) => report_file(alloc, source, text, &self.includes, own, errors),
        }
    }

    /// Why the text is no zone in brief, for this fault by the line of [`ZoneText::octets`].
    pub(crate) fn words(&self, alloc: Global, fault: FileFault) -> Result<String, AllocError> {
        let mut words = String::new(alloc);
        write!(words, "{}", Fault::Zone(fault))?;
        match &self.reading {
            Reading::Plain => Ok(words),
            Reading::Wide(plain) => {
                let mut placed = String::new(alloc);
                push_placed(&mut placed, plain, &words)?;
                Ok(placed)
            }
            Reading::Refused(own) => words_of(alloc, own),
        }
    }

    /// Lines that begin with `line N: ` for a line of [`ZoneText::octets`], with the file and the line of it there.
    pub(crate) fn placed(&self, alloc: Global, lines: String) -> Result<String, AllocError> {
        let Reading::Wide(plain) = &self.reading else {
            return Ok(lines);
        };
        let mut placed = String::new(alloc);
        for line in lines.split('\n') {
            if !line.is_empty() {
                push_placed(&mut placed, plain, line)?;
                placed.push('\n')?;
            }
        }
        Ok(placed)
    }
}

/// What is said of the text of a source, after the path of the file.
fn said_of(alloc: Global, source: Source<'_>, said: String) -> Option<String> {
    match source {
        Source::Input => Some(said),
        Source::File(path) => format!(in alloc; "{path}: {said}").ok(),
    }
}

//! What is wrong with a zone file or a file that it includes, and where.
ghost use Rattle.std.specs.Prelude.{◌≡◌, IfOk, IsErr};
ghost use Rattle.wide_file.specs.Fault.{at_file, no_memory};

use crate::file_path::FilePath;
use master_file::{Cause, FileFault};
use std::alloc::{AllocError, Global};

/// What is wrong with a zone file.
#[derive(Clone, Copy, Debug, PartialEq, Eq)]
pub enum WideCause {
    /// What may be wrong with a zone's text, `M1` to `M14`.
    Text(Cause),
    /// A file that can't be included, `M16`: there is no such file, its path leads out of the directory of the zone file, or too many files are between.
    Include,
}

/// Why a zone file is refused, and where.
#[derive(Drop)]
pub struct WideFault {
    /// The file.
    pub file: FilePath,
    /// The line of it on which the faulty entry begins, counted from 1; 0 where no entry shows the fault.
    pub line: u64,
    /// What is wrong there.
    pub cause: WideCause,
}

impl WideFault {
    /// Want of memory, at line 0 of the zone file.
    pub fn no_memory(alloc: Global) -> WideFault
        ensures { result ≡ no_memory }
    {
        WideFault {
            file: FilePath::zone(alloc),
            line: 0,
            cause: WideCause::Text(Cause::NoMemory),
        }
    }

    /// A fault of this file. Fails where there is no memory for its path.
    pub(crate) fn at(
        alloc: Global,
        file: &FilePath,
        line: u64,
        cause: WideCause,
    ) -> Result<WideFault, AllocError>
        ensures { IfOk result (λ fault. fault ≡ record { file = file.now; line = line; cause = cause }) }
    {
        let file = FilePath::of(alloc, file.as_bytes())?;
        Ok(WideFault { file, line, cause })
    }

    /// A fault; want of memory where there was none for it.
    pub(crate) fn or_no_memory(alloc: Global, fault: Result<WideFault, AllocError>) -> WideFault
        ensures fault { IfOk fault (λ own. result ≡ own) }
        ensures memory { IsErr fault → result ≡ no_memory }
    {
        match fault {
            Ok(fault) => fault,
            Err(AllocError) => WideFault::no_memory(alloc),
        }
    }
}

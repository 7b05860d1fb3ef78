//! Whole files, and directories (own).
ghost use Rattle.std.specs.Prelude.{◌≡◌, ◌≢◌, Ok, Err, Some, None, IfOk, IfErr};
ghost use Rattle.std.specs.IoError.{error_kind};

use std::alloc::Global;
use std::fs::{File, Files, OpenFile};
use std::io::{self, ErrorKind, Read, Write};

/// Opens a file to be read; None where there is none.
pub(crate) fn open_there<R: Files>(rt: &R, path: &str) -> io::Result<Option<R::File>> {
    there(File::open(rt, path))
}

/// The result of opening a file; None where there is none. A file that exists and can't be opened, as where permission is denied, is an error.
pub(crate) fn there<F: Drop>(opened: io::Result<F>) -> io::Result<Option<F>>
    ensures found { IfOk opened (λ file. result ≡ Ok (Some file)) }
    ensures none { IfErr opened (λ error. error_kind error ≡ ErrorKind.NotFound → result ≡ Ok None) }
    ensures fault { IfErr opened (λ error. error_kind error ≢ ErrorKind.NotFound → result ≡ Err error) }
{
    match opened {
        Ok(file) => Ok(Some(file)),
        Err(error) if error.kind() == ErrorKind::NotFound => Ok(None),
        Err(error) => Err(error),
    }
}

/// The octets of a file; None where there is none. It allocates memory.
pub(crate) fn read_there<R: Files>(
    rt: &R,
    alloc: Global,
    path: &str,
) -> io::Result<Option<Vec<u8>>> {
    let Some(mut file) = open_there(rt, path)? else {
        return Ok(None);
    };
    let mut octets = Vec::new(alloc);
    file.read_to_end(&mut octets)?;
    Ok(Some(octets))
}

/// Writes the octets of a file that has none, and syncs them to the disk.
pub(crate) fn write_synced<F: Write + OpenFile + Drop>(file: F, octets: &[u8]) -> io::Result<()> {
    let mut file = file;
    file.write_all(octets)?;
    file.sync_all()
}

/// Syncs the names of a directory to the disk.
pub(crate) fn sync_folder<R: Files>(rt: &R, dir: &str) -> io::Result<()> {
    File::open(rt, dir)?.sync_all()
}

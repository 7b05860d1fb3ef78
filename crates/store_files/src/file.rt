//! A file as a disk (own).
ghost use Rattle.std.specs.Prelude.{◌≡◌, [], ◌∷◌, IfOk};
ghost use Rattle.store_files.specs.File.{written, synced, history};

use crate::list::CallList;
use journal::Disk;
use std::alloc::Global;
use std::fs::{self, File, Files};
use std::io::{self, ErrorKind, Read, Seek, SeekFrom, Write};
use std::os::fd::AsRawFd;
use std::os::unix::fs::MetadataExt;

/// The call created the file with these octets.
pub const BEGUN: u64 = 0;

/// The call appended these octets.
const APPENDED: u64 = 1;

/// The call synced all octets to the disk.
const SYNCED: u64 = 2;

/// The call cut off all octets after the first so many.
const CUT: u64 = 3;

/// The call tried to cut, and failed.
pub const NOT_CUT: u64 = 4;

/// The call tried to sync, and failed.
pub const NOT_SYNCED: u64 = 5;

/// The call tried to append these octets, and failed.
const NOT_APPENDED: u64 = 6;

/// The call tried to rename the file.
const RENAMED: u64 = 7;

/// How many octets of room are allocated at once after what is appended: zeros, so that a sync needn't bring the file's new length to the disk each time (own).
const ROOM: u64 = 65_536;

/// A file as a disk. The caller that created it is to sync its name in its directory.
#[derive(Drop)]
pub struct FileDisk {
    file: File,
    /// The position after its octets.
    end: u64,
    /// The length of the file: after its octets is room.
    len: u64,
    calls: CallList,
}

impl FileDisk {
    /// A file without octets, on the disk: those that it had are cut off.
    pub fn empty(file: File) -> io::Result<FileDisk>
        ensures { IfOk result (λ disk. (written disk ≡ []) × (synced disk ≡ [])) }
    {
        file.set_len(0)?;
        file.sync_all()?;
        let mut calls = CallList::new();
        calls.note(&[BEGUN, 0], &[]);
        Ok(FileDisk {
            file,
            end: 0,
            len: 0,
            calls,
        })
    }

    /// An existing file, and its octets as the disk has them: before it is read it is synced, and its pages are dropped from the cache, since a failed
    /// sync may have left them other than the disk has them. It allocates memory.
    pub fn read(alloc: Global, file: File) -> io::Result<(FileDisk, Vec<u8>)>
        ensures { IfOk result (λ r. (written r.0 ≡ r.1.items) × (synced r.0 ≡ r.1.items)) }
    {
        file.sync_all()?;
        let advised = libc::posix_fadvise(file.as_raw_fd(), 0, 0, libc::POSIX_FADV_DONTNEED);
        if advised != 0 {
            return Err(io::Error::from_raw_os_error(advised));
        }
        let mut file = file;
        file.seek(SeekFrom::Start(0))?;
        let mut octets = Vec::new(alloc);
        file.read_to_end(&mut octets)?;
        let mut calls = CallList::new();
        calls.note(&[BEGUN, 0], &octets);
        let len = octets.len() as u64;
        let disk = FileDisk {
            file,
            end: len,
            len,
            calls,
        };
        Ok((disk, octets))
    }

    /// Renames the file. Its history begins here: the new name may lead to it from any moment of the call on, also after an error.
    pub fn rename<R: Files>(&mut self, files: &R, from: &str, to: &str) -> io::Result<()>
        ensures same { (written self.new ≡ written self.old) × (synced self.new ≡ synced self.old) }
        ensures history { history self.new ≡ synced self.new ∷ [] }
    {
        self.calls.note(&[RENAMED, 0], &[]);
        fs::rename(files, from, to)
    }

    /// Whether a path leads to this very file, by the device and inode numbers of both (stat(2)): false where it leads to another one, or nowhere.
    pub fn is_at<R: Files>(&self, files: &R, path: &str) -> io::Result<bool> {
        let own = self.file.metadata()?;
        match fs::metadata(files, path) {
            Ok(found) => Ok(found.dev() == own.dev() && found.ino() == own.ino()),
            Err(error) if error.kind() == ErrorKind::NotFound => Ok(false),
            Err(error) => Err(error),
        }
    }

    /// Writes octets after all that it has, in room that is allocated ahead; a file that has no octets yet gets no room after the first ones.
    fn write_behind(&mut self, octets: &[u8]) -> io::Result<()>
        ensures { self.new.calls ≡ self.old.calls }
    {
        let end = self.end.saturating_add(octets.len() as u64);
        if self.len < end && self.end > 0 {
            self.make_long(end.saturating_add(ROOM))?;
        }
        self.file.seek(SeekFrom::Start(self.end))?;
        self.file.write_all(octets)?;
        self.end = end;
        Ok(())
    }

    /// Makes the file this long.
    fn make_long(&mut self, len: u64) -> io::Result<()>
        ensures { self.new.calls ≡ self.old.calls }
    {
        self.file.set_len(len)?;
        self.len = len;
        Ok(())
    }
}

impl Disk for FileDisk {
    ghost use Rattle.store_files.specs.File.{written as file_written, synced as file_synced, lost as file_lost, history as file_history};

    type Fault = io::Error;

    ghost written = { file_written };

    ghost synced = { file_synced };

    ghost lost = { file_lost };

    ghost history = { file_history };

    fn append(&mut self, octets: &[u8]) -> io::Result<()> {
        let appended = self.write_behind(octets);
        match appended {
            Ok(()) => self.calls.note(&[APPENDED, 0], octets),
            Err(_) => self.calls.note(&[NOT_APPENDED, 0], octets),
        }
        appended
    }

    fn sync(&mut self) -> io::Result<()> {
        let synced = self.file.sync_data();
        match synced {
            Ok(()) => self.calls.note(&[SYNCED, 0], &[]),
            Err(_) => self.calls.note(&[NOT_SYNCED, 0], &[]),
        }
        synced
    }

    fn cut(&mut self, len: u64) -> io::Result<()> {
        let reported = self.make_long(len);
        match reported {
            Ok(()) => {
                self.end = len;
                self.calls.note(&[CUT, len], &[]);
            }
            Err(_) => self.calls.note(&[NOT_CUT, len], &[]),
        }
        reported
    }
}

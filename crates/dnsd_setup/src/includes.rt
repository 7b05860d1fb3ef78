//! Reading the files that a zone file includes.
use std::alloc::{AllocError, Global};
use std::fs::{self, Files};
use wide_file::{FilePath, IncludedFile, directory, included_paths, max_depth, without_mark};

/// The files that a zone file includes.
#[derive(Drop)]
pub struct Includes {
    /// Those that were read.
    pub(crate) files: Vec<IncludedFile>,
    /// Why the first one can't be read that can't be.
    pub(crate) unread: Option<String>,
}

impl Includes {
    /// No files.
    pub(crate) fn none(alloc: Global) -> Includes {
        Includes {
            files: Vec::new(alloc),
            unread: None,
        }
    }

    /// Reads the files that a zone file at a path includes, and those that they include. The directory of the path is that of the zone file.
    pub(crate) fn read<R: Files + AllocGlobal>(
        rt: &R,
        path: &str,
        text: &[u8],
    ) -> Result<Includes, AllocError> {
        let alloc = rt.alloc();
        let mut includes = Includes::none(alloc);
        let folder = str::from_utf8(directory(path.as_bytes())).unwrap_or("");
        let mut paths = included_paths(alloc, &FilePath::zone(alloc), without_mark(text))?;
        for _ in 0..max_depth() {
            paths = includes.add_all(rt, folder, paths)?;
        }
        Ok(includes)
    }

    /// Reads the files at these paths, but for those that are read already, and returns the paths of the files that they include.
    fn add_all<R: Files + AllocGlobal>(
        &mut self,
        rt: &R,
        folder: &str,
        paths: Vec<FilePath>,
    ) -> Result<Vec<FilePath>, AllocError> {
        let mut more = Vec::new(rt.alloc());
        for path in paths {
            if self.text_of(&path).is_none() {
                self.add(rt, folder, path, &mut more)?;
            }
        }
        Ok(more)
    }

    /// Reads the file at a path, and appends the paths of the files that it includes to `more`.
    fn add<R: Files + AllocGlobal>(
        &mut self,
        rt: &R,
        folder: &str,
        path: FilePath,
        more: &mut Vec<FilePath>,
    ) -> Result<(), AllocError> {
        let alloc = rt.alloc();
        match read_at(rt, folder, &path)? {
            Ok(text) => {
                for own in included_paths(alloc, &path, without_mark(text.as_slice()))? {
                    let Ok(()) = more.push(own) else {
                        return Err(AllocError);
                    };
                }
                let Ok(()) = self.files.push(IncludedFile { path, text }) else {
                    return Err(AllocError);
                };
            }
            Err(reason) => {
                if self.unread.is_none() {
                    self.unread = Some(reason);
                }
            }
        }
        Ok(())
    }

    /// The text of the file at a path, if it was read.
    pub(crate) fn text_of(&self, path: &FilePath) -> Option<&[u8]> {
        for file in &self.files {
            if file.path.as_bytes() == path.as_bytes() {
                return Some(file.text.as_slice());
            }
        }
        None
    }
}

/// The text of the file at a path, or why it can't be read.
fn read_at<R: Files + AllocGlobal>(
    rt: &R,
    folder: &str,
    path: &FilePath,
) -> Result<Result<Vec<u8>, String>, AllocError> {
    let alloc = rt.alloc();
    let Ok(own) = str::from_utf8(path.as_bytes()) else {
        return Ok(Err(format!(in alloc; "the path of a file isn't UTF-8")?));
    };
    let whole = format!(in alloc; "{folder}{own}")?;
    match fs::read(rt, whole.as_str()) {
        Ok(text) => Ok(Ok(text)),
        Err(fault) => Ok(Err(format!(in alloc; "'{whole}' can't be read: {fault}")?)),
    }
}

//! Paths of files that a zone file includes (RFC 1035, 5.1).
ghost use Rattle.std.specs.Prelude.{◌≡◌, [], IfOk, true};
ghost use Rattle.wide_file.specs.Paths.{directory, is_parent, last_name, leads_out, resolved, climbs};

use std::alloc::{AllocError, Global};
use std::marker::Model;

/// The path of a file, from the directory of the zone file on; that of the zone file itself has no octet. Contracts see its octets.
#[derive(Drop)]
pub struct FilePath {
    octets: Vec<u8>,
}

impl Model for FilePath {
    ghost use Rattle.std.specs.Prelude.{List, ℕ};

    ghost Value = { List ℕ };

    ghost view = { λ p. p.octets.items };
}

impl FilePath {
    /// That of the zone file itself.
    pub fn zone(alloc: Global) -> FilePath
        ensures { result ≡ [] }
    {
        FilePath {
            octets: Vec::new(alloc),
        }
    }

    /// A path of these octets. Fails where there is no memory for it.
    pub fn of(alloc: Global, octets: &[u8]) -> Result<FilePath, AllocError>
        ensures { IfOk result (λ path. path ≡ octets.now) }
    {
        let octets = octets.to_vec(alloc)?;
        Ok(FilePath { octets })
    }

    /// The octets.
    pub fn as_bytes(&self) -> &[u8]
        ensures { result.now ≡ self.now }
    {
        self.octets.as_slice()
    }

    /// The path of the file that a file names: it is relative to the directory of that file. None of no octets, of an absolute one, and where `..` is
    /// among its names (own). Fails where there is no memory for it.
    pub fn resolved(&self, alloc: Global, path: &[u8]) -> Result<Option<FilePath>, AllocError>
        ensures { IfOk result (λ found. found ≡ resolved self.now path.now) }
    {
        if leads_out(path) {
            return Ok(None);
        }
        let mut octets = directory(self.octets.as_slice()).to_vec(alloc)?;
        octets.extend_from_slice(path)?;
        Ok(Some(FilePath { octets }))
    }
}

/// The directory of a path, with the slash after it: no octets where it has no slash.
pub fn directory(path: &[u8]) -> &[u8]
    ensures { result.now ≡ directory path.now }
{
    let len = path.len().saturating_sub(last_name(path).len());
    &path[..len]
}

/// The octets of a path after its last slash.
fn last_name(path: &[u8]) -> &[u8]
    ensures { result.now ≡ last_name path.now path.now }
{
    let mut name = path;
    let mut left = path;
    while let [octet, rest @ ..] = left {
        if *octet == b'/' {
            name = rest;
        }
        left = rest;
    }
    name
}

/// Whether a path leads out of a directory, or is none: it has no octet, begins with a slash, or has `..` among its names.
fn leads_out(path: &[u8]) -> bool
    ensures { result ≡ leads_out path.now }
{
    match path {
        [] | [b'/', ..] => true,
        _ => climbs(path),
    }
}

/// Whether `..` is among the names of a path.
fn climbs(path: &[u8]) -> bool
    ensures { result ≡ climbs true path.now }
{
    let mut begins = true;
    let mut left = path;
    while let [octet, rest @ ..] = left {
        if begins && is_parent(left) {
            return true;
        }
        begins = *octet == b'/';
        left = rest;
    }
    false
}

/// Whether the first name of a path is `..`.
fn is_parent(path: &[u8]) -> bool
    ensures { result ≡ is_parent path.now }
{
    matches!(path, [b'.', b'.'] | [b'.', b'.', b'/', ..])
}

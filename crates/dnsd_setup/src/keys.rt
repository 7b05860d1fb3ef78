//! Reading the keys that clients sign by (RFC 8945).
use command_line::{BAD_COMMAND, Serve};
use commands::FAILED;
use dns_name::Name;
use key_file::{KeyFile, parse_keys};
use log_lines::Level;
use std::alloc::Global;
use std::fs::{File, OpenFile};
use std::io::{self, Read};
use std::os::unix::fs::PermissionsExt;
use std::rt::{Env, Files};

/// The bits of a file's mode that give its group and others any right.
const OTHERS: u32 = 0o077;

/// Why the keys of a file can't be read.
#[derive(Drop)]
enum KeysFault {
    /// The file can't be read.
    Io(io::Error),
    /// Its group or others have a right to it, by this mode.
    Mode(u32),
}

impl From<io::Error> for KeysFault {
    fn from(fault: io::Error) -> Self {
        KeysFault::Io(fault)
    }
}

/// The keys of a server; None without the option for them. The program's status if their file cannot be read, if its group or others have a right to it, if it is refused, or if a rule
/// names a key that it hasn't;
/// standard error then has the reason, with no word of the file.
pub fn keys_for<R: Files + Env + Eprint + AllocGlobal>(
    rt: &R,
    serve: &Serve<'_>,
) -> io::Result<Result<Option<KeyFile>, u8>> {
    let Some(path) = serve.keys else {
        return match serve.key_rules.first() {
            None => Ok(Ok(None)),
            Some(own) => Ok(Err(tell_no_key(rt, &own.key)?)),
        };
    };
    let file = match key_file_at(rt, path)? {
        Ok(file) => file,
        Err(status) => return Ok(Err(status)),
    };
    for own in serve.key_rules.iter() {
        if file.keys.index_named(&own.key).is_none() {
            return Ok(Err(tell_no_key(rt, &own.key)?));
        }
    }
    warn_of_short(rt, path, &file)?;
    Ok(Ok(Some(file)))
}

/// The keys of a file. The program's status if it cannot be read, if its group or others have a right to it, or if it is refused; standard error then has the reason, with no word of the
/// file.
pub(crate) fn key_file_at<R: Files + Env + Eprint + AllocGlobal>(
    rt: &R,
    path: &str,
) -> io::Result<Result<KeyFile, u8>> {
    let mark = Level::Error.mark_for(rt);
    let text = match read_secret(rt, rt.alloc(), path) {
        Ok(text) => text,
        Err(KeysFault::Io(fault)) => {
            eprintln!(rt; "{mark}error: the key file '{path}' can't be read: {fault}")?;
            return Ok(Err(FAILED));
        }
        Err(KeysFault::Mode(mode)) => {
            eprintln!(rt;
                "{mark}error: the key file '{path}' has the mode {mode:04o}, by which not only its owner has a right to it: chmod 600"
            )?;
            return Ok(Err(FAILED));
        }
    };
    match parse_keys(rt.alloc(), text.as_slice()) {
        Ok(file) => Ok(Ok(file)),
        Err(fault) => {
            eprintln!(rt; "{mark}error: the key file '{path}' is refused: {fault}")?;
            Ok(Err(FAILED))
        }
    }
}

/// The text of a file to which its owner alone has a right.
fn read_secret<R: Files>(rt: &R, alloc: Global, path: &str) -> Result<Vec<u8>, KeysFault> {
    let mut file = File::open(rt, path)?;
    let mode = file.metadata()?.permissions().mode() & 0o7777;
    if mode & OTHERS != 0 {
        return Err(KeysFault::Mode(mode));
    }
    let mut text = Vec::new(alloc);
    file.read_to_end(&mut text)?;
    Ok(text)
}

/// Writes on standard error that a rule names a key that the server hasn't, and returns the program's status.
fn tell_no_key<R: Env + Eprint + AllocGlobal>(rt: &R, name: &Name) -> io::Result<u8> {
    let mark = Level::Error.mark_for(rt);
    let name = name.to_text();
    eprintln!(rt; "{mark}error: --may: there is no key '{name}' in the file of --keys")?;
    Ok(BAD_COMMAND)
}

/// Warns of each key whose secret is short.
pub(crate) fn warn_of_short<R: Env + Eprint + AllocGlobal>(
    rt: &R,
    path: &str,
    file: &KeyFile,
) -> io::Result<()> {
    let mark = Level::Warning.mark_for(rt);
    for name in file.short.iter() {
        let name = name.to_text();
        eprintln!(rt;
            "{mark}warning: the secret of key {name} in '{path}' has fewer than 16 octets"
        )?;
    }
    Ok(())
}

//! How the program reports a store that cannot be started from (own).
use journal::{HeadFault, Refused};
use std::fmt;
use store_recovery::{StartFault, UpdateFault};

/// Why a store cannot be started from, printed with its directory: what is wrong, where, and what can be done.
#[derive(Debug)]
pub struct PrintedFault<'a> {
    /// The store's directory.
    pub dir: &'a str,
    /// What is wrong.
    pub fault: StartFault,
}

impl<'a> Drop for PrintedFault<'a> {
    fn drop(self) {
        let PrintedFault { dir: _, fault: _ } = self;
    }
}

impl fmt::Display for PrintedFault<'_> {
    fn fmt<W: fmt::Write>(&self, f: &mut fmt::Formatter<W>) -> fmt::Result {
        let dir = self.dir;
        match &self.fault {
            StartFault::Journal(refused) => tell_journal(f, dir, refused),
            StartFault::Text(fault) => write!(f, "the zone text of '{dir}' is no zone: {fault}"),
            StartFault::OtherSerial => write!(
                f,
                "the zone text of '{dir}' has another serial than '{dir}/journal' says"
            ),
            StartFault::Update(place, fault) => {
                write!(f, "'{dir}/journal': update {place}, counted from 0, ")?;
                tell_update(f, fault)
            }
            StartFault::NoMemory => write!(f, "out of memory"),
        }
    }
}

/// Writes why a journal is refused.
fn tell_journal<W: fmt::Write>(
    f: &mut fmt::Formatter<W>,
    dir: &str,
    refused: &Refused,
) -> fmt::Result {
    match refused {
        Refused::BadHead(HeadFault::Short) => {
            write!(f, "'{dir}/journal' is too short to be a journal")
        }
        Refused::BadHead(HeadFault::Foreign) => {
            write!(f, "'{dir}/journal' is no journal of format 2")
        }
        Refused::BadHead(HeadFault::WrongSum) => write!(f, "'{dir}/journal' has a damaged head"),
        Refused::OtherText => write!(
            f,
            "the zone text of '{dir}' isn't the one that '{dir}/journal' belongs to"
        ),
        Refused::Damaged(at) => write!(
            f,
            "'{dir}/journal': updates that were answered are damaged before octet {at}; dnsd zone --before-fault '{dir}' prints the zone before them"
        ),
        Refused::NoBatch(number) => write!(
            f,
            "'{dir}/journal': batch {number}, counted from 0, has no updates"
        ),
        Refused::NoMemory => write!(f, "out of memory"),
    }
}

/// Writes why an update cannot be replayed.
fn tell_update<W: fmt::Write>(f: &mut fmt::Formatter<W>, fault: &UpdateFault) -> fmt::Result {
    match fault {
        UpdateFault::NotAnUpdate => write!(f, "is none"),
        UpdateFault::Refused(code) => write!(
            f,
            "is refused on replay, with RCODE {}",
            code.number()
        ),
        UpdateFault::ChangesNothing => write!(f, "changes nothing"),
    }
}

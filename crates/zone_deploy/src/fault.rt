//! Why a server's zone isn't read, or an update isn't taken.
ghost use Rattle.std.specs.Prelude.{◌≡◌};
ghost use Rattle.zone_deploy.specs.declared.fault.DeployFault.TheVariants.{Io as io_fault, NoMemory as no_memory, Transfer as transfer_fault};

use std::alloc::AllocError;
use std::net::SocketAddr;
use std::{fmt, io};
use transfer_core::TransferFault;

/// What a server is asked for.
#[derive(Clone, Copy, Debug, PartialEq, Eq)]
pub enum Request {
    /// The whole zone (RFC 5936).
    Transfer,
    /// An update (RFC 2136).
    Update,
}

/// Why a server's zone isn't read, or an update isn't taken.
#[derive(Drop)]
pub enum DeployFault {
    /// The server refused the request, with the RCODE of this number.
    Refused(Request, u8),
    /// The server didn't take the request's TSIG, with the error of this number. Its reply isn't signed (RFC 8945, 5.3.2).
    BadTsig(Request, u16),
    /// A reply isn't signed by the key as RFC 8945, 5.3 and 5.4 say.
    NotSigned(Request),
    /// What the server sent is no reply to the request.
    NoReply(Request),
    /// What the server sent is no transfer of the zone.
    Transfer(TransferFault),
    /// The update and its TSIG have more octets than a message.
    TooLong,
    /// A growth was refused.
    NoMemory,
    /// The connection failed.
    Io(io::Error),
}

/// Why a server's zone isn't read, or an update isn't taken, and which server it is.
#[derive(Drop)]
pub struct ServerFault {
    /// The server's address and port.
    pub server: SocketAddr,
    /// What failed.
    pub fault: DeployFault,
}

impl fmt::Display for Request {
    fn fmt<W: fmt::Write>(&self, f: &mut fmt::Formatter<W>) -> fmt::Result {
        match self {
            Request::Transfer => write!(f, "transfer"),
            Request::Update => write!(f, "update"),
        }
    }
}

impl fmt::Display for ServerFault {
    fn fmt<W: fmt::Write>(&self, f: &mut fmt::Formatter<W>) -> fmt::Result {
        let server = self.server;
        match &self.fault {
            DeployFault::Refused(request, code) => match code_word(*code) {
                Some(word) => write!(f, "{server} refused the {request}: {word}"),
                None => write!(f, "{server} refused the {request}: RCODE {code}"),
            },
            DeployFault::BadTsig(request, error) => match error_word(*error) {
                Some(word) => write!(f, "{server} refused the {request}: NOTAUTH, {word}"),
                None => write!(
                    f,
                    "{server} refused the {request}: NOTAUTH, TSIG error {error}"
                ),
            },
            DeployFault::NotSigned(request) => {
                write!(
                    f,
                    "{server} sent a reply to the {request} that is not signed by the key"
                )
            }
            DeployFault::NoReply(request) => {
                write!(
                    f,
                    "{server} sent something other than a reply to the {request}"
                )
            }
            DeployFault::Transfer(TransferFault::NoMemory) => write!(f, "out of memory"),
            DeployFault::Transfer(TransferFault::NotInZone) => {
                write!(
                    f,
                    "{server} sent a transfer whose records are not a zone of this name"
                )
            }
            DeployFault::Transfer(_) => write!(f, "{server} sent no transfer of a whole zone"),
            DeployFault::TooLong => {
                write!(
                    f,
                    "the update doesn't fit into one message with its signature"
                )
            }
            DeployFault::NoMemory => write!(f, "out of memory"),
            DeployFault::Io(fault) => write!(f, "{server}: {fault}"),
        }
    }
}

/// The name of an RCODE (RFC 1035, 4.1.1; RFC 2136, 2.2); None of a number without one there.
fn code_word(code: u8) -> Option<&'static str> {
    Some(match code {
        1 => "FORMERR",
        2 => "SERVFAIL",
        3 => "NXDOMAIN",
        4 => "NOTIMP",
        5 => "REFUSED",
        6 => "YXDOMAIN",
        7 => "YXRRSET",
        8 => "NXRRSET",
        9 => "NOTAUTH",
        10 => "NOTZONE",
        _ => return None,
    })
}

/// The name of the error of a TSIG (RFC 8945, 3); None of a number without one there.
fn error_word(error: u16) -> Option<&'static str> {
    Some(match error {
        16 => "BADSIG",
        17 => "BADKEY",
        18 => "BADTIME",
        22 => "BADTRUNC",
        _ => return None,
    })
}

impl From<io::Error> for DeployFault {
    ghost from_gives = { λ fault given. given ≡ io_fault fault };

    fn from(fault: io::Error) -> DeployFault {
        DeployFault::Io(fault)
    }
}

impl From<AllocError> for DeployFault {
    ghost from_gives = { λ _ given. given ≡ no_memory };

    fn from(_refused: AllocError) -> DeployFault {
        DeployFault::NoMemory
    }
}

impl From<TransferFault> for DeployFault {
    ghost from_gives = { λ fault given. given ≡ transfer_fault fault };

    fn from(fault: TransferFault) -> DeployFault {
        DeployFault::Transfer(fault)
    }
}

//! The sockets for notifying secondaries of each version of the zone (RFC 1996).
use command_line::{Secondary, source_of};
use dns_name::Name;
use log_lines::Level;
use serve_workers::{NotifySocket, Secondaries};
use server_control::SharedWork;
use std::alloc::Global;
use std::io::{self, ErrorKind};
use std::net::{Net, SocketAddr, UdpSocket};
use std::random::RandomSource;
use std::rt::Env;
use tsig::Keys;

/// The size of the seed for message IDs, in octets.
const SEED: usize = 32;

/// A secondary that cannot be notified, and why.
#[derive(Drop)]
enum Unreached {
    /// No socket can be bound for its address.
    Socket(SocketAddr, io::Error),
    /// The server has no key of this name.
    NoKey(SocketAddr, Name),
}

/// Binds the sockets for the secondaries, given the listening addresses and the server's keys.
fn bind_secondaries<R: Net>(
    rt: &R,
    alloc: Global,
    secondaries: &[Secondary],
    listen: &[SocketAddr],
    keys: Option<&Keys>,
) -> Result<Vec<NotifySocket>, Unreached> {
    let mut sockets = Vec::new(alloc);
    for secondary in secondaries {
        let address = secondary.address;
        let source = SocketAddr::new(source_of(secondary, listen), 0);
        let key = key_for(secondary, keys)?;
        let socket = match socket_for(rt, source, address, key) {
            Ok(socket) => socket,
            Err(fault) => return Err(Unreached::Socket(address, fault)),
        };
        if sockets.push(socket).is_err() {
            let fault = io::Error::from(ErrorKind::OutOfMemory);
            return Err(Unreached::Socket(address, fault));
        }
    }
    Ok(sockets)
}

/// Which of the server's keys a secondary's notifications are signed by; None if they aren't signed.
fn key_for(secondary: &Secondary, keys: Option<&Keys>) -> Result<Option<u16>, Unreached> {
    let Some(name) = &secondary.key else {
        return Ok(None);
    };
    match keys.and_then(|keys| keys.index_named(name)) {
        Some(index) => Ok(Some(index)),
        None => Err(Unreached::NoKey(secondary.address, name.copy())),
    }
}

/// Binds the socket for notifying a secondary from a source address, by a key if there is one. The system chooses the port.
fn socket_for<R: Net>(
    rt: &R,
    source: SocketAddr,
    address: SocketAddr,
    key: Option<u16>,
) -> io::Result<NotifySocket> {
    NotifySocket::new(UdpSocket::bind(rt, source)?, address, key)
}

/// What is needed to notify secondaries of any zone.
pub struct SecondarySockets {
    /// A socket for each secondary.
    sockets: Vec<NotifySocket>,
    /// The seed for message IDs.
    seed: [u8; SEED],
}

impl Drop for SecondarySockets {
    fn drop(self) {
        let SecondarySockets {
            sockets: _,
            seed: _,
        } = self;
    }
}

impl SecondarySockets {
    /// Whether there are no secondaries.
    pub fn is_empty(&self) -> bool {
        self.sockets.is_empty()
    }

    /// The same for the zone with this apex, and where others see the rounds of their thread, if they do.
    pub fn of_zone(self, apex: Name, work: Option<SharedWork>) -> Secondaries {
        let SecondarySockets { sockets, seed } = self;
        Secondaries {
            sockets,
            apex,
            seed,
            work,
        }
    }
}

/// Prepares the notification of secondaries, given the listening addresses and the server's keys. None if one of them cannot be notified; standard error then has the
/// reason.
pub fn secondaries_for<R: Env + AllocGlobal + Net + Eprint + RandomSource>(
    rt: &R,
    secondaries: &[Secondary],
    listen: &[SocketAddr],
    keys: Option<&Keys>,
) -> io::Result<Option<SecondarySockets>> {
    match bind_secondaries(rt, rt.alloc(), secondaries, listen, keys) {
        Ok(sockets) => {
            let seed = seed_for(rt, &sockets)?;
            Ok(Some(SecondarySockets { sockets, seed }))
        }
        Err(unreached) => {
            tell_unreached(rt, &unreached)?;
            Ok(None)
        }
    }
}

/// The seed for the message IDs of NOTIFYs by these sockets: random octets, if there is any socket.
fn seed_for<R: RandomSource>(rt: &R, sockets: &[NotifySocket]) -> io::Result<[u8; SEED]> {
    let mut seed = [0u8; SEED];
    if !sockets.is_empty() {
        rt.fill_bytes(&mut seed)?;
    }
    Ok(seed)
}

/// Writes why a secondary cannot be notified to standard error.
fn tell_unreached<R: Env + AllocGlobal + Eprint>(rt: &R, unreached: &Unreached) -> io::Result<()> {
    let mark = Level::Error.mark_for(rt);
    match unreached {
        Unreached::Socket(address, fault) => {
            eprintln!(rt; "{mark}error: cannot notify secondary {address}: {fault}")
        }
        Unreached::NoKey(address, name) => {
            let name = name.to_text();
            eprintln!(rt;
                "{mark}error: cannot notify secondary {address}: there is no key '{name}' in the file of --keys"
            )
        }
    }
}

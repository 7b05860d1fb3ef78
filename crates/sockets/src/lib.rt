//! UDP and TCP sockets on top of system calls, and epoll(7), which reports when a socket may be ready.
//!
//! `std::net` cannot set options before it binds a socket. [`bind_datagrams`] and [`bind_listener`] can. A socket's [`Turn`] says whether it is the first socket at its port or an
//! additional one, and an IPv6 socket leaves the IPv4 port to another socket. The values passed to the system have contracts; the effect of an option has none. [`keep_received`]
//! sets how many octets of datagrams the system keeps until they are read, and [`ServiceManager`] notifies systemd.
//!
//! [`Watch`] waits for the sockets of a worker thread's event loop, [`TcpPeer`] is a connection, and [`TcpPlace`] accepts connections. No clause says what the system reports.
#![tactic(auto)]

mod address;
mod bind;
mod option;
mod peer;
mod place;
mod read_hint;
mod service;
mod system;
mod watch;

pub use bind::{Turn, bind_datagrams, bind_listener};
pub use option::keep_received;
pub use peer::TcpPeer;
pub use place::TcpPlace;
pub use service::ServiceManager;
pub use watch::Watch;

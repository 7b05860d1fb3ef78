//! The socket for metrics.
use log_lines::Level;
use sockets::{Turn, bind_listener};
use std::io;
use std::net::{Net, SocketAddr, TcpListener};
use std::rt::Env;

/// Binds the socket for metrics at an address. None if that fails; standard error then has the reason.
pub fn bind_metrics<R: Net + Env + Eprint + AllocGlobal>(
    rt: &R,
    address: SocketAddr,
) -> io::Result<Option<TcpListener>> {
    match bind_listener(rt, address, Turn::First) {
        Ok(listener) => Ok(Some(listener)),
        Err(fault) => {
            let mark = Level::Error.mark_for(rt);
            eprintln!(rt; "{mark}error: --metrics: cannot listen on {address}: {fault}")?;
            Ok(None)
        }
    }
}

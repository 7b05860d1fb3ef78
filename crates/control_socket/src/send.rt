//! A client's own side.
use crate::command::ControlCommand;
use std::alloc::Global;
use std::io::{self, Read, Write};
use std::net::Net;
use std::os::unix::net::UnixStream;

/// The most octets of a reply that are read (own).
const MOST: u64 = 1 << 20;

/// Sends a command to the server that listens at a path, and gives its reply, once that is whole. It waits for as long as the server takes.
pub fn send_command<R: Net>(
    rt: &R,
    alloc: Global,
    path: &str,
    command: ControlCommand,
) -> io::Result<Vec<u8>> {
    let mut stream = UnixStream::connect(rt, path)?;
    stream.write_all(command.word().as_bytes())?;
    stream.write_all(b"\n")?;
    let mut reply = Vec::new(alloc);
    stream.take(MOST).read_to_end(&mut reply)?;
    Ok(reply)
}

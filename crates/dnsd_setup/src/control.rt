//! The socket for the operator's commands, on the server's side and on that of `dnsd control`.
use command_line::Control;
use commands::{DONE, FAILED, REFUSED};
use control_socket::{BindFault, bind_control, send_command};
use log_lines::Level;
use std::fs::{self, Files};
use std::io;
use std::net::Net;
use std::os::unix::net::UnixListener;
use std::rt::Env;

/// The last line of a reply to a command that is done.
const DONE_LINE: &str = "ok";

/// How the last line of a reply to a command begins that isn't done.
const ERROR_LINE: &str = "error: ";

/// Binds the socket at a path. None if that fails; standard error then has the reason.
pub fn bind_control_at<R: Files + Net + Env + Eprint + AllocGlobal>(
    rt: &R,
    path: &str,
) -> io::Result<Option<UnixListener>> {
    let mark = Level::Error.mark_for(rt);
    let written = match bind_control(rt, path) {
        Ok(listener) => return Ok(Some(listener)),
        Err(BindFault::InUse) => eprintln!(rt;
            "{mark}error: --control: another server listens on '{path}'"
        ),
        Err(BindFault::NoSocket) => eprintln!(rt;
            "{mark}error: --control: '{path}' is a file that is no socket"
        ),
        Err(BindFault::Io(fault)) => eprintln!(rt;
            "{mark}error: --control: cannot listen on '{path}': {fault}"
        ),
    };
    written?;
    Ok(None)
}

/// Removes the socket at a path, once nobody listens there.
pub fn remove_control<R: Files>(rt: &R, path: &str) {
    let _ = fs::remove_file(rt, path);
}

/// Sends a command to a running server, prints its reply, and returns the program's status: 1 if the command isn't done, and 3 if there is no reply.
pub fn run_control<R: Files + Net + Print + Eprint + AllocGlobal>(
    rt: &R,
    control: Control<'_>,
) -> io::Result<u8> {
    let path = control.path;
    let reply = match send_command(rt, rt.alloc(), path, control.command) {
        Ok(reply) => reply,
        Err(fault) => {
            eprintln!(rt; "error: no server answers on '{path}': {fault}")?;
            return Ok(FAILED);
        }
    };
    print_reply(rt, path, &reply)
}

/// Prints a reply, and returns the program's status: its lines on standard output, but that the command is done; that it isn't, on standard error.
fn print_reply<R: Print + Eprint + AllocGlobal>(
    rt: &R,
    path: &str,
    reply: &[u8],
) -> io::Result<u8> {
    let text = String::from_utf8_lossy(rt.alloc(), reply)?;
    let mut status = FAILED;
    for line in text.as_str().lines() {
        if line == DONE_LINE {
            status = DONE;
        } else if line.starts_with(ERROR_LINE) {
            eprintln!(rt; "{line}")?;
            status = REFUSED;
        } else {
            println!(rt; "{line}")?;
        }
    }
    if status == FAILED {
        eprintln!(rt; "error: the server on '{path}' ended before it replied")?;
    }
    Ok(status)
}

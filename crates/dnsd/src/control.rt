//! The operator's commands to a running server: its control socket, and the thread that reads the zone file again for a reload.
use crate::metrics::{beside_of, control_work_of, drops_for, process_for, started};
use command_line::Serve;
use commands::Source;
use dnsd_setup::{
    Entries, FileReader, StartedZone, bind_control_at, prepare_reloads, remove_control,
};
use server_control::{ControlPlan, MetricsPlan};
use std::alloc::AllocError;
use std::fs::{File, Files};
use std::io;
use std::net::{Net, SocketAddr};
use std::os::unix::net::UnixListener;
use std::rt::Env;
use std::time::Clock;

/// That a socket can't be listened on; standard error has the reason.
#[derive(Clone, Copy)]
pub struct NotBound;

/// Binds the control socket, if there is to be one, and starts the thread that reads the zone file for reloads, by `start`, with the queue of the log's
/// thread. What a thread needs that takes commands. An error is lack of memory, or of a thread.
pub fn control_for<
    R: Files<File = File> + Env + Eprint + AllocGlobal + Net + Clock,
    S: Fn(FileReader) -> io::Result<()>,
>(
    rt: &R,
    serve: &Serve<'_>,
    entries: &Entries,
    start: &S,
) -> io::Result<Result<Option<ControlPlan>, NotBound>>
    requires { (f : _) (x : _) → S.pre f x }
{
    let Some(path) = serve.control else {
        return Ok(Ok(None));
    };
    let listener = match bind_control_at(rt, path) {
        Ok(Some(listener)) => listener,
        Ok(None) => return Ok(Err(NotBound)),
        Err(fault) => return Err(fault),
    };
    match plan_for(rt, serve, listener, entries, start) {
        Ok(plan) => Ok(Ok(Some(plan))),
        Err(fault) => {
            remove_control(rt, path);
            Err(fault)
        }
    }
}

/// What a thread needs that takes commands on a socket.
fn plan_for<R: Files<File = File> + AllocGlobal + Clock, S: Fn(FileReader) -> io::Result<()>>(
    rt: &R,
    serve: &Serve<'_>,
    listener: UnixListener,
    entries: &Entries,
    start: &S,
) -> io::Result<ControlPlan>
    requires { (f : _) (x : _) → S.pre f x }
{
    let reloads = match serve.zone {
        Source::Input => None,
        Source::File(path) => {
            let (origin, is_wide) = (&serve.origin, serve.is_wide);
            let (slot, reader) = prepare_reloads(rt.alloc(), path, origin, is_wide, entries)?;
            start(reader)?;
            Some(slot)
        }
    };
    Ok(ControlPlan {
        listener,
        reloads,
        beside: beside_of(serve),
        started: started(rt),
        first: 0,
        store: None,
        drops: drops_for(rt)?,
        process: process_for(rt),
        work: None,
    })
}

/// Removes the control socket, which was bound, if there was to be one.
pub fn unbind_control<R: Files<File = File>>(rt: &R, serve: &Serve<'_>) {
    if let Some(path) = serve.control {
        remove_control(rt, path);
    }
}

/// The same, if there is that, for a server that begins with this at these addresses: the number of its version, what is seen of its store, the addresses, and where metrics, if they are
/// served, see its rounds. Fails if there is not enough memory.
pub fn control_of(
    control: Option<ControlPlan>,
    metrics: Option<&MetricsPlan>,
    begun: &StartedZone,
    addresses: &[SocketAddr],
) -> Result<Option<ControlPlan>, AllocError> {
    let Some(mut plan) = control else {
        return Ok(None);
    };
    for address in addresses {
        plan.drops.watch(*address)?;
    }
    plan.first = begun.number();
    plan.store = begun.store_state()?;
    plan.work = control_work_of(metrics)?;
    Ok(Some(plan))
}

//! Running a command.
ghost use Rattle.std.specs.Prelude.{◌≡◌, ◌⊎◌, [], Ok, Err, OnOk, OnErr, IfOk, IfErr, IfSome};
ghost use Rattle.std.specs.Io.Buffered.{writer_buffer, writer_contents};
ghost use Rattle.commands.specs.Input.{zone_text_of, behind_zone_text};
ghost use Rattle.commands.specs.Run.{status_of, AtRefusedZone, AtDevice, IsOfInput, IsOfRun, IsOfZone, IsRefused, zone_for, TellsIn, TellsOf, TellsLarge, TellsRoot, Does, DoesIn, BeginsToDo, BeginsToDoIn};

use crate::answer::run_answer;
use crate::apply::run_apply;
use crate::check::run_check;
use crate::command::Command;
use crate::fault::Fault;
use crate::input::read_zone_text;
use crate::report::report_fault;
use crate::steps::run_steps;
use master_file::{FileFault, read_zone};
use notify::{Large, large_in};
use std::alloc::Global;
use std::io::{BufRead, BufWriter, Write};
use world_run::Options;
use zone_tree::{Zone, ZoneRead};

/// How a command ended.
#[derive(Drop)]
pub struct Ended {
    /// The program's status.
    pub status: u8,
    /// Whether the apex of the zone is the root.
    pub at_root: bool,
    /// For a checked zone, what it has more of than stock secondaries accept.
    pub large: Option<Large>,
}

/// The outcome of a command over a zone's text.
#[derive(Drop)]
pub struct Outcome {
    /// Ok if the command succeeded, or why it failed.
    pub done: Result<(), Fault>,
    /// Whether the apex of the zone is the root.
    pub at_root: bool,
    /// For a checked zone, what it has more of than stock secondaries accept.
    pub large: Option<Large>,
}

/// Runs one parsed command. The zone's text is the start of the reader's input, up to a line `%` or the end of input; the command's own input
/// follows. A fault is written to `errors` as one line, followed by its meaning if it is a fault of the zone's text or of a transfer. Returns the
/// program's status: 0 if the command succeeded, 1 if the zone, the script or the transfer is refused, 3 on an I/O error or lack of memory. At 0
/// nothing that was written is left in the buffer.
pub fn run_text<R: BufRead, W: Write + Drop, E: Write>(
    alloc: Global,
    command: &Command<'_>,
    reader: &mut R,
    writer: &mut BufWriter<W>,
    errors: &mut E,
) -> Ended
    // Clauses about octets hold if the reader reports its remaining octets and the writers their contents.
    ensures done { result.status ≡ 0 → IfSome (R.remaining reader.old) (λ input.
        Does command.now (zone_text_of input) (behind_zone_text input) (writer_contents W.contents writer.old) (writer_contents W.contents writer.new)) }
    ensures flushed { result.status ≡ 0 → writer_buffer writer.new ≡ [] }
    ensures taken { result.status ≡ 0 → IfSome (R.remaining reader.old) (λ input.
        TellsOf command.now (zone_text_of input) (behind_zone_text input) (Ok tt)) }
    ensures quiet { result.status ≡ 0 → E.contents errors.new ≡ E.contents errors.old }
    ensures refused { result.status ≡ 1 → IsRefused command.now (R.remaining reader.old)
        (E.contents errors.old) (E.contents errors.new) }
    ensures unwritten { result.status ≡ 1 → writer_contents W.contents writer.new ≡ writer_contents W.contents writer.old }
    ensures failed { result.status ≡ 3 → (writer_contents W.contents writer.new ≡ writer_contents W.contents writer.old)
        ⊎ IfSome (R.remaining reader.old) (λ input.
        BeginsToDo command.now (zone_text_of input) (behind_zone_text input) (writer_contents W.contents writer.old) (writer_contents W.contents writer.new)) }
    ensures at_root { result.status ≡ 0 → IfSome (R.remaining reader.old) (λ input. TellsRoot (zone_for command.now (zone_text_of input)) result.at_root) }
    ensures large { result.status ≡ 0 → IfSome (R.remaining reader.old) (λ input. TellsLarge command.now (zone_for command.now (zone_text_of input)) result.large) }
    ensures statuses { (result.status ≡ 0) ⊎ (result.status ≡ 1) ⊎ (result.status ≡ 3) }
{
    match read_zone_text(alloc, reader) {
        Ok(text) => {
            let Outcome {
                done,
                at_root,
                large,
            } = run_with_zone(alloc, command, text.as_slice(), reader, writer);
            let status = report_fault(alloc, done, text.as_slice(), errors);
            Ended {
                status,
                at_root,
                large,
            }
        }
        Err(fault) => Ended {
            status: report_fault(alloc, Err(Fault::Device(fault)), b"", errors),
            at_root: false,
            large: None,
        },
    }
}

/// Runs one parsed command over the zone of a text that has already been read, as `run_text` does.
pub fn run_with_zone<R: BufRead, W: Write + Drop>(
    alloc: Global,
    command: &Command<'_>,
    text: &[u8],
    reader: &mut R,
    writer: &mut BufWriter<W>,
) -> Outcome
    // Clauses about octets hold if the reader reports its remaining octets and the writer its contents.
    ensures ok { OnOk result.done (IfSome (R.remaining reader.old) (λ input.
        Does command.now text.now input (writer_contents W.contents writer.old) (writer_contents W.contents writer.new))) }
    ensures at_root { OnOk result.done (TellsRoot (zone_for command.now text.now) result.at_root) }
    ensures large { OnOk result.done (TellsLarge command.now (zone_for command.now text.now) result.large) }
    ensures flushed { OnOk result.done (writer_buffer writer.new ≡ []) }
    ensures zone { IfErr result.done (λ fault. IsOfZone (zone_for command.now text.now) fault) }
    ensures transfer { IfSome (R.remaining reader.old) (λ input. TellsOf command.now text.now input result.done) }
    ensures fault { IfErr result.done (λ fault. IfSome (R.remaining reader.old) (λ input. IsOfRun command.now input fault)) }
    ensures unread { IfErr result.done (λ fault. AtRefusedZone fault (R.remaining reader.new ≡ R.remaining reader.old)) }
    ensures unwritten { IfErr result.done (λ fault. status_of fault ≡ 1
        → writer_contents W.contents writer.new ≡ writer_contents W.contents writer.old) }
    ensures failed { IfErr result.done (λ fault. AtDevice fault (IfSome (R.remaining reader.old) (λ input.
        BeginsToDo command.now text.now input (writer_contents W.contents writer.old) (writer_contents W.contents writer.new)))) }
{
    let read = read_zone(alloc, text, command.origin());
    let at_root = is_at_root(&read);
    let large = large_of(command, &read);
    let done = run_read(alloc, command, read, reader, writer);
    Outcome {
        done,
        at_root,
        large,
    }
}

/// Whether a zone was read and its apex is the root.
fn is_at_root(read: &Result<Zone, FileFault>) -> bool
    ensures { TellsRoot read.now result }
{
    match read {
        Ok(zone) => zone.apex().is_root(),
        Err(_) => false,
    }
}

/// What a checked zone has more of than stock secondaries accept. None if it has no more, the command is not a check, or no zone was read.
fn large_of(command: &Command<'_>, read: &Result<Zone, FileFault>) -> Option<Large>
    ensures { TellsLarge command.now read.now result }
{
    match (command, read) {
        (Command::Check { .. }, Ok(zone)) => large_in(zone),
        _ => None,
    }
}

/// Runs one parsed command over the result of reading a zone's text.
fn run_read<R: BufRead, W: Write + Drop>(
    alloc: Global,
    command: &Command<'_>,
    read: Result<Zone, FileFault>,
    reader: &mut R,
    writer: &mut BufWriter<W>,
) -> Result<(), Fault>
    // Clauses about octets hold if the reader reports its remaining octets and the writer its contents.
    ensures refused { IfErr read (λ fault. result ≡ Err (Fault.Zone fault)) }
    ensures unread { OnErr read (R.remaining reader.new ≡ R.remaining reader.old) }
    ensures zone { OnOk read (IfErr result (λ fault. AtRefusedZone fault ⊥)) }
    ensures transfer { IfOk read (λ zone. IfSome (R.remaining reader.old) (λ input. TellsIn command.now zone input result)) }
    ensures ok { IfOk read (λ zone. OnOk result (IfSome (R.remaining reader.old) (λ input.
        DoesIn command.now zone input (writer_contents W.contents writer.old) (writer_contents W.contents writer.new)))) }
    ensures flushed { OnOk result (writer_buffer writer.new ≡ []) }
    ensures fault { IfErr result (λ fault. IfSome (R.remaining reader.old) (λ input. IsOfRun command.now input fault)) }
    ensures unwritten { IfErr result (λ fault. status_of fault ≡ 1
        → writer_contents W.contents writer.new ≡ writer_contents W.contents writer.old) }
    ensures failed { IfOk read (λ zone. IfErr result (λ fault. AtDevice fault (IfSome (R.remaining reader.old) (λ input.
        BeginsToDoIn command.now zone input (writer_contents W.contents writer.old) (writer_contents W.contents writer.new))))) }
{
    let zone = read?;
    run_over(alloc, command, zone, reader, writer)
}

/// Runs one parsed command over a zone, and flushes the writer.
fn run_over<R: BufRead, W: Write + Drop>(
    alloc: Global,
    command: &Command<'_>,
    zone: Zone,
    reader: &mut R,
    writer: &mut BufWriter<W>,
) -> Result<(), Fault>
    // Clauses about octets hold if the reader reports its remaining octets and the writer its contents.
    ensures ok { OnOk result (IfSome (R.remaining reader.old) (λ input.
        DoesIn command.now zone input (writer_contents W.contents writer.old) (writer_contents W.contents writer.new))) }
    ensures flushed { OnOk result (writer_buffer writer.new ≡ []) }
    ensures fault { IfErr result (λ fault. IfSome (R.remaining reader.old) (λ input. IsOfInput command.now input fault)) }
    ensures zone { IfErr result (λ fault. AtRefusedZone fault ⊥) }
    ensures transfer { IfSome (R.remaining reader.old) (λ input. TellsIn command.now zone input result) }
    ensures unwritten { IfErr result (λ fault. status_of fault ≡ 1
        → writer_contents W.contents writer.new ≡ writer_contents W.contents writer.old) }
    ensures failed { IfErr result (λ fault. AtDevice fault (IfSome (R.remaining reader.old) (λ input.
        BeginsToDoIn command.now zone input (writer_contents W.contents writer.old) (writer_contents W.contents writer.new)))) }
{
    do_command(alloc, command, zone, reader, writer)?;
    writer.flush()?;
    Ok(())
}

/// Runs one parsed command over a zone.
fn do_command<R: BufRead, W: Write>(
    alloc: Global,
    command: &Command<'_>,
    zone: Zone,
    reader: &mut R,
    writer: &mut W,
) -> Result<(), Fault>
    // Clauses about octets hold if the reader reports its remaining octets and the writer its contents.
    ensures ok { OnOk result (IfSome (R.remaining reader.old) (λ input.
        DoesIn command.now zone input (W.contents writer.old) (W.contents writer.new))) }
    ensures fault { IfErr result (λ fault. IfSome (R.remaining reader.old) (λ input. IsOfInput command.now input fault)) }
    ensures zone { IfErr result (λ fault. AtRefusedZone fault ⊥) }
    ensures transfer { IfSome (R.remaining reader.old) (λ input. TellsIn command.now zone input result) }
    ensures unwritten { IfErr result (λ fault. status_of fault ≡ 1 → W.contents writer.new ≡ W.contents writer.old) }
    ensures failed { IfErr result (λ fault. AtDevice fault (IfSome (R.remaining reader.old) (λ input.
        BeginsToDoIn command.now zone input (W.contents writer.old) (W.contents writer.new)))) }
{
    match command {
        Command::Answer { transport, .. } => {
            Ok(run_answer(alloc, zone, *transport, reader, writer)?)
        }
        Command::Check { .. } => Ok(run_check(alloc, &zone, writer)?),
        Command::Apply { .. } => run_apply(alloc, &zone, reader, writer),
        Command::Steps { keep, window, .. } => {
            let options = Options {
                keep: *keep,
                window: *window,
            };
            Ok(run_steps(alloc, zone, options, reader, writer)?)
        }
    }
}

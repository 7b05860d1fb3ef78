//! Playing a script, and printing the replies.
ghost use Rattle.std.specs.Prelude.{◌≡◌, ◌++◌, ◌∷◌, [], map, Some, Ok, Err, OnOk, OnErr, IfOk, IfErr, IfSome, decimal};
ghost use Rattle.std.specs.Io.KnownBytes.{Appends};
ghost use Rattle.hex.specs.Hex.{encode_lower};
ghost use Rattle.commands.specs.Lines.{Begins, spaced, spaced_behind};
ghost use Rattle.commands.specs.Fault.{IsRefusal, AtDevice, AtLimit, IsOfScript, IsOfPlay};
ghost use Rattle.commands.specs.Script.{script_of, script_output, IsPastLimit, said_by, printed_answer, printed, printed_lines};
ghost use Rattle.world_run.specs.Words.{step_words};
ghost use Rattle.world_run.specs.World.{replies_of};

use crate::script::{ScriptStep, read_script};
use crate::script_fault::StepsFault;
use crate::whole::write_whole;
use std::alloc::Global;
use std::io::{self, BufRead, Write};
use world_run::{Answer, Octets, Options, StepName, WorldReply, WorldStep, run};
use zone_tree::Zone;

/// Plays the script from the reader, starting from a zone, with as many versions kept and as long a window as the options say. Writes a line per step
/// with the result of its call: `NAME N` for a strong owner of version N, `left`, `buried N`, the reply to a request or to an update in lower-case
/// hexadecimal, `-` if there is none, the messages of a transfer separated by spaces; `ok` for a call that has begun; the name of the step that a
/// call took, with the call's result if it was the last; and `not enabled`.
///
/// The whole script is read before anything is played, and played before anything is written. `Script` is the first line that is not a step, `World`
/// lack of memory while the script is played or a line that begins a call while 64 are under way, `Device` an I/O error or lack of memory elsewhere.
/// At a `Device` fault a prefix of the output has been written.
pub fn run_steps<R: BufRead, W: Write>(
    alloc: Global,
    zone: Zone,
    options: Options,
    reader: &mut R,
    writer: &mut W,
) -> Result<(), StepsFault>
    // Clauses about octets hold if the reader reports its remaining octets and the writer its contents.
    ensures ok { OnOk result (IfSome (R.remaining reader.old) (λ input.
        Appends (W.contents writer.old) (W.contents writer.new) (script_output zone options.keep options.window input))) }
    ensures fault { IfErr result (λ fault. IfSome (R.remaining reader.old) (λ input. IsOfScript input fault)) }
    ensures limit { IfErr result (λ fault. AtLimit fault (IfSome (R.remaining reader.old) (λ input. IsPastLimit zone options.keep options.window (script_of input)))) }
    ensures unwritten { IfErr result (λ fault. IsRefusal fault → W.contents writer.new ≡ W.contents writer.old) }
    ensures failed { IfErr result (λ fault. AtDevice fault (IfSome (R.remaining reader.old) (λ input.
        Begins (W.contents writer.old) (W.contents writer.new) (script_output zone options.keep options.window input)))) }
{
    let script = read_script(alloc, reader)?;
    let replies = match play(alloc, zone, options, script.as_slice()) {
        Ok(replies) => replies,
        Err(fault) => return Err(fault),
    };
    write_replies(alloc, replies.as_slice(), writer)?;
    Ok(())
}

/// The replies to a script's steps, played from a zone on.
fn play(
    alloc: Global,
    zone: Zone,
    options: Options,
    script: &[ScriptStep],
) -> Result<Vec<WorldReply>, StepsFault>
    ensures replies { IfOk result (λ replies. replies_of zone options.keep options.window (map said_by script.now) ≡ Some replies.items) }
    ensures fault { IfErr result (λ fault. IsOfPlay fault) }
    ensures limit { IfErr result (λ fault. AtLimit fault (IsPastLimit zone options.keep options.window (Ok (map said_by script.now)))) }
{
    let steps = world_steps(alloc, script)?;
    let replies = match run(alloc, zone, options, steps.as_slice()) {
        Ok(replies) => replies,
        Err(fault) => return Err(StepsFault::World(fault)),
    };
    Ok(replies)
}

/// A script's steps in the form that `world_run` takes.
fn world_steps<'a>(alloc: Global, script: &'a [ScriptStep]) -> io::Result<Vec<WorldStep<'a>>>
    ensures { IfOk result (λ steps. steps.items ≡ map said_by script.now) }
{
    let mut steps = Vec::with_capacity(alloc, script.len())?;
    for step in script {
        steps.push(step.as_world())?;
    }
    Ok(steps)
}

/// Writes the line for each reply.
fn write_replies<W: Write>(alloc: Global, replies: &[WorldReply], writer: &mut W) -> io::Result<()>
    ensures ok { OnOk result (Appends (W.contents writer.old) (W.contents writer.new) (printed_lines replies.now)) }
    ensures err { OnErr result (Begins (W.contents writer.old) (W.contents writer.new) (printed_lines replies.now)) }
{
    let mut line = Vec::new(alloc);
    for reply in replies {
        line.clear();
        put_line(alloc, &mut line, reply)?;
        write_whole(writer, line.as_slice())?;
    }
    Ok(())
}

/// Appends a reply as it is printed, and an LF.
fn put_line(alloc: Global, line: &mut Vec<u8>, reply: &WorldReply) -> io::Result<()>
    ensures { OnOk result (line.new.items ≡ line.old.items ++ (printed reply.now ++ 10 ∷ [])) }
{
    put_reply(alloc, line, reply)?;
    put(line, b"\n")
}

/// Appends a reply as it is printed.
fn put_reply(alloc: Global, line: &mut Vec<u8>, reply: &WorldReply) -> io::Result<()>
    ensures { OnOk result (line.new.items ≡ line.old.items ++ printed reply.now) }
{
    match reply {
        WorldReply::Answered(answer) => put_answer(alloc, line, answer),
        WorldReply::Begun => put(line, b"ok"),
        WorldReply::Step(step) => put_step(line, *step),
        WorldReply::Last(step, answer) => {
            put_step(line, *step)?;
            put(line, b" ")?;
            put_answer(alloc, line, answer)
        }
        WorldReply::NotEnabled => put(line, b"not enabled"),
    }
}

/// Appends the result of a call as it is printed.
fn put_answer(alloc: Global, line: &mut Vec<u8>, answer: &Answer) -> io::Result<()>
    ensures { OnOk result (line.new.items ≡ line.old.items ++ printed_answer answer.now) }
{
    match answer {
        Answer::Owner(name, number) => {
            put(line, name.as_slice())?;
            put(line, b" ")?;
            put_number(line, *number)
        }
        Answer::Left => put(line, b"left"),
        Answer::Buried(number) => {
            put(line, b"buried ")?;
            put_number(line, *number)
        }
        Answer::Faded => put(line, b"ok"),
        Answer::Nothing => put(line, b"none"),
        Answer::Reply(octets) => put_digits(alloc, line, octets),
        Answer::Silent => put(line, b"-"),
        Answer::Messages(messages) => put_messages(alloc, line, messages.as_slice()),
    }
}

/// Appends messages in lower-case hexadecimal, separated by spaces.
fn put_messages(alloc: Global, line: &mut Vec<u8>, messages: &[Octets]) -> io::Result<()>
    ensures { OnOk result (line.new.items ≡ line.old.items ++ spaced messages.now) }
{
    let Some((first, behind)) = messages.split_first() else {
        return Ok(());
    };
    put_digits(alloc, line, first)?;
    put_behind(alloc, line, behind)
}

/// Appends messages in lower-case hexadecimal, each preceded by a space.
fn put_behind(alloc: Global, line: &mut Vec<u8>, messages: &[Octets]) -> io::Result<()>
    ensures { OnOk result (line.new.items ≡ line.old.items ++ spaced_behind messages.now) }
{
    for message in messages {
        put(line, b" ")?;
        put_digits(alloc, line, message)?;
    }
    Ok(())
}

/// Appends octets in lower-case hexadecimal.
fn put_digits(alloc: Global, line: &mut Vec<u8>, octets: &Octets) -> io::Result<()>
    ensures { OnOk result (line.new.items ≡ line.old.items ++ encode_lower octets.now) }
{
    put(line, hex::encode(alloc, octets.as_slice())?.as_bytes())
}

/// Appends the name of a step.
fn put_step(line: &mut Vec<u8>, step: StepName) -> io::Result<()>
    ensures { OnOk result (line.new.items ≡ line.old.items ++ step_words step) }
{
    write!(line, "{step}")
}

/// Appends a number in decimal digits.
fn put_number(line: &mut Vec<u8>, number: u64) -> io::Result<()>
    ensures { OnOk result (line.new.items ≡ line.old.items ++ decimal number) }
{
    write!(line, "{number}")
}

/// Appends octets.
fn put(line: &mut Vec<u8>, octets: &[u8]) -> io::Result<()>
    ensures { OnOk result (line.new.items ≡ line.old.items ++ octets.now) }
{
    line.extend_from_slice(octets)?;
    Ok(())
}

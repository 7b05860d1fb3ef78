//! The lines of a script, executed in turn.
ghost use Rattle.std.specs.Prelude.{◌≡◌, ◌++◌, ◌∷◌, List, [], Some, None, IfOk, OnOk, IfErr};
ghost use Rattle.std.specs.Option.{option_map};
ghost use Rattle.world_run.specs.World.{World, play as says_play, replies_of, turn};
ghost use Rattle.world_run.specs.declared.step.WorldReply.{WorldReply as Reply};

use crate::fault::WorldFault;
use crate::options::Options;
use crate::play::Play;
use crate::step::{WorldReply, WorldStep};
use std::alloc::Global;
use zone_tree::Zone;

/// Executes the lines in turn, from a world in which one version is published, and gives a reply for each. The last version is kept,
/// and as many older ones as the options say; incremental transfers are made from the window (RFC 1995, 5).
///
/// `NoMemory` where an allocation was refused, `Limit` where a line begins a call and 64 are under way.
pub fn run<'a>(
    alloc: Global,
    zone: Zone,
    options: Options,
    lines: &[WorldStep<'a>],
) -> Result<Vec<WorldReply>, WorldFault>
    ensures reported { IfOk result (λ replies. replies_of zone options.keep options.window lines.now ≡ Some replies.items) }
    ensures limit { IfErr result (λ fault. fault ≡ WorldFault.Limit → replies_of zone options.keep options.window lines.now ≡ None) }
{
    match Play::new(alloc, zone, options) {
        Ok(mut play) => play_lines(alloc, &mut play, lines),
        Err(fault) => Err(fault),
    }
}

/// Executes the lines in turn, and gives a reply for each.
fn play_lines<'a>(
    alloc: Global,
    play: &mut Play<'a>,
    lines: &[WorldStep<'a>],
) -> Result<Vec<WorldReply>, WorldFault>
    ensures reported { IfOk result (λ replies. option_map {U = List Reply} (λ played. played.0) (says_play play.old lines.now) ≡ Some replies.items) }
    ensures limit { IfErr result (λ fault. fault ≡ WorldFault.Limit → option_map {U = List Reply} (λ played. played.0) (says_play play.old lines.now) ≡ None) }
{
    let mut replies = Vec::new(alloc);
    for line in lines {
        match play_line(alloc, play, line, &mut replies) {
            Ok(()) => {}
            Err(fault) => return Err(fault),
        }
    }
    Ok(replies)
}

/// Executes a line, and adds its reply to those of the lines before it.
fn play_line<'a>(
    alloc: Global,
    play: &mut Play<'a>,
    line: &WorldStep<'a>,
    replies: &mut Vec<WorldReply>,
) -> Result<(), WorldFault>
    ensures ok { OnOk result (option_map {U = List Reply × World} (λ reported. (replies.old.items ++ reported.0 ∷ [], reported.1)) (turn play.old line.now) ≡ Some (replies.new.items, play.new)) }
    ensures limit { IfErr result (λ fault. fault ≡ WorldFault.Limit → turn play.old line.now ≡ None) }
{
    if replies.reserve(1).is_err() {
        return Err(WorldFault::NoMemory);
    }
    match play.turn(alloc, line) {
        Ok(reply) => {
            replies.push_reserved(reply);
            Ok(())
        }
        Err(fault) => Err(fault),
    }
}

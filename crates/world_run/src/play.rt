//! The zone versions in the words of a cell, the names of their owners, the versions that are kept, and the calls under way, changed by one
//! line at a time.
ghost use Rattle.std.specs.Prelude.{◌≡◌, ◌++◌, ◌∷◌, [], nat_lt, if◌then◌else◌, IsTrue, IsFalse, Some, None, IfOk, IfErr, OnOk};
ghost use Rattle.world_run.specs.declared.entries.Entry.{Entry as EntryRow};
ghost use Rattle.world_run.specs.World.{World, started, most_steps, call_of, start as says_start, names_at, weak_names_at, kept_at, entries_at, answer_at, code_reply, steps_up_to, is_full as says_full, all_made as says_all_made, whole as says_whole, begin_call as says_begin, begin_under, gone_on, next as says_next, turn as says_turn};
ghost use Rattle.dns_rdata.specs.declared.numbers.Rcode.TheVariants.{NoError};
ghost use Rattle.world_run.specs.declared.phase.End.TheVariants.{Kept};
ghost use Rattle.world_run.specs.declared.start.Start.TheVariants.{Takes};
ghost use Rattle.world_run.specs.declared.step.Answer.TheVariants.{Owner};
ghost use Rattle.world_run.specs.declared.step.WorldReply.TheVariants.{Answered};

use crate::asked::reply_with;
use crate::calls::{UnderWay, call_under, put_under_way};
use crate::entries::{Entry, MOST_ENTRIES, put_entry};
use crate::fault::WorldFault;
use crate::kept_owners::put_kept;
use crate::lent::Handle;
use crate::names::{Named, give_up, give_up_weakly, put_name};
use crate::options::Options;
use crate::phase::{End, Phase, Progress};
use crate::published::Published;
use crate::start::Start;
use crate::step::{Answer, Call, Octets, StepName, WorldReply, WorldStep};
use crate::words::{FIRST_OWNER, first_words, go_past, make_step, take_steps};
use cell_core::WordMachine;
use dns_rdata::{Rcode, Serial};
use serve_core::Heading;
use std::alloc::Global;
use std::marker::Model;
use std::mem;
use zone_tree::Zone;

/// The weak owner of the first version's entry.
const FIRST_WEAK_OWNER: usize = 1;

/// The greatest number of calls under way.
const MOST_CALLS: usize = 64;

/// The words of a cell of zone versions; the names in use for strong and for weak owners; the calls under way; how many versions are kept besides the last,
/// and their owners, the oldest first; the greatest number of entries of the window, which is what incremental transfers are made from (RFC 1995, 5), and
/// the entries, the oldest first.
#[derive(Drop)]
pub struct Play<'a> {
    pub(crate) machine: WordMachine<Published>,
    pub(crate) names: Vec<Named<'a>>,
    pub(crate) weak_names: Vec<Named<'a>>,
    pub(crate) calls: Vec<UnderWay<'a>>,
    pub(crate) keep: usize,
    pub(crate) window: usize,
    pub(crate) kept: Vec<usize>,
    pub(crate) entries: Vec<Entry>,
}

impl<'a> Model for Play<'a> {
    ghost use Rattle.world_run.specs.World.{World};

    ghost Value = { World };

    ghost view = { λ a. record { words = a.machine; names = a.names.items; weak_names = a.weak_names.items; calls = a.calls.items; keep = a.keep; window = a.window; kept = a.kept.items; entries = a.entries.items } };
}

impl<'a> Play<'a> {
    /// One version is published and kept, and has an entry where there is a window; no name is in use, and no call is under way.
    ///
    /// `NoMemory` where an allocation was refused.
    pub fn new(alloc: Global, zone: Zone, options: Options) -> Result<Play<'a>, WorldFault>
        ensures made { IfOk result (λ play. play ≡ started zone options.keep options.window) }
        ensures refused { IfErr result (λ fault. fault ≡ WorldFault.NoMemory) }
    {
        let window = options.window.min(MOST_ENTRIES);
        let first = zone.serial();
        match first_words(alloc, zone, window) {
            Ok(machine) => Play::in_words(alloc, machine, first, options, window),
            Err(fault) => Err(fault),
        }
    }

    /// The same, given the words, the first version's serial and the window's size.
    fn in_words(
        alloc: Global,
        machine: WordMachine<Published>,
        serial: Serial,
        options: Options,
        window: usize,
    ) -> Result<Play<'a>, WorldFault>
        ensures made { IfOk result (λ play. play ≡ record { words = machine; names = []; weak_names = []; calls = []; keep = options.keep; window = window; kept = 0 ∷ []; entries = if nat_lt 0 window then record { number = 0; serial = serial; owner = 1 } ∷ [] else [] }) }
        ensures refused { IfErr result (λ fault. fault ≡ WorldFault.NoMemory) }
    {
        match first_entries(alloc, serial, window) {
            Ok(entries) => Play::with_entries(alloc, machine, entries, options, window),
            Err(fault) => {
                mem::drop(machine);
                Err(fault)
            }
        }
    }

    /// The same, given the window's entries.
    fn with_entries(
        alloc: Global,
        machine: WordMachine<Published>,
        entries: Vec<Entry>,
        options: Options,
        window: usize,
    ) -> Result<Play<'a>, WorldFault>
        ensures made { IfOk result (λ play. play ≡ record { words = machine; names = []; weak_names = []; calls = []; keep = options.keep; window = window; kept = 0 ∷ []; entries = entries.items }) }
        ensures refused { IfErr result (λ fault. fault ≡ WorldFault.NoMemory) }
    {
        match first_kept(alloc) {
            Ok(kept) => Ok(Play {
                machine,
                names: Vec::new(alloc),
                weak_names: Vec::new(alloc),
                calls: Vec::new(alloc),
                keep: options.keep,
                window,
                kept,
                entries,
            }),
            Err(fault) => {
                mem::drop(machine);
                Err(fault)
            }
        }
    }

    /// Executes a line, and gives its reply.
    ///
    /// `NoMemory` where an allocation was refused, `Limit` where the line begins a call and 64 are under way.
    pub fn turn(&mut self, alloc: Global, line: &WorldStep<'a>) -> Result<WorldReply, WorldFault>
        ensures ok { IfOk result (λ reply. says_turn self.old line.now ≡ Some (reply, self.new)) }
        ensures limit { IfErr result (λ fault. fault ≡ WorldFault.Limit → says_turn self.old line.now ≡ None) }
    {
        match line {
            WorldStep::Whole(call) => self.whole(alloc, call),
            WorldStep::Begin(name, call) => self.begin_call(alloc, name, call),
            WorldStep::Next(name) => self.next(alloc, name),
        }
    }

    /// Takes all the steps of a call.
    fn whole(&mut self, alloc: Global, call: &Call<'a>) -> Result<WorldReply, WorldFault>
        ensures ok { IfOk result (λ reply. says_whole self.old call.now (says_start self.old call.now) ≡ Some (reply, self.new)) }
        ensures limit { IfErr result (λ fault. fault ≡ WorldFault.Limit → says_whole self.old call.now (says_start self.old call.now) ≡ None) }
    {
        match self.start(alloc, call) {
            Ok(Start::Refused) => Ok(WorldReply::NotEnabled),
            Ok(Start::Answers(answer)) => self.answered(answer),
            Ok(Start::Takes(phase)) => self.take_in_room(alloc, call, phase),
            Err(fault) => Err(fault),
        }
    }

    /// The answer of a call that takes no step, where there is room for one more call.
    fn answered(&self, answer: Answer) -> Result<WorldReply, WorldFault>
        ensures ok { IfOk result (λ reply. reply ≡ Answered answer) }
        ensures room { OnOk result (IsFalse (says_full self.now)) }
        ensures full { IfErr result (λ fault. (fault ≡ WorldFault.Limit) × IsTrue (says_full self.now)) }
    {
        match self.room() {
            Ok(()) => Ok(WorldReply::Answered(answer)),
            Err(fault) => {
                mem::drop(answer);
                Err(fault)
            }
        }
    }

    /// Takes the steps of a call, where there is room for one more call.
    fn take_in_room(
        &mut self,
        alloc: Global,
        call: &Call<'a>,
        phase: Phase<'a>,
    ) -> Result<WorldReply, WorldFault>
        ensures ok { IfOk result (λ reply. says_whole self.old call.now (Takes phase.entry) ≡ Some (reply, self.new)) }
        ensures limit { IfErr result (λ fault. fault ≡ WorldFault.Limit → says_whole self.old call.now (Takes phase.entry) ≡ None) }
    {
        match self.room() {
            Ok(()) => self.take_all(alloc, call, phase),
            Err(fault) => {
                mem::drop(phase);
                Err(fault)
            }
        }
    }

    /// Begins a call, to be made step by step.
    fn begin_call(
        &mut self,
        alloc: Global,
        name: &Handle<'a>,
        call: &Call<'a>,
    ) -> Result<WorldReply, WorldFault>
        ensures ok { IfOk result (λ reply. begin_under self.old name.now call.now (call_of name.now self.old.calls) ≡ Some (reply, self.new)) }
        ensures limit { IfErr result (λ fault. fault ≡ WorldFault.Limit → begin_under self.old name.now call.now (call_of name.now self.old.calls) ≡ None) }
    {
        if call_under(&self.calls, name).is_some() {
            return Ok(WorldReply::NotEnabled);
        }
        match self.start(alloc, call) {
            Ok(Start::Refused) => Ok(WorldReply::NotEnabled),
            Ok(Start::Answers(answer)) => self.answered(answer),
            Ok(Start::Takes(phase)) => self.begin_in_room(name, call, phase),
            Err(fault) => Err(fault),
        }
    }

    /// Begins a call that takes a step, where there is room for one more call.
    fn begin_in_room(
        &mut self,
        name: &Handle<'a>,
        call: &Call<'a>,
        phase: Phase<'a>,
    ) -> Result<WorldReply, WorldFault>
        ensures ok { IfOk result (λ reply. says_begin self.old name.now call.now (Takes phase.entry) ≡ Some (reply, self.new)) }
        ensures limit { IfErr result (λ fault. fault ≡ WorldFault.Limit → says_begin self.old name.now call.now (Takes phase.entry) ≡ None) }
    {
        if let Err(fault) = self.room() {
            mem::drop(phase);
            return Err(fault);
        }
        give_up(&mut self.names, call);
        give_up_weakly(&mut self.weak_names, call);
        match put_under_way(&mut self.calls, name, phase) {
            Ok(()) => Ok(WorldReply::Begun),
            Err(fault) => Err(fault),
        }
    }

    /// Takes one step of a call under way.
    fn next(&mut self, alloc: Global, name: &Handle<'a>) -> Result<WorldReply, WorldFault>
        ensures ok { IfOk result (λ reply. says_next self.old name.now (call_of name.now self.old.calls) ≡ (reply, self.new)) }
        ensures refused { IfErr result (λ fault. fault ≡ WorldFault.NoMemory) }
    {
        let Some(call) = call_under(&self.calls, name) else {
            return Ok(WorldReply::NotEnabled);
        };
        let step = call.phase().step_name();
        let event = match make_step(&mut self.machine, call.phase()) {
            Ok(Some(event)) => event,
            Ok(None) => return Ok(WorldReply::NotEnabled),
            Err(fault) => return Err(fault),
        };
        match go_past(&self.machine, &mut self.calls, name, event) {
            Ok(progress) => self.go_on(alloc, name, step, progress),
            Err(fault) => Err(fault),
        }
    }

    /// Puts a call back among those under way after its step, or gives its answer at its end.
    fn go_on(
        &mut self,
        alloc: Global,
        name: &Handle<'a>,
        step: StepName,
        progress: Progress<'a>,
    ) -> Result<WorldReply, WorldFault>
        ensures ok { IfOk result (λ reply. gone_on self.old name.now step progress.entry ≡ (reply, self.new)) }
        ensures refused { IfErr result (λ fault. fault ≡ WorldFault.NoMemory) }
    {
        match progress {
            Progress::On(phase) => match put_under_way(&mut self.calls, name, phase) {
                Ok(()) => Ok(WorldReply::Step(step)),
                Err(fault) => Err(fault),
            },
            Progress::Done(end) => match self.finish(alloc, end) {
                Ok(answer) => Ok(WorldReply::Last(step, answer)),
                Err(fault) => Err(fault),
            },
        }
    }

    /// Checks that there is room for one more call.
    fn room(&self) -> Result<(), WorldFault>
        ensures ok { OnOk result (IsFalse (says_full self.now)) }
        ensures full { IfErr result (λ fault. (fault ≡ WorldFault.Limit) × IsTrue (says_full self.now)) }
    {
        if self.calls.len() >= MOST_CALLS {
            return Err(WorldFault::Limit);
        }
        Ok(())
    }

    /// Takes the steps of a call from the first.
    fn take_all(
        &mut self,
        alloc: Global,
        call: &Call<'a>,
        phase: Phase<'a>,
    ) -> Result<WorldReply, WorldFault>
        ensures ok { IfOk result (λ reply. (reply, self.new) ≡ says_all_made self.old call.now (steps_up_to most_steps self.old.words phase.entry)) }
        ensures refused { IfErr result (λ fault. fault ≡ WorldFault.NoMemory) }
    {
        match take_steps(&mut self.machine, phase) {
            Ok(came) => self.come_to(alloc, call, came),
            Err(fault) => Err(fault),
        }
    }

    /// The answer of a call that has made its steps; where one couldn't be made, the call isn't enabled.
    fn come_to(
        &mut self,
        alloc: Global,
        call: &Call<'a>,
        came: Progress<'a>,
    ) -> Result<WorldReply, WorldFault>
        ensures ok { IfOk result (λ reply. (reply, self.new) ≡ says_all_made self.old call.now (came.entry, self.old.words)) }
        ensures refused { IfErr result (λ fault. fault ≡ WorldFault.NoMemory) }
    {
        match came {
            Progress::On(phase) => {
                mem::drop(phase);
                Ok(WorldReply::NotEnabled)
            }
            Progress::Done(end) => {
                give_up(&mut self.names, call);
                give_up_weakly(&mut self.weak_names, call);
                match self.finish(alloc, end) {
                    Ok(answer) => Ok(WorldReply::Answered(answer)),
                    Err(fault) => Err(fault),
                }
            }
        }
    }

    /// Puts a name into use, or keeps a version, where a call ends so, and gives the call's answer.
    fn finish(&mut self, alloc: Global, end: End<'a>) -> Result<Answer, WorldFault>
        ensures ok { IfOk result (λ answer. (answer ≡ answer_at end.entry)
            × (self.new ≡ record self.old { names = names_at end.entry self.old.names; weak_names = weak_names_at end.entry self.old.weak_names; kept = kept_at self.old.keep end.entry self.old.kept; entries = entries_at self.old.window end.entry self.old.entries })) }
        ensures refused { IfErr result (λ fault. fault ≡ WorldFault.NoMemory) }
    {
        match end {
            End::Replied(answer) => Ok(answer),
            End::Owned(name, owner, number) => {
                put_owner(alloc, &mut self.names, name, owner, number)
            }
            End::OwnedWeakly(name, owner, number) => {
                put_owner(alloc, &mut self.weak_names, name, owner, number)
            }
            End::NoSlot(heading) => reply_with(alloc, &heading, Rcode::ServFail),
            End::Kept(heading, owner, entry) => self.keep_version(alloc, &heading, owner, entry),
            End::Sent(sending) => sending.answer(alloc),
        }
    }

    /// Keeps a version under its owner, and enters it in the window, where it has an entry; gives the reply to its update, with this heading.
    fn keep_version(
        &mut self,
        alloc: Global,
        heading: &Heading,
        owner: usize,
        entry: Option<Entry>,
    ) -> Result<Answer, WorldFault>
        ensures ok { IfOk result (λ answer. (answer ≡ code_reply heading.now NoError)
            × (self.new ≡ record self.old { kept = kept_at self.old.keep (Kept heading.now owner entry) self.old.kept; entries = entries_at self.old.window (Kept heading.now owner entry) self.old.entries })) }
        ensures refused { IfErr result (λ fault. fault ≡ WorldFault.NoMemory) }
    {
        if let Err(fault) = put_kept(&mut self.kept, self.keep, owner) {
            return Err(fault);
        }
        if let Some(entry) = entry {
            if let Err(fault) = put_entry(alloc, self.window, &mut self.entries, entry) {
                return Err(fault);
            }
        }
        reply_with(alloc, heading, Rcode::NoError)
    }
}

/// Puts a name into use for an owner of the version of a number, and gives the answer of the call that got it.
fn put_owner<'a>(
    alloc: Global,
    names: &mut Vec<Named<'a>>,
    name: Handle<'a>,
    owner: usize,
    number: u64,
) -> Result<Answer, WorldFault>
    ensures answer { IfOk result (λ answer. answer ≡ Owner name.entry number) }
    ensures put { OnOk result (names.new.items ≡ names.old.items ++ record { name = name.entry; owner = owner } ∷ []) }
    ensures refused { IfErr result (λ fault. fault ≡ WorldFault.NoMemory) }
{
    let Ok(octets) = name.as_slice().to_vec(alloc) else {
        return Err(WorldFault::NoMemory);
    };
    match put_name(names, name, owner) {
        Ok(()) => Ok(Answer::Owner(Octets::new(octets), number)),
        Err(fault) => Err(fault),
    }
}

/// The owners of the versions that are kept at the start.
fn first_kept(alloc: Global) -> Result<Vec<usize>, WorldFault>
    ensures ok { IfOk result (λ kept. kept.items ≡ 0 ∷ []) }
    ensures refused { IfErr result (λ fault. fault ≡ WorldFault.NoMemory) }
{
    let mut kept = Vec::new(alloc);
    match kept.push(FIRST_OWNER) {
        Ok(()) => Ok(kept),
        Err(_) => Err(WorldFault::NoMemory),
    }
}

/// The entry of the first version, where there is a window.
fn first_entries(alloc: Global, serial: Serial, window: usize) -> Result<Vec<Entry>, WorldFault>
    ensures ok { IfOk result (λ entries. entries.items ≡ (if nat_lt 0 window then record { number = 0; serial = serial; owner = 1 } ∷ [] else [])) }
    ensures refused { IfErr result (λ fault. fault ≡ WorldFault.NoMemory) }
{
    let mut entries = Vec::new(alloc);
    if window == 0 {
        return Ok(entries);
    }
    let entry = Entry {
        number: 0,
        serial,
        owner: FIRST_WEAK_OWNER,
    };
    match entries.push(entry) {
        Ok(()) => Ok(entries),
        Err(_) => Err(WorldFault::NoMemory),
    }
}

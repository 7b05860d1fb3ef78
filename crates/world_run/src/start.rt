//! How a call begins.
ghost use Rattle.std.specs.Prelude.{◌≡◌, ◌&&◌, ◌||◌, nat_lt, Some, IfOk, IfErr};
ghost use Rattle.std.specs.Option.{option_copied};
ghost use Rattle.cell_core.specs.Words.{grants};
ghost use Rattle.world_run.specs.World.{answering, ask_start, drop_start, fade_start, is_taken as says_taken, is_taken_weakly as says_taken_weakly, is_held as says_is_held, oldest_kept, owner_of, start as says_start, publication_start, keeping_for, can_enter as says_can_enter, transfer_start, update_start, version_of, zone_of};
ghost use Rattle.zone_tree.specs.Version.{Version as Numbered, zone_serial};
ghost use Rattle.world_run.specs.declared.step.Call.TheVariants.{Load, Copy, Weak, Up, Update};

use crate::asked::{answer_in, reply_with};
use crate::calls::{is_barred, is_reserved, is_reserved_weakly, is_used};
use crate::entries::{enters, leaving_for};
use crate::fault::WorldFault;
use crate::judged::{Judged, judge};
use crate::kept_owners::{is_held, oldest_of};
use crate::lent::{Handle, Request};
use crate::names::{is_in_use, owner_under};
use crate::phase::{Keeping, Phase, Purpose};
use crate::play::Play;
use crate::published::Published;
use crate::step::{Answer, Call};
use dns_rdata::Serial;
use serve_core::Heading;
use std::alloc::Global;
use std::mem;
use zone_tree::Version;

/// How a call begins.
#[derive(Drop)]
pub enum Start<'a> {
    /// It isn't enabled.
    Refused,
    /// It takes no step, and gives this answer.
    Answers(Answer),
    /// This is its first step.
    Takes(Phase<'a>),
}

impl<'a> Start<'a> {
    /// A call that takes no step begins with its answer; where there is none, it isn't enabled.
    pub fn answering(answer: Option<Answer>) -> Start<'a>
        ensures { result ≡ answering answer }
    {
        match answer {
            None => Start::Refused,
            Some(answer) => Start::Answers(answer),
        }
    }
}

impl<'a> Play<'a> {
    /// How a call begins.
    pub(crate) fn start(&self, alloc: Global, call: &Call<'a>) -> Result<Start<'a>, WorldFault>
        ensures ok { IfOk result (λ how. how ≡ says_start self.now call.now) }
        ensures refused { IfErr result (λ fault. fault ≡ WorldFault.NoMemory) }
    {
        let how = match call {
            Call::Load(name) => self.load(name),
            Call::Drop(name) => self.release(name),
            Call::Copy(given, name) => self.copy(given, name),
            Call::Weak(given, name) => self.weaken(given, name),
            Call::Fade(name) => self.fade(name),
            Call::Up(weak, name) => self.raise(weak, name),
            Call::Ask(name, request) => return self.ask(alloc, name, request),
            Call::Transfer(name, request) => return self.ask_transfer(alloc, name, request),
            Call::Update(request) => return self.update(alloc, request),
        };
        Ok(how)
    }

    /// How a load begins.
    fn load(&self, name: &Handle<'a>) -> Start<'a>
        ensures { result ≡ says_start self.now (Load name.now) }
    {
        if self.is_taken(name) {
            return Start::Refused;
        }
        Start::Takes(Phase::Load(name.copy()))
    }

    /// How a drop begins.
    fn release(&self, name: &Handle<'_>) -> Start<'a>
        ensures { result ≡ drop_start self.now.calls (owner_of name.now self.now.names) }
    {
        match owner_under(&self.names, name) {
            None => Start::Refused,
            Some(owner) if is_used(&self.calls, owner) => Start::Refused,
            Some(owner) => Start::Takes(Phase::Release(owner, Purpose::Drop)),
        }
    }

    /// How a copy begins.
    fn copy(&self, given: &Handle<'_>, name: &Handle<'a>) -> Start<'a>
        ensures { result ≡ says_start self.now (Copy given.now name.now) }
    {
        if self.is_taken(name) {
            return Start::Refused;
        }
        match owner_under(&self.names, given) {
            None => Start::Refused,
            Some(owner) => Start::Takes(Phase::Raise(name.copy(), owner)),
        }
    }

    /// How the making of a weak owner begins.
    fn weaken(&self, given: &Handle<'_>, name: &Handle<'a>) -> Start<'a>
        ensures { result ≡ says_start self.now (Weak given.now name.now) }
    {
        if self.is_taken_weakly(name) || is_barred(&self.calls) {
            return Start::Refused;
        }
        match owner_under(&self.names, given) {
            None => Start::Refused,
            Some(owner) => Start::Takes(Phase::Note(name.copy(), owner)),
        }
    }

    /// How the release of a weak owner begins.
    fn fade(&self, name: &Handle<'_>) -> Start<'a>
        ensures { result ≡ fade_start self.now.calls (owner_of name.now self.now.weak_names) }
    {
        match owner_under(&self.weak_names, name) {
            None => Start::Refused,
            Some(owner) if is_used(&self.calls, owner) => Start::Refused,
            Some(owner) => Start::Takes(Phase::Fade(owner, None, Purpose::Drop)),
        }
    }

    /// How an upgrade begins.
    fn raise(&self, weak: &Handle<'_>, name: &Handle<'a>) -> Start<'a>
        ensures { result ≡ says_start self.now (Up weak.now name.now) }
    {
        if self.is_taken(name) {
            return Start::Refused;
        }
        match owner_under(&self.weak_names, weak) {
            None => Start::Refused,
            Some(owner) if is_used(&self.calls, owner) => Start::Refused,
            Some(owner) => Start::Takes(Phase::Look(name.copy(), owner)),
        }
    }

    /// How a request in the version of a name begins.
    fn ask(
        &self,
        alloc: Global,
        name: &Handle<'_>,
        request: &Request<'_>,
    ) -> Result<Start<'a>, WorldFault>
        ensures ok { IfOk result (λ how. how ≡ ask_start (zone_of name.now self.now) request.now) }
        ensures refused { IfErr result (λ fault. fault ≡ WorldFault.NoMemory) }
    {
        match self.version_under(name) {
            None => Ok(Start::Refused),
            Some(version) => match answer_in(alloc, version, request) {
                Ok(answer) => Ok(Start::answering(answer)),
                Err(fault) => Err(fault),
            },
        }
    }

    /// How a question for a transfer of the version of a name begins.
    fn ask_transfer(
        &self,
        alloc: Global,
        name: &Handle<'_>,
        request: &Request<'a>,
    ) -> Result<Start<'a>, WorldFault>
        ensures ok { IfOk result (λ how. how ≡ transfer_start self.now request.now (owner_of name.now self.now.names)) }
        ensures refused { IfErr result (λ fault. fault ≡ WorldFault.NoMemory) }
    {
        match owner_under(&self.names, name) {
            None => Ok(Start::Refused),
            Some(owner) => self.transfer(alloc, owner, request),
        }
    }

    /// How an update begins. It isn't enabled while a call under way needs the window unchanged.
    fn update(&self, alloc: Global, request: &Request<'_>) -> Result<Start<'a>, WorldFault>
        ensures ok { IfOk result (λ how. how ≡ says_start self.now (Update request.now)) }
        ensures refused { IfErr result (λ fault. fault ≡ WorldFault.NoMemory) }
    {
        if is_barred(&self.calls) {
            return Ok(Start::Refused);
        }
        let Some(last) = self.machine.last() else {
            return Ok(Start::Refused);
        };
        match judge(alloc, last, request) {
            Ok(None) => Ok(Start::Refused),
            Ok(Some(judged)) => self.update_judged(alloc, judged),
            Err(fault) => Err(fault),
        }
    }

    /// How an update begins, given its outcome.
    fn update_judged(&self, alloc: Global, judged: Judged) -> Result<Start<'a>, WorldFault>
        ensures ok { IfOk result (λ how. how ≡ update_start self.now (Some judged)) }
        ensures refused { IfErr result (λ fault. fault ≡ WorldFault.NoMemory) }
    {
        match judged {
            Judged::Code(heading, code) => match reply_with(alloc, &heading, code) {
                Ok(answer) => Ok(Start::Answers(answer)),
                Err(fault) => Err(fault),
            },
            Judged::Makes(heading, version) => self.publication(alloc, heading, version),
        }
    }

    /// How an update begins that makes a version.
    fn publication(
        &self,
        alloc: Global,
        heading: Heading,
        version: Published,
    ) -> Result<Start<'a>, WorldFault>
        ensures ok { IfOk result (λ how. how ≡ publication_start self.now heading version) }
        ensures refused { IfErr result (λ fault. fault ≡ WorldFault.NoMemory) }
    {
        if !self.can_publish() {
            mem::drop(heading);
            mem::drop(version);
            return Ok(Start::Refused);
        }
        match self.keeping(alloc, heading, version.version().serial()) {
            Ok(keeping) => Ok(Start::Takes(Phase::Probe(version, keeping))),
            Err(fault) => {
                mem::drop(version);
                Err(fault)
            }
        }
    }

    /// Whether an update that makes a version is enabled: a share is left, the oldest version that it releases is there, and a weak owner can be made.
    fn can_publish(&self) -> bool
        ensures { result ≡ (nat_lt self.now.words.granted grants && says_is_held self.now.words (oldest_kept self.now.keep self.now.kept) && says_can_enter self.now.words self.now.window) }
    {
        self.machine.has_shares()
            && is_held(&self.machine, oldest_of(self.keep, &self.kept))
            && self.can_enter()
    }

    /// What an update does after it has published a version of this serial.
    fn keeping(
        &self,
        alloc: Global,
        heading: Heading,
        serial: Serial,
    ) -> Result<Keeping, WorldFault>
        ensures ok { IfOk result (λ keeping. (version : Numbered) → zone_serial version.zone ≡ serial.0 → keeping ≡ keeping_for self.now heading version) }
        ensures refused { IfErr result (λ fault. fault ≡ WorldFault.NoMemory) }
    {
        let enters = enters(self.window, serial);
        match leaving_for(alloc, self.window, &self.entries, enters) {
            Ok(leaving) => Ok(Keeping {
                heading,
                oldest: oldest_of(self.keep, &self.kept),
                enters,
                leaving,
            }),
            Err(fault) => Err(fault),
        }
    }

    /// Whether a weak owner can be made, where the window is to get an entry.
    fn can_enter(&self) -> bool
        ensures { result ≡ says_can_enter self.now.words self.now.window }
    {
        self.window == 0 || self.machine.has_notes()
    }

    /// Whether a name is in use for a strong owner, or reserved by a call under way.
    fn is_taken(&self, name: &Handle<'_>) -> bool
        ensures { result ≡ says_taken name.now self.now }
    {
        is_in_use(&self.names, name) || is_reserved(&self.calls, name)
    }

    /// Whether a name is in use for a weak owner, or reserved by a call under way.
    fn is_taken_weakly(&self, name: &Handle<'_>) -> bool
        ensures { result ≡ says_taken_weakly name.now self.now }
    {
        is_in_use(&self.weak_names, name) || is_reserved_weakly(&self.calls, name)
    }

    /// The version that a name's owner has; none where the name isn't in use.
    fn version_under(&self, name: &Handle<'_>) -> Option<&Version>
        ensures { option_copied result ≡ version_of name.now self.now }
    {
        let Some(owner) = owner_under(&self.names, name) else {
            return None;
        };
        match self.machine.value(owner) {
            None => None,
            Some(published) => Some(published.version()),
        }
    }
}

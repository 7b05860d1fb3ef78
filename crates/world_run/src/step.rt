//! The lines of a script and their replies.
ghost use Rattle.std.specs.Prelude.{◌≡◌, Some};
ghost use Rattle.world_run.specs.Words.{step_words};

use crate::lent::{Handle, Request};
use crate::message_list::MessageList;
use std::fmt;
use std::marker::Model;

/// A call. All but `Ask` and `Transfer` take steps on the words of the cell.
#[derive(Drop)]
pub enum Call<'a> {
    /// Gets a strong owner of the version that is published last, under this name.
    Load(Handle<'a>),
    /// Releases a strong owner.
    Drop(Handle<'a>),
    /// Gets another strong owner of the first name's version, under the second name.
    Copy(Handle<'a>, Handle<'a>),
    /// Gets a weak owner of the version that the first name's strong owner has, under the second name.
    Weak(Handle<'a>, Handle<'a>),
    /// Releases a weak owner.
    Fade(Handle<'a>),
    /// Gets a strong owner of the version that the first name's weak owner has, under the second name, or none where it is buried.
    Up(Handle<'a>, Handle<'a>),
    /// A request over UDP, other than an update or a question for a transfer that may be sent, answered in the version that a strong owner has.
    Ask(Handle<'a>, Request<'a>),
    /// A question over TCP for a transfer that may be sent; the served version is the one that a strong owner has
    /// (RFC 1995, 2; RFC 5936, 2.2).
    Transfer(Handle<'a>, Request<'a>),
    /// A dynamic update from a peer that may update (RFC 2136).
    Update(Request<'a>),
}

/// A line of a script.
#[derive(Drop)]
pub enum WorldStep<'a> {
    /// Makes a call with all its steps.
    Whole(Call<'a>),
    /// Begins a call under this name; it takes no step yet.
    Begin(Handle<'a>, Call<'a>),
    /// Takes one step of the call under way of this name.
    Next(Handle<'a>),
}

/// The name of a step on a word.
#[derive(Clone, Copy)]
pub enum StepName {
    /// A share is granted from W.
    Load,
    /// The publisher checks whether a slot is free.
    Probe,
    /// The publisher puts the version into its slot.
    Prepare,
    /// The publisher puts its slot into W.
    Swap,
    /// The publisher gives back all but one of the shares that weren't granted.
    Settle,
    /// An owner gives its share back.
    Release,
    /// An owner tries to bury the version that it left without an owner.
    Bury,
    /// It is checked whether a version is buried.
    Look,
    /// A share of a version that isn't buried is granted.
    Raise,
    /// The publisher makes a weak owner.
    Note,
    /// An owner is no longer counted among those that keep a slot from being used again.
    Fade,
    /// The last of these owners to fade opens the slot again.
    Reset,
    /// That owner marks the slot as free.
    Free,
}

impl StepName {
    /// The word that scripts use for it.
    fn word(self) -> &'static str
        ensures { result.now ≡ step_words self }
    {
        match self {
            StepName::Load => "load",
            StepName::Probe => "probe",
            StepName::Prepare => "prepare",
            StepName::Swap => "swap",
            StepName::Settle => "settle",
            StepName::Release => "release",
            StepName::Bury => "bury",
            StepName::Look => "look",
            StepName::Raise => "raise",
            StepName::Note => "note",
            StepName::Fade => "fade",
            StepName::Reset => "reset",
            StepName::Free => "free",
        }
    }
}

impl fmt::Display for StepName {
    ghost output = { λ name. Some (step_words name) };

    fn fmt<W: fmt::Write>(&self, f: &mut fmt::Formatter<W>) -> fmt::Result {
        f.write_str(self.word())
    }
}

/// Octets that the world itself holds.
#[derive(Drop)]
pub struct Octets {
    items: Vec<u8>,
}

impl Model for Octets {
    ghost use Rattle.std.specs.Prelude.{List, ℕ};

    ghost Value = { List ℕ };

    ghost view = { λ a. a.items.items };
}

impl Octets {
    ghost use Rattle.std.specs.Prelude.{◌≡◌};

    /// Octets from a Vec.
    pub fn new(items: Vec<u8>) -> Octets
        ensures { result ≡ items.items }
    {
        Octets { items }
    }

    /// The octets.
    pub fn as_slice(&self) -> &[u8]
        ensures { result.now ≡ self.now }
    {
        self.items.as_slice()
    }
}

/// The answer of a call.
#[derive(Drop)]
pub enum Answer {
    /// The name of the strong or weak owner, and the number of its version; the first version is number 0.
    Owner(Octets, u64),
    /// The strong owner is released, and the call has buried nothing.
    Left,
    /// The strong owner is released, and the call has buried the version of this number.
    Buried(u64),
    /// The weak owner is released.
    Faded,
    /// There is no strong owner, since the version is buried.
    Nothing,
    /// The reply to a request, as on the wire.
    Reply(Octets),
    /// The request gets no reply.
    Silent,
    /// The messages of a transfer.
    Messages(MessageList),
}

/// The reply to a line.
#[derive(Drop)]
pub enum WorldReply {
    /// The call of the line has made all its steps, and gives this answer.
    Answered(Answer),
    /// The call of the line has begun.
    Begun,
    /// The call under way has taken this step.
    Step(StepName),
    /// The call under way has taken this step, its last, and gives this answer.
    Last(StepName, Answer),
    /// The line wasn't enabled, and changed nothing: a name that is in use already, or that isn't in use; an update, or a question for an
    /// incremental transfer, while an update is under way; a request of another kind than the call's; a step that is impossible on the
    /// words.
    NotEnabled,
}

//! What the steps of the work on a connection come to.
ghost use Rattle.std.specs.Prelude.{◌≡◌, ◌↔◌, ◌⊎◌, IsTrue};

/// What a step of the work on a connection came to: the answering of requests, the writing of replies, a read, or a share of all of these.
#[derive(Clone, Copy)]
pub enum Step {
    /// Something was done, and the same step could go on.
    More,
    /// Nothing of it is left: no whole request is held, or nothing is to be written.
    Done,
    /// So much is to be written that no further request is answered before that.
    Full,
    /// The stream would block.
    Blocked,
    /// The first request that is held is answered later, and nothing else can be done before that.
    Later,
}

impl Step {
    /// Whether the connection couldn't go on: its stream would block, or a request waits for its reply.
    pub(crate) fn has_stopped(self) -> bool
        ensures { IsTrue result ↔ ((self ≡ Step.Blocked) ⊎ (self ≡ Step.Later)) }
    {
        match self {
            Step::Blocked => true,
            Step::Later => true,
            Step::More => false,
            Step::Done => false,
            Step::Full => false,
        }
    }
}

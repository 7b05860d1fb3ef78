//! A list of replies that only clauses read.
ghost use Rattle.std.specs.Prelude.{◌≡◌, List, [], ◌∷◌, ◌++◌};
ghost use Rattle.std.specs.Borrow.{ftrue};
ghost use Rattle.update_batches.specs.Reply.{Reply, reply_of};

use journal::RequestMessages;
use std::marker::{Model, PhantomData};

/// What requests were told, the first one first. No memory holds it.
#[derive(Drop)]
pub struct ReplyList {
    marker: PhantomData<u8>,
    /// The replies.
    pub ghost replies: { List Reply },
}

impl Model for ReplyList {
    ghost also_owns = { λ _. ftrue };
}

impl ReplyList {
    /// No replies.
    pub fn new() -> ReplyList
        ensures { result.replies ≡ [] }
    {
        ReplyList {
            marker: PhantomData,
        }
    }

    /// One reply more: its code, as the first of numbers, and the messages of its request.
    pub fn note(&mut self, _numbers: &[u64], _messages: &RequestMessages)
        ensures { self.new.replies ≡ self.old.replies ++ reply_of _numbers.now _messages.now ∷ [] }
    {}
}

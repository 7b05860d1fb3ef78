//! What holds of the type of a question, and of the counters of replies.
ghost use Rattle.message_counts.specs.Places.{TypesAgree};
ghost use Rattle.message_counts.specs.Replies.{RepliesCountOnce};

/// The law of types: the type that is read at a message's end is the one after its question's name.
pub fn types_agree()
    ensures { TypesAgree }
{}

/// The law of replies: each is counted by one RCODE, once, so that all RCODEs together are the replies; no request and no transfer is counted as one.
pub fn replies_count_once()
    ensures { RepliesCountOnce }
{}

//! An update that is asked for (RFC 2136, 2).
ghost use Rattle.std.specs.Prelude.{◌≡◌, ◌≤◌, ◌^◌, [], ◌∷◌, Some, length, MatchOption};
ghost use Rattle.std.specs.Coded.{Coded-set, coded_option};
ghost use Rattle.dns_message.specs.Request.{reads};
ghost use Rattle.dns_message.specs.declared.query.Parsed.TheVariants.{Update as Says};
ghost use Rattle.update_messages.specs.Joined.{IsRead};
ghost use Rattle.update_batches.specs.ReadAs.{read_as};

use dns_message::Update;
use journal::RequestMessages;
use std::alloc::Global;

/// An update that is asked for: as it is read, with the messages that it was read of, and whether its peer may update.
pub struct UpdateRequest {
    /// The update.
    pub(crate) update: Update,
    /// Its messages.
    pub(crate) messages: RequestMessages,
    /// Whether its peer may update.
    pub(crate) may: bool,
    ghost read: { read_as messages ≡ Some update } by { Coded-set (coded_option update-code) (read_as messages) (Some update) },
}

impl Drop for UpdateRequest {
    fn drop(self) {
        let UpdateRequest {
            update: _,
            messages: _,
            may: _,
        } = self;
    }
}

impl UpdateRequest {
    /// An update that was read of one message of these octets, sent by a peer that may update, or may not. None where they are more than 65,535.
    #[tactic(auto, using(update_messages::proofs::JoinedLemmas::one_read, crate::proofs::RequestLemmas::too_long))]
    pub fn of(alloc: Global, update: Update, octets: Vec<u8>, may: bool) -> Option<UpdateRequest>
        requires { reads octets.items ≡ Says update }
        ensures { MatchOption result (2 ^ 16 ≤ length octets.items) (λ asked. (asked.update ≡ update) × (asked.messages ≡ octets.items ∷ []) × (asked.may ≡ may)) }
    {
        let messages = RequestMessages::one(alloc, octets)?;
        Some(UpdateRequest::joined(update, messages, may))
    }

    /// An update that was read of these messages, of a peer that may update, or may not.
    pub fn joined(update: Update, messages: RequestMessages, may: bool) -> UpdateRequest
        requires { IsRead messages update }
        ensures { (result.update ≡ update) × (result.messages ≡ messages) × (result.may ≡ may) }
    {
        UpdateRequest {
            update,
            messages,
            may,
        }
    }

    /// The update.
    #[tactic(auto, using(crate::proofs::ReadLemmas::read_is))]
    pub fn update(&self) -> &Update
        ensures update { result.now ≡ self.now.update }
        ensures read { IsRead self.now.messages result.now }
    {
        &self.update
    }

    /// Its messages.
    pub fn messages(&self) -> &RequestMessages
        ensures { result.now ≡ self.now.messages }
    {
        &self.messages
    }

    /// Whether its peer may update.
    pub fn may(&self) -> bool
        ensures { result ≡ self.now.may }
    {
        self.may
    }
}

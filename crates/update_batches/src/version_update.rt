//! A version with the update that made it (RFC 2136, 3; own).
ghost use Rattle.std.specs.Prelude.{◌≡◌, ◌<◌, length, IfOk};
ghost use Rattle.journal.specs.Batch.{request_octets, IsRequest};
ghost use Rattle.journal.specs.Frame.{body_limit};

use dns_engine::SharedVersion;
use journal::RequestMessages;
use std::alloc::{AllocError, Global};

/// A version, with the messages of the update that made it from the previous one, which a frame of a journal takes.
pub struct VersionUpdate {
    /// The version.
    pub(crate) version: SharedVersion,
    /// The messages of the update.
    pub(crate) messages: RequestMessages,
    ghost request: { IsRequest messages },
    ghost short: { length (request_octets messages) < body_limit },
}

impl Drop for VersionUpdate {
    fn drop(self) {
        let VersionUpdate {
            version: _,
            messages: _,
        } = self;
    }
}

impl VersionUpdate {
    /// A version with a copy of these messages. An error if there is no memory for them.
    pub fn of(
        alloc: Global,
        version: SharedVersion,
        messages: &RequestMessages,
    ) -> Result<VersionUpdate, AllocError>
        requires { length (request_octets messages.now) < body_limit }
        ensures { IfOk result (λ made. (made.version ≡ version) × (made.messages ≡ messages.now)) }
    {
        let messages = messages.copy(alloc)?;
        Ok(VersionUpdate { version, messages })
    }

    /// The version.
    pub fn version(&self) -> &SharedVersion
        ensures { result.now ≡ self.now.version }
    {
        &self.version
    }

    /// The messages of its update.
    pub fn messages(&self) -> &RequestMessages
        ensures messages { result.now ≡ self.now.messages }
        ensures short { length (request_octets result.now) < body_limit }
    {
        &self.messages
    }

    /// The version, for the thread that publishes it.
    pub fn into_version(self) -> SharedVersion
        ensures { result ≡ self.version }
    {
        let VersionUpdate {
            version,
            messages: _,
        } = self;
        version
    }
}

//! A transfer that makes its next message once its connection has taken the one before (RFC 1995, 4; RFC 5936, 2.2).
ghost use Rattle.std.specs.Prelude.{◌≡◌, ◌≤◌, true, [], ◌∷◌, length, take, IfSome, MatchOption};
ghost use Rattle.transfer_core.specs.Packed.{packed, octets_of};
ghost use Rattle.std.specs.Option.{option_copied};
ghost use Rattle.serve_core.specs.Heading.{reply_opt};
ghost use Rattle.serve_core.specs.Transfers.{list_for};
ghost use Rattle.zone_tree.specs.Zone.{soa_of};
ghost use Rattle.dns_engine.specs.Chain.{changes_by};
ghost use Rattle.zone_replies.specs.RemainingMessages.{question_left, messages_from};

use dns_engine::{SharedVersion, VersionChain};
use dns_message::{Query, Question};
use serve_core::{reply_opt, transfer_start};
use tcp_connections::Messages;
use transfer_core::{MAX_MESSAGE, Place, records_at, write_message};
use zone_tree::Version;

/// A full or incremental transfer over a stream. It owns its version and those since the client's, apart from their cell, and has a place in their
/// list of records. Each message is made from that place on.
pub struct Transfer {
    version: SharedVersion,
    chain: VersionChain,
    query: Query,
    /// Whether a message has been made.
    is_begun: bool,
    /// The place of the first record that is left.
    place: Place,
}

impl Drop for Transfer {
    fn drop(self) {
        let Transfer {
            version: _,
            chain: _,
            query: _,
            is_begun: _,
            place: _,
        } = self;
    }
}

/// The question that is still to be sent: the query's until the first message has been made, then none.
fn question_left(query: &Query, is_begun: bool) -> Option<&Question>
    ensures { option_copied result ≡ question_left is_begun query.now }
{
    if is_begun {
        return None;
    }
    Some(&query.question)
}

/// Writes the next message of a transfer, from a place on, at the front of `out`. Gives its length in octets, at most `MAX_MESSAGE`, and the place
/// after it; None where no message is left. It allocates nothing. Its work is at most one search for an owner and the records of the message.
fn write_from(
    version: &Version,
    chain: &VersionChain,
    query: &Query,
    is_begun: bool,
    place: &Place,
    out: &mut [u8],
) -> Option<(usize, Place)>
    requires { MAX_MESSAGE ≤ length out.old }
    ensures message { MatchOption result
        (messages_from version.now.zone chain.now.versions query.now is_begun place.now ≡ [])
        (λ r. messages_from version.now.zone chain.now.versions query.now is_begun place.now
        ≡ take r.0 out.new ∷ messages_from version.now.zone chain.now.versions query.now true r.1) }
    ensures len { IfSome result (λ r. r.0 ≤ MAX_MESSAGE) }
{
    let zone = version.zone();
    let list = records_at(zone, chain, place);
    let question = question_left(query, is_begun);
    let opt = reply_opt(query.edns);
    let (len, count) = write_message(query.head, &query.question.name, question, opt, list, out)?;
    Some((len, place.behind(zone, chain, count)))
}

impl Transfer {
    ghost use Rattle.std.specs.Prelude.{◌≡◌};
    ghost use Rattle.transfer_core.specs.Packed.{packed, octets_of};
    ghost use Rattle.serve_core.specs.Heading.{reply_opt};
    ghost use Rattle.serve_core.specs.Transfers.{list_for};
    ghost use Rattle.zone_tree.specs.Zone.{soa_of};
    ghost use Rattle.dns_engine.specs.Chain.{changes_by};
    ghost use Rattle.zone_replies.specs.Going.{transfer_left};

    /// The transfer that a query asks for in a version, with the chain of versions since the client's. No message has been made.
    pub fn new(version: SharedVersion, chain: VersionChain, query: Query) -> Transfer
        ensures { transfer_left result ≡ octets_of (packed query.head query.question (reply_opt query.edns) (list_for version.zone (changes_by (soa_of version.zone) chain) query)) }
    {
        let place = transfer_start(version.get(), &chain, &query);
        Transfer {
            version,
            chain,
            query,
            is_begun: false,
            place,
        }
    }
}

impl Messages for Transfer {
    ghost use Rattle.zone_replies.specs.Going.{transfer_left};

    ghost left = { transfer_left };

    fn next_message(&mut self, out: &mut [u8]) -> Option<usize> {
        let (len, place) = write_from(
            self.version.get(),
            &self.chain,
            &self.query,
            self.is_begun,
            &self.place,
            out,
        )?;
        self.is_begun = true;
        self.place = place;
        Some(len)
    }
}

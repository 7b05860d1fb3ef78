//! How an unknown key and a wrong MAC are told (RFC 8945, 5.3.2).
ghost use Rattle.std.specs.Prelude.{◌≡◌, ◌≤◌, ◌<◌, ◌+◌, ◌-◌, ◌^◌, length, take, drop};
ghost use Rattle.dns_message.specs.Message.{number_at};
ghost use Rattle.tsig.specs.Fields.{other_of};
ghost use Rattle.tsig.specs.Signing.{unsigned, with_error_tsig};

use crate::fields::Data;
use crate::octets::number_at;
use crate::record::{Tsig, record_octets};
use crate::signing::append_record;
use crate::tsig_error::TsigError;
use dns_message::HEADER;

/// The most octets of a TSIG without a MAC that has the names of one that was read, and no Other Data (own).
pub const MAX_ERROR_TSIG: usize = 502;

/// Makes of the reply in the first octets of `out` one that tells this error, unsigned, with the names and times of the request's TSIG, and gives how many octets it has. What
/// is behind these stays.
pub fn add_error_tsig(tsig: &Tsig<'_>, error: TsigError, out: &mut [u8], len: usize) -> usize
    requires header { HEADER ≤ len }
    requires room { len + MAX_ERROR_TSIG ≤ length out.old }
    requires counted { number_at out.old 10 < 2 ^ 16 - 1 }
    ensures octets { take result out.new ≡ with_error_tsig tsig.now error (take len out.old) }
    ensures behind { drop result out.new ≡ drop result out.old }
    ensures size { result ≤ len + MAX_ERROR_TSIG }
{
    let other = error.other();
    let fields = unsigned(tsig.fields(), error, &out[..len], &other);
    let added = record_octets(tsig.owner(), tsig.algorithm(), &fields);
    append_record(out, len, &added)
}

/// The fields of the TSIG that tells an error of a request of these fields (RFC 8945, 5.3.2).
fn unsigned<'m>(fields: &Data<'_>, error: TsigError, plain: &[u8], other: &'m [u8]) -> Data<'m>
    requires header { HEADER ≤ length plain.now }
    requires tells { other.now ≡ other_of error }
    ensures { result ≡ unsigned fields.now error plain.now }
{
    Data {
        time: fields.time,
        fudge: fields.fudge,
        mac: &[],
        original: number_at(plain, 0),
        error: error.number(),
        other,
    }
}

//! A name that differs from the one before it in its first label alone.
ghost use Rattle.std.specs.Prelude.{IfSome};
ghost use Rattle.dns_name.specs.Stored.{IsClosed, IsPlainFront};

use crate::stored::{CLOSING, ESCAPE};

/// The octets before the last label, where each octet of that label stands for itself; None where there is no label, or some octet of it
/// stands before another.
pub(crate) fn plain_front(octets: &[u8]) -> Option<&[u8]>
    requires { IsClosed octets.now }
    ensures { IfSome result (λ front. IsPlainFront octets.now front.now) }
{
    let (_, labels) = octets.split_last()?;
    let mut start = labels.len();
    while start > 0 && labels[start - 1] > ESCAPE {
        start -= 1;
    }
    if start > 0 && labels[start - 1] != CLOSING {
        return None;
    }
    Some(&labels[..start])
}

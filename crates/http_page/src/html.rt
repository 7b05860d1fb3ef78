//! Text in a page.
ghost use Rattle.std.specs.Prelude.{◌≡◌, ◌++◌, ◌∷◌, OnOk, flat_map};
ghost use Rattle.http_page.specs.Html.{escaped_octet, escaped};

use metrics_text::put_text;
use std::alloc::AllocError;

/// Puts octets at the end of a page's text, so that they show as they are. The fault is a growth that was refused.
pub(crate) fn put_escaped(text: &mut Vec<u8>, octets: &[u8]) -> Result<(), AllocError>
    ensures { OnOk result (text.new.items ≡ text.old.items ++ escaped octets.now) }
{
    for octet in octets {
        put_octet(text, *octet)?;
    }
    Ok(())
}

/// Puts an octet at the end of a page's text, so that it shows as it is.
fn put_octet(text: &mut Vec<u8>, octet: u8) -> Result<(), AllocError>
    ensures { OnOk result (text.new.items ≡ text.old.items ++ escaped_octet octet) }
{
    match octet {
        b'&' => put_text(text, "&amp;"),
        b'<' => put_text(text, "&lt;"),
        b'>' => put_text(text, "&gt;"),
        b'"' => put_text(text, "&quot;"),
        other => {
            text.push(other)?;
            Ok(())
        }
    }
}

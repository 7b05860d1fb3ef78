//! The byte order mark that a zone file may begin with.
ghost use Rattle.std.specs.Prelude.{◌≡◌};
ghost use Rattle.wide_file.specs.Mark.{after_mark};

/// A text without the byte order mark that it may begin with, which is U+FEFF in UTF-8 (RFC 3629, 6).
pub fn without_mark(text: &[u8]) -> &[u8]
    ensures { result.now ≡ after_mark text.now }
{
    match text {
        [0xef, 0xbb, 0xbf, rest @ ..] => rest,
        _ => text,
    }
}
